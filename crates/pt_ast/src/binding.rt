use pt_val::{Name, Val};

/// A name in scope with its value.
#[derive(Debug, Drop)]
pub struct Binding {
    pub name: Name,
    pub val: Val,
}
