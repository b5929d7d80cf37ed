use pt_val::{Name, Place};

/// A name as it stands in a suite.
#[derive(Debug, Drop)]
pub struct Ident {
    pub at: Place,
    pub name: Name,
}
