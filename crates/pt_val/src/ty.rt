use pt_choice::Seq;

/// The type of a value.
#[derive(Debug, Drop)]
pub enum Ty {
    Int,
    Bool,
    Text,
    Bytes,
    Tree,
    /// Lists whose members are all of one type.
    List(Box<Ty>),
    /// Tuples whose members are of these types, in order.
    Tuple(Tys),
}

/// Types in order.
pub type Tys = Seq<Ty>;
