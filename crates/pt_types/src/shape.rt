/// What a type is made of, where the types in it are numbers of a table.
///
/// A tuple's type is the type of its first part and the tuple's type of the parts behind it, down to the empty tuple's. No
/// value is of that one, or of a tuple of one part; they stand for what is left of longer ones.
#[derive(Clone, Copy, Debug, PartialEq, Eq, Hash)]
pub enum Shape {
    Int,
    Bool,
    Text,
    Bytes,
    Tree,
    /// Lists of members of a type.
    List(usize),
    /// The empty tuple.
    Empty,
    /// A part of a type, and the parts behind it.
    Tuple(usize, usize),
}
