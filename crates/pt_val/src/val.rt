ghost use Rattle.std.specs.Prelude.{◌≡◌, IfOk};

use crate::Chars;
use pt_choice::{NoMemory, Octets, Seq};

/// A value of the suite language.
#[derive(Debug, Drop)]
pub enum Val {
    Int(i64),
    Bool(bool),
    Text(Chars),
    Bytes(Octets),
    List(Vals),
    Tuple(Vals),
    /// A node of a tree: its label, and its children in order. A leaf has none.
    Node(i64, Vals),
}

/// Values in order: the members of a list or a tuple, or the children of a node.
pub type Vals = Seq<Val>;

impl Val {
    #[cycle(copy)]
    pub fn copy(&self) -> Result<Val, NoMemory>
        ensures { IfOk result (λ value. value ≡ self.now) }
    {
        match self {
            Val::Int(number) => Ok(Val::Int(*number)),
            Val::Bool(truth) => Ok(Val::Bool(*truth)),
            Val::Text(chars) => Ok(Val::Text(chars.copy()?)),
            Val::Bytes(bytes) => Ok(Val::Bytes(bytes.copy()?)),
            Val::List(members) => Ok(Val::List(copy_all(members)?)),
            Val::Tuple(members) => Ok(Val::Tuple(copy_all(members)?)),
            Val::Node(label, children) => Ok(Val::Node(*label, copy_all(children)?)),
        }
    }
}

#[cycle(copy)]
fn copy_all(values: &Vals) -> Result<Vals, NoMemory>
    ensures { IfOk result (λ copies. copies ≡ values.now) }
{
    let mut copies = Seq::empty(values.allocator());
    for value in values.as_slice() {
        copies.push(value.copy()?)?;
    }
    Ok(copies)
}
