ghost use Rattle.std.specs.Prelude.{◌≡◌, IfOk, IsOk};
ghost use Rattle.pt_choice.specs.Kind.{IsSmall};

use crate::{NoMemory, Octets};

/// One answer that a generator was given.
#[derive(Debug, PartialEq, Eq, Hash, Drop)]
pub enum Choice {
    Bool(bool),
    /// An offset from the number that reductions go toward.
    Int(i128),
    Bytes(Octets),
    /// Places in an alphabet, and not its characters.
    Text(Octets),
}

impl Choice {
    /// The same choice. For a boolean or an integer it never fails.
    pub fn copy(&self) -> Result<Choice, NoMemory>
        ensures same { IfOk result (λ choice. choice ≡ self.now) }
        ensures small { IsSmall self.now → IsOk result }
    {
        match self {
            Choice::Bool(value) => Ok(Choice::Bool(*value)),
            Choice::Int(value) => Ok(Choice::Int(*value)),
            Choice::Bytes(bytes) => Ok(Choice::Bytes(bytes.copy()?)),
            Choice::Text(places) => Ok(Choice::Text(places.copy()?)),
        }
    }
}
