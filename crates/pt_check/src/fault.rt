use pt_choice::NoMemory;
use pt_val::Place;
use thiserror::Error;

/// Why a suite is not taken: its first fault, with the place of it, or want of memory.
#[derive(Clone, Copy, Debug, PartialEq, Eq, Error)]
pub enum TypeFault {
    /// The name is not in scope, or a `self` stands for nothing.
    #[error("unknown name")]
    Unknown(Place),
    /// The name is taken, or a character stands twice in the alphabet.
    #[error("name twice")]
    Twice(Place),
    /// The part is not of the type that is needed there.
    #[error("wrong type")]
    Wrong(Place),
    /// There is no check of the item's name among those handed in.
    #[error("unknown check")]
    UnknownCheck(Place),
    /// There was no memory for the names or the types.
    #[error("out of memory")]
    NoMemory,
}

impl From<NoMemory> for TypeFault {
    ghost use Rattle.std.specs.Prelude.{◌≡◌};
    ghost use Rattle.pt_check.specs.declared.fault.TypeFault.TheVariants.{NoMemory};

    ghost from_gives = { λ _ stop. stop ≡ NoMemory };

    fn from(_: NoMemory) -> TypeFault {
        TypeFault::NoMemory
    }
}
