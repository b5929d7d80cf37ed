ghost use Rattle.std.specs.Prelude.{◌≡◌, IfOk};
ghost use Rattle.pt_taking.specs.declared.stop.Stop.TheVariants as stop;
ghost use Rattle.pt_taking.specs.Gives.{Refuses};

use pt_choice::NoMemory;
use pt_grammar::Sort;
use pt_token::Token;
use std::alloc::{AllocError, AllocFailed};

/// Why reading stopped.
#[derive(Clone, Copy, Debug)]
pub enum Stop<'a> {
    /// A fault, and the tokens from the faulty one on.
    At(Sort, &'a [Token]),
    /// There was no memory for the tree.
    NoMemory,
}

impl From<NoMemory> for Stop<'_> {
    ghost from_gives = { λ _ made. made ≡ stop.NoMemory };

    fn from(_: NoMemory) -> Self {
        Stop::NoMemory
    }
}

impl From<AllocError> for Stop<'_> {
    ghost from_gives = { λ _ made. made ≡ stop.NoMemory };

    fn from(_: AllocError) -> Self {
        Stop::NoMemory
    }
}

impl<T: Drop> From<AllocFailed<T>> for Stop<'_> {
    ghost from_gives = { λ _ made. made ≡ stop.NoMemory };

    fn from(_: AllocFailed<T>) -> Self {
        Stop::NoMemory
    }
}

/// The fault of a part too many, by what reading its first token alone came to.
pub fn refusal<X: Drop>(found: Result<X, Stop<'_>>) -> Result<Sort, NoMemory>
    ensures { IfOk result (Refuses found.entry) }
{
    match found {
        Ok(_) | Err(Stop::At(_, [])) => Ok(Sort::OutOfRange),
        Err(Stop::At(which, _)) => Ok(which),
        Err(Stop::NoMemory) => Err(NoMemory),
    }
}
