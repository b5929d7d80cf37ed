ghost use Rattle.std.specs.Prelude.{◌≡◌};
ghost use Rattle.pt_wire.specs.declared.fault.WireFault.TheVariants as fault;
ghost use Rattle.pt_wire.specs.declared.fault.Stop.TheVariants as stop;

use pt_choice::NoMemory;
use thiserror::Error;

/// Why a text or bytes could not be read as a list of choices.
#[derive(Clone, Copy, Debug, PartialEq, Eq, Error)]
pub enum WireFault {
    /// The input spells no list, of whatever length. No spelling begins with its first `at + 1` bytes, and some
    /// spelling begins with its first `at`. Where the whole input only begins a spelling, `at` is its length.
    #[error("no list of choices, from byte {at} on")]
    NotSpelling { at: u32 },
    /// The input spells a list of more than 256 choices.
    #[error("more than 256 choices")]
    TooLong,
    #[error("out of memory")]
    NoMemory,
}

impl From<NoMemory> for WireFault {
    ghost from_gives = { λ _ made. made ≡ fault.NoMemory };

    fn from(_: NoMemory) -> WireFault {
        WireFault::NoMemory
    }
}

/// Why a part of the input could not be read, and how far into that part.
#[derive(Clone, Copy, Debug, PartialEq, Eq)]
pub(crate) enum Stop {
    At(usize),
    NoMemory,
}

impl From<NoMemory> for Stop {
    ghost from_gives = { λ _ made. made ≡ stop.NoMemory };

    fn from(_: NoMemory) -> Stop {
        Stop::NoMemory
    }
}
