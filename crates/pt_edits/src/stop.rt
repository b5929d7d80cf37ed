ghost use Rattle.std.specs.Prelude.{◌≡◌, ◌≢◌};
ghost use Rattle.pt_edits.specs.declared.stop.StoreStop.TheVariants.{NoMemory as OutOfMemory};

use pt_choice::{NoMemory, Octets};

/// Two different values that have one SHA-256 digest.
#[derive(Debug, Drop)]
pub struct TwoValues {
    /// The one that is stored.
    pub kept: Octets,
    /// The one that was to be saved or deleted.
    pub offered: Octets,
}

/// Why the database did not do what was asked of it.
#[derive(Debug, Drop)]
pub enum StoreStop {
    /// A call of the disk failed, which the disk has counted.
    Failed,
    /// Two different values of one key have one digest.
    Clash(TwoValues),
    NoMemory,
}

impl From<NoMemory> for StoreStop {
    ghost from_gives = { λ _ stop. stop ≡ OutOfMemory };

    fn from(_: NoMemory) -> StoreStop {
        StoreStop::NoMemory
    }
}
