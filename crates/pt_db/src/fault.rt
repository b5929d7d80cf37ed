ghost use Rattle.std.specs.Prelude.{◌≡◌};
ghost use Rattle.pt_db.specs.declared.fault.StoreFault.TheVariants.{NoMemory as OutOfMemory};

use pt_choice::{NoMemory, Octets};
use thiserror::Error;

/// Why a store gave no answer.
#[derive(Debug, Drop, Error)]
pub enum StoreFault {
    /// A call of the disk failed, which the disk has counted. Attach the folder again.
    #[error("a call of the disk failed")]
    Disk,
    /// An earlier call of this store answered `Disk`.
    #[error("the store is dead")]
    Dead,
    /// The pair's file holds another value, which has the same SHA-256.
    #[error("another value of the same digest is stored")]
    Clash { kept: Octets, offered: Octets },
    #[error("out of memory")]
    NoMemory,
}

impl From<NoMemory> for StoreFault {
    ghost from_gives = { λ _ fault. fault ≡ OutOfMemory };

    fn from(_: NoMemory) -> StoreFault {
        StoreFault::NoMemory
    }
}
