ghost use Rattle.std.specs.Prelude.{◌≡◌, true, IfOk, IsErrOf};
ghost use Rattle.pt_choice.specs.Faults.{Rose, next_count};
ghost use Rattle.pt_io.specs.Files.{HasBytes, HasNone, IsSame};
ghost use Rattle.pt_io.specs.Reading.{IsWithinLimit, IsPastLimit};
ghost use Rattle.pt_io.specs.declared.reading.ReadStop.TheVariants.{NoMemory as OutOfMemory};

use crate::Files;
use pt_choice::{NoMemory, Octets};
use std::alloc::{AllocError, Global};

// The most bytes of a file that is read whole.
const MAX_BYTES: usize = 1_048_576;

// How many bytes are asked for at once.
const PIECE: usize = 4096;

/// Why a file was not read.
#[derive(Clone, Copy, Debug, PartialEq, Eq)]
pub enum ReadStop {
    /// A call of the files failed.
    Failed,
    /// The file has more than 1,048,576 bytes.
    TooLarge,
    NoMemory,
}

impl From<AllocError> for ReadStop {
    ghost from_gives = { λ _ stop. stop ≡ OutOfMemory };

    fn from(_: AllocError) -> ReadStop {
        ReadStop::NoMemory
    }
}

/// All the bytes of the file of this name, which is chosen once and read to its end. It ends on every file, also on
/// one that grows while it is read, since each turn but the last takes a byte.
pub fn read_whole<F: Files>(alloc: Global, files: &mut F, name: &str) -> Result<Octets, ReadStop>
    ensures whole { IfOk result (λ bytes. HasBytes (F.shows files.old) name.now (λ there. there ≡ bytes)) }
    ensures small { IfOk result IsWithinLimit }

    ensures large { IsErrOf result ReadStop.TooLarge → HasBytes (F.shows files.old) name.now IsPastLimit }

    // It failed exactly where a call of the files did, and a fault is counted in no other case.
    ensures failed { IsErrOf result ReadStop.Failed → Rose (F.shows files.old).faults (F.shows files.new).faults }
    ensures quiet { (IsErrOf result ReadStop.Failed → ⊥) → (F.shows files.new).faults ≡ (F.shows files.old).faults }
    ensures absent { IsErrOf result ReadStop.Failed → (F.shows files.old).steady ≡ true → HasNone (F.shows files.old) name.now }

    // The files are the same ones, of which one was chosen, once.
    ensures same { IsSame (F.shows files.old) (F.shows files.new) }
    ensures once { (F.shows files.new).chosen ≡ next_count (F.shows files.old).chosen }
{
    let Ok(()) = files.choose(name) else {
        return Err(ReadStop::Failed);
    };
    let mut bytes: Vec<u8> = Vec::new(alloc);
    loop {
        let mut piece = [0; PIECE];
        let Ok(n) = files.read(&mut piece) else {
            return Err(ReadStop::Failed);
        };
        if n == 0 {
            return Ok(Octets::from(bytes));
        }
        if n > MAX_BYTES - bytes.len() {
            return Err(ReadStop::TooLarge);
        }
        bytes.extend_from_slice(&piece[..n])?;
    }
}
