ghost use Rattle.std.specs.Prelude.{◌≡◌, ℕ, ◌≤◌, Option, length, IfOk, IfSome, is_ok, IsErr, IsErrOf};
ghost use Rattle.pt_disk.specs.Folder.{After, after_rename};
ghost use Rattle.pt_disk.specs.declared.change.Change.TheVariants.{Put, Sync, Remove, Settle};
ghost use Rattle.pt_disk.specs.declared.disk.DiskStop.TheVariants.{Failed, NoMemory as OutOfMemory};
ghost use Rattle.pt_disk.specs.Moments.{Told};
ghost use Rattle.pt_disk.specs.Calls.{
  HasCause,
  Rests,
  Changes,
  AreNames,
  AreOrdered,
  IsFirstPart,
  IsThere,
};

use pt_choice::{NoMemory, Octets, Seq};
use std::alloc::Global;

/// A call of the disk that failed. The disk has counted it.
#[derive(Clone, Copy, Debug, PartialEq, Eq)]
pub struct DiskFailed;

/// Why a call that reads gave no answer.
#[derive(Clone, Copy, Debug, PartialEq, Eq)]
pub enum DiskStop {
    /// The call failed, and the disk has counted it.
    Failed,
    NoMemory,
}

impl From<DiskFailed> for DiskStop {
    ghost from_gives = { λ _ stop. stop ≡ Failed };

    fn from(_: DiskFailed) -> DiskStop {
        DiskStop::Failed
    }
}

impl From<NoMemory> for DiskStop {
    ghost from_gives = { λ _ stop. stop ≡ OutOfMemory };

    fn from(_: NoMemory) -> DiskStop {
        DiskStop::NoMemory
    }
}

/// Names of files, as bytes.
pub type FileNames = Seq<Octets>;

/// One flat folder, which may stop at any moment.
///
/// A disk counts the calls that failed, as a `u64` that stands still at its greatest value. A call that does not fail
/// counts none. A changing call that failed may have done any part of its work, and a call after it is allowed.
pub trait Disk {
    /// How many of its calls failed.
    ghost faults: { Self → ℕ };

    /// The folder at each moment so far, where the disk tells it.
    ghost tells: { Self → Option Told };

    /// All names, each once, in byte order.
    fn names(&mut self, alloc: Global) -> Result<FileNames, DiskStop>
        ensures all { IfOk result (AreNames (tells self.old)) }
        ensures ordered { IfOk result AreOrdered }
        ensures rests { Rests (tells self.old) (tells self.new) }
        ensures cause { HasCause (IsErrOf result DiskStop.Failed) (faults self.old) (faults self.new) };

    /// The first `cap` bytes of the file of this name; None where there is no such file.
    fn read(&mut self, alloc: Global, name: &[u8], cap: usize) -> Result<Option<Octets>, DiskStop>
        ensures part { IfOk result (IsFirstPart (tells self.old) name.now cap) }
        ensures within { IfOk result (λ read. IfSome read (λ bytes. length bytes ≤ cap)) }
        ensures rests { Rests (tells self.old) (tells self.new) }
        ensures cause { HasCause (IsErrOf result DiskStop.Failed) (faults self.old) (faults self.new) };

    /// The name now has these bytes. Until a sync a crash may leave any bytes there.
    fn put(&mut self, name: &[u8], bytes: &[u8]) -> Result<(), DiskFailed>
        ensures changes { Changes (After (Put name.now bytes.now)) (is_ok result) (tells self.old) (tells self.new) }
        ensures cause { HasCause (IsErr result) (faults self.old) (faults self.new) };

    /// The bytes of the file of this name are stable.
    fn sync(&mut self, name: &[u8]) -> Result<(), DiskFailed>
        ensures changes { Changes (After (Sync name.now)) (is_ok result) (tells self.old) (tells self.new) }
        ensures cause { HasCause (IsErr result) (faults self.old) (faults self.new) };

    /// The one file is now the other's, whose own is gone.
    fn rename(&mut self, from: &[u8], to: &[u8]) -> Result<(), DiskFailed>
        requires { IsThere (tells self.old) from.now }
        ensures changes { Changes (after_rename from.now to.now) (is_ok result) (tells self.old) (tells self.new) }
        ensures cause { HasCause (IsErr result) (faults self.old) (faults self.new) };

    /// The name is absent.
    fn remove(&mut self, name: &[u8]) -> Result<(), DiskFailed>
        ensures changes { Changes (After (Remove name.now)) (is_ok result) (tells self.old) (tells self.new) }
        ensures cause { HasCause (IsErr result) (faults self.old) (faults self.new) };

    /// All names are stable.
    fn settle(&mut self) -> Result<(), DiskFailed>
        ensures changes { Changes (After Settle) (is_ok result) (tells self.old) (tells self.new) }
        ensures cause { HasCause (IsErr result) (faults self.old) (faults self.new) };
}
