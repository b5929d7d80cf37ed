ghost use Rattle.std.specs.Prelude.{◌≡◌, ◌≢◌, ◌↔◌, ◌≤◌, length, is_ok, IsErr, IsErrOf, IfOk, OnOk, OnErr, IfSome, AllPairs, Some, take};
ghost use Rattle.pt_disk.specs.Folder.{After, after_rename, IsImage};
ghost use Rattle.pt_disk.specs.Moments.{now};
ghost use Rattle.pt_disk.specs.Calls.{HasCause, Rests, Changes, AreNames, AreOrdered, IsFirstPart};
ghost use Rattle.pt_disk.specs.Kept.{kept};
ghost use Rattle.pt_disk.specs.DiskInMemory.{
  shown,
  content_of,
  new_disk,
  after_call,
  after_failure,
  FailsNext,
  Answers,
  Makes,
  IsDiskOf,
};

use crate::history::{bytes_of, names_of};
use crate::image::kept_files;
use crate::{Change, Disk, DiskFailed, DiskStop, FileNames, Keep};
use pt_choice::{NoMemory, Octets, Seq};
use std::alloc::Global;
use std::marker::Model;

/// Names with the bytes of each.
pub type NamedFiles = Seq<(Octets, Octets)>;

/// The numbers, from 1, of the calls that are to fail.
pub type Calls = Seq<u64>;

/// A folder in memory, which tells everything. It keeps its files at the start, and each change since.
///
/// A call fails where its number is among those that are to fail, or where it changes the folder and finds no memory to
/// keep the change. Then it has changed nothing.
#[derive(Debug, Drop)]
pub struct MemoryDisk {
    alloc: Global,
    files: NamedFiles,
    changes: Vec<Change>,
    failing: Calls,
    calls: u64,
    faults: u64,
    starved: u64,
}

impl Model for MemoryDisk {
    ghost use Rattle.pt_disk.specs.DiskInMemory.{DiskInMemory};

    ghost Value = { DiskInMemory };

    ghost view = { λ m. record { files = m.files; changes = m.changes.items; failing = m.failing; calls = m.calls; faults = m.faults; starved = m.starved } };
}

impl MemoryDisk {
    /// These files, all of them stable. The calls with these numbers will fail.
    pub fn of(alloc: Global, files: NamedFiles, failing: Calls) -> Result<MemoryDisk, NoMemory>
        requires { AllPairs (λ one other. one.0 ≢ other.0) files }
        ensures { IfOk result (λ disk. disk ≡ new_disk files failing) }
    {
        Ok(MemoryDisk {
            alloc,
            files,
            changes: Vec::new(alloc),
            failing,
            calls: 0,
            faults: 0,
            starved: 0,
        })
    }

    /// How many changing calls found no memory.
    pub fn starved(&self) -> u64
        ensures { result ≡ self.now.starved }
    {
        self.starved
    }

    /// What a crash now may leave, as a disk of its own: one of the images, of which no call will fail.
    pub fn image(&self, keep: Keep) -> Result<MemoryDisk, NoMemory>
        ensures kept { IfOk result (IsDiskOf (kept keep (now (shown self.now)))) }
        ensures image { IfOk result (λ disk. IsImage (now (shown self.now)) (content_of disk.files)) }
    {
        let files = kept_files(
            self.alloc,
            keep,
            self.files.as_slice(),
            self.changes.as_slice(),
        )?;
        MemoryDisk::of(self.alloc, files, Calls::empty(self.alloc))
    }

    // A call begins, which fails where its number is to.
    fn begin(&mut self) -> Result<(), DiskFailed>
        ensures fails { IsErr result ↔ FailsNext self.old }
        ensures ok { OnOk result (self.new ≡ after_call self.old) }
        ensures failed { OnErr result (self.new ≡ after_failure self.old) }
        ensures cause { HasCause (IsErr result) self.old.faults self.new.faults }
    {
        self.calls = self.calls.saturating_add(1);
        if self.failing.as_slice().contains(&self.calls) {
            self.faults = self.faults.saturating_add(1);
            return Err(DiskFailed);
        }
        Ok(())
    }

    // A call that makes this change, where there was memory for it.
    fn make(&mut self, change: Result<Change, NoMemory>) -> Result<(), DiskFailed>
        ensures makes { (wanted : _) → IfOk change (λ made. made ≡ wanted) → Makes wanted self.old (is_ok result) self.new }
        ensures cause { HasCause (IsErr result) self.old.faults self.new.faults }
    {
        self.begin()?;
        if let Ok(change) = change
            && self.changes.push(change).is_ok()
        {
            return Ok(());
        }
        self.starved = self.starved.saturating_add(1);
        self.faults = self.faults.saturating_add(1);
        Err(DiskFailed)
    }
}

// At most so many of the first bytes.
fn first_part(bytes: &[u8], cap: usize) -> &[u8]
    ensures { result.now ≡ take cap bytes.now }
{
    if cap < bytes.len() {
        &bytes[..cap]
    } else {
        bytes
    }
}

fn put_of(alloc: Global, name: &[u8], bytes: &[u8]) -> Result<Change, NoMemory>
    ensures { IfOk result (λ change. change ≡ Change.Put name.now bytes.now) }
{
    let name = Octets::of(alloc, name)?;
    let bytes = Octets::of(alloc, bytes)?;
    Ok(Change::Put(name, bytes))
}

fn sync_of(alloc: Global, name: &[u8]) -> Result<Change, NoMemory>
    ensures { IfOk result (λ change. change ≡ Change.Sync name.now) }
{
    Ok(Change::Sync(Octets::of(alloc, name)?))
}

fn rename_of(alloc: Global, from: &[u8], to: &[u8]) -> Result<Change, NoMemory>
    ensures { IfOk result (λ change. change ≡ Change.Rename from.now to.now) }
{
    let from = Octets::of(alloc, from)?;
    let to = Octets::of(alloc, to)?;
    Ok(Change::Rename(from, to))
}

fn remove_of(alloc: Global, name: &[u8]) -> Result<Change, NoMemory>
    ensures { IfOk result (λ change. change ≡ Change.Remove name.now) }
{
    Ok(Change::Remove(Octets::of(alloc, name)?))
}

impl Disk for MemoryDisk {
    ghost faults = { λ disk. disk.faults };

    ghost tells = { λ disk. Some (shown disk) };

    fn names(&mut self, alloc: Global) -> Result<FileNames, DiskStop>
        ensures all { IfOk result (AreNames (Some (shown self.old))) }
        ensures ordered { IfOk result AreOrdered }
        ensures rests { Rests (Some (shown self.old)) (Some (shown self.new)) }
        ensures cause { HasCause (IsErrOf result DiskStop.Failed) self.old.faults self.new.faults }
        ensures answers { Answers self.old (IsErrOf result DiskStop.Failed) self.new }
    {
        self.begin()?;
        Ok(names_of(alloc, self.files.as_slice(), self.changes.as_slice())?)
    }

    fn read(&mut self, alloc: Global, name: &[u8], cap: usize) -> Result<Option<Octets>, DiskStop>
        ensures part { IfOk result (IsFirstPart (Some (shown self.old)) name.now cap) }
        ensures within { IfOk result (λ read. IfSome read (λ bytes. length bytes ≤ cap)) }
        ensures rests { Rests (Some (shown self.old)) (Some (shown self.new)) }
        ensures cause { HasCause (IsErrOf result DiskStop.Failed) self.old.faults self.new.faults }
        ensures answers { Answers self.old (IsErrOf result DiskStop.Failed) self.new }
    {
        self.begin()?;
        match bytes_of(self.files.as_slice(), self.changes.as_slice(), name) {
            Some(bytes) => Ok(Some(Octets::of(alloc, first_part(bytes, cap))?)),
            None => Ok(None),
        }
    }

    fn put(&mut self, name: &[u8], bytes: &[u8]) -> Result<(), DiskFailed>
        ensures changes { Changes (After (Change.Put name.now bytes.now)) (is_ok result) (Some (shown self.old)) (Some (shown self.new)) }
        ensures cause { HasCause (IsErr result) self.old.faults self.new.faults }
        ensures makes { Makes (Change.Put name.now bytes.now) self.old (is_ok result) self.new }
    {
        self.make(put_of(self.alloc, name, bytes))
    }

    fn sync(&mut self, name: &[u8]) -> Result<(), DiskFailed>
        ensures changes { Changes (After (Change.Sync name.now)) (is_ok result) (Some (shown self.old)) (Some (shown self.new)) }
        ensures cause { HasCause (IsErr result) self.old.faults self.new.faults }
        ensures makes { Makes (Change.Sync name.now) self.old (is_ok result) self.new }
    {
        self.make(sync_of(self.alloc, name))
    }

    fn rename(&mut self, from: &[u8], to: &[u8]) -> Result<(), DiskFailed>
        ensures changes { Changes (after_rename from.now to.now) (is_ok result) (Some (shown self.old)) (Some (shown self.new)) }
        ensures cause { HasCause (IsErr result) self.old.faults self.new.faults }
        ensures makes { from.now ≢ to.now → Makes (Change.Rename from.now to.now) self.old (is_ok result) self.new }
        ensures same { from.now ≡ to.now → Answers self.old (IsErr result) self.new }
    {
        if from == to {
            return self.begin();
        }
        self.make(rename_of(self.alloc, from, to))
    }

    fn remove(&mut self, name: &[u8]) -> Result<(), DiskFailed>
        ensures changes { Changes (After (Change.Remove name.now)) (is_ok result) (Some (shown self.old)) (Some (shown self.new)) }
        ensures cause { HasCause (IsErr result) self.old.faults self.new.faults }
        ensures makes { Makes (Change.Remove name.now) self.old (is_ok result) self.new }
    {
        self.make(remove_of(self.alloc, name))
    }

    fn settle(&mut self) -> Result<(), DiskFailed>
        ensures changes { Changes (After Change.Settle) (is_ok result) (Some (shown self.old)) (Some (shown self.new)) }
        ensures cause { HasCause (IsErr result) self.old.faults self.new.faults }
        ensures makes { Makes Change.Settle self.old (is_ok result) self.new }
    {
        self.make(Ok(Change::Settle))
    }
}
