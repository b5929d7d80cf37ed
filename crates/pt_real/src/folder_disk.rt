ghost use Rattle.std.specs.Prelude.{◌≡◌, ◌≤◌, true, false, length, None, is_ok, IsErr, IsErrOf, IfOk, IfSome, IfNone, OnOk, string_bytes};
ghost use Rattle.pt_disk.specs.Folder.{After, after_rename};
ghost use Rattle.pt_disk.specs.Calls.{AreNames, AreOrdered, HasCause, Rests, Changes, IsFirstPart};
ghost use Rattle.pt_disk.specs.declared.change.Change.TheVariants as change;
ghost use Rattle.pt_real.specs.Asked.{Created, Absent, Renamed, Removed, and_did, and_synced, and_unlocked};
ghost use Rattle.pt_real.specs.FileNames.{IsFileName, path_in};
ghost use Rattle.pt_real.specs.Steps.{IsGivenBack, IsListed, IsReadUpTo, locked_first, made_first};

use crate::file_system::FileSystem;
use crate::folder::Folder;
use crate::outcome::counted;
use pt_choice::{NoMemory, Octets};
use pt_disk::{Disk, DiskFailed, DiskStop, FileNames};
use std::alloc::Global;
use std::io;

/// A folder of the machine, below the current one, which its first call makes where it is absent. It tells nothing of what it holds;
/// each error counts as a fault.
#[derive(Drop)]
pub struct FolderDisk<S> {
    folder: Folder<S>,
    faults: u64,
}

impl<S: FileSystem + Drop> FolderDisk<S> {
    /// The folder of this name. It makes no call of the machine yet, and no fault is counted. All the memory that its changing calls
    /// need is taken here.
    pub fn of(system: S, alloc: Global, folder: &str) -> Result<FolderDisk<S>, NoMemory>
        ensures folder { IfOk result (λ disk. string_bytes disk.folder.path.folder ≡ folder.now) }
        ensures system { IfOk result (λ disk. disk.folder.system ≡ system) }
        ensures made { IfOk result (λ disk. disk.folder.made ≡ false) }
        ensures held { IfOk result (λ disk. disk.folder.held ≡ false) }
        ensures no_faults { IfOk result (λ disk. disk.faults ≡ 0) }
    {
        Ok(FolderDisk {
            folder: Folder::of(system, alloc, folder)?,
            faults: 0,
        })
    }

    /// How many calls failed.
    pub fn faults(&self) -> u64
        ensures { result ≡ self.now.faults }
    {
        self.faults
    }
}

impl<S: FileSystem + Drop> Disk for FolderDisk<S> {
    ghost faults = { λ disk. disk.faults };

    ghost tells = { λ disk. None };

    fn names(&mut self, alloc: Global) -> Result<FileNames, DiskStop>
        ensures all { IfOk result (AreNames None) }
        ensures ordered { IfOk result AreOrdered }
        ensures rests { Rests None None }
        ensures cause { HasCause (IsErrOf result DiskStop.Failed) self.old.faults self.new.faults }
        ensures folder { self.new.folder.path.folder ≡ self.old.folder.path.folder }
        ensures made { OnOk result (self.new.folder.made ≡ true) }
        ensures held { self.new.folder.held ≡ self.old.folder.held }
        ensures asked { IfOk result (λ names. IsListed names (string_bytes self.old.folder.path.folder) (made_first self.old.folder.made (string_bytes self.old.folder.path.folder) (S.asked self.old.folder.system)) (S.asked self.new.folder.system)) }
    {
        let names = self.folder.names(alloc);
        answered(&mut self.faults, names)
    }

    fn read(&mut self, alloc: Global, name: &[u8], cap: usize) -> Result<Option<Octets>, DiskStop>
        ensures part { IfOk result (IsFirstPart None name.now cap) }
        ensures within { IfOk result (λ read. IfSome read (λ bytes. length bytes ≤ cap)) }
        ensures rests { Rests None None }
        ensures cause { HasCause (IsErrOf result DiskStop.Failed) self.old.faults self.new.faults }
        ensures misnamed { ¬ IsFileName name.now → IsErrOf result DiskStop.Failed }
        ensures folder { self.new.folder.path.folder ≡ self.old.folder.path.folder }
        ensures made { OnOk result (self.new.folder.made ≡ true) }
        ensures held { self.new.folder.held ≡ self.old.folder.held }
        ensures there { IfOk result (λ read. IfSome read (λ bytes. IsReadUpTo cap (path_in (string_bytes self.old.folder.path.folder) name.now) bytes (made_first self.old.folder.made (string_bytes self.old.folder.path.folder) (S.asked self.old.folder.system)) (S.asked self.new.folder.system))) }
        ensures absent { IfOk result (λ read. IfNone read (S.asked self.new.folder.system ≡ and_did (Absent (path_in (string_bytes self.old.folder.path.folder) name.now)) (made_first self.old.folder.made (string_bytes self.old.folder.path.folder) (S.asked self.old.folder.system)))) }
    {
        let read = self.folder.read(alloc, name, cap);
        answered(&mut self.faults, read)
    }

    fn put(&mut self, name: &[u8], bytes: &[u8]) -> Result<(), DiskFailed>
        ensures changes { Changes (After (change.Put name.now bytes.now)) (is_ok result) None None }
        ensures cause { HasCause (IsErr result) self.old.faults self.new.faults }
        ensures file { OnOk result (IsFileName name.now) }
        ensures folder { self.new.folder.path.folder ≡ self.old.folder.path.folder }
        ensures made { OnOk result (self.new.folder.made ≡ true) }
        ensures asked { OnOk result (S.asked self.new.folder.system ≡ and_did (Created (path_in (string_bytes self.old.folder.path.folder) name.now) bytes.now) (locked_first self.old.folder.made self.old.folder.held (string_bytes self.old.folder.path.folder) (S.asked self.old.folder.system))) }
        ensures held { OnOk result (self.new.folder.held ≡ true) }
    {
        let put = self.folder.put(name, bytes);
        done(&mut self.faults, put)
    }

    fn sync(&mut self, name: &[u8]) -> Result<(), DiskFailed>
        ensures changes { Changes (After (change.Sync name.now)) (is_ok result) None None }
        ensures cause { HasCause (IsErr result) self.old.faults self.new.faults }
        ensures file { OnOk result (IsFileName name.now) }
        ensures folder { self.new.folder.path.folder ≡ self.old.folder.path.folder }
        ensures made { OnOk result (self.new.folder.made ≡ true) }
        ensures asked { OnOk result (S.asked self.new.folder.system ≡ and_synced (path_in (string_bytes self.old.folder.path.folder) name.now) (locked_first self.old.folder.made self.old.folder.held (string_bytes self.old.folder.path.folder) (S.asked self.old.folder.system))) }
        ensures held { OnOk result (self.new.folder.held ≡ true) }
    {
        let synced = self.folder.sync(name);
        done(&mut self.faults, synced)
    }

    fn rename(&mut self, from: &[u8], to: &[u8]) -> Result<(), DiskFailed>
        ensures changes { Changes (after_rename from.now to.now) (is_ok result) None None }
        ensures cause { HasCause (IsErr result) self.old.faults self.new.faults }
        ensures files { OnOk result (IsFileName from.now × IsFileName to.now) }
        ensures folder { self.new.folder.path.folder ≡ self.old.folder.path.folder }
        ensures made { OnOk result (self.new.folder.made ≡ true) }
        ensures asked { OnOk result (S.asked self.new.folder.system ≡ and_did (Renamed (path_in (string_bytes self.old.folder.path.folder) from.now) (path_in (string_bytes self.old.folder.path.folder) to.now)) (locked_first self.old.folder.made self.old.folder.held (string_bytes self.old.folder.path.folder) (S.asked self.old.folder.system))) }
        ensures held { OnOk result (self.new.folder.held ≡ true) }
    {
        let renamed = self.folder.rename(from, to);
        done(&mut self.faults, renamed)
    }

    fn remove(&mut self, name: &[u8]) -> Result<(), DiskFailed>
        ensures changes { Changes (After (change.Remove name.now)) (is_ok result) None None }
        ensures cause { HasCause (IsErr result) self.old.faults self.new.faults }
        ensures file { OnOk result (IsFileName name.now) }
        ensures folder { self.new.folder.path.folder ≡ self.old.folder.path.folder }
        ensures made { OnOk result (self.new.folder.made ≡ true) }
        ensures asked { OnOk result (S.asked self.new.folder.system ≡ and_did (Removed (path_in (string_bytes self.old.folder.path.folder) name.now)) (locked_first self.old.folder.made self.old.folder.held (string_bytes self.old.folder.path.folder) (S.asked self.old.folder.system))) }
        ensures held { OnOk result (self.new.folder.held ≡ true) }
    {
        let removed = self.folder.remove(name);
        done(&mut self.faults, removed)
    }

    fn settle(&mut self) -> Result<(), DiskFailed>
        ensures changes { Changes (After change.Settle) (is_ok result) None None }
        ensures cause { HasCause (IsErr result) self.old.faults self.new.faults }
        ensures folder { self.new.folder.path.folder ≡ self.old.folder.path.folder }
        ensures made { OnOk result (self.new.folder.made ≡ true) }
        ensures asked { OnOk result (S.asked self.new.folder.system ≡ and_unlocked self.old.folder.held (and_synced (string_bytes self.old.folder.path.folder) (made_first self.old.folder.made (string_bytes self.old.folder.path.folder) (S.asked self.old.folder.system)))) }
        ensures free { self.new.folder.held ≡ false }
        ensures given_back { IsGivenBack self.old.folder.held (S.asked self.new.folder.system) }
    {
        let settled = self.folder.settle();
        done(&mut self.faults, settled)
    }
}

// What came of a call that reads.
fn answered<T: Drop>(faults: &mut u64, outcome: Result<T, DiskStop>) -> Result<T, DiskStop>
    ensures same { result ≡ outcome }
    ensures cause { HasCause (IsErrOf outcome DiskStop.Failed) faults.old faults.new }
{
    if let Err(DiskStop::Failed) = &outcome {
        let _failed = counted::<(), DiskStop>(faults, Err(DiskStop::Failed));
    }
    outcome
}

// What came of a call that changes the folder.
fn done(faults: &mut u64, outcome: io::Result<()>) -> Result<(), DiskFailed>
    ensures same { is_ok result ≡ is_ok outcome }
    ensures cause { HasCause (IsErr result) faults.old faults.new }
{
    match counted(faults, outcome) {
        Ok(()) => Ok(()),
        Err(_) => Err(DiskFailed),
    }
}
