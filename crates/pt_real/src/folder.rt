ghost use Rattle.std.specs.Prelude.{◌≡◌, ◌≤◌, true, false, [], length, IfOk, IfSome, IfNone, OnOk, IsErrOf, string_bytes};
ghost use Rattle.pt_disk.specs.Calls.{AreOrdered};
ghost use Rattle.pt_real.specs.Asked.{Created, Absent, Renamed, Removed, Locked, and_did, and_synced, and_unlocked};
ghost use Rattle.pt_real.specs.FileNames.{HaveSame, IsFileName, path_in};
ghost use Rattle.pt_real.specs.Steps.{IsGivenBack, IsListed, IsReadUpTo, locked_first, made_first};

use crate::file_system::FileSystem;
use crate::folder_path::{FolderPath, file_name};
use crate::listing::in_order;
use crate::transfer::{read_first, sync_at, write_whole};
use pt_choice::{NoMemory, Octets};
use pt_disk::{DiskStop, FileNames};
use std::alloc::Global;
use std::io::{self, Error, ErrorKind};

// How often the lock is tried, a pause apart: for eight seconds, or ten on a machine that is busy.
const TRIES: u32 = 1500;

/// A folder, below the current one. Its first call makes it where it is absent.
///
/// Its lock is taken by the first call that changes it, and given back by the next `settle`, so that what other runs change stands before that or
/// after it.
#[derive(Drop)]
pub struct Folder<S> {
    system: S,
    path: FolderPath,
    // The path that a rename gives to a file, in the same folder.
    target: FolderPath,
    // It was seen to be there, and its name was synced.
    made: bool,
    // Its lock is held.
    held: bool,
    ghost one_folder: { string_bytes target.folder ≡ string_bytes path.folder },
}

impl<S: FileSystem + Drop> Folder<S> {
    /// The folder of this name. It makes no call of the machine yet.
    pub fn of(system: S, alloc: Global, folder: &str) -> Result<Folder<S>, NoMemory>
        ensures path { IfOk result (λ folder_of. string_bytes folder_of.path.folder ≡ folder.now) }
        ensures system { IfOk result (λ folder_of. folder_of.system ≡ system) }
        ensures made { IfOk result (λ folder_of. folder_of.made ≡ false) }
        ensures held { IfOk result (λ folder_of. folder_of.held ≡ false) }
    {
        let path = FolderPath::of(alloc, folder)?;
        let target = FolderPath::of(alloc, folder)?;
        Ok(Folder {
            system,
            path,
            target,
            made: false,
            held: false,
        })
    }

    // The folder is there, and its own name is stable.
    fn make(&mut self) -> io::Result<()>
        ensures path { self.new.path ≡ self.old.path }
        ensures held { self.new.held ≡ self.old.held }
        ensures made { OnOk result (self.new.made ≡ true) }
        ensures asked { OnOk result (S.asked self.new.system ≡ made_first self.old.made (string_bytes self.old.path.folder) (S.asked self.old.system)) }
    {
        if self.made {
            return Ok(());
        }
        let folder = self.path.folder();
        if file_name(folder.as_bytes()).is_none() {
            return Err(Error::from(ErrorKind::InvalidFilename));
        }
        self.system.make_folder(folder)?;
        sync_at(&mut self.system, ".")?;
        self.made = true;
        Ok(())
    }

    // The folder is there, and the path is that of its file of this name.
    fn go(&mut self, name: &[u8]) -> io::Result<()>
        ensures file { OnOk result (IsFileName name.now) }
        ensures path { OnOk result (string_bytes self.new.path.text ≡ path_in (string_bytes self.old.path.folder) name.now) }
        ensures folder { self.new.path.folder ≡ self.old.path.folder }
        ensures held { self.new.held ≡ self.old.held }
        ensures made { OnOk result (self.new.made ≡ true) }
        ensures asked { OnOk result (S.asked self.new.system ≡ made_first self.old.made (string_bytes self.old.path.folder) (S.asked self.old.system)) }
    {
        self.make()?;
        self.path.go(name)?;
        Ok(())
    }

    // The same, and the folder's lock is held.
    fn enter(&mut self, name: &[u8]) -> io::Result<()>
        ensures file { OnOk result (IsFileName name.now) }
        ensures path { OnOk result (string_bytes self.new.path.text ≡ path_in (string_bytes self.old.path.folder) name.now) }
        ensures folder { self.new.path.folder ≡ self.old.path.folder }
        ensures made { OnOk result (self.new.made ≡ true) }
        ensures held { OnOk result (self.new.held ≡ true) }
        ensures asked { OnOk result (S.asked self.new.system ≡ locked_first self.old.made self.old.held (string_bytes self.old.path.folder) (S.asked self.old.system)) }
    {
        self.go(name)?;
        if !self.held {
            lock(&mut self.system, self.path.folder())?;
            self.held = true;
        }
        Ok(())
    }

    /// All names that are text, once each and in byte order.
    pub fn names(&mut self, alloc: Global) -> Result<FileNames, DiskStop>
        ensures ordered { IfOk result AreOrdered }
        ensures folder { self.new.path.folder ≡ self.old.path.folder }
        ensures made { OnOk result (self.new.made ≡ true) }
        ensures held { self.new.held ≡ self.old.held }
        ensures asked { IfOk result (λ names. IsListed names (string_bytes self.old.path.folder) (made_first self.old.made (string_bytes self.old.path.folder) (S.asked self.old.system)) (S.asked self.new.system)) }
    {
        if self.make().is_err() {
            return Err(DiskStop::Failed);
        }
        let names = self.system.list(alloc, self.path.folder())?;
        Ok(in_order(alloc, names.as_slice())?)
    }

    /// The first `cap` bytes of the file of this name; None where the machine has no such file.
    pub fn read(
        &mut self,
        alloc: Global,
        name: &[u8],
        cap: usize,
    ) -> Result<Option<Octets>, DiskStop>
        ensures within { IfOk result (λ read. IfSome read (λ bytes. length bytes ≤ cap)) }
        ensures folder { self.new.path.folder ≡ self.old.path.folder }
        ensures made { OnOk result (self.new.made ≡ true) }
        ensures held { self.new.held ≡ self.old.held }
        ensures misnamed { ¬ IsFileName name.now → IsErrOf result DiskStop.Failed }
        ensures there { IfOk result (λ read. IfSome read (λ bytes. IsReadUpTo cap (path_in (string_bytes self.old.path.folder) name.now) bytes (made_first self.old.made (string_bytes self.old.path.folder) (S.asked self.old.system)) (S.asked self.new.system))) }
        ensures absent { IfOk result (λ read. IfNone read (S.asked self.new.system ≡ and_did (Absent (path_in (string_bytes self.old.path.folder) name.now)) (made_first self.old.made (string_bytes self.old.path.folder) (S.asked self.old.system)))) }
    {
        if self.go(name).is_err() {
            return Err(DiskStop::Failed);
        }
        read_first(&mut self.system, alloc, self.path.as_str(), cap)
    }

    pub fn put(&mut self, name: &[u8], bytes: &[u8]) -> io::Result<()>
        ensures file { OnOk result (IsFileName name.now) }
        ensures folder { self.new.path.folder ≡ self.old.path.folder }
        ensures made { OnOk result (self.new.made ≡ true) }
        ensures held { OnOk result (self.new.held ≡ true) }
        ensures asked { OnOk result (S.asked self.new.system ≡ and_did (Created (path_in (string_bytes self.old.path.folder) name.now) bytes.now) (locked_first self.old.made self.old.held (string_bytes self.old.path.folder) (S.asked self.old.system))) }
    {
        self.enter(name)?;
        write_whole(&mut self.system, self.path.as_str(), bytes)
    }

    pub fn sync(&mut self, name: &[u8]) -> io::Result<()>
        ensures file { OnOk result (IsFileName name.now) }
        ensures folder { self.new.path.folder ≡ self.old.path.folder }
        ensures made { OnOk result (self.new.made ≡ true) }
        ensures held { OnOk result (self.new.held ≡ true) }
        ensures asked { OnOk result (S.asked self.new.system ≡ and_synced (path_in (string_bytes self.old.path.folder) name.now) (locked_first self.old.made self.old.held (string_bytes self.old.path.folder) (S.asked self.old.system))) }
    {
        self.enter(name)?;
        sync_at(&mut self.system, self.path.as_str())
    }

    pub fn rename(&mut self, from: &[u8], to: &[u8]) -> io::Result<()>
        ensures file { OnOk result (IsFileName from.now × IsFileName to.now) }
        ensures folder { self.new.path.folder ≡ self.old.path.folder }
        ensures made { OnOk result (self.new.made ≡ true) }
        ensures held { OnOk result (self.new.held ≡ true) }
        ensures asked { OnOk result (S.asked self.new.system ≡ and_did (Renamed (path_in (string_bytes self.old.path.folder) from.now) (path_in (string_bytes self.old.path.folder) to.now)) (locked_first self.old.made self.old.held (string_bytes self.old.path.folder) (S.asked self.old.system))) }
    {
        self.enter(from)?;
        self.target.go(to)?;
        self.system.rename(self.path.as_str(), self.target.as_str())
    }

    /// A name that is absent stays so.
    pub fn remove(&mut self, name: &[u8]) -> io::Result<()>
        ensures file { OnOk result (IsFileName name.now) }
        ensures folder { self.new.path.folder ≡ self.old.path.folder }
        ensures made { OnOk result (self.new.made ≡ true) }
        ensures held { OnOk result (self.new.held ≡ true) }
        ensures asked { OnOk result (S.asked self.new.system ≡ and_did (Removed (path_in (string_bytes self.old.path.folder) name.now)) (locked_first self.old.made self.old.held (string_bytes self.old.path.folder) (S.asked self.old.system))) }
    {
        self.enter(name)?;
        self.system.remove(self.path.as_str())
    }

    /// The lock is given back, also where it fails.
    pub fn settle(&mut self) -> io::Result<()>
        ensures folder { self.new.path.folder ≡ self.old.path.folder }
        ensures made { OnOk result (self.new.made ≡ true) }
        ensures free { self.new.held ≡ false }
        ensures given_back { IsGivenBack self.old.held (S.asked self.new.system) }
        ensures asked { OnOk result (S.asked self.new.system ≡ and_unlocked self.old.held (and_synced (string_bytes self.old.path.folder) (made_first self.old.made (string_bytes self.old.path.folder) (S.asked self.old.system)))) }
    {
        let settled = self.sync_names();
        self.give_back();
        settled
    }

    // The lock is not held.
    fn give_back(&mut self)
        ensures folder { self.new.path.folder ≡ self.old.path.folder }
        ensures made { self.new.made ≡ self.old.made }
        ensures free { self.new.held ≡ false }
        ensures asked { S.asked self.new.system ≡ and_unlocked self.old.held (S.asked self.old.system) }
    {
        if self.held {
            self.system.unlock();
            self.held = false;
        }
    }

    // All names are stable.
    fn sync_names(&mut self) -> io::Result<()>
        ensures folder { self.new.path.folder ≡ self.old.path.folder }
        ensures made { OnOk result (self.new.made ≡ true) }
        ensures held { self.new.held ≡ self.old.held }
        ensures asked { OnOk result (S.asked self.new.system ≡ and_synced (string_bytes self.old.path.folder) (made_first self.old.made (string_bytes self.old.path.folder) (S.asked self.old.system))) }
    {
        self.make()?;
        sync_at(&mut self.system, self.path.folder())
    }
}

// Takes the lock of the folder. Where another run holds it, it is tried again, so often that some eight seconds pass, and then it fails.
fn lock<S: FileSystem>(system: &mut S, folder: &str) -> io::Result<()>
    ensures { OnOk result (S.asked system.new ≡ and_did (Locked folder.now) (S.asked system.old)) }
{
    for _ in 0..TRIES {
        if system.try_lock(folder)? {
            return Ok(());
        }
        system.pause();
    }
    Err(Error::from(ErrorKind::WouldBlock))
}
