ghost use Rattle.std.specs.Prelude.{◌≡◌, None, IfOk, IfSome, IsSomeAnd};
ghost use Rattle.std.specs.Io.KnownBytes.{ReadConsumes};

use crate::file_system::FileSystem;
use crate::listing::names_of;
use pt_disk::{DiskStop, FileNames};
use std::alloc::Global;
use std::fs::{File, OpenFile, TryLockError};
use std::io::{self, Error, ErrorKind, Read, Write};
use std::time::{Clock, Duration};
use std::{fs, rt, thread};

/// An open file or folder, which one process at a time may lock. The lock lasts until it is closed.
pub trait Lock {
    fn try_take(&self) -> Result<(), TryLockError>;
}

impl Lock for File {
    fn try_take(&self) -> Result<(), TryLockError> {
        self.try_lock()
    }
}

// How long a pause is.
const PAUSE_MILLIS: u64 = 5;

/// The files and folders of the machine. Each call is one of std's, and nothing is told of what was asked.
#[derive(Drop)]
pub struct RealFileSystem<'a, R: rt::Files> {
    rt: &'a R,
    // The file that was opened or created last.
    file: Option<R::File>,
    // The folder whose lock is held, as an open file. The machine lets the lock go where that is closed.
    lock: Option<R::File>,
}

impl<'a, R: rt::Files> RealFileSystem<'a, R> {
    /// No file is open and no lock is held.
    pub fn of(rt: &'a R) -> RealFileSystem<'a, R>
        ensures file { result.file ≡ None }
        ensures lock { result.lock ≡ None }
    {
        RealFileSystem {
            rt,
            file: None,
            lock: None,
        }
    }
}

impl<R: rt::Files + Clock> FileSystem for RealFileSystem<'_, R>
where
    R::File: Lock,
{
    ghost asked = { λ system. None };

    fn make_folder(&mut self, folder: &str) -> io::Result<()> {
        fs::create_dir_all(self.rt, folder)
    }

    fn open(&mut self, path: &str) -> io::Result<bool> {
        match fs::open(self.rt, path) {
            Ok(file) => {
                self.file = Some(file);
                Ok(true)
            }
            Err(error) if error.kind() == ErrorKind::NotFound => Ok(false),
            Err(error) => Err(error),
        }
    }

    fn create(&mut self, path: &str) -> io::Result<()> {
        self.file = Some(fs::create(self.rt, path)?);
        Ok(())
    }

    fn read(&mut self, into: &mut [u8]) -> io::Result<usize> {
        match &mut self.file {
            Some(file) => file.read(into),
            None => Err(Error::from(ErrorKind::NotFound)),
        }
    }

    fn write(&mut self, from: &[u8]) -> io::Result<usize> {
        match &mut self.file {
            Some(file) => file.write(from),
            None => Err(Error::from(ErrorKind::NotFound)),
        }
    }

    fn sync(&mut self) -> io::Result<()> {
        match &self.file {
            Some(file) => file.sync_all(),
            None => Err(Error::from(ErrorKind::NotFound)),
        }
    }

    fn rename(&mut self, from: &str, to: &str) -> io::Result<()> {
        fs::rename(self.rt, from, to)
    }

    fn remove(&mut self, path: &str) -> io::Result<()> {
        match fs::remove_file(self.rt, path) {
            Err(error) if error.kind() == ErrorKind::NotFound => Ok(()),
            outcome => outcome,
        }
    }

    fn list(&mut self, alloc: Global, folder: &str) -> Result<FileNames, DiskStop> {
        match fs::read_dir(&(self.rt, alloc), folder) {
            Ok(entries) => names_of(alloc, entries),
            Err(_) => Err(DiskStop::Failed),
        }
    }

    fn try_lock(&mut self, folder: &str) -> io::Result<bool> {
        let lock = fs::open(self.rt, folder)?;
        match lock.try_take() {
            Ok(()) => {
                self.lock = Some(lock);
                Ok(true)
            }
            Err(TryLockError::WouldBlock) => Ok(false),
            Err(TryLockError::Error(error)) => Err(error),
        }
    }

    fn unlock(&mut self) {
        self.lock = None;
    }

    fn pause(&mut self) {
        thread::sleep(self.rt, Duration::from_millis(PAUSE_MILLIS))
    }
}
