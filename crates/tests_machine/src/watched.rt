//! A runtime over the machine's that notes what it is asked for, in order, and that may have one trouble.

use pt_choice::NoMemory;
use pt_real::Lock;
use std::alloc::{Allocator, Global};
use std::cell::{Cell, RefCell};
use std::fs::{Metadata, OpenFile, OpenOptions, TryLockError};
use std::io::{self, Error, ErrorKind, Read, Seek, SeekFrom, Write};
use std::rc::Rc;
use std::rt::Files;
use std::time::{Clock, Duration};

/// What goes wrong.
#[derive(Clone, Copy, Debug)]
pub enum Trouble {
    Nothing,
    /// The write of this number fails, from 1.
    Write(u32),
    /// A folder gives its first names, and then no more.
    Entries,
    /// The lock is held by another, the first so many times that it is asked for.
    Held(u32),
    /// No file in a folder is opened.
    Open,
    /// Each file that is opened was just removed; a folder stays.
    Vanishing,
    /// Each folder was just made by another.
    Made,
}

/// What a runtime was asked for.
#[derive(Drop)]
pub struct Log {
    trouble: Trouble,
    calls: RefCell<String>,
    writes: Cell<u32>,
    tries: Cell<u32>,
    pauses: Cell<u32>,
}

impl Log {
    fn of(alloc: Global, trouble: Trouble) -> Log {
        Log {
            trouble,
            calls: RefCell::new(String::new(alloc)),
            writes: Cell::new(0),
            tries: Cell::new(0),
            pauses: Cell::new(0),
        }
    }

    /// Whether the calls so far are these; they are forgotten then.
    pub fn has(&self, calls: &str) -> bool {
        let Ok(mut noted) = self.calls.try_borrow_mut() else {
            return false;
        };
        let same = noted.as_str() == calls;
        noted.clear();
        same
    }

    /// How often the lock was asked for.
    pub fn tries(&self) -> u32 {
        self.tries.get()
    }

    /// How many pauses were made.
    pub fn pauses(&self) -> u32 {
        self.pauses.get()
    }

    // A call with what it was given.
    fn note(&self, call: &str, given: &str) {
        if let Ok(mut noted) = self.calls.try_borrow_mut() {
            let _noted = noted.push_str(call);
            let _given = noted.push_str(given);
            let _ended = noted.push(';');
        }
    }
}

fn one_more(count: &Cell<u32>) -> u32 {
    count.set(count.get().saturating_add(1));
    count.get()
}

/// The runtime.
#[derive(Drop)]
pub struct Watched<R> {
    rt: R,
    log: Rc<Log>,
}

impl<R: Drop> Watched<R> {
    pub fn of(rt: R, alloc: Global, trouble: Trouble) -> Result<Watched<R>, NoMemory> {
        let log = Rc::new(alloc, Log::of(alloc, trouble))?;
        Ok(Watched { rt, log })
    }

    /// What it was asked for.
    pub fn log(&self) -> &Log {
        &self.log
    }
}

impl<R: Files> Files for Watched<R> {
    type File = WatchedFile<R::File>;

    type Dir = WatchedDir<R::Dir>;

    fn open_file(&self, how: &OpenOptions, path: &str) -> io::Result<WatchedFile<R::File>> {
        self.log.note("open ", path);
        match self.log.trouble {
            Trouble::Open if path.contains('/') => return Err(Error::from(ErrorKind::Other)),
            Trouble::Vanishing => {
                let _gone = self.rt.remove_file(path);
            }
            _ => {}
        }
        Ok(WatchedFile {
            file: self.rt.open_file(how, path)?,
            log: self.log.clone()?,
        })
    }

    fn open_dir(&self, path: &str) -> io::Result<WatchedDir<R::Dir>> {
        self.log.note("list ", path);
        Ok(WatchedDir {
            dir: self.rt.open_dir(path)?,
            log: self.log.clone()?,
            read: false,
        })
    }

    fn metadata(&self, path: &str) -> io::Result<Metadata> {
        self.rt.metadata(path)
    }

    fn symlink_metadata(&self, path: &str) -> io::Result<Metadata> {
        self.rt.symlink_metadata(path)
    }

    fn copy(&self, from: &str, to: &str) -> io::Result<u64> {
        self.log.note("copy ", from);
        self.rt.copy(from, to)
    }

    fn rename(&self, from: &str, to: &str) -> io::Result<()> {
        self.log.note("rename ", from);
        self.log.note("to ", to);
        self.rt.rename(from, to)
    }

    fn remove_file(&self, path: &str) -> io::Result<()> {
        self.log.note("remove ", path);
        self.rt.remove_file(path)
    }

    fn create_dir(&self, path: &str) -> io::Result<()> {
        self.log.note("make ", path);
        if let Trouble::Made = self.log.trouble {
            self.rt.create_dir(path)?;
        }
        self.rt.create_dir(path)
    }

    fn remove_dir(&self, path: &str) -> io::Result<()> {
        self.rt.remove_dir(path)
    }

    fn remove_dir_all<B: Allocator>(&self, alloc: B, path: &str) -> io::Result<()> {
        self.rt.remove_dir_all(alloc, path)
    }
}

impl<R: Clock> Clock for Watched<R> {
    fn monotonic(&self) -> io::Result<Duration> {
        self.rt.monotonic()
    }

    fn since_1970(&self) -> io::Result<Duration> {
        self.rt.since_1970()
    }

    fn sleep(&self, _duration: Duration) {
        one_more(&self.log.pauses);
    }
}

/// A file, which takes 4,096 bytes at most at a time, and gives 1,000.
#[derive(Drop)]
pub struct WatchedFile<F> {
    file: F,
    log: Rc<Log>,
}

impl<F: Read> Read for WatchedFile<F> {
    fn read(&mut self, into: &mut [u8]) -> io::Result<usize> {
        let most = into.len().min(1000);
        self.file.read(&mut into[..most])
    }
}

impl<F: Write> Write for WatchedFile<F> {
    fn write(&mut self, from: &[u8]) -> io::Result<usize> {
        self.log.note("write", "");
        let number = one_more(&self.log.writes);
        match self.log.trouble {
            Trouble::Write(failing) if failing == number => Err(Error::from(ErrorKind::Other)),
            _ => self.file.write(&from[..from.len().min(4096)]),
        }
    }

    fn flush(&mut self) -> io::Result<()> {
        self.file.flush()
    }
}

impl<F: Seek> Seek for WatchedFile<F> {
    fn seek(&mut self, to: SeekFrom) -> io::Result<u64> {
        self.file.seek(to)
    }
}

impl<F: OpenFile> OpenFile for WatchedFile<F> {
    fn metadata(&self) -> io::Result<Metadata> {
        self.file.metadata()
    }

    fn set_len(&self, size: u64) -> io::Result<()> {
        self.file.set_len(size)
    }

    fn sync_all(&self) -> io::Result<()> {
        self.log.note("sync", "");
        self.file.sync_all()
    }

    fn sync_data(&self) -> io::Result<()> {
        self.log.note("sync the bytes alone", "");
        self.file.sync_data()
    }
}

impl<F: Lock> Lock for WatchedFile<F> {
    fn try_take(&self) -> Result<(), TryLockError> {
        let number = one_more(&self.log.tries);
        match self.log.trouble {
            Trouble::Held(times) if number <= times => Err(TryLockError::WouldBlock),
            _ => {
                self.log.note("lock", "");
                self.file.try_take()
            }
        }
    }
}

/// A folder's names.
#[derive(Drop)]
pub struct WatchedDir<D> {
    dir: D,
    log: Rc<Log>,
    // Some names were read.
    read: bool,
}

impl<D: Read> Read for WatchedDir<D> {
    fn read(&mut self, into: &mut [u8]) -> io::Result<usize> {
        match self.log.trouble {
            Trouble::Entries if self.read => Err(Error::from(ErrorKind::Other)),
            _ => {
                self.read = true;
                self.dir.read(into)
            }
        }
    }
}
