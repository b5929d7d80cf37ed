//! A folder in memory, and what is stored in it.

use pt_choice::NoMemory;
use pt_disk::{Calls, Disk, DiskStop, MemoryDisk, NamedFiles};
use pt_stored::file_name;
use std::alloc::Global;

/// A value that is stored under a name.
pub type Stored = (&'static str, &'static [u8]);

/// A folder that holds these values, each by three calls of the disk. The call of this number, if any, will fail.
pub fn folder(
    alloc: Global,
    stored: &[Stored],
    failing: Option<u64>,
) -> Result<MemoryDisk, DiskStop> {
    let mut disk = empty(alloc, failing)?;
    for (name, value) in stored {
        store(alloc, &mut disk, name, value)?;
    }
    Ok(disk)
}

fn empty(alloc: Global, failing: Option<u64>) -> Result<MemoryDisk, NoMemory> {
    let mut calls = Calls::empty(alloc);
    if let Some(number) = failing {
        calls.push(number)?;
    }
    MemoryDisk::of(alloc, NamedFiles::empty(alloc), calls)
}

fn store(alloc: Global, disk: &mut MemoryDisk, name: &str, value: &[u8]) -> Result<(), DiskStop> {
    let file = file_name(alloc, name.as_bytes(), value)?;
    disk.put(file.as_slice(), value)?;
    disk.sync(file.as_slice())?;
    disk.settle()?;
    Ok(())
}

/// Whether this value is stored under the name.
pub fn holds(
    alloc: Global,
    disk: &mut MemoryDisk,
    name: &str,
    value: &[u8],
) -> Result<bool, DiskStop> {
    let file = file_name(alloc, name.as_bytes(), value)?;
    match disk.read(alloc, file.as_slice(), 100)? {
        Some(bytes) => Ok(bytes.as_slice() == value),
        None => Ok(false),
    }
}

/// Whether each of these values is stored.
pub fn holds_all(
    alloc: Global,
    disk: &mut MemoryDisk,
    stored: &[Stored],
) -> Result<bool, DiskStop> {
    for (name, value) in stored {
        if !holds(alloc, disk, name, value)? {
            return Ok(false);
        }
    }
    Ok(true)
}

/// Whether one of these values is stored, where there are any.
pub fn holds_one(
    alloc: Global,
    disk: &mut MemoryDisk,
    stored: &[Stored],
) -> Result<bool, DiskStop> {
    for (name, value) in stored {
        if holds(alloc, disk, name, value)? {
            return Ok(true);
        }
    }
    Ok(stored.is_empty())
}
