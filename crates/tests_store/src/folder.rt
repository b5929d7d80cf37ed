//! Folders and calls as text: `a=one b=two` are two files, and `put a one` is a call.

use pt_choice::NoMemory;
use pt_disk::{Calls, Disk, DiskFailed, MemoryDisk, NamedFiles};
use std::alloc::Global;
use std::test::Fail;

/// An empty folder. The calls with these numbers will fail.
pub fn empty(alloc: Global, failing: &[u64]) -> Result<MemoryDisk, NoMemory> {
    let mut calls = Calls::empty(alloc);
    for number in failing {
        calls.push(*number)?;
    }
    MemoryDisk::of(alloc, NamedFiles::empty(alloc), calls)
}

/// Makes a call that changes the folder: `put NAME BYTES`, `sync NAME`, `rename FROM TO`, `remove NAME` or `settle`.
pub fn made(disk: &mut MemoryDisk, call: &str) -> Result<(), DiskFailed> {
    let mut words = call.split(' ');
    let verb = words.next().unwrap_or("");
    let name = words.next().unwrap_or("").as_bytes();
    let second = words.next().unwrap_or("").as_bytes();
    match verb {
        "put" => disk.put(name, second),
        "sync" => disk.sync(name),
        "rename" => disk.rename(name, second),
        "remove" => disk.remove(name),
        "settle" => disk.settle(),
        _ => Err(DiskFailed),
    }
}

/// The files of a disk, in the order of their names; `-` where there are none.
pub fn files_of<D: Disk>(alloc: Global, disk: &mut D) -> Result<Vec<u8>, Fail> {
    let mut text = Vec::new(alloc);
    for name in disk.names(alloc)?.as_slice() {
        let read = disk.read(alloc, name.as_slice(), 100)?;
        let bytes = read.ok_or("named and absent")?;
        if !text.is_empty() {
            text.push(b' ')?;
        }
        text.extend_from_slice(name.as_slice())?;
        text.push(b'=')?;
        text.extend_from_slice(bytes.as_slice())?;
    }
    if text.is_empty() {
        text.push(b'-')?;
    }
    Ok(text)
}
