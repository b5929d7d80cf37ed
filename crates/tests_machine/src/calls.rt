//! Calls of a folder as text, and what they answer.

use pt_choice::{NoMemory, Octets};
use pt_disk::{Disk, DiskFailed, DiskStop};
use pt_real::{FileSystem, FolderDisk};
use std::alloc::Global;

/// A call, and what it answers.
pub type Call = (&'static str, &'static str);

// What a call answers, as `put NAME BYTES` or `read NAME CAP`.
fn answer<S: FileSystem + Drop>(
    alloc: Global,
    disk: &mut FolderDisk<S>,
    call: &str,
) -> Result<Octets, NoMemory> {
    match made(alloc, disk, call) {
        Ok(answer) => Ok(answer),
        Err(DiskStop::Failed) => Octets::of(alloc, b"failed"),
        Err(DiskStop::NoMemory) => Err(NoMemory),
    }
}

fn made<S: FileSystem + Drop>(
    alloc: Global,
    disk: &mut FolderDisk<S>,
    call: &str,
) -> Result<Octets, DiskStop> {
    let mut words = call.split(' ');
    let verb = words.next().unwrap_or("");
    let name = words.next().unwrap_or("").as_bytes();
    let second = words.next().unwrap_or("");
    match verb {
        "names" => Ok(joined(alloc, disk.names(alloc)?.as_slice())?),
        "read" => match disk.read(alloc, name, second.parse().unwrap_or(9))? {
            Some(bytes) => Ok(bytes),
            None => Ok(Octets::of(alloc, b"-")?),
        },
        "put" => done(alloc, disk.put(name, second.as_bytes())),
        "sync" => done(alloc, disk.sync(name)),
        "rename" => done(alloc, disk.rename(name, second.as_bytes())),
        "remove" => done(alloc, disk.remove(name)),
        _ => done(alloc, disk.settle()),
    }
}

fn done(alloc: Global, outcome: Result<(), DiskFailed>) -> Result<Octets, DiskStop> {
    outcome?;
    Ok(Octets::of(alloc, b"ok")?)
}

// The names in their order; `-` where there are none.
fn joined(alloc: Global, names: &[Octets]) -> Result<Octets, NoMemory> {
    let mut text = Octets::empty(alloc);
    for name in names {
        if text.len() > 0 {
            text.push(b' ')?;
        }
        for byte in name.as_slice() {
            text.push(*byte)?;
        }
    }
    if text.len() == 0 {
        text.push(b'-')?;
    }
    Ok(text)
}

/// The first call that answers otherwise, or that counts a fault and does not fail, or the other way round.
pub fn first_wrong<S: FileSystem + Drop>(
    alloc: Global,
    disk: &mut FolderDisk<S>,
    calls: &[Call],
) -> Result<Option<&'static str>, NoMemory> {
    for (call, want) in calls {
        let before = disk.faults();
        let answer = answer(alloc, disk, call)?;
        let rose = disk.faults() > before;
        if answer.as_slice() != want.as_bytes() || rose != (*want == "failed") {
            return Ok(Some(*call));
        }
    }
    Ok(None)
}
