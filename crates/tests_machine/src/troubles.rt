//! What a folder asks the machine for, and what it answers where the machine has a trouble.

use crate::calls::{Call, first_wrong};
use crate::watched::{Log, Trouble, Watched};
use pt_choice::NoMemory;
use pt_db::{Store, StoreFault};
use pt_disk::{Disk, DiskStop};
use pt_real::{FileSystem, FolderDisk, RealFileSystem};
use std::alloc::Global;
use std::fs;
use std::test::Fail;

// The calls of an edit, with what each asks the machine for. A put, a sync, a rename and a settle are a save.
const SAVED: [(Call, &str); 7] = [
    (
        ("settle", "ok"),
        "make f_saved;open .;sync;open f_saved;sync;",
    ),
    (
        ("put a xyz", "ok"),
        "open f_saved;lock;open f_saved/a;write;",
    ),
    (("sync a", "ok"), "open f_saved/a;sync;"),
    (("rename a b", "ok"), "rename f_saved/a;to f_saved/b;"),
    (("settle", "ok"), "open f_saved;sync;"),
    (("remove b", "ok"), "open f_saved;lock;remove f_saved/b;"),
    (("settle", "ok"), "open f_saved;sync;"),
];

// A put where the lock is held; the settle gives back what was not taken.
const HELD: [Call; 3] = [("names", "-"), ("put a 1", "failed"), ("settle", "ok")];

const FREED: [Call; 4] = [
    ("put a 1", "ok"),
    ("settle", "ok"),
    ("put b 1", "ok"),
    ("settle", "ok"),
];

// A file that is not opened is not said to be absent.
const UNOPENED: [Call; 4] = [
    ("names", "-"),
    ("read a 9", "failed"),
    ("put a 1", "failed"),
    ("settle", "ok"),
];

const LISTED_IN_PART: [Call; 3] = [("put a 1", "ok"), ("names", "failed"), ("read a 9", "1")];

// 16,899 bytes are four pieces of 4,096 and one of 515.
const PUT_IN_PIECES: &str =
    "make f_many;open .;sync;open f_many;lock;open f_many/a;write;write;write;write;write;open f_many/a;";

const MADE: [Call; 2] = [("put a 1", "ok"), ("names", "a")];

// The call that answers otherwise, or asks for something else.
fn first_other<S: FileSystem + Drop>(
    alloc: Global,
    log: &Log,
    disk: &mut FolderDisk<S>,
) -> Result<Option<&'static str>, NoMemory> {
    for (call, asked) in SAVED {
        let wrong = first_wrong(alloc, disk, &[call])?;
        if wrong.is_some() || !log.has(asked) {
            return Ok(Some(call.0));
        }
    }
    Ok(None)
}

#[test]
fn an_edit_asks_for_these_calls(rt: HostRuntime) -> Result<(), Fail> {
    let alloc = rt.alloc();
    let watched = Watched::of(rt, alloc, Trouble::Nothing)?;
    let mut disk = FolderDisk::of(RealFileSystem::of(&watched), alloc, "f_saved")?;
    let other = first_other(alloc, watched.log(), &mut disk);
    fs::remove_dir_all(&rt, "f_saved")?;
    assert_eq!(rt; other, Ok(None));
    Ok(())
}

// The calls that answer otherwise in this folder, which is removed then.
fn wrong_in<S: FileSystem + Drop>(
    alloc: Global,
    system: S,
    folder: &str,
    calls: &[Call],
) -> Result<Option<&'static str>, NoMemory> {
    let mut disk = FolderDisk::of(system, alloc, folder)?;
    first_wrong(alloc, &mut disk, calls)
}

#[test]
fn a_lock_that_is_held_is_tried_again(rt: HostRuntime) -> Result<(), Fail> {
    let alloc = rt.alloc();
    let watched = Watched::of(rt, alloc, Trouble::Held(1499))?;
    let wrong = wrong_in(alloc, RealFileSystem::of(&watched), "f_freed", &FREED);
    fs::remove_dir_all(&rt, "f_freed")?;
    assert_eq!(rt; wrong, Ok(None));
    assert_eq!(rt; watched.log().tries(), 1501);
    assert_eq!(rt; watched.log().pauses(), 1499);
    Ok(())
}

#[test]
fn a_lock_that_stays_held_is_a_fault(rt: HostRuntime) -> Result<(), Fail> {
    let alloc = rt.alloc();
    let watched = Watched::of(rt, alloc, Trouble::Held(u32::MAX))?;
    let wrong = wrong_in(alloc, RealFileSystem::of(&watched), "f_held", &HELD);
    fs::remove_dir(&rt, "f_held")?;
    assert_eq!(rt; wrong, Ok(None));
    assert_eq!(rt; watched.log().tries(), 1500);
    assert_eq!(rt; watched.log().pauses(), 1500);
    Ok(())
}

// What the second of two that change one folder answers: while the first has its lock, and after that one settled.
fn second_of_two<S: FileSystem + Drop, T: FileSystem + Drop>(
    alloc: Global,
    one: S,
    other: T,
    folder: &str,
) -> Result<(bool, bool), DiskStop> {
    let mut one = FolderDisk::of(one, alloc, folder)?;
    let mut other = FolderDisk::of(other, alloc, folder)?;
    one.put(b"a", b"1")?;
    let before = other.put(b"b", b"1").is_ok();
    one.settle()?;
    let after = other.put(b"b", b"1").is_ok();
    Ok((before, after))
}

// The second one's pauses take no time.
#[test]
fn two_that_change_one_folder_take_turns(rt: HostRuntime) -> Result<(), Fail> {
    let alloc = rt.alloc();
    let watched = Watched::of(rt, alloc, Trouble::Nothing)?;
    let one = RealFileSystem::of(&rt);
    let puts = second_of_two(alloc, one, RealFileSystem::of(&watched), "f_turns");
    fs::remove_dir_all(&rt, "f_turns")?;
    assert_eq!(rt; puts, Ok((false, true)));
    assert_eq!(rt; watched.log().pauses(), 1500);
    Ok(())
}

#[test]
fn a_file_that_cannot_be_opened_is_a_fault(rt: HostRuntime) -> Result<(), Fail> {
    let alloc = rt.alloc();
    let watched = Watched::of(rt, alloc, Trouble::Open)?;
    let wrong = wrong_in(alloc, RealFileSystem::of(&watched), "f_unopened", &UNOPENED);
    fs::remove_dir_all(&rt, "f_unopened")?;
    assert_eq!(rt; wrong, Ok(None));
    Ok(())
}

#[test]
fn a_folder_that_fails_in_its_names_is_a_fault(rt: HostRuntime) -> Result<(), Fail> {
    let alloc = rt.alloc();
    let watched = Watched::of(rt, alloc, Trouble::Entries)?;
    let wrong = wrong_in(
        alloc,
        RealFileSystem::of(&watched),
        "f_listed",
        &LISTED_IN_PART,
    );
    fs::remove_dir_all(&rt, "f_listed")?;
    assert_eq!(rt; wrong, Ok(None));
    Ok(())
}

// How many examples a store finds in this folder, for a key under which two values are saved.
fn found<S: FileSystem + Drop, T: FileSystem + Drop>(
    alloc: Global,
    saving: S,
    fetching: T,
    folder: &str,
) -> Result<usize, StoreFault> {
    let mut disk = FolderDisk::of(saving, alloc, folder)?;
    let Ok(mut store) = Store::attach(alloc, &mut disk) else {
        return Err(StoreFault::Disk);
    };
    store.save(b"abc", b"12")?;
    store.save(b"abc", b"13")?;
    store.close();
    let mut disk = FolderDisk::of(fetching, alloc, folder)?;
    let Ok(mut store) = Store::attach(alloc, &mut disk) else {
        return Err(StoreFault::Disk);
    };
    let found = store.fetch(b"abc")?.len();
    store.close();
    Ok(found)
}

#[test]
fn a_file_that_vanishes_once_it_was_named_is_absent(rt: HostRuntime) -> Result<(), Fail> {
    let alloc = rt.alloc();
    let watched = Watched::of(rt, alloc, Trouble::Vanishing)?;
    let saving = RealFileSystem::of(&rt);
    let left = found(alloc, saving, RealFileSystem::of(&watched), "f_vanished");
    fs::remove_dir_all(&rt, "f_vanished")?;
    assert!(rt; matches!(left, Ok(0)));
    Ok(())
}

// So many bytes, no two pieces of which are the same.
fn many(alloc: Global, count: u32) -> Result<Vec<u8>, NoMemory> {
    let mut bytes = Vec::new(alloc);
    for place in 0..count {
        bytes.push((place % 251) as u8)?;
    }
    Ok(bytes)
}

// Whether these bytes are put whole, and read again.
fn is_kept<S: FileSystem + Drop>(
    alloc: Global,
    system: S,
    folder: &str,
    bytes: &[u8],
) -> Result<bool, DiskStop> {
    let mut disk = FolderDisk::of(system, alloc, folder)?;
    disk.put(b"a", bytes)?;
    match disk.read(alloc, b"a", 20_000)? {
        Some(read) => Ok(read.as_slice() == bytes && disk.faults() == 0),
        None => Ok(false),
    }
}

#[test]
fn many_bytes_are_written_and_read_in_pieces(rt: HostRuntime) -> Result<(), Fail> {
    let alloc = rt.alloc();
    let watched = Watched::of(rt, alloc, Trouble::Nothing)?;
    let bytes = many(alloc, 16_899)?;
    let kept = is_kept(
        alloc,
        RealFileSystem::of(&watched),
        "f_many",
        bytes.as_slice(),
    );
    fs::remove_dir_all(&rt, "f_many")?;
    assert_eq!(rt; kept, Ok(true));
    assert!(rt; watched.log().has(PUT_IN_PIECES));
    Ok(())
}

#[test]
fn a_write_that_fails_in_the_middle_is_a_fault(rt: HostRuntime) -> Result<(), Fail> {
    let alloc = rt.alloc();
    let watched = Watched::of(rt, alloc, Trouble::Write(3))?;
    let bytes = many(alloc, 16_899)?;
    let kept = is_kept(
        alloc,
        RealFileSystem::of(&watched),
        "f_failed",
        bytes.as_slice(),
    );
    fs::remove_dir_all(&rt, "f_failed")?;
    assert_eq!(rt; kept, Err(DiskStop::Failed));
    Ok(())
}

fn named(alloc: Global, number: u32) -> Result<String, NoMemory> {
    Ok(format!(in alloc; "{number}")?)
}

// Whether this folder has 1,001 files once they are put, from 1000 to 2000, and each is named.
fn has_all_names<S: FileSystem + Drop>(
    alloc: Global,
    system: S,
    folder: &str,
) -> Result<bool, DiskStop> {
    let mut disk = FolderDisk::of(system, alloc, folder)?;
    for number in 1000..2001 {
        disk.put(named(alloc, number)?.as_bytes(), b"")?;
    }
    let names = disk.names(alloc)?;
    let names = names.as_slice();
    Ok(
        names.len() == 1001
            && names
                .first()
                .is_some_and(|name| name.as_slice() == b"1000".as_slice())
            && names
                .last()
                .is_some_and(|name| name.as_slice() == b"2000".as_slice()),
    )
}

#[test]
fn a_folder_of_many_files_is_listed_whole(rt: HostRuntime) -> Result<(), Fail> {
    let alloc = rt.alloc();
    let all = has_all_names(alloc, RealFileSystem::of(&rt), "f_listed_whole");
    fs::remove_dir_all(&rt, "f_listed_whole")?;
    assert_eq!(rt; all, Ok(true));
    Ok(())
}

#[test]
fn a_folder_that_another_makes_is_there(rt: HostRuntime) -> Result<(), Fail> {
    let alloc = rt.alloc();
    let watched = Watched::of(rt, alloc, Trouble::Made)?;
    let wrong = wrong_in(alloc, RealFileSystem::of(&watched), "f_made", &MADE);
    fs::remove_dir_all(&rt, "f_made")?;
    assert_eq!(rt; wrong, Ok(None));
    Ok(())
}
