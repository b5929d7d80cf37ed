//! Stores over a disk in memory: what each call answers, and those that fail.

use crate::folder::{empty, files_of, made};
use crate::store::{answer, attached};
use pt_choice::Octets;
use pt_db::Store;
use pt_disk::{Disk, MemoryDisk};
use pt_stored::file_name;
use std::alloc::Global;
use std::test::Fail;

// The digests of the keys abd and abc begin with a5 and ba, those of the values 3 and 12 with 4e and 6b.
const CALLS: &str = "\
list: -
save abc 12: ok
fetch abc: 12
save abc 12: ok
fetch ab: -
save abd 12: ok
save abc 3: ok
fetch abc: 3 12
list: 12 3 12
delete abc 12: ok
fetch abc: 3
delete abc 12: ok
list: 12 3
delete abc 3: ok
fetch abc: -
list: 12";

// The call that fails, and what the calls answer then. The attach is call 1, a save five calls, and a save of what is stored one.
const FAILURES: [(u64, &str); 10] = [
    (2, "list: disk\nlist: dead"),
    (2, "save abc 12: disk\nfetch abc: dead\nlist: dead"),
    (3, "save abc 12: disk\nfetch abc: dead"),
    (
        4,
        "save abc 12: disk\nsave abc 12: dead\ndelete abc 3: dead",
    ),
    (5, "save abc 12: disk\nlist: dead"),
    (6, "save abc 12: disk\ndelete abc 12: dead"),
    (8, "save abc 12: ok\nsave abc 12: ok\nlist: disk"),
    (8, "save abc 12: ok\ndelete abc 12: disk\nlist: dead"),
    (9, "save abc 12: ok\ndelete abc 12: disk\nlist: dead"),
    (9, "save abc 12: ok\ndelete abc 3: ok\nlist: disk"),
];

// An old `pending`, a foreign file, and one with the name of the value 12 of abc and other bytes.
const FOREIGN: [&str; 4] = [
    "put pending to",
    "put notes.txt 1",
    "put ba7816bf8f01cfea414140de5dae2223b00361a396177a9cb410ff61f20015ad-6b51d431df5d7f141cbececcf79edf3dd861c3b4069f0b11661a3eefacbba918 other",
    "put ba7816bf8f01cfea414140de5dae2223b00361a396177a9cb410ff61f20015ad 12",
];

// A delete of what is not stored leaves such a file, and a save replaces it.
const BESIDE_THEM: &str = "\
list: -
fetch abc: -
delete abc 12: ok
list: -
save abc 12: ok
list: 12";

// The number of the first call that does not answer as its line says.
fn first_wrong(alloc: Global, disk: &mut MemoryDisk, lines: &str) -> Result<Option<usize>, Fail> {
    let mut store = attached(alloc, disk)?;
    for (number, line) in lines.lines().enumerate() {
        let (call, want) = line.split_once(": ").ok_or("no answer")?;
        if answer(alloc, &mut store, call)?.as_slice() != want.as_bytes() {
            return Ok(Some(number));
        }
    }
    store.close();
    Ok(None)
}

#[test]
fn calls_follow_one_another(rt: HostRuntime) -> Result<(), Fail> {
    let alloc = rt.alloc();
    let mut disk = empty(alloc, &[])?;
    assert_eq!(rt; first_wrong(alloc, &mut disk, CALLS)?, None);
    Ok(())
}

fn fails_so(alloc: Global, failing: u64, lines: &str) -> Result<bool, Fail> {
    let mut disk = empty(alloc, &[failing])?;
    Ok(first_wrong(alloc, &mut disk, lines)? == None)
}

#[test]
fn a_store_is_dead_after_a_call_that_failed(rt: HostRuntime) -> Result<(), Fail> {
    for (failing, lines) in FAILURES {
        assert!(rt;
            fails_so(rt.alloc(), failing, lines)?,
            "call {failing} of {lines}"
        );
    }
    Ok(())
}

#[test]
fn a_disk_that_failed_to_settle_is_attached_again(rt: HostRuntime) -> Result<(), Fail> {
    let alloc = rt.alloc();
    let mut disk = empty(alloc, &[1])?;
    assert!(rt; Store::attach(alloc, &mut disk).is_err());
    assert_eq!(rt; first_wrong(alloc, &mut disk, CALLS)?, None);
    Ok(())
}

fn with_foreign_files(alloc: Global) -> Result<MemoryDisk, Fail> {
    let mut disk = empty(alloc, &[])?;
    for call in FOREIGN {
        made(&mut disk, call)?;
    }
    Ok(disk)
}

#[test]
fn other_files_are_no_examples(rt: HostRuntime) -> Result<(), Fail> {
    let alloc = rt.alloc();
    let mut disk = with_foreign_files(alloc)?;
    assert_eq!(rt; first_wrong(alloc, &mut disk, BESIDE_THEM)?, None);
    Ok(())
}

// What a list of a folder leaves of its files.
fn is_left_alone(alloc: Global) -> Result<bool, Fail> {
    let mut disk = with_foreign_files(alloc)?;
    let before = files_of(alloc, &mut disk)?;
    let _wrong = first_wrong(alloc, &mut disk, "list: -")?;
    Ok(files_of(alloc, &mut disk)?.as_slice() == before.as_slice())
}

#[test]
fn a_list_leaves_the_folder(rt: HostRuntime) -> Result<(), Fail> {
    assert!(rt; is_left_alone(rt.alloc())?);
    Ok(())
}

// What is listed of a file of so many bytes, under the right name.
fn is_listed(alloc: Global, size: usize) -> Result<bool, Fail> {
    let bytes = vec![in alloc; 0; size]?;
    let name = file_name(alloc, b"abc", bytes.as_slice())?;
    let mut disk = empty(alloc, &[])?;
    disk.put(name.as_slice(), bytes.as_slice())?;
    let mut store = attached(alloc, &mut disk)?;
    let listed = answer(alloc, &mut store, "list")?;
    Ok(listed.as_slice() == bytes.as_slice())
}

#[test]
fn a_value_has_at_most_65536_bytes(rt: HostRuntime) -> Result<(), Fail> {
    assert!(rt; is_listed(rt.alloc(), 65_536)?);
    assert!(rt; !is_listed(rt.alloc(), 65_537)?);
    Ok(())
}
