//! A folder of the machine: as a disk, and below a store of examples.

use crate::calls::{Call, first_wrong};
use pt_db::{Store, StoreFault};
use pt_disk::{Disk, DiskStop};
use pt_real::{FileSystem, FolderDisk, RealFileSystem};
use std::alloc::Global;
use std::fs;
use std::io::Write;
use std::test::Fail;

// A name is absent after a remove, whether it was there or not.
const CALLS: [Call; 23] = [
    ("names", "-"),
    ("put b xyz", "ok"),
    ("sync b", "ok"),
    ("names", "b"),
    ("put a 1", "ok"),
    ("put B 2", "ok"),
    ("settle", "ok"),
    ("names", "B a b"),
    ("read b 2", "xy"),
    ("read b 4097", "xyz"),
    ("read b 0", ""),
    ("read c 9", "-"),
    ("rename b c", "ok"),
    ("settle", "ok"),
    ("names", "B a c"),
    ("read b 9", "-"),
    ("put c 0", "ok"),
    ("read c 9", "0"),
    ("remove a", "ok"),
    ("remove a", "ok"),
    ("sync a", "failed"),
    ("rename a b", "failed"),
    ("names", "B c"),
];

// There is a folder `within`.
const AROUND: [Call; 3] = [
    ("names", "within"),
    ("read within 9", "failed"),
    ("put within 1", "failed"),
];

// There is a file where the folder is to be made.
const OCCUPIED: [Call; 7] = [
    ("settle", "failed"),
    ("names", "failed"),
    ("read a 9", "failed"),
    ("put a 1", "failed"),
    ("sync a", "failed"),
    ("rename a b", "failed"),
    ("remove a", "failed"),
];

const FREE: [Call; 2] = [("settle", "ok"), ("read a 9", "-")];

// Names that no file may have.
const MISNAMED: [&[u8]; 7] = [b"", b".", b"..", b"a/b", b"a\0b", b"\xff", &[b'a'; 256]];

#[test]
fn a_folder_is_made_and_keeps_its_files(rt: HostRuntime) -> Result<(), Fail> {
    let alloc = rt.alloc();
    let mut disk = FolderDisk::of(RealFileSystem::of(&rt), alloc, "a_folder_of_calls")?;
    let wrong = first_wrong(alloc, &mut disk, &CALLS);
    fs::remove_dir_all(&rt, "a_folder_of_calls")?;
    assert_eq!(rt; wrong, Ok(None));
    Ok(())
}

#[test]
fn a_folder_within_is_named_and_is_no_file(rt: HostRuntime) -> Result<(), Fail> {
    let alloc = rt.alloc();
    fs::create_dir_all(&rt, "a_folder_around/within")?;
    let mut disk = FolderDisk::of(RealFileSystem::of(&rt), alloc, "a_folder_around")?;
    let wrong = first_wrong(alloc, &mut disk, &AROUND);
    fs::remove_dir_all(&rt, "a_folder_around")?;
    assert_eq!(rt; wrong, Ok(None));
    Ok(())
}

// What stands where the folder is to be: a file, then nothing, then a file again.
#[test]
fn a_folder_that_is_no_folder_fails_each_call(rt: HostRuntime) -> Result<(), Fail> {
    let alloc = rt.alloc();
    let place = "a_file_for_a_folder";
    let mut disk = FolderDisk::of(RealFileSystem::of(&rt), alloc, place)?;
    fs::create(&rt, place)?.write_all(b"1")?;
    let occupied = first_wrong(alloc, &mut disk, &OCCUPIED);
    fs::remove_file(&rt, place)?;
    let free = first_wrong(alloc, &mut disk, &FREE);
    fs::remove_dir(&rt, place)?;
    fs::create(&rt, place)?.write_all(b"1")?;
    let replaced = first_wrong(alloc, &mut disk, &OCCUPIED[1..]);
    fs::remove_file(&rt, place)?;
    assert_eq!(rt; occupied, Ok(None));
    assert_eq!(rt; free, Ok(None));
    assert_eq!(rt; replaced, Ok(None));
    Ok(())
}

// How many calls fail that are given this name, of which there are six: a rename is from it or to it.
fn refusals<S: FileSystem + Drop>(alloc: Global, disk: &mut FolderDisk<S>, name: &[u8]) -> u64 {
    let before = disk.faults();
    let _read = disk.read(alloc, name, 9);
    let _put = disk.put(name, b"1");
    let _synced = disk.sync(name);
    let _from = disk.rename(name, b"there");
    let _to = disk.rename(b"there", name);
    let _removed = disk.remove(name);
    disk.faults().saturating_sub(before)
}

// Whether just these names are refused, and the longest one is taken.
fn refuses_names<S: FileSystem + Drop>(
    alloc: Global,
    disk: &mut FolderDisk<S>,
) -> Result<bool, DiskStop> {
    disk.put(b"there", b"1")?;
    for name in MISNAMED {
        if refusals(alloc, disk, name) != 6 {
            return Ok(false);
        }
    }
    disk.put(&[b'a'; 255], b"1")?;
    Ok(disk.names(alloc)?.len() == 2)
}

#[test]
fn a_name_that_no_file_may_have_is_a_fault(rt: HostRuntime) -> Result<(), Fail> {
    let alloc = rt.alloc();
    let mut disk = FolderDisk::of(RealFileSystem::of(&rt), alloc, "a_folder_of_names")?;
    let refused = refuses_names(alloc, &mut disk);
    fs::remove_dir_all(&rt, "a_folder_of_names")?;
    assert_eq!(rt; refused, Ok(true));
    Ok(())
}

// Whether the value 12 is kept for a key once it was saved, and not after it was deleted.
fn is_kept_and_deleted<S: FileSystem + Drop>(
    alloc: Global,
    disk: &mut FolderDisk<S>,
) -> Result<bool, StoreFault> {
    let Ok(mut store) = Store::attach(alloc, disk) else {
        return Err(StoreFault::Disk);
    };
    store.save(b"abc", b"12")?;
    let kept = store.fetch(b"abc")?;
    store.delete(b"abc", b"12")?;
    let left = store.fetch(b"abc")?;
    store.close();
    Ok(kept.len() == 1 && left.len() == 0)
}

#[test]
fn a_store_keeps_its_examples_in_a_folder(rt: HostRuntime) -> Result<(), Fail> {
    let alloc = rt.alloc();
    let mut disk = FolderDisk::of(RealFileSystem::of(&rt), alloc, "a_folder_of_examples")?;
    let kept = is_kept_and_deleted(alloc, &mut disk);
    fs::remove_dir_all(&rt, "a_folder_of_examples")?;
    assert!(rt; matches!(kept, Ok(true)));
    Ok(())
}
