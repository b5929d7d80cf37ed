//! Calls of a disk in memory, and those of them that fail.

use crate::folder::{empty, files_of, made};
use pt_choice::Octets;
use pt_disk::{Calls, Disk, DiskFailed, DiskStop, MemoryDisk, NamedFiles};
use std::alloc::Global;
use std::test::Fail;

// Whether the first bytes of a file are these; None stands for no file.
fn reads(
    alloc: Global,
    disk: &mut MemoryDisk,
    name: &str,
    cap: usize,
    want: Option<&[u8]>,
) -> Result<bool, DiskStop> {
    Ok(match (disk.read(alloc, name.as_bytes(), cap)?, want) {
        (Some(bytes), Some(want)) => bytes.as_slice() == want,
        (None, None) => true,
        _ => false,
    })
}

#[test]
fn one_file_is_named_and_read(rt: HostRuntime) -> Result<(), Fail> {
    let alloc = rt.alloc();
    let mut files = NamedFiles::empty(alloc);
    files.push((Octets::of(alloc, b"s")?, Octets::of(alloc, b"abc")?))?;
    let mut disk = MemoryDisk::of(alloc, files, Calls::empty(alloc))?;
    for (name, cap, want) in [
        ("s", 0, Some(b"".as_slice())),
        ("s", 1, Some(b"a".as_slice())),
        ("s", 4, Some(b"abc".as_slice())),
        ("t", 4, None),
    ] {
        assert_eq!(rt;
            reads(alloc, &mut disk, name, cap, want),
            Ok(true),
            "{name} to {cap}"
        );
    }
    assert_eq!(rt; files_of(alloc, &mut disk)?.as_slice(), b"s=abc".as_slice());
    assert_eq!(rt; disk.starved(), 0);
    Ok(())
}

#[test]
fn names_stand_in_byte_order_once(rt: HostRuntime) -> Result<(), Fail> {
    let alloc = rt.alloc();
    let mut disk = empty(alloc, &[])?;
    for call in [
        "put b 1",
        "put a 2",
        "put ab 3",
        "put b 4",
        "remove a",
        "rename ab c",
        "put d 5",
        "rename d e",
    ] {
        made(&mut disk, call)?;
    }
    assert_eq!(rt;
        files_of(alloc, &mut disk)?.as_slice(),
        b"b=4 c=3 e=5".as_slice()
    );
    Ok(())
}

// What calls of which the second, the fourth and the sixth are to fail come to.
fn fails_in_turn(alloc: Global, call: &str) -> Result<bool, Fail> {
    let mut disk = empty(alloc, &[2, 4, 6])?;
    made(&mut disk, "put a 1")?;
    Ok(
        made(&mut disk, call) == Err(DiskFailed)
            && reads(alloc, &mut disk, "a", 9, Some(b"1")) == Ok(true)
            && reads(alloc, &mut disk, "a", 9, Some(b"1")) == Err(DiskStop::Failed)
            && made(&mut disk, call) == Ok(())
            && disk.names(alloc).err() == Some(DiskStop::Failed)
            && disk.starved() == 0,
    )
}

#[test]
fn a_call_that_is_to_fail_changes_nothing(rt: HostRuntime) -> Result<(), Fail> {
    for call in [
        "put a 2",
        "sync a",
        "rename a b",
        "rename a a",
        "remove a",
        "settle",
    ] {
        assert!(rt; fails_in_turn(rt.alloc(), call)?, "{call}");
    }
    Ok(())
}
