//! What a crash leaves of a save and of a delete: three images after each call that fails, attached again.

use crate::folder::empty;
use crate::store::{answer, attached};
use pt_disk::{Keep, MemoryDisk};
use std::alloc::Global;
use std::test::Fail;

const SAVE: &str = "save abc 12";

const DELETE: &str = "save abc 12\ndelete abc 12";

// The call that fails, the calls of the store, and what is stored in the images that keep least, that keep most, and that are torn.
const STOPS: [(u64, &str, &str, &str, &str); 9] = [
    (3, SAVE, "-", "-", "-"),
    (4, SAVE, "-", "-", "-"),
    (5, SAVE, "-", "-", "-"),
    (6, SAVE, "-", "12", "-"),
    (7, SAVE, "12", "12", "12"),
    (7, DELETE, "12", "12", "12"),
    (8, DELETE, "12", "12", "12"),
    (9, DELETE, "12", "-", "12"),
    (10, DELETE, "-", "-", "-"),
];

// The folder after these calls of a store, of whose disk this call fails.
fn stopped(alloc: Global, failing: u64, calls: &str) -> Result<MemoryDisk, Fail> {
    let mut disk = empty(alloc, &[failing])?;
    let mut store = attached(alloc, &mut disk)?;
    for call in calls.lines() {
        let _answer = answer(alloc, &mut store, call)?;
    }
    store.close();
    Ok(disk)
}

// Whether a crash that keeps so much leaves these values stored.
fn leaves(alloc: Global, disk: &MemoryDisk, keep: Keep, want: &str) -> Result<bool, Fail> {
    let mut image = disk.image(keep)?;
    let mut store = attached(alloc, &mut image)?;
    let listed = answer(alloc, &mut store, "list")?;
    Ok(listed.as_slice() == want.as_bytes())
}

// Whether the three images of the folder hold these values.
fn leaves_all(
    alloc: Global,
    disk: &MemoryDisk,
    least: &str,
    most: &str,
    torn: &str,
) -> Result<bool, Fail> {
    Ok(
        leaves(alloc, disk, Keep::Least, least)?
            && leaves(alloc, disk, Keep::Most, most)?
            && leaves(alloc, disk, Keep::Torn, torn)?,
    )
}

fn stops_so(alloc: Global, row: (u64, &str, &str, &str, &str)) -> Result<bool, Fail> {
    let (failing, calls, least, most, torn) = row;
    let disk = stopped(alloc, failing, calls)?;
    leaves_all(alloc, &disk, least, most, torn)
}

#[test]
fn a_stop_leaves_old_or_new(rt: HostRuntime) -> Result<(), Fail> {
    for (row, stop) in STOPS.iter().enumerate() {
        assert!(rt; stops_so(rt.alloc(), *stop)?, "row {row}");
    }
    Ok(())
}
