//! What a turn leaves of what is stored under a key: all of its edits made, and a call of the disk failing in the middle.

ghost use Rattle.std.specs.Prelude.{◌≡◌, false};

use crate::folder::empty;
use crate::store::{answer, attached};
use pt_case::{Ending, Notes, Origin, Record, Spans};
use pt_choice::{Choice, Choices, NoMemory};
use pt_db::Store;
use pt_disk::MemoryDisk;
use pt_edits::{StoreStop, edits_of, lists_of, make_edits, read_stored};
use pt_found::{Flags, Found, Verdict};
use pt_stored::MAX_VALUE;
use std::alloc::Global;
use std::test::Fail;

// The list of `true` in version 1 and in version 2, the list of `false` in version 2, and a value that spells no list.
const OLD: &[u8] = &[1];

const NEW: &[u8] = &[242, 1, 0, 1];

const OTHER: &[u8] = &[242, 1, 0, 0];

const BROKEN: &[u8] = &[9];

const BOTH: &[u8] = &[242, 1, 0, 1, 32, 242, 1, 0, 0];

const STILL_OLD: &[u8] = &[242, 1, 0, 1, 32, 1];

// The values stored, whether their lists fail, whether the list of `true` is shown, and what is stored then. The files' names begin with
// 2b for BROKEN, 3d for NEW, 4b for OLD and b6 for OTHER, and flags are in that order.
const TURNS: [(&[&[u8]], &[bool], bool, &[u8]); 10] = [
    (&[OLD], &[true], false, NEW),
    (&[OLD], &[false], false, b"-"),
    (&[NEW], &[true], false, NEW),
    (&[OTHER], &[false], false, b"-"),
    (&[BROKEN], &[], false, b"-"),
    (&[OLD, OTHER, BROKEN], &[true, true], false, BOTH),
    (&[OLD, OTHER], &[false, true], false, OTHER),
    (&[OLD, NEW], &[true, true], false, NEW),
    (&[], &[], true, NEW),
    (&[OTHER], &[false], true, NEW),
];

// The call that fails, and what is stored then. The value of version 1 is saved by call 6, and the folder attached again by call 7; the turn
// reads by calls 8 and 9, saves by calls 10 to 14 and deletes by calls 15 to 17.
const STOPS: [(u64, &[u8]); 7] = [
    (8, OLD),
    (10, OLD),
    (11, OLD),
    (13, OLD),
    (14, STILL_OLD),
    (16, STILL_OLD),
    (17, NEW),
];

// A failure whose one choice is `true`.
fn shown(alloc: Global) -> Result<Verdict, NoMemory> {
    let mut choices = Choices::empty(alloc);
    choices.push(Choice::Bool(true))?;
    let shown = Record {
        choices,
        spans: Spans::empty(alloc),
        notes: Notes::empty(alloc),
        ending: Ending::Fail(Origin::Point(1)),
    };
    Ok(Verdict::Failed {
        shown,
        found: Found::Stored,
        spent: false,
    })
}

fn flags_of(alloc: Global, failing: &[bool]) -> Result<Flags, NoMemory> {
    let mut flags = Flags::empty(alloc);
    for fails in failing {
        flags.push(*fails)?;
    }
    Ok(flags)
}

// The folder with these values under the key.
fn filled(alloc: Global, failing: &[u64], values: &[&[u8]]) -> Result<MemoryDisk, Fail> {
    let mut disk = empty(alloc, failing)?;
    let mut store = attached(alloc, &mut disk)?;
    for value in values {
        if value.len() <= MAX_VALUE {
            let _done = store.save(b"abc", value);
        }
    }
    store.close();
    Ok(disk)
}

// Reads what is stored under the key, and edits it. False where there is not one flag for each list.
fn turned(
    alloc: Global,
    store: &mut Store<'_, MemoryDisk>,
    verdict: &Verdict,
    failing: &Flags,
) -> Result<bool, StoreStop>
    requires { store.old.dead ≡ false }
{
    let readings = read_stored(alloc, store, b"abc")?;
    let lists = lists_of(alloc, &readings)?;
    if lists.len() != failing.len() {
        return Ok(false);
    }
    let edits = edits_of(alloc, readings, verdict, failing)?;
    make_edits(store, b"abc", &edits)?;
    Ok(true)
}

// What is stored under the key after a turn.
fn left(
    alloc: Global,
    disk: &mut MemoryDisk,
    verdict: &Verdict,
    failing: &[bool],
) -> Result<Vec<u8>, Fail> {
    let flags = flags_of(alloc, failing)?;
    let mut store = attached(alloc, disk)?;
    let _turned = turned(alloc, &mut store, verdict, &flags);
    store.close();
    let mut again = attached(alloc, disk)?;
    Ok(answer(alloc, &mut again, "fetch abc")?)
}

fn turns_so(alloc: Global, row: (&[&[u8]], &[bool], bool, &[u8])) -> Result<bool, Fail> {
    let (values, failing, shows, want) = row;
    let mut disk = filled(alloc, &[], values)?;
    let verdict = if shows {
        shown(alloc)?
    } else {
        Verdict::Passed
    };
    Ok(left(alloc, &mut disk, &verdict, failing)?.as_slice() == want)
}

#[test]
fn a_turn_edits_what_is_stored(rt: HostRuntime) -> Result<(), Fail> {
    for (row, turn) in TURNS.iter().enumerate() {
        assert!(rt; turns_so(rt.alloc(), *turn)?, "row {row}");
    }
    Ok(())
}

fn stops_so(alloc: Global, failing: u64, want: &[u8]) -> Result<bool, Fail> {
    let mut disk = filled(alloc, &[failing], &[OLD])?;
    Ok(left(alloc, &mut disk, &Verdict::Passed, &[true])?.as_slice() == want)
}

#[test]
fn a_stop_in_a_turn_loses_no_failure(rt: HostRuntime) -> Result<(), Fail> {
    for (failing, want) in STOPS {
        assert!(rt; stops_so(rt.alloc(), failing, want)?, "call {failing}");
    }
    Ok(())
}
