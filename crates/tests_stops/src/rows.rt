//! What a row over the machine's folder cannot show: which calls of the outside are made, and what is kept where one fails.
//!
//! A call of the outside that is to fail shows how many were made before it. No row has status 8: no two values of one digest are known.

use crate::expect::expect;
use crate::folder::{Stored, folder, holds_all};
use crate::script::{Script, is_told};
use crate::suites::{
    ABC, ABC_AND_NONE, BROKEN, EXPLAIN, FINE, MAKE, NEW, NONE, OLD, REPLAY, RUN, RUN_WITH_FOUR,
    SHOWN, STALE, STORED,
};
use pt_disk::DiskStop;
use std::alloc::Global;
use std::test::Fail;
use std::thread::Threads;

// What is stored, the call of the disk that fails, counted with the three that store each value, the calls, and what they leave stored.
type Row = (&'static [Stored], Option<u64>, Script, &'static [Stored]);

const ROWS: [Row; 11] = [
    // A stored failure is found again. The run makes three calls of the files and sixteen of the disk, and the next of each are others'.
    (
        &[OLD],
        Some(20),
        Script {
            suite: Some(ABC),
            read: Some(4),
            write: None,
            calls: &[(RUN, 1), (STORED, 6), (RUN, 4), (STORED, 0)],
            output: "abc: failed at 3:3 (assert), minimal\n  found in the database\n  x = 10\n  choices: i10\n0 passed, 1 failed, 0 gave up\ndatabase failed\nsuite cannot be read\nba7816bf8f01cfea414140de5dae2223b00361a396177a9cb410ff61f20015ad i10\nba7816bf8f01cfea414140de5dae2223b00361a396177a9cb410ff61f20015ad i573\n2 stored\n",
        },
        &[SHOWN, NEW],
    ),
    // Neither a replay nor an explanation nor a made suite calls the disk, and of the others but the first two none calls the files: each makes three calls of them.
    (
        &[OLD],
        Some(4),
        Script {
            suite: Some(ABC),
            read: Some(7),
            write: None,
            calls: &[
                (REPLAY, 1),
                (EXPLAIN, 1),
                (MAKE, 1),
                (STORED, 6),
                (STORED, 0),
                (REPLAY, 4),
            ],
            output: "abc: failed at 3:3 (assert)\n  x = 573\n  choices: i573\nabc: failed at 3:3 (assert)\n  x = 573\n  choices: i573\n  0: i573 bound by i0\n3 items: 1 passed, 1 failed, 1 gave up, 3 choices shown\ndatabase failed\nba7816bf8f01cfea414140de5dae2223b00361a396177a9cb410ff61f20015ad i573\n1 stored\nsuite cannot be read\n",
        },
        &[OLD],
    ),
    // Words that ask for nothing call neither, an item that is not there the files alone.
    (
        &[OLD],
        Some(4),
        Script {
            suite: Some(ABC),
            read: Some(4),
            write: None,
            calls: &[
                (&["run", "s", "1", "17"], 2),
                (&["replay", "s", "abc", "i007"], 2),
                (&["replay", "s", "nope", "-"], 10),
                (STORED, 6),
                (REPLAY, 4),
            ],
            output: "usage: run SUITE SEED WORKERS | replay SUITE NAME CHOICES | stored | make SEED COUNT | explain SUITE NAME CHOICES\nusage: run SUITE SEED WORKERS | replay SUITE NAME CHOICES | stored | make SEED COUNT | explain SUITE NAME CHOICES\nunknown item\ndatabase failed\nsuite cannot be read\n",
        },
        &[OLD],
    ),
    // What no longer fails, and what is no list, is deleted, by ten calls of the disk.
    (
        &[STALE, BROKEN],
        Some(17),
        Script {
            suite: Some(FINE),
            read: None,
            write: None,
            calls: &[(RUN, 0), (STORED, 6), (STORED, 0)],
            output: "fine: passed, 2 valid\n1 passed, 0 failed, 0 gave up\ndatabase failed\n0 stored\n",
        },
        &[],
    ),
    // A file that is not there, and one whose last read fails: the disk is not called.
    (
        &[OLD],
        Some(4),
        Script {
            suite: None,
            read: None,
            write: None,
            calls: &[(RUN, 4), (REPLAY, 4), (STORED, 6)],
            output: "suite cannot be read\nsuite cannot be read\ndatabase failed\n",
        },
        &[OLD],
    ),
    (
        &[OLD],
        Some(4),
        Script {
            suite: Some(ABC),
            read: Some(3),
            write: None,
            calls: &[(RUN, 4), (STORED, 6)],
            output: "suite cannot be read\ndatabase failed\n",
        },
        &[OLD],
    ),
    // A write that fails: what was shown before it is stored, and so is what it was to show.
    (
        &[OLD],
        None,
        Script {
            suite: Some(ABC_AND_NONE),
            read: None,
            write: Some(1),
            calls: &[(RUN, 5), (STORED, 0)],
            output: "ba7816bf8f01cfea414140de5dae2223b00361a396177a9cb410ff61f20015ad i10\nba7816bf8f01cfea414140de5dae2223b00361a396177a9cb410ff61f20015ad i573\n2 stored\n",
        },
        &[SHOWN, NEW],
    ),
    (
        &[OLD],
        None,
        Script {
            suite: Some(ABC_AND_NONE),
            read: None,
            write: Some(2),
            calls: &[(RUN, 5), (STORED, 0)],
            output: "abc: failed at 3:3 (assert), minimal\n  found in the database\n  x = 10\n  choices: i10\n140bedbf9c3f6d56a9846d2ba7088798683f4da0c248231336e6a05679e4fdfe -\nba7816bf8f01cfea414140de5dae2223b00361a396177a9cb410ff61f20015ad i10\nba7816bf8f01cfea414140de5dae2223b00361a396177a9cb410ff61f20015ad i573\n3 stored\n",
        },
        &[NONE, SHOWN, NEW],
    ),
    (
        &[OLD],
        None,
        Script {
            suite: Some(ABC_AND_NONE),
            read: None,
            write: Some(3),
            calls: &[(RUN, 5), (STORED, 0)],
            output: "abc: failed at 3:3 (assert), minimal\n  found in the database\n  x = 10\n  choices: i10\nnone: failed at 6:3 (assert), minimal\n  found in run 0\n  choices: -\n140bedbf9c3f6d56a9846d2ba7088798683f4da0c248231336e6a05679e4fdfe -\nba7816bf8f01cfea414140de5dae2223b00361a396177a9cb410ff61f20015ad i10\nba7816bf8f01cfea414140de5dae2223b00361a396177a9cb410ff61f20015ad i573\n3 stored\n",
        },
        &[NONE, SHOWN, NEW],
    ),
    // A run over what another left, with one worker and with four, either first: the same verdicts.
    (
        &[OLD],
        None,
        Script {
            suite: Some(ABC_AND_NONE),
            read: None,
            write: None,
            calls: &[(RUN, 1), (RUN_WITH_FOUR, 1)],
            output: RUN_TWICE,
        },
        &[NONE, SHOWN, NEW],
    ),
    (
        &[OLD],
        None,
        Script {
            suite: Some(ABC_AND_NONE),
            read: None,
            write: None,
            calls: &[(RUN_WITH_FOUR, 1), (RUN, 1)],
            output: RUN_TWICE,
        },
        &[NONE, SHOWN, NEW],
    ),
];

const RUN_TWICE: &str =
    "abc: failed at 3:3 (assert), minimal\n  found in the database\n  x = 10\n  choices: i10\nnone: failed at 6:3 (assert), minimal\n  found in run 0\n  choices: -\n0 passed, 2 failed, 0 gave up\nabc: failed at 3:3 (assert), minimal\n  found in the database\n  x = 10\n  choices: i10\nnone: failed at 6:3 (assert), minimal\n  found in the database\n  choices: -\n0 passed, 2 failed, 0 gave up\n";

// Whether the calls of a row end so, and leave that stored.
fn is_kept<R: Threads + Sync>(rt: &R, alloc: Global, row: Row) -> Result<bool, DiskStop> {
    let (stored, failing, script, left) = row;
    let mut disk = folder(alloc, stored, failing)?;
    let told = is_told(rt, alloc, script, &mut disk)?;
    Ok(told && holds_all(alloc, &mut disk, left)?)
}

#[test]
fn calls_of_the_outside_are_these(rt: HostRuntime) -> Result<(), Fail> {
    for (number, row) in ROWS.iter().enumerate() {
        expect(&rt, number, is_kept(&rt, rt.alloc(), *row));
    }
    Ok(())
}
