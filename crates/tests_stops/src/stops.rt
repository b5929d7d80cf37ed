//! A run that its disk stopped: each of its calls of the disk fails in turn, and each image of what is left is run again.

use crate::expect::expect;
use crate::folder::{Stored, folder, holds_all, holds_one};
use crate::script::{Call, Script, is_told};
use crate::suites::{
    ABC, BROKEN, COUNT, FINE, FINE_AND_ABC, NEW, OLD, RUN, SHOWN, STALE, STEPS, STORED,
};
use pt_disk::{DiskStop, Keep, MemoryDisk};
use std::alloc::Global;
use std::test::Fail;
use std::thread::Threads;

// What is stored, of which of these values each image has one, the calls over an image, and what they leave stored.
#[derive(Clone, Copy)]
struct Scene {
    stored: &'static [Stored],
    kept: &'static [Stored],
    again: Script,
    left: &'static [Stored],
}

const ABC_AGAIN: Script = Script {
    suite: Some(ABC),
    read: None,
    write: None,
    calls: &[(RUN, 1), (STORED, 0)],
    output: "abc: failed at 3:3 (assert), minimal\n  found in the database\n  x = 10\n  choices: i10\n0 passed, 1 failed, 0 gave up\nba7816bf8f01cfea414140de5dae2223b00361a396177a9cb410ff61f20015ad i10\nba7816bf8f01cfea414140de5dae2223b00361a396177a9cb410ff61f20015ad i573\n2 stored\n",
};

const SECOND_VERSION: Scene = Scene {
    stored: &[NEW],
    kept: &[NEW],
    again: ABC_AGAIN,
    left: &[SHOWN, NEW],
};

const FIRST_VERSION: Scene = Scene {
    stored: &[OLD],
    kept: &[OLD, NEW],
    again: ABC_AGAIN,
    left: &[SHOWN, NEW],
};

const STALE_AND_BROKEN: Scene = Scene {
    stored: &[STALE, BROKEN],
    kept: &[],
    again: Script {
        suite: Some(FINE),
        read: None,
        write: None,
        calls: &[(RUN, 0), (STORED, 0)],
        output: "fine: passed, 2 valid\n1 passed, 0 failed, 0 gave up\n0 stored\n",
    },
    left: &[],
};

const TWO_ITEMS: Scene = Scene {
    stored: &[STALE, OLD],
    kept: &[OLD, NEW],
    again: Script {
        suite: Some(FINE_AND_ABC),
        read: None,
        write: None,
        calls: &[(RUN, 1), (STORED, 0)],
        output: "fine: passed, 2 valid\nabc: failed at 7:3 (assert), minimal\n  found in the database\n  x = 10\n  choices: i10\n1 passed, 1 failed, 0 gave up\nba7816bf8f01cfea414140de5dae2223b00361a396177a9cb410ff61f20015ad i10\nba7816bf8f01cfea414140de5dae2223b00361a396177a9cb410ff61f20015ad i573\n2 stored\n",
    },
    left: &[SHOWN, NEW],
};

// The shown example is the one that is stored.
const MACHINE: Scene = Scene {
    stored: &[STEPS],
    kept: &[STEPS],
    again: Script {
        suite: Some(COUNT),
        read: None,
        write: None,
        calls: &[(RUN, 1), (STORED, 0)],
        output: "count: failed at 3:3 (invariant), minimal\n  found in the database\n  step = \"up\"\n  step = \"up\"\n  step = \"up\"\n  choices: bt i0 bt i0 bt i0\n0 passed, 1 failed, 0 gave up\n6c35493a2b937829c9815c39e23af964bc84e5430a7dc104c700bbc0de2b59e3 bt i0 bt i0 bt i0\n1 stored\n",
    },
    left: &[STEPS],
};

const STOPPED: &[Call] = &[(RUN, 6)];

const STOPPED_LATER: &[Call] = &[(RUN, 1), (STORED, 6)];

const DATABASE_FAILED: &str = "database failed\n";

const ABC_FOUND_THEN_FAILED: &str =
    "abc: failed at 3:3 (assert), minimal\n  found in the database\n  x = 10\n  choices: i10\n0 passed, 1 failed, 0 gave up\ndatabase failed\n";

// The first call of the disk of a stretch and the one behind its last, counted with the three that store each value, and what a run over
// the scene's suite comes to of which one of these fails. The last stretch of a scene has the first call that is no longer the run's.
type Stretch = (Scene, u64, u64, &'static [Call], &'static str);

const STRETCHES: [Stretch; 11] = [
    (SECOND_VERSION, 4, 12, STOPPED, DATABASE_FAILED),
    (SECOND_VERSION, 12, 13, STOPPED_LATER, ABC_FOUND_THEN_FAILED),
    (FIRST_VERSION, 4, 20, STOPPED, DATABASE_FAILED),
    (FIRST_VERSION, 20, 21, STOPPED_LATER, ABC_FOUND_THEN_FAILED),
    (STALE_AND_BROKEN, 7, 17, STOPPED, DATABASE_FAILED),
    (
        STALE_AND_BROKEN,
        17,
        18,
        &[(RUN, 0), (STORED, 6)],
        "fine: passed, 2 valid\n1 passed, 0 failed, 0 gave up\ndatabase failed\n",
    ),
    (TWO_ITEMS, 7, 13, STOPPED, DATABASE_FAILED),
    (
        TWO_ITEMS,
        13,
        28,
        STOPPED,
        "fine: passed, 2 valid\ndatabase failed\n",
    ),
    (
        TWO_ITEMS,
        28,
        29,
        STOPPED_LATER,
        "fine: passed, 2 valid\nabc: failed at 7:3 (assert), minimal\n  found in the database\n  x = 10\n  choices: i10\n1 passed, 1 failed, 0 gave up\ndatabase failed\n",
    ),
    (MACHINE, 4, 8, STOPPED, DATABASE_FAILED),
    (
        MACHINE,
        8,
        9,
        STOPPED_LATER,
        "count: failed at 3:3 (invariant), minimal\n  found in the database\n  step = \"up\"\n  step = \"up\"\n  step = \"up\"\n  choices: bt i0 bt i0 bt i0\n0 passed, 1 failed, 0 gave up\ndatabase failed\n",
    ),
];

// Whether each stop of a stretch is mended.
fn are_mended<R: Threads + Sync>(
    rt: &R,
    alloc: Global,
    stretch: Stretch,
) -> Result<bool, DiskStop> {
    let (scene, first, end, calls, output) = stretch;
    let stopped = Script {
        calls,
        output,
        ..scene.again
    };
    for number in first..end {
        if !is_mended(rt, alloc, scene, stopped, number)? {
            return Ok(false);
        }
    }
    Ok(true)
}

// Whether calls of whose disk this call fails come to that, and each image of what they leave is as the scene says.
fn is_mended<R: Threads + Sync>(
    rt: &R,
    alloc: Global,
    scene: Scene,
    stopped: Script,
    number: u64,
) -> Result<bool, DiskStop> {
    let mut disk = folder(alloc, scene.stored, Some(number))?;
    if !is_told(rt, alloc, stopped, &mut disk)? {
        return Ok(false);
    }
    Ok(
        is_image_mended(rt, alloc, scene, &disk, Keep::Least)?
            && is_image_mended(rt, alloc, scene, &disk, Keep::Most)?
            && is_image_mended(rt, alloc, scene, &disk, Keep::Torn)?,
    )
}

// Whether an image has one of the values that are kept, and the calls over it come to what the scene says.
fn is_image_mended<R: Threads + Sync>(
    rt: &R,
    alloc: Global,
    scene: Scene,
    disk: &MemoryDisk,
    keep: Keep,
) -> Result<bool, DiskStop> {
    let mut image = disk.image(keep)?;
    Ok(
        holds_one(alloc, &mut image, scene.kept)?
            && is_told(rt, alloc, scene.again, &mut image)?
            && holds_all(alloc, &mut image, scene.left)?,
    )
}

#[test]
fn a_run_that_its_disk_stopped_is_run_again(rt: HostRuntime) -> Result<(), Fail> {
    for (row, stretch) in STRETCHES.iter().enumerate() {
        expect(&rt, row, are_mended(&rt, rt.alloc(), *stretch));
    }
    Ok(())
}
