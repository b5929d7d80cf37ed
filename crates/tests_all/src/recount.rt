//! What the runs of a check come to, counted one by one, with no block and no worker.

use pt_case::{Check, Ending, fresh};
use pt_choice::NoMemory;
use pt_found::{Fault, Survey};
use std::alloc::Global;

/// The seed of all these tests.
pub const SEED: u64 = 7;

/// How the first runs of a check end.
pub fn endings_of<C: Check>(alloc: Global, check: &C, runs: u32) -> Result<Vec<Ending>, NoMemory> {
    let mut endings = Vec::new(alloc);
    for run in 0..runs {
        endings.push(fresh(alloc, check, SEED, u64::from(run))?.ending)?;
    }
    Ok(endings)
}

fn is_pass(ending: &&Ending) -> bool {
    ending.is_pass()
}

fn is_settled(ending: &&Ending) -> bool {
    ending.is_pass() || ending.is_failure()
}

fn settled(endings: &[Ending]) -> usize {
    endings.iter().filter(is_settled).count()
}

/// How many of the runs end so.
pub fn times(endings: &[Ending], ending: Ending) -> usize {
    let mut times = 0usize;
    for other in endings {
        if *other == ending {
            times = times.saturating_add(1);
        }
    }
    times
}

// The first of the runs that ends so.
fn first(endings: &[Ending], ending: Ending) -> Option<usize> {
    for (run, other) in endings.iter().enumerate() {
        if *other == ending {
            return Some(run);
        }
    }
    None
}

// Whether these runs are as many as are surveyed where so many are to pass or fail, and none too many.
fn is_window(endings: &[Ending], runs: usize) -> bool {
    let Some((_, before)) = endings.split_last() else {
        return false;
    };
    let most = runs.saturating_mul(10);
    (settled(endings) == runs || endings.len() == most)
        && settled(before) < runs
        && before.len() < most
}

// Whether the fault's run is the first one of its origin, and the origin came as often as the fault says.
fn is_counted(fault: &Fault, endings: &[Ending]) -> bool {
    first(endings, fault.shown.ending) == Some(fault.run as usize)
        && times(endings, fault.shown.ending) == fault.times as usize
}

// Whether one of the faults has this origin.
fn is_shown(faults: &[Fault], ending: Ending) -> bool {
    for fault in faults {
        if fault.shown.ending == ending {
            return true;
        }
    }
    false
}

// Whether each origin of these runs is shown, and in the order of the first runs.
fn are_all_shown(faults: &[Fault], endings: &[Ending]) -> bool {
    for ending in endings {
        if ending.is_failure() && !is_shown(faults, *ending) {
            return false;
        }
    }
    let mut past = 0;
    for fault in faults {
        if fault.run < past || !is_counted(fault, endings) {
            return false;
        }
        past = fault.run.saturating_add(1);
    }
    true
}

// Whether each of the first sixteen had a sixteenth of the budget, and those behind them none; and none tried more.
fn are_within(faults: &[Fault], budget: u32) -> bool {
    for (place, fault) in faults.iter().enumerate() {
        let share = if place < 16 { budget / 16 } else { 0 };
        if fault.budget != share || fault.trail.len() > share as usize {
            return false;
        }
    }
    true
}

/// Whether the survey says what its runs came to.
pub fn is_recounted<C: Check>(
    alloc: Global,
    check: &C,
    survey: &Survey,
    budget: u32,
) -> Result<bool, NoMemory> {
    let endings = endings_of(alloc, check, survey.seen)?;
    let endings = endings.as_slice();
    let faults = survey.faults.as_slice();
    Ok(
        is_window(endings, survey.runs as usize)
            && endings.iter().filter(is_pass).count() == survey.valid as usize
            && are_all_shown(faults, endings)
            && are_within(faults, budget),
    )
}
