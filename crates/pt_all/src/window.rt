//! The runs that are surveyed.

ghost use Rattle.std.specs.Prelude.{◌≤◌, List, IfOk};
ghost use Rattle.pt_case.specs.declared.record.Record.{Record};
ghost use Rattle.pt_all.specs.Window.{IsWindow};
ghost use Rattle.pt_all.specs.Progress.{IsCount};

use crate::tally::{Tally, count};
use pt_case::Check;
use pt_choice::NoMemory;
use pt_par::batch;
use std::alloc::Global;
use std::thread::Threads;

/// The most runs of one block.
const LARGEST: u32 = 256;

/// Makes the runs 0, 1, 2 and so on, a block at a time, until they are enough. With one worker a block is one run, so that each record
/// is dropped before the next run. No block has more runs than are missing, so that none is made in vain.
pub(crate) fn count_window<R: Threads + Sync, C: Check>(
    rt: &R,
    alloc: Global,
    check: &C,
    seed: u64,
    runs: u32,
    workers: u32,
) -> Result<Tally, NoMemory>
    requires some { 1 ≤ runs }
    requires most { runs ≤ 10000 }
    requires workers { (1 ≤ workers) × (workers ≤ 16) }
    ensures { IfOk result (λ tally. (records : List Record) × IsWindow (C.step check.now) seed runs records × IsCount records tally) }
{
    let most = 10 * runs;
    let mut tally = Tally {
        seen: 0,
        valid: 0,
        settled: 0,
        firsts: Vec::new(alloc),
    };
    let largest = largest_block(workers);
    while tally.settled < runs && tally.seen < most {
        let from = tally.seen;
        let block = block_size(largest, most - from, runs - tally.settled);
        let records = batch(
            rt,
            alloc,
            check,
            seed,
            u64::from(from),
            u64::from(from + block),
            workers,
        )?;
        count(records.as_slice(), &mut tally)?;
    }
    Ok(tally)
}

// How many runs a block may have.
fn largest_block(workers: u32) -> u32
    ensures { (1 ≤ result) × (result ≤ 256) }
{
    if workers == 1 { 1 } else { LARGEST }
}

// As many runs as a block may have, but no more than are left, nor than are missing.
fn block_size(largest: u32, left: u32, missing: u32) -> u32
    requires { (1 ≤ largest) × (1 ≤ left) × (1 ≤ missing) }
    ensures { (1 ≤ result) × (result ≤ largest) × (result ≤ left) × (result ≤ missing) }
{
    largest.min(left).min(missing)
}
