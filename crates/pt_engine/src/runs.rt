ghost use Rattle.std.specs.Prelude.{◌≤◌, IfOk};
ghost use Rattle.pt_engine.specs.Outcome.{AreCounted};

use crate::outcome::Decision;
use crate::tally::{Tally, count};
use pt_case::Check;
use pt_choice::NoMemory;
use pt_par::batch;
use std::alloc::Global;
use std::thread::Threads;

/// What the runs came to.
#[derive(Drop)]
pub(crate) struct Counted {
    pub(crate) decision: Decision,
    pub(crate) tally: Tally,
}

/// The most runs of one block.
const LARGEST: u32 = 256;

/// Makes the runs 0, 1, 2 and so on, a block at a time, until they decide. With one worker a block is one run, so that
/// none is made in vain and each record is dropped before the next run; with more the blocks grow, so that little is
/// made in vain where a failure comes early. No block has more runs than passes are missing, so that none is made behind the last pass.
pub(crate) fn count_runs<R: Threads + Sync, C: Check>(
    rt: &R,
    alloc: Global,
    check: &C,
    seed: u64,
    runs: u32,
    workers: u32,
) -> Result<Counted, NoMemory>
    requires some { 1 ≤ runs }
    requires most { runs ≤ 10000 }
    requires workers { (1 ≤ workers) × (workers ≤ 16) }
    ensures { IfOk result (λ counted. AreCounted (C.step check.now) seed runs counted.decision counted.tally.seen counted.tally.valid) }
{
    let most = 10 * runs;
    let mut tally = Tally { seen: 0, valid: 0 };
    let mut size = first_size(workers);
    while tally.seen < most {
        let from = tally.seen;
        let block = block_size(size, most - from, runs - tally.valid);
        let records = batch(
            rt,
            alloc,
            check,
            seed,
            u64::from(from),
            u64::from(from + block),
            workers,
        )?;
        if let Some(decision) = count(records.as_slice(), runs, &mut tally)? {
            return Ok(Counted { decision, tally });
        }
        size = next_size(size, workers);
    }
    Ok(Counted {
        decision: Decision::GaveUp,
        tally,
    })
}

// How many runs the first block has.
fn first_size(workers: u32) -> u32
    ensures { (1 ≤ result) × (result ≤ 256) }
{
    if workers == 1 { 1 } else { 2 }
}

// How many runs the block after one of this size has.
fn next_size(size: u32, workers: u32) -> u32
    requires { (1 ≤ size) × (size ≤ 256) }
    ensures { (1 ≤ result) × (result ≤ 256) }
{
    if workers == 1 {
        1
    } else if 2 * size <= LARGEST {
        2 * size
    } else {
        LARGEST
    }
}

// As many runs as the size says, but no more than are left, nor than passes are missing.
fn block_size(size: u32, left: u32, missing: u32) -> u32
    requires { (1 ≤ size) × (1 ≤ left) × (1 ≤ missing) }
    ensures { (1 ≤ result) × (result ≤ size) × (result ≤ left) × (result ≤ missing) }
{
    let most = if left <= missing { left } else { missing };
    if size <= most { size } else { most }
}
