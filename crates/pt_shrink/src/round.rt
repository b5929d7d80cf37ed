//! Rounds over all proposers, in blocks.

ghost use Rattle.std.specs.Prelude.{◌≡◌, ◌<◌, ◌≤◌, ◌⊎◌, true, IfOk, length};
ghost use Rattle.pt_case.specs.Ending.{is_failure};
ghost use Rattle.pt_shrink.specs.Progress.{GoesOn};
ghost use Rattle.pt_shrink.specs.Outcome.{best_with, Lengthens};

use crate::Log;
use crate::attempt::{Gain, heed};
use crate::block::{gather, try_block};
use crate::leap::leap;
use crate::proposer::{Proposer, ROUND};
use crate::run_on::run_on;
use pt_case::{Check, Record};
use pt_choice::NoMemory;
use std::alloc::Global;
use std::thread::Threads;

/// The best record after some lists were tried, and whether one was better.
#[derive(Drop)]
pub(crate) struct Settled {
    pub(crate) best: Record,
    pub(crate) improved: bool,
}

// How many lists are tried side by side. With one worker none is tried in vain.
fn block_size(workers: u32) -> usize
    requires { (1 ≤ workers) × (workers ≤ 16) }
    ensures { result ≤ 1024 }
{
    if workers == 1 {
        1
    } else {
        4 * workers as usize
    }
}

// Goes over the slots from this one on, up to the first whose list is better, and sets the slot's number.
fn go_over<R: Threads + Sync, C: Check>(
    rt: &R,
    alloc: Global,
    check: &C,
    best: &Record,
    log: &mut Log,
    budget: usize,
    workers: u32,
    proposer: Proposer,
    slot: &mut u32,
) -> Result<Option<Gain>, NoMemory>
    requires fails { is_failure best.now.ending ≡ true }
    requires workers { (1 ≤ workers) × (workers ≤ 16) }
    ensures goes_on { IfOk result (λ found. GoesOn (C.step check.now) budget best.now log.old (best_with found best.now) log.new) }
    ensures longer { IfOk result (λ found. Lengthens found log.old log.new) }
{
    let mut slots = proposer.slots(alloc, best, *slot)?;
    let mut number = *slot;
    loop {
        let size = block_size(workers);
        let filter = proposer.filter();
        let block = gather(
            alloc,
            best,
            log,
            &mut slots,
            filter,
            &mut number,
            size,
            budget,
        )?;
        if block.lists.len() == 0 {
            return Ok(None);
        }
        if let Some(hit) = try_block(rt, alloc, check, best, log, budget, &block, workers)? {
            *slot = block.slot_of(hit.at);
            return Ok(Some(heed(alloc, check, best, hit.rec, log, budget)?));
        }
    }
}

// Goes over a proposer's slots, and on from the same slot of the new best record after each list that was better.
fn settle<R: Threads + Sync, C: Check>(
    rt: &R,
    alloc: Global,
    check: &C,
    first_best: Record,
    log: &mut Log,
    budget: usize,
    workers: u32,
    proposer: Proposer,
) -> Result<Settled, NoMemory>
    requires fails { is_failure first_best.ending ≡ true }
    requires workers { (1 ≤ workers) × (workers ≤ 16) }
    ensures goes_on { IfOk result (λ settled. GoesOn (C.step check.now) budget first_best log.old settled.best log.new) }
    ensures longer { IfOk result (λ settled. settled.improved ≡ true → length log.old.trail < length log.new.trail) }
{
    let mut best = first_best;
    let mut improved = false;
    let mut slot = 0;
    while let Some(gain) = go_over(
        rt, alloc, check, &best, log, budget, workers, proposer, &mut slot,
    )? {
        best = follow(alloc, check, &best, slot, gain, log, budget, proposer)?;
        improved = true;
    }
    Ok(Settled { best, improved })
}

// What is tried at once after a list that was better.
fn follow<C: Check>(
    alloc: Global,
    check: &C,
    old: &Record,
    slot: u32,
    gain: Gain,
    log: &mut Log,
    budget: usize,
    proposer: Proposer,
) -> Result<Record, NoMemory>
    requires { is_failure gain.rec.ending ≡ true }
    ensures { IfOk result (λ rec. GoesOn (C.step check.now) budget gain.rec log.old rec log.new) }
{
    if proposer.deletes() {
        run_on(alloc, check, old, slot, gain, log, budget)
    } else {
        leap(alloc, check, old, gain, log, budget)
    }
}

// Goes over all proposers once.
fn round<R: Threads + Sync, C: Check>(
    rt: &R,
    alloc: Global,
    check: &C,
    first_best: Record,
    log: &mut Log,
    budget: usize,
    workers: u32,
) -> Result<Settled, NoMemory>
    requires fails { is_failure first_best.ending ≡ true }
    requires workers { (1 ≤ workers) × (workers ≤ 16) }
    ensures goes_on { IfOk result (λ settled. GoesOn (C.step check.now) budget first_best log.old settled.best log.new) }
    ensures longer { IfOk result (λ settled. settled.improved ≡ true → length log.old.trail < length log.new.trail) }
{
    let mut best = first_best;
    let mut improved = false;
    for proposer in &ROUND {
        let settled = settle(rt, alloc, check, best, log, budget, workers, *proposer)?;
        best = settled.best;
        improved = either(improved, settled.improved);
    }
    Ok(Settled { best, improved })
}

fn either(one: bool, other: bool) -> bool
    ensures { result ≡ true → (one ≡ true) ⊎ (other ≡ true) }
{
    one || other
}

/// Rounds, until one finds nothing better.
pub(crate) fn rounds<R: Threads + Sync, C: Check>(
    rt: &R,
    alloc: Global,
    check: &C,
    first_best: Record,
    log: &mut Log,
    budget: usize,
    workers: u32,
) -> Result<Record, NoMemory>
    requires fails { is_failure first_best.ending ≡ true }
    requires workers { (1 ≤ workers) × (workers ≤ 16) }
    ensures { IfOk result (λ rec. GoesOn (C.step check.now) budget first_best log.old rec log.new) }
{
    let mut best = first_best;
    loop {
        let settled = round(rt, alloc, check, best, log, budget, workers)?;
        best = settled.best;
        if !settled.improved {
            return Ok(best);
        }
    }
}
