//! Each origin's first failure, made simpler for itself.

ghost use Rattle.std.specs.Prelude.{◌≡◌, ◌≤◌, ℕ, true, Some, IfOk, length, slice_get};
ghost use Rattle.std.specs.List.{All};
ghost use Rattle.pt_case.specs.Ending.{is_failure};
ghost use Rattle.pt_case.specs.Run.{IsRecord};
ghost use Rattle.pt_all.specs.declared.firsts.First.{First};
ghost use Rattle.pt_all.specs.Survey.{share_of, IsReduced, ReplaysItself};
ghost use Rattle.pt_all.specs.Progress.{Reduces};
ghost use Rattle.pt_found.specs.declared.survey.Fault.{Fault};

use crate::firsts::First;
use pt_case::Check;
use pt_choice::NoMemory;
use pt_found::{Fault, Faults};
use pt_shrink::shrink;
use std::alloc::Global;
use std::thread::Threads;

/// Among how many faults the budget is shared.
const SHARES: u32 = 16;

/// Reduces the failures one after another.
pub(crate) fn reduce_all<R: Threads + Sync, C: Check>(
    rt: &R,
    alloc: Global,
    check: &C,
    firsts: Vec<First>,
    budget: u32,
    workers: u32,
) -> Result<Faults, NoMemory>
    requires own { All (λ first. IsRecord (C.step check.now) first.rec.choices first.rec × (is_failure first.rec.ending ≡ true)) firsts.items }
    requires budget { budget ≤ 1000 }
    requires workers { (1 ≤ workers) × (workers ≤ 16) }
    ensures one_each { IfOk result (λ faults. length faults ≡ length firsts.items) }
    ensures each { IfOk result (λ faults. (place : ℕ) (first : First) (fault : Fault) → slice_get firsts.items place ≡ Some first →
        slice_get faults place ≡ Some fault → Reduces (C.step check.now) (share_of budget place) first fault) }
    ensures replays { IfOk result (λ faults. All (λ fault. ReplaysItself (C.step check.now) fault) faults) }
{
    let mut faults = Faults::empty(alloc);
    for first in firsts {
        let share = share(budget, faults.len());
        faults.push(reduce(rt, alloc, check, first, share, workers)?)?;
    }
    Ok(faults)
}

// How many lists the reduction at this place may try.
fn share(budget: u32, place: usize) -> u32
    ensures { result ≡ share_of budget place }
{
    if place < SHARES as usize {
        budget / SHARES
    } else {
        0
    }
}

// Reduces one failure.
fn reduce<R: Threads + Sync, C: Check>(
    rt: &R,
    alloc: Global,
    check: &C,
    first: First,
    budget: u32,
    workers: u32,
) -> Result<Fault, NoMemory>
    requires own { IsRecord (C.step check.now) first.rec.choices first.rec }
    requires fails { is_failure first.rec.ending ≡ true }
    requires budget { budget ≤ 1000 }
    requires workers { (1 ≤ workers) × (workers ≤ 16) }
    ensures reduces { IfOk result (λ fault. Reduces (C.step check.now) budget first fault) }
    ensures replays { IfOk result (λ fault. ReplaysItself (C.step check.now) fault) }
{
    let First { run, times, rec } = first;
    let shrunk = shrink(rt, alloc, check, rec, budget, workers)?;
    Ok(Fault {
        run,
        times,
        shown: shrunk.best,
        trail: shrunk.trail,
        budget,
        spent: shrunk.spent,
    })
}
