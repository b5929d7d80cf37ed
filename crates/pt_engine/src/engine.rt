ghost use Rattle.std.specs.Prelude.{◌≤◌, IfOk};
ghost use Rattle.pt_engine.specs.Outcome.{IsOutcome};
ghost use Rattle.pt_engine.specs.Finding.{IsFinding, ReplaysItself, Follows, FailsItself};

use crate::outcome::{Decision, Outcome};
use crate::runs::count_runs;
use crate::stored::{Replayed, replay_stored};
use pt_case::{Check, ChoiceLists};
use pt_choice::NoMemory;
use pt_found::{Finding, Found, Trail, Verdict};
use pt_shrink::shrink;
use std::alloc::Global;
use std::thread::Threads;

/// Examines a check: its stored lists first, and where none of them fails its runs. A failure is reduced.
///
/// All but the reduction is the same for every number of workers: the sort of the verdict, where the failure was found, what was counted, and which
/// stored lists fail. Several workers may reduce to another example than one does.
///
/// # Errors
///
/// `NoMemory` where memory ran out, and for no other reason.
pub fn examine<R: Threads + Sync, C: Check>(
    rt: &R,
    alloc: Global,
    check: &C,
    seed: u64,
    stored: &ChoiceLists,
    runs: u32,
    budget: u32,
    workers: u32,
) -> Result<Finding, NoMemory>
    requires some { 1 ≤ runs }
    requires most { runs ≤ 10000 }
    requires budget { budget ≤ 1000 }
    requires workers { (1 ≤ workers) × (workers ≤ 16) }
    ensures finding { IfOk result (λ finding. IsFinding (C.step check.now) (C.name check.now) seed runs budget stored.now finding) }
    ensures replays { IfOk result (λ finding. ReplaysItself (C.step check.now) finding.verdict) }
{
    let name = check.name().copy()?;
    let outcome = decide(rt, alloc, check, seed, stored, runs, workers)?;
    let reduced = reduce(rt, alloc, check, outcome.decision, budget, workers)?;
    Ok(Finding {
        name,
        verdict: reduced.verdict,
        seen: outcome.seen,
        valid: outcome.valid,
        runs,
        budget,
        failing: outcome.failing,
        trail: reduced.trail,
    })
}

// What the stored lists and the runs come to.
fn decide<R: Threads + Sync, C: Check>(
    rt: &R,
    alloc: Global,
    check: &C,
    seed: u64,
    stored: &ChoiceLists,
    runs: u32,
    workers: u32,
) -> Result<Outcome, NoMemory>
    requires some { 1 ≤ runs }
    requires most { runs ≤ 10000 }
    requires workers { (1 ≤ workers) × (workers ≤ 16) }
    ensures { IfOk result (IsOutcome (C.step check.now) seed runs stored.now) }
{
    let Replayed { failing, least } = replay_stored(alloc, check, stored)?;
    match least {
        Some(first) => Ok(Outcome {
            decision: Decision::Failed {
                first,
                found: Found::Stored,
            },
            failing,
            seen: 0,
            valid: 0,
        }),
        None => {
            let counted = count_runs(rt, alloc, check, seed, runs, workers)?;
            Ok(Outcome {
                decision: counted.decision,
                failing,
                seen: counted.tally.seen,
                valid: counted.tally.valid,
            })
        }
    }
}

// A verdict, and the lists that a reduction tried.
#[derive(Drop)]
struct Reduced {
    verdict: Verdict,
    trail: Trail,
}

// Reduces a failure.
fn reduce<R: Threads + Sync, C: Check>(
    rt: &R,
    alloc: Global,
    check: &C,
    decision: Decision,
    budget: u32,
    workers: u32,
) -> Result<Reduced, NoMemory>
    requires itself { FailsItself (C.step check.now) decision }
    requires budget { budget ≤ 1000 }
    requires workers { (1 ≤ workers) × (workers ≤ 16) }
    ensures follows { IfOk result (λ reduced. Follows (C.step check.now) budget decision reduced.verdict reduced.trail) }
    ensures replays { IfOk result (λ reduced. ReplaysItself (C.step check.now) reduced.verdict) }
{
    match decision {
        Decision::Passed => Ok(Reduced {
            verdict: Verdict::Passed,
            trail: Trail::empty(alloc),
        }),
        Decision::GaveUp => Ok(Reduced {
            verdict: Verdict::GaveUp,
            trail: Trail::empty(alloc),
        }),
        Decision::Failed { first, found } => {
            let shrunk = shrink(rt, alloc, check, first, budget, workers)?;
            Ok(Reduced {
                verdict: Verdict::Failed {
                    shown: shrunk.best,
                    found,
                    spent: shrunk.spent,
                },
                trail: shrunk.trail,
            })
        }
    }
}
