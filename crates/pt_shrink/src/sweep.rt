//! The sweep over all passes. It decides: where it ends, each candidate of the best record was tried, or the budget is used up.

ghost use Rattle.std.specs.Prelude.{◌≡◌, true, List, IfOk};
ghost use Rattle.std.specs.List.{Contains};
ghost use Rattle.pt_case.specs.Ending.{is_failure};
ghost use Rattle.pt_cand.specs.Candidates.{candidates_of, IsCandidate};
ghost use Rattle.pt_shrink.specs.Progress.{GoesOn};
ghost use Rattle.pt_shrink.specs.Sweep.{best_swept, Sweeps};

use crate::Log;
use crate::attempt::{Outcome, attempt};
use pt_cand::{PASSES, Pass, Walk};
use pt_case::{Check, Record};
use pt_choice::NoMemory;
use std::alloc::Global;

/// What a sweep came to.
#[derive(Drop)]
pub(crate) enum Swept {
    /// A list was better, and this is the best record now.
    Improved(Record),
    /// No list is better.
    Done,
    /// The budget was used up before all lists were tried.
    Spent,
}

// Tries the lists of one pass in order, up to the first better one.
fn sweep_pass<C: Check>(
    alloc: Global,
    check: &C,
    best: &Record,
    log: &mut Log,
    budget: usize,
    pass: Pass,
) -> Result<Swept, NoMemory>
    requires { is_failure best.now.ending ≡ true }
    ensures goes_on { IfOk result (λ swept. GoesOn (C.step check.now) budget best.now log.old (best_swept swept best.now) log.new) }
    ensures sweeps { IfOk result (λ swept. Sweeps budget (Contains (candidates_of pass best.now)) swept log.old log.new) }
{
    let mut walk = Walk::of(best, pass);
    while let Some(list) = walk.next_list(alloc)? {
        match attempt(alloc, check, best, log, budget, list, false)? {
            Outcome::Accepted(gain) => return Ok(Swept::Improved(gain.rec)),
            Outcome::Vain => {}
            Outcome::Full => return Ok(Swept::Spent),
        }
    }
    Ok(Swept::Done)
}

/// Tries the candidates of all passes, up to the first better one.
pub(crate) fn sweep<C: Check>(
    alloc: Global,
    check: &C,
    best: &Record,
    log: &mut Log,
    budget: usize,
) -> Result<Swept, NoMemory>
    requires { is_failure best.now.ending ≡ true }
    ensures goes_on { IfOk result (λ swept. GoesOn (C.step check.now) budget best.now log.old (best_swept swept best.now) log.new) }
    ensures sweeps { IfOk result (λ swept. Sweeps budget (IsCandidate best.now) swept log.old log.new) }
{
    for pass in &PASSES {
        match sweep_pass(alloc, check, best, log, budget, *pass)? {
            Swept::Done => {}
            ended => return Ok(ended),
        }
    }
    Ok(Swept::Done)
}
