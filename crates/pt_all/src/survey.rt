ghost use Rattle.std.specs.Prelude.{◌≤◌, IfOk};
ghost use Rattle.std.specs.List.{All};
ghost use Rattle.pt_all.specs.Survey.{IsSurvey, ReplaysItself};

use crate::reductions::reduce_all;
use crate::window::count_window;
use pt_case::Check;
use pt_choice::NoMemory;
use pt_found::Survey;
use std::alloc::Global;
use std::thread::Threads;

/// Makes the runs of a check until `runs` of them passed or failed, or ten times as many were made, and shows each origin that they
/// failed at once: its first failure, made simpler within its share of the budget.
///
/// All but the reductions is the same for every number of workers: what was counted, which origins are shown, in which run each came
/// first and how often it came. Several workers may reduce to other examples than one does.
///
/// # Errors
///
/// `NoMemory` where memory ran out, and for no other reason.
pub fn survey_check<R: Threads + Sync, C: Check>(
    rt: &R,
    alloc: Global,
    check: &C,
    seed: u64,
    runs: u32,
    budget: u32,
    workers: u32,
) -> Result<Survey, NoMemory>
    requires some { 1 ≤ runs }
    requires most { runs ≤ 10000 }
    requires budget { budget ≤ 1000 }
    requires workers { (1 ≤ workers) × (workers ≤ 16) }
    ensures survey { IfOk result (λ survey. IsSurvey (C.step check.now) (C.name check.now) seed runs budget survey) }
    ensures replays { IfOk result (λ survey. All (λ fault. ReplaysItself (C.step check.now) fault) survey.faults) }
{
    let name = check.name().copy()?;
    let tally = count_window(rt, alloc, check, seed, runs, workers)?;
    let faults = reduce_all(rt, alloc, check, tally.firsts, budget, workers)?;
    Ok(Survey {
        name,
        runs,
        seen: tally.seen,
        valid: tally.valid,
        faults,
    })
}
