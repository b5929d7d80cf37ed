ghost use Rattle.std.specs.Prelude.{◌≡◌, ◌↔◌, ◌≤◌, true, false, IfOk};
ghost use Rattle.pt_case.specs.Ending.{is_failure};
ghost use Rattle.pt_case.specs.Run.{IsRecord};
ghost use Rattle.pt_cand.specs.Minimal.{IsMinimal};
ghost use Rattle.pt_found.specs.Trail.{IsLegal, IsSpent};
ghost use Rattle.pt_found.specs.Leap.{Leaps};

use crate::Log;
use crate::round::rounds;
use crate::sweep::{Swept, sweep};
use pt_case::{Check, Record};
use pt_choice::NoMemory;
use pt_found::{Shrunk, Trail};
use std::alloc::Global;
use std::thread::Threads;

/// Makes a failure simpler until no pass makes it any simpler, or as many lists were tried as the budget says.
///
/// The trail has every list that was tried, and judges the answer by itself: it is legal, it leads from the first failure to the best
/// record, and it leaps. In which order lists are tried is left open, and several workers may end at another best record than one.
///
/// # Errors
///
/// `NoMemory` where memory ran out, and for no other reason.
pub fn shrink<R: Threads + Sync, C: Check>(
    rt: &R,
    alloc: Global,
    check: &C,
    first: Record,
    budget: u32,
    workers: u32,
) -> Result<Shrunk, NoMemory>
    requires own { IsRecord (C.step check.now) first.choices first }
    requires fails { is_failure first.ending ≡ true }
    requires budget { budget ≤ 1000 }
    requires workers { (1 ≤ workers) × (workers ≤ 16) }
    ensures legal { IfOk result (λ shrunk. IsLegal (C.step check.now) budget first shrunk.trail shrunk.best) }
    ensures spent { IfOk result (λ shrunk. shrunk.spent ≡ true ↔ IsSpent budget shrunk.trail shrunk.best) }
    ensures minimal { IfOk result (λ shrunk. shrunk.spent ≡ false → IsMinimal (C.step check.now) shrunk.best) }
    ensures leaps { IfOk result (λ shrunk. Leaps (C.step check.now) budget first shrunk.trail) }
{
    let budget = budget as usize;
    let mut log = Log {
        trail: Trail::empty(alloc),
        allowed: 0,
    };
    let mut best = first;
    loop {
        best = rounds(rt, alloc, check, best, &mut log, budget, workers)?;
        match sweep(alloc, check, &best, &mut log, budget)? {
            Swept::Improved(rec) => best = rec,
            Swept::Done => {
                return Ok(Shrunk {
                    best,
                    trail: log.trail,
                    spent: false,
                });
            }
            Swept::Spent => {
                return Ok(Shrunk {
                    best,
                    trail: log.trail,
                    spent: true,
                });
            }
        }
    }
}
