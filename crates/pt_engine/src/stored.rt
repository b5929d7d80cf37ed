ghost use Rattle.std.specs.Prelude.{◌≡◌, ◌++◌, ◌∷◌, [], true, List, Some, IfOk};
ghost use Rattle.pt_case.specs.Ending.{is_failure};
ghost use Rattle.pt_case.specs.declared.record.Record.{Record};
ghost use Rattle.pt_engine.specs.Outcome.{AreRecords, flags_of};
ghost use Rattle.pt_engine.specs.Progress.{IsLeastOf};

use pt_case::{Check, ChoiceLists, Record, replay};
use pt_choice::{NoMemory, shortlex};
use pt_found::Flags;
use std::alloc::Global;
use std::cmp::Ordering;

/// Which of the stored lists fail, and the least of their failing records.
#[derive(Drop)]
pub(crate) struct Replayed {
    pub(crate) failing: Flags,
    pub(crate) least: Option<Record>,
}

/// Replays the stored lists one after another.
pub(crate) fn replay_stored<C: Check>(
    alloc: Global,
    check: &C,
    stored: &ChoiceLists,
) -> Result<Replayed, NoMemory>
    ensures { IfOk result (λ replayed. (records : List Record) × AreRecords (C.step check.now) stored.now records
        × (replayed.failing ≡ flags_of records) × IsLeastOf records replayed.least) }
{
    let mut failing = Flags::empty(alloc);
    let mut least = None;
    for list in stored.as_slice() {
        let rec = replay(alloc, check, list)?;
        failing.push(rec.ending.is_failure())?;
        least = lower(least, rec);
    }
    Ok(Replayed { failing, least })
}

// The least failing record where this one comes to those before it.
fn lower(least: Option<Record>, rec: Record) -> Option<Record>
    ensures { (records : List Record) → IsLeastOf records least → IsLeastOf (records ++ rec ∷ []) result }
{
    if !rec.ending.is_failure() {
        return least;
    }
    match least {
        None => Some(rec),
        Some(best) => Some(lower_of(best, rec)),
    }
}

// Of two failing records the first one, but where the second has shorter or lower choices.
fn lower_of(best: Record, rec: Record) -> Record
    ensures { (records : List Record) → IsLeastOf records (Some best) → is_failure rec.ending ≡ true →
        IsLeastOf (records ++ rec ∷ []) (Some result) }
{
    if shortlex(rec.choices.as_slice(), best.choices.as_slice()) == Ordering::Less {
        rec
    } else {
        best
    }
}
