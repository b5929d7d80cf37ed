//! What follows from the definitions for every check. These functions do nothing: their contracts are the laws.

ghost use Rattle.std.specs.Prelude.{◌≡◌, ℕ, List};
ghost use Rattle.pt_choice.specs.declared.choice.Choice.{Choice};
ghost use Rattle.pt_case.specs.declared.record.Record.{Record};
ghost use Rattle.pt_rng.specs.Supplied.{supply_of_run};
ghost use Rattle.pt_case.specs.Run.{IsRecord, IsRun};
ghost use Rattle.pt_case.specs.Better.{IsBetter, IsAsGood};

use crate::Check;

/// A list has at most one record.
pub fn a_list_has_one_record<C: Check>(check: &C)
    ensures { (list : List Choice) (one other : Record) →
        IsRecord (C.step check.now) list one → IsRecord (C.step check.now) list other → one ≡ other }
{}

/// The record of a record's choices is that record.
pub fn a_record_is_its_own<C: Check>(check: &C)
    ensures { (list : List Choice) (rec : Record) →
        IsRecord (C.step check.now) list rec → IsRecord (C.step check.now) rec.choices rec }
{}

/// A numbered run has at most one record.
pub fn a_run_has_one_record<C: Check>(check: &C)
    ensures { (seed run : ℕ) (one other : Record) →
        IsRun (C.step check.now) (supply_of_run seed run) one → IsRun (C.step check.now) (supply_of_run seed run) other → one ≡ other }
{}

/// What a numbered run leaves is the record of its own choices, so that replaying them gives exactly it.
pub fn a_run_replays_to_itself<C: Check>(check: &C)
    ensures { (seed run : ℕ) (rec : Record) →
        IsRun (C.step check.now) (supply_of_run seed run) rec → IsRecord (C.step check.now) rec.choices rec }
{}

/// A list that is no better than a failure is no better than a failure alike with the same or shorter choices, so
/// what a reduction tried in vain need not be tried again.
pub fn better_goes_down<C: Check>(check: &C)
    ensures { (list : List Choice) (best lower : Record) → IsAsGood lower best →
        ¬ IsBetter (C.step check.now) list best → ¬ IsBetter (C.step check.now) list lower }
{}
