//! What follows from the definitions for every check. These functions do nothing: their contracts are the laws.

ghost use Rattle.std.specs.Prelude.{◌≡◌, ◌≢◌, ◌<◌, ℕ, true, Some, List, slice_get};
ghost use Rattle.std.specs.List.{AllPairs, Contains};
ghost use Rattle.pt_rng.specs.Supplied.{supply_of_run};
ghost use Rattle.pt_case.specs.Ending.{is_failure};
ghost use Rattle.pt_case.specs.Run.{IsRun};
ghost use Rattle.pt_case.specs.declared.record.Record.{Record};
ghost use Rattle.pt_found.specs.declared.survey.Fault.{Fault};
ghost use Rattle.pt_found.specs.declared.survey.Survey.{Survey};
ghost use Rattle.pt_all.specs.Survey.{IsSurvey};
ghost use Rattle.pt_all.specs.Agree.{Agree};

use pt_case::Check;

/// Two surveys of one check differ in the reductions alone, whatever numbers of workers made them; at each origin both reductions begin
/// at one failure, that of its first run.
pub fn surveys_agree<C: Check>(check: &C)
    ensures { (name : List ℕ) (seed runs budget : ℕ) (one other : Survey) → IsSurvey (C.step check.now) name seed runs budget one →
        IsSurvey (C.step check.now) name seed runs budget other → Agree (C.step check.now) one other }
{}

/// No two faults of a survey show failures of one origin.
pub fn each_origin_is_shown_once<C: Check>(check: &C)
    ensures { (name : List ℕ) (seed runs budget : ℕ) (survey : Survey) → IsSurvey (C.step check.now) name seed runs budget survey →
        AllPairs (λ one other. one.shown.ending ≢ other.shown.ending) survey.faults }
{}

/// Each run of a survey that fails has a fault that shows a failure of its origin: the runs after a failure count too.
pub fn no_failure_is_passed_over<C: Check>(check: &C)
    ensures { (name : List ℕ) (seed runs budget : ℕ) (survey : Survey) (run : ℕ) (rec : Record) →
        IsSurvey (C.step check.now) name seed runs budget survey → run < survey.seen →
        IsRun (C.step check.now) (supply_of_run seed run) rec → is_failure rec.ending ≡ true →
        (fault : Fault) × Contains survey.faults fault × (fault.shown.ending ≡ rec.ending) }
{}
