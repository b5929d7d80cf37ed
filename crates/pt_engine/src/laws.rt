//! What follows from the definitions for every check. These functions do nothing: their contracts are the laws.

ghost use Rattle.std.specs.Prelude.{◌≡◌, ℕ, List};
ghost use Rattle.pt_choice.specs.declared.choice.Choice.{Choice};
ghost use Rattle.pt_engine.specs.declared.outcome.Outcome.{Outcome};
ghost use Rattle.pt_found.specs.declared.finding.Finding.{Finding};
ghost use Rattle.pt_engine.specs.Outcome.{IsOutcome};
ghost use Rattle.pt_engine.specs.Finding.{IsFinding};
ghost use Rattle.pt_engine.specs.Agree.{Agree};

use pt_case::Check;

/// A check has one outcome over the same stored lists, seed and number of runs.
pub fn an_outcome_is_one<C: Check>(check: &C)
    ensures { (seed runs : ℕ) (stored : List (List Choice)) (one other : Outcome) → IsOutcome (C.step check.now) seed runs stored one →
        IsOutcome (C.step check.now) seed runs stored other → one ≡ other }
{}

/// Two findings of one check differ in the reduction alone, whatever numbers of workers found them; of a failure both reductions begin from one record.
pub fn findings_agree<C: Check>(check: &C)
    ensures { (name : List ℕ) (seed runs budget : ℕ) (stored : List (List Choice)) (one other : Finding) →
        IsFinding (C.step check.now) name seed runs budget stored one → IsFinding (C.step check.now) name seed runs budget stored other →
        Agree (C.step check.now) one other }
{}
