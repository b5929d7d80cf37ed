ghost use Rattle.std.specs.Prelude.{ℕ, List};
ghost use Rattle.std.specs.List.{Contains};
ghost use Rattle.pt_choice.specs.declared.choice.Choice.{Choice};
ghost use Rattle.pt_case.specs.declared.record.Record.{Record};
ghost use Rattle.pt_cand.specs.Candidates.{IsCandidate};
ghost use Rattle.pt_cand.specs.Minimal.{IsMinimal};
ghost use Rattle.pt_found.specs.Trail.{IsLegal, lists_of};
ghost use Rattle.pt_found.specs.Tried.{Tried};

use pt_case::Check;

/// A legal trail that holds every candidate of its best leaves it minimal, for what is no better than a failure stays no better
/// than what it is reduced to. This function does nothing: its contract is that law.
pub fn tried_all_is_minimal<C: Check>(check: &C)
    ensures { (budget : ℕ) (first best : Record) (trail : List Tried) →
        IsLegal (C.step check.now) budget first trail best →
        ((list : List Choice) → IsCandidate best list → Contains (lists_of trail) list) →
        IsMinimal (C.step check.now) best }
{}
