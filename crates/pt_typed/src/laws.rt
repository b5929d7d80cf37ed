//! What follows for every strategy. These functions do nothing: their contracts are the laws.

ghost use Rattle.std.specs.Prelude.{List, []};
ghost use Rattle.std.specs.List.{All};
ghost use Rattle.pt_choice.specs.declared.choice.Choice.{Choice};
ghost use Rattle.pt_val.specs.declared.val.Val.{Val};
ghost use Rattle.pt_case.specs.declared.ending.Ending.{Ending};
ghost use Rattle.pt_case.specs.declared.span.Span.{Span};
ghost use Rattle.pt_case.specs.Step.{Answer};
ghost use Rattle.pt_plan.specs.Mark.{Derives};
ghost use Rattle.pt_plan.specs.Says.{plan_says};
ghost use Rattle.pt_typed.specs.Property.{property_plan, notes_of};

use crate::Strategy;

/// What choices derive is a value of the strategy.
pub fn a_derived_value_is_in_the_set<S: Strategy>()
    ensures { (strategy : S) (choices : List Choice) (value : Val) (spans : List Span) →
        Derives (S.plan strategy) choices value spans [] → S.values strategy value }
{}

/// Each value that a property shows is one of its strategy.
pub fn a_property_shows_what_was_drawn<S: Strategy>()
    ensures { (strategy : S) (verdict : Val → Ending) (choices : List Choice) (answer : Answer) →
        plan_says (property_plan (S.plan strategy) verdict) choices answer → All (λ note. S.values strategy note.val) (notes_of answer) }
{}
