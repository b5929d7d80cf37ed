//! What follows from the definitions for every plan. These functions do nothing: their contracts are the laws.

ghost use Rattle.std.specs.Prelude.{◌≡◌, ◌<◌, ℕ, true, is_some, Result, List, ◌∷◌, ◌++◌, length};
ghost use Rattle.pt_choice.specs.Kind.{admits};
ghost use Rattle.pt_choice.specs.declared.choice.Choice.{Choice};
ghost use Rattle.pt_choice.specs.declared.kind.Shape.{Shape};
ghost use Rattle.pt_case.specs.declared.ending.Ending.{Ending};
ghost use Rattle.pt_case.specs.declared.note.Note.{Note};
ghost use Rattle.pt_case.specs.declared.span.Span.{Span};
ghost use Rattle.pt_case.specs.Step.{Answer, Says};
ghost use Rattle.pt_case.specs.State.{State, IsNew};
ghost use Rattle.pt_plan.specs.Plan.{Plan};
ghost use Rattle.pt_plan.specs.Halt.{Halt};
ghost use Rattle.pt_plan.specs.Came.{Came};
ghost use Rattle.pt_plan.specs.Mark.{Mark, IsLast, spans_of, StandsAfter, WantsAfter, CutsAfter};
ghost use Rattle.pt_plan.specs.Stands.{Stands};
ghost use Rattle.pt_plan.specs.Kept.{KeepsMade, KeepsSpans, ReturnsSpans, is_refusal};
ghost use Rattle.pt_plan.specs.Every.{IsBalanced, NotesNothing};
ghost use Rattle.pt_plan.specs.Open.{open_spans};
ghost use Rattle.pt_plan.specs.Says.{plan_says};

/// A check that goes by a plan has at most one answer after a list of choices.
pub fn a_list_has_one_answer()
    ensures { (plan : Plan Ending) (choices : List Choice) (answer : Answer) →
        plan_says plan choices answer → Says (plan_says plan) choices answer }
{}

/// At most one of derived, rejected, faulted and wanted stands after a list, with one value, kind or origin, one list
/// of spans and one of notes.
pub fn a_list_derives_once<A>()
    ensures { (plan : Plan A) (choices : List Choice) (one other : Mark A) →
        StandsAfter plan choices one → StandsAfter plan choices other → one ≡ other }
{}

/// No list that derives, is rejected or leads to a fault begins another after which anything stands or is cut.
pub fn no_end_begins_another<A>()
    ensures stands { (plan : Plan A) (choices : List Choice) (next : Choice) (rest : List Choice) (last later : Mark A) →
        StandsAfter plan choices last → IsLast last → ¬ StandsAfter plan (choices ++ next ∷ rest) later }
    ensures cut { (plan : Plan A) (choices : List Choice) (next : Choice) (rest : List Choice) (last : Mark A) →
        StandsAfter plan choices last → IsLast last → (count : ℕ) (spans : List Span) (notes : List Note) →
        ¬ CutsAfter plan count (choices ++ next ∷ rest) spans notes }
{}

/// Each choice of a list after which anything stands was wanted after those before it, by a kind that admits it.
pub fn each_choice_was_wanted<A>()
    ensures { (plan : Plan A) (choices : List Choice) (choice : Choice) (rest : List Choice) (mark : Mark A) →
        StandsAfter plan (choices ++ choice ∷ rest) mark →
        (kind : Shape) × (spans : List Span) × (notes : List Note) × WantsAfter plan choices kind spans notes × (admits kind choice ≡ true) }
{}

/// For one list and one number of spans a plan is cut with one result, of just so many spans. Where anything stands
/// after a list, the plan is cut on that list, or on one that begins it, at every number of spans below those that stand
/// there, and at no other.
pub fn cuts_come_before<A>()
    ensures one { (plan : Plan A) (count : ℕ) (choices : List Choice) (spans others : List Span) (notes noted : List Note) →
        CutsAfter plan count choices spans notes → CutsAfter plan count choices others noted → (spans ≡ others) × (notes ≡ noted) }
    ensures count { (plan : Plan A) (count : ℕ) (choices : List Choice) (spans : List Span) (notes : List Note) →
        CutsAfter plan count choices spans notes → length spans ≡ count }
    ensures fewer { (plan : Plan A) (count : ℕ) (choices rest : List Choice) (spans : List Span) (notes : List Note) (mark : Mark A) →
        CutsAfter plan count choices spans notes → StandsAfter plan (choices ++ rest) mark → count < length (spans_of mark) }
    ensures met { (plan : Plan A) (count : ℕ) (list : List Choice) (mark : Mark A) →
        StandsAfter plan list mark → count < length (spans_of mark) →
        (choices rest : List Choice) × (spans : List Span) × (notes : List Note) × (list ≡ choices ++ rest) × CutsAfter plan count choices spans notes }
{}

/// What a plan came to on a new case stands after the choices that were made: a value is derived by them, and so on.
pub fn what_came_stands<A>()
    ensures { (plan : Plan A) (old new : State) (outcome : Result A Halt) → IsNew old → Came plan old new outcome → Stands plan new outcome }
{}

/// A case that was going is stopped exactly where it refused what came next.
pub fn a_refusal_stops<A>()
    ensures { (plan : Plan A) (old new : State) (outcome : Result A Halt) →
        old.refused ≡ None → Came plan old new outcome → is_some new.refused ≡ is_refusal outcome }
{}

/// Whatever comes of a plan, what was answered, entered and noted before is still there.
pub fn what_was_made_stays<A>()
    ensures { (plan : Plan A) (old new : State) (outcome : Result A Halt) → Came plan old new outcome → KeepsMade old new }
{}

/// Whatever comes of a balanced plan, each span that was there before is as it was. Where it comes to a value, each
/// span of its own was left, so that the same spans are open.
pub fn balanced_plans_leave_their_own<A>()
    ensures kept { (plan : Plan A) (old new : State) (outcome : Result A Halt) → IsBalanced plan → Came plan old new outcome → KeepsSpans old new }
    ensures returned { (plan : Plan A) (old new : State) (value : A) → IsBalanced plan → Came plan old new (Ok value) → ReturnsSpans old new }
    ensures open { (old new : State) → ReturnsSpans old new → open_spans new ≡ open_spans old }
{}

/// A plan that notes nothing leaves the notes as they were.
pub fn silent_plans_leave_the_notes<A>()
    ensures { (plan : Plan A) (old new : State) (outcome : Result A Halt) → NotesNothing plan → Came plan old new outcome → new.notes ≡ old.notes }
{}
