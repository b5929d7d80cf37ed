//! What stands after choices of some plans, and which plans are balanced. The functions do nothing: their contracts are
//! the cases, which the prover works out.

ghost use Rattle.std.specs.Prelude.{ℤ, pos, true, Some, None, List, [], ◌∷◌};
ghost use Rattle.pt_choice.specs.declared.choice.Choice.TheVariants as choice;
ghost use Rattle.pt_choice.specs.declared.kind.Shape.TheVariants as kind;
ghost use Rattle.pt_case.specs.declared.note.Note.{Note};
ghost use Rattle.pt_case.specs.declared.span.Span.{Span};
ghost use Rattle.pt_plan.specs.Asked.{asked_integer};
ghost use Rattle.pt_plan.specs.Plan.{within};
ghost use Rattle.pt_plan.specs.Mark.{Derives, WantsAfter, RejectsAfter, CutsAfter};
ghost use Rattle.pt_plan.specs.Every.{IsBalanced, NotesNothing};
ghost use Rattle.tests_base.specs.Plans.{two_spans, swapped_span, kept_span, noting_plan};
ghost use Rattle.tests_base.specs.Spans.{span};

/// An integer from 0 to 4 is derived by 3, with one span round it, and not by 100, nor by a flag or by two choices.
fn only_what_is_admitted_derives()
    ensures wanted { WantsAfter (within 7 (asked_integer (pos 0) (pos 4))) [] (kind.Int (pos 0) (pos 4)) (span 7 0 0 None ∷ []) [] }
    ensures three { Derives (within 7 (asked_integer (pos 0) (pos 4))) (choice.Int (pos 3) ∷ []) (pos 3) (span 7 0 1 None ∷ []) [] }
    ensures hundred { (value : ℤ) (spans : List Span) (notes : List Note) →
        ¬ Derives (asked_integer (pos 0) (pos 4)) (choice.Int (pos 100) ∷ []) value spans notes }
    ensures flag { (value : ℤ) (spans : List Span) (notes : List Note) →
        ¬ Derives (asked_integer (pos 0) (pos 4)) (choice.Bool true ∷ []) value spans notes }
    ensures two { (value : ℤ) (spans : List Span) (notes : List Note) →
        ¬ Derives (asked_integer (pos 0) (pos 4)) (choice.Int (pos 3) ∷ choice.Int (pos 3) ∷ []) value spans notes }
{}

/// A plan that wants two spans is cut at none and at one, and at no third.
fn spans_are_cut_one_by_one()
    ensures none { CutsAfter two_spans 0 [] [] [] }
    ensures one { CutsAfter two_spans 1 [] (span 1 0 0 None ∷ []) [] }
    ensures two { (spans : List Span) (notes : List Note) → ¬ CutsAfter two_spans 2 [] spans notes }
    ensures rejected { RejectsAfter two_spans [] (span 1 0 0 None ∷ span 2 0 0 (Some 0) ∷ []) [] }
{}

/// A plan that leaves its caller's span and enters one of its own is not balanced, though as many are open afterwards;
/// nor is one that keeps its own open. Where it ends without a value it may.
fn a_plan_leaves_only_its_own()
    ensures own { IsBalanced (within 1 (asked_integer (pos 0) (pos 4))) }
    ensures swapped { ¬ IsBalanced swapped_span }
    ensures kept { ¬ IsBalanced kept_span }
    ensures ended { IsBalanced two_spans }
{}

/// A plan with a note does not note nothing, wherever the note stands.
fn a_note_is_seen()
    ensures behind { (note : Note) → ¬ NotesNothing (noting_plan note) }
    ensures none { NotesNothing (within 1 (asked_integer (pos 0) (pos 4))) }
{}
