ghost use Rattle.std.specs.Prelude.{◌≡◌, true, IfOk};
ghost use Rattle.std.specs.List.{list_any};
ghost use Rattle.pt_case.specs.Ending.{is_failure};
ghost use Rattle.pt_case.specs.Run.{IsRecord};
ghost use Rattle.pt_explain.specs.Mark.{AreMarks};
ghost use Rattle.pt_explain.specs.Together.{AreTogether, IsTogether, is_free};

use crate::effect::is_alike;
use crate::place::mark_place;
use crate::{Mark, Marks};
use pt_case::{Check, Record, replay};
use pt_choice::{Choices, NoMemory};
use std::alloc::Global;

/// What matters of a failure.
#[derive(Debug, Drop)]
pub struct Explained {
    /// One mark for each choice.
    pub marks: Marks,
    /// Whether the failure stays alike where all free choices are replaced at once. None where none is free.
    pub together: Option<bool>,
}

/// Marks each choice of a failing record by what the others in its place come to: at most ten replays for each, and one
/// more. A choice that is free alone need not be free together with another.
pub fn explain<C: Check>(alloc: Global, check: &C, rec: &Record) -> Result<Explained, NoMemory>
    requires own { IsRecord (C.step check.now) rec.now.choices rec.now }
    requires fails { is_failure rec.now.ending ≡ true }
    ensures marks { IfOk result (λ explained. AreMarks (C.step check.now) rec.now explained.marks) }
    ensures together { IfOk result (λ explained. AreTogether (C.step check.now) rec.now explained.marks explained.together) }
{
    let mut marks = Marks::empty(alloc);
    let mut list = Choices::empty(alloc);
    for place in 0..rec.choices.len() {
        let marked = mark_place(alloc, check, rec, place)?;
        marks.push(marked.mark)?;
        list.push(marked.choice)?;
    }
    let together = try_together(alloc, check, rec, &marks, &list)?;
    Ok(Explained { marks, together })
}

// Replays the choices with all free ones replaced, if any is free.
fn try_together<C: Check>(
    alloc: Global,
    check: &C,
    best: &Record,
    marks: &Marks,
    list: &Choices,
) -> Result<Option<bool>, NoMemory>
    requires { IsTogether (C.step check.now) best.now marks.now list.now }
    ensures { IfOk result (λ together. AreTogether (C.step check.now) best.now marks.now together) }
{
    if !is_any_free(marks.as_slice()) {
        return Ok(None);
    }
    let rec = replay(alloc, check, list)?;
    Ok(Some(is_alike(&rec, best)))
}

fn is_any_free(marks: &[Mark]) -> bool
    ensures { result ≡ list_any is_free marks.now }
{
    marks.iter().any(|mark| mark.is_free())
}
