//! Cases at their limits, and after they have refused something.

ghost use Rattle.std.specs.Prelude.{◌≡◌};
ghost use Rattle.pt_choice.specs.declared.kind.Shape.TheVariants.{Bool};

use crate::expect::expect;
use pt_case::{Case, Ending, Note, Notes, Span, Stop};
use pt_choice::{Choice, Choices, Kind};
use pt_rng::Supply;
use pt_val::{Name, NameStop, Val};
use std::alloc::Global;

fn flag() -> Kind
    ensures { result ≡ Bool 8 }
{
    Kind::of_bool(8).unwrap()
}

fn span(label: u32, from: u16, to: u16, parent: Option<u16>) -> Span {
    Span {
        label,
        from,
        to,
        parent,
    }
}

// A case over one true, in which a span was entered and the one question answered.
fn answered(alloc: Global) -> Result<Case, Stop> {
    let mut list = Choices::empty(alloc);
    list.push(Choice::Bool(true))?;
    let mut case = Case::replay(alloc, &list)?;
    case.enter(1)?;
    case.draw(&flag())?;
    Ok(case)
}

fn gives_no_more(case: &mut Case) -> bool {
    case.draw(&flag()) == Err(Stop::Overrun) && case.enter(1) == Err(Stop::Overrun)
}

fn is_stopped(alloc: Global) -> Result<bool, Stop> {
    let mut case = answered(alloc)?;
    Ok(!case.stopped() && gives_no_more(&mut case) && case.stopped())
}

fn is_kept(alloc: Global) -> Result<bool, Stop> {
    let mut case = answered(alloc)?;
    let stopped = gives_no_more(&mut case);
    let rec = case.finish(Ending::Overrun);
    Ok(
        stopped
            && rec.choices.as_slice() == [Choice::Bool(true)].as_slice()
            && rec.spans.as_slice() == [span(1, 0, 1, None)].as_slice(),
    )
}

#[test]
fn a_stopped_case_gives_no_more(rt: HostRuntime) {
    expect(&rt, 0, is_stopped(rt.alloc()));
    expect(&rt, 1, is_kept(rt.alloc()));
}

fn noted(alloc: Global, case: &mut Case, name: &str) -> Result<(), NameStop> {
    case.note(Name::of(alloc, name)?, Val::Bool(true))?;
    Ok(())
}

fn is_noted(note: &Note, name: &str) -> bool {
    note.name.as_slice() == name.as_bytes() && matches!(note.val, Val::Bool(true))
}

// The notes of a case that overran between the two, and none where it did not overrun.
fn notes(alloc: Global) -> Result<Notes, NameStop> {
    let mut case = Case::replay(alloc, &Choices::empty(alloc))?;
    noted(alloc, &mut case, "before")?;
    if case.draw(&flag()) != Err(Stop::Overrun) {
        return Ok(Notes::empty(alloc));
    }
    noted(alloc, &mut case, "after")?;
    Ok(case.finish(Ending::Pass).notes)
}

fn stay(alloc: Global) -> Result<bool, NameStop> {
    let notes = notes(alloc)?;
    let [before, after] = notes.as_slice() else {
        return Ok(false);
    };
    Ok(is_noted(before, "before") && is_noted(after, "after"))
}

#[test]
fn notes_before_and_after_an_overrun_stay(rt: HostRuntime) {
    expect(&rt, 0, stay(rt.alloc()));
}

fn holds_256_choices(alloc: Global) -> Result<bool, Stop> {
    let mut case = Case::fresh(alloc, Supply::simplest())?;
    for _ in 0..256 {
        case.draw(&flag())?;
    }
    Ok(case.draw(&flag()) == Err(Stop::Overrun))
}

fn holds_1024_spans(alloc: Global) -> Result<bool, Stop> {
    let mut case = Case::fresh(alloc, Supply::simplest())?;
    for label in 0..1024 {
        case.enter(label)?;
    }
    let stopped = case.enter(0) == Err(Stop::Overrun) && gives_no_more(&mut case);
    let rec = case.finish(Ending::Overrun);
    let last = rec.spans.as_slice().last().copied();
    Ok(stopped && rec.spans.len() == 1024 && last == Some(span(1023, 0, 0, Some(1022))))
}

#[test]
fn a_case_has_room_for_256_choices_and_1024_spans(rt: HostRuntime) {
    expect(&rt, 0, holds_256_choices(rt.alloc()));
    expect(&rt, 1, holds_1024_spans(rt.alloc()));
}

fn is_left(alloc: Global) -> Result<bool, Stop> {
    let mut case = Case::fresh(alloc, Supply::of_run(1, 2))?;
    case.enter(7)?;
    case.leave();
    case.enter(8)?;
    let rec = case.finish(Ending::Reject);
    Ok(rec.spans.as_slice() == [span(7, 0, 0, None), span(8, 0, 0, None)].as_slice())
}

#[test]
fn a_span_is_left(rt: HostRuntime) {
    expect(&rt, 0, is_left(rt.alloc()));
}
