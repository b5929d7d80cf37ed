//! Records of lists and of runs, and what a check asks for after them, worked by hand.

use crate::checks::{Always, Crowded, Nested, Never, Noted};
use crate::expect::expect;
use crate::rising::Rising;
use crate::sample::Sample::{self, Flag, Number};
use crate::sample::choices_of;
use crate::small::Small;
use pt_case::{Check, Ending, Note, Origin, Record, Span, asks, fresh, replay};
use pt_choice::{Choices, NoMemory, Shape};
use pt_val::{Name, Val, same};
use std::alloc::Global;
use std::test::Fail;

const FLAG: Shape = Shape::Bool { chance: 8 };

const DIGIT: Shape = Shape::Int { lo: 0, hi: 9 };

/// What a record shows, as plain data. Each note is one of a boolean, under the check's name.
#[derive(Clone, Copy)]
struct Shown {
    choices: &'static [Sample],
    spans: &'static [(u32, u16, u16, Option<u16>)],
    notes: &'static [bool],
    ending: Ending,
}

fn are_spans(spans: &[Span], wanted: &[(u32, u16, u16, Option<u16>)]) -> bool {
    spans.len() == wanted.len()
        && spans.iter().zip(wanted).all(|(one, other)| (one.label, one.from, one.to, one.parent)
            == *other)
}

fn are_notes(notes: &[Note], name: &Name, values: &[bool]) -> bool {
    notes.len() == values.len()
        && notes.iter().zip(values).all(|(note, value)| note.name == *name
            && same(&note.val, &Val::Bool(*value)))
}

// Whether a copy of the record shows this.
fn shows(alloc: Global, rec: &Record, name: &Name, wanted: Shown) -> Result<bool, NoMemory> {
    let rec = rec.copy()?;
    Ok(
        rec.choices == choices_of(alloc, wanted.choices)?
            && are_spans(rec.spans.as_slice(), wanted.spans)
            && are_notes(rec.notes.as_slice(), name, wanted.notes)
            && rec.ending == wanted.ending,
    )
}

// Whether the record of a list shows this, and the check asks for this kind after it.
fn leaves<C: Check>(
    alloc: Global,
    check: &C,
    given: &[Sample],
    wanted: Shown,
    asked: Option<Shape>,
) -> Result<bool, NoMemory> {
    let given = choices_of(alloc, given)?;
    let rec = replay(alloc, check, &given)?;
    let kind = asks(alloc, check, &given)?;
    Ok(shows(alloc, &rec, check.name(), wanted)? && kind.map(|kind| kind.shape()) == asked)
}

/// What the check `Nested` is given, what that leaves, and what it asks for after it.
const NESTED: [(&[Sample], Shown, Option<Shape>); 5] = [
    (
        &[Flag(true), Number(4), Flag(false)],
        Shown {
            choices: &[Flag(true), Number(4), Flag(false)],
            spans: &[(1, 0, 3, None), (2, 1, 3, Some(0)), (3, 2, 3, Some(1))],
            notes: &[],
            ending: Ending::Pass,
        },
        None,
    ),
    (
        &[Number(7), Number(12), Flag(true), Flag(true)],
        Shown {
            choices: &[Flag(false), Number(0), Flag(true)],
            spans: &[(1, 0, 3, None), (2, 1, 3, Some(0)), (3, 2, 3, Some(1))],
            notes: &[],
            ending: Ending::Pass,
        },
        None,
    ),
    (
        &[],
        Shown {
            choices: &[],
            spans: &[(1, 0, 0, None)],
            notes: &[],
            ending: Ending::Overrun,
        },
        Some(FLAG),
    ),
    (
        &[Flag(true)],
        Shown {
            choices: &[Flag(true)],
            spans: &[(1, 0, 1, None), (2, 1, 1, Some(0))],
            notes: &[],
            ending: Ending::Overrun,
        },
        Some(DIGIT),
    ),
    (
        &[Number(7), Number(12)],
        Shown {
            choices: &[Flag(false), Number(0)],
            spans: &[(1, 0, 2, None), (2, 1, 2, Some(0)), (3, 2, 2, Some(1))],
            notes: &[],
            ending: Ending::Overrun,
        },
        Some(FLAG),
    ),
];

#[test]
fn a_list_is_made_to_fit_and_overruns_where_it_is_too_short(rt: HostRuntime) -> Result<(), Fail> {
    let name = Name::of(rt.alloc(), "nested")?;
    let check = Nested { name };
    for (row, (given, shown, asked)) in NESTED.iter().enumerate() {
        expect(&rt, row, leaves(rt.alloc(), &check, given, *shown, *asked));
    }
    Ok(())
}

/// The same of the check `Never`.
const NEVER: [(&[Sample], Shown, Option<Shape>); 2] = [
    (
        &[],
        Shown {
            choices: &[],
            spans: &[],
            notes: &[],
            ending: Ending::Overrun,
        },
        Some(FLAG),
    ),
    (
        &[Flag(true)],
        Shown {
            choices: &[Flag(true)],
            spans: &[],
            notes: &[],
            ending: Ending::Pass,
        },
        None,
    ),
];

#[test]
fn a_check_asks_and_passes(rt: HostRuntime) -> Result<(), Fail> {
    let name = Name::of(rt.alloc(), "never")?;
    let check = Never { name };
    for (row, (given, shown, asked)) in NEVER.iter().enumerate() {
        expect(&rt, row, leaves(rt.alloc(), &check, given, *shown, *asked));
    }
    Ok(())
}

/// The same of the check `Noted`, which notes a boolean before its question and one after it.
const NOTED: [(&[Sample], Shown, Option<Shape>); 2] = [
    (
        &[],
        Shown {
            choices: &[],
            spans: &[],
            notes: &[true],
            ending: Ending::Overrun,
        },
        Some(FLAG),
    ),
    (
        &[Flag(true)],
        Shown {
            choices: &[Flag(true)],
            spans: &[],
            notes: &[true, false],
            ending: Ending::Pass,
        },
        None,
    ),
];

#[test]
fn the_notes_so_far_are_in_the_record(rt: HostRuntime) -> Result<(), Fail> {
    let name = Name::of(rt.alloc(), "noted")?;
    let check = Noted { name };
    for (row, (given, shown, asked)) in NOTED.iter().enumerate() {
        expect(&rt, row, leaves(rt.alloc(), &check, given, *shown, *asked));
    }
    Ok(())
}

const FAILED: Shown = Shown {
    choices: &[],
    spans: &[],
    notes: &[],
    ending: Ending::Fail(Origin::Point(1)),
};

fn run_shows<C: Check>(alloc: Global, check: &C, wanted: Shown) -> Result<bool, NoMemory> {
    let rec = fresh(alloc, check, 1, 0)?;
    Ok(
        rec.ending.is_failure()
            && !rec.ending.is_pass()
            && shows(alloc, &rec, check.name(), wanted)?,
    )
}

#[test]
fn a_boxed_check_fails(rt: HostRuntime) -> Result<(), Fail> {
    let name = Name::of(rt.alloc(), "always")?;
    let check: Box<dyn Check> = Box::new(rt.alloc(), Always { name })?;
    expect(
        &rt,
        0,
        leaves(rt.alloc(), &check, &[Number(1)], FAILED, None),
    );
    expect(&rt, 1, run_shows(rt.alloc(), &check, FAILED));
    Ok(())
}

fn is_first(span: &Span) -> bool {
    (span.label, span.from, span.to, span.parent) == (1, 0, 0, None)
}

fn is_cut(alloc: Global, check: &Crowded) -> Result<bool, NoMemory> {
    let given = choices_of(alloc, &[Flag(true)])?;
    let rec = replay(alloc, check, &given)?;
    Ok(
        rec.choices.len() == 0
            && rec.ending == Ending::Overrun
            && rec.spans.len() == 1024
            && rec.spans.as_slice().iter().all(is_first),
    )
}

fn asks_nothing(alloc: Global, check: &Crowded) -> Result<bool, NoMemory> {
    Ok(asks(alloc, check, &Choices::empty(alloc))?.is_none())
}

#[test]
fn a_check_that_enters_a_span_too_many_is_cut(rt: HostRuntime) -> Result<(), Fail> {
    let name = Name::of(rt.alloc(), "crowded")?;
    let check = Crowded { name };
    expect(&rt, 0, is_cut(rt.alloc(), &check));
    expect(&rt, 1, asks_nothing(rt.alloc(), &check));
    Ok(())
}

/// The same of the check `Small`.
const SMALL: [(&[Sample], Shown, Option<Shape>); 4] = [
    (
        &[],
        Shown {
            choices: &[],
            spans: &[],
            notes: &[],
            ending: Ending::Overrun,
        },
        Some(DIGIT),
    ),
    (
        &[Number(4)],
        Shown {
            choices: &[Number(4)],
            spans: &[],
            notes: &[],
            ending: Ending::Pass,
        },
        None,
    ),
    (
        &[Number(5)],
        Shown {
            choices: &[Number(5)],
            spans: &[],
            notes: &[],
            ending: Ending::Fail(Origin::Point(1)),
        },
        None,
    ),
    (
        &[Number(100)],
        Shown {
            choices: &[Number(0)],
            spans: &[],
            notes: &[],
            ending: Ending::Pass,
        },
        None,
    ),
];

#[test]
fn a_small_number_passes(rt: HostRuntime) -> Result<(), Fail> {
    let name = Name::of(rt.alloc(), "small")?;
    let check = Small { name };
    for (row, (given, shown, asked)) in SMALL.iter().enumerate() {
        expect(&rt, row, leaves(rt.alloc(), &check, given, *shown, *asked));
    }
    Ok(())
}

/// The spans of two digits, which were both drawn.
const BOTH: [(u32, u16, u16, Option<u16>); 3] = [
    (1, 0, 2, None),
    (2, 0, 1, Some(0)),
    (2, 1, 2, Some(0)),
];

/// The same of the check `Rising`, which draws in nested spans: the list ends in the middle of its draws, and then it
/// passes, rejects and fails.
const RISING: [(&[Sample], Shown, Option<Shape>); 4] = [
    (
        &[Number(3)],
        Shown {
            choices: &[Number(3)],
            spans: &[(1, 0, 1, None), (2, 0, 1, Some(0)), (2, 1, 1, Some(0))],
            notes: &[],
            ending: Ending::Overrun,
        },
        Some(DIGIT),
    ),
    (
        &[Number(3), Number(8)],
        Shown {
            choices: &[Number(3), Number(8)],
            spans: &BOTH,
            notes: &[true],
            ending: Ending::Pass,
        },
        None,
    ),
    (
        &[Number(7), Number(3)],
        Shown {
            choices: &[Number(7), Number(3)],
            spans: &BOTH,
            notes: &[false],
            ending: Ending::Reject,
        },
        None,
    ),
    (
        &[Number(3), Number(9)],
        Shown {
            choices: &[Number(3), Number(9)],
            spans: &BOTH,
            notes: &[true],
            ending: Ending::Fail(Origin::Point(2)),
        },
        None,
    ),
];

#[test]
fn draws_in_spans_end_in_each_way(rt: HostRuntime) -> Result<(), Fail> {
    let name = Name::of(rt.alloc(), "rising")?;
    let check = Rising { name };
    for (row, (given, shown, asked)) in RISING.iter().enumerate() {
        expect(&rt, row, leaves(rt.alloc(), &check, given, *shown, *asked));
    }
    Ok(())
}
