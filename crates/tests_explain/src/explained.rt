//! The marks of failing lists.

use crate::expect::expect;
use pt_case::{Check, a_record_is_its_own, replay};
use pt_choice::{Choice, Choices, NoMemory};
use pt_explain::{Explained, Mark, explain};
use pt_val::{Name, NameStop};
use std::alloc::Global;
use tests_engine::two::{Judge, Two};

#[derive(Clone, Copy, Debug)]
enum Want {
    Free(u32),
    Bound(i128),
}

struct Row {
    judge: Judge,
    list: [i128; 2],
    marks: [Want; 2],
    together: Option<bool>,
}

/// Both numbers are from 0 to 100, and another one is made 0.
const ROWS: [Row; 5] = [
    // Each is bound by the first that is tried.
    Row {
        judge: Judge::Equal,
        list: [10, 10],
        marks: [Want::Bound(0), Want::Bound(0)],
        together: None,
    },
    // The second is bound by the fifth.
    Row {
        judge: Judge::Different,
        list: [10, 50],
        marks: [Want::Free(9), Want::Bound(10)],
        together: Some(true),
    },
    // Each is free alone, and they are not free together.
    Row {
        judge: Judge::Different,
        list: [37, 55],
        marks: [Want::Free(10), Want::Free(10)],
        together: Some(false),
    },
    // One less than 0 is made 0 again, and does not count.
    Row {
        judge: Judge::Different,
        list: [0, 55],
        marks: [Want::Free(4), Want::Bound(0)],
        together: Some(true),
    },
    Row {
        judge: Judge::Ten,
        list: [10, 0],
        marks: [Want::Bound(0), Want::Bound(1)],
        together: None,
    },
];

#[test]
fn failing_lists_are_explained(rt: HostRuntime) {
    for (number, row) in ROWS.iter().enumerate() {
        expect(&rt, number, is_explained(rt.alloc(), row));
    }
}

fn is_explained(alloc: Global, row: &Row) -> Result<bool, NameStop> {
    let Some(explained) = explained(alloc, row.judge, row.list)? else {
        return Ok(false);
    };
    Ok(explained.together == row.together && are_marks(explained.marks.as_slice(), row.marks))
}

fn explained(alloc: Global, judge: Judge, list: [i128; 2]) -> Result<Option<Explained>, NameStop> {
    let check = Two {
        name: Name::of(alloc, "two")?,
        judge,
    };
    let mut choices = Choices::empty(alloc);
    choices.push(Choice::Int(list[0]))?;
    choices.push(Choice::Int(list[1]))?;
    Ok(explain_list(alloc, &check, &choices)?)
}

fn explain_list<C: Check>(
    alloc: Global,
    check: &C,
    list: &Choices,
) -> Result<Option<Explained>, NoMemory> {
    let rec = replay(alloc, check, list)?;
    if !rec.ending.is_failure() {
        return Ok(None);
    }
    a_record_is_its_own(check);
    Ok(Some(explain(alloc, check, &rec)?))
}

fn are_marks(marks: &[Mark], want: [Want; 2]) -> bool {
    marks.len() == 2 && is_mark(&marks[0], want[0]) && is_mark(&marks[1], want[1])
}

fn is_mark(mark: &Mark, want: Want) -> bool {
    match (mark, want) {
        (Mark::Free { tried }, Want::Free(count)) => *tried == count,
        (Mark::Bound { by }, Want::Bound(value)) => *by == Choice::Int(value),
        _ => false,
    }
}
