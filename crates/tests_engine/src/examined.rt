//! What `examine` finds: outcomes, and the examples that failures are reduced to.

ghost use Rattle.std.specs.Prelude.{◌≤◌};

use crate::always::Always;
use crate::bounded::Bounded;
use crate::expect::expect;
use crate::lists::{Sample, choices_of, numbers, one_list};
use crate::never::Never;
use crate::tail::Tail;
use crate::two::{Judge, Two};
use crate::wide::{a_hundred_stored, wide};
use pt_case::{Check, ChoiceLists};
use pt_choice::NoMemory;
use pt_engine::examine;
use pt_found::{Finding, Found, Trail, Verdict};
use pt_val::{Name, NameStop};
use std::alloc::Global;
use std::test::Fail;
use std::thread::Threads;

// Examines a check over these stored lists, with one worker or with four.
fn examined<R: Threads + Sync, C: Check>(
    rt: &R,
    alloc: Global,
    check: &C,
    stored: &ChoiceLists,
    budget: u32,
    workers: u32,
) -> Result<Finding, NoMemory>
    requires { (budget ≤ 1000) × (1 ≤ workers) × (workers ≤ 16) }
{
    examine(rt, alloc, check, 7, stored, 5, budget, workers)
}

// Whether the finding shows this example of a stored failure, and whether the budget was spent.
fn shows(
    alloc: Global,
    finding: &Finding,
    samples: &[Sample],
    spent: bool,
) -> Result<bool, NoMemory> {
    match &finding.verdict {
        Verdict::Failed {
            shown,
            found,
            spent: was,
        } => Ok(
            *found == Found::Stored
                && *was == spent
                && shown.choices == choices_of(alloc, samples)?,
        ),
        _ => Ok(false),
    }
}

// Whether the same lists were tried in the same order, and the same ones accepted.
fn are_same(one: &Trail, other: &Trail) -> bool {
    for place in 0..one.len() {
        if one.at(place) != other.at(place) {
            return false;
        }
    }
    one.len() == other.len()
}

// Whether the check's stored list is reduced to this example, with one worker and with four, by one trail.
fn is_reduced<R: Threads + Sync, C: Check>(
    rt: &R,
    alloc: Global,
    check: &C,
    stored: &ChoiceLists,
    samples: &[Sample],
) -> Result<bool, NoMemory> {
    let one = examined(rt, alloc, check, stored, 500, 1)?;
    let four = examined(rt, alloc, check, stored, 500, 4)?;
    Ok(
        are_same(&one.trail, &four.trail)
            && shows(alloc, &one, samples, false)?
            && shows(alloc, &four, samples, false)?,
    )
}

/// A check of the tests.
#[derive(Clone, Copy, Debug)]
enum Kind {
    Bounded(i128),
    Two(Judge),
    Tail,
}

// Whether the one stored list is reduced to this example.
fn is_row<R: Threads + Sync>(
    rt: &R,
    alloc: Global,
    kind: Kind,
    stored: &[Sample],
    wanted: &[Sample],
) -> Result<bool, NameStop> {
    let name = Name::of(alloc, "row")?;
    let stored = one_list(alloc, stored)?;
    let is = match kind {
        Kind::Bounded(bound) => is_reduced(rt, alloc, &Bounded { name, bound }, &stored, wanted)?,
        Kind::Two(judge) => is_reduced(rt, alloc, &Two { name, judge }, &stored, wanted)?,
        Kind::Tail => is_reduced(rt, alloc, &Tail { name }, &stored, wanted)?,
    };
    Ok(is)
}

// A check, a stored list, and the one example that every legal reduction of it ends at.
const REDUCED: &[(Kind, &[Sample], &[Sample])] = &[
    // down to the bound
    (
        Kind::Bounded(10),
        &[Sample::Number(573)],
        &[Sample::Number(10)],
    ),
    // in steps that double, where steps of one would spend the budget
    (
        Kind::Bounded(600),
        &[Sample::Number(1000)],
        &[Sample::Number(600)],
    ),
    // both at once
    (
        Kind::Two(Judge::Equal),
        &[Sample::Number(7), Sample::Number(7)],
        &[Sample::Number(1), Sample::Number(1)],
    ),
    // exchanged
    (
        Kind::Two(Judge::Different),
        &[Sample::Number(5), Sample::Number(0)],
        &[Sample::Number(0), Sample::Number(1)],
    ),
    // moved from the one to the other
    (
        Kind::Two(Judge::Ten),
        &[Sample::Number(4), Sample::Number(6)],
        &[Sample::Number(0), Sample::Number(10)],
    ),
    // a count lowered with what it counts
    (
        Kind::Tail,
        &[
            Sample::Number(2),
            Sample::Number(0),
            Sample::Number(0),
            Sample::Number(7),
        ],
        &[Sample::Number(0), Sample::Number(7)],
    ),
];

#[test]
fn a_stored_failure_is_reduced_to_its_one_example(rt: HostRuntime) -> Result<(), Fail> {
    for (row, (kind, stored, wanted)) in REDUCED.iter().enumerate() {
        expect(&rt, row, is_row(&rt, rt.alloc(), *kind, stored, wanted));
    }
    Ok(())
}

// Three zeros, each behind the flag that there is one more, and the flag that there is none.
const THREE: &[Sample] = &[
    Sample::Flag(true),
    Sample::Number(0),
    Sample::Flag(true),
    Sample::Number(0),
    Sample::Flag(true),
    Sample::Number(0),
    Sample::Flag(false),
];

fn is_wide_reduced<R: Threads + Sync>(rt: &R, alloc: Global) -> Result<bool, NameStop> {
    let check = wide(alloc, Name::of(alloc, "wide")?);
    Ok(is_reduced(rt, alloc, &check, &a_hundred_stored(alloc)?, THREE)?)
}

#[test]
fn a_list_of_a_hundred_is_cut_to_three(rt: HostRuntime) -> Result<(), Fail> {
    expect(&rt, 0, is_wide_reduced(&rt, rt.alloc()));
    Ok(())
}

// Whether the finding has this sort of verdict, and so many runs of which so many passed.
fn counts(finding: &Finding, passed: bool, seen: u32, valid: u32) -> bool {
    matches!(finding.verdict, Verdict::Passed) == passed
        && finding.seen == seen
        && finding.valid == valid
}

fn never_passes<R: Threads + Sync>(rt: &R, alloc: Global, workers: u32) -> Result<bool, NameStop>
    requires { (1 ≤ workers) × (workers ≤ 16) }
{
    let check = Never {
        name: Name::of(alloc, "never")?,
    };
    let finding = examined(rt, alloc, &check, &ChoiceLists::empty(alloc), 500, workers)?;
    Ok(counts(&finding, true, 5, 5) && finding.failing.len() == 0 && finding.trail.len() == 0)
}

fn always_fails<R: Threads + Sync>(rt: &R, alloc: Global, workers: u32) -> Result<bool, NameStop>
    requires { (1 ≤ workers) × (workers ≤ 16) }
{
    let check = Always {
        name: Name::of(alloc, "always")?,
    };
    let finding = examined(rt, alloc, &check, &ChoiceLists::empty(alloc), 500, workers)?;
    Ok(counts(&finding, false, 1, 0) && is_found_in(&finding, 0))
}

fn is_found_in(finding: &Finding, run: u32) -> bool {
    match &finding.verdict {
        Verdict::Failed { found, spent, .. } => *found == Found::Run(run) && !*spent,
        _ => false,
    }
}

#[test]
fn runs_that_pass_are_counted(rt: HostRuntime) -> Result<(), Fail> {
    expect(&rt, 1, never_passes(&rt, rt.alloc(), 1));
    expect(&rt, 4, never_passes(&rt, rt.alloc(), 4));
    Ok(())
}

#[test]
fn a_failing_run_is_found(rt: HostRuntime) -> Result<(), Fail> {
    expect(&rt, 1, always_fails(&rt, rt.alloc(), 1));
    expect(&rt, 4, always_fails(&rt, rt.alloc(), 4));
    Ok(())
}

// Whether of the stored numbers those fail that should, and the least of them is reduced to the bound.
fn is_flagged<R: Threads + Sync>(rt: &R, alloc: Global, workers: u32) -> Result<bool, NameStop>
    requires { (1 ≤ workers) × (workers ≤ 16) }
{
    let check = Bounded {
        name: Name::of(alloc, "bounded")?,
        bound: 10,
    };
    let stored = numbers(alloc, &[5, 700, 30])?;
    let finding = examined(rt, alloc, &check, &stored, 500, workers)?;
    Ok(
        counts(&finding, false, 0, 0)
            && finding.failing.as_slice() == [false, true, true].as_slice()
            && shows(alloc, &finding, &[Sample::Number(10)], false)?,
    )
}

#[test]
fn stored_lists_are_replayed_first(rt: HostRuntime) -> Result<(), Fail> {
    expect(&rt, 1, is_flagged(&rt, rt.alloc(), 1));
    expect(&rt, 4, is_flagged(&rt, rt.alloc(), 4));
    Ok(())
}

// Whether a budget of one is spent with one list tried.
fn is_spent<R: Threads + Sync>(rt: &R, alloc: Global, workers: u32) -> Result<bool, NameStop>
    requires { (1 ≤ workers) × (workers ≤ 16) }
{
    let check = Bounded {
        name: Name::of(alloc, "bounded")?,
        bound: 10,
    };
    let finding = examined(rt, alloc, &check, &numbers(alloc, &[573])?, 1, workers)?;
    Ok(finding.trail.len() == 1 && matches!(finding.verdict, Verdict::Failed { spent: true, .. }))
}

#[test]
fn a_budget_of_one_is_spent_at_one_list(rt: HostRuntime) -> Result<(), Fail> {
    expect(&rt, 1, is_spent(&rt, rt.alloc(), 1));
    expect(&rt, 4, is_spent(&rt, rt.alloc(), 4));
    Ok(())
}
