//! What `survey_check` finds.

ghost use Rattle.std.specs.Prelude.{◌↔◌, ◌≤◌, IsTrue};

use crate::always::Always;
use crate::expect::expect;
use crate::recount::{SEED, endings_of, is_recounted, times};
use crate::rule::{Rule, both_sides, numbers};
use pt_all::survey_check;
use pt_case::{Check, Ending, Origin};
use pt_choice::{Choice, NoMemory};
use pt_found::{Fault, Survey};
use pt_val::{Name, NameStop};
use std::alloc::Global;
use std::test::Fail;
use std::thread::Threads;

// Whether the numbers are in the bounds of `survey_check`.
fn may_be_surveyed(runs: u32, budget: u32, workers: u32) -> bool
    ensures { IsTrue result ↔ ((1 ≤ runs) × (runs ≤ 10000) × (budget ≤ 1000) × (1 ≤ workers) × (workers ≤ 16)) }
{
    1 <= runs && runs <= 10000 && budget <= 1000 && 1 <= workers && workers <= 16
}

// The fault shows this number as its one choice, at this point, and its reduction ended before its budget did.
fn shows(fault: &Fault, choice: &Choice, point: u32) -> bool {
    let choices = fault.shown.choices.as_slice();
    choices.len() == 1
        && choices[0] == *choice
        && fault.shown.ending == Ending::Fail(Origin::Point(point))
        && !fault.spent
}

fn is_always<R: Threads + Sync>(rt: &R, alloc: Global, workers: u32) -> Result<bool, NameStop>
    requires { (1 ≤ workers) × (workers ≤ 16) }
{
    let check = Always {
        name: Name::of(alloc, "always")?,
    };
    let survey = survey_check(rt, alloc, &check, SEED, 3, 500, workers)?;
    let faults = survey.faults.as_slice();
    Ok(
        survey.seen == 3
            && survey.valid == 0
            && survey.name.as_slice() == b"always".as_slice()
            && faults.len() == 1
            && faults[0].run == 0
            && faults[0].times == 3
            && faults[0].budget == 31
            && !faults[0].spent
            && faults[0].shown.choices.len() == 0,
    )
}

#[test]
fn runs_after_a_failure_are_counted_too(rt: HostRuntime) -> Result<(), Fail> {
    expect(&rt, 1, is_always(&rt, rt.alloc(), 1));
    expect(&rt, 4, is_always(&rt, rt.alloc(), 4));
    Ok(())
}

// Whether a rule by which no number fails makes so many runs, of which so many pass.
fn has_no_fault<R: Threads + Sync>(
    rt: &R,
    alloc: Global,
    rule: Rule,
    seen: u32,
    valid: u32,
    workers: u32,
) -> Result<bool, NameStop>
    requires { (1 ≤ workers) × (workers ≤ 16) }
{
    let check = numbers(alloc, Name::of(alloc, "numbers")?, rule);
    let survey = survey_check(rt, alloc, &check, SEED, 5, 500, workers)?;
    Ok(survey.seen == seen && survey.valid == valid && survey.faults.len() == 0)
}

#[test]
fn a_check_that_passes_has_no_fault(rt: HostRuntime) -> Result<(), Fail> {
    expect(&rt, 1, has_no_fault(&rt, rt.alloc(), Rule::Passes, 5, 5, 1));
    expect(&rt, 4, has_no_fault(&rt, rt.alloc(), Rule::Passes, 5, 5, 4));
    Ok(())
}

#[test]
fn a_check_that_rejects_is_given_up(rt: HostRuntime) -> Result<(), Fail> {
    expect(
        &rt,
        1,
        has_no_fault(&rt, rt.alloc(), Rule::Rejects, 50, 0, 1),
    );
    expect(
        &rt,
        4,
        has_no_fault(&rt, rt.alloc(), Rule::Rejects, 50, 0, 4),
    );
    Ok(())
}

// Whether both sides of a flag are shown, each as it is, and as often as the runs come to it.
fn are_both_sides<R: Threads + Sync>(rt: &R, alloc: Global, workers: u32) -> Result<bool, NameStop>
    requires { (1 ≤ workers) × (workers ≤ 16) }
{
    let check = both_sides(alloc, Name::of(alloc, "both")?);
    let survey = survey_check(rt, alloc, &check, SEED, 200, 500, workers)?;
    let endings = endings_of(alloc, &check, 200)?;
    let no = times(endings.as_slice(), Ending::Fail(Origin::Point(1)));
    let yes = times(endings.as_slice(), Ending::Fail(Origin::Point(2)));
    let faults = survey.faults.as_slice();
    Ok(
        survey.seen == 200
            && faults.len() == 2
            && faults[0].run == 0
            && faults[0].times as usize == no
            && shows(&faults[0], &Choice::Bool(false), 1)
            && faults[1].times as usize == yes
            && shows(&faults[1], &Choice::Bool(true), 2),
    )
}

#[test]
fn no_origin_is_reduced_into_a_simpler_one(rt: HostRuntime) -> Result<(), Fail> {
    expect(&rt, 1, are_both_sides(&rt, rt.alloc(), 1));
    expect(&rt, 4, are_both_sides(&rt, rt.alloc(), 4));
    Ok(())
}

// Whether a fault of this point shows this number.
fn has_fault(faults: &[Fault], number: i128, point: u32) -> bool {
    for fault in faults {
        if shows(fault, &Choice::Int(number), point) {
            return true;
        }
    }
    false
}

// Whether of two origins, of which the one is reached by simpler numbers, each shows its own least number.
fn is_hidden<R: Threads + Sync>(rt: &R, alloc: Global, workers: u32) -> Result<bool, NameStop>
    requires { (1 ≤ workers) × (workers ≤ 16) }
{
    let check = numbers(alloc, Name::of(alloc, "hidden")?, Rule::Hidden);
    let survey = survey_check(rt, alloc, &check, SEED, 100, 1000, workers)?;
    let faults = survey.faults.as_slice();
    Ok(faults.len() == 2 && has_fault(faults, 10, 1) && has_fault(faults, 500, 2))
}

#[test]
fn a_fault_behind_another_shows_its_own_least_number(rt: HostRuntime) -> Result<(), Fail> {
    expect(&rt, 1, is_hidden(&rt, rt.alloc(), 1));
    expect(&rt, 4, is_hidden(&rt, rt.alloc(), 4));
    Ok(())
}

// Whether the sixteenth fault has its share, and the seventeenth has none and is shown as it was found.
fn are_seventeen<R: Threads + Sync>(rt: &R, alloc: Global, workers: u32) -> Result<bool, NameStop>
    requires { (1 ≤ workers) × (workers ≤ 16) }
{
    let check = numbers(alloc, Name::of(alloc, "apart")?, Rule::Apart);
    let survey = survey_check(rt, alloc, &check, SEED, 100, 500, workers)?;
    let faults = survey.faults.as_slice();
    Ok(
        faults.len() >= 17
            && faults[15].budget == 31
            && faults[16].budget == 0
            && faults[16].trail.len() == 0
            && faults[16].spent,
    )
}

#[test]
fn the_seventeenth_fault_is_not_reduced(rt: HostRuntime) -> Result<(), Fail> {
    expect(&rt, 1, are_seventeen(&rt, rt.alloc(), 1));
    expect(&rt, 4, are_seventeen(&rt, rt.alloc(), 4));
    Ok(())
}

// Whether so many workers count what one counts without blocks.
fn is_counted<R: Threads + Sync, C: Check>(
    rt: &R,
    alloc: Global,
    check: &C,
    runs: u32,
    budget: u32,
    workers: u32,
) -> Result<bool, NoMemory> {
    if !may_be_surveyed(runs, budget, workers) {
        return Ok(false);
    }
    let survey = survey_check(rt, alloc, check, SEED, runs, budget, workers)?;
    is_recounted(alloc, check, &survey, budget)
}

/// A rule, the runs that are to pass or fail, and the budget.
const COUNTED: [(Rule, u32, u32); 7] = [
    (Rule::Mixed, 1, 500),
    (Rule::Mixed, 2, 15),
    (Rule::Mixed, 100, 500),
    (Rule::Mixed, 1000, 1000),
    (Rule::Apart, 300, 47),
    (Rule::Hidden, 700, 0),
    (Rule::Rejects, 3, 500),
];

fn is_row<R: Threads + Sync>(
    rt: &R,
    alloc: Global,
    row: &(Rule, u32, u32),
    workers: u32,
) -> Result<bool, NameStop> {
    let (rule, runs, budget) = *row;
    let check = numbers(alloc, Name::of(alloc, "row")?, rule);
    Ok(is_counted(rt, alloc, &check, runs, budget, workers)?)
}

#[test]
fn any_number_of_workers_counts_the_same(rt: HostRuntime) -> Result<(), Fail> {
    for (row, counted) in COUNTED.iter().enumerate() {
        for workers in [1, 2, 4, 16].iter() {
            expect(&rt, row, is_row(&rt, rt.alloc(), counted, *workers));
        }
    }
    Ok(())
}

#[test]
fn a_boxed_check_is_surveyed(rt: HostRuntime) -> Result<(), Fail> {
    let name = Name::of(rt.alloc(), "always")?;
    let check: Box<dyn Check> = Box::new(rt.alloc(), Always { name })?;
    expect(&rt, 0, is_counted(&rt, rt.alloc(), &check, 300, 500, 2));
    Ok(())
}
