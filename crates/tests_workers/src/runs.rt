//! Blocks of numbered runs.

ghost use Rattle.std.specs.Prelude.{◌≡◌, ◌↔◌, ◌+◌, ◌≤◌, IsTrue};

use crate::always::Always;
use crate::bounded::Bounded;
use crate::expect::expect;
use crate::meeting::Meeting;
use crate::same::are_same;
use pt_case::{Check, Ending, Origin, Record, Records, fresh};
use pt_choice::NoMemory;
use pt_par::batch;
use pt_val::Name;
use std::alloc::Global;
use std::test::Fail;
use std::thread::Threads;

// Whether these are the records of the runs from a number on, in order.
fn are_from<C: Check>(
    alloc: Global,
    check: &C,
    from: u64,
    to: u64,
    records: &Records,
) -> Result<bool, NoMemory> {
    for (rec, run) in records.as_slice().iter().zip(from..to) {
        if !are_same(rec, &fresh(alloc, check, 7, run)?) {
            return Ok(false);
        }
    }
    Ok(true)
}

// Whether the numbers are in the bounds of `batch`.
fn may_be_made(from: u64, to: u64, workers: u32) -> bool
    ensures { IsTrue result ↔ ((from ≤ to) × (to ≤ from + 1024) × (1 ≤ workers) × (workers ≤ 16)) }
{
    from <= to && to - from <= 1024 && 1 <= workers && workers <= 16
}

// Whether so many workers make the runs in order.
fn are_made<R: Threads + Sync, C: Check>(
    rt: &R,
    alloc: Global,
    check: &C,
    from: u64,
    to: u64,
    workers: u32,
) -> Result<bool, NoMemory> {
    if !may_be_made(from, to, workers) {
        return Ok(false);
    }
    let records = batch(rt, alloc, check, 7, from, to, workers)?;
    Ok(records.len() as u64 == to - from && are_from(alloc, check, from, to, &records)?)
}

/// A number of workers, and the runs that they make, the last ones of a seed among them.
const BLOCKS: [(u32, u64, u64); 12] = [
    (1, 0, 0),
    (4, 0, 0),
    (1, 0, 1),
    (16, 0, 1),
    (2, 5, 8),
    (4, 5, 8),
    (16, 7, 23),
    (3, 0, 100),
    (1, 0, 1024),
    (4, 0, 1024),
    (16, 1, 1025),
    (2, u64::MAX - 3, u64::MAX),
];

#[test]
fn a_block_is_its_runs_in_order(rt: HostRuntime) -> Result<(), Fail> {
    let check = Bounded::of(rt.alloc(), 500, Meeting::of(0))?;
    for (row, (workers, from, to)) in BLOCKS.iter().enumerate() {
        expect(
            &rt,
            row,
            are_made(&rt, rt.alloc(), &check, *from, *to, *workers),
        );
    }
    Ok(())
}

fn is_failed_at_once(rec: &Record) -> bool {
    rec.choices.len() == 0
        && rec.spans.len() == 0
        && rec.notes.len() == 0
        && rec.ending == Ending::Fail(Origin::Point(1))
}

// Whether two workers make three runs of this check, each of which fails with no choice.
fn fail_at_once<R: Threads + Sync, C: Check>(
    rt: &R,
    alloc: Global,
    check: &C,
) -> Result<bool, NoMemory> {
    let records = batch(rt, alloc, check, 1, 0, 3, 2)?;
    Ok(records.len() == 3 && records.as_slice().iter().all(is_failed_at_once))
}

#[test]
fn runs_of_a_boxed_check_fail(rt: HostRuntime) -> Result<(), Fail> {
    let name = Name::of(rt.alloc(), "always")?;
    let check: Box<dyn Check> = Box::new(rt.alloc(), Always { name })?;
    expect(&rt, 0, fail_at_once(&rt, rt.alloc(), &check));
    Ok(())
}

// Whether two runs were made, on two workers, and each was under way when the other was.
fn meet<R: Threads + Sync>(rt: &R, alloc: Global, check: &Bounded) -> Result<bool, NoMemory> {
    let records = batch(rt, alloc, check, 7, 0, 2, 2)?;
    Ok(records.len() == 2 && check.meeting.both_met())
}

#[test]
fn two_runs_are_made_at_one_time(rt: HostRuntime) -> Result<(), Fail> {
    let check = Bounded::of(rt.alloc(), 2000, Meeting::of(50_000_000))?;
    expect(&rt, 0, meet(&rt, rt.alloc(), &check));
    Ok(())
}
