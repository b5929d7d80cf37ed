//! Blocks of lists of which the first better one is wanted.

ghost use Rattle.std.specs.Prelude.{◌≡◌, ◌↔◌, ◌≤◌, true, length, IsTrue};
ghost use Rattle.pt_case.specs.Ending.{is_failure};

use crate::bounded::Bounded;
use crate::expect::expect;
use crate::lists::{block, list, lists};
use crate::meeting::Meeting;
use crate::same::are_same;
use pt_case::{ChoiceLists, Record, replay};
use pt_choice::NoMemory;
use pt_par::{Hit, first_better};
use std::alloc::Global;
use std::test::Fail;
use std::thread::Threads;

// Whether the record, the lists and the number of workers are in the bounds of `first_better`.
fn may_be_searched(best: &Record, lists: &ChoiceLists, workers: u32) -> bool
    ensures { IsTrue result ↔ ((is_failure best.now.ending ≡ true) × (length lists.now ≤ 1024) × (1 ≤ workers) × (workers ≤ 16)) }
{
    best.ending.is_failure() && lists.len() <= 1024 && 1 <= workers && workers <= 16
}

// Whether so many workers find this place alone, with its list's record, or none.
fn is_found<R: Threads + Sync>(
    rt: &R,
    alloc: Global,
    check: &Bounded,
    best: &Record,
    lists: &ChoiceLists,
    workers: u32,
    wanted: Option<usize>,
) -> Result<bool, NoMemory> {
    if !may_be_searched(best, lists, workers) {
        return Ok(false);
    }
    match first_better(rt, alloc, check, best, lists, workers)? {
        Some(hit) => Ok(
            wanted == Some(hit.at) && is_record_of_its_place(alloc, check, lists, &hit)?,
        ),
        None => Ok(wanted.is_none()),
    }
}

fn is_record_of_its_place(
    alloc: Global,
    check: &Bounded,
    lists: &ChoiceLists,
    hit: &Hit,
) -> Result<bool, NoMemory> {
    match lists.as_slice().get(hit.at) {
        Some(list) => Ok(are_same(&hit.rec, &replay(alloc, check, list)?)),
        None => Ok(false),
    }
}

// Whether so many workers find this place in these lists, where the best so far is the record of 573.
fn is_place<R: Threads + Sync>(
    rt: &R,
    alloc: Global,
    check: &Bounded,
    values: &[i128],
    workers: u32,
    wanted: Option<usize>,
) -> Result<bool, NoMemory> {
    let best = replay(alloc, check, &list(alloc, 573)?)?;
    is_found(
        rt,
        alloc,
        check,
        &best,
        &lists(alloc, values)?,
        workers,
        wanted,
    )
}

/// A number of workers, lists of one integer, and the first place of a better one than 573, where the check fails from
/// 10 on.
const PLACES: [(u32, &[i128], Option<usize>); 9] = [
    (1, &[5, 20, 15], Some(1)),
    (3, &[5, 20, 15], Some(1)),
    (1, &[5, 600], None),
    (3, &[5, 600], None),
    (1, &[], None),
    (16, &[], None),
    (2, &[573, 572], Some(1)),
    (2, &[10], Some(0)),
    (4, &[9, 1000, 574, 573, 11, 10], Some(4)),
];

#[test]
fn the_least_better_place_is_found(rt: HostRuntime) -> Result<(), Fail> {
    let check = Bounded::of(rt.alloc(), 10, Meeting::of(0))?;
    for (row, (workers, values, wanted)) in PLACES.iter().enumerate() {
        expect(
            &rt,
            row,
            is_place(&rt, rt.alloc(), &check, values, *workers, *wanted),
        );
    }
    Ok(())
}

// Whether so many workers find the place from which on the lists of a block are better.
fn is_first<R: Threads + Sync>(
    rt: &R,
    alloc: Global,
    check: &Bounded,
    size: usize,
    first: usize,
    workers: u32,
) -> Result<bool, NoMemory> {
    let best = replay(alloc, check, &list(alloc, 573)?)?;
    let lists = block(alloc, size, first, 3, 20)?;
    let wanted = if first < size { Some(first) } else { None };
    is_found(rt, alloc, check, &best, &lists, workers, wanted)
}

fn is_first_for_all<R: Threads + Sync>(
    rt: &R,
    alloc: Global,
    check: &Bounded,
    size: usize,
    first: usize,
) -> Result<bool, NoMemory> {
    for workers in WORKERS {
        if !is_first(rt, alloc, check, size, first, workers)? {
            return Ok(false);
        }
    }
    Ok(true)
}

const WORKERS: [u32; 4] = [1, 2, 4, 16];

/// A number of lists, and the place from which on they are better.
const FIRSTS: [(usize, usize); 12] = [
    (1, 0),
    (1, 1),
    (2, 1),
    (2, 2),
    (3, 1),
    (3, 2),
    (16, 0),
    (16, 15),
    (16, 16),
    (1024, 512),
    (1024, 1023),
    (1024, 1024),
];

#[test]
fn any_number_of_workers_has_one_answer(rt: HostRuntime) -> Result<(), Fail> {
    let check = Bounded::of(rt.alloc(), 10, Meeting::of(0))?;
    for (row, (size, first)) in FIRSTS.iter().enumerate() {
        expect(
            &rt,
            row,
            is_first_for_all(&rt, rt.alloc(), &check, *size, *first),
        );
    }
    Ok(())
}

// Whether one worker finds the second of three lists, after it has replayed the first two.
fn is_found_after_two<R: Threads + Sync>(
    rt: &R,
    alloc: Global,
    check: &Bounded,
) -> Result<bool, NoMemory> {
    let best = replay(alloc, check, &list(alloc, 573)?)?;
    let lists = lists(alloc, &[5, 20, 15])?;
    if !may_be_searched(&best, &lists, 1) {
        return Ok(false);
    }
    let before = check.meeting.runs();
    let hit = first_better(rt, alloc, check, &best, &lists, 1)?;
    Ok(hit.is_some_and(|hit| hit.at == 1) && check.meeting.runs().wrapping_sub(before) == 2)
}

#[test]
fn one_worker_replays_nothing_after_the_first_better_list(rt: HostRuntime) -> Result<(), Fail> {
    let check = Bounded::of(rt.alloc(), 10, Meeting::of(0))?;
    expect(&rt, 0, is_found_after_two(&rt, rt.alloc(), &check));
    Ok(())
}

// Whether no list is better than the record of 1, and each of the two replays was under way when the other was.
fn meet<R: Threads + Sync>(
    rt: &R,
    alloc: Global,
    check: &Bounded,
    best: &Record,
) -> Result<bool, NoMemory> {
    let lists = lists(alloc, &[2, 3])?;
    Ok(is_found(rt, alloc, check, best, &lists, 2, None)? && check.meeting.both_met())
}

#[test]
fn two_lists_are_replayed_at_one_time(rt: HostRuntime) -> Result<(), Fail> {
    let alone = Bounded::of(rt.alloc(), 0, Meeting::of(0))?;
    let best = replay(rt.alloc(), &alone, &list(rt.alloc(), 1)?)?;
    let check = Bounded::of(rt.alloc(), 0, Meeting::of(50_000_000))?;
    expect(&rt, 0, meet(&rt, rt.alloc(), &check, &best));
    Ok(())
}
