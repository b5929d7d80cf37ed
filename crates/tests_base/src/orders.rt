//! The order of choices, and that of lists.

use crate::expect::expect;
use crate::sample::Sample::{self, Bytes, Flag, Number, Text};
use crate::sample::{choices_of, made};
use pt_choice::{NoMemory, cmp_choice, shortlex};
use std::alloc::Global;
use std::cmp::Ordering;

/// Choices, the lowest first.
const CHOICES: [Sample; 19] = [
    Flag(false),
    Flag(true),
    Number(0),
    Number(1),
    Number(-1),
    Number(2),
    Number(-2),
    Number(5),
    Number(i128::MAX),
    Number(-i128::MAX),
    Number(i128::MIN),
    Bytes(&[]),
    Bytes(&[0]),
    Bytes(&[255]),
    Bytes(&[0, 9]),
    Bytes(&[1, 0]),
    Text(&[]),
    Text(&[255]),
    Text(&[0, 0]),
];

/// Lists of choices, the shortest first.
const LISTS: [&[Sample]; 5] = [
    &[],
    &[Number(9)],
    &[Number(0), Number(0)],
    &[Number(0), Number(-1)],
    &[Number(1), Flag(false)],
];

fn compare(alloc: Global, a: Sample, b: Sample, want: Ordering) -> Result<bool, NoMemory> {
    Ok(cmp_choice(&made(alloc, a)?, &made(alloc, b)?) == want)
}

#[test]
fn choices_stand_in_order(rt: HostRuntime) {
    for (i, a) in CHOICES.iter().enumerate() {
        for (j, b) in CHOICES.iter().enumerate() {
            expect(&rt, i, compare(rt.alloc(), *a, *b, i.cmp(&j)));
        }
    }
}

fn compare_lists(
    alloc: Global,
    a: &[Sample],
    b: &[Sample],
    want: Ordering,
) -> Result<bool, NoMemory> {
    let a = choices_of(alloc, a)?;
    let b = choices_of(alloc, b)?;
    Ok(shortlex(a.as_slice(), b.as_slice()) == want)
}

#[test]
fn lists_stand_in_order(rt: HostRuntime) {
    for (i, a) in LISTS.iter().enumerate() {
        for (j, b) in LISTS.iter().enumerate() {
            expect(&rt, i, compare_lists(rt.alloc(), a, b, i.cmp(&j)));
        }
    }
}
