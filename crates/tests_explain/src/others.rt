//! The choices that are tried in place of one.

ghost use Rattle.std.specs.Prelude.{IfSome};
ghost use Rattle.pt_wire.specs.Limits.{IsWritable};

use crate::expect::expect;
use pt_choice::{Choice, Choices, NoMemory, Octets};
use pt_explain::others;
use pt_wire::read_choices;
use std::alloc::Global;

const GREATEST: i128 = u64::MAX as i128;

/// A choice, and those that are tried in its place.
const SPELLED: [(&str, &str); 14] = [
    ("i10", "i0 i1 i-1 i2 i100 i11 i9 i20 i-10"),
    ("i0", "i1 i-1 i2 i10 i100"),
    ("i1", "i0 i-1 i2 i10 i100"),
    ("i-1", "i0 i1 i2 i10 i100 i-2"),
    ("i37", "i0 i1 i-1 i2 i10 i100 i38 i36 i74 i-37"),
    ("bf", "bt"),
    ("bt", "bf"),
    ("x", "x00"),
    ("x07", "x x0700 x00 x08"),
    ("xff", "x xff00 x00"),
    ("x00", "x x0000 x01"),
    ("t", "t0"),
    ("t3", "t t3.0 t0 t4"),
    ("t1.2.3.4", "t t1.2 t1.2.3.4.0 t1.2.3.0 t1.2.3.5"),
];

/// Integers at both limits, and the others, which may be past them.
const NUMBERS: [(i128, &[i128]); 2] = [
    (
        GREATEST,
        &[
            0,
            1,
            -1,
            2,
            10,
            100,
            GREATEST + 1,
            GREATEST - 1,
            2 * GREATEST,
            -GREATEST,
        ],
    ),
    (
        -GREATEST,
        &[
            0,
            1,
            -1,
            2,
            10,
            100,
            -GREATEST + 1,
            -GREATEST - 1,
            -2 * GREATEST,
            GREATEST,
        ],
    ),
];

/// As many places as one choice may have, the last one made zero, and raised by one.
const FULL: [u8; 64] = [5; 64];

const LAST_ZERO: [u8; 64] = [
    5, 5, 5, 5, 5, 5, 5, 5, 5, 5, 5, 5, 5, 5, 5, 5, 5, 5, 5, 5, 5, 5, 5, 5, 5, 5, 5, 5, 5, 5, 5, 5,
    5, 5, 5, 5, 5, 5, 5, 5, 5, 5, 5, 5, 5, 5, 5, 5, 5, 5, 5, 5, 5, 5, 5, 5, 5, 5, 5, 5, 5, 5, 5, 0,
];

const LAST_RAISED: [u8; 64] = [
    5, 5, 5, 5, 5, 5, 5, 5, 5, 5, 5, 5, 5, 5, 5, 5, 5, 5, 5, 5, 5, 5, 5, 5, 5, 5, 5, 5, 5, 5, 5, 5,
    5, 5, 5, 5, 5, 5, 5, 5, 5, 5, 5, 5, 5, 5, 5, 5, 5, 5, 5, 5, 5, 5, 5, 5, 5, 5, 5, 5, 5, 5, 5, 6,
];

#[test]
fn the_others_of_a_choice(rt: HostRuntime) {
    for (row, (given, want)) in SPELLED.iter().enumerate() {
        expect(&rt, row, are_others(rt.alloc(), given, want));
    }
}

#[test]
fn the_others_of_the_limits(rt: HostRuntime) {
    for (row, (given, want)) in NUMBERS.iter().enumerate() {
        expect(&rt, row, are_numbers(rt.alloc(), *given, want));
    }
}

// Sixty-four places are not made longer.
#[test]
fn the_others_of_sixty_four_places(rt: HostRuntime) {
    expect(&rt, 0, is_not_made_longer(rt.alloc()));
}

fn list_of(alloc: Global, text: &str) -> Option<Choices>
    ensures { IfSome result IsWritable }
{
    if text.len() > 1000 {
        return None;
    }
    read_choices(alloc, text.as_bytes()).ok()
}

fn are_others(alloc: Global, given: &str, want: &str) -> Result<bool, NoMemory> {
    let Some(given) = list_of(alloc, given) else {
        return Ok(false);
    };
    let Some(want) = list_of(alloc, want) else {
        return Ok(false);
    };
    if given.len() != 1 {
        return Ok(false);
    }
    Ok(others(alloc, &given.as_slice()[0])? == want)
}

fn are_numbers(alloc: Global, given: i128, want: &[i128]) -> Result<bool, NoMemory> {
    if given.unsigned_abs() > u128::from(u64::MAX) {
        return Ok(false);
    }
    let given = Choice::Int(given);
    let made = others(alloc, &given)?;
    Ok(made == numbers(alloc, want)?)
}

fn numbers(alloc: Global, values: &[i128]) -> Result<Choices, NoMemory> {
    let mut list = Choices::empty(alloc);
    for value in values {
        list.push(Choice::Int(*value))?;
    }
    Ok(list)
}

fn is_not_made_longer(alloc: Global) -> Result<bool, NoMemory> {
    let given = Choice::Bytes(Octets::of(alloc, &FULL)?);
    let made = others(alloc, &given)?;
    let mut want = Choices::empty(alloc);
    want.push(bytes(alloc, &[])?)?;
    want.push(bytes(alloc, &FULL[..32])?)?;
    want.push(bytes(alloc, &LAST_ZERO)?)?;
    want.push(bytes(alloc, &LAST_RAISED)?)?;
    Ok(made == want)
}

fn bytes(alloc: Global, octets: &[u8]) -> Result<Choice, NoMemory> {
    Ok(Choice::Bytes(Octets::of(alloc, octets)?))
}
