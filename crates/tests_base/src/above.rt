//! The choice that follows another among those that a kind admits, worked by hand.

use crate::expect::expect;
use crate::sample::Sample::{self, Bytes, Flag, Number, Text};
use crate::sample::{kind_of, made};
use pt_choice::{NoMemory, Shape, admits};
use pt_tree::next_admitted;
use std::alloc::Global;

const FAIR: Shape = Shape::Bool { chance: 8 };

const BOTH_SIGNS: Shape = Shape::Int { lo: -2, hi: 3 };

const NONE_ABOVE: Shape = Shape::Int { lo: -2, hi: 0 };

const UP_TO_TWO: Shape = Shape::Bytes { min: 0, max: 2 };

const OF_TWO: Shape = Shape::Text {
    min: 0,
    max: 2,
    size: 2,
};

/// A kind, a choice that it admits, and the next one, if there is one.
const NEXT: [(Shape, Sample, Option<Sample>); 20] = [
    (FAIR, Flag(false), Some(Flag(true))),
    (FAIR, Flag(true), None),
    (BOTH_SIGNS, Number(0), Some(Number(1))),
    (BOTH_SIGNS, Number(1), Some(Number(-1))),
    (BOTH_SIGNS, Number(-1), Some(Number(2))),
    (BOTH_SIGNS, Number(2), Some(Number(-2))),
    (BOTH_SIGNS, Number(-2), Some(Number(3))),
    (BOTH_SIGNS, Number(3), None),
    (NONE_ABOVE, Number(0), Some(Number(-1))),
    (NONE_ABOVE, Number(-1), Some(Number(-2))),
    (NONE_ABOVE, Number(-2), None),
    (UP_TO_TWO, Bytes(&[]), Some(Bytes(&[0]))),
    (UP_TO_TWO, Bytes(&[255]), Some(Bytes(&[0, 0]))),
    (UP_TO_TWO, Bytes(&[0, 255]), Some(Bytes(&[1, 0]))),
    (UP_TO_TWO, Bytes(&[255, 255]), None),
    (OF_TWO, Text(&[]), Some(Text(&[0]))),
    (OF_TWO, Text(&[1]), Some(Text(&[0, 0]))),
    (OF_TWO, Text(&[0, 0]), Some(Text(&[0, 1]))),
    (OF_TWO, Text(&[0, 1]), Some(Text(&[1, 0]))),
    (OF_TWO, Text(&[1, 1]), None),
];

fn is_followed(
    alloc: Global,
    shape: Shape,
    after: Sample,
    wanted: Option<Sample>,
) -> Result<bool, NoMemory> {
    let Some(kind) = kind_of(shape) else {
        return Ok(false);
    };
    let after = made(alloc, after)?;
    if !admits(&kind, &after) {
        return Ok(false);
    }
    let next = next_admitted(alloc, &kind, &after)?;
    match (next, wanted) {
        (Some(next), Some(wanted)) => Ok(next == made(alloc, wanted)?),
        (None, None) => Ok(true),
        _ => Ok(false),
    }
}

#[test]
fn a_choice_is_followed_by_the_next_one(rt: HostRuntime) {
    for (row, (shape, after, wanted)) in NEXT.iter().enumerate() {
        expect(&rt, row, is_followed(rt.alloc(), *shape, *after, *wanted));
    }
}
