//! Kinds at their limits, and what answers a question of each.

use crate::expect::expect;
use crate::sample::Sample::{self, Bytes, Flag, Number, Text};
use crate::sample::{kind_of, made};
use pt_choice::{NoMemory, Shape, admits, fit, simplest};
use std::alloc::Global;

const WIDEST: i128 = 0xffff_ffff_ffff_ffff;

/// Shapes, and whether there is a kind of each.
const LIMITS: [(Shape, bool); 25] = [
    (Shape::Bool { chance: 0 }, false),
    (Shape::Bool { chance: 1 }, true),
    (Shape::Bool { chance: 15 }, true),
    (Shape::Bool { chance: 16 }, false),
    (Shape::Int { lo: 1, hi: 5 }, false),
    (Shape::Int { lo: -5, hi: -1 }, false),
    (Shape::Int { lo: 0, hi: 0 }, true),
    (Shape::Int { lo: -7, hi: 0 }, true),
    (Shape::Int { lo: -1, hi: WIDEST }, false),
    (
        Shape::Int {
            lo: -1,
            hi: WIDEST - 1,
        },
        true,
    ),
    (Shape::Int { lo: -WIDEST, hi: 0 }, true),
    (Shape::Int { lo: 0, hi: WIDEST }, true),
    (
        Shape::Int {
            lo: 0,
            hi: WIDEST + 1,
        },
        false,
    ),
    (
        Shape::Int {
            lo: i128::MIN,
            hi: i128::MAX,
        },
        false,
    ),
    (Shape::Bytes { min: 3, max: 2 }, false),
    (Shape::Bytes { min: 0, max: 0 }, true),
    (Shape::Bytes { min: 0, max: 64 }, true),
    (Shape::Bytes { min: 64, max: 64 }, true),
    (Shape::Bytes { min: 0, max: 65 }, false),
    (
        Shape::Text {
            min: 0,
            max: 4,
            size: 0,
        },
        false,
    ),
    (
        Shape::Text {
            min: 0,
            max: 4,
            size: 1,
        },
        true,
    ),
    (
        Shape::Text {
            min: 0,
            max: 64,
            size: 256,
        },
        true,
    ),
    (
        Shape::Text {
            min: 0,
            max: 64,
            size: 257,
        },
        false,
    ),
    (
        Shape::Text {
            min: 3,
            max: 2,
            size: 9,
        },
        false,
    ),
    (
        Shape::Text {
            min: 0,
            max: 65,
            size: 9,
        },
        false,
    ),
];

// Whether there is a kind of this shape exactly where it is allowed.
fn is_kept(shape: Shape, allowed: bool) -> Result<bool, NoMemory> {
    match kind_of(shape) {
        Some(kind) => Ok(allowed && kind.shape() == shape),
        None => Ok(!allowed),
    }
}

#[test]
fn kinds_keep_their_limits(rt: HostRuntime) {
    for (row, (shape, allowed)) in LIMITS.iter().enumerate() {
        expect(&rt, row, is_kept(*shape, *allowed));
    }
}

const FAIR: Shape = Shape::Bool { chance: 8 };

const UP_TO_1000: Shape = Shape::Int { lo: 0, hi: 1000 };

const WIDE: Shape = Shape::Int {
    lo: -1,
    hi: WIDEST - 1,
};

const TWO_TO_FOUR: Shape = Shape::Bytes { min: 2, max: 4 };

const OF_THREE: Shape = Shape::Text {
    min: 2,
    max: 4,
    size: 3,
};

const OF_ONE: Shape = Shape::Text {
    min: 0,
    max: 64,
    size: 1,
};

const OF_ALL: Shape = Shape::Text {
    min: 0,
    max: 64,
    size: 256,
};

/// What is asked for, what is given, and what the answer is.
const ANSWERS: [(Shape, Sample, Sample); 18] = [
    (FAIR, Flag(true), Flag(true)),
    (FAIR, Number(1), Flag(false)),
    (UP_TO_1000, Flag(true), Number(0)),
    (UP_TO_1000, Number(1000), Number(1000)),
    (UP_TO_1000, Number(1001), Number(0)),
    (WIDE, Number(WIDEST - 1), Number(WIDEST - 1)),
    (WIDE, Number(-1), Number(-1)),
    (WIDE, Number(-2), Number(0)),
    (TWO_TO_FOUR, Bytes(b"a"), Bytes(&[0, 0])),
    (TWO_TO_FOUR, Bytes(b"ab"), Bytes(b"ab")),
    (TWO_TO_FOUR, Text(b"ab"), Bytes(&[0, 0])),
    (OF_THREE, Text(&[0, 3]), Text(&[0, 0])),
    (OF_THREE, Text(&[0, 2]), Text(&[0, 2])),
    (OF_THREE, Text(&[1, 1, 1, 1, 1]), Text(&[0, 0])),
    (OF_ONE, Text(&[0]), Text(&[0])),
    (OF_ONE, Text(&[1]), Text(&[])),
    (OF_ALL, Text(&[255]), Text(&[255])),
    (OF_ALL, Bytes(b""), Text(b"")),
];

// Whether the given choice is made to fit as wanted, and is admitted exactly where it is the wanted one.
fn is_fitted(alloc: Global, shape: Shape, given: Sample, want: Sample) -> Result<bool, NoMemory> {
    let Some(kind) = kind_of(shape) else {
        return Ok(false);
    };
    let given = made(alloc, given)?;
    let want = made(alloc, want)?;
    Ok(fit(alloc, &kind, &given)? == want && admits(&kind, &given) == (given == want))
}

#[test]
fn an_answer_fits_or_gives_way_to_the_simplest(rt: HostRuntime) {
    for (row, (shape, given, want)) in ANSWERS.iter().enumerate() {
        expect(&rt, row, is_fitted(rt.alloc(), *shape, *given, *want));
    }
}

const SIMPLEST: [(Shape, Sample); 6] = [
    (Shape::Bool { chance: 15 }, Flag(false)),
    (Shape::Int { lo: -7, hi: 0 }, Number(0)),
    (Shape::Bytes { min: 2, max: 4 }, Bytes(&[0, 0])),
    (
        Shape::Text {
            min: 1,
            max: 4,
            size: 3,
        },
        Text(&[0]),
    ),
    (
        Shape::Text {
            min: 0,
            max: 4,
            size: 3,
        },
        Text(&[]),
    ),
    (Shape::Bytes { min: 64, max: 64 }, Bytes(&[0; 64])),
];

fn is_simplest(alloc: Global, shape: Shape, want: Sample) -> Result<bool, NoMemory> {
    let Some(kind) = kind_of(shape) else {
        return Ok(false);
    };
    Ok(simplest(alloc, &kind)? == made(alloc, want)?)
}

#[test]
fn the_simplest_is_false_or_zero_or_zeros(rt: HostRuntime) {
    for (row, (shape, want)) in SIMPLEST.iter().enumerate() {
        expect(&rt, row, is_simplest(rt.alloc(), *shape, *want));
    }
}
