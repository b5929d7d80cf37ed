//! Choices from words that a second implementation of the cipher gave, worked out from them by hand.

use crate::expect::expect;
use crate::sample::Sample::{self, Bytes, Flag, Number, Text};
use crate::sample::{kind_of, made};
use pt_choice::{NoMemory, Shape};
use pt_rng::Supply;
use std::alloc::Global;

const WIDEST: i128 = 0xffff_ffff_ffff_ffff;

const SEVEN_TO_NINE: Shape = Shape::Int { lo: -7, hi: 9 };

const FOUR_BYTES: Shape = Shape::Bytes { min: 4, max: 4 };

/// What run 0 is asked for, and is given.
const RUN_0: [(Shape, Sample); 4] = [
    (Shape::Bytes { min: 2, max: 4 }, Bytes(&[0, 0])),
    (Shape::Bool { chance: 15 }, Flag(false)),
    (Shape::Int { lo: -9, hi: 9 }, Number(0)),
    (
        Shape::Text {
            min: 1,
            max: 3,
            size: 4,
        },
        Text(&[0]),
    ),
];

/// What run 1 of seed 9 is asked for, and is given. The words of stream 1, as far as they matter, stand beside each
/// choice that is made of them.
const RUN_1: [(Shape, Sample); 15] = [
    // 5 modulo 16
    (Shape::Bool { chance: 5 }, Flag(false)),
    // 0 modulo 8, and then 2
    (SEVEN_TO_NINE, Number(-7)),
    (SEVEN_TO_NINE, Number(0)),
    // 2 modulo 16
    (Shape::Bool { chance: 3 }, Flag(true)),
    // 6 modulo 8, then 1267281037 and 2452326876, which are 1963 modulo 2001
    (
        Shape::Int {
            lo: -1000,
            hi: 1000,
        },
        Number(963),
    ),
    // 7 modulo 8, then 39280166 and 2182988749
    (
        Shape::Int {
            lo: -1,
            hi: WIDEST - 1,
        },
        Number(9_375_865_284_530_232_869),
    ),
    // 2 modulo 4, then 137 and 233 modulo 256
    (Shape::Bytes { min: 0, max: 3 }, Bytes(&[137, 233])),
    // 2 modulo 3, then 0, 1 and 2 modulo 3
    (
        Shape::Text {
            min: 1,
            max: 3,
            size: 3,
        },
        Text(&[0, 1, 2]),
    ),
    // 1 modulo 8
    (SEVEN_TO_NINE, Number(9)),
    // one word for no places
    (
        Shape::Text {
            min: 0,
            max: 0,
            size: 256,
        },
        Text(&[]),
    ),
    // one word, then 127 and 35 modulo 256
    (Shape::Bytes { min: 2, max: 2 }, Bytes(&[127, 35])),
    // 0 modulo 8
    (Shape::Int { lo: 0, hi: 0 }, Number(0)),
    // one word, then 55 modulo 256
    (
        Shape::Text {
            min: 1,
            max: 1,
            size: 256,
        },
        Text(&[55]),
    ),
    // 7 and then 0 modulo 16
    (Shape::Bool { chance: 8 }, Flag(true)),
    (Shape::Bool { chance: 1 }, Flag(true)),
];

/// Seeds and streams, with the four bytes that each gives first.
const STREAMS: [(u64, u64, Sample); 3] = [
    (0, 0, Bytes(&[137, 127, 31, 44])),
    (0x0102_0304_0506_0708, 1, Bytes(&[39, 79, 140, 152])),
    (u64::MAX, u64::MAX, Bytes(&[87, 157, 170, 30])),
];

// Whether the supply makes this choice next for a question of this shape.
fn makes(alloc: Global, supply: &mut Supply, shape: Shape, want: Sample) -> Result<bool, NoMemory> {
    let Some(kind) = kind_of(shape) else {
        return Ok(false);
    };
    Ok(supply.next_choice(alloc, &kind)? == made(alloc, want)?)
}

#[test]
fn run_0_is_given_the_simplest(rt: HostRuntime) {
    let mut run = Supply::of_run(9, 0);
    let mut simplest = Supply::simplest();
    for (row, (shape, want)) in RUN_0.iter().enumerate() {
        expect(&rt, row, makes(rt.alloc(), &mut run, *shape, *want));
        expect(&rt, row, makes(rt.alloc(), &mut simplest, *shape, *want));
    }
}

#[test]
fn run_1_is_given_what_its_words_make(rt: HostRuntime) {
    let mut supply = Supply::of_run(9, 1);
    for (row, (shape, want)) in RUN_1.iter().enumerate() {
        expect(&rt, row, makes(rt.alloc(), &mut supply, *shape, *want));
    }
}

#[test]
fn seed_and_stream_choose_the_words(rt: HostRuntime) {
    for (row, (seed, run, want)) in STREAMS.iter().enumerate() {
        let mut supply = Supply::stream(*seed, *run);
        expect(&rt, row, makes(rt.alloc(), &mut supply, FOUR_BYTES, *want));
    }
}
