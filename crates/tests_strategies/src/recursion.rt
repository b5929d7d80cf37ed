//! `recursive` at each depth, and the spans of `self`.

use crate::derived::Want::{Shown, Stopped};
use crate::derived::{Part, Want, comes_to, makes};
use crate::expect::expect;
use crate::plain::Drawn::{self, Again, FlatMap, Ints, Recursive, Tuples};
use crate::plain::Plain::{Num, Var};

const DIGITS: Drawn = Ints(Num(0), Num(9));

const PAIRS: Drawn = Recursive(2, &DIGITS, &Tuples(&[DIGITS, Again]));

/// In the first strategy of the inner one `self` is the outer one, in the outer one's names.
const NESTED: Drawn = Recursive(
    1,
    &DIGITS,
    &FlatMap(
        &Ints(Num(5), Num(9)),
        "x",
        &Recursive(
            1,
            &Tuples(&[Ints(Num(0), Var("x")), Again]),
            &Tuples(&[Ints(Num(0), Var("x")), Again]),
        ),
    ),
);

const LEVELS: [(Drawn, &[u8], Want); 9] = [
    (Recursive(0, &DIGITS, &Again), b"i3", Shown(b"3")),
    (PAIRS, b"bf i3", Shown(b"3")),
    (PAIRS, b"bt i1 bf i3", Shown(b"(1, 3)")),
    (PAIRS, b"bt i1 bt i2 i3", Shown(b"(1, (2, 3))")),
    (PAIRS, b"bt i1 bt i2", Stopped),
    (PAIRS, b"bt", Stopped),
    (NESTED, b"bt i0 bf i4 i7", Shown(b"(4, 7)")),
    (NESTED, b"bt i0 bt i5 i4 i7", Shown(b"(5, (4, 7))")),
    (NESTED, b"bf i2", Shown(b"2")),
];

const SPANS: [(Drawn, &[u8], &[Part]); 3] = [
    (
        Recursive(1, &DIGITS, &Again),
        b"bf i3",
        &[(32, 0, 2, None), (34, 1, 2, Some(0))],
    ),
    (
        PAIRS,
        b"bt i1 bt i2 i3",
        &[
            (32, 0, 5, None),
            (36, 1, 5, Some(0)),
            (38, 1, 2, Some(1)),
            (32, 2, 5, Some(1)),
            (36, 3, 5, Some(3)),
            (38, 3, 4, Some(4)),
            (32, 4, 5, Some(4)),
            (34, 4, 5, Some(6)),
        ],
    ),
    (
        Recursive(1, &DIGITS, &Again),
        b"bt i3",
        &[(32, 0, 2, None), (32, 1, 2, Some(0)), (34, 1, 2, Some(1))],
    ),
];

#[test]
fn each_level_is_drawn(rt: HostRuntime) {
    for (row, (drawn, spelled, want)) in LEVELS.iter().enumerate() {
        expect(&rt, row, comes_to(rt.alloc(), drawn, spelled, *want));
    }
}

#[test]
fn self_is_in_the_span_of_its_node(rt: HostRuntime) {
    for (row, (drawn, spelled, parts)) in SPANS.iter().enumerate() {
        expect(&rt, row, makes(rt.alloc(), drawn, spelled, parts));
    }
}
