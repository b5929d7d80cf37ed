//! Values, bounds and refusals of each node, as worked by hand.

use crate::derived::Want::{Rejected, Shown, Stopped, Wrong};
use crate::derived::{Want, comes_to};
use crate::expect::expect;
use crate::plain::Drawn::{
    self, Blobs, Bools, Filter, FlatMap, Ints, Lists, Map, OneOf, Sampled, Texts, Tuples,
};
use crate::plain::Plain::{Bad, Is, Num, Nums, Plus, Var};
use pt_case::What::{Bounds, Division};

type Row = (Drawn, &'static [u8], Want);

const SIMPLE: [Row; 25] = [
    (Ints(Num(0), Num(9)), b"i4", Shown(b"4")),
    (Ints(Num(-9), Num(-2)), b"i0", Shown(b"-2")),
    (Ints(Num(-9), Num(-2)), b"i-7", Shown(b"-9")),
    (Ints(Num(5), Num(5)), b"i0", Shown(b"5")),
    (
        Ints(Num(i64::MIN), Num(i64::MAX)),
        b"i-9223372036854775808",
        Shown(b"-9223372036854775808"),
    ),
    (
        Ints(Num(i64::MIN), Num(i64::MAX)),
        b"i9223372036854775807",
        Shown(b"9223372036854775807"),
    ),
    (Ints(Num(1), Var("z")), b"i0", Wrong(Bounds, 1)),
    (Ints(Bad, Num(1)), b"i0", Wrong(Division, 2)),
    (Ints(Num(0), Num(9)), b"-", Stopped),
    (Bools, b"bt", Shown(b"true")),
    (Bools, b"-", Stopped),
    (
        Texts(&['a', 'b', 'c'], Num(0), Num(4)),
        b"t2.0",
        Shown(b"\"ca\""),
    ),
    (Texts(&['a'], Num(0), Num(64)), b"t", Shown(b"\"\"")),
    (Texts(&['a'], Num(-1), Num(4)), b"t0", Wrong(Bounds, 1)),
    (Texts(&['a'], Num(2), Num(1)), b"t0", Wrong(Bounds, 1)),
    (Texts(&['a'], Num(0), Num(65)), b"t0", Wrong(Bounds, 1)),
    (Texts(&['a'], Num(0), Num(4)), b"-", Stopped),
    (Blobs(Num(1), Var("n")), b"x07", Shown(b"x\"07\"")),
    (Blobs(Num(0), Num(65)), b"x07", Wrong(Bounds, 1)),
    (Blobs(Num(4), Var("n")), b"x07", Wrong(Bounds, 1)),
    (Blobs(Num(0), Num(4)), b"-", Stopped),
    (Sampled(Nums(&[10, 20])), b"i1", Shown(b"20")),
    (Sampled(Nums(&[10, 20])), b"i0", Shown(b"10")),
    (Sampled(Nums(&[])), b"i0", Wrong(Bounds, 1)),
    (Sampled(Nums(&[10, 20])), b"-", Stopped),
];

const DIGITS: Drawn = Ints(Num(0), Num(9));

const MADE: [Row; 22] = [
    (Lists(&DIGITS, Num(0), Num(3)), b"bt i4 bf", Shown(b"[4]")),
    (Lists(&DIGITS, Num(0), Num(3)), b"bf", Shown(b"[]")),
    (Lists(&DIGITS, Num(0), Num(0)), b"-", Shown(b"[]")),
    (
        Lists(&DIGITS, Num(0), Num(3)),
        b"bt i1 bt i2 bt i3",
        Shown(b"[1, 2, 3]"),
    ),
    (
        Lists(&DIGITS, Num(2), Num(3)),
        b"i4 i5 bf",
        Shown(b"[4, 5]"),
    ),
    (Lists(&DIGITS, Num(2), Num(2)), b"i4 i5", Shown(b"[4, 5]")),
    (Lists(&DIGITS, Num(0), Num(3)), b"bt i4", Stopped),
    (Lists(&DIGITS, Num(0), Num(257)), b"bf", Wrong(Bounds, 1)),
    (Lists(&DIGITS, Num(2), Num(1)), b"bf", Wrong(Bounds, 1)),
    (Lists(&DIGITS, Num(-1), Num(1)), b"bf", Wrong(Bounds, 1)),
    (Tuples(&[DIGITS, Bools]), b"i1 bt", Shown(b"(1, true)")),
    (Tuples(&[DIGITS, Bools]), b"i1", Stopped),
    (OneOf(&[DIGITS, Bools]), b"i1 bt", Shown(b"true")),
    (OneOf(&[DIGITS, Bools]), b"i0 i7", Shown(b"7")),
    (OneOf(&[DIGITS, Bools]), b"i1", Stopped),
    (Map(&DIGITS, "x", Plus("x", 40)), b"i2", Shown(b"42")),
    (Map(&DIGITS, "x", Bad), b"i2", Wrong(Division, 2)),
    (Map(&DIGITS, "x", Bad), b"-", Stopped),
    (
        FlatMap(&DIGITS, "x", &Ints(Num(0), Var("x"))),
        b"i3 i2",
        Shown(b"2"),
    ),
    (
        FlatMap(&DIGITS, "x", &Ints(Num(4), Var("x"))),
        b"i3 i2",
        Wrong(Bounds, 1),
    ),
    (
        FlatMap(&DIGITS, "x", &Ints(Num(0), Var("x"))),
        b"i3",
        Stopped,
    ),
    (
        FlatMap(&DIGITS, "x", &Ints(Num(0), Var("x"))),
        b"i0 i0",
        Shown(b"0"),
    ),
];

const FOUR: Drawn = Filter(&DIGITS, "x", Is("x", 4));

const FILTERED: [Row; 6] = [
    (FOUR, b"i4", Shown(b"4")),
    (FOUR, b"i1 i4", Shown(b"4")),
    (FOUR, b"i1 i2 i4", Shown(b"4")),
    (FOUR, b"i1 i2 i3 i4", Rejected),
    (FOUR, b"i1 i2", Stopped),
    (Filter(&DIGITS, "x", Bad), b"i1", Wrong(Division, 2)),
];

#[test]
fn nodes_that_hold_no_strategy(rt: HostRuntime) {
    for (row, (drawn, spelled, want)) in SIMPLE.iter().enumerate() {
        expect(&rt, row, comes_to(rt.alloc(), drawn, spelled, *want));
    }
}

#[test]
fn nodes_over_others(rt: HostRuntime) {
    for (row, (drawn, spelled, want)) in MADE.iter().enumerate() {
        expect(&rt, row, comes_to(rt.alloc(), drawn, spelled, *want));
    }
}

#[test]
fn a_filter_draws_three_times(rt: HostRuntime) {
    for (row, (drawn, spelled, want)) in FILTERED.iter().enumerate() {
        expect(&rt, row, comes_to(rt.alloc(), drawn, spelled, *want));
    }
}
