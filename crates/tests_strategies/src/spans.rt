//! The spans of each node, as worked by hand.

use crate::derived::{Part, makes};
use crate::expect::expect;
use crate::plain::Drawn::{
    self, Blobs, Bools, Filter, FlatMap, Ints, Lists, Map, OneOf, Sampled, Texts, Tuples,
};
use crate::plain::Plain::{Is, Num, Nums, Plus, Var};

type Row = (Drawn, &'static [u8], &'static [Part]);

const DIGITS: Drawn = Ints(Num(0), Num(9));

const SPANS: [Row; 15] = [
    (DIGITS, b"i4", &[(32, 0, 1, None)]),
    (Bools, b"bt", &[(32, 0, 1, None)]),
    (Texts(&['a'], Num(0), Num(4)), b"t0", &[(32, 0, 1, None)]),
    (Blobs(Num(0), Num(4)), b"x07", &[(32, 0, 1, None)]),
    (Sampled(Nums(&[10, 20])), b"i1", &[(32, 0, 1, None)]),
    (Ints(Num(1), Num(0)), b"i4", &[(32, 0, 0, None)]),
    (
        Lists(&DIGITS, Num(0), Num(3)),
        b"bt i4 bf",
        &[
            (32, 0, 3, None),
            (33, 0, 2, Some(0)),
            (34, 1, 2, Some(1)),
            (33, 2, 3, Some(0)),
        ],
    ),
    (
        Lists(&DIGITS, Num(1), Num(1)),
        b"i4",
        &[(32, 0, 1, None), (33, 0, 1, Some(0)), (34, 0, 1, Some(1))],
    ),
    (
        Tuples(&[DIGITS, Bools]),
        b"i1 bt",
        &[(32, 0, 2, None), (34, 0, 1, Some(0)), (36, 1, 2, Some(0))],
    ),
    (
        OneOf(&[DIGITS, Bools]),
        b"i1 bt",
        &[(32, 0, 2, None), (36, 1, 2, Some(0))],
    ),
    (
        Map(&DIGITS, "x", Plus("x", 1)),
        b"i1",
        &[(32, 0, 1, None), (34, 0, 1, Some(0))],
    ),
    (
        Filter(&DIGITS, "x", Is("x", 4)),
        b"i1 i4",
        &[
            (32, 0, 2, None),
            (33, 0, 1, Some(0)),
            (34, 0, 1, Some(1)),
            (33, 1, 2, Some(0)),
            (34, 1, 2, Some(3)),
        ],
    ),
    (
        FlatMap(&DIGITS, "x", &Ints(Num(0), Var("x"))),
        b"i3 i2",
        &[(32, 0, 2, None), (34, 0, 1, Some(0)), (36, 1, 2, Some(0))],
    ),
    (
        Tuples(&[DIGITS, Bools]),
        b"i1",
        &[(32, 0, 1, None), (34, 0, 1, Some(0)), (36, 1, 1, Some(0))],
    ),
    (
        Filter(&DIGITS, "x", Is("x", 4)),
        b"-",
        &[(32, 0, 0, None), (33, 0, 0, Some(0)), (34, 0, 0, Some(1))],
    ),
];

#[test]
fn each_node_has_its_spans(rt: HostRuntime) {
    for (row, (drawn, spelled, parts)) in SPANS.iter().enumerate() {
        expect(&rt, row, makes(rt.alloc(), drawn, spelled, parts));
    }
}
