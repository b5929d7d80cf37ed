//! Functions, binders, indexes and parts at their edges.

use crate::evaluates::Wanted::{self, Fault, Value};
use crate::evaluates::{Names, is_evaluated};
use crate::expect::expect;
use crate::plain::Plain::{self, Bool, Int, Node as Tree};
use crate::sample::After;
use crate::sample::Sample::{
    self, All, Any, Bytes, Call, Compare, Each, Flag, List, Num, Post, Prod, Sum as Chain, Text,
    Tuple, Var,
};
use crate::sample::Taken::{Index as Item, Part};
use pt_ast::CompareOp::{Eq, Lt};
use pt_ast::Func::{Cat, Has, Kids, Label, Labels, Leaf, Len, Node, Rev, Sum};
use pt_ast::Op::{Add, Div};
use pt_case::What::{Division, Index, Overflow};

/// A list, and a tree of three levels.
const NAMES: Names = &[
    ("xs", Plain::List(&[Int(4), Int(5), Int(6)])),
    (
        "t",
        Tree(8, &[Tree(-5, &[Tree(3, &[]), Tree(2, &[])]), Tree(4, &[])]),
    ),
];

const XS: Sample = Var("xs");

const T: Sample = Var("t");

const CALLS: [(Sample, Wanted); 33] = [
    (Call(2, Len, &[XS]), Value(Int(3))),
    (Call(2, Len, &[Text(&['a', '\u{e9}'])]), Value(Int(2))),
    (Call(2, Len, &[Bytes(&[0x00, 0xff])]), Value(Int(2))),
    (Call(2, Len, &[Text(&[])]), Value(Int(0))),
    (Call(2, Has, &[XS, Num(6)]), Value(Bool(true))),
    (Call(2, Has, &[XS, Num(7)]), Value(Bool(false))),
    (
        Call(2, Has, &[List(&[List(&[Num(1)])]), List(&[Num(1)])]),
        Value(Bool(true)),
    ),
    (Call(2, Sum, &[XS]), Value(Int(15))),
    (Call(2, Sum, &[Each("x", &[XS, Num(0)])]), Value(Int(0))),
    (
        Call(2, Sum, &[List(&[Num(i64::MAX), Num(1), Num(-1)])]),
        Fault(Overflow, 2),
    ),
    (
        Call(2, Sum, &[List(&[Num(i64::MAX), Num(-1), Num(1)])]),
        Value(Int(i64::MAX)),
    ),
    (
        Call(2, Cat, &[XS, List(&[Num(7)])]),
        Value(Plain::List(&[Int(4), Int(5), Int(6), Int(7)])),
    ),
    (
        Call(2, Cat, &[Text(&['a']), Text(&['b', 'c'])]),
        Value(Plain::Text(&['a', 'b', 'c'])),
    ),
    (
        Call(2, Cat, &[Bytes(&[1]), Bytes(&[2, 3])]),
        Value(Plain::Bytes(&[1, 2, 3])),
    ),
    (
        Call(2, Rev, &[XS]),
        Value(Plain::List(&[Int(6), Int(5), Int(4)])),
    ),
    (
        Call(2, Rev, &[Text(&['a', '\u{e9}', 'c'])]),
        Value(Plain::Text(&['c', '\u{e9}', 'a'])),
    ),
    (
        Call(2, Rev, &[Bytes(&[1, 2, 3])]),
        Value(Plain::Bytes(&[3, 2, 1])),
    ),
    (Call(2, Leaf, &[Num(3)]), Value(Tree(3, &[]))),
    (
        Call(
            2,
            Node,
            &[
                Num(5),
                List(&[Call(9, Leaf, &[Num(3)]), Call(9, Leaf, &[Num(4)])]),
            ],
        ),
        Value(Tree(5, &[Tree(3, &[]), Tree(4, &[])])),
    ),
    (Call(2, Label, &[T]), Value(Int(8))),
    (
        Call(2, Kids, &[T]),
        Value(Plain::List(&[Tree(-5, &[Tree(3, &[]), Tree(2, &[])]), Tree(4, &[])])),
    ),
    (
        Call(2, Kids, &[Call(9, Leaf, &[Num(3)])]),
        Value(Plain::List(&[])),
    ),
    (
        Call(2, Labels, &[T]),
        Value(Plain::List(&[Int(8), Int(-5), Int(3), Int(2), Int(4)])),
    ),
    (
        Call(2, Labels, &[Call(9, Leaf, &[Num(3)])]),
        Value(Plain::List(&[Int(3)])),
    ),
    (
        All("x", &[XS, Compare(Lt, &[Num(3), Var("x")])]),
        Value(Bool(true)),
    ),
    (
        All("x", &[XS, Compare(Lt, &[Num(4), Var("x")])]),
        Value(Bool(false)),
    ),
    (
        Any("x", &[XS, Compare(Lt, &[Num(5), Var("x")])]),
        Value(Bool(true)),
    ),
    (
        Any("x", &[XS, Compare(Lt, &[Num(6), Var("x")])]),
        Value(Bool(false)),
    ),
    (
        All(
            "x",
            &[Call(9, Kids, &[Call(9, Leaf, &[Num(3)])]), Flag(false)],
        ),
        Value(Bool(true)),
    ),
    (
        Each(
            "x",
            &[
                XS,
                Each(
                    "y",
                    &[
                        List(&[Num(0), Num(1)]),
                        Chain(&Var("x"), &[After(3, Add, Var("y"))]),
                    ],
                ),
            ],
        ),
        Value(Plain::List(&[
            Plain::List(&[Int(4), Int(5)]),
            Plain::List(&[Int(5), Int(6)]),
            Plain::List(&[Int(6), Int(7)]),
        ])),
    ),
    (
        Any(
            "x",
            &[
                List(&[Num(1), Num(0)]),
                Compare(Eq, &[Prod(&Num(1), &[After(7, Div, Var("x"))]), Num(1)]),
            ],
        ),
        Value(Bool(true)),
    ),
    (
        Any(
            "x",
            &[
                List(&[Num(0), Num(1)]),
                Compare(Eq, &[Prod(&Num(1), &[After(7, Div, Var("x"))]), Num(1)]),
            ],
        ),
        Fault(Division, 7),
    ),
    (
        Tuple(&[Each("x", &[XS, Num(0)]), Each("x", &[XS, Var("x")])]),
        Value(Plain::Tuple(&[
            Plain::List(&[Int(0), Int(0), Int(0)]),
            Plain::List(&[Int(4), Int(5), Int(6)]),
        ])),
    ),
];

#[test]
fn functions_and_binders_are_right_at_their_edges(rt: HostRuntime) {
    for (row, (sample, wanted)) in CALLS.iter().enumerate() {
        expect(&rt, row, is_evaluated(rt.alloc(), NAMES, *sample, *wanted));
    }
}

const TAKEN: [(Sample, Wanted); 11] = [
    (Post(&XS, &[Item(3, Num(0))]), Value(Int(4))),
    (Post(&XS, &[Item(3, Num(2))]), Value(Int(6))),
    (Post(&XS, &[Item(3, Num(3))]), Fault(Index, 3)),
    (Post(&XS, &[Item(3, Num(-1))]), Fault(Index, 3)),
    (Post(&XS, &[Item(3, Num(i64::MIN))]), Fault(Index, 3)),
    (
        Post(&List(&[Num(1), Num(2)]), &[Item(7, Num(2))]),
        Fault(Index, 7),
    ),
    (Post(&Bytes(&[7, 255]), &[Item(3, Num(1))]), Value(Int(255))),
    (Post(&Bytes(&[7, 255]), &[Item(3, Num(2))]), Fault(Index, 3)),
    (
        Post(&Tuple(&[Num(1), Flag(true)]), &[Part(1)]),
        Value(Bool(true)),
    ),
    (
        Post(
            &Tuple(&[List(&[Num(1), Num(2)]), Flag(true)]),
            &[Part(0), Item(9, Num(1))],
        ),
        Value(Int(2)),
    ),
    (
        Post(
            &List(&[List(&[Num(1)])]),
            &[
                Item(3, Num(1)),
                Item(6, Prod(&Num(1), &[After(8, Div, Num(0))])),
            ],
        ),
        Fault(Index, 3),
    ),
];

#[test]
fn indexes_and_parts_are_counted_from_zero(rt: HostRuntime) {
    for (row, (sample, wanted)) in TAKEN.iter().enumerate() {
        expect(&rt, row, is_evaluated(rt.alloc(), NAMES, *sample, *wanted));
    }
}
