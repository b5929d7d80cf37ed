//! Operators at their edges.

use crate::evaluates::Wanted::{self, Fault, Value};
use crate::evaluates::is_evaluated;
use crate::expect::expect;
use crate::plain::Plain;
use crate::sample::After;
use crate::sample::Sample::{
    self, And, Bracket, Compare, Flag, If, List, Neg, Not, Num, Or, Prod, Sum, Text, Tuple,
};
use pt_ast::CompareOp::{Eq, Ge, Gt, Le, Lt, Ne};
use pt_ast::Op::{Add, Div, Mul, Rem, Sub};
use pt_case::What::{Division, Overflow};

const NUMBERS: [(Sample, Wanted); 27] = [
    (Sum(&Num(1), &[After(3, Add, Num(2))]), Value(Plain::Int(3))),
    (
        Sum(&Num(10), &[After(4, Sub, Num(3)), After(8, Sub, Num(2))]),
        Value(Plain::Int(5)),
    ),
    (
        Sum(&Num(i64::MAX), &[After(5, Add, Num(1))]),
        Fault(Overflow, 5),
    ),
    (
        Sum(
            &Num(i64::MAX),
            &[After(5, Add, Num(0)), After(9, Add, Num(1))],
        ),
        Fault(Overflow, 9),
    ),
    (
        Sum(
            &Num(i64::MAX),
            &[After(5, Add, Num(1)), After(9, Sub, Num(1))],
        ),
        Fault(Overflow, 5),
    ),
    (
        Sum(&Num(i64::MIN), &[After(5, Sub, Num(1))]),
        Fault(Overflow, 5),
    ),
    (
        Sum(&Num(0), &[After(5, Sub, Num(i64::MIN))]),
        Fault(Overflow, 5),
    ),
    (
        Sum(&Num(-1), &[After(5, Sub, Num(i64::MIN))]),
        Value(Plain::Int(i64::MAX)),
    ),
    (
        Prod(&Num(i64::MAX), &[After(5, Mul, Num(2))]),
        Fault(Overflow, 5),
    ),
    (
        Prod(&Num(i64::MIN), &[After(5, Mul, Num(-1))]),
        Fault(Overflow, 5),
    ),
    (
        Prod(&Num(i64::MIN), &[After(5, Mul, Num(1))]),
        Value(Plain::Int(i64::MIN)),
    ),
    (
        Prod(&Num(7), &[After(5, Div, Num(2))]),
        Value(Plain::Int(3)),
    ),
    (
        Prod(&Num(-7), &[After(5, Div, Num(2))]),
        Value(Plain::Int(-3)),
    ),
    (
        Prod(&Num(7), &[After(5, Div, Num(-2))]),
        Value(Plain::Int(-3)),
    ),
    (
        Prod(&Num(i64::MIN), &[After(5, Div, Num(-1))]),
        Fault(Overflow, 5),
    ),
    (Prod(&Num(1), &[After(5, Div, Num(0))]), Fault(Division, 5)),
    (
        Prod(&Num(7), &[After(5, Rem, Num(-2))]),
        Value(Plain::Int(1)),
    ),
    (
        Prod(&Num(-7), &[After(5, Rem, Num(2))]),
        Value(Plain::Int(-1)),
    ),
    (
        Prod(&Num(i64::MIN), &[After(5, Rem, Num(-1))]),
        Fault(Overflow, 5),
    ),
    (
        Prod(&Num(i64::MIN), &[After(5, Rem, Num(0))]),
        Fault(Division, 5),
    ),
    (
        Prod(&Num(2), &[After(3, Mul, Num(5)), After(7, Rem, Num(4))]),
        Value(Plain::Int(2)),
    ),
    (
        Prod(&Num(1), &[After(5, Div, Num(0)), After(9, Div, Num(0))]),
        Fault(Division, 5),
    ),
    (Neg(4, &Num(5)), Value(Plain::Int(-5))),
    (Neg(4, &Num(i64::MIN)), Fault(Overflow, 4)),
    (
        Neg(4, &Bracket(&Num(i64::MAX))),
        Value(Plain::Int(-i64::MAX)),
    ),
    (Bracket(&Num(9)), Value(Plain::Int(9))),
    (
        Sum(
            &Prod(&Num(1), &[After(3, Div, Num(0))]),
            &[After(7, Add, Prod(&Num(1), &[After(9, Div, Num(0))]))],
        ),
        Fault(Division, 3),
    ),
];

#[test]
fn numbers_are_reckoned_from_the_left(rt: HostRuntime) {
    for (row, (sample, wanted)) in NUMBERS.iter().enumerate() {
        expect(&rt, row, is_evaluated(rt.alloc(), &[], *sample, *wanted));
    }
}

/// `1 / 0 == 0`, which no row that stops before it comes to.
const FAULTY: Sample = Compare(Eq, &[Prod(&Num(1), &[After(30, Div, Num(0))]), Num(0)]);

const TRUTHS: [(Sample, Wanted); 34] = [
    (Not(&Flag(true)), Value(Plain::Bool(false))),
    (Not(&Flag(false)), Value(Plain::Bool(true))),
    (And(&[Flag(true), Flag(true)]), Value(Plain::Bool(true))),
    (
        And(&[Flag(true), Flag(false), FAULTY]),
        Value(Plain::Bool(false)),
    ),
    (And(&[Flag(false), FAULTY]), Value(Plain::Bool(false))),
    (And(&[Flag(true), FAULTY, Flag(false)]), Fault(Division, 30)),
    (Or(&[Flag(false), Flag(false)]), Value(Plain::Bool(false))),
    (
        Or(&[Flag(false), Flag(true), FAULTY]),
        Value(Plain::Bool(true)),
    ),
    (Or(&[Flag(true), FAULTY]), Value(Plain::Bool(true))),
    (Or(&[Flag(false), FAULTY]), Fault(Division, 30)),
    (If(&[Flag(true), Num(1), FAULTY]), Value(Plain::Int(1))),
    (If(&[Flag(false), FAULTY, Num(2)]), Value(Plain::Int(2))),
    (If(&[FAULTY, Num(1), Num(2)]), Fault(Division, 30)),
    (Compare(Lt, &[Num(1), Num(2)]), Value(Plain::Bool(true))),
    (Compare(Lt, &[Num(2), Num(2)]), Value(Plain::Bool(false))),
    (Compare(Le, &[Num(2), Num(2)]), Value(Plain::Bool(true))),
    (Compare(Le, &[Num(3), Num(2)]), Value(Plain::Bool(false))),
    (Compare(Gt, &[Num(3), Num(2)]), Value(Plain::Bool(true))),
    (Compare(Gt, &[Num(2), Num(2)]), Value(Plain::Bool(false))),
    (Compare(Ge, &[Num(2), Num(2)]), Value(Plain::Bool(true))),
    (Compare(Ge, &[Num(1), Num(2)]), Value(Plain::Bool(false))),
    (
        Compare(Eq, &[Num(i64::MIN), Num(i64::MIN)]),
        Value(Plain::Bool(true)),
    ),
    (Compare(Eq, &[Num(0), Num(1)]), Value(Plain::Bool(false))),
    (Compare(Ne, &[Num(0), Num(1)]), Value(Plain::Bool(true))),
    (
        Compare(Ne, &[Flag(true), Flag(true)]),
        Value(Plain::Bool(false)),
    ),
    (
        Compare(Eq, &[Flag(true), Flag(false)]),
        Value(Plain::Bool(false)),
    ),
    (
        Compare(Eq, &[Text(&['a']), Text(&['a'])]),
        Value(Plain::Bool(true)),
    ),
    (
        Compare(Eq, &[Text(&['a']), Text(&['a', 'b'])]),
        Value(Plain::Bool(false)),
    ),
    (
        Compare(Eq, &[Sample::Bytes(b"a"), Sample::Bytes(b"b")]),
        Value(Plain::Bool(false)),
    ),
    (
        Compare(Eq, &[List(&[Num(1), Num(2)]), List(&[Num(1), Num(2)])]),
        Value(Plain::Bool(true)),
    ),
    (
        Compare(Eq, &[List(&[Num(1), Num(2)]), List(&[Num(2), Num(1)])]),
        Value(Plain::Bool(false)),
    ),
    (
        Compare(
            Eq,
            &[Tuple(&[Num(1), Flag(true)]), Tuple(&[Num(1), Flag(true)])],
        ),
        Value(Plain::Bool(true)),
    ),
    (
        Compare(
            Ne,
            &[Tuple(&[Num(1), Flag(true)]), Tuple(&[Num(1), Flag(false)])],
        ),
        Value(Plain::Bool(true)),
    ),
    (
        Compare(Eq, &[Prod(&Num(1), &[After(9, Div, Num(0))]), FAULTY]),
        Fault(Division, 9),
    ),
];

#[test]
fn truth_values_stop_where_they_are_known(rt: HostRuntime) {
    for (row, (sample, wanted)) in TRUTHS.iter().enumerate() {
        expect(&rt, row, is_evaluated(rt.alloc(), &[], *sample, *wanted));
    }
}
