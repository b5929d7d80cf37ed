//! What expressions cost: each is evaluated where exactly 20,000 is spent, and where it is one more.

use crate::evaluates::Wanted::{self, Fault, Value};
use crate::evaluates::comes_to;
use crate::expect::expect;
use crate::plain::Plain;
use crate::sample::Sample::{
    self, All, And, Any, Bracket, Bytes, Call, Compare, Each, Flag, If, List, Neg, Not, Num, Or,
    Post, Prod, Sum, Text, Tuple, Var,
};
use crate::sample::Taken::{Index, Part};
use crate::sample::{After, at, made, name};
use pt_ast::CompareOp::{Eq, Lt};
use pt_ast::Func::{Has, Label, Labels, Leaf, Len, Node, Rev};
use pt_ast::Op::{Add, Div, Mul, Sub};
use pt_ast::{Expr, Exprs};
use pt_case::What::{Cost, Division};
use pt_choice::{NoMemory, Seq};
use pt_eval::{Env, EvalStop, eval};
use pt_val::{Val, Vals};
use std::alloc::Global;

/// Expressions of numbers with what they cost, which is the value's 1 and its size, and what the parts cost.
const COSTS: [(Sample, u32); 24] = [
    (Num(7), 2),
    (Sum(&Num(1), &[After(3, Add, Num(2))]), 6),
    (
        Sum(&Num(1), &[After(3, Add, Num(2)), After(7, Sub, Num(3))]),
        10,
    ),
    (Prod(&Num(2), &[After(3, Mul, Num(2))]), 6),
    (Neg(1, &Bracket(&Num(7))), 6),
    (Bracket(&Num(7)), 4),
    (Var("x"), 2),
    (If(&[Flag(true), Num(1), List(&[Num(1), Num(2)])]), 6),
    (If(&[Flag(false), List(&[Num(1), Num(2)]), Num(1)]), 6),
    (If(&[Not(&Flag(true)), Num(1), Num(2)]), 8),
    (If(&[Compare(Lt, &[Num(1), Num(2)]), Num(1), Num(2)]), 10),
    (
        If(&[And(&[Flag(true), Flag(true), Flag(true)]), Num(1), Num(2)]),
        14,
    ),
    (
        If(&[And(&[Flag(true), Flag(false), Flag(true)]), Num(1), Num(2)]),
        10,
    ),
    (If(&[Or(&[Flag(true), Flag(true)]), Num(1), Num(2)]), 6),
    (If(&[Or(&[Flag(false), Flag(true)]), Num(1), Num(2)]), 10),
    (Call(1, Len, &[List(&[Num(1), Num(2), Num(3)])]), 13),
    (Call(1, Len, &[Text(&['a', 'b'])]), 6),
    (Call(1, Len, &[Call(1, Rev, &[Bytes(&[1, 2])])]), 10),
    (
        Call(
            1,
            Label,
            &[Call(1, Node, &[Num(1), List(&[Call(1, Leaf, &[Num(2)])])])],
        ),
        14,
    ),
    (
        Call(1, Len, &[Call(1, Labels, &[Call(1, Leaf, &[Num(2)])])]),
        9,
    ),
    (
        If(&[Call(1, Has, &[List(&[Num(1)]), Num(1)]), Num(1), Num(2)]),
        13,
    ),
    (Post(&List(&[Num(4), Num(5)]), &[Index(1, Num(1))]), 12),
    (Post(&Tuple(&[Num(4), Num(5)]), &[Part(1)]), 10),
    (
        Call(1, Len, &[Each("z", &[List(&[Num(4), Num(5)]), Var("z")])]),
        18,
    ),
];

const LENGTH: Sample = Call(1, Len, &[Var("a")]);

/// `(len(a), SAMPLE)`, which costs 8 and the length of `a` more than the expression of a number alone.
fn beside(alloc: Global, sample: &Sample) -> Result<Expr, NoMemory> {
    let mut parts = Exprs::empty(alloc);
    parts.push(made(alloc, &LENGTH)?)?;
    parts.push(made(alloc, sample)?)?;
    Ok(Expr::tuple(at(1), parts))
}

/// A list of so many numbers under the name `a`, and 1 under the name `x`.
fn with_list(alloc: Global, length: u32) -> Result<Env, NoMemory> {
    let mut numbers: Vals = Seq::empty(alloc);
    for _ in 0..length {
        numbers.push(Val::Int(0))?;
    }
    let mut env = Env::empty(alloc);
    env.bind(name(alloc, "a")?, Val::List(numbers))?;
    env.bind(name(alloc, "x")?, Val::Int(1))?;
    Ok(env)
}

fn is_within(alloc: Global, sample: Sample, length: u32) -> Result<bool, NoMemory> {
    match eval(alloc, &beside(alloc, &sample)?, &with_list(alloc, length)?) {
        Ok(_) => Ok(true),
        Err(EvalStop::Fault(_)) => Ok(false),
        Err(EvalStop::NoMemory) => Err(NoMemory),
    }
}

/// Whether the expression costs so much and no more: with so long a list it may be evaluated, and with one longer not.
fn has_cost(alloc: Global, sample: Sample, cost: u32) -> Result<bool, NoMemory> {
    if cost > 19_000 {
        return Ok(false);
    }
    let length = 19_992 - cost;
    Ok(is_within(alloc, sample, length)? && !is_within(alloc, sample, length + 1)?)
}

#[test]
fn each_expression_costs_what_its_parts_do(rt: HostRuntime) {
    for (row, (sample, cost)) in COSTS.iter().enumerate() {
        expect(&rt, row, has_cost(rt.alloc(), *sample, *cost));
    }
}

/// The value of `big` in the manual: a list of 10 numbers by itself four times over.
const BIG: Sample = Each(
    "x",
    &[
        Var("a"),
        Each("y", &[Var("a"), Each("z", &[Var("a"), Var("a")])]),
    ],
);

const TOO_DEAR: [Sample; 3] = [
    BIG,
    Sum(&Num(1), &[After(3, Add, BIG)]),
    Sum(
        &BIG,
        &[After(3, Add, Prod(&Num(1), &[After(5, Div, Num(0))]))],
    ),
];

fn is_too_dear(alloc: Global, sample: Sample) -> Result<bool, NoMemory> {
    let env = with_list(alloc, 10)?;
    comes_to(alloc, &made(alloc, &sample)?, &env, Fault(Cost, 1))
}

#[test]
fn an_expression_may_cost_too_much(rt: HostRuntime) {
    for (row, sample) in TOO_DEAR.iter().enumerate() {
        expect(&rt, row, is_too_dear(rt.alloc(), *sample));
    }
}

/// A fault before the expression is too dear is answered, and so is a value that stops before that.
const STOPPED: [(Sample, Wanted); 3] = [
    (
        Sum(
            &Prod(&Num(1), &[After(5, Div, Num(0))]),
            &[After(9, Add, BIG)],
        ),
        Fault(Division, 5),
    ),
    (
        Any("z", &[Var("a"), Compare(Eq, &[Var("z"), Num(0)])]),
        Value(Plain::Bool(true)),
    ),
    (
        All("z", &[Var("a"), Compare(Eq, &[Var("z"), BIG])]),
        Fault(Cost, 1),
    ),
];

fn is_stopped(alloc: Global, sample: Sample, wanted: Wanted) -> Result<bool, NoMemory> {
    comes_to(
        alloc,
        &made(alloc, &sample)?,
        &with_list(alloc, 10)?,
        wanted,
    )
}

#[test]
fn the_first_fault_goes_before_the_cost_of_what_follows(rt: HostRuntime) {
    for (row, (sample, wanted)) in STOPPED.iter().enumerate() {
        expect(&rt, row, is_stopped(rt.alloc(), *sample, *wanted));
    }
}
