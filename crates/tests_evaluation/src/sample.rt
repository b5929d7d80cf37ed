//! Expressions as tables write them.

use crate::sample::Sample::{
    All, And, Any, Bracket, Bytes, Call, Compare, Each, Flag, If, List, Neg, Not, Num, Or, Post,
    Prod, Sum, Text, Tuple, Var,
};
use pt_ast::{Binder, CompareOp, Expr, Exprs, Func, Ident, Op, PostTail, PostTails, Tail, Tails};
use pt_choice::{NoMemory, Octets};
use pt_val::{Chars, Name, NameStop, Place};
use std::alloc::Global;

/// An expression as plain data. A number before its parts is the column at which its fault would be.
#[derive(Clone, Copy)]
#[cycle(shapes)]
pub enum Sample {
    Num(i64),
    Flag(bool),
    Text(&'static [char]),
    Bytes(&'static [u8]),
    Var(&'static str),
    If(&'static [Sample; 3]),
    Or(&'static [Sample]),
    And(&'static [Sample]),
    Not(&'static Sample),
    Compare(CompareOp, &'static [Sample; 2]),
    Sum(&'static Sample, &'static [After]),
    Prod(&'static Sample, &'static [After]),
    Neg(u32, &'static Sample),
    Post(&'static Sample, &'static [Taken]),
    Call(u32, Func, &'static [Sample]),
    All(&'static str, &'static [Sample; 2]),
    Any(&'static str, &'static [Sample; 2]),
    Each(&'static str, &'static [Sample; 2]),
    Bracket(&'static Sample),
    Tuple(&'static [Sample]),
    List(&'static [Sample]),
}

/// An operator, with what stands on its right.
#[derive(Clone, Copy)]
#[cycle(shapes)]
pub struct After(pub u32, pub Op, pub Sample);

/// What is taken of a value.
#[derive(Clone, Copy)]
#[cycle(shapes)]
pub enum Taken {
    Index(u32, Sample),
    Part(i64),
}

pub fn at(column: u32) -> Place {
    Place { line: 1, column }
}

pub fn name(alloc: Global, text: &str) -> Result<Name, NoMemory> {
    match Name::of(alloc, text) {
        Ok(name) => Ok(name),
        Err(NameStop::NotAName | NameStop::NoMemory) => Err(NoMemory),
    }
}

/// The expression, at column 1.
#[cycle(sample)]
pub fn made(alloc: Global, sample: &Sample) -> Result<Expr, NoMemory> {
    match sample {
        Num(number) => Ok(Expr::num(at(1), *number)),
        Flag(truth) => Ok(Expr::flag(at(1), *truth)),
        Text(chars) => Ok(Expr::text(at(1), Chars::of(alloc, chars)?)),
        Bytes(bytes) => Ok(Expr::bytes(at(1), Octets::of(alloc, bytes)?)),
        Var(text) => Ok(Expr::var(at(1), name(alloc, text)?)),
        If([test, first, other]) => Ok(Expr::if_else(
            at(1),
            boxed(alloc, test)?,
            boxed(alloc, first)?,
            boxed(alloc, other)?,
        )),
        Or(parts) => Ok(Expr::or(at(1), all(alloc, parts)?)),
        And(parts) => Ok(Expr::and(at(1), all(alloc, parts)?)),
        Not(part) => Ok(Expr::not(at(1), boxed(alloc, part)?)),
        Compare(op, [left, right]) => {
            let left = boxed(alloc, left)?;
            Ok(Expr::compare(at(1), left, *op, boxed(alloc, right)?))
        }
        Sum(first, tails) => {
            let first = boxed(alloc, first)?;
            Ok(Expr::sum(at(1), first, tails_of(alloc, tails)?))
        }
        Prod(first, tails) => {
            let first = boxed(alloc, first)?;
            Ok(Expr::prod(at(1), first, tails_of(alloc, tails)?))
        }
        Neg(column, part) => Ok(Expr::neg(at(*column), boxed(alloc, part)?)),
        Post(base, taken) => {
            let base = boxed(alloc, base)?;
            Ok(Expr::post(at(1), base, posts_of(alloc, taken)?))
        }
        Call(column, func, parts) => Ok(Expr::call(at(*column), *func, all(alloc, parts)?)),
        All(given, parts) => bind(alloc, parts, Binder::All, given),
        Any(given, parts) => bind(alloc, parts, Binder::Any, given),
        Each(given, parts) => bind(alloc, parts, Binder::Each, given),
        Bracket(part) => Ok(Expr::bracket(at(1), boxed(alloc, part)?)),
        Tuple(parts) => Ok(Expr::tuple(at(1), all(alloc, parts)?)),
        List(parts) => Ok(Expr::list(at(1), all(alloc, parts)?)),
    }
}

#[cycle(sample)]
fn boxed(alloc: Global, sample: &Sample) -> Result<Box<Expr>, NoMemory> {
    Ok(Box::new(alloc, made(alloc, sample)?)?)
}

#[cycle(sample)]
fn all(alloc: Global, samples: &[Sample]) -> Result<Exprs, NoMemory> {
    let mut exprs = Exprs::empty(alloc);
    for sample in samples {
        exprs.push(made(alloc, sample)?)?;
    }
    Ok(exprs)
}

#[cycle(sample)]
fn tails_of(alloc: Global, samples: &[After]) -> Result<Tails, NoMemory> {
    let mut tails = Tails::empty(alloc);
    for After(column, op, sample) in samples {
        let right = made(alloc, sample)?;
        tails.push(Tail::of(at(*column), *op, right))?;
    }
    Ok(tails)
}

#[cycle(sample)]
fn posts_of(alloc: Global, taken: &[Taken]) -> Result<PostTails, NoMemory> {
    let mut posts = PostTails::empty(alloc);
    for one in taken {
        posts.push(post_tail(alloc, one)?)?;
    }
    Ok(posts)
}

#[cycle(sample)]
fn post_tail(alloc: Global, taken: &Taken) -> Result<PostTail, NoMemory> {
    match taken {
        Taken::Index(column, sample) => Ok(PostTail::Index {
            at: at(*column),
            index: made(alloc, sample)?,
        }),
        Taken::Part(part) => Ok(PostTail::Part {
            at: at(1),
            part: *part,
        }),
    }
}

#[cycle(sample)]
fn bind(alloc: Global, parts: &[Sample; 2], binder: Binder, given: &str) -> Result<Expr, NoMemory> {
    let [list, body] = parts;
    let given = Ident {
        at: at(1),
        name: name(alloc, given)?,
    };
    let list = boxed(alloc, list)?;
    let body = boxed(alloc, body)?;
    Ok(Expr::bind(at(1), binder, given, list, body))
}
