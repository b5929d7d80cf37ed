//! Strategies as tables write them.

use pt_ast::{Alphabet, CompareOp, Expr, Exprs, Ident, Op, Strat, StratKind, Strats, Tail, Tails};
use pt_choice::NoMemory;
use pt_val::{Chars, Name, NameStop, Place};
use std::alloc::Global;

/// An expression as plain data. The names stand for themselves.
#[derive(Clone, Copy)]
pub enum Plain {
    Num(i64),
    Var(&'static str),
    /// Whether the name has this number.
    Is(&'static str, i64),
    /// Whether the name's number is below this one.
    Below(&'static str, i64),
    /// A list of numbers.
    Nums(&'static [i64]),
    /// The name's number and this one.
    Plus(&'static str, i64),
    /// What is never evaluated: a division by 0.
    Bad,
    /// Whether a hundred divided by the name's number is below this one, which faults where that is 0.
    ShareBelow(&'static str, i64),
}

/// A strategy as plain data, which is numbered from 0 on in the order in which it is written.
#[derive(Clone, Copy)]
#[cycle(drawn)]
pub enum Drawn {
    Ints(Plain, Plain),
    Bools,
    Texts(&'static [char], Plain, Plain),
    Blobs(Plain, Plain),
    Sampled(Plain),
    Lists(&'static Drawn, Plain, Plain),
    Tuples(&'static [Drawn]),
    OneOf(&'static [Drawn]),
    Map(&'static Drawn, &'static str, Plain),
    Filter(&'static Drawn, &'static str, Plain),
    FlatMap(&'static Drawn, &'static str, &'static Drawn),
    Recursive(u32, &'static Drawn, &'static Drawn),
    Again,
}

/// The place of a strategy's first token; an expression's line is 2.
pub fn at(line: u32) -> Place {
    Place { line, column: 1 }
}

pub fn name(alloc: Global, text: &str) -> Result<Name, NoMemory> {
    match Name::of(alloc, text) {
        Ok(name) => Ok(name),
        Err(NameStop::NotAName | NameStop::NoMemory) => Err(NoMemory),
    }
}

pub fn ident(alloc: Global, text: &str) -> Result<Ident, NoMemory> {
    Ok(Ident {
        at: at(1),
        name: name(alloc, text)?,
    })
}

fn boxed_expr(alloc: Global, expr: Expr) -> Result<Box<Expr>, NoMemory> {
    Ok(Box::new(alloc, expr)?)
}

fn var(alloc: Global, text: &str) -> Result<Box<Expr>, NoMemory> {
    boxed_expr(alloc, Expr::var(at(2), name(alloc, text)?))
}

fn nums(alloc: Global, numbers: &[i64]) -> Result<Expr, NoMemory> {
    let mut exprs = Exprs::empty(alloc);
    for number in numbers {
        exprs.push(Expr::num(at(2), *number))?;
    }
    Ok(Expr::list(at(2), exprs))
}

fn one_tail(alloc: Global, op: Op, number: i64) -> Result<Tails, NoMemory> {
    let mut tails = Tails::empty(alloc);
    tails.push(Tail::of(at(2), op, Expr::num(at(2), number)))?;
    Ok(tails)
}

fn share_below(alloc: Global, text: &str, number: i64) -> Result<Expr, NoMemory> {
    let mut tails = Tails::empty(alloc);
    tails.push(Tail::of(at(2), Op::Div, Expr::var(at(2), name(alloc, text)?)))?;
    let hundred = boxed_expr(alloc, Expr::num(at(2), 100))?;
    let share = boxed_expr(alloc, Expr::prod(at(2), hundred, tails))?;
    let right = boxed_expr(alloc, Expr::num(at(2), number))?;
    Ok(Expr::compare(at(2), share, CompareOp::Lt, right))
}

fn compare(alloc: Global, text: &str, op: CompareOp, number: i64) -> Result<Expr, NoMemory> {
    let right = boxed_expr(alloc, Expr::num(at(2), number))?;
    Ok(Expr::compare(at(2), var(alloc, text)?, op, right))
}

pub fn expr(alloc: Global, plain: Plain) -> Result<Expr, NoMemory> {
    match plain {
        Plain::Num(number) => Ok(Expr::num(at(2), number)),
        Plain::Var(text) => Ok(Expr::var(at(2), name(alloc, text)?)),
        Plain::Is(text, number) => compare(alloc, text, CompareOp::Eq, number),
        Plain::Below(text, number) => compare(alloc, text, CompareOp::Lt, number),
        Plain::Nums(numbers) => nums(alloc, numbers),
        Plain::Plus(text, number) => {
            Ok(Expr::sum(at(2), var(alloc, text)?, one_tail(alloc, Op::Add, number)?))
        }
        Plain::Bad => {
            let one = boxed_expr(alloc, Expr::num(at(2), 1))?;
            Ok(Expr::prod(at(2), one, one_tail(alloc, Op::Div, 0)?))
        }
        Plain::ShareBelow(text, number) => share_below(alloc, text, number),
    }
}

/// The strategy, on line 1, where its number is the next.
#[cycle(made)]
pub fn made(alloc: Global, drawn: &Drawn, next: &mut u32) -> Result<Strat, NoMemory> {
    let num = *next;
    let kind = kind(alloc, drawn, next)?;
    Ok(Strat {
        at: at(1),
        num,
        kind,
    })
}

#[cycle(made)]
fn kind(alloc: Global, drawn: &Drawn, next: &mut u32) -> Result<StratKind, NoMemory> {
    if let Drawn::Again = drawn {
        return Ok(StratKind::Again);
    }
    *next = next.wrapping_add(1);
    match drawn {
        Drawn::Ints(lo, hi) => Ok(StratKind::Ints(expr(alloc, *lo)?, expr(alloc, *hi)?)),
        Drawn::Texts(chars, lo, hi) => Ok(StratKind::Texts(
            alphabet(alloc, chars)?,
            expr(alloc, *lo)?,
            expr(alloc, *hi)?,
        )),
        Drawn::Blobs(lo, hi) => Ok(StratKind::Blobs(expr(alloc, *lo)?, expr(alloc, *hi)?)),
        Drawn::Sampled(list) => Ok(StratKind::SampledFrom(expr(alloc, *list)?)),
        Drawn::Lists(element, lo, hi) => Ok(StratKind::Lists(
            boxed(alloc, element, next)?,
            expr(alloc, *lo)?,
            expr(alloc, *hi)?,
        )),
        Drawn::Tuples(parts) => Ok(StratKind::Tuples(all(alloc, parts, next)?)),
        Drawn::OneOf(parts) => Ok(StratKind::OneOf(all(alloc, parts, next)?)),
        Drawn::Map(inner, given, body) => Ok(StratKind::Map(
            ident(alloc, given)?,
            boxed(alloc, inner, next)?,
            expr(alloc, *body)?,
        )),
        Drawn::Filter(inner, given, cond) => Ok(StratKind::Filter(
            ident(alloc, given)?,
            boxed(alloc, inner, next)?,
            expr(alloc, *cond)?,
        )),
        Drawn::FlatMap(inner, given, second) => Ok(StratKind::FlatMap(
            ident(alloc, given)?,
            boxed(alloc, inner, next)?,
            boxed(alloc, second, next)?,
        )),
        Drawn::Recursive(depth, first, second) => Ok(StratKind::Recursive(
            *depth,
            boxed(alloc, first, next)?,
            boxed(alloc, second, next)?,
        )),
        Drawn::Bools | Drawn::Again => Ok(StratKind::Bools),
    }
}

fn alphabet(alloc: Global, chars: &[char]) -> Result<Alphabet, NoMemory> {
    Ok(Alphabet {
        at: at(1),
        chars: Chars::of(alloc, chars)?,
    })
}

#[cycle(made)]
fn boxed(alloc: Global, drawn: &Drawn, next: &mut u32) -> Result<Box<Strat>, NoMemory> {
    Ok(Box::new(alloc, made(alloc, drawn, next)?)?)
}

#[cycle(made)]
fn all(alloc: Global, drawn: &[Drawn], next: &mut u32) -> Result<Strats, NoMemory> {
    let mut strats = Strats::empty(alloc);
    for part in drawn {
        strats.push(made(alloc, part, next)?)?;
    }
    Ok(strats)
}
