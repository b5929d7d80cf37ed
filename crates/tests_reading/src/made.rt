//! Made suites, which are the suites that the reader makes of their texts.

use crate::expect::expect;
use pt_ast::{Body, Expr, ExprKind, Ident, Item, Stmt, StmtKind, Strat, StratKind};
use pt_choice::NoMemory;
use pt_made::made_suite;
use pt_parse::read_suite;
use std::alloc::Global;

/// The k-th line, as it is written.
fn line(alloc: Global, seed: u64, k: u32) -> Result<String, NoMemory> {
    let limit = 1 + (seed % 900 + u64::from(k)) % 900;
    let line = match k % 4 {
        0 => format!(in alloc; "property p{k} {{ draw x = ints(0, 9); assert x >= 0; }}\n")?,
        1 => format!(in alloc;
            "property p{k} {{ draw xs = lists(ints(0, 9), 2, 5); assert false; }}\n"
        )?,
        2 => format!(in alloc; "property p{k} runs 10 {{ draw x = ints(0, 9); assume x > 9; }}\n")?,
        _ => format!(in alloc;
            "property p{k} {{ draw x = ints(0, 1000); assert x < {limit}; }}\n"
        )?,
    };
    Ok(line)
}

fn text(alloc: Global, seed: u64, count: u32) -> Result<String, NoMemory> {
    let mut text = String::new(alloc);
    for k in 0..count {
        text.push_str(line(alloc, seed, k)?.as_str())?;
    }
    Ok(text)
}

fn is_same_name(one: &Ident, other: &Ident) -> bool {
    one.at == other.at && one.name == other.name
}

fn is_same_leaf(one: &Expr, other: &Expr) -> bool {
    let same = match (&one.kind, &other.kind) {
        (ExprKind::Num(number), ExprKind::Num(wanted)) => number == wanted,
        (ExprKind::Flag(truth), ExprKind::Flag(wanted)) => truth == wanted,
        (ExprKind::Var(name), ExprKind::Var(wanted)) => name == wanted,
        _ => false,
    };
    same && one.at == other.at
}

fn is_same_expr(one: &Expr, other: &Expr) -> bool {
    match (&one.kind, &other.kind) {
        (ExprKind::Compare(left, op, right), ExprKind::Compare(first, which, second)) => {
            one.at == other.at
                && op == which
                && is_same_leaf(left, first)
                && is_same_leaf(right, second)
        }
        _ => is_same_leaf(one, other),
    }
}

fn is_same_ints(one: &Strat, other: &Strat) -> bool {
    match (&one.kind, &other.kind) {
        (StratKind::Ints(lo, hi), StratKind::Ints(least, most)) => {
            one.at == other.at
                && one.num == other.num
                && is_same_leaf(lo, least)
                && is_same_leaf(hi, most)
        }
        _ => false,
    }
}

fn is_same_strat(one: &Strat, other: &Strat) -> bool {
    match (&one.kind, &other.kind) {
        (StratKind::Lists(inner, lo, hi), StratKind::Lists(element, least, most)) => {
            one.at == other.at
                && one.num == other.num
                && is_same_ints(inner, element)
                && is_same_leaf(lo, least)
                && is_same_leaf(hi, most)
        }
        _ => is_same_ints(one, other),
    }
}

fn is_same_stmt(one: &Stmt, other: &Stmt) -> bool {
    let same = match (&one.kind, &other.kind) {
        (StmtKind::Draw(given, strat), StmtKind::Draw(name, wanted)) => {
            is_same_name(given, name) && is_same_strat(strat, wanted)
        }
        (StmtKind::Assume(cond), StmtKind::Assume(wanted)) => is_same_expr(cond, wanted),
        (StmtKind::Assert(cond), StmtKind::Assert(wanted)) => is_same_expr(cond, wanted),
        _ => false,
    };
    same && one.at == other.at
}

fn are_same_stmts(some: &[Stmt], others: &[Stmt]) -> bool {
    match (some, others) {
        ([draw, check], [drawn, checked]) => {
            is_same_stmt(draw, drawn) && is_same_stmt(check, checked)
        }
        _ => false,
    }
}

fn is_same_item(one: &Item, other: &Item) -> bool {
    let same = match (&one.body, &other.body) {
        (Body::Property(stmts), Body::Property(wanted)) => {
            are_same_stmts(stmts.as_slice(), wanted.as_slice())
        }
        _ => false,
    };
    same && one.at == other.at
        && is_same_name(&one.name, &other.name)
        && one.settings == other.settings
}

fn are_same_items(some: &[Item], others: &[Item]) -> bool {
    for (one, other) in some.iter().zip(others) {
        if !is_same_item(one, other) {
            return false;
        }
    }
    some.len() == others.len()
}

/// Whether the suite that is made is the one that is read.
fn is_read(alloc: Global, seed: u64, count: u32) -> Result<bool, NoMemory> {
    let text = text(alloc, seed, count)?;
    let bytes = text.as_bytes();
    if bytes.len() > 1_048_576 || count > 200 {
        return Ok(false);
    }
    let made = made_suite(alloc, seed, count)?;
    match read_suite(alloc, bytes) {
        Ok(read) => Ok(are_same_items(made.items(), read.items.as_slice())),
        Err(_) => Ok(false),
    }
}

const MADE: [(u64, u32); 5] = [(5, 3), (1, 1), (7, 200), (u64::MAX, 5), (899, 8)];

#[test]
fn a_made_suite_is_the_one_that_its_text_reads_as(rt: HostRuntime) {
    for (row, (seed, count)) in MADE.iter().enumerate() {
        expect(&rt, row, is_read(rt.alloc(), *seed, *count));
    }
}
