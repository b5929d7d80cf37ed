//! Suites of a mebibyte whose types double, or nest, with each line.

use crate::expect::expect;
use crate::whole::{HERE, name, runs_into};
use pt_ast::{Expr, Exprs, Ident, Stmt, StmtKind, Stmts};
use pt_choice::NoMemory;
use pt_val::Name;
use std::alloc::Global;

/// Lines such as `let a = (b, b);` of 17 bytes are so many in a mebibyte.
const LINES: u32 = 60_000;

/// What stands on the right of each line.
#[derive(Clone, Copy)]
enum Growth {
    Doubled,
    Nested,
}

/// The name of a line.
fn line_name(alloc: Global, line: u32) -> Result<Name, NoMemory> {
    let text = format!(in alloc; "v{line}")?;
    name(alloc, &text)
}

fn value(alloc: Global, growth: Growth, line: u32) -> Result<Expr, NoMemory> {
    if line == 0 {
        return Ok(Expr::num(HERE, 1));
    }
    let mut parts = Exprs::empty(alloc);
    parts.push(Expr::var(HERE, line_name(alloc, line - 1)?))?;
    match growth {
        Growth::Doubled => {
            parts.push(Expr::var(HERE, line_name(alloc, line - 1)?))?;
            Ok(Expr::tuple(HERE, parts))
        }
        Growth::Nested => Ok(Expr::list(HERE, parts)),
    }
}

fn let_line(alloc: Global, growth: Growth, line: u32) -> Result<Stmt, NoMemory> {
    let value = value(alloc, growth, line)?;
    let given = Ident {
        at: HERE,
        name: line_name(alloc, line)?,
    };
    Ok(Stmt {
        at: HERE,
        kind: StmtKind::Let(given, value),
    })
}

fn lines(alloc: Global, growth: Growth) -> Result<Stmts, NoMemory> {
    let mut stmts = Stmts::empty(alloc);
    for line in 0..LINES {
        stmts.push(let_line(alloc, growth, line)?)?;
    }
    Ok(stmts)
}

fn is_long_and_typed(alloc: Global, growth: Growth) -> Result<bool, NoMemory> {
    runs_into(alloc, lines(alloc, growth)?, Ok(()))
}

#[test]
fn a_type_may_double_with_each_line(rt: HostRuntime) {
    expect(&rt, 0, is_long_and_typed(rt.alloc(), Growth::Doubled));
}

#[test]
fn a_type_may_nest_with_each_line(rt: HostRuntime) {
    expect(&rt, 0, is_long_and_typed(rt.alloc(), Growth::Nested));
}
