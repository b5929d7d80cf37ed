//! Statements of a line.

ghost use Rattle.std.specs.Prelude.{◌≡◌, ◌≤◌, IfOk};
ghost use Rattle.pt_ast.specs.Plain.{plain_stmt};
ghost use Rattle.pt_made.specs.Parts.{draw_int, draw_list, assume_x, assert_x, assert_false};

use crate::exprs::{compare_x, ints, lists, named};
use crate::places::right;
use pt_ast::{CompareOp, Expr, Stmt, StmtKind};
use pt_choice::NoMemory;
use pt_val::Place;
use std::alloc::Global;

/// `draw x = ints(0, GREATEST);`
pub(crate) fn draw_int(alloc: Global, at: Place, num: u32, greatest: u32) -> Result<Stmt, NoMemory>
    requires { at.column ≤ 400 }
    ensures { IfOk result (λ stmt. plain_stmt stmt ≡ draw_int at num greatest) }
{
    let given = named(alloc, right(at, 5), b"x")?;
    let strat = ints(right(at, 9), num, greatest);
    let kind = StmtKind::Draw(given, strat);
    Ok(Stmt { at, kind })
}

/// `draw xs = lists(ints(0, 9), 2, 5);`
pub(crate) fn draw_list(alloc: Global, at: Place, num: u32) -> Result<Stmt, NoMemory>
    requires here { at.column ≤ 400 }
    requires few { num ≤ 300 }
    ensures { IfOk result (λ stmt. plain_stmt stmt ≡ draw_list at num) }
{
    let given = named(alloc, right(at, 5), b"xs")?;
    let strat = lists(alloc, right(at, 10), num)?;
    let kind = StmtKind::Draw(given, strat);
    Ok(Stmt { at, kind })
}

/// `assume x OP NUMBER;`
pub(crate) fn assume_x(
    alloc: Global,
    at: Place,
    op: CompareOp,
    behind: u32,
    number: u32,
) -> Result<Stmt, NoMemory>
    requires here { at.column ≤ 400 }
    requires near { behind ≤ 1000 }
    ensures { IfOk result (λ stmt. plain_stmt stmt ≡ assume_x at op behind number) }
{
    let cond = compare_x(alloc, right(at, 7), op, behind, number)?;
    let kind = StmtKind::Assume(cond);
    Ok(Stmt { at, kind })
}

/// `assert x OP NUMBER;`
pub(crate) fn assert_x(
    alloc: Global,
    at: Place,
    op: CompareOp,
    behind: u32,
    number: u32,
) -> Result<Stmt, NoMemory>
    requires here { at.column ≤ 400 }
    requires near { behind ≤ 1000 }
    ensures { IfOk result (λ stmt. plain_stmt stmt ≡ assert_x at op behind number) }
{
    let cond = compare_x(alloc, right(at, 7), op, behind, number)?;
    let kind = StmtKind::Assert(cond);
    Ok(Stmt { at, kind })
}

/// `assert false;`
pub(crate) fn assert_false(at: Place) -> Stmt
    requires { at.column ≤ 400 }
    ensures { plain_stmt result ≡ assert_false at }
{
    let kind = StmtKind::Assert(Expr::flag(right(at, 7), false));
    Stmt { at, kind }
}
