//! Statements of the manual's suite, each with its line and its columns.

ghost use Rattle.std.specs.Prelude.{◌≡◌, IsTrue, IfOk, pos, codes};
ghost use Rattle.pt_val.specs.Name.{is_name};
ghost use Rattle.pt_ast.specs.Trees.{Num, Ints_of, Texts_of, Draw_of, Set_of, Assert_of};
ghost use Rattle.pt_ast.specs.Plain.{plain_expr, plain_stmt, plain_strat};
ghost use Rattle.tests_suites.specs.Manual.{place, ident_at};

use crate::manual::parts::{at, ident, num};
use pt_ast::{Alphabet, Expr, Stmt, StmtKind, Strat};
use pt_choice::NoMemory;
use pt_val::Chars;
use std::alloc::Global;

/// Integers between two bounds, each with its column.
pub(crate) fn ints(line: u32, column: u32, number: u32, lo: (u32, i64), hi: (u32, i64)) -> Strat
    ensures { plain_strat result ≡ Ints_of (place line column) number (Num (place line lo.0) lo.1) (Num (place line hi.0) hi.1) }
{
    Strat::ints(
        at(line, column),
        number,
        num(line, lo.0, lo.1),
        num(line, hi.0, hi.1),
    )
}

/// A name and the integers that it stands for, with the columns of the statement, of the name and of the strategy.
pub(crate) fn draw_ints(
    alloc: Global,
    line: u32,
    columns: (u32, u32, u32),
    text: &str,
    number: u32,
    lo: (u32, i64),
    hi: (u32, i64),
) -> Result<Stmt, NoMemory>
    requires { IsTrue (is_name text.now) }
    ensures { IfOk result (λ s. plain_stmt s ≡ Draw_of (place line columns.0) (ident_at line columns.1 text.now)
        (Ints_of (place line columns.2) number (Num (place line lo.0) lo.1) (Num (place line hi.0) hi.1))) }
{
    let name = ident(alloc, line, columns.1, text)?;
    Ok(Stmt {
        at: at(line, columns.0),
        kind: StmtKind::Draw(name, ints(line, columns.2, number, lo, hi)),
    })
}

/// `draw NAME = texts("abc", 0, 8);` with a name of one letter.
pub(crate) fn draw_text(alloc: Global, line: u32, text: &str, number: u32) -> Result<Stmt, NoMemory>
    requires { IsTrue (is_name text.now) }
    ensures { IfOk result (λ s. plain_stmt s ≡ Draw_of (place line 3) (ident_at line 8 text.now)
        (Texts_of (place line 12) number (record { at = place line 18; chars = codes "abc" }) (Num (place line 25) (pos 0)) (Num (place line 28) (pos 8)))) }
{
    let name = ident(alloc, line, 8, text)?;
    let chars = Chars::of(alloc, &['a', 'b', 'c'])?;
    let alphabet = Alphabet {
        at: at(line, 18),
        chars,
    };
    let strat = Strat::texts(
        at(line, 12),
        number,
        alphabet,
        num(line, 25, 0),
        num(line, 28, 8),
    );
    Ok(Stmt {
        at: at(line, 3),
        kind: StmtKind::Draw(name, strat),
    })
}

pub(crate) fn set_coins(alloc: Global, line: u32, value: Expr) -> Result<Stmt, NoMemory>
    ensures { IfOk result (λ s. plain_stmt s ≡ Set_of (place line 5) (ident_at line 9 (codes "coins")) (plain_expr value)) }
{
    let state = ident(alloc, line, 9, "coins")?;
    Ok(Stmt {
        at: at(line, 5),
        kind: StmtKind::Set(state, value),
    })
}

pub(crate) fn assert(line: u32, cond: Expr) -> Stmt
    ensures { plain_stmt result ≡ Assert_of (place line 3) (plain_expr cond) }
{
    Stmt {
        at: at(line, 3),
        kind: StmtKind::Assert(cond),
    }
}
