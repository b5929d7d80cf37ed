//! Expressions and strategies of a line.

ghost use Rattle.std.specs.Prelude.{◌≡◌, ◌<◌, ◌≤◌, ◌^◌, IfOk, IsTrue};
ghost use Rattle.pt_val.specs.Name.{is_name};
ghost use Rattle.pt_ast.specs.Plain.{plain_expr, plain_strat};
ghost use Rattle.pt_made.specs.Parts.{named, ints, lists, compare_x};

use crate::places::right;
use pt_ast::{CompareOp, Expr, Ident, Strat};
use pt_choice::NoMemory;
use pt_val::{Name, NameStop, Place};
use std::alloc::Global;

/// The name of these bytes.
pub(crate) fn name_of(alloc: Global, text: &[u8]) -> Result<Name, NoMemory>
    requires { IsTrue (is_name text.now) }
    ensures { IfOk result (λ name. name ≡ text.now) }
{
    match Name::of_bytes(alloc, text) {
        Ok(name) => Ok(name),
        Err(NameStop::NoMemory) => Err(NoMemory),
        Err(NameStop::NotAName) => unreachable!(),
    }
}

/// A name that stands there.
pub(crate) fn named(alloc: Global, at: Place, text: &[u8]) -> Result<Ident, NoMemory>
    requires { IsTrue (is_name text.now) }
    ensures { IfOk result (λ given. given ≡ named at text.now) }
{
    let name = name_of(alloc, text)?;
    Ok(Ident { at, name })
}

/// `ints(0, GREATEST)`
pub(crate) fn ints(at: Place, num: u32, greatest: u32) -> Strat
    requires { at.column ≤ 900 }
    ensures { plain_strat result ≡ ints at num greatest }
{
    let lo = Expr::num(right(at, 5), 0);
    let hi = Expr::num(right(at, 8), i64::from(greatest));
    Strat::ints(at, num, lo, hi)
}

/// `lists(ints(0, 9), 2, 5)`
pub(crate) fn lists(alloc: Global, at: Place, num: u32) -> Result<Strat, NoMemory>
    requires here { at.column ≤ 500 }
    requires few { num ≤ 300 }
    ensures { IfOk result (λ strat. plain_strat strat ≡ lists at num) }
{
    let element = Box::new(alloc, ints(right(at, 6), num + 1, 9))?;
    let lo = Expr::num(right(at, 18), 2);
    let hi = Expr::num(right(at, 21), 5);
    Ok(Strat::lists(at, num, element, lo, hi))
}

/// `x OP NUMBER`, where the number stands so many columns behind the `x`.
pub(crate) fn compare_x(
    alloc: Global,
    at: Place,
    op: CompareOp,
    behind: u32,
    number: u32,
) -> Result<Expr, NoMemory>
    requires here { at.column ≤ 1000 }
    requires near { behind ≤ 1000 }
    ensures { IfOk result (λ cond. plain_expr cond ≡ compare_x at op behind number) }
{
    let name = name_of(alloc, b"x")?;
    let left = Box::new(alloc, Expr::var(at, name))?;
    let right = Box::new(alloc, Expr::num(right(at, behind), i64::from(number)))?;
    Ok(Expr::compare(at, left, op, right))
}
