//! Parts of the manual's suite, each with its line and its columns.

ghost use Rattle.std.specs.Prelude.{◌≡◌, IsTrue, IfOk, map, [], ◌∷◌};
ghost use Rattle.pt_val.specs.Name.{is_name};
ghost use Rattle.pt_ast.specs.Trees.{Num, Var, Call_of, Compare_of, Sum_of, Prod_of, exprs_of, tail_of, tails_of};
ghost use Rattle.pt_ast.specs.Plain.{plain_expr, plain_tails};
ghost use Rattle.tests_suites.specs.Manual.{place, ident_at};

use pt_ast::{CompareOp, Expr, Exprs, Func, Ident, Op, Tail, Tails};
use pt_choice::NoMemory;
use pt_val::{Name, Place};
use std::alloc::Global;

pub(crate) fn at(line: u32, column: u32) -> Place
    ensures { result ≡ place line column }
{
    Place { line, column }
}

pub(crate) fn ident(alloc: Global, line: u32, column: u32, text: &str) -> Result<Ident, NoMemory>
    requires { IsTrue (is_name text.now) }
    ensures { IfOk result (λ ident. ident ≡ ident_at line column text.now) }
{
    let name = name(alloc, text)?;
    Ok(Ident {
        at: at(line, column),
        name,
    })
}

fn name(alloc: Global, text: &str) -> Result<Name, NoMemory>
    requires { IsTrue (is_name text.now) }
    ensures { IfOk result (λ name. name ≡ text.now) }
{
    match Name::of(alloc, text) {
        Ok(name) => Ok(name),
        Err(_) => Err(NoMemory),
    }
}

pub(crate) fn num(line: u32, column: u32, number: i64) -> Expr
    ensures { plain_expr result ≡ Num (place line column) number }
{
    Expr::num(at(line, column), number)
}

pub(crate) fn var(alloc: Global, line: u32, column: u32, text: &str) -> Result<Expr, NoMemory>
    requires { IsTrue (is_name text.now) }
    ensures { IfOk result (λ e. plain_expr e ≡ Var (place line column) text.now) }
{
    let name = name(alloc, text)?;
    Ok(Expr::var(at(line, column), name))
}

pub(crate) fn call(
    alloc: Global,
    line: u32,
    column: u32,
    func: Func,
    part: Expr,
) -> Result<Expr, NoMemory>
    ensures { IfOk result (λ e. plain_expr e ≡ Call_of (place line column) func (exprs_of (plain_expr part ∷ []))) }
{
    let mut parts = Exprs::empty(alloc);
    parts.push(part)?;
    Ok(Expr::call(at(line, column), func, parts))
}

pub(crate) fn compare(
    alloc: Global,
    line: u32,
    column: u32,
    left: Expr,
    op: CompareOp,
    right: Expr,
) -> Result<Expr, NoMemory>
    ensures { IfOk result (λ e. plain_expr e ≡ Compare_of (place line column) (plain_expr left) op (plain_expr right)) }
{
    let left = Box::new(alloc, left)?;
    let right = Box::new(alloc, right)?;
    Ok(Expr::compare(at(line, column), left, op, right))
}

/// A sum or a difference of two, with the column of its sign.
pub(crate) fn sum(
    alloc: Global,
    line: u32,
    column: u32,
    left: Expr,
    sign_column: u32,
    op: Op,
    right: Expr,
) -> Result<Expr, NoMemory>
    ensures { IfOk result (λ e. plain_expr e ≡
        Sum_of (place line column) (plain_expr left) (tails_of (tail_of (place line sign_column) op (plain_expr right) ∷ []))) }
{
    let left = Box::new(alloc, left)?;
    let tails = tail(alloc, at(line, sign_column), op, right)?;
    Ok(Expr::sum(at(line, column), left, tails))
}

/// A product or a rest of two, with the column of its sign.
pub(crate) fn prod(
    alloc: Global,
    line: u32,
    column: u32,
    left: Expr,
    sign_column: u32,
    op: Op,
    right: Expr,
) -> Result<Expr, NoMemory>
    ensures { IfOk result (λ e. plain_expr e ≡
        Prod_of (place line column) (plain_expr left) (tails_of (tail_of (place line sign_column) op (plain_expr right) ∷ []))) }
{
    let left = Box::new(alloc, left)?;
    let tails = tail(alloc, at(line, sign_column), op, right)?;
    Ok(Expr::prod(at(line, column), left, tails))
}

fn tail(alloc: Global, at: Place, op: Op, right: Expr) -> Result<Tails, NoMemory>
    ensures { IfOk result (λ tails. plain_tails tails ≡ tails_of (tail_of at op (plain_expr right) ∷ [])) }
{
    let mut tails = Tails::empty(alloc);
    tails.push(Tail::of(at, op, right))?;
    Ok(tails)
}
