//! Expressions from their parts, which move to where the tree holds them.

ghost use Rattle.std.specs.Prelude.{◌≡◌, IfOk, map};
ghost use Rattle.pt_ast.specs.Trees.{If_of, Not_of, Compare_of, Neg_of, Bind_of, Bracket_of};
ghost use Rattle.pt_ast.specs.Plain.{plain_expr, plain_post, plain_tail};
ghost use Rattle.pt_grammar.specs.ExprReading.{sum_tree, product_tree, post_tree};

use pt_ast::{Binder, CompareOp, Expr, Ident, PostTails, Tails};
use pt_choice::NoMemory;
use pt_val::Place;
use std::alloc::Global;

pub(crate) fn if_else(
    alloc: Global,
    at: Place,
    test: Expr,
    first: Expr,
    other: Expr,
) -> Result<Expr, NoMemory>
    ensures { IfOk result (λ e. plain_expr e ≡ If_of at (plain_expr test) (plain_expr first) (plain_expr other)) }
{
    let test = Box::new(alloc, test)?;
    let first = Box::new(alloc, first)?;
    let other = Box::new(alloc, other)?;
    Ok(Expr::if_else(at, test, first, other))
}

pub(crate) fn not(alloc: Global, at: Place, part: Expr) -> Result<Expr, NoMemory>
    ensures { IfOk result (λ e. plain_expr e ≡ Not_of at (plain_expr part)) }
{
    Ok(Expr::not(at, Box::new(alloc, part)?))
}

pub(crate) fn compare(
    alloc: Global,
    at: Place,
    left: Expr,
    op: CompareOp,
    right: Expr,
) -> Result<Expr, NoMemory>
    ensures { IfOk result (λ e. plain_expr e ≡ Compare_of at (plain_expr left) op (plain_expr right)) }
{
    let left = Box::new(alloc, left)?;
    let right = Box::new(alloc, right)?;
    Ok(Expr::compare(at, left, op, right))
}

/// The first operand alone, or the sum that it begins.
pub(crate) fn sum(alloc: Global, at: Place, first: Expr, tails: Tails) -> Result<Expr, NoMemory>
    ensures { IfOk result (λ e. plain_expr e ≡ sum_tree at (plain_expr first) (map plain_tail tails)) }
{
    if tails.len() == 0 {
        return Ok(first);
    }
    Ok(Expr::sum(at, Box::new(alloc, first)?, tails))
}

/// The first operand alone, or the product that it begins.
pub(crate) fn product(alloc: Global, at: Place, first: Expr, tails: Tails) -> Result<Expr, NoMemory>
    ensures { IfOk result (λ e. plain_expr e ≡ product_tree at (plain_expr first) (map plain_tail tails)) }
{
    if tails.len() == 0 {
        return Ok(first);
    }
    Ok(Expr::prod(at, Box::new(alloc, first)?, tails))
}

pub(crate) fn negation(alloc: Global, at: Place, part: Expr) -> Result<Expr, NoMemory>
    ensures { IfOk result (λ e. plain_expr e ≡ Neg_of at (plain_expr part)) }
{
    Ok(Expr::neg(at, Box::new(alloc, part)?))
}

/// What stands by itself alone, or with the indexes and parts behind it.
pub(crate) fn post(alloc: Global, at: Place, base: Expr, posts: PostTails) -> Result<Expr, NoMemory>
    ensures { IfOk result (λ e. plain_expr e ≡ post_tree at (plain_expr base) (map plain_post posts)) }
{
    if posts.len() == 0 {
        return Ok(base);
    }
    Ok(Expr::post(at, Box::new(alloc, base)?, posts))
}

pub(crate) fn bind(
    alloc: Global,
    at: Place,
    binder: Binder,
    given: Ident,
    list: Expr,
    body: Expr,
) -> Result<Expr, NoMemory>
    ensures { IfOk result (λ e. plain_expr e ≡ Bind_of at binder given (plain_expr list) (plain_expr body)) }
{
    let list = Box::new(alloc, list)?;
    let body = Box::new(alloc, body)?;
    Ok(Expr::bind(at, binder, given, list, body))
}

pub(crate) fn bracket(alloc: Global, at: Place, part: Expr) -> Result<Expr, NoMemory>
    ensures { IfOk result (λ e. plain_expr e ≡ Bracket_of at (plain_expr part)) }
{
    Ok(Expr::bracket(at, Box::new(alloc, part)?))
}
