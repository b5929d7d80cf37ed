ghost use Rattle.std.specs.Prelude.{◌≡◌, Ok, OnOk};
ghost use Rattle.pt_ast.specs.Types.{Tuple_type};
ghost use Rattle.pt_typing.specs.Steps.{made_of};
ghost use Rattle.pt_ast.specs.Trees.{Call_of, List_of, more_post, no_post, place_of};
ghost use Rattle.pt_ast.specs.Names.{IsFree, with_name};
ghost use Rattle.pt_ast.specs.Plain.{plain_expr, plain_exprs, plain_tails, plain_post, plain_posts};
ghost use Rattle.pt_typing.specs.Served.{left_side, bound_type};
ghost use Rattle.pt_typing.specs.ExprChecks.{needs, takes, checked, all_of, each_of, numbers, reached};
ghost use Rattle.pt_check.specs.Bases.{base_type};
ghost use Rattle.pt_check.specs.Known.{top, holding, released, replaced};
ghost use Rattle.pt_check.specs.Says.{Says};

use crate::TypeFault;
use crate::base::Base;
use crate::checker::Checker;
use crate::functions::{
    be_side, give_alone, give_both, make_bound, make_tuple, need_second, takes_one,
};
use pt_ast::{Binder, CompareOp, Expr, ExprKind, Func, Ident, PostTail, Tail};
use pt_val::Place;

/// Holds the type of an expression.
#[cycle(check)]
pub(crate) fn check<'a>(e: &'a Expr, checker: &mut Checker<'a>) -> Result<(), TypeFault>
    ensures says { Says (checked checker.old.scope (plain_expr e.now)) (top checker.new) result }
    ensures holds { OnOk result (checker.new ≡ holding checker.old (top checker.new)) }
{
    match &e.kind {
        ExprKind::Num(_) => {
            checker.hold(Base::Int)?;
            Ok(())
        }
        ExprKind::Text(_) => {
            checker.hold(Base::Text)?;
            Ok(())
        }
        ExprKind::Bytes(_) => {
            checker.hold(Base::Bytes)?;
            Ok(())
        }
        ExprKind::Flag(_) => {
            checker.hold(Base::Bool)?;
            Ok(())
        }
        ExprKind::Var(name) => checker.hold_variable(e.at, name),
        ExprKind::If(test, first, other) => {
            check_base(test, Base::Bool, checker)?;
            check(first, checker)?;
            check_needed(other, checker)?;
            Ok(())
        }
        ExprKind::Or(parts) => {
            checker.hold(Base::Bool)?;
            check_all(parts.as_slice(), checker)?;
            Ok(())
        }
        ExprKind::And(parts) => {
            checker.hold(Base::Bool)?;
            check_all(parts.as_slice(), checker)?;
            Ok(())
        }
        ExprKind::Not(part) => {
            checker.hold(Base::Bool)?;
            check_needed(part, checker)?;
            Ok(())
        }
        ExprKind::Compare(left, op, right) => {
            check_side(left, *op, checker)?;
            check_needed(right, checker)?;
            checker.release();
            checker.hold(Base::Bool)?;
            Ok(())
        }
        ExprKind::Sum(first, tails) => {
            check_base(first, Base::Int, checker)?;
            check_tails(tails.as_slice(), checker)?;
            checker.hold(Base::Int)?;
            Ok(())
        }
        ExprKind::Prod(first, tails) => {
            check_base(first, Base::Int, checker)?;
            check_tails(tails.as_slice(), checker)?;
            checker.hold(Base::Int)?;
            Ok(())
        }
        ExprKind::Neg(part) => {
            checker.hold(Base::Int)?;
            check_needed(part, checker)?;
            Ok(())
        }
        ExprKind::Post(base, posts) => {
            check(base, checker)?;
            check_posts(posts.as_slice(), base.at, checker)
        }
        ExprKind::Call(func, parts) => check_call(e.at, *func, parts.as_slice(), checker),
        ExprKind::Bind(binder, given, list, body) => {
            checker.free(given)?;
            check(list, checker)?;
            checker.take_member(list.at)?;
            check_body(body, *binder, given, checker)
        }
        ExprKind::Bracket(part) => check(part, checker),
        ExprKind::Tuple(parts) => check_each(parts.as_slice(), checker),
        ExprKind::List(parts) => check_list(e.at, parts.as_slice(), checker),
    }
}

/// An expression has to be of the newest type.
#[cycle(check)]
pub(crate) fn check_needed<'a>(e: &'a Expr, checker: &mut Checker<'a>) -> Result<(), TypeFault>
    ensures says { Says (needs (top checker.old) (place_of (plain_expr e.now)) (checked checker.old.scope (plain_expr e.now))) tt result }
    ensures same { OnOk result (checker.new ≡ checker.old) }
{
    check(e, checker)?;
    checker.fit(e.at)?;
    Ok(())
}

/// An expression has to be of a type that holds no others.
#[cycle(check)]
pub(crate) fn check_base<'a>(
    e: &'a Expr,
    base: Base,
    checker: &mut Checker<'a>,
) -> Result<(), TypeFault>
    ensures says { Says (needs (base_type base) (place_of (plain_expr e.now)) (checked checker.old.scope (plain_expr e.now))) tt result }
    ensures same { OnOk result (checker.new ≡ checker.old) }
{
    checker.hold(base)?;
    check_needed(e, checker)?;
    checker.release();
    Ok(())
}

/// Each of the expressions has to be of the newest type.
#[cycle(check)]
fn check_all<'a>(parts: &'a [Expr], checker: &mut Checker<'a>) -> Result<(), TypeFault>
    ensures says { Says (all_of checker.old.scope (top checker.old) (plain_exprs parts.now)) tt result }
    ensures same { OnOk result (checker.new ≡ checker.old) }
{
    for part in parts {
        check_needed(part, checker)?;
    }
    Ok(())
}

/// What stands on the right of the operators has to be numbers.
#[cycle(check)]
fn check_tails<'a>(tails: &'a [Tail], checker: &mut Checker<'a>) -> Result<(), TypeFault>
    ensures says { Says (numbers checker.old.scope (plain_tails tails.now)) tt result }
    ensures same { OnOk result (checker.new ≡ checker.old) }
{
    for tail in tails {
        check_base(&tail.right, Base::Int, checker)?;
    }
    Ok(())
}

/// Holds the type of the left side of a comparison.
#[cycle(check)]
fn check_side<'a>(left: &'a Expr, op: CompareOp, checker: &mut Checker<'a>) -> Result<(), TypeFault>
    ensures says { Says (takes (left_side op) (place_of (plain_expr left.now)) (checked checker.old.scope (plain_expr left.now))) (top checker.new) result }
    ensures holds { OnOk result (checker.new ≡ holding checker.old (top checker.new)) }
{
    check(left, checker)?;
    be_side(op, left.at, checker)?;
    Ok(())
}

/// Holds what the indexes and parts lead to, from the newest type, which begins at the place.
#[cycle(check)]
fn check_posts<'a>(
    posts: &'a [PostTail],
    at: Place,
    checker: &mut Checker<'a>,
) -> Result<(), TypeFault>
    requires { checker.old ≡ replaced checker.old (top checker.old) }
    ensures says { Says (reached checker.old.scope at (top checker.old) (plain_posts posts.now)) (top checker.new) result }
    ensures holds { OnOk result (checker.new ≡ replaced checker.old (top checker.new)) }
{
    for post in posts {
        check_post(post, at, checker)?;
    }
    Ok(())
}

/// Holds what an index or a part takes in place of the newest type, which begins at the place.
#[cycle(check)]
fn check_post<'a>(post: &'a PostTail, at: Place, checker: &mut Checker<'a>) -> Result<(), TypeFault>
    ensures says { Says (reached checker.old.scope at (top checker.old) (more_post (plain_post post.now) no_post)) (top checker.new) result }
    ensures holds { OnOk result (checker.new ≡ replaced checker.old (top checker.new)) }
{
    match post {
        PostTail::Index { at: _, index } => {
            checker.take_indexed(at)?;
            check_base(index, Base::Int, checker)?;
        }
        PostTail::Part { at: place, part } => checker.take_part(at, *place, *part)?,
    }
    Ok(())
}

/// A call of a function.
#[cycle(check)]
fn check_call<'a>(
    at: Place,
    func: Func,
    parts: &'a [Expr],
    checker: &mut Checker<'a>,
) -> Result<(), TypeFault>
    ensures says { Says (checked checker.old.scope (Call_of at func (plain_exprs parts.now))) (top checker.new) result }
    ensures holds { OnOk result (checker.new ≡ holding checker.old (top checker.new)) }
{
    if takes_one(func) {
        if parts.len() != 1 {
            return Err(TypeFault::Wrong(at));
        }
        let only = &parts[0];
        check(only, checker)?;
        give_alone(func, only.at, checker)?;
    } else {
        if parts.len() != 2 {
            return Err(TypeFault::Wrong(at));
        }
        let first = &parts[0];
        let second = &parts[1];
        check(first, checker)?;
        need_second(func, first.at, checker)?;
        check_needed(second, checker)?;
        give_both(func, checker)?;
    }
    Ok(())
}

/// What a binder makes of an expression in which the name is a member of the newest type.
#[cycle(check)]
fn check_body<'a>(
    body: &'a Expr,
    binder: Binder,
    given: &'a Ident,
    checker: &mut Checker<'a>,
) -> Result<(), TypeFault>
    requires { IsFree checker.old.scope given.now }
    ensures says { Says (takes (bound_type binder) (place_of (plain_expr body.now)) (checked (with_name checker.old.scope given.now (top checker.old)) (plain_expr body.now)))
        (top checker.new) result }
    ensures holds { OnOk result (checker.new ≡ replaced checker.old (top checker.new)) }
{
    let outer = checker.names();
    checker.bind(given)?;
    check(body, checker)?;
    checker.cut(outer);
    make_bound(binder, body.at, checker)?;
    Ok(())
}

/// The types of expressions, one by one: holds their tuple's.
#[cycle(check)]
fn check_each<'a>(parts: &'a [Expr], checker: &mut Checker<'a>) -> Result<(), TypeFault>
    ensures says { Says (made_of Tuple_type (each_of checker.old.scope (plain_exprs parts.now))) (top checker.new) result }
    ensures holds { OnOk result (checker.new ≡ holding checker.old (top checker.new)) }
{
    for part in parts {
        check(part, checker)?;
    }
    make_tuple(parts.len(), checker)?;
    Ok(())
}

/// A list: the later members have to be of the type of the first.
#[cycle(check)]
fn check_list<'a>(at: Place, parts: &'a [Expr], checker: &mut Checker<'a>) -> Result<(), TypeFault>
    ensures says { Says (checked checker.old.scope (List_of at (plain_exprs parts.now))) (top checker.new) result }
    ensures holds { OnOk result (checker.new ≡ holding checker.old (top checker.new)) }
{
    if parts.is_empty() {
        return Err(TypeFault::Wrong(at));
    }
    let first = &parts[0];
    check(first, checker)?;
    for place in 1..parts.len() {
        check_needed(&parts[place], checker)?;
    }
    checker.make_list()?;
    Ok(())
}
