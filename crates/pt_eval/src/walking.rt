ghost use Rattle.std.specs.Prelude.{◌≡◌, ◌+◌, ◌++◌, take, length, Result, Ok, IfOk};
ghost use Rattle.pt_val.specs.declared.val.Val.{Val};
ghost use Rattle.pt_val.specs.Size.{size_of};
ghost use Rattle.pt_case.specs.declared.ending.Origin.{Origin};
ghost use Rattle.pt_ast.specs.Plain.{plain_expr, plain_exprs, plain_tail, plain_tails, plain_post, plain_posts};
ghost use Rattle.pt_eval.specs.Env.{value_in};
ghost use Rattle.pt_eval.specs.Parts.{or_zero, members_of};
ghost use Rattle.pt_eval.specs.Steps.{after, counted, each_gives, each_costs, seek_gives, seek_costs};
ghost use Rattle.pt_eval.specs.Calls.{call_value};
ghost use Rattle.pt_eval.specs.Value.{value_of, values_of, sought_value, tail_value, chain_value, post_value, posts_value, bind_value, cost_of, costs_of, sought_cost, tail_cost, chain_cost, post_cost, posts_cost, bind_cost};
ghost use Rattle.pt_eval.specs.Evaluates.{Evaluates};
ghost use Rattle.pt_eval.specs.Spends.{Spends};
ghost use Rattle.pt_eval.specs.Seen.{seen, shown};

use crate::applying::{apply, negate};
use crate::calling::{call_one, call_two};
use crate::comparing::compare;
use crate::env::newest;
use crate::indexing::{index, part};
use crate::reading::into_members;
use crate::seen::Seen;
use crate::stop::WalkStop;
use crate::{Env, EvalStop, number, truth};
use pt_ast::{Binder, Expr, ExprKind, Func, PostTail, Tail};
use pt_choice::{NoMemory, Seq};
use pt_val::{Name, Place, Val, Vals, size};
use std::alloc::Global;

/// The value of an expression, for as much as may be spent.
///
/// The names in scope are those of `env` and then the locals, which are as before at the end.
#[cycle(walk)]
pub(crate) fn walk(
    alloc: Global,
    e: &Expr,
    env: &Env,
    locals: &mut Env,
    left: &mut u32,
) -> Result<Val, WalkStop>
    ensures spends { Spends (value_of (plain_expr e.now) (env.now ++ locals.old)) (cost_of (plain_expr e.now) (env.now ++ locals.old)) left.old left.new result }
    ensures locals { locals.new ≡ locals.old }
{
    match &e.kind {
        ExprKind::Num(number) => pay(Val::Int(*number), left),
        ExprKind::Text(chars) => pay(Val::Text(chars.copy()?), left),
        ExprKind::Bytes(bytes) => pay(Val::Bytes(bytes.copy()?), left),
        ExprKind::Flag(truth) => pay(Val::Bool(*truth), left),
        ExprKind::Var(name) => pay(look_up(name, env, locals)?.taken()?, left),
        ExprKind::If(test, first, other) => {
            let test = walk(alloc, test, env, locals, left)?;
            let val = if truth(&test) {
                walk(alloc, first, env, locals, left)?
            } else {
                walk(alloc, other, env, locals, left)?
            };
            pay(val, left)
        }
        ExprKind::Or(parts) => seek_part(alloc, parts.as_slice(), true, env, locals, left),
        ExprKind::And(parts) => seek_part(alloc, parts.as_slice(), false, env, locals, left),
        ExprKind::Not(part) => {
            let val = walk(alloc, part, env, locals, left)?;
            pay(Val::Bool(!truth(&val)), left)
        }
        ExprKind::Compare(one, op, other) => {
            let one = see(alloc, one, env, locals, left)?;
            let other = see(alloc, other, env, locals, left)?;
            pay(Val::Bool(compare(*op, one.val(), other.val())), left)
        }
        ExprKind::Sum(first, tails) => {
            let first = walk(alloc, first, env, locals, left)?;
            walk_tails(alloc, tails.as_slice(), first, env, locals, left)
        }
        ExprKind::Prod(first, tails) => {
            let first = walk(alloc, first, env, locals, left)?;
            walk_tails(alloc, tails.as_slice(), first, env, locals, left)
        }
        ExprKind::Neg(part) => {
            let val = walk(alloc, part, env, locals, left)?;
            pay_made(negate(e.at, number(&val)), left)
        }
        ExprKind::Post(base, posts) => {
            let base = see(alloc, base, env, locals, left)?;
            let val = see_posts(alloc, posts.as_slice(), base, env, locals, left)?;
            Ok(val.taken()?)
        }
        ExprKind::Call(func, parts) => walk_call(
            alloc,
            parts.as_slice(),
            *func,
            e.at,
            env,
            locals,
            left,
        ),
        ExprKind::Bind(binder, given, list, body) => {
            let list = walk(alloc, list, env, locals, left)?;
            let val = walk_bind(alloc, body, *binder, &given.name, list, env, locals, left)?;
            pay(val, left)
        }
        ExprKind::Bracket(part) => {
            let val = walk(alloc, part, env, locals, left)?;
            pay(val, left)
        }
        ExprKind::Tuple(parts) => {
            let values = walk_all(alloc, parts.as_slice(), env, locals, left)?;
            pay(Val::Tuple(values), left)
        }
        ExprKind::List(parts) => {
            let values = walk_all(alloc, parts.as_slice(), env, locals, left)?;
            pay(Val::List(values), left)
        }
    }
}

/// The value of an expression that is only looked at: that of a name of `env`, or of what it holds, stays where it is.
#[cycle(walk)]
fn see<'a>(
    alloc: Global,
    e: &Expr,
    env: &'a Env,
    locals: &mut Env,
    left: &mut u32,
) -> Result<Seen<'a>, WalkStop>
    ensures spends { Spends (value_of (plain_expr e.now) (env.now ++ locals.old)) (cost_of (plain_expr e.now) (env.now ++ locals.old)) left.old left.new (shown result) }
    ensures locals { locals.new ≡ locals.old }
{
    match &e.kind {
        ExprKind::Var(name) => pay_seen(look_up(name, env, locals)?, left),
        ExprKind::Post(base, posts) => {
            let base = see(alloc, base, env, locals, left)?;
            see_posts(alloc, posts.as_slice(), base, env, locals, left)
        }
        _ => Ok(Seen::Made(walk(alloc, e, env, locals, left)?)),
    }
}

/// The values of expressions in order.
#[cycle(walk)]
fn walk_all(
    alloc: Global,
    parts: &[Expr],
    env: &Env,
    locals: &mut Env,
    left: &mut u32,
) -> Result<Vals, WalkStop>
    ensures spends { Spends (values_of (plain_exprs parts.now) (env.now ++ locals.old)) (costs_of (plain_exprs parts.now) (env.now ++ locals.old)) left.old left.new result }
    ensures locals { locals.new ≡ locals.old }
{
    let mut values = Seq::empty(alloc);
    for part in parts {
        let value = walk(alloc, part, env, locals, left)?;
        values.push(value)?;
    }
    Ok(values)
}

/// Whether one of the operands of a chain of `or` is true, or one of a chain of `and` is false.
#[cycle(walk)]
fn seek_part(
    alloc: Global,
    parts: &[Expr],
    sought: bool,
    env: &Env,
    locals: &mut Env,
    left: &mut u32,
) -> Result<Val, WalkStop>
    ensures spends { Spends (sought_value sought (plain_exprs parts.now) (env.now ++ locals.old))
        (sought_cost sought (plain_exprs parts.now) (env.now ++ locals.old)) left.old left.new result }
    ensures locals { locals.new ≡ locals.old }
{
    let mut is_right = false;
    for part in parts {
        if is_right {
            spend(2, left)?;
        }
        if truth(&walk(alloc, part, env, locals, left)?) == sought {
            return Ok(Val::Bool(sought));
        }
        is_right = true;
    }
    Ok(Val::Bool(!sought))
}

/// A chain of operators from left to right.
#[cycle(walk)]
fn walk_tails(
    alloc: Global,
    tails: &[Tail],
    first: Val,
    env: &Env,
    locals: &mut Env,
    left: &mut u32,
) -> Result<Val, WalkStop>
    ensures spends { Spends (chain_value (plain_tails tails.now) (env.now ++ locals.old) first)
        (chain_cost (plain_tails tails.now) (env.now ++ locals.old) first) left.old left.new result }
    ensures locals { locals.new ≡ locals.old }
{
    let mut so_far = first;
    for tail in tails {
        so_far = walk_tail(alloc, tail, &so_far, env, locals, left)?;
    }
    Ok(so_far)
}

#[cycle(walk)]
fn walk_tail(
    alloc: Global,
    tail: &Tail,
    so_far: &Val,
    env: &Env,
    locals: &mut Env,
    left: &mut u32,
) -> Result<Val, WalkStop>
    ensures spends { Spends (tail_value (plain_tail tail.now) (env.now ++ locals.old) so_far.now)
        (tail_cost (plain_tail tail.now) (env.now ++ locals.old) so_far.now) left.old left.new result }
    ensures locals { locals.new ≡ locals.old }
{
    let right = see(alloc, &tail.right, env, locals, left)?;
    pay_made(
        apply(tail.op, tail.at, number(so_far), number(right.val())),
        left,
    )
}

/// Indexes and parts from left to right.
#[cycle(walk)]
fn see_posts<'a>(
    alloc: Global,
    posts: &[PostTail],
    base: Seen<'a>,
    env: &'a Env,
    locals: &mut Env,
    left: &mut u32,
) -> Result<Seen<'a>, WalkStop>
    ensures spends { Spends (posts_value (plain_posts posts.now) (env.now ++ locals.old) (seen base.entry))
        (posts_cost (plain_posts posts.now) (env.now ++ locals.old) (seen base.entry)) left.old left.new (shown result) }
    ensures locals { locals.new ≡ locals.old }
{
    let mut so_far = base;
    for post in posts {
        so_far = see_post(alloc, post, so_far, env, locals, left)?;
    }
    Ok(so_far)
}

#[cycle(walk)]
fn see_post<'a>(
    alloc: Global,
    post: &PostTail,
    so_far: Seen<'a>,
    env: &'a Env,
    locals: &mut Env,
    left: &mut u32,
) -> Result<Seen<'a>, WalkStop>
    ensures spends { Spends (post_value (plain_post post.now) (env.now ++ locals.old) (seen so_far.entry))
        (post_cost (plain_post post.now) (env.now ++ locals.old) (seen so_far.entry)) left.old left.new (shown result) }
    ensures locals { locals.new ≡ locals.old }
{
    match post {
        PostTail::Index { at, index: place } => {
            let place = walk(alloc, place, env, locals, left)?;
            pay_found(index(*at, so_far, number(&place)), left)
        }
        PostTail::Part {
            at: _,
            part: number,
        } => pay_seen(part(alloc, so_far, *number), left),
    }
}

/// A call of a function.
#[cycle(walk)]
fn walk_call(
    alloc: Global,
    parts: &[Expr],
    func: Func,
    at: Place,
    env: &Env,
    locals: &mut Env,
    left: &mut u32,
) -> Result<Val, WalkStop>
    ensures spends { Spends (after (values_of (plain_exprs parts.now) (env.now ++ locals.old)) (call_value func at))
        (costs_of (plain_exprs parts.now) (env.now ++ locals.old) + counted (after (values_of (plain_exprs parts.now) (env.now ++ locals.old)) (call_value func at)))
        left.old left.new result }
    ensures locals { locals.new ≡ locals.old }
{
    match parts {
        [given] => {
            let given = see(alloc, given, env, locals, left)?;
            pay_made(call_one(alloc, func, at, given), left)
        }
        [one, other] => {
            let one = see(alloc, one, env, locals, left)?;
            let other = see(alloc, other, env, locals, left)?;
            pay_made(call_two(alloc, func, at, one, other), left)
        }
        _ => {
            walk_all(alloc, parts, env, locals, left)?;
            pay(Val::Int(0), left)
        }
    }
}

/// What a binder makes of a list.
#[cycle(walk)]
fn walk_bind(
    alloc: Global,
    body: &Expr,
    binder: Binder,
    name: &Name,
    list: Val,
    env: &Env,
    locals: &mut Env,
    left: &mut u32,
) -> Result<Val, WalkStop>
    ensures spends { Spends (bind_value binder (value_of (plain_expr body.now)) name.now (env.now ++ locals.old) (members_of list))
        (bind_cost binder (value_of (plain_expr body.now)) (cost_of (plain_expr body.now)) name.now (env.now ++ locals.old) (members_of list)) left.old left.new result }
    ensures locals { locals.new ≡ locals.old }
{
    let outer = locals.len();
    let members = into_members(alloc, list);
    let outcome = match binder {
        Binder::All => seek_member(alloc, body, name, members, false, env, locals, left),
        Binder::Any => seek_member(alloc, body, name, members, true, env, locals, left),
        Binder::Each => walk_each(alloc, body, name, members, env, locals, left),
    };
    locals.cut(outer);
    outcome
}

/// The list of the values of an expression for each member. The name stays bound behind the locals.
#[cycle(walk)]
fn walk_each(
    alloc: Global,
    body: &Expr,
    name: &Name,
    members: Vals,
    env: &Env,
    locals: &mut Env,
    left: &mut u32,
) -> Result<Val, WalkStop>
    ensures spends { Spends (after (each_gives (value_of (plain_expr body.now)) name.now (env.now ++ locals.old) members) (λ values. Ok (Val.List values)))
        (each_costs (value_of (plain_expr body.now)) (cost_of (plain_expr body.now)) name.now (env.now ++ locals.old) members) left.old left.new result }
    ensures locals { take (length locals.old) locals.new ≡ locals.old }
{
    let outer = locals.len();
    let mut values = Seq::empty(alloc);
    for member in members {
        locals.rebind(outer, name, member)?;
        let value = walk(alloc, body, env, locals, left)?;
        values.push(value)?;
    }
    Ok(Val::List(values))
}

/// Whether an expression has the truth value at a member. The name stays bound behind the locals.
#[cycle(walk)]
fn seek_member(
    alloc: Global,
    body: &Expr,
    name: &Name,
    members: Vals,
    sought: bool,
    env: &Env,
    locals: &mut Env,
    left: &mut u32,
) -> Result<Val, WalkStop>
    ensures spends { Spends (seek_gives sought (value_of (plain_expr body.now)) name.now (env.now ++ locals.old) members)
        (seek_costs sought (value_of (plain_expr body.now)) (cost_of (plain_expr body.now)) name.now (env.now ++ locals.old) members) left.old left.new result }
    ensures locals { take (length locals.old) locals.new ≡ locals.old }
{
    let outer = locals.len();
    for member in members {
        locals.rebind(outer, name, member)?;
        if truth(&walk(alloc, body, env, locals, left)?) == sought {
            return Ok(Val::Bool(sought));
        }
    }
    Ok(Val::Bool(!sought))
}

/// The newest value of the name, or 0 for a name that is not in scope. That of a local is copied, since the locals change.
fn look_up<'a>(name: &Name, env: &'a Env, locals: &Env) -> Result<Seen<'a>, NoMemory>
    ensures { IfOk result (λ found. seen found ≡ or_zero (value_in name.now (env.now ++ locals.now))) }
{
    if let Some(val) = newest(name, locals.as_slice()) {
        return Ok(Seen::Made(val.copy()?));
    }
    match newest(name, env.as_slice()) {
        Some(val) => Ok(Seen::Lent(val)),
        None => Ok(Seen::Made(Val::Int(0))),
    }
}

/// Pays for a value: 1 and its size.
fn pay(val: Val, left: &mut u32) -> Result<Val, WalkStop>
    ensures { Spends (Ok val) (1 + size_of val) left.old left.new result }
{
    pay_for(&val, left)?;
    Ok(val)
}

/// Pays for a value, wherever it is.
fn pay_seen<'a>(found: Seen<'a>, left: &mut u32) -> Result<Seen<'a>, WalkStop>
    ensures { Spends (Ok (seen found.entry)) (1 + size_of (seen found.entry)) left.old left.new (shown result) }
{
    pay_for(found.val(), left)?;
    Ok(found)
}

/// Pays for what was found, where it is a value.
fn pay_found<'a>(found: Result<Seen<'a>, EvalStop>, left: &mut u32) -> Result<Seen<'a>, WalkStop>
    ensures { (value : Result Val Origin) → Evaluates value (shown found.entry) → Spends value (counted value) left.old left.new (shown result) }
{
    pay_seen(found?, left)
}

fn pay_for(val: &Val, left: &mut u32) -> Result<(), WalkStop>
    ensures { Spends (Ok tt) (1 + size_of val.now) left.old left.new result }
{
    let rest = u64::from(*left);
    let size = size(val);
    if rest <= size {
        return Err(WalkStop::Exceeded);
    }
    *left = (rest - size - 1) as u32;
    Ok(())
}

/// Pays for what was made, where it is a value.
fn pay_made(made: Result<Val, EvalStop>, left: &mut u32) -> Result<Val, WalkStop>
    ensures { (value : Result Val Origin) → Evaluates value made → Spends value (counted value) left.old left.new result }
{
    pay(made?, left)
}

/// Pays so much.
fn spend(cost: u32, left: &mut u32) -> Result<(), WalkStop>
    ensures { Spends (Ok tt) cost left.old left.new result }
{
    if *left < cost {
        return Err(WalkStop::Exceeded);
    }
    *left -= cost;
    Ok(())
}
