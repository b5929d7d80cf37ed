ghost use Rattle.std.specs.Prelude.{◌≡◌, [], ◌∷◌, ◌++◌, OnOk};
ghost use Rattle.pt_ast.specs.Plain.{plain_expr, plain_strat, plain_strats};
ghost use Rattle.pt_eval.specs.Env.{bound};
ghost use Rattle.pt_eval.specs.Value.{evaluated};
ghost use Rattle.pt_plan.specs.Plan.{Gives, and_then};
ghost use Rattle.pt_plan.specs.Came.{Drew};
ghost use Rattle.pt_plan.specs.Stop.{draw_halt};
ghost use Rattle.pt_plan.specs.Open.{open_spans};
ghost use Rattle.pt_strat.specs.Labels.{node_label};
ghost use Rattle.pt_strat.specs.Parts.{by_value, element_plan, list_plan, try_plan, tries_plan, recursive_plan};
ghost use Rattle.pt_strat.specs.Strategy.{is_self, plan_of, inner_plan, tuple_plan, member_plan};
ghost use Rattle.pt_strat.specs.Scope.{plain_scope, self_plan};

use crate::bounds::{Lengths, lengths_of, range_of};
use crate::choosing::{ask_more, draw_sample, kept};
use crate::integers::draw_integer;
use crate::labels::{node_label, part_label};
use crate::names::copy_of;
use crate::places::draw_place;
use crate::scope::{Scope, inside};
use crate::texts::{draw_blob, draw_text};
use crate::valuing::{value_of, value_with};
use pt_ast::{Expr, Strat, StratKind};
use pt_case::Case;
use pt_choice::Seq;
use pt_eval::{Env, members, truth};
use pt_plan::{DrawStop, ask_flag, enter, leave};
use pt_val::{Name, Val};
use std::alloc::Global;

/// The greatest length of a text or of bytes, and of a list.
const MOST_PLACES: u16 = 64;

const MOST_ELEMENTS: u16 = 256;

/// How often a filter draws before it rejects.
const TRIES: u32 = 3;

/// Draws a value of the strategy, where `self` means this. The names are as before at the end.
#[cycle(draw)]
pub(crate) fn draw_in(
    alloc: Global,
    s: &Strat,
    scope: &Scope<'_>,
    env: &mut Env,
    case: &mut Case,
) -> Result<Val, DrawStop>
    ensures drew { Drew draw_halt (plan_of (plain_strat s.now) (self_plan (plain_scope scope.now)) env.old) case.old case.new result }
    ensures closed { OnOk result (open_spans case.new ≡ open_spans case.old) }
    ensures env { env.new ≡ env.old }
{
    if is_self(s) {
        return draw_self(alloc, scope, case);
    }
    enter(case, node_label(s.num))?;
    let val = draw_inside(alloc, s, scope, env, case)?;
    leave(case);
    Ok(val)
}

fn is_self(s: &Strat) -> bool
    ensures { result ≡ is_self (plain_strat s.now) }
{
    match &s.kind {
        StratKind::Ints(_, _) => false,
        StratKind::Bools => false,
        StratKind::Texts(_, _, _) => false,
        StratKind::Blobs(_, _) => false,
        StratKind::SampledFrom(_) => false,
        StratKind::Lists(_, _, _) => false,
        StratKind::Tuples(_) => false,
        StratKind::OneOf(_) => false,
        StratKind::Map(_, _, _) => false,
        StratKind::Filter(_, _, _) => false,
        StratKind::FlatMap(_, _, _) => false,
        StratKind::Recursive(_, _, _) => false,
        StratKind::Again => true,
    }
}

#[cycle(draw)]
fn draw_inside(
    alloc: Global,
    s: &Strat,
    scope: &Scope<'_>,
    env: &mut Env,
    case: &mut Case,
) -> Result<Val, DrawStop>
    ensures drew { Drew draw_halt (inner_plan (plain_strat s.now) (self_plan (plain_scope scope.now)) env.old) case.old case.new result }
    ensures closed { OnOk result (open_spans case.new ≡ open_spans case.old) }
    ensures env { env.new ≡ env.old }
{
    match &s.kind {
        StratKind::Ints(lo, hi) => {
            let range = range_of(alloc, s.at, lo, hi, env)?;
            draw_integer(range, case)
        }
        StratKind::Bools => Ok(Val::Bool(ask_flag(case, 8)?)),
        StratKind::Texts(alphabet, lo, hi) => {
            let lengths = lengths_of(alloc, s.at, MOST_PLACES, lo, hi, env)?;
            draw_text(alloc, s.at, alphabet.chars.as_slice(), lengths, case)
        }
        StratKind::Blobs(lo, hi) => {
            let lengths = lengths_of(alloc, s.at, MOST_PLACES, lo, hi, env)?;
            draw_blob(lengths, case)
        }
        StratKind::SampledFrom(list) => {
            let list = value_of(alloc, list, env)?;
            draw_sample(s.at, members(&list), case)
        }
        StratKind::Lists(element, lo, hi) => {
            let lengths = lengths_of(alloc, s.at, MOST_ELEMENTS, lo, hi, env)?;
            draw_elements(alloc, element, part_label(s.num), lengths, scope, env, case)
        }
        StratKind::Tuples(parts) => draw_parts(alloc, parts.as_slice(), scope, env, case),
        StratKind::OneOf(parts) => {
            let place = draw_place(parts.len(), case)?;
            draw_member(alloc, parts.as_slice(), place, scope, env, case)
        }
        StratKind::Map(given, inner, body) => {
            draw_image(alloc, inner, &given.name, body, scope, env, case)
        }
        StratKind::Filter(given, inner, cond) => draw_filtered(
            alloc,
            inner,
            part_label(s.num),
            &given.name,
            cond,
            scope,
            env,
            case,
        ),
        StratKind::FlatMap(given, inner, second) => {
            draw_by_value(alloc, inner, &given.name, second, scope, env, case)
        }
        StratKind::Recursive(depth, first, second) => {
            draw_levels(alloc, s.num, *depth, first, second, scope, env, case)
        }
        StratKind::Again => draw_self(alloc, scope, case),
    }
}

// Elements one after another, until there is no further one or there are the most.
#[cycle(draw)]
fn draw_elements(
    alloc: Global,
    element: &Strat,
    label: u32,
    lengths: Lengths,
    scope: &Scope<'_>,
    env: &mut Env,
    case: &mut Case,
) -> Result<Val, DrawStop>
    ensures drew { Drew draw_halt (list_plan label (plan_of (plain_strat element.now) (self_plan (plain_scope scope.now)) env.old) lengths)
        case.old case.new result }
    ensures closed { OnOk result (open_spans case.new ≡ open_spans case.old) }
    ensures env { env.new ≡ env.old }
{
    let mut values = Seq::empty(alloc);
    for count in 0..lengths.most {
        match draw_element(
            alloc,
            element,
            label,
            lengths.least,
            count,
            scope,
            env,
            case,
        )? {
            Some(value) => values.push(value)?,
            None => return Ok(Val::List(values)),
        }
    }
    Ok(Val::List(values))
}

// One more element behind so many, if there is one, in a part of its own.
#[cycle(draw)]
fn draw_element(
    alloc: Global,
    element: &Strat,
    label: u32,
    least: usize,
    count: usize,
    scope: &Scope<'_>,
    env: &mut Env,
    case: &mut Case,
) -> Result<Option<Val>, DrawStop>
    ensures drew { Drew draw_halt (element_plan label (plan_of (plain_strat element.now) (self_plan (plain_scope scope.now)) env.old) least count)
        case.old case.new result }
    ensures closed { OnOk result (open_spans case.new ≡ open_spans case.old) }
    ensures env { env.new ≡ env.old }
{
    enter(case, label)?;
    let more = ask_more(least, count, case)?;
    if !more {
        leave(case);
        return Ok(None);
    }
    let value = draw_in(alloc, element, scope, env, case)?;
    leave(case);
    Ok(Some(value))
}

// One value of each strategy.
#[cycle(draw)]
fn draw_parts(
    alloc: Global,
    parts: &[Strat],
    scope: &Scope<'_>,
    env: &mut Env,
    case: &mut Case,
) -> Result<Val, DrawStop>
    ensures drew { Drew draw_halt (tuple_plan (plain_strats parts.now) (self_plan (plain_scope scope.now)) env.old []) case.old case.new result }
    ensures closed { OnOk result (open_spans case.new ≡ open_spans case.old) }
    ensures env { env.new ≡ env.old }
{
    let mut values = Seq::empty(alloc);
    for part in parts {
        let value = draw_in(alloc, part, scope, env, case)?;
        values.push(value)?;
    }
    Ok(Val::Tuple(values))
}

// A value of the strategy of this number.
#[cycle(draw)]
fn draw_member(
    alloc: Global,
    parts: &[Strat],
    number: usize,
    scope: &Scope<'_>,
    env: &mut Env,
    case: &mut Case,
) -> Result<Val, DrawStop>
    ensures drew { Drew draw_halt (member_plan (plain_strats parts.now) (self_plan (plain_scope scope.now)) env.old number) case.old case.new result }
    ensures closed { OnOk result (open_spans case.new ≡ open_spans case.old) }
    ensures env { env.new ≡ env.old }
{
    if number >= parts.len() {
        return Err(DrawStop::Reject);
    }
    draw_in(alloc, &parts[number], scope, env, case)
}

// What an expression makes of a value of the strategy.
#[cycle(draw)]
fn draw_image(
    alloc: Global,
    inner: &Strat,
    name: &Name,
    body: &Expr,
    scope: &Scope<'_>,
    env: &mut Env,
    case: &mut Case,
) -> Result<Val, DrawStop>
    ensures drew { Drew draw_halt (and_then (plan_of (plain_strat inner.now) (self_plan (plain_scope scope.now)) env.old) (λ value.
        by_value (evaluated (plain_expr body.now) (env.old ++ bound name.now value ∷ [])) (λ made. Gives made))) case.old case.new result }
    ensures closed { OnOk result (open_spans case.new ≡ open_spans case.old) }
    ensures env { env.new ≡ env.old }
{
    let from = draw_in(alloc, inner, scope, env, case)?;
    value_with(alloc, body, name, from, env)
}

// The first value, in a few tries, of which the condition is true.
#[cycle(draw)]
fn draw_filtered(
    alloc: Global,
    inner: &Strat,
    label: u32,
    name: &Name,
    cond: &Expr,
    scope: &Scope<'_>,
    env: &mut Env,
    case: &mut Case,
) -> Result<Val, DrawStop>
    ensures drew { Drew draw_halt (tries_plan (try_plan label (plan_of (plain_strat inner.now) (self_plan (plain_scope scope.now)) env.old) (λ value.
        evaluated (plain_expr cond.now) (env.old ++ bound name.now value ∷ []))) 3) case.old case.new result }
    ensures closed { OnOk result (open_spans case.new ≡ open_spans case.old) }
    ensures env { env.new ≡ env.old }
{
    for _try in 0..TRIES {
        match draw_try(alloc, inner, label, name, cond, scope, env, case)? {
            Some(value) => return Ok(value),
            None => {}
        }
    }
    Err(DrawStop::Reject)
}

// A value in a part of its own, if the condition is true of it.
#[cycle(draw)]
fn draw_try(
    alloc: Global,
    inner: &Strat,
    label: u32,
    name: &Name,
    cond: &Expr,
    scope: &Scope<'_>,
    env: &mut Env,
    case: &mut Case,
) -> Result<Option<Val>, DrawStop>
    ensures drew { Drew draw_halt (try_plan label (plan_of (plain_strat inner.now) (self_plan (plain_scope scope.now)) env.old) (λ value.
        evaluated (plain_expr cond.now) (env.old ++ bound name.now value ∷ []))) case.old case.new result }
    ensures closed { OnOk result (open_spans case.new ≡ open_spans case.old) }
    ensures env { env.new ≡ env.old }
{
    enter(case, label)?;
    let value = draw_in(alloc, inner, scope, env, case)?;
    let held = value_with(alloc, cond, name, value.copy()?, env)?;
    leave(case);
    Ok(kept(value, truth(&held)))
}

// A value of the second strategy, where the first one's value has the name.
#[cycle(draw)]
fn draw_by_value(
    alloc: Global,
    inner: &Strat,
    name: &Name,
    second: &Strat,
    scope: &Scope<'_>,
    env: &mut Env,
    case: &mut Case,
) -> Result<Val, DrawStop>
    ensures drew { Drew draw_halt (and_then (plan_of (plain_strat inner.now) (self_plan (plain_scope scope.now)) env.old) (λ value.
        plan_of (plain_strat second.now) (self_plan (plain_scope scope.now)) (env.old ++ bound name.now value ∷ []))) case.old case.new result }
    ensures closed { OnOk result (open_spans case.new ≡ open_spans case.old) }
    ensures env { env.new ≡ env.old }
{
    let outer = env.len();
    let from = draw_in(alloc, inner, scope, env, case)?;
    env.bind(name.copy()?, from)?;
    let value = draw_in(alloc, second, scope, env, case);
    env.cut(outer);
    value
}

// A value of a `recursive` so many levels above its end. What `self` means keeps the names; a copy of them is drawn in.
#[cycle(draw)]
fn draw_levels(
    alloc: Global,
    num: u32,
    depth: u32,
    first: &Strat,
    second: &Strat,
    scope: &Scope<'_>,
    env: &Env,
    case: &mut Case,
) -> Result<Val, DrawStop>
    ensures drew { Drew draw_halt (recursive_plan (node_label num) (plan_of (plain_strat first.now) (self_plan (plain_scope scope.now)) env.now)
        (λ again. plan_of (plain_strat second.now) again env.now) depth) case.old case.new result }
    ensures closed { OnOk result (open_spans case.new ≡ open_spans case.old) }
{
    let mut names = copy_of(alloc, env)?;
    if depth == 0 {
        return draw_in(alloc, first, scope, &mut names, case);
    }
    let deeper = ask_flag(case, 8)?;
    if !deeper {
        return draw_in(alloc, first, scope, &mut names, case);
    }
    let below = inside(num, depth - 1, &*first, &*second, env, &*scope);
    draw_in(alloc, second, &below, &mut names, case)
}

// A value of what `self` means, in the names of the node that it leads back to.
#[cycle(draw)]
fn draw_self(alloc: Global, scope: &Scope<'_>, case: &mut Case) -> Result<Val, DrawStop>
    ensures drew { Drew draw_halt (self_plan (plain_scope scope.now)) case.old case.new result }
    ensures closed { OnOk result (open_spans case.new ≡ open_spans case.old) }
{
    match scope {
        Scope::Outside => Err(DrawStop::Reject),
        Scope::Inside {
            num,
            depth,
            first,
            second,
            env,
            outer,
        } => {
            enter(case, node_label(*num))?;
            let val = draw_levels(alloc, *num, *depth, first, second, outer, env, case)?;
            leave(case);
            Ok(val)
        }
    }
}
