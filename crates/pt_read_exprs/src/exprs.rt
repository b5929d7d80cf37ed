//! Reading expressions.
//!
//! There is a reader for each level of operators, from the loosest to what stands by itself. A chain of operators is read by a loop, so that
//! the readers call one another once for each level of nesting.

ghost use Rattle.std.specs.Prelude.{◌≡◌, ◌∷◌, [], ◌<◌, ◌≤◌, IfOk, length, map};
ghost use Rattle.pt_ast.specs.Plain.{plain_expr, plain_tail, plain_post};
ghost use Rattle.pt_grammar.specs.Tokens.{sum_of, product_of};
ghost use Rattle.pt_grammar.specs.Reading.{is_and, is_or, refused_at, room_at, with_front};
ghost use Rattle.pt_grammar.specs.ExprReading.{Readers, inner, expr_at, if_at, or_at, and_at, nots_at, compare_at, sum_at, product_at, unary_at, post_at, post_part_at, index_at, atom_at, call_at, bind_at, round_at, square_at, more_exprs_at, args_at, row_at, joined_at, tail_at, begins_post, is_sum, is_product};
ghost use Rattle.pt_taking.specs.Gives.{Fails, Gives};

use crate::building::{bind, bracket, compare, if_else, negation, not, post, product, sum};
use crate::operators::{begins_post, comparison, product_operator, sum_operator};
use crate::single::{read_bytes, read_name, read_number, read_text};
use pt_ast::{Binder, Expr, Exprs, Func, PostTail, PostTails, Tail, Tails};
use pt_choice::Seq;
use pt_grammar::Sort;
use pt_taking::{
    Stop, Terminal, after, deeper, magnitude, name, number, one, open, place, refusal, starts,
};
use pt_token::{Kind, Mark, Token, Word};
use pt_val::Place;
use std::alloc::Global;

/// How many parts a tuple may have beside the first.
const MORE_PARTS: u32 = 7;

/// How many members a list may have beside the first.
const MORE_MEMBERS: u32 = 63;

/// Reads an expression, where this many levels are left.
#[cycle(exprs)]
#[tactic(auto, unfolding(pt_grammar::specs::ExprReading::expr_on))]
pub fn read_expr(alloc: Global, left: u32, tokens: &[Token]) -> Result<(Expr, &[Token]), Stop<'_>>
    ensures gives { Gives (λ x. (plain_expr x.0, x.1.now)) result (expr_at left tokens.now) }
    ensures shorter { IfOk result (λ x. length x.1.now < length tokens.now) }
{
    let Some((first, rest)) = tokens.split_first() else {
        return Err(Stop::At(Sort::Syntax, tokens));
    };
    match first.kind {
        Kind::Word(Word::If) => {
            deeper(left, tokens)?;
            read_if(alloc, left, first.at, rest)
        }
        _ => read_or(alloc, left, tokens),
    }
}

/// Reads what stands behind an `if`.
#[cycle(exprs)]
#[tactic(auto, unfolding(pt_grammar::specs::ExprReading::if_at))]
fn read_if(
    alloc: Global,
    left: u32,
    at: Place,
    tokens: &[Token],
) -> Result<(Expr, &[Token]), Stop<'_>>
    requires { 0 < left }
    ensures gives { Gives (λ x. (plain_expr x.0, x.1.now)) result (if_at (inner left) at tokens.now) }
    ensures shorter { IfOk result (λ x. length x.1.now < length tokens.now) }
{
    let (test, after_test) = inner_expr(alloc, left, tokens)?;
    let then_part = one(Terminal::Then, after_test)?;
    let (first, after_first) = inner_expr(alloc, left, then_part)?;
    let else_part = one(Terminal::Else, after_first)?;
    let (other, rest) = inner_expr(alloc, left, else_part)?;
    Ok((if_else(alloc, at, test, first, other)?, rest))
}

#[cycle(exprs)]
#[tactic(auto, unfolding(pt_grammar::specs::ExprReading::or_at))]
fn read_or(alloc: Global, left: u32, tokens: &[Token]) -> Result<(Expr, &[Token]), Stop<'_>>
    ensures gives { Gives (λ x. (plain_expr x.0, x.1.now)) result (or_at left (inner left) tokens.now) }
    ensures shorter { IfOk result (λ x. length x.1.now < length tokens.now) }
{
    let at = place(tokens);
    let (first, behind) = read_and(alloc, left, tokens)?;
    if !starts(Terminal::Or, behind) {
        return Ok((first, behind));
    }
    let (parts, rest) = read_ors(alloc, left, first, behind)?;
    Ok((Expr::or(at, parts), rest))
}

/// Reads operands, each behind an `or`.
#[cycle(exprs)]
fn read_ors(
    alloc: Global,
    left: u32,
    first: Expr,
    tokens: &[Token],
) -> Result<(Exprs, &[Token]), Stop<'_>>
    ensures gives { Gives (λ x. (map plain_expr x.0, x.1.now)) result
        (with_front (plain_expr first ∷ []) (row_at (joined_at is_or (and_at left (inner left))) is_or tokens.now)) }
    ensures shorter { IfOk result (λ x. length x.1.now ≤ length tokens.now) }
{
    let mut parts = Seq::empty(alloc);
    parts.push(first)?;
    let mut rest = tokens;
    while let Some(behind) = after(Terminal::Or, rest) {
        let (part, more) = read_and(alloc, left, behind)?;
        parts.push(part)?;
        rest = more;
    }
    Ok((parts, rest))
}

#[cycle(exprs)]
#[tactic(auto, unfolding(pt_grammar::specs::ExprReading::and_at))]
fn read_and(alloc: Global, left: u32, tokens: &[Token]) -> Result<(Expr, &[Token]), Stop<'_>>
    ensures gives { Gives (λ x. (plain_expr x.0, x.1.now)) result (and_at left (inner left) tokens.now) }
    ensures shorter { IfOk result (λ x. length x.1.now < length tokens.now) }
{
    let at = place(tokens);
    let (first, behind) = read_not(alloc, left, tokens)?;
    if !starts(Terminal::And, behind) {
        return Ok((first, behind));
    }
    let (parts, rest) = read_ands(alloc, left, first, behind)?;
    Ok((Expr::and(at, parts), rest))
}

/// Reads operands, each behind an `and`.
#[cycle(exprs)]
fn read_ands(
    alloc: Global,
    left: u32,
    first: Expr,
    tokens: &[Token],
) -> Result<(Exprs, &[Token]), Stop<'_>>
    ensures gives { Gives (λ x. (map plain_expr x.0, x.1.now)) result
        (with_front (plain_expr first ∷ []) (row_at (joined_at is_and (nots_at left (inner left))) is_and tokens.now)) }
    ensures shorter { IfOk result (λ x. length x.1.now ≤ length tokens.now) }
{
    let mut parts = Seq::empty(alloc);
    parts.push(first)?;
    let mut rest = tokens;
    while let Some(behind) = after(Terminal::And, rest) {
        let (part, more) = read_not(alloc, left, behind)?;
        parts.push(part)?;
        rest = more;
    }
    Ok((parts, rest))
}

#[cycle(exprs)]
#[tactic(auto, unfolding(pt_grammar::specs::ExprReading::nots_on))]
fn read_not(alloc: Global, left: u32, tokens: &[Token]) -> Result<(Expr, &[Token]), Stop<'_>>
    ensures gives { Gives (λ x. (plain_expr x.0, x.1.now)) result (nots_at left (inner left) tokens.now) }
    ensures shorter { IfOk result (λ x. length x.1.now < length tokens.now) }
{
    let Some((first, rest)) = tokens.split_first() else {
        return Err(Stop::At(Sort::Syntax, tokens));
    };
    match first.kind {
        Kind::Word(Word::Not) => {
            deeper(left, tokens)?;
            let (part, after) = inner_not(alloc, left, rest)?;
            Ok((not(alloc, first.at, part)?, after))
        }
        _ => read_compare(alloc, left, tokens),
    }
}

#[cycle(exprs)]
#[tactic(auto, unfolding(pt_grammar::specs::ExprReading::compare_at))]
fn read_compare(alloc: Global, left: u32, tokens: &[Token]) -> Result<(Expr, &[Token]), Stop<'_>>
    ensures gives { Gives (λ x. (plain_expr x.0, x.1.now)) result (compare_at left (inner left) tokens.now) }
    ensures shorter { IfOk result (λ x. length x.1.now < length tokens.now) }
{
    let at = place(tokens);
    let (first, after) = read_sum(alloc, left, tokens)?;
    let Some((_, op, behind)) = comparison(after) else {
        return Ok((first, after));
    };
    let (second, rest) = read_sum(alloc, left, behind)?;
    Ok((compare(alloc, at, first, op, second)?, rest))
}

#[cycle(exprs)]
#[tactic(auto, unfolding(pt_grammar::specs::ExprReading::sum_at))]
fn read_sum(alloc: Global, left: u32, tokens: &[Token]) -> Result<(Expr, &[Token]), Stop<'_>>
    ensures gives { Gives (λ x. (plain_expr x.0, x.1.now)) result (sum_at left (inner left) tokens.now) }
    ensures shorter { IfOk result (λ x. length x.1.now < length tokens.now) }
{
    let at = place(tokens);
    let (first, after) = read_product(alloc, left, tokens)?;
    let (tails, rest) = read_sums(alloc, left, after)?;
    Ok((sum(alloc, at, first, tails)?, rest))
}

/// Reads operands, each behind an operator of sums.
#[cycle(exprs)]
fn read_sums(alloc: Global, left: u32, tokens: &[Token]) -> Result<(Tails, &[Token]), Stop<'_>>
    ensures gives { Gives (λ x. (map plain_tail x.0, x.1.now)) result
        (row_at (tail_at sum_of (product_at left (inner left))) is_sum tokens.now) }
    ensures shorter { IfOk result (λ x. length x.1.now ≤ length tokens.now) }
{
    let mut tails = Seq::empty(alloc);
    let mut rest = tokens;
    while let Some((at, op, behind)) = sum_operator(rest) {
        let (right, more) = read_product(alloc, left, behind)?;
        tails.push(Tail::of(at, op, right))?;
        rest = more;
    }
    Ok((tails, rest))
}

#[cycle(exprs)]
#[tactic(auto, unfolding(pt_grammar::specs::ExprReading::product_at))]
fn read_product(alloc: Global, left: u32, tokens: &[Token]) -> Result<(Expr, &[Token]), Stop<'_>>
    ensures gives { Gives (λ x. (plain_expr x.0, x.1.now)) result (product_at left (inner left) tokens.now) }
    ensures shorter { IfOk result (λ x. length x.1.now < length tokens.now) }
{
    let at = place(tokens);
    let (first, after) = read_unary(alloc, left, tokens)?;
    let (tails, rest) = read_products(alloc, left, after)?;
    Ok((product(alloc, at, first, tails)?, rest))
}

/// Reads operands, each behind an operator of products.
#[cycle(exprs)]
fn read_products(alloc: Global, left: u32, tokens: &[Token]) -> Result<(Tails, &[Token]), Stop<'_>>
    ensures gives { Gives (λ x. (map plain_tail x.0, x.1.now)) result
        (row_at (tail_at product_of (unary_at left (inner left))) is_product tokens.now) }
    ensures shorter { IfOk result (λ x. length x.1.now ≤ length tokens.now) }
{
    let mut tails = Seq::empty(alloc);
    let mut rest = tokens;
    while let Some((at, op, behind)) = product_operator(rest) {
        let (right, more) = read_unary(alloc, left, behind)?;
        tails.push(Tail::of(at, op, right))?;
        rest = more;
    }
    Ok((tails, rest))
}

#[cycle(exprs)]
#[tactic(auto, unfolding(pt_grammar::specs::ExprReading::unary_on))]
fn read_unary(alloc: Global, left: u32, tokens: &[Token]) -> Result<(Expr, &[Token]), Stop<'_>>
    ensures gives { Gives (λ x. (plain_expr x.0, x.1.now)) result (unary_at left (inner left) tokens.now) }
    ensures shorter { IfOk result (λ x. length x.1.now < length tokens.now) }
{
    let Some((first, rest)) = tokens.split_first() else {
        return Err(Stop::At(Sort::Syntax, tokens));
    };
    match first.kind {
        Kind::Minus(true) => {
            let (value, after) = magnitude(rest)?;
            Ok((Expr::num(first.at, value), after))
        }
        Kind::Minus(false) => {
            deeper(left, tokens)?;
            let (part, after) = inner_unary(alloc, left, rest)?;
            Ok((negation(alloc, first.at, part)?, after))
        }
        _ => read_post(alloc, left, tokens),
    }
}

#[cycle(exprs)]
#[tactic(auto, unfolding(pt_grammar::specs::ExprReading::post_at))]
fn read_post(alloc: Global, left: u32, tokens: &[Token]) -> Result<(Expr, &[Token]), Stop<'_>>
    ensures gives { Gives (λ x. (plain_expr x.0, x.1.now)) result (post_at left (inner left) tokens.now) }
    ensures shorter { IfOk result (λ x. length x.1.now < length tokens.now) }
{
    let at = place(tokens);
    let (base, after) = read_atom(alloc, left, tokens)?;
    let (posts, rest) = read_posts(alloc, left, after)?;
    Ok((post(alloc, at, base, posts)?, rest))
}

/// Reads indexes and parts.
#[cycle(exprs)]
fn read_posts(alloc: Global, left: u32, tokens: &[Token]) -> Result<(PostTails, &[Token]), Stop<'_>>
    ensures gives { Gives (λ x. (map plain_post x.0, x.1.now)) result (row_at (post_part_at left (inner left)) begins_post tokens.now) }
    ensures shorter { IfOk result (λ x. length x.1.now ≤ length tokens.now) }
{
    let mut posts = Seq::empty(alloc);
    let mut rest = tokens;
    while begins_post(rest) {
        let (part, more) = read_post_part(alloc, left, rest)?;
        posts.push(part)?;
        rest = more;
    }
    Ok((posts, rest))
}

#[cycle(exprs)]
#[tactic(auto, unfolding(pt_grammar::specs::ExprReading::post_on))]
fn read_post_part(
    alloc: Global,
    left: u32,
    tokens: &[Token],
) -> Result<(PostTail, &[Token]), Stop<'_>>
    ensures gives { Gives (λ x. (plain_post x.0, x.1.now)) result (post_part_at left (inner left) tokens.now) }
    ensures shorter { IfOk result (λ x. length x.1.now < length tokens.now) }
{
    let Some((first, rest)) = tokens.split_first() else {
        return Err(Stop::At(Sort::Syntax, tokens));
    };
    match first.kind {
        Kind::Mark(Mark::OpenBracket) => {
            deeper(left, tokens)?;
            read_index(alloc, left, first.at, rest)
        }
        Kind::Mark(Mark::Dot) => {
            let ((at, part), after) = number(rest)?;
            Ok((PostTail::part(at, part), after))
        }
        _ => Err(Stop::At(Sort::Syntax, tokens)),
    }
}

/// Reads what stands behind the `[` of an index.
#[cycle(exprs)]
#[tactic(auto, unfolding(pt_grammar::specs::ExprReading::index_at))]
fn read_index(
    alloc: Global,
    left: u32,
    at: Place,
    tokens: &[Token],
) -> Result<(PostTail, &[Token]), Stop<'_>>
    requires { 0 < left }
    ensures gives { Gives (λ x. (plain_post x.0, x.1.now)) result (index_at (inner left) at tokens.now) }
    ensures shorter { IfOk result (λ x. length x.1.now < length tokens.now) }
{
    let (index, after) = inner_expr(alloc, left, tokens)?;
    let rest = one(Terminal::CloseSquare, after)?;
    Ok((PostTail::index(at, index), rest))
}

#[cycle(exprs)]
#[tactic(auto, unfolding(pt_grammar::specs::ExprReading::atom_on))]
fn read_atom(alloc: Global, left: u32, tokens: &[Token]) -> Result<(Expr, &[Token]), Stop<'_>>
    ensures gives { Gives (λ x. (plain_expr x.0, x.1.now)) result (atom_at left (inner left) tokens.now) }
    ensures shorter { IfOk result (λ x. length x.1.now < length tokens.now) }
{
    let Some((first, rest)) = tokens.split_first() else {
        return Err(Stop::At(Sort::Syntax, tokens));
    };
    let at = first.at;
    match first.kind {
        Kind::Number(_) => read_number(tokens),
        Kind::Text(_) | Kind::LongText => read_text(tokens),
        Kind::Bytes(_) | Kind::LongBytes => read_bytes(tokens),
        Kind::Name(_) | Kind::LongName => read_name(tokens),
        Kind::Word(Word::True) => Ok((Expr::flag(at, true), rest)),
        Kind::Word(Word::False) => Ok((Expr::flag(at, false), rest)),
        Kind::Word(Word::Func(func)) => read_call(alloc, left, at, func, rest),
        Kind::Word(Word::Binder(binder)) => read_bind(alloc, left, at, binder, rest),
        Kind::Mark(Mark::OpenParen) => {
            deeper(left, tokens)?;
            read_round(alloc, left, at, rest)
        }
        Kind::Mark(Mark::OpenBracket) => {
            deeper(left, tokens)?;
            read_square(alloc, left, at, rest)
        }
        _ => Err(Stop::At(Sort::Syntax, tokens)),
    }
}

/// Reads what stands behind the word of a function.
#[cycle(exprs)]
#[tactic(auto, unfolding(pt_grammar::specs::ExprReading::call_at))]
fn read_call(
    alloc: Global,
    left: u32,
    at: Place,
    func: Func,
    tokens: &[Token],
) -> Result<(Expr, &[Token]), Stop<'_>>
    ensures gives { Gives (λ x. (plain_expr x.0, x.1.now)) result (call_at left (inner left) at func tokens.now) }
    ensures shorter { IfOk result (λ x. length x.1.now < length tokens.now) }
{
    let inside = open(Terminal::OpenParen, left, tokens)?;
    let (first, after_first) = inner_expr(alloc, left, inside)?;
    let (args, after) = read_args(alloc, left, first, after_first)?;
    let rest = one(Terminal::CloseParen, after)?;
    Ok((Expr::call(at, func, args), rest))
}

/// Reads the arguments behind the first, each behind a comma.
#[cycle(exprs)]
fn read_args(
    alloc: Global,
    left: u32,
    first: Expr,
    tokens: &[Token],
) -> Result<(Exprs, &[Token]), Stop<'_>>
    requires { 0 < left }
    ensures gives { Gives (λ x. (map plain_expr x.0, x.1.now)) result
        (with_front (plain_expr first ∷ []) (args_at (inner left).expr tokens.now)) }
    ensures shorter { IfOk result (λ x. length x.1.now ≤ length tokens.now) }
{
    let mut args = Seq::empty(alloc);
    args.push(first)?;
    let mut rest = tokens;
    while let Some(behind) = after(Terminal::Comma, rest) {
        let (arg, more) = inner_expr(alloc, left, behind)?;
        args.push(arg)?;
        rest = more;
    }
    Ok((args, rest))
}

/// Reads what stands behind a word that binds a name.
#[cycle(exprs)]
#[tactic(auto, unfolding(pt_grammar::specs::ExprReading::bind_at))]
fn read_bind(
    alloc: Global,
    left: u32,
    at: Place,
    binder: Binder,
    tokens: &[Token],
) -> Result<(Expr, &[Token]), Stop<'_>>
    ensures gives { Gives (λ x. (plain_expr x.0, x.1.now)) result (bind_at left (inner left) at binder tokens.now) }
    ensures shorter { IfOk result (λ x. length x.1.now < length tokens.now) }
{
    let inside = open(Terminal::OpenParen, left, tokens)?;
    let (given, after_name) = name(inside)?;
    let list_part = one(Terminal::Comma, after_name)?;
    let (list, after_list) = inner_expr(alloc, left, list_part)?;
    let body_part = one(Terminal::Comma, after_list)?;
    let (body, after) = inner_expr(alloc, left, body_part)?;
    let rest = one(Terminal::CloseParen, after)?;
    Ok((bind(alloc, at, binder, given, list, body)?, rest))
}

/// Reads what stands behind a `(`: one expression in brackets, or a tuple.
#[cycle(exprs)]
#[tactic(auto, unfolding(pt_grammar::specs::ExprReading::round_at))]
fn read_round(
    alloc: Global,
    left: u32,
    at: Place,
    tokens: &[Token],
) -> Result<(Expr, &[Token]), Stop<'_>>
    requires { 0 < left }
    ensures gives { Gives (λ x. (plain_expr x.0, x.1.now)) result (round_at (inner left) at tokens.now) }
    ensures shorter { IfOk result (λ x. length x.1.now < length tokens.now) }
{
    let (first, after_first) = inner_expr(alloc, left, tokens)?;
    if !starts(Terminal::Comma, after_first) {
        let rest = one(Terminal::CloseParen, after_first)?;
        return Ok((bracket(alloc, at, first)?, rest));
    }
    let (parts, after) = read_members(alloc, left, MORE_PARTS, first, after_first)?;
    let rest = one(Terminal::CloseParen, after)?;
    Ok((Expr::tuple(at, parts), rest))
}

/// Reads what stands behind the `[` of a list.
#[cycle(exprs)]
#[tactic(auto, unfolding(pt_grammar::specs::ExprReading::square_at))]
fn read_square(
    alloc: Global,
    left: u32,
    at: Place,
    tokens: &[Token],
) -> Result<(Expr, &[Token]), Stop<'_>>
    requires { 0 < left }
    ensures gives { Gives (λ x. (plain_expr x.0, x.1.now)) result (square_at (inner left) at tokens.now) }
    ensures shorter { IfOk result (λ x. length x.1.now < length tokens.now) }
{
    let (first, after_first) = inner_expr(alloc, left, tokens)?;
    let (members, after) = read_members(alloc, left, MORE_MEMBERS, first, after_first)?;
    let rest = one(Terminal::CloseSquare, after)?;
    Ok((Expr::list(at, members), rest))
}

/// Reads the members of a tuple or a list behind the first, each behind a comma, where there is room for this many.
#[cycle(exprs)]
fn read_members(
    alloc: Global,
    left: u32,
    most: u32,
    first: Expr,
    tokens: &[Token],
) -> Result<(Exprs, &[Token]), Stop<'_>>
    requires { 0 < left }
    ensures gives { Gives (λ x. (map plain_expr x.0, x.1.now)) result
        (with_front (plain_expr first ∷ []) (more_exprs_at (inner left).expr most tokens.now)) }
    ensures shorter { IfOk result (λ x. length x.1.now ≤ length tokens.now) }
{
    let mut members = Seq::empty(alloc);
    members.push(first)?;
    let mut room = most;
    let mut rest = tokens;
    while let Some(behind) = after(Terminal::Comma, rest) {
        let (member, more) = read_member(alloc, left, room, behind)?;
        members.push(member)?;
        room = room.saturating_sub(1);
        rest = more;
    }
    Ok((members, rest))
}

/// Reads a member, where there is room for this many.
#[cycle(exprs)]
fn read_member(
    alloc: Global,
    left: u32,
    room: u32,
    tokens: &[Token],
) -> Result<(Expr, &[Token]), Stop<'_>>
    requires { 0 < left }
    ensures gives { Gives (λ x. (plain_expr x.0, x.1.now)) result (room_at (inner left).expr room tokens.now) }
    ensures shorter { IfOk result (λ x. length x.1.now < length tokens.now) }
{
    if room == 0 {
        return Err(refuse(alloc, left, tokens));
    }
    inner_expr(alloc, left, tokens)
}

/// Why a member too many is refused.
#[cycle(exprs)]
fn refuse(alloc: Global, left: u32, tokens: &[Token]) -> Stop<'_>
    requires { 0 < left }
    ensures { Fails result (refused_at (inner left).expr tokens.now) }
{
    if tokens.is_empty() {
        return Stop::At(Sort::Syntax, tokens);
    }
    match refusal(inner_expr(alloc, left, &tokens[..1])) {
        Ok(which) => Stop::At(which, tokens),
        Err(_) => Stop::NoMemory,
    }
}

/// Reads an expression one level deeper.
#[cycle(exprs)]
fn inner_expr(alloc: Global, left: u32, tokens: &[Token]) -> Result<(Expr, &[Token]), Stop<'_>>
    requires { 0 < left }
    ensures gives { Gives (λ x. (plain_expr x.0, x.1.now)) result ((inner left).expr tokens.now) }
    ensures shorter { IfOk result (λ x. length x.1.now < length tokens.now) }
{
    read_expr(alloc, left - 1, tokens)
}

/// Reads what stands behind a `not`.
#[cycle(exprs)]
fn inner_not(alloc: Global, left: u32, tokens: &[Token]) -> Result<(Expr, &[Token]), Stop<'_>>
    requires { 0 < left }
    ensures gives { Gives (λ x. (plain_expr x.0, x.1.now)) result ((inner left).nots tokens.now) }
    ensures shorter { IfOk result (λ x. length x.1.now < length tokens.now) }
{
    read_not(alloc, left - 1, tokens)
}

/// Reads what stands behind a minus sign.
#[cycle(exprs)]
fn inner_unary(alloc: Global, left: u32, tokens: &[Token]) -> Result<(Expr, &[Token]), Stop<'_>>
    requires { 0 < left }
    ensures gives { Gives (λ x. (plain_expr x.0, x.1.now)) result ((inner left).unary tokens.now) }
    ensures shorter { IfOk result (λ x. length x.1.now < length tokens.now) }
{
    read_unary(alloc, left - 1, tokens)
}
