//! Reading strategies. Each is read with the number of its first node, and gives the number of the next.

ghost use Rattle.std.specs.Prelude.{◌≡◌, ℕ, ◌+◌, ◌<◌, ◌≤◌, ◌^◌, [], ◌∷◌, ◌++◌, length, map, IfOk, OnOk};
ghost use Rattle.pt_taking.specs.Gives.{Fails, Gives};
ghost use Rattle.pt_ast.specs.Plain.{plain_expr, plain_strat, plain_strats};
ghost use Rattle.pt_ast.specs.Numbers.{strats_numbers};
ghost use Rattle.pt_grammar.specs.StratGrammar.{nodes};
ghost use Rattle.pt_grammar.specs.Reading.{with_front, refused_at, room_at};
ghost use Rattle.pt_grammar.specs.ExprReading.{inner};
ghost use Rattle.pt_grammar.specs.StratReading.{lists_at, tuples_at, one_of_at, flat_map_at, recursive_at, applied_at, strat_at, strat_below, more_strats_at};
ghost use Rattle.pt_ast.specs.Trees.{Map_of, Filter_of};

use crate::leaves::{
    boxed, expr_below, read_again, read_blobs, read_bools, read_bounds, read_ints, read_sampled,
    read_texts,
};
use pt_ast::{Strat, Strats};
use pt_choice::{NoMemory, Seq};
use pt_grammar::Sort;
use pt_taking::{Stop, Terminal, after, limited, name, one, open, refusal};
use pt_token::{Kind, Token, Word};
use pt_val::Place;
use std::alloc::Global;

/// The most parts of `tuples`.
const TUPLES: u32 = 8;

/// The most parts of `one_of`.
const ONE_OF: u32 = 16;

/// The deepest that `recursive` goes.
const DEEPEST: u32 = 8;

/// Reads a strategy, where this many levels are left.
#[cycle(strats)]
#[tactic(auto, unfolding(pt_grammar::specs::StratReading::strat_on))]
pub fn read_strat(
    alloc: Global,
    left: u32,
    from: u32,
    tokens: &[Token],
) -> Result<(Box<Strat>, u32, &[Token]), Stop<'_>>
    requires few { left ≤ 64 }
    requires room { from + length tokens.now ≤ 2 ^ 21 }
    ensures gives { Gives (λ x. (plain_strat x.0.value, x.2.now)) result (strat_at left from tokens.now) }
    ensures next { IfOk result (λ x. x.1 ≡ from + nodes (plain_strat x.0.value)) }
    ensures room { IfOk result (λ x. x.1 + length x.2.now ≤ from + length tokens.now) }
{
    let Some((first, rest)) = tokens.split_first() else {
        return Err(Stop::At(Sort::Syntax, tokens));
    };
    let at = first.at;
    match first.kind {
        Kind::Word(Word::Ints) => read_ints(alloc, left, at, from, rest),
        Kind::Word(Word::Bools) => read_bools(alloc, left, at, from, rest),
        Kind::Word(Word::Texts) => read_texts(alloc, left, at, from, rest),
        Kind::Word(Word::Blobs) => read_blobs(alloc, left, at, from, rest),
        Kind::Word(Word::SampledFrom) => read_sampled(alloc, left, at, from, rest),
        Kind::Word(Word::Lists) => read_lists(alloc, left, at, from, rest),
        Kind::Word(Word::Tuples) => read_tuples(alloc, left, at, from, rest),
        Kind::Word(Word::OneOf) => read_one_of(alloc, left, at, from, rest),
        Kind::Word(Word::Map) => read_map(alloc, left, at, from, rest),
        Kind::Word(Word::Filter) => read_filter(alloc, left, at, from, rest),
        Kind::Word(Word::FlatMap) => read_flat_map(alloc, left, at, from, rest),
        Kind::Word(Word::Recursive) => read_recursive(alloc, left, at, from, rest),
        Kind::Word(Word::Again) => read_again(alloc, at, from, rest),
        _ => Err(Stop::At(Sort::Syntax, tokens)),
    }
}

/// Reads a strategy inside brackets.
#[cycle(strats)]
fn strat_below(
    alloc: Global,
    left: u32,
    from: u32,
    tokens: &[Token],
) -> Result<(Box<Strat>, u32, &[Token]), Stop<'_>>
    requires some { 0 < left }
    requires few { left ≤ 64 }
    requires room { from + length tokens.now ≤ 2 ^ 21 }
    ensures gives { Gives (λ x. (plain_strat x.0.value, x.2.now)) result (strat_below left from tokens.now) }
    ensures next { IfOk result (λ x. x.1 ≡ from + nodes (plain_strat x.0.value)) }
    ensures room { IfOk result (λ x. x.1 + length x.2.now ≤ from + length tokens.now) }
{
    read_strat(alloc, left - 1, from, tokens)
}

/// Reads what stands behind `lists`.
#[cycle(strats)]
#[tactic(auto, unfolding(pt_grammar::specs::StratReading::lists_at))]
fn read_lists(
    alloc: Global,
    left: u32,
    at: Place,
    from: u32,
    tokens: &[Token],
) -> Result<(Box<Strat>, u32, &[Token]), Stop<'_>>
    requires few { left ≤ 64 }
    requires room { from + length tokens.now < 2 ^ 21 }
    ensures gives { Gives (λ x. (plain_strat x.0.value, x.2.now)) result (lists_at left (strat_below left) (inner left).expr at from tokens.now) }
    ensures next { IfOk result (λ x. x.1 ≡ from + nodes (plain_strat x.0.value)) }
    ensures room { IfOk result (λ x. x.1 + length x.2.now ≤ from + length tokens.now) }
{
    let inside = open(Terminal::OpenParen, left, tokens)?;
    let (element, next, after) = strat_below(alloc, left, from + 1, inside)?;
    let behind = one(Terminal::Comma, after)?;
    let ((lo, hi), rest) = read_bounds(alloc, left, behind)?;
    let strat = boxed(alloc, Strat::lists(at, from, element, lo, hi))?;
    Ok((strat, next, rest))
}

/// Reads what stands behind `tuples`.
#[cycle(strats)]
#[tactic(auto, unfolding(pt_grammar::specs::StratReading::tuples_at))]
fn read_tuples(
    alloc: Global,
    left: u32,
    at: Place,
    from: u32,
    tokens: &[Token],
) -> Result<(Box<Strat>, u32, &[Token]), Stop<'_>>
    requires few { left ≤ 64 }
    requires room { from + length tokens.now < 2 ^ 21 }
    ensures gives { Gives (λ x. (plain_strat x.0.value, x.2.now)) result (tuples_at left (strat_below left) (inner left).expr at from tokens.now) }
    ensures next { IfOk result (λ x. x.1 ≡ from + nodes (plain_strat x.0.value)) }
    ensures room { IfOk result (λ x. x.1 + length x.2.now ≤ from + length tokens.now) }
{
    let inside = open(Terminal::OpenParen, left, tokens)?;
    let mut parts = Seq::empty(alloc);
    let (first, next, after) = strat_below(alloc, left, from + 1, inside)?;
    push(&mut parts, first)?;
    let behind = one(Terminal::Comma, after)?;
    let (second, next, after) = strat_below(alloc, left, next, behind)?;
    push(&mut parts, second)?;
    let (parts, next, after) = read_more(alloc, left, TUPLES - 2, parts, next, after)?;
    let rest = one(Terminal::CloseParen, after)?;
    let strat = boxed(alloc, Strat::tuples(at, from, parts))?;
    Ok((strat, next, rest))
}

/// Reads what stands behind `one_of`.
#[cycle(strats)]
#[tactic(auto, unfolding(pt_grammar::specs::StratReading::one_of_at))]
fn read_one_of(
    alloc: Global,
    left: u32,
    at: Place,
    from: u32,
    tokens: &[Token],
) -> Result<(Box<Strat>, u32, &[Token]), Stop<'_>>
    requires few { left ≤ 64 }
    requires room { from + length tokens.now < 2 ^ 21 }
    ensures gives { Gives (λ x. (plain_strat x.0.value, x.2.now)) result (one_of_at left (strat_below left) (inner left).expr at from tokens.now) }
    ensures next { IfOk result (λ x. x.1 ≡ from + nodes (plain_strat x.0.value)) }
    ensures room { IfOk result (λ x. x.1 + length x.2.now ≤ from + length tokens.now) }
{
    let inside = open(Terminal::OpenParen, left, tokens)?;
    let mut parts = Seq::empty(alloc);
    let (first, next, after) = strat_below(alloc, left, from + 1, inside)?;
    push(&mut parts, first)?;
    let (parts, next, after) = read_more(alloc, left, ONE_OF - 1, parts, next, after)?;
    let rest = one(Terminal::CloseParen, after)?;
    let strat = boxed(alloc, Strat::one_of(at, from, parts))?;
    Ok((strat, next, rest))
}

/// Reads what stands behind `map`.
#[cycle(strats)]
#[tactic(auto, unfolding(pt_grammar::specs::StratReading::applied_at))]
fn read_map(
    alloc: Global,
    left: u32,
    at: Place,
    from: u32,
    tokens: &[Token],
) -> Result<(Box<Strat>, u32, &[Token]), Stop<'_>>
    requires few { left ≤ 64 }
    requires room { from + length tokens.now < 2 ^ 21 }
    ensures gives { Gives (λ x. (plain_strat x.0.value, x.2.now)) result (applied_at left (strat_below left) (inner left).expr at from (Map_of at from) tokens.now) }
    ensures next { IfOk result (λ x. x.1 ≡ from + nodes (plain_strat x.0.value)) }
    ensures room { IfOk result (λ x. x.1 + length x.2.now ≤ from + length tokens.now) }
{
    let inside = open(Terminal::OpenParen, left, tokens)?;
    let (given, after) = name(inside)?;
    let behind = one(Terminal::Comma, after)?;
    let (inner, next, after) = strat_below(alloc, left, from + 1, behind)?;
    let behind = one(Terminal::Comma, after)?;
    let (body, after) = expr_below(alloc, left, behind)?;
    let rest = one(Terminal::CloseParen, after)?;
    let strat = boxed(alloc, Strat::map(at, from, given, inner, body))?;
    Ok((strat, next, rest))
}

/// Reads what stands behind `filter`.
#[cycle(strats)]
#[tactic(auto, unfolding(pt_grammar::specs::StratReading::applied_at))]
fn read_filter(
    alloc: Global,
    left: u32,
    at: Place,
    from: u32,
    tokens: &[Token],
) -> Result<(Box<Strat>, u32, &[Token]), Stop<'_>>
    requires few { left ≤ 64 }
    requires room { from + length tokens.now < 2 ^ 21 }
    ensures gives { Gives (λ x. (plain_strat x.0.value, x.2.now)) result (applied_at left (strat_below left) (inner left).expr at from (Filter_of at from) tokens.now) }
    ensures next { IfOk result (λ x. x.1 ≡ from + nodes (plain_strat x.0.value)) }
    ensures room { IfOk result (λ x. x.1 + length x.2.now ≤ from + length tokens.now) }
{
    let inside = open(Terminal::OpenParen, left, tokens)?;
    let (given, after) = name(inside)?;
    let behind = one(Terminal::Comma, after)?;
    let (inner, next, after) = strat_below(alloc, left, from + 1, behind)?;
    let behind = one(Terminal::Comma, after)?;
    let (cond, after) = expr_below(alloc, left, behind)?;
    let rest = one(Terminal::CloseParen, after)?;
    let strat = boxed(alloc, Strat::filter(at, from, given, inner, cond))?;
    Ok((strat, next, rest))
}

/// Reads what stands behind `flatmap`.
#[cycle(strats)]
#[tactic(auto, unfolding(pt_grammar::specs::StratReading::flat_map_at))]
fn read_flat_map(
    alloc: Global,
    left: u32,
    at: Place,
    from: u32,
    tokens: &[Token],
) -> Result<(Box<Strat>, u32, &[Token]), Stop<'_>>
    requires few { left ≤ 64 }
    requires room { from + length tokens.now < 2 ^ 21 }
    ensures gives { Gives (λ x. (plain_strat x.0.value, x.2.now)) result (flat_map_at left (strat_below left) (inner left).expr at from tokens.now) }
    ensures next { IfOk result (λ x. x.1 ≡ from + nodes (plain_strat x.0.value)) }
    ensures room { IfOk result (λ x. x.1 + length x.2.now ≤ from + length tokens.now) }
{
    let inside = open(Terminal::OpenParen, left, tokens)?;
    let (given, after) = name(inside)?;
    let behind = one(Terminal::Comma, after)?;
    let (first, next, after) = strat_below(alloc, left, from + 1, behind)?;
    let behind = one(Terminal::Comma, after)?;
    let (second, next, after) = strat_below(alloc, left, next, behind)?;
    let rest = one(Terminal::CloseParen, after)?;
    let strat = boxed(alloc, Strat::flat_map(at, from, given, first, second))?;
    Ok((strat, next, rest))
}

/// Reads what stands behind `recursive`.
#[cycle(strats)]
#[tactic(auto, unfolding(pt_grammar::specs::StratReading::recursive_at))]
fn read_recursive(
    alloc: Global,
    left: u32,
    at: Place,
    from: u32,
    tokens: &[Token],
) -> Result<(Box<Strat>, u32, &[Token]), Stop<'_>>
    requires few { left ≤ 64 }
    requires room { from + length tokens.now < 2 ^ 21 }
    ensures gives { Gives (λ x. (plain_strat x.0.value, x.2.now)) result (recursive_at left (strat_below left) (inner left).expr at from tokens.now) }
    ensures next { IfOk result (λ x. x.1 ≡ from + nodes (plain_strat x.0.value)) }
    ensures room { IfOk result (λ x. x.1 + length x.2.now ≤ from + length tokens.now) }
{
    let inside = open(Terminal::OpenParen, left, tokens)?;
    let (depth, after) = limited(1, DEEPEST, inside)?;
    let behind = one(Terminal::Comma, after)?;
    let (first, next, after) = strat_below(alloc, left, from + 1, behind)?;
    let behind = one(Terminal::Comma, after)?;
    let (second, next, after) = strat_below(alloc, left, next, behind)?;
    let rest = one(Terminal::CloseParen, after)?;
    let strat = boxed(alloc, Strat::recursive(at, from, depth, first, second))?;
    Ok((strat, next, rest))
}

/// Reads a strategy, where there is room for this many.
#[cycle(strats)]
fn read_part(
    alloc: Global,
    left: u32,
    room: u32,
    from: u32,
    tokens: &[Token],
) -> Result<(Box<Strat>, u32, &[Token]), Stop<'_>>
    requires some { 0 < left }
    requires few { left ≤ 64 }
    requires room { from + length tokens.now ≤ 2 ^ 21 }
    ensures gives { Gives (λ x. (plain_strat x.0.value, x.2.now)) result (room_at (strat_below left from) room tokens.now) }
    ensures next { IfOk result (λ x. x.1 ≡ from + nodes (plain_strat x.0.value)) }
    ensures room { IfOk result (λ x. x.1 + length x.2.now ≤ from + length tokens.now) }
{
    if room == 0 {
        return Err(refuse(alloc, left, from, tokens));
    }
    strat_below(alloc, left, from, tokens)
}

/// Reads strategies, each behind a comma, where there is room for this many: the first ones and these.
#[cycle(strats)]
fn read_more(
    alloc: Global,
    left: u32,
    room: u32,
    first: Strats,
    from: u32,
    tokens: &[Token],
) -> Result<(Strats, u32, &[Token]), Stop<'_>>
    requires some { 0 < left }
    requires few { left ≤ 64 }
    requires room { from + length tokens.now ≤ 2 ^ 21 }
    ensures gives { Gives (λ x. (map plain_strat x.0, x.2.now)) result (with_front (map plain_strat first) (more_strats_at (strat_below left) room from tokens.now)) }
    ensures next { IfOk result (λ x. x.1 + length (strats_numbers (plain_strats first)) ≡ from + length (strats_numbers (plain_strats x.0))) }
    ensures room { IfOk result (λ x. x.1 + length x.2.now ≤ from + length tokens.now) }
{
    let mut parts = first;
    let mut space = room;
    let mut next = from;
    let mut rest = tokens;
    while let Some(behind) = after(Terminal::Comma, rest) {
        let (part, later, more) = read_part(alloc, left, space, next, behind)?;
        push(&mut parts, part)?;
        space = space.saturating_sub(1);
        next = later;
        rest = more;
    }
    Ok((parts, next, rest))
}

/// Why a strategy too many is refused: by what reading its first token alone comes to.
#[cycle(strats)]
fn refuse(alloc: Global, left: u32, from: u32, tokens: &[Token]) -> Stop<'_>
    requires some { 0 < left }
    requires few { left ≤ 64 }
    requires room { from + length tokens.now ≤ 2 ^ 21 }
    ensures { Fails result (refused_at (strat_below left from) tokens.now) }
{
    if tokens.is_empty() {
        return Stop::At(Sort::Syntax, tokens);
    }
    match refusal(strat_below(alloc, left, from, &tokens[..1])) {
        Ok(which) => Stop::At(which, tokens),
        Err(_) => Stop::NoMemory,
    }
}

fn push(parts: &mut Strats, part: Box<Strat>) -> Result<(), NoMemory>
    ensures { OnOk result (parts.new ≡ parts.old ++ part.value ∷ []) }
{
    parts.push(Box::into_inner(part))
}
