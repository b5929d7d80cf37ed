//! Reading the strategies that hold no other strategy.

ghost use Rattle.std.specs.Prelude.{◌≡◌, ◌+◌, ◌<◌, ◌≤◌, ◌^◌, Ok, List, length, IfOk};
ghost use Rattle.pt_taking.specs.Gives.{Gives};
ghost use Rattle.pt_ast.specs.Plain.{plain_expr, plain_strat};
ghost use Rattle.pt_ast.specs.Trees.{StratTree, Ints_of, Blobs_of, Self_of};
ghost use Rattle.pt_token.specs.declared.token.Token.{Token};
ghost use Rattle.pt_grammar.specs.StratGrammar.{nodes};
ghost use Rattle.pt_grammar.specs.ExprReading.{inner};
ghost use Rattle.pt_grammar.specs.StratReading.{alphabet_at, bounds_at, texts_at, bounded_at, bools_at, sampled_at, strat_below};

use pt_ast::{Alphabet, Expr, Strat};
use pt_choice::NoMemory;
use pt_grammar::Sort;
use pt_read_exprs::read_expr;
use pt_taking::{Stop, Terminal, one, open};
use pt_token::{Kind, Token};
use pt_val::Place;
use std::alloc::Global;

/// Reads what stands behind `ints`.
#[tactic(auto, unfolding(pt_grammar::specs::StratReading::bounded_at))]
pub(crate) fn read_ints(
    alloc: Global,
    left: u32,
    at: Place,
    from: u32,
    tokens: &[Token],
) -> Result<(Box<Strat>, u32, &[Token]), Stop<'_>>
    requires few { left ≤ 64 }
    requires room { from + length tokens.now < 2 ^ 21 }
    ensures gives { Gives (λ x. (plain_strat x.0.value, x.2.now)) result (bounded_at left (strat_below left) (inner left).expr at from (Ints_of at from) tokens.now) }
    ensures next { IfOk result (λ x. x.1 ≡ from + nodes (plain_strat x.0.value)) }
    ensures room { IfOk result (λ x. x.1 + length x.2.now ≤ from + length tokens.now) }
{
    let inside = open(Terminal::OpenParen, left, tokens)?;
    let ((lo, hi), rest) = read_bounds(alloc, left, inside)?;
    let strat = boxed(alloc, Strat::ints(at, from, lo, hi))?;
    Ok((strat, from + 1, rest))
}

/// Reads what stands behind `blobs`.
#[tactic(auto, unfolding(pt_grammar::specs::StratReading::bounded_at))]
pub(crate) fn read_blobs(
    alloc: Global,
    left: u32,
    at: Place,
    from: u32,
    tokens: &[Token],
) -> Result<(Box<Strat>, u32, &[Token]), Stop<'_>>
    requires few { left ≤ 64 }
    requires room { from + length tokens.now < 2 ^ 21 }
    ensures gives { Gives (λ x. (plain_strat x.0.value, x.2.now)) result (bounded_at left (strat_below left) (inner left).expr at from (Blobs_of at from) tokens.now) }
    ensures next { IfOk result (λ x. x.1 ≡ from + nodes (plain_strat x.0.value)) }
    ensures room { IfOk result (λ x. x.1 + length x.2.now ≤ from + length tokens.now) }
{
    let inside = open(Terminal::OpenParen, left, tokens)?;
    let ((lo, hi), rest) = read_bounds(alloc, left, inside)?;
    let strat = boxed(alloc, Strat::blobs(at, from, lo, hi))?;
    Ok((strat, from + 1, rest))
}

/// Reads what stands behind `bools`.
#[tactic(auto, unfolding(pt_grammar::specs::StratReading::bools_at))]
pub(crate) fn read_bools(
    alloc: Global,
    left: u32,
    at: Place,
    from: u32,
    tokens: &[Token],
) -> Result<(Box<Strat>, u32, &[Token]), Stop<'_>>
    requires few { left ≤ 64 }
    requires room { from + length tokens.now < 2 ^ 21 }
    ensures gives { Gives (λ x. (plain_strat x.0.value, x.2.now)) result (bools_at left (strat_below left) (inner left).expr at from tokens.now) }
    ensures next { IfOk result (λ x. x.1 ≡ from + nodes (plain_strat x.0.value)) }
    ensures room { IfOk result (λ x. x.1 + length x.2.now ≤ from + length tokens.now) }
{
    let inside = open(Terminal::OpenParen, left, tokens)?;
    let rest = one(Terminal::CloseParen, inside)?;
    let strat = boxed(alloc, Strat::bools(at, from))?;
    Ok((strat, from + 1, rest))
}

/// Reads what stands behind `texts`.
#[tactic(auto, unfolding(pt_grammar::specs::StratReading::texts_at))]
pub(crate) fn read_texts(
    alloc: Global,
    left: u32,
    at: Place,
    from: u32,
    tokens: &[Token],
) -> Result<(Box<Strat>, u32, &[Token]), Stop<'_>>
    requires few { left ≤ 64 }
    requires room { from + length tokens.now < 2 ^ 21 }
    ensures gives { Gives (λ x. (plain_strat x.0.value, x.2.now)) result (texts_at left (strat_below left) (inner left).expr at from tokens.now) }
    ensures next { IfOk result (λ x. x.1 ≡ from + nodes (plain_strat x.0.value)) }
    ensures room { IfOk result (λ x. x.1 + length x.2.now ≤ from + length tokens.now) }
{
    let inside = open(Terminal::OpenParen, left, tokens)?;
    let (alphabet, after) = read_alphabet(inside)?;
    let behind = one(Terminal::Comma, after)?;
    let ((lo, hi), rest) = read_bounds(alloc, left, behind)?;
    let strat = boxed(alloc, Strat::texts(at, from, alphabet, lo, hi))?;
    Ok((strat, from + 1, rest))
}

/// Reads what stands behind `sampled_from`.
#[tactic(auto, unfolding(pt_grammar::specs::StratReading::sampled_at))]
pub(crate) fn read_sampled(
    alloc: Global,
    left: u32,
    at: Place,
    from: u32,
    tokens: &[Token],
) -> Result<(Box<Strat>, u32, &[Token]), Stop<'_>>
    requires few { left ≤ 64 }
    requires room { from + length tokens.now < 2 ^ 21 }
    ensures gives { Gives (λ x. (plain_strat x.0.value, x.2.now)) result (sampled_at left (strat_below left) (inner left).expr at from tokens.now) }
    ensures next { IfOk result (λ x. x.1 ≡ from + nodes (plain_strat x.0.value)) }
    ensures room { IfOk result (λ x. x.1 + length x.2.now ≤ from + length tokens.now) }
{
    let inside = open(Terminal::OpenParen, left, tokens)?;
    let (list, after) = expr_below(alloc, left, inside)?;
    let rest = one(Terminal::CloseParen, after)?;
    let strat = boxed(alloc, Strat::sampled_from(at, from, list))?;
    Ok((strat, from + 1, rest))
}

/// Reads what stands behind `self`, which is nothing.
pub(crate) fn read_again(
    alloc: Global,
    at: Place,
    from: u32,
    tokens: &[Token],
) -> Result<(Box<Strat>, u32, &[Token]), Stop<'_>>
    ensures gives { Gives {Y = StratTree × List Token} (λ x. (plain_strat x.0.value, x.2.now)) result (Ok (Self_of at 0, tokens.now)) }
    ensures next { IfOk result (λ x. x.1 ≡ from + nodes (plain_strat x.0.value)) }
    ensures room { IfOk result (λ x. x.1 + length x.2.now ≤ from + length tokens.now) }
{
    let strat = boxed(alloc, Strat::again(at))?;
    Ok((strat, from, tokens))
}

pub(crate) fn boxed(alloc: Global, strat: Strat) -> Result<Box<Strat>, NoMemory>
    ensures { IfOk result (λ made. made.value ≡ strat) }
{
    Ok(Box::new(alloc, strat)?)
}

/// Reads two expressions, up to the end of the brackets.
#[tactic(auto, unfolding(pt_grammar::specs::StratReading::bounds_at))]
pub(crate) fn read_bounds(
    alloc: Global,
    left: u32,
    tokens: &[Token],
) -> Result<((Expr, Expr), &[Token]), Stop<'_>>
    requires some { 0 < left }
    requires few { left ≤ 64 }
    ensures gives { Gives (λ x. ((plain_expr x.0.0, plain_expr x.0.1), x.1.now)) result (bounds_at (inner left).expr tokens.now) }
    ensures shorter { IfOk result (λ x. length x.1.now < length tokens.now) }
{
    let (lo, after) = expr_below(alloc, left, tokens)?;
    let behind = one(Terminal::Comma, after)?;
    let (hi, after) = expr_below(alloc, left, behind)?;
    let rest = one(Terminal::CloseParen, after)?;
    Ok(((lo, hi), rest))
}

/// Reads the characters of `texts`, of which there is one at least.
fn read_alphabet(tokens: &[Token]) -> Result<(Alphabet, &[Token]), Stop<'_>>
    ensures gives { Gives (λ x. (x.0, x.1.now)) result (alphabet_at tokens.now) }
    ensures shorter { IfOk result (λ x. length x.1.now < length tokens.now) }
{
    let Some((first, rest)) = tokens.split_first() else {
        return Err(Stop::At(Sort::Syntax, tokens));
    };
    match &first.kind {
        Kind::Text(chars) => {
            if chars.len() == 0 {
                return Err(Stop::At(Sort::OutOfRange, tokens));
            }
            let alphabet = Alphabet {
                at: first.at,
                chars: chars.copy()?,
            };
            Ok((alphabet, rest))
        }
        Kind::LongText => Err(Stop::At(Sort::OutOfRange, tokens)),
        _ => Err(Stop::At(Sort::Syntax, tokens)),
    }
}

/// Reads an expression inside brackets.
pub(crate) fn expr_below(
    alloc: Global,
    left: u32,
    tokens: &[Token],
) -> Result<(Expr, &[Token]), Stop<'_>>
    requires some { 0 < left }
    requires few { left ≤ 64 }
    ensures gives { Gives (λ x. (plain_expr x.0, x.1.now)) result ((inner left).expr tokens.now) }
    ensures shorter { IfOk result (λ x. length x.1.now < length tokens.now) }
{
    read_expr(alloc, left - 1, tokens)
}
