//! Reading types.

ghost use Rattle.std.specs.Prelude.{◌≡◌, ◌∷◌, [], ◌<◌, ◌≤◌, IfOk, length, map};
ghost use Rattle.pt_ast.specs.Plain.{plain_type};
ghost use Rattle.pt_grammar.specs.Reading.{refused_at, room_at, with_front};
ghost use Rattle.pt_grammar.specs.TypeReading.{type_at, type_below, list_type_at, tuple_type_at, more_types_at};
ghost use Rattle.pt_taking.specs.Gives.{Fails, Gives};

use crate::{Stop, Terminal, after, one, open, refusal};
use pt_choice::Seq;
use pt_grammar::Sort;
use pt_token::{Kind, Token, Word};
use pt_val::{Ty, Tys};
use std::alloc::Global;

/// How many parts a tuple's type may have beside the first two.
const MORE_PARTS: u32 = 6;

/// Reads a type, where this many levels are left.
#[cycle(types)]
#[tactic(auto, unfolding(pt_grammar::specs::TypeReading::type_on))]
pub fn read_type(alloc: Global, left: u32, tokens: &[Token]) -> Result<(Ty, &[Token]), Stop<'_>>
    ensures gives { Gives (λ x. (plain_type x.0, x.1.now)) result (type_at left tokens.now) }
    ensures shorter { IfOk result (λ x. length x.1.now < length tokens.now) }
{
    let Some((first, rest)) = tokens.split_first() else {
        return Err(Stop::At(Sort::Syntax, tokens));
    };
    match first.kind {
        Kind::Word(Word::Int) => Ok((Ty::Int, rest)),
        Kind::Word(Word::Bool) => Ok((Ty::Bool, rest)),
        Kind::Word(Word::Text) => Ok((Ty::Text, rest)),
        Kind::Word(Word::Bytes) => Ok((Ty::Bytes, rest)),
        Kind::Word(Word::Tree) => Ok((Ty::Tree, rest)),
        Kind::Word(Word::List) => read_list(alloc, left, rest),
        Kind::Word(Word::Tuple) => read_tuple(alloc, left, rest),
        _ => Err(Stop::At(Sort::Syntax, tokens)),
    }
}

/// Reads what stands behind the word `list`.
#[cycle(types)]
#[tactic(auto, unfolding(pt_grammar::specs::TypeReading::list_type_at))]
fn read_list(alloc: Global, left: u32, tokens: &[Token]) -> Result<(Ty, &[Token]), Stop<'_>>
    ensures gives { Gives (λ x. (plain_type x.0, x.1.now)) result (list_type_at left (type_below left) tokens.now) }
    ensures shorter { IfOk result (λ x. length x.1.now < length tokens.now) }
{
    let inside = open(Terminal::OpenParen, left, tokens)?;
    let (member, after) = read_inner(alloc, left, inside)?;
    let rest = one(Terminal::CloseParen, after)?;
    Ok((Ty::List(Box::new(alloc, member)?), rest))
}

/// Reads what stands behind the word `tuple`.
#[cycle(types)]
#[tactic(auto, unfolding(pt_grammar::specs::TypeReading::tuple_type_at))]
fn read_tuple(alloc: Global, left: u32, tokens: &[Token]) -> Result<(Ty, &[Token]), Stop<'_>>
    ensures gives { Gives (λ x. (plain_type x.0, x.1.now)) result (tuple_type_at left (type_below left) tokens.now) }
    ensures shorter { IfOk result (λ x. length x.1.now < length tokens.now) }
{
    let inside = open(Terminal::OpenParen, left, tokens)?;
    let (first, after_first) = read_inner(alloc, left, inside)?;
    let behind = one(Terminal::Comma, after_first)?;
    let (second, after_second) = read_inner(alloc, left, behind)?;
    let (parts, after) = read_parts(alloc, left, first, second, after_second)?;
    let rest = one(Terminal::CloseParen, after)?;
    Ok((Ty::Tuple(parts), rest))
}

/// Reads the parts behind the second, each behind a comma.
#[cycle(types)]
fn read_parts(
    alloc: Global,
    left: u32,
    first: Ty,
    second: Ty,
    tokens: &[Token],
) -> Result<(Tys, &[Token]), Stop<'_>>
    requires { 0 < left }
    ensures gives { Gives (λ x. (map plain_type x.0, x.1.now)) result
        (with_front (plain_type first ∷ plain_type second ∷ []) (more_types_at (type_below left) 6 tokens.now)) }
    ensures shorter { IfOk result (λ x. length x.1.now ≤ length tokens.now) }
{
    let mut parts = Seq::empty(alloc);
    parts.push(first)?;
    parts.push(second)?;
    let mut room = MORE_PARTS;
    let mut rest = tokens;
    while let Some(behind) = after(Terminal::Comma, rest) {
        let (part, more) = read_part(alloc, left, room, behind)?;
        parts.push(part)?;
        room = room.saturating_sub(1);
        rest = more;
    }
    Ok((parts, rest))
}

/// Reads a part, where there is room for this many.
#[cycle(types)]
fn read_part(
    alloc: Global,
    left: u32,
    room: u32,
    tokens: &[Token],
) -> Result<(Ty, &[Token]), Stop<'_>>
    requires { 0 < left }
    ensures gives { Gives (λ x. (plain_type x.0, x.1.now)) result (room_at (type_below left) room tokens.now) }
    ensures shorter { IfOk result (λ x. length x.1.now < length tokens.now) }
{
    if room == 0 {
        return Err(refuse(alloc, left, tokens));
    }
    read_inner(alloc, left, tokens)
}

/// Why a part too many is refused.
#[cycle(types)]
fn refuse(alloc: Global, left: u32, tokens: &[Token]) -> Stop<'_>
    requires { 0 < left }
    ensures { Fails result (refused_at (type_below left) tokens.now) }
{
    if tokens.is_empty() {
        return Stop::At(Sort::Syntax, tokens);
    }
    match refusal(read_inner(alloc, left, &tokens[..1])) {
        Ok(which) => Stop::At(which, tokens),
        Err(_) => Stop::NoMemory,
    }
}

/// Reads a type one level deeper.
#[cycle(types)]
fn read_inner(alloc: Global, left: u32, tokens: &[Token]) -> Result<(Ty, &[Token]), Stop<'_>>
    requires { 0 < left }
    ensures gives { Gives (λ x. (plain_type x.0, x.1.now)) result (type_below left tokens.now) }
    ensures shorter { IfOk result (λ x. length x.1.now < length tokens.now) }
{
    read_type(alloc, left - 1, tokens)
}
