//! Tokens taken one by one.

ghost use Rattle.std.specs.Prelude.{◌≡◌, ◌<◌, ◌≤◌, ◌^◌, ◌==◌, pos, neg_ℤ, true, false, length, IfOk, IfSome};
ghost use Rattle.std.specs.Option.{MatchOption};
ghost use Rattle.std.specs.Result.{IfErr};
ghost use Rattle.pt_grammar.specs.Reading.{place_at, token_at, one_at, word_at, open_at, name_at, text_seen, bytes_seen, number_seen, magnitude_seen, limited_at, goes_on};
ghost use Rattle.pt_taking.specs.Gives.{Gives, Stands, TooDeepAt};
ghost use Rattle.pt_taking.specs.Terminals.{is_terminal};

use crate::{Stop, Terminal};
use pt_ast::Ident;
use pt_choice::Octets;
use pt_grammar::Sort;
use pt_token::{Kind, Token};
use pt_val::{Chars, Place};

/// Where the first token stands.
pub fn place(tokens: &[Token]) -> Place
    ensures { result ≡ place_at tokens.now }
{
    match tokens.split_first() {
        Some((token, _)) => token.at,
        None => Place { line: 0, column: 0 },
    }
}

/// Whether the first token is this terminal.
pub fn starts(which: Terminal, tokens: &[Token]) -> bool
    ensures { result ≡ goes_on (is_terminal which) tokens.now }
{
    match tokens.split_first() {
        Some((token, _)) => which.is(&token.kind),
        None => false,
    }
}

/// What stands behind this terminal, where it is the first token.
pub fn after(which: Terminal, tokens: &[Token]) -> Option<&[Token]>
    ensures stands { MatchOption result (goes_on (is_terminal which) tokens.now ≡ false) (λ rest. Stands (is_terminal which) tokens.now rest.now) }
    ensures shorter { IfSome result (λ rest. length rest.now < length tokens.now) }
{
    let (token, rest) = tokens.split_first()?;
    if which.is(&token.kind) {
        Some(rest)
    } else {
        None
    }
}

/// Takes a terminal.
pub fn one(which: Terminal, tokens: &[Token]) -> Result<&[Token], Stop<'_>>
    ensures gives { Gives (λ rest. (tt, rest.now)) result (one_at (is_terminal which) tokens.now) }
    ensures shorter { IfOk result (λ rest. length rest.now < length tokens.now) }
{
    let (_, rest) = word(which, tokens)?;
    Ok(rest)
}

/// Takes a terminal, with its place.
pub fn word(which: Terminal, tokens: &[Token]) -> Result<(Place, &[Token]), Stop<'_>>
    ensures gives { Gives (λ x. (x.0, x.1.now)) result (word_at (is_terminal which) tokens.now) }
    ensures shorter { IfOk result (λ x. length x.1.now < length tokens.now) }
{
    let Some((token, rest)) = tokens.split_first() else {
        return Err(Stop::At(Sort::Syntax, tokens));
    };
    if !which.is(&token.kind) {
        return Err(Stop::At(Sort::Syntax, tokens));
    }
    Ok((token.at, rest))
}

/// Refuses a first token that opens a level, where none is left.
pub fn deeper(left: u32, tokens: &[Token]) -> Result<(), Stop<'_>>
    ensures some { IfOk result (λ _. (left == 0) ≡ false) }
    ensures none { IfErr result (λ e. ((left == 0) ≡ true) × TooDeepAt tokens.now e) }
{
    if left == 0 {
        return Err(Stop::At(Sort::TooDeep, tokens));
    }
    Ok(())
}

/// Takes an opening bracket, where this many levels are left.
pub fn open(which: Terminal, left: u32, tokens: &[Token]) -> Result<&[Token], Stop<'_>>
    ensures gives { Gives (λ rest. (tt, rest.now)) result (open_at (is_terminal which) left tokens.now) }
    ensures some { IfOk result (λ _. 0 < left) }
    ensures shorter { IfOk result (λ rest. length rest.now < length tokens.now) }
{
    let Some((token, rest)) = tokens.split_first() else {
        return Err(Stop::At(Sort::Syntax, tokens));
    };
    if !which.is(&token.kind) {
        return Err(Stop::At(Sort::Syntax, tokens));
    }
    deeper(left, tokens)?;
    Ok(rest)
}

/// Takes a name, with its place.
pub fn name(tokens: &[Token]) -> Result<(Ident, &[Token]), Stop<'_>>
    ensures gives { Gives (λ x. (x.0, x.1.now)) result (name_at tokens.now) }
    ensures shorter { IfOk result (λ x. length x.1.now < length tokens.now) }
{
    let Some((token, rest)) = tokens.split_first() else {
        return Err(Stop::At(Sort::Syntax, tokens));
    };
    match &token.kind {
        Kind::Name(name) => Ok((
            Ident {
                at: token.at,
                name: name.copy()?,
            },
            rest,
        )),
        Kind::LongName => Err(Stop::At(Sort::OutOfRange, tokens)),
        _ => Err(Stop::At(Sort::Syntax, tokens)),
    }
}

/// Takes a text, with its place.
pub fn text(tokens: &[Token]) -> Result<((Place, Chars), &[Token]), Stop<'_>>
    ensures gives { Gives (λ x. (x.0, x.1.now)) result (token_at text_seen tokens.now) }
    ensures shorter { IfOk result (λ x. length x.1.now < length tokens.now) }
{
    let Some((token, rest)) = tokens.split_first() else {
        return Err(Stop::At(Sort::Syntax, tokens));
    };
    match &token.kind {
        Kind::Text(chars) => Ok(((token.at, chars.copy()?), rest)),
        Kind::LongText => Err(Stop::At(Sort::OutOfRange, tokens)),
        _ => Err(Stop::At(Sort::Syntax, tokens)),
    }
}

/// Takes bytes, with their place.
pub fn bytes(tokens: &[Token]) -> Result<((Place, Octets), &[Token]), Stop<'_>>
    ensures gives { Gives (λ x. (x.0, x.1.now)) result (token_at bytes_seen tokens.now) }
    ensures shorter { IfOk result (λ x. length x.1.now < length tokens.now) }
{
    let Some((token, rest)) = tokens.split_first() else {
        return Err(Stop::At(Sort::Syntax, tokens));
    };
    match &token.kind {
        Kind::Bytes(bytes) => Ok(((token.at, bytes.copy()?), rest)),
        Kind::LongBytes => Err(Stop::At(Sort::OutOfRange, tokens)),
        _ => Err(Stop::At(Sort::Syntax, tokens)),
    }
}

/// The least number that is no integer.
const TOO_GREAT: u64 = 0x8000_0000_0000_0000;

/// Takes a number that is an integer, with its place.
pub fn number(tokens: &[Token]) -> Result<((Place, i64), &[Token]), Stop<'_>>
    ensures gives { Gives (λ x. (x.0, x.1.now)) result (token_at number_seen tokens.now) }
    ensures shorter { IfOk result (λ x. length x.1.now < length tokens.now) }
{
    let Some((token, rest)) = tokens.split_first() else {
        return Err(Stop::At(Sort::Syntax, tokens));
    };
    let Kind::Number(count) = token.kind else {
        return Err(Stop::At(Sort::Syntax, tokens));
    };
    if count >= TOO_GREAT {
        return Err(Stop::At(Sort::OutOfRange, tokens));
    }
    Ok(((token.at, count as i64), rest))
}

/// Takes a number behind a minus sign, and gives the integer of both.
pub fn magnitude(tokens: &[Token]) -> Result<(i64, &[Token]), Stop<'_>>
    ensures gives { Gives (λ x. (x.0, x.1.now)) result (token_at magnitude_seen tokens.now) }
    ensures shorter { IfOk result (λ x. length x.1.now < length tokens.now) }
{
    let Some((token, rest)) = tokens.split_first() else {
        return Err(Stop::At(Sort::Syntax, tokens));
    };
    let Kind::Number(count) = token.kind else {
        return Err(Stop::At(Sort::Syntax, tokens));
    };
    if count > TOO_GREAT {
        return Err(Stop::At(Sort::OutOfRange, tokens));
    }
    Ok((negated(count), rest))
}

fn negated(count: u64) -> i64
    requires { count ≤ 2 ^ 63 }
    ensures { result ≡ neg_ℤ (pos count) }
{
    if count == TOO_GREAT {
        return i64::MIN;
    }
    -(count as i64)
}

/// Takes a number between two bounds, which both are allowed.
pub fn limited(least: u32, most: u32, tokens: &[Token]) -> Result<(u32, &[Token]), Stop<'_>>
    ensures gives { Gives (λ x. (x.0, x.1.now)) result (limited_at least most tokens.now) }
    ensures shorter { IfOk result (λ x. length x.1.now < length tokens.now) }
{
    let Some((token, rest)) = tokens.split_first() else {
        return Err(Stop::At(Sort::Syntax, tokens));
    };
    let Kind::Number(count) = token.kind else {
        return Err(Stop::At(Sort::Syntax, tokens));
    };
    if count < u64::from(least) || count > u64::from(most) {
        return Err(Stop::At(Sort::OutOfRange, tokens));
    }
    Ok((count as u32, rest))
}
