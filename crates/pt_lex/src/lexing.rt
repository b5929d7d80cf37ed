ghost use Rattle.std.specs.Prelude.{◌≡◌, ◌∷◌, ◌<◌, ◌^◌, ℕ, List, [], IfOk, length};
ghost use Rattle.pt_val.specs.declared.place.Place.{Place};
ghost use Rattle.pt_token.specs.declared.token.Token.{Token};
ghost use Rattle.pt_token.specs.Ending.{is_last};
ghost use Rattle.pt_lex.specs.Lexing.{Lexed, NotUtf8At, TokensOf};
ghost use Rattle.pt_lex.specs.Outcome.{Outcome, StartsLetter};

use crate::LexStop;
use crate::bytes::read_bytes;
use crate::characters::characters;
use crate::gaps::behind_gap;
use crate::marks::read_mark;
use crate::numbers::{read_minus, read_number};
use crate::places::place_past;
use crate::texts::read_text;
use crate::words::read_word;
use pt_choice::{NoMemory, Seq};
use pt_token::{Kind, Token};
use pt_val::Place;
use std::alloc::Global;

/// The tokens of the text that these bytes encode. The last is the end of the text, or the first malformed one.
///
/// They are found in time that is linear in the text.
pub fn tokens_of(alloc: Global, bytes: &[u8]) -> Result<Seq<Token>, LexStop>
    requires { length bytes.now < 2 ^ 30 }
    ensures tokens { IfOk result (TokensOf bytes.now) }
    ensures not_utf8 { (place : Place) → result ≡ Err (LexStop.NotUtf8 place) → NotUtf8At bytes.now place }
{
    let text = characters(alloc, bytes)?;
    Ok(lexed(alloc, text.as_slice())?)
}

/// The tokens of these characters.
fn lexed(alloc: Global, text: &[char]) -> Result<Seq<Token>, NoMemory>
    requires { length text.now < 2 ^ 30 }
    ensures { IfOk result (Lexed [] text.now) }
{
    let mut tokens = Seq::empty(alloc);
    let mut at = Place { line: 1, column: 1 };
    let mut left = text;
    loop {
        let rest = behind_gap(left);
        at = place_past(at, &left[..left.len() - rest.len()]);
        let (kind, after) = read_token(alloc, rest)?;
        let last = is_last(&kind);
        tokens.push(Token { at, kind })?;
        if last {
            return Ok(tokens);
        }
        at = place_past(at, &rest[..rest.len() - after.len()]);
        left = after;
    }
}

fn is_last(kind: &Kind) -> bool
    ensures { result ≡ is_last kind.now }
{
    matches!(kind, Kind::Malformed | Kind::End)
}

/// The token at the front, and what follows it.
fn read_token(alloc: Global, text: &[char]) -> Result<(Kind, &[char]), NoMemory>
    ensures { IfOk result (λ x. Outcome text.now x.0 x.1.now) }
{
    let Some((first, inside)) = text.split_first() else {
        return Ok((Kind::End, text));
    };
    if first.is_ascii_lowercase() {
        return read_lettered(alloc, text);
    }
    if first.is_ascii_digit() {
        return Ok(read_number(text));
    }
    if *first == '"' {
        return read_text(alloc, text, inside);
    }
    if *first == '-' {
        return Ok((read_minus(inside), inside));
    }
    Ok(read_mark(text))
}

/// The word, name or bytes at the front, and what follows it.
fn read_lettered(alloc: Global, text: &[char]) -> Result<(Kind, &[char]), NoMemory>
    requires { StartsLetter text.now }
    ensures { IfOk result (λ x. Outcome text.now x.0 x.1.now) }
{
    if let Some(inside) = text.strip_prefix(&['x', '"']) {
        return read_bytes(alloc, text, inside);
    }
    read_word(alloc, text)
}
