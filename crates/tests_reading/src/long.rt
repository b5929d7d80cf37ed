//! Long texts: tokens at their limits and past them, and texts of a mebibyte.

use crate::expect::expect;
use crate::shown::MOST_BYTES;
use pt_choice::{NoMemory, Octets};
use pt_lex::{LexStop, tokens_of};
use pt_token::Kind;
use std::alloc::Global;

/// A text: a front, so many times a piece, and a back.
pub type Long = (&'static [u8], &'static [u8], usize, &'static [u8]);

/// A token, with how much it holds.
#[derive(Clone, Copy)]
enum First {
    Word,
    Mark,
    Minus,
    Number(u64),
    LongName,
    Text(usize),
    LongText,
    Bytes(usize),
    LongBytes,
    Malformed,
    End,
}

/// Texts with their first token, and how many tokens they have.
const LIMITS: [(Long, First, usize); 12] = [
    ((b"\"", b"a", 256, b"\""), First::Text(256), 2),
    ((b"\"", b"a", 257, b"\""), First::LongText, 2),
    ((b"\"", b"\xc3\xa9", 256, b"\""), First::Text(256), 2),
    ((b"\"", b"\\u{41}", 256, b"\""), First::Text(256), 2),
    ((b"\"", b"\\\"", 257, b"\""), First::LongText, 2),
    ((b"\"", b"a", 300, b""), First::Malformed, 1),
    ((b"\"", b"a", 257, b"\n\""), First::Malformed, 1),
    ((b"x\"", b"00", 64, b"\""), First::Bytes(64), 2),
    ((b"x\"", b"00", 65, b"\" a"), First::LongBytes, 3),
    ((b"x\"", b"0", 131, b"\""), First::Malformed, 1),
    ((b"a", b"b", 40, b""), First::LongName, 2),
    (
        (b"1", b"0", 19, b""),
        First::Number(10000000000000000000),
        2,
    ),
];

const HOSTILE: [(Long, First, usize); 12] = [
    ((b"", b"(", 1048576, b""), First::Mark, 1048577),
    ((b"", b"\"", 1048576, b""), First::Text(0), 524289),
    ((b"", b"-", 1048576, b""), First::Minus, 1048577),
    ((b"", b"not ", 262144, b""), First::Word, 262145),
    (
        (b"", b"9", 1048576, b""),
        First::Number(18446744073709551615),
        2,
    ),
    ((b"", b"0", 1048576, b""), First::Number(0), 1048577),
    ((b"", b"a", 1048576, b""), First::LongName, 2),
    ((b"", b"#", 1048576, b""), First::End, 1),
    ((b"", b" ", 1048576, b""), First::End, 1),
    ((b"\"", b"a", 1048574, b"\""), First::LongText, 2),
    ((b"\"", b"a", 1048575, b""), First::Malformed, 1),
    ((b"x\"", b"00", 524286, b"\""), First::LongBytes, 2),
];

/// The text that is written so.
pub fn text_of(alloc: Global, long: Long) -> Result<Octets, NoMemory> {
    let (front, piece, times, back) = long;
    let mut text = Octets::of(alloc, front)?;
    for _ in 0..times {
        push_all(&mut text, piece)?;
    }
    push_all(&mut text, back)?;
    Ok(text)
}

fn push_all(text: &mut Octets, piece: &[u8]) -> Result<(), NoMemory> {
    for byte in piece {
        text.push(*byte)?;
    }
    Ok(())
}

fn is_first(kind: &Kind, first: First) -> bool {
    match kind {
        Kind::Text(chars) => matches!(first, First::Text(count) if chars.len() == count),
        Kind::Bytes(bytes) => matches!(first, First::Bytes(count) if bytes.len() == count),
        Kind::Number(number) => matches!(first, First::Number(wanted) if *number == wanted),
        other => is_bare(other, first),
    }
}

fn is_bare(kind: &Kind, first: First) -> bool {
    match first {
        First::Word => matches!(kind, Kind::Word(_)),
        First::Mark => matches!(kind, Kind::Mark(_)),
        First::Minus => matches!(kind, Kind::Minus(false)),
        First::LongName => matches!(kind, Kind::LongName),
        First::LongText => matches!(kind, Kind::LongText),
        First::LongBytes => matches!(kind, Kind::LongBytes),
        First::Malformed => matches!(kind, Kind::Malformed),
        First::End => matches!(kind, Kind::End),
        _ => false,
    }
}

// Whether the text has so many tokens, of which this is the first.
fn begins_so(alloc: Global, long: Long, first: First, count: usize) -> Result<bool, LexStop> {
    let text = text_of(alloc, long)?;
    if text.len() > MOST_BYTES {
        return Ok(false);
    }
    let tokens = tokens_of(alloc, text.as_slice())?;
    match tokens.as_slice().first() {
        Some(token) => Ok(tokens.len() == count && is_first(&token.kind, first)),
        None => Ok(false),
    }
}

#[test]
fn a_token_past_its_limit_is_one_token(rt: HostRuntime) {
    for (row, (text, first, count)) in LIMITS.iter().enumerate() {
        expect(&rt, row, begins_so(rt.alloc(), *text, *first, *count));
    }
}

#[test]
fn a_hostile_text_is_cut_into_its_tokens(rt: HostRuntime) {
    for (row, (text, first, count)) in HOSTILE.iter().enumerate() {
        expect(&rt, row, begins_so(rt.alloc(), *text, *first, *count));
    }
}
