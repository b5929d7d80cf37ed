//! Tokens as plain data.

use pt_lex::{mark_text, word_text};
use pt_token::{Kind, Token};
use pt_val::Place;

/// No text of the tables is longer.
pub const MOST_BYTES: usize = 1048576;

/// What a token is.
#[derive(Clone, Copy)]
pub enum Shown {
    Word(&'static [u8]),
    Mark(&'static [char]),
    Minus,
    /// A minus sign before a number.
    Sign,
    Number(u64),
    Name(&'static [u8]),
    LongName,
    Text(&'static [char]),
    LongText,
    Bytes(&'static [u8]),
    LongBytes,
    Malformed,
    End,
}

/// A token with its line and column.
pub type Row = (u32, u32, Shown);

/// Whether the token is of this kind and stands there.
pub fn is_shown(token: &Token, row: Row) -> bool {
    token.at
        == Place {
            line: row.0,
            column: row.1,
        }
        && is_kind(&token.kind, row.2)
}

fn is_kind(kind: &Kind, shown: Shown) -> bool {
    match kind {
        Kind::Word(word) => matches!(shown, Shown::Word(text) if word_text(*word) == text),
        Kind::Mark(mark) => matches!(shown, Shown::Mark(text) if mark_text(*mark) == text),
        Kind::Minus(number) => is_sign(*number, shown),
        Kind::Number(number) => matches!(shown, Shown::Number(wanted) if *number == wanted),
        Kind::Name(name) => matches!(shown, Shown::Name(text) if name.as_slice() == text),
        Kind::Text(chars) => matches!(shown, Shown::Text(text) if chars.as_slice() == text),
        Kind::Bytes(bytes) => matches!(shown, Shown::Bytes(wanted) if bytes.as_slice() == wanted),
        other => is_bare(other, shown),
    }
}

fn is_sign(number: bool, shown: Shown) -> bool {
    match shown {
        Shown::Sign => number,
        Shown::Minus => !number,
        _ => false,
    }
}

fn is_bare(kind: &Kind, shown: Shown) -> bool {
    match shown {
        Shown::LongName => matches!(kind, Kind::LongName),
        Shown::LongText => matches!(kind, Kind::LongText),
        Shown::LongBytes => matches!(kind, Kind::LongBytes),
        Shown::Malformed => matches!(kind, Kind::Malformed),
        Shown::End => matches!(kind, Kind::End),
        _ => false,
    }
}
