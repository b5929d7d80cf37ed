//! Texts with their tokens, and bytes that are no text.

use crate::expect::expect;
use crate::shown::Shown::{
    Bytes, End, LongBytes, LongName, LongText, Malformed, Mark, Minus, Name, Number, Sign, Text,
    Word,
};
use crate::shown::{MOST_BYTES, Row, is_shown};
use pt_lex::{LexStop, tokens_of};
use pt_val::Place;
use std::alloc::Global;

const BLANKS: [(&[u8], &[Row]); 10] = [
    (b"", &[(1, 1, End)]),
    (b" \t\r\n\n  ", &[(3, 3, End)]),
    (b"a\x0cb", &[(1, 1, Name(b"a")), (1, 2, Malformed)]),
    (b"\xc2\xa0a", &[(1, 1, Malformed)]),
    (b"\xef\xbb\xbfa", &[(1, 1, Malformed)]),
    (b"a\0", &[(1, 1, Name(b"a")), (1, 2, Malformed)]),
    (
        b"# a\x0c\0\xc3\xa9 {\nif",
        &[(2, 1, Word(b"if")), (2, 3, End)],
    ),
    (b"# a\rif", &[(1, 7, End)]),
    (b"a#b\n#c", &[(1, 1, Name(b"a")), (2, 3, End)]),
    (b"\"#\"", &[(1, 1, Text(&['#'])), (1, 4, End)]),
];

const CUTS: [(&[u8], &[Row]); 12] = [
    (
        b"007",
        &[
            (1, 1, Number(0)),
            (1, 2, Number(0)),
            (1, 3, Number(7)),
            (1, 4, End),
        ],
    ),
    (b"1a", &[(1, 1, Number(1)), (1, 2, Name(b"a")), (1, 3, End)]),
    (
        b"===",
        &[(1, 1, Mark(&['=', '='])), (1, 3, Mark(&['='])), (1, 4, End)],
    ),
    (
        b"<=>=!=",
        &[
            (1, 1, Mark(&['<', '='])),
            (1, 3, Mark(&['>', '='])),
            (1, 5, Mark(&['!', '='])),
            (1, 7, End),
        ],
    ),
    (
        b"<>=",
        &[(1, 1, Mark(&['<'])), (1, 2, Mark(&['>', '='])), (1, 4, End)],
    ),
    (b"=!", &[(1, 1, Mark(&['='])), (1, 2, Malformed)]),
    (
        b"let lets le",
        &[
            (1, 1, Word(b"let")),
            (1, 5, Name(b"lets")),
            (1, 10, Name(b"le")),
            (1, 12, End),
        ],
    ),
    (
        b"ax\"00\"",
        &[(1, 1, Name(b"ax")), (1, 3, Text(&['0', '0'])), (1, 7, End)],
    ),
    (
        b"x \"0\"",
        &[(1, 1, Name(b"x")), (1, 3, Text(&['0'])), (1, 6, End)],
    ),
    (b"x_1 _x", &[(1, 1, Name(b"x_1")), (1, 5, Malformed)]),
    (b"aB", &[(1, 1, Name(b"a")), (1, 2, Malformed)]),
    (b"\xc3\xa9", &[(1, 1, Malformed)]),
];

const NUMBERS: [(&[u8], &[Row]); 7] = [
    (
        b"0 10 9223372036854775808",
        &[
            (1, 1, Number(0)),
            (1, 3, Number(10)),
            (1, 6, Number(9223372036854775808)),
            (1, 25, End),
        ],
    ),
    (
        b"18446744073709551614 18446744073709551616",
        &[
            (1, 1, Number(18446744073709551614)),
            (1, 22, Number(18446744073709551615)),
            (1, 42, End),
        ],
    ),
    (
        b"99999999999999999999999999999999",
        &[(1, 1, Number(18446744073709551615)), (1, 33, End)],
    ),
    (
        b"- # 5\n 5 -5 - a -",
        &[
            (1, 1, Sign),
            (2, 2, Number(5)),
            (2, 4, Sign),
            (2, 5, Number(5)),
            (2, 7, Minus),
            (2, 9, Name(b"a")),
            (2, 11, Minus),
            (2, 12, End),
        ],
    ),
    (
        b"--1",
        &[(1, 1, Minus), (1, 2, Sign), (1, 3, Number(1)), (1, 4, End)],
    ),
    (b"-# 5", &[(1, 1, Minus), (1, 5, End)]),
    (b"-\x0c5", &[(1, 1, Minus), (1, 2, Malformed)]),
];

const TEXTS: [(&[u8], &[Row]); 16] = [
    (b"\"\"", &[(1, 1, Text(&[])), (1, 3, End)]),
    (
        b"\" ~\xc2\x80\xc3\xa9\xf0\x9f\x98\x80\"a",
        &[
            (1, 1, Text(&[' ', '~', '\u{80}', '\u{e9}', '\u{1f600}'])),
            (1, 13, Name(b"a")),
            (1, 14, End),
        ],
    ),
    (
        b"\"a\\\"\\\\\" 1",
        &[
            (1, 1, Text(&['a', '"', '\\'])),
            (1, 9, Number(1)),
            (1, 10, End),
        ],
    ),
    (
        b"\"\\u{0}\\u{a}\\u{000041}\\u{10ffff}\"",
        &[(1, 1, Text(&['\0', '\n', 'A', '\u{10ffff}'])), (1, 33, End)],
    ),
    (b"\"\\u{0000041}\"", &[(1, 1, Malformed)]),
    (b"\"\\u{}\"", &[(1, 1, Malformed)]),
    (b"\"\\u{d800}\"", &[(1, 1, Malformed)]),
    (b"\"\\u{110000}\"", &[(1, 1, Malformed)]),
    (b"\"\\u{E9}\"", &[(1, 1, Malformed)]),
    (b"\"\\u{41\"", &[(1, 1, Malformed)]),
    (b"\"\\u41\"", &[(1, 1, Malformed)]),
    (b"\"\\n\"", &[(1, 1, Malformed)]),
    (b"if \"a\n\"", &[(1, 1, Word(b"if")), (1, 4, Malformed)]),
    (b"\"a\tb\"", &[(1, 1, Malformed)]),
    (b"\"\x7f\"", &[(1, 1, Malformed)]),
    (b"\"ab", &[(1, 1, Malformed)]),
];

const BYTES: [(&[u8], &[Row]); 8] = [
    (b"x\"\"", &[(1, 1, Bytes(b"")), (1, 4, End)]),
    (
        b"x\"00ff9a\"a",
        &[
            (1, 1, Bytes(b"\x00\xff\x9a")),
            (1, 10, Name(b"a")),
            (1, 11, End),
        ],
    ),
    (b"x\"0", &[(1, 1, Malformed)]),
    (b"x\"0\"", &[(1, 1, Malformed)]),
    (b"x\"00", &[(1, 1, Malformed)]),
    (b"x\"0F\"", &[(1, 1, Malformed)]),
    (b"x\"0 0\"", &[(1, 1, Malformed)]),
    (b"x\"zz\"", &[(1, 1, Malformed)]),
];

const LIMITS: [(&[u8], &[Row]); 2] = [
    (
        b"abcdefghijklmnopqrstuvwxyz0123456789____",
        &[
            (1, 1, Name(b"abcdefghijklmnopqrstuvwxyz0123456789____")),
            (1, 41, End),
        ],
    ),
    (
        b"abcdefghijklmnopqrstuvwxyz0123456789_____ if",
        &[(1, 1, LongName), (1, 43, Word(b"if")), (1, 45, End)],
    ),
];

/// Bytes that are no text, with the line and column from which they are none.
const NO_TEXTS: [(&[u8], u32, u32); 8] = [
    (b"\xff", 1, 1),
    (b"property 7\n\xff", 2, 1),
    (b"a\xc3\xa9\xc3", 1, 4),
    (b"\n\n\xe2\x82(", 3, 1),
    (b"\"\xed\xa0\x80\"", 1, 2),
    (b"#\xc0\x80", 1, 2),
    (b"\xf4\x90\x80\x80", 1, 1),
    (b"a\x0c\nb\x80", 2, 2),
];

// Whether the text has these tokens.
fn has_tokens(alloc: Global, text: &[u8], wanted: &[Row]) -> Result<bool, LexStop> {
    if text.len() > MOST_BYTES {
        return Ok(false);
    }
    let tokens = tokens_of(alloc, text)?;
    if tokens.len() != wanted.len() {
        return Ok(false);
    }
    for (token, row) in tokens.as_slice().iter().zip(wanted) {
        if !is_shown(token, *row) {
            return Ok(false);
        }
    }
    Ok(true)
}

// Whether the bytes are no text from there on.
fn is_no_text(alloc: Global, text: &[u8], line: u32, column: u32) -> Result<bool, LexStop> {
    if text.len() > MOST_BYTES {
        return Ok(false);
    }
    let place = Place { line, column };
    Ok(matches!(tokens_of(alloc, text), Err(LexStop::NotUtf8(at)) if at == place))
}

#[test]
fn blanks_and_comments_stand_between_tokens(rt: HostRuntime) {
    for (row, (text, wanted)) in BLANKS.iter().enumerate() {
        expect(&rt, row, has_tokens(rt.alloc(), text, wanted));
    }
}

#[test]
fn the_longest_token_is_taken(rt: HostRuntime) {
    for (row, (text, wanted)) in CUTS.iter().enumerate() {
        expect(&rt, row, has_tokens(rt.alloc(), text, wanted));
    }
}

#[test]
fn numbers_are_kept_up_to_the_greatest(rt: HostRuntime) {
    for (row, (text, wanted)) in NUMBERS.iter().enumerate() {
        expect(&rt, row, has_tokens(rt.alloc(), text, wanted));
    }
}

#[test]
fn texts_hold_their_characters(rt: HostRuntime) {
    for (row, (text, wanted)) in TEXTS.iter().enumerate() {
        expect(&rt, row, has_tokens(rt.alloc(), text, wanted));
    }
}

#[test]
fn bytes_are_pairs_of_digits(rt: HostRuntime) {
    for (row, (text, wanted)) in BYTES.iter().enumerate() {
        expect(&rt, row, has_tokens(rt.alloc(), text, wanted));
    }
}

#[test]
fn a_name_has_at_most_forty_bytes(rt: HostRuntime) {
    for (row, (text, wanted)) in LIMITS.iter().enumerate() {
        expect(&rt, row, has_tokens(rt.alloc(), text, wanted));
    }
}

#[test]
fn bytes_that_are_no_text_are_refused(rt: HostRuntime) {
    for (row, (text, line, column)) in NO_TEXTS.iter().enumerate() {
        expect(&rt, row, is_no_text(rt.alloc(), text, *line, *column));
    }
}
