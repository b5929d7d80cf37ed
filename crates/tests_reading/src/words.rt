//! Every reserved word and every mark is a token of its own, and with a letter more a word is a name.

use crate::expect::expect;
use crate::shown::{MOST_BYTES, Shown, is_shown};
use pt_lex::{LexStop, tokens_of};
use std::alloc::Global;

const WORDS: [&[u8]; 61] = [
    b"property",
    b"machine",
    b"check",
    b"runs",
    b"shrink",
    b"steps",
    b"state",
    b"bundle",
    b"invariant",
    b"rule",
    b"when",
    b"into",
    b"draw",
    b"let",
    b"assume",
    b"assert",
    b"pick",
    b"from",
    b"set",
    b"give",
    b"if",
    b"then",
    b"else",
    b"and",
    b"or",
    b"not",
    b"true",
    b"false",
    b"ints",
    b"bools",
    b"texts",
    b"blobs",
    b"sampled_from",
    b"lists",
    b"tuples",
    b"one_of",
    b"map",
    b"filter",
    b"flatmap",
    b"recursive",
    b"self",
    b"int",
    b"bool",
    b"text",
    b"bytes",
    b"tree",
    b"list",
    b"tuple",
    b"len",
    b"has",
    b"sum",
    b"cat",
    b"rev",
    b"leaf",
    b"node",
    b"label",
    b"kids",
    b"labels",
    b"all",
    b"any",
    b"each",
];

const MARKS: [(&[u8], &[char]); 21] = [
    (b"{", &['{']),
    (b"}", &['}']),
    (b"(", &['(']),
    (b")", &[')']),
    (b"[", &['[']),
    (b"]", &[']']),
    (b",", &[',']),
    (b";", &[';']),
    (b":", &[':']),
    (b".", &['.']),
    (b"=", &['=']),
    (b"==", &['=', '=']),
    (b"!=", &['!', '=']),
    (b"<", &['<']),
    (b"<=", &['<', '=']),
    (b">", &['>']),
    (b">=", &['>', '=']),
    (b"+", &['+']),
    (b"*", &['*']),
    (b"/", &['/']),
    (b"%", &['%']),
];

/// Marks that the language does not have.
const NO_MARKS: [&[u8]; 12] = [
    b"!", b"&", b"|", b"^", b"~", b"@", b"$", b"?", b"'", b"`", b"\\", b"_",
];

// Whether the text has so many tokens, of which this is the first.
fn begins_with(alloc: Global, text: &[u8], shown: Shown, count: usize) -> Result<bool, LexStop> {
    if text.len() > MOST_BYTES {
        return Ok(false);
    }
    let tokens = tokens_of(alloc, text)?;
    match tokens.as_slice().first() {
        Some(token) => Ok(tokens.len() == count && is_shown(token, (1, 1, shown))),
        None => Ok(false),
    }
}

#[test]
fn every_reserved_word_is_a_token(rt: HostRuntime) {
    for (row, word) in WORDS.iter().enumerate() {
        expect(
            &rt,
            row,
            begins_with(rt.alloc(), word, Shown::Word(word), 2),
        );
    }
}

#[test]
fn every_mark_is_a_token(rt: HostRuntime) {
    for (row, (mark, chars)) in MARKS.iter().enumerate() {
        expect(
            &rt,
            row,
            begins_with(rt.alloc(), mark, Shown::Mark(chars), 2),
        );
    }
}

#[test]
fn no_other_mark_is_a_token(rt: HostRuntime) {
    for (row, text) in NO_MARKS.iter().enumerate() {
        expect(&rt, row, begins_with(rt.alloc(), text, Shown::Malformed, 1));
    }
}
