//! Faults of tokens.

use crate::expect::expect;
use crate::refused::{Fault, Refused, is_refused};

/// Texts that are no UTF-8, and characters that no token has.
const NO_TOKENS: [Refused; 7] = [
    ((b"\xff", b"", 0, b""), Fault::NotUtf8, 1, 1),
    ((b"property 7\n\xff", b"", 0, b""), Fault::NotUtf8, 2, 1),
    (
        (b"check never # \xc3\xa9\xe2\x82", b"", 0, b""),
        Fault::NotUtf8,
        1,
        17,
    ),
    (
        (b"\xef\xbb\xbfcheck never", b"", 0, b""),
        Fault::Syntax,
        1,
        1,
    ),
    ((b"check\x0cnever", b"", 0, b""), Fault::Syntax, 1, 6),
    ((b"check never\x00", b"", 0, b""), Fault::Syntax, 1, 12),
    ((b"check nEver", b"", 0, b""), Fault::Syntax, 1, 8),
];

/// Tokens that are malformed, cut otherwise than one might think, or too long.
const TOKENS: [Refused; 15] = [
    (
        (b"check never runs 05", b"", 0, b""),
        Fault::OutOfRange,
        1,
        18,
    ),
    ((b"check never runs 1a", b"", 0, b""), Fault::Syntax, 1, 19),
    (
        (b"property p { assert 1 === 1; }", b"", 0, b""),
        Fault::Syntax,
        1,
        25,
    ),
    (
        (b"property p { assert ax\"00\"; }", b"", 0, b""),
        Fault::Syntax,
        1,
        23,
    ),
    (
        (b"property p { assert x \"0\"; }", b"", 0, b""),
        Fault::Syntax,
        1,
        23,
    ),
    (
        (b"property p { assert x\"0\" == x\"\"; }", b"", 0, b""),
        Fault::Syntax,
        1,
        21,
    ),
    (
        (b"property p { draw x = texts(\"ab", b"", 0, b""),
        Fault::Syntax,
        1,
        29,
    ),
    (
        (b"property p { let a = \"a\n\"; }", b"", 0, b""),
        Fault::Syntax,
        1,
        22,
    ),
    (
        (b"property p { let a = \"\\u{0000041}\"; }", b"", 0, b""),
        Fault::Syntax,
        1,
        22,
    ),
    (
        (b"property p { let a = \"\\u{d800}\"; }", b"", 0, b""),
        Fault::Syntax,
        1,
        22,
    ),
    ((b"check ", b"a", 41, b""), Fault::OutOfRange, 1, 7),
    (
        (b"property p { let a = \"", b"a", 257, b"\"; }"),
        Fault::OutOfRange,
        1,
        22,
    ),
    (
        (b"property p { let a = \"", b"a", 257, b"; }"),
        Fault::Syntax,
        1,
        22,
    ),
    (
        (b"property p { let a = x\"", b"00", 65, b"\"; }"),
        Fault::OutOfRange,
        1,
        22,
    ),
    (
        (b"property p { let a = x\"", b"0", 131, b"\"; }"),
        Fault::Syntax,
        1,
        22,
    ),
];

/// Numbers past their bounds, and negative ones with something behind them.
const NUMBERS: [Refused; 5] = [
    (
        (
            b"property p { assert 9223372036854775808 > 0; }",
            b"",
            0,
            b"",
        ),
        Fault::OutOfRange,
        1,
        21,
    ),
    (
        (b"property p { let a = -9223372036854775809; }", b"", 0, b""),
        Fault::OutOfRange,
        1,
        23,
    ),
    (
        (b"property p { let a = 18446744073709551617; }", b"", 0, b""),
        Fault::OutOfRange,
        1,
        22,
    ),
    (
        (b"property p { let a = - 5[0]; }", b"", 0, b""),
        Fault::Syntax,
        1,
        25,
    ),
    (
        (b"property p { let a = - # 1\n 5.0; }", b"", 0, b""),
        Fault::Syntax,
        2,
        3,
    ),
];

#[test]
fn a_text_of_no_tokens_is_refused(rt: HostRuntime) {
    for (row, refused) in NO_TOKENS.iter().enumerate() {
        expect(&rt, row, is_refused(rt.alloc(), *refused));
    }
}

#[test]
fn a_token_is_refused_whole(rt: HostRuntime) {
    for (row, refused) in TOKENS.iter().enumerate() {
        expect(&rt, row, is_refused(rt.alloc(), *refused));
    }
}

#[test]
fn a_number_is_refused_past_its_bound(rt: HostRuntime) {
    for (row, refused) in NUMBERS.iter().enumerate() {
        expect(&rt, row, is_refused(rt.alloc(), *refused));
    }
}
