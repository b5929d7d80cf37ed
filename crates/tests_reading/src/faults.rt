//! Faults of expressions, several faults of one text, and hostile texts.

use crate::expect::expect;
use crate::refused::{Fault, Refused, is_refused};

/// Operators.
const OPERATORS: [Refused; 6] = [
    (
        (b"property p { assert 1 < 1 < 1; }", b"", 0, b""),
        Fault::Syntax,
        1,
        27,
    ),
    (
        (b"property p { assert true == not true; }", b"", 0, b""),
        Fault::Syntax,
        1,
        29,
    ),
    (
        (
            b"property p { let a = 1 + if true then 1 else 2; }",
            b"",
            0,
            b"",
        ),
        Fault::Syntax,
        1,
        26,
    ),
    (
        (b"property p { let a = if true then 1; }", b"", 0, b""),
        Fault::Syntax,
        1,
        36,
    ),
    (
        (b"property p { assert 1 1; }", b"", 0, b""),
        Fault::Syntax,
        1,
        23,
    ),
    (
        (b"property p { assert a (1); }", b"", 0, b""),
        Fault::Syntax,
        1,
        23,
    ),
];

/// Levels: brackets, `if`, `not` and minus signs.
const LEVELS: [Refused; 6] = [
    (
        (b"property p { assert ", b"(", 63, b"("),
        Fault::TooDeep,
        1,
        84,
    ),
    (
        (b"property p { assert ", b"not ", 63, b"not true; }"),
        Fault::TooDeep,
        1,
        273,
    ),
    (
        (b"property p { assert ", b"-", 63, b"-a > 0; }"),
        Fault::TooDeep,
        1,
        84,
    ),
    (
        (
            b"property p { let a = ",
            b"if true then 1 else ",
            63,
            b"if true then 1 else 2; }",
        ),
        Fault::TooDeep,
        1,
        1282,
    ),
    (
        (b"machine m { bundle b : ", b"list(", 63, b"list(int"),
        Fault::TooDeep,
        1,
        343,
    ),
    (
        (b"property p { assert ", b"(", 63, b"-a"),
        Fault::TooDeep,
        1,
        84,
    ),
];

/// Several faults, of which the first is answered, and several at one token.
const SEVERAL: [Refused; 7] = [
    (
        (b"property p { assert ", b"(", 63, b"1 ("),
        Fault::Syntax,
        1,
        86,
    ),
    (
        (
            b"property p { assert ",
            b"(",
            62,
            b"(1, 1, 1, 1, 1, 1, 1, 1, (1",
        ),
        Fault::TooDeep,
        1,
        108,
    ),
    (
        (b"check 99999999999999999999", b"", 0, b""),
        Fault::Syntax,
        1,
        7,
    ),
    (
        (
            b"property p { assert 9223372036854775808 ) ; }",
            b"",
            0,
            b"",
        ),
        Fault::OutOfRange,
        1,
        21,
    ),
    (
        (b"property p { let a = ", b"(", 63, b"1 ("),
        Fault::Syntax,
        1,
        87,
    ),
    (
        (b"check never 99999999999999999999", b"", 0, b""),
        Fault::Syntax,
        1,
        13,
    ),
    (
        (b"property p { let a = ", b"(", 63, b"-b"),
        Fault::TooDeep,
        1,
        85,
    ),
];

/// Texts of a mebibyte.
const HOSTILE: [Refused; 9] = [
    (
        (
            b"property p { assert (((((((((((((((((((((((((((((((((((((((((((((((((((((((((((((((",
            b"(",
            1048493,
            b"",
        ),
        Fault::TooDeep,
        1,
        84,
    ),
    (
        (
            b"property p { assert ---------------------------------------------------------------",
            b"-",
            1048493,
            b"",
        ),
        Fault::TooDeep,
        1,
        84,
    ),
    ((b"", b"(", 1048576, b""), Fault::Syntax, 1, 1),
    ((b"", b"\"", 1048576, b""), Fault::Syntax, 1, 1),
    ((b"", b"not ", 262144, b""), Fault::Syntax, 1, 1),
    ((b"", b"9", 1048576, b""), Fault::Syntax, 1, 1),
    ((b"", b"a", 1048576, b""), Fault::Syntax, 1, 1),
    (
        (b"property p { let a = \"", b"a", 1048550, b"\"; }"),
        Fault::OutOfRange,
        1,
        22,
    ),
    ((b"", b"\xff", 1048576, b""), Fault::NotUtf8, 1, 1),
];

#[test]
fn an_operator_is_refused(rt: HostRuntime) {
    for (row, refused) in OPERATORS.iter().enumerate() {
        expect(&rt, row, is_refused(rt.alloc(), *refused));
    }
}

#[test]
fn a_level_past_the_64th_is_refused(rt: HostRuntime) {
    for (row, refused) in LEVELS.iter().enumerate() {
        expect(&rt, row, is_refused(rt.alloc(), *refused));
    }
}

#[test]
fn the_first_fault_is_answered(rt: HostRuntime) {
    for (row, refused) in SEVERAL.iter().enumerate() {
        expect(&rt, row, is_refused(rt.alloc(), *refused));
    }
}

#[test]
fn a_hostile_text_is_refused_at_its_fault(rt: HostRuntime) {
    for (row, refused) in HOSTILE.iter().enumerate() {
        expect(&rt, row, is_refused(rt.alloc(), *refused));
    }
}
