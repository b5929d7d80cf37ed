//! Faults of items and what stands in them.

use crate::expect::expect;
use crate::refused::{Fault, Refused, is_refused};

/// Settings past their bounds, twice, and where they may not stand.
const SETTINGS: [Refused; 8] = [
    (
        (b"check never runs 0", b"", 0, b""),
        Fault::OutOfRange,
        1,
        18,
    ),
    (
        (b"check never runs 10001", b"", 0, b""),
        Fault::OutOfRange,
        1,
        18,
    ),
    (
        (b"property p shrink 1001 { }", b"", 0, b""),
        Fault::OutOfRange,
        1,
        19,
    ),
    (
        (b"machine m steps 0 { }", b"", 0, b""),
        Fault::OutOfRange,
        1,
        17,
    ),
    (
        (b"machine m steps 65 { }", b"", 0, b""),
        Fault::OutOfRange,
        1,
        17,
    ),
    (
        (b"check never runs 5 runs 5", b"", 0, b""),
        Fault::Syntax,
        1,
        20,
    ),
    (
        (b"property p steps 5 { }", b"", 0, b""),
        Fault::Syntax,
        1,
        12,
    ),
    ((b"check never steps 5", b"", 0, b""), Fault::Syntax, 1, 13),
];

/// Items and what stands in them.
const ITEMS: [Refused; 15] = [
    (
        (b"property p {\n  assert true;\n", b"", 0, b""),
        Fault::Syntax,
        3,
        1,
    ),
    (
        (b"property p { assert true }", b"", 0, b""),
        Fault::Syntax,
        1,
        26,
    ),
    ((b"check never 7", b"", 0, b""), Fault::Syntax, 1, 13),
    ((b"property p { } }", b"", 0, b""), Fault::Syntax, 1, 16),
    ((b"check runs 5", b"", 0, b""), Fault::Syntax, 1, 7),
    (
        (b"property p { let if = 1; }", b"", 0, b""),
        Fault::Syntax,
        1,
        18,
    ),
    (
        (b"property p { pick a from b; }", b"", 0, b""),
        Fault::Syntax,
        1,
        14,
    ),
    (
        (b"property p { set a = 1; }", b"", 0, b""),
        Fault::Syntax,
        1,
        14,
    ),
    (
        (b"machine m { rule r { } state s = 1; }", b"", 0, b""),
        Fault::Syntax,
        1,
        24,
    ),
    (
        (
            b"machine m { rule r into b { give 1; assert true; } }",
            b"",
            0,
            b"",
        ),
        Fault::Syntax,
        1,
        37,
    ),
    (
        (b"", b"check never ", 200, b"check never"),
        Fault::OutOfRange,
        1,
        2401,
    ),
    (
        (b"machine m { ", b"state s = 1; ", 64, b"state s = 1; }"),
        Fault::OutOfRange,
        1,
        845,
    ),
    (
        (
            b"machine m { ",
            b"bundle b : int; ",
            64,
            b"bundle b : int; }",
        ),
        Fault::OutOfRange,
        1,
        1037,
    ),
    (
        (
            b"machine m { ",
            b"invariant true; ",
            64,
            b"invariant true; }",
        ),
        Fault::OutOfRange,
        1,
        1037,
    ),
    (
        (b"machine m { ", b"rule r { } ", 64, b"rule r { } }"),
        Fault::OutOfRange,
        1,
        717,
    ),
];

/// Parts: too few and too many.
const PARTS: [Refused; 17] = [
    (
        (b"machine m { bundle b : tuple(int); }", b"", 0, b""),
        Fault::Syntax,
        1,
        33,
    ),
    (
        (b"machine m { bundle b : tuple(", b"int, ", 8, b"int); }"),
        Fault::OutOfRange,
        1,
        70,
    ),
    (
        (b"property p { let a = (1,); }", b"", 0, b""),
        Fault::Syntax,
        1,
        25,
    ),
    (
        (b"property p { let a = (", b"1, ", 8, b"1); }"),
        Fault::OutOfRange,
        1,
        47,
    ),
    (
        (b"property p { draw a = tuples(bools()); }", b"", 0, b""),
        Fault::Syntax,
        1,
        37,
    ),
    (
        (
            b"property p { draw a = tuples(",
            b"bools(), ",
            8,
            b"bools()); }",
        ),
        Fault::OutOfRange,
        1,
        102,
    ),
    (
        (b"property p { draw a = one_of(); }", b"", 0, b""),
        Fault::Syntax,
        1,
        30,
    ),
    (
        (
            b"property p { draw a = one_of(",
            b"bools(), ",
            16,
            b"bools()); }",
        ),
        Fault::OutOfRange,
        1,
        174,
    ),
    (
        (b"property p { let a = []; }", b"", 0, b""),
        Fault::Syntax,
        1,
        23,
    ),
    (
        (b"property p { let a = [", b"1, ", 64, b"1]; }"),
        Fault::OutOfRange,
        1,
        215,
    ),
    (
        (b"property p { draw a = texts(\"\", 0, 1); }", b"", 0, b""),
        Fault::OutOfRange,
        1,
        29,
    ),
    (
        (
            b"property p { draw a = recursive(0, bools(), self); }",
            b"",
            0,
            b"",
        ),
        Fault::OutOfRange,
        1,
        33,
    ),
    (
        (
            b"property p { draw a = recursive(9, bools(), self); }",
            b"",
            0,
            b"",
        ),
        Fault::OutOfRange,
        1,
        33,
    ),
    (
        (b"property p { let a = len(); }", b"", 0, b""),
        Fault::Syntax,
        1,
        26,
    ),
    (
        (b"property p { draw a = bools(1); }", b"", 0, b""),
        Fault::Syntax,
        1,
        29,
    ),
    (
        (b"property p { assert a.b; }", b"", 0, b""),
        Fault::Syntax,
        1,
        23,
    ),
    (
        (b"property p { assert a.-1; }", b"", 0, b""),
        Fault::Syntax,
        1,
        23,
    ),
];

#[test]
fn a_setting_is_refused(rt: HostRuntime) {
    for (row, refused) in SETTINGS.iter().enumerate() {
        expect(&rt, row, is_refused(rt.alloc(), *refused));
    }
}

#[test]
fn an_item_is_refused(rt: HostRuntime) {
    for (row, refused) in ITEMS.iter().enumerate() {
        expect(&rt, row, is_refused(rt.alloc(), *refused));
    }
}

#[test]
fn a_part_too_many_is_refused(rt: HostRuntime) {
    for (row, refused) in PARTS.iter().enumerate() {
        expect(&rt, row, is_refused(rt.alloc(), *refused));
    }
}
