//! Texts that are read.

use crate::expect::expect;
use crate::long::{Long, text_of};
use crate::shown::MOST_BYTES;
use pt_ast::Body;
use pt_choice::NoMemory;
use pt_parse::{SuiteFault, read_suite};
use std::alloc::Global;

/// Texts that are read, and how many items they have.
const READ: [(Long, usize); 36] = [
    ((b"", b"", 0, b""), 0),
    ((b"# a\rcheck never", b"", 0, b""), 0),
    ((b"", b"#", 1048576, b""), 0),
    ((b"", b" ", 1048576, b""), 0),
    ((b"property ", b"a", 40, b" runs 1 { }"), 1),
    ((b"property p runs 1 { let a = \"", b"a", 256, b"\"; }"), 1),
    (
        (
            b"property p runs 1 { let a = \"",
            b"\xc3\xa9",
            256,
            b"\"; assert len(a) == 256; }",
        ),
        1,
    ),
    (
        (
            b"property p runs 1 { assert \"\\u{000041}\" == \"A\"; }",
            b"",
            0,
            b"",
        ),
        1,
    ),
    ((b"property p runs 1 { let a = x\"", b"00", 64, b"\"; }"), 1),
    (
        (
            b"property p runs 1 { assert -9223372036854775808 < 9223372036854775807; }",
            b"",
            0,
            b"",
        ),
        1,
    ),
    (
        (b"property p runs 1 { assert - # 1\n 5 < 0; }", b"", 0, b""),
        1,
    ),
    ((b"property p runs 10000 { }", b"", 0, b""), 1),
    ((b"property p shrink 1000 runs 1 { }", b"", 0, b""), 1),
    ((b"property p shrink 0 runs 1 { }", b"", 0, b""), 1),
    (
        (b"machine m runs 1 steps 64 { rule r { } }", b"", 0, b""),
        1,
    ),
    (
        (
            b"machine m runs 1 steps 1 { ",
            b"invariant true; ",
            64,
            b"rule r { } }",
        ),
        1,
    ),
    (
        (
            b"property p runs 1 { let a = (",
            b"1, ",
            7,
            b"1); assert a.7 == 1; }",
        ),
        1,
    ),
    (
        (
            b"property p runs 1 { draw a = tuples(",
            b"bools(), ",
            7,
            b"bools()); }",
        ),
        1,
    ),
    (
        (
            b"property p runs 1 { draw a = one_of(",
            b"bools(), ",
            15,
            b"bools()); }",
        ),
        1,
    ),
    (
        (
            b"property p runs 1 { draw a = one_of(bools()); }",
            b"",
            0,
            b"",
        ),
        1,
    ),
    (
        (
            b"property p runs 1 { let a = [",
            b"1, ",
            63,
            b"1]; assert len(a) == 64; }",
        ),
        1,
    ),
    (
        (
            b"property p runs 1 { draw a = recursive(1, bools(), self); }",
            b"",
            0,
            b"",
        ),
        1,
    ),
    (
        (
            b"property p runs 1 { draw a = recursive(8, bools(), self); }",
            b"",
            0,
            b"",
        ),
        1,
    ),
    (
        (
            b"property p runs 1 { draw a = texts(\"a\", 0, 1); }",
            b"",
            0,
            b"",
        ),
        1,
    ),
    (
        (
            b"property p runs 1 { assert ",
            b"(",
            63,
            b"true))))))))))))))))))))))))))))))))))))))))))))))))))))))))))))))); }",
        ),
        1,
    ),
    (
        (b"property p runs 1 { let a = ", b"not ", 63, b"true; }"),
        1,
    ),
    (
        (
            b"property p runs 1 { let b = 1; let a = ",
            b"-",
            63,
            b"b; }",
        ),
        1,
    ),
    (
        (
            b"property p runs 1 { let b = 1; let a = [",
            b"-b, ",
            63,
            b"-b]; }",
        ),
        1,
    ),
    ((b"", b"check never ", 200, b""), 200),
    ((b"machine m { ", b"state s = 1; ", 64, b"}"), 1),
    ((b"machine m { ", b"bundle b : int; ", 64, b"}"), 1),
    ((b"machine m { ", b"rule r { } ", 64, b"}"), 1),
    (
        (b"machine m { bundle b : tuple(", b"int, ", 7, b"int); }"),
        1,
    ),
    (
        (
            b"property p { draw a = flatmap(n, ints(0, 9), map(x, filter(y, blobs(0, n), true), [x])); assume has(a[0].1, n) or not all(z, a, z == n and sum(each(w, z, w)) <= -n); }",
            b"",
            0,
            b"",
        ),
        1,
    ),
    (
        (
            b"property p { let a = if b then (1) else 2 - 3 - 4 * 5 / 6 % 7 + c[0][1].2; }",
            b"",
            0,
            b"",
        ),
        1,
    ),
    (
        (
            b"machine m steps 8 runs 9 { state s = 0; bundle b : list(tree); invariant s >= 0; rule r when s < 3 into b { pick k from b; set s = s + 1; let l = leaf(s); give k; } rule q { } }",
            b"",
            0,
            b"",
        ),
        1,
    ),
];

// Whether the text is a suite of so many items.
fn is_read(alloc: Global, long: Long, count: usize) -> Result<bool, NoMemory> {
    let text = text_of(alloc, long)?;
    if text.len() > MOST_BYTES {
        return Ok(false);
    }
    match read_suite(alloc, text.as_slice()) {
        Ok(suite) => Ok(suite.items.len() == count),
        Err(SuiteFault::NoMemory) => Err(NoMemory),
        Err(_) => Ok(false),
    }
}

// Whether the text has one item, a check with these settings.
fn is_check(alloc: Global, text: &[u8], runs: u32, shrink: u32) -> Result<bool, SuiteFault> {
    if text.len() > MOST_BYTES {
        return Ok(false);
    }
    let suite = read_suite(alloc, text)?;
    match suite.items.as_slice() {
        [item] => Ok(
            item.settings.runs == runs
                && item.settings.shrink == shrink
                && matches!(item.body, Body::Check),
        ),
        _ => Ok(false),
    }
}

#[test]
fn a_check_has_the_settings_that_are_given(rt: HostRuntime) {
    expect(&rt, 0, is_check(rt.alloc(), b"check never", 100, 500));
    expect(
        &rt,
        1,
        is_check(rt.alloc(), b"check never shrink 7 runs 9", 9, 7),
    );
}

#[test]
fn a_suite_is_read(rt: HostRuntime) {
    for (row, (text, count)) in READ.iter().enumerate() {
        expect(&rt, row, is_read(rt.alloc(), *text, *count));
    }
}
