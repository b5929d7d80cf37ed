//! What each pass hands out, against lists that were written by hand. A table has them in one text, with commas between.

use crate::made::{Row, list_of, record_of};
use pt_cand::{Pass, Walk};
use pt_case::Record;
use std::alloc::Global;

/// Whether the walk hands out just these lists from here on.
pub fn gives(alloc: Global, walk: &mut Walk, want: &str) -> Option<bool> {
    if !want.is_empty() {
        for text in want.split(',') {
            let list = walk.next_list(alloc).ok()??;
            if list != list_of(alloc, text)? {
                return Some(false);
            }
        }
    }
    Some(walk.next_list(alloc).ok()?.is_none())
}

fn hands_out(alloc: Global, best: &Record, pass: Pass, want: &str) -> Option<bool> {
    gives(alloc, &mut Walk::of(best, pass), want)
}

fn holds(alloc: Global, text: &str, rows: &[Row], pass: Pass, want: &str) -> Option<bool> {
    hands_out(alloc, &record_of(alloc, text, rows)?, pass, want)
}

const NONE: &[Row] = &[];

const ALONE: &[Row] = &[(32, 0, 1, None)];

// Spans that begin before those entered earlier, with the same ends, and an empty one.
const REPEATED: &[Row] = &[
    (1, 1, 1, None),
    (1, 0, 1, None),
    (2, 0, 1, Some(1)),
    (1, 1, 2, None),
    (3, 0, 1, None),
];

// As large as the outer one, of another label, or not inside it.
const AS_LARGE: &[Row] = &[
    (1, 0, 2, None),
    (1, 0, 2, Some(0)),
    (2, 0, 1, Some(1)),
    (1, 1, 2, None),
];

// Siblings below a span.
const THREE: &[Row] = &[
    (1, 0, 3, None),
    (2, 0, 1, Some(0)),
    (2, 1, 2, Some(0)),
    (2, 2, 3, Some(0)),
];

// Siblings with a choice between them.
const APART: &[Row] = &[(2, 0, 1, None), (2, 2, 3, None)];

const SHORT_AND_LONG: &[Row] = &[(2, 0, 1, None), (2, 1, 3, None)];

const LONG_AND_SHORT: &[Row] = &[(2, 0, 2, None), (3, 0, 1, Some(0)), (2, 2, 3, None)];

// The next sibling has another label.
const OTHER_LABEL: &[Row] = &[(2, 0, 1, None), (3, 1, 2, None), (2, 2, 3, None)];

const OTHER_PARENT: &[Row] = &[(2, 0, 1, None), (2, 1, 2, Some(0))];

const ADJACENT: &[Row] = &[(2, 0, 1, None), (2, 1, 2, None)];

// The later sibling stands before the earlier one.
const TURNED_ROUND: &[Row] = &[(2, 1, 2, None), (2, 0, 1, None)];

// Spans behind a first choice, two of them with the same ends.
const BEHIND: &[Row] = &[
    (1, 0, 3, None),
    (2, 1, 2, Some(0)),
    (2, 2, 3, Some(0)),
    (3, 1, 2, Some(1)),
];

const SECOND: &[Row] = &[(1, 1, 2, None)];

// A list of one number, in its spans.
const LISTED: &[Row] = &[
    (32, 0, 3, None),
    (33, 0, 2, Some(0)),
    (34, 1, 2, Some(1)),
    (33, 2, 3, Some(0)),
];

// Three numbers after their count.
const COUNTED: &[Row] = &[
    (32, 0, 4, None),
    (33, 0, 1, Some(0)),
    (34, 0, 1, Some(1)),
    (33, 1, 4, Some(0)),
    (36, 1, 4, Some(3)),
    (37, 1, 2, Some(4)),
    (38, 1, 2, Some(5)),
    (37, 2, 3, Some(4)),
    (38, 2, 3, Some(7)),
    (37, 3, 4, Some(4)),
    (38, 3, 4, Some(9)),
];

// Spans of one label in one another, one of them empty, and one beside them.
const NESTED: &[Row] = &[
    (1, 0, 5, None),
    (2, 0, 5, Some(0)),
    (1, 1, 4, Some(1)),
    (1, 2, 3, Some(2)),
    (1, 3, 3, Some(2)),
    (1, 4, 5, None),
];

#[test]
fn one_number_is_deleted_or_lowered(rt: HostRuntime) {
    let alloc = rt.alloc();
    for (pass, want) in [
        (Pass::DeleteSpan, "-"),
        (Pass::Descend, ""),
        (Pass::LowerOne, "i0,i286,i572"),
        (Pass::LowerPair, ""),
        (Pass::SwapSiblings, ""),
        (Pass::LowerDelete, ""),
        (Pass::Shift, ""),
    ] {
        assert_eq!(rt;
            holds(alloc, "i573", ALONE, pass, want),
            Some(true),
            "{pass:?}"
        );
    }
}

#[test]
fn spans_are_deleted_once_for_their_ends(rt: HostRuntime) {
    let alloc = rt.alloc();
    for (text, rows, want) in [
        ("-", NONE, ""),
        ("i1", NONE, ""),
        ("bt i4 bf", LISTED, "-,bf,bt bf,bt i4"),
        (
            "i2 i0 i0 i7",
            COUNTED,
            "-,i0 i0 i7,i2,i2 i0 i7,i2 i0 i7,i2 i0 i0",
        ),
        ("bt bt i1 bf bf", NESTED, "-,bt bf,bt bt bf bf,bt bt i1 bf"),
        ("i1 i2", REPEATED, "i2,i1"),
    ] {
        assert_eq!(rt;
            holds(alloc, text, rows, Pass::DeleteSpan, want),
            Some(true),
            "{text}"
        );
    }
}

#[test]
fn spans_descend_to_smaller_ones_of_their_label(rt: HostRuntime) {
    let alloc = rt.alloc();
    for (text, rows, want) in [
        ("bt i4 bf", LISTED, ""),
        ("bt bt i1 bf bf", NESTED, "bt i1 bf,i1,-,bt i1 bf,bt bf"),
        ("i1 i2", AS_LARGE, ""),
    ] {
        assert_eq!(rt;
            holds(alloc, text, rows, Pass::Descend, want),
            Some(true),
            "{text}"
        );
    }
}

#[test]
fn single_choices_are_lowered_with_no_repeats(rt: HostRuntime) {
    let alloc = rt.alloc();
    for (text, want) in [
        ("-", ""),
        ("bf", ""),
        ("bt", "bf"),
        ("i0", ""),
        ("i1", "i0"),
        ("i-1", "i0,i1"),
        ("i2", "i0,i1"),
        ("i-2", "i0,i2,i-1"),
        ("i3", "i0,i1,i2"),
        ("i-3", "i0,i3,i-1,i-2"),
        ("i-5", "i0,i5,i-2,i-4"),
        (
            "i18446744073709551615",
            "i0,i9223372036854775807,i18446744073709551614",
        ),
        ("x", ""),
        ("t", ""),
        ("x00", "x"),
        ("x01", "x,x00"),
        ("t5", "t,t0,t2,t4"),
        ("x0102", "x01,x02,x0002,x0100,x0101"),
        ("t2.2", "t2,t0.2,t1.2,t2.0,t2.1"),
        ("x0000", "x00"),
        ("t1.1.7", "t1,t1.7,t0.1.7,t1.0.7,t1.1,t1.1.0,t1.1.3,t1.1.6"),
        (
            "bt i0 i-1 t1",
            "bf i0 i-1 t1,bt i0 i0 t1,bt i0 i1 t1,bt i0 i-1 t,bt i0 i-1 t0",
        ),
    ] {
        assert_eq!(rt;
            holds(alloc, text, NONE, Pass::LowerOne, want),
            Some(true),
            "{text}"
        );
    }
}

#[test]
fn pairs_of_integers_move_together(rt: HostRuntime) {
    let alloc = rt.alloc();
    for (text, nearer, against) in [
        ("-", "", ""),
        ("i3", "", ""),
        ("bt i0", "", ""),
        ("i1 i1", "i0 i0", "i0 i2"),
        ("i4 i6", "i3 i5,i0 i2", "i3 i7,i0 i10"),
        (
            "i-2 i0 i5",
            "i-1 i0 i4,i0 i0 i3",
            "i-1 i-1 i5,i0 i-2 i5,i-1 i0 i4,i0 i0 i3",
        ),
        (
            "i3 bt i-2 i0 i1",
            "i2 bt i-1 i0 i1,i1 bt i0 i0 i1,i2 bt i-2 i0 i0,i3 bt i-1 i0 i0",
            "i2 bt i-1 i0 i1,i0 bt i1 i0 i1,i2 bt i-2 i1 i1,i0 bt i-2 i3 i1,i2 bt i-2 i0 i2,i0 bt i-2 i0 i4,i3 bt i-1 i-1 i1,i3 bt i0 i-2 i1,i3 bt i-1 i0 i0,i3 bt i0 i0 i-1",
        ),
    ] {
        assert_eq!(rt;
            holds(alloc, text, NONE, Pass::LowerPair, nearer),
            Some(true),
            "{text}"
        );
        assert_eq!(rt;
            holds(alloc, text, NONE, Pass::Shift, against),
            Some(true),
            "{text}"
        );
    }
}

#[test]
fn siblings_are_swapped_where_that_is_lower(rt: HostRuntime) {
    let alloc = rt.alloc();
    for (text, rows, want) in [
        ("i3 i1 i2", THREE, "i1 i3 i2"),
        ("i5 bt i1", APART, "i1 bt i5"),
        ("i2 i1 i0", SHORT_AND_LONG, "i1 i0 i2"),
        ("i2 i1 i0", LONG_AND_SHORT, "i0 i2 i1"),
        ("i3 i2 i1", OTHER_LABEL, ""),
        ("i3 i2", OTHER_PARENT, ""),
        ("i2 i2", ADJACENT, ""),
        ("i2 i1", TURNED_ROUND, ""),
        ("bt i4 bf", LISTED, "bf bt i4"),
    ] {
        assert_eq!(rt;
            holds(alloc, text, rows, Pass::SwapSiblings, want),
            Some(true),
            "{text}"
        );
    }
}

#[test]
fn an_integer_is_lowered_and_a_later_span_deleted(rt: HostRuntime) {
    let alloc = rt.alloc();
    for (text, rows, want) in [
        ("i2 i0 i0 i7", COUNTED, "i1,i1 i0 i7,i1 i0 i7,i1 i0 i0"),
        ("i-2 bt i1", BEHIND, "i-1 i1,i-1 bt"),
        ("bt i4 bf", LISTED, "bt i3"),
        ("i0 bt", SECOND, ""),
    ] {
        assert_eq!(rt;
            holds(alloc, text, rows, Pass::LowerDelete, want),
            Some(true),
            "{text}"
        );
    }
}
