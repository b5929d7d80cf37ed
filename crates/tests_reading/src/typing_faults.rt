//! The first fault of a suite's names and types: a row for each construct that can have it. Each text is one line, where a check `never` is handed in.

use crate::checked::{Outcome, comes_to};
use crate::expect::expect;
use pt_check::TypeFault;
use pt_val::{NameStop, Place};
use std::alloc::Global;

/// Texts with the column at which something has the wrong type, or a call the wrong number of arguments.
const WRONG: &[(&[u8], u32)] = &[
    (b"property p { let r = 1 or true; }", 22),
    (b"property p { let r = true or 1; }", 30),
    (b"property p { let r = 1 and true; }", 22),
    (b"property p { let r = true and 1; }", 31),
    (b"property p { let r = not 1; }", 26),
    (b"property p { let r = 1 == true; }", 27),
    (b"property p { let r = [1] != [true]; }", 29),
    (b"property p { let r = true < 1; }", 22),
    (b"property p { let r = 1 < true; }", 26),
    (b"property p { let r = true <= 1; }", 22),
    (b"property p { let r = 1 <= true; }", 27),
    (b"property p { let r = true > 1; }", 22),
    (b"property p { let r = 1 > true; }", 26),
    (b"property p { let r = true >= 1; }", 22),
    (b"property p { let r = 1 >= true; }", 27),
    (b"property p { let r = true + 1; }", 22),
    (b"property p { let r = 1 + true; }", 26),
    (b"property p { let r = true - 1; }", 22),
    (b"property p { let r = 1 - true; }", 26),
    (b"property p { let r = true * 1; }", 22),
    (b"property p { let r = 1 * true; }", 26),
    (b"property p { let r = true / 1; }", 22),
    (b"property p { let r = 1 / true; }", 26),
    (b"property p { let r = true % 1; }", 22),
    (b"property p { let r = 1 % true; }", 26),
    (b"property p { let r = 1 + 2 + true; }", 30),
    (b"property p { let r = 2 * 3 * true; }", 30),
    (b"property p { let r = - true; }", 24),
    (b"property p { let r = if 1 then 1 else 2; }", 25),
    (b"property p { let r = if true then 1 else false; }", 42),
    (b"property p { let r = [1, true]; }", 26),
    (b"property p { let r = [1, 2, [3]]; }", 29),
    (b"property p { let r = 1[0]; }", 22),
    (b"property p { let r = [1][true]; }", 26),
    (b"property p { let r = 1[q]; }", 22),
    (b"property p { let a = [1]; let r = a[0][1]; }", 35),
    (b"property p { let r = 1.0; }", 22),
    (b"property p { let r = (1, 2).2; }", 29),
    (b"property p { let r = [1].0; }", 22),
    (b"property p { let r = len([1], [2]); }", 22),
    (b"property p { let r = has([1]); }", 22),
    (b"property p { let r = sum([1], [1]); }", 22),
    (b"property p { let r = cat([1]); }", 22),
    (b"property p { let r = rev([1], [1]); }", 22),
    (b"property p { let r = leaf(1, 2); }", 22),
    (b"property p { let r = node(1); }", 22),
    (b"property p { let r = label(leaf(1), 1); }", 22),
    (b"property p { let r = kids(leaf(1), 1); }", 22),
    (b"property p { let r = labels(leaf(1), 1); }", 22),
    (b"property p { let r = len(q, q); }", 22),
    (b"property p { let r = len(1); }", 26),
    (b"property p { let r = len(leaf(1)); }", 26),
    (b"property p { let r = has(1, 1); }", 26),
    (b"property p { let r = has(1, q); }", 26),
    (b"property p { let r = has([1], true); }", 31),
    (b"property p { let r = has(\"a\", \"a\"); }", 26),
    (b"property p { let r = sum([true]); }", 26),
    (b"property p { let r = sum(1); }", 26),
    (b"property p { let r = cat(1, 1); }", 26),
    (b"property p { let r = cat(\"a\", [1]); }", 31),
    (b"property p { let r = cat(leaf(1), leaf(1)); }", 26),
    (b"property p { let r = rev(1); }", 26),
    (b"property p { let r = leaf(true); }", 27),
    (b"property p { let r = node(true, [leaf(1)]); }", 27),
    (b"property p { let r = node(1, [1]); }", 30),
    (b"property p { let r = node(1, leaf(1)); }", 30),
    (b"property p { let r = label(1); }", 28),
    (b"property p { let r = kids(1); }", 27),
    (b"property p { let r = labels([leaf(1)]); }", 29),
    (b"property p { let r = all(x, 1, true); }", 29),
    (b"property p { let r = all(x, [1], x); }", 34),
    (b"property p { let r = any(x, x\"00\", true); }", 29),
    (b"property p { let r = any(x, [1], 1); }", 34),
    (b"property p { let r = each(x, \"a\", x); }", 30),
    (b"property p { assert (1); }", 21),
    (b"property p { assert if true then 1 else 2; }", 21),
    (b"property p { assume 1; }", 21),
    (b"property p { assert 1; }", 21),
    (b"property p { draw r = ints(true, 1); }", 28),
    (b"property p { draw r = ints(1, true); }", 31),
    (b"property p { draw r = texts(\"ab\", true, 1); }", 35),
    (b"property p { draw r = texts(\"ab\", 0, true); }", 38),
    (b"property p { draw r = blobs(true, 1); }", 29),
    (b"property p { draw r = blobs(0, true); }", 32),
    (b"property p { draw r = sampled_from(1); }", 36),
    (b"property p { draw r = sampled_from(\"ab\"); }", 36),
    (b"property p { draw r = lists(bools(), true, 1); }", 38),
    (b"property p { draw r = lists(bools(), 0, true); }", 41),
    (b"property p { draw r = one_of(bools(), ints(0, 1)); }", 39),
    (b"property p { draw r = filter(x, ints(0, 1), x); }", 45),
    (
        b"property p { draw r = recursive(2, ints(0, 1), bools()); }",
        48,
    ),
    (
        b"property p { draw r = recursive(2, ints(0, 1), lists(self, 0, 1)); }",
        48,
    ),
    (
        b"property p { draw r = tuples(bools(), ints(true, 1)); }",
        44,
    ),
    (b"property p { draw r = map(x, ints(true, 1), q); }", 35),
    (
        b"property p { draw r = flatmap(x, bools(), ints(x, 1)); }",
        48,
    ),
    (
        b"machine m { state s = 0; bundle b : int; invariant 1; rule r { } }",
        52,
    ),
    (
        b"machine m { state s = 0; bundle b : int; rule r when 1 { } }",
        54,
    ),
    (
        b"machine m { state s = 0; bundle b : int; rule r { set s = true; } }",
        59,
    ),
    (
        b"machine m { state s = 0; bundle b : int; rule r into b { give true; } }",
        63,
    ),
    (
        b"machine m { state s = 0; bundle b : int; rule r { give 1; } }",
        51,
    ),
    (
        b"machine m { state s = 0; bundle b : int; rule r { give q; } }",
        51,
    ),
    (
        b"machine m { state s = 0; bundle b : int; rule r into b { } }",
        54,
    ),
    (
        b"machine m { state s = 0; bundle b : int; rule r into b { let x = 1; } }",
        54,
    ),
    (
        b"machine m { state s = 0; bundle b : int; rule r into b { pick k from b; give [k]; } }",
        78,
    ),
];

/// Texts with the column of a name that is not in scope.
const UNKNOWN: &[(&[u8], u32)] = &[
    (b"property p { let r = q; }", 22),
    (b"property p { let x = x; }", 22),
    (b"property p { draw x = ints(x, 1); }", 28),
    (b"property p { let r = y; let y = 1; }", 22),
    (b"property p { let r = 1 + q; }", 26),
    (b"property p { let r = q + true; }", 22),
    (b"property p { let r = all(x, x, true); }", 29),
    (b"property p { let r = all(x, [1], true) and x; }", 44),
    (b"property p { let r = each(x, [1], y); }", 35),
    (
        b"property p { let r = any(x, [any(y, [1], true)], y); }",
        50,
    ),
    (b"property p { let r = [1][q]; }", 26),
    (b"property p { let r = q[0]; }", 22),
    (b"property p { let r = q.0; }", 22),
    (b"property p { let r = len(q); }", 26),
    (b"property p { let r = if true then q else 1; }", 35),
    (b"property p { let r = has([1], q); }", 31),
    (b"property p { draw r = map(x, ints(x, 1), x); }", 35),
    (b"property p { draw r = map(x, ints(0, 1), y); }", 42),
    (b"property p { draw r = filter(x, ints(0, 1), y); }", 45),
    (
        b"property p { draw r = flatmap(x, ints(0, x), bools()); }",
        42,
    ),
    (
        b"property p { draw r = flatmap(x, bools(), ints(0, y)); }",
        51,
    ),
    (
        b"property p { draw r = tuples(map(x, bools(), x), sampled_from([x])); }",
        64,
    ),
    (b"property p { draw r = self; }", 23),
    (b"property p { draw r = recursive(2, self, bools()); }", 36),
    (
        b"property p { draw r = recursive(2, lists(self, 0, 1), bools()); }",
        42,
    ),
    (
        b"property p { draw r = tuples(recursive(2, bools(), self), self); }",
        59,
    ),
    (b"property p { draw r = lists(bools(), q, true); }", 38),
    (b"property p { assume q; }", 21),
    (b"property p { assert q; }", 21),
    (b"machine m { state s = s; rule r { } }", 23),
    (b"machine m { state s = t; state t = 0; rule r { } }", 23),
    (
        b"machine m { state s = 0; bundle b : int; invariant q; rule r { } }",
        52,
    ),
    (
        b"machine m { state s = 0; bundle b : int; rule r when q { } }",
        54,
    ),
    (
        b"machine m { state s = 0; bundle b : int; rule r into q { give 1; } }",
        54,
    ),
    (
        b"machine m { state s = 0; bundle b : int; rule r { pick k from q; } }",
        63,
    ),
    (
        b"machine m { state s = 0; bundle b : int; rule r { set q = 1; } }",
        55,
    ),
    (
        b"machine m { state s = 0; bundle b : int; rule r { let v = 1; set v = 2; } }",
        66,
    ),
    (
        b"machine m { state s = 0; bundle b : int; rule r { set s = q; } }",
        59,
    ),
    (
        b"machine m { state s = 0; bundle b : int; rule r { let v = 1; } rule t when v == 1 { } }",
        76,
    ),
    (
        b"machine m { state s = 0; bundle b : int; rule r { pick k from b; } rule t { set s = k; } }",
        85,
    ),
    (
        b"machine m { state s = 0; bundle b : int; rule r { pick k from s; } }",
        63,
    ),
    (
        b"property p { let x = 1; } property q { assert x == 1; }",
        47,
    ),
    (
        b"machine m { bundle b : int; rule r { pick k from b; } } machine n { rule r { pick k from b; } }",
        90,
    ),
];

/// Texts with the column of a name that is in scope already, or of an alphabet that has a character twice.
const TWICE: &[(&[u8], u32)] = &[
    (b"check never check never", 19),
    (b"property p { } machine p { rule r { } }", 24),
    (b"property p { } check never property p { }", 37),
    (
        b"machine m { state s = 0; bundle b : int; rule r { } rule r { } }",
        58,
    ),
    (
        b"machine m { bundle b : int; bundle b : bool; rule r { } }",
        36,
    ),
    (b"machine m { state s = 0; state s = 1; rule r { } }", 32),
    (b"property p { let x = 1; let x = 2; }", 29),
    (b"property p { draw x = bools(); draw x = bools(); }", 37),
    (b"property p { let x = 1; draw x = ints(q, 1); }", 30),
    (b"property p { let x = 1; let x = q; }", 29),
    (
        b"machine m { state s = 0; bundle b : int; rule r { let s = 1; } }",
        55,
    ),
    (
        b"machine m { state s = 0; bundle b : int; rule r { draw s = bools(); } }",
        56,
    ),
    (
        b"machine m { state s = 0; bundle b : int; rule r { pick s from q; } }",
        56,
    ),
    (
        b"machine m { state s = 0; bundle b : int; rule r { pick k from b; pick k from b; } }",
        71,
    ),
    (b"property p { let x = 1; let y = all(x, q, true); }", 37),
    (b"property p { let x = 1; let y = any(x, [1], true); }", 37),
    (b"property p { let x = 1; let y = each(x, [1], true); }", 38),
    (
        b"property p { let x = 1; draw y = map(x, bools(), x); }",
        38,
    ),
    (
        b"property p { let x = 1; draw y = filter(x, bools(), x); }",
        41,
    ),
    (
        b"property p { let x = 1; draw y = flatmap(x, bools(), bools()); }",
        42,
    ),
    (
        b"property p { let r = all(x, [1], all(x, [1], true)); }",
        38,
    ),
    (
        b"property p { draw r = map(x, map(x, bools(), x), each(x, [1], x)); }",
        55,
    ),
    (
        b"machine m { state s = 0; bundle b : int; invariant all(s, [1], true); rule r { } }",
        56,
    ),
    (b"property p { draw r = texts(\"aba\", 0, 1); }", 29),
    (b"property p { draw r = texts(\"\\u{61}a\", q, 1); }", 29),
];

/// Texts with the column of a name that is no check's.
const UNKNOWN_CHECK: &[(&[u8], u32)] = &[
    (b"check nope", 7),
    (b"check never check nope", 19),
    (b"property p { } check p2", 22),
    (b"check nope check nope", 7),
    (b"check nope property p { assert 1; }", 7),
];

/// Texts that are well typed.
const SEALED: &[&[u8]] = &[
    b"property p { draw x = map(x, bools(), x); }",
    b"property p { let x = all(y, [1], true) and any(y, [1], true); }",
    b"property p { let x = each(y, [1], all(z, [y], true)); }",
    b"property never { }",
    b"machine never { rule r { } }",
    b"machine m { state m = 0; bundle m : int; rule m { pick k from m; set m = k; } }",
    b"property p { let x = 1; } property q { let x = true; }",
    b"machine m { state s = 0; bundle b : int; rule r { let v = 1; } rule t { let v = true; } }",
    b"machine m { state s = 0; bundle b : int; rule r into b { give s; } rule t when s > 0 { pick k from b; set s = k; } }",
    b"machine m { state s = 0; state t = s + 1; invariant t > s; rule r { set t = s; } }",
    b"property p { draw r = recursive(8, map(x, ints(0, 9), leaf(x)), map(p, tuples(ints(0, 9), lists(self, 0, 3)), node(p.0, p.1))); }",
    b"property p { draw r = flatmap(n, ints(0, 5), lists(filter(x, ints(0, n), x > 0), n, n)); }",
    b"property p { draw r = one_of(texts(\"ab\", 0, 1), sampled_from([\"c\"])); }",
    b"property p { draw r = tuples(blobs(0, 1), bools(), recursive(1, bools(), self)); }",
    b"property p { let a = [1]; let b = (a, a); assert b.0[0] == b.1[0]; }",
    b"property p { assert has(labels(node(1, kids(leaf(2)))), 1) == has(each(x, [leaf(1)], label(x)), 1); }",
    b"property p { assert len(cat(\"a\", rev(\"b\"))) + len(cat(x\"00\", rev(x\"01\"))) + len(cat([1], rev([2]))) == sum([6]); }",
    b"property p { assert x\"0a\"[0] == 10 and \"a\" != \"b\" and (1, true) == (1, true) and leaf(1) != leaf(2); }",
    b"property p { assume if true then not false else 1 <= - 2 * 3 / 4 % 5; }",
];

/// The kinds of fault, each made of a place.
#[derive(Clone, Copy)]
enum Sort {
    Wrong,
    Unknown,
    Twice,
    UnknownCheck,
}

fn fault(sort: Sort, place: Place) -> TypeFault {
    match sort {
        Sort::Wrong => TypeFault::Wrong(place),
        Sort::Unknown => TypeFault::Unknown(place),
        Sort::Twice => TypeFault::Twice(place),
        Sort::UnknownCheck => TypeFault::UnknownCheck(place),
    }
}

fn is_refused(alloc: Global, text: &[u8], sort: Sort, column: u32) -> Result<bool, NameStop> {
    let wanted = Outcome::Refused(fault(sort, Place { line: 1, column }));
    comes_to(alloc, text, wanted)
}

#[test]
fn wrong_types(rt: HostRuntime) {
    for (row, (text, column)) in WRONG.iter().enumerate() {
        expect(&rt, row, is_refused(rt.alloc(), text, Sort::Wrong, *column));
    }
}

#[test]
fn unknown_names(rt: HostRuntime) {
    for (row, (text, column)) in UNKNOWN.iter().enumerate() {
        expect(
            &rt,
            row,
            is_refused(rt.alloc(), text, Sort::Unknown, *column),
        );
    }
}

#[test]
fn names_that_stand_twice(rt: HostRuntime) {
    for (row, (text, column)) in TWICE.iter().enumerate() {
        expect(&rt, row, is_refused(rt.alloc(), text, Sort::Twice, *column));
    }
}

#[test]
fn unknown_checks(rt: HostRuntime) {
    for (row, (text, column)) in UNKNOWN_CHECK.iter().enumerate() {
        expect(
            &rt,
            row,
            is_refused(rt.alloc(), text, Sort::UnknownCheck, *column),
        );
    }
}

#[test]
fn suites_that_are_well_typed(rt: HostRuntime) {
    for (row, text) in SEALED.iter().enumerate() {
        expect(&rt, row, comes_to(rt.alloc(), text, Outcome::Sealed));
    }
}
