//! Suites with what is stored under their items' names, and what a run over them writes.

use crate::folder::Stored;

pub const RUN: &[&str] = &["run", "s", "1", "1"];

pub const RUN_WITH_FOUR: &[&str] = &["run", "s", "1", "4"];

pub const REPLAY: &[&str] = &["replay", "s", "abc", "i573"];

pub const EXPLAIN: &[&str] = &["explain", "s", "abc", "i573"];

pub const STORED: &[&str] = &["stored"];

pub const MAKE: &[&str] = &["make", "5", "3"];

/// It fails from 10 on.
pub const ABC: &str = "property abc {\n  draw x = ints(0, 1000);\n  assert x < 10;\n}\n";

/// The list `i573` in version 1 and in version 2, and the list `i10`, of the least failure.
pub const OLD: Stored = ("abc", b"\x02\xfa\x08");

pub const NEW: Stored = ("abc", b"\xf2\x01\x00\x02\xfa\x08");

pub const SHOWN: Stored = ("abc", b"\xf2\x01\x00\x02\x14");

/// It never fails.
pub const FINE: &str = "property fine runs 2 {\n  draw x = ints(0, 9);\n  assert x >= 0;\n}\n";

/// The list `i3`, and no list.
pub const STALE: Stored = ("fine", b"\xf2\x01\x00\x02\x06");

pub const BROKEN: Stored = ("fine", b"\xff");

pub const FINE_AND_ABC: &str =
    "property fine runs 2 {\n  draw x = ints(0, 9);\n  assert x >= 0;\n}\nproperty abc {\n  draw x = ints(0, 1000);\n  assert x < 10;\n}\n";

/// The second fails at once.
pub const ABC_AND_NONE: &str =
    "property abc {\n  draw x = ints(0, 1000);\n  assert x < 10;\n}\nproperty none {\n  assert false;\n}\n";

/// The list of no choices.
pub const NONE: Stored = ("none", b"\xf2\x00\x00");

/// It fails after three steps.
pub const COUNT: &str =
    "machine count {\n  state n = 0;\n  invariant n < 3;\n  rule up {\n    set n = n + 1;\n  }\n}\n";

/// Three steps.
pub const STEPS: Stored = ("count", b"\xf2\x06\x00\x01\x02\x00\x01\x02\x00\x01\x02\x00");
