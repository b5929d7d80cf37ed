//! Suites that are read and then checked, where a check `never` is handed in.

use crate::expect::expect;
use pt_ast::Typed;
use pt_check::{TypeFault, check_suite};
use pt_parse::read_suite;
use pt_val::{Name, NameStop, Names, Place};
use std::alloc::Global;

const SUITE: &[u8] = b"# a suite with an item of each kind
property commutes {
  draw a = ints(-1000, 1000);
  draw b = ints(-1000, 1000);
  assert a + b == b + a;
}
property reverses {
  draw xs = lists(ints(0, 99), 0, 20);
  assert rev(rev(xs)) == xs;
}
property joined {
  draw s = texts(\"abc\", 0, 8);
  draw t = texts(\"abc\", 0, 8);
  assert len(cat(s, t)) == len(s) + len(t);
}
property nonempty {
  draw s = texts(\"abc\", 0, 8);
  assert len(s) > 0;
}
property picky runs 5 {
  draw b = blobs(0, 3);
  assume len(b) > 3;
}
property halves {
  draw n = map(k, ints(0, 50), k * 2);
  assert n % 2 == 0;
}
machine purse {
  state coins = 0;
  bundle paid : int;
  invariant coins >= 0;
  rule pay into paid {
    draw n = ints(1, 9);
    set coins = coins + n;
    give n;
  }
  rule refund when coins > 0 {
    pick n from paid;
    set coins = if n <= coins then coins - n else coins;
  }
}
check never runs 5";

/// What became of a text.
#[derive(Clone, Copy, Debug, PartialEq, Eq)]
pub(crate) enum Outcome {
    Sealed,
    Refused(TypeFault),
    Unread,
}

fn known(alloc: Global) -> Result<Names, NameStop> {
    let mut names = Names::empty(alloc);
    names.push(Name::of(alloc, "never")?)?;
    Ok(names)
}

fn told(answer: Result<Typed, TypeFault>) -> Outcome {
    match answer {
        Ok(_) => Outcome::Sealed,
        Err(fault) => Outcome::Refused(fault),
    }
}

fn read_and_checked(alloc: Global, text: &[u8]) -> Result<Outcome, NameStop> {
    let known = known(alloc)?;
    if text.len() > 1_048_576 {
        return Ok(Outcome::Unread);
    }
    match read_suite(alloc, text) {
        Ok(suite) => Ok(told(check_suite(alloc, suite, &known))),
        Err(_) => Ok(Outcome::Unread),
    }
}

pub(crate) fn comes_to(alloc: Global, text: &[u8], wanted: Outcome) -> Result<bool, NameStop> {
    Ok(read_and_checked(alloc, text)? == wanted)
}

const TEXTS: &[(&[u8], Outcome)] = &[
    (SUITE, Outcome::Sealed),
    (b"check never", Outcome::Sealed),
    (b"", Outcome::Sealed),
    (
        b"property p { assert 1 + true; }",
        Outcome::Refused(TypeFault::Wrong(Place {
            line: 1,
            column: 25,
        })),
    ),
    (
        b"property p { assert q; }",
        Outcome::Refused(TypeFault::Unknown(Place {
            line: 1,
            column: 21,
        })),
    ),
    (
        b"check nope",
        Outcome::Refused(TypeFault::UnknownCheck(Place { line: 1, column: 7 })),
    ),
    (
        b"check never check never",
        Outcome::Refused(TypeFault::Twice(Place {
            line: 1,
            column: 19,
        })),
    ),
    (b"property p { assert 1 + true }", Outcome::Unread),
];

#[test]
fn a_suite_that_is_read_is_sealed_or_refused(rt: HostRuntime) {
    for (row, (text, wanted)) in TEXTS.iter().enumerate() {
        expect(&rt, row, comes_to(rt.alloc(), text, *wanted));
    }
}
