//! What each strategy draws from choices, as worked by hand.

use crate::drawn::{draws, fails};
use crate::expect::expect;
use crate::functions::{Doubling, Even, UpTo};
use pt_choice::{NoMemory, Octets};
use pt_typed::{
    Blobs, Bools, DrawFail, Filter, FlatMap, Ints, ListOf, Map, OneOf, Pair, Sampled, Texts, ToVal,
};
use pt_val::{Chars, show};
use std::alloc::Global;
use std::test::Fail;

#[test]
fn integers_are_counted_from_the_nearest_to_zero(rt: HostRuntime) {
    let ints = Ints::of(-9, -2);
    expect(&rt, 0, draws(rt.alloc(), &ints, b"i0", b"-2"));
    expect(&rt, 1, draws(rt.alloc(), &ints, b"i-7", b"-9"));
    expect(&rt, 2, draws(rt.alloc(), &ints, b"i1", b"-2"));
}

#[test]
fn the_widest_integers(rt: HostRuntime) {
    let ints = Ints::of(i64::MIN, i64::MAX);
    expect(
        &rt,
        0,
        draws(
            rt.alloc(),
            &ints,
            b"i-9223372036854775808",
            b"-9223372036854775808",
        ),
    );
    expect(
        &rt,
        1,
        draws(
            rt.alloc(),
            &ints,
            b"i9223372036854775807",
            b"9223372036854775807",
        ),
    );
}

#[test]
fn booleans(rt: HostRuntime) {
    expect(&rt, 0, draws(rt.alloc(), &Bools, b"bt", b"true"));
    expect(&rt, 1, fails(rt.alloc(), &Bools, b"-", DrawFail::Overrun));
}

#[test]
fn texts(rt: HostRuntime) -> Result<(), Fail> {
    let texts = Texts::of(Chars::of(rt.alloc(), &['a', 'b', 'c'])?, 0, 4);
    expect(&rt, 0, draws(rt.alloc(), &texts, b"t2.0", b"\"ca\""));
    Ok(())
}

#[test]
fn blobs(rt: HostRuntime) {
    expect(
        &rt,
        0,
        draws(rt.alloc(), &Blobs::of(0, 4), b"x07", b"x\"07\""),
    );
}

#[test]
fn samples(rt: HostRuntime) -> Result<(), Fail> {
    let sampled = Sampled::of([10i64, 20].to_vec(rt.alloc())?);
    expect(&rt, 0, draws(rt.alloc(), &sampled, b"i1", b"20"));
    expect(&rt, 1, draws(rt.alloc(), &sampled, b"i0", b"10"));
    Ok(())
}

#[test]
fn a_sample_of_one_of_each_type(rt: HostRuntime) -> Result<(), Fail> {
    let flag = Octets::of(rt.alloc(), b"\x07")?;
    let pair = Sampled::just(rt.alloc(), (true, flag))?;
    expect(&rt, 0, draws(rt.alloc(), &pair, b"i0", b"(true, x\"07\")"));
    let mut words = Vec::new(rt.alloc());
    words.push(Chars::of(rt.alloc(), &['a'])?)?;
    let list = Sampled::just(rt.alloc(), words)?;
    expect(&rt, 1, draws(rt.alloc(), &list, b"i0", b"[\"a\"]"));
    Ok(())
}

#[test]
fn lists(rt: HostRuntime) {
    let lists = ListOf::of(Ints::of(0, 9), 0, 3);
    expect(&rt, 0, draws(rt.alloc(), &lists, b"bt i4 bf", b"[4]"));
    expect(
        &rt,
        1,
        draws(rt.alloc(), &lists, b"bt i1 bt i2 bt i3", b"[1, 2, 3]"),
    );
    expect(
        &rt,
        2,
        fails(rt.alloc(), &lists, b"bt i4", DrawFail::Overrun),
    );
}

#[test]
fn lists_of_two_are_not_asked_for_their_first(rt: HostRuntime) {
    let lists = ListOf::of(Ints::of(0, 9), 2, 3);
    expect(&rt, 0, draws(rt.alloc(), &lists, b"i4 i5 bf", b"[4, 5]"));
}

#[test]
fn one_of_two(rt: HostRuntime) {
    let either = OneOf::of(Ints::of(0, 9), Ints::of(100, 200));
    expect(&rt, 0, draws(rt.alloc(), &either, b"i1 i3", b"103"));
    expect(&rt, 1, draws(rt.alloc(), &either, b"i0 i3", b"3"));
}

#[test]
fn pairs(rt: HostRuntime) {
    let pairs = Pair::of(Ints::of(0, 9), Ints::of(0, 9));
    expect(&rt, 0, draws(rt.alloc(), &pairs, b"i1 i2", b"(1, 2)"));
}

#[test]
fn images(rt: HostRuntime) {
    expect(
        &rt,
        0,
        draws(rt.alloc(), &Map::of(Ints::of(0, 9), Doubling), b"i3", b"6"),
    );
}

#[test]
fn filters(rt: HostRuntime) {
    let even = Filter::of(Ints::of(0, 9), Even);
    expect(&rt, 0, draws(rt.alloc(), &even, b"i1 i4", b"4"));
    expect(
        &rt,
        1,
        fails(rt.alloc(), &even, b"i1 i1 i1", DrawFail::Reject),
    );
    expect(
        &rt,
        2,
        fails(rt.alloc(), &even, b"i1 i1", DrawFail::Overrun),
    );
}

#[test]
fn strategies_that_depend_on_a_value(rt: HostRuntime) {
    expect(
        &rt,
        0,
        draws(
            rt.alloc(),
            &FlatMap::of(Ints::of(0, 9), UpTo),
            b"i3 i2",
            b"2",
        ),
    );
}

// Whether the pair of 1 and 2 is shown as one, and its copy too.
fn is_shown(alloc: Global) -> Result<bool, NoMemory> {
    let pair: (i64, i64) = (1, 2);
    let shown = show(alloc, &pair.to_val(alloc)?)?;
    let copied = show(alloc, &pair.copy(alloc)?.to_val(alloc)?)?;
    Ok(shown.as_slice() == b"(1, 2)".as_slice() && copied == shown)
}

#[test]
fn a_pair_is_shown_as_one(rt: HostRuntime) {
    expect(&rt, 0, is_shown(rt.alloc()));
}
