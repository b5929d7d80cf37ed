//! Values: their text, their size, their types, their copies, and which are the same.

use crate::expect::expect;
use crate::plain::Plain::{self, Bool, Bytes, Int, List, Node, Text, Tuple};
use crate::plain::value_of;
use pt_choice::NoMemory;
use pt_val::{Chars, Ty, Tys, Val, Vals, has_type, same, show, size};
use std::alloc::Global;

/// Values, of which no two are the same, with the text and the size of each.
const VALUES: [(Plain, &str, u64); 29] = [
    (Int(0), "0", 1),
    (Int(1), "1", 1),
    (Int(-1), "-1", 1),
    (Int(i64::MAX), "9223372036854775807", 1),
    (Int(i64::MIN), "-9223372036854775808", 1),
    (Bool(true), "true", 1),
    (Bool(false), "false", 1),
    (Text(&[]), r#""""#, 1),
    (Text(&['a']), r#""a""#, 2),
    (Text(&['a', '"', 'b']), r#""a\"b""#, 4),
    (Text(&['\\', '\'']), r#""\\'""#, 3),
    (Text(&[' ', '~']), r#"" ~""#, 3),
    (Text(&['\0', '\n', '\u{1f}']), r#""\u{0}\u{a}\u{1f}""#, 4),
    (
        Text(&['\u{7f}', '\u{e9}', '\u{fff}']),
        r#""\u{7f}\u{e9}\u{fff}""#,
        4,
    ),
    (Text(&['\u{10ffff}']), r#""\u{10ffff}""#, 2),
    (Bytes(&[]), r#"x"""#, 1),
    (Bytes(b"a"), r#"x"61""#, 2),
    (Bytes(&[0x00, 0x9a, 0xff]), r#"x"009aff""#, 4),
    (List(&[]), "[]", 1),
    (List(&[Int(1), Int(2)]), "[1, 2]", 3),
    (List(&[Int(2), Int(1)]), "[2, 1]", 3),
    (List(&[Int(1), Int(1)]), "[1, 1]", 3),
    (List(&[Int(1)]), "[1]", 2),
    (List(&[List(&[List(&[Int(7)])])]), "[[[7]]]", 4),
    (Tuple(&[]), "()", 1),
    (Tuple(&[Int(-1), List(&[Int(2)])]), "(-1, [2])", 4),
    (Node(3, &[]), "leaf(3)", 1),
    (Node(4, &[]), "leaf(4)", 1),
    (
        Node(8, &[Node(-5, &[Node(3, &[])]), Node(4, &[])]),
        "node(8, [node(-5, [leaf(3)]), leaf(4)])",
        4,
    ),
];

fn has_text_and_size(
    alloc: Global,
    plain: Plain,
    text: &str,
    wanted: u64,
) -> Result<bool, NoMemory> {
    let value = value_of(alloc, &plain)?;
    let copy = value.copy()?;
    Ok(show(alloc, &copy)?.as_slice() == text.as_bytes() && size(&copy) == wanted)
}

#[test]
fn values_have_their_text_and_size(rt: HostRuntime) {
    for (row, (value, text, size)) in VALUES.iter().enumerate() {
        expect(&rt, row, has_text_and_size(rt.alloc(), *value, text, *size));
    }
}

// Whether the one value is the same as a copy of the other, exactly where it should be.
fn compare(alloc: Global, one: Plain, other: Plain, want: bool) -> Result<bool, NoMemory> {
    let one = value_of(alloc, &one)?;
    let other = value_of(alloc, &other)?.copy()?;
    Ok(same(&one, &other) == want)
}

#[test]
fn no_two_values_are_the_same(rt: HostRuntime) {
    for (i, (one, _, _)) in VALUES.iter().enumerate() {
        for (j, (other, _, _)) in VALUES.iter().enumerate() {
            expect(&rt, i, compare(rt.alloc(), *one, *other, i == j));
        }
    }
}

/// A type as plain data.
#[derive(Clone, Copy)]
enum Wanted {
    Int,
    Bool,
    Text,
    Bytes,
    Tree,
    Integers,
    Pair,
}

fn type_of(alloc: Global, wanted: Wanted) -> Result<Ty, NoMemory> {
    match wanted {
        Wanted::Int => Ok(Ty::Int),
        Wanted::Bool => Ok(Ty::Bool),
        Wanted::Text => Ok(Ty::Text),
        Wanted::Bytes => Ok(Ty::Bytes),
        Wanted::Tree => Ok(Ty::Tree),
        Wanted::Integers => nested_type(alloc, 1),
        Wanted::Pair => pair(alloc),
    }
}

// The type of pairs of an integer and a truth value.
fn pair(alloc: Global) -> Result<Ty, NoMemory> {
    let mut types = Tys::empty(alloc);
    types.push(Ty::Int)?;
    types.push(Ty::Bool)?;
    Ok(Ty::Tuple(types))
}

/// Values and types, and whether the one is of the other.
const TYPINGS: [(Plain, Wanted, bool); 14] = [
    (Int(1), Wanted::Int, true),
    (Bool(true), Wanted::Bool, true),
    (Text(&[]), Wanted::Text, true),
    (Text(&[]), Wanted::Bytes, false),
    (Bytes(&[]), Wanted::Bytes, true),
    (List(&[]), Wanted::Integers, true),
    (List(&[Int(1), Int(2)]), Wanted::Integers, true),
    (List(&[Int(1), Bool(true)]), Wanted::Integers, false),
    (Int(1), Wanted::Integers, false),
    (Tuple(&[Int(1), Bool(true)]), Wanted::Pair, true),
    (Tuple(&[Bool(true), Int(1)]), Wanted::Pair, false),
    (Tuple(&[Int(1)]), Wanted::Pair, false),
    (Node(1, &[Node(2, &[])]), Wanted::Tree, true),
    (Node(1, &[Int(2)]), Wanted::Tree, false),
];

fn is_typed(alloc: Global, plain: Plain, wanted: Wanted, want: bool) -> Result<bool, NoMemory> {
    let value = value_of(alloc, &plain)?;
    Ok(has_type(&value, &type_of(alloc, wanted)?) == want)
}

#[test]
fn a_value_is_of_its_type_and_no_other(rt: HostRuntime) {
    for (row, (plain, ty, want)) in TYPINGS.iter().enumerate() {
        expect(&rt, row, is_typed(rt.alloc(), *plain, *ty, *want));
    }
}

// The number 7 inside lists of one member, so many levels deep.
fn nested(alloc: Global, levels: u8) -> Result<Val, NoMemory> {
    let mut value = Val::Int(7);
    for _ in 0..levels {
        let mut members = Vals::empty(alloc);
        members.push(value)?;
        value = Val::List(members);
    }
    Ok(value)
}

// Lists of numbers, so many levels deep.
fn nested_type(alloc: Global, levels: u8) -> Result<Ty, NoMemory> {
    let mut ty = Ty::Int;
    for _ in 0..levels {
        ty = Ty::List(Box::new(alloc, ty)?);
    }
    Ok(ty)
}

fn is_deep(alloc: Global, levels: u8) -> Result<bool, NoMemory> {
    let value = nested(alloc, levels)?.copy()?;
    Ok(size(&value) == u64::from(levels) + 1 && has_type(&value, &nested_type(alloc, levels)?))
}

// The text is the number between so many brackets on each side.
fn is_printed(alloc: Global, levels: u8) -> Result<bool, NoMemory> {
    let value = nested(alloc, levels)?;
    let shown = show(alloc, &value)?;
    Ok(same(&value, &nested(alloc, levels)?) && shown.len() == 2 * usize::from(levels) + 1)
}

#[test]
fn a_value_may_be_64_levels_deep(rt: HostRuntime) {
    expect(&rt, 0, is_deep(rt.alloc(), 64));
    expect(&rt, 1, is_printed(rt.alloc(), 64));
}

fn are_kept(alloc: Global) -> Result<bool, NoMemory> {
    let mut chars = Chars::empty(alloc);
    chars.push('a')?;
    chars.push('\u{10ffff}')?;
    let copy = chars.copy()?;
    Ok(copy.len() == 2 && copy.as_slice() == ['a', '\u{10ffff}'].as_slice())
}

#[test]
fn characters_are_kept_in_order(rt: HostRuntime) {
    expect(&rt, 0, are_kept(rt.alloc()));
}
