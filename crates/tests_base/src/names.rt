//! Names, and lists of them.

use crate::expect::expect;
use pt_val::{Name, NameStop, Names};
use std::alloc::Global;

const NAMES: [&str; 5] = [
    "x1",
    "a",
    "z_09",
    "for",
    "abcdefghijklmnopqrstuvwxyz0123456789____",
];

const OTHER_TEXTS: [&str; 11] = [
    "X",
    "",
    "_a",
    "1a",
    "aB",
    "a-b",
    "a b",
    "a`",
    "a{",
    "é",
    "abcdefghijklmnopqrstuvwxyz0123456789_____",
];

// Whether the text and its bytes give one name, whose copy has the text's bytes.
fn is_name(alloc: Global, text: &str) -> Result<bool, NameStop> {
    let name = Name::of(alloc, text)?;
    let other = Name::of_bytes(alloc, text.as_bytes())?;
    Ok(name == other && name.copy()?.as_slice() == text.as_bytes())
}

fn is_no_name(alloc: Global, text: &str) -> Result<bool, NameStop> {
    let refused = Err(NameStop::NotAName);
    Ok(Name::of(alloc, text) == refused && Name::of_bytes(alloc, text.as_bytes()) == refused)
}

#[test]
fn a_name_is_a_letter_and_letters_digits_and_underscores(rt: HostRuntime) {
    for (row, text) in NAMES.iter().enumerate() {
        expect(&rt, row, is_name(rt.alloc(), text));
    }
}

#[test]
fn no_other_text_is_a_name(rt: HostRuntime) {
    for (row, text) in OTHER_TEXTS.iter().enumerate() {
        expect(&rt, row, is_no_name(rt.alloc(), text));
    }
}

fn names(alloc: Global) -> Result<Names, NameStop> {
    let mut names = Names::empty(alloc);
    for text in NAMES {
        names.push(Name::of(alloc, text)?)?;
    }
    Ok(names)
}

fn are_in_order(names: &[Name]) -> bool {
    names
        .iter()
        .zip(NAMES)
        .all(|(name, text)| name.as_slice() == text.as_bytes())
}

fn are_kept(alloc: Global) -> Result<bool, NameStop> {
    let names = names(alloc)?.copy()?;
    Ok(names.len() == NAMES.len() && are_in_order(names.as_slice()))
}

#[test]
fn names_are_kept_in_order(rt: HostRuntime) {
    expect(&rt, 0, are_kept(rt.alloc()));
}
