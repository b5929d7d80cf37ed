//! Lists of choices as the keys of a table.

use crate::expect::expect;
use crate::sample::Sample::{self, Bytes, Flag, Number, Text};
use crate::sample::choices_of;
use indexmap::IndexMap;
use pt_choice::{Choices, NoMemory};
use std::alloc::Global;
use std::test::Fail;

/// The lists that the table holds.
const HELD: [&[Sample]; 6] = [
    &[],
    &[Number(0)],
    &[Number(1)],
    &[Flag(true), Bytes(&[0, 255])],
    &[Flag(true), Text(&[0, 255])],
    &[Text(&[0]), Text(&[255])],
];

const OTHERS: [&[Sample]; 6] = [
    &[Number(-1)],
    &[Flag(false)],
    &[Number(0), Number(0)],
    &[Flag(true), Bytes(&[0, 254])],
    &[Bytes(&[]), Bytes(&[0, 255])],
    &[Text(&[0, 255])],
];

// Each list that is held, with its place among them.
fn table(alloc: Global) -> Result<IndexMap<Choices, usize>, NoMemory> {
    let mut table = IndexMap::new(alloc);
    for (place, list) in HELD.iter().enumerate() {
        table.insert(choices_of(alloc, list)?, place)?;
    }
    Ok(table)
}

// Whether the table has this place for the list.
fn finds(
    alloc: Global,
    table: &IndexMap<Choices, usize>,
    list: &[Sample],
    want: Option<usize>,
) -> Result<bool, NoMemory> {
    Ok(table.get(&choices_of(alloc, list)?).copied() == want)
}

#[test]
fn a_table_finds_what_it_holds_and_nothing_else(rt: HostRuntime) -> Result<(), Fail> {
    let table = table(rt.alloc())?;
    for (row, list) in HELD.iter().enumerate() {
        expect(&rt, row, finds(rt.alloc(), &table, list, Some(row)));
    }
    for (row, list) in OTHERS.iter().enumerate() {
        expect(&rt, row, finds(rt.alloc(), &table, list, None));
    }
    Ok(())
}
