//! Properties as checks: each of their endings, with what they note, as worked by hand.

ghost use Rattle.std.specs.Prelude.{◌≡◌, true, IfOk};
ghost use Rattle.pt_ast.specs.Plain.{plain_body};
ghost use Rattle.pt_prop.specs.Property.{is_property};

use crate::derived::choices_of;
use crate::expect::expect;
use crate::plain::Drawn::Ints;
use crate::plain::Plain::{Bad, Num, Var};
use crate::plain::{at, ident};
use crate::statements::Line::{Assert as Demand, Draw, Let};
use crate::statements::{DIGITS, Line, Pair, SMALL, SUMS, are_noted, body};
use pt_ast::{Body, Item, Settings};
use pt_case::Ending::{self, Fail, Overrun, Pass, Reject};
use pt_case::Origin::Suite;
use pt_case::What::{self, Assert, Bounds, Division};
use pt_case::{Check, Record, replay};
use pt_choice::NoMemory;
use pt_prop::PropertyCheck;
use std::alloc::Global;

const SETTINGS: Settings = Settings {
    runs: 100,
    shrink: 500,
    steps: 20,
};

// The property `p` of these lines.
fn property(alloc: Global, lines: &[Line]) -> Result<Item, NoMemory>
    ensures { IfOk result (λ item. is_property (plain_body item.body) ≡ true) }
{
    let name = ident(alloc, "p")?;
    let stmts = body(alloc, lines)?;
    Ok(Item {
        at: at(1),
        name,
        settings: SETTINGS,
        body: Body::Property(stmts),
    })
}

/// How a run ends, and where it fails, what is wrong and in which line.
#[derive(Clone, Copy)]
enum Wanted {
    Passed,
    Rejected,
    Overran,
    Failed(What, u32),
}

use crate::properties::Wanted::{Failed, Overran, Passed, Rejected};

fn ending(wanted: Wanted) -> Ending {
    match wanted {
        Passed => Pass,
        Rejected => Reject,
        Overran => Overrun,
        Failed(what, line) => Fail(Suite {
            what,
            place: at(line),
        }),
    }
}

/// A property: its lines, the choices, how it ends, and what it notes.
type Row = (&'static [Line], &'static [u8], Wanted, &'static [Pair]);

const ROWS: [Row; 11] = [
    (SMALL, b"i4", Passed, &[(b"x", b"4")]),
    (SMALL, b"i7", Failed(Assert, 1), &[(b"x", b"7")]),
    (SMALL, b"-", Overran, &[]),
    (SMALL, b"i4 i9", Passed, &[(b"x", b"4")]),
    (SUMS, b"i4 i2", Passed, &[(b"x", b"4"), (b"z", b"2")]),
    (SUMS, b"i3 i2", Rejected, &[(b"x", b"3")]),
    (SUMS, b"i4", Overran, &[(b"x", b"4")]),
    (
        &[Draw("x", DIGITS), Let("y", Bad)],
        b"i1",
        Failed(Division, 2),
        &[(b"x", b"1")],
    ),
    (
        &[Draw("x", DIGITS), Demand(Bad)],
        b"i1",
        Failed(Division, 2),
        &[(b"x", b"1")],
    ),
    (
        &[Draw("x", DIGITS), Draw("y", Ints(Num(5), Var("x")))],
        b"i1 i0",
        Failed(Bounds, 1),
        &[(b"x", b"1")],
    ),
    (&[], b"-", Passed, &[]),
];

// The record of a property over the choices that are spelled.
fn recorded(alloc: Global, item: &Item, spelled: &[u8]) -> Result<Record, NoMemory>
    requires { is_property (plain_body item.now.body) ≡ true }
{
    replay(alloc, &PropertyCheck::of(item), &choices_of(alloc, spelled))
}

fn is_ended(alloc: Global, row: &Row) -> Result<bool, NoMemory> {
    let (lines, spelled, wanted, notes) = *row;
    let item = property(alloc, lines)?;
    let rec = recorded(alloc, &item, spelled)?;
    Ok(rec.ending == ending(wanted) && are_noted(alloc, rec.notes.as_slice(), notes)?)
}

#[test]
fn properties_end_and_note(rt: HostRuntime) {
    for (row, property) in ROWS.iter().enumerate() {
        expect(&rt, row, is_ended(rt.alloc(), property));
    }
}

fn is_named(alloc: Global) -> Result<bool, NoMemory> {
    let item = property(alloc, SMALL)?;
    Ok(PropertyCheck::of(&item).name().as_slice() == b"p".as_slice())
}

#[test]
fn a_property_has_the_name_of_its_item(rt: HostRuntime) {
    expect(&rt, 0, is_named(rt.alloc()));
}
