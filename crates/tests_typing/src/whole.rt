//! A suite of one property, and what the check of it answers.

use pt_ast::{Body, Ident, Item, Items, Settings, Stmts, Suite};
use pt_check::{TypeFault, find_fault};
use pt_choice::NoMemory;
use pt_val::{Name, NameStop, Names, Place};
use std::alloc::Global;

pub const HERE: Place = Place { line: 1, column: 1 };

pub fn name(alloc: Global, text: &str) -> Result<Name, NoMemory> {
    match Name::of(alloc, text) {
        Ok(name) => Ok(name),
        Err(NameStop::NotAName | NameStop::NoMemory) => Err(NoMemory),
    }
}

fn property(alloc: Global, stmts: Stmts) -> Result<Item, NoMemory> {
    Ok(Item {
        at: HERE,
        name: Ident {
            at: HERE,
            name: name(alloc, "p")?,
        },
        settings: Settings {
            runs: 100,
            shrink: 500,
            steps: 20,
        },
        body: Body::Property(stmts),
    })
}

/// Whether the suite of a property with these statements is answered so, where no check is handed in.
pub fn runs_into(
    alloc: Global,
    stmts: Stmts,
    wanted: Result<(), TypeFault>,
) -> Result<bool, NoMemory> {
    let mut items = Items::empty(alloc);
    items.push(property(alloc, stmts)?)?;
    Ok(find_fault(alloc, &Suite { items }, &Names::empty(alloc)) == wanted)
}
