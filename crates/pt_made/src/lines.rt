//! The lines of a made suite, of which there are four kinds in turn.

ghost use Rattle.std.specs.Prelude.{◌≡◌, ◌<◌, ◌++◌, IfOk, codes, map};
ghost use Rattle.std.specs.Fmt.{decimal};
ghost use Rattle.pt_ast.specs.Plain.{plain_item, plain_stmt};
ghost use Rattle.pt_grammar.specs.SuiteGrammar.{defaults, with_setting, Runs_of};
ghost use Rattle.pt_made.specs.Parts.{property};
ghost use Rattle.pt_made.specs.Lines.{passing, failing, rejecting, bounded, bound, made_item};

use crate::exprs::named;
use crate::places::{inside, number_at, right, start};
use crate::stmts::{assert_false, assert_x, assume_x, draw_int, draw_list};
use pt_ast::{Body, CompareOp, Item, Settings, Stmts};
use pt_choice::{NoMemory, Seq};
use std::alloc::Global;

/// The settings of an item that has none of its own.
fn defaults() -> Settings
    ensures { result ≡ defaults }
{
    Settings {
        runs: 100,
        shrink: 500,
        steps: 20,
    }
}

/// The settings of an item that has `runs 10`.
fn ten_runs() -> Settings
    ensures { result ≡ with_setting defaults (Runs_of 10) }
{
    Settings {
        runs: 10,
        ..defaults()
    }
}

/// `property pK SETTINGS { STATEMENTS }`
fn property(alloc: Global, k: u32, settings: Settings, stmts: Stmts) -> Result<Item, NoMemory>
    requires { k < 200 }
    ensures { IfOk result (λ item. plain_item item ≡ property k settings (map plain_stmt stmts)) }
{
    let at = start(k);
    let text = format!(in alloc; "p{k}")?;
    let name = named(alloc, right(at, 9), text.as_bytes())?;
    Ok(Item {
        at,
        name,
        settings,
        body: Body::Property(stmts),
    })
}

/// `property pK { draw x = ints(0, 9); assert x >= 0; }`
fn passing(alloc: Global, k: u32) -> Result<Item, NoMemory>
    requires { k < 200 }
    ensures { IfOk result (λ item. plain_item item ≡ passing k) }
{
    let at = inside(k);
    let mut stmts = Seq::empty(alloc);
    let drawn = draw_int(alloc, at, number_at(k), 9)?;
    stmts.push(drawn)?;
    let asserted = assert_x(alloc, right(at, 21), CompareOp::Ge, 5, 0)?;
    stmts.push(asserted)?;
    property(alloc, k, defaults(), stmts)
}

/// `property pK { draw xs = lists(ints(0, 9), 2, 5); assert false; }`
fn failing(alloc: Global, k: u32) -> Result<Item, NoMemory>
    requires { k < 200 }
    ensures { IfOk result (λ item. plain_item item ≡ failing k) }
{
    let at = inside(k);
    let mut stmts = Seq::empty(alloc);
    let drawn = draw_list(alloc, at, number_at(k))?;
    stmts.push(drawn)?;
    let asserted = assert_false(right(at, 35));
    stmts.push(asserted)?;
    property(alloc, k, defaults(), stmts)
}

/// `property pK runs 10 { draw x = ints(0, 9); assume x > 9; }`
fn rejecting(alloc: Global, k: u32) -> Result<Item, NoMemory>
    requires { k < 200 }
    ensures { IfOk result (λ item. plain_item item ≡ rejecting k) }
{
    let at = inside(k);
    let mut stmts = Seq::empty(alloc);
    let drawn = draw_int(alloc, right(at, 8), number_at(k), 9)?;
    stmts.push(drawn)?;
    let assumed = assume_x(alloc, right(at, 29), CompareOp::Gt, 4, 9)?;
    stmts.push(assumed)?;
    property(alloc, k, ten_runs(), stmts)
}

/// `property pK { draw x = ints(0, 1000); assert x < LIMIT; }`
fn bounded(alloc: Global, limit: u32, k: u32) -> Result<Item, NoMemory>
    requires { k < 200 }
    ensures { IfOk result (λ item. plain_item item ≡ bounded limit k) }
{
    let at = inside(k);
    let mut stmts = Seq::empty(alloc);
    let drawn = draw_int(alloc, at, number_at(k), 1000)?;
    stmts.push(drawn)?;
    let asserted = assert_x(alloc, right(at, 24), CompareOp::Lt, 4, limit)?;
    stmts.push(asserted)?;
    property(alloc, k, defaults(), stmts)
}

/// The limit of the k-th line, from 1 to 900.
fn bound(seed: u64, k: u32) -> u32
    requires { k < 200 }
    ensures { result ≡ bound seed k }
{
    1 + ((seed % 900) as u32 + k) % 900
}

/// The k-th line.
pub(crate) fn made_item(alloc: Global, seed: u64, k: u32) -> Result<Item, NoMemory>
    requires { k < 200 }
    ensures { IfOk result (λ item. plain_item item ≡ made_item seed k) }
{
    match k % 4 {
        0 => passing(alloc, k),
        1 => failing(alloc, k),
        2 => rejecting(alloc, k),
        _ => bounded(alloc, bound(seed, k), k),
    }
}
