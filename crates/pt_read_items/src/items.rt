//! Reading items, of which a suite has 200 at most.

ghost use Rattle.std.specs.Prelude.{◌≡◌, ◌+◌, ◌<◌, ◌≤◌, ◌^◌, length, map, IfOk};
ghost use Rattle.pt_taking.specs.Gives.{Gives};
ghost use Rattle.pt_ast.specs.Plain.{plain_item};
ghost use Rattle.pt_ast.specs.Numbers.{body_numbers};
ghost use Rattle.pt_grammar.specs.Reading.{goes_on};
ghost use Rattle.pt_grammar.specs.SuiteReading.{begins_item, check_at, property_at, machine_item_at, item_at, items_at};

use crate::machines::read_machine;
use crate::settings::read_settings;
use pt_ast::{Body, Item, Items};
use pt_choice::Seq;
use pt_grammar::Sort;
use pt_read_stmts::read_stmts;
use pt_taking::{Stop, Terminal, name, one, open};
use pt_token::{Kind, Token, Word};
use pt_val::Place;
use std::alloc::Global;

/// How many levels may be open at one place.
const NESTING: u32 = 64;

/// The most items of a suite.
const ITEMS: usize = 200;

/// Reads what stands behind `check`.
#[tactic(auto, unfolding(pt_grammar::specs::SuiteReading::check_at))]
fn read_check(at: Place, tokens: &[Token]) -> Result<(Item, &[Token]), Stop<'_>>
    ensures gives { Gives (λ x. (plain_item x.0, x.1.now)) result (check_at at tokens.now) }
    ensures none { IfOk result (λ x. length (body_numbers (plain_item x.0).body) ≡ 0) }
    ensures shorter { IfOk result (λ x. length x.1.now < length tokens.now) }
{
    let (given, after) = name(tokens)?;
    let (settings, rest) = read_settings(false, after)?;
    let item = Item {
        at,
        name: given,
        settings,
        body: Body::Check,
    };
    Ok((item, rest))
}

/// Reads what stands behind `property`.
#[tactic(auto, unfolding(pt_grammar::specs::SuiteReading::property_at))]
fn read_property(
    alloc: Global,
    at: Place,
    from: u32,
    tokens: &[Token],
) -> Result<(Item, u32, &[Token]), Stop<'_>>
    requires room { from + length tokens.now ≤ 2 ^ 21 }
    ensures gives { Gives (λ x. (plain_item x.0, x.2.now)) result (property_at from at tokens.now) }
    ensures next { IfOk result (λ x. x.1 ≡ from + length (body_numbers (plain_item x.0).body)) }
    ensures room { IfOk result (λ x. x.1 + length x.2.now ≤ from + length tokens.now) }
{
    let (given, after) = name(tokens)?;
    let (settings, after) = read_settings(false, after)?;
    let inside = open(Terminal::OpenBrace, NESTING, after)?;
    let (stmts, next, after) = read_stmts(alloc, NESTING - 1, false, from, inside)?;
    let rest = one(Terminal::CloseBrace, after)?;
    let item = Item {
        at,
        name: given,
        settings,
        body: Body::Property(stmts),
    };
    Ok((item, next, rest))
}

/// Reads what stands behind `machine`.
#[tactic(auto, unfolding(pt_grammar::specs::SuiteReading::machine_item_at))]
fn read_machine_item(
    alloc: Global,
    at: Place,
    from: u32,
    tokens: &[Token],
) -> Result<(Item, u32, &[Token]), Stop<'_>>
    requires room { from + length tokens.now ≤ 2 ^ 21 }
    ensures gives { Gives (λ x. (plain_item x.0, x.2.now)) result (machine_item_at from at tokens.now) }
    ensures next { IfOk result (λ x. x.1 ≡ from + length (body_numbers (plain_item x.0).body)) }
    ensures room { IfOk result (λ x. x.1 + length x.2.now ≤ from + length tokens.now) }
{
    let (given, after) = name(tokens)?;
    let (settings, after) = read_settings(true, after)?;
    let (machine, next, rest) = read_machine(alloc, NESTING, from, after)?;
    let item = Item {
        at,
        name: given,
        settings,
        body: Body::Machine(machine),
    };
    Ok((item, next, rest))
}

/// Reads an item, whose nodes are numbered from there on.
#[tactic(auto, unfolding(pt_grammar::specs::SuiteReading::item_on))]
fn read_item(alloc: Global, from: u32, tokens: &[Token]) -> Result<(Item, u32, &[Token]), Stop<'_>>
    requires room { from + length tokens.now ≤ 2 ^ 21 }
    ensures gives { Gives (λ x. (plain_item x.0, x.2.now)) result (item_at from tokens.now) }
    ensures next { IfOk result (λ x. x.1 ≡ from + length (body_numbers (plain_item x.0).body)) }
    ensures room { IfOk result (λ x. x.1 + length x.2.now ≤ from + length tokens.now) }
    ensures shorter { IfOk result (λ x. length x.2.now < length tokens.now) }
{
    let Some((first, rest)) = tokens.split_first() else {
        return Err(Stop::At(Sort::Syntax, tokens));
    };
    let at = first.at;
    match first.kind {
        Kind::Word(Word::Check) => {
            let (check, after) = read_check(at, rest)?;
            Ok((check, from, after))
        }
        Kind::Word(Word::Property) => read_property(alloc, at, from, rest),
        Kind::Word(Word::Machine) => read_machine_item(alloc, at, from, rest),
        _ => Err(Stop::At(Sort::Syntax, tokens)),
    }
}

/// Whether the next token begins an item.
fn begins_item(tokens: &[Token]) -> bool
    ensures { result ≡ goes_on begins_item tokens.now }
{
    match tokens.split_first() {
        Some((first, _)) => matches!(
            first.kind,
            Kind::Word(Word::Check | Word::Property | Word::Machine)
        ),
        None => false,
    }
}

/// Reads items, as many as there are.
pub fn read_items(alloc: Global, tokens: &[Token]) -> Result<(Items, &[Token]), Stop<'_>>
    requires { length tokens.now ≤ 2 ^ 21 }
    ensures { Gives (λ x. (map plain_item x.0, x.1.now)) result (items_at tokens.now) }
{
    let mut items = Seq::empty(alloc);
    let mut next = 0;
    let mut rest = tokens;
    while begins_item(rest) {
        if items.len() == ITEMS {
            return Err(Stop::At(Sort::OutOfRange, rest));
        }
        let (item, later, after) = read_item(alloc, next, rest)?;
        items.push(item)?;
        next = later;
        rest = after;
    }
    Ok((items, rest))
}
