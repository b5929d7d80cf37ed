//! A suite that is read whole, and a text for each word of a fault.

use crate::expect::expect;
use pt_ast::{Body, Item, Machine, RuleDecl, Settings, StmtKind, Strat, StratKind};
use pt_parse::{SuiteFault, read_suite};
use pt_val::{Place, Ty};
use std::alloc::Global;

const SUITE: &[u8] = b"check never
property sums runs 5 shrink 0 {
  draw x = tuples(ints(0, 9), one_of(bools(), self));
  draw y = bools();
}
machine counter steps 7 {
  state s = 0;
  bundle b: int;
  invariant s >= 0;
  rule r when s < 9 into b { pick y from b; set s = s + y; give s; }
}";

fn place(line: u32, column: u32) -> Place {
    Place { line, column }
}

fn is_headed(item: &Item, at: Place, name: &[u8], settings: Settings) -> bool {
    item.at == at && item.name.name.as_slice() == name && item.settings == settings
}

fn is_check(item: &Item) -> bool {
    let settings = Settings {
        runs: 100,
        shrink: 500,
        steps: 20,
    };
    is_headed(item, place(1, 1), b"never", settings) && matches!(item.body, Body::Check)
}

fn is_property(item: &Item) -> bool {
    let settings = Settings {
        runs: 5,
        shrink: 0,
        steps: 20,
    };
    let Body::Property(stmts) = &item.body else {
        return false;
    };
    let [first, second] = stmts.as_slice() else {
        return false;
    };
    is_headed(item, place(2, 1), b"sums", settings)
        && matches!(&first.kind, StmtKind::Draw(_, strat) if is_pair(strat))
        && matches!(&second.kind, StmtKind::Draw(_, strat) if is_bools(strat, 4))
}

fn is_pair(strat: &Strat) -> bool {
    let StratKind::Tuples(parts) = &strat.kind else {
        return false;
    };
    let [first, second] = parts.as_slice() else {
        return false;
    };
    strat.num == 0
        && strat.at == place(3, 12)
        && first.num == 1
        && matches!(first.kind, StratKind::Ints(_, _))
        && is_choice(second)
}

fn is_choice(strat: &Strat) -> bool {
    let StratKind::OneOf(parts) = &strat.kind else {
        return false;
    };
    let [first, second] = parts.as_slice() else {
        return false;
    };
    strat.num == 2 && is_bools(first, 3) && matches!(second.kind, StratKind::Again)
}

fn is_bools(strat: &Strat, num: u32) -> bool {
    strat.num == num && matches!(strat.kind, StratKind::Bools)
}

fn is_machine(item: &Item) -> bool {
    let settings = Settings {
        runs: 100,
        shrink: 500,
        steps: 7,
    };
    is_headed(item, place(6, 1), b"counter", settings)
        && matches!(&item.body, Body::Machine(machine) if is_counter(machine))
}

fn is_counter(machine: &Machine) -> bool {
    let [bundle] = machine.bundles.as_slice() else {
        return false;
    };
    let [rule] = machine.rules.as_slice() else {
        return false;
    };
    machine.num == 5
        && machine.states.len() == 1
        && matches!(bundle.ty, Ty::Int)
        && machine.invariants.len() == 1
        && is_rule(rule)
}

fn is_rule(rule: &RuleDecl) -> bool {
    let [first, second, third] = rule.stmts.as_slice() else {
        return false;
    };
    rule.when.is_some()
        && rule.into.is_some()
        && matches!(first.kind, StmtKind::Pick { num: 6, .. })
        && matches!(second.kind, StmtKind::Set(_, _))
        && matches!(third.kind, StmtKind::Give(_))
}

fn is_suite(alloc: Global) -> Result<bool, SuiteFault> {
    let suite = read_suite(alloc, SUITE)?;
    let [first, second, third] = suite.items.as_slice() else {
        return Ok(false);
    };
    Ok(is_check(first) && is_property(second) && is_machine(third))
}

const FAULTS: [(&[u8], SuiteFault); 4] = [
    (
        b"check 7\xff",
        SuiteFault::NotUtf8(Place { line: 1, column: 8 }),
    ),
    (b"check 7", SuiteFault::Syntax(Place { line: 1, column: 7 })),
    (
        b"check never runs 0",
        SuiteFault::OutOfRange(Place {
            line: 1,
            column: 18,
        }),
    ),
    (
        b"property p { let x = ((((((((((((((((((((((((((((((((((((((((((((((((((((((((((((((((",
        SuiteFault::TooDeep(Place {
            line: 1,
            column: 85,
        }),
    ),
];

fn has_fault(alloc: Global, text: &[u8], fault: SuiteFault) -> bool {
    if text.len() > 1_048_576 {
        return false;
    }
    matches!(read_suite(alloc, text), Err(found) if found == fault)
}

#[test]
fn a_suite_is_read(rt: HostRuntime) {
    expect(&rt, 0, is_suite(rt.alloc()));
}

#[test]
fn each_fault_has_its_word(rt: HostRuntime) {
    for (row, (text, fault)) in FAULTS.iter().enumerate() {
        expect::<SuiteFault>(&rt, row, Ok(has_fault(rt.alloc(), text, *fault)));
    }
}
