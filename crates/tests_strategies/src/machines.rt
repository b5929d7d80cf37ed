//! Machines as checks: each of their endings, with what they note, as worked by hand.

ghost use Rattle.std.specs.Prelude.{◌≡◌, true, IfOk};
ghost use Rattle.pt_ast.specs.Plain.{plain_body};
ghost use Rattle.pt_machine.specs.Machine.{is_machine};

use crate::derived::{Part, are_parts, choices_of};
use crate::expect::expect;
use crate::plain::Plain::{self, Bad, Below, Is, Num, Plus, ShareBelow, Var};
use crate::plain::{at, expr, ident};
use crate::statements::Line::{Assert as Demand, Assume, Draw, Give, Pick, Set};
use crate::statements::{DIGITS, Line, Pair, are_noted, body};
use pt_ast::{
    Body, BundleDecl, BundleDecls, Expr, Ident, InvariantDecl, InvariantDecls, Item, Machine,
    RuleDecl, RuleDecls, Settings, StateDecl, StateDecls,
};
use pt_case::Ending::{self, Fail, Overrun, Pass, Reject};
use pt_case::Origin::Suite;
use pt_case::What::{self, Assert, Division, Invariant};
use pt_case::{Record, replay};
use pt_choice::{Choice, Choices, NoMemory};
use pt_machine::MachineCheck;
use pt_val::Ty;
use std::alloc::Global;

/// A rule as plain data: its name, its precondition, the bundle that it gives into, and its lines.
type Rule = (
    &'static str,
    Option<Plain>,
    Option<&'static str>,
    &'static [Line],
);

/// A machine as plain data: its invariants and its rules. Each has the number 7, the states `m`, which is -2, and `n`, which is
/// 0, and the bundles `in` and `out`; the nodes of a rule are numbered from 0 on.
type Made = (&'static [Plain], &'static [Rule]);

const STATES: [(&str, Plain); 2] = [("m", Num(-2)), ("n", Plus("m", 2))];

const BUNDLES: [&str; 2] = ["in", "out"];

fn states(alloc: Global) -> Result<StateDecls, NoMemory> {
    let mut states = StateDecls::empty(alloc);
    for (text, plain) in &STATES {
        let name = ident(alloc, text)?;
        let init = expr(alloc, *plain)?;
        states.push(StateDecl {
            at: at(1),
            name,
            init,
        })?;
    }
    Ok(states)
}

fn bundles(alloc: Global) -> Result<BundleDecls, NoMemory> {
    let mut bundles = BundleDecls::empty(alloc);
    for text in &BUNDLES {
        let name = ident(alloc, text)?;
        bundles.push(BundleDecl {
            at: at(1),
            name,
            ty: Ty::Int,
        })?;
    }
    Ok(bundles)
}

fn invariants(alloc: Global, made: &[Plain]) -> Result<InvariantDecls, NoMemory> {
    let mut invariants = InvariantDecls::empty(alloc);
    for plain in made {
        let cond = expr(alloc, *plain)?;
        invariants.push(InvariantDecl { at: at(3), cond })?;
    }
    Ok(invariants)
}

fn condition(alloc: Global, plain: Option<Plain>) -> Result<Option<Expr>, NoMemory> {
    match plain {
        None => Ok(None),
        Some(plain) => Ok(Some(expr(alloc, plain)?)),
    }
}

fn target(alloc: Global, text: Option<&'static str>) -> Result<Option<Ident>, NoMemory> {
    match text {
        None => Ok(None),
        Some(text) => Ok(Some(ident(alloc, text)?)),
    }
}

fn rule(alloc: Global, made: &Rule) -> Result<RuleDecl, NoMemory> {
    let (text, when, into, lines) = *made;
    let name = ident(alloc, text)?;
    let when = condition(alloc, when)?;
    let into = target(alloc, into)?;
    let stmts = body(alloc, lines)?;
    Ok(RuleDecl {
        at: at(1),
        name,
        when,
        into,
        stmts,
    })
}

fn rules(alloc: Global, made: &[Rule]) -> Result<RuleDecls, NoMemory> {
    let mut rules = RuleDecls::empty(alloc);
    for one in made {
        rules.push(rule(alloc, one)?)?;
    }
    Ok(rules)
}

fn machine(alloc: Global, made: &Made) -> Result<Machine, NoMemory> {
    let (invariants_made, rules_made) = *made;
    let states = states(alloc)?;
    let bundles = bundles(alloc)?;
    let invariants = invariants(alloc, invariants_made)?;
    let rules = rules(alloc, rules_made)?;
    Ok(Machine {
        num: 7,
        states,
        bundles,
        invariants,
        rules,
    })
}

// The item `m`, which makes at most so many steps.
fn item(alloc: Global, made: &Made, steps: u32) -> Result<Item, NoMemory>
    ensures { IfOk result (λ item. is_machine (plain_body item.body) ≡ true) }
{
    let name = ident(alloc, "m")?;
    let machine = machine(alloc, made)?;
    Ok(Item {
        at: at(1),
        name,
        settings: Settings {
            runs: 100,
            shrink: 500,
            steps,
        },
        body: Body::Machine(machine),
    })
}

fn record(alloc: Global, made: &Made, steps: u32, choices: &Choices) -> Result<Record, NoMemory> {
    let item = item(alloc, made, steps)?;
    replay(alloc, &MachineCheck::of(&item), choices)
}

/// How a run ends, and where it fails, what is wrong and in which line.
#[derive(Clone, Copy)]
enum Wanted {
    Passed,
    Rejected,
    Overran,
    Failed(What, u32),
}

use crate::machines::Wanted::{Failed, Overran, Passed, Rejected};

fn ending(wanted: Wanted) -> Ending {
    match wanted {
        Passed => Pass,
        Rejected => Reject,
        Overran => Overrun,
        Failed(what, line) => Fail(Suite {
            what,
            place: at(line),
        }),
    }
}

/// A machine of at most three steps: the choices, how many of them are taken, how it ends, and what it notes.
type Row = (Made, &'static [u8], usize, Wanted, &'static [Pair]);

// What is put into `in` is moved to `out`, one greater, and taken from there.
const MOVES: Made = (
    &[Below("n", 9)],
    &[
        ("take", None, None, &[Pick("y", "out"), Set("n", Var("y"))]),
        (
            "put",
            Some(Is("n", 0)),
            Some("in"),
            &[Draw("x", DIGITS), Give(Var("x"))],
        ),
        (
            "move",
            None,
            Some("out"),
            &[Pick("x", "in"), Give(Plus("x", 1))],
        ),
    ],
);

const MOVED: &[Pair] = &[
    (b"step", b"\"put\""),
    (b"x", b"7"),
    (b"step", b"\"move\""),
    (b"x", b"7"),
    (b"step", b"\"take\""),
    (b"y", b"8"),
];

const MOVED_MORE: &[Pair] = &[
    (b"step", b"\"put\""),
    (b"x", b"8"),
    (b"step", b"\"move\""),
    (b"x", b"8"),
    (b"step", b"\"take\""),
    (b"y", b"9"),
];

const COUNT: Line = Set("n", Plus("n", 1));

const COUNTS: Made = (&[Below("n", 65)], &[("r", None, None, &[COUNT])]);

const ONCE: Made = (&[], &[("r", Some(Is("n", 0)), None, &[COUNT])]);

const NEVER: Made = (&[], &[("r", None, None, &[Pick("x", "in")])]);

const BAD_WHEN: Made = (&[], &[("r", Some(Bad), None, &[Pick("x", "in")])]);

const BAD_INVARIANT: Made = (&[Bad], &[("r", None, None, &[COUNT])]);

const BROKEN: Made = (&[Is("n", 1)], &[("r", None, None, &[COUNT])]);

const BREAKS: Made = (&[Is("n", 0)], &[("r", None, None, &[COUNT])]);

const ASSUMES: Made = (
    &[],
    &[("r", None, Some("in"), &[Assume(Is("n", 1)), Give(Num(1))])],
);

const ASSERTS: Made = (&[], &[("r", None, None, &[Demand(Is("n", 1))])]);

// What goes wrong once `m` is 0.
const LATER: Plain = ShareBelow("m", 1);

const RISE: Line = Set("m", Plus("m", 1));

const BAD_LATER: Made = (&[], &[("r", Some(LATER), None, &[RISE])]);

const BAD_AFTER: Made = (&[LATER], &[("r", None, None, &[RISE])]);

const R: Pair = (b"step", b"\"r\"");

const ROWS: [Row; 16] = [
    (
        MOVES,
        b"bt i0 i7 bt i1 i0 bt i0 i0 bt i0 i0",
        9,
        Passed,
        MOVED,
    ),
    (
        MOVES,
        b"bt i0 i8 bt i1 i0 bt i0 i0",
        9,
        Failed(Invariant, 3),
        MOVED_MORE,
    ),
    (
        MOVES,
        b"bt i0 i7 bf i0",
        4,
        Passed,
        &[(b"step", b"\"put\""), (b"x", b"7")],
    ),
    (MOVES, b"bt i0", 2, Overran, &[(b"step", b"\"put\"")]),
    (COUNTS, b"bt i0 bt i0 bt i0 bt i0", 6, Passed, &[R, R, R]),
    (COUNTS, b"bf i0", 1, Passed, &[]),
    (ONCE, b"bt i0 bt i0", 2, Passed, &[R]),
    (NEVER, b"bt i0", 0, Passed, &[]),
    (BAD_WHEN, b"bt i0", 0, Failed(Division, 2), &[]),
    (BAD_INVARIANT, b"bt i0", 0, Failed(Division, 2), &[]),
    (BROKEN, b"bt i0", 0, Failed(Invariant, 3), &[]),
    (BREAKS, b"bt i0 bt i0", 2, Failed(Invariant, 3), &[R]),
    (ASSUMES, b"bt i0 bt i0", 2, Rejected, &[R]),
    (ASSERTS, b"bt i0 bt i0", 2, Failed(Assert, 1), &[R]),
    (
        BAD_LATER,
        b"bt i0 bt i0 bt i0",
        4,
        Failed(Division, 2),
        &[R, R],
    ),
    (
        BAD_AFTER,
        b"bt i0 bt i0 bt i0",
        4,
        Failed(Division, 2),
        &[R, R],
    ),
];

fn is_recorded(alloc: Global, row: &Row) -> Result<bool, NoMemory> {
    let (made, spelled, taken, wanted, notes) = *row;
    let rec = record(alloc, &made, 3, &choices_of(alloc, spelled))?;
    Ok(
        rec.ending == ending(wanted)
            && rec.choices.len() == taken
            && are_noted(alloc, rec.notes.as_slice(), notes)?,
    )
}

#[test]
fn machines_end_and_note(rt: HostRuntime) {
    for (row, machine) in ROWS.iter().enumerate() {
        expect(&rt, row, is_recorded(rt.alloc(), machine));
    }
}

/// A machine of at most three steps: the choices, and the spans. That of the machine has the label 46, that of a step 47, and that
/// of a rule's first node 32.
type Spanned = (Made, &'static [u8], &'static [Part]);

const ONE_STEP: &[Part] = &[(46, 0, 2, None), (47, 0, 2, Some(0))];

const TWO_STEPS: &[Part] = &[(46, 0, 4, None), (47, 0, 2, Some(0)), (47, 2, 4, Some(0))];

const SPANS: [Spanned; 9] = [
    (
        MOVES,
        b"bt i0 i7 bt i1 i0 bt i0 i0 bt i0 i0",
        &[
            (46, 0, 9, None),
            (47, 0, 3, Some(0)),
            (32, 2, 3, Some(1)),
            (47, 3, 6, Some(0)),
            (32, 5, 6, Some(3)),
            (47, 6, 9, Some(0)),
            (32, 8, 9, Some(5)),
        ],
    ),
    (
        MOVES,
        b"bt i0 i7 bf",
        &[
            (46, 0, 4, None),
            (47, 0, 3, Some(0)),
            (32, 2, 3, Some(1)),
            (47, 3, 4, Some(0)),
        ],
    ),
    (
        MOVES,
        b"bt i0",
        &[(46, 0, 2, None), (47, 0, 2, Some(0)), (32, 2, 2, Some(1))],
    ),
    (ONCE, b"bt i0 bt i0", ONE_STEP),
    (NEVER, b"-", &[(46, 0, 0, None)]),
    (BROKEN, b"-", &[(46, 0, 0, None)]),
    (BREAKS, b"bt i0 bt i0", ONE_STEP),
    (BAD_LATER, b"bt i0 bt i0 bt i0", TWO_STEPS),
    (BAD_AFTER, b"bt i0 bt i0 bt i0", TWO_STEPS),
];

fn is_spanned(alloc: Global, row: &Spanned) -> Result<bool, NoMemory> {
    let (made, spelled, parts) = *row;
    let rec = record(alloc, &made, 3, &choices_of(alloc, spelled))?;
    Ok(are_parts(rec.spans.as_slice(), parts))
}

#[test]
fn machines_have_their_spans(rt: HostRuntime) {
    for (row, machine) in SPANS.iter().enumerate() {
        expect(&rt, row, is_spanned(rt.alloc(), machine));
    }
}

// The choices of so many steps by the first rule.
fn steps_of(alloc: Global, steps: u32) -> Result<Choices, NoMemory> {
    let mut choices = Choices::empty(alloc);
    for _step in 0..steps {
        choices.push(Choice::Bool(true))?;
        choices.push(Choice::Int(0))?;
    }
    Ok(choices)
}

fn is_full(alloc: Global) -> Result<bool, NoMemory> {
    let rec = record(alloc, &COUNTS, 64, &steps_of(alloc, 65)?)?;
    Ok(rec.ending == Pass && rec.choices.len() == 128 && rec.notes.len() == 64)
}

#[test]
fn a_run_has_at_most_its_steps(rt: HostRuntime) {
    expect(&rt, 0, is_full(rt.alloc()));
}
