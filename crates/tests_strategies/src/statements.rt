//! Statements of properties and of rules, as worked by hand.

use crate::derived::Want::{self, Rejected, Shown, Stopped, Wrong};
use crate::derived::{case_of, is_stop};
use crate::expect::expect;
use crate::plain::Drawn::{self, Ints};
use crate::plain::Plain::{self, Bad, Below, Is, Num, Plus, Var};
use crate::plain::{at, expr, ident, made, name};
use pt_ast::{Ident, Stmt, StmtKind, Stmts};
use pt_case::What::{Assert, Bounds, Division};
use pt_case::{Case, Ending, Note};
use pt_choice::NoMemory;
use pt_eval::Env;
use pt_plan::DrawStop;
use pt_strat::{Bundles, World, run_rule, run_stmts};
use pt_val::{Val, show};
use std::alloc::Global;

/// A statement as plain data.
#[derive(Clone, Copy)]
pub enum Line {
    Draw(&'static str, Drawn),
    Let(&'static str, Plain),
    Assume(Plain),
    Assert(Plain),
    Pick(&'static str, &'static str),
    Set(&'static str, Plain),
    Give(Plain),
}

use crate::statements::Line::{Assert as Demand, Assume, Draw, Give, Let, Pick, Set};

fn kind(alloc: Global, line: &Line, next: &mut u32) -> Result<StmtKind, NoMemory> {
    match line {
        Draw(given, drawn) => Ok(StmtKind::Draw(ident(alloc, given)?, made(alloc, drawn, next)?)),
        Let(given, plain) => Ok(StmtKind::Let(ident(alloc, given)?, expr(alloc, *plain)?)),
        Assume(plain) => Ok(StmtKind::Assume(expr(alloc, *plain)?)),
        Demand(plain) => Ok(StmtKind::Assert(expr(alloc, *plain)?)),
        Pick(given, bundle) => {
            let num = *next;
            *next = next.wrapping_add(1);
            Ok(StmtKind::Pick {
                num,
                name: ident(alloc, given)?,
                bundle: ident(alloc, bundle)?,
            })
        }
        Set(state, plain) => Ok(StmtKind::Set(ident(alloc, state)?, expr(alloc, *plain)?)),
        Give(plain) => Ok(StmtKind::Give(expr(alloc, *plain)?)),
    }
}

pub fn body(alloc: Global, lines: &[Line]) -> Result<Stmts, NoMemory> {
    let mut stmts = Stmts::empty(alloc);
    let mut next = 0;
    for line in lines {
        let kind = kind(alloc, line, &mut next)?;
        stmts.push(Stmt { at: at(1), kind })?;
    }
    Ok(stmts)
}

/// A name with its value as it is printed.
pub type Pair = (&'static [u8], &'static [u8]);

fn is_note(alloc: Global, note: &Note, pair: &Pair) -> Result<bool, NoMemory> {
    let (name, shown) = *pair;
    Ok(note.name.as_slice() == name && show(alloc, &note.val)?.as_slice() == shown)
}

pub fn are_noted(alloc: Global, notes: &[Note], pairs: &[Pair]) -> Result<bool, NoMemory> {
    if notes.len() != pairs.len() {
        return Ok(false);
    }
    for (note, pair) in notes.iter().zip(pairs) {
        if !is_note(alloc, note, pair)? {
            return Ok(false);
        }
    }
    Ok(true)
}

fn has(alloc: Global, env: &Env, pairs: &[Pair]) -> Result<bool, NoMemory> {
    if env.len() != pairs.len() {
        return Ok(false);
    }
    for (binding, (name, shown)) in env.as_slice().iter().zip(pairs) {
        if binding.name.as_slice() != *name || show(alloc, &binding.val)?.as_slice() != *shown {
            return Ok(false);
        }
    }
    Ok(true)
}

fn ends<T: Drop>(outcome: Result<T, DrawStop>, want: Want) -> bool {
    match (outcome, want) {
        (Ok(_), Shown(_)) => true,
        (Ok(_), _) => false,
        (Err(stop), _) => is_stop(stop, want),
    }
}

// The name `n`, which is 3.
fn scope(alloc: Global) -> Result<Env, NoMemory> {
    let mut env = Env::empty(alloc);
    env.bind(name(alloc, "n")?, Val::Int(3))?;
    Ok(env)
}

#[derive(Drop)]
struct Run {
    ended: bool,
    env: Env,
    case: Case,
}

// The statements of a property.
fn ran(alloc: Global, lines: &[Line], spelled: &[u8], want: Want) -> Result<Run, NoMemory> {
    let mut case = case_of(alloc, spelled)?;
    let mut env = scope(alloc)?;
    let stmts = body(alloc, lines)?;
    let outcome = run_stmts(alloc, stmts.as_slice(), &mut env, &mut case);
    let ended = ends(outcome, want);
    Ok(Run { ended, env, case })
}

/// A property's body: its lines, the choices, what it comes to, the notes, and the names afterwards.
type Row = (
    &'static [Line],
    &'static [u8],
    Want,
    &'static [Pair],
    &'static [Pair],
);

pub const DIGITS: Drawn = Ints(Num(0), Num(9));

const OK: Want = Shown(b"");

const N: Pair = (b"n", b"3");

pub const SMALL: &[Line] = &[Draw("x", DIGITS), Demand(Below("x", 5))];

pub const SUMS: &[Line] = &[
    Draw("x", DIGITS),
    Let("y", Plus("x", 1)),
    Assume(Is("y", 5)),
    Draw("z", Ints(Num(0), Var("y"))),
];

const PROPERTIES: [Row; 8] = [
    (SMALL, b"i7", Wrong(Assert, 1), &[(b"x", b"7")], &[N]),
    (SMALL, b"i4", OK, &[(b"x", b"4")], &[N, (b"x", b"4")]),
    (SMALL, b"-", Stopped, &[], &[N]),
    (
        SUMS,
        b"i4 i2",
        OK,
        &[(b"x", b"4"), (b"z", b"2")],
        &[N, (b"x", b"4"), (b"y", b"5"), (b"z", b"2")],
    ),
    (SUMS, b"i3 i2", Rejected, &[(b"x", b"3")], &[N]),
    (SUMS, b"i4", Stopped, &[(b"x", b"4")], &[N]),
    (&[Let("x", Bad)], b"-", Wrong(Division, 2), &[], &[N]),
    (
        &[Draw("x", Ints(Num(4), Var("n")))],
        b"i0",
        Wrong(Bounds, 1),
        &[],
        &[N],
    ),
];

fn is_run(alloc: Global, row: &Row) -> Result<bool, NoMemory> {
    let (lines, spelled, want, notes, names) = *row;
    let Run { ended, env, case } = ran(alloc, lines, spelled, want)?;
    let rec = case.finish(Ending::Pass);
    Ok(ended && are_noted(alloc, rec.notes.as_slice(), notes)? && has(alloc, &env, names)?)
}

#[test]
fn properties_bind_and_note(rt: HostRuntime) {
    for (row, property) in PROPERTIES.iter().enumerate() {
        expect(&rt, row, is_run(rt.alloc(), property));
    }
}

// The state `n`, which is 3, and the bundle `b` with the entries 10 and 20.
fn world(alloc: Global) -> Result<World, NoMemory> {
    let mut bundles = Bundles::empty(alloc);
    let bundle = name(alloc, "b")?;
    bundles.add(alloc, name(alloc, "a")?)?;
    bundles.add(alloc, name(alloc, "b")?)?;
    bundles.give(&bundle, Val::Int(10))?;
    bundles.give(&bundle, Val::Int(20))?;
    let env = scope(alloc)?;
    Ok(World { env, bundles })
}

fn are_entries(alloc: Global, entries: &[Val], texts: &[&'static [u8]]) -> Result<bool, NoMemory> {
    if entries.len() != texts.len() {
        return Ok(false);
    }
    for (entry, text) in entries.iter().zip(texts) {
        if show(alloc, entry)?.as_slice() != *text {
            return Ok(false);
        }
    }
    Ok(true)
}

/// A rule's body, which gives into `b`: its lines, the choices, the names and the entries of `b` afterwards.
type Rule = (
    &'static [Line],
    &'static [u8],
    &'static [Pair],
    &'static [&'static [u8]],
);

const RULES: [Rule; 4] = [
    (
        &[Pick("x", "b"), Set("n", Plus("x", 1))],
        b"i1",
        &[(b"n", b"21"), (b"x", b"20")],
        &[b"10", b"20"],
    ),
    (
        &[Draw("x", DIGITS), Give(Var("x"))],
        b"i7",
        &[N, (b"x", b"7")],
        &[b"10", b"20", b"7"],
    ),
    (
        &[Set("n", Num(5)), Let("y", Plus("n", 1))],
        b"-",
        &[(b"n", b"5"), (b"y", b"6")],
        &[b"10", b"20"],
    ),
    (
        &[Pick("x", "b"), Give(Plus("x", 5))],
        b"i0",
        &[N, (b"x", b"10")],
        &[b"10", b"20", b"15"],
    ),
];

fn into_b(alloc: Global) -> Result<Option<Ident>, NoMemory> {
    Ok(Some(ident(alloc, "b")?))
}

fn is_left(
    alloc: Global,
    world: &World,
    names: &[Pair],
    entries: &[&'static [u8]],
) -> Result<bool, NoMemory> {
    let bundle = name(alloc, "b")?;
    Ok(
        has(alloc, &world.env, names)?
            && are_entries(alloc, world.bundles.entries(&bundle), entries)?,
    )
}

fn is_stepped(alloc: Global, rule: &Rule) -> Result<bool, NoMemory> {
    let (lines, spelled, names, entries) = *rule;
    let mut case = case_of(alloc, spelled)?;
    let stmts = body(alloc, lines)?;
    match run_rule(
        alloc,
        &into_b(alloc)?,
        stmts.as_slice(),
        world(alloc)?,
        &mut case,
    ) {
        Ok(after) => is_left(alloc, &after, names, entries),
        Err(_) => Ok(false),
    }
}

#[test]
fn rules_set_pick_and_give(rt: HostRuntime) {
    for (row, rule) in RULES.iter().enumerate() {
        expect(&rt, row, is_stepped(rt.alloc(), rule));
    }
}
