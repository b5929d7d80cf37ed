//! A machine of two rules.

ghost use Rattle.std.specs.Prelude.{◌≡◌, ◌<◌, ◌^◌, ◌≤◌, length, true, false, None};
ghost use Rattle.pt_plan.specs.Came.{Drew};
ghost use Rattle.pt_plan.specs.Stop.{draw_halt};
ghost use Rattle.pt_val.specs.declared.val.Val.{Val};
ghost use Rattle.tests_typed.specs.Door.{is_open, is_closed, close_plan};

use crate::drawn::choices_of;
use crate::expect::expect;
use pt_case::{Case, Ending, Origin, Record, replay};
use pt_choice::NoMemory;
use pt_plan::{DrawStop, ask_flag};
use pt_rules::{Rule, RuleMachine, stepped};
use pt_val::{Name, NameStop, Val, show};
use std::alloc::Global;

/// Opens a door that is closed.
#[derive(Drop)]
struct Open {
    name: Name,
}

/// Closes a door that is open, and fails at point 4 where a fair boolean is true.
#[derive(Drop)]
struct Close {
    name: Name,
}

impl Rule for Open {
    ghost use Rattle.tests_typed.specs.Door.{is_closed, open_plan};

    ghost meaning = { λ rule. record { name = rule.name; enabled = is_closed; step = open_plan } };

    fn name(&self) -> &Name {
        &self.name
    }

    fn enabled(&self, state: &Val) -> bool {
        is_at(state, false)
    }

    fn step(&self, state: &mut Val, _: &mut Case) -> Result<Ending, NoMemory> {
        *state = Val::Bool(true);
        Ok(Ending::Pass)
    }
}

impl Rule for Close {
    ghost use Rattle.tests_typed.specs.Door.{is_open, close_plan};

    ghost meaning = { λ rule. record { name = rule.name; enabled = is_open; step = close_plan } };

    fn name(&self) -> &Name {
        &self.name
    }

    fn enabled(&self, state: &Val) -> bool {
        is_at(state, true)
    }

    fn step(&self, state: &mut Val, case: &mut Case) -> Result<Ending, NoMemory> {
        let next = closed(case);
        stepped(state, next)
    }
}

// Whether the door is open, or is closed, where that is false.
fn is_at(state: &Val, wanted: bool) -> bool
    ensures on { wanted ≡ true → result ≡ is_open state.now }
    ensures off { wanted ≡ false → result ≡ is_closed state.now }
{
    match state {
        Val::Bool(is) => *is == wanted,
        _ => false,
    }
}

fn closed(case: &mut Case) -> Result<Val, DrawStop>
    ensures { (state : Val) → Drew draw_halt (close_plan state) case.old case.new result }
{
    if ask_flag(case, 8)? {
        return Err(DrawStop::Fault(Origin::Point(4)));
    }
    Ok(Val::Bool(false))
}

// Whether the last note is shown so, if there is one.
fn is_last(alloc: Global, record: &Record, last: &[u8]) -> Result<bool, NoMemory> {
    match record.notes.as_slice().last() {
        Some(note) => Ok(show(alloc, &note.val)?.as_slice() == last),
        None => Ok(true),
    }
}

fn open_rule(alloc: Global) -> Result<Open, NameStop> {
    Ok(Open {
        name: Name::of(alloc, "open")?,
    })
}

fn close_rule(alloc: Global) -> Result<Close, NameStop> {
    Ok(Close {
        name: Name::of(alloc, "close")?,
    })
}

// Whether a machine of these rules leaves so many notes on these choices, the last of which is shown so, and ends so.
fn is_run(
    alloc: Global,
    name: Name,
    opening: Open,
    closing: Close,
    spelled: &[u8],
    notes: usize,
    last: &[u8],
    ending: Ending,
) -> Result<bool, NoMemory>
    requires { length spelled.now < 2 ^ 32 }
{
    let mut rules: Vec<Box<dyn Rule>> = Vec::new(alloc);
    rules.push(Box::new(alloc, opening)?)?;
    rules.push(Box::new(alloc, closing)?)?;
    let machine = RuleMachine {
        name,
        start: Val::Bool(false),
        rules,
        steps: 3,
    };
    let record = replay(alloc, &machine, &choices_of(alloc, spelled))?;
    Ok(is_last(alloc, &record, last)? && record.notes.len() == notes && record.ending == ending)
}

fn is_row(
    alloc: Global,
    spelled: &[u8],
    notes: usize,
    last: &[u8],
    ending: Ending,
) -> Result<bool, NameStop>
    requires { length spelled.now < 2 ^ 32 }
{
    let name = Name::of(alloc, "door")?;
    let is = is_run(
        alloc,
        name,
        open_rule(alloc)?,
        close_rule(alloc)?,
        spelled,
        notes,
        last,
        ending,
    )?;
    Ok(is)
}

// Choices, how many notes are made of them, the last of these, and how the machine ends, which makes three steps at most.
const RUNS: &[(&[u8], usize, &[u8], Ending)] = &[
    // no step
    (b"bf", 0, b"", Ending::Pass),
    // opened, and then closed; only one rule is enabled at each step
    (b"bt i0 bf", 1, b"\"open\"", Ending::Pass),
    (b"bt i0 bt i0 bf bf", 2, b"\"close\"", Ending::Pass),
    // the third step is the last
    (b"bt i0 bt i0 bf bt i0", 3, b"\"open\"", Ending::Pass),
    // a step that fails ends the run
    (
        b"bt i0 bt i0 bt bt i0",
        2,
        b"\"close\"",
        Ending::Fail(Origin::Point(4)),
    ),
    // there are no more choices
    (b"bt i0 bt", 1, b"\"open\"", Ending::Overrun),
    (b"bt i0 bt i0", 2, b"\"close\"", Ending::Overrun),
];

#[test]
fn a_machine_steps_the_rules_that_are_enabled(rt: HostRuntime) {
    for (row, (spelled, notes, last, ending)) in RUNS.iter().enumerate() {
        expect(&rt, row, is_row(rt.alloc(), spelled, *notes, last, *ending));
    }
}
