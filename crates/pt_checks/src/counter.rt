//! The check `counter`: a machine that counts up, and back to 0.

ghost use Rattle.std.specs.Prelude.{◌≡◌, ◌≤ℤ◌, ◌+ℤ◌, pos, true, None, map, IfOk};
ghost use Rattle.pt_val.specs.declared.val.Val.TheVariants as val;
ghost use Rattle.pt_case.specs.State.{State};
ghost use Rattle.pt_plan.specs.Came.{Drew};
ghost use Rattle.pt_plan.specs.Stop.{draw_halt};
ghost use Rattle.pt_typed.specs.Reading.{number_of};
ghost use Rattle.pt_typed.specs.Sets.{IsBetween};
ghost use Rattle.pt_checks.specs.Counter.{counter_name, IsCounter, add_name, add_meaning, reset_name, reset_meaning, n_word, is_from, digit_plan, add_plan, sum_plan};

use pt_case::{Case, Ending, Origin};
use pt_choice::NoMemory;
use pt_plan::{DrawStop, note};
use pt_rules::{Rule, RuleMachine, stepped};
use pt_typed::{Ints, draw_from};
use pt_val::{Name, Val};
use std::alloc::Global;

// What the count may not exceed.
const LIMIT: i64 = 20;

const STEPS: u32 = 20;

/// The machine, of these two rules.
pub fn counter(
    alloc: Global,
    add: Box<dyn Rule>,
    reset: Box<dyn Rule>,
) -> Result<RuleMachine, NoMemory>
    requires add { meaning add ≡ add_meaning }
    requires reset { meaning reset ≡ reset_meaning }
    ensures { IfOk result (λ machine. IsCounter machine.name (map (λ rule. (Rule-box rule).meaning rule.value) machine.rules.items) machine.steps machine.start) }
{
    let name = counter_name(alloc)?;
    let mut rules = Vec::new(alloc);
    rules.push(add)?;
    rules.push(reset)?;
    Ok(RuleMachine {
        name,
        start: Val::Int(0),
        rules,
        steps: STEPS,
    })
}

/// The rule `add`: where the count is at most 20 it draws a digit, shows it as `n` and adds it, and fails at point 2 where
/// the sum exceeds 20.
#[derive(Drop)]
pub struct Add {
    name: Name,
    alloc: Global,
    ghost named: { name ≡ add_name },
}

impl Add {
    /// The rule, under its name.
    pub fn of(alloc: Global) -> Result<Add, NoMemory>
        ensures { IfOk result (λ add. add.name ≡ add_name) }
    {
        match Name::of(alloc, "add") {
            Ok(name) => Ok(Add { name, alloc }),
            Err(_) => Err(NoMemory),
        }
    }
}

impl Rule for Add {
    ghost use Rattle.std.specs.Prelude.{pos};
    ghost use Rattle.pt_checks.specs.Counter.{is_from, add_plan};

    ghost meaning = { λ add. record { name = add.name; enabled = is_from (pos 0); step = add_plan } };

    fn name(&self) -> &Name {
        &self.name
    }

    fn enabled(&self, state: &Val) -> bool {
        is_from(0, state)
    }

    fn step(&self, state: &mut Val, case: &mut Case) -> Result<Ending, NoMemory> {
        let next = draw_next(self.alloc, state, case);
        stepped(state, next)
    }
}

/// The rule `reset`: where the count is from 1 to 20 it goes back to 0.
#[derive(Drop)]
pub struct Reset {
    name: Name,
    ghost named: { name ≡ reset_name },
}

impl Reset {
    /// The rule, under its name.
    pub fn of(alloc: Global) -> Result<Reset, NoMemory>
        ensures { IfOk result (λ reset. reset.name ≡ reset_name) }
    {
        match Name::of(alloc, "reset") {
            Ok(name) => Ok(Reset { name }),
            Err(_) => Err(NoMemory),
        }
    }
}

impl Rule for Reset {
    ghost use Rattle.std.specs.Prelude.{pos};
    ghost use Rattle.pt_checks.specs.Counter.{is_from, reset_plan};

    ghost meaning = { λ reset. record { name = reset.name; enabled = is_from (pos 1); step = reset_plan } };

    fn name(&self) -> &Name {
        &self.name
    }

    fn enabled(&self, state: &Val) -> bool {
        is_from(1, state)
    }

    fn step(&self, state: &mut Val, _: &mut Case) -> Result<Ending, NoMemory> {
        if is_from(1, state) {
            *state = Val::Int(0);
        }
        Ok(Ending::Pass)
    }
}

// The state after a step of `add`, which stays where the rule is not enabled.
fn draw_next(alloc: Global, state: &Val, case: &mut Case) -> Result<Val, DrawStop>
    requires { case.old.refused ≡ None }
    ensures drew { Drew draw_halt (add_plan state.now) case.old case.new result }
{
    if is_from(0, state) {
        draw_sum(count_of(state), alloc, case)
    } else {
        Ok(state.copy()?)
    }
}

// A digit is drawn, shown and added.
fn draw_sum(count: i64, alloc: Global, case: &mut Case) -> Result<Val, DrawStop>
    requires low { pos 0 ≤ℤ count }
    requires high { count ≤ℤ pos 20 }
    ensures drew { Drew draw_halt (digit_plan count) case.old case.new result }
{
    let digit = draw_from(&Ints::of(0, 9), alloc, case)?;
    note(case, n_word(alloc)?, Val::Int(digit))?;
    within(plus(count, digit))
}

// The sum as the next state, if it may be one.
fn within(sum: i64) -> Result<Val, DrawStop>
    ensures drew { (case : State) → Drew draw_halt (sum_plan sum) case case result }
{
    if sum > LIMIT {
        return Err(DrawStop::Fault(Origin::Point(2)));
    }
    Ok(Val::Int(sum))
}

fn plus(count: i64, digit: i64) -> i64
    requires low { pos 0 ≤ℤ count }
    requires high { count ≤ℤ pos 20 }
    requires digit { IsBetween (pos 0) (pos 9) (val.Int digit) }
    ensures { result ≡ count +ℤ digit }
{
    count + digit
}

// The count of a state that `add` may be stepped from.
fn count_of(state: &Val) -> i64
    requires { is_from (pos 0) state.now ≡ true }
    ensures count { result ≡ number_of state.now }
    ensures low { pos 0 ≤ℤ result }
    ensures high { result ≤ℤ pos 20 }
{
    match state {
        Val::Int(count) => *count,
        _ => unreachable!(),
    }
}

// Whether the state is a count from this number to the limit.
fn is_from(least: i64, state: &Val) -> bool
    ensures { result ≡ is_from least state.now }
{
    match state {
        Val::Int(count) => least <= *count && *count <= LIMIT,
        _ => false,
    }
}

fn counter_name(alloc: Global) -> Result<Name, NoMemory>
    ensures { IfOk result (λ name. name ≡ counter_name) }
{
    match Name::of(alloc, "counter") {
        Ok(name) => Ok(name),
        Err(_) => Err(NoMemory),
    }
}

fn n_word(alloc: Global) -> Result<Name, NoMemory>
    ensures { IfOk result (λ name. name ≡ n_word) }
{
    match Name::of(alloc, "n") {
        Ok(name) => Ok(name),
        Err(_) => Err(NoMemory),
    }
}
