ghost use Rattle.std.specs.Prelude.{◌≡◌, ◌≤◌, length, map, OnOk, IfOk};
ghost use Rattle.pt_ast.specs.Plain.{plain_invariant, plain_rule, plain_machine};
ghost use Rattle.pt_plan.specs.Came.{Drew};
ghost use Rattle.pt_plan.specs.Stop.{draw_halt};
ghost use Rattle.pt_plan.specs.Open.{open_spans};
ghost use Rattle.pt_plan.specs.Plan.{Gives, Notes};
ghost use Rattle.pt_machine.specs.Machine.{step_word, step_note, step_plan, step_if, turn_plan};

use crate::choosing::draw_place;
use crate::enabling::enabled_rules;
use crate::holding::check_invariants;
use pt_ast::{InvariantDecl, Machine, RuleDecl};
use pt_case::Case;
use pt_choice::NoMemory;
use pt_plan::{DrawStop, ask_flag, enter, leave, note};
use pt_strat::{World, part_label, run_rule};
use pt_val::{Chars, Name, Val};
use std::alloc::Global;

/// One more step, if there is one: the world that it leaves.
pub(crate) fn turn(
    alloc: Global,
    machine: &Machine,
    world: World,
    case: &mut Case,
) -> Result<Option<World>, DrawStop>
    ensures drew { Drew draw_halt (turn_plan (plain_machine machine.now) world) case.old case.new result }
    ensures closed { OnOk result (open_spans case.new ≡ open_spans case.old) }
{
    let rules = enabled_rules(alloc, machine.rules.as_slice(), &world)?;
    if rules.is_empty() {
        return Ok(None);
    }
    enter(case, part_label(machine.num))?;
    let more = ask_flag(case, 14)?;
    let next = step_if(
        alloc,
        more,
        machine.invariants.as_slice(),
        rules.as_slice(),
        world,
        case,
    )?;
    leave(case);
    Ok(next)
}

// A step by one of the rules, where the answer is yes.
fn step_if(
    alloc: Global,
    more: bool,
    invariants: &[InvariantDecl],
    rules: &[&RuleDecl],
    world: World,
    case: &mut Case,
) -> Result<Option<World>, DrawStop>
    requires some { 1 ≤ length rules.now }
    ensures drew { Drew draw_halt (step_if (map plain_invariant invariants.now) (map (λ rule. plain_rule rule.now) rules.now) world more) case.old case.new result }
    ensures closed { OnOk result (open_spans case.new ≡ open_spans case.old) }
{
    if !more {
        return Ok(None);
    }
    let place = draw_place(rules.len(), case)?;
    let next = step(alloc, invariants, rules[place], world, case)?;
    Ok(Some(next))
}

// A step by this rule, which is shown before it.
fn step(
    alloc: Global,
    invariants: &[InvariantDecl],
    rule: &RuleDecl,
    world: World,
    case: &mut Case,
) -> Result<World, DrawStop>
    ensures drew { Drew draw_halt (step_plan (map plain_invariant invariants.now) (plain_rule rule.now) world) case.old case.new result }
    ensures closed { OnOk result (open_spans case.new ≡ open_spans case.old) }
{
    let states = world.env.len();
    show_step(alloc, &rule.name.name, case)?;
    let mut after = run_rule(alloc, &rule.into, rule.stmts.as_slice(), world, case)?;
    after.env.cut(states);
    check_invariants(alloc, invariants, &after.env)?;
    Ok(after)
}

// Shows the rule that makes the next step.
fn show_step(alloc: Global, rule: &Name, case: &mut Case) -> Result<(), DrawStop>
    ensures drew { Drew {A = Unit {0}} draw_halt (Notes (step_note rule.now) (Gives tt)) case.old case.new result }
    ensures closed { OnOk result (open_spans case.new ≡ open_spans case.old) }
{
    note(case, step_word(alloc)?, Val::Text(chars_of(alloc, rule)?))?;
    Ok(())
}

fn step_word(alloc: Global) -> Result<Name, NoMemory>
    ensures { IfOk result (λ name. name ≡ step_word) }
{
    match Name::of(alloc, "step") {
        Ok(name) => Ok(name),
        Err(_) => Err(NoMemory),
    }
}

// The characters of a name, which are its bytes.
fn chars_of(alloc: Global, name: &Name) -> Result<Chars, NoMemory>
    ensures { IfOk result (λ chars. chars ≡ name.now) }
{
    let mut chars = Chars::empty(alloc);
    for byte in name.as_slice() {
        chars.push(char::from(*byte))?;
    }
    Ok(chars)
}
