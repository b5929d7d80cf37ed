ghost use Rattle.std.specs.Prelude.{◌≡◌, ◌≤◌, ◌<◌, Some, None, map, length, codes, slice_get, IfOk, IfSome, OnOk};
ghost use Rattle.std.specs.Option.{option_map};
ghost use Rattle.pt_plan.specs.Came.{Drew};
ghost use Rattle.pt_plan.specs.Ended.{Settles};
ghost use Rattle.pt_val.specs.declared.val.Val.{Val};
ghost use Rattle.pt_plan.specs.Open.{open_spans};
ghost use Rattle.pt_plan.specs.Stop.{draw_halt};
ghost use Rattle.pt_plan.specs.Plan.{Gives, Notes};
ghost use Rattle.pt_rules.specs.Machine.{enabled_rules, step_word, step_note, chosen_plan, chosen_step, step_if, turn_plan, steps_plan};
ghost use Rattle.pt_rules.specs.Stepped.{stepped, with_state, moved, going};

use crate::Rule;
use pt_case::{Case, Ending};
use pt_choice::NoMemory;
use pt_plan::{DrawStop, ask_flag, ask_integer, enter, leave, note};
use pt_val::{Chars, Name, Val};
use std::alloc::Global;

const STEP: u32 = 14;

// At most so many steps, until no rule is enabled or the answer is that there is none.
pub(crate) fn make_steps<R: Rule>(
    rules: &[R],
    steps: u32,
    start: Val,
    alloc: Global,
    case: &mut Case,
) -> Result<Ending, DrawStop>
    ensures drew { Drew draw_halt (steps_plan (map R.meaning rules.now) steps start) case.old case.new result }
    ensures settles { Settles result }
{
    let mut state = start;
    'turns: for _turn in 0..steps {
        let went = make_step(rules, &mut state, alloc, case)?;
        if !went {
            return Ok(Ending::Pass);
        }
    }
    Ok(Ending::Pass)
}

// One more step, if there is one. On `Ok(false)` there is none.
fn make_step<R: Rule>(
    rules: &[R],
    state: &mut Val,
    alloc: Global,
    case: &mut Case,
) -> Result<bool, DrawStop>
    ensures drew { Drew draw_halt (turn_plan (enabled_rules (map R.meaning rules.now) state.old) state.old) case.old case.new (going state.new result) }
    ensures closed { OnOk result (open_spans case.new ≡ open_spans case.old) }
{
    let count = count_enabled(rules, state);
    if count == 0 {
        return Ok(false);
    }
    enter(case, STEP)?;
    let more = ask_flag(case, 14)?;
    let went = step_if(more, rules, count, state, alloc, case)?;
    leave(case);
    Ok(went)
}

// A step of one of the rules that are enabled, of which there are so many, where the answer is yes.
fn step_if<R: Rule>(
    more: bool,
    rules: &[R],
    count: usize,
    state: &mut Val,
    alloc: Global,
    case: &mut Case,
) -> Result<bool, DrawStop>
    requires counted { count ≡ length (enabled_rules (map R.meaning rules.now) state.old) }
    requires some { 1 ≤ count }
    ensures drew { Drew draw_halt (step_if (enabled_rules (map R.meaning rules.now) state.old) state.old more) case.old case.new (going state.new result) }
    ensures closed { OnOk result (open_spans case.new ≡ open_spans case.old) }
{
    if !more {
        return Ok(false);
    }
    step_chosen(rules, count, state, alloc, case)?;
    Ok(true)
}

// A step of one of the rules that are enabled, of which there are so many.
fn step_chosen<R: Rule>(
    rules: &[R],
    count: usize,
    state: &mut Val,
    alloc: Global,
    case: &mut Case,
) -> Result<(), DrawStop>
    requires counted { count ≡ length (enabled_rules (map R.meaning rules.now) state.old) }
    requires some { 1 ≤ count }
    ensures drew { Drew draw_halt (chosen_step (enabled_rules (map R.meaning rules.now) state.old) state.old) case.old case.new (moved state.new result) }
    ensures closed { OnOk result (open_spans case.new ≡ open_spans case.old) }
{
    let number = ask_integer(case, 0, (count - 1) as i128)?;
    match enabled_at(rules, state, number as usize) {
        Some(rule) => step_by(rule, state, alloc, case),
        None => unreachable!(),
    }
}

// A step of this rule, which is shown before.
fn step_by<R: Rule>(
    rule: &R,
    state: &mut Val,
    alloc: Global,
    case: &mut Case,
) -> Result<(), DrawStop>
    requires { case.old.refused ≡ None }
    ensures drew { Drew draw_halt (chosen_plan state.old (Some (R.meaning rule.now))) case.old case.new (moved state.new result) }
    ensures closed { OnOk result (open_spans case.new ≡ open_spans case.old) }
{
    show_step(rule, alloc, case)?;
    passed(rule.step(state, case))
}

// How many of the rules are enabled.
fn count_enabled<R: Rule>(rules: &[R], state: &Val) -> usize
    ensures { result ≡ length (enabled_rules (map R.meaning rules.now) state.now) }
{
    let mut count = 0;
    for rule in rules {
        let counts = rule.enabled(state);
        if counts {
            count += 1;
        }
    }
    count
}

// The rule of this number among those that are enabled, if there are so many.
fn enabled_at<'a, R: Rule>(rules: &'a [R], state: &Val, number: usize) -> Option<&'a R>
    ensures { option_map (λ rule. R.meaning rule.now) result ≡ slice_get (enabled_rules (map R.meaning rules.now) state.now) number }
{
    let mut before = number;
    for rule in rules {
        let enabled = rule.enabled(state);
        if enabled {
            if before == 0 {
                return Some(rule);
            }
            before -= 1;
        }
    }
    None
}

// What a step's ending means for the run: it goes on after `Pass` alone.
fn passed(ended: Result<Ending, NoMemory>) -> Result<(), DrawStop>
    ensures { (state : Val) → stepped state ended ≡ with_state state result }
{
    match ended {
        Ok(Ending::Pass) => Ok(()),
        Ok(Ending::Reject) => Err(DrawStop::Reject),
        Ok(Ending::Overrun) => Err(DrawStop::Overrun),
        Ok(Ending::Fail(origin)) => Err(DrawStop::Fault(origin)),
        Err(_) => Err(DrawStop::NoMemory),
    }
}

// Shows the rule that makes the next step.
fn show_step<R: Rule>(rule: &R, alloc: Global, case: &mut Case) -> Result<(), DrawStop>
    ensures drew { Drew {A = Unit {0}} draw_halt (Notes (step_note (R.meaning rule.now).name) (Gives tt)) case.old case.new result }
    ensures closed { OnOk result (open_spans case.new ≡ open_spans case.old) }
    ensures going { OnOk result (case.new.refused ≡ case.old.refused) }
{
    let name = rule.name();
    note(case, step_word(alloc)?, Val::Text(chars_of(alloc, name)?))?;
    Ok(())
}

fn step_word(alloc: Global) -> Result<Name, NoMemory>
    ensures { IfOk result (λ name. name ≡ step_word) }
{
    match Name::of(alloc, "step") {
        Ok(name) => Ok(name),
        Err(_) => Err(NoMemory),
    }
}

// The characters of a name, which are its bytes.
fn chars_of(alloc: Global, name: &Name) -> Result<Chars, NoMemory>
    ensures { IfOk result (λ chars. chars ≡ name.now) }
{
    let mut chars = Chars::empty(alloc);
    for byte in name.as_slice() {
        chars.push(char::from(*byte))?;
    }
    Ok(chars)
}
