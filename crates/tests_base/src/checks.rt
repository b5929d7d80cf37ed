//! Checks that only tests need.

ghost use Rattle.std.specs.Prelude.{◌≡◌};
ghost use Rattle.pt_plan.specs.Came.{Drew};
ghost use Rattle.pt_plan.specs.Ended.{Settles};
ghost use Rattle.pt_plan.specs.Says.{plan_says};
ghost use Rattle.pt_plan.specs.Stop.{draw_halt};
ghost use Rattle.tests_base.specs.Checks.{never_plan, always_answer, nested_plan, crowded_plan, noted_plan};

use pt_case::{Case, Check, Ending, MAX_SPANS, Origin};
use pt_choice::NoMemory;
use pt_plan::{DrawStop, ask_flag, ask_integer, ending_of, enter, leave, note};
use pt_val::{Name, Val};

/// Asks for a boolean and passes.
#[derive(Drop)]
pub struct Never {
    pub name: Name,
}

impl Check for Never {
    ghost name = { λ check. check.name };

    ghost step = { λ check. plan_says never_plan };

    fn name(&self) -> &Name {
        &self.name
    }

    fn run(&self, case: &mut Case) -> Result<Ending, NoMemory> {
        ending_of(draws_one(case))
    }
}

fn draws_one(case: &mut Case) -> Result<Ending, DrawStop>
    ensures drew { Drew draw_halt never_plan case.old case.new result }
    ensures settles { Settles result }
{
    ask_flag(case, 8)?;
    Ok(Ending::Pass)
}

/// Fails at once.
#[derive(Drop)]
pub struct Always {
    pub name: Name,
}

impl Check for Always {
    ghost name = { λ check. check.name };

    ghost step = { λ check choices said. said ≡ always_answer choices };

    fn name(&self) -> &Name {
        &self.name
    }

    fn run(&self, _: &mut Case) -> Result<Ending, NoMemory> {
        Ok(Ending::Fail(Origin::Point(1)))
    }
}

/// Draws three choices, each in one span more.
#[derive(Drop)]
pub struct Nested {
    pub name: Name,
}

impl Check for Nested {
    ghost name = { λ check. check.name };

    ghost step = { λ check. plan_says nested_plan };

    fn name(&self) -> &Name {
        &self.name
    }

    fn run(&self, case: &mut Case) -> Result<Ending, NoMemory> {
        ending_of(draws_nested(case))
    }
}

fn draws_nested(case: &mut Case) -> Result<Ending, DrawStop>
    ensures drew { Drew draw_halt nested_plan case.old case.new result }
    ensures settles { Settles result }
{
    enter(case, 1)?;
    ask_flag(case, 8)?;
    enter(case, 2)?;
    ask_integer(case, 0, 9)?;
    enter(case, 3)?;
    ask_flag(case, 8)?;
    leave(case);
    leave(case);
    leave(case);
    Ok(Ending::Pass)
}

/// Enters one span more than a case has room for, and leaves each at once.
#[derive(Drop)]
pub struct Crowded {
    pub name: Name,
}

impl Check for Crowded {
    ghost name = { λ check. check.name };

    ghost step = { λ check. plan_says (crowded_plan 1025) };

    fn name(&self) -> &Name {
        &self.name
    }

    fn run(&self, case: &mut Case) -> Result<Ending, NoMemory> {
        ending_of(enters_spans(case))
    }
}

fn enters_spans(case: &mut Case) -> Result<Ending, DrawStop>
    ensures drew { Drew draw_halt (crowded_plan 1025) case.old case.new result }
    ensures settles { Settles result }
{
    for _turn in 0..MAX_SPANS + 1 {
        enter(case, 1)?;
        leave(case);
    }
    Ok(Ending::Pass)
}

/// Notes its name with true, draws a boolean, and notes it with false.
#[derive(Drop)]
pub struct Noted {
    pub name: Name,
}

impl Check for Noted {
    ghost name = { λ check. check.name };

    ghost step = { λ check. plan_says (noted_plan check.name) };

    fn name(&self) -> &Name {
        &self.name
    }

    fn run(&self, case: &mut Case) -> Result<Ending, NoMemory> {
        ending_of(draws_between_notes(&self.name, case))
    }
}

fn draws_between_notes(name: &Name, case: &mut Case) -> Result<Ending, DrawStop>
    ensures drew { Drew draw_halt (noted_plan name.now) case.old case.new result }
    ensures settles { Settles result }
{
    note(case, name.copy()?, Val::Bool(true))?;
    ask_flag(case, 8)?;
    note(case, name.copy()?, Val::Bool(false))?;
    Ok(Ending::Pass)
}
