//! A check that draws in spans, notes, rejects and fails.

ghost use Rattle.std.specs.Prelude.{◌≡◌, OnOk};
ghost use Rattle.pt_case.specs.State.{State};
ghost use Rattle.pt_plan.specs.Came.{Drew};
ghost use Rattle.pt_plan.specs.Ended.{Settles};
ghost use Rattle.pt_plan.specs.Open.{open_spans};
ghost use Rattle.pt_plan.specs.Says.{plan_says};
ghost use Rattle.pt_plan.specs.Stop.{draw_halt};
ghost use Rattle.tests_base.specs.Checks.{digit_plan, rising_plan, weighed};

use pt_case::{Case, Check, Ending, Origin};
use pt_choice::NoMemory;
use pt_plan::{DrawStop, ask_integer, ending_of, enter, leave, note};
use pt_val::{Name, Val};

/// Draws two digits, rejects them where they do not rise, and fails where they rise to 9.
#[derive(Drop)]
pub struct Rising {
    pub name: Name,
}

impl Check for Rising {
    ghost name = { λ check. check.name };

    ghost step = { λ check. plan_says (rising_plan check.name) };

    fn name(&self) -> &Name {
        &self.name
    }

    fn run(&self, case: &mut Case) -> Result<Ending, NoMemory> {
        ending_of(draws_rising(&self.name, case))
    }
}

fn draws_rising(name: &Name, case: &mut Case) -> Result<Ending, DrawStop>
    ensures drew { Drew draw_halt (rising_plan name.now) case.old case.new result }
    ensures settles { Settles result }
{
    enter(case, 1)?;
    let first = draws_digit(case)?;
    let second = draws_digit(case)?;
    leave(case);
    note(case, name.copy()?, Val::Bool(first < second))?;
    weigh(first, second)
}

fn weigh(first: i128, second: i128) -> Result<Ending, DrawStop>
    ensures drew { (case : State) → Drew draw_halt (weighed first second) case case result }
    ensures settles { Settles result }
{
    if first >= second {
        return Err(DrawStop::Reject);
    }
    if second > 8 {
        return Err(DrawStop::Fault(Origin::Point(2)));
    }
    Ok(Ending::Pass)
}

fn draws_digit(case: &mut Case) -> Result<i128, DrawStop>
    ensures drew { Drew draw_halt digit_plan case.old case.new result }
    ensures closed { OnOk result (open_spans case.new ≡ open_spans case.old) }
{
    enter(case, 2)?;
    let digit = ask_integer(case, 0, 9)?;
    leave(case);
    Ok(digit)
}
