//! A check as a newcomer writes it.

ghost use Rattle.pt_plan.specs.Came.{Drew};
ghost use Rattle.pt_plan.specs.Ended.{Settles};
ghost use Rattle.pt_plan.specs.Says.{plan_says};
ghost use Rattle.pt_plan.specs.Stop.{draw_halt};
ghost use Rattle.tests_base.specs.Checks.{small_plan};

use pt_case::{Case, Check, Ending, Origin};
use pt_choice::NoMemory;
use pt_plan::{DrawStop, ask_integer, ending_of};
use pt_val::Name;

/// Draws a digit, and fails where it is above 4.
#[derive(Drop)]
pub struct Small {
    pub name: Name,
}

impl Check for Small {
    ghost name = { λ check. check.name };

    ghost step = { λ check. plan_says small_plan };

    fn name(&self) -> &Name {
        &self.name
    }

    fn run(&self, case: &mut Case) -> Result<Ending, NoMemory> {
        ending_of(draws_small(case))
    }
}

fn draws_small(case: &mut Case) -> Result<Ending, DrawStop>
    ensures drew { Drew draw_halt small_plan case.old case.new result }
    ensures settles { Settles result }
{
    if ask_integer(case, 0, 9)? > 4 {
        return Err(DrawStop::Fault(Origin::Point(1)));
    }
    Ok(Ending::Pass)
}
