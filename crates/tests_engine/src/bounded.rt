ghost use Rattle.pt_plan.specs.Came.{Drew};
ghost use Rattle.pt_plan.specs.Ended.{Settles};
ghost use Rattle.pt_plan.specs.Says.{plan_says};
ghost use Rattle.pt_plan.specs.Stop.{draw_halt};
ghost use Rattle.tests_engine.specs.Checks.{bounded_plan};

use pt_case::{Case, Check, Ending, Origin};
use pt_choice::NoMemory;
use pt_plan::{DrawStop, ask_integer, ending_of};
use pt_val::Name;

/// Draws a number from 0 to 1,000, and fails where it is not below the bound.
#[derive(Drop)]
pub struct Bounded {
    pub name: Name,
    pub bound: i128,
}

impl Check for Bounded {
    ghost name = { λ check. check.name };

    ghost step = { λ check. plan_says (bounded_plan check.bound) };

    fn name(&self) -> &Name {
        &self.name
    }

    fn run(&self, case: &mut Case) -> Result<Ending, NoMemory> {
        ending_of(draws_bounded(&self.bound, case))
    }
}

fn draws_bounded(bound: &i128, case: &mut Case) -> Result<Ending, DrawStop>
    ensures drew { Drew draw_halt (bounded_plan bound.now) case.old case.new result }
    ensures settles { Settles result }
{
    if ask_integer(case, 0, 1000)? < *bound {
        return Ok(Ending::Pass);
    }
    Err(DrawStop::Fault(Origin::Point(1)))
}
