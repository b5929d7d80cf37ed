ghost use Rattle.pt_plan.specs.Came.{Drew};
ghost use Rattle.pt_plan.specs.Ended.{Settles};
ghost use Rattle.pt_plan.specs.Says.{plan_says};
ghost use Rattle.pt_plan.specs.Stop.{draw_halt};
ghost use Rattle.tests_engine.specs.Checks.{never_plan};

use pt_case::{Case, Check, Ending};
use pt_choice::NoMemory;
use pt_plan::{DrawStop, ask_flag, ending_of};
use pt_val::Name;

/// Asks for a flag and passes.
#[derive(Drop)]
pub struct Never {
    pub name: Name,
}

impl Check for Never {
    ghost name = { λ check. check.name };

    ghost step = { λ check. plan_says never_plan };

    fn name(&self) -> &Name {
        &self.name
    }

    fn run(&self, case: &mut Case) -> Result<Ending, NoMemory> {
        ending_of(draws_flag(case))
    }
}

fn draws_flag(case: &mut Case) -> Result<Ending, DrawStop>
    ensures drew { Drew draw_halt never_plan case.old case.new result }
    ensures settles { Settles result }
{
    ask_flag(case, 8)?;
    Ok(Ending::Pass)
}
