ghost use Rattle.std.specs.Prelude.{◌≡◌, IfOk};
ghost use Rattle.pt_plan.specs.Came.{Drew};
ghost use Rattle.pt_plan.specs.Ended.{Settles};
ghost use Rattle.pt_plan.specs.Stop.{draw_halt};
ghost use Rattle.pt_checks.specs.Checks.{never_name, never_plan, never_says};

use pt_case::{Case, Check, Ending};
use pt_choice::NoMemory;
use pt_plan::{DrawStop, ask_flag, ending_of};
use pt_val::Name;
use std::alloc::Global;

/// The check `never`: it draws one fair boolean, and passes.
#[derive(Debug, Drop)]
pub struct Never {
    name: Name,
    ghost named: { name ≡ never_name },
}

impl Never {
    /// The check, under its name.
    pub fn of(alloc: Global) -> Result<Never, NoMemory>
        ensures { IfOk result (λ check. check.name ≡ never_name) }
    {
        match Name::of(alloc, "never") {
            Ok(name) => Ok(Never { name }),
            Err(_) => Err(NoMemory),
        }
    }
}

impl Check for Never {
    ghost name = { λ check. check.name };

    ghost step = { λ check. never_says };

    fn name(&self) -> &Name {
        &self.name
    }

    fn run(&self, case: &mut Case) -> Result<Ending, NoMemory> {
        ending_of(draws_one(case))
    }
}

fn draws_one(case: &mut Case) -> Result<Ending, DrawStop>
    ensures drew { Drew draw_halt never_plan case.old case.new result }
    ensures settles { Settles result }
{
    ask_flag(case, 8)?;
    Ok(Ending::Pass)
}
