//! What the checks have in common.

ghost use Rattle.std.specs.Prelude.{◌≡◌, pos, OnOk};
ghost use Rattle.std.specs.Prelude.{◌≤ℤ◌, ◌-ℤ◌, ◌^◌, ◌-◌};
ghost use Rattle.pt_case.specs.State.{State};
ghost use Rattle.pt_plan.specs.Came.{Drew};
ghost use Rattle.pt_plan.specs.Ended.{Settles};
ghost use Rattle.pt_plan.specs.Open.{open_spans};
ghost use Rattle.pt_plan.specs.Stop.{draw_halt};
ghost use Rattle.tests_engine.specs.Checks.{number_plan, fails_if};

use pt_case::{Case, Ending, Origin};
use pt_plan::{DrawStop, ask_integer, enter, leave};

/// Draws a number from 0 to the most, in a span of its own.
pub fn draws_number(most: i128, case: &mut Case) -> Result<i128, DrawStop>
    requires low { pos 0 ≤ℤ most }
    requires high { most ≤ℤ pos 1000 }
    ensures drew { Drew draw_halt (number_plan most) case.old case.new result }
    ensures closed { OnOk result (open_spans case.new ≡ open_spans case.old) }
{
    enter(case, 2)?;
    let number = ask_integer(case, 0, most)?;
    leave(case);
    Ok(number)
}

/// Fails at point 1, or passes.
pub fn judge(fails: bool) -> Result<Ending, DrawStop>
    ensures drew { (case : State) → Drew draw_halt (fails_if fails) case case result }
    ensures settles { Settles result }
{
    if fails {
        return Err(DrawStop::Fault(Origin::Point(1)));
    }
    Ok(Ending::Pass)
}
