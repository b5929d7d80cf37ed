ghost use Rattle.std.specs.Prelude.{◌≡◌, ◌≤◌, ◌≤ℤ◌, ◌-◌, pos, ◌^◌, OnOk};
ghost use Rattle.pt_plan.specs.Came.{Drew};
ghost use Rattle.pt_plan.specs.Stop.{draw_halt};
ghost use Rattle.pt_plan.specs.Open.{open_spans};
ghost use Rattle.pt_strat.specs.Bounds.{count_of};
ghost use Rattle.pt_strat.specs.Parts.{place_plan};

use pt_case::Case;
use pt_plan::{DrawStop, ask_integer};

/// The number of one of so many, counted from 0. Of none it is 0.
pub(crate) fn draw_place(count: usize, case: &mut Case) -> Result<usize, DrawStop>
    ensures drew { Drew draw_halt (place_plan count) case.old case.new result }
    ensures closed { OnOk result (open_spans case.new ≡ open_spans case.old) }
{
    let number = ask_integer(case, 0, last_number(count))?;
    Ok(as_place(number))
}

fn last_number(count: usize) -> i128
    ensures number { result ≡ pos (count - 1) }
    ensures high { result ≤ℤ pos (2 ^ 64 - 1) }
{
    count.saturating_sub(1) as i128
}

fn as_place(number: i128) -> usize
    requires low { pos 0 ≤ℤ number }
    requires high { number ≤ℤ pos (2 ^ 64 - 1) }
    ensures { result ≡ count_of number }
{
    number as usize
}
