ghost use Rattle.std.specs.Prelude.{◌≡◌, ◌≤◌, ◌<◌, ◌≤ℤ◌, ◌-◌, pos, ◌^◌, OnOk, IfOk};
ghost use Rattle.pt_plan.specs.Came.{Drew};
ghost use Rattle.pt_plan.specs.Stop.{draw_halt};
ghost use Rattle.pt_plan.specs.Open.{open_spans};
ghost use Rattle.pt_strat.specs.Bounds.{count_of};
ghost use Rattle.pt_strat.specs.Parts.{place_plan};

use pt_case::Case;
use pt_plan::{DrawStop, ask_integer};

/// The number of one of so many, counted from 0.
pub(crate) fn draw_place(count: usize, case: &mut Case) -> Result<usize, DrawStop>
    requires { 1 ≤ count }
    ensures drew { Drew draw_halt (place_plan count) case.old case.new result }
    ensures within { IfOk result (λ place. place < count) }
    ensures closed { OnOk result (open_spans case.new ≡ open_spans case.old) }
{
    let number = ask_integer(case, 0, last_number(count))?;
    Ok(as_place(number, count))
}

fn last_number(count: usize) -> i128
    requires { 1 ≤ count }
    ensures number { result ≡ pos (count - 1) }
    ensures high { result ≤ℤ pos (2 ^ 64 - 1) }
{
    (count - 1) as i128
}

fn as_place(number: i128, count: usize) -> usize
    requires some { 1 ≤ count }
    requires low { pos 0 ≤ℤ number }
    requires high { number ≤ℤ pos (count - 1) }
    ensures place { result ≡ count_of number }
    ensures within { result < count }
{
    number as usize
}
