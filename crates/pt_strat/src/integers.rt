ghost use Rattle.std.specs.Prelude.{◌≡◌, ◌≤ℤ◌, ◌+ℤ◌, ◌-ℤ◌, OnOk};
ghost use Rattle.pt_plan.specs.Came.{Drew};
ghost use Rattle.pt_plan.specs.Stop.{draw_halt};
ghost use Rattle.pt_plan.specs.Open.{open_spans};
ghost use Rattle.pt_strat.specs.Parts.{nearest, integer_plan};

use crate::bounds::Range;
use pt_case::Case;
use pt_plan::{DrawStop, ask_integer};
use pt_val::Val;

/// An integer between bounds.
pub(crate) fn draw_integer(range: Range, case: &mut Case) -> Result<Val, DrawStop>
    requires { range.lo ≤ℤ range.hi }
    ensures drew { Drew draw_halt (integer_plan range) case.old case.new result }
    ensures closed { OnOk result (open_spans case.new ≡ open_spans case.old) }
{
    let target = nearest(range.lo, range.hi);
    let least = distance(range.lo, target);
    let most = distance(range.hi, target);
    let drawn = ask_integer(case, least, most)?;
    Ok(Val::Int(moved(target, drawn, range.lo, range.hi)))
}

// The number nearest to 0 of those between the bounds.
fn nearest(lo: i64, hi: i64) -> i64
    ensures number { result ≡ nearest lo hi }
    ensures low { lo ≤ℤ hi → lo ≤ℤ result }
    ensures high { lo ≤ℤ hi → result ≤ℤ hi }
{
    if lo > 0 {
        lo
    } else if hi < 0 {
        hi
    } else {
        0
    }
}

fn distance(to: i64, from: i64) -> i128
    ensures { result ≡ to -ℤ from }
{
    i128::from(to) - i128::from(from)
}

// The number at this distance from the target, which is between the bounds.
fn moved(target: i64, distance: i128, lo: i64, hi: i64) -> i64
    requires low { (lo -ℤ target) ≤ℤ distance }
    requires high { distance ≤ℤ (hi -ℤ target) }
    ensures { result ≡ target +ℤ distance }
{
    (i128::from(target) + distance) as i64
}
