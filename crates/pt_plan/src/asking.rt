ghost use Rattle.std.specs.Prelude.{◌≡◌, ◌≢◌, ◌≤◌, ◌≤ℤ◌, ◌-ℤ◌, ◌^◌, ◌-◌, pos, IfOk, OnOk};
ghost use Rattle.pt_plan.specs.Asked.{asked_flag, asked_integer};
ghost use Rattle.pt_plan.specs.Halt.{case_halt};
ghost use Rattle.pt_plan.specs.Came.{Drew};
ghost use Rattle.pt_plan.specs.Open.{open_spans};

use crate::ask;
use pt_case::{Case, Stop};
use pt_choice::{Choice, Kind};

/// Asks for a boolean, true with a chance of `chance` sixteenths. It takes no memory.
pub fn ask_flag(case: &mut Case, chance: u8) -> Result<bool, Stop>
    requires least { 1 ≤ chance }
    requires most { chance ≤ 15 }
    ensures drew { Drew case_halt (asked_flag chance) case.old case.new result }
    ensures closed { OnOk result (open_spans case.new ≡ open_spans case.old) }
    ensures memory { result ≢ Err Stop.NoMemory }
{
    let kind = Kind::of_bool(chance).unwrap();
    match ask(case, &kind)? {
        Choice::Bool(flag) => Ok(flag),
        _ => unreachable!(),
    }
}

/// Asks for an integer from `lo` to `hi`, which are themselves allowed. Reductions go toward 0. It takes no memory.
pub fn ask_integer(case: &mut Case, lo: i128, hi: i128) -> Result<i128, Stop>
    requires low { lo ≤ℤ pos 0 }
    requires high { pos 0 ≤ℤ hi }
    requires width { (hi -ℤ lo) ≤ℤ pos (2 ^ 64 - 1) }
    ensures drew { Drew case_halt (asked_integer lo hi) case.old case.new result }
    ensures low { IfOk result (λ number. lo ≤ℤ number) }
    ensures high { IfOk result (λ number. number ≤ℤ hi) }
    ensures closed { OnOk result (open_spans case.new ≡ open_spans case.old) }
    ensures memory { result ≢ Err Stop.NoMemory }
{
    let kind = Kind::of_int(lo, hi).unwrap();
    match ask(case, &kind)? {
        Choice::Int(number) => Ok(number),
        _ => unreachable!(),
    }
}
