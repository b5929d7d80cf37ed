ghost use Rattle.std.specs.Prelude.{◌≡◌, ◌≤◌, pos};
ghost use Rattle.std.specs.Ordering.{int_eq};
ghost use Rattle.pt_plan.specs.Came.{Drew};
ghost use Rattle.pt_plan.specs.Ended.{Settles};
ghost use Rattle.pt_plan.specs.Says.{plan_says};
ghost use Rattle.pt_plan.specs.Stop.{draw_halt};
ghost use Rattle.tests_engine.specs.Checks.{tail_plan, digits_plan};

use crate::number::{draws_number, judge};
use pt_case::{Case, Check, Ending};
use pt_choice::NoMemory;
use pt_plan::{DrawStop, ask_integer, ending_of};
use pt_val::Name;

/// Draws how many digits there are, from one to five, and the digits, and fails where the last one is 7.
#[derive(Drop)]
pub struct Tail {
    pub name: Name,
}

impl Check for Tail {
    ghost name = { λ check. check.name };

    ghost step = { λ check. plan_says tail_plan };

    fn name(&self) -> &Name {
        &self.name
    }

    fn run(&self, case: &mut Case) -> Result<Ending, NoMemory> {
        ending_of(draws_tail(case))
    }
}

fn draws_tail(case: &mut Case) -> Result<Ending, DrawStop>
    ensures drew { Drew draw_halt tail_plan case.old case.new result }
    ensures settles { Settles result }
{
    let more = ask_integer(case, 0, 4)?;
    draws_digits(more.unsigned_abs() as u32 + 1, 0, case)
}

// Draws so many digits more.
fn draws_digits(left: u32, last: i128, case: &mut Case) -> Result<Ending, DrawStop>
    requires { left ≤ 5 }
    ensures drew { Drew draw_halt (digits_plan left last) case.old case.new result }
    ensures settles { Settles result }
{
    if left == 0 {
        return judge(is_seven(last));
    }
    let digit = draws_number(9, case)?;
    draws_digits(left - 1, digit, case)
}

fn is_seven(digit: i128) -> bool
    ensures { result ≡ int_eq digit (pos 7) }
{
    digit == 7
}
