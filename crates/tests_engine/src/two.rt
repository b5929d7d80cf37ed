ghost use Rattle.std.specs.Prelude.{◌≡◌, ◌≤ℤ◌, pos};
ghost use Rattle.pt_plan.specs.Came.{Drew};
ghost use Rattle.pt_plan.specs.Ended.{Settles};
ghost use Rattle.pt_plan.specs.Says.{plan_says};
ghost use Rattle.pt_plan.specs.Stop.{draw_halt};
ghost use Rattle.tests_engine.specs.Checks.{two_plan, is_bad};

use crate::number::{draws_number, judge};
use pt_case::{Case, Check, Ending};
use pt_choice::NoMemory;
use pt_plan::{DrawStop, ending_of};
use pt_val::Name;

/// When two numbers fail.
#[derive(Clone, Copy, Debug)]
pub enum Judge {
    /// They are the same, and not zero.
    Equal,
    Different,
    /// Their sum is ten.
    Ten,
}

/// Draws two numbers from 0 to 100, and fails as it is told.
#[derive(Drop)]
pub struct Two {
    pub name: Name,
    pub judge: Judge,
}

impl Check for Two {
    ghost name = { λ check. check.name };

    ghost step = { λ check. plan_says (two_plan (pos 100) check.judge) };

    fn name(&self) -> &Name {
        &self.name
    }

    fn run(&self, case: &mut Case) -> Result<Ending, NoMemory> {
        ending_of(draws_two(self.judge, case))
    }
}

fn draws_two(rule: Judge, case: &mut Case) -> Result<Ending, DrawStop>
    ensures drew { Drew draw_halt (two_plan (pos 100) rule) case.old case.new result }
    ensures settles { Settles result }
{
    let first = draws_number(100, case)?;
    let second = draws_number(100, case)?;
    judge(is_bad(rule, first, second))
}

fn is_bad(rule: Judge, first: i128, second: i128) -> bool
    ensures { result ≡ is_bad rule first second }
{
    match rule {
        Judge::Equal => first == second && first > 0,
        Judge::Different => first != second,
        Judge::Ten => first.checked_add(second) == Some(10),
    }
}
