ghost use Rattle.std.specs.Prelude.{◌≡◌, ◌≤ℤ◌, ◌+ℤ◌, ◌-ℤ◌};
ghost use Rattle.pt_typed.specs.Plans.{nearest};

use crate::{DrawFail, Strategy};
use pt_case::Case;
use pt_plan::{ask_integer, enter, leave};
use std::alloc::Global;

const INTS: u32 = 1;

/// The integers between two bounds, which are among them. Reductions go toward 0, or toward the bound that is nearest to it.
#[derive(Clone, Copy, Debug)]
pub struct Ints {
    lo: i64,
    hi: i64,
    ghost ordered: { lo ≤ℤ hi },
}

impl Ints {
    pub fn of(lo: i64, hi: i64) -> Ints
        requires { lo ≤ℤ hi }
        ensures lo { result.lo ≡ lo }
        ensures hi { result.hi ≡ hi }
    {
        Ints { lo, hi }
    }
}

impl Strategy for Ints {
    ghost use Rattle.pt_typed.specs.Plans.{ints_plan};
    ghost use Rattle.pt_typed.specs.Sets.{IsBetween};
    ghost use Rattle.pt_typed.specs.Laws.{ints-lawful};

    type Value = i64;

    ghost plan = { λ ints. ints_plan ints.lo ints.hi };

    ghost values = { λ ints. IsBetween ints.lo ints.hi };

    ghost lawful = { λ ints. ints-lawful ints.lo ints.hi };

    fn draw(&self, _: Global, case: &mut Case) -> Result<i64, DrawFail> {
        let target = nearest(self.lo, self.hi);
        let least = distance(self.lo, target);
        let most = distance(self.hi, target);
        enter(case, INTS)?;
        let drawn = ask_integer(case, least, most)?;
        leave(case);
        Ok(moved(target, drawn, self.lo, self.hi))
    }
}

// The number nearest to 0 of those between the bounds.
fn nearest(lo: i64, hi: i64) -> i64
    ensures number { result ≡ nearest lo hi }
    ensures low { lo ≤ℤ hi → lo ≤ℤ result }
    ensures high { lo ≤ℤ hi → result ≤ℤ hi }
{
    if lo > 0 {
        lo
    } else if hi < 0 {
        hi
    } else {
        0
    }
}

fn distance(to: i64, from: i64) -> i128
    ensures { result ≡ to -ℤ from }
{
    i128::from(to) - i128::from(from)
}

// The number at this distance from the target, which is between the bounds.
fn moved(target: i64, distance: i128, lo: i64, hi: i64) -> i64
    requires low { (lo -ℤ target) ≤ℤ distance }
    requires high { distance ≤ℤ (hi -ℤ target) }
    ensures { result ≡ target +ℤ distance }
{
    (i128::from(target) + distance) as i64
}
