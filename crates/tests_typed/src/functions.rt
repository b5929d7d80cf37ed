//! Functions of the strategies' values, as a newcomer writes them.

ghost use Rattle.std.specs.Prelude.{◌≤ℤ◌, pos};

use pt_choice::NoMemory;
use pt_typed::{Function, Ints, Next, Predicate};
use std::alloc::Global;

/// Twice a digit.
#[derive(Drop)]
pub struct Doubling;

impl Function<i64> for Doubling {
    ghost use Rattle.std.specs.Prelude.{pos, ◌+ℤ◌, ◌&&◌, int_le};
    ghost use Rattle.pt_val.specs.declared.val.Val.TheVariants.{Int};
    ghost use Rattle.pt_typed.specs.Reading.{number_of};

    type Output = i64;

    ghost takes = { λ _ value. int_le (pos 0) (number_of value) && int_le (number_of value) (pos 9) };

    ghost image = { λ _ value. Int (number_of value +ℤ number_of value) };

    fn apply(&self, _: Global, value: i64) -> Result<i64, NoMemory> {
        Ok(value + value)
    }
}

/// Whether a number is even.
#[derive(Drop)]
pub struct Even;

impl Predicate<i64> for Even {
    ghost use Rattle.std.specs.Prelude.{pos, int_rem};
    ghost use Rattle.std.specs.Ordering.{int_eq};
    ghost use Rattle.pt_typed.specs.Reading.{number_of};

    ghost truth = { λ _ value. int_eq (int_rem (number_of value) (pos 2)) (pos 0) };

    fn holds(&self, value: &i64) -> bool {
        *value % 2 == 0
    }
}

/// The integers from 0 to a number.
#[derive(Drop)]
pub struct UpTo;

impl Next<i64> for UpTo {
    ghost use Rattle.std.specs.Prelude.{pos, ◌&&◌, int_le};
    ghost use Rattle.pt_typed.specs.Reading.{number_of};
    ghost use Rattle.pt_typed.specs.Plans.{ints_plan};
    ghost use Rattle.pt_typed.specs.Sets.{IsBetween};
    ghost use Rattle.pt_typed.specs.Laws.{ints-lawful};

    type Strategy = Ints;

    ghost takes = { λ _ value. int_le (pos 0) (number_of value) && int_le (number_of value) (pos 9) };

    ghost plan = { λ _ value. ints_plan (pos 0) (number_of value) };

    ghost values = { λ _ value. IsBetween (pos 0) (number_of value) };

    ghost lawful = { λ _ value _. ints-lawful (pos 0) (number_of value) };

    fn next(&self, _: Global, value: i64) -> Result<Ints, NoMemory> {
        Ok(Ints::of(0, value))
    }
}
