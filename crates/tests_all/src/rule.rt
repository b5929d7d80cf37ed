//! Properties that fail at several points.

ghost use Rattle.std.specs.Prelude.{◌≡◌, ◌<◌};
ghost use Rattle.tests_all.specs.Rules.{mixed_of, hidden_of, verdict_of, side_of};

use pt_case::{Ending, Origin};
use pt_choice::NoMemory;
use pt_typed::{Bools, Ints, Judge, Property};
use pt_val::Name;
use std::alloc::Global;

/// How a number is judged.
#[derive(Clone, Copy, Debug)]
pub enum Rule {
    Passes,
    Rejects,
    /// Each number below 100 fails at a point of its own.
    Apart,
    /// Of four numbers one passes, one is rejected, and two fail, each at a point of its own.
    Mixed,
    /// A number from 10 on fails, and one from 500 on elsewhere.
    Hidden,
}

impl Judge<i64> for Rule {
    ghost use Rattle.pt_typed.specs.Reading.{number_of};

    ghost verdict = { λ rule value. verdict_of rule (number_of value) };

    fn judge(&self, _: Global, value: &i64) -> Result<Ending, NoMemory> {
        Ok(judged(*self, *value))
    }
}

fn judged(rule: Rule, number: i64) -> Ending
    ensures { result ≡ verdict_of rule number }
{
    match rule {
        Rule::Passes => Ending::Pass,
        Rule::Rejects => Ending::Reject,
        Rule::Apart => Ending::Fail(Origin::Point((number.unsigned_abs() % 100) as u32)),
        Rule::Mixed => mixed((number.unsigned_abs() % 4) as u32),
        Rule::Hidden => hidden(number),
    }
}

fn mixed(number: u32) -> Ending
    ensures { result ≡ mixed_of number }
{
    match number {
        0 => Ending::Pass,
        1 => Ending::Reject,
        _ => Ending::Fail(Origin::Point(number)),
    }
}

fn hidden(number: i64) -> Ending
    ensures { result ≡ hidden_of number }
{
    if number < 10 {
        Ending::Pass
    } else if number < 500 {
        Ending::Fail(Origin::Point(1))
    } else {
        Ending::Fail(Origin::Point(2))
    }
}

/// Numbers from 0 to the most, judged by a rule.
pub type Numbers = Property<Ints, Rule>;

/// The property of this name, over the numbers from 0 to 1,000.
pub fn numbers(alloc: Global, name: Name, rule: Rule) -> Numbers {
    Property::of(alloc, name, Ints::of(0, 1000), rule)
}

/// Both values of a flag fail, each at a point of its own.
#[derive(Drop)]
pub struct Sides;

impl Judge<bool> for Sides {
    ghost use Rattle.pt_typed.specs.Reading.{truth_of};

    ghost verdict = { λ _ value. side_of (truth_of value) };

    fn judge(&self, _: Global, value: &bool) -> Result<Ending, NoMemory> {
        Ok(side(*value))
    }
}

fn side(value: bool) -> Ending
    ensures { result ≡ side_of value }
{
    Ending::Fail(Origin::Point(if value { 2 } else { 1 }))
}

/// A flag, of which both values fail.
pub fn both_sides(alloc: Global, name: Name) -> Property<Bools, Sides> {
    Property::of(alloc, name, Bools, Sides)
}
