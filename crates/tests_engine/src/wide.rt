//! A list that is too long, as a property over a strategy.

use pt_case::{ChoiceLists, Ending, Origin};
use pt_choice::{Choice, Choices, NoMemory};
use pt_typed::{Ints, Judge, ListOf, Property};
use pt_val::Name;
use std::alloc::Global;

/// Fails at point 1 where a list has three members or more.
#[derive(Drop)]
pub struct Short;

impl Judge<Vec<i64>> for Short {
    ghost use Rattle.std.specs.Prelude.{nat_lt, length, if◌then◌else◌};
    ghost use Rattle.pt_case.specs.declared.ending.Ending.TheVariants.{Pass, Fail};
    ghost use Rattle.pt_case.specs.declared.ending.Origin.TheVariants.{Point};
    ghost use Rattle.pt_typed.specs.Reading.{members_of};

    ghost verdict = { λ _ list. if nat_lt (length (members_of list)) 3 then Pass else Fail (Point 1) };

    fn judge(&self, _: Global, list: &Vec<i64>) -> Result<Ending, NoMemory> {
        if list.len() < 3 {
            Ok(Ending::Pass)
        } else {
            Ok(Ending::Fail(Origin::Point(1)))
        }
    }
}

/// A property over lists of up to 120 numbers from 0 to 100: they are short.
pub type Wide = Property<ListOf<Ints>, Short>;

/// The property of this name.
pub fn wide(alloc: Global, name: Name) -> Wide {
    Property::of(alloc, name, ListOf::of(Ints::of(0, 100), 0, 120), Short)
}

/// The choices of the list of the numbers from 1 to 100, as the one that is stored.
pub fn a_hundred_stored(alloc: Global) -> Result<ChoiceLists, NoMemory> {
    let mut choices = Choices::empty(alloc);
    for number in 1..101u8 {
        choices.push(Choice::Bool(true))?;
        choices.push(Choice::Int(i128::from(number)))?;
    }
    choices.push(Choice::Bool(false))?;
    let mut lists = ChoiceLists::empty(alloc);
    lists.push(choices)?;
    Ok(lists)
}
