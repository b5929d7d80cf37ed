//! A lamp with a fault, against a model of it.

ghost use Rattle.std.specs.Prelude.{◌<◌, ◌^◌, length};

use crate::drawn::choices_of;
use crate::expect::expect;
use pt_against::{Against, Beside};
use pt_case::{Ending, Origin, replay};
use pt_choice::NoMemory;
use pt_typed::{Ints, ListOf, Property};
use pt_val::{Name, NameStop};
use std::alloc::Global;

/// A lamp that is turned off by the command 0 and on by 1, and is to change by any other. A wrong one is only turned on by these. A command
/// on is not given to a lamp that is on.
#[derive(Drop)]
struct Lamp;

impl Beside<i64> for Lamp {
    ghost use Rattle.tests_typed.specs.Lamp.{lamp_pairing};

    type Thing = bool;

    type Model = bool;

    type Answer = bool;

    ghost pairing = { λ _. lamp_pairing };

    fn thing(&self, _: Global) -> Result<bool, NoMemory> {
        Ok(false)
    }

    fn model(&self, _: Global) -> Result<bool, NoMemory> {
        Ok(false)
    }

    fn allows(&self, on: &bool, command: &i64) -> bool {
        !*on || *command != 1
    }

    fn try_thing(&self, _: Global, on: &mut bool, command: &i64) -> Result<bool, NoMemory> {
        *on = *command != 0;
        Ok(*on)
    }

    fn try_model(&self, _: Global, on: &mut bool, command: &i64) -> Result<bool, NoMemory> {
        if *command == 0 || *command == 1 {
            *on = *command == 1;
        } else {
            *on = !*on;
        }
        Ok(*on)
    }

    fn point(&self, command: &i64) -> u32 {
        if *command == 0 || *command == 1 { 1 } else { 2 }
    }
}

// Whether the commands that these choices make end so.
fn is_judged(alloc: Global, spelled: &[u8], ending: Ending) -> Result<bool, NameStop>
    requires { length spelled.now < 2 ^ 32 }
{
    let name = Name::of(alloc, "lamp")?;
    let commands = ListOf::of(Ints::of(0, 2), 0, 9);
    let property = Property::of(alloc, name, commands, Against::of(Lamp));
    let record = replay(alloc, &property, &choices_of(alloc, spelled))?;
    Ok(record.ending == ending)
}

// Choices, and how the check ends on them.
const ENDINGS: &[(&[u8], Ending)] = &[
    (b"bf", Ending::Pass),
    // on, off
    (b"bt i1 bt i0 bf", Ending::Pass),
    // changed once, as both are
    (b"bt i2 bf", Ending::Pass),
    // changed twice
    (b"bt i2 bt i2 bf", Ending::Fail(Origin::Point(2))),
    // a second command on is not given
    (b"bt i1 bt i1 bf", Ending::Pass),
    (
        b"bt i1 bt i1 bt i2 bt i0 bf",
        Ending::Fail(Origin::Point(2)),
    ),
];

#[test]
fn a_wrong_lamp_differs_from_its_model(rt: HostRuntime) {
    for (row, (spelled, ending)) in ENDINGS.iter().enumerate() {
        expect(&rt, row, is_judged(rt.alloc(), spelled, *ending));
    }
}
