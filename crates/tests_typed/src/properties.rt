//! A property, as a newcomer writes one.

ghost use Rattle.std.specs.Prelude.{◌<◌, ◌^◌, length};

use crate::drawn::choices_of;
use crate::expect::expect;
use pt_case::{Ending, Origin, replay};
use pt_choice::NoMemory;
use pt_typed::{Ints, Judge, Pair, Property};
use pt_val::{Name, NameStop, show};
use std::alloc::Global;

/// Fails at point 3 where a pair of integers rises.
#[derive(Drop)]
struct Falling;

impl Judge<(i64, i64)> for Falling {
    ghost use Rattle.std.specs.Prelude.{int_lt, if◌then◌else◌};
    ghost use Rattle.pt_case.specs.declared.ending.Ending.TheVariants.{Pass, Fail};
    ghost use Rattle.pt_case.specs.declared.ending.Origin.TheVariants.{Point};
    ghost use Rattle.pt_typed.specs.Reading.{number_of, first_of, second_of};

    ghost verdict = { λ _ pair. if int_lt (number_of (first_of pair)) (number_of (second_of pair)) then Fail (Point 3) else Pass };

    fn judge(&self, _: Global, pair: &(i64, i64)) -> Result<Ending, NoMemory> {
        if pair.0 < pair.1 {
            Ok(Ending::Fail(Origin::Point(3)))
        } else {
            Ok(Ending::Pass)
        }
    }
}

// Whether the record of these choices shows the value that is shown so, and ends so.
fn is_judged(alloc: Global, spelled: &[u8], want: &[u8], ending: Ending) -> Result<bool, NameStop>
    requires { length spelled.now < 2 ^ 32 }
{
    let name = Name::of(alloc, "falling")?;
    let property = Property::of(
        alloc,
        name,
        Pair::of(Ints::of(0, 9), Ints::of(0, 9)),
        Falling,
    );
    let record = replay(alloc, &property, &choices_of(alloc, spelled))?;
    let Some(note) = record.notes.as_slice().first() else {
        return Ok(false);
    };
    let shown = show(alloc, &note.val)?;
    Ok(
        note.name.as_slice() == b"value".as_slice()
            && shown.as_slice() == want
            && record.ending == ending,
    )
}

#[test]
fn a_property_shows_and_judges_what_it_drew(rt: HostRuntime) {
    expect(
        &rt,
        0,
        is_judged(
            rt.alloc(),
            b"i4 i9",
            b"(4, 9)",
            Ending::Fail(Origin::Point(3)),
        ),
    );
    expect(
        &rt,
        1,
        is_judged(rt.alloc(), b"i9 i4", b"(9, 4)", Ending::Pass),
    );
}
