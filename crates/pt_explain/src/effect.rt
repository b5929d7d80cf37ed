//! One choice replaced by another, and what comes of it.

ghost use Rattle.std.specs.Prelude.{◌≡◌, ◌↔◌, ◌<◌, IsTrue, IfOk, length, slice_set};
ghost use Rattle.pt_explain.specs.Tally.{HasEffect, Shows};

use pt_case::{Check, Record, replay};
use pt_choice::{Choice, Choices, NoMemory};
use std::alloc::Global;

/// What a replacement comes to.
#[derive(Drop)]
pub(crate) enum Effect {
    /// It was made to fit, so that the choice is the same again.
    Repaired,
    /// The choice is another, and the failure is alike.
    Alike,
    /// The choice is this one, and the failure is gone or another.
    Differs(Choice),
}

/// Replays the choices of a record with another one at a place.
pub(crate) fn try_other<C: Check>(
    alloc: Global,
    check: &C,
    best: &Record,
    place: usize,
    member: &Choice,
) -> Result<Effect, NoMemory>
    requires { place < length best.now.choices }
    ensures { IfOk result (λ effect. HasEffect (C.step check.now) best.now place member.now effect) }
{
    let list = replaced(alloc, best.choices.as_slice(), place, member)?;
    let rec = replay(alloc, check, &list)?;
    effect_of(best, place, &rec)
}

fn replaced(
    alloc: Global,
    choices: &[Choice],
    place: usize,
    member: &Choice,
) -> Result<Choices, NoMemory>
    requires { place < length choices.now }
    ensures { IfOk result (λ list. list ≡ slice_set choices.now place member.now) }
{
    let mut list = Vec::with_capacity(alloc, choices.len())?;
    for choice in choices {
        list.push(choice.copy()?)?;
    }
    list[place] = member.copy()?;
    Ok(Choices::from(list))
}

// What a record shows of its choice at this place.
fn effect_of(best: &Record, place: usize, rec: &Record) -> Result<Effect, NoMemory>
    requires { place < length best.now.choices }
    ensures { IfOk result (λ effect. Shows best.now place rec.now effect) }
{
    let choices = rec.choices.as_slice();
    if place >= choices.len() || are_same(&choices[place], &best.choices.as_slice()[place]) {
        return Ok(Effect::Repaired);
    }
    if is_alike(rec, best) {
        return Ok(Effect::Alike);
    }
    Ok(Effect::Differs(choices[place].copy()?))
}

fn are_same(one: &Choice, other: &Choice) -> bool
    ensures { IsTrue result ↔ (one.now ≡ other.now) }
{
    one == other
}

/// Whether the one ended as the other did: two failures, whether with the same origin.
pub(crate) fn is_alike(rec: &Record, best: &Record) -> bool
    ensures { IsTrue result ↔ (rec.now.ending ≡ best.now.ending) }
{
    rec.ending == best.ending
}
