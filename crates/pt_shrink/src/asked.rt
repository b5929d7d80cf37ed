//! What a step of one integer asks for: the step of twice its size. So an integer comes down to where it may stay in few steps, and not
//! by ones.

ghost use Rattle.std.specs.Prelude.{◌≡◌, ◌≢◌, ◌↔◌, IsTrue, ◌<◌, ◌≤◌, ◌*◌, ◌+◌, ◌++◌, ◌∷◌, ℕ, ℤ, unsigned_abs, List, Option, Some, None, IfOk, OnOk, take, drop, length, slice_get};
ghost use Rattle.pt_choice.specs.declared.choice.Choice.{Choice};
ghost use Rattle.pt_choice.specs.declared.choice.Choice.TheVariants as choice;
ghost use Rattle.pt_cand.specs.Lower.{nearer};
ghost use Rattle.pt_found.specs.Leap.{IsLeap};

use pt_choice::{Choice, Choices, NoMemory, cmp_choice};
use std::alloc::Global;
use std::cmp::Ordering;

/// The list that is asked for after this step, if one is.
pub(crate) fn asked_after(
    alloc: Global,
    old: &Choices,
    new: &Choices,
) -> Result<Option<Choices>, NoMemory>
    ensures { IfOk result (λ answer. (asked : List Choice) → IsLeap old.now new.now asked → answer ≡ Some asked) }
{
    if old.len() != new.len() {
        return Ok(None);
    }
    let before = old.as_slice();
    let here = new.as_slice();
    let place = first_difference(before, here, 0);
    if place == before.len() {
        return Ok(None);
    }
    let next = first_difference(before, here, place + 1);
    if next < before.len() {
        return Ok(None);
    }
    match leap_to(&before[place], &here[place]) {
        None => Ok(None),
        Some(choice) => Ok(Some(replaced(alloc, here, place, choice)?)),
    }
}

// The first place from this one on at which the lists differ, or their length.
fn first_difference(old: &[Choice], new: &[Choice], from: usize) -> usize
    requires lengths { length old.now ≡ length new.now }
    requires from { from ≤ length old.now }
    ensures place { result ≤ length old.now }
    ensures behind { from ≤ result }
    ensures same { (k : ℕ) → from ≤ k → k < result → slice_get old.now k ≡ slice_get new.now k }
    ensures differ { result < length old.now → slice_get old.now result ≢ slice_get new.now result }
{
    for place in from..old.len() {
        if !same(&old[place], &new[place]) {
            return place;
        }
    }
    old.len()
}

fn same(one: &Choice, other: &Choice) -> bool
    ensures { IsTrue result ↔ (one.now ≡ other.now) }
{
    cmp_choice(one, other) == Ordering::Equal
}

// Where a step toward zero leads that is twice as long as the one that was taken, if it does not pass zero.
fn leap_to(was: &Choice, now: &Choice) -> Option<Choice>
    ensures { (from to : ℤ) (size : ℕ) → was.now ≡ choice.Int from → now.now ≡ choice.Int to → 1 ≤ size → to ≡ nearer from size →
        2 * size ≤ unsigned_abs to → result ≡ Some (choice.Int (nearer to (2 * size))) }
{
    match (was, now) {
        (Choice::Int(was), Choice::Int(now)) => leap_between(*was, *now),
        _ => None,
    }
}

fn leap_between(was: i128, now: i128) -> Option<Choice>
    ensures { (size : ℕ) → 1 ≤ size → now ≡ nearer was size → 2 * size ≤ unsigned_abs now → result ≡ Some (choice.Int (nearer now (2 * size))) }
{
    let before = was.unsigned_abs();
    let here = now.unsigned_abs();
    if before <= here || before - here > here / 2 {
        return None;
    }
    let left = (here - 2 * (before - here)) as i128;
    if now < 0 {
        Some(Choice::Int(-left))
    } else {
        Some(Choice::Int(left))
    }
}

// The list with another choice at a place.
fn replaced(
    alloc: Global,
    choices: &[Choice],
    place: usize,
    choice: Choice,
) -> Result<Choices, NoMemory>
    requires { place < length choices.now }
    ensures { IfOk result (λ list. list ≡ take place choices.now ++ choice ∷ drop (place + 1) choices.now) }
{
    let mut list = Choices::empty(alloc);
    extend(&mut list, &choices[..place])?;
    list.push(choice)?;
    extend(&mut list, &choices[place + 1..])?;
    Ok(list)
}

fn extend(list: &mut Choices, more: &[Choice]) -> Result<(), NoMemory>
    ensures { OnOk result (list.new ≡ list.old ++ more.now) }
{
    for choice in more {
        list.push(choice.copy()?)?;
    }
    Ok(())
}
