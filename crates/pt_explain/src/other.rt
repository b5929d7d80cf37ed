//! The choices that are tried in place of one.

ghost use Rattle.std.specs.Prelude.{◌≡◌, ◌-◌, ◌<◌, ◌≤◌, pos, slice_index_or, ◌∷◌, [], ◌++◌, map, take, length, slice_get, option_to_list, IfOk, OnOk};
ghost use Rattle.std.specs.List.{list_any};
ghost use Rattle.pt_choice.specs.Limits.{IsBounded, IsInLimits, IsFew};
ghost use Rattle.pt_choice.specs.Same.{same_choice};
ghost use Rattle.pt_cand.specs.Each.{each_once};
ghost use Rattle.pt_explain.specs.Others.{other_integers, other_octets, longer, raised, last_changed, replacements, others};
ghost use Rattle.pt_explain.specs.Sort.{with_octets};
ghost use Rattle.pt_choice.specs.declared.choice.Choice.TheVariants as choice;

use pt_choice::{Choice, Choices, NoMemory, Octets};
use std::alloc::Global;

const MOST_PLACES: usize = 64;

// How many integers are tried in place of one.
const INTEGERS: usize = 10;

/// The choices that are tried in place of one, which is not among them. No more than ten are.
pub fn others(alloc: Global, choice: &Choice) -> Result<Choices, NoMemory>
    requires { IsInLimits choice.now }
    ensures list { IfOk result (λ members. members ≡ others choice.now) }
    ensures few { IfOk result (λ members. length members ≤ 10) }
{
    let stated = replacements(alloc, choice)?;
    each_once(alloc, choice, stated.as_slice())
}

// The members in order, each once, without the choice itself.
fn each_once(alloc: Global, choice: &Choice, stated: &[Choice]) -> Result<Choices, NoMemory>
    ensures list { IfOk result (λ members. members ≡ each_once same_choice (choice.now ∷ []) stated.now) }
    ensures few { IfOk result (λ members. length members ≤ length stated.now) }
{
    let mut members = Choices::empty(alloc);
    for (i, member) in stated.iter().enumerate() {
        if !is_seen(member, choice, &stated[..i]) {
            members.push(member.copy()?)?;
        }
    }
    Ok(members)
}

// Whether it is the choice itself, or stands before.
fn is_seen(member: &Choice, choice: &Choice, earlier: &[Choice]) -> bool
    ensures { result ≡ list_any (same_choice member.now) (choice.now ∷ earlier.now) }
{
    member == choice || is_among(member, earlier)
}

fn is_among(member: &Choice, choices: &[Choice]) -> bool
    ensures { result ≡ list_any (same_choice member.now) choices.now }
{
    choices.iter().any(|other| member == other)
}

fn replacements(alloc: Global, choice: &Choice) -> Result<Choices, NoMemory>
    requires { IsInLimits choice.now }
    ensures list { IfOk result (λ members. members ≡ replacements choice.now) }
    ensures few { IfOk result (λ members. length members ≤ 10) }
{
    match choice {
        Choice::Bool(value) => Ok(Choices::from(vec![in alloc; Choice::Bool(!*value)]?)),
        Choice::Int(value) => other_integers(alloc, *value),
        Choice::Bytes(octets) => other_octets(alloc, choice, octets.as_slice()),
        Choice::Text(octets) => other_octets(alloc, choice, octets.as_slice()),
    }
}

fn other_integers(alloc: Global, value: i128) -> Result<Choices, NoMemory>
    requires { IsBounded value }
    ensures list { IfOk result (λ members. members ≡ map (λ v. choice.Int v) (other_integers value)) }
    ensures few { IfOk result (λ members. length members ≤ 10) }
{
    let mut members = Choices::empty(alloc);
    for number in 0..INTEGERS {
        members.push(Choice::Int(numbered(value, number)))?;
    }
    Ok(members)
}

fn numbered(value: i128, number: usize) -> i128
    requires bounded { IsBounded value }
    requires within { number < 10 }
    ensures { result ≡ slice_index_or (other_integers value) number (pos 0) }
{
    match number {
        0 => 0,
        1 => 1,
        2 => -1,
        3 => 2,
        4 => 10,
        5 => 100,
        6 => value + 1,
        7 => value - 1,
        8 => value + value,
        _ => -value,
    }
}

fn other_octets(alloc: Global, like: &Choice, octets: &[u8]) -> Result<Choices, NoMemory>
    requires { IsFew octets.now }
    ensures list { IfOk result (λ members. members ≡ map (with_octets like.now) (other_octets octets.now)) }
    ensures few { IfOk result (λ members. length members ≤ 10) }
{
    let mut members = Choices::empty(alloc);
    members.push(joined(alloc, like, &[], None)?)?;
    members.push(joined(alloc, like, &octets[..octets.len() / 2], None)?)?;
    add_longer(alloc, &mut members, like, octets)?;
    add_last_changed(alloc, &mut members, like, octets)?;
    Ok(members)
}

fn add_longer(
    alloc: Global,
    members: &mut Choices,
    like: &Choice,
    octets: &[u8],
) -> Result<(), NoMemory>
    ensures { OnOk result (members.new ≡ members.old ++ map (with_octets like.now) (longer octets.now)) }
{
    if octets.len() < MOST_PLACES {
        members.push(joined(alloc, like, octets, Some(0))?)?;
    }
    Ok(())
}

fn add_last_changed(
    alloc: Global,
    members: &mut Choices,
    like: &Choice,
    octets: &[u8],
) -> Result<(), NoMemory>
    ensures { OnOk result (members.new ≡ members.old ++ map (with_octets like.now)
        (last_changed (take (length octets.now - 1) octets.now) (slice_get octets.now (length octets.now - 1)))) }
{
    let Some(last) = octets.last() else {
        return Ok(());
    };
    let front = &octets[..octets.len() - 1];
    members.push(joined(alloc, like, front, Some(0))?)?;
    add_raised(alloc, members, like, front, *last)
}

fn add_raised(
    alloc: Global,
    members: &mut Choices,
    like: &Choice,
    front: &[u8],
    last: u8,
) -> Result<(), NoMemory>
    ensures { OnOk result (members.new ≡ members.old ++ map (with_octets like.now) (raised front.now last)) }
{
    if last < u8::MAX {
        members.push(joined(alloc, like, front, Some(last + 1))?)?;
    }
    Ok(())
}

// The places, and perhaps one more, as a choice of the same sort.
fn joined(alloc: Global, like: &Choice, front: &[u8], last: Option<u8>) -> Result<Choice, NoMemory>
    ensures { IfOk result (λ choice. choice ≡ with_octets like.now (front.now ++ option_to_list last)) }
{
    let mut octets = Vec::from_slice(alloc, front)?;
    if let Some(last) = last {
        octets.push(last)?;
    }
    Ok(of_sort(like, Octets::from(octets)))
}

fn of_sort(like: &Choice, octets: Octets) -> Choice
    ensures { result ≡ with_octets like.now octets }
{
    match like {
        Choice::Text(_) => Choice::Text(octets),
        _ => Choice::Bytes(octets),
    }
}
