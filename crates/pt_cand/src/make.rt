//! Lists made by edits. Memory is taken for the list alone.

ghost use Rattle.std.specs.Prelude.{◌≡◌, ◌++◌, ◌∷◌, ◌+◌, take, drop, IfOk, OnOk};
ghost use Rattle.pt_choice.specs.declared.choice.Choice.TheVariants as choice;
ghost use Rattle.pt_cand.specs.Descend.{descended};
ghost use Rattle.pt_cand.specs.Edit.{changed, changed_choice, edited, put_at};
ghost use Rattle.pt_cand.specs.Region.{without};
ghost use Rattle.pt_cand.specs.SwapSiblings.{swapped};
ghost use Rattle.pt_cand.specs.declared.edit.Edit.TheVariants as edit;

use crate::Change;
use pt_case::Span;
use pt_choice::{Choice, Choices, NoMemory, Octets};
use std::alloc::Global;

// The items before a place, or all where there are no more.
fn front<T>(items: &[T], to: usize) -> &[T]
    ensures { result.now ≡ take to items.now }
{
    if to < items.len() {
        &items[..to]
    } else {
        items
    }
}

// The items from a place on.
fn back<T>(items: &[T], from: usize) -> &[T]
    ensures { result.now ≡ drop from items.now }
{
    if from < items.len() {
        &items[from..]
    } else {
        &items[items.len()..]
    }
}

// The items behind a place.
fn behind<T>(items: &[T], place: usize) -> &[T]
    ensures { result.now ≡ drop (place + 1) items.now }
{
    if place < items.len() {
        &items[place + 1..]
    } else {
        &items[items.len()..]
    }
}

fn extend(list: &mut Choices, more: &[Choice]) -> Result<(), NoMemory>
    ensures { OnOk result (list.new ≡ list.old ++ more.now) }
{
    for choice in more {
        list.push(choice.copy()?)?;
    }
    Ok(())
}

pub(crate) fn deleted(alloc: Global, choices: &[Choice], span: Span) -> Result<Choices, NoMemory>
    ensures { IfOk result (λ list. list ≡ without choices.now span) }
{
    let mut list = Choices::empty(alloc);
    extend(&mut list, front(choices, usize::from(span.from)))?;
    extend(&mut list, back(choices, usize::from(span.to)))?;
    Ok(list)
}

pub(crate) fn descended(
    alloc: Global,
    choices: &[Choice],
    outer: Span,
    inner: Span,
) -> Result<Choices, NoMemory>
    ensures { IfOk result (λ list. list ≡ descended choices.now outer inner) }
{
    let mut list = Choices::empty(alloc);
    extend(&mut list, front(choices, usize::from(outer.from)))?;
    extend(
        &mut list,
        back(
            front(choices, usize::from(inner.to)),
            usize::from(inner.from),
        ),
    )?;
    extend(&mut list, back(choices, usize::from(outer.to)))?;
    Ok(list)
}

pub(crate) fn put(
    alloc: Global,
    choices: &[Choice],
    place: usize,
    choice: Choice,
) -> Result<Choices, NoMemory>
    ensures { IfOk result (λ list. list ≡ put_at place choice choices.now) }
{
    let mut list = Choices::empty(alloc);
    extend(&mut list, front(choices, place))?;
    list.push(choice)?;
    extend(&mut list, behind(choices, place))?;
    Ok(list)
}

pub(crate) fn put_both(
    alloc: Global,
    choices: &[Choice],
    first: (usize, i128),
    second: (usize, i128),
) -> Result<Choices, NoMemory>
    ensures { IfOk result (λ list. list ≡ edited choices.now (edit.PutBoth first.0 first.1 second.0 second.1)) }
{
    let mut list = Choices::empty(alloc);
    extend(&mut list, front(choices, first.0))?;
    list.push(Choice::Int(first.1))?;
    extend(&mut list, behind(front(choices, second.0), first.0))?;
    list.push(Choice::Int(second.1))?;
    extend(&mut list, behind(choices, second.0))?;
    Ok(list)
}

pub(crate) fn swapped(
    alloc: Global,
    choices: &[Choice],
    one: Span,
    other: Span,
) -> Result<Choices, NoMemory>
    ensures { IfOk result (λ list. list ≡ swapped choices.now one other) }
{
    let mut list = Choices::empty(alloc);
    extend(&mut list, front(choices, usize::from(one.from)))?;
    extend(
        &mut list,
        back(
            front(choices, usize::from(other.to)),
            usize::from(other.from),
        ),
    )?;
    extend(
        &mut list,
        back(front(choices, usize::from(other.from)), usize::from(one.to)),
    )?;
    extend(
        &mut list,
        back(front(choices, usize::from(one.to)), usize::from(one.from)),
    )?;
    extend(&mut list, back(choices, usize::from(other.to)))?;
    Ok(list)
}

pub(crate) fn put_and_deleted(
    alloc: Global,
    choices: &[Choice],
    put: (usize, i128),
    span: Span,
) -> Result<Choices, NoMemory>
    ensures { IfOk result (λ list. list ≡ edited choices.now (edit.PutAndDelete put.0 put.1 span)) }
{
    let mut list = Choices::empty(alloc);
    extend(&mut list, front(choices, put.0))?;
    list.push(Choice::Int(put.1))?;
    extend(
        &mut list,
        behind(front(choices, usize::from(span.from)), put.0),
    )?;
    extend(&mut list, back(choices, usize::from(span.to)))?;
    Ok(list)
}

pub(crate) fn changed(
    alloc: Global,
    choices: &[Choice],
    place: usize,
    change: Change,
) -> Result<Choices, NoMemory>
    ensures { IfOk result (λ list. list ≡ edited choices.now (edit.Change place change)) }
{
    let choice = match choices.get(place) {
        Some(given) => changed_choice(alloc, given, change)?,
        None => Choice::Bool(false),
    };
    put(alloc, choices, place, choice)
}

fn changed_choice(alloc: Global, given: &Choice, change: Change) -> Result<Choice, NoMemory>
    ensures { IfOk result (λ choice. choice ≡ changed_choice change given.now) }
{
    match given {
        Choice::Bytes(octets) => Ok(Choice::Bytes(changed_octets(
            alloc,
            octets.as_slice(),
            change,
        )?)),
        Choice::Text(octets) => Ok(Choice::Text(changed_octets(alloc, octets.as_slice(), change)?)),
        other => other.copy(),
    }
}

fn changed_octets(alloc: Global, octets: &[u8], change: Change) -> Result<Octets, NoMemory>
    ensures { IfOk result (λ made. made ≡ changed change octets.now) }
{
    let mut made = Vec::new(alloc);
    made.extend_from_slice(front(octets, change.front))?;
    if let Some(place) = change.put {
        made.push(place)?;
    }
    made.extend_from_slice(back(octets, change.back))?;
    Ok(Octets::from(made))
}
