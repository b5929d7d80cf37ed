ghost use Rattle.std.specs.Prelude.{◌≡◌, pos, [], ◌∷◌, ◌++◌, map, reverse, IfOk, OnOk};
ghost use Rattle.std.specs.List.{flat_map};
ghost use Rattle.pt_eval.specs.Parts.{labels_of};
ghost use Rattle.pt_eval.specs.Calls.{call_value, joined, reversed, total};
ghost use Rattle.pt_eval.specs.Seen.{seen};
ghost use Rattle.pt_eval.specs.Evaluates.{Evaluates};

use crate::applying::{in_range, sum};
use crate::comparing::has;
use crate::reading::{into_children, into_members, label, length};
use crate::seen::Seen;
use crate::{EvalStop, members, number};
use pt_ast::Func;
use pt_choice::{NoMemory, Octets, Seq};
use pt_val::{Chars, Place, Val, Vals};
use std::alloc::Global;

/// What a function makes of one argument.
pub(crate) fn call_one(
    alloc: Global,
    func: Func,
    at: Place,
    given: Seen<'_>,
) -> Result<Val, EvalStop>
    ensures { Evaluates (call_value func at (seen given.entry ∷ [])) result }
{
    match func {
        Func::Len => Ok(Val::Int(length(given.val()))),
        Func::Sum => total(at, members(given.val())),
        Func::Rev => Ok(reverse(alloc, given.taken()?)?),
        Func::Leaf => Ok(Val::Node(number(given.val()), Seq::empty(alloc))),
        Func::Label => Ok(Val::Int(label(given.val()))),
        Func::Kids => Ok(Val::List(into_children(alloc, given.taken()?))),
        Func::Labels => Ok(Val::List(labels(alloc, given.val())?)),
        Func::Has | Func::Cat | Func::Node => Ok(Val::Int(0)),
    }
}

/// What a function makes of two arguments.
pub(crate) fn call_two(
    alloc: Global,
    func: Func,
    at: Place,
    one: Seen<'_>,
    other: Seen<'_>,
) -> Result<Val, EvalStop>
    ensures { Evaluates (call_value func at (seen one.entry ∷ seen other.entry ∷ [])) result }
{
    match func {
        Func::Has => Ok(Val::Bool(has(members(one.val()), other.val()))),
        Func::Cat => Ok(join(one.taken()?, other.taken()?)?),
        Func::Node => Ok(Val::Node(number(one.val()), into_members(alloc, other.taken()?))),
        _ => Ok(Val::Int(0)),
    }
}

/// The sum of the numbers from left to right.
fn total(at: Place, numbers: &[Val]) -> Result<Val, EvalStop>
    ensures { Evaluates (total at (pos 0) numbers.now) result }
{
    let mut so_far = 0;
    for member in numbers {
        let next = in_range(at, sum(so_far, number(member)))?;
        so_far = number(&next);
    }
    Ok(Val::Int(so_far))
}

/// Two texts, two bytes or two lists, one after the other.
fn join(first: Val, second: Val) -> Result<Val, NoMemory>
    ensures { IfOk result (λ val. val ≡ joined first second) }
{
    match (first, second) {
        (Val::Text(chars), Val::Text(others)) => Ok(Val::Text(join_chars(
            chars,
            others.as_slice(),
        )?)),
        (Val::Bytes(bytes), Val::Bytes(others)) => Ok(Val::Bytes(join_bytes(
            bytes,
            others.as_slice(),
        )?)),
        (Val::List(members), Val::List(others)) => Ok(Val::List(join_members(members, others)?)),
        (first, _) => Ok(first),
    }
}

fn join_chars(mut chars: Chars, others: &[char]) -> Result<Chars, NoMemory>
    ensures { IfOk result (λ joined. joined ≡ chars ++ others.now) }
{
    for char in others {
        chars.push(*char)?;
    }
    Ok(chars)
}

fn join_bytes(mut bytes: Octets, others: &[u8]) -> Result<Octets, NoMemory>
    ensures { IfOk result (λ joined. joined ≡ bytes ++ others.now) }
{
    for byte in others {
        bytes.push(*byte)?;
    }
    Ok(bytes)
}

fn join_members(mut members: Vals, others: Vals) -> Result<Vals, NoMemory>
    ensures { IfOk result (λ joined. joined ≡ members ++ others) }
{
    for member in others {
        members.push(member)?;
    }
    Ok(members)
}

/// A text, bytes or a list from its end to its beginning.
fn reverse(alloc: Global, val: Val) -> Result<Val, NoMemory>
    ensures { IfOk result (λ reverse. reverse ≡ reversed val) }
{
    match val {
        Val::Text(chars) => Ok(Val::Text(reverse_chars(alloc, chars.as_slice())?)),
        Val::Bytes(bytes) => Ok(Val::Bytes(reverse_bytes(alloc, bytes.as_slice())?)),
        Val::List(members) => Ok(Val::List(reverse_members(alloc, members)?)),
        val => Ok(val),
    }
}

fn reverse_chars(alloc: Global, chars: &[char]) -> Result<Chars, NoMemory>
    ensures { IfOk result (λ reversed. reversed ≡ reverse chars.now) }
{
    let mut reversed = Chars::empty(alloc);
    for char in chars.iter().rev() {
        reversed.push(*char)?;
    }
    Ok(reversed)
}

fn reverse_bytes(alloc: Global, bytes: &[u8]) -> Result<Octets, NoMemory>
    ensures { IfOk result (λ reversed. reversed ≡ reverse bytes.now) }
{
    let mut reversed = Octets::empty(alloc);
    for byte in bytes.iter().rev() {
        reversed.push(*byte)?;
    }
    Ok(reversed)
}

fn reverse_members(alloc: Global, members: Vals) -> Result<Vals, NoMemory>
    ensures { IfOk result (λ reversed. reversed ≡ reverse members) }
{
    let mut reversed = Seq::empty(alloc);
    let mut left = members.into_iter();
    while let Some(member) = left.next_back() {
        reversed.push(member)?;
    }
    Ok(reversed)
}

/// The labels of a tree, each before those below it.
fn labels(alloc: Global, tree: &Val) -> Result<Vals, NoMemory>
    ensures { IfOk result (λ labels. labels ≡ map (λ label. Val.Int label) (labels_of tree.now)) }
{
    let mut labels = Seq::empty(alloc);
    add_labels(tree, &mut labels)?;
    Ok(labels)
}

#[cycle(labels)]
fn add_labels(tree: &Val, labels: &mut Vals) -> Result<(), NoMemory>
    ensures { OnOk result (labels.new ≡ labels.old ++ map (λ label. Val.Int label) (labels_of tree.now)) }
{
    match tree {
        Val::Node(label, children) => {
            labels.push(Val::Int(*label))?;
            add_all_labels(children.as_slice(), labels)
        }
        _ => Ok(()),
    }
}

#[cycle(labels)]
fn add_all_labels(trees: &[Val], labels: &mut Vals) -> Result<(), NoMemory>
    ensures { OnOk result (labels.new ≡ labels.old ++ map (λ label. Val.Int label) (flat_map labels_of trees.now)) }
{
    for tree in trees {
        add_labels(tree, labels)?;
    }
    Ok(())
}
