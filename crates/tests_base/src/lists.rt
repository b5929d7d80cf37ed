//! Lists: what they hold, their copies, and a loop over one by value.

ghost use Rattle.std.specs.Prelude.{◌≡◌, ◌++◌, IfOk};

use crate::expect::expect;
use crate::sample::Sample::{Bytes, Number, Text};
use crate::sample::choices_of;
use pt_choice::{NoMemory, Octets, Seq};
use std::alloc::Global;

fn choices_are_copied(alloc: Global) -> Result<bool, NoMemory> {
    let choices = choices_of(alloc, &[Number(-3), Bytes(&[0, 255]), Text(&[4, 2])])?;
    Ok(choices.len() == 3 && choices.copy()? == choices)
}

fn octets_are_copied(alloc: Global) -> Result<bool, NoMemory> {
    let mut octets = Octets::of(alloc, b"a")?;
    octets.push(b'b')?;
    Ok(octets.len() == 2 && octets.copy()?.as_slice() == b"ab".as_slice())
}

#[test]
fn copies_are_the_same(rt: HostRuntime) {
    expect(&rt, 0, choices_are_copied(rt.alloc()));
    expect(&rt, 1, octets_are_copied(rt.alloc()));
}

fn numbers(alloc: Global, from: &[u8]) -> Result<Seq<u8>, NoMemory> {
    let mut numbers = Seq::empty(alloc);
    for number in from {
        numbers.push(*number)?;
    }
    Ok(numbers)
}

// The items of the one list, and then those of the other.
fn joined(mut first: Seq<u8>, rest: Seq<u8>) -> Result<Seq<u8>, NoMemory>
    ensures { IfOk result (λ all. all ≡ first ++ rest) }
{
    for number in rest {
        first.push(number)?;
    }
    Ok(first)
}

fn are_joined(alloc: Global) -> Result<bool, NoMemory> {
    let all = joined(numbers(alloc, &[1, 2])?, numbers(alloc, &[3])?)?;
    let none: Seq<u8> = Seq::empty(all.allocator());
    Ok(none.len() == 0 && all.len() == 3 && all.as_slice() == [1, 2, 3].as_slice())
}

#[test]
fn a_loop_takes_the_items_in_order(rt: HostRuntime) {
    expect(&rt, 0, are_joined(rt.alloc()));
}

#[derive(Debug, Drop)]
enum Tree {
    Leaf(u8),
    Fork(Seq<Tree>),
}

fn leaves(tree: &Tree) -> u64 {
    match tree {
        Tree::Leaf(_) => 1,
        Tree::Fork(trees) => {
            let mut total = 0u64;
            for tree in trees.as_slice() {
                total = total.saturating_add(leaves(tree));
            }
            total
        }
    }
}

fn fork(alloc: Global, one: Tree, other: Tree) -> Result<Tree, NoMemory> {
    let mut trees = Seq::empty(alloc);
    trees.push(one)?;
    trees.push(other)?;
    Ok(Tree::Fork(trees))
}

fn has_three_leaves(alloc: Global) -> Result<bool, NoMemory> {
    let pair = fork(alloc, Tree::Leaf(1), Tree::Leaf(2))?;
    Ok(leaves(&fork(alloc, Tree::Leaf(3), pair)?) == 3)
}

#[test]
fn a_type_holds_itself_by_a_list(rt: HostRuntime) {
    expect(&rt, 0, has_three_leaves(rt.alloc()));
}
