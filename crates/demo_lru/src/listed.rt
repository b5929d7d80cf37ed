//! The model of a cache: a plain list of pairs, the one used last in front.

ghost use Rattle.std.specs.Prelude.{◌≡◌, ◌-◌, take, IfOk};
ghost use Rattle.std.specs.Map.{lookup};
ghost use Rattle.std.specs.Ordering.{int_eq};
ghost use Rattle.demo_lru.specs.Listed.{by_list, newest, without};

use crate::command::Command;
use pt_choice::{NoMemory, Seq};
use std::alloc::Global;

/// Keys with their values, the one used last in front.
pub type Pairs = Seq<(i64, i64)>;

/// How many pairs there may be.
pub const ROOM: usize = 2;

/// What the list answers to a command, and is afterwards.
pub fn tell_list(
    alloc: Global,
    pairs: &mut Pairs,
    command: Command,
) -> Result<Option<i64>, NoMemory>
    ensures { IfOk result (λ answer. (answer, pairs.new) ≡ by_list pairs.old command) }
{
    match command {
        Command::Put(key, value) => put(alloc, pairs, key, value),
        Command::Get(key) => get(alloc, pairs, key),
        Command::Remove(key) => remove(alloc, pairs, key),
    }
}

fn put(alloc: Global, pairs: &mut Pairs, key: i64, value: i64) -> Result<Option<i64>, NoMemory>
    ensures { IfOk result (λ answer. (answer, pairs.new) ≡ by_list pairs.old (Command.Put key value)) }
{
    let old = value_of(pairs, key);
    *pairs = newest(alloc, pairs, key, value)?;
    Ok(old)
}

fn get(alloc: Global, pairs: &mut Pairs, key: i64) -> Result<Option<i64>, NoMemory>
    ensures { IfOk result (λ answer. (answer, pairs.new) ≡ by_list pairs.old (Command.Get key)) }
{
    let Some(value) = value_of(pairs, key) else {
        return Ok(None);
    };
    *pairs = newest(alloc, pairs, key, value)?;
    Ok(Some(value))
}

fn remove(alloc: Global, pairs: &mut Pairs, key: i64) -> Result<Option<i64>, NoMemory>
    ensures { IfOk result (λ answer. (answer, pairs.new) ≡ by_list pairs.old (Command.Remove key)) }
{
    let old = value_of(pairs, key);
    *pairs = without(alloc, pairs, key)?;
    Ok(old)
}

fn value_of(pairs: &Pairs, key: i64) -> Option<i64>
    ensures { result ≡ lookup (int_eq key) pairs.now }
{
    for pair in pairs.as_slice() {
        if key == pair.0 {
            return Some(pair.1);
        }
    }
    None
}

// The list with this pair in front, and no other of its key; what there is no room for goes from the end.
fn newest(alloc: Global, pairs: &Pairs, key: i64, value: i64) -> Result<Pairs, NoMemory>
    ensures { IfOk result (λ all. all ≡ newest key value pairs.now) }
{
    let others = without(alloc, pairs, key)?;
    let mut all = Seq::empty(alloc);
    all.push((key, value))?;
    for pair in first_of(others.as_slice(), ROOM - 1) {
        all.push(*pair)?;
    }
    Ok(all)
}

fn without(alloc: Global, pairs: &Pairs, key: i64) -> Result<Pairs, NoMemory>
    ensures { IfOk result (λ others. others ≡ without key pairs.now) }
{
    let mut others = Seq::empty(alloc);
    for pair in pairs.as_slice() {
        if key != pair.0 {
            others.push(*pair)?;
        }
    }
    Ok(others)
}

// The first items, at most so many.
fn first_of(pairs: &[(i64, i64)], most: usize) -> &[(i64, i64)]
    ensures { result.now ≡ take most pairs.now }
{
    if pairs.len() <= most {
        return pairs;
    }
    &pairs[..most]
}
