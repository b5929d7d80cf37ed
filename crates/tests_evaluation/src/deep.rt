//! Values as deep as a suite can make them, on several threads.

use crate::expect::expect;
use crate::sample::Sample::{self, Call, Var};
use crate::sample::{made, name};
use pt_ast::Func::Labels;
use pt_choice::{NoMemory, Seq};
use pt_eval::{Env, EvalStop, eval, members};
use pt_val::{Val, Vals, same, show, size};
use std::alloc::Global;
use std::thread::{self, Threads};

/// A rule that repeats `set t = node(0, [t]);` comes no deeper before that costs too much.
const TREE_LEVELS: u32 = 6_660;

/// And one that repeats `let b = [a];` comes no deeper.
const LIST_LEVELS: u32 = 10_000;

fn deep_tree(alloc: Global) -> Result<Val, NoMemory> {
    let mut tree = Val::Node(0, Seq::empty(alloc));
    for _ in 0..TREE_LEVELS {
        let mut children: Vals = Seq::empty(alloc);
        children.push(tree)?;
        tree = Val::Node(0, children);
    }
    Ok(tree)
}

fn deep_list(alloc: Global) -> Result<Val, NoMemory> {
    let mut list = Val::Int(0);
    for _ in 0..LIST_LEVELS {
        let mut inner: Vals = Seq::empty(alloc);
        inner.push(list)?;
        list = Val::List(inner);
    }
    Ok(list)
}

const LABELS: Sample = Call(1, Labels, &[Var("t")]);

fn has_all_labels(alloc: Global) -> Result<bool, NoMemory> {
    let mut env = Env::empty(alloc);
    env.bind(name(alloc, "t")?, deep_tree(alloc)?)?;
    match eval(alloc, &made(alloc, &LABELS)?, &env) {
        Ok(labels) => Ok(members(&labels).len() == TREE_LEVELS as usize + 1),
        Err(EvalStop::Fault(_)) => Ok(false),
        Err(EvalStop::NoMemory) => Err(NoMemory),
    }
}

fn is_copied(alloc: Global) -> Result<bool, NoMemory> {
    let list = deep_list(alloc)?;
    let copy = list.copy()?;
    Ok(
        same(&list, &copy)
            && size(&copy) == u64::from(LIST_LEVELS) + 1
            && show(alloc, &copy)?.len() == 2 * LIST_LEVELS as usize + 1,
    )
}

fn all_hold(each: &[Result<bool, NoMemory>]) -> bool {
    each.iter().all(|holds| *holds == Ok(true))
}

fn labels_on_threads(rt: &(impl Threads + Sync), alloc: Global) -> Result<bool, NoMemory> {
    let each = thread::map_indices(rt, alloc, 4, &|_| has_all_labels(alloc))?;
    Ok(all_hold(each.as_slice()))
}

fn copies_on_threads(rt: &(impl Threads + Sync), alloc: Global) -> Result<bool, NoMemory> {
    let each = thread::map_indices(rt, alloc, 4, &|_| is_copied(alloc))?;
    Ok(all_hold(each.as_slice()))
}

#[test]
fn the_labels_of_a_deep_tree_are_taken(rt: HostRuntime) {
    expect(&rt, 0, labels_on_threads(&rt, rt.alloc()));
}

#[test]
fn a_deep_list_is_copied_compared_and_dropped(rt: HostRuntime) {
    expect(&rt, 0, copies_on_threads(&rt, rt.alloc()));
}
