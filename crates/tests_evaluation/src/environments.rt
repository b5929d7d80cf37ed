//! Names in scope: the newest last.

use crate::evaluates::Wanted::Value;
use crate::evaluates::{comes_to, env_of};
use crate::expect::expect;
use crate::plain::Plain::{self, Int};
use crate::sample::Sample::Var;
use crate::sample::{made, name};
use pt_choice::NoMemory;
use pt_eval::Env;
use pt_val::Val;
use std::alloc::Global;

fn has(alloc: Global, env: &Env, text: &'static str, wanted: i64) -> Result<bool, NoMemory> {
    comes_to(alloc, &made(alloc, &Var(text))?, env, Value(Int(wanted)))
}

const TWICE: &[(&str, Plain)] = &[("x", Int(1)), ("y", Int(2)), ("x", Int(3))];

fn the_newest_is_read(alloc: Global) -> Result<bool, NoMemory> {
    let env = env_of(alloc, TWICE)?;
    Ok(
        env.len() == 3
            && has(alloc, &env, "x", 3)?
            && has(alloc, &env, "y", 2)?
            && has(alloc, &env, "z", 0)?,
    )
}

fn the_newest_is_set(alloc: Global) -> Result<bool, NoMemory> {
    let mut env = env_of(alloc, TWICE)?;
    env.set(&name(alloc, "x")?, Val::Int(7));
    env.set(&name(alloc, "z")?, Val::Int(8));
    let is_set = env.len() == 3 && has(alloc, &env, "x", 7)? && has(alloc, &env, "y", 2)?;
    env.cut(2);
    Ok(is_set && env.len() == 2 && has(alloc, &env, "x", 1)?)
}

fn the_oldest_are_kept(alloc: Global) -> Result<bool, NoMemory> {
    let mut env = env_of(alloc, TWICE)?;
    env.cut(9);
    let are_all = env.len() == 3;
    env.cut(1);
    Ok(
        are_all
            && env.len() == 1
            && env.as_slice().len() == 1
            && has(alloc, &env, "x", 1)?
            && has(alloc, &env, "y", 0)?,
    )
}

#[test]
fn names_are_read_from_the_newest_on(rt: HostRuntime) {
    expect(&rt, 0, the_newest_is_read(rt.alloc()));
}

#[test]
fn the_newest_binding_is_set(rt: HostRuntime) {
    expect(&rt, 0, the_newest_is_set(rt.alloc()));
}

#[test]
fn a_cut_keeps_the_oldest(rt: HostRuntime) {
    expect(&rt, 0, the_oldest_are_kept(rt.alloc()));
}
