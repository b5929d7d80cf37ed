//! The program: a tester over the example checks `never`, `always`, `sorted_pair` and `counter`.
#![tactic(auto)]

ghost use Rattle.pt_handed.specs.Checks.{IsCheck};
ghost use Rattle.pt_checks.specs.Checks.{never_name, never_says, always_name, always_says, sorted_pair_name, sorted_pair_says};

use pt_case::Check;
use pt_checks::{Add, Always, Never, Reset, handed, sorted_pair};
use pt_choice::NoMemory;
use pt_host::{OUT_OF_MEMORY, tester};
use pt_rules::Rule;
use std::env::Env;
use std::fs::File;
use std::process::ExitCode;
use std::rt::Files;
use std::thread::Threads;
use std::time::Clock;

fn main(rt: HostRuntime) -> ExitCode {
    tested(&rt).unwrap_or(ExitCode::from(OUT_OF_MEMORY))
}

// Makes the checks, and does what the words ask for with them.
fn tested<R: Env + Files<File = File> + Clock + Print + AllocGlobal + Threads + Sync>(
    rt: &R,
) -> Result<ExitCode, NoMemory> {
    let alloc = rt.alloc();
    let never: Box<dyn Check> = Box::new(alloc, Never::of(alloc)?)?;
    let always: Box<dyn Check> = Box::new(alloc, Always::of(alloc)?)?;
    let sorted_pair: Box<dyn Check> = Box::new(alloc, sorted_pair(alloc)?)?;
    tested_with(rt, never, always, sorted_pair)
}

// The same, where those in boxes are made.
fn tested_with<R: Env + Files<File = File> + Clock + Print + AllocGlobal + Threads + Sync>(
    rt: &R,
    never: Box<dyn Check>,
    always: Box<dyn Check>,
    sorted_pair: Box<dyn Check>,
) -> Result<ExitCode, NoMemory>
    requires never { IsCheck (name never) (step never) never_name never_says }
    requires always { IsCheck (name always) (step always) always_name always_says }
    requires sorted_pair { IsCheck (name sorted_pair) (step sorted_pair) sorted_pair_name sorted_pair_says }
{
    let alloc = rt.alloc();
    let add: Box<dyn Rule> = Box::new(alloc, Add::of(alloc)?)?;
    let reset: Box<dyn Rule> = Box::new(alloc, Reset::of(alloc)?)?;
    let checks = handed(alloc, never, always, sorted_pair, add, reset)?;
    Ok(tester(rt, &checks))
}
