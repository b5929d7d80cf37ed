//! A tester of a team's own code: a cache of the toolchain's beside a plain list, bytes as hex text, and a rule of leap years with
//! a fault.
#![tactic(auto)]

ghost use Rattle.demo_lru.specs.Cache.{cache_name, cache_says};
ghost use Rattle.demo_lru.specs.Hexed.{hex_name, hex_says};
ghost use Rattle.demo_lru.specs.LeapYears.{leap_name, leap_says};
ghost use Rattle.pt_handed.specs.Checks.{IsCheck};

mod cache;
mod checks;
mod command;
mod hexed;
mod leap_years;
mod listed;
mod pieces;

use cache::cache_check;
use checks::handed;
use hexed::hex_check;
use leap_years::leap_check;
use pieces::{Append, Clear};
use pt_case::Check;
use pt_choice::NoMemory;
use pt_host::{OUT_OF_MEMORY, tester};
use pt_rules::Rule;
use std::env::Env;
use std::fs::File;
use std::process::ExitCode;
use std::rt::Files;
use std::thread::Threads;
use std::time::Clock;

fn main(rt: HostRuntime) -> ExitCode {
    tested(&rt).unwrap_or(ExitCode::from(OUT_OF_MEMORY))
}

// Makes the checks, and does what the words ask for with them.
fn tested<R: Env + Files<File = File> + Clock + Print + AllocGlobal + Threads + Sync>(
    rt: &R,
) -> Result<ExitCode, NoMemory> {
    let alloc = rt.alloc();
    let cache: Box<dyn Check> = Box::new(alloc, cache_check(alloc)?)?;
    let hex_round_trip: Box<dyn Check> = Box::new(alloc, hex_check(alloc)?)?;
    let leap_years: Box<dyn Check> = Box::new(alloc, leap_check(alloc)?)?;
    tested_with(rt, cache, hex_round_trip, leap_years)
}

// The same, where those in boxes are made.
fn tested_with<R: Env + Files<File = File> + Clock + Print + AllocGlobal + Threads + Sync>(
    rt: &R,
    cache: Box<dyn Check>,
    hex_round_trip: Box<dyn Check>,
    leap_years: Box<dyn Check>,
) -> Result<ExitCode, NoMemory>
    requires cache { IsCheck (name cache) (step cache) cache_name cache_says }
    requires hex_round_trip { IsCheck (name hex_round_trip) (step hex_round_trip) hex_name hex_says }
    requires leap_years { IsCheck (name leap_years) (step leap_years) leap_name leap_says }
{
    let alloc = rt.alloc();
    let append: Box<dyn Rule> = Box::new(alloc, Append::of(alloc)?)?;
    let clear: Box<dyn Rule> = Box::new(alloc, Clear::of(alloc)?)?;
    let checks = handed(alloc, cache, append, clear, hex_round_trip, leap_years)?;
    Ok(tester(rt, &checks))
}
