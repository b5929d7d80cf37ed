//! Whether an expression comes to what its row says.

use crate::evaluates::Wanted::{Fault, Value};
use crate::plain::{Plain, value_of};
use crate::sample::{Sample, at, made, name};
use pt_ast::Expr;
use pt_case::{Origin, What};
use pt_choice::NoMemory;
use pt_eval::{Env, EvalStop, eval};
use pt_val::same;
use std::alloc::Global;

/// A value, or what goes wrong at a column.
#[derive(Clone, Copy)]
pub enum Wanted {
    Value(Plain),
    Fault(What, u32),
}

/// The names in scope with their values.
pub type Names = &'static [(&'static str, Plain)];

pub fn env_of(alloc: Global, names: &[(&'static str, Plain)]) -> Result<Env, NoMemory> {
    let mut env = Env::empty(alloc);
    for (text, plain) in names {
        env.bind(name(alloc, text)?, value_of(alloc, plain)?)?;
    }
    Ok(env)
}

pub fn comes_to(alloc: Global, expr: &Expr, env: &Env, wanted: Wanted) -> Result<bool, NoMemory> {
    match (eval(alloc, expr, env), wanted) {
        (Ok(val), Value(plain)) => Ok(same(&val, &value_of(alloc, &plain)?)),
        (Err(EvalStop::Fault(origin)), Fault(what, column)) => Ok(is_at(origin, what, column)),
        (Err(EvalStop::NoMemory), _) => Err(NoMemory),
        (Ok(_) | Err(EvalStop::Fault(_)), _) => Ok(false),
    }
}

fn is_at(origin: Origin, what: What, column: u32) -> bool {
    origin
        == Origin::Suite {
            what,
            place: at(column),
        }
}

pub fn is_evaluated(
    alloc: Global,
    names: Names,
    sample: Sample,
    wanted: Wanted,
) -> Result<bool, NoMemory> {
    let env = env_of(alloc, names)?;
    comes_to(alloc, &made(alloc, &sample)?, &env, wanted)
}
