//! Names and types of a suite: a suite that is well typed is sealed, and of any other the first fault is answered.
#![tactic(auto)]

mod base;
mod checker;
mod exprs;
mod fault;
mod functions;
mod machines;
mod seen;
mod stack;
mod stmts;
mod strats;
mod suites;
mod table;

pub use fault::TypeFault;
pub use suites::{check_suite, find_fault};
