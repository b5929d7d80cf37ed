//! What is wrong with a suite whose names or types are not right: its first fault.
//!
//! The crate has definitions and their laws, and no code that runs.
#![tactic(auto)]

mod laws;

pub use laws::{
    checks_come_to_these, exprs_are_decided, stmts_are_decided, strats_are_decided,
    suites_are_decided,
};
