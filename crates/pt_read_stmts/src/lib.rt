//! The statements of a suite's text, read from its tokens.
#![tactic(auto)]

mod stmts;

pub use stmts::{read_assigned, read_ended, read_rule_stmts, read_stmts};
