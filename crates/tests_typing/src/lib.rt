//! The tests of typing: small parts of suites with their first faults, worked by hand.
#![tactic(auto)]

#[cfg(test)]
mod expect;
#[cfg(test)]
mod long;
mod rows;
#[cfg(test)]
mod types;
#[cfg(test)]
mod whole;

pub use rows::{
    call_rows, leaf_rows, machine_rows, node_rows, operator_rows, post_rows, rule_rows, stmt_rows,
    suite_rows, typed_rows,
};
