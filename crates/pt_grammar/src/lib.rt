//! The grammar of a suite's text: which tokens spell which tree, and what reading from left to right answers.
#![tactic(auto)]

mod sort;

pub use sort::Sort;
