//! The expressions of a suite's text, read from its tokens.
//!
//! A reader takes tokens and how many levels of nesting are left. It answers what the grammar's reading function answers: the tree and the
//! tokens behind it, or the first fault. Reading is linear in the tokens, and recurs for nesting alone.
#![tactic(auto)]

mod building;
mod exprs;
mod operators;
mod single;

pub use exprs::read_expr;
