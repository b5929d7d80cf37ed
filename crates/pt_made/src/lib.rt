//! The suite of the generated large job, which is made of a seed and a count.
//!
//! It is made as its trees and not as a text, with the places, numbers and settings that the reader would give
//! it. That it is well typed is proved, so that it is sealed without a check.
#![tactic(auto)]

mod exprs;
mod laws;
mod lines;
mod places;
mod stmts;
mod suites;

pub use laws::made_suites_are_sound;
pub use suites::made_suite;
