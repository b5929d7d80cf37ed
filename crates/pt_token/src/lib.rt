//! The tokens of which suites are written.
#![tactic(auto)]

mod token;

pub use token::{Kind, Mark, Token, Word};
