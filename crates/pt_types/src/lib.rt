//! Types, each kept once and known by a number.
#![tactic(auto)]

mod shape;
mod types;

pub use shape::Shape;
pub use types::Types;
