//! The strategies of a suite's text, read from its tokens. Each is read with the number of its first node, and gives the number of the next.
#![tactic(auto)]

mod leaves;
mod strats;

pub use strats::read_strat;
