//! Rules that are written in code, and machines of them.
#![tactic(auto)]

mod machine;
mod rule;
mod run;
mod stepping;

pub use machine::{MAX_RULES, MAX_STEPS, RuleMachine};
pub use rule::Rule;
pub use stepping::stepped;
