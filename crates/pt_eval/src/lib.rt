//! The values of expressions, their faults, and what they cost.
#![tactic(auto)]

mod applying;
mod calling;
mod comparing;
mod env;
mod evaluating;
mod indexing;
mod laws;
mod reading;
mod seen;
mod sharing;
mod stop;
mod walking;

pub use env::Env;
pub use evaluating::eval;
pub use laws::values_keep_types;
pub use reading::{members, number, truth};
pub use stop::EvalStop;
