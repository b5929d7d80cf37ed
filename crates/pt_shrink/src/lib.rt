//! The reducer: a failure is made simpler until no pass makes it any simpler, or its budget is spent.
//!
//! Proposers make lists of the best record, in an order of their own, and say of each whether it is a candidate. One driver looks
//! each list up in the trail, keeps the budget and the bound on strangers, replays, and marks. So the trail is legal whatever the
//! order is, and the order may be changed without touching what is proved of the trail.
#![tactic(auto)]

mod asked;
mod attempt;
mod block;
mod leap;
mod log;
mod proposer;
mod reducer;
mod round;
mod run_on;
mod slots;
mod stride;
mod sweep;
mod variation;

pub use log::Log;
pub use reducer::shrink;
