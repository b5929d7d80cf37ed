//! Blocks of runs and of replays, on worker threads.
//!
//! The answer of each call is the one-thread answer, whatever the number of workers and in whatever order they go.
#![tactic(auto)]

mod hit;
mod runs;
mod search;
mod sharing;
mod word;

pub use hit::Hit;
pub use runs::batch;
pub use search::first_better;
