//! What a reduction leaves, and what is found out of one item: its verdict, or all that its runs fail at.
//!
//! A trail has the lists that a reduction tried, in order. What makes it legal is read from its front, and says nothing of how
//! the lists were chosen; so a finding may be judged by itself, without the reducer.
#![tactic(auto)]

mod finding;
mod laws;
mod sharing;
mod shrunk;
mod survey;
mod trail;

pub use finding::{Finding, Findings, Flags, Found, Verdict};
pub use laws::tried_all_is_minimal;
pub use shrunk::Shrunk;
pub use survey::{Fault, Faults, Survey, Surveys};
pub use trail::Trail;
