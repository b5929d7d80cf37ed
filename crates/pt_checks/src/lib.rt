//! The example checks of the program: `never`, `always`, `sorted_pair` and `counter`.
#![tactic(auto)]

mod always;
mod checks;
mod counter;
mod in_order;
mod never;

pub use always::Always;
pub use checks::handed;
pub use counter::{Add, Reset};
pub use in_order::{InOrder, SortedPair, sorted_pair};
pub use never::Never;
