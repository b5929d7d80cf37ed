//! Typed choices, the kinds that ask for them, and the lists that they stand in.
//!
//! A generator asks for choices of stated kinds, and the list of its choices alone determines the
//! example. So everything above this crate speaks of an example as a list of choices.
#![tactic(auto)]

mod choice;
mod choices;
mod equality;
mod kind;
mod memory;
mod octets;
mod order;
mod seq;
mod sharing;

pub use choice::Choice;
pub use choices::Choices;
pub use equality::equal_keys_are_the_same;
pub use kind::{Kind, Shape, admits, fit, simplest};
pub use memory::NoMemory;
pub use octets::Octets;
pub use order::{cmp_choice, orders_are_total, shortlex};
pub use seq::Seq;
pub use sharing::may_be_shared;
