//! Strategies that are written in code, and properties over what they draw.
#![tactic(auto)]

mod blobs;
mod bools;
mod draw;
mod fail;
mod filter;
mod flat_map;
mod ints;
mod laws;
mod list_of;
mod map;
mod one_of;
mod pair;
mod property;
mod sampled;
mod sharing;
mod shown;
mod strategy;
mod texts;

pub use blobs::Blobs;
pub use bools::Bools;
pub use draw::draw_from;
pub use fail::DrawFail;
pub use filter::{Filter, Predicate};
pub use flat_map::{FlatMap, Next};
pub use ints::Ints;
pub use laws::{a_derived_value_is_in_the_set, a_property_shows_what_was_drawn};
pub use list_of::ListOf;
pub use map::{Function, Map};
pub use one_of::OneOf;
pub use pair::Pair;
pub use property::{Judge, Property};
pub use sampled::Sampled;
pub use shown::ToVal;
pub use strategy::Strategy;
pub use texts::Texts;
