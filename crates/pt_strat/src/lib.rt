//! What the strategies of a suite draw.
#![tactic(auto)]

mod bounds;
mod bundles;
mod choosing;
mod drawing;
mod integers;
mod labels;
mod laws;
mod names;
mod places;
mod scope;
mod statements;
mod strategy;
mod texts;
mod valuing;
mod world;

pub use bundles::{Bundle, Bundles};
pub use labels::{node_label, part_label};
pub use laws::{
    a_derived_value_is_in_the_set, a_strategy_leaves_its_spans, a_strategy_notes_nothing,
};
pub use statements::{run_rule, run_stmts};
pub use strategy::draw;
pub use world::World;
