//! The items of a suite's text, read from its tokens: properties, machines and checks, with their settings.
#![tactic(auto)]

mod items;
mod machines;
mod settings;

pub use items::read_items;
