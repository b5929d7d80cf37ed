//! Tokens taken one by one, and types read from them.
//!
//! What is read is the tree with the tokens behind it, or the first fault, as the grammar's reading functions answer.
#![tactic(auto)]

mod stop;
mod taking;
mod terminal;
mod types;

pub use stop::{Stop, refusal};
pub use taking::{
    after, bytes, deeper, limited, magnitude, name, number, one, open, place, starts, text, word,
};
pub use terminal::Terminal;
pub use types::read_type;
