//! The tokens of a suite's text, each with its place.
//!
//! A text is bytes that are UTF-8. It is cut from left to right into blanks, comments and tokens, each token the
//! longest that stands there; the grammar of suites is over the list of its tokens alone.
#![tactic(auto)]

mod bytes;
mod characters;
mod gaps;
mod hex;
mod laws;
mod lexing;
mod marks;
mod numbers;
mod places;
mod texts;
mod words;

pub use characters::LexStop;
pub use laws::{
    every_text_has_tokens, one_place_not_utf8, one_token_list, tokens_are_utf8, tokens_end_once,
};
pub use lexing::tokens_of;
pub use marks::mark_text;
pub use words::word_text;
