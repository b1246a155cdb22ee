//! The tokens of a sentence as words, and whether they end it.
#![tactic(auto)]

mod closing;
mod spelling;

pub use closing::{is_closed, is_too_long, sentence_start};
pub use spelling::words;
