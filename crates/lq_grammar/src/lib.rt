//! What a script's text is made of: `specs/` defines its characters, tokens and sentences.
#![tactic(auto)]

mod fault;
mod selector;
mod token;

pub use fault::LexFault;
pub use selector::RangePart;
pub use token::{Class, Symbol, Token, TokenKind};
