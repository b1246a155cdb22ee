//! The tokens of a script and the ends of its sentences.
#![tactic(auto)]

mod characters;
mod classes;
mod comments;
mod cutting;
mod found;
mod numbers;
mod piece;
mod runs;
mod selectors;
mod strings;
mod symbols;
mod view;

pub use classes::class_of;
pub use cutting::{bound, cut, is_space};
pub use found::{Found, scan};
pub use lq_grammar::{LexFault, Symbol, Token, TokenKind};
pub use numbers::digits;
pub use piece::{Piece, Tokens};
pub use runs::{Run, run_end};
pub use selectors::closes;
pub use view::{Front, View};
