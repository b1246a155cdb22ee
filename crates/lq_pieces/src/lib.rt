//! What a script has next, piece by piece.
#![tactic(auto)]

mod pieces;

pub use pieces::{Piece, next_piece};
