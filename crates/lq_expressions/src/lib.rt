//! Ltac expressions and commands as the program reads them. A function stands for a rule of the grammar, and reads what the
//! rule reads, or memory runs out.
#![tactic(auto)]

mod commands;
mod expressions;
mod places;
mod trees;

pub use commands::{whole_command, whole_selected, whole_tac};
