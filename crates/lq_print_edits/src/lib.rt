//! The calls of printing once more, each with its clauses: what an edit turns here is refused by the clauses alone.
#![tactic(auto)]

mod printing;

pub use printing::{checked, listed, shown, told, written};
