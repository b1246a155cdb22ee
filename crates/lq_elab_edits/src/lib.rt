//! The calls of elaboration once more, each with its clauses: what an edit turns here is refused by the clauses alone.
#![tactic(auto)]

mod calls;

pub use calls::{elaborated, sort_found};
