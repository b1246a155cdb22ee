//! The calls on proof states once more, each with its clauses: what an edit turns here is refused by the clauses alone.
#![tactic(auto)]

mod changing;
mod seeing;

pub use changing::{copied, replaced, shelved};
pub use seeing::{count_on_shelf, seen, term};
