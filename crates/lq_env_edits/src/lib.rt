//! The calls of the environment once more, each with its clauses: what an edit turns here is refused by the clauses alone.
#![tactic(auto)]

mod environment;
mod families;

pub use environment::{constant_added, eliminator_type, undo_declarations};
pub use families::{family_added, taken_names_refused, type_of_family};
