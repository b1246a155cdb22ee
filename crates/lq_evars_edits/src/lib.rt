//! The calls of the store of existential variables once more, each with its clauses: what an edit turns here is refused by the
//! clauses alone.
#![tactic(auto)]

mod reading;
mod variables;

pub use reading::{assigned, is_same, read_through};
pub use variables::{back, copied, made, named, number_of_variables, retyped, value_of};
