//! The calls of reduction and of the kernel once more, each with its clauses: what an edit turns here is refused by the clauses alone.
#![tactic(auto)]

mod kernel;
mod reduction;

pub use kernel::{declared, inferred, sort_found, type_checked};
pub use reduction::{compares, normal_form, weak_form};
