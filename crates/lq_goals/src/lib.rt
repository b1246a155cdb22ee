//! Proof states: the goals in focus and on the shelf, over a store of existential variables.
#![tactic(auto)]

mod lists;
mod proof;
mod views;

pub use proof::{GoalFault, Proof};
pub use views::{GoalView, ProofView};
