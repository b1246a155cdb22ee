//! Unification.
#![tactic(auto)]

mod applications;
mod asking;
mod exposing;
mod faults;
mod forms;
mod frames;
mod givens;
mod holding;
mod inverting;
mod machine;
mod pairs;
mod parts;
mod reducing;
mod replacing;
mod resuming;
mod solving;
mod spines;
mod splitting;
mod turns;
mod unifying;

pub use exposing::exposed;
pub use faults::UnifyFault;
pub use givens::filled;
pub use holding::is_barred_in;
pub use unifying::unify;
