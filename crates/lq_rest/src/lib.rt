//! What can be looked at of a text that goes on behind its end.
#![tactic(auto)]

mod inside;
mod looking;

pub use looking::looked_at;
