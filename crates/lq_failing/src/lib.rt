//! `Fail`: what becomes of a sentence behind it.
#![tactic(auto)]

mod failing;

pub use failing::failed;
