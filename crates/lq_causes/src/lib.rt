//! The refusals of the layers as causes of a sentence.
#![tactic(auto)]

mod stops;

pub use stops::Stop;
