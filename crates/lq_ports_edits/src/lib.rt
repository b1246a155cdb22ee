//! The calls of the ports once more, each with its clauses: what an edit turns here is refused by the clauses alone.
#![tactic(auto)]

mod memory;
mod standard;
mod still;

pub use memory::{memory_read, memory_write, sink_faults, source_faults};
pub use standard::{standard_read, standard_write};
pub use still::{still_read, still_write};
