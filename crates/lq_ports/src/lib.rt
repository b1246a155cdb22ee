//! Where the bytes of a script come from and where the answers go: a source, a sink, and their counts of faults.
#![tactic(auto)]

mod memory;
mod ports;
mod schedule;
mod standard;
mod still;

pub use memory::{MemorySink, MemorySource};
pub use ports::{PortFault, Sink, Source};
pub use standard::{StdSink, StdSource};
pub use still::{StillSink, StillSource};
