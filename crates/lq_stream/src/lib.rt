//! Streams of successes: an abstract machine's steps, with a stack of continuations and a stack of choices.
#![tactic(auto)]

mod machine;
mod moves;
mod running;
mod stacks;
mod steps;
mod stop;
mod stream;
mod turning;
mod turns;

pub use machine::Machine;
pub use moves::{Move, StepFault};
pub use stacks::{Answer, Demand, StreamFault};
pub use stop::{NoStop, Stop};
pub use stream::Stream;
