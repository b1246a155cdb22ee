//! Elaboration.
#![tactic(auto, using(lq_ast::proofs::PlainLaws::plain_laws))]

mod agreeing;
mod asking;
mod binding;
mod blanks;
mod elaborating;
mod ending;
mod entering;
mod finding;
mod forms;
mod frames;
mod functions;
mod globals;
mod heads;
mod leaves;
mod machine;
mod making;
mod naming;
mod resuming;
mod scope;
mod settling;
mod shutting;
mod sites;
mod starting;
mod turns;
mod viewing;
mod views;

pub use elaborating::{Elaborated, Written, elaborate};
pub use forms::sort_of;
pub use naming::places_in;
pub use shutting::filled;
pub use sites::Given;
