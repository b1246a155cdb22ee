//! Types of terms over a store.
#![tactic(auto)]

mod asking;
mod faults;
mod forms;
mod inferring;
mod kinds;
mod machine;
mod resuming;
mod singles;
mod unknowns;
mod waiting;

pub use faults::ElabFault;
pub use inferring::type_of;
