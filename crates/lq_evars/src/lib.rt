//! The store of existential variables.
#![tactic(auto)]

mod comparing;
mod copying;
mod filling;
mod labels;
mod noting;
mod reading;
mod rebuilding;
mod scopes;
mod store;
mod work;

pub use store::{Store, StoreFault, Variable};
