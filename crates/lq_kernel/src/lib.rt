//! The kernel: it infers types, checks terms and takes declarations, at a price in ticks.
#![tactic(auto)]

mod arities;
mod closed;
mod constants;
mod declaration;
mod declaring;
mod families;
mod faults;
mod forms;
mod inside;
mod kernel;
mod looking;
mod lookups;
mod telescopes;
mod typing;
mod variables;

pub use declaration::Declaration;
pub use faults::KernelFault;
pub use kernel::{check, declare, infer, infer_with, sort_of};
pub use lookups::{constant_type, constructor_type, eliminator_type, family_type};
pub use variables::Variables;
