//! Declarations and statements, from their terms as they are written.
#![tactic(auto)]

mod arities;
mod checking;
mod defining;
mod families;
mod faults;
mod naming;
mod stating;
mod terms;

pub use arities::arity_read;
pub use checking::check_term;
pub use defining::define;
pub use families::define_family;
pub use faults::stop_of;
pub use naming::refuse_taken;
pub use stating::state;
pub use terms::{Typed, term_in, type_in};
