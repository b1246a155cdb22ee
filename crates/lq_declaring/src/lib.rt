//! What declarations ask of the kernel, once their terms are there.
#![tactic(auto)]

mod closing;
mod constants;
mod families;
mod rows;
mod unsolved;

pub use closing::declare_proved;
pub use constants::{all_solved, both_read, declare_found, declare_written};
pub use families::declare_inductive;
pub use rows::{Row, RowFault, row_of};
pub use unsolved::unsolved_from;
