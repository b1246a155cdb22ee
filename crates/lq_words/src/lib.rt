//! Terms and families written in words, as rows write them. What the callers of the crates below promise of a term is
//! looked up when it is made, so that rows need no proof of it.
#![tactic(auto)]

mod families;
mod terms;
mod words;
mod written;

pub use families::{Written, closed, family, parse_family, taken_family};
pub use terms::{RowFault, build};
pub use words::sort_of;
pub use written::{are_sorts, is_closed, is_scoped, is_sort, is_written, listed, reaches, stands};
