//! Whether a sentence as it was read holds nothing that is not built yet.
#![tactic(auto)]

mod expressions;
mod parts;
mod sentences;

pub use expressions::expression_built;
pub use parts::Parts;
pub use sentences::sentence_built;
