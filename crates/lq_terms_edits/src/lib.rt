//! The calls of the bank of terms once more, each with its clauses: what an edit turns here is refused by the clauses alone.
#![tactic(auto)]

mod bank;
mod changes;
mod ticks;

pub use bank::{
    copied, fits_limits, has_hypothesis, has_unknown, imported, is_same, loose_variables, made,
    named, undo_bank,
};
pub use changes::{lifted, not_taken, substituted};
pub use ticks::taken;
