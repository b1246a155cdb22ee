//! What is declared.

use lq_env::Family;
use lq_terms::{NameId, TermId};

/// A declaration. What it names lies in one bank.
#[derive(Drop)]
pub enum Declaration {
    /// A constant.
    Constant {
        /// Its name.
        name: NameId,
        /// Its type.
        kind: TermId,
        /// What it stands for.
        body: TermId,
        /// Whether its body is never put in its place.
        opaque: bool,
    },
    /// An inductive family.
    Inductive(Family),
}
