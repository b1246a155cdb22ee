//! What was elaborated.

use lq_terms::TermId;

/// A term and its type.
#[derive(Clone, Copy)]
pub(crate) struct Found {
    pub(crate) term: TermId,
    pub(crate) kind: TermId,
}
