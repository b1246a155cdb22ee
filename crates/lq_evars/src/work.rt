//! What is left to do while a term is read.

use lq_terms::TermId;

/// An item of work.
#[derive(Clone, Copy)]
pub(crate) enum Work {
    /// To read a term.
    Visit(TermId),
    /// To put a term together from its parts as they read.
    Build(TermId),
}
