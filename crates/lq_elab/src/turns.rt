//! What comes next.

use crate::finding::Found;
use crate::views::Asked;
use lq_terms::TermId;

/// What comes next.
#[derive(Clone, Copy)]
pub(crate) enum Turn<'t> {
    /// A term is to be elaborated, with the type that is wanted of it if there is one.
    Ask(Asked<'t>, Option<TermId>),
    /// A term was elaborated.
    Found(Found),
}
