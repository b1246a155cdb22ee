//! Where a call elaborates.

use lq_env::Env;
use lq_terms::{Context, NameId, TermId};

/// What an Ltac name stands for in a term.
#[derive(Clone, Copy)]
pub enum Given {
    /// A term.
    Term(TermId),
    /// A name: that of a hypothesis, if there is one.
    Name(NameId),
    /// Something else.
    Other,
}

/// The declarations, the goal's context and the Ltac values.
#[derive(Clone, Copy)]
pub(crate) struct Site<'s> {
    pub(crate) env: &'s Env,
    pub(crate) outer: &'s Context,
    pub(crate) values: &'s [(NameId, Given)],
}
