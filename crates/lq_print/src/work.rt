//! What is left to do while a term is spelled.

use crate::pieces::Piece;
use lq_terms::{NameId, TermId};

/// A binder whose body is being spelled: its name, how many names there were before the body, and its type.
#[derive(Clone, Copy)]
pub(crate) struct Scope {
    pub(crate) name: NameId,
    pub(crate) low: usize,
    pub(crate) kind: TermId,
}

/// An item of work.
#[derive(Clone, Copy)]
pub(crate) enum Work {
    /// To spell a term.
    Visit(TermId),
    /// To end a product's binder, and to spell its type.
    Product(Scope),
    /// To end a function's binder, and to spell its type.
    Function(Scope),
    /// To end a local definition's binder, and to spell its value and its type.
    Local(Scope, TermId),
    /// To put a piece.
    Emit(Piece),
    /// To leave out the pieces from that one on, which are those of a variable's instance, and to put the variable.
    Hide(u32, usize),
}
