//! The nodes of a term as they are printed.

use lq_terms::NameId;
use lq_trees::Sort;

/// A binder: its own name, whether its body uses it, and where the names of the body stand among all names.
#[derive(Clone, Copy)]
pub(crate) struct Binder {
    pub(crate) name: NameId,
    pub(crate) is_used: bool,
    pub(crate) low: usize,
    pub(crate) high: usize,
}

/// A node of a term.
#[derive(Clone, Copy)]
pub(crate) enum Piece {
    /// A bound variable.
    Bound(u32),
    /// A hypothesis or a global, by the number of its text.
    Named(usize),
    /// A sort.
    Sort(Sort),
    /// An application.
    Applied,
    /// A product.
    Product(Binder),
    /// A function.
    Function(Binder),
    /// A local definition.
    Local(Binder),
    /// An existential variable.
    Unknown(u32),
}
