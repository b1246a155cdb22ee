//! Products and local definitions.

ghost use Rattle.lq_terms.specs.Terms.{HasTerm};
ghost use Rattle.lq_prims.specs.Binders.{IsBinderOr};

use lq_terms::{Bank, NameId, Node, TermId};

/// A product, or a local definition, in parts.
#[derive(Clone, Copy)]
pub(crate) enum Binder {
    /// The binder, its type, the rest.
    Product(NameId, TermId, TermId),
    /// The binder, its value, its type, the rest.
    Definition(NameId, TermId, TermId, TermId),
}

/// The product or local definition that a term is as it stands.
pub(crate) fn binder_of(bank: &Bank<'_>, term: TermId) -> Option<Binder>
    requires { HasTerm bank.now term }
    ensures { IsBinderOr bank.now result term }
{
    match bank.node(term) {
        Node::Prod(binder, kind, rest) => Some(Binder::Product(*binder, *kind, *rest)),
        Node::Let(binder, value, kind, rest) => {
            Some(Binder::Definition(*binder, *value, *kind, *rest))
        }
        _ => None,
    }
}
