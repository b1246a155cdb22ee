//! Equalities.

ghost use Rattle.std.specs.Prelude.{◌≡◌};
ghost use Rattle.lq_terms.specs.Terms.{HasTerm, tree_of};
ghost use Rattle.lq_prims.specs.Equalities.{is_eq, IsAppliedOr, IsEqualityOr};

use lq_terms::{Bank, Node, TermId};

/// An equality in parts: its type, its left and its right side.
#[derive(Clone, Copy)]
pub(crate) struct Equality {
    pub(crate) kind: TermId,
    pub(crate) left: TermId,
    pub(crate) right: TermId,
}

/// The function and the argument of a term that is an application as it stands.
fn applied(bank: &Bank<'_>, term: TermId) -> Option<(TermId, TermId)>
    requires { HasTerm bank.now term }
    ensures { IsAppliedOr bank.now result term }
{
    match bank.node(term) {
        Node::App(function, argument) => Some((*function, *argument)),
        _ => None,
    }
}

/// Whether a term is the inductive type `eq`.
fn is_eq(bank: &Bank<'_>, term: TermId) -> bool
    requires { HasTerm bank.now term }
    ensures { result ≡ is_eq (tree_of bank.now term) }
{
    match bank.node(term) {
        Node::Ind(family) => bank.text(*family) == "eq",
        _ => false,
    }
}

/// The equality that a term is as it stands.
pub(crate) fn equality_of(bank: &Bank<'_>, term: TermId) -> Option<Equality>
    requires { HasTerm bank.now term }
    ensures { IsEqualityOr bank.now result term }
{
    let (two, right) = applied(bank, term)?;
    let (one, left) = applied(bank, two)?;
    let (head, kind) = applied(bank, one)?;
    if is_eq(bank, head) {
        Some(Equality { kind, left, right })
    } else {
        None
    }
}
