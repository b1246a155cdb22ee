//! Whether a variable stands in a term.

ghost use Rattle.std.specs.Prelude.{◌≡◌, IfOk};
ghost use Rattle.lq_terms.specs.Contexts.{HasContext, context_of};
ghost use Rattle.lq_terms.specs.Terms.{HasTerm, tree_of};
ghost use Rattle.lq_solving.specs.Occurs.{holds_variable};
ghost use Rattle.lq_solving.specs.Stores.{read};
ghost use Rattle.lq_solving.specs.Kept.{IsStore, StandsIn};
ghost use Rattle.lq_evars.specs.Places.{HasStore, store_of};

use lq_elab::places_in;
use lq_evars::Store;
use lq_terms::{Bank, Hypothesis, NoMemory, Node, TermId, holds_unknown};
use lq_unify::is_barred_in;

/// Whether a term holds the variable. It calls itself as often as the term is deep, and looks into no part without variables.
pub(crate) fn holds(bank: &Bank<'_>, variable: u32, term: TermId) -> bool
    requires { HasTerm bank.now term }
    ensures { result ≡ holds_variable variable (tree_of bank.now term) }
{
    if !holds_unknown(bank, term) {
        return false;
    }
    match bank.node(term) {
        Node::Prod(_, kind, rest) | Node::Lam(_, kind, rest) => {
            holds(bank, variable, *kind) || holds(bank, variable, *rest)
        }
        Node::Let(_, value, kind, rest) => {
            holds(bank, variable, *value)
                || (holds(bank, variable, *kind) || holds(bank, variable, *rest))
        }
        Node::App(function, argument) => {
            holds(bank, variable, *function) || holds(bank, variable, *argument)
        }
        Node::Evar(found, entries) => {
            if *found == variable {
                return true;
            }
            for entry in entries.terms() {
                if holds(bank, variable, *entry) {
                    return true;
                }
            }
            false
        }
        _ => false,
    }
}

/// Whether a term that stands in a context holds the variable as it reads, however large it is then.
pub(crate) fn reads_with(
    bank: &Bank<'_>,
    store: &Store,
    variable: u32,
    context: &[Hypothesis],
    term: TermId,
) -> Result<bool, NoMemory>
    requires store { HasStore bank.now store.now }
    requires kept { IsStore (store_of bank.now store.now) }
    requires context { HasContext bank.now context.now }
    requires term { HasTerm bank.now term }
    requires stands { StandsIn (store_of bank.now store.now) (context_of bank.now context.now) (tree_of bank.now term) }
    ensures { IfOk result (λ b. b ≡ holds_variable variable (read (store_of bank.now store.now) (tree_of bank.now term))) }
{
    let places = places_in(bank, context)?;
    is_barred_in(bank, store, variable, &places, term)
}
