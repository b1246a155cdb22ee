//! Heads are read: the value of a head variable is put in for it, as long as the head has one.

ghost use Rattle.std.specs.Prelude.{◌≡◌, IfOk, IfSome, IfNone};
ghost use Rattle.lq_terms.specs.Terms.{tree_of, Grows};
ghost use Rattle.lq_solving.specs.Stores.{read};
ghost use Rattle.lq_solving.specs.Kept.{IsStore};
ghost use Rattle.lq_evars.specs.Places.{store_of, HasStore};
ghost use Rattle.lq_unify.specs.Heads.{HasOpenHead, IsHead};
ghost use Rattle.lq_unify.specs.Exposing.{IsOfStore, IsHeadValue, IsUnfolded};

use crate::givens::filled;
use crate::spines::{applied, spine};
use lq_evars::Store;
use lq_terms::{Bank, Bodies, NoMemory, Node, TermId};

/// The value of a variable at its instance, neither of them read, if the term is a variable that has a value.
fn head_value(bank: &mut Bank<'_>, store: &Store, head: TermId) -> Result<Option<TermId>, NoMemory>
    requires store { HasStore bank.old store.now }
    requires kept { IsStore (store_of bank.old store.now) }
    requires head { IsOfStore bank.old (store_of bank.old store.now) head }
    ensures value { IfOk result (λ o. IfSome o (IsHeadValue (store_of bank.old store.now) (tree_of bank.old head) bank.new)) }
    ensures open { IfOk result (λ o. IfNone o (IsHead (tree_of bank.old head) → HasOpenHead (store_of bank.old store.now).values (tree_of bank.old head))) }
    ensures grows { Grows bank.old bank.new }
{
    let Node::Evar(variable, entries) = bank.node(head) else {
        return Ok(None);
    };
    store.values_stand();
    let Some((context, value)) = store.body(*variable) else {
        return Ok(None);
    };
    let entries = Vec::from_slice(bank.allocator(), entries.terms())?;
    let term = filled(bank, context.hypotheses(), entries.as_slice(), value)?;
    Ok(Some(term))
}

/// The term with the value of its head variable in that one's place, if its head is a variable that has a value.
fn unfolded(bank: &mut Bank<'_>, store: &Store, term: TermId) -> Result<Option<TermId>, NoMemory>
    requires store { HasStore bank.old store.now }
    requires kept { IsStore (store_of bank.old store.now) }
    requires term { IsOfStore bank.old (store_of bank.old store.now) term }
    ensures unfolded { IfOk result (λ o. IfSome o (IsUnfolded (store_of bank.old store.now) (tree_of bank.old term) bank.new)) }
    ensures open { IfOk result (λ o. IfNone o (HasOpenHead (store_of bank.old store.now).values (tree_of bank.old term))) }
    ensures grows { Grows bank.old bank.new }
{
    let application = spine(bank, term)?;
    match head_value(bank, store, application.head)? {
        Some(head) => {
            let term = applied(bank, head, application.arguments.as_slice())?;
            Ok(Some(term))
        }
        None => Ok(None),
    }
}

/// The term with values put in for its head, as long as that is a variable that has one: it reads the same. It refuses for want of
/// memory alone.
pub fn exposed(bank: &mut Bank<'_>, store: &Store, term: TermId) -> Result<TermId, NoMemory>
    requires store { HasStore bank.old store.now }
    requires kept { IsStore (store_of bank.old store.now) }
    requires term { IsOfStore bank.old (store_of bank.old store.now) term }
    ensures term { IfOk result (IsOfStore bank.new (store_of bank.old store.now)) }
    ensures reads { IfOk result (λ t. read (store_of bank.old store.now) (tree_of bank.new t) ≡ read (store_of bank.old store.now) (tree_of bank.old term)) }
    ensures open { IfOk result (λ t. HasOpenHead (store_of bank.old store.now).values (tree_of bank.new t)) }
    ensures grows { Grows bank.old bank.new }
{
    let mut exposed = term;
    while let Some(next) = unfolded(bank, store, exposed)? {
        exposed = next;
    }
    Ok(exposed)
}
