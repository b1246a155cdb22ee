//! New variables of the context.

ghost use Rattle.std.specs.Prelude.{ℕ, ◌≡◌, None, map, option_map, IfOk, OnOk};
ghost use Rattle.std.specs.List.{AllByRecursion};
ghost use Rattle.lq_trees.specs.Tree.{Tree};
ghost use Rattle.lq_terms.specs.Terms.{HasTerm, AreTerms, Grows, text_of, tree_of};
ghost use Rattle.lq_terms.specs.Contexts.{HasContext, context_of};
ghost use Rattle.lq_solving.specs.Elaboration.{made};
ghost use Rattle.lq_solving.specs.Kept.{IsContext, IsStore, StandsIn};
ghost use Rattle.lq_solving.specs.Stores.{own_instance};
ghost use Rattle.lq_solving.proofs.ElabKept.{Grown};
ghost use Rattle.lq_evars.specs.Places.{Places, store_of, HasStore, IsNewName, IsOwnOr};
ghost use Rattle.lq_elab.specs.Answers.{Comes, found_of};
ghost use Rattle.lq_elab.specs.Making.{Restores};
ghost use Rattle.lq_elab.specs.Agreeing.{read_fault};

use crate::agreeing::fault_of;
use crate::finding::Found;
use lq_evars::Store;
use lq_terms::{Bank, Context, Hypothesis, Instance, NameId, NoMemory, Node, TermId};
use lq_typing::ElabFault;
use std::alloc::Global;

/// The store is kept as it is now, if it is not kept yet: from then on it may change in any way.
pub(crate) fn keep(alloc: Global, store: &Store, saved: &mut Option<Store>) -> Result<(), NoMemory>
    ensures since { (before : Places) → Restores before saved.old store.now → Restores before saved.new store.now }
    ensures kept { (before later : Places) → Restores before saved.old store.now → OnOk result (Restores before saved.new later) }
{
    match saved {
        Some(_) => Ok(()),
        None => {
            let copy = store.copy(alloc)?;
            *saved = Some(copy);
            Ok(())
        }
    }
}

/// Each hypothesis for itself.
fn own_entries(bank: &mut Bank<'_>, context: &[Hypothesis]) -> Result<Vec<TermId>, NoMemory>
    requires { HasContext bank.old context.now }
    ensures are { IfOk result (λ ts. AreTerms bank.new ts.items (own_instance (context_of bank.old context.now))) }
    ensures grows { Grows bank.old bank.new }
{
    let mut entries = Vec::new(bank.allocator());
    for hypothesis in context {
        let entry = bank.make(Node::Var(hypothesis.name))?;
        entries.push(entry)?;
    }
    Ok(entries)
}

/// The same context.
fn copied(alloc: Global, context: &Context) -> Result<Context, NoMemory>
    ensures { IfOk result (λ c. c ≡ context.now) }
{
    match Vec::from_slice(alloc, context.hypotheses()) {
        Ok(hypotheses) => Ok(Context::from_hypotheses(hypotheses)),
        Err(_) => Err(NoMemory),
    }
}

/// One more variable, of a type in the context, at its own instance.
fn added(
    bank: &mut Bank<'_>,
    store: &mut Store,
    context: &Context,
    entries: Vec<TermId>,
    kind: TermId,
    name: Option<NameId>,
) -> Result<Found, ElabFault>
    requires store { HasStore bank.old store.old }
    requires context { HasContext bank.old context.now }
    requires entries { AreTerms bank.old entries.items (own_instance (context_of bank.old context.now)) }
    requires kind { HasTerm bank.old kind }
    requires new { IsNewName store.old name }
    requires own { IsOwnOr bank.old name }
    ensures answer { (left : ℕ) → Comes bank.new (found_of bank.new store.new) result
        (λ n. made (context_of bank.old context.now) (store_of bank.old store.old) (tree_of bank.old kind) (option_map (text_of bank.old) name)) left left }
    ensures has { OnOk result (HasStore bank.new store.new) }
    ensures term { IfOk result (λ f. HasTerm bank.new f.term) }
    ensures kind { IfOk result (λ f. f.kind ≡ kind) }
    ensures grows { Grows bank.old bank.new }
{
    let own = copied(bank.allocator(), context)?;
    match store.new_var(own, kind, name) {
        Ok(id) => {
            let term = bank.make(Node::Evar(id, Instance::from_terms(entries)))?;
            Ok(Found { term, kind })
        }
        Err(fault) => Err(fault_of(fault)),
    }
}

/// A new variable of a type in the context.
pub(crate) fn new_variable(
    bank: &mut Bank<'_>,
    store: &mut Store,
    saved: &mut Option<Store>,
    context: &Context,
    kind: TermId,
    name: Option<NameId>,
) -> Result<Found, ElabFault>
    requires store { HasStore bank.old store.old }
    requires kept { IsStore (store_of bank.old store.old) }
    requires context { HasContext bank.old context.now }
    requires hypotheses { IsContext (store_of bank.old store.old) (context_of bank.old context.now) }
    requires kind { HasTerm bank.old kind }
    requires stands { StandsIn (store_of bank.old store.old) (context_of bank.old context.now) (tree_of bank.old kind) }
    requires new { IsNewName store.old name }
    requires own { IsOwnOr bank.old name }
    ensures answer { (left : ℕ) → Comes bank.new (found_of bank.new store.new) result
        (λ n. made (context_of bank.old context.now) (store_of bank.old store.old) (tree_of bank.old kind) (option_map (text_of bank.old) name)) left left }
    ensures grown { OnOk result (Grown (store_of bank.old store.old) (store_of bank.new store.new)) }
    ensures has { OnOk result (HasStore bank.new store.new) }
    ensures term { IfOk result (λ f. HasTerm bank.new f.term) }
    ensures kind { IfOk result (λ f. f.kind ≡ kind) }
    ensures term_stands { IfOk result (λ f. StandsIn (store_of bank.new store.new) (context_of bank.old context.now) (tree_of bank.new f.term)) }
    ensures since { (before : Places) → Restores before saved.old store.old → Restores before saved.new store.new }
    ensures grows { Grows bank.old bank.new }
{
    keep(bank.allocator(), store, saved)?;
    let entries = own_entries(bank, context.hypotheses())?;
    bank.names_apart();
    added(bank, store, context, entries, kind, name)
}
