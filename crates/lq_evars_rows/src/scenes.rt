//! A store whose variables have no hypotheses, and the sort of propositions as their type.

ghost use Rattle.std.specs.Prelude.{◌≡◌, IsTrue, IfOk};
ghost use Rattle.lq_terms.specs.Terms.{HasTerm, Grows};
ghost use Rattle.lq_evars_rows.specs.Looks.{HasSimple, IsBare, IsSort, IsKept};

use crate::rows::RowFault;
use lq_evars::Store;
use lq_terms::{Bank, Context, Instance, NoMemory, Node, TermId};
use lq_trees::Sort;

/// The sort of propositions.
pub(crate) fn sort(bank: &mut Bank<'_>) -> Result<TermId, NoMemory>
    ensures is { IfOk result (IsSort bank.new) }
    ensures grows { Grows bank.old bank.new }
{
    bank.make(Node::Sort(Sort::Base))
}

/// A variable, which has no entries.
#[tactic(auto, using(crate::proofs::Keeping::keeping))]
pub(crate) fn link(bank: &mut Bank<'_>, variable: u32) -> Result<TermId, NoMemory>
    ensures simple { IfOk result (HasSimple bank.new variable) }
    ensures grows { Grows bank.old bank.new }
{
    let entries = Instance::new(bank.allocator());
    bank.make(Node::Evar(variable, entries))
}

/// The successor of a term.
#[tactic(auto, using(crate::proofs::Keeping::keeping))]
pub(crate) fn successor(
    bank: &mut Bank<'_>,
    variable: u32,
    term: TermId,
) -> Result<TermId, NoMemory>
    requires { HasSimple bank.old variable term }
    ensures simple { IfOk result (HasSimple bank.new variable) }
    ensures grows { Grows bank.old bank.new }
{
    let nat = bank.name("nat")?;
    let successor = bank.make(Node::Ctor(nat, 1))?;
    bank.make(Node::App(successor, term))
}

/// A term, applied to itself.
pub(crate) fn twice(bank: &mut Bank<'_>, variable: u32, term: TermId) -> Result<TermId, NoMemory>
    requires { HasSimple bank.old variable term }
    ensures simple { IfOk result (HasSimple bank.new variable) }
    ensures grows { Grows bank.old bank.new }
{
    let _variable = variable;
    bank.make(Node::App(term, term))
}

/// One more variable.
pub(crate) fn add(bank: &Bank<'_>, store: &mut Store, sort: TermId) -> Result<u32, RowFault>
    requires kept { IsKept bank.now store.old }
    requires sort { IsSort bank.now sort }
    ensures { IsKept bank.now store.new }
{
    let context = Context::new(bank.allocator());
    match store.new_var(context, sort, None) {
        Ok(id) => Ok(id),
        Err(fault) => Err(RowFault::from(fault)),
    }
}

/// Whether a variable stands in the store without hypotheses.
pub(crate) fn is_bare(bank: &Bank<'_>, store: &Store, id: u32) -> bool
    ensures { IsTrue result → IsBare bank.now store.now id }
{
    let _bank = bank;
    if id >= store.count() {
        return false;
    }
    store.context(id).hypotheses().is_empty()
}

/// A value for a variable that has none, which names another one that has none.
pub(crate) fn give(
    bank: &mut Bank<'_>,
    store: &mut Store,
    id: u32,
    next: u32,
    body: TermId,
) -> Result<(), RowFault>
    requires kept { IsKept bank.old store.old }
    requires body { HasSimple bank.old next body }
    ensures kept { IsKept bank.new store.new }
    ensures grows { Grows bank.old bank.new }
{
    if id >= store.count() || !is_bare(bank, store, next) || id == next {
        return Err(RowFault::Malformed);
    }
    if store.value(id).is_some() || store.value(next).is_some() {
        return Err(RowFault::Malformed);
    }
    match store.assign(bank, id, body) {
        Ok(()) => Ok(()),
        Err(fault) => Err(RowFault::from(fault)),
    }
}

/// A variable as it reads.
pub(crate) fn read_variable(bank: &mut Bank<'_>, store: &Store, id: u32) -> Result<TermId, RowFault>
    requires { IsKept bank.old store.now }
    ensures has { IfOk result (HasTerm bank.new) }
    ensures grows { Grows bank.old bank.new }
{
    if !is_bare(bank, store, id) {
        return Err(RowFault::Malformed);
    }
    let term = link(bank, id)?;
    match store.read(bank, term) {
        Ok(found) => Ok(found),
        Err(fault) => Err(RowFault::from(fault)),
    }
}

/// Whether two terms as they read are equal.
pub(crate) fn alike(
    bank: &Bank<'_>,
    store: &Store,
    variable: u32,
    left: TermId,
    other: u32,
    right: TermId,
) -> Result<bool, RowFault>
    requires kept { IsKept bank.now store.now }
    requires left { HasSimple bank.now variable left }
    requires right { HasSimple bank.now other right }
{
    if !is_bare(bank, store, variable) {
        return Err(RowFault::Malformed);
    }
    if !is_bare(bank, store, other) {
        return Err(RowFault::Malformed);
    }
    match store.same(bank, left, right) {
        Ok(same) => Ok(same),
        Err(_) => Err(RowFault::NoMemory),
    }
}
