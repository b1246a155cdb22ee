//! Terms without variables, and variables and values of a proof's store.

ghost use Rattle.std.specs.Prelude.{IfOk};
ghost use Rattle.lq_terms.specs.Terms.{Grows};
ghost use Rattle.lq_goals_rows.specs.Looks.{IsKept, IsSort, HasPlain};

use crate::rows::RowFault;
use lq_goals::Proof;
use lq_terms::{Bank, Context, NoMemory, Node, TermId};
use lq_trees::Sort;

/// The sort of propositions.
pub(crate) fn sort(bank: &mut Bank<'_>) -> Result<TermId, NoMemory>
    ensures is { IfOk result (IsSort bank.new) }
    ensures grows { Grows bank.old bank.new }
{
    bank.make(Node::Sort(Sort::Base))
}

/// A term that is a sort.
fn plain_sort(bank: &mut Bank<'_>) -> Result<TermId, NoMemory>
    ensures is { IfOk result (HasPlain bank.new) }
    ensures grows { Grows bank.old bank.new }
{
    bank.make(Node::Sort(Sort::Base))
}

/// The successor of a term.
#[tactic(auto, using(crate::proofs::Keeping::keeping))]
fn successor(bank: &mut Bank<'_>, term: TermId) -> Result<TermId, NoMemory>
    requires { HasPlain bank.old term }
    ensures is { IfOk result (HasPlain bank.new) }
    ensures grows { Grows bank.old bank.new }
{
    let nat = bank.name("nat")?;
    let successor = bank.make(Node::Ctor(nat, 1))?;
    bank.make(Node::App(successor, term))
}

/// A term, applied to itself.
fn twice(bank: &mut Bank<'_>, term: TermId) -> Result<TermId, NoMemory>
    requires { HasPlain bank.old term }
    ensures is { IfOk result (HasPlain bank.new) }
    ensures grows { Grows bank.old bank.new }
{
    bank.make(Node::App(term, term))
}

/// So many successors of a sort.
#[tactic(auto, using(crate::proofs::Keeping::keeping))]
pub(crate) fn deep(bank: &mut Bank<'_>, many: u32) -> Result<TermId, RowFault>
    ensures is { IfOk result (HasPlain bank.new) }
    ensures grows { Grows bank.old bank.new }
{
    let mut whole = plain_sort(bank)?;
    for _ in 0..many {
        whole = successor(bank, whole)?;
    }
    Ok(whole)
}

/// A sort, so many times applied to itself.
#[tactic(auto, using(crate::proofs::Keeping::keeping))]
pub(crate) fn wide(bank: &mut Bank<'_>, many: u32) -> Result<TermId, RowFault>
    ensures is { IfOk result (HasPlain bank.new) }
    ensures grows { Grows bank.old bank.new }
{
    let mut whole = plain_sort(bank)?;
    for _ in 0..many {
        whole = twice(bank, whole)?;
    }
    Ok(whole)
}

/// One more variable, whose number is the answer.
pub(crate) fn make(bank: &Bank<'_>, proof: &mut Proof, sort: TermId) -> Result<u32, RowFault>
    requires kept { IsKept bank.now proof.old }
    requires sort { IsSort bank.now sort }
    ensures { IsKept bank.now proof.new }
{
    let context = Context::new(bank.allocator());
    match proof.store_mut().new_var(context, sort, None) {
        Ok(id) => Ok(id),
        Err(fault) => Err(RowFault::from(fault)),
    }
}

/// The sort as the value of a variable that has none.
pub(crate) fn give(
    bank: &mut Bank<'_>,
    proof: &mut Proof,
    sort: TermId,
    id: u32,
) -> Result<(), RowFault>
    requires kept { IsKept bank.old proof.old }
    requires sort { IsSort bank.old sort }
    ensures kept { IsKept bank.new proof.new }
    ensures grows { Grows bank.old bank.new }
{
    if id >= proof.store().count() || proof.store().value(id).is_some() {
        return Err(RowFault::Malformed);
    }
    match proof.store_mut().assign(bank, id, sort) {
        Ok(()) => Ok(()),
        Err(fault) => Err(RowFault::from(fault)),
    }
}
