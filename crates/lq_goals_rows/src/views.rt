//! What is asked of a proof as it reads.

ghost use Rattle.std.specs.Prelude.{IsTrue};
ghost use Rattle.lq_terms.specs.Terms.{Terms, HasTerm, Grows};
ghost use Rattle.lq_goals.specs.Held.{proof_of};
ghost use Rattle.lq_states.specs.Kept.{IsListed};
ghost use Rattle.lq_goals_rows.specs.Looks.{IsKept, AreRising};

use crate::rows::RowFault;
use lq_goals::Proof;
use lq_terms::{Bank, Node, TermId, measure};

/// How many nodes the type of a goal has as it reads.
pub(crate) fn goal_size(bank: &mut Bank<'_>, proof: &Proof, goal: u32) -> Result<u64, RowFault>
    requires { IsKept bank.old proof.now }
    ensures { Grows bank.old bank.new }
{
    if goal >= proof.store().count() {
        return Err(RowFault::Malformed);
    }
    match proof.goal_view(bank, goal) {
        Ok(view) => Ok(measure(bank, view.kind).size),
        Err(fault) => Err(RowFault::from(fault)),
    }
}

/// How many nodes the proof's term has as it reads, or none where it is a variable.
pub(crate) fn root_size(bank: &mut Bank<'_>, proof: &Proof) -> Result<Option<u64>, RowFault>
    requires { IsKept bank.old proof.now }
    ensures { Grows bank.old bank.new }
{
    if proof.store().count() == 0 {
        return Err(RowFault::Malformed);
    }
    match proof.root(bank) {
        Ok(term) => Ok(size_of(bank, term)),
        Err(fault) => Err(RowFault::from(fault)),
    }
}

/// How many nodes a term has, or none where it is a variable.
fn size_of(bank: &Bank<'_>, term: TermId) -> Option<u64>
    requires { HasTerm bank.now term }
{
    match bank.node(term) {
        Node::Evar(_, _) => None,
        _ => Some(measure(bank, term).size),
    }
}

/// Whether goals are rising numbers of variables.
fn are_rising(goals: &[u32], count: u32) -> bool
    ensures { IsTrue result → AreRising 0 count goals.now }
{
    let mut low: u64 = 0;
    for goal in goals {
        if u64::from(*goal) < low || *goal >= count {
            return false;
        }
        low = u64::from(*goal) + 1;
    }
    true
}

/// Whether there is a variable, the goals in focus are rising numbers of variables, and none is on the shelf.
fn is_plain(proof: &Proof) -> bool
    ensures { (bank : Terms) → IsTrue result → IsListed (proof_of bank proof.now) }
{
    let count = proof.store().count();
    if count == 0 {
        return false;
    }
    if proof.shelf_count() != 0 {
        return false;
    }
    are_rising(proof.focused(), count)
}

/// How many goals are seen, and how many are on the shelf.
pub(crate) fn seen(bank: &mut Bank<'_>, proof: &Proof) -> Result<(usize, u32), RowFault>
    requires { IsKept bank.old proof.now }
    ensures { Grows bank.old bank.new }
{
    if !is_plain(proof) {
        return Err(RowFault::Malformed);
    }
    viewed(bank, proof)
}

/// How many goals are seen, and how many are on the shelf, after the first goal went there.
pub(crate) fn hidden(bank: &mut Bank<'_>, proof: &mut Proof) -> Result<(usize, u32), RowFault>
    requires { IsKept bank.old proof.old }
    ensures kept { IsKept bank.new proof.new }
    ensures grows { Grows bank.old bank.new }
{
    if !is_plain(proof) {
        return Err(RowFault::Malformed);
    }
    let [goal, ..] = proof.focused() else {
        return Err(RowFault::NothingFocused);
    };
    let goal = *goal;
    proof.shelve(&[goal])?;
    viewed(bank, proof)
}

/// How many goals are seen, and how many are on the shelf, where no goal stands twice in the lists.
fn viewed(bank: &mut Bank<'_>, proof: &Proof) -> Result<(usize, u32), RowFault>
    requires kept { IsKept bank.old proof.now }
    requires listed { IsListed (proof_of bank.old proof.now) }
    ensures { Grows bank.old bank.new }
{
    match proof.view(bank) {
        Ok(view) => Ok((view.goals.len(), view.shelved)),
        Err(fault) => Err(RowFault::from(fault)),
    }
}
