//! What is seen of a proof.

ghost use Rattle.std.specs.Prelude.{◌≡◌, ◌<◌, length};
ghost use Rattle.lq_terms.specs.Terms.{Grows};
ghost use Rattle.lq_solving.specs.Kept.{IsStore};
ghost use Rattle.lq_evars.specs.Places.{HasStore, store_of};
ghost use Rattle.lq_states.specs.Views.{goal_view, fitting_root};
ghost use Rattle.lq_goals.specs.Held.{proof_of};
ghost use Rattle.lq_goals.specs.Seen.{Shows, ShowsGoal, IsTree};

use lq_evars::StoreFault;
use lq_goals::{GoalView, Proof};
use lq_terms::{Bank, TermId};

/// How many goals are on the shelf.
pub fn count_on_shelf(proof: &Proof) -> u64
    ensures { result ≡ length proof.now.shelf }
{
    proof.shelf_count()
}

/// A goal as it reads.
pub fn seen(proof: &Proof, bank: &mut Bank<'_>, goal: u32) -> Result<GoalView, StoreFault>
    requires store { HasStore bank.old proof.now.store }
    requires kept { IsStore (store_of bank.old proof.now.store) }
    requires goal { goal < length proof.now.store.variables }
    ensures told { ShowsGoal bank.new result (goal_view (store_of bank.old proof.now.store) goal) }
    ensures grows { Grows bank.old bank.new }
{
    proof.goal_view(bank, goal)
}

/// The whole term as it reads.
pub fn term(proof: &Proof, bank: &mut Bank<'_>) -> Result<TermId, StoreFault>
    requires store { HasStore bank.old proof.now.store }
    requires kept { IsStore (store_of bank.old proof.now.store) }
    requires rooted { 0 < length proof.now.store.variables }
    ensures told { Shows (IsTree bank.new) result (fitting_root (proof_of bank.old proof.now)) }
    ensures grows { Grows bank.old bank.new }
{
    proof.root(bank)
}
