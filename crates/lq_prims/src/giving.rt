//! A goal gets its body.

ghost use Rattle.std.specs.Prelude.{◌≡◌, ◌<◌, length, List, ℕ, OnOk, OnErr};
ghost use Rattle.lq_terms.specs.Terms.{HasTerm, tree_of, Grows};
ghost use Rattle.lq_solving.specs.Stores.{names_at};
ghost use Rattle.lq_solving.specs.Kept.{IsStore, Stands};
ghost use Rattle.lq_evars.specs.Places.{HasStore, store_of};
ghost use Rattle.lq_tactics.specs.Rows.{given_to, done_by};
ghost use Rattle.lq_prims.specs.Scenes.{step_by};
ghost use Rattle.lq_prims.specs.Working.{Tells};

use crate::faults::PrimFault;
use crate::holding::holds;
use lq_evars::{Store, StoreFault};
use lq_terms::{Bank, TermId};

/// A goal gets a body that stands in its context. It is refused where the body as it reads passes the limits; and as too large where
/// the goal has a value by now, or stands in the body as it reads. After a refusal the store is as before.
pub(crate) fn give(
    bank: &mut Bank<'_>,
    store: &mut Store,
    goal: u32,
    body: TermId,
) -> Result<(), PrimFault>
    requires store { HasStore bank.old store.old }
    requires kept { IsStore (store_of bank.old store.old) }
    requires goal { goal < length store.old.variables }
    requires body { HasTerm bank.old body }
    requires stands { Stands (store_of bank.old store.old) (names_at (store_of bank.old store.old).variables goal) (tree_of bank.old body) }
    ensures answer { (ks : List ℕ) → Tells bank.new (λ u. step_by (store_of bank.new store.new) ks) result
        (given_to goal (done_by (store_of bank.old store.old) (tree_of bank.old body) ks)) }
    ensures refused { OnErr result (store.new ≡ store.old) }
    ensures has { OnOk result (HasStore bank.new store.new) }
    ensures kept { OnOk result (IsStore (store_of bank.new store.new)) }
    ensures grows { Grows bank.old bank.new }
{
    let read = store.read(bank, body)?;
    if store.value(goal).is_some() || holds(bank, goal, read) {
        return Err(PrimFault::Store(StoreFault::TooLarge));
    }
    store.assign(bank, goal, read)?;
    Ok(())
}
