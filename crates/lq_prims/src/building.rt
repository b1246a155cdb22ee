//! What a row builds of new goals.

ghost use Rattle.std.specs.Prelude.{◌≡◌, ◌<◌, ◌∷◌, [], length, IfOk, OnOk};
ghost use Rattle.lq_terms.specs.Terms.{HasTerm, tree_of, Grows};
ghost use Rattle.lq_solving.specs.Stores.{names_at};
ghost use Rattle.lq_solving.specs.Kept.{IsStore, Stands};
ghost use Rattle.lq_evars.specs.Places.{HasStore, store_of};
ghost use Rattle.lq_tactics.specs.Rows.{given_to};
ghost use Rattle.lq_prims.specs.Building.{built_done};
ghost use Rattle.lq_prims.specs.Scenes.{step_by};
ghost use Rattle.lq_prims.specs.Working.{Tells};

use crate::faults::PrimFault;
use crate::giving::give;
use lq_evars::Store;
use lq_terms::{Bank, NoMemory, TermId};
use std::alloc::Global;

/// What a row builds: the goal's body, and the new goals.
#[derive(Drop)]
pub(crate) struct Built {
    pub(crate) body: TermId,
    pub(crate) goals: Vec<u32>,
}

/// One goal.
pub(crate) fn alone(alloc: Global, goal: u32) -> Result<Vec<u32>, NoMemory>
    ensures { IfOk result (λ v. v.items ≡ goal ∷ []) }
{
    match Vec::from_slice(alloc, &[goal]) {
        Ok(goals) => Ok(goals),
        Err(_) => Err(NoMemory),
    }
}

/// Two goals.
pub(crate) fn both(alloc: Global, first: u32, second: u32) -> Result<Vec<u32>, NoMemory>
    ensures { IfOk result (λ v. v.items ≡ first ∷ second ∷ []) }
{
    match Vec::from_slice(alloc, &[first, second]) {
        Ok(goals) => Ok(goals),
        Err(_) => Err(NoMemory),
    }
}

/// The goal gets the body that was built, and the new goals are answered.
pub(crate) fn given(
    bank: &mut Bank<'_>,
    store: &mut Store,
    goal: u32,
    built: Built,
) -> Result<Vec<u32>, PrimFault>
    requires store { HasStore bank.old store.old }
    requires kept { IsStore (store_of bank.old store.old) }
    requires goal { goal < length store.old.variables }
    requires body { HasTerm bank.old built.body }
    requires stands { Stands (store_of bank.old store.old) (names_at (store_of bank.old store.old).variables goal) (tree_of bank.old built.body) }
    ensures answer { Tells bank.new (λ v. step_by (store_of bank.new store.new) v.items) result (given_to goal (built_done bank.old store.old built)) }
    ensures goals { IfOk result (λ v. v.items ≡ built.goals.items) }
    ensures has { OnOk result (HasStore bank.new store.new) }
    ensures kept { OnOk result (IsStore (store_of bank.new store.new)) }
    ensures grows { Grows bank.old bank.new }
{
    let Built { body, goals } = built;
    match give(bank, store, goal, body) {
        Ok(()) => Ok(goals),
        Err(fault) => Err(fault),
    }
}
