//! Made variables as goals: their types are put in beta normal form.

ghost use Rattle.std.specs.Prelude.{◌≡◌, ◌<◌, ◌+◌, ℕ, length, slice_get, OnOk};
ghost use Rattle.std.specs.List.{AllByRecursion};
ghost use Rattle.lq_terms.specs.Terms.{Grows};
ghost use Rattle.lq_solving.specs.Kept.{IsStore};
ghost use Rattle.lq_evars.specs.Places.{HasStore, store_of};
ghost use Rattle.lq_tactics.specs.Rows.{Scene, as_goal, as_goals};
ghost use Rattle.lq_prims.specs.Scenes.{IsGoal};
ghost use Rattle.lq_prims.specs.Working.{Does};

use crate::faults::PrimFault;
use crate::needing::{needed, normal};
use lq_evars::Store;
use lq_terms::{Steps, Work};
use std::sync::ledger::Ledger;

/// A variable's type is read and put in beta normal form, at a tick for each contraction.
fn as_goal<L: Ledger>(
    work: &mut Work<'_, '_>,
    store: &mut Store,
    goal: u32,
    steps: &mut Steps<L>,
) -> Result<(), PrimFault>
    requires place { IsGoal work.old.bank.now store.old goal }
    ensures answer { (c : ℕ → Scene) → ((n : ℕ) → (c n).bound ≡ n) → Does work.new.bank.now (λ u. store_of work.new.bank.now store.new) result
        (λ n. as_goal (c n) (store_of work.old.bank.now store.old) goal (slice_get (store_of work.old.bank.now store.old).variables goal))
        work.old.ticks.now.left work.new.ticks.now.left }
    ensures has { OnOk result (HasStore work.new.bank.now store.new) }
    ensures kept { OnOk result (IsStore (store_of work.new.bank.now store.new)) }
    ensures count { OnOk result (length store.new.variables ≡ length store.old.variables) }
    ensures same_bank { work.new.bank.ghost_name ≡ work.old.bank.ghost_name }
    ensures same_ticks { work.new.ticks.ghost_name ≡ work.old.ticks.ghost_name }
    ensures grows { Grows work.old.bank.now work.new.bank.now }
    ensures budget { work.new.ticks.now.left + work.new.ticks.now.spent ≡ work.old.ticks.now.left + work.old.ticks.now.spent }
    ensures counted { steps.new + work.old.ticks.now.spent ≡ steps.old + work.new.ticks.now.spent }
{
    let kind = store.kind(goal);
    let read = match needed(work.bank, store, kind) {
        Ok(read) => read,
        Err(fault) => return Err(fault),
    };
    match normal(work, store.context(goal).hypotheses(), read, steps) {
        Ok(form) => match store.set_kind(goal, form) {
            Ok(()) => Ok(()),
            Err(_) => Err(PrimFault::NoMemory),
        },
        Err(fault) => Err(fault),
    }
}

/// The types of variables are read and put in beta normal form, in order, at a tick for each contraction.
pub(crate) fn as_goals<L: Ledger>(
    work: &mut Work<'_, '_>,
    store: &mut Store,
    goals: &[u32],
    steps: &mut Steps<L>,
) -> Result<(), PrimFault>
    requires store { HasStore work.old.bank.now store.old }
    requires kept { IsStore (store_of work.old.bank.now store.old) }
    requires goals { AllByRecursion (λ k. k < length store.old.variables) goals.now }
    ensures answer { (c : ℕ → Scene) → ((n : ℕ) → (c n).bound ≡ n) → Does work.new.bank.now (λ u. store_of work.new.bank.now store.new) result
        (λ n. as_goals (c n) (store_of work.old.bank.now store.old) goals.now) work.old.ticks.now.left work.new.ticks.now.left }
    ensures has { OnOk result (HasStore work.new.bank.now store.new) }
    ensures kept { OnOk result (IsStore (store_of work.new.bank.now store.new)) }
    ensures same_bank { work.new.bank.ghost_name ≡ work.old.bank.ghost_name }
    ensures same_ticks { work.new.ticks.ghost_name ≡ work.old.ticks.ghost_name }
    ensures grows { Grows work.old.bank.now work.new.bank.now }
    ensures budget { work.new.ticks.now.left + work.new.ticks.now.spent ≡ work.old.ticks.now.left + work.old.ticks.now.spent }
    ensures counted { steps.new + work.old.ticks.now.spent ≡ steps.old + work.new.ticks.now.spent }
{
    for goal in goals {
        match as_goal(work, store, *goal, steps) {
            Ok(()) => (),
            Err(fault) => return Err(fault),
        }
    }
    Ok(())
}
