//! `constructor`, `split`, `left` and `right` (Rocq reference manual, "Inductive types").

ghost use Rattle.std.specs.Prelude.{◌≡◌, ◌+◌, [], IfOk, OnOk};
ghost use Rattle.lq_terms.specs.Terms.{HasTerm, Grows};
ghost use Rattle.lq_solving.specs.Kept.{IsStore};
ghost use Rattle.lq_solving.specs.Elaboration.{Givens};
ghost use Rattle.lq_evars.specs.Places.{HasStore, store_of};
ghost use Rattle.lq_tactics.specs.Rows.{Scene, ended};
ghost use Rattle.lq_tactics.proofs.RowsKept.{IsReached};
ghost use Rattle.lq_prims.specs.Building.{built_done};
ghost use Rattle.lq_prims.specs.Constructing.{wanted_work, picked_work, constructor_work, constructor_row, StandsTyped};
ghost use Rattle.lq_prims.specs.Inductives.{inductive_by, found_by, HasInductive, HasTyped};
ghost use Rattle.lq_prims.specs.Leaving.{Leaves};
ghost use Rattle.lq_prims.specs.Scenes.{IsPlaced, context_at, scene_in, step_by};
ghost use Rattle.lq_prims.specs.Working.{Does, Tells};

use crate::applying::apply_found;
use crate::building::{Built, given};
use crate::faults::PrimFault;
use crate::inductives::{Inductive, Typed, goal_inductive, has_number, numbered};
use crate::rooms::has_room;
use crate::unifying::copied;
use lq_env::Env;
use lq_evars::Store;
use lq_terms::{Bank, Steps, TermId, Work};
use std::sync::ledger::Ledger;

/// Refuses as `WrongNumber` a type that has not so many constructors, where a number of them is wanted.
#[tactic(auto, unfolding(crate::specs::Constructing::wanted_work))]
fn has_wanted(
    bank: &Bank<'_>,
    inductive: &Inductive<'_>,
    wanted: Option<u32>,
) -> Result<(), PrimFault>
    requires { HasInductive bank.now inductive.now }
    ensures { Tells bank.now (λ u. inductive_by bank.now inductive.now) result (wanted_work wanted (inductive_by bank.now inductive.now)) }
{
    match wanted {
        Some(number) => has_number(bank, inductive, number),
        None => Ok(()),
    }
}

/// The constructor of a number, counted from 1, of a type that has the wanted number of constructors.
fn picked(
    bank: &mut Bank<'_>,
    inductive: &Inductive<'_>,
    wanted: Option<u32>,
    number: u128,
) -> Result<Typed, PrimFault>
    requires { HasInductive bank.old inductive.now }
    ensures answer { (c : Scene) → Tells bank.new (found_by bank.new c.store) result
        (picked_work c wanted (inductive_by bank.old inductive.now) number) }
    ensures has { IfOk result (HasTyped bank.new) }
    ensures grows { Grows bank.old bank.new }
{
    match has_wanted(bank, inductive, wanted) {
        Ok(_has) => numbered(bank, inductive, number),
        Err(fault) => Err(fault),
    }
}

/// The constructor of a number, counted from 1, of the goal's type, with its type: a tick for each contraction. It is refused as
/// `NotInductive` where the weak head form of the goal's type is no inductive type, as `WrongNumber` where that has not the wanted number of
/// constructors, and as `NoConstructor` where it has none of that number.
pub(crate) fn constructor_of<L: Ledger>(
    work: &mut Work<'_, '_>,
    env: &Env,
    store: &Store,
    goal: u32,
    kind: TermId,
    wanted: Option<u32>,
    number: u128,
    steps: &mut Steps<L>,
) -> Result<Typed, PrimFault>
    requires placed { IsPlaced work.old.bank.now env.now store.now goal kind }
    ensures answer { (vs : Givens) → Does work.new.bank.now (found_by work.new.bank.now (store_of work.old.bank.now store.now)) result
        (λ n. constructor_work (scene_in work.old.bank.now env.now store.now goal kind vs n) wanted number) work.old.ticks.now.left work.new.ticks.now.left }
    ensures has { IfOk result (HasTyped work.new.bank.now) }
    ensures stands { IfOk result (StandsTyped work.new.bank.now (store_of work.old.bank.now store.now) (context_at (store_of work.old.bank.now store.now) goal)) }
    ensures same_bank { work.new.bank.ghost_name ≡ work.old.bank.ghost_name }
    ensures same_ticks { work.new.ticks.ghost_name ≡ work.old.ticks.ghost_name }
    ensures grows { Grows work.old.bank.now work.new.bank.now }
    ensures budget { work.new.ticks.now.left + work.new.ticks.now.spent ≡ work.old.ticks.now.left + work.old.ticks.now.spent }
    ensures counted { steps.new + work.old.ticks.now.spent ≡ steps.old + work.new.ticks.now.spent }
{
    match goal_inductive(work, env, store, goal, kind, steps) {
        Ok(inductive) => picked(work.bank, &inductive, wanted, number),
        Err(fault) => Err(fault),
    }
}

/// What a constructor builds, applied to the goal.
fn do_constructor<L: Ledger>(
    work: &mut Work<'_, '_>,
    env: &Env,
    store: &mut Store,
    goal: u32,
    kind: TermId,
    wanted: Option<u32>,
    number: u128,
    steps: &mut Steps<L>,
) -> Result<Built, PrimFault>
    requires placed { IsPlaced work.old.bank.now env.now store.old goal kind }
    ensures answer { (vs : Givens) → Does work.new.bank.now (built_done work.new.bank.now store.new) result
        (λ n. constructor_row (scene_in work.old.bank.now env.now store.old goal kind vs n) wanted number) work.old.ticks.now.left work.new.ticks.now.left }
    ensures body { IfOk result (λ b. HasTerm work.new.bank.now b.body) }
    ensures has { OnOk result (HasStore work.new.bank.now store.new) }
    ensures reached { IfOk result (λ b. IsReached (scene_in work.old.bank.now env.now store.old goal kind [] 0) (built_done work.new.bank.now store.new b)) }
    ensures same_bank { work.new.bank.ghost_name ≡ work.old.bank.ghost_name }
    ensures same_ticks { work.new.ticks.ghost_name ≡ work.old.ticks.ghost_name }
    ensures grows { Grows work.old.bank.now work.new.bank.now }
    ensures budget { work.new.ticks.now.left + work.new.ticks.now.spent ≡ work.old.ticks.now.left + work.old.ticks.now.spent }
    ensures counted { steps.new + work.old.ticks.now.spent ≡ steps.old + work.new.ticks.now.spent }
{
    has_room(store, goal);
    let context = match copied(work.bank.allocator(), store.context(goal)) {
        Ok(context) => context,
        Err(_) => return Err(PrimFault::NoMemory),
    };
    let before = store.count();
    match constructor_of(work, env, store, goal, kind, wanted, number, steps) {
        Ok(found) => apply_found(
            work, env, store, &context, kind, found.term, found.kind, true, before, steps,
        ),
        Err(fault) => Err(fault),
    }
}

/// `constructor` with a number, counted from 1; `split`, `left` and `right` are constructors 1, 1 and 2 of a type that has 1, 2 and 2 of them
/// (`wanted`). The goal's body is that constructor of its inductive type, applied as by `apply`. It is refused as `NotInductive` where the weak
/// head form of the goal's type is no inductive type, as `WrongNumber` where that has not the wanted number of constructors, as
/// `NoConstructor` where it has none of that number, and else as `apply` is.
pub(crate) fn constructor<L: Ledger>(
    work: &mut Work<'_, '_>,
    env: &Env,
    store: &mut Store,
    goal: u32,
    kind: TermId,
    wanted: Option<u32>,
    number: u128,
    steps: &mut Steps<L>,
) -> Result<Vec<u32>, PrimFault>
    requires placed { IsPlaced work.old.bank.now env.now store.old goal kind }
    ensures answer { (vs : Givens) → Does work.new.bank.now (λ v. step_by (store_of work.new.bank.now store.new) v.items) result
        (λ n. ended (scene_in work.old.bank.now env.now store.old goal kind vs n)
        (constructor_row (scene_in work.old.bank.now env.now store.old goal kind vs n) wanted number))
        work.old.ticks.now.left work.new.ticks.now.left }
    ensures leaves { IfOk result (λ v. Leaves (store_of work.old.bank.now store.old) goal (store_of work.new.bank.now store.new) v.items) }
    ensures has { OnOk result (HasStore work.new.bank.now store.new) }
    ensures kept { OnOk result (IsStore (store_of work.new.bank.now store.new)) }
    ensures same_bank { work.new.bank.ghost_name ≡ work.old.bank.ghost_name }
    ensures same_ticks { work.new.ticks.ghost_name ≡ work.old.ticks.ghost_name }
    ensures grows { Grows work.old.bank.now work.new.bank.now }
    ensures budget { work.new.ticks.now.left + work.new.ticks.now.spent ≡ work.old.ticks.now.left + work.old.ticks.now.spent }
    ensures counted { steps.new + work.old.ticks.now.spent ≡ steps.old + work.new.ticks.now.spent }
{
    match do_constructor(work, env, store, goal, kind, wanted, number, steps) {
        Ok(built) => given(work.bank, store, goal, built),
        Err(fault) => Err(fault),
    }
}
