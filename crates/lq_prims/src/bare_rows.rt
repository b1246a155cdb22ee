//! Rows of primitives that have no term.

ghost use Rattle.std.specs.Prelude.{◌≡◌, ◌<◌, ◌+◌, [], false, length, map, option_map, IfOk, OnOk};
ghost use Rattle.std.specs.List.{AllByRecursion};
ghost use Rattle.lq_ast.specs.Syntax.{assumption, intro, intros, reflexivity};
ghost use Rattle.lq_terms.specs.Terms.{HasName, text_of, Grows};
ghost use Rattle.lq_solving.specs.Stores.{has_value};
ghost use Rattle.lq_solving.specs.Kept.{IsStore};
ghost use Rattle.lq_solving.specs.Elaboration.{Givens};
ghost use Rattle.lq_evars.specs.Places.{HasNameOr, HasStore, store_of};
ghost use Rattle.lq_tactics.specs.Primitives.{prim_row};
ghost use Rattle.lq_prims.specs.Leaving.{Leaves};
ghost use Rattle.lq_prims.specs.Scenes.{IsPlaced, scene_in, step_by};
ghost use Rattle.lq_prims.specs.Working.{Does};

use crate::assumption::assumption;
use crate::building::alone;
use crate::faults::PrimFault;
use crate::introducing::intro;
use crate::moving::{Placed, intros, intros_named};
use crate::reflecting::reflexivity;
use crate::rooms::has_room;
use lq_env::Env;
use lq_evars::Store;
use lq_terms::{NameId, Steps, TermId, Work};
use std::sync::ledger::Ledger;

/// The row of `intro`.
pub(crate) fn intro_row<L: Ledger>(
    work: &mut Work<'_, '_>,
    env: &Env,
    store: &mut Store,
    goal: u32,
    kind: TermId,
    written: Option<NameId>,
    steps: &mut Steps<L>,
) -> Result<Vec<u32>, PrimFault>
    requires placed { IsPlaced work.old.bank.now env.now store.old goal kind }
    requires valueless { has_value (store_of work.old.bank.now store.old) goal ≡ false }
    requires written { HasNameOr work.old.bank.now written }
    ensures answer { (vs : Givens) → Does work.new.bank.now (λ v. step_by (store_of work.new.bank.now store.new) v.items) result
        (λ n. prim_row (scene_in work.old.bank.now env.now store.old goal kind vs n) (intro (option_map (text_of work.old.bank.now) written)))
        work.old.ticks.now.left work.new.ticks.now.left }
    ensures leaves { IfOk result (λ v. Leaves (store_of work.old.bank.now store.old) goal (store_of work.new.bank.now store.new) v.items) }
    ensures has { OnOk result (HasStore work.new.bank.now store.new) }
    ensures kept { OnOk result (IsStore (store_of work.new.bank.now store.new)) }
    ensures same_bank { work.new.bank.ghost_name ≡ work.old.bank.ghost_name }
    ensures same_ticks { work.new.ticks.ghost_name ≡ work.old.ticks.ghost_name }
    ensures grows { Grows work.old.bank.now work.new.bank.now }
    ensures budget { work.new.ticks.now.left + work.new.ticks.now.spent ≡ work.old.ticks.now.left + work.old.ticks.now.spent }
    ensures counted { steps.new + work.old.ticks.now.spent ≡ steps.old + work.new.ticks.now.spent }
{
    has_room(store, goal);
    match intro(work, env, store, goal, kind, written, steps) {
        Ok(left) => match alone(work.bank.allocator(), left) {
            Ok(goals) => Ok(goals),
            Err(_) => Err(PrimFault::NoMemory),
        },
        Err(fault) => Err(fault),
    }
}

/// The row of `intros` without names.
pub(crate) fn intros_row<L: Ledger>(
    work: &mut Work<'_, '_>,
    env: &Env,
    store: &mut Store,
    goal: u32,
    kind: TermId,
    steps: &mut Steps<L>,
) -> Result<Vec<u32>, PrimFault>
    requires placed { IsPlaced work.old.bank.now env.now store.old goal kind }
    requires valueless { has_value (store_of work.old.bank.now store.old) goal ≡ false }
    ensures answer { (vs : Givens) → Does work.new.bank.now (λ v. step_by (store_of work.new.bank.now store.new) v.items) result
        (λ n. prim_row (scene_in work.old.bank.now env.now store.old goal kind vs n) (intros []))
        work.old.ticks.now.left work.new.ticks.now.left }
    ensures leaves { IfOk result (λ v. Leaves (store_of work.old.bank.now store.old) goal (store_of work.new.bank.now store.new) v.items) }
    ensures has { OnOk result (HasStore work.new.bank.now store.new) }
    ensures kept { OnOk result (IsStore (store_of work.new.bank.now store.new)) }
    ensures same_bank { work.new.bank.ghost_name ≡ work.old.bank.ghost_name }
    ensures same_ticks { work.new.ticks.ghost_name ≡ work.old.ticks.ghost_name }
    ensures grows { Grows work.old.bank.now work.new.bank.now }
    ensures budget { work.new.ticks.now.left + work.new.ticks.now.spent ≡ work.old.ticks.now.left + work.old.ticks.now.spent }
    ensures counted { steps.new + work.old.ticks.now.spent ≡ steps.old + work.new.ticks.now.spent }
{
    has_room(store, goal);
    match intros(work, env, store, Placed { goal, kind }, steps) {
        Ok(left) => match alone(work.bank.allocator(), left) {
            Ok(goals) => Ok(goals),
            Err(_) => Err(PrimFault::NoMemory),
        },
        Err(fault) => Err(fault),
    }
}

/// The row of `intros` with names.
pub(crate) fn intros_named_row<L: Ledger>(
    work: &mut Work<'_, '_>,
    env: &Env,
    store: &mut Store,
    goal: u32,
    kind: TermId,
    names: &[NameId],
    steps: &mut Steps<L>,
) -> Result<Vec<u32>, PrimFault>
    requires placed { IsPlaced work.old.bank.now env.now store.old goal kind }
    requires valueless { has_value (store_of work.old.bank.now store.old) goal ≡ false }
    requires names { AllByRecursion (HasName work.old.bank.now) names.now }
    requires some { 0 < length names.now }
    ensures answer { (vs : Givens) → Does work.new.bank.now (λ v. step_by (store_of work.new.bank.now store.new) v.items) result
        (λ n. prim_row (scene_in work.old.bank.now env.now store.old goal kind vs n) (intros (map (text_of work.old.bank.now) names.now)))
        work.old.ticks.now.left work.new.ticks.now.left }
    ensures leaves { IfOk result (λ v. Leaves (store_of work.old.bank.now store.old) goal (store_of work.new.bank.now store.new) v.items) }
    ensures has { OnOk result (HasStore work.new.bank.now store.new) }
    ensures kept { OnOk result (IsStore (store_of work.new.bank.now store.new)) }
    ensures same_bank { work.new.bank.ghost_name ≡ work.old.bank.ghost_name }
    ensures same_ticks { work.new.ticks.ghost_name ≡ work.old.ticks.ghost_name }
    ensures grows { Grows work.old.bank.now work.new.bank.now }
    ensures budget { work.new.ticks.now.left + work.new.ticks.now.spent ≡ work.old.ticks.now.left + work.old.ticks.now.spent }
    ensures counted { steps.new + work.old.ticks.now.spent ≡ steps.old + work.new.ticks.now.spent }
{
    has_room(store, goal);
    match intros_named(work, env, store, Placed { goal, kind }, names, steps) {
        Ok(left) => match alone(work.bank.allocator(), left) {
            Ok(goals) => Ok(goals),
            Err(_) => Err(PrimFault::NoMemory),
        },
        Err(fault) => Err(fault),
    }
}

/// The row of `assumption`.
pub(crate) fn assumption_row<L: Ledger>(
    work: &mut Work<'_, '_>,
    env: &Env,
    store: &mut Store,
    goal: u32,
    kind: TermId,
    steps: &mut Steps<L>,
) -> Result<Vec<u32>, PrimFault>
    requires placed { IsPlaced work.old.bank.now env.now store.old goal kind }
    requires valueless { has_value (store_of work.old.bank.now store.old) goal ≡ false }
    ensures answer { (vs : Givens) → Does work.new.bank.now (λ v. step_by (store_of work.new.bank.now store.new) v.items) result
        (λ n. prim_row (scene_in work.old.bank.now env.now store.old goal kind vs n) assumption)
        work.old.ticks.now.left work.new.ticks.now.left }
    ensures leaves { IfOk result (λ v. Leaves (store_of work.old.bank.now store.old) goal (store_of work.new.bank.now store.new) v.items) }
    ensures has { OnOk result (HasStore work.new.bank.now store.new) }
    ensures kept { OnOk result (IsStore (store_of work.new.bank.now store.new)) }
    ensures same_bank { work.new.bank.ghost_name ≡ work.old.bank.ghost_name }
    ensures same_ticks { work.new.ticks.ghost_name ≡ work.old.ticks.ghost_name }
    ensures grows { Grows work.old.bank.now work.new.bank.now }
    ensures budget { work.new.ticks.now.left + work.new.ticks.now.spent ≡ work.old.ticks.now.left + work.old.ticks.now.spent }
    ensures counted { steps.new + work.old.ticks.now.spent ≡ steps.old + work.new.ticks.now.spent }
{
    has_room(store, goal);
    match assumption(work, env, store, goal, kind, steps) {
        Ok(()) => Ok(Vec::new(work.bank.allocator())),
        Err(fault) => Err(fault),
    }
}

/// The row of `reflexivity`.
pub(crate) fn reflexivity_row<L: Ledger>(
    work: &mut Work<'_, '_>,
    env: &Env,
    store: &mut Store,
    goal: u32,
    kind: TermId,
    steps: &mut Steps<L>,
) -> Result<Vec<u32>, PrimFault>
    requires placed { IsPlaced work.old.bank.now env.now store.old goal kind }
    requires valueless { has_value (store_of work.old.bank.now store.old) goal ≡ false }
    ensures answer { (vs : Givens) → Does work.new.bank.now (λ v. step_by (store_of work.new.bank.now store.new) v.items) result
        (λ n. prim_row (scene_in work.old.bank.now env.now store.old goal kind vs n) reflexivity)
        work.old.ticks.now.left work.new.ticks.now.left }
    ensures leaves { IfOk result (λ v. Leaves (store_of work.old.bank.now store.old) goal (store_of work.new.bank.now store.new) v.items) }
    ensures has { OnOk result (HasStore work.new.bank.now store.new) }
    ensures kept { OnOk result (IsStore (store_of work.new.bank.now store.new)) }
    ensures same_bank { work.new.bank.ghost_name ≡ work.old.bank.ghost_name }
    ensures same_ticks { work.new.ticks.ghost_name ≡ work.old.ticks.ghost_name }
    ensures grows { Grows work.old.bank.now work.new.bank.now }
    ensures budget { work.new.ticks.now.left + work.new.ticks.now.spent ≡ work.old.ticks.now.left + work.old.ticks.now.spent }
    ensures counted { steps.new + work.old.ticks.now.spent ≡ steps.old + work.new.ticks.now.spent }
{
    has_room(store, goal);
    match reflexivity(work, env, store, goal, kind, steps) {
        Ok(()) => Ok(Vec::new(work.bank.allocator())),
        Err(fault) => Err(fault),
    }
}
