//! The table of primitives.

ghost use Rattle.std.specs.Prelude.{◌≡◌, ◌+◌, ℕ, false, map, option_map, IfOk, OnOk};
ghost use Rattle.std.specs.List.{AllByRecursion};
ghost use Rattle.lq_ast.specs.Plain.{plain, plain_prim};
ghost use Rattle.lq_ast.specs.Syntax.{constructor, exact, intro, intros};
ghost use Rattle.lq_terms.specs.Terms.{HasName, text_of, Grows};
ghost use Rattle.lq_solving.specs.Stores.{has_value};
ghost use Rattle.lq_solving.specs.Kept.{IsStore};
ghost use Rattle.lq_solving.specs.Elaboration.{Givens};
ghost use Rattle.lq_evars.specs.Places.{HasStore, store_of};
ghost use Rattle.lq_elab.specs.Calls.{ValuesStand};
ghost use Rattle.lq_elab.specs.States.{HasGiven, givens_of};
ghost use Rattle.lq_tactics.specs.Primitives.{prim_row};
ghost use Rattle.lq_prims.specs.Advancing.{IsNumbered};
ghost use Rattle.lq_prims.specs.Leaving.{AreNames, Leaves, names_of};
ghost use Rattle.lq_prims.specs.Scenes.{IsPlaced, scene_in, step_by};
ghost use Rattle.lq_prims.specs.Working.{Does};

use crate::applying::{apply, eapply};
use crate::asserting::assert;
use crate::bare_rows::{assumption_row, intro_row, intros_named_row, intros_row, reflexivity_row};
use crate::constructing::constructor;
use crate::cutting::cut;
use crate::exacting::exact;
use crate::exfalso::exfalso;
use crate::existing::exists;
use crate::faults::PrimFault;
use crate::posing::pose;
use crate::refining::refine;
use crate::written::written_names;
use lq_ast::{PrimTac, Surface};
use lq_elab::Given;
use lq_env::Env;
use lq_evars::Store;
use lq_terms::{NameId, Steps, TermId, Work};
use std::sync::ledger::Ledger;

/// The row of `exact`: it leaves no goal.
fn exact_row<L: Ledger>(
    work: &mut Work<'_, '_>,
    env: &Env,
    store: &mut Store,
    goal: u32,
    kind: TermId,
    values: &[(NameId, Given)],
    term: &Surface,
    steps: &mut Steps<L>,
) -> Result<Vec<u32>, PrimFault>
    requires placed { IsPlaced work.old.bank.now env.now store.old goal kind }
    requires values { AllByRecursion (HasGiven work.old.bank.now) values.now }
    requires values_stand { ValuesStand (store_of work.old.bank.now store.old) (givens_of work.old.bank.now values.now) }
    ensures answer { Does work.new.bank.now (λ v. step_by (store_of work.new.bank.now store.new) v.items) result
        (λ n. prim_row (scene_in work.old.bank.now env.now store.old goal kind (givens_of work.old.bank.now values.now) n) (exact (plain term.now)))
        work.old.ticks.now.left work.new.ticks.now.left }
    ensures leaves { IfOk result (λ v. Leaves (store_of work.old.bank.now store.old) goal (store_of work.new.bank.now store.new) v.items) }
    ensures has { OnOk result (HasStore work.new.bank.now store.new) }
    ensures kept { OnOk result (IsStore (store_of work.new.bank.now store.new)) }
    ensures same_bank { work.new.bank.ghost_name ≡ work.old.bank.ghost_name }
    ensures same_ticks { work.new.ticks.ghost_name ≡ work.old.ticks.ghost_name }
    ensures grows { Grows work.old.bank.now work.new.bank.now }
    ensures budget { work.new.ticks.now.left + work.new.ticks.now.spent ≡ work.old.ticks.now.left + work.old.ticks.now.spent }
    ensures counted { steps.new + work.old.ticks.now.spent ≡ steps.old + work.new.ticks.now.spent }
{
    match exact(work, env, store, goal, kind, values, term, steps) {
        Ok(()) => Ok(Vec::new(work.bank.allocator())),
        Err(fault) => Err(fault),
    }
}

/// The row of `intros`, with names or without.
fn intros_or_named<L: Ledger>(
    work: &mut Work<'_, '_>,
    env: &Env,
    store: &mut Store,
    goal: u32,
    kind: TermId,
    names: &[NameId],
    steps: &mut Steps<L>,
) -> Result<Vec<u32>, PrimFault>
    requires placed { IsPlaced work.old.bank.now env.now store.old goal kind }
    requires valueless { has_value (store_of work.old.bank.now store.old) goal ≡ false }
    requires names { AllByRecursion (HasName work.old.bank.now) names.now }
    ensures answer { (vs : Givens) → Does work.new.bank.now (λ v. step_by (store_of work.new.bank.now store.new) v.items) result
        (λ n. prim_row (scene_in work.old.bank.now env.now store.old goal kind vs n) (intros (map (text_of work.old.bank.now) names.now)))
        work.old.ticks.now.left work.new.ticks.now.left }
    ensures leaves { IfOk result (λ v. Leaves (store_of work.old.bank.now store.old) goal (store_of work.new.bank.now store.new) v.items) }
    ensures has { OnOk result (HasStore work.new.bank.now store.new) }
    ensures kept { OnOk result (IsStore (store_of work.new.bank.now store.new)) }
    ensures same_bank { work.new.bank.ghost_name ≡ work.old.bank.ghost_name }
    ensures same_ticks { work.new.ticks.ghost_name ≡ work.old.ticks.ghost_name }
    ensures grows { Grows work.old.bank.now work.new.bank.now }
    ensures budget { work.new.ticks.now.left + work.new.ticks.now.spent ≡ work.old.ticks.now.left + work.old.ticks.now.spent }
    ensures counted { steps.new + work.old.ticks.now.spent ≡ steps.old + work.new.ticks.now.spent }
{
    if names.is_empty() {
        intros_row(work, env, store, goal, kind, steps)
    } else {
        intros_named_row(work, env, store, goal, kind, names, steps)
    }
}

/// The row of `constructor` with a number; without one it has no row of its own.
fn numbered_row<L: Ledger>(
    work: &mut Work<'_, '_>,
    env: &Env,
    store: &mut Store,
    goal: u32,
    kind: TermId,
    number: Option<u128>,
    steps: &mut Steps<L>,
) -> Result<Vec<u32>, PrimFault>
    requires placed { IsPlaced work.old.bank.now env.now store.old goal kind }
    ensures answer { (vs : Givens) → Does work.new.bank.now (λ v. step_by (store_of work.new.bank.now store.new) v.items) result
        (λ n. prim_row (scene_in work.old.bank.now env.now store.old goal kind vs n) (constructor number))
        work.old.ticks.now.left work.new.ticks.now.left }
    ensures leaves { IfOk result (λ v. Leaves (store_of work.old.bank.now store.old) goal (store_of work.new.bank.now store.new) v.items) }
    ensures has { OnOk result (HasStore work.new.bank.now store.new) }
    ensures kept { OnOk result (IsStore (store_of work.new.bank.now store.new)) }
    ensures same_bank { work.new.bank.ghost_name ≡ work.old.bank.ghost_name }
    ensures same_ticks { work.new.ticks.ghost_name ≡ work.old.ticks.ghost_name }
    ensures grows { Grows work.old.bank.now work.new.bank.now }
    ensures budget { work.new.ticks.now.left + work.new.ticks.now.spent ≡ work.old.ticks.now.left + work.old.ticks.now.spent }
    ensures counted { steps.new + work.old.ticks.now.spent ≡ steps.old + work.new.ticks.now.spent }
{
    match number {
        Some(number) => constructor(work, env, store, goal, kind, None, number, steps),
        None => Err(PrimFault::NoConstructor(0)),
    }
}

/// The row of a primitive, whose names of new hypotheses are in the bank.
#[tactic(auto, unfolding(lq_ast::specs::Plain::plain_prim, lq_tactics::specs::Primitives::prim_row))]
fn named_row<L: Ledger>(
    work: &mut Work<'_, '_>,
    env: &Env,
    store: &mut Store,
    goal: u32,
    kind: TermId,
    prim: &PrimTac,
    names: &[NameId],
    values: &[(NameId, Given)],
    steps: &mut Steps<L>,
) -> Result<Vec<u32>, PrimFault>
    requires placed { IsPlaced work.old.bank.now env.now store.old goal kind }
    requires valueless { has_value (store_of work.old.bank.now store.old) goal ≡ false }
    requires numbered { IsNumbered (plain_prim prim.now) }
    requires names { AreNames work.old.bank.now names.now (names_of (plain_prim prim.now)) }
    requires values { AllByRecursion (HasGiven work.old.bank.now) values.now }
    requires values_stand { ValuesStand (store_of work.old.bank.now store.old) (givens_of work.old.bank.now values.now) }
    ensures answer { Does work.new.bank.now (λ v. step_by (store_of work.new.bank.now store.new) v.items) result
        (λ n. prim_row (scene_in work.old.bank.now env.now store.old goal kind (givens_of work.old.bank.now values.now) n) (plain_prim prim.now))
        work.old.ticks.now.left work.new.ticks.now.left }
    ensures leaves { IfOk result (λ v. Leaves (store_of work.old.bank.now store.old) goal (store_of work.new.bank.now store.new) v.items) }
    ensures has { OnOk result (HasStore work.new.bank.now store.new) }
    ensures kept { OnOk result (IsStore (store_of work.new.bank.now store.new)) }
    ensures same_bank { work.new.bank.ghost_name ≡ work.old.bank.ghost_name }
    ensures same_ticks { work.new.ticks.ghost_name ≡ work.old.ticks.ghost_name }
    ensures grows { Grows work.old.bank.now work.new.bank.now }
    ensures budget { work.new.ticks.now.left + work.new.ticks.now.spent ≡ work.old.ticks.now.left + work.old.ticks.now.spent }
    ensures counted { steps.new + work.old.ticks.now.spent ≡ steps.old + work.new.ticks.now.spent }
{
    match prim {
        PrimTac::Intro(_) => intro_row(work, env, store, goal, kind, names.first().copied(), steps),
        PrimTac::Intros(_) => intros_or_named(work, env, store, goal, kind, names, steps),
        PrimTac::Exact(term) => exact_row(work, env, store, goal, kind, values, term, steps),
        PrimTac::Refine(term) => refine(work, env, store, goal, kind, values, term, steps),
        PrimTac::Apply(term) => apply(work, env, store, goal, kind, values, term, steps),
        PrimTac::Eapply(term) => eapply(work, env, store, goal, kind, values, term, steps),
        PrimTac::Assumption => assumption_row(work, env, store, goal, kind, steps),
        PrimTac::Constructor(number) => {
            numbered_row(work, env, store, goal, kind, *number, steps)
        }
        PrimTac::Split => constructor(work, env, store, goal, kind, Some(1), 1, steps),
        PrimTac::Left => constructor(work, env, store, goal, kind, Some(2), 1, steps),
        PrimTac::Right => constructor(work, env, store, goal, kind, Some(2), 2, steps),
        PrimTac::Exists(term) => exists(work, env, store, goal, kind, values, term, steps),
        PrimTac::Assert(_, term) => {
            assert(work, env, store, goal, kind, values, names[0], term, steps)
        }
        PrimTac::Cut(term) => cut(work, env, store, goal, kind, values, term, steps),
        PrimTac::Pose(_, term) => pose(work, env, store, goal, kind, values, names[0], term, steps),
        PrimTac::Exfalso => exfalso(work, env, store, goal, kind, steps),
        PrimTac::Reflexivity => reflexivity_row(work, env, store, goal, kind, steps),
    }
}

/// A row of the table on a goal whose type reads so: the goals that are left of it. After a refusal the store is whatever was reached.
pub(crate) fn row<L: Ledger>(
    work: &mut Work<'_, '_>,
    env: &Env,
    store: &mut Store,
    goal: u32,
    kind: TermId,
    prim: &PrimTac,
    values: &[(NameId, Given)],
    steps: &mut Steps<L>,
) -> Result<Vec<u32>, PrimFault>
    requires placed { IsPlaced work.old.bank.now env.now store.old goal kind }
    requires valueless { has_value (store_of work.old.bank.now store.old) goal ≡ false }
    requires numbered { IsNumbered (plain_prim prim.now) }
    requires values { AllByRecursion (HasGiven work.old.bank.now) values.now }
    requires values_stand { ValuesStand (store_of work.old.bank.now store.old) (givens_of work.old.bank.now values.now) }
    ensures answer { Does work.new.bank.now (λ v. step_by (store_of work.new.bank.now store.new) v.items) result
        (λ n. prim_row (scene_in work.old.bank.now env.now store.old goal kind (givens_of work.old.bank.now values.now) n) (plain_prim prim.now))
        work.old.ticks.now.left work.new.ticks.now.left }
    ensures leaves { IfOk result (λ v. Leaves (store_of work.old.bank.now store.old) goal (store_of work.new.bank.now store.new) v.items) }
    ensures has { OnOk result (HasStore work.new.bank.now store.new) }
    ensures kept { OnOk result (IsStore (store_of work.new.bank.now store.new)) }
    ensures same_bank { work.new.bank.ghost_name ≡ work.old.bank.ghost_name }
    ensures same_ticks { work.new.ticks.ghost_name ≡ work.old.ticks.ghost_name }
    ensures grows { Grows work.old.bank.now work.new.bank.now }
    ensures budget { work.new.ticks.now.left + work.new.ticks.now.spent ≡ work.old.ticks.now.left + work.old.ticks.now.spent }
    ensures counted { steps.new + work.old.ticks.now.spent ≡ steps.old + work.new.ticks.now.spent }
{
    match written_names(work.bank, prim) {
        Ok(names) => named_row(
            work,
            env,
            store,
            goal,
            kind,
            prim,
            names.as_slice(),
            values,
            steps,
        ),
        Err(_) => Err(PrimFault::NoMemory),
    }
}
