//! A primitive on a goal of a proof.

ghost use Rattle.std.specs.Prelude.{◌≡◌, ◌+◌, ℕ, OnOk, OnErr};
ghost use Rattle.std.specs.List.{AllByRecursion};
ghost use Rattle.lq_ast.specs.Plain.{plain_prim};
ghost use Rattle.lq_trees.specs.Ticks.{gives};
ghost use Rattle.lq_terms.specs.Terms.{Grows};
ghost use Rattle.lq_env.specs.Environments.{env_of};
ghost use Rattle.lq_solving.proofs.ElabKept.{Grown};
ghost use Rattle.lq_evars.specs.Places.{store_of};
ghost use Rattle.lq_elab.specs.Calls.{ValuesStand};
ghost use Rattle.lq_elab.specs.States.{HasGiven, givens_of};
ghost use Rattle.lq_goals.specs.Held.{proof_of};
ghost use Rattle.lq_tactics.specs.Rows.{scene};
ghost use Rattle.lq_tactics.specs.Primitives.{run_prim};
ghost use Rattle.lq_prims.specs.Advancing.{IsHeld, IsNumbered, MayAdvance};
ghost use Rattle.lq_prims.specs.Finishing.{done_with};
ghost use Rattle.lq_prims.specs.Scenes.{IsPlaced, scene_in};
ghost use Rattle.lq_prims.specs.Working.{Does};

use crate::faults::PrimFault;
use crate::finishing::finish;
use crate::placing::goal_kind;
use crate::rows::row;
use lq_ast::PrimTac;
use lq_elab::Given;
use lq_env::Env;
use lq_goals::Proof;
use lq_terms::{NameId, Steps, TermId, Work};
use std::sync::ledger::Ledger;

/// What a primitive did.
#[derive(Drop)]
pub struct PrimDone {
    /// The new goals, in order.
    pub goals: Vec<u32>,
    /// The variables that went to the shelf, in order of making.
    pub shelved: Vec<u32>,
}

/// A row on a goal whose type reads so: the new goals take its place.
fn on_goal<L: Ledger>(
    work: &mut Work<'_, '_>,
    env: &Env,
    proof: &mut Proof,
    goal: u32,
    kind: TermId,
    prim: &PrimTac,
    values: &[(NameId, Given)],
    steps: &mut Steps<L>,
) -> Result<PrimDone, PrimFault>
    requires may { MayAdvance work.old.bank.now env.now proof.old goal }
    requires placed { IsPlaced work.old.bank.now env.now proof.old.store goal kind }
    requires numbered { IsNumbered (plain_prim prim.now) }
    requires values { AllByRecursion (HasGiven work.old.bank.now) values.now }
    requires values_stand { ValuesStand (store_of work.old.bank.now proof.old.store) (givens_of work.old.bank.now values.now) }
    ensures answer { (placed : (n : ℕ) → scene (env_of work.old.bank.now env.now) n (givens_of work.old.bank.now values.now) (store_of work.old.bank.now proof.old.store) goal
        ≡ gives (scene_in work.old.bank.now env.now proof.old.store goal kind (givens_of work.old.bank.now values.now) n))
        → Does work.new.bank.now (λ d. done_with work.new.bank.now proof.new d.goals.items d.shelved.items) result
        (λ n. run_prim (env_of work.old.bank.now env.now) n (proof_of work.old.bank.now proof.old) goal (plain_prim prim.now)
        (givens_of work.old.bank.now values.now)) work.old.ticks.now.left work.new.ticks.now.left }
    ensures held { OnOk result (IsHeld work.new.bank.now proof.new) }
    ensures grown { OnOk result (Grown (store_of work.old.bank.now proof.old.store) (store_of work.new.bank.now proof.new.store)) }
    ensures same_bank { work.new.bank.ghost_name ≡ work.old.bank.ghost_name }
    ensures same_ticks { work.new.ticks.ghost_name ≡ work.old.ticks.ghost_name }
    ensures grows { Grows work.old.bank.now work.new.bank.now }
    ensures budget { work.new.ticks.now.left + work.new.ticks.now.spent ≡ work.old.ticks.now.left + work.old.ticks.now.spent }
    ensures counted { steps.new + work.old.ticks.now.spent ≡ steps.old + work.new.ticks.now.spent }
{
    let before = proof.store().count();
    match row(
        work,
        env,
        proof.store_mut(),
        goal,
        kind,
        prim,
        values,
        steps,
    ) {
        Ok(goals) => match finish(work.bank.allocator(), proof, goal, before, &goals) {
            Ok(shelved) => Ok(PrimDone { goals, shelved }),
            Err(fault) => Err(fault),
        },
        Err(fault) => Err(fault),
    }
}

/// A primitive of the first table on a goal in focus or on the shelf: the new goals take its place, and the other variables without a value
/// that were made go to the shelf. The Ltac values are those of the names that its terms may hold. After a refusal the proof is whatever
/// was reached, and is to be dropped; see `run_prim`.
pub fn advance<L: Ledger>(
    work: &mut Work<'_, '_>,
    env: &Env,
    proof: &mut Proof,
    goal: u32,
    prim: &PrimTac,
    values: &[(NameId, Given)],
    steps: &mut Steps<L>,
) -> Result<PrimDone, PrimFault>
    requires may { MayAdvance work.old.bank.now env.now proof.old goal }
    requires numbered { IsNumbered (plain_prim prim.now) }
    requires values { AllByRecursion (HasGiven work.old.bank.now) values.now }
    requires values_stand { ValuesStand (store_of work.old.bank.now proof.old.store) (givens_of work.old.bank.now values.now) }
    ensures answer { Does work.new.bank.now (λ d. done_with work.new.bank.now proof.new d.goals.items d.shelved.items) result
        (λ n. run_prim (env_of work.old.bank.now env.now) n (proof_of work.old.bank.now proof.old) goal (plain_prim prim.now)
        (givens_of work.old.bank.now values.now)) work.old.ticks.now.left work.new.ticks.now.left }
    ensures held { OnOk result (IsHeld work.new.bank.now proof.new) }
    ensures grown { OnOk result (Grown (store_of work.old.bank.now proof.old.store) (store_of work.new.bank.now proof.new.store)) }
    ensures same_bank { work.new.bank.ghost_name ≡ work.old.bank.ghost_name }
    ensures same_ticks { work.new.ticks.ghost_name ≡ work.old.ticks.ghost_name }
    ensures grows { Grows work.old.bank.now work.new.bank.now }
    ensures budget { work.new.ticks.now.left + work.new.ticks.now.spent ≡ work.old.ticks.now.left + work.old.ticks.now.spent }
    ensures counted { steps.new + work.old.ticks.now.spent ≡ steps.old + work.new.ticks.now.spent }
{
    match goal_kind(work.bank, proof.store(), goal) {
        Ok(kind) => on_goal(work, env, proof, goal, kind, prim, values, steps),
        Err(fault) => Err(fault),
    }
}

/// A primitive of the first table on a goal in focus or on the shelf (Rocq reference manual, "Tactics"): the new goals take its place, and the
/// other variables without a value that were made go to the shelf. The Ltac values are those of the names that its terms may hold. It pays
/// the ticks of the row's work. It is refused as the row is, as `TooManyGoals` where more than 10,000 goals would be in focus, and for want
/// of memory; after a refusal the proof is as before.
pub fn run_prim<L: Ledger>(
    work: &mut Work<'_, '_>,
    env: &Env,
    proof: &mut Proof,
    goal: u32,
    prim: &PrimTac,
    values: &[(NameId, Given)],
    steps: &mut Steps<L>,
) -> Result<PrimDone, PrimFault>
    requires may { MayAdvance work.old.bank.now env.now proof.old goal }
    requires numbered { IsNumbered (plain_prim prim.now) }
    requires values { AllByRecursion (HasGiven work.old.bank.now) values.now }
    requires values_stand { ValuesStand (store_of work.old.bank.now proof.old.store) (givens_of work.old.bank.now values.now) }
    ensures answer { Does work.new.bank.now (λ d. done_with work.new.bank.now proof.new d.goals.items d.shelved.items) result
        (λ n. run_prim (env_of work.old.bank.now env.now) n (proof_of work.old.bank.now proof.old) goal (plain_prim prim.now)
        (givens_of work.old.bank.now values.now)) work.old.ticks.now.left work.new.ticks.now.left }
    ensures held { OnOk result (IsHeld work.new.bank.now proof.new) }
    ensures grown { OnOk result (Grown (store_of work.old.bank.now proof.old.store) (store_of work.new.bank.now proof.new.store)) }
    ensures unchanged { OnErr result (proof.new ≡ proof.old) }
    ensures same_bank { work.new.bank.ghost_name ≡ work.old.bank.ghost_name }
    ensures same_ticks { work.new.ticks.ghost_name ≡ work.old.ticks.ghost_name }
    ensures grows { Grows work.old.bank.now work.new.bank.now }
    ensures budget { work.new.ticks.now.left + work.new.ticks.now.spent ≡ work.old.ticks.now.left + work.old.ticks.now.spent }
    ensures counted { steps.new + work.old.ticks.now.spent ≡ steps.old + work.new.ticks.now.spent }
{
    let mut next = match proof.copy(work.bank.allocator()) {
        Ok(next) => next,
        Err(_) => return Err(PrimFault::NoMemory),
    };
    match advance(work, env, &mut next, goal, prim, values, steps) {
        Ok(done) => {
            *proof = next;
            Ok(done)
        }
        Err(fault) => Err(fault),
    }
}
