//! `refine` (Rocq reference manual, "Tactics").

ghost use Rattle.std.specs.Prelude.{◌≡◌, ◌<◌, ◌≤◌, ◌+◌, [], ℕ, length, IfOk, OnOk};
ghost use Rattle.std.specs.List.{AllByRecursion};
ghost use Rattle.lq_ast.specs.Plain.{plain};
ghost use Rattle.lq_terms.specs.Terms.{HasTerm, tree_of, Grows};
ghost use Rattle.lq_solving.specs.Kept.{IsStore};
ghost use Rattle.lq_solving.specs.Stores.{Store as TreeStore, count};
ghost use Rattle.lq_evars.specs.Places.{HasStore, store_of};
ghost use Rattle.lq_elab.specs.Calls.{ValuesStand};
ghost use Rattle.lq_elab.specs.States.{HasGiven, givens_of};
ghost use Rattle.lq_tactics.specs.Rows.{Scene, ended};
ghost use Rattle.lq_tactics.specs.Primitives.{do_refine};
ghost use Rattle.lq_tactics.proofs.RowsKept.{IsReached};
ghost use Rattle.lq_prims.specs.Building.{built_done, free_goals, refine_work};
ghost use Rattle.lq_prims.specs.Leaving.{Leaves};
ghost use Rattle.lq_prims.specs.Scenes.{IsPlaced, scene_in, step_by};
ghost use Rattle.lq_prims.specs.Working.{Does};

use crate::building::{Built, given};
use crate::depending::independent;
use crate::faults::PrimFault;
use crate::making::made_open;
use crate::settling::as_goals;
use crate::terms::term_of;
use lq_ast::Surface;
use lq_elab::Given;
use lq_env::Env;
use lq_evars::Store;
use lq_terms::{Bank, NameId, NoMemory, Steps, TermId, Work};
use std::sync::ledger::Ledger;

/// The variables without a value that were made since there were so many, but for those on which the type of one of them depends.
fn free_goals(bank: &Bank<'_>, store: &Store, before: u32) -> Result<Vec<u32>, NoMemory>
    requires store { HasStore bank.now store.now }
    requires kept { IsStore (store_of bank.now store.now) }
    requires before { before ≤ length store.now.variables }
    ensures goals { IfOk result (λ v. (s : TreeStore) → count s ≡ before → v.items ≡ free_goals s (store_of bank.now store.now)) }
    ensures inside { IfOk result (λ v. AllByRecursion (λ k. k < length store.now.variables) v.items) }
{
    let made = made_open(bank.allocator(), store, before)?;
    independent(bank, store, made.as_slice())
}

/// What `refine` builds of a term: the variables that it made, since there were so many, become goals.
fn refined<L: Ledger>(
    work: &mut Work<'_, '_>,
    store: &mut Store,
    before: u32,
    term: TermId,
    steps: &mut Steps<L>,
) -> Result<Built, PrimFault>
    requires store { HasStore work.old.bank.now store.old }
    requires kept { IsStore (store_of work.old.bank.now store.old) }
    requires before { before ≤ length store.old.variables }
    requires term { HasTerm work.old.bank.now term }
    ensures answer { (c : ℕ → Scene) → ((n : ℕ) → (c n).bound ≡ n) → (s : TreeStore) → count s ≡ before
        → Does work.new.bank.now (built_done work.new.bank.now store.new) result
        (λ n. refine_work (c n) s (store_of work.old.bank.now store.old) (tree_of work.old.bank.now term))
        work.old.ticks.now.left work.new.ticks.now.left }
    ensures body { IfOk result (λ b. HasTerm work.new.bank.now b.body) }
    ensures has { OnOk result (HasStore work.new.bank.now store.new) }
    ensures same_bank { work.new.bank.ghost_name ≡ work.old.bank.ghost_name }
    ensures same_ticks { work.new.ticks.ghost_name ≡ work.old.ticks.ghost_name }
    ensures grows { Grows work.old.bank.now work.new.bank.now }
    ensures budget { work.new.ticks.now.left + work.new.ticks.now.spent ≡ work.old.ticks.now.left + work.old.ticks.now.spent }
    ensures counted { steps.new + work.old.ticks.now.spent ≡ steps.old + work.new.ticks.now.spent }
{
    match free_goals(work.bank, store, before) {
        Ok(goals) => match as_goals(work, store, goals.as_slice(), steps) {
            Ok(()) => Ok(Built { body: term, goals }),
            Err(fault) => Err(fault),
        },
        Err(_) => Err(PrimFault::NoMemory),
    }
}

/// What `refine` builds: the term at the goal's type.
fn do_refine<L: Ledger>(
    work: &mut Work<'_, '_>,
    env: &Env,
    store: &mut Store,
    goal: u32,
    kind: TermId,
    values: &[(NameId, Given)],
    term: &Surface,
    steps: &mut Steps<L>,
) -> Result<Built, PrimFault>
    requires placed { IsPlaced work.old.bank.now env.now store.old goal kind }
    requires values { AllByRecursion (HasGiven work.old.bank.now) values.now }
    requires values_stand { ValuesStand (store_of work.old.bank.now store.old) (givens_of work.old.bank.now values.now) }
    ensures answer { Does work.new.bank.now (built_done work.new.bank.now store.new) result
        (λ n. do_refine (scene_in work.old.bank.now env.now store.old goal kind (givens_of work.old.bank.now values.now) n) (plain term.now))
        work.old.ticks.now.left work.new.ticks.now.left }
    ensures body { IfOk result (λ b. HasTerm work.new.bank.now b.body) }
    ensures has { OnOk result (HasStore work.new.bank.now store.new) }
    ensures reached { IfOk result (λ b. IsReached (scene_in work.old.bank.now env.now store.old goal kind [] 0) (built_done work.new.bank.now store.new b)) }
    ensures same_bank { work.new.bank.ghost_name ≡ work.old.bank.ghost_name }
    ensures same_ticks { work.new.ticks.ghost_name ≡ work.old.ticks.ghost_name }
    ensures grows { Grows work.old.bank.now work.new.bank.now }
    ensures budget { work.new.ticks.now.left + work.new.ticks.now.spent ≡ work.old.ticks.now.left + work.old.ticks.now.spent }
    ensures counted { steps.new + work.old.ticks.now.spent ≡ steps.old + work.new.ticks.now.spent }
{
    let before = store.count();
    match term_of(work, env, store, goal, values, term, Some(kind), steps) {
        Ok(found) => refined(work, store, before, found.term, steps),
        Err(fault) => Err(fault),
    }
}

/// `refine`: the goal's body is the term, which has the goal's type; the variables that it made are the new goals, in order, but for those
/// on which the type of one of them depends. The refusals of `lq_elab::elaborate` come in `PrimFault::Elab`.
pub(crate) fn refine<L: Ledger>(
    work: &mut Work<'_, '_>,
    env: &Env,
    store: &mut Store,
    goal: u32,
    kind: TermId,
    values: &[(NameId, Given)],
    term: &Surface,
    steps: &mut Steps<L>,
) -> Result<Vec<u32>, PrimFault>
    requires placed { IsPlaced work.old.bank.now env.now store.old goal kind }
    requires values { AllByRecursion (HasGiven work.old.bank.now) values.now }
    requires values_stand { ValuesStand (store_of work.old.bank.now store.old) (givens_of work.old.bank.now values.now) }
    ensures answer { Does work.new.bank.now (λ v. step_by (store_of work.new.bank.now store.new) v.items) result
        (λ n. ended (scene_in work.old.bank.now env.now store.old goal kind (givens_of work.old.bank.now values.now) n)
        (do_refine (scene_in work.old.bank.now env.now store.old goal kind (givens_of work.old.bank.now values.now) n) (plain term.now)))
        work.old.ticks.now.left work.new.ticks.now.left }
    ensures leaves { IfOk result (λ v. Leaves (store_of work.old.bank.now store.old) goal (store_of work.new.bank.now store.new) v.items) }
    ensures has { OnOk result (HasStore work.new.bank.now store.new) }
    ensures kept { OnOk result (IsStore (store_of work.new.bank.now store.new)) }
    ensures same_bank { work.new.bank.ghost_name ≡ work.old.bank.ghost_name }
    ensures same_ticks { work.new.ticks.ghost_name ≡ work.old.ticks.ghost_name }
    ensures grows { Grows work.old.bank.now work.new.bank.now }
    ensures budget { work.new.ticks.now.left + work.new.ticks.now.spent ≡ work.old.ticks.now.left + work.old.ticks.now.spent }
    ensures counted { steps.new + work.old.ticks.now.spent ≡ steps.old + work.new.ticks.now.spent }
{
    match do_refine(work, env, store, goal, kind, values, term, steps) {
        Ok(built) => given(work.bank, store, goal, built),
        Err(fault) => Err(fault),
    }
}
