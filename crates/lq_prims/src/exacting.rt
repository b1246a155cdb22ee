//! `exact` (Rocq reference manual, "Tactics").

ghost use Rattle.std.specs.Prelude.{◌≡◌, ◌+◌, [], ℕ, IfOk, OnOk};
ghost use Rattle.std.specs.List.{AllByRecursion};
ghost use Rattle.lq_ast.specs.Plain.{plain};
ghost use Rattle.lq_terms.specs.Terms.{HasTerm, tree_of, Grows};
ghost use Rattle.lq_solving.specs.Kept.{IsStore};
ghost use Rattle.lq_solving.specs.Elaboration.{Givens};
ghost use Rattle.lq_evars.specs.Places.{HasStore, store_of};
ghost use Rattle.lq_elab.specs.Calls.{ValuesStand};
ghost use Rattle.lq_elab.specs.States.{HasGiven, givens_of};
ghost use Rattle.lq_tactics.specs.Rows.{done_by, ended};
ghost use Rattle.lq_tactics.specs.Primitives.{do_exact};
ghost use Rattle.lq_tactics.proofs.RowsKept.{IsReached};
ghost use Rattle.lq_prims.specs.Leaving.{Leaves};
ghost use Rattle.lq_prims.specs.Scenes.{IsPlaced, scene_in, step_by};
ghost use Rattle.lq_prims.specs.Working.{Does};

use crate::faults::PrimFault;
use crate::giving::give;
use crate::making::refuse_open;
use crate::terms::term_of;
use lq_ast::Surface;
use lq_elab::Given;
use lq_env::Env;
use lq_evars::Store;
use lq_terms::{NameId, Steps, TermId, Work};
use std::sync::ledger::Ledger;

/// The body that `exact` gives: the term at the goal's type, all of whose variables have a value.
fn do_exact<L: Ledger>(
    work: &mut Work<'_, '_>,
    env: &Env,
    store: &mut Store,
    goal: u32,
    kind: TermId,
    values: &[(NameId, Given)],
    term: &Surface,
    steps: &mut Steps<L>,
) -> Result<TermId, PrimFault>
    requires placed { IsPlaced work.old.bank.now env.now store.old goal kind }
    requires values { AllByRecursion (HasGiven work.old.bank.now) values.now }
    requires values_stand { ValuesStand (store_of work.old.bank.now store.old) (givens_of work.old.bank.now values.now) }
    ensures answer { Does work.new.bank.now (λ u. done_by (store_of work.new.bank.now store.new) (tree_of work.new.bank.now u) []) result
        (λ n. do_exact (scene_in work.old.bank.now env.now store.old goal kind (givens_of work.old.bank.now values.now) n) (plain term.now))
        work.old.ticks.now.left work.new.ticks.now.left }
    ensures body { IfOk result (HasTerm work.new.bank.now) }
    ensures has { OnOk result (HasStore work.new.bank.now store.new) }
    ensures reached { IfOk result (λ u. (vs : Givens) (n : ℕ) → IsReached (scene_in work.old.bank.now env.now store.old goal kind vs n)
        (done_by (store_of work.new.bank.now store.new) (tree_of work.new.bank.now u) [])) }
    ensures same_bank { work.new.bank.ghost_name ≡ work.old.bank.ghost_name }
    ensures same_ticks { work.new.ticks.ghost_name ≡ work.old.ticks.ghost_name }
    ensures grows { Grows work.old.bank.now work.new.bank.now }
    ensures budget { work.new.ticks.now.left + work.new.ticks.now.spent ≡ work.old.ticks.now.left + work.old.ticks.now.spent }
    ensures counted { steps.new + work.old.ticks.now.spent ≡ steps.old + work.new.ticks.now.spent }
{
    let before = store.count();
    match term_of(work, env, store, goal, values, term, Some(kind), steps) {
        Ok(elaborated) => match refuse_open(work.bank.allocator(), work.bank, store, before) {
            Ok(()) => Ok(elaborated.term),
            Err(fault) => Err(fault),
        },
        Err(fault) => Err(fault),
    }
}

/// `exact`: the goal's body is the term, which has the goal's type. It is refused as `VariablesLeft` where variables that the term made have
/// no value, with their number. See `lq_elab::elaborate`, whose refusals come in `PrimFault::Elab`.
pub(crate) fn exact<L: Ledger>(
    work: &mut Work<'_, '_>,
    env: &Env,
    store: &mut Store,
    goal: u32,
    kind: TermId,
    values: &[(NameId, Given)],
    term: &Surface,
    steps: &mut Steps<L>,
) -> Result<(), PrimFault>
    requires placed { IsPlaced work.old.bank.now env.now store.old goal kind }
    requires values { AllByRecursion (HasGiven work.old.bank.now) values.now }
    requires values_stand { ValuesStand (store_of work.old.bank.now store.old) (givens_of work.old.bank.now values.now) }
    ensures answer { Does work.new.bank.now (λ u. step_by (store_of work.new.bank.now store.new) []) result
        (λ n. ended (scene_in work.old.bank.now env.now store.old goal kind (givens_of work.old.bank.now values.now) n)
        (do_exact (scene_in work.old.bank.now env.now store.old goal kind (givens_of work.old.bank.now values.now) n) (plain term.now)))
        work.old.ticks.now.left work.new.ticks.now.left }
    ensures leaves { OnOk result (Leaves (store_of work.old.bank.now store.old) goal (store_of work.new.bank.now store.new) []) }
    ensures has { OnOk result (HasStore work.new.bank.now store.new) }
    ensures kept { OnOk result (IsStore (store_of work.new.bank.now store.new)) }
    ensures same_bank { work.new.bank.ghost_name ≡ work.old.bank.ghost_name }
    ensures same_ticks { work.new.ticks.ghost_name ≡ work.old.ticks.ghost_name }
    ensures grows { Grows work.old.bank.now work.new.bank.now }
    ensures budget { work.new.ticks.now.left + work.new.ticks.now.spent ≡ work.old.ticks.now.left + work.old.ticks.now.spent }
    ensures counted { steps.new + work.old.ticks.now.spent ≡ steps.old + work.new.ticks.now.spent }
{
    match do_exact(work, env, store, goal, kind, values, term, steps) {
        Ok(body) => give(work.bank, store, goal, body),
        Err(fault) => Err(fault),
    }
}
