//! `assumption`: the newest hypothesis whose type is the goal's (Rocq reference manual, "Tactics").

ghost use Rattle.std.specs.Prelude.{◌≡◌, ◌+◌, ℕ, true, [], length, reverse, IfOk, OnOk, OnErr};
ghost use Rattle.lq_trees.specs.Fresh.{is_listed};
ghost use Rattle.lq_trees.specs.Tree.Tree.{Var};
ghost use Rattle.lq_terms.specs.Terms.{HasName, HasTerm, text_of, tree_of, Grows};
ghost use Rattle.lq_terms.specs.Contexts.{HasContext, context_of};
ghost use Rattle.lq_calculus.specs.Declarations.{rules_of};
ghost use Rattle.lq_env.specs.Environments.{IsEnv, env_of};
ghost use Rattle.lq_solving.specs.Stores.{read, read_context, names_in};
ghost use Rattle.lq_solving.specs.Kept.{IsContext, IsStore, StandsIn};
ghost use Rattle.lq_solving.specs.Claims.{ArePlainDeclarations};
ghost use Rattle.lq_solving.specs.Elaboration.{Givens};
ghost use Rattle.lq_evars.specs.Places.{HasStore, store_of};
ghost use Rattle.lq_tactics.specs.Rows.{done_by, ended};
ghost use Rattle.lq_tactics.specs.Primitives.{first_assumption};
ghost use Rattle.lq_prims.specs.Working.{Does};
ghost use Rattle.lq_prims.specs.Scenes.{IsPlaced, scene_by, scene_in, context_at, step_by};

use crate::comparing::compares;
use crate::faults::PrimFault;
use crate::giving::give;
use lq_env::Env;
use lq_evars::Store;
use lq_terms::{Context, NameId, Node, Steps, TermId, Work};
use std::sync::ledger::Ledger;

/// The newest hypothesis whose type compares with the goal's, which is as read.
fn fitting<L: Ledger>(
    work: &mut Work<'_, '_>,
    env: &Env,
    store: &Store,
    context: &Context,
    wanted: TermId,
    steps: &mut Steps<L>,
) -> Result<NameId, PrimFault>
    requires env { IsEnv work.old.bank.now env.now }
    requires plain { ArePlainDeclarations (env_of work.old.bank.now env.now) }
    requires store { HasStore work.old.bank.now store.now }
    requires kept { IsStore (store_of work.old.bank.now store.now) }
    requires context { HasContext work.old.bank.now context.now }
    requires hypotheses { IsContext (store_of work.old.bank.now store.now) (context_of work.old.bank.now context.now) }
    requires wanted { HasTerm work.old.bank.now wanted }
    requires stands { StandsIn (store_of work.old.bank.now store.now) (context_of work.old.bank.now context.now) (tree_of work.old.bank.now wanted) }
    requires is { read (store_of work.old.bank.now store.now) (tree_of work.old.bank.now wanted) ≡ tree_of work.old.bank.now wanted }
    ensures answer { (k : ℕ) (vs : Givens) → Does work.new.bank.now
        (λ x. done_by (store_of work.old.bank.now store.now) (Var (text_of work.old.bank.now x)) []) result
        (λ n. first_assumption (scene_by (env_of work.old.bank.now env.now) (store_of work.old.bank.now store.now) k
        (context_of work.old.bank.now context.now) (tree_of work.old.bank.now wanted) vs n) (reverse (context_of work.old.bank.now context.now)))
        work.old.ticks.now.left work.new.ticks.now.left }
    ensures has { IfOk result (HasName work.old.bank.now) }
    ensures listed { IfOk result (λ x. is_listed (names_in (context_of work.old.bank.now context.now)) (text_of work.old.bank.now x) ≡ true) }
    ensures same_bank { work.new.bank.ghost_name ≡ work.old.bank.ghost_name }
    ensures same_ticks { work.new.ticks.ghost_name ≡ work.old.ticks.ghost_name }
    ensures unchanged { work.new.bank.now ≡ work.old.bank.now }
    ensures budget { work.new.ticks.now.left + work.new.ticks.now.spent ≡ work.old.ticks.now.left + work.old.ticks.now.spent }
    ensures counted { steps.new + work.old.ticks.now.spent ≡ steps.old + work.new.ticks.now.spent }
{
    let hypotheses = context.hypotheses();
    for place in (0..hypotheses.len()).rev() {
        let hypothesis = hypotheses[place];
        match compares(work, env, store, context, hypothesis.kind, wanted, steps) {
            Ok(true) => return Ok(hypothesis.name),
            Ok(false) => {}
            Err(fault) => return Err(fault),
        }
    }
    Err(PrimFault::NoAssumption)
}

/// The newest hypothesis whose type compares with the goal's is the goal's body. It is refused as `NoAssumption` where there is none.
/// After a refusal the store is as before.
pub(crate) fn assumption<L: Ledger>(
    work: &mut Work<'_, '_>,
    env: &Env,
    store: &mut Store,
    goal: u32,
    kind: TermId,
    steps: &mut Steps<L>,
) -> Result<(), PrimFault>
    requires placed { IsPlaced work.old.bank.now env.now store.old goal kind }
    ensures answer { (vs : Givens) → Does work.new.bank.now (λ u. step_by (store_of work.new.bank.now store.new) []) result
        (λ n. ended (scene_in work.old.bank.now env.now store.old goal kind vs n)
        (first_assumption (scene_in work.old.bank.now env.now store.old goal kind vs n)
        (reverse (context_at (store_of work.old.bank.now store.old) goal))))
        work.old.ticks.now.left work.new.ticks.now.left }
    ensures refused { OnErr result (store.new ≡ store.old) }
    ensures has { OnOk result (HasStore work.new.bank.now store.new) }
    ensures kept { OnOk result (IsStore (store_of work.new.bank.now store.new)) }
    ensures same_bank { work.new.bank.ghost_name ≡ work.old.bank.ghost_name }
    ensures same_ticks { work.new.ticks.ghost_name ≡ work.old.ticks.ghost_name }
    ensures grows { Grows work.old.bank.now work.new.bank.now }
    ensures budget { work.new.ticks.now.left + work.new.ticks.now.spent ≡ work.old.ticks.now.left + work.old.ticks.now.spent }
    ensures counted { steps.new + work.old.ticks.now.spent ≡ steps.old + work.new.ticks.now.spent }
{
    let found = fitting(work, env, store, store.context(goal), kind, steps)?;
    let body = work.bank.make(Node::Var(found))?;
    give(work.bank, store, goal, body)
}
