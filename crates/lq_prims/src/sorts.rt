//! The sort of a goal's type.

ghost use Rattle.std.specs.Prelude.{◌≡◌, ◌+◌};
ghost use Rattle.lq_terms.specs.Terms.{HasTerm, tree_of, Grows};
ghost use Rattle.lq_solving.specs.Elaboration.{Givens, sort_form};
ghost use Rattle.lq_tactics.specs.Rows.{elab_work, goal_sort};
ghost use Rattle.lq_prims.specs.Scenes.{IsPlaced, scene_in};
ghost use Rattle.lq_prims.specs.Working.{Does, Tells};

use crate::faults::PrimFault;
use crate::needing::head;
use crate::typing::type_in;
use lq_env::Env;
use lq_evars::Store;
use lq_terms::{Bank, Node, Steps, TermId, Work};
use lq_trees::Sort;
use lq_typing::ElabFault;
use std::sync::ledger::Ledger;

/// The sort that a weak head form must be.
pub(crate) fn sort_form(bank: &Bank<'_>, form: TermId) -> Result<Sort, PrimFault>
    requires { HasTerm bank.now form }
    ensures { Tells bank.now (λ s. s) result (elab_work (sort_form (tree_of bank.now form))) }
{
    match bank.node(form) {
        Node::Sort(sort) => Ok(*sort),
        _ => Err(PrimFault::Elab(ElabFault::NotASort(form))),
    }
}

/// The sort of the type of a goal's type: a tick for each node, and one for each contraction.
pub(crate) fn goal_sort<L: Ledger>(
    work: &mut Work<'_, '_>,
    env: &Env,
    store: &Store,
    goal: u32,
    kind: TermId,
    steps: &mut Steps<L>,
) -> Result<Sort, PrimFault>
    requires placed { IsPlaced work.old.bank.now env.now store.now goal kind }
    ensures answer { (vs : Givens) → Does work.new.bank.now (λ s. s) result (λ n. goal_sort (scene_in work.old.bank.now env.now store.now goal kind vs n))
        work.old.ticks.now.left work.new.ticks.now.left }
    ensures same_bank { work.new.bank.ghost_name ≡ work.old.bank.ghost_name }
    ensures same_ticks { work.new.ticks.ghost_name ≡ work.old.ticks.ghost_name }
    ensures grows { Grows work.old.bank.now work.new.bank.now }
    ensures budget { work.new.ticks.now.left + work.new.ticks.now.spent ≡ work.old.ticks.now.left + work.old.ticks.now.spent }
    ensures counted { steps.new + work.old.ticks.now.spent ≡ steps.old + work.new.ticks.now.spent }
{
    let found = type_in(work, env, store, store.context(goal), kind, steps)?;
    let form = head(work, env, store, store.context(goal), found, steps)?;
    sort_form(work.bank, form)
}
