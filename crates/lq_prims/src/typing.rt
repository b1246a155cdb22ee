//! The type of a term, for a row.

ghost use Rattle.std.specs.Prelude.{◌≡◌, ◌+◌, IfOk};
ghost use Rattle.lq_terms.specs.Terms.{HasTerm, tree_of, Grows};
ghost use Rattle.lq_terms.specs.Contexts.{context_of};
ghost use Rattle.lq_env.specs.Environments.{env_of};
ghost use Rattle.lq_solving.specs.Kept.{StandsIn};
ghost use Rattle.lq_solving.specs.ElabFaults.{type_of};
ghost use Rattle.lq_evars.specs.Places.{store_of};
ghost use Rattle.lq_typing.specs.Kinds.{IsKind};
ghost use Rattle.lq_typing.specs.Sites.{IsSite};
ghost use Rattle.lq_tactics.specs.Rows.{elab_work};
ghost use Rattle.lq_prims.specs.Working.{Does};

use crate::faults::PrimFault;
use lq_env::Env;
use lq_evars::Store;
use lq_terms::{Context, Steps, TermId, Work};
use lq_typing::type_of;
use std::sync::ledger::Ledger;

/// The type of a term in a context, as read: a tick for each node, and one for each contraction.
pub(crate) fn type_in<L: Ledger>(
    work: &mut Work<'_, '_>,
    env: &Env,
    store: &Store,
    context: &Context,
    term: TermId,
    steps: &mut Steps<L>,
) -> Result<TermId, PrimFault>
    requires site { IsSite work.old.bank.now env.now store.now context.now }
    requires has { HasTerm work.old.bank.now term }
    requires term { StandsIn (store_of work.old.bank.now store.now) (context_of work.old.bank.now context.now) (tree_of work.old.bank.now term) }
    ensures answer { Does work.new.bank.now (tree_of work.new.bank.now) result
        (λ n. elab_work (type_of (env_of work.old.bank.now env.now) n (store_of work.old.bank.now store.now) (context_of work.old.bank.now context.now)
        (tree_of work.old.bank.now term))) work.old.ticks.now.left work.new.ticks.now.left }
    ensures stands { IfOk result (IsKind work.new.bank.now (store_of work.old.bank.now store.now) (context_of work.old.bank.now context.now)) }
    ensures same_bank { work.new.bank.ghost_name ≡ work.old.bank.ghost_name }
    ensures same_ticks { work.new.ticks.ghost_name ≡ work.old.ticks.ghost_name }
    ensures grows { Grows work.old.bank.now work.new.bank.now }
    ensures budget { work.new.ticks.now.left + work.new.ticks.now.spent ≡ work.old.ticks.now.left + work.old.ticks.now.spent }
    ensures counted { steps.new + work.old.ticks.now.spent ≡ steps.old + work.new.ticks.now.spent }
{
    match type_of(work, env, store, context, term, steps) {
        Ok(kind) => Ok(kind),
        Err(fault) => Err(PrimFault::from(fault)),
    }
}
