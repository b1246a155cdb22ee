//! Types that compare.

ghost use Rattle.std.specs.Prelude.{◌≡◌, ◌+◌};
ghost use Rattle.lq_terms.specs.Terms.{HasTerm, tree_of};
ghost use Rattle.lq_terms.specs.Contexts.{HasContext, context_of};
ghost use Rattle.lq_calculus.specs.Checking.{conv};
ghost use Rattle.lq_calculus.specs.Declarations.{rules_of};
ghost use Rattle.lq_env.specs.Environments.{IsEnv, env_of};
ghost use Rattle.lq_solving.specs.Stores.{read, read_context};
ghost use Rattle.lq_solving.specs.Kept.{IsContext, IsStore, StandsIn};
ghost use Rattle.lq_solving.specs.Claims.{ArePlainDeclarations};
ghost use Rattle.lq_evars.specs.Places.{HasStore, store_of};
ghost use Rattle.lq_prims.specs.Working.{Does};

use crate::faults::PrimFault;
use lq_env::Env;
use lq_evars::Store;
use lq_reduce::conv;
use lq_terms::{Context, Steps, TermId, Work};
use std::sync::ledger::Ledger;

/// Whether two types compare: a tick for each pair of terms that is looked at, and one for each contraction.
pub(crate) fn compares<L: Ledger>(
    work: &mut Work<'_, '_>,
    env: &Env,
    store: &Store,
    context: &Context,
    kind: TermId,
    wanted: TermId,
    steps: &mut Steps<L>,
) -> Result<bool, PrimFault>
    requires env { IsEnv work.old.bank.now env.now }
    requires plain { ArePlainDeclarations (env_of work.old.bank.now env.now) }
    requires store { HasStore work.old.bank.now store.now }
    requires kept { IsStore (store_of work.old.bank.now store.now) }
    requires context { HasContext work.old.bank.now context.now }
    requires hypotheses { IsContext (store_of work.old.bank.now store.now) (context_of work.old.bank.now context.now) }
    requires kind { HasTerm work.old.bank.now kind }
    requires kind_stands { StandsIn (store_of work.old.bank.now store.now) (context_of work.old.bank.now context.now) (tree_of work.old.bank.now kind) }
    requires wanted { HasTerm work.old.bank.now wanted }
    requires wanted_stands { StandsIn (store_of work.old.bank.now store.now) (context_of work.old.bank.now context.now) (tree_of work.old.bank.now wanted) }
    ensures answer { Does work.new.bank.now (λ b. b) result (λ n. conv (rules_of (env_of work.old.bank.now env.now))
        (read_context (store_of work.old.bank.now store.now) (context_of work.old.bank.now context.now)) n
        (read (store_of work.old.bank.now store.now) (tree_of work.old.bank.now kind))
        (read (store_of work.old.bank.now store.now) (tree_of work.old.bank.now wanted)))
        work.old.ticks.now.left work.new.ticks.now.left }
    ensures same_bank { work.new.bank.ghost_name ≡ work.old.bank.ghost_name }
    ensures same_ticks { work.new.ticks.ghost_name ≡ work.old.ticks.ghost_name }
    ensures unchanged { work.new.bank.now ≡ work.old.bank.now }
    ensures budget { work.new.ticks.now.left + work.new.ticks.now.spent ≡ work.old.ticks.now.left + work.old.ticks.now.spent }
    ensures counted { steps.new + work.old.ticks.now.spent ≡ steps.old + work.new.ticks.now.spent }
{
    work.bank.names_apart();
    env.computes();
    store.values_stand();
    match conv(work, env, store, context, kind, wanted, steps) {
        Ok(same) => Ok(same),
        Err(fault) => Err(PrimFault::from(fault)),
    }
}
