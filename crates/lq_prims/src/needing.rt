//! Terms that a row needs: as they read, in weak head form, in beta normal form, within the limits.

ghost use Rattle.std.specs.Prelude.{◌≡◌, ◌+◌, IfOk};
ghost use Rattle.lq_trees.specs.Hypotheses.{HoldsOnly};
ghost use Rattle.lq_trees.specs.Index.{Within};
ghost use Rattle.lq_terms.specs.Contexts.{HasContext, context_of};
ghost use Rattle.lq_terms.specs.Terms.{HasTerm, tree_of, Grows};
ghost use Rattle.lq_env.specs.Environments.{env_of};
ghost use Rattle.lq_solving.specs.Stores.{read, names_in};
ghost use Rattle.lq_solving.specs.Kept.{IsOver, IsStore, StandsIn};
ghost use Rattle.lq_evars.specs.Places.{HasStore, store_of};
ghost use Rattle.lq_typing.specs.Sites.{IsSite};
ghost use Rattle.lq_tactics.specs.Rows.{needed, needed_form};
ghost use Rattle.lq_prims.specs.Working.{Does, Tells};
ghost use Rattle.lq_prims.specs.Scenes.{form_work, normal_work};

use crate::faults::PrimFault;
use lq_beta::beta_normal;
use lq_env::Env;
use lq_evars::Store;
use lq_reduce::whnf;
use lq_terms::{Bank, Context, Hypothesis, Steps, TermId, Work, fits};
use lq_trees::Fit;
use lq_typing::ElabFault;
use std::sync::ledger::Ledger;

/// A term as it reads, within the limits.
pub(crate) fn needed(bank: &mut Bank<'_>, store: &Store, term: TermId) -> Result<TermId, PrimFault>
    requires store { HasStore bank.old store.now }
    requires kept { IsStore (store_of bank.old store.now) }
    requires term { HasTerm bank.old term }
    requires over { IsOver (store_of bank.old store.now).variables (tree_of bank.old term) }
    requires closed { Within 0 (tree_of bank.old term) }
    ensures answer { Tells bank.new (tree_of bank.new) result (needed (read (store_of bank.old store.now) (tree_of bank.old term))) }
    ensures has { IfOk result (HasTerm bank.new) }
    ensures grows { Grows bank.old bank.new }
{
    match store.read(bank, term) {
        Ok(read) => Ok(read),
        Err(fault) => Err(PrimFault::from(fault)),
    }
}

/// A form that was computed, if it is within the limits.
fn fitting(bank: &Bank<'_>, form: TermId) -> Result<TermId, PrimFault>
    requires { HasTerm bank.now form }
    ensures answer { Tells bank.now (tree_of bank.now) result (needed_form (tree_of bank.now form)) }
    ensures same { IfOk result (λ t. t ≡ form) }
{
    match fits(bank, form) {
        Fit::Fits => Ok(form),
        Fit::TooLarge => Err(PrimFault::Elab(ElabFault::TooLarge)),
        Fit::TooDeep => Err(PrimFault::Elab(ElabFault::TooDeep)),
    }
}

/// The weak head form of a term, as read and within the limits: a tick for each contraction.
pub(crate) fn head<L: Ledger>(
    work: &mut Work<'_, '_>,
    env: &Env,
    store: &Store,
    context: &Context,
    term: TermId,
    steps: &mut Steps<L>,
) -> Result<TermId, PrimFault>
    requires site { IsSite work.old.bank.now env.now store.now context.now }
    requires has { HasTerm work.old.bank.now term }
    requires term { StandsIn (store_of work.old.bank.now store.now) (context_of work.old.bank.now context.now) (tree_of work.old.bank.now term) }
    ensures answer { Does work.new.bank.now (tree_of work.new.bank.now) result
        (λ n. form_work (env_of work.old.bank.now env.now) (store_of work.old.bank.now store.now) (context_of work.old.bank.now context.now)
        (tree_of work.old.bank.now term) n) work.old.ticks.now.left work.new.ticks.now.left }
    ensures has { IfOk result (HasTerm work.new.bank.now) }
    ensures same_bank { work.new.bank.ghost_name ≡ work.old.bank.ghost_name }
    ensures same_ticks { work.new.ticks.ghost_name ≡ work.old.ticks.ghost_name }
    ensures grows { Grows work.old.bank.now work.new.bank.now }
    ensures budget { work.new.ticks.now.left + work.new.ticks.now.spent ≡ work.old.ticks.now.left + work.old.ticks.now.spent }
    ensures counted { steps.new + work.old.ticks.now.spent ≡ steps.old + work.new.ticks.now.spent }
{
    work.bank.names_apart();
    env.computes();
    store.values_stand();
    match whnf(work, env, store, context, term, steps) {
        Ok(form) => Ok(form),
        Err(fault) => Err(PrimFault::from(fault)),
    }
}

/// The beta normal form of a term, within the limits: a tick for each contraction.
pub(crate) fn normal<L: Ledger>(
    work: &mut Work<'_, '_>,
    context: &[Hypothesis],
    term: TermId,
    steps: &mut Steps<L>,
) -> Result<TermId, PrimFault>
    requires term { HasTerm work.old.bank.now term }
    requires context { HasContext work.old.bank.now context.now }
    requires holds { HoldsOnly (names_in (context_of work.old.bank.now context.now)) (tree_of work.old.bank.now term) }
    ensures answer { Does work.new.bank.now (tree_of work.new.bank.now) result (normal_work (tree_of work.old.bank.now term))
        work.old.ticks.now.left work.new.ticks.now.left }
    ensures has { IfOk result (HasTerm work.new.bank.now) }
    ensures same_bank { work.new.bank.ghost_name ≡ work.old.bank.ghost_name }
    ensures same_ticks { work.new.ticks.ghost_name ≡ work.old.ticks.ghost_name }
    ensures grows { Grows work.old.bank.now work.new.bank.now }
    ensures budget { work.new.ticks.now.left + work.new.ticks.now.spent ≡ work.old.ticks.now.left + work.old.ticks.now.spent }
    ensures counted { steps.new + work.old.ticks.now.spent ≡ steps.old + work.new.ticks.now.spent }
{
    match beta_normal(work, context, term, steps) {
        Ok(form) => fitting(work.bank, form),
        Err(fault) => Err(PrimFault::from(fault)),
    }
}
