//! Terms that unify.

ghost use Rattle.std.specs.Prelude.{◌≡◌, ◌+◌, ◌∷◌, [], ℕ, false, IfOk, OnOk, OnErr};
ghost use Rattle.lq_trees.specs.Index.{Within};
ghost use Rattle.lq_terms.specs.Terms.{HasTerm, tree_of, Grows};
ghost use Rattle.lq_terms.specs.Contexts.{context_of};
ghost use Rattle.lq_calculus.specs.Declarations.{rules_of};
ghost use Rattle.lq_env.specs.Environments.{env_of};
ghost use Rattle.lq_solving.specs.Kept.{IsOver, IsStore, StandsIn};
ghost use Rattle.lq_solving.specs.Stores.{read};
ghost use Rattle.lq_solving.specs.ElabFaults.{by_unify};
ghost use Rattle.lq_solving.specs.Unification.{unify};
ghost use Rattle.lq_evars.specs.Places.{HasStore, store_of};
ghost use Rattle.lq_solving.proofs.Later.{Later};
ghost use Rattle.lq_typing.specs.Sites.{IsSite};
ghost use Rattle.lq_unify.specs.Frames.{answer_of};
ghost use Rattle.lq_tactics.specs.Rows.{Done, elab_work, told, do_not_unify};
ghost use Rattle.lq_prims.specs.Scenes.{IsDeclared, IsGoal, context_at};
ghost use Rattle.lq_prims.specs.Working.{Refuses, Does};

use crate::faults::PrimFault;
use crate::needing::needed;
use lq_env::Env;
use lq_evars::Store;
use lq_terms::{Bank, Context, NoMemory, Steps, TermId, Work};
use lq_unify::unify;
use std::alloc::Global;
use std::sync::ledger::Ledger;

/// Whether two terms unify in a context, by the values that the store then has: a tick for each call on two terms, and one for each
/// contraction. After false, and after a refusal, the store is as before.
pub(crate) fn unifies<L: Ledger>(
    work: &mut Work<'_, '_>,
    env: &Env,
    store: &mut Store,
    context: &Context,
    left: TermId,
    right: TermId,
    steps: &mut Steps<L>,
) -> Result<bool, PrimFault>
    requires site { IsSite work.old.bank.now env.now store.old context.now }
    requires left { HasTerm work.old.bank.now left }
    requires left_stands { StandsIn (store_of work.old.bank.now store.old) (context_of work.old.bank.now context.now) (tree_of work.old.bank.now left) }
    requires right { HasTerm work.old.bank.now right }
    requires right_stands { StandsIn (store_of work.old.bank.now store.old) (context_of work.old.bank.now context.now) (tree_of work.old.bank.now right) }
    ensures answer { Does work.new.bank.now (answer_of work.new.bank.now store.new) result
        (λ n. elab_work (by_unify (unify (rules_of (env_of work.old.bank.now env.now)) n (context_of work.old.bank.now context.now)
        (store_of work.old.bank.now store.old) (tree_of work.old.bank.now left) (tree_of work.old.bank.now right))))
        work.old.ticks.now.left work.new.ticks.now.left }
    ensures later { OnOk result (Later (store_of work.old.bank.now store.old) (store_of work.new.bank.now store.new)) }
    ensures same { IfOk result (λ said. said ≡ false → store.new ≡ store.old) }
    ensures unchanged { OnErr result (store.new ≡ store.old) }
    ensures has { OnOk result (HasStore work.new.bank.now store.new) }
    ensures is { OnOk result (IsStore (store_of work.new.bank.now store.new)) }
    ensures same_bank { work.new.bank.ghost_name ≡ work.old.bank.ghost_name }
    ensures same_ticks { work.new.ticks.ghost_name ≡ work.old.ticks.ghost_name }
    ensures grows { Grows work.old.bank.now work.new.bank.now }
    ensures budget { work.new.ticks.now.left + work.new.ticks.now.spent ≡ work.old.ticks.now.left + work.old.ticks.now.spent }
    ensures counted { steps.new + work.old.ticks.now.spent ≡ steps.old + work.new.ticks.now.spent }
{
    env.computes();
    match unify(work, env, store, context, left, right, steps) {
        Ok(said) => Ok(said),
        Err(fault) => Err(PrimFault::from(fault)),
    }
}

/// The fault that two sides do not unify: it names them as they read, or tells that the left one, or else the right one, passes a limit.
pub(crate) fn apart(bank: &mut Bank<'_>, store: &Store, left: TermId, right: TermId) -> PrimFault
    requires store { HasStore bank.old store.now }
    requires kept { IsStore (store_of bank.old store.now) }
    requires left { HasTerm bank.old left }
    requires left_over { IsOver (store_of bank.old store.now).variables (tree_of bank.old left) }
    requires left_closed { Within 0 (tree_of bank.old left) }
    requires right { HasTerm bank.old right }
    requires right_over { IsOver (store_of bank.old store.now).variables (tree_of bank.old right) }
    requires right_closed { Within 0 (tree_of bank.old right) }
    ensures answer { (b : ℕ) → Refuses {A = Done} bank.new result
        (λ n. told (read (store_of bank.old store.now) (tree_of bank.old left) ∷ read (store_of bank.old store.now) (tree_of bank.old right) ∷ [])
        (do_not_unify (read (store_of bank.old store.now) (tree_of bank.old left)) (read (store_of bank.old store.now) (tree_of bank.old right)))) b b }
    ensures grows { Grows bank.old bank.new }
{
    let left = match needed(bank, store, left) {
        Ok(read) => read,
        Err(fault) => return fault,
    };
    match needed(bank, store, right) {
        Ok(right) => PrimFault::DoNotUnify(left, right),
        Err(fault) => fault,
    }
}

/// The same context.
pub(crate) fn copied(alloc: Global, context: &Context) -> Result<Context, NoMemory>
    ensures { IfOk result (λ c. c ≡ context.now) }
{
    match Vec::from_slice(alloc, context.hypotheses()) {
        Ok(hypotheses) => Ok(Context::from_hypotheses(hypotheses)),
        Err(_) => Err(NoMemory),
    }
}

/// Whether two terms unify in a goal's context, as `unifies` says.
pub(crate) fn unifies_at<L: Ledger>(
    work: &mut Work<'_, '_>,
    env: &Env,
    store: &mut Store,
    goal: u32,
    left: TermId,
    right: TermId,
    steps: &mut Steps<L>,
) -> Result<bool, PrimFault>
    requires declared { IsDeclared work.old.bank.now env.now }
    requires place { IsGoal work.old.bank.now store.old goal }
    requires left { HasTerm work.old.bank.now left }
    requires left_stands { StandsIn (store_of work.old.bank.now store.old) (context_at (store_of work.old.bank.now store.old) goal) (tree_of work.old.bank.now left) }
    requires right { HasTerm work.old.bank.now right }
    requires right_stands { StandsIn (store_of work.old.bank.now store.old) (context_at (store_of work.old.bank.now store.old) goal) (tree_of work.old.bank.now right) }
    ensures answer { Does work.new.bank.now (answer_of work.new.bank.now store.new) result
        (λ n. elab_work (by_unify (unify (rules_of (env_of work.old.bank.now env.now)) n (context_at (store_of work.old.bank.now store.old) goal)
        (store_of work.old.bank.now store.old) (tree_of work.old.bank.now left) (tree_of work.old.bank.now right))))
        work.old.ticks.now.left work.new.ticks.now.left }
    ensures later { OnOk result (Later (store_of work.old.bank.now store.old) (store_of work.new.bank.now store.new)) }
    ensures same { IfOk result (λ said. said ≡ false → store.new ≡ store.old) }
    ensures unchanged { OnErr result (store.new ≡ store.old) }
    ensures has { OnOk result (HasStore work.new.bank.now store.new) }
    ensures is { OnOk result (IsStore (store_of work.new.bank.now store.new)) }
    ensures same_bank { work.new.bank.ghost_name ≡ work.old.bank.ghost_name }
    ensures same_ticks { work.new.ticks.ghost_name ≡ work.old.ticks.ghost_name }
    ensures grows { Grows work.old.bank.now work.new.bank.now }
    ensures budget { work.new.ticks.now.left + work.new.ticks.now.spent ≡ work.old.ticks.now.left + work.old.ticks.now.spent }
    ensures counted { steps.new + work.old.ticks.now.spent ≡ steps.old + work.new.ticks.now.spent }
{
    let alloc = work.bank.allocator();
    let context = copied(alloc, store.context(goal))?;
    unifies(work, env, store, &context, left, right, steps)
}
