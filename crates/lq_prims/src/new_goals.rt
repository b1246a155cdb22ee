//! New goals.

ghost use Rattle.std.specs.Prelude.{◌≡◌, ◌+◌, ℕ, IfOk, OnOk, OnErr};
ghost use Rattle.lq_terms.specs.Contexts.{HasContext, context_of};
ghost use Rattle.lq_terms.specs.Terms.{HasTerm, IsTerm, tree_of, Grows};
ghost use Rattle.lq_solving.specs.Kept.{IsContext, IsStore, StandsIn};
ghost use Rattle.lq_evars.specs.Places.{HasStore, store_of};
ghost use Rattle.lq_tactics.specs.Rows.{Scene, goal_term, new_goal};
ghost use Rattle.lq_tactics.proofs.RowsKept.{IsMade};
ghost use Rattle.lq_terms.specs.declared.nodes.TermId.{TermId};
ghost use Rattle.lq_prims.specs.Making.{HasIn, IsIn};
ghost use Rattle.lq_prims.specs.Working.{Does};

use crate::faults::PrimFault;
use crate::needing::{needed, normal};
use crate::standing::goal_term;
use crate::unifying::copied;
use lq_evars::Store;
use lq_terms::{Context, Steps, TermId, Work};
use std::sync::ledger::Ledger;

/// One more variable, a goal of that type in that context: the type is read and put in beta normal form, at a tick for each contraction.
/// After a refusal the store is as before.
pub(crate) fn new_goal<L: Ledger>(
    work: &mut Work<'_, '_>,
    store: &mut Store,
    context: Context,
    kind: TermId,
    steps: &mut Steps<L>,
) -> Result<u32, PrimFault>
    requires store { HasStore work.old.bank.now store.old }
    requires kept { IsStore (store_of work.old.bank.now store.old) }
    requires context { HasContext work.old.bank.now context }
    requires hypotheses { IsContext (store_of work.old.bank.now store.old) (context_of work.old.bank.now context) }
    requires has { HasTerm work.old.bank.now kind }
    requires kind { StandsIn (store_of work.old.bank.now store.old) (context_of work.old.bank.now context) (tree_of work.old.bank.now kind) }
    ensures answer { (c : ℕ → Scene) → ((n : ℕ) → (c n).bound ≡ n) → Does work.new.bank.now (λ k. (store_of work.new.bank.now store.new, k)) result
        (λ n. new_goal (c n) (store_of work.old.bank.now store.old) (context_of work.old.bank.now context) (tree_of work.old.bank.now kind))
        work.old.ticks.now.left work.new.ticks.now.left }
    ensures made { IfOk result (λ k. IsMade (store_of work.old.bank.now store.old) (context_of work.old.bank.now context)
        (store_of work.new.bank.now store.new, k)) }
    ensures unchanged { OnErr result (store.new ≡ store.old) }
    ensures has { OnOk result (HasStore work.new.bank.now store.new) }
    ensures same_bank { work.new.bank.ghost_name ≡ work.old.bank.ghost_name }
    ensures same_ticks { work.new.ticks.ghost_name ≡ work.old.ticks.ghost_name }
    ensures grows { Grows work.old.bank.now work.new.bank.now }
    ensures budget { work.new.ticks.now.left + work.new.ticks.now.spent ≡ work.old.ticks.now.left + work.old.ticks.now.spent }
    ensures counted { steps.new + work.old.ticks.now.spent ≡ steps.old + work.new.ticks.now.spent }
{
    let read = needed(work.bank, store, kind)?;
    let form = normal(work, context.hypotheses(), read, steps)?;
    match store.new_var(context, form, None) {
        Ok(goal) => Ok(goal),
        Err(fault) => Err(PrimFault::from(fault)),
    }
}

/// A new goal, and the term that it is at the hypotheses of its context.
#[derive(Clone, Copy)]
pub(crate) struct NewGoal {
    pub(crate) goal: u32,
    pub(crate) term: TermId,
}

/// A new goal as `new_goal` has it, with its term.
pub(crate) fn new_goal_term<L: Ledger>(
    work: &mut Work<'_, '_>,
    store: &mut Store,
    context: &Context,
    kind: TermId,
    steps: &mut Steps<L>,
) -> Result<NewGoal, PrimFault>
    requires place { IsIn work.old.bank.now store.old context.now }
    requires kind { HasIn work.old.bank.now store.old context.now kind }
    ensures answer { (c : ℕ → Scene) → ((n : ℕ) → (c n).bound ≡ n) → Does work.new.bank.now (λ g. (store_of work.new.bank.now store.new, g.goal)) result
        (λ n. new_goal (c n) (store_of work.old.bank.now store.old) (context_of work.old.bank.now context.now) (tree_of work.old.bank.now kind))
        work.old.ticks.now.left work.new.ticks.now.left }
    ensures made { IfOk result (λ g. IsMade (store_of work.old.bank.now store.old) (context_of work.old.bank.now context.now)
        (store_of work.new.bank.now store.new, g.goal)) }
    ensures term { IfOk result (λ g. IsTerm work.new.bank.now g.term (goal_term g.goal (context_of work.old.bank.now context.now))) }
    ensures place { OnOk result (IsIn work.new.bank.now store.new context.now) }
    ensures later { (t : TermId) → HasIn work.old.bank.now store.old context.now t → OnOk result (HasIn work.new.bank.now store.new context.now t) }
    ensures same_bank { work.new.bank.ghost_name ≡ work.old.bank.ghost_name }
    ensures same_ticks { work.new.ticks.ghost_name ≡ work.old.ticks.ghost_name }
    ensures grows { Grows work.old.bank.now work.new.bank.now }
    ensures budget { work.new.ticks.now.left + work.new.ticks.now.spent ≡ work.old.ticks.now.left + work.old.ticks.now.spent }
    ensures counted { steps.new + work.old.ticks.now.spent ≡ steps.old + work.new.ticks.now.spent }
{
    let own = match copied(work.bank.allocator(), context) {
        Ok(own) => own,
        Err(_) => return Err(PrimFault::NoMemory),
    };
    match new_goal(work, store, own, kind, steps) {
        Ok(goal) => match goal_term(work.bank, goal, context.hypotheses()) {
            Ok(term) => Ok(NewGoal { goal, term }),
            Err(_) => Err(PrimFault::NoMemory),
        },
        Err(fault) => Err(fault),
    }
}
