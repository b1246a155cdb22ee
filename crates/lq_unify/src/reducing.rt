//! The weak head forms of two terms.

ghost use Rattle.std.specs.Prelude.{◌≡◌, ◌≤◌, ◌+◌, IfOk, IfSome, OnOk};
ghost use Rattle.lq_trees.specs.Rules.{Rules as TreeRules};
ghost use Rattle.lq_terms.specs.Contexts.{HasContext, context_of};
ghost use Rattle.lq_terms.specs.Terms.{HasTerm, tree_of, Grows};
ghost use Rattle.lq_solving.specs.Claims.{ArePlainRules};
ghost use Rattle.lq_solving.specs.Kept.{IsContext, IsStore, StandsIn};
ghost use Rattle.lq_solving.specs.Stores.{read, read_context};
ghost use Rattle.lq_evars.specs.Places.{store_of, HasStore};
ghost use Rattle.lq_unify.specs.declared.faults.UnifyFault.{UnifyFault};
ghost use Rattle.lq_unify.specs.Faults.{fault_in};
ghost use Rattle.lq_unify.specs.Reducing.{Formed, Forms};
ghost use Rattle.lq_unify.specs.Telling.{HasRules, TellsOn};

use crate::faults::UnifyFault;
use lq_evars::Store;
use lq_reduce::{ReduceFault, whnf};
use lq_terms::{Context, Rules, Steps, TermId, Work};
use std::sync::ledger::Ledger;

/// A fault of reduction, as one of unification.
fn fault_of(fault: ReduceFault) -> UnifyFault
    ensures { result ≡ fault_in fault }
{
    match fault {
        ReduceFault::StepsOut => UnifyFault::StepsOut,
        ReduceFault::TooLarge => UnifyFault::TooLarge,
        ReduceFault::TooDeep => UnifyFault::TooDeep,
        ReduceFault::NoMemory => UnifyFault::NoMemory,
    }
}

/// The weak head form of a term as it reads.
fn one_form<R: Rules, L: Ledger>(
    work: &mut Work<'_, '_>,
    rules: &R,
    store: &Store,
    context: &Context,
    term: TermId,
    steps: &mut Steps<L>,
) -> Result<TermId, UnifyFault>
    requires store { HasStore work.old.bank.now store.now }
    requires kept { IsStore (store_of work.old.bank.now store.now) }
    requires context { HasContext work.old.bank.now context.now }
    requires hypotheses { IsContext (store_of work.old.bank.now store.now) (context_of work.old.bank.now context.now) }
    requires term { HasTerm work.old.bank.now term }
    requires stands { StandsIn (store_of work.old.bank.now store.now) (context_of work.old.bank.now context.now) (tree_of work.old.bank.now term) }
    requires rules { HasRules work.old.bank.now (R.told rules.now) }
    ensures answer { (r : TreeRules) → TellsOn work.old.bank.now (R.told rules.now) r → ArePlainRules r
        → Formed r (read_context (store_of work.old.bank.now store.now) (context_of work.old.bank.now context.now))
        (read (store_of work.old.bank.now store.now) (tree_of work.old.bank.now term))
        work.new.bank.now result work.old.ticks.now.left work.new.ticks.now.left }
    ensures has { IfOk result (HasTerm work.new.bank.now) }
    ensures fewer { OnOk result (work.new.ticks.now.left ≤ work.old.ticks.now.left) }
    ensures same_bank { work.new.bank.ghost_name ≡ work.old.bank.ghost_name }
    ensures same_ticks { work.new.ticks.ghost_name ≡ work.old.ticks.ghost_name }
    ensures grows { Grows work.old.bank.now work.new.bank.now }
    ensures budget { work.new.ticks.now.left + work.new.ticks.now.spent ≡ work.old.ticks.now.left + work.old.ticks.now.spent }
    ensures counted { steps.new + work.old.ticks.now.spent ≡ steps.old + work.new.ticks.now.spent }
{
    work.bank.names_apart();
    store.values_stand();
    match whnf(work, rules, store, context, term, steps) {
        Ok(form) => Ok(form),
        Err(fault) => Err(fault_of(fault)),
    }
}

/// The weak head forms of two terms, if one changed.
pub(crate) fn reduced<R: Rules, L: Ledger>(
    work: &mut Work<'_, '_>,
    rules: &R,
    store: &Store,
    context: &Context,
    left: TermId,
    right: TermId,
    steps: &mut Steps<L>,
) -> Result<Option<(TermId, TermId)>, UnifyFault>
    requires store { HasStore work.old.bank.now store.now }
    requires kept { IsStore (store_of work.old.bank.now store.now) }
    requires context { HasContext work.old.bank.now context.now }
    requires hypotheses { IsContext (store_of work.old.bank.now store.now) (context_of work.old.bank.now context.now) }
    requires left { HasTerm work.old.bank.now left }
    requires left_stands { StandsIn (store_of work.old.bank.now store.now) (context_of work.old.bank.now context.now) (tree_of work.old.bank.now left) }
    requires right { HasTerm work.old.bank.now right }
    requires right_stands { StandsIn (store_of work.old.bank.now store.now) (context_of work.old.bank.now context.now) (tree_of work.old.bank.now right) }
    requires rules { HasRules work.old.bank.now (R.told rules.now) }
    ensures answer { (r : TreeRules) → TellsOn work.old.bank.now (R.told rules.now) r → ArePlainRules r
        → Forms r (read_context (store_of work.old.bank.now store.now) (context_of work.old.bank.now context.now))
        (read (store_of work.old.bank.now store.now) (tree_of work.old.bank.now left))
        (read (store_of work.old.bank.now store.now) (tree_of work.old.bank.now right))
        work.new.bank.now result work.old.ticks.now.left work.new.ticks.now.left }
    ensures has { IfOk result (λ o. IfSome o (λ p. HasTerm work.new.bank.now p.0 × HasTerm work.new.bank.now p.1)) }
    ensures fewer { OnOk result (work.new.ticks.now.left ≤ work.old.ticks.now.left) }
    ensures same_bank { work.new.bank.ghost_name ≡ work.old.bank.ghost_name }
    ensures same_ticks { work.new.ticks.ghost_name ≡ work.old.ticks.ghost_name }
    ensures grows { Grows work.old.bank.now work.new.bank.now }
    ensures budget { work.new.ticks.now.left + work.new.ticks.now.spent ≡ work.old.ticks.now.left + work.old.ticks.now.spent }
    ensures counted { steps.new + work.old.ticks.now.spent ≡ steps.old + work.new.ticks.now.spent }
{
    let budget = work.ticks.left;
    match one_form(work, rules, store, context, left, steps) {
        Ok(first) => match one_form(work, rules, store, context, right, steps) {
            Ok(second) => {
                if work.ticks.left == budget {
                    Ok(None)
                } else {
                    Ok(Some((first, second)))
                }
            }
            Err(fault) => Err(fault),
        },
        Err(fault) => Err(fault),
    }
}
