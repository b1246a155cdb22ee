//! Whether two terms unify.

ghost use Rattle.std.specs.Prelude.{◌≡◌, ◌+◌, [], length, true, false, IfOk, OnOk, OnErr};
ghost use Rattle.lq_trees.specs.Rules.{Rules as TreeRules};
ghost use Rattle.lq_calculus.specs.Equality.{Equal};
ghost use Rattle.lq_terms.specs.Contexts.{HasContext, context_of};
ghost use Rattle.lq_terms.specs.Terms.{HasTerm, tree_of, Grows};
ghost use Rattle.lq_solving.specs.Claims.{ArePlainRules};
ghost use Rattle.lq_solving.specs.Kept.{IsContext, IsStore, StandsIn};
ghost use Rattle.lq_solving.specs.Stores.{read, read_context};
ghost use Rattle.lq_solving.specs.Unification.{unify};
ghost use Rattle.lq_solving.proofs.Later.{Later};
ghost use Rattle.lq_solving.proofs.UnifyRows.{RowSound};
ghost use Rattle.lq_evars.specs.Places.{store_of, HasStore, GivesMore};
ghost use Rattle.lq_unify.specs.Telling.{HasRules, TellsOn};
ghost use Rattle.lq_unify.specs.Frames.{IsWork};
ghost use Rattle.lq_unify.specs.Turns.{PairStands, Unifies};

use crate::faults::UnifyFault;
use crate::frames::Frames;
use crate::machine::run;
use crate::pairs::Pair;
use lq_evars::Store;
use lq_terms::{Context, NoMemory, Rules, Steps, TermId, Work};
use std::alloc::Global;
use std::sync::ledger::Ledger;

/// The same context.
fn copied(alloc: Global, context: &Context) -> Result<Context, NoMemory>
    ensures { IfOk result (λ c. c ≡ context.now) }
{
    match Vec::from_slice(alloc, context.hypotheses()) {
        Ok(hypotheses) => Ok(Context::from_hypotheses(hypotheses)),
        Err(_) => Err(NoMemory),
    }
}

/// The answer, with a context and a stack of its own, and the store as it is then.
fn started<R: Rules, L: Ledger>(
    work: &mut Work<'_, '_>,
    rules: &R,
    store: &mut Store,
    context: &Context,
    count: usize,
    pair: Pair,
    steps: &mut Steps<L>,
) -> Result<bool, UnifyFault>
    requires count { count ≡ length context.now }
    requires work { IsWork work.old.bank.now store.old context.now [] }
    requires pair { PairStands work.old.bank.now store.old context.now pair }
    requires rules { HasRules work.old.bank.now (R.told rules.now) }
    ensures answer { (r : TreeRules) → TellsOn work.old.bank.now (R.told rules.now) r → ArePlainRules r
        → Unifies work.new.bank.now store.new result
        (λ n. unify r n (context_of work.old.bank.now context.now) (store_of work.old.bank.now store.old) (tree_of work.old.bank.now pair.left)
        (tree_of work.old.bank.now pair.right))
        work.old.ticks.now.left work.new.ticks.now.left }
    ensures sound { (r : TreeRules) → TellsOn work.old.bank.now (R.told rules.now) r → ArePlainRules r
        → IfOk result (λ said. said ≡ true → RowSound r (store_of work.old.bank.now store.old) (context_of work.old.bank.now context.now)
        (tree_of work.old.bank.now pair.left) (tree_of work.old.bank.now pair.right) (store_of work.new.bank.now store.new)) }
    ensures store { IfOk result (λ _. HasStore work.new.bank.now store.new) }
    ensures kept { IfOk result (λ _. IsStore (store_of work.new.bank.now store.new)) }
    ensures more { GivesMore store.old store.new }
    ensures same_bank { work.new.bank.ghost_name ≡ work.old.bank.ghost_name }
    ensures same_ticks { work.new.ticks.ghost_name ≡ work.old.ticks.ghost_name }
    ensures grows { Grows work.old.bank.now work.new.bank.now }
    ensures budget { work.new.ticks.now.left + work.new.ticks.now.spent ≡ work.old.ticks.now.left + work.old.ticks.now.spent }
    ensures counted { steps.new + work.old.ticks.now.spent ≡ steps.old + work.new.ticks.now.spent }
{
    let alloc = work.bank.allocator();
    let mut own = copied(alloc, context)?;
    let mut frames = Frames::new(alloc);
    run(work, rules, store, &mut own, &mut frames, pair, steps)
}

/// Whether two terms unify in a context, by the rows of unification (Rocq reference manual, "Ltac" and "Proof mode"): one tick
/// for each call on two terms, and one for each contraction on the way to weak head forms.
///
/// It takes rules of computation that name no variable and no hypothesis, a store, a context over it and two terms that stand in it.
/// After true the store has values that make both terms, as they read, equal by contractions; after false, and after each refusal, it is
/// as before. Faults: `StepsOut` exactly where the budget has too few ticks, and then none is left; `TooLarge` and `TooDeep` exactly
/// where a weak head form that is asked for, or a value that is about to be given, has more than 1,000,000 nodes as it reads, or fits in
/// size and is deeper than 2,000; `NoMemory`. What waits for an answer stands on a stack on the heap.
pub fn unify<R: Rules, L: Ledger>(
    work: &mut Work<'_, '_>,
    rules: &R,
    store: &mut Store,
    context: &Context,
    left: TermId,
    right: TermId,
    steps: &mut Steps<L>,
) -> Result<bool, UnifyFault>
    requires store { HasStore work.old.bank.now store.old }
    requires kept { IsStore (store_of work.old.bank.now store.old) }
    requires context { HasContext work.old.bank.now context.now }
    requires hypotheses { IsContext (store_of work.old.bank.now store.old) (context_of work.old.bank.now context.now) }
    requires left { HasTerm work.old.bank.now left }
    requires left_stands { StandsIn (store_of work.old.bank.now store.old) (context_of work.old.bank.now context.now) (tree_of work.old.bank.now left) }
    requires right { HasTerm work.old.bank.now right }
    requires right_stands { StandsIn (store_of work.old.bank.now store.old) (context_of work.old.bank.now context.now) (tree_of work.old.bank.now right) }
    requires rules { HasRules work.old.bank.now (R.told rules.now) }
    ensures answer { (r : TreeRules) → TellsOn work.old.bank.now (R.told rules.now) r → ArePlainRules r
        → Unifies work.new.bank.now store.new result
        (λ n. unify r n (context_of work.old.bank.now context.now) (store_of work.old.bank.now store.old) (tree_of work.old.bank.now left)
        (tree_of work.old.bank.now right))
        work.old.ticks.now.left work.new.ticks.now.left }
    ensures equal { (r : TreeRules) → TellsOn work.old.bank.now (R.told rules.now) r → ArePlainRules r
        → IfOk result (λ said. said ≡ true → Equal r (read_context (store_of work.new.bank.now store.new) (context_of work.old.bank.now context.now))
        (read (store_of work.new.bank.now store.new) (tree_of work.old.bank.now left))
        (read (store_of work.new.bank.now store.new) (tree_of work.old.bank.now right))) }
    ensures later { OnOk result (Later (store_of work.old.bank.now store.old) (store_of work.new.bank.now store.new)) }
    ensures same { IfOk result (λ said. said ≡ false → store.new ≡ store.old) }
    ensures unchanged { OnErr result (store.new ≡ store.old) }
    ensures more { GivesMore store.old store.new }
    ensures has { OnOk result (HasStore work.new.bank.now store.new) }
    ensures is { OnOk result (IsStore (store_of work.new.bank.now store.new)) }
    ensures same_bank { work.new.bank.ghost_name ≡ work.old.bank.ghost_name }
    ensures same_ticks { work.new.ticks.ghost_name ≡ work.old.ticks.ghost_name }
    ensures grows { Grows work.old.bank.now work.new.bank.now }
    ensures budget { work.new.ticks.now.left + work.new.ticks.now.spent ≡ work.old.ticks.now.left + work.old.ticks.now.spent }
    ensures counted { steps.new + work.old.ticks.now.spent ≡ steps.old + work.new.ticks.now.spent }
{
    let given = store.given();
    let count = context.hypotheses().len();
    match started(
        work,
        rules,
        store,
        context,
        count,
        Pair { left, right },
        steps,
    ) {
        Ok(true) => Ok(true),
        Ok(false) => {
            store.take_back(given);
            Ok(false)
        }
        Err(fault) => {
            store.take_back(given);
            Err(fault)
        }
    }
}
