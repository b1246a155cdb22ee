//! New goals behind one hypothesis more.

ghost use Rattle.std.specs.Prelude.{◌≡◌, ◌+◌, ◌++◌, ◌∷◌, [], ℕ, IfOk, OnOk};
ghost use Rattle.lq_trees.specs.Change.{close};
ghost use Rattle.lq_trees.specs.Tree.Tree.{Rel, Evar};
ghost use Rattle.lq_calculus.specs.Declarations.{variables};
ghost use Rattle.lq_terms.specs.Contexts.{HasContext, context_of, hypothesis_of};
ghost use Rattle.lq_terms.specs.Terms.{IsTerm, text_of, tree_of, Grows};
ghost use Rattle.lq_solving.specs.Stores.{instance_list};
ghost use Rattle.lq_evars.specs.Places.{HasStore, store_of};
ghost use Rattle.lq_tactics.specs.Rows.{Scene, goal_term, new_goal};
ghost use Rattle.lq_prims.specs.Making.{HasIn, IsIn, MayFollow};
ghost use Rattle.lq_prims.specs.Scenes.{behind};
ghost use Rattle.lq_prims.specs.Working.{Does};

use crate::faults::PrimFault;
use crate::new_goals::{NewGoal, new_goal};
use crate::standing::{entries_under, with_hypothesis};
use lq_evars::Store;
use lq_terms::{Bank, Context, Hypothesis, NoMemory, Node, Steps, TermId, Work};
use std::sync::ledger::Ledger;

/// A goal at the hypotheses of a context and the nearest binder's variable.
fn goal_inside(bank: &mut Bank<'_>, goal: u32, context: &[Hypothesis]) -> Result<TermId, NoMemory>
    requires { HasContext bank.old context.now }
    ensures term { IfOk result (λ t. IsTerm bank.new t (Evar goal (instance_list (variables (context_of bank.old context.now) ++ Rel 0 ∷ [])))) }
    ensures grows { Grows bank.old bank.new }
{
    let entries = entries_under(bank, context)?;
    bank.make(Node::Evar(goal, entries))
}

/// A new goal behind one hypothesis more of a context, as `new_goal` has it, with its term below a binder for that hypothesis.
pub(crate) fn new_goal_behind<L: Ledger>(
    work: &mut Work<'_, '_>,
    store: &mut Store,
    context: &Context,
    hypothesis: Hypothesis,
    kind: TermId,
    steps: &mut Steps<L>,
) -> Result<NewGoal, PrimFault>
    requires place { IsIn work.old.bank.now store.old context.now }
    requires follows { MayFollow work.old.bank.now store.old context.now hypothesis }
    requires kind { HasIn work.old.bank.now store.old context.now kind }
    ensures answer { (c : ℕ → Scene) → ((n : ℕ) → (c n).bound ≡ n) → Does work.new.bank.now (λ g. (store_of work.new.bank.now store.new, g.goal)) result
        (λ n. new_goal (c n) (store_of work.old.bank.now store.old) (behind (context_of work.old.bank.now context.now)
        (hypothesis_of work.old.bank.now hypothesis)) (tree_of work.old.bank.now kind)) work.old.ticks.now.left work.new.ticks.now.left }
    ensures term { IfOk result (λ g. IsTerm work.new.bank.now g.term (close (text_of work.old.bank.now hypothesis.name)
        (goal_term g.goal (behind (context_of work.old.bank.now context.now) (hypothesis_of work.old.bank.now hypothesis))))) }
    ensures has { OnOk result (HasStore work.new.bank.now store.new) }
    ensures same_bank { work.new.bank.ghost_name ≡ work.old.bank.ghost_name }
    ensures same_ticks { work.new.ticks.ghost_name ≡ work.old.ticks.ghost_name }
    ensures grows { Grows work.old.bank.now work.new.bank.now }
    ensures budget { work.new.ticks.now.left + work.new.ticks.now.spent ≡ work.old.ticks.now.left + work.old.ticks.now.spent }
    ensures counted { steps.new + work.old.ticks.now.spent ≡ steps.old + work.new.ticks.now.spent }
{
    let longer = match with_hypothesis(work.bank.allocator(), context.hypotheses(), hypothesis) {
        Ok(longer) => longer,
        Err(_) => return Err(PrimFault::NoMemory),
    };
    match new_goal(work, store, longer, kind, steps) {
        Ok(goal) => match goal_inside(work.bank, goal, context.hypotheses()) {
            Ok(term) => Ok(NewGoal { goal, term }),
            Err(_) => Err(PrimFault::NoMemory),
        },
        Err(fault) => Err(fault),
    }
}
