//! Goals as terms.

ghost use Rattle.std.specs.Prelude.{◌≡◌, ◌++◌, ◌∷◌, [], map, IfOk};
ghost use Rattle.std.specs.List.{AllByRecursion};
ghost use Rattle.lq_trees.specs.Tree.Tree.{Rel};
ghost use Rattle.lq_calculus.specs.Declarations.{variables};
ghost use Rattle.lq_terms.specs.Terms.{HasTerm, IsTerm, tree_of, Grows};
ghost use Rattle.lq_terms.specs.Contexts.{HasContext, context_of};
ghost use Rattle.lq_tactics.specs.Rows.{goal_term};

use lq_terms::{Bank, Context, Hypothesis, Instance, NoMemory, Node, TermId};
use std::alloc::Global;

/// Each hypothesis of a context for itself.
fn own_entries(bank: &mut Bank<'_>, context: &[Hypothesis]) -> Result<Instance, NoMemory>
    requires { HasContext bank.old context.now }
    ensures has { IfOk result (AllByRecursion (HasTerm bank.new)) }
    ensures own { IfOk result (λ ts. map (tree_of bank.new) ts ≡ variables (context_of bank.old context.now)) }
    ensures grows { Grows bank.old bank.new }
{
    let mut entries = Instance::new(bank.allocator());
    for hypothesis in context {
        let entry = bank.make(Node::Var(hypothesis.name))?;
        entries.push(entry)?;
    }
    Ok(entries)
}

/// A goal at the hypotheses of its context.
pub(crate) fn goal_term(
    bank: &mut Bank<'_>,
    goal: u32,
    context: &[Hypothesis],
) -> Result<TermId, NoMemory>
    requires { HasContext bank.old context.now }
    ensures term { IfOk result (λ t. IsTerm bank.new t (goal_term goal (context_of bank.old context.now))) }
    ensures grows { Grows bank.old bank.new }
{
    let entries = own_entries(bank, context)?;
    bank.make(Node::Evar(goal, entries))
}

/// Each hypothesis of a context for itself, and the nearest binder's variable for one more.
pub(crate) fn entries_under(
    bank: &mut Bank<'_>,
    context: &[Hypothesis],
) -> Result<Instance, NoMemory>
    requires { HasContext bank.old context.now }
    ensures has { IfOk result (AllByRecursion (HasTerm bank.new)) }
    ensures own { IfOk result (λ ts. map (tree_of bank.new) ts ≡ variables (context_of bank.old context.now) ++ Rel 0 ∷ []) }
    ensures grows { Grows bank.old bank.new }
{
    let mut entries = own_entries(bank, context)?;
    let bound = bank.make(Node::Rel(0))?;
    entries.push(bound)?;
    Ok(entries)
}

/// A context with one hypothesis more.
pub(crate) fn with_hypothesis(
    alloc: Global,
    context: &[Hypothesis],
    hypothesis: Hypothesis,
) -> Result<Context, NoMemory>
    ensures { IfOk result (λ c. c ≡ context.now ++ hypothesis ∷ []) }
{
    let Ok(hypotheses) = Vec::from_slice(alloc, context) else {
        return Err(NoMemory);
    };
    let mut longer = Context::from_hypotheses(hypotheses);
    longer.push(hypothesis)?;
    Ok(longer)
}
