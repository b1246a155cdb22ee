//! Telescopes: the sort of one, and the sorts of its domains.

ghost use Rattle.std.specs.Prelude.{◌≡◌, ◌+◌, ◌<◌, [], ◌∷◌, ◌++◌, ℕ, OnOk};
ghost use Rattle.lq_trees.specs.Tree.{Tree, Context as TreeContext, Hypothesis as TreeHypothesis};
ghost use Rattle.lq_trees.specs.Fresh.{opened};
ghost use Rattle.lq_terms.specs.Terms.{HasTerm, tree_of, Grows};
ghost use Rattle.lq_terms.specs.Contexts.{context_of, hypothesis_of};
ghost use Rattle.lq_calculus.specs.Declarations.{Env as Environment, all_proofs};
ghost use Rattle.lq_calculus.specs.Typing.{is_above, first_big};
ghost use Rattle.lq_calculus.specs.Checking.{sort_of, domain_sorts};
ghost use Rattle.lq_env.specs.Environments.{IsEnv, env_of};
ghost use Rattle.lq_kernel.specs.Closed.{IsScoped, IsHypothesis, IsContext};
ghost use Rattle.lq_kernel.specs.Steps.{Sorts, IsSplitOr};

use crate::closed::sort_in;
use crate::faults::KernelFault;
use crate::forms::product_sort;
use crate::inside::variable;
use lq_env::Env;
use lq_terms::{Bank, Context, Hypothesis, NameId, Node, Steps, TermId, Work, open};
use lq_trees::Sort;
use std::sync::ledger::Ledger;

/// The binder, the domain and the rest of a term that is a product.
fn product_parts(bank: &Bank<'_>, term: TermId) -> Option<(NameId, TermId, TermId)>
    requires { HasTerm bank.now term }
    ensures { IsSplitOr bank.now result term }
{
    match bank.node(term) {
        Node::Prod(binder, kind, rest) => Some((*binder, *kind, *rest)),
        _ => None,
    }
}

/// The sort of a type, which must have one. The sorts of the domains of its telescope are put behind
/// the others, at no further tick. It calls itself as often as the telescope has domains.
#[cycle(telescopes)]
pub(crate) fn telescope_sort<L: Ledger>(
    work: &mut Work<'_, '_>,
    env: &Env,
    context: &mut Context,
    term: TermId,
    sorts: &mut Vec<Sort>,
    steps: &mut Steps<L>,
) -> Result<Sort, KernelFault>
    requires term { IsScoped work.old.bank.now 0 term }
    requires env { IsEnv work.old.bank.now env.now }
    requires context { IsContext work.old.bank.now context.old }
    ensures answer { (E : Environment) (G : TreeContext) (T : Tree) → env_of work.old.bank.now env.now ≡ E → context_of work.old.bank.now context.old ≡ G
        → tree_of work.old.bank.now term ≡ T
        → Sorts work.new.bank.now result (λ n. sort_of E n G T) work.old.ticks.now.left work.new.ticks.now.left }
    ensures domains { (E : Environment) (G : TreeContext) (T : Tree) → env_of work.old.bank.now env.now ≡ E → context_of work.old.bank.now context.old ≡ G
        → tree_of work.old.bank.now term ≡ T
        → OnOk result ((n : ℕ) → work.old.ticks.now.left < n → sorts.new.items ≡ sorts.old.items ++ domain_sorts E n G T) }
    ensures kept { context.new ≡ context.old }
    ensures same_bank { work.new.bank.ghost_name ≡ work.old.bank.ghost_name }
    ensures same_ticks { work.new.ticks.ghost_name ≡ work.old.ticks.ghost_name }
    ensures grows { Grows work.old.bank.now work.new.bank.now }
    ensures budget { work.new.ticks.now.left + work.new.ticks.now.spent ≡ work.old.ticks.now.left + work.old.ticks.now.spent }
    ensures counted { steps.new + work.old.ticks.now.spent ≡ steps.old + work.new.ticks.now.spent }
{
    let Some((binder, kind, rest)) = product_parts(work.bank, term) else {
        return sort_in(work, env, context, term, steps);
    };
    if !work.ticks.take(steps) {
        return Err(KernelFault::StepsOut);
    }
    let domain = sort_in(work, env, context, kind, steps)?;
    sorts.push(domain)?;
    let variable = variable(work.bank, context, binder, None, kind)?;
    let last = telescope_inside(work, env, context, variable, rest, sorts, steps)?;
    Ok(product_sort(domain, last))
}

/// The same of what stands under a binder, with that hypothesis for the binder's variable.
#[cycle(telescopes)]
fn telescope_inside<L: Ledger>(
    work: &mut Work<'_, '_>,
    env: &Env,
    context: &mut Context,
    variable: Hypothesis,
    rest: TermId,
    sorts: &mut Vec<Sort>,
    steps: &mut Steps<L>,
) -> Result<Sort, KernelFault>
    requires variable { IsHypothesis work.old.bank.now variable }
    requires rest { IsScoped work.old.bank.now 1 rest }
    requires env { IsEnv work.old.bank.now env.now }
    requires context { IsContext work.old.bank.now context.old }
    ensures answer { (E : Environment) (G : TreeContext) (H : TreeHypothesis) (B : Tree) → env_of work.old.bank.now env.now ≡ E
        → context_of work.old.bank.now context.old ≡ G → hypothesis_of work.old.bank.now variable ≡ H
        → tree_of work.old.bank.now rest ≡ B → Sorts work.new.bank.now result (λ n. sort_of E n (G ++ H ∷ []) (opened H.name B)) work.old.ticks.now.left
        work.new.ticks.now.left }
    ensures domains { (E : Environment) (G : TreeContext) (H : TreeHypothesis) (B : Tree) → env_of work.old.bank.now env.now ≡ E
        → context_of work.old.bank.now context.old ≡ G → hypothesis_of work.old.bank.now variable ≡ H
        → tree_of work.old.bank.now rest ≡ B → OnOk result ((n : ℕ) → work.old.ticks.now.left < n
        → sorts.new.items ≡ sorts.old.items ++ domain_sorts E n (G ++ H ∷ []) (opened H.name B)) }
    ensures kept { context.new ≡ context.old }
    ensures same_bank { work.new.bank.ghost_name ≡ work.old.bank.ghost_name }
    ensures same_ticks { work.new.ticks.ghost_name ≡ work.old.ticks.ghost_name }
    ensures grows { Grows work.old.bank.now work.new.bank.now }
    ensures budget { work.new.ticks.now.left + work.new.ticks.now.spent ≡ work.old.ticks.now.left + work.old.ticks.now.spent }
    ensures counted { steps.new + work.old.ticks.now.spent ≡ steps.old + work.new.ticks.now.spent }
{
    let term = open(work.bank, rest, variable.name)?;
    context.push(variable)?;
    let sort = telescope_sort(work, env, context, term, sorts, steps);
    context.pop();
    sort
}

/// Whether a sort is above another.
fn is_above(sort: Sort, other: Sort) -> bool
    ensures { result ≡ is_above sort other }
{
    match sort {
        Sort::Base => false,
        Sort::Level(level) => match other {
            Sort::Base => false,
            Sort::Level(bound) => bound < level,
        },
    }
}

/// The number, counted from 1, of the first argument whose sort is above that of a family.
pub(crate) fn first_big(family: Sort, domains: &[Sort]) -> Option<u64>
    ensures { result ≡ first_big family 1 domains.now }
{
    let mut number = 0;
    for sort in domains {
        number += 1;
        if is_above(*sort, family) {
            return Some(number);
        }
    }
    None
}

/// Whether each argument is a proof, by their sorts.
pub(crate) fn all_proofs(domains: &[Sort]) -> bool
    ensures { result ≡ all_proofs domains.now }
{
    for sort in domains {
        if let Sort::Level(_) = sort {
            return false;
        }
    }
    true
}
