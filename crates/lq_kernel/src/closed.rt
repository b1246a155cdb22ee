//! Inference where no variable has a type.

ghost use Rattle.std.specs.Prelude.{◌≡◌, ◌+◌, ℕ};
ghost use Rattle.lq_trees.specs.Tree.{Tree, Context as TreeContext};
ghost use Rattle.lq_terms.specs.Terms.{tree_of, Grows};
ghost use Rattle.lq_terms.specs.Contexts.{context_of};
ghost use Rattle.lq_calculus.specs.Declarations.{Env as Environment};
ghost use Rattle.lq_calculus.specs.Checking.{infer, sort_of, check};
ghost use Rattle.lq_env.specs.Environments.{IsEnv, env_of};
ghost use Rattle.lq_kernel.specs.Answers.{Checks};
ghost use Rattle.lq_kernel.specs.Closed.{IsScoped, IsContext};
ghost use Rattle.lq_kernel.specs.Steps.{Types, Sorts};

use crate::faults::KernelFault;
use crate::typing;
use crate::variables::NoVariables;
use lq_env::Env;
use lq_terms::{Context, Steps, TermId, Work};
use lq_trees::Sort;
use std::sync::ledger::Ledger;

/// The type of a term under the hypotheses of a context, at a tick for each node before its parts.
pub(crate) fn type_of<L: Ledger>(
    work: &mut Work<'_, '_>,
    env: &Env,
    context: &mut Context,
    term: TermId,
    steps: &mut Steps<L>,
) -> Result<TermId, KernelFault>
    requires term { IsScoped work.old.bank.now 0 term }
    requires env { IsEnv work.old.bank.now env.now }
    requires context { IsContext work.old.bank.now context.old }
    ensures answer { (E : Environment) (G : TreeContext) (T : Tree) → env_of work.old.bank.now env.now ≡ E → context_of work.old.bank.now context.old ≡ G
        → tree_of work.old.bank.now term ≡ T
        → Types work.new.bank.now result (λ n. infer E n G T) work.old.ticks.now.left work.new.ticks.now.left }
    ensures kept { context.new ≡ context.old }
    ensures same_bank { work.new.bank.ghost_name ≡ work.old.bank.ghost_name }
    ensures same_ticks { work.new.ticks.ghost_name ≡ work.old.ticks.ghost_name }
    ensures grows { Grows work.old.bank.now work.new.bank.now }
    ensures budget { work.new.ticks.now.left + work.new.ticks.now.spent ≡ work.old.ticks.now.left + work.old.ticks.now.spent }
    ensures counted { steps.new + work.old.ticks.now.spent ≡ steps.old + work.new.ticks.now.spent }
{
    typing::type_of(work, env, &NoVariables, context, term, steps)
}

/// The sort of a term that must have one.
pub(crate) fn sort_in<L: Ledger>(
    work: &mut Work<'_, '_>,
    env: &Env,
    context: &mut Context,
    term: TermId,
    steps: &mut Steps<L>,
) -> Result<Sort, KernelFault>
    requires term { IsScoped work.old.bank.now 0 term }
    requires env { IsEnv work.old.bank.now env.now }
    requires context { IsContext work.old.bank.now context.old }
    ensures answer { (E : Environment) (G : TreeContext) (T : Tree) → env_of work.old.bank.now env.now ≡ E → context_of work.old.bank.now context.old ≡ G
        → tree_of work.old.bank.now term ≡ T
        → Sorts work.new.bank.now result (λ n. sort_of E n G T) work.old.ticks.now.left work.new.ticks.now.left }
    ensures kept { context.new ≡ context.old }
    ensures same_bank { work.new.bank.ghost_name ≡ work.old.bank.ghost_name }
    ensures same_ticks { work.new.ticks.ghost_name ≡ work.old.ticks.ghost_name }
    ensures grows { Grows work.old.bank.now work.new.bank.now }
    ensures budget { work.new.ticks.now.left + work.new.ticks.now.spent ≡ work.old.ticks.now.left + work.old.ticks.now.spent }
    ensures counted { steps.new + work.old.ticks.now.spent ≡ steps.old + work.new.ticks.now.spent }
{
    typing::sort_in(work, env, &NoVariables, context, term, steps)
}

/// Refuses a term that has not the type: its own is inferred, and the two are compared.
pub(crate) fn check_in<L: Ledger>(
    work: &mut Work<'_, '_>,
    env: &Env,
    context: &mut Context,
    term: TermId,
    wanted: TermId,
    steps: &mut Steps<L>,
) -> Result<(), KernelFault>
    requires term { IsScoped work.old.bank.now 0 term }
    requires wanted { IsScoped work.old.bank.now 0 wanted }
    requires env { IsEnv work.old.bank.now env.now }
    requires context { IsContext work.old.bank.now context.old }
    ensures answer { (E : Environment) (G : TreeContext) (T U : Tree) → env_of work.old.bank.now env.now ≡ E → context_of work.old.bank.now context.old ≡ G
        → tree_of work.old.bank.now term ≡ T → tree_of work.old.bank.now wanted ≡ U
        → Checks work.new.bank.now result (λ n. check E n G T U) work.old.ticks.now.left work.new.ticks.now.left }
    ensures kept { context.new ≡ context.old }
    ensures same_bank { work.new.bank.ghost_name ≡ work.old.bank.ghost_name }
    ensures same_ticks { work.new.ticks.ghost_name ≡ work.old.ticks.ghost_name }
    ensures grows { Grows work.old.bank.now work.new.bank.now }
    ensures budget { work.new.ticks.now.left + work.new.ticks.now.spent ≡ work.old.ticks.now.left + work.old.ticks.now.spent }
    ensures counted { steps.new + work.old.ticks.now.spent ≡ steps.old + work.new.ticks.now.spent }
{
    typing::check_in(work, env, &NoVariables, context, term, wanted, steps)
}
