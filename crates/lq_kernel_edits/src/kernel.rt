//! The kernel.

ghost use Rattle.std.specs.Prelude.{◌≡◌, ◌+◌, IfOk, OnOk, OnErr};
ghost use Rattle.lq_terms.specs.Terms.{tree_of, Grows};
ghost use Rattle.lq_terms.specs.Contexts.{context_of};
ghost use Rattle.lq_calculus.specs.Typing.{Derives, DerivedEnv};
ghost use Rattle.lq_calculus.specs.Checking.{infer_call, check_call, sort_of};
ghost use Rattle.lq_env.specs.Environments.{IsEnv, env_of, Extends};
ghost use Rattle.lq_kernel.specs.Closed.{IsScoped, IsContext};
ghost use Rattle.lq_kernel.specs.Answers.{Infers, Checks, Declares};
ghost use Rattle.lq_kernel.specs.Declaring.{Drops, IsDeclaration, declare};
ghost use Rattle.lq_kernel.specs.Steps.{Sorts};

use lq_env::Env;
use lq_kernel::{Declaration, KernelFault, check, declare, infer, sort_of};
use lq_terms::{Context, Steps, TermId, Work};
use lq_trees::Sort;
use std::sync::ledger::Ledger;

/// The type of a term under the hypotheses of a context.
pub fn inferred<L: Ledger>(
    work: &mut Work<'_, '_>,
    env: &Env,
    context: &Context,
    term: TermId,
    steps: &mut Steps<L>,
) -> Result<TermId, KernelFault>
    requires term { IsScoped work.old.bank.now 0 term }
    requires env { IsEnv work.old.bank.now env.now }
    requires context { IsContext work.old.bank.now context.now }
    ensures answer { Infers work.new.bank.now result (λ n. infer_call (env_of work.old.bank.now env.now) n
        (context_of work.old.bank.now context.now) (tree_of work.old.bank.now term)) work.old.ticks.now.left work.new.ticks.now.left }
    ensures derives { IfOk result (λ t. Derives (env_of work.old.bank.now env.now) (context_of work.old.bank.now context.now)
        (tree_of work.old.bank.now term) (tree_of work.new.bank.now t)) }
    ensures same_bank { work.new.bank.ghost_name ≡ work.old.bank.ghost_name }
    ensures same_ticks { work.new.ticks.ghost_name ≡ work.old.ticks.ghost_name }
    ensures grows { Grows work.old.bank.now work.new.bank.now }
    ensures budget { work.new.ticks.now.left + work.new.ticks.now.spent ≡ work.old.ticks.now.left + work.old.ticks.now.spent }
    ensures counted { steps.new + work.old.ticks.now.spent ≡ steps.old + work.new.ticks.now.spent }
{
    infer(work, env, context, term, steps)
}

/// Refuses a term that has not the type under the hypotheses of a context.
pub fn type_checked<L: Ledger>(
    work: &mut Work<'_, '_>,
    env: &Env,
    context: &Context,
    term: TermId,
    wanted: TermId,
    steps: &mut Steps<L>,
) -> Result<(), KernelFault>
    requires term { IsScoped work.old.bank.now 0 term }
    requires wanted { IsScoped work.old.bank.now 0 wanted }
    requires env { IsEnv work.old.bank.now env.now }
    requires context { IsContext work.old.bank.now context.now }
    ensures answer { Checks work.new.bank.now result (λ n. check_call (env_of work.old.bank.now env.now) n
        (context_of work.old.bank.now context.now) (tree_of work.old.bank.now term)
        (tree_of work.old.bank.now wanted)) work.old.ticks.now.left work.new.ticks.now.left }
    ensures derives { OnOk result (Derives (env_of work.old.bank.now env.now) (context_of work.old.bank.now context.now)
        (tree_of work.old.bank.now term) (tree_of work.old.bank.now wanted)) }
    ensures dropped { OnOk result (work.new.bank.now.nodes ≡ work.old.bank.now.nodes) }
    ensures same_bank { work.new.bank.ghost_name ≡ work.old.bank.ghost_name }
    ensures same_ticks { work.new.ticks.ghost_name ≡ work.old.ticks.ghost_name }
    ensures grows { Grows work.old.bank.now work.new.bank.now }
    ensures budget { work.new.ticks.now.left + work.new.ticks.now.spent ≡ work.old.ticks.now.left + work.old.ticks.now.spent }
    ensures counted { steps.new + work.old.ticks.now.spent ≡ steps.old + work.new.ticks.now.spent }
{
    check(work, env, context, term, wanted, steps)
}

/// The sort of a term that must have one under the hypotheses of a context.
pub fn sort_found<L: Ledger>(
    work: &mut Work<'_, '_>,
    env: &Env,
    context: &Context,
    term: TermId,
    steps: &mut Steps<L>,
) -> Result<Sort, KernelFault>
    requires term { IsScoped work.old.bank.now 0 term }
    requires env { IsEnv work.old.bank.now env.now }
    requires context { IsContext work.old.bank.now context.now }
    ensures answer { Sorts work.new.bank.now result (λ n. sort_of (env_of work.old.bank.now env.now) n (context_of work.old.bank.now context.now)
        (tree_of work.old.bank.now term)) work.old.ticks.now.left work.new.ticks.now.left }
    ensures same_bank { work.new.bank.ghost_name ≡ work.old.bank.ghost_name }
    ensures same_ticks { work.new.ticks.ghost_name ≡ work.old.ticks.ghost_name }
    ensures grows { Grows work.old.bank.now work.new.bank.now }
    ensures budget { work.new.ticks.now.left + work.new.ticks.now.spent ≡ work.old.ticks.now.left + work.old.ticks.now.spent }
    ensures counted { steps.new + work.old.ticks.now.spent ≡ steps.old + work.new.ticks.now.spent }
{
    sort_of(work, env, context, term, steps)
}

/// Appends a declaration that passes the checks.
pub fn declared<L: Ledger>(
    work: &mut Work<'_, '_>,
    env: &mut Env,
    declaration: Declaration,
    steps: &mut Steps<L>,
) -> Result<(), KernelFault>
    requires env { IsEnv work.old.bank.now env.old }
    requires declaration { IsDeclaration work.old.bank.now declaration }
    ensures answer { Declares work.new.bank.now result env.new
        (λ n. declare work.old.bank.now (env_of work.old.bank.now env.old) n declaration) work.old.ticks.now.left work.new.ticks.now.left }
    ensures derived { OnOk result (DerivedEnv (env_of work.old.bank.now env.old) → DerivedEnv (env_of work.new.bank.now env.new)) }
    ensures env { IsEnv work.new.bank.now env.new }
    ensures extends { OnOk result (Extends env.old env.new) }
    ensures dropped { OnOk result (Drops work.old.bank.now work.new.bank.now declaration) }
    ensures kept { OnErr result (env.new ≡ env.old) }
    ensures same_bank { work.new.bank.ghost_name ≡ work.old.bank.ghost_name }
    ensures same_ticks { work.new.ticks.ghost_name ≡ work.old.ticks.ghost_name }
    ensures grows { Grows work.old.bank.now work.new.bank.now }
    ensures budget { work.new.ticks.now.left + work.new.ticks.now.spent ≡ work.old.ticks.now.left + work.old.ticks.now.spent }
    ensures counted { steps.new + work.old.ticks.now.spent ≡ steps.old + work.new.ticks.now.spent }
{
    declare(work, env, declaration, steps)
}
