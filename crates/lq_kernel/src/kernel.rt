//! The kernel's calls.

ghost use Rattle.std.specs.Prelude.{◌≡◌, ◌+◌, IfOk, OnOk, OnErr};
ghost use Rattle.lq_terms.specs.Terms.{tree_of, Grows};
ghost use Rattle.lq_terms.specs.Contexts.{context_of};
ghost use Rattle.lq_calculus.specs.Typing.{Derives, DerivedEnv};
ghost use Rattle.lq_calculus.specs.Checking.{infer_call, check_call, sort_of};
ghost use Rattle.lq_inference.specs.Inference.{infer_by};
ghost use Rattle.lq_env.specs.Environments.{IsEnv, env_of, Extends};
ghost use Rattle.lq_kernel.specs.Closed.{IsScoped, IsContext};
ghost use Rattle.lq_kernel.specs.Answers.{Infers, Checks, Declares};
ghost use Rattle.lq_kernel.specs.Declaring.{IsDeclaration, Drops, declare};
ghost use Rattle.lq_kernel.specs.Steps.{Types, Sorts};

use crate::closed::{check_in, sort_in, type_of};
use crate::constants::declare_constant;
use crate::declaration::Declaration;
use crate::declaring::declare_family;
use crate::faults::KernelFault;
use crate::inside::copied;
use crate::looking::known;
use crate::typing;
use crate::variables::Variables;
use lq_env::Env;
use lq_terms::{Context, Steps, TermId, Work};
use lq_trees::Sort;
use std::sync::ledger::Ledger;

/// The type of a term under the hypotheses of a context, at a tick for each node before its parts, and
/// the ticks of the weak head forms and comparisons that the rules need. Before the work, at no tick,
/// the term is looked through: the first hypothesis in pre-order that the context lacks is unbound.
/// The first fault in the order of work counts; the budget is spent where the next tick would pass it.
/// It takes a term without loose bound variables, and calls itself as deep as the term is.
pub fn infer<L: Ledger>(
    work: &mut Work<'_, '_>,
    env: &Env,
    context: &Context,
    term: TermId,
    steps: &mut Steps<L>,
) -> Result<TermId, KernelFault>
    requires term { IsScoped work.old.bank.now 0 term }
    requires env { IsEnv work.old.bank.now env.now }
    requires context { IsContext work.old.bank.now context.now }
    ensures answer { Infers work.new.bank.now result (λ n. infer_call (env_of work.old.bank.now env.now) n (context_of work.old.bank.now context.now)
        (tree_of work.old.bank.now term)) work.old.ticks.now.left work.new.ticks.now.left }
    ensures derives { IfOk result (λ t. Derives (env_of work.old.bank.now env.now) (context_of work.old.bank.now context.now) (tree_of work.old.bank.now term)
        (tree_of work.new.bank.now t)) }
    ensures same_bank { work.new.bank.ghost_name ≡ work.old.bank.ghost_name }
    ensures same_ticks { work.new.ticks.ghost_name ≡ work.old.ticks.ghost_name }
    ensures grows { Grows work.old.bank.now work.new.bank.now }
    ensures budget { work.new.ticks.now.left + work.new.ticks.now.spent ≡ work.old.ticks.now.left + work.old.ticks.now.spent }
    ensures counted { steps.new + work.old.ticks.now.spent ≡ steps.old + work.new.ticks.now.spent }
{
    known(work.bank, context.hypotheses(), term)?;
    let mut lent = copied(work.bank.allocator(), context)?;
    type_of(work, env, &mut lent, term, steps)
}

/// The type of a term as [`infer`] gives it, where a caller gives the types of variables: a variable costs its tick, has the type that
/// the caller gives for its instance, and is refused as the caller says; so is a local definition whose value has not the type that is
/// written. Strange hypotheses are not looked for before the work. The answer is within the limits, and calls go as deep as the term is.
pub fn infer_with<V: Variables, L: Ledger>(
    work: &mut Work<'_, '_>,
    env: &Env,
    variables: &V,
    context: &Context,
    term: TermId,
    steps: &mut Steps<L>,
) -> Result<TermId, KernelFault>
    requires term { IsScoped work.old.bank.now 0 term }
    requires env { IsEnv work.old.bank.now env.now }
    requires variables { V.stand variables.now work.old.bank.now }
    requires context { IsContext work.old.bank.now context.now }
    ensures answer { Types work.new.bank.now result (λ n. infer_by (V.given variables.now work.old.bank.now) (env_of work.old.bank.now env.now) n
        (context_of work.old.bank.now context.now) (tree_of work.old.bank.now term)) work.old.ticks.now.left work.new.ticks.now.left }
    ensures same_bank { work.new.bank.ghost_name ≡ work.old.bank.ghost_name }
    ensures same_ticks { work.new.ticks.ghost_name ≡ work.old.ticks.ghost_name }
    ensures grows { Grows work.old.bank.now work.new.bank.now }
    ensures budget { work.new.ticks.now.left + work.new.ticks.now.spent ≡ work.old.ticks.now.left + work.old.ticks.now.spent }
    ensures counted { steps.new + work.old.ticks.now.spent ≡ steps.old + work.new.ticks.now.spent }
{
    let mut lent = copied(work.bank.allocator(), context)?;
    typing::type_of(work, env, variables, &mut lent, term, steps)
}

/// Refuses a term that has not the type under the hypotheses of a context: the term's own type is
/// inferred, with the refusals and the price of [`infer`], and compared. Before the work, at no tick,
/// the term and then the type are looked through for strange hypotheses. Where the term has the type,
/// the terms that were made to find out are dropped: the bank has the nodes that it had.
pub fn check<L: Ledger>(
    work: &mut Work<'_, '_>,
    env: &Env,
    context: &Context,
    term: TermId,
    wanted: TermId,
    steps: &mut Steps<L>,
) -> Result<(), KernelFault>
    requires term { IsScoped work.old.bank.now 0 term }
    requires wanted { IsScoped work.old.bank.now 0 wanted }
    requires env { IsEnv work.old.bank.now env.now }
    requires context { IsContext work.old.bank.now context.now }
    ensures answer { Checks work.new.bank.now result (λ n. check_call (env_of work.old.bank.now env.now) n (context_of work.old.bank.now context.now)
        (tree_of work.old.bank.now term) (tree_of work.old.bank.now wanted)) work.old.ticks.now.left work.new.ticks.now.left }
    ensures derives { OnOk result (Derives (env_of work.old.bank.now env.now) (context_of work.old.bank.now context.now) (tree_of work.old.bank.now term)
        (tree_of work.old.bank.now wanted)) }
    ensures dropped { OnOk result (work.new.bank.now.nodes ≡ work.old.bank.now.nodes) }
    ensures same_bank { work.new.bank.ghost_name ≡ work.old.bank.ghost_name }
    ensures same_ticks { work.new.ticks.ghost_name ≡ work.old.ticks.ghost_name }
    ensures grows { Grows work.old.bank.now work.new.bank.now }
    ensures budget { work.new.ticks.now.left + work.new.ticks.now.spent ≡ work.old.ticks.now.left + work.old.ticks.now.spent }
    ensures counted { steps.new + work.old.ticks.now.spent ≡ steps.old + work.new.ticks.now.spent }
{
    known(work.bank, context.hypotheses(), term)?;
    known(work.bank, context.hypotheses(), wanted)?;
    let mut lent = copied(work.bank.allocator(), context)?;
    let mark = work.bank.mark();
    check_in(work, env, &mut lent, term, wanted, steps)?;
    work.bank.undo(mark);
    Ok(())
}

/// The sort of a term that must have one under the hypotheses of a context: its type is inferred, and this one's
/// weak head form must be a sort, else it is refused as none. The refusals and the price are those of [`infer`] and of
/// the weak head form; strange hypotheses are not looked for before the work.
pub fn sort_of<L: Ledger>(
    work: &mut Work<'_, '_>,
    env: &Env,
    context: &Context,
    term: TermId,
    steps: &mut Steps<L>,
) -> Result<Sort, KernelFault>
    requires term { IsScoped work.old.bank.now 0 term }
    requires env { IsEnv work.old.bank.now env.now }
    requires context { IsContext work.old.bank.now context.now }
    ensures answer { Sorts work.new.bank.now result (λ n. sort_of (env_of work.old.bank.now env.now) n (context_of work.old.bank.now context.now)
        (tree_of work.old.bank.now term)) work.old.ticks.now.left work.new.ticks.now.left }
    ensures same_bank { work.new.bank.ghost_name ≡ work.old.bank.ghost_name }
    ensures same_ticks { work.new.ticks.ghost_name ≡ work.old.ticks.ghost_name }
    ensures grows { Grows work.old.bank.now work.new.bank.now }
    ensures budget { work.new.ticks.now.left + work.new.ticks.now.spent ≡ work.old.ticks.now.left + work.old.ticks.now.spent }
    ensures counted { steps.new + work.old.ticks.now.spent ≡ steps.old + work.new.ticks.now.spent }
{
    let mut lent = copied(work.bank.allocator(), context)?;
    sort_in(work, env, &mut lent, term, steps)
}

/// Appends a declaration that passes the checks; the bank grows, but not by a constant, whose checks' terms are dropped.
///
/// A constant is refused, in this order, for a taken name, for a hypothesis in its type or its body (the first
/// in pre-order is unbound), for a type without a sort, and for a body that has not the type.
///
/// A family is refused, in this order, for the first taken name of its own, its constructors' and its
/// eliminators'; for a hypothesis in the type of a parameter, of an index or of a constructor that is none of
/// those before it, of the parameters for a constructor; for a parameter or an index without a sort; per constructor,
/// with the family as one that is being declared, for a type without a sort, and then by `TooBig` for the first argument,
/// counted from 1, whose sort is above that of a family in `Type`; and then as `Env::add_inductive` does. A
/// family in `Prop` is eliminated into every sort where it has no constructor, or one whose arguments are all proofs,
/// else into `Prop` alone; one in `Type` into every sort.
///
/// The price is that of the inferences, at one tick a node, and of the weak head forms and comparisons in them; the
/// budget is spent where the next tick would pass it. After a refusal, want of memory among them, the environment is as before.
pub fn declare<L: Ledger>(
    work: &mut Work<'_, '_>,
    env: &mut Env,
    declaration: Declaration,
    steps: &mut Steps<L>,
) -> Result<(), KernelFault>
    requires env { IsEnv work.old.bank.now env.old }
    requires declaration { IsDeclaration work.old.bank.now declaration }
    ensures answer { Declares work.new.bank.now result env.new (λ n. declare work.old.bank.now (env_of work.old.bank.now env.old) n declaration)
        work.old.ticks.now.left work.new.ticks.now.left }
    ensures derived { OnOk result (DerivedEnv (env_of work.old.bank.now env.old) → DerivedEnv (env_of work.new.bank.now env.new)) }
    ensures env { IsEnv work.new.bank.now env.new }
    ensures extends { OnOk result (Extends env.old env.new) }
    ensures dropped { OnOk result (Drops work.old.bank.now work.new.bank.now declaration) }
    ensures kept { OnErr result (env.new ≡ env.old) }
    ensures same_bank { work.new.bank.ghost_name ≡ work.old.bank.ghost_name }
    ensures same_ticks { work.new.ticks.ghost_name ≡ work.old.ticks.ghost_name }
    ensures grows { Grows work.old.bank.now work.new.bank.now }
    ensures budget { work.new.ticks.now.left + work.new.ticks.now.spent ≡ work.old.ticks.now.left + work.old.ticks.now.spent }
    ensures counted { steps.new + work.old.ticks.now.spent ≡ steps.old + work.new.ticks.now.spent }
{
    match declaration {
        Declaration::Constant {
            name,
            kind,
            body,
            opaque,
        } => declare_constant(work, env, name, kind, body, opaque, steps),
        Declaration::Inductive(family) => declare_family(work, env, family, steps),
    }
}
