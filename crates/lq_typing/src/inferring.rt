//! The type of a term over a store.

ghost use Rattle.std.specs.Prelude.{◌≡◌, ◌+◌, [], IfOk};
ghost use Rattle.lq_terms.specs.Contexts.{HasContext, context_of};
ghost use Rattle.lq_terms.specs.Terms.{HasTerm, tree_of, Grows};
ghost use Rattle.lq_solving.specs.Claims.{ArePlainDeclarations};
ghost use Rattle.lq_solving.specs.ElabFaults.{type_of};
ghost use Rattle.lq_solving.specs.Inference.{infer_open};
ghost use Rattle.lq_solving.specs.Kept.{IsContext, IsStore, StandsIn};
ghost use Rattle.lq_env.specs.Environments.{IsEnv, env_of};
ghost use Rattle.lq_evars.specs.Places.{store_of, HasStore};
ghost use Rattle.lq_typing.specs.declared.waiting.Turn.{Turn};
ghost use Rattle.lq_typing.specs.Frames.{IsTurn};
ghost use Rattle.lq_typing.specs.Kinds.{Comes, IsKind};
ghost use Rattle.lq_typing.specs.Refusals.{Finds};
ghost use Rattle.lq_typing.specs.Sites.{IsLent, IsSite};

use crate::faults::ElabFault;
use crate::machine::run;
use crate::waiting::Waiting;
use lq_env::Env;
use lq_evars::Store;
use lq_kernel::KernelFault;
use lq_terms::{Context, NoMemory, Steps, TermId, Work};
use std::alloc::Global;
use std::sync::ledger::Ledger;

/// The same context.
fn copied(alloc: Global, context: &Context) -> Result<Context, NoMemory>
    ensures { IfOk result (λ c. c ≡ context.now) }
{
    match Vec::from_slice(alloc, context.hypotheses()) {
        Ok(hypotheses) => Ok(Context::from_hypotheses(hypotheses)),
        Err(_) => Err(NoMemory),
    }
}

/// The type of a term, with a stack of its own for what waits.
fn started<L: Ledger>(
    work: &mut Work<'_, '_>,
    env: &Env,
    store: &Store,
    context: &mut Context,
    term: TermId,
    steps: &mut Steps<L>,
) -> Result<TermId, KernelFault>
    requires lent { IsLent work.old.bank.now env.now store.now }
    requires turn { IsTurn work.old.bank.now store.now context.old [] (Turn.Ask term) }
    ensures answer { Comes work.new.bank.now result
        (λ n. infer_open (env_of work.old.bank.now env.now) n (store_of work.old.bank.now store.now) (context_of work.old.bank.now context.old)
        (tree_of work.old.bank.now term)) work.old.ticks.now.left work.new.ticks.now.left }
    ensures same_bank { work.new.bank.ghost_name ≡ work.old.bank.ghost_name }
    ensures same_ticks { work.new.ticks.ghost_name ≡ work.old.ticks.ghost_name }
    ensures grows { Grows work.old.bank.now work.new.bank.now }
    ensures budget { work.new.ticks.now.left + work.new.ticks.now.spent ≡ work.old.ticks.now.left + work.old.ticks.now.spent }
    ensures counted { steps.new + work.old.ticks.now.spent ≡ steps.old + work.new.ticks.now.spent }
{
    let mut waiting = Waiting::new(work.bank.allocator());
    run(work, env, store, context, &mut waiting, term, steps)
}

/// The same in a context that is only read.
fn inferred<L: Ledger>(
    work: &mut Work<'_, '_>,
    env: &Env,
    store: &Store,
    context: &Context,
    term: TermId,
    steps: &mut Steps<L>,
) -> Result<TermId, KernelFault>
    requires site { IsSite work.old.bank.now env.now store.now context.now }
    requires has { HasTerm work.old.bank.now term }
    requires term { StandsIn (store_of work.old.bank.now store.now) (context_of work.old.bank.now context.now) (tree_of work.old.bank.now term) }
    ensures answer { Comes work.new.bank.now result
        (λ n. infer_open (env_of work.old.bank.now env.now) n (store_of work.old.bank.now store.now) (context_of work.old.bank.now context.now)
        (tree_of work.old.bank.now term)) work.old.ticks.now.left work.new.ticks.now.left }
    ensures same_bank { work.new.bank.ghost_name ≡ work.old.bank.ghost_name }
    ensures same_ticks { work.new.ticks.ghost_name ≡ work.old.ticks.ghost_name }
    ensures grows { Grows work.old.bank.now work.new.bank.now }
    ensures budget { work.new.ticks.now.left + work.new.ticks.now.spent ≡ work.old.ticks.now.left + work.old.ticks.now.spent }
    ensures counted { steps.new + work.old.ticks.now.spent ≡ steps.old + work.new.ticks.now.spent }
{
    let mut lent = copied(work.bank.allocator(), context)?;
    started(work, env, store, &mut lent, term, steps)
}

/// The type of a term as it reads, under hypotheses as they read, where a variable has the instance of its type: at a tick for each node
/// before its parts, and the ticks of the weak head forms and comparisons that the rules need. The term and the context are given as they
/// are kept, and the term as it reads may be larger and deeper than any limit; the store is only read. The type is as read, within the
/// limits, and stands in the context.
/// The refusals: `Unknown` for a name that neither the context nor, for a name of that kind, the environment has; `Mismatch`, `NotAProduct`,
/// `NotASort`, `NoSortAbove`, `ElimForbidden` where a rule of typing fails (Rocq reference manual, "Typing rules"), with the types and weak
/// head forms as read; `TooLarge` and `TooDeep` where a type, or a weak head form that a rule needs, passes the limits; `StepsOut` exactly
/// where the budget has too few ticks, and then none is left; `NoMemory`. The first in the order of work counts.
pub fn type_of<L: Ledger>(
    work: &mut Work<'_, '_>,
    env: &Env,
    store: &Store,
    context: &Context,
    term: TermId,
    steps: &mut Steps<L>,
) -> Result<TermId, ElabFault>
    requires env { IsEnv work.old.bank.now env.now }
    requires plain { ArePlainDeclarations (env_of work.old.bank.now env.now) }
    requires store { HasStore work.old.bank.now store.now }
    requires kept { IsStore (store_of work.old.bank.now store.now) }
    requires hypotheses { HasContext work.old.bank.now context.now }
    requires context { IsContext (store_of work.old.bank.now store.now) (context_of work.old.bank.now context.now) }
    requires has { HasTerm work.old.bank.now term }
    requires term { StandsIn (store_of work.old.bank.now store.now) (context_of work.old.bank.now context.now) (tree_of work.old.bank.now term) }
    ensures answer { Finds work.new.bank.now result
        (λ n. type_of (env_of work.old.bank.now env.now) n (store_of work.old.bank.now store.now) (context_of work.old.bank.now context.now)
        (tree_of work.old.bank.now term)) work.old.ticks.now.left work.new.ticks.now.left }
    ensures stands { IfOk result (IsKind work.new.bank.now (store_of work.old.bank.now store.now) (context_of work.old.bank.now context.now)) }
    ensures same_bank { work.new.bank.ghost_name ≡ work.old.bank.ghost_name }
    ensures same_ticks { work.new.ticks.ghost_name ≡ work.old.ticks.ghost_name }
    ensures grows { Grows work.old.bank.now work.new.bank.now }
    ensures budget { work.new.ticks.now.left + work.new.ticks.now.spent ≡ work.old.ticks.now.left + work.old.ticks.now.spent }
    ensures counted { steps.new + work.old.ticks.now.spent ≡ steps.old + work.new.ticks.now.spent }
{
    match inferred(work, env, store, context, term, steps) {
        Ok(kind) => Ok(kind),
        Err(fault) => Err(ElabFault::from(fault)),
    }
}
