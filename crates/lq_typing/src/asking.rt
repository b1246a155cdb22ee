//! The type of a term is asked for: its head is read, and its tick paid.

ghost use Rattle.std.specs.Prelude.{◌≡◌, ◌<◌, ◌+◌, ◌*◌, length, IfOk};
ghost use Rattle.lq_terms.specs.Terms.{HasTerm, tree_of, Grows};
ghost use Rattle.lq_env.specs.Environments.{env_of};
ghost use Rattle.lq_evars.specs.Places.{store_of};
ghost use Rattle.lq_typing.specs.declared.waiting.Turn.{Turn as Next};
ghost use Rattle.lq_typing.specs.Frames.{turn_work, IsTurn, due};
ghost use Rattle.lq_typing.specs.Going.{FirstOf, Goes, IsOpen, Pays};
ghost use Rattle.lq_typing.specs.Sites.{IsLent};

use crate::resuming::found;
use crate::singles::{shown, single_kind};
use crate::waiting::{Frame, Turn, Waiting};
use lq_env::Env;
use lq_evars::Store;
use lq_kernel::KernelFault;
use lq_terms::{Bank, Context, Node, Steps, TermId, Ticks, Work};
use std::sync::ledger::Ledger;

/// The part of a term whose type is asked for first, and what waits for it, if the term has parts.
fn first_of(bank: &Bank<'_>, term: TermId) -> Option<(Frame, TermId)>
    requires { HasTerm bank.now term }
    ensures { FirstOf bank.now result term }
{
    match bank.node(term) {
        Node::Prod(binder, domain, rest) => {
            Some((Frame::ProductDomain(*binder, *domain, *rest), *domain))
        }
        Node::Lam(binder, domain, rest) => {
            Some((Frame::FunctionDomain(*binder, *domain, *rest), *domain))
        }
        Node::Let(binder, value, kind, rest) => {
            Some((Frame::DefinitionKind(*binder, *value, *kind, *rest), *kind))
        }
        Node::App(function, argument) => Some((Frame::Function(*argument), *function)),
        _ => None,
    }
}

/// The type of a part is asked for, once a tick is paid.
fn pay<L: Ledger>(
    ticks: &mut Ticks,
    waiting: &mut Waiting,
    frame: Frame,
    part: TermId,
    steps: &mut Steps<L>,
) -> Result<Turn, KernelFault>
    ensures pays { Pays result frame part waiting.old waiting.new ticks.old.left ticks.new.left }
    ensures budget { ticks.new.left + ticks.new.spent ≡ ticks.old.left + ticks.old.spent }
    ensures counted { steps.new + ticks.old.spent ≡ steps.old + ticks.new.spent }
{
    if !ticks.take(steps) {
        return Err(KernelFault::StepsOut);
    }
    waiting.push(frame)?;
    Ok(Turn::Ask(part))
}

/// The next turn, where the type of a term is asked for whose head was read.
fn asked_node<L: Ledger>(
    work: &mut Work<'_, '_>,
    env: &Env,
    store: &Store,
    context: &Context,
    waiting: &mut Waiting,
    term: TermId,
    steps: &mut Steps<L>,
) -> Result<Turn, KernelFault>
    requires lent { IsLent work.old.bank.now env.now store.now }
    requires turn { IsTurn work.old.bank.now store.now context.now waiting.old (Next.Ask term) }
    requires open { IsOpen (store_of work.old.bank.now store.now).values (tree_of work.old.bank.now term) }
    ensures goes { Goes work.new.bank.now store.now (env_of work.old.bank.now env.now) context.now waiting.new result
        (turn_work work.old.bank.now store.now (env_of work.old.bank.now env.now) context.now waiting.old
        (Next.Ask term)) work.old.ticks.now.left work.new.ticks.now.left }
    ensures falls { IfOk result (λ t. 4 * work.new.ticks.now.left + length waiting.new + due t < 4 * work.old.ticks.now.left + length waiting.old) }
    ensures same_bank { work.new.bank.ghost_name ≡ work.old.bank.ghost_name }
    ensures same_ticks { work.new.ticks.ghost_name ≡ work.old.ticks.ghost_name }
    ensures grows { Grows work.old.bank.now work.new.bank.now }
    ensures budget { work.new.ticks.now.left + work.new.ticks.now.spent ≡ work.old.ticks.now.left + work.old.ticks.now.spent }
    ensures counted { steps.new + work.old.ticks.now.spent ≡ steps.old + work.new.ticks.now.spent }
{
    match first_of(work.bank, term) {
        Some((frame, part)) => pay(work.ticks, waiting, frame, part, steps),
        None => found(single_kind(work, env, store, context, term, steps)),
    }
}

/// The next turn, where the type of a term is asked for.
pub(crate) fn asked<L: Ledger>(
    work: &mut Work<'_, '_>,
    env: &Env,
    store: &Store,
    context: &Context,
    waiting: &mut Waiting,
    term: TermId,
    steps: &mut Steps<L>,
) -> Result<Turn, KernelFault>
    requires lent { IsLent work.old.bank.now env.now store.now }
    requires turn { IsTurn work.old.bank.now store.now context.now waiting.old (Next.Ask term) }
    ensures goes { Goes work.new.bank.now store.now (env_of work.old.bank.now env.now) context.now waiting.new result
        (turn_work work.old.bank.now store.now (env_of work.old.bank.now env.now) context.now waiting.old
        (Next.Ask term)) work.old.ticks.now.left work.new.ticks.now.left }
    ensures falls { IfOk result (λ t. 4 * work.new.ticks.now.left + length waiting.new + due t < 4 * work.old.ticks.now.left + length waiting.old) }
    ensures same_bank { work.new.bank.ghost_name ≡ work.old.bank.ghost_name }
    ensures same_ticks { work.new.ticks.ghost_name ≡ work.old.ticks.ghost_name }
    ensures grows { Grows work.old.bank.now work.new.bank.now }
    ensures budget { work.new.ticks.now.left + work.new.ticks.now.spent ≡ work.old.ticks.now.left + work.old.ticks.now.spent }
    ensures counted { steps.new + work.old.ticks.now.spent ≡ steps.old + work.new.ticks.now.spent }
{
    let term = shown(work.bank, store, term)?;
    asked_node(work, env, store, context, waiting, term, steps)
}
