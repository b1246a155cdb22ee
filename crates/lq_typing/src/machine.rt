//! Inference over a store, turn by turn: what waits for the type of a part stands on a stack on the heap, since a term as it reads may
//! be deeper than any limit.

ghost use Rattle.std.specs.Prelude.{◌≡◌, ◌<◌, ◌+◌, ◌*◌, [], length, IfOk, IfNone, IfSome};
ghost use Rattle.lq_terms.specs.Contexts.{context_of};
ghost use Rattle.lq_terms.specs.Terms.{tree_of, Grows};
ghost use Rattle.lq_env.specs.Environments.{env_of};
ghost use Rattle.lq_evars.specs.Places.{store_of};
ghost use Rattle.lq_typing.specs.declared.waiting.Turn.{Turn as Next};
ghost use Rattle.lq_typing.specs.Frames.{turn_work, IsTurn, IsFound, due, next_of, term_of};
ghost use Rattle.lq_typing.specs.Going.{GoesOn};
ghost use Rattle.lq_typing.specs.Kinds.{Comes};
ghost use Rattle.lq_typing.specs.Sites.{IsLent};

use crate::asking::asked;
use crate::resuming::resumed;
use crate::waiting::{Turn, Waiting};
use lq_env::Env;
use lq_evars::Store;
use lq_kernel::KernelFault;
use lq_terms::{Context, Steps, TermId, Work};
use std::sync::ledger::Ledger;

/// One turn: the type of a term is asked for, or what waits nearest goes on with the type that was found. There is none where
/// nothing waits for the type.
fn turned<L: Ledger>(
    work: &mut Work<'_, '_>,
    env: &Env,
    store: &Store,
    context: &mut Context,
    waiting: &mut Waiting,
    turn: Turn,
    steps: &mut Steps<L>,
) -> Result<Option<Turn>, KernelFault>
    requires lent { IsLent work.old.bank.now env.now store.now }
    requires turn { IsTurn work.old.bank.now store.now context.old waiting.old (turn) }
    ensures goes { GoesOn work.new.bank.now store.now (env_of work.old.bank.now env.now) context.new waiting.new turn result
        (turn_work work.old.bank.now store.now
        (env_of work.old.bank.now env.now) context.old waiting.old turn) work.old.ticks.now.left work.new.ticks.now.left }
    ensures ended { IfOk result (λ o. IfNone o ((waiting.new ≡ []) × IsFound turn)) }
    ensures falls { IfOk result (λ o. IfSome o (λ t. 4 * work.new.ticks.now.left + length waiting.new + due t
        < 4 * work.old.ticks.now.left + length waiting.old + due turn)) }
    ensures same_bank { work.new.bank.ghost_name ≡ work.old.bank.ghost_name }
    ensures same_ticks { work.new.ticks.ghost_name ≡ work.old.ticks.ghost_name }
    ensures grows { Grows work.old.bank.now work.new.bank.now }
    ensures budget { work.new.ticks.now.left + work.new.ticks.now.spent ≡ work.old.ticks.now.left + work.old.ticks.now.spent }
    ensures counted { steps.new + work.old.ticks.now.spent ≡ steps.old + work.new.ticks.now.spent }
{
    match turn {
        Turn::Ask(term) => {
            let turn = asked(work, env, store, context, waiting, term, steps)?;
            Ok(Some(turn))
        }
        Turn::Found(kind) => {
            let Some(frame) = waiting.pop() else {
                return Ok(None);
            };
            let turn = resumed(work, env, store, context, waiting, frame, kind, steps)?;
            Ok(Some(turn))
        }
    }
}

/// The term that a turn is about.
fn term_of(turn: Turn) -> TermId
    ensures { result ≡ term_of turn }
{
    match turn {
        Turn::Ask(term) | Turn::Found(term) => term,
    }
}

/// The type of a term, turn by turn.
pub(crate) fn run<L: Ledger>(
    work: &mut Work<'_, '_>,
    env: &Env,
    store: &Store,
    context: &mut Context,
    waiting: &mut Waiting,
    term: TermId,
    steps: &mut Steps<L>,
) -> Result<TermId, KernelFault>
    requires lent { IsLent work.old.bank.now env.now store.now }
    requires waiting { waiting.old ≡ [] }
    requires turn { IsTurn work.old.bank.now store.now context.old waiting.old (Next.Ask term) }
    ensures answer { Comes work.new.bank.now result
        (turn_work work.old.bank.now store.now (env_of work.old.bank.now env.now) context.old waiting.old
        (Next.Ask term)) work.old.ticks.now.left work.new.ticks.now.left }
    ensures same_bank { work.new.bank.ghost_name ≡ work.old.bank.ghost_name }
    ensures same_ticks { work.new.ticks.ghost_name ≡ work.old.ticks.ghost_name }
    ensures grows { Grows work.old.bank.now work.new.bank.now }
    ensures budget { work.new.ticks.now.left + work.new.ticks.now.spent ≡ work.old.ticks.now.left + work.old.ticks.now.spent }
    ensures counted { steps.new + work.old.ticks.now.spent ≡ steps.old + work.new.ticks.now.spent }
{
    let mut turn = Turn::Ask(term);
    'turns: loop {
        match turned(work, env, store, context, waiting, turn, steps) {
            Ok(Some(later)) => turn = later,
            Ok(None) => return Ok(term_of(turn)),
            Err(fault) => return Err(fault),
        }
    }
}
