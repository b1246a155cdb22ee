//! A call on two terms.

ghost use Rattle.std.specs.Prelude.{◌≡◌, ◌<◌, ◌+◌, ◌*◌, ℕ, IfOk};
ghost use Rattle.lq_trees.specs.Rules.{Rules};
ghost use Rattle.lq_terms.specs.Terms.{Grows};
ghost use Rattle.lq_solving.specs.Unification.{Unify, Answer};
ghost use Rattle.lq_evars.specs.Places.{Places, store_of};
ghost use Rattle.lq_unify.specs.Working.{IsAsked};
ghost use Rattle.lq_unify.specs.Frames.{IsWork, IsSince, sides_in, waits, turns};
ghost use Rattle.lq_unify.specs.Turns.{PairStands, IsNext, Turned, due};

use crate::faults::UnifyFault;
use crate::frames::Frames;
use crate::pairs::Pair;
use crate::resuming::Next;
use crate::turns::rows;
use lq_evars::Store;
use lq_terms::{Bank, Context, Steps, Ticks};
use std::sync::ledger::Ledger;

/// A call on two terms: a tick, and then the rows.
pub(crate) fn asked<L: Ledger>(
    bank: &mut Bank<'_>,
    ticks: &mut Ticks,
    store: &mut Store,
    context: &Context,
    frames: &mut Frames,
    pair: Pair,
    steps: &mut Steps<L>,
) -> Result<Next, UnifyFault>
    requires work { IsWork bank.old store.old context.now frames.old }
    requires pair { PairStands bank.old store.old context.now pair }
    ensures is { IfOk result (IsNext bank.new store.new context.now frames.new) }
    ensures goes { (r : Rules) (f : ℕ → Unify Answer) (budget : ℕ)
        → IsAsked r f budget ticks.old.left (store_of bank.old store.old) (waits bank.old store.old context.now frames.old) (sides_in bank.old context.now pair)
        → Turned r f budget ticks.new.left bank.new store.new context.now frames.new result }
    ensures since { (before : Places) → IsSince before store.old frames.old → IsSince before store.new frames.new }
    ensures falls { IfOk result (λ n. 8 * ticks.new.left + turns frames.new + due n < 8 * ticks.old.left + turns frames.old) }
    ensures grows { Grows bank.old bank.new }
    ensures left { ticks.new.left + ticks.new.spent ≡ ticks.old.left + ticks.old.spent }
    ensures counted { steps.new + ticks.old.spent ≡ steps.old + ticks.new.spent }
{
    if !ticks.take(steps) {
        return Err(UnifyFault::StepsOut);
    }
    rows(bank, store, context, frames, pair, true)
}
