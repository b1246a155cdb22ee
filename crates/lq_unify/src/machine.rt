//! Unification, turn by turn: what waits for an answer stands on a stack on the heap.

ghost use Rattle.std.specs.Prelude.{◌≡◌, ◌≤◌, ◌<◌, ◌+◌, ◌*◌, [], ℕ, IfOk, IfSome, IfNone, OnOk};
ghost use Rattle.lq_trees.specs.Rules.{Rules as TreeRules};
ghost use Rattle.lq_terms.specs.Terms.{Grows};
ghost use Rattle.lq_solving.specs.Claims.{ArePlainRules};
ghost use Rattle.lq_solving.specs.Unification.{Unify, Answer};
ghost use Rattle.lq_solving.specs.Kept.{IsStore};
ghost use Rattle.lq_evars.specs.Places.{Places, store_of, HasStore, GivesMore};
ghost use Rattle.lq_unify.specs.Working.{IsAsked, IsReducing};
ghost use Rattle.lq_unify.specs.Frames.{IsWork, IsSince, sides_in, waits, turns};
ghost use Rattle.lq_unify.specs.Telling.{HasRules, TellsOn};
ghost use Rattle.lq_unify.specs.Turns.{PairStands, IsNext, Goes, Turned, TurnedOn, Unifies, IsAnswer, next_of, said_by, due};

use crate::asking::asked;
use crate::faults::UnifyFault;
use crate::frames::Frames;
use crate::pairs::Pair;
use crate::reducing::reduced;
use crate::resuming::{Next, resumed};
use crate::turns::rows;
use lq_evars::Store;
use lq_terms::{Context, Rules, Steps, Work};
use std::sync::ledger::Ledger;

/// Two terms go to weak head form: where one changed the rows come again, and their No is final.
fn formed<R: Rules, L: Ledger>(
    work: &mut Work<'_, '_>,
    rules: &R,
    store: &mut Store,
    context: &Context,
    frames: &mut Frames,
    pair: Pair,
    steps: &mut Steps<L>,
) -> Result<Next, UnifyFault>
    requires work { IsWork work.old.bank.now store.old context.now frames.old }
    requires pair { PairStands work.old.bank.now store.old context.now pair }
    requires rules { HasRules work.old.bank.now (R.told rules.now) }
    ensures is { IfOk result (IsNext work.new.bank.now store.new context.now frames.new) }
    ensures goes { (r : TreeRules) (f : ℕ → Unify Answer) (budget : ℕ) → TellsOn work.old.bank.now (R.told rules.now) r → ArePlainRules r
        → IsReducing r f budget work.old.ticks.now.left (store_of work.old.bank.now store.old) (waits work.old.bank.now store.old context.now frames.old)
        (sides_in work.old.bank.now context.now pair)
        → Turned r f budget work.new.ticks.now.left work.new.bank.now store.new context.now frames.new result }
    ensures since { (before : Places) → IsSince before store.old frames.old → IsSince before store.new frames.new }
    ensures falls { IfOk result (λ n. turns frames.new + due n < 3 + turns frames.old) }
    ensures fewer { OnOk result (work.new.ticks.now.left ≤ work.old.ticks.now.left) }
    ensures same_bank { work.new.bank.ghost_name ≡ work.old.bank.ghost_name }
    ensures same_ticks { work.new.ticks.ghost_name ≡ work.old.ticks.ghost_name }
    ensures grows { Grows work.old.bank.now work.new.bank.now }
    ensures budget { work.new.ticks.now.left + work.new.ticks.now.spent ≡ work.old.ticks.now.left + work.old.ticks.now.spent }
    ensures counted { steps.new + work.old.ticks.now.spent ≡ steps.old + work.new.ticks.now.spent }
{
    match reduced(work, rules, store, context, pair.left, pair.right, steps) {
        Ok(Some((left, right))) => rows(
            work.bank,
            store,
            context,
            frames,
            Pair { left, right },
            false,
        ),
        Ok(None) => Ok(Next::Answer(false)),
        Err(fault) => Err(fault),
    }
}

/// One turn: what comes next is done, or what waits nearest goes on with the answer. There is none where nothing waits for the answer.
fn turned<R: Rules, L: Ledger>(
    work: &mut Work<'_, '_>,
    rules: &R,
    store: &mut Store,
    context: &mut Context,
    frames: &mut Frames,
    next: Next,
    steps: &mut Steps<L>,
) -> Result<Option<Next>, UnifyFault>
    requires is { IsNext work.old.bank.now store.old context.old frames.old next }
    requires rules { HasRules work.old.bank.now (R.told rules.now) }
    ensures is { IfOk result (λ o. IsNext work.new.bank.now store.new context.new frames.new (next_of o next)) }
    ensures goes { (r : TreeRules) (f : ℕ → Unify Answer) (budget : ℕ) → TellsOn work.old.bank.now (R.told rules.now) r → ArePlainRules r
        → Goes r f budget work.old.ticks.now.left work.old.bank.now store.old context.old frames.old next
        → TurnedOn r f budget work.new.ticks.now.left work.new.bank.now store.new context.new frames.new next result }
    ensures ended { IfOk result (λ o. IfNone o ((frames.new ≡ []) × IsAnswer next)) }
    ensures since { (before : Places) → IsSince before store.old frames.old → IsSince before store.new frames.new }
    ensures falls { IfOk result (λ o. IfSome o (λ n. 8 * work.new.ticks.now.left + turns frames.new + due n
        < 8 * work.old.ticks.now.left + turns frames.old + due next)) }
    ensures same_bank { work.new.bank.ghost_name ≡ work.old.bank.ghost_name }
    ensures same_ticks { work.new.ticks.ghost_name ≡ work.old.ticks.ghost_name }
    ensures grows { Grows work.old.bank.now work.new.bank.now }
    ensures budget { work.new.ticks.now.left + work.new.ticks.now.spent ≡ work.old.ticks.now.left + work.old.ticks.now.spent }
    ensures counted { steps.new + work.old.ticks.now.spent ≡ steps.old + work.new.ticks.now.spent }
{
    match next {
        Next::Ask(pair) => {
            let next = asked(work.bank, work.ticks, store, context, frames, pair, steps)?;
            Ok(Some(next))
        }
        Next::Reduce(pair) => {
            let next = formed(work, rules, store, context, frames, pair, steps)?;
            Ok(Some(next))
        }
        Next::Answer(said) => {
            let Some(frame) = frames.pop() else {
                return Ok(None);
            };
            let next = resumed(store, context, frames, frame, said)?;
            Ok(Some(next))
        }
    }
}

/// The answer that there is.
fn said(next: Next) -> bool
    ensures { result ≡ said_by next }
{
    match next {
        Next::Answer(said) => said,
        Next::Ask(_) | Next::Reduce(_) => false,
    }
}

/// The answer of a call on two terms, turn by turn.
pub(crate) fn run<R: Rules, L: Ledger>(
    work: &mut Work<'_, '_>,
    rules: &R,
    store: &mut Store,
    context: &mut Context,
    frames: &mut Frames,
    pair: Pair,
    steps: &mut Steps<L>,
) -> Result<bool, UnifyFault>
    requires frames { frames.old ≡ [] }
    requires work { IsWork work.old.bank.now store.old context.old frames.old }
    requires pair { PairStands work.old.bank.now store.old context.old pair }
    requires rules { HasRules work.old.bank.now (R.told rules.now) }
    ensures answer { (r : TreeRules) (f : ℕ → Unify Answer) (budget : ℕ) → TellsOn work.old.bank.now (R.told rules.now) r → ArePlainRules r
        → IsAsked r f budget work.old.ticks.now.left (store_of work.old.bank.now store.old) [] (sides_in work.old.bank.now context.old pair)
        → Unifies work.new.bank.now store.new result f budget work.new.ticks.now.left }
    ensures store { IfOk result (λ _. HasStore work.new.bank.now store.new) }
    ensures kept { IfOk result (λ _. IsStore (store_of work.new.bank.now store.new)) }
    ensures more { GivesMore store.old store.new }
    ensures same_bank { work.new.bank.ghost_name ≡ work.old.bank.ghost_name }
    ensures same_ticks { work.new.ticks.ghost_name ≡ work.old.ticks.ghost_name }
    ensures grows { Grows work.old.bank.now work.new.bank.now }
    ensures budget { work.new.ticks.now.left + work.new.ticks.now.spent ≡ work.old.ticks.now.left + work.old.ticks.now.spent }
    ensures counted { steps.new + work.old.ticks.now.spent ≡ steps.old + work.new.ticks.now.spent }
{
    let mut next = Next::Ask(pair);
    'turns: loop {
        match turned(work, rules, store, context, frames, next, steps) {
            Ok(Some(later)) => next = later,
            Ok(None) => return Ok(said(next)),
            Err(fault) => return Err(fault),
        }
    }
}
