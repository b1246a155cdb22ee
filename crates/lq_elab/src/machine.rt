//! Elaboration turn by turn: what waits for a part stands on a stack on the heap, since a row of binders or arguments may be of any length.

ghost use Rattle.std.specs.Prelude.{◌≡◌, ◌+◌, ◌*◌, ◌<◌, IfOk, IfSome};
ghost use Rattle.lq_terms.specs.Terms.{Grows};
ghost use Rattle.lq_evars.specs.Places.{Places, store_of};
ghost use Rattle.lq_elab.specs.declared.turns.Turn.{Turn as Next};
ghost use Rattle.lq_elab.specs.Frames.{weights};
ghost use Rattle.lq_elab.specs.Making.{Restores};
ghost use Rattle.lq_elab.specs.Running.{GoesOn, Ends, found_at};
ghost use Rattle.lq_elab.specs.States.{IsState, TurnStands, turn_work, due};

use crate::finding::Found;
use crate::frames::Frames;
use crate::resuming::resumed;
use crate::scope::Scope;
use crate::sites::Site;
use crate::turns::Turn;
use crate::viewing::asked;
use crate::views::Asked;
use lq_evars::Store;
use lq_terms::{Context, Steps, TermId, Work};
use lq_typing::ElabFault;
use std::sync::ledger::Ledger;

/// One turn: a term is asked for, or what waits nearest goes on with what was elaborated. There is none where nothing waits.
fn turned<'t, L: Ledger>(
    work: &mut Work<'_, '_>,
    site: &Site<'_>,
    store: &mut Store,
    saved: &mut Option<Store>,
    context: &mut Context,
    scope: &mut Scope,
    frames: &mut Frames<'t>,
    turn: Turn<'t>,
    steps: &mut Steps<L>,
) -> Result<Option<Turn<'t>>, ElabFault>
    requires state { IsState work.old.bank.now site.now store.old context.old scope.old frames.old }
    requires stands { TurnStands work.old.bank.now store.old context.old turn }
    ensures goes { GoesOn work.new.bank.now site.now (store_of work.old.bank.now store.old) store.new context.new scope.new frames.new turn.entry result
        (turn_work work.old.bank.now site.now store.old context.old frames.old turn.entry)
        work.old.ticks.now.left work.new.ticks.now.left (weights frames.old + due turn.entry + 4 * work.old.ticks.now.left) }
    ensures falls { IfOk result (λ o. IfSome o (λ t. weights frames.new + due t + 4 * work.new.ticks.now.left
        < weights frames.old + due turn.entry + 4 * work.old.ticks.now.left)) }
    ensures since { (before : Places) → Restores before saved.old store.old → Restores before saved.new store.new }
    ensures same_bank { work.new.bank.ghost_name ≡ work.old.bank.ghost_name }
    ensures same_ticks { work.new.ticks.ghost_name ≡ work.old.ticks.ghost_name }
    ensures grows { Grows work.old.bank.now work.new.bank.now }
    ensures budget { work.new.ticks.now.left + work.new.ticks.now.spent ≡ work.old.ticks.now.left + work.old.ticks.now.spent }
    ensures counted { steps.new + work.old.ticks.now.spent ≡ steps.old + work.new.ticks.now.spent }
{
    match turn {
        Turn::Ask(term, wanted) => match asked(
            work, site, store, saved, context, scope, frames, term, wanted, steps,
        ) {
            Ok(next) => Ok(Some(next)),
            Err(fault) => Err(fault),
        },
        Turn::Found(found) => match frames.pop() {
            Some(frame) => match resumed(
                work,
                site,
                store,
                context,
                scope,
                frames,
                frame.part,
                frame.wanted,
                found,
                steps,
            ) {
                Ok(next) => Ok(Some(next)),
                Err(fault) => Err(fault),
            },
            None => Ok(None),
        },
    }
}

/// What a turn found, if it found something.
fn found_in<'t>(turn: Turn<'t>) -> Option<Found>
    ensures { result ≡ found_at turn.entry }
{
    match turn {
        Turn::Ask(_, _) => None,
        Turn::Found(found) => Some(found),
    }
}

/// A term is elaborated, turn by turn.
pub(crate) fn run<'t, L: Ledger>(
    work: &mut Work<'_, '_>,
    site: &Site<'_>,
    store: &mut Store,
    saved: &mut Option<Store>,
    context: &mut Context,
    scope: &mut Scope,
    frames: &mut Frames<'t>,
    term: Asked<'t>,
    wanted: Option<TermId>,
    steps: &mut Steps<L>,
) -> Result<Found, ElabFault>
    requires state { IsState work.old.bank.now site.now store.old context.old scope.old frames.old }
    requires stands { TurnStands work.old.bank.now store.old context.old (Next.Ask term wanted) }
    ensures ends { Ends work.new.bank.now site.now (store_of work.old.bank.now store.old) store.new result
        (turn_work work.old.bank.now site.now store.old context.old frames.old (Next.Ask term.entry wanted))
        work.old.ticks.now.left work.new.ticks.now.left }
    ensures since { (before : Places) → Restores before saved.old store.old → Restores before saved.new store.new }
    ensures same_bank { work.new.bank.ghost_name ≡ work.old.bank.ghost_name }
    ensures same_ticks { work.new.ticks.ghost_name ≡ work.old.ticks.ghost_name }
    ensures grows { Grows work.old.bank.now work.new.bank.now }
    ensures budget { work.new.ticks.now.left + work.new.ticks.now.spent ≡ work.old.ticks.now.left + work.old.ticks.now.spent }
    ensures counted { steps.new + work.old.ticks.now.spent ≡ steps.old + work.new.ticks.now.spent }
{
    let mut turn = Turn::Ask(term, wanted);
    'turns: loop {
        match turned(
            work, site, store, saved, context, scope, frames, turn, steps,
        ) {
            Ok(Some(next)) => turn = next,
            Ok(None) => match found_in(turn) {
                Some(found) => return Ok(found),
                None => unreachable!(),
            },
            Err(fault) => return Err(fault),
        }
    }
}
