//! `Check`.

ghost use Rattle.std.specs.Prelude.{◌≡◌, ◌+◌, IfOk};
ghost use Rattle.lq_ast.specs.Plain.{plain};
ghost use Rattle.lq_terms.specs.Terms.{Grows};
ghost use Rattle.lq_sessions.specs.Sentences.{checked};
ghost use Rattle.lq_session.specs.Sessions.{session_of, IsSession, IsOpened, Does};
ghost use Rattle.lq_session.specs.Checking.{IsHere, IsPlace};

use crate::opened::{Opened, Session};
use lq_ast::{Surface, Text};
use lq_causes::Stop;
use lq_elaborated::check_term;
use lq_evars::Store;
use lq_print::check_text;
use lq_terms::{Bank, Context, NoMemory, Steps, Work};
use std::sync::ledger::Ledger;

/// The context of the first goal in focus; the empty one where no goal is.
fn context_here(bank: &Bank<'_>, opened: &Opened) -> Result<Context, NoMemory>
    requires { IsOpened bank.now opened.now }
    ensures { IfOk result (IsHere bank.now opened.now) }
{
    let alloc = bank.allocator();
    let Some(goal) = opened.proof.focused().first() else {
        return Ok(Context::new(alloc));
    };
    match Vec::from_slice(alloc, opened.proof.store().context(*goal).hypotheses()) {
        Ok(hypotheses) => Ok(Context::from_hypotheses(hypotheses)),
        Err(_) => Err(NoMemory),
    }
}

/// The store and the context in which a term is checked.
fn place_of(bank: &Bank<'_>, session: &Session) -> Result<(Store, Context), NoMemory>
    requires { IsSession bank.now session.now }
    ensures { IfOk result (IsPlace bank.now session.now) }
{
    let alloc = bank.allocator();
    let Some(opened) = &session.opened else {
        let store = Store::new(alloc)?;
        return Ok((store, Context::new(alloc)));
    };
    let context = context_here(bank, opened)?;
    let store = opened.proof.store().copy(alloc)?;
    Ok((store, context))
}

/// `Check`: the line of a term and its type as they read, in the context of the first goal in focus where a proof is open. The session
/// stays as it is. Refused as elaboration refuses, and as `Unresolved` where variables that elaboration made have no value. The budget is
/// the kernel's. It takes memory for a copy of the open proof's store. See the Rocq reference manual, "Queries".
pub fn check<L: Ledger>(
    work: &mut Work<'_, '_>,
    session: &Session,
    term: &Surface,
    steps: &mut Steps<L>,
) -> Result<Text, Stop>
    requires session { IsSession work.old.bank.now session.now }
    requires budget { work.old.ticks.now.left ≡ session.now.kernel }
    ensures answer { Does work.old.bank.now work.new.bank.now result session.now session.now (checked (session_of work.old.bank.now session.now) (plain term.now)) }
    ensures session { IsSession work.new.bank.now session.now }
    ensures same_bank { work.new.bank.ghost_name ≡ work.old.bank.ghost_name }
    ensures same_ticks { work.new.ticks.ghost_name ≡ work.old.ticks.ghost_name }
    ensures grows { Grows work.old.bank.now work.new.bank.now }
    ensures budget { work.new.ticks.now.left + work.new.ticks.now.spent ≡ work.old.ticks.now.left + work.old.ticks.now.spent }
    ensures counted { steps.new + work.old.ticks.now.spent ≡ steps.old + work.new.ticks.now.spent }
{
    let (mut store, context) = match place_of(work.bank, session) {
        Ok(place) => place,
        Err(_) => return Err(Stop::NoMemory),
    };
    match check_term(work, &session.env, &mut store, &context, term, steps) {
        Ok(typed) => match check_text(work.bank, &session.env, typed.term, typed.kind) {
            Ok(line) => Ok(line),
            Err(_) => Err(Stop::NoMemory),
        },
        Err(stop) => Err(stop),
    }
}
