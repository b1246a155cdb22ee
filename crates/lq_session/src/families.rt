//! `Inductive`.

ghost use Rattle.std.specs.Prelude.{◌≡◌, ◌+◌, length, OnErr, map};
ghost use Rattle.lq_ast.specs.Plain.{plain, plain_binders, joined};
ghost use Rattle.lq_ast.specs.PlainCommands.{plain_constructor};
ghost use Rattle.lq_terms.specs.Terms.{HasName, text_of, Grows};
ghost use Rattle.lq_sessions.specs.Sessions.{needs_none};
ghost use Rattle.lq_sessions.specs.Declaring.{inductive};
ghost use Rattle.lq_env.specs.Environments.{Extends};
ghost use Rattle.lq_session.specs.Sessions.{session_of, IsSession, Does};

use crate::allowed::may_stand;
use crate::ending::defined_line;
use crate::opened::Session;
use lq_ast::{Binders, Constructor, Surface, Text};
use lq_causes::Stop;
use lq_elaborated::{define_family, refuse_taken};
use lq_terms::{NameId, Steps, Work};
use std::sync::ledger::Ledger;

/// A constructor's number has 32 bits, and is below this one.
const MOST_CONSTRUCTORS: usize = 4_294_967_296;

/// `Inductive`, with its parameters, the number of names that they bind, its arity and its constructors: the family is declared. Refused
/// where a proof is open, where one of its names is declared already or stands twice, as `lq_elaborated::define_family` refuses, and as the
/// kernel does; then the session is as before. 4,294,967,296 constructors or more count as want of memory: their names differ, and a bank
/// has no room for as many. The budget is the kernel's, for elaboration and the kernel together. See the Rocq reference manual, "Inductive
/// types".
pub fn declare_family<L: Ledger>(
    work: &mut Work<'_, '_>,
    session: &mut Session,
    name: NameId,
    groups: &[Binders],
    parameters: usize,
    kind: &Surface,
    constructors: &[Constructor],
    steps: &mut Steps<L>,
) -> Result<Text, Stop>
    requires session { IsSession work.old.bank.now session.old }
    requires name { HasName work.old.bank.now name }
    requires budget { work.old.ticks.now.left ≡ session.old.kernel }
    requires count { parameters ≡ length (joined (map plain_binders groups.now)) }
    ensures answer { Does work.old.bank.now work.new.bank.now result session.old session.new (needs_none (session_of work.old.bank.now session.old)
        (inductive (session_of work.old.bank.now session.old) (text_of work.old.bank.now name) (joined (map plain_binders groups.now))
        (plain kind.now) (map plain_constructor constructors.now))) }
    ensures session { IsSession work.new.bank.now session.new }
    ensures extends { Extends session.old.env session.new.env }
    ensures same_steps { session.new.steps ≡ session.old.steps }
    ensures same_kernel { session.new.kernel ≡ session.old.kernel }
    ensures kept { OnErr result (session.new ≡ session.old) }
    ensures same_bank { work.new.bank.ghost_name ≡ work.old.bank.ghost_name }
    ensures same_ticks { work.new.ticks.ghost_name ≡ work.old.ticks.ghost_name }
    ensures grows { Grows work.old.bank.now work.new.bank.now }
    ensures budget { work.new.ticks.now.left + work.new.ticks.now.spent ≡ work.old.ticks.now.left + work.old.ticks.now.spent }
    ensures counted { steps.new + work.old.ticks.now.spent ≡ steps.old + work.new.ticks.now.spent }
{
    match may_stand(work.bank, session) {
        Ok(()) => {}
        Err(stop) => return Err(stop),
    }
    match refuse_taken(work.bank, &session.env, name, constructors) {
        Ok(()) => {}
        Err(stop) => return Err(stop),
    }
    if constructors.len() >= MOST_CONSTRUCTORS {
        return Err(Stop::NoMemory);
    }
    let line = defined_line(work.bank, name)?;
    match define_family(
        work,
        &mut session.env,
        name,
        groups,
        parameters,
        kind,
        constructors,
        steps,
    ) {
        Ok(()) => Ok(line),
        Err(stop) => Err(stop),
    }
}
