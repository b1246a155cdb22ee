//! `Definition`.

ghost use Rattle.std.specs.Prelude.{◌≡◌, ◌+◌, OnOk, OnErr, map, option_map};
ghost use Rattle.lq_ast.specs.Plain.{plain, plain_binders, joined};
ghost use Rattle.lq_terms.specs.Terms.{HasName, text_of, Grows};
ghost use Rattle.lq_sessions.specs.Sessions.{needs_none, needs_new};
ghost use Rattle.lq_sessions.specs.Declaring.{defined};
ghost use Rattle.lq_env.specs.Environments.{Extends};
ghost use Rattle.lq_session.specs.Sessions.{session_of, IsSession, Does};

use crate::allowed::may_declare;
use crate::ending::defined_line;
use crate::opened::Session;
use lq_ast::{Binders, Surface, Text};
use lq_causes::Stop;
use lq_elaborated::define;
use lq_terms::{NameId, Steps, Work};
use std::sync::ledger::Ledger;

/// `Definition`, with its parameters, its type, if it is written, and its body: the constant is declared, transparent. Refused where a proof
/// is open, where the name is declared already, as `lq_elaborated::define` refuses, and as the kernel does; then the session is as before.
/// The budget is the kernel's, for elaboration and the kernel together. See the Rocq reference manual, "Definitions".
pub fn define_constant<L: Ledger>(
    work: &mut Work<'_, '_>,
    session: &mut Session,
    name: NameId,
    groups: &[Binders],
    kind: Option<&Surface>,
    body: &Surface,
    steps: &mut Steps<L>,
) -> Result<Text, Stop>
    requires session { IsSession work.old.bank.now session.old }
    requires name { HasName work.old.bank.now name }
    requires budget { work.old.ticks.now.left ≡ session.old.kernel }
    ensures answer { Does work.old.bank.now work.new.bank.now result session.old session.new (needs_none (session_of work.old.bank.now session.old)
        (needs_new (session_of work.old.bank.now session.old) (text_of work.old.bank.now name)
        (defined (session_of work.old.bank.now session.old) (text_of work.old.bank.now name) (joined (map plain_binders groups.now))
        (option_map (λ A. plain A.now) kind.entry) (plain body.now)))) }
    ensures session { IsSession work.new.bank.now session.new }
    ensures extends { Extends session.old.env session.new.env }
    ensures same_steps { session.new.steps ≡ session.old.steps }
    ensures same_kernel { session.new.kernel ≡ session.old.kernel }
    ensures kept { OnErr result (session.new ≡ session.old) }
    ensures same_bank { work.new.bank.ghost_name ≡ work.old.bank.ghost_name }
    ensures same_ticks { work.new.ticks.ghost_name ≡ work.old.ticks.ghost_name }
    ensures grows { Grows work.old.bank.now work.new.bank.now }
    ensures budget { work.new.ticks.now.left + work.new.ticks.now.spent ≡ work.old.ticks.now.left + work.old.ticks.now.spent }
    ensures counted { steps.new + work.old.ticks.now.spent ≡ steps.old + work.new.ticks.now.spent }
{
    match may_declare(work.bank, session, name) {
        Ok(()) => {}
        Err(stop) => return Err(stop),
    }
    let line = defined_line(work.bank, name)?;
    match define(work, &mut session.env, name, groups, kind, body, steps) {
        Ok(()) => Ok(line),
        Err(stop) => Err(stop),
    }
}
