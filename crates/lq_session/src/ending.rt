//! `Qed` and `Defined`.

ghost use Rattle.std.specs.Prelude.{◌≡◌, ◌+◌, ◌++◌, codes, IfOk, OnErr, string_bytes};
ghost use Rattle.lq_terms.specs.Terms.{HasName, text_of, Grows};
ghost use Rattle.lq_sessions.specs.Sessions.{needs_proof};
ghost use Rattle.lq_sessions.specs.Declaring.{is_defined, closed};
ghost use Rattle.lq_env.specs.Environments.{Extends};
ghost use Rattle.lq_session.specs.Sessions.{session_of, IsSession, Does};

use crate::opened::Session;
use lq_ast::Text;
use lq_causes::Stop;
use lq_declaring::declare_proved;
use lq_print::{Cause, SentenceCause};
use lq_terms::{Bank, NameId, NoMemory, Steps, Work};
use std::sync::ledger::Ledger;

/// The line of a name that is declared.
pub(crate) fn defined_line(bank: &Bank<'_>, name: NameId) -> Result<Text, NoMemory>
    requires { HasName bank.now name }
    ensures { IfOk result (λ t. t ≡ is_defined (text_of bank.now name)) }
{
    let mut line = String::from_str(bank.allocator(), bank.text(name))?;
    line.push_str(" is defined\n")?;
    Ok(Text::from_string(line))
}

/// `Qed`, where the body of the constant is opaque, and `Defined`: the open proof's term is checked by the kernel and declared, and no proof
/// is open any more. Refused where no proof is open, where goals are open, where shelved variables have no value, where the term as it reads
/// passes the limits, and as the kernel refuses the constant; then the session is as before. The budget is the kernel's. See the Rocq
/// reference manual, "Proof mode".
pub fn end_proof<L: Ledger>(
    work: &mut Work<'_, '_>,
    session: &mut Session,
    opaque: bool,
    steps: &mut Steps<L>,
) -> Result<Text, Stop>
    requires session { IsSession work.old.bank.now session.old }
    requires budget { work.old.ticks.now.left ≡ session.old.kernel }
    ensures answer { Does work.old.bank.now work.new.bank.now result session.old session.new (needs_proof (session_of work.old.bank.now session.old)
        (λ o. closed (session_of work.old.bank.now session.old) o opaque)) }
    ensures session { IsSession work.new.bank.now session.new }
    ensures extends { Extends session.old.env session.new.env }
    ensures same_steps { session.new.steps ≡ session.old.steps }
    ensures same_kernel { session.new.kernel ≡ session.old.kernel }
    ensures kept { OnErr result (session.new ≡ session.old) }
    ensures same_bank { work.new.bank.ghost_name ≡ work.old.bank.ghost_name }
    ensures same_ticks { work.new.ticks.ghost_name ≡ work.old.ticks.ghost_name }
    ensures grows { Grows work.old.bank.now work.new.bank.now }
    ensures budget { work.new.ticks.now.left + work.new.ticks.now.spent ≡ work.old.ticks.now.left + work.old.ticks.now.spent }
    ensures counted { steps.new + work.old.ticks.now.spent ≡ steps.old + work.new.ticks.now.spent }
{
    let Some(opened) = &session.opened else {
        return Err(Stop::Refused(Cause::Sentence(SentenceCause::NoProof)));
    };
    let line = defined_line(work.bank, opened.name)?;
    match declare_proved(
        work,
        &mut session.env,
        &opened.proof,
        opened.name,
        opened.statement,
        opaque,
        steps,
    ) {
        Ok(()) => {
            session.opened = None;
            Ok(line)
        }
        Err(stop) => Err(stop),
    }
}
