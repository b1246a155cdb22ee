//! `Print`.

ghost use Rattle.lq_terms.specs.Terms.{HasName, text_of};
ghost use Rattle.lq_sessions.specs.Sentences.{printed};
ghost use Rattle.lq_session.specs.Sessions.{session_of, IsSession, Does, print_stop};
ghost use Rattle.std.specs.Prelude.{◌≡◌};

use crate::opened::Session;
use lq_ast::Text;
use lq_causes::Stop;
use lq_print::{Cause, DeclarationCause, PrintFault, TermCause, print_text};
use lq_terms::{Bank, NameId};

/// Why a name has no line, as what stops a sentence.
fn stop_of(fault: PrintFault) -> Stop
    ensures { result ≡ print_stop fault }
{
    match fault {
        PrintFault::Unknown(name) => Stop::Refused(Cause::Term(TermCause::Unknown(name))),
        PrintFault::ElimForbidden(name, sort) => {
            Stop::Refused(Cause::Declaration(DeclarationCause::ElimForbidden(name, sort)))
        }
        PrintFault::NoMemory => Stop::NoMemory,
    }
}

/// `Print`: the line of a name, its type and, of a constant, its body. Refused as `Unknown` where the name stands for nothing, and as
/// `ElimForbidden` where it is that of an eliminator into a sort that its family does not permit. It pays no tick.
pub fn print(bank: &Bank<'_>, session: &Session, name: NameId) -> Result<Text, Stop>
    requires session { IsSession bank.now session.now }
    requires name { HasName bank.now name }
    ensures answer { Does bank.now bank.now result session.now session.now (printed (session_of bank.now session.now) (text_of bank.now name)) }
{
    match print_text(bank, &session.env, name) {
        Ok(text) => Ok(text),
        Err(fault) => Err(stop_of(fault)),
    }
}
