//! `Abort` and `Proof`.

ghost use Rattle.std.specs.Prelude.{◌≡◌, None, OnErr};
ghost use Rattle.lq_terms.specs.Terms.{Terms};
ghost use Rattle.lq_sessions.specs.Sessions.{needs_proof, accepted, with_opened};
ghost use Rattle.lq_env.specs.Environments.{Extends};
ghost use Rattle.lq_session.specs.Sessions.{session_of, IsSession, Does};

use crate::opened::Session;
use lq_ast::Text;
use lq_causes::Stop;
use lq_print::{Cause, SentenceCause};
use std::alloc::Global;

/// `Proof`: nothing is written, and nothing changes. Refused where no proof is open.
pub fn begin_proof(alloc: Global, session: &Session) -> Result<Text, Stop>
    ensures { (bank : Terms) → Does bank bank result session.now session.now (needs_proof (session_of bank session.now)
        (λ o. accepted (session_of bank session.now))) }
{
    if session.opened.is_none() {
        return Err(Stop::Refused(Cause::Sentence(SentenceCause::NoProof)));
    }
    Ok(Text::from_string(String::new(alloc)))
}

/// `Abort`: no proof is open any more, and nothing is declared. Refused where none was open.
pub fn abort_proof(alloc: Global, session: &mut Session) -> Result<Text, Stop>
    ensures answer { (bank : Terms) → Does bank bank result session.old session.new (needs_proof (session_of bank session.old)
        (λ o. accepted (with_opened (session_of bank session.old) None))) }
    ensures session { (bank : Terms) → IsSession bank session.old → IsSession bank session.new }
    ensures extends { Extends session.old.env session.new.env }
    ensures same_steps { session.new.steps ≡ session.old.steps }
    ensures same_kernel { session.new.kernel ≡ session.old.kernel }
    ensures kept { OnErr result (session.new ≡ session.old) }
{
    if session.opened.is_none() {
        return Err(Stop::Refused(Cause::Sentence(SentenceCause::NoProof)));
    }
    session.opened = None;
    Ok(Text::from_string(String::new(alloc)))
}
