//! `Show`.

ghost use Rattle.std.specs.Prelude.{◌≡◌};
ghost use Rattle.lq_terms.specs.Terms.{Grows};
ghost use Rattle.lq_sessions.specs.Sessions.{needs_proof};
ghost use Rattle.lq_sessions.specs.Sentences.{shown};
ghost use Rattle.lq_session.specs.Sessions.{session_of, IsSession, Does};

use crate::opened::Session;
use lq_ast::Text;
use lq_causes::Stop;
use lq_print::{Cause, SentenceCause, proof_text};
use lq_terms::Bank;

/// `Show`: the goals in focus as they read, and how many variables are shelved. Refused where no proof is open, and as `TooLarge` or
/// `TooDeep` where a term of the goals as it reads passes that limit, the first in the order of goals. It pays no tick. See the Rocq
/// reference manual, "Proof mode".
pub fn show(bank: &mut Bank<'_>, session: &Session) -> Result<Text, Stop>
    requires session { IsSession bank.old session.now }
    ensures answer { Does bank.old bank.new result session.now session.now (needs_proof (session_of bank.old session.now)
        (shown (session_of bank.old session.now))) }
    ensures session { IsSession bank.new session.now }
    ensures grows { Grows bank.old bank.new }
{
    let Some(opened) = &session.opened else {
        return Err(Stop::Refused(Cause::Sentence(SentenceCause::NoProof)));
    };
    match opened.proof.view(bank) {
        Ok(view) => {
            let text = proof_text(bank, &session.env, &view)?;
            Ok(text)
        }
        Err(fault) => Err(Stop::from(fault)),
    }
}
