//! Whether a declaration may stand where it does.

ghost use Rattle.std.specs.Prelude.{◌≡◌, is_some};
ghost use Rattle.lq_calculus.specs.Declarations.{lookup};
ghost use Rattle.lq_terms.specs.Terms.{HasName, text_of};
ghost use Rattle.lq_env.specs.Environments.{IsEnv, env_of};
ghost use Rattle.lq_session.specs.Sessions.{IsSession, MayStand, MayDeclare};

use crate::opened::Session;
use lq_causes::Stop;
use lq_env::Env;
use lq_print::{Cause, SentenceCause};
use lq_terms::{Bank, NameId};

/// Whether a name is declared.
fn is_declared(bank: &Bank<'_>, env: &Env, name: NameId) -> bool
    requires env { IsEnv bank.now env.now }
    requires name { HasName bank.now name }
    ensures { result ≡ is_some (lookup (env_of bank.now env.now) (text_of bank.now name)) }
{
    bank.names_apart();
    match env.lookup(name) {
        Some(_) => true,
        None => false,
    }
}

/// No proof may be open.
pub(crate) fn may_stand(bank: &Bank<'_>, session: &Session) -> Result<(), Stop>
    requires { IsSession bank.now session.now }
    ensures { MayStand bank.now session.now result }
{
    let Some(opened) = &session.opened else {
        return Ok(());
    };
    Err(Stop::Refused(Cause::Sentence(SentenceCause::NestedProof(opened.name))))
}

/// No proof may be open, and the name must be new.
pub(crate) fn may_declare(bank: &Bank<'_>, session: &Session, name: NameId) -> Result<(), Stop>
    requires session { IsSession bank.now session.now }
    requires name { HasName bank.now name }
    ensures { MayDeclare bank.now session.now name result }
{
    match may_stand(bank, session) {
        Ok(()) => {}
        Err(stop) => return Err(stop),
    }
    if is_declared(bank, &session.env, name) {
        return Err(Stop::Refused(Cause::Sentence(SentenceCause::NameTaken(name))));
    }
    Ok(())
}
