//! `Fail`, as often as it stands.

ghost use Rattle.std.specs.Prelude.{◌≡◌, ◌++◌, IfOk, IfSome, OnOk, string_bytes};
ghost use Rattle.lq_terms.specs.Terms.{Terms};
ghost use Rattle.lq_env.specs.Environments.{IsEnv, env_of};
ghost use Rattle.lq_print.specs.Causes.{cause_of};
ghost use Rattle.lq_texts.specs.Views.{fail_text};
ghost use Rattle.lq_sessions.specs.Sentences.{is_spent, failing};
ghost use Rattle.lq_sessions.specs.Sessions.{Session, Done};
ghost use Rattle.lq_failing.specs.Fails.{HasFault, Came, Kept, Fails};

use lq_env::Env;
use lq_print::{Cause, ScriptCause, SentenceCause, TermCause, fault_text};
use lq_terms::{Bank, NoMemory};

/// Whether a cause is a spent budget.
#[tactic(auto, using(crate::proofs::SpentLaws::spent_is))]
fn is_spent(cause: &Cause) -> bool
    ensures { (bank : Terms) → is_spent (cause_of bank cause.now) ≡ result }
{
    match cause {
        Cause::Term(TermCause::StepsOut) => true,
        _ => false,
    }
}

/// Writes the line of a fault behind `Fail`.
#[tactic(auto, unfolding(lq_texts::specs::Views::fail_text))]
fn write_fault(
    out: &mut String,
    bank: &Bank<'_>,
    env: &Env,
    cause: &ScriptCause,
) -> Result<(), NoMemory>
    requires env { IsEnv bank.now env.now }
    requires cause { HasFault bank.now cause.now }
    ensures { OnOk result (string_bytes out.new ≡ string_bytes out.old
        ++ fail_text (env_of bank.now env.now) (cause_of bank.now cause.now.cause) cause.now.level) }
{
    let text = fault_text(bank, env, cause)?;
    out.push_str("Fail: ")?;
    out.push_str(text.as_str())?;
    out.push('\n')?;
    Ok(())
}

/// One `Fail`: what was written by the sentence behind it is in `out`, and its cause is given if it was refused.
fn turned(
    out: &mut String,
    bank: &Bank<'_>,
    env: &Env,
    cause: Option<ScriptCause>,
) -> Result<Option<ScriptCause>, NoMemory>
    requires env { IsEnv bank.now env.now }
    requires cause { IfSome cause (HasFault bank.now) }
    ensures cause { IfOk result (λ c. IfSome c (HasFault bank.now)) }
    ensures turned { (s : Session) (d : Done) → env_of bank.now env.now ≡ s.env → Came bank.now s (string_bytes out.old) cause d
        → IfOk result (λ c. Kept bank.now s (string_bytes out.new) c (failing s d)) }
{
    match cause {
        None => Ok(Some(ScriptCause {
            cause: Cause::Sentence(SentenceCause::HasNotFailed),
            level: 0,
        })),
        Some(fault) => {
            if is_spent(&fault.cause) {
                return Ok(Some(fault));
            }
            write_fault(out, bank, env, &fault)?;
            Ok(None)
        }
    }
}

/// What becomes of a sentence behind so many `Fail`s: `out` holds what it wrote, and `cause` why it was refused, if it was. A `Fail` writes
/// the fault's text on a line behind what was written, and the sentence is accepted; a sentence that was accepted is refused as
/// `HasNotFailed`; and a spent budget stays one. The environment is the one before the sentence, and tells the names of constructors. What
/// is answered is the cause then, if there is one. Behind a `Fail` the session is as it was before the sentence.
/// The only refusal is for want of memory.
pub fn failed(
    out: &mut String,
    bank: &Bank<'_>,
    env: &Env,
    cause: Option<ScriptCause>,
    count: usize,
) -> Result<Option<ScriptCause>, NoMemory>
    requires env { IsEnv bank.now env.now }
    requires cause { IfSome cause (HasFault bank.now) }
    ensures cause { IfOk result (λ c. IfSome c (HasFault bank.now)) }
    ensures failed { (s : Session) (d : Done) → env_of bank.now env.now ≡ s.env → Came bank.now s (string_bytes out.old) cause d
        → IfOk result (λ c. Fails bank.now s (string_bytes out.new) c d count) }
{
    let mut now = cause;
    'each: for turn in 0..count {
        now = turned(out, bank, env, now)?;
    }
    Ok(now)
}
