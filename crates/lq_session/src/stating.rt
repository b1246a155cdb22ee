//! `Theorem` and `Lemma`.

ghost use Rattle.std.specs.Prelude.{◌≡◌, ◌+◌, [], None, IfOk, OnErr, map};
ghost use Rattle.lq_ast.specs.Plain.{plain, plain_binders, joined};
ghost use Rattle.lq_kernel.specs.Closed.{IsScoped};
ghost use Rattle.lq_solving.specs.Kept.{StandsIn};
ghost use Rattle.lq_solving.specs.Stores.{no_variables};
ghost use Rattle.lq_terms.specs.Terms.{HasName, text_of, tree_of, Grows};
ghost use Rattle.lq_sessions.specs.Sessions.{needs_none, needs_new};
ghost use Rattle.lq_sessions.specs.Declaring.{stated};
ghost use Rattle.lq_env.specs.Environments.{Extends};
ghost use Rattle.lq_session.specs.Sessions.{session_of, IsSession, Does, IsOpened, opened_of, opened_by};

use crate::allowed::may_declare;
use crate::opened::{Opened, Session};
use lq_ast::{Binders, Surface, Text};
use lq_causes::Stop;
use lq_elaborated::state;
use lq_goals::Proof;
use lq_terms::{Bank, NameId, NoMemory, Steps, TermId, Work};
use std::sync::ledger::Ledger;

/// The proof of a statement, with nothing done yet.
fn open_proof(bank: &Bank<'_>, name: NameId, statement: TermId) -> Result<Opened, NoMemory>
    requires name { HasName bank.now name }
    requires scoped { IsScoped bank.now 0 statement }
    requires stands { StandsIn no_variables [] (tree_of bank.now statement) }
    ensures told { IfOk result (λ o. opened_of bank.now o ≡ opened_by (text_of bank.now name) (tree_of bank.now statement)) }
    ensures is { IfOk result (IsOpened bank.now) }
{
    let proof = Proof::start(bank, statement)?;
    Ok(Opened {
        name,
        statement,
        proof,
    })
}

/// `Theorem` and `Lemma`, with their parameters and their statement: a proof of it is opened, and nothing is declared. Refused where a
/// proof is open, where the name is declared already, and as `lq_elaborated::state` refuses; then the session is as before. The budget is
/// the kernel's. See the Rocq reference manual, "Assertions and proofs".
pub fn state_theorem<L: Ledger>(
    work: &mut Work<'_, '_>,
    session: &mut Session,
    name: NameId,
    groups: &[Binders],
    kind: &Surface,
    steps: &mut Steps<L>,
) -> Result<Text, Stop>
    requires session { IsSession work.old.bank.now session.old }
    requires name { HasName work.old.bank.now name }
    requires budget { work.old.ticks.now.left ≡ session.old.kernel }
    ensures answer { Does work.old.bank.now work.new.bank.now result session.old session.new (needs_none (session_of work.old.bank.now session.old)
        (needs_new (session_of work.old.bank.now session.old) (text_of work.old.bank.now name)
        (stated (session_of work.old.bank.now session.old) (text_of work.old.bank.now name) (joined (map plain_binders groups.now)) (plain kind.now)))) }
    ensures session { IsSession work.new.bank.now session.new }
    ensures extends { Extends session.old.env session.new.env }
    ensures same_steps { session.new.steps ≡ session.old.steps }
    ensures same_kernel { session.new.kernel ≡ session.old.kernel }
    ensures kept { OnErr result (session.new ≡ session.old) }
    ensures same_bank { work.new.bank.ghost_name ≡ work.old.bank.ghost_name }
    ensures same_ticks { work.new.ticks.ghost_name ≡ work.old.ticks.ghost_name }
    ensures grows { Grows work.old.bank.now work.new.bank.now }
    ensures budget { work.new.ticks.now.left + work.new.ticks.now.spent ≡ work.old.ticks.now.left + work.old.ticks.now.spent }
    ensures counted { steps.new + work.old.ticks.now.spent ≡ steps.old + work.new.ticks.now.spent }
{
    match may_declare(work.bank, session, name) {
        Ok(()) => {}
        Err(stop) => return Err(stop),
    }
    let statement = match state(work, &session.env, groups, kind, steps) {
        Ok(statement) => statement,
        Err(stop) => return Err(stop),
    };
    let opened = open_proof(work.bank, name, statement)?;
    session.opened = Some(opened);
    Ok(Text::from_string(String::new(work.bank.allocator())))
}
