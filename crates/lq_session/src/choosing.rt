//! Commands, each by its call.

ghost use Rattle.std.specs.Prelude.{◌≡◌, ◌+◌, OnErr, true, false};
ghost use Rattle.lq_ast.specs.PlainCommands.{plain_vernac};
ghost use Rattle.lq_terms.specs.Terms.{Grows};
ghost use Rattle.lq_env.specs.Environments.{Extends};
ghost use Rattle.lq_sessions.specs.Built.{grammar_alone, command_built};
ghost use Rattle.lq_sessions.specs.Sentences.{command_done};
ghost use Rattle.lq_session.specs.Sessions.{session_of, IsSession, Does, is_declaring};

use crate::commands::{
    command_abort, command_check, command_defined, command_definition, command_print,
    command_proof, command_qed, command_show, command_theorem,
};
use crate::inductive_command::command_inductive;
use crate::opened::Session;
use lq_ast::{Text, Vernac};
use lq_causes::Stop;
use lq_terms::{Steps, Work};
use std::sync::ledger::Ledger;

/// Whether a command declares, or opens or ends a proof of what is declared.
#[tactic(auto, unfolding(crate::specs::Sessions::is_declaring))]
fn is_declaring(command: &Vernac) -> bool
    ensures { result ≡ is_declaring command.now }
{
    match command {
        Vernac::Inductive(_, _, _, _) => true,
        Vernac::Definition(_, _, _, _) => true,
        Vernac::Theorem(_, _, _) => true,
        Vernac::Lemma(_, _, _) => true,
        Vernac::Proof => false,
        Vernac::Qed => true,
        Vernac::Defined => true,
        Vernac::Abort => false,
        Vernac::Unshelve => false,
        Vernac::Show => false,
        Vernac::Print(_) => false,
        Vernac::Check(_) => false,
        Vernac::Ltac(_, _, _) => false,
        Vernac::Outcomes(_, _) => false,
    }
}

/// A command that declares, or opens or ends a proof of what is declared.
fn declaring_command<L: Ledger>(
    work: &mut Work<'_, '_>,
    session: &mut Session,
    command: Vernac,
    steps: &mut Steps<L>,
) -> Result<Text, Stop>
    requires session { IsSession work.old.bank.now session.old }
    requires budget { work.old.ticks.now.left ≡ session.old.kernel }
    requires declaring { is_declaring command ≡ true }
    ensures answer { Does work.old.bank.now work.new.bank.now result session.old session.new (command_done (session_of work.old.bank.now session.old)
        (plain_vernac command)) }
    ensures session { IsSession work.new.bank.now session.new }
    ensures extends { Extends session.old.env session.new.env }
    ensures same_steps { session.new.steps ≡ session.old.steps }
    ensures same_kernel { session.new.kernel ≡ session.old.kernel }
    ensures kept { OnErr result (session.new ≡ session.old) }
    ensures same_bank { work.new.bank.ghost_name ≡ work.old.bank.ghost_name }
    ensures same_ticks { work.new.ticks.ghost_name ≡ work.old.ticks.ghost_name }
    ensures grows { Grows work.old.bank.now work.new.bank.now }
    ensures budget { work.new.ticks.now.left + work.new.ticks.now.spent ≡ work.old.ticks.now.left + work.old.ticks.now.spent }
    ensures counted { steps.new + work.old.ticks.now.spent ≡ steps.old + work.new.ticks.now.spent }
{
    match command {
        Vernac::Inductive(name, groups, kind, constructors) => command_inductive(
            work,
            session,
            &name,
            groups,
            &kind,
            &constructors,
            steps,
        ),
        Vernac::Definition(name, groups, kind, body) => command_definition(
            work,
            session,
            &name,
            groups,
            kind.as_ref(),
            &body,
            steps,
        ),
        Vernac::Theorem(name, groups, kind) => {
            command_theorem(work, session, &name, groups, &kind, steps)
        }
        Vernac::Lemma(name, groups, kind) => {
            command_theorem(work, session, &name, groups, &kind, steps)
        }
        Vernac::Proof => unreachable!(),
        Vernac::Qed => command_qed(work, session, steps),
        Vernac::Defined => command_defined(work, session, steps),
        Vernac::Abort => unreachable!(),
        Vernac::Unshelve => unreachable!(),
        Vernac::Show => unreachable!(),
        Vernac::Print(_) => unreachable!(),
        Vernac::Check(_) => unreachable!(),
        Vernac::Ltac(_, _, _) => unreachable!(),
        Vernac::Outcomes(_, _) => unreachable!(),
    }
}

/// A command of the others that are built.
fn other_command<L: Ledger>(
    work: &mut Work<'_, '_>,
    session: &mut Session,
    command: Vernac,
    steps: &mut Steps<L>,
) -> Result<Text, Stop>
    requires session { IsSession work.old.bank.now session.old }
    requires budget { work.old.ticks.now.left ≡ session.old.kernel }
    requires built { command_built grammar_alone (plain_vernac command) ≡ true }
    requires other { is_declaring command ≡ false }
    ensures answer { Does work.old.bank.now work.new.bank.now result session.old session.new (command_done (session_of work.old.bank.now session.old)
        (plain_vernac command)) }
    ensures session { IsSession work.new.bank.now session.new }
    ensures extends { Extends session.old.env session.new.env }
    ensures same_steps { session.new.steps ≡ session.old.steps }
    ensures same_kernel { session.new.kernel ≡ session.old.kernel }
    ensures kept { OnErr result (session.new ≡ session.old) }
    ensures same_bank { work.new.bank.ghost_name ≡ work.old.bank.ghost_name }
    ensures same_ticks { work.new.ticks.ghost_name ≡ work.old.ticks.ghost_name }
    ensures grows { Grows work.old.bank.now work.new.bank.now }
    ensures budget { work.new.ticks.now.left + work.new.ticks.now.spent ≡ work.old.ticks.now.left + work.old.ticks.now.spent }
    ensures counted { steps.new + work.old.ticks.now.spent ≡ steps.old + work.new.ticks.now.spent }
{
    match command {
        Vernac::Inductive(_, _, _, _) => unreachable!(),
        Vernac::Definition(_, _, _, _) => unreachable!(),
        Vernac::Theorem(_, _, _) => unreachable!(),
        Vernac::Lemma(_, _, _) => unreachable!(),
        Vernac::Proof => command_proof(work.bank.allocator(), session),
        Vernac::Qed => unreachable!(),
        Vernac::Defined => unreachable!(),
        Vernac::Abort => command_abort(work.bank.allocator(), session),
        Vernac::Unshelve => unreachable!(),
        Vernac::Show => command_show(work.bank, session),
        Vernac::Print(name) => command_print(work.bank, session, &name),
        Vernac::Check(term) => command_check(work, session, &term, steps),
        Vernac::Ltac(_, _, _) => unreachable!(),
        Vernac::Outcomes(_, _) => unreachable!(),
    }
}

/// A command as it is read, of those that are built: it writes a text and the session goes on, or it is refused and the session is as before.
/// The budget is the kernel's. See the Rocq reference manual, "Inductive types", "Definitions", "Assertions and proofs", "Proof mode" and
/// "Queries".
pub fn command<L: Ledger>(
    work: &mut Work<'_, '_>,
    session: &mut Session,
    command: Vernac,
    steps: &mut Steps<L>,
) -> Result<Text, Stop>
    requires session { IsSession work.old.bank.now session.old }
    requires budget { work.old.ticks.now.left ≡ session.old.kernel }
    requires built { command_built grammar_alone (plain_vernac command) ≡ true }
    ensures answer { Does work.old.bank.now work.new.bank.now result session.old session.new (command_done (session_of work.old.bank.now session.old)
        (plain_vernac command)) }
    ensures session { IsSession work.new.bank.now session.new }
    ensures extends { Extends session.old.env session.new.env }
    ensures same_steps { session.new.steps ≡ session.old.steps }
    ensures same_kernel { session.new.kernel ≡ session.old.kernel }
    ensures kept { OnErr result (session.new ≡ session.old) }
    ensures same_bank { work.new.bank.ghost_name ≡ work.old.bank.ghost_name }
    ensures same_ticks { work.new.ticks.ghost_name ≡ work.old.ticks.ghost_name }
    ensures grows { Grows work.old.bank.now work.new.bank.now }
    ensures budget { work.new.ticks.now.left + work.new.ticks.now.spent ≡ work.old.ticks.now.left + work.old.ticks.now.spent }
    ensures counted { steps.new + work.old.ticks.now.spent ≡ steps.old + work.new.ticks.now.spent }
{
    if is_declaring(&command) {
        declaring_command(work, session, command, steps)
    } else {
        other_command(work, session, command, steps)
    }
}
