//! `Inductive` as it is read.

ghost use Rattle.std.specs.Prelude.{◌≡◌, ◌+◌, length, IfOk, OnOk, OnErr};
ghost use Rattle.lq_ast.specs.PlainCommands.{plain_groups, plain_vernac};
ghost use Rattle.lq_ast.specs.declared.sentence.Vernac.{Vernac};
ghost use Rattle.lq_terms.specs.Terms.{Grows};
ghost use Rattle.lq_sessions.specs.Sentences.{command_done};
ghost use Rattle.lq_env.specs.Environments.{Extends};
ghost use Rattle.lq_session.specs.Sessions.{session_of, IsSession, Does};

use crate::commands::parts_of;
use crate::families::declare_family;
use crate::opened::Session;
use lq_ast::{Binder, Constructor, Group, Name, Surface, Text};
use lq_causes::Stop;
use lq_terms::{Steps, Work};
use sqlite_items::Items;
use std::alloc::{AllocError, Global};
use std::sync::ledger::Ledger;

/// A mark more for each name.
fn mark_names(marks: &mut Vec<u8>, names: &[Binder]) -> Result<(), AllocError>
    ensures { OnOk result (length marks.new.items ≡ length marks.old.items + length names.now) }
{
    'names: for _ in names {
        marks.push(0)?;
    }
    Ok(())
}

/// A mark for each name that groups bind, so that there are no more of them than a `usize` counts.
fn marks_of(alloc: Global, groups: &[Group]) -> Result<Vec<u8>, AllocError>
    ensures { IfOk result (λ marks. length marks.items ≡ length (plain_groups groups.now)) }
{
    let mut marks = Vec::new(alloc);
    'groups: for group in groups {
        mark_names(&mut marks, group.names.as_slice())?;
    }
    Ok(marks)
}

/// How many names groups bind.
fn parameters_of(alloc: Global, groups: &[Group]) -> Result<usize, AllocError>
    ensures { IfOk result (λ n. n ≡ length (plain_groups groups.now)) }
{
    let marks = marks_of(alloc, groups)?;
    Ok(marks.len())
}

/// `Inductive` as it is read: see `declare_family`. The bank may grow by the name, also where the command is refused.
pub fn command_inductive<L: Ledger>(
    work: &mut Work<'_, '_>,
    session: &mut Session,
    name: &Name,
    groups: Items<Group>,
    kind: &Surface,
    constructors: &Items<Constructor>,
    steps: &mut Steps<L>,
) -> Result<Text, Stop>
    requires session { IsSession work.old.bank.now session.old }
    requires budget { work.old.ticks.now.left ≡ session.old.kernel }
    ensures answer { Does work.old.bank.now work.new.bank.now result session.old session.new (command_done (session_of work.old.bank.now session.old)
        (plain_vernac (Vernac.Inductive name.now groups kind.now constructors.now))) }
    ensures session { IsSession work.new.bank.now session.new }
    ensures extends { Extends session.old.env session.new.env }
    ensures same_steps { session.new.steps ≡ session.old.steps }
    ensures same_kernel { session.new.kernel ≡ session.old.kernel }
    ensures kept { OnErr result (session.new ≡ session.old) }
    ensures same_bank { work.new.bank.ghost_name ≡ work.old.bank.ghost_name }
    ensures same_ticks { work.new.ticks.ghost_name ≡ work.old.ticks.ghost_name }
    ensures grows { Grows work.old.bank.now work.new.bank.now }
    ensures budget { work.new.ticks.now.left + work.new.ticks.now.spent ≡ work.old.ticks.now.left + work.old.ticks.now.spent }
    ensures counted { steps.new + work.old.ticks.now.spent ≡ steps.old + work.new.ticks.now.spent }
{
    let parameters = match parameters_of(work.bank.allocator(), groups.as_slice()) {
        Ok(parameters) => parameters,
        Err(_) => return Err(Stop::NoMemory),
    };
    let (name, groups) = match parts_of(work.bank, name, groups) {
        Ok(parts) => parts,
        Err(_) => return Err(Stop::NoMemory),
    };
    declare_family(
        work,
        session,
        name,
        &groups,
        parameters,
        kind,
        constructors.as_slice(),
        steps,
    )
}
