//! Commands as they are read.

ghost use Rattle.std.specs.Prelude.{◌≡◌, ◌+◌, IfOk, OnErr, map};
ghost use Rattle.lq_ast.specs.Plain.{plain_binders, joined};
ghost use Rattle.lq_ast.specs.PlainCommands.{plain_group, plain_groups, plain_vernac};
ghost use Rattle.lq_ast.specs.declared.sentence.Vernac.{Vernac};
ghost use Rattle.std.specs.Option.{option_copied};
ghost use Rattle.lq_terms.specs.Terms.{Terms, IsName, Grows};
ghost use Rattle.lq_sessions.specs.Sentences.{command_done};
ghost use Rattle.lq_env.specs.Environments.{Extends};
ghost use Rattle.lq_session.specs.Sessions.{session_of, IsSession, Does};

use crate::aborting::{abort_proof, begin_proof};
use crate::checking::check;
use crate::defining::define_constant;
use crate::ending::end_proof;
use crate::opened::Session;
use crate::printing::print;
use crate::showing::show;
use crate::stating::state_theorem;
use lq_ast::{Binders, Group, Name, Surface, Text};
use lq_causes::Stop;
use lq_terms::{Bank, NameId, NoMemory, Steps, Work};
use sqlite_items::{Boxed, Items};
use std::alloc::{AllocError, Global};
use std::sync::ledger::Ledger;

/// What a group binds.
#[tactic(auto, using(lq_ast::proofs::PlainLaws::plain_laws))]
fn binders_of(alloc: Global, group: Group) -> Result<Binders, AllocError>
    ensures { IfOk result (λ b. plain_binders b ≡ plain_group group) }
{
    let Group { names, kind } = group;
    let kind = Boxed::new(alloc, kind)?;
    Ok(Binders::Typed(names, kind))
}

/// What the groups of a command bind, group by group.
fn groups_of(alloc: Global, groups: Items<Group>) -> Result<Vec<Binders>, AllocError>
    ensures { IfOk result (λ bs. joined (map plain_binders bs.items) ≡ plain_groups groups) }
{
    let mut groups = groups;
    let mut found = Vec::new(alloc);
    'groups: while let Some(group) = groups.pop() {
        let binders = binders_of(alloc, group)?;
        found.push(binders)?;
    }
    found.reverse();
    Ok(found)
}

/// The place of a command's name in the bank.
fn place_of_name(bank: &mut Bank<'_>, name: &Name) -> Result<NameId, NoMemory>
    ensures named { IfOk result (λ x. IsName bank.new x name.now) }
    ensures grows { Grows bank.old bank.new }
{
    bank.name(name.as_str())
}

/// The place of a command's name in the bank, and what its groups bind.
pub(crate) fn parts_of(
    bank: &mut Bank<'_>,
    name: &Name,
    groups: Items<Group>,
) -> Result<(NameId, Vec<Binders>), NoMemory>
    ensures named { IfOk result (λ p. IsName bank.new p.0 name.now) }
    ensures groups { IfOk result (λ p. joined (map plain_binders p.1.items) ≡ plain_groups groups) }
    ensures grows { Grows bank.old bank.new }
{
    let Ok(groups) = groups_of(bank.allocator(), groups) else {
        return Err(NoMemory);
    };
    let name = place_of_name(bank, name)?;
    Ok((name, groups))
}

/// `Definition` as it is read: see `define_constant`. The bank may grow by the name, also where the command is refused.
pub fn command_definition<L: Ledger>(
    work: &mut Work<'_, '_>,
    session: &mut Session,
    name: &Name,
    groups: Items<Group>,
    kind: Option<&Surface>,
    body: &Surface,
    steps: &mut Steps<L>,
) -> Result<Text, Stop>
    requires session { IsSession work.old.bank.now session.old }
    requires budget { work.old.ticks.now.left ≡ session.old.kernel }
    ensures answer { Does work.old.bank.now work.new.bank.now result session.old session.new (command_done (session_of work.old.bank.now session.old)
        (plain_vernac (Vernac.Definition name.now groups (option_copied kind.entry) body.now))) }
    ensures session { IsSession work.new.bank.now session.new }
    ensures extends { Extends session.old.env session.new.env }
    ensures same_steps { session.new.steps ≡ session.old.steps }
    ensures same_kernel { session.new.kernel ≡ session.old.kernel }
    ensures kept { OnErr result (session.new ≡ session.old) }
    ensures same_bank { work.new.bank.ghost_name ≡ work.old.bank.ghost_name }
    ensures same_ticks { work.new.ticks.ghost_name ≡ work.old.ticks.ghost_name }
    ensures grows { Grows work.old.bank.now work.new.bank.now }
    ensures budget { work.new.ticks.now.left + work.new.ticks.now.spent ≡ work.old.ticks.now.left + work.old.ticks.now.spent }
    ensures counted { steps.new + work.old.ticks.now.spent ≡ steps.old + work.new.ticks.now.spent }
{
    let (name, groups) = match parts_of(work.bank, name, groups) {
        Ok(parts) => parts,
        Err(_) => return Err(Stop::NoMemory),
    };
    define_constant(work, session, name, &groups, kind, body, steps)
}

/// `Theorem` and `Lemma` as they are read, which do the same: see `state_theorem`. The bank may grow by the name, also where the command is
/// refused.
pub fn command_theorem<L: Ledger>(
    work: &mut Work<'_, '_>,
    session: &mut Session,
    name: &Name,
    groups: Items<Group>,
    kind: &Surface,
    steps: &mut Steps<L>,
) -> Result<Text, Stop>
    requires session { IsSession work.old.bank.now session.old }
    requires budget { work.old.ticks.now.left ≡ session.old.kernel }
    ensures theorem { Does work.old.bank.now work.new.bank.now result session.old session.new (command_done (session_of work.old.bank.now session.old)
        (plain_vernac (Vernac.Theorem name.now groups kind.now))) }
    ensures lemma { Does work.old.bank.now work.new.bank.now result session.old session.new (command_done (session_of work.old.bank.now session.old)
        (plain_vernac (Vernac.Lemma name.now groups kind.now))) }
    ensures session { IsSession work.new.bank.now session.new }
    ensures extends { Extends session.old.env session.new.env }
    ensures same_steps { session.new.steps ≡ session.old.steps }
    ensures same_kernel { session.new.kernel ≡ session.old.kernel }
    ensures kept { OnErr result (session.new ≡ session.old) }
    ensures same_bank { work.new.bank.ghost_name ≡ work.old.bank.ghost_name }
    ensures same_ticks { work.new.ticks.ghost_name ≡ work.old.ticks.ghost_name }
    ensures grows { Grows work.old.bank.now work.new.bank.now }
    ensures budget { work.new.ticks.now.left + work.new.ticks.now.spent ≡ work.old.ticks.now.left + work.old.ticks.now.spent }
    ensures counted { steps.new + work.old.ticks.now.spent ≡ steps.old + work.new.ticks.now.spent }
{
    let (name, groups) = match parts_of(work.bank, name, groups) {
        Ok(parts) => parts,
        Err(_) => return Err(Stop::NoMemory),
    };
    state_theorem(work, session, name, &groups, kind, steps)
}

/// `Print` as it is read: see `print`. The bank may grow by the name, also where the command is refused.
pub fn command_print(bank: &mut Bank<'_>, session: &Session, name: &Name) -> Result<Text, Stop>
    requires session { IsSession bank.old session.now }
    ensures answer { Does bank.old bank.new result session.now session.now (command_done (session_of bank.old session.now)
        (plain_vernac (Vernac.Print name.now))) }
    ensures session { IsSession bank.new session.now }
    ensures grows { Grows bank.old bank.new }
{
    let name = match place_of_name(bank, name) {
        Ok(name) => name,
        Err(_) => return Err(Stop::NoMemory),
    };
    print(bank, session, name)
}

/// `Check` as it is read: see `check`.
pub fn command_check<L: Ledger>(
    work: &mut Work<'_, '_>,
    session: &Session,
    term: &Surface,
    steps: &mut Steps<L>,
) -> Result<Text, Stop>
    requires session { IsSession work.old.bank.now session.now }
    requires budget { work.old.ticks.now.left ≡ session.now.kernel }
    ensures answer { Does work.old.bank.now work.new.bank.now result session.now session.now (command_done (session_of work.old.bank.now session.now)
        (plain_vernac (Vernac.Check term.now))) }
    ensures session { IsSession work.new.bank.now session.now }
    ensures same_bank { work.new.bank.ghost_name ≡ work.old.bank.ghost_name }
    ensures same_ticks { work.new.ticks.ghost_name ≡ work.old.ticks.ghost_name }
    ensures grows { Grows work.old.bank.now work.new.bank.now }
    ensures budget { work.new.ticks.now.left + work.new.ticks.now.spent ≡ work.old.ticks.now.left + work.old.ticks.now.spent }
    ensures counted { steps.new + work.old.ticks.now.spent ≡ steps.old + work.new.ticks.now.spent }
{
    check(work, session, term, steps)
}

/// `Qed` as it is read: see `end_proof`.
pub fn command_qed<L: Ledger>(
    work: &mut Work<'_, '_>,
    session: &mut Session,
    steps: &mut Steps<L>,
) -> Result<Text, Stop>
    requires session { IsSession work.old.bank.now session.old }
    requires budget { work.old.ticks.now.left ≡ session.old.kernel }
    ensures answer { Does work.old.bank.now work.new.bank.now result session.old session.new (command_done (session_of work.old.bank.now session.old)
        (plain_vernac Vernac.Qed)) }
    ensures session { IsSession work.new.bank.now session.new }
    ensures extends { Extends session.old.env session.new.env }
    ensures same_steps { session.new.steps ≡ session.old.steps }
    ensures same_kernel { session.new.kernel ≡ session.old.kernel }
    ensures kept { OnErr result (session.new ≡ session.old) }
    ensures same_bank { work.new.bank.ghost_name ≡ work.old.bank.ghost_name }
    ensures same_ticks { work.new.ticks.ghost_name ≡ work.old.ticks.ghost_name }
    ensures grows { Grows work.old.bank.now work.new.bank.now }
    ensures budget { work.new.ticks.now.left + work.new.ticks.now.spent ≡ work.old.ticks.now.left + work.old.ticks.now.spent }
    ensures counted { steps.new + work.old.ticks.now.spent ≡ steps.old + work.new.ticks.now.spent }
{
    end_proof(work, session, true, steps)
}

/// `Defined` as it is read: see `end_proof`.
pub fn command_defined<L: Ledger>(
    work: &mut Work<'_, '_>,
    session: &mut Session,
    steps: &mut Steps<L>,
) -> Result<Text, Stop>
    requires session { IsSession work.old.bank.now session.old }
    requires budget { work.old.ticks.now.left ≡ session.old.kernel }
    ensures answer { Does work.old.bank.now work.new.bank.now result session.old session.new (command_done (session_of work.old.bank.now session.old)
        (plain_vernac Vernac.Defined)) }
    ensures session { IsSession work.new.bank.now session.new }
    ensures extends { Extends session.old.env session.new.env }
    ensures same_steps { session.new.steps ≡ session.old.steps }
    ensures same_kernel { session.new.kernel ≡ session.old.kernel }
    ensures kept { OnErr result (session.new ≡ session.old) }
    ensures same_bank { work.new.bank.ghost_name ≡ work.old.bank.ghost_name }
    ensures same_ticks { work.new.ticks.ghost_name ≡ work.old.ticks.ghost_name }
    ensures grows { Grows work.old.bank.now work.new.bank.now }
    ensures budget { work.new.ticks.now.left + work.new.ticks.now.spent ≡ work.old.ticks.now.left + work.old.ticks.now.spent }
    ensures counted { steps.new + work.old.ticks.now.spent ≡ steps.old + work.new.ticks.now.spent }
{
    end_proof(work, session, false, steps)
}

/// `Proof` as it is read: see `begin_proof`.
pub fn command_proof(alloc: Global, session: &Session) -> Result<Text, Stop>
    ensures { (bank : Terms) → Does bank bank result session.now session.now (command_done (session_of bank session.now) (plain_vernac Vernac.Proof)) }
{
    begin_proof(alloc, session)
}

/// `Abort` as it is read: see `abort_proof`.
pub fn command_abort(alloc: Global, session: &mut Session) -> Result<Text, Stop>
    ensures answer { (bank : Terms) → Does bank bank result session.old session.new (command_done (session_of bank session.old) (plain_vernac Vernac.Abort)) }
    ensures session { (bank : Terms) → IsSession bank session.old → IsSession bank session.new }
    ensures extends { Extends session.old.env session.new.env }
    ensures same_steps { session.new.steps ≡ session.old.steps }
    ensures same_kernel { session.new.kernel ≡ session.old.kernel }
    ensures kept { OnErr result (session.new ≡ session.old) }
{
    abort_proof(alloc, session)
}

/// `Show` as it is read: see `show`.
pub fn command_show(bank: &mut Bank<'_>, session: &Session) -> Result<Text, Stop>
    requires session { IsSession bank.old session.now }
    ensures answer { Does bank.old bank.new result session.now session.now (command_done (session_of bank.old session.now)
        (plain_vernac Vernac.Show)) }
    ensures session { IsSession bank.new session.now }
    ensures grows { Grows bank.old bank.new }
{
    show(bank, session)
}
