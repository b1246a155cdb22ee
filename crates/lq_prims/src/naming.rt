//! Names of new hypotheses.

ghost use Rattle.std.specs.Prelude.{◌≡◌, ◌<◌, false, length, option_map, Option, IfOk, OnOk};
ghost use Rattle.lq_trees.specs.Fresh.{is_listed, fresh_of};
ghost use Rattle.lq_terms.specs.Terms.{HasName, IsName, text_of, Grows};
ghost use Rattle.lq_terms.specs.Contexts.{HasContext, context_of};
ghost use Rattle.lq_solving.specs.Stores.{names_in};
ghost use Rattle.lq_evars.specs.Places.{HasNameOr};
ghost use Rattle.lq_tactics.specs.Rows.{Scene, unused};
ghost use Rattle.lq_tactics.specs.Primitives.{or_h, intro_name};
ghost use Rattle.lq_prims.specs.Working.{Tells};

use crate::faults::PrimFault;
use lq_terms::{Bank, Hypothesis, NameId, NoMemory, name_under};

/// Whether a hypothesis has the name.
pub(crate) fn is_used(bank: &Bank<'_>, context: &[Hypothesis], name: NameId) -> bool
    requires context { HasContext bank.now context.now }
    requires name { HasName bank.now name }
    ensures { result ≡ is_listed (names_in (context_of bank.now context.now)) (text_of bank.now name) }
{
    for hypothesis in context {
        if bank.same_name(hypothesis.name, name) {
            return true;
        }
    }
    false
}

/// The name that one for a new hypothesis is made from: the binder's, or `H` if it has none.
fn base_of(bank: &mut Bank<'_>, binder: NameId) -> Result<NameId, NoMemory>
    requires { HasName bank.old binder }
    ensures base { IfOk result (λ x. IsName bank.new x (or_h (text_of bank.old binder))) }
    ensures grows { Grows bank.old bank.new }
{
    if bank.text(binder).is_empty() {
        bank.name("H")
    } else {
        Ok(binder)
    }
}

/// The first of the binder's name (`H` if it has none), that name with 0 behind it, with 1 and so on that no hypothesis has.
pub(crate) fn fresh_beside(
    bank: &mut Bank<'_>,
    context: &[Hypothesis],
    binder: NameId,
) -> Result<NameId, NoMemory>
    requires context { HasContext bank.old context.now }
    requires binder { HasName bank.old binder }
    ensures name { IfOk result (λ x. IsName bank.new x (fresh_of (names_in (context_of bank.old context.now)) (or_h (text_of bank.old binder)))) }
    ensures grows { Grows bank.old bank.new }
{
    let base = base_of(bank, binder)?;
    name_under(bank, context, base)
}

/// Refuses as `NameInUse` where a hypothesis has the name.
pub(crate) fn unused(bank: &Bank<'_>, context: &[Hypothesis], name: NameId) -> Result<(), PrimFault>
    requires context { HasContext bank.now context.now }
    requires name { HasName bank.now name }
    ensures answer { (c : Scene) → c.context ≡ context_of bank.now context.now
        → Tells bank.now (λ u. text_of bank.now name) result (unused c (text_of bank.now name)) }
    ensures new { OnOk result (is_listed (names_in (context_of bank.now context.now)) (text_of bank.now name) ≡ false) }
{
    if is_used(bank, context, name) {
        Err(PrimFault::NameInUse(name))
    } else {
        Ok(())
    }
}

/// The name of a new hypothesis: the one that is written, unless a hypothesis has it, or else a fresh one from the binder's.
pub(crate) fn intro_name(
    bank: &mut Bank<'_>,
    context: &[Hypothesis],
    count: usize,
    written: Option<NameId>,
    binder: NameId,
) -> Result<NameId, PrimFault>
    requires context { HasContext bank.old context.now }
    requires count { count ≡ length context.now }
    requires written { HasNameOr bank.old written }
    requires binder { HasName bank.old binder }
    ensures answer { (c : Scene) → c.context ≡ context_of bank.old context.now
        → Tells bank.new (text_of bank.new) result (intro_name c (option_map (text_of bank.old) written) (text_of bank.old binder)) }
    ensures has { IfOk result (HasName bank.new) }
    ensures new { IfOk result (λ x. is_listed (names_in (context_of bank.old context.now)) (text_of bank.new x) ≡ false) }
    ensures grows { Grows bank.old bank.new }
{
    match written {
        None => {
            let name = fresh_beside(bank, context, binder)?;
            Ok(name)
        }
        Some(name) => {
            if is_used(bank, context, name) {
                Err(PrimFault::NameInUse(name))
            } else {
                Ok(name)
            }
        }
    }
}
