//! What rows ask of the store alone: `read T = T`, whether the first reads as the second, which has no values put in; `alike T = T`,
//! whether both are equal as they read; `value K = T`, whether that is the value of the variable.

ghost use Rattle.std.specs.Prelude.{IfOk};
ghost use Rattle.lq_terms.specs.Terms.{HasTerm, Grows};
ghost use Rattle.lq_evars.specs.Places.{HasStore};
ghost use Rattle.lq_unify_rows.specs.Scenes.{IsScene};

use crate::declaring::Declared;
use crate::looks::stands;
use crate::scenes::fault_word;
use crate::words::{number, parted, yes};
use lq_evars::Store;
use lq_terms::{Bank, Context, TermId, same};
use lq_words::{RowFault, build};

/// Two terms.
#[derive(Clone, Copy)]
pub(crate) struct Pair {
    pub(crate) left: TermId,
    pub(crate) right: TermId,
}

/// Two terms, from their words: `T = T`.
#[tactic(auto, using(crate::proofs::Keeping::keeping))]
pub(crate) fn pair_of(bank: &mut Bank<'_>, text: &str) -> Result<Pair, RowFault>
    ensures left { IfOk result (λ p. HasTerm bank.new p.left) }
    ensures right { IfOk result (λ p. HasTerm bank.new p.right) }
    ensures grows { Grows bank.old bank.new }
{
    let (left, right) = parted(text, " = ")?;
    let left = build(bank, left)?;
    let right = build(bank, right)?;
    Ok(Pair { left, right })
}

/// Whether a term reads as another one.
fn reads(
    bank: &mut Bank<'_>,
    store: &Store,
    context: &Context,
    declared: &Declared,
    pair: Pair,
) -> Result<&'static str, RowFault>
    requires scene { IsScene bank.old store.now context.now declared.now }
    requires left { HasTerm bank.old pair.left }
    requires right { HasTerm bank.old pair.right }
    ensures { Grows bank.old bank.new }
{
    let _declared = declared;
    if !stands(bank, store, context.hypotheses(), 0, pair.left) {
        return Err(RowFault::Unwritten);
    }
    match store.read(bank, pair.left) {
        Ok(found) => Ok(yes(same(bank, found, pair.right))),
        Err(fault) => Ok(fault_word(fault)),
    }
}

/// Whether two terms are equal as they read.
fn is_alike(
    bank: &Bank<'_>,
    store: &Store,
    context: &Context,
    declared: &Declared,
    pair: Pair,
) -> Result<&'static str, RowFault>
    requires scene { IsScene bank.now store.now context.now declared.now }
    requires left { HasTerm bank.now pair.left }
    requires right { HasTerm bank.now pair.right }
{
    let _declared = declared;
    let hypotheses = context.hypotheses();
    if !stands(bank, store, hypotheses, 0, pair.left) {
        return Err(RowFault::Unwritten);
    }
    if !stands(bank, store, hypotheses, 0, pair.right) {
        return Err(RowFault::Unwritten);
    }
    let alike = store.same(bank, pair.left, pair.right)?;
    Ok(yes(alike))
}

/// Whether a term is the value of a variable.
pub(crate) fn is_value(bank: &Bank<'_>, store: &Store, variable: u32, wanted: TermId) -> bool
    requires store { HasStore bank.now store.now }
    requires wanted { HasTerm bank.now wanted }
{
    match store.value(variable) {
        Some(value) => same(bank, value, wanted),
        None => false,
    }
}

/// The answer to a row that asks of the store alone.
#[tactic(auto, using(crate::proofs::Keeping::keeping))]
pub(crate) fn store_row(
    bank: &mut Bank<'_>,
    store: &Store,
    context: &Context,
    declared: &Declared,
    word: &str,
    text: &str,
) -> Result<&'static str, RowFault>
    requires scene { IsScene bank.old store.now context.now declared.now }
    ensures { Grows bank.old bank.new }
{
    match word {
        "read" => {
            let pair = pair_of(bank, text)?;
            reads(bank, store, context, declared, pair)
        }
        "alike" => {
            let pair = pair_of(bank, text)?;
            is_alike(bank, store, context, declared, pair)
        }
        "value" => value_row(bank, store, context, declared, text),
        _ => Err(RowFault::Malformed),
    }
}

/// Whether a term is the value of a variable: `K = T`.
#[tactic(auto, using(crate::proofs::Keeping::keeping))]
fn value_row(
    bank: &mut Bank<'_>,
    store: &Store,
    context: &Context,
    declared: &Declared,
    text: &str,
) -> Result<&'static str, RowFault>
    requires scene { IsScene bank.old store.now context.now declared.now }
    ensures { Grows bank.old bank.new }
{
    let _context = context;
    let _declared = declared;
    let (variable, wanted) = parted(text, " = ")?;
    let variable = number(variable)?;
    let wanted = build(bank, wanted)?;
    Ok(yes(is_value(bank, store, variable, wanted)))
}
