//! Terms without loose bound variables, and hypotheses over them: `assume a : T`, `assume a : T := T`; and the name of a
//! binder's variable below them: `under x = x0`.

ghost use Rattle.std.specs.Prelude.{IfOk, OnOk};
ghost use Rattle.lq_terms.specs.Terms.{Grows};
ghost use Rattle.lq_kernel.specs.Closed.{IsScoped, IsBody, IsHypothesis, IsContext};

use crate::row::{parted, yes};
use crate::told::write;
use lq_terms::{Bank, Context, Hypothesis, TermId, name_under};
use lq_words::{RowFault, build, is_scoped};

/// A term without loose bound variables.
pub(crate) fn scoped(bank: &mut Bank<'_>, words: &str) -> Result<TermId, RowFault>
    ensures scoped { IfOk result (IsScoped bank.new 0) }
    ensures grows { Grows bank.old bank.new }
{
    let term = build(bank, words)?;
    if !is_scoped(bank, term) {
        return Err(RowFault::Unwritten);
    }
    Ok(term)
}

/// A body that may be there.
fn body(bank: &mut Bank<'_>, words: Option<&str>) -> Result<Option<TermId>, RowFault>
    ensures body { IfOk result (IsBody bank.new) }
    ensures grows { Grows bank.old bank.new }
{
    match words {
        Some(words) => Ok(Some(scoped(bank, words)?)),
        None => Ok(None),
    }
}

/// One more hypothesis, which lies in the bank.
#[tactic(auto, using(crate::proofs::Growing::pushed))]
fn push(bank: &Bank<'_>, context: &mut Context, hypothesis: Hypothesis) -> Result<(), RowFault>
    requires context { IsContext bank.now context.old }
    requires hypothesis { IsHypothesis bank.now hypothesis }
    ensures { IsContext bank.now context.new }
{
    let _bank = bank;
    match context.push(hypothesis) {
        Ok(()) => Ok(()),
        Err(_) => Err(RowFault::NoMemory),
    }
}

/// The hypothesis `NAME : T` or `NAME : T := BODY`.
#[tactic(auto, using(crate::proofs::Growing::growing))]
fn hypothesis(bank: &mut Bank<'_>, text: &str) -> Result<Hypothesis, RowFault>
    ensures hypothesis { IfOk result (IsHypothesis bank.new) }
    ensures grows { Grows bank.old bank.new }
{
    let (name, rest) = parted(text, " : ")?;
    let (kind, words) = match rest.split_once(" := ") {
        Some((kind, words)) => (kind, Some(words)),
        None => (rest, None),
    };
    let kind = scoped(bank, kind)?;
    let body = body(bank, words)?;
    let name = bank.name(name)?;
    Ok(Hypothesis { name, body, kind })
}

/// One more hypothesis.
#[tactic(auto, using(crate::proofs::Growing::growing))]
pub(crate) fn assume(
    bank: &mut Bank<'_>,
    context: &mut Context,
    text: &str,
    out: &mut String,
) -> Result<(), RowFault>
    requires { IsContext bank.old context.old }
    ensures context { IsContext bank.new context.new }
    ensures grows { Grows bank.old bank.new }
{
    let hypothesis = hypothesis(bank, text)?;
    push(bank, context, hypothesis)?;
    write(out, "assumed")
}

/// Whether the name of a binder's variable below the hypotheses is that one.
#[tactic(auto, using(crate::proofs::Growing::growing))]
pub(crate) fn under_row(
    bank: &mut Bank<'_>,
    context: &Context,
    text: &str,
    out: &mut String,
) -> Result<(), RowFault>
    requires { IsContext bank.old context.now }
    ensures { Grows bank.old bank.new }
{
    let (binder, wanted) = parted(text, " = ")?;
    let binder = bank.name(binder)?;
    let found = name_under(bank, context.hypotheses(), binder)?;
    write(out, yes(bank.text(found) == wanted))
}
