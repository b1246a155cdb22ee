//! Declarations that are offered to the kernel.

ghost use Rattle.std.specs.Prelude.{◌≡◌, ◌<◌, IsTrue, IfOk, OnOk, IfErr, map};
ghost use Rattle.std.specs.List.{AllByRecursion};
ghost use Rattle.lq_terms.specs.Terms.{HasName, text_of, Grows};
ghost use Rattle.lq_terms.specs.Contexts.{HasContext, context_of};
ghost use Rattle.lq_env.specs.Families.{HasConstructor, HasFamily};
ghost use Rattle.lq_env.specs.Environments.{IsEnv, Extends};
ghost use Rattle.lq_kernel.specs.Declaring.{IsDeclaration, IsOffered};
ghost use Rattle.lq_kernel_rows.specs.Following.{Follows, EachScoped};
ghost use Rattle.lq_kernel_rows.specs.Told.{HasFault};

use crate::hypotheses::scoped;
use crate::row::parted;
use crate::told::{write, write_fault};
use lq_env::{Env, Family};
use lq_kernel::{Declaration, KernelFault, declare};
use lq_terms::{Bank, Hypothesis, NameId, NoMemory, Steps, TermId, Ticks, Work};
use lq_words::{RowFault, family, is_scoped, is_sort, listed, parse_family};
use std::marker::Brand;
use std::sync::ledger::{Blank, Ledger};

/// A declaration in words: `NAME : T := BODY`, or a family.
#[derive(Clone, Copy)]
pub(crate) struct Offer<'a> {
    pub(crate) text: &'a str,
    /// Whether the body of a constant is hidden.
    pub(crate) opaque: bool,
    /// Whether the declaration stays where it is accepted.
    pub(crate) stays: bool,
}

/// Whether each hypothesis has a new name, no body, and a type without loose bound variables; its names come
/// in front of those.
fn follows(
    bank: &Bank<'_>,
    names: &mut Vec<NameId>,
    context: &[Hypothesis],
) -> Result<bool, NoMemory>
    requires names { AllByRecursion (HasName bank.now) names.old.items }
    requires context { HasContext bank.now context.now }
    ensures has { AllByRecursion (HasName bank.now) names.new.items }
    ensures follows { IfOk result
        (λ b. IsTrue b → Follows (map (text_of bank.now) names.old.items) (context_of bank.now context.now) (map (text_of bank.now) names.new.items)) }
{
    for hypothesis in context {
        if hypothesis.body.is_some()
            || listed(bank, names, hypothesis.name)
            || !is_scoped(bank, hypothesis.kind)
        {
            return Ok(false);
        }
        names.insert(0, hypothesis.name)?;
    }
    Ok(true)
}

/// Whether the constructors' types have no loose bound variables.
fn all_scoped(bank: &Bank<'_>, constructors: &[(NameId, TermId)]) -> bool
    requires { AllByRecursion (HasConstructor bank.now) constructors.now }
    ensures { IsTrue result → EachScoped bank.now constructors.now }
{
    for constructor in constructors {
        if !is_scoped(bank, constructor.1) {
            return false;
        }
    }
    true
}

/// Whether a list has few entries.
fn is_short(length: usize) -> bool
    ensures { IsTrue result → length < 4294967296 }
{
    length < 4_294_967_296
}

/// Whether a family is as those who declare it promise. Its types may hold any hypotheses.
fn is_offered(bank: &Bank<'_>, family: &Family) -> Result<bool, NoMemory>
    requires { HasFamily bank.now family.now }
    ensures { IfOk result (λ b. IsTrue b → IsOffered bank.now family.now) }
{
    let mut names = Vec::new(bank.allocator());
    let parameters = family.parameters.hypotheses();
    let indices = family.indices.hypotheses();
    let constructors = family.constructors.constructors();
    if !follows(bank, &mut names, parameters)? {
        return Ok(false);
    }
    if !follows(bank, &mut names, indices)? {
        return Ok(false);
    }
    if !all_scoped(bank, constructors) || !is_sort(family.sort) {
        return Ok(false);
    }
    Ok(is_short(parameters.len()) && is_short(indices.len()) && is_short(constructors.len()))
}

/// The family that is written so, as a declaration.
fn inductive(bank: &mut Bank<'_>, text: &str) -> Result<Declaration, RowFault>
    ensures declaration { IfOk result (IsDeclaration bank.new) }
    ensures grows { Grows bank.old bank.new }
{
    let Some(written) = parse_family(text) else {
        return Err(RowFault::Malformed);
    };
    let family = family(bank, written)?;
    if !is_offered(bank, &family)? {
        return Err(RowFault::Unwritten);
    }
    Ok(Declaration::Inductive(family))
}

/// The constant that is written so, as a declaration.
#[tactic(auto, using(crate::proofs::Growing::growing))]
fn constant(bank: &mut Bank<'_>, text: &str, opaque: bool) -> Result<Declaration, RowFault>
    ensures declaration { IfOk result (IsDeclaration bank.new) }
    ensures grows { Grows bank.old bank.new }
{
    let (name, rest) = parted(text, " : ")?;
    let (kind, body) = parted(rest, " := ")?;
    let kind = scoped(bank, kind)?;
    let body = scoped(bank, body)?;
    let name = bank.name(name)?;
    Ok(Declaration::Constant {
        name,
        kind,
        body,
        opaque,
    })
}

/// The declaration that is written so.
fn declaration(bank: &mut Bank<'_>, offer: Offer<'_>) -> Result<Declaration, RowFault>
    ensures declaration { IfOk result (IsDeclaration bank.new) }
    ensures grows { Grows bank.old bank.new }
{
    if offer.text.contains('|') {
        return inductive(bank, offer.text);
    }
    constant(bank, offer.text, offer.opaque)
}

/// The kernel's answer to a declaration.
#[tactic(auto, using(crate::proofs::Faults::refusals))]
fn answer<L: Ledger>(
    bank: &mut Bank<'_>,
    env: &mut Env,
    declaration: Declaration,
    ticks: &mut Ticks,
    blank: Blank,
) -> Result<(), KernelFault>
    requires env { IsEnv bank.old env.old }
    requires declaration { IsDeclaration bank.old declaration }
    requires name { blank.name ≡ L.name }
    requires parts { blank.parts ≡ L.parts }
    requires some { 0 < L.parts }
    ensures env { IsEnv bank.new env.new }
    ensures extends { OnOk result (Extends env.old env.new) }
    ensures fault { IfErr result (HasFault bank.new) }
    ensures grows { Grows bank.old bank.new }
{
    let mut steps = Steps::<L>::new(blank);
    let mut work = Work {
        bank: &mut *bank,
        ticks: &mut *ticks,
    };
    declare(&mut work, env, declaration, &mut steps)
}

/// The kernel's answer to a declaration, and what is left of the budget; the declaration stays if it is to stay.
#[tactic(auto, using(lq_words::proofs::Environments::growing))]
fn answered(
    bank: &mut Bank<'_>,
    env: &mut Env,
    declaration: Declaration,
    ticks: &mut Ticks,
    stays: bool,
) -> Result<(), KernelFault>
    requires env { IsEnv bank.old env.old }
    requires declaration { IsDeclaration bank.old declaration }
    ensures env { IsEnv bank.new env.new }
    ensures fault { IfErr result (HasFault bank.new) }
    ensures grows { Grows bank.old bank.new }
{
    let mark = env.mark();
    let answer = answer::<Brand>(bank, env, declaration, ticks, Blank::new(1));
    if answer.is_ok() && !stays {
        env.undo(mark);
    }
    answer
}

/// Writes the kernel's answer to a declaration.
fn write_answer(
    bank: &Bank<'_>,
    answer: Result<(), KernelFault>,
    out: &mut String,
) -> Result<(), RowFault>
    requires { IfErr answer (HasFault bank.now) }
{
    match answer {
        Ok(()) => write(out, "declared "),
        Err(fault) => write_fault(bank, fault, out),
    }
}

/// Writes the kernel's answer to a declaration that is written so under a budget, and gives what is left of it. After a
/// refusal the environment is to be as before.
#[tactic(auto, using(lq_words::proofs::Environments::growing))]
pub(crate) fn offer_under(
    bank: &mut Bank<'_>,
    env: &mut Env,
    offer: Offer<'_>,
    budget: u64,
    out: &mut String,
) -> Result<u64, RowFault>
    requires { IsEnv bank.old env.old }
    ensures env { IsEnv bank.new env.new }
    ensures grows { Grows bank.old bank.new }
{
    let declaration = declaration(bank, offer)?;
    let mark = env.mark();
    let mut ticks = Ticks::new(budget);
    let answer = answered(bank, env, declaration, &mut ticks, offer.stays);
    let is_same = env.mark() == mark;
    let is_kept = !offer.stays || answer.is_err();
    write_answer(bank, answer, out)?;
    if is_same != is_kept {
        write(out, "but the environment is another ")?;
    }
    Ok(ticks.left)
}
