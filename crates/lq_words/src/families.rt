//! Families and constants in words, and how an environment takes them.

ghost use Rattle.std.specs.Prelude.{◌≡◌, IfOk, OnOk, IfSome};
ghost use Rattle.std.specs.List.{AllByRecursion};
ghost use Rattle.lq_terms.specs.Terms.{HasTerm, Grows};
ghost use Rattle.lq_terms.specs.Contexts.{HasContext};
ghost use Rattle.lq_terms.specs.Telling.{IsClosed};
ghost use Rattle.lq_words.specs.Low.{IsLow};
ghost use Rattle.lq_env.specs.Families.{HasConstructor, HasFamily, IsFamily};

use crate::terms::{RowFault, build};
use crate::words::sort_of;
use crate::written::{is_closed, is_written};
use lq_env::{Constructors, Family};
use lq_terms::{Bank, Context, Hypothesis, TermId};
use lq_trees::Sort;

/// A family as a row writes it: `NAME : SORT | PARAMETERS | INDICES | CONSTRUCTORS`, each of them names with their
/// types, as `A : Prop; B : Prop`.
#[derive(Clone, Copy)]
pub struct Written<'a> {
    /// Its name.
    pub name: &'a str,
    /// Its sort.
    pub sort: Sort,
    /// Its parameters.
    pub parameters: &'a str,
    /// Its indices.
    pub indices: &'a str,
    /// Its constructors: `c*9 : T` are nine, `c0` to `c8`.
    pub constructors: &'a str,
}

/// The family that is written so.
pub fn parse_family<'a>(text: &'a str) -> Option<Written<'a>> {
    let (head, rest) = text.split_once('|')?;
    let (parameters, rest) = rest.split_once('|')?;
    let (indices, constructors) = rest.split_once('|')?;
    let (name, sort) = head.split_once(" : ")?;
    let sort = sort_of(sort.trim())?;
    Some(Written {
        name: name.trim(),
        sort,
        parameters,
        indices,
        constructors,
    })
}

/// One more hypothesis of that type.
fn push(
    bank: &mut Bank<'_>,
    context: &mut Context,
    name: &str,
    kind: TermId,
) -> Result<(), RowFault>
    requires context { HasContext bank.old context.old }
    requires kind { HasTerm bank.old kind }
    ensures has { OnOk result (HasContext bank.new context.new) }
    ensures grows { Grows bank.old bank.new }
{
    let name = bank.name(name)?;
    context.push(Hypothesis {
        name,
        body: None,
        kind,
    })?;
    Ok(())
}

/// One more hypothesis.
fn assume(bank: &mut Bank<'_>, context: &mut Context, pair: &str) -> Result<(), RowFault>
    requires { HasContext bank.old context.old }
    ensures has { OnOk result (HasContext bank.new context.new) }
    ensures grows { Grows bank.old bank.new }
{
    let Some((name, kind)) = pair.split_once(" : ") else {
        return Err(RowFault::Malformed);
    };
    let kind = build(bank, kind)?;
    push(bank, context, name.trim(), kind)
}

/// The names and types that are written so, in order.
fn context(bank: &mut Bank<'_>, pairs: &str) -> Result<Context, RowFault>
    ensures has { IfOk result (HasContext bank.new) }
    ensures grows { Grows bank.old bank.new }
{
    let mut context = Context::new(bank.allocator());
    for pair in pairs.split(';') {
        if !pair.trim().is_empty() {
            assume(bank, &mut context, pair)?;
        }
    }
    Ok(context)
}

/// One more constructor.
#[tactic(auto, using(crate::proofs::Lows::lows))]
fn construct(
    bank: &mut Bank<'_>,
    constructors: &mut Constructors,
    name: &str,
    kind: TermId,
) -> Result<(), RowFault>
    requires constructors { AllByRecursion (HasConstructor bank.old) constructors.old }
    requires kind { IsLow bank.old kind }
    ensures has { OnOk result (AllByRecursion (HasConstructor bank.new) constructors.new) }
    ensures grows { Grows bank.old bank.new }
{
    let name = bank.name(name)?;
    constructors.push(name, kind)?;
    Ok(())
}

/// So many constructors of one type, whose names end in their numbers.
#[tactic(auto, using(crate::proofs::Lows::lows))]
fn construct_many(
    bank: &mut Bank<'_>,
    constructors: &mut Constructors,
    name: &str,
    count: u32,
    kind: TermId,
) -> Result<(), RowFault>
    requires constructors { AllByRecursion (HasConstructor bank.old) constructors.old }
    requires kind { IsLow bank.old kind }
    ensures has { OnOk result (AllByRecursion (HasConstructor bank.new) constructors.new) }
    ensures grows { Grows bank.old bank.new }
{
    for index in 0..count {
        let name = format!(in bank.allocator(); "{name}{index}")?;
        construct(bank, constructors, &name, kind)?;
    }
    Ok(())
}

/// The constructors that are written so.
#[tactic(auto, using(crate::proofs::Lows::lows))]
fn construct_written(
    bank: &mut Bank<'_>,
    constructors: &mut Constructors,
    pair: &str,
) -> Result<(), RowFault>
    requires { AllByRecursion (HasConstructor bank.old) constructors.old }
    ensures has { OnOk result (AllByRecursion (HasConstructor bank.new) constructors.new) }
    ensures grows { Grows bank.old bank.new }
{
    let Some((name, kind)) = pair.split_once(" : ") else {
        return Err(RowFault::Malformed);
    };
    let kind = build(bank, kind)?;
    match name.trim().split_once('*') {
        Some((name, count)) => match count.parse::<u32>() {
            Ok(count) => construct_many(bank, constructors, name, count, kind),
            Err(_) => Err(RowFault::Malformed),
        },
        None => construct(bank, constructors, name.trim(), kind),
    }
}

/// The constructors of these names and types, in order.
fn constructors(bank: &mut Bank<'_>, pairs: &str) -> Result<Constructors, RowFault>
    ensures has { IfOk result (AllByRecursion (HasConstructor bank.new)) }
    ensures grows { Grows bank.old bank.new }
{
    let mut made = Constructors::new(bank.allocator());
    for pair in pairs.split(';') {
        if !pair.trim().is_empty() {
            construct_written(bank, &mut made, pair)?;
        }
    }
    Ok(made)
}

/// The family that is written so.
pub fn family(bank: &mut Bank<'_>, written: Written<'_>) -> Result<Family, RowFault>
    ensures has { IfOk result (HasFamily bank.new) }
    ensures grows { Grows bank.old bank.new }
{
    let parameters = context(bank, written.parameters)?;
    let indices = context(bank, written.indices)?;
    let constructors = constructors(bank, written.constructors)?;
    let name = bank.name(written.name)?;
    Ok(Family {
        name,
        parameters,
        indices,
        sort: written.sort,
        constructors,
    })
}

/// The family that is written so, as an environment takes it.
pub fn taken_family(bank: &mut Bank<'_>, written: Written<'_>) -> Result<Family, RowFault>
    ensures family { IfOk result (IsFamily bank.new) }
    ensures grows { Grows bank.old bank.new }
{
    let family = family(bank, written)?;
    if !is_written(bank, &family)? {
        return Err(RowFault::Unwritten);
    }
    Ok(family)
}

/// A term without loose bound variables and hypotheses.
pub fn closed(bank: &mut Bank<'_>, text: &str) -> Result<TermId, RowFault>
    ensures closed { IfOk result (IsClosed bank.new 0) }
    ensures grows { Grows bank.old bank.new }
{
    let term = build(bank, text)?;
    if !is_closed(bank, term) {
        return Err(RowFault::Unwritten);
    }
    Ok(term)
}
