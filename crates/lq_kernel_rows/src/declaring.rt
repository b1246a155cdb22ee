//! Rows that change an environment: `family FAMILY into SORTS`, `constant NAME : T := BODY`, `hidden NAME : T := BODY`,
//! `opened NAME : T` by the environment's own calls; `reopened NAME : T`, which opens and closes a family twice;
//! `undone FAMILY into SORTS`, which takes a family out again.

ghost use Rattle.std.specs.Prelude.{◌≡◌, IfErr, OnOk};
ghost use Rattle.std.specs.List.{AllByRecursion};
ghost use Rattle.lq_terms.specs.Terms.{HasName, Grows};
ghost use Rattle.lq_terms.specs.Telling.{IsClosed};
ghost use Rattle.lq_env.specs.Families.{IsFamily, IsSort};
ghost use Rattle.lq_env.specs.Environments.{IsEnv, Extends};
ghost use Rattle.lq_kernel_rows.specs.Told.{HasEnvFault};

use crate::row::{parted, yes};
use crate::told::{write, write_env_fault};
use lq_env::{Env, EnvFault, Family};
use lq_terms::{Bank, NameId, TermId};
use lq_trees::Sort;
use lq_words::{RowFault, are_sorts, closed, parse_family, sort_of, taken_family};
use std::alloc::Global;

/// Sorts in a row, with blanks between them.
fn sorts(alloc: Global, text: &str) -> Result<Vec<Sort>, RowFault> {
    let mut sorts = Vec::new(alloc);
    for word in text.split_whitespace() {
        match sort_of(word) {
            Some(sort) => sorts.push(sort)?,
            None => return Err(RowFault::Malformed),
        }
    }
    Ok(sorts)
}

/// The environment's answer to a family with its eliminators.
#[tactic(auto, using(crate::proofs::Faults::refusals))]
fn add(bank: &mut Bank<'_>, env: &mut Env, family: Family, into: &[Sort]) -> Result<(), EnvFault>
    requires env { IsEnv bank.old env.old }
    requires family { IsFamily bank.old family }
    requires sorts { AllByRecursion IsSort into.now }
    ensures env { IsEnv bank.new env.new }
    ensures extends { OnOk result (Extends env.old env.new) }
    ensures fault { IfErr result (HasEnvFault bank.new) }
    ensures grows { Grows bank.old bank.new }
{
    match env.add_inductive(bank, family, into) {
        Ok(()) => Ok(()),
        Err(fault) => Err(fault),
    }
}

/// The environment's answer to a family; the family stays if it is to stay.
#[tactic(auto, using(lq_words::proofs::Environments::growing))]
fn answered(
    bank: &mut Bank<'_>,
    env: &mut Env,
    family: Family,
    into: &[Sort],
    stays: bool,
) -> Result<(), EnvFault>
    requires env { IsEnv bank.old env.old }
    requires family { IsFamily bank.old family }
    requires sorts { AllByRecursion IsSort into.now }
    ensures env { IsEnv bank.new env.new }
    ensures fault { IfErr result (HasEnvFault bank.new) }
    ensures grows { Grows bank.old bank.new }
{
    let mark = env.mark();
    let answer = add(bank, env, family, into);
    if answer.is_ok() && !stays {
        env.undo(mark);
    }
    answer
}

/// Writes the environment's answer to a declaration.
fn write_answer(
    bank: &Bank<'_>,
    answer: Result<(), EnvFault>,
    out: &mut String,
) -> Result<(), RowFault>
    requires { IfErr answer (HasEnvFault bank.now) }
{
    match answer {
        Ok(()) => write(out, "declared "),
        Err(fault) => write_env_fault(bank, fault, out),
    }
}

/// Declares a family, and takes it out again if it is not to stay. After a refusal the environment is to be as before.
#[tactic(auto, using(lq_words::proofs::Environments::growing))]
fn declare_into(
    bank: &mut Bank<'_>,
    env: &mut Env,
    family: Family,
    into: &[Sort],
    stays: bool,
    out: &mut String,
) -> Result<(), RowFault>
    requires env { IsEnv bank.old env.old }
    requires family { IsFamily bank.old family }
    ensures env { IsEnv bank.new env.new }
    ensures grows { Grows bank.old bank.new }
{
    if !are_sorts(into) {
        return Err(RowFault::Unwritten);
    }
    let mark = env.mark();
    let answer = answered(bank, env, family, into, stays);
    let is_same = env.mark() == mark;
    let is_kept = !stays || answer.is_err();
    write_answer(bank, answer, out)?;
    if is_same != is_kept {
        return write(out, "but the environment is another ");
    }
    Ok(())
}

/// Declares a family that is written so, with its eliminators into sorts.
#[tactic(auto, using(lq_words::proofs::Environments::growing))]
fn declare_family(
    bank: &mut Bank<'_>,
    env: &mut Env,
    text: &str,
    stays: bool,
    out: &mut String,
) -> Result<(), RowFault>
    requires { IsEnv bank.old env.old }
    ensures env { IsEnv bank.new env.new }
    ensures grows { Grows bank.old bank.new }
{
    let (text, into) = parted(text, " into")?;
    let Some(written) = parse_family(text) else {
        return Err(RowFault::Malformed);
    };
    let into = sorts(bank.allocator(), into)?;
    let family = taken_family(bank, written)?;
    declare_into(bank, env, family, &into, stays, out)
}

/// Declares a constant; the word for the answer.
fn add_constant(
    bank: &Bank<'_>,
    env: &mut Env,
    name: NameId,
    kind: TermId,
    body: TermId,
    opaque: bool,
) -> &'static str
    requires env { IsEnv bank.now env.old }
    requires name { HasName bank.now name }
    requires kind { IsClosed bank.now 0 kind }
    requires body { IsClosed bank.now 0 body }
    ensures { IsEnv bank.now env.new }
{
    let _text = bank.text(name);
    match env.add_constant(name, kind, body, opaque) {
        Ok(()) => "declared",
        Err(fault) => {
            if fault == EnvFault::NameTaken(name) {
                "taken"
            } else {
                "no memory"
            }
        }
    }
}

/// Opens a family; the word for the answer.
fn open_family(bank: &Bank<'_>, env: &mut Env, name: NameId, kind: TermId) -> &'static str
    requires env { IsEnv bank.now env.old }
    requires name { HasName bank.now name }
    requires kind { IsClosed bank.now 0 kind }
    ensures { IsEnv bank.now env.new }
{
    let _text = bank.text(name);
    match env.open_family(name, kind) {
        Ok(()) => "opened",
        Err(fault) => {
            if fault == EnvFault::NameTaken(name) {
                "taken"
            } else {
                "no memory"
            }
        }
    }
}

/// Declares a constant that is written so.
#[tactic(auto, using(lq_words::proofs::Environments::growing))]
fn declare_constant(
    bank: &mut Bank<'_>,
    env: &mut Env,
    text: &str,
    opaque: bool,
    out: &mut String,
) -> Result<(), RowFault>
    requires { IsEnv bank.old env.old }
    ensures env { IsEnv bank.new env.new }
    ensures grows { Grows bank.old bank.new }
{
    let (name, rest) = parted(text, " : ")?;
    let (kind, body) = parted(rest, " := ")?;
    let kind = closed(bank, kind)?;
    let body = closed(bank, body)?;
    let name = bank.name(name)?;
    write(out, add_constant(bank, env, name, kind, body, opaque))
}

/// Opens a family that is written so.
#[tactic(auto, using(lq_words::proofs::Environments::growing))]
fn declare_open(
    bank: &mut Bank<'_>,
    env: &mut Env,
    text: &str,
    out: &mut String,
) -> Result<(), RowFault>
    requires { IsEnv bank.old env.old }
    ensures env { IsEnv bank.new env.new }
    ensures grows { Grows bank.old bank.new }
{
    let (name, kind) = parted(text, " : ")?;
    let kind = closed(bank, kind)?;
    let name = bank.name(name)?;
    write(out, open_family(bank, env, name, kind))
}

/// Whether a family that is being declared is there once it is opened, and gone once it is closed.
fn closes(env: &mut Env, name: NameId, arity: TermId) -> bool
    ensures { env.new ≡ env.old }
{
    match env.open_family(name, arity) {
        Ok(()) => {
            let was = env.kind(name) == Some(arity);
            env.close_family();
            was && env.lookup(name).is_none()
        }
        Err(_) => false,
    }
}

/// Opens and closes a family twice.
#[tactic(auto, using(lq_words::proofs::Environments::growing))]
fn reopen(bank: &mut Bank<'_>, env: &mut Env, text: &str, out: &mut String) -> Result<(), RowFault>
    requires { IsEnv bank.old env.old }
    ensures env { IsEnv bank.new env.new }
    ensures grows { Grows bank.old bank.new }
{
    let (name, kind) = parted(text, " : ")?;
    let kind = closed(bank, kind)?;
    let name = bank.name(name)?;
    let first = closes(env, name, kind);
    let second = closes(env, name, kind);
    write(out, yes(first && second))
}

/// Whether a word changes the environment by its own calls.
pub(crate) fn is_declaring(word: &str) -> bool {
    matches!(
        word,
        "family" | "undone" | "constant" | "hidden" | "opened" | "reopened"
    )
}

/// Changes the environment by one of its own calls, and writes the answer.
pub(crate) fn declare_row(
    bank: &mut Bank<'_>,
    env: &mut Env,
    word: &str,
    text: &str,
    out: &mut String,
) -> Result<(), RowFault>
    requires { IsEnv bank.old env.old }
    ensures env { IsEnv bank.new env.new }
    ensures grows { Grows bank.old bank.new }
{
    match word {
        "family" => declare_family(bank, env, text, true, out),
        "undone" => declare_family(bank, env, text, false, out),
        "constant" => declare_constant(bank, env, text, false, out),
        "hidden" => declare_constant(bank, env, text, true, out),
        "opened" => declare_open(bank, env, text, out),
        _ => reopen(bank, env, text, out),
    }
}
