//! The lines of a section, over one bank, one environment and hypotheses.

ghost use Rattle.lq_terms.specs.Terms.{Grows};
ghost use Rattle.lq_env.specs.Environments.{IsEnv};
ghost use Rattle.lq_kernel.specs.Closed.{IsContext};

use crate::bank_rows::{bank_row, is_of_bank};
use crate::declaring::{declare_row, is_declaring};
use crate::env_rows::env_row;
use crate::hypotheses::{assume, under_row};
use crate::priced::{is_priced, priced_row};
use crate::row::parted;
use crate::told::write;
use lq_env::Env;
use lq_terms::{Bank, Context};
use lq_words::RowFault;
use std::alloc::Global;

/// Writes the answer to a row that changes nothing but the bank.
#[tactic(auto, using(crate::proofs::Growing::growing))]
fn still_row(
    bank: &mut Bank<'_>,
    env: &Env,
    word: &str,
    text: &str,
    out: &mut String,
) -> Result<(), RowFault>
    requires { IsEnv bank.old env.now }
    ensures { Grows bank.old bank.new }
{
    if is_of_bank(word) {
        let answer = bank_row(bank, word, text)?;
        return write(out, answer);
    }
    env_row(bank, env, word, text, out)
}

/// Writes the answer to a row.
#[tactic(auto, using(crate::proofs::Growing::growing))]
fn answer(
    bank: &mut Bank<'_>,
    env: &mut Env,
    context: &mut Context,
    line: &str,
    out: &mut String,
) -> Result<(), RowFault>
    requires env { IsEnv bank.old env.old }
    requires context { IsContext bank.old context.old }
    ensures env { IsEnv bank.new env.new }
    ensures context { IsContext bank.new context.new }
{
    let (word, text) = parted(line, " ")?;
    if word == "assume" {
        assume(bank, context, text, out)
    } else if word == "under" {
        under_row(bank, context, text, out)
    } else if is_priced(word) {
        priced_row(bank, env, context, word, text, out)
    } else if is_declaring(word) {
        declare_row(bank, env, word, text, out)
    } else {
        still_row(bank, env, word, text, out)
    }
}

/// Writes why a row has no answer.
fn write_gap(answer: Result<(), RowFault>, out: &mut String) -> Result<(), RowFault> {
    match answer {
        Ok(()) => Ok(()),
        Err(RowFault::NoMemory) => write(out, "no memory"),
        Err(RowFault::Malformed) => write(out, "no such row"),
        Err(RowFault::Unwritten) => write(out, "not as its callers promise"),
    }
}

/// Whether a line is no row: a remark, the beginning of a section, or empty.
fn is_remark(line: &str) -> bool {
    line.is_empty() || line.starts_with('#') || line.starts_with("start")
}

/// Writes the words of an answer behind its line.
fn write_words(words: &str, out: &mut String) -> Result<(), RowFault> {
    write(out, ": ")?;
    write(out, words.trim_end())?;
    write(out, "\n")
}

/// Writes a line with its answer.
fn told(
    bank: &mut Bank<'_>,
    env: &mut Env,
    context: &mut Context,
    line: &str,
    out: &mut String,
) -> Result<(), RowFault>
    requires env { IsEnv bank.old env.old }
    requires context { IsContext bank.old context.old }
    ensures env { IsEnv bank.new env.new }
    ensures context { IsContext bank.new context.new }
{
    write(out, line)?;
    if is_remark(line) {
        return write(out, "\n");
    }
    let mut words = String::new(bank.allocator());
    let answer = answer(bank, env, context, line, &mut words);
    write_gap(answer, &mut words)?;
    write_words(&words, out)
}

/// Writes lines with their answers.
fn each(
    bank: &mut Bank<'_>,
    env: &mut Env,
    context: &mut Context,
    lines: &str,
    out: &mut String,
) -> Result<(), RowFault>
    requires env { IsEnv bank.old env.old }
    requires context { IsContext bank.old context.old }
{
    for line in lines.lines() {
        told(bank, env, context, line, out)?;
    }
    Ok(())
}

/// The same over no hypothesis.
fn in_env(bank: &mut Bank<'_>, env: &mut Env, lines: &str, out: &mut String) -> Result<(), RowFault>
    requires { IsEnv bank.old env.old }
{
    let mut context = Context::new(bank.allocator());
    each(bank, env, &mut context, lines, out)
}

/// The same over an empty environment.
fn in_bank(bank: &mut Bank<'_>, lines: &str, out: &mut String) -> Result<(), RowFault> {
    let mut env = Env::new(bank.allocator())?;
    in_env(bank, &mut env, lines, out)
}

/// The same over an empty bank.
fn in_section(alloc: Global, lines: &str, out: &mut String) -> Result<(), RowFault> {
    let mut bank = Bank::new(alloc)?;
    in_bank(&mut bank, lines, out)
}

/// The lines of a section with their answers.
pub(crate) fn answers(alloc: Global, lines: &str) -> Result<String, RowFault> {
    let mut out = String::new(alloc);
    in_section(alloc, lines, &mut out)?;
    Ok(out)
}
