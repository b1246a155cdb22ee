//! What rows come to, in an environment that has the family `nat` with its constructors `O` and `S`. `text WORDS` is the text of the term
//! that the words write; `long WORDS` is how many bytes it has. `print NAME` is the line of the name, or the text of the fault;
//! `mismatch WORDS ; WORDS` is the text of the fault of two types, and `failure N WORD ..` that of a failure at level N with messages.

ghost use Rattle.std.specs.Prelude.{OnOk};
ghost use Rattle.lq_terms.specs.Terms.{Grows};
ghost use Rattle.lq_env.specs.Environments.{IsEnv};
ghost use Rattle.lq_print.specs.Causes.{HasCause};

use lq_ast::Text;
use lq_env::{Env, EnvFault};
use lq_print::{
    Cause, DeclarationCause, LtacCause, PrintFault, ScriptCause, TermCause, fault_text, print_text,
    written_text,
};
use lq_terms::{Bank, Context};
use lq_trees::Sort;
use lq_words::{RowFault, build, parse_family, taken_family};
use std::alloc::Global;

/// The family of natural numbers.
const NAT: &str = "nat : Type.0 | | | O : nat; S : -> nat nat";

/// What a row without an answer tells.
pub(crate) fn refusal_text(fault: RowFault) -> &'static str {
    match fault {
        RowFault::NoMemory => "no memory",
        RowFault::Malformed => "no such row",
        RowFault::Unwritten => "not as is promised",
    }
}

/// Declares the natural numbers.
#[tactic(auto, using(lq_words::proofs::Environments::growing))]
fn declare_nat(bank: &mut Bank<'_>, env: &mut Env) -> Result<(), RowFault>
    requires { IsEnv bank.old env.old }
    ensures env { OnOk result (IsEnv bank.new env.new) }
    ensures grows { Grows bank.old bank.new }
{
    let Some(written) = parse_family(NAT) else {
        return Err(RowFault::Malformed);
    };
    let family = taken_family(bank, written)?;
    match env.add_inductive(bank, family, &[Sort::Base, Sort::Level(0)]) {
        Ok(()) => Ok(()),
        Err(EnvFault::NoMemory) => Err(RowFault::NoMemory),
        Err(_) => Err(RowFault::Unwritten),
    }
}

/// The text of the term that the words write.
#[tactic(auto, using(lq_words::proofs::Environments::growing))]
fn text_in(bank: &mut Bank<'_>, env: &mut Env, words: &str) -> Result<Text, RowFault>
    requires { IsEnv bank.old env.old }
{
    declare_nat(bank, env)?;
    let term = build(bank, words)?;
    let context = Context::new(bank.allocator());
    Ok(written_text(bank, env, &context, term)?)
}

/// The text of a cause at a level.
fn told(bank: &Bank<'_>, env: &Env, cause: Cause, level: u128) -> Result<Text, RowFault>
    requires env { IsEnv bank.now env.now }
    requires cause { HasCause bank.now cause }
{
    let cause = ScriptCause { cause, level };
    Ok(fault_text(bank, env, &cause)?)
}

/// The line of a name, or the text of the fault.
#[tactic(auto, using(lq_words::proofs::Environments::growing))]
fn line_in(bank: &mut Bank<'_>, env: &mut Env, name: &str) -> Result<Text, RowFault>
    requires { IsEnv bank.old env.old }
{
    declare_nat(bank, env)?;
    let name = bank.name(name)?;
    match print_text(bank, env, name) {
        Ok(text) => Ok(text),
        Err(PrintFault::Unknown(name)) => {
            told(bank, env, Cause::Term(TermCause::Unknown(name)), 0)
        }
        Err(PrintFault::ElimForbidden(family, sort)) => {
            let cause = DeclarationCause::ElimForbidden(family, sort);
            told(bank, env, Cause::Declaration(cause), 0)
        }
        Err(PrintFault::NoMemory) => Err(RowFault::NoMemory),
    }
}

/// The text of the fault of two types.
#[tactic(auto, using(lq_words::proofs::Environments::growing))]
fn mismatch_in(bank: &mut Bank<'_>, env: &mut Env, words: &str) -> Result<Text, RowFault>
    requires { IsEnv bank.old env.old }
{
    let Some((found, wanted)) = words.split_once(" ; ") else {
        return Err(RowFault::Malformed);
    };
    declare_nat(bank, env)?;
    let found = build(bank, found)?;
    let wanted = build(bank, wanted)?;
    told(
        bank,
        env,
        Cause::Term(TermCause::Mismatch(found, wanted)),
        0,
    )
}

/// Texts, parted by spaces.
fn messages(alloc: Global, words: &str) -> Result<Vec<Text>, RowFault> {
    let mut messages = Vec::new(alloc);
    for word in words.split(' ') {
        messages.push(Text::from_string(String::from_str(alloc, word)?))?;
    }
    Ok(messages)
}

/// The text of a failure with its level and its messages.
fn failure_in(bank: &mut Bank<'_>, env: &mut Env, words: &str) -> Result<Text, RowFault>
    requires { IsEnv bank.old env.old }
{
    let (level, messages) = match words.split_once(' ') {
        Some((level, words)) => (level, messages(bank.allocator(), words)?),
        None => (words, Vec::new(bank.allocator())),
    };
    let Ok(level) = level.parse::<u128>() else {
        return Err(RowFault::Malformed);
    };
    told(bank, env, Cause::Ltac(LtacCause::Failure(messages)), level)
}

/// What a word asks, in a bank and an environment of its own.
fn text(alloc: Global, word: &str, words: &str) -> Result<Text, RowFault> {
    let mut bank = Bank::new(alloc)?;
    let mut env = Env::new(alloc)?;
    match word {
        "text" => text_in(&mut bank, &mut env, words),
        "long" => text_in(&mut bank, &mut env, words),
        "print" => line_in(&mut bank, &mut env, words),
        "mismatch" => mismatch_in(&mut bank, &mut env, words),
        "failure" => failure_in(&mut bank, &mut env, words),
        _ => Err(RowFault::Malformed),
    }
}

/// What a row comes to.
pub(crate) fn answer(alloc: Global, line: &str) -> Result<String, RowFault> {
    let Some((word, words)) = line.split_once(' ') else {
        return Err(RowFault::Malformed);
    };
    let told = text(alloc, word, words)?;
    if word == "long" {
        return Ok(format!(in alloc; "{} bytes", told.as_str().len())?);
    }
    Ok(String::from_str(alloc, told.as_str().trim_end())?)
}
