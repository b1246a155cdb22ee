//! The lines of a section, over one bank, one store, hypotheses and declarations. Beside those of `asking.rt`, `reading.rt` and
//! `scenes.rt` there are `define c := T`, and `chain c N := T`: of the constants `c0`, `c1` and so on each stands for the next one,
//! and the last of N for the term.

ghost use Rattle.std.specs.Prelude.{◌≡◌, []};
ghost use Rattle.lq_terms.specs.Terms.{Grows};
ghost use Rattle.lq_unify_rows.specs.Declaring.{IsDeclared};
ghost use Rattle.lq_unify_rows.specs.Scenes.{IsScene};

use crate::declaring::{Declared, define, define_chain};
use crate::priced::priced_row;
use crate::reading::store_row;
use crate::scenes::{assume, give, link, make};
use crate::words::{number, parted, write};
use lq_evars::Store;
use lq_terms::{Bank, Context};
use lq_words::{RowFault, build};
use std::alloc::Global;

/// A constant stands for a term from now on: `c := T`.
#[tactic(auto, using(crate::proofs::Keeping::keeping))]
fn define_row(
    bank: &mut Bank<'_>,
    declared: &mut Declared,
    text: &str,
) -> Result<&'static str, RowFault>
    requires declared { IsDeclared bank.old declared.old }
    ensures declared { IsDeclared bank.new declared.new }
    ensures grows { Grows bank.old bank.new }
{
    let (name, body) = parted(text, " := ")?;
    let body = build(bank, body)?;
    let constant = bank.name(name)?;
    define(bank, declared, constant, body)?;
    Ok("defined")
}

/// So many constants stand for one another, and the last for a term: `c N := T`.
#[tactic(auto, using(crate::proofs::Keeping::keeping))]
fn chain_row(
    bank: &mut Bank<'_>,
    declared: &mut Declared,
    text: &str,
) -> Result<&'static str, RowFault>
    requires declared { IsDeclared bank.old declared.old }
    ensures declared { IsDeclared bank.new declared.new }
    ensures grows { Grows bank.old bank.new }
{
    let (head, body) = parted(text, " := ")?;
    let (name, many) = parted(head, " ")?;
    let many = number(many)?;
    let body = build(bank, body)?;
    define_chain(bank, declared, name, many, body)?;
    Ok("defined")
}

/// The answer to a row that declares.
fn declared_row(
    bank: &mut Bank<'_>,
    declared: &mut Declared,
    word: &str,
    text: &str,
) -> Result<&'static str, RowFault>
    requires declared { IsDeclared bank.old declared.old }
    ensures declared { IsDeclared bank.new declared.new }
    ensures grows { Grows bank.old bank.new }
{
    if word == "define" {
        define_row(bank, declared, text)
    } else {
        chain_row(bank, declared, text)
    }
}

/// The same among hypotheses and variables.
fn declare_row(
    bank: &mut Bank<'_>,
    store: &Store,
    context: &Context,
    declared: &mut Declared,
    word: &str,
    text: &str,
) -> Result<&'static str, RowFault>
    requires scene { IsScene bank.old store.now context.now declared.old }
    ensures { IsScene bank.new store.now context.now declared.new }
{
    let _store = store;
    let _context = context;
    declared_row(bank, declared, word, text)
}

/// The answer to a row that asks of the store alone.
fn asked_row(
    bank: &mut Bank<'_>,
    store: &Store,
    context: &Context,
    declared: &Declared,
    word: &str,
    text: &str,
) -> Result<&'static str, RowFault>
    requires scene { IsScene bank.old store.now context.now declared.now }
    ensures { IsScene bank.new store.now context.now declared.now }
{
    store_row(bank, store, context, declared, word, text)
}

/// The answer to a row that makes variables or gives them values.
fn variable_row(
    bank: &mut Bank<'_>,
    store: &mut Store,
    context: &Context,
    declared: &Declared,
    word: &str,
    text: &str,
) -> Result<&'static str, RowFault>
    requires scene { IsScene bank.old store.old context.now declared.now }
    ensures { IsScene bank.new store.new context.now declared.now }
{
    match word {
        "variable" => make(bank, store, context, declared, text, 1),
        "variables" => {
            let (many, kind) = parted(text, " : ")?;
            let many = number(many)?;
            make(bank, store, context, declared, kind, many)
        }
        "give" => give(bank, store, context, declared, text),
        _ => {
            let many = number(text)?;
            link(bank, store, context, declared, many)
        }
    }
}

/// The context is empty from now on.
fn forget(alloc: Global, context: &mut Context)
    ensures { context.new ≡ [] }
{
    *context = Context::new(alloc);
}

/// There is no hypothesis from now on.
fn forget_row(
    bank: &Bank<'_>,
    store: &Store,
    context: &mut Context,
    declared: &Declared,
) -> &'static str
    requires scene { IsScene bank.now store.now context.old declared.now }
    ensures { IsScene bank.now store.now context.new declared.now }
{
    let _store = store;
    let _declared = declared;
    forget(bank.allocator(), context);
    "forgotten"
}

/// Whether a word makes variables or gives them values.
fn is_of_variables(word: &str) -> bool {
    matches!(word, "variable" | "variables" | "give" | "link")
}

/// The answer to a row without a price that changes what rows stand over.
fn change_row(
    bank: &mut Bank<'_>,
    store: &mut Store,
    context: &mut Context,
    declared: &mut Declared,
    word: &str,
    text: &str,
) -> Result<&'static str, RowFault>
    requires scene { IsScene bank.old store.old context.old declared.old }
    ensures { IsScene bank.new store.new context.new declared.new }
{
    match word {
        "define" | "chain" => declare_row(bank, store, context, declared, word, text),
        "assume" => assume(bank, store, context, declared, text),
        "forget" => Ok(forget_row(bank, store, context, declared)),
        _ => asked_row(bank, store, context, declared, word, text),
    }
}

/// The answer to a row without a price.
fn plain_row(
    bank: &mut Bank<'_>,
    store: &mut Store,
    context: &mut Context,
    declared: &mut Declared,
    word: &str,
    text: &str,
) -> Result<&'static str, RowFault>
    requires scene { IsScene bank.old store.old context.old declared.old }
    ensures { IsScene bank.new store.new context.new declared.new }
{
    if is_of_variables(word) {
        variable_row(bank, store, context, declared, word, text)
    } else {
        change_row(bank, store, context, declared, word, text)
    }
}

/// Writes the answer to a row with a price.
fn write_priced_row(
    bank: &mut Bank<'_>,
    store: &mut Store,
    context: &Context,
    declared: &Declared,
    word: &str,
    text: &str,
    out: &mut String,
) -> Result<(), RowFault>
    requires scene { IsScene bank.old store.old context.now declared.now }
    ensures { IsScene bank.new store.new context.now declared.now }
{
    priced_row(bank, store, context, declared, word, text, out)
}

/// Writes the answer to a row.
fn answer(
    bank: &mut Bank<'_>,
    store: &mut Store,
    context: &mut Context,
    declared: &mut Declared,
    line: &str,
    out: &mut String,
) -> Result<(), RowFault>
    requires scene { IsScene bank.old store.old context.old declared.old }
    ensures { IsScene bank.new store.new context.new declared.new }
{
    let (word, text) = parted(line, " ")?;
    if word == "unify" || word == "once" {
        return write_priced_row(bank, store, context, declared, word, text, out);
    }
    let told = plain_row(bank, store, context, declared, word, text)?;
    write(out, told)
}

/// Writes why a row has no answer.
fn write_gap(answer: Result<(), RowFault>, out: &mut String) -> Result<(), RowFault> {
    match answer {
        Ok(()) => Ok(()),
        Err(RowFault::NoMemory) => write(out, "no memory"),
        Err(RowFault::Malformed) => write(out, "no such row"),
        Err(RowFault::Unwritten) => write(out, "not as its callers promise"),
    }
}

/// Whether a line is no row: a remark, the beginning of a section, or empty.
fn is_remark(line: &str) -> bool {
    line.is_empty() || line.starts_with('#') || line.starts_with("start")
}

/// Writes the words of an answer behind its line.
fn write_words(words: &str, out: &mut String) -> Result<(), RowFault> {
    write(out, ": ")?;
    write(out, words.trim_end())?;
    write(out, "\n")
}

/// Writes a line with its answer.
fn told(
    bank: &mut Bank<'_>,
    store: &mut Store,
    context: &mut Context,
    declared: &mut Declared,
    line: &str,
    out: &mut String,
) -> Result<(), RowFault>
    requires scene { IsScene bank.old store.old context.old declared.old }
    ensures { IsScene bank.new store.new context.new declared.new }
{
    write(out, line)?;
    if is_remark(line) {
        return write(out, "\n");
    }
    let mut words = String::new(bank.allocator());
    let answer = answer(bank, store, context, declared, line, &mut words);
    write_gap(answer, &mut words)?;
    write_words(&words, out)
}

/// Writes lines with their answers.
fn each(
    bank: &mut Bank<'_>,
    store: &mut Store,
    context: &mut Context,
    declared: &mut Declared,
    lines: &str,
    out: &mut String,
) -> Result<(), RowFault>
    requires scene { IsScene bank.old store.old context.old declared.old }
{
    for line in lines.lines() {
        told(bank, store, context, declared, line, out)?;
    }
    Ok(())
}

/// The same over no hypothesis.
fn in_store(
    bank: &mut Bank<'_>,
    store: &mut Store,
    declared: &mut Declared,
    lines: &str,
    out: &mut String,
) -> Result<(), RowFault>
    requires scene { IsScene bank.old store.old [] declared.old }
{
    let mut context = Context::new(bank.allocator());
    each(bank, store, &mut context, declared, lines, out)
}

/// The same over a store without variables.
fn in_declared(
    bank: &mut Bank<'_>,
    declared: &mut Declared,
    lines: &str,
    out: &mut String,
) -> Result<(), RowFault>
    requires declared { IsDeclared bank.old declared.old }
{
    let mut store = Store::new(bank.allocator())?;
    in_store(bank, &mut store, declared, lines, out)
}

/// The same over the natural numbers alone.
fn in_bank(bank: &mut Bank<'_>, lines: &str, out: &mut String) -> Result<(), RowFault> {
    let mut declared = Declared::new(bank)?;
    in_declared(bank, &mut declared, lines, out)
}

/// The same over an empty bank.
fn in_section(alloc: Global, lines: &str, out: &mut String) -> Result<(), RowFault> {
    let mut bank = Bank::new(alloc)?;
    in_bank(&mut bank, lines, out)
}

/// The lines of a section with their answers.
pub(crate) fn answers(alloc: Global, lines: &str) -> Result<String, RowFault> {
    let mut out = String::new(alloc);
    in_section(alloc, lines, &mut out)?;
    Ok(out)
}
