//! Commands, and statements up to their full stop.

ghost use Rattle.std.specs.Prelude.{◌≡◌, Some, None};
ghost use Rattle.lq_ast.specs.PlainCommands.{plain_vernac, plain_statement};
ghost use Rattle.lq_sentences.specs.Rules.{read};
ghost use Rattle.lq_sentences.specs.Sentences.{ltac_form, outcomes_form, command_of, command_at, a_command};
ghost use Rattle.lq_sentences.specs.Sentences.{whole_command, whole_tac, whole_selected};
ghost use Rattle.lq_phrases.specs.Views.{word_of, Gives};

use crate::expressions::tac;
use lq_ast::{Selector, Statement, Vernac};
use lq_grammar::Symbol;
use lq_parts::{check, definition, inductive, lemma, print, selector, theorem};
use lq_phrases::{Cursor, Ends, Refusal, Test, Word, command_named, names, text_of};
use lq_sentences::Command;
use std::alloc::Global;

/// `Ltac` behind its word.
#[tactic(auto, unfolding(lq_ast::specs::PlainCommands::plain_vernac))]
fn ltac(alloc: Global, cursor: &mut Cursor<'_, '_>) -> Result<Vernac, Refusal>
    ensures { Gives plain_vernac (read ltac_form cursor.old) result cursor.new }
{
    let name = cursor.name(alloc, 201)?;
    let parameters = names(alloc, cursor, 201)?;
    cursor.expect(201, Symbol::ColonEqual)?;
    let body = tac(alloc, cursor, 201, Ends::Nothing)?;
    Ok(Vernac::Ltac(name, parameters, body))
}

/// `Outcomes` behind its word.
#[tactic(auto, unfolding(lq_ast::specs::PlainCommands::plain_vernac))]
fn outcomes(alloc: Global, cursor: &mut Cursor<'_, '_>) -> Result<Vernac, Refusal>
    ensures { Gives plain_vernac (read outcomes_form cursor.old) result cursor.new }
{
    let most = cursor.number(201)?;
    let whole = tac(alloc, cursor, 201, Ends::Nothing)?;
    Ok(Vernac::Outcomes(most, whole))
}

/// A command behind its word.
#[tactic(auto, unfolding(lq_ast::specs::PlainCommands::plain_vernac))]
fn command_of(alloc: Global, cursor: &mut Cursor<'_, '_>, which: Command) -> Result<Vernac, Refusal>
    ensures { Gives plain_vernac (read (command_of which) cursor.old) result cursor.new }
{
    match which {
        Command::Inductive => inductive(alloc, cursor),
        Command::Definition => definition(alloc, cursor),
        Command::Theorem => theorem(alloc, cursor),
        Command::Lemma => lemma(alloc, cursor),
        Command::Proof => Ok(Vernac::Proof),
        Command::Qed => Ok(Vernac::Qed),
        Command::Defined => Ok(Vernac::Defined),
        Command::Abort => Ok(Vernac::Abort),
        Command::Unshelve => Ok(Vernac::Unshelve),
        Command::Show => Ok(Vernac::Show),
        Command::Print => print(alloc, cursor),
        Command::Check => check(alloc, cursor),
        Command::Ltac => ltac(alloc, cursor),
        Command::Outcomes => outcomes(alloc, cursor),
    }
}

/// A command behind its first word.
#[tactic(auto, unfolding(lq_ast::specs::PlainCommands::plain_vernac))]
fn command_at(alloc: Global, cursor: &mut Cursor<'_, '_>, word: Word<'_>) -> Result<Vernac, Refusal>
    ensures { Gives plain_vernac (read (command_at (word_of word.entry)) cursor.old) result cursor.new }
{
    match command_named(text_of(word)) {
        Some(which) => command_of(alloc, cursor, which),
        None => Ok(Vernac::Show),
    }
}

/// A command, without the `Fail`s before it.
#[tactic(auto, unfolding(lq_sentences::specs::Sentences::a_command))]
fn command(alloc: Global, cursor: &mut Cursor<'_, '_>) -> Result<Vernac, Refusal>
    ensures { Gives plain_vernac (read a_command cursor.old) result cursor.new }
{
    let next = cursor.take(201, Test::Command)?;
    command_at(alloc, cursor, next.word)
}

/// A command and its full stop.
#[tactic(auto, unfolding(lq_sentences::specs::Sentences::whole_command, lq_ast::specs::PlainCommands::plain_statement))]
pub fn whole_command(alloc: Global, cursor: &mut Cursor<'_, '_>) -> Result<Statement, Refusal>
    ensures { Gives plain_statement (read whole_command cursor.old) result cursor.new }
{
    let found = command(alloc, cursor)?;
    cursor.take(201, Test::Sign(Symbol::Stop))?;
    Ok(Statement::Command(found))
}

/// An expression and its full stop, behind a selector if one is written.
#[tactic(auto, unfolding(lq_sentences::specs::Sentences::whole_tac, lq_ast::specs::PlainCommands::plain_statement))]
pub fn whole_tac(
    alloc: Global,
    cursor: &mut Cursor<'_, '_>,
    chosen: Option<Selector>,
) -> Result<Statement, Refusal>
    ensures { Gives plain_statement (read (whole_tac chosen) cursor.old) result cursor.new }
{
    let whole = tac(alloc, cursor, 201, Ends::Nothing)?;
    cursor.take(201, Test::Sign(Symbol::Stop))?;
    Ok(Statement::Run(chosen, whole))
}

/// A selector, an expression and its full stop.
#[tactic(auto, unfolding(lq_sentences::specs::Sentences::whole_selected))]
pub fn whole_selected(alloc: Global, cursor: &mut Cursor<'_, '_>) -> Result<Statement, Refusal>
    ensures { Gives plain_statement (read whole_selected cursor.old) result cursor.new }
{
    let chosen = selector(alloc, cursor)?;
    whole_tac(alloc, cursor, Some(chosen))
}
