//! Sentences: the ways to read all the words, one after the other.

ghost use Rattle.std.specs.Prelude.{◌≡◌, ◌≤◌, ◌<◌, None, length};
ghost use Rattle.lq_ast.specs.PlainCommands.{plain_statement, plain_sentence};
ghost use Rattle.lq_sentences.specs.Rules.{sees};
ghost use Rattle.lq_sentences.specs.Sentences.{whole_command, whole_selected, whole_tac, whole_open, whole_mark};
ghost use Rattle.lq_sentences.specs.Reading.{whole, either, statement, statements, sentence};
ghost use Rattle.lq_sentences.proofs.PlaceLaws.{Rising};
ghost use Rattle.lq_sentences.proofs.FailLaws.{is_fail};
ghost use Rattle.lq_phrases.specs.Views.{words_of};
ghost use Rattle.lq_syntax.specs.Wholes.{Tells, fails_of, stated_behind};

use crate::refusals::joined;
use lq_ast::{Sentence, Statement};
use lq_expressions::{whole_command, whole_selected, whole_tac};
use lq_parts::{mark, opened};
use lq_phrases::{Cursor, Placed, Refusal};
use std::alloc::Global;

/// A command that is all the words.
fn command_alone(alloc: Global, words: &[Placed<'_>]) -> Result<Statement, Refusal>
    ensures { Tells plain_statement (whole whole_command (words_of words.now)) result }
{
    let mut cursor = Cursor::new(words);
    let found = whole_command(alloc, &mut cursor)?;
    match cursor.peek() {
        Some(next) => Err(Refusal::Unexpected(next.place)),
        None => Ok(found),
    }
}

/// An expression behind a selector that is all the words.
fn selected_alone(alloc: Global, words: &[Placed<'_>]) -> Result<Statement, Refusal>
    ensures { Tells plain_statement (whole whole_selected (words_of words.now)) result }
{
    let mut cursor = Cursor::new(words);
    let found = whole_selected(alloc, &mut cursor)?;
    match cursor.peek() {
        Some(next) => Err(Refusal::Unexpected(next.place)),
        None => Ok(found),
    }
}

/// An expression that is all the words.
fn tac_alone(alloc: Global, words: &[Placed<'_>]) -> Result<Statement, Refusal>
    ensures { Tells plain_statement (whole (whole_tac None) (words_of words.now)) result }
{
    let mut cursor = Cursor::new(words);
    let found = whole_tac(alloc, &mut cursor, None)?;
    match cursor.peek() {
        Some(next) => Err(Refusal::Unexpected(next.place)),
        None => Ok(found),
    }
}

/// A selector and `{` that are all the words.
fn opened_alone(alloc: Global, words: &[Placed<'_>]) -> Result<Sentence, Refusal>
    ensures { Tells plain_sentence (whole whole_open (words_of words.now)) result }
{
    let mut cursor = Cursor::new(words);
    let found = opened(alloc, &mut cursor)?;
    match cursor.peek() {
        Some(next) => Err(Refusal::Unexpected(next.place)),
        None => Ok(found),
    }
}

/// A mark that is all the words.
fn mark_alone(words: &[Placed<'_>]) -> Result<Sentence, Refusal>
    ensures { Tells plain_sentence (whole whole_mark (words_of words.now)) result }
{
    let mut cursor = Cursor::new(words);
    let found = mark(&mut cursor)?;
    match cursor.peek() {
        Some(next) => Err(Refusal::Unexpected(next.place)),
        None => Ok(found),
    }
}

/// An expression, behind a selector or without.
fn expression(alloc: Global, words: &[Placed<'_>]) -> Result<Statement, Refusal>
    ensures { Tells plain_statement
        (either (whole whole_selected (words_of words.now)) (λ v. whole (whole_tac None) (words_of words.now))) result }
{
    match selected_alone(alloc, words) {
        Ok(found) => Ok(found),
        Err(refusal) => joined(refusal, tac_alone(alloc, words)),
    }
}

/// A command, or an expression.
#[tactic(auto, unfolding(lq_sentences::specs::Reading::statement))]
fn statement(alloc: Global, words: &[Placed<'_>]) -> Result<Statement, Refusal>
    ensures { Tells plain_statement (statement (words_of words.now)) result }
{
    match command_alone(alloc, words) {
        Ok(found) => Ok(found),
        Err(refusal) => joined(refusal, expression(alloc, words)),
    }
}

/// Whether the first word is `Fail`.
fn begins_with_fail(words: &[Placed<'_>]) -> bool
    ensures { result ≡ sees is_fail (words_of words.now) }
{
    let cursor = Cursor::new(words);
    cursor.sees_word("Fail")
}

/// How many `Fail`s stand before all else.
fn count_fails(words: &[Placed<'_>]) -> usize
    ensures bound { result ≤ length words.now }
    ensures count { result ≡ fails_of (words_of words.now) }
{
    let mut count = 0;
    'fails: while begins_with_fail(&words[count..]) {
        count += 1;
    }
    count
}

/// A statement behind so many words, each of which is `Fail`.
fn stated_behind(alloc: Global, words: &[Placed<'_>], fails: usize) -> Result<Sentence, Refusal>
    requires { fails ≤ length words.now }
    ensures { Tells plain_sentence (stated_behind fails (words_of words.now)) result }
{
    match statement(alloc, &words[fails..]) {
        Ok(found) => Ok(Sentence::Stated(fails as u64, found)),
        Err(refusal) => Err(refusal),
    }
}

/// A statement behind `Fail`s. Where none fits behind the last of them, that one is the name of a call. No other is to be read:
/// as calls they stop where the last one does.
fn behind_fails(alloc: Global, words: &[Placed<'_>], fails: usize) -> Result<Sentence, Refusal>
    requires rises { Rising (words_of words.now) }
    requires some { 0 < fails }
    requires bound { fails ≤ length words.now }
    requires count { fails ≡ fails_of (words_of words.now) }
    ensures { Tells plain_sentence (statements (words_of words.now)) result }
{
    match stated_behind(alloc, words, fails) {
        Ok(found) => Ok(found),
        Err(refusal) => joined(refusal, stated_behind(alloc, words, fails - 1)),
    }
}

/// A statement, behind `Fail`s or without.
fn statements(alloc: Global, words: &[Placed<'_>]) -> Result<Sentence, Refusal>
    requires { Rising (words_of words.now) }
    ensures { Tells plain_sentence (statements (words_of words.now)) result }
{
    let fails = count_fails(words);
    if fails == 0 {
        stated_behind(alloc, words, 0)
    } else {
        behind_fails(alloc, words, fails)
    }
}

/// A selector and `{`, or a mark.
fn marked(alloc: Global, words: &[Placed<'_>]) -> Result<Sentence, Refusal>
    ensures { Tells plain_sentence
        (either (whole whole_open (words_of words.now)) (λ v. whole whole_mark (words_of words.now))) result }
{
    match opened_alone(alloc, words) {
        Ok(found) => Ok(found),
        Err(refusal) => joined(refusal, mark_alone(words)),
    }
}

/// The sentence that the words are, whose places rise.
#[tactic(auto, unfolding(lq_sentences::specs::Reading::sentence))]
pub fn sentence(alloc: Global, words: &[Placed<'_>]) -> Result<Sentence, Refusal>
    requires { Rising (words_of words.now) }
    ensures { Tells plain_sentence (sentence (words_of words.now)) result }
{
    match statements(alloc, words) {
        Ok(found) => Ok(found),
        Err(refusal) => joined(refusal, marked(alloc, words)),
    }
}
