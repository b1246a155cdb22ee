//! Strings, messages and amounts.

ghost use Rattle.std.specs.Prelude.{◌≡◌, ◌≤◌, ◌<◌, ◌+◌, ◌++◌, ◌∷◌, true, false, length, IfOk, MatchOption};
ghost use Rattle.lq_sentences.specs.Words.{undoubled};
ghost use Rattle.lq_sentences.specs.Rules.{read};
ghost use Rattle.lq_sentences.specs.Parts.{many, maybe};
ghost use Rattle.lq_sentences.specs.Arguments.{message_of, message_word, messages, amount_of, begins_amount, amount, part_of, part_word, parts, failure};
ghost use Rattle.lq_phrases.specs.Views.{word_of, ends_of, here, test_of, Gives, same};

use lq_ast::{Amount, Message, Part, Text};
use lq_phrases::{Cursor, Ends, Refusal, Test, Word, name_of};
use sqlite_items::Items;
use std::alloc::{AllocError, Global};

/// What stands behind a quote without the second one of a pair.
fn behind_pair(text: &str) -> &str
    ensures same { undoubled true text.now ≡ undoubled false result.now }
    ensures shorter { length result.now ≤ length text.now }
{
    match text.strip_prefix('"') {
        Some(rest) => rest,
        None => text,
    }
}

/// What stands before the first quote, and behind it without the second one of a pair.
fn at_quote(text: &str) -> Option<(&str, &str)>
    ensures { MatchOption result (undoubled false text.now ≡ text.now)
        (λ p. (undoubled false text.now ≡ p.0.now ++ 34 ∷ undoubled false p.1.now) × (length p.1.now < length text.now)) }
{
    match text.split_once('"') {
        Some((before, rest)) => Some((before, behind_pair(rest))),
        None => None,
    }
}

/// The text of a string, with one quote for each two.
pub fn unquoted(alloc: Global, text: &str) -> Result<Text, AllocError>
    ensures { IfOk result (λ t. t ≡ undoubled false text.now) }
{
    let mut found = String::new(alloc);
    let mut rest = text;
    'pieces: while let Some((before, next)) = at_quote(rest) {
        found.push_str(before)?;
        found.push('"')?;
        rest = next;
    }
    found.push_str(rest)?;
    Ok(Text::from_string(found))
}

/// What a word of a message says.
fn message(alloc: Global, word: Word<'_>) -> Result<Message, AllocError>
    ensures { IfOk result (λ m. m ≡ message_of (word_of word.entry)) }
{
    match word {
        Word::Quoted(text) => Ok(Message::Quoted(unquoted(alloc, text)?)),
        Word::Number(value) => Ok(Message::Digits(value)),
        Word::Name(_) => Ok(Message::Word(name_of(alloc, word)?)),
        Word::Symbol(_) => Ok(Message::Word(name_of(alloc, word)?)),
        Word::Bullet(_, _) => Ok(Message::Word(name_of(alloc, word)?)),
    }
}

/// What a word says that `fresh` joins.
fn part(alloc: Global, word: Word<'_>) -> Result<Part, AllocError>
    ensures { IfOk result (λ m. m ≡ part_of (word_of word.entry)) }
{
    match word {
        Word::Quoted(text) => Ok(Part::Piece(unquoted(alloc, text)?)),
        Word::Number(_) => Ok(Part::Of(name_of(alloc, word)?)),
        Word::Name(_) => Ok(Part::Of(name_of(alloc, word)?)),
        Word::Symbol(_) => Ok(Part::Of(name_of(alloc, word)?)),
        Word::Bullet(_, _) => Ok(Part::Of(name_of(alloc, word)?)),
    }
}

/// The number or the name that a word is.
fn counted(alloc: Global, word: Word<'_>) -> Result<Amount, AllocError>
    ensures { IfOk result (λ m. m ≡ amount_of (word_of word.entry)) }
{
    match word {
        Word::Number(value) => Ok(Amount::Count(value)),
        Word::Quoted(_) => Ok(Amount::Called(name_of(alloc, word)?)),
        Word::Name(_) => Ok(Amount::Called(name_of(alloc, word)?)),
        Word::Symbol(_) => Ok(Amount::Called(name_of(alloc, word)?)),
        Word::Bullet(_, _) => Ok(Amount::Called(name_of(alloc, word)?)),
    }
}

/// The messages behind those found so far.
#[tactic(auto, using(lq_phrases::proofs::Loops::loops))]
fn more_messages(
    alloc: Global,
    cursor: &mut Cursor<'_, '_>,
    levels: usize,
    ends: Ends,
    found: &mut Items<Message>,
) -> Result<(), Refusal>
    ensures { Gives (λ u. found.new) (read (many levels (test_of (Test.Message ends)) message_word found.old) cursor.old) result cursor.new }
{
    while cursor.sees(Test::Message(ends)) {
        let next = cursor.take(levels, Test::Message(ends))?;
        found.push(message(alloc, next.word)?)?;
    }
    Ok(())
}

/// Messages.
pub fn messages(
    alloc: Global,
    cursor: &mut Cursor<'_, '_>,
    inside: usize,
    ends: Ends,
) -> Result<Items<Message>, Refusal>
    requires { inside ≤ 200 }
    ensures { Gives same (read (messages (here inside ends)) cursor.old) result cursor.new }
{
    let mut found = Items::new(alloc);
    more_messages(alloc, cursor, inside + 1, ends, &mut found)?;
    Ok(found)
}

/// The parts behind those found so far.
#[tactic(auto, using(lq_phrases::proofs::Loops::loops))]
fn more_parts(
    alloc: Global,
    cursor: &mut Cursor<'_, '_>,
    levels: usize,
    ends: Ends,
    found: &mut Items<Part>,
) -> Result<(), Refusal>
    ensures { Gives (λ u. found.new) (read (many levels (test_of (Test.Part ends)) part_word found.old) cursor.old) result cursor.new }
{
    while cursor.sees(Test::Part(ends)) {
        let next = cursor.take(levels, Test::Part(ends))?;
        found.push(part(alloc, next.word)?)?;
    }
    Ok(())
}

/// What `fresh` joins.
pub fn parts(
    alloc: Global,
    cursor: &mut Cursor<'_, '_>,
    inside: usize,
    ends: Ends,
) -> Result<Items<Part>, Refusal>
    requires { inside ≤ 200 }
    ensures { Gives same (read (parts (here inside ends)) cursor.old) result cursor.new }
{
    let mut found = Items::new(alloc);
    more_parts(alloc, cursor, inside + 1, ends, &mut found)?;
    Ok(found)
}

/// A number or a name.
pub fn amount(alloc: Global, cursor: &mut Cursor<'_, '_>, levels: usize) -> Result<Amount, Refusal>
    ensures { Gives same (read (amount levels) cursor.old) result cursor.new }
{
    let next = cursor.take(levels, Test::Count)?;
    Ok(counted(alloc, next.word)?)
}

/// A number or a name, if one is written.
fn maybe_amount(
    alloc: Global,
    cursor: &mut Cursor<'_, '_>,
    levels: usize,
    ends: Ends,
) -> Result<Option<Amount>, Refusal>
    ensures { Gives same (read (maybe (begins_amount (ends_of ends)) (amount levels)) cursor.old) result cursor.new }
{
    if cursor.sees(Test::Amount(ends)) {
        Ok(Some(amount(alloc, cursor, levels)?))
    } else {
        Ok(None)
    }
}

/// The level and the messages of a failure.
pub fn failure(
    alloc: Global,
    cursor: &mut Cursor<'_, '_>,
    inside: usize,
    ends: Ends,
) -> Result<(Option<Amount>, Items<Message>), Refusal>
    requires { inside ≤ 200 }
    ensures { Gives same (read (failure (here inside ends)) cursor.old) result cursor.new }
{
    let level = maybe_amount(alloc, cursor, inside + 1, ends)?;
    let found = messages(alloc, cursor, inside, ends)?;
    Ok((level, found))
}
