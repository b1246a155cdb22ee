//! Words, and tests of them.

ghost use Rattle.std.specs.Prelude.{◌≡◌, IfOk};
ghost use Rattle.lq_ast.specs.Plain.{name_of};
ghost use Rattle.lq_sentences.specs.Words.{name, is_sign, is_number, is_quoted, value_of, reads, is_name, text_of};
ghost use Rattle.lq_sentences.specs.Terms.{begins_atom, is_level};
ghost use Rattle.lq_sentences.specs.Sentences.{is_mark, is_entry, command_words};
ghost use Rattle.lq_grammar.specs.Selectors.{is_reserved};
ghost use Rattle.lq_phrases.specs.Views.{word_of, ends_of, test_of, binder_of};

use crate::tables::command_named;
use lq_ast::{Binder, Name};
use lq_grammar::Symbol;
use std::alloc::{AllocError, Global};

/// A token with what it spells.
#[derive(Clone, Copy)]
pub enum Word<'t> {
    /// A name or a reserved word.
    Name(&'t str),
    /// A number.
    Number(u128),
    /// A string, between its quotes.
    Quoted(&'t str),
    /// A symbol.
    Symbol(Symbol),
    /// A bullet.
    Bullet(u8, u8),
}

/// A word and where it begins.
#[derive(Clone, Copy)]
pub struct Placed<'t> {
    /// The word.
    pub word: Word<'t>,
    /// The place of its first byte.
    pub place: usize,
}

/// The word that ends a part where the part may end.
#[derive(Clone, Copy)]
pub enum Ends {
    /// No word.
    Nothing,
    /// `then`
    Then,
    /// `else`
    Else,
}

/// Where a term stands.
#[derive(Clone, Copy)]
pub struct Spot {
    /// Whether it is a pattern.
    pub is_pattern: bool,
    /// The word that ends it where it may end.
    pub ends: Ends,
}

/// What a word is to be.
#[derive(Clone, Copy)]
pub enum Test {
    /// A name that is not reserved.
    Name,
    /// A number.
    Number,
    /// That symbol.
    Sign(Symbol),
    /// A name or `_`.
    Binder,
    /// A name, where one may be left out.
    Spare(Ends),
    /// What begins an atom.
    Atom,
    /// What begins an atom that may be left out.
    Argument(Ends),
    /// What begins a term.
    Term,
    /// The level of a sort.
    Level,
    /// What is written by a message.
    Message(Ends),
    /// A number, or a name that may be left out.
    Amount(Ends),
    /// A number or a name.
    Count,
    /// What `eval` gives.
    Reduction,
    /// What `fresh` joins.
    Part(Ends),
    /// What begins the argument of a call.
    Arg(Ends),
    /// What begins an expression.
    Tactic,
    /// `{`, where it may stand.
    Opening(bool),
    /// `{`, `}`, or a bullet of at most four.
    Mark,
    /// `rec`
    Rec,
    /// `with`
    With,
    /// What ends an empty place in a list of branches.
    Rim,
    /// `..`, where it may stand.
    Filling(bool),
    /// The first word of a command, but for `Fail`.
    Command,
}

/// Whether a word is that symbol.
#[tactic(auto, unfolding(lq_sentences::specs::Words::is_sign, lq_sentences::specs::Words::same_symbol))]
pub fn is_symbol(symbol: Symbol, word: Word<'_>) -> bool
    ensures { result ≡ is_sign symbol (word_of word.entry) }
{
    match word {
        Word::Symbol(found) => symbol == found,
        Word::Name(_) => false,
        Word::Number(_) => false,
        Word::Quoted(_) => false,
        Word::Bullet(_, _) => false,
    }
}

/// Whether a word is a number.
#[tactic(auto, unfolding(lq_sentences::specs::Words::is_number))]
pub fn is_number(word: Word<'_>) -> bool
    ensures { result ≡ is_number (word_of word.entry) }
{
    matches!(word, Word::Number(_))
}

/// Whether a word is a string.
#[tactic(auto, unfolding(lq_sentences::specs::Words::is_quoted))]
pub fn is_quoted(word: Word<'_>) -> bool
    ensures { result ≡ is_quoted (word_of word.entry) }
{
    matches!(word, Word::Quoted(_))
}

/// The value of a number, else 0.
pub fn value_of(word: Word<'_>) -> u128
    ensures { result ≡ value_of (word_of word.entry) }
{
    match word {
        Word::Number(value) => value,
        Word::Symbol(_) => 0,
        Word::Name(_) => 0,
        Word::Quoted(_) => 0,
        Word::Bullet(_, _) => 0,
    }
}

/// What a name spells, else nothing.
pub fn text_of<'t>(word: Word<'t>) -> &'t str
    ensures { result.now ≡ text_of (word_of word.entry) }
{
    match word {
        Word::Name(text) => text,
        Word::Symbol(_) => "",
        Word::Number(_) => "",
        Word::Quoted(_) => "",
        Word::Bullet(_, _) => "",
    }
}

/// The name that a word is.
pub fn name_of(alloc: Global, word: Word<'_>) -> Result<Name, AllocError>
    ensures { IfOk result (λ n. n ≡ text_of (word_of word.entry)) }
{
    Name::from_str(alloc, text_of(word))
}

/// The name that is bound, none for `_`.
#[tactic(auto, unfolding(lq_ast::specs::Plain::name_of))]
pub fn bound_name(alloc: Global, word: Word<'_>) -> Result<Option<Name>, AllocError>
    ensures { IfOk result (λ n. name_of n ≡ text_of (word_of word.entry)) }
{
    match word {
        Word::Name(text) => Ok(Some(Name::from_str(alloc, text)?)),
        Word::Symbol(_) => Ok(None),
        Word::Number(_) => Ok(None),
        Word::Quoted(_) => Ok(None),
        Word::Bullet(_, _) => Ok(None),
    }
}

/// What is bound by a word.
pub fn binder_of(alloc: Global, next: Placed<'_>) -> Result<Binder, AllocError>
    ensures { IfOk result (λ b. binder_of b ≡ (text_of (word_of next.entry.word), next.entry.place)) }
{
    let name = bound_name(alloc, next.word)?;
    Ok(Binder {
        name,
        place: next.place as u64,
    })
}

/// Whether a word is that one.
#[tactic(auto, unfolding(lq_sentences::specs::Words::reads))]
pub fn is_word(wanted: &str, word: Word<'_>) -> bool
    ensures { result ≡ reads wanted.now (word_of word.entry) }
{
    match word {
        Word::Name(found) => wanted == found,
        Word::Number(_) => false,
        Word::Quoted(_) => false,
        Word::Symbol(_) => false,
        Word::Bullet(_, _) => false,
    }
}

/// The words that are no names.
const RESERVED: [&str; 13] = [
    "forall",
    "fun",
    "let",
    "in",
    "Prop",
    "Type",
    "match",
    "lazymatch",
    "multimatch",
    "with",
    "end",
    "rec",
    "as",
];

/// Whether a word is no name.
fn is_reserved(word: &str) -> bool
    ensures { result ≡ is_reserved word.now }
{
    RESERVED.contains(&word)
}

/// Whether a word is a name that is not reserved.
#[tactic(auto, unfolding(lq_sentences::specs::Words::is_name))]
pub fn is_name(word: Word<'_>) -> bool
    ensures { result ≡ is_name (word_of word.entry) }
{
    match word {
        Word::Name(found) => !is_reserved(found),
        Word::Number(_) => false,
        Word::Quoted(_) => false,
        Word::Symbol(_) => false,
        Word::Bullet(_, _) => false,
    }
}

/// Whether a word ends a part.
fn is_end(ends: Ends, word: Word<'_>) -> bool
    ensures { result ≡ reads (ends_of ends) (word_of word.entry) }
{
    match ends {
        Ends::Nothing => is_word("", word),
        Ends::Then => is_word("then", word),
        Ends::Else => is_word("else", word),
    }
}

/// Whether a word begins an atom.
fn begins_atom(word: Word<'_>) -> bool
    ensures { result ≡ begins_atom (word_of word.entry) }
{
    is_name(word)
        || is_symbol(Symbol::Underscore, word)
        || is_word("Prop", word)
        || is_word("Type", word)
        || is_symbol(Symbol::OpenRound, word)
        || is_symbol(Symbol::Question, word)
}

/// The greatest level of `Type`.
const TOP_LEVEL: u128 = 3;

/// Whether a word is the level of a sort.
fn is_level(word: Word<'_>) -> bool
    ensures { result ≡ is_level (word_of word.entry) }
{
    match word {
        Word::Number(level) => level <= TOP_LEVEL,
        Word::Symbol(_) => false,
        Word::Name(_) => false,
        Word::Quoted(_) => false,
        Word::Bullet(_, _) => false,
    }
}

/// Whether a word begins an expression.
fn begins_tactic(word: Word<'_>) -> bool
    ensures { result ≡ test_of Test.Tactic (word_of word.entry) }
{
    is_name(word)
        || is_number(word)
        || is_symbol(Symbol::OpenRound, word)
        || is_word("match", word)
        || is_word("lazymatch", word)
        || is_word("multimatch", word)
        || is_word("fun", word)
        || is_word("let", word)
}

/// Whether a word is a name that may be left out.
fn is_spare(ends: Ends, word: Word<'_>) -> bool
    ensures { result ≡ test_of (Test.Spare ends) (word_of word.entry) }
{
    is_name(word) && !is_end(ends, word)
}

/// Whether a word begins an atom that may be left out.
fn begins_argument(ends: Ends, word: Word<'_>) -> bool
    ensures { result ≡ test_of (Test.Argument ends) (word_of word.entry) }
{
    begins_atom(word) && !is_end(ends, word)
}

/// Whether a word is a sentence of its own.
fn is_mark(word: Word<'_>) -> bool
    ensures { result ≡ is_mark (word_of word.entry) }
{
    match word {
        Word::Bullet(_, count) => count != 5,
        Word::Symbol(_) => is_symbol(Symbol::OpenCurly, word)
            || is_symbol(Symbol::CloseCurly, word),
        Word::Name(_) => is_symbol(Symbol::OpenCurly, word) || is_symbol(Symbol::CloseCurly, word),
        Word::Number(_) => is_symbol(Symbol::OpenCurly, word)
            || is_symbol(Symbol::CloseCurly, word),
        Word::Quoted(_) => is_symbol(Symbol::OpenCurly, word)
            || is_symbol(Symbol::CloseCurly, word),
    }
}

/// Whether a name is the word of a command, but for `Fail`.
fn names_command(text: &str) -> bool
    ensures { result ≡ is_entry command_words (name text.now) }
{
    match command_named(text) {
        Some(_) => true,
        None => false,
    }
}

/// Whether a word begins a command, but for `Fail`.
fn is_command(word: Word<'_>) -> bool
    ensures { result ≡ is_entry command_words (word_of word.entry) }
{
    match word {
        Word::Name(text) => names_command(text),
        Word::Number(_) => false,
        Word::Quoted(_) => false,
        Word::Symbol(_) => false,
        Word::Bullet(_, _) => false,
    }
}

/// Whether a word passes a test.
#[tactic(auto, unfolding(lq_sentences::specs::Sentences::opens))]
pub fn passes(test: Test, word: Word<'_>) -> bool
    ensures { result ≡ test_of test (word_of word.entry) }
{
    match test {
        Test::Name => is_name(word),
        Test::Number => is_number(word),
        Test::Sign(symbol) => is_symbol(symbol, word),
        Test::Binder => is_name(word) || is_symbol(Symbol::Underscore, word),
        Test::Spare(ends) => is_spare(ends, word),
        Test::Atom => begins_atom(word),
        Test::Argument(ends) => begins_argument(ends, word),
        Test::Term => begins_atom(word)
            || is_word("forall", word)
            || is_word("fun", word)
            || is_word("let", word),
        Test::Level => is_level(word),
        Test::Message(ends) => is_quoted(word) || is_number(word) || is_spare(ends, word),
        Test::Amount(ends) => is_number(word) || is_spare(ends, word),
        Test::Count => is_number(word) || is_name(word),
        Test::Reduction => is_word("hnf", word) || is_word("compute", word),
        Test::Part(ends) => is_quoted(word) || is_spare(ends, word),
        Test::Arg(ends) => is_number(word) || begins_argument(ends, word),
        Test::Tactic => begins_tactic(word),
        Test::Opening(may_open) => may_open && is_symbol(Symbol::OpenCurly, word),
        Test::Mark => is_mark(word),
        Test::Rec => is_word("rec", word),
        Test::With => is_word("with", word),
        Test::Rim => is_symbol(Symbol::Bar, word)
            || is_symbol(Symbol::CloseSquare, word)
            || is_symbol(Symbol::Dots, word),
        Test::Filling(may_fill) => may_fill && is_symbol(Symbol::Dots, word),
        Test::Command => is_command(word),
    }
}
