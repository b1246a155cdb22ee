//! The words that are left.

ghost use Rattle.std.specs.Prelude.{◌≡◌, [], ◌∷◌, MatchOption};
ghost use Rattle.lq_sentences.specs.Words.{reads};
ghost use Rattle.lq_sentences.specs.Rules.{sees, read, read_word};
ghost use Rattle.lq_sentences.specs.Parts.{expect, expect_word, eat, a_number, a_name, a_binder};
ghost use Rattle.lq_phrases.specs.Views.{words_of, word_of, placed_of, test_of, binder_of, Gives, same, behind};

use crate::refusal::Refusal;
use crate::word::{Placed, Test, binder_of, is_word, name_of, passes, value_of};
use lq_ast::{Binder, Name};
use lq_grammar::Symbol;
use std::alloc::Global;
use std::marker::Model;

/// The words that are left.
#[derive(Drop)]
pub struct Cursor<'w, 't> {
    words: &'w [Placed<'t>],
}

impl<'w, 't> Model for Cursor<'w, 't> {
    ghost use Rattle.lq_sentences.specs.Words.{Words};
    ghost use Rattle.lq_phrases.specs.Views.{words_of};

    ghost Value = { Words };

    ghost view = { λ c. words_of c.words.now };
}

impl<'w, 't> Cursor<'w, 't> {
    /// All the words.
    pub fn new(words: &'w [Placed<'t>]) -> Cursor<'w, 't>
        ensures { result ≡ words_of words.now }
    {
        Cursor { words }
    }

    /// The next word.
    pub fn peek(&self) -> Option<Placed<'t>>
        ensures { MatchOption result (self.now ≡ []) (λ p. self.now ≡ (word_of p.word, p.place) ∷ behind self.now) }
    {
        match self.words {
            [next, ..] => Some(*next),
            [] => None,
        }
    }

    /// Whether the next word passes a test.
    #[tactic(auto, using(lq_sentences::proofs::WordLaws::sees_none, lq_sentences::proofs::WordLaws::sees_next))]
    pub fn sees(&self, test: Test) -> bool
        ensures { result ≡ sees (test_of test) self.now }
    {
        match self.peek() {
            Some(next) => passes(test, next.word),
            None => false,
        }
    }

    /// Whether the next word is that one.
    #[tactic(auto, using(lq_sentences::proofs::WordLaws::sees_none, lq_sentences::proofs::WordLaws::sees_next))]
    pub fn sees_word(&self, word: &str) -> bool
        ensures { result ≡ sees (reads word.now) self.now }
    {
        match self.peek() {
            Some(next) => is_word(word, next.word),
            None => false,
        }
    }

    /// Takes the next word.
    fn step(&mut self) -> Option<Placed<'t>>
        ensures { MatchOption result (self.old ≡ []) (λ p. self.old ≡ (word_of p.word, p.place) ∷ self.new) }
    {
        let words = self.words;
        match words {
            [] => None,
            [next, rest @ ..] => {
                self.words = rest;
                Some(*next)
            }
        }
    }

    /// Takes the next word, which is to pass a test. `levels` tells how many levels of nesting are left where it stands.
    #[tactic(auto, using(lq_sentences::proofs::WordLaws::word_laws))]
    pub fn take(&mut self, levels: usize, test: Test) -> Result<Placed<'t>, Refusal>
        ensures { Gives placed_of (read_word levels (test_of test) self.old) result self.new }
    {
        match self.step() {
            None => Err(Refusal::Ended),
            Some(next) => {
                if !passes(test, next.word) {
                    Err(Refusal::Unexpected(next.place))
                } else if levels == 0 {
                    Err(Refusal::TooNested(next.place))
                } else {
                    Ok(next)
                }
            }
        }
    }

    /// Takes that word.
    #[tactic(auto, using(lq_sentences::proofs::WordLaws::word_laws))]
    pub fn expect_word(&mut self, levels: usize, word: &str) -> Result<(), Refusal>
        ensures { Gives same (read (expect_word levels word.now) self.old) result self.new }
    {
        match self.step() {
            None => Err(Refusal::Ended),
            Some(next) => {
                if !is_word(word, next.word) {
                    Err(Refusal::Unexpected(next.place))
                } else if levels == 0 {
                    Err(Refusal::TooNested(next.place))
                } else {
                    Ok(())
                }
            }
        }
    }

    /// Takes that symbol.
    pub fn expect(&mut self, levels: usize, symbol: Symbol) -> Result<(), Refusal>
        ensures { Gives same (read (expect levels symbol) self.old) result self.new }
    {
        self.take(levels, Test::Sign(symbol))?;
        Ok(())
    }

    /// Takes the next word if it passes a test, and tells whether it does.
    pub fn eat(&mut self, levels: usize, test: Test) -> Result<bool, Refusal>
        ensures { Gives same (read (eat levels (test_of test)) self.old) result self.new }
    {
        if self.sees(test) {
            self.take(levels, test)?;
            Ok(true)
        } else {
            Ok(false)
        }
    }

    /// Takes a number.
    pub fn number(&mut self, levels: usize) -> Result<u128, Refusal>
        ensures { Gives same (read (a_number levels) self.old) result self.new }
    {
        let next = self.take(levels, Test::Number)?;
        Ok(value_of(next.word))
    }

    /// Takes a name.
    pub fn name(&mut self, alloc: Global, levels: usize) -> Result<Name, Refusal>
        ensures { Gives same (read (a_name levels) self.old) result self.new }
    {
        let next = self.take(levels, Test::Name)?;
        Ok(name_of(alloc, next.word)?)
    }

    /// Takes what may be bound.
    pub fn binder(&mut self, alloc: Global, levels: usize) -> Result<Binder, Refusal>
        ensures { Gives binder_of (read (a_binder levels) self.old) result self.new }
    {
        let next = self.take(levels, Test::Binder)?;
        Ok(binder_of(alloc, next)?)
    }
}
