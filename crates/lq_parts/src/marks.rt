//! Sentences that are a mark: braces and bullets.

ghost use Rattle.std.specs.Prelude.{◌≡◌};
ghost use Rattle.lq_ast.specs.PlainCommands.{plain_sentence};
ghost use Rattle.lq_sentences.specs.Rules.{read};
ghost use Rattle.lq_sentences.specs.Sentences.{may_open, brace_of, mark_of, whole_open, whole_mark};
ghost use Rattle.lq_phrases.specs.Views.{word_of, Gives};

use crate::selectors::selector;
use lq_ast::{Range, Selector, Sentence};
use lq_grammar::Symbol;
use lq_phrases::{Cursor, Refusal, Test, Word, is_symbol};
use std::alloc::Global;

/// Whether a `{` may stand behind a selector.
fn may_open(selector: &Selector) -> bool
    ensures { result ≡ may_open selector.now }
{
    match selector {
        Selector::Ranges(ranges) => match ranges.as_slice() {
            [Range::Single(_)] => true,
            _ => false,
        },
        Selector::Named(_) => true,
        Selector::All => false,
        Selector::Sole => false,
        Selector::Par => false,
    }
}

/// A selector and `{`.
#[tactic(auto, unfolding(lq_ast::specs::PlainCommands::plain_sentence, lq_sentences::specs::Sentences::whole_open))]
pub fn opened(alloc: Global, cursor: &mut Cursor<'_, '_>) -> Result<Sentence, Refusal>
    ensures { Gives plain_sentence (read whole_open cursor.old) result cursor.new }
{
    let chosen = selector(alloc, cursor)?;
    cursor.take(201, Test::Opening(may_open(&chosen)))?;
    Ok(Sentence::Open(Some(chosen)))
}

/// The sentence that a mark is.
#[tactic(auto, unfolding(lq_ast::specs::PlainCommands::plain_sentence))]
fn mark_of(word: Word<'_>) -> Sentence
    ensures { plain_sentence result ≡ mark_of (word_of word.entry) }
{
    match word {
        Word::Bullet(mark, count) => Sentence::Bullet(mark, count),
        Word::Symbol(_) => brace(word),
        Word::Name(_) => brace(word),
        Word::Number(_) => brace(word),
        Word::Quoted(_) => brace(word),
    }
}

/// The sentence that a brace is.
#[tactic(auto, unfolding(lq_ast::specs::PlainCommands::plain_sentence))]
fn brace(word: Word<'_>) -> Sentence
    ensures { plain_sentence result ≡ brace_of (word_of word.entry) }
{
    if is_symbol(Symbol::OpenCurly, word) {
        Sentence::Open(None)
    } else {
        Sentence::Close
    }
}

/// A brace or a bullet.
#[tactic(auto, unfolding(lq_sentences::specs::Sentences::whole_mark))]
pub fn mark(cursor: &mut Cursor<'_, '_>) -> Result<Sentence, Refusal>
    ensures { Gives plain_sentence (read whole_mark cursor.old) result cursor.new }
{
    let next = cursor.take(201, Test::Mark)?;
    Ok(mark_of(next.word))
}
