//! Tokens with what they spell.

ghost use Rattle.std.specs.Prelude.{◌≡◌, ◌≤◌, IfOk, IsUtf8, slice_range, drop, length};
ghost use Rattle.lq_grammar.specs.declared.token.TokenKind.TheVariants.{Text};
ghost use Rattle.lq_sentences.specs.Words.{but_last, words, word_of as tree_of};
ghost use Rattle.lq_grammar.specs.Selectors.{spelled};
ghost use Rattle.lq_phrases.specs.Views.{words_of, word_of};
ghost use Rattle.lq_spelling.specs.Spellings.{Spells, IsReadable, AreReadable};

use lq_grammar::{Token, TokenKind};
use lq_phrases::{Placed, Word};
use std::alloc::{AllocError, Global};
use std::str::from_utf8;

/// The text between two places.
fn between(text: &[u8], start: usize, end: usize) -> &str
    requires spanned { (start ≤ end) × (end ≤ length text.now) }
    requires readable { IsUtf8 (slice_range text.now start end) }
    ensures { result.now ≡ slice_range text.now start end }
{
    match from_utf8(&text[start..end]) {
        Ok(found) => found,
        Err(_) => "",
    }
}

/// What stands between the quotes of a string.
fn inner(text: &[u8], token: Token) -> &str
    requires spanned { (token.start ≤ token.end) × (token.end ≤ length text.now) }
    requires spells { Spells Text (spelled text.now token) }
    ensures { result.now ≡ drop 1 (but_last (spelled text.now token)) }
{
    between(text, token.start + 1, token.end - 1)
}

/// The word that a token is.
#[tactic(auto, unfolding(lq_sentences::specs::Words::word_of))]
fn word_of<'t>(text: &'t [u8], token: Token) -> Word<'t>
    requires { IsReadable text.now token }
    ensures { word_of result ≡ tree_of token.kind (spelled text.now token) }
{
    match token.kind {
        TokenKind::Name => Word::Name(between(text, token.start, token.end)),
        TokenKind::Number(value) => Word::Number(value),
        TokenKind::Text => Word::Quoted(inner(text, token)),
        TokenKind::Symbol(symbol) => Word::Symbol(symbol),
        TokenKind::Bullet(character, count) => Word::Bullet(character, count),
    }
}

/// The words that the tokens of a text are, each with its place.
pub fn words<'t>(
    alloc: Global,
    text: &'t [u8],
    tokens: &[Token],
) -> Result<Vec<Placed<'t>>, AllocError>
    requires { AreReadable text.now tokens.now }
    ensures { IfOk result (λ ws. words_of ws.items ≡ words text.now tokens.now) }
{
    let mut found = Vec::new(alloc);
    'tokens: for token in tokens {
        found.push(Placed {
            word: word_of(text, *token),
            place: token.start,
        })?;
    }
    Ok(found)
}
