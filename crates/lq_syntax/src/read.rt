//! The sentence that the tokens of a text are.

ghost use Rattle.std.specs.Prelude.{◌≡◌, false, length};
ghost use Rattle.lq_sentences.specs.Words.{words};
ghost use Rattle.lq_sentences.specs.Reading.{is_too_long, sentence, with_faults, read_sentence};
ghost use Rattle.lq_sentences.proofs.PlaceLaws.{Rising};
ghost use Rattle.lq_phrases.specs.Views.{words_of};
ghost use Rattle.lq_spelling.specs.Spellings.{IsCut};
ghost use Rattle.lq_syntax.specs.Answers.{Answers, IsFaultPlaced, Faults};

use crate::wholes::sentence;
use lq_ast::Sentence;
use lq_grammar::Token;
use lq_lex::Tokens;
use lq_phrases::{Placed, Refusal};
use lq_sentences::SyntaxFault;
use lq_spelling::{is_too_long, sentence_start, words};
use std::alloc::Global;

/// The fault of a text of that length whose words are refused.
fn fault_of(len: usize, refusal: Refusal) -> SyntaxFault
    ensures { Faults result len refusal }
{
    match refusal {
        Refusal::Unexpected(place) => SyntaxFault::Unexpected(place),
        Refusal::TooNested(place) => SyntaxFault::TooNested(place),
        Refusal::Ended => SyntaxFault::EndInside(len),
        Refusal::NoMemory => SyntaxFault::NoMemory,
    }
}

/// The sentence that words are, or their fault in a text of that length.
fn sentence_or_fault(
    alloc: Global,
    words: &[Placed<'_>],
    len: usize,
) -> Result<Sentence, SyntaxFault>
    requires { Rising (words_of words.now) }
    ensures { Answers result (with_faults len (sentence (words_of words.now))) }
{
    match sentence(alloc, words) {
        Ok(whole) => Ok(whole),
        Err(refusal) => Err(fault_of(len, refusal)),
    }
}

/// The sentence that the tokens are, which are not too long.
fn sentence_of(alloc: Global, text: &[u8], tokens: &[Token]) -> Result<Sentence, SyntaxFault>
    requires cut { IsCut text.now tokens.now }
    requires short { is_too_long text.now tokens.now ≡ false }
    ensures { Answers result (with_faults (length text.now) (sentence (words text.now tokens.now))) }
{
    let found = words(alloc, text, tokens)?;
    sentence_or_fault(alloc, &found, text.len())
}

/// The syntax tree of a sentence, of which `tokens` are the tokens: those that `cut` gave on this text, or those that can be looked at of a
/// text that goes on.
///
/// The tree is the one that the grammar has for these tokens (Rocq reference manual: "Ltac", "Proof mode", "Inductive types").
/// Places count in bytes from the start of the text. Brackets have no node.
///
/// # Errors
///
/// Where the tokens are no sentence of the grammar:
///
/// - `SentenceTooLong` with the start of the sentence, where the tokens don't end a sentence and the text goes on for 65,536
///   bytes from there.
/// - `EndInside` with the length of the text, where the text ends inside a sentence: some sentence begins with the tokens.
/// - `Unexpected` with the start of the first token with which no sentence goes on: some sentence begins with those before it.
/// - `TooNested` with the start of such a token where it stands 201 levels deep, and a sentence could go on with it but for
///   that.
///
/// `NoMemory` where there is no memory for the tree.
pub fn read_sentence(alloc: Global, text: &[u8], tokens: &Tokens) -> Result<Sentence, SyntaxFault>
    requires { IsCut text.now tokens.now }
    ensures answer { Answers result (read_sentence text.now tokens.now) }
    ensures placed { IsFaultPlaced text.now tokens.now result }
{
    let tokens = tokens.as_slice();
    if is_too_long(text, tokens) {
        Err(SyntaxFault::SentenceTooLong(sentence_start(tokens)))
    } else {
        sentence_of(alloc, text, tokens)
    }
}
