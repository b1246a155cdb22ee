//! Reading: where a sentence ends, and the sentence that a text is.

ghost use Rattle.std.specs.Prelude.{◌≡◌, IfOk};
ghost use Rattle.std.specs.Option.{option_map};
ghost use Rattle.lq_output.specs.Grammar.{is_short, read};
ghost use Rattle.lq_script.specs.Reading.{Reads};
ghost use Rattle.lq_script.specs.Syntax.{plain_sentence};

mod ends;
mod fault;
mod lexer;
mod names;
mod sentences;
mod terms;

use crate::syntax::Sentence;
pub(crate) use ends::sentence_end;
use fault::Unread;
pub(crate) use lexer::behind_blanks;
use lexer::tokens;
use lq_terms::NoMemory;
use sentences::sentence;
use std::alloc::Global;

/// How many bytes a sentence has at most, counted from its first byte that is no blank, with its dot.
const LONGEST: usize = 65_536;

#[tactic(auto, unfolding(lq_output::specs::Grammar::is_short))]
fn is_short(text: &[u8]) -> bool
    ensures { result ≡ is_short text.now }
{
    behind_blanks(text).len() < LONGEST
}

#[tactic(auto, unfolding(lq_output::specs::Grammar::read))]
fn whole(alloc: Global, text: &[u8]) -> Result<Sentence, Unread>
    ensures { Reads plain_sentence result (read text.now) }
{
    if !is_short(text) {
        return Err(Unread::Grammar);
    }
    let tokens = tokens(alloc, text)?;
    sentence(alloc, &tokens)
}

/// The sentence that a text without its dot is; nothing where it is none, or is too long.
///
/// # Errors
///
/// `NoMemory` where there is no memory for its tokens or its tree.
pub(crate) fn read(alloc: Global, text: &[u8]) -> Result<Option<Sentence>, NoMemory>
    ensures { IfOk result (λ sentence. option_map plain_sentence sentence ≡ read text.now) }
{
    match whole(alloc, text) {
        Ok(sentence) => Ok(Some(sentence)),
        Err(Unread::Grammar) => Ok(None),
        Err(Unread::Memory) => Err(NoMemory),
    }
}
