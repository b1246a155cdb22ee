//! What rows come to.

use crate::shapes::{fails, is_selected, shape};
use lq_lex::{Piece, cut};
use lq_row_texts::{RowFault, text_of};
use lq_syntax::{Sentence, SyntaxFault, read_sentence};
use std::alloc::Global;

/// The word of a text that is read and dropped on the stack of another thread.
pub(crate) const APART: &str = "apart";

/// What is next in a text.
#[derive(Drop)]
enum Next {
    /// A sentence, and the place behind its tokens.
    Read(Sentence, usize),
    /// No sentence, and why.
    Refused(SyntaxFault),
    /// The text has no more tokens, or a fault among them.
    Nothing,
}

/// The sentence at or after a place.
fn sentence_at(alloc: Global, text: &[u8], from: usize) -> Next {
    match cut(alloc, text, from, true) {
        Ok(Piece::Sentence(tokens, end)) => match read_sentence(alloc, text, &tokens) {
            Ok(found) => Next::Read(found, end),
            Err(fault) => Next::Refused(fault),
        },
        Ok(Piece::End) => Next::Nothing,
        Ok(Piece::More) => Next::Nothing,
        Err(_) => Next::Nothing,
    }
}

/// What a sentence is, in words.
fn written(alloc: Global, found: &Sentence) -> Result<String, RowFault> {
    let count = fails(found);
    let mark = if is_selected(found) { "selected " } else { "" };
    let word = shape(found);
    if count == 0 {
        Ok(format!(in alloc; "{mark}{word}")?)
    } else {
        Ok(format!(in alloc; "{count} Fail, {mark}{word}")?)
    }
}

/// What the first sentence of a text is.
fn first(alloc: Global, text: &[u8]) -> Result<String, RowFault> {
    match sentence_at(alloc, text, 0) {
        Next::Read(found, end) => {
            let text = written(alloc, &found)?;
            Ok(format!(in alloc; "{text}, to {end}")?)
        }
        Next::Refused(fault) => Ok(format!(in alloc; "{fault}")?),
        Next::Nothing => Ok(format!(in alloc; "nothing")?),
    }
}

/// How many sentences a text has, up to one that has a fault.
fn counted(alloc: Global, text: &[u8]) -> Result<String, RowFault> {
    let mut from = 0;
    for count in 0..text.len() + 1 {
        match sentence_at(alloc, text, from) {
            Next::Read(_, end) => from = end,
            Next::Refused(fault) => return Ok(format!(in alloc; "{count}, then {fault}")?),
            Next::Nothing => return Ok(format!(in alloc; "{count}")?),
        }
    }
    Err(RowFault::Malformed)
}

/// What a line comes to.
pub(crate) fn told(alloc: Global, line: &str) -> Result<String, RowFault> {
    let Some((word, text)) = line.split_once(' ') else {
        return Err(RowFault::Malformed);
    };
    let text = text_of(alloc, text)?;
    match word {
        "read" | APART => first(alloc, &text),
        "all" => counted(alloc, &text),
        _ => Err(RowFault::Malformed),
    }
}
