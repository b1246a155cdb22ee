//! Names, and the words that are none.

ghost use Rattle.std.specs.Prelude.{◌≡◌, string_bytes};
ghost use Rattle.lq_trees.specs.Fresh.{is_listed};
ghost use Rattle.lq_output.specs.Grammar.{reserved, begins_name, is_name};
ghost use Rattle.lq_script.specs.Reading.{Reads, name_of};

use crate::reader::fault::Unread;
use crate::reader::lexer::is_letter;
use std::alloc::Global;

/// The words that are no names.
const RESERVED: [&str; 13] = [
    "forall",
    "fun",
    "let",
    "in",
    "Prop",
    "Type",
    "match",
    "lazymatch",
    "multimatch",
    "with",
    "end",
    "rec",
    "as",
];

#[tactic(auto, unfolding(lq_trees::specs::Fresh::is_listed))]
fn is_reserved(word: &str) -> bool
    ensures { result ≡ is_listed reserved word.now }
{
    RESERVED.contains(&word)
}

fn begins_name(word: &str) -> bool
    ensures { result ≡ begins_name word.now }
{
    match word.as_bytes() {
        [] => false,
        [first, ..] => is_letter(*first),
    }
}

#[tactic(auto, unfolding(lq_output::specs::Grammar::is_name))]
fn is_name(word: &str) -> bool
    ensures { result ≡ is_name word.now }
{
    begins_name(word) && word.len() <= 255 && !is_reserved(word)
}

/// A word as a name.
#[tactic(auto, unfolding(crate::specs::Reading::name_of))]
pub(crate) fn name(alloc: Global, word: &str) -> Result<String, Unread>
    ensures { Reads string_bytes result (name_of word.now) }
{
    if !is_name(word) {
        return Err(Unread::Grammar);
    }
    Ok(String::from_str(alloc, word)?)
}
