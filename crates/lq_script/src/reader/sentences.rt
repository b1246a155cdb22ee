//! Sentences, read from tokens.

ghost use Rattle.std.specs.Prelude.{◌≡◌, ◌≤◌, length, map, IfOk};
ghost use Rattle.lq_output.specs.Grammar.{lone, sentence_of, tactic_of, tactics_of, theorem_behind};
ghost use Rattle.lq_script.specs.Reading.{Reads, plain_tokens};
ghost use Rattle.lq_script.specs.Rows.{row_behind, first_tactic, plain_row, row_len};
ghost use Rattle.lq_script.specs.Syntax.{plain_sentence, plain_tactic};

use crate::reader::fault::Unread;
use crate::reader::lexer::Token;
use crate::reader::names::name;
use crate::reader::terms::term;
use crate::syntax::{Sentence, Tactic};
use std::alloc::Global;

/// How many levels a term has: nesting 0 to 200.
const LEVELS: u8 = 201;

/// A tactic of two words.
#[tactic(auto, unfolding(lq_output::specs::Grammar::tactic_of, crate::specs::Reading::name_of))]
fn tactic(alloc: Global, word: &str, argument: &str) -> Result<Tactic, Unread>
    ensures { Reads plain_tactic result (tactic_of word.now argument.now) }
{
    let argument = name(alloc, argument)?;
    match word {
        "intro" => Ok(Tactic::Intro(argument)),
        "exact" => Ok(Tactic::Exact(argument)),
        _ => Err(Unread::Grammar),
    }
}

/// Behind a tactic: the tokens behind a `;`, or nothing at the end.
#[tactic(auto, unfolding(crate::specs::Rows::row_behind))]
fn row_behind<'s, 't>(tokens: &'s [Token<'t>]) -> Result<Option<&'s [Token<'t>]>, Unread>
    ensures value { Reads plain_row result (row_behind (plain_tokens tokens.now)) }
    ensures shorter { IfOk result (λ row. row_len row ≤ length tokens.now) }
{
    match tokens {
        [] => Ok(None),
        [Token::Semicolon, row @ ..] => Ok(Some(row)),
        _ => Err(Unread::Grammar),
    }
}

/// The tactic that a row of them begins with, and the row behind it.
#[tactic(auto, unfolding(crate::specs::Rows::first_tactic))]
fn first_tactic<'s, 't>(
    alloc: Global,
    tokens: &'s [Token<'t>],
) -> Result<(Tactic, Option<&'s [Token<'t>]>), Unread>
    ensures value { Reads (λ r. (plain_tactic r.0, plain_row r.1)) result (first_tactic (plain_tokens tokens.now)) }
    ensures shorter { IfOk result (λ r. row_len r.1 ≤ length tokens.now) }
{
    let [Token::Word(word), Token::Word(argument), behind @ ..] = tokens else {
        return Err(Unread::Grammar);
    };
    Ok((tactic(alloc, word, argument)?, row_behind(behind)?))
}

/// Tactics joined by `;`, up to the last token.
fn tactics(alloc: Global, tokens: &[Token<'_>]) -> Result<Vec<Tactic>, Unread>
    ensures { Reads (λ v. map plain_tactic v.items) result (tactics_of (plain_tokens tokens.now)) }
{
    let mut tactics = Vec::new(alloc);
    let mut rest = Some(tokens);
    while let Some(row) = rest {
        let (tactic, behind) = first_tactic(alloc, row)?;
        tactics.push(tactic)?;
        rest = behind;
    }
    Ok(tactics)
}

/// Behind `Theorem`: a name, `:` and a term, up to the last token.
#[tactic(auto, unfolding(lq_output::specs::Grammar::theorem_behind, lq_output::specs::Grammar::statement_of, crate::specs::Reading::name_of))]
fn theorem_behind(alloc: Global, tokens: &[Token<'_>]) -> Result<Sentence, Unread>
    ensures { Reads plain_sentence result (theorem_behind (plain_tokens tokens.now)) }
{
    let [Token::Word(theorem), Token::Colon, statement @ ..] = tokens else {
        return Err(Unread::Grammar);
    };
    let theorem = name(alloc, theorem)?;
    let (statement, rest) = term(alloc, LEVELS, statement)?;
    if !rest.is_empty() {
        return Err(Unread::Grammar);
    }
    Ok(Sentence::Theorem(theorem, statement))
}

/// A sentence of one word.
#[tactic(auto, unfolding(lq_output::specs::Grammar::lone))]
fn lone(word: &str) -> Result<Sentence, Unread>
    ensures { Reads plain_sentence result (lone word.now) }
{
    match word {
        "Proof" => Ok(Sentence::Proof),
        "Qed" => Ok(Sentence::Qed),
        _ => Err(Unread::Grammar),
    }
}

/// The sentence that the tokens are.
#[tactic(auto, unfolding(lq_output::specs::Grammar::sentence_of, lq_output::specs::Grammar::tactics_sentence))]
pub(crate) fn sentence(alloc: Global, tokens: &[Token<'_>]) -> Result<Sentence, Unread>
    ensures { Reads plain_sentence result (sentence_of (plain_tokens tokens.now)) }
{
    match tokens {
        [Token::Word(word)] => lone(word),
        [Token::Word("Theorem"), behind @ ..] => theorem_behind(alloc, behind),
        [Token::Word(_), ..] => Ok(Sentence::Tactics(tactics(alloc, tokens)?)),
        _ => Err(Unread::Grammar),
    }
}
