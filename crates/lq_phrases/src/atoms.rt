//! Atoms of terms with no term inside.

ghost use Rattle.std.specs.Prelude.{◌≡◌, ◌≤◌, ◌+◌, true};
ghost use Rattle.lq_ast.specs.Syntax.{TypeSort};
ghost use Rattle.lq_ast.specs.Plain.{plain};
ghost use Rattle.lq_sentences.specs.Rules.{read};
ghost use Rattle.lq_sentences.specs.Terms.{new_variable, behind_question, behind_type, level_of, is_level};
ghost use Rattle.lq_phrases.specs.Views.{word_of, spot_of, Gives};

use crate::cursor::Cursor;
use crate::refusal::Refusal;
use crate::word::{Spot, Test, Word};
use lq_ast::Surface;
use lq_grammar::Symbol;
use std::alloc::Global;

/// `[x]` behind the `?` at that place.
#[tactic(auto, using(lq_ast::proofs::PlainLaws::plain_laws))]
pub fn new_variable(
    alloc: Global,
    cursor: &mut Cursor<'_, '_>,
    inside: usize,
    place: usize,
) -> Result<Surface, Refusal>
    requires { inside ≤ 200 }
    ensures { Gives plain (read (new_variable inside place) cursor.old) result cursor.new }
{
    cursor.expect(inside + 1, Symbol::OpenSquare)?;
    let name = cursor.name(alloc, inside)?;
    cursor.expect(inside + 1, Symbol::CloseSquare)?;
    Ok(Surface::NewVar(name, place as u64))
}

/// The name behind a `?`, or a new variable where the term is no pattern.
#[tactic(auto, using(lq_ast::proofs::PlainLaws::plain_laws))]
pub fn question(
    alloc: Global,
    cursor: &mut Cursor<'_, '_>,
    inside: usize,
    spot: Spot,
    place: usize,
) -> Result<Surface, Refusal>
    requires { inside ≤ 200 }
    ensures { Gives plain (read (behind_question inside (spot_of spot) place) cursor.old) result cursor.new }
{
    if spot.is_pattern {
        Ok(Surface::Meta(cursor.name(alloc, inside + 1)?))
    } else {
        new_variable(alloc, cursor, inside, place)
    }
}

/// The level that a word is.
pub fn level_of(word: Word<'_>) -> u8
    requires { is_level (word_of word) ≡ true }
    ensures { TypeSort result ≡ level_of (word_of word.entry) }
{
    match word {
        Word::Number(level) => level as u8,
        Word::Symbol(_) => 0,
        Word::Name(_) => 0,
        Word::Quoted(_) => 0,
        Word::Bullet(_, _) => 0,
    }
}

/// The level behind `Type`.
#[tactic(auto, using(lq_ast::proofs::PlainLaws::plain_laws))]
pub fn type_sort(cursor: &mut Cursor<'_, '_>, levels: usize) -> Result<Surface, Refusal>
    ensures { Gives plain (read (behind_type levels) cursor.old) result cursor.new }
{
    let next = cursor.take(levels, Test::Level)?;
    Ok(Surface::TypeSort(level_of(next.word)))
}
