//! Selectors.

ghost use Rattle.std.specs.Prelude.{◌≡◌};
ghost use Rattle.lq_grammar.specs.declared.token.Symbol.TheVariants.{Comma};
ghost use Rattle.lq_sentences.specs.Words.{is_sign};
ghost use Rattle.lq_sentences.specs.Rules.{read};
ghost use Rattle.lq_sentences.specs.Parts.{many};
ghost use Rattle.lq_sentences.specs.Sentences.{range, ranges, named, selected, selector, all_levels};
ghost use Rattle.lq_phrases.specs.Views.{Gives, same};

use lq_ast::{Range, Selector};
use lq_grammar::Symbol;
use lq_phrases::{Cursor, Refusal, Test};
use sqlite_items::Items;
use std::alloc::Global;

/// `n` or `n-m`
fn range(cursor: &mut Cursor<'_, '_>) -> Result<Range, Refusal>
    ensures { Gives same (read range cursor.old) result cursor.new }
{
    let first = cursor.number(201)?;
    if cursor.sees(Test::Sign(Symbol::Minus)) {
        cursor.expect(201, Symbol::Minus)?;
        let last = cursor.number(201)?;
        Ok(Range::Span(first, last))
    } else {
        Ok(Range::Single(first))
    }
}

/// The ranges behind those found so far.
#[tactic(auto, using(lq_phrases::proofs::Loops::loops))]
fn more_ranges(cursor: &mut Cursor<'_, '_>, found: Items<Range>) -> Result<Items<Range>, Refusal>
    ensures { Gives same (read (many all_levels (is_sign Comma) (λ w. range) found) cursor.old) result cursor.new }
{
    let mut all = found;
    while cursor.sees(Test::Sign(Symbol::Comma)) {
        cursor.take(201, Test::Sign(Symbol::Comma))?;
        all.push(range(cursor)?)?;
    }
    Ok(all)
}

/// Ranges with commas between.
fn ranges(alloc: Global, cursor: &mut Cursor<'_, '_>) -> Result<Selector, Refusal>
    ensures { Gives same (read ranges cursor.old) result cursor.new }
{
    let mut found = Items::new(alloc);
    found.push(range(cursor)?)?;
    Ok(Selector::Ranges(more_ranges(cursor, found)?))
}

/// `[x]`
fn named(alloc: Global, cursor: &mut Cursor<'_, '_>) -> Result<Selector, Refusal>
    ensures { Gives same (read named cursor.old) result cursor.new }
{
    cursor.expect(201, Symbol::OpenSquare)?;
    let name = cursor.name(alloc, 200)?;
    cursor.expect(201, Symbol::CloseSquare)?;
    Ok(Selector::Named(name))
}

/// A selector without its colon.
fn selected(alloc: Global, cursor: &mut Cursor<'_, '_>) -> Result<Selector, Refusal>
    ensures { Gives same (read selected cursor.old) result cursor.new }
{
    if cursor.sees(Test::Number) {
        ranges(alloc, cursor)
    } else if cursor.sees(Test::Sign(Symbol::OpenSquare)) {
        named(alloc, cursor)
    } else if cursor.sees(Test::Sign(Symbol::Bang)) {
        cursor.expect(201, Symbol::Bang)?;
        Ok(Selector::Sole)
    } else if cursor.sees_word("par") {
        cursor.expect_word(201, "par")?;
        Ok(Selector::Par)
    } else {
        cursor.expect_word(201, "all")?;
        Ok(Selector::All)
    }
}

/// A selector with its colon.
#[tactic(auto, unfolding(lq_sentences::specs::Sentences::selector))]
pub fn selector(alloc: Global, cursor: &mut Cursor<'_, '_>) -> Result<Selector, Refusal>
    ensures { Gives same (read selector cursor.old) result cursor.new }
{
    let chosen = selected(alloc, cursor)?;
    cursor.expect(201, Symbol::Colon)?;
    Ok(chosen)
}
