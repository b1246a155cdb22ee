//! Patterns, and terms in brackets.

ghost use Rattle.std.specs.Prelude.{◌≡◌, ◌≤◌, codes, IfOk};
ghost use Rattle.lq_ast.specs.Syntax.{Applied, Ident};
ghost use Rattle.lq_ast.specs.Plain.{plain, plain_pattern};
ghost use Rattle.lq_sentences.specs.Rules.{read};
ghost use Rattle.lq_sentences.specs.Terms.{term_behind};
ghost use Rattle.lq_sentences.specs.Patterns.{pattern_spot, square_term, round_term, whole_behind};
ghost use Rattle.lq_sentences.specs.Patterns.{inside, behind_context, behind_context_name, behind_name, pattern};
ghost use Rattle.lq_phrases.specs.Views.{spot_of, Gives};

use crate::cursor::Cursor;
use crate::refusal::Refusal;
use crate::terms::{arrow, term};
use crate::word::{Ends, Spot, Test};
use lq_ast::{Name, Pattern, Surface};
use lq_grammar::Symbol;
use sqlite_items::{Boxed, Items};
use std::alloc::{AllocError, Global};

/// Where a pattern stands.
const PATTERN: Spot = Spot {
    is_pattern: true,
    ends: Ends::Nothing,
};

/// Where a term stands that no word ends.
pub const FREE: Spot = Spot {
    is_pattern: false,
    ends: Ends::Nothing,
};

/// `[t]`
pub fn square_term(
    alloc: Global,
    cursor: &mut Cursor<'_, '_>,
    levels: usize,
    spot: Spot,
) -> Result<Surface, Refusal>
    requires { levels ≤ 201 }
    ensures { Gives plain (read (square_term levels (spot_of spot)) cursor.old) result cursor.new }
{
    cursor.expect(levels, Symbol::OpenSquare)?;
    let whole = term(alloc, cursor, levels.saturating_sub(1), spot)?;
    cursor.expect(levels, Symbol::CloseSquare)?;
    Ok(whole)
}

/// `(t)`
pub fn round_term(
    alloc: Global,
    cursor: &mut Cursor<'_, '_>,
    levels: usize,
) -> Result<Surface, Refusal>
    requires { levels ≤ 201 }
    ensures { Gives plain (read (round_term levels) cursor.old) result cursor.new }
{
    cursor.expect(levels, Symbol::OpenRound)?;
    let whole = term(alloc, cursor, levels.saturating_sub(1), FREE)?;
    cursor.expect(levels, Symbol::CloseRound)?;
    Ok(whole)
}

/// What a term goes on with behind its first atom, which is in a pattern.
#[tactic(auto, using(crate::proofs::TermLaws::behind_zero, crate::proofs::TermLaws::behind_down))]
fn behind_atom(
    alloc: Global,
    cursor: &mut Cursor<'_, '_>,
    levels: usize,
    first: Surface,
) -> Result<Surface, Refusal>
    requires { levels ≤ 201 }
    ensures { Gives plain (read (term_behind levels pattern_spot (plain first)) cursor.old) result cursor.new }
{
    if levels == 0 {
        Ok(first)
    } else {
        arrow(alloc, cursor, levels - 1, PATTERN, first)
    }
}

/// A pattern that is a term, behind its first atom.
#[tactic(auto, using(crate::proofs::TermLaws::patterns))]
pub fn whole_behind(
    alloc: Global,
    cursor: &mut Cursor<'_, '_>,
    levels: usize,
    first: Surface,
) -> Result<Pattern, Refusal>
    requires { levels ≤ 201 }
    ensures { Gives plain_pattern (read (whole_behind levels (plain first)) cursor.old) result cursor.new }
{
    Ok(Pattern::Whole(behind_atom(alloc, cursor, levels, first)?))
}

/// `[t]` behind `context` and its name.
#[tactic(auto, using(crate::proofs::TermLaws::patterns))]
fn inside(
    alloc: Global,
    cursor: &mut Cursor<'_, '_>,
    levels: usize,
    name: Option<Name>,
) -> Result<Pattern, Refusal>
    requires { levels ≤ 201 }
    ensures { Gives plain_pattern (read (inside levels name) cursor.old) result cursor.new }
{
    Ok(Pattern::Inside(name, square_term(alloc, cursor, levels, PATTERN)?))
}

/// The name `context`.
#[tactic(auto, using(lq_ast::proofs::PlainLaws::plain_laws))]
fn context_name(alloc: Global) -> Result<Surface, AllocError>
    ensures { IfOk result (λ t. plain t ≡ Ident (codes "context")) }
{
    Ok(Surface::Ident(Name::from_str(alloc, "context")?))
}

/// `context x` as a function and its argument.
#[tactic(auto, using(lq_ast::proofs::PlainLaws::plain_laws, crate::proofs::TermLaws::trees), unfolding(lq_ast::specs::Syntax::applied))]
fn context_of(alloc: Global, name: Name) -> Result<Surface, AllocError>
    ensures { IfOk result (λ t. plain t ≡ Applied (Ident (codes "context")) (Ident name)) }
{
    let mut arguments = Items::new(alloc);
    arguments.push(Surface::Ident(name))?;
    Ok(Surface::Apply(Boxed::new(alloc, context_name(alloc)?)?, arguments))
}

/// What stands behind `context` and a name.
fn behind_context_name(
    alloc: Global,
    cursor: &mut Cursor<'_, '_>,
    levels: usize,
    name: Name,
) -> Result<Pattern, Refusal>
    requires { levels ≤ 201 }
    ensures { Gives plain_pattern (read (behind_context_name levels name) cursor.old) result cursor.new }
{
    if cursor.sees(Test::Sign(Symbol::OpenSquare)) {
        inside(alloc, cursor, levels, Some(name))
    } else {
        let first = context_of(alloc, name)?;
        whole_behind(alloc, cursor, levels, first)
    }
}

/// What stands behind `context`.
fn behind_context(
    alloc: Global,
    cursor: &mut Cursor<'_, '_>,
    levels: usize,
) -> Result<Pattern, Refusal>
    requires { levels ≤ 201 }
    ensures { Gives plain_pattern (read (behind_context levels) cursor.old) result cursor.new }
{
    if cursor.sees(Test::Sign(Symbol::OpenSquare)) {
        inside(alloc, cursor, levels, None)
    } else if cursor.sees(Test::Name) {
        let name = cursor.name(alloc, levels)?;
        behind_context_name(alloc, cursor, levels, name)
    } else {
        let first = context_name(alloc)?;
        whole_behind(alloc, cursor, levels, first)
    }
}

/// What stands behind a name that begins a pattern.
#[tactic(auto, using(lq_ast::proofs::PlainLaws::plain_laws))]
pub fn behind_name(
    alloc: Global,
    cursor: &mut Cursor<'_, '_>,
    levels: usize,
    name: Name,
) -> Result<Pattern, Refusal>
    requires { levels ≤ 201 }
    ensures { Gives plain_pattern (read (behind_name levels name) cursor.old) result cursor.new }
{
    if name.as_str() == "context" {
        behind_context(alloc, cursor, levels)
    } else {
        whole_behind(alloc, cursor, levels, Surface::Ident(name))
    }
}

/// A pattern.
#[tactic(auto, using(crate::proofs::TermLaws::patterns))]
pub fn pattern(
    alloc: Global,
    cursor: &mut Cursor<'_, '_>,
    levels: usize,
) -> Result<Pattern, Refusal>
    requires { levels ≤ 201 }
    ensures { Gives plain_pattern (read (pattern levels) cursor.old) result cursor.new }
{
    if cursor.sees_word("context") {
        cursor.expect_word(levels, "context")?;
        behind_context(alloc, cursor, levels)
    } else {
        Ok(Pattern::Whole(term(alloc, cursor, levels, PATTERN)?))
    }
}
