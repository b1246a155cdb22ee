//! What a match is on, and the hypotheses of its clauses.

ghost use Rattle.std.specs.Prelude.{◌≡◌, ◌≤◌, map, IfOk};
ghost use Rattle.lq_ast.specs.Syntax.{Ident};
ghost use Rattle.lq_ast.specs.Plain.{name_of, plain};
ghost use Rattle.lq_ast.specs.PlainTactics.{plain_hyp, plain_matched};
ghost use Rattle.lq_grammar.specs.declared.token.Symbol.TheVariants.{Comma};
ghost use Rattle.lq_sentences.specs.Words.{is_sign};
ghost use Rattle.lq_sentences.specs.Rules.{read};
ghost use Rattle.lq_sentences.specs.Parts.{many};
ghost use Rattle.lq_sentences.specs.Terms.{atom_level};
ghost use Rattle.lq_sentences.specs.Patterns.{free_spot};
ghost use Rattle.lq_sentences.specs.Matches.{hyp_behind, hyp, hyps_behind, head_behind_reverse, head_behind_constr, match_head, matched_of};
ghost use Rattle.lq_phrases.specs.Views.{free, Gives};
ghost use Rattle.lq_parts.specs.Views.{match_of, mode_of};

use lq_ast::{Hyp, Matched, Name, Surface};
use lq_grammar::Symbol;
use lq_phrases::{Cursor, FREE, Refusal, Test, atom, pattern, round_term};
use sqlite_items::Items;
use std::alloc::{AllocError, Global};

/// What a match is on, as far as its clauses tell.
#[derive(Clone, Copy)]
pub enum Mode {
    /// The goal.
    Goal,
    /// A term.
    Term,
    /// `goal`, which may be either.
    Either,
}

/// `: p` behind the name of a hypothesis.
#[tactic(auto, unfolding(lq_ast::specs::PlainTactics::plain_hyp))]
fn hyp_behind(
    alloc: Global,
    cursor: &mut Cursor<'_, '_>,
    levels: usize,
    name: Option<Name>,
) -> Result<Hyp, Refusal>
    requires { levels ≤ 201 }
    ensures { Gives plain_hyp (read (hyp_behind levels (name_of name)) cursor.old) result cursor.new }
{
    cursor.expect(levels, Symbol::Colon)?;
    let pattern = pattern(alloc, cursor, levels)?;
    Ok(Hyp { name, pattern })
}

/// A hypothesis.
fn hyp(alloc: Global, cursor: &mut Cursor<'_, '_>, levels: usize) -> Result<Hyp, Refusal>
    requires { levels ≤ 201 }
    ensures { Gives plain_hyp (read (hyp levels) cursor.old) result cursor.new }
{
    let bound = cursor.binder(alloc, levels)?;
    hyp_behind(alloc, cursor, levels, bound.name)
}

/// The hypotheses behind those found so far.
#[tactic(auto, using(lq_phrases::proofs::Loops::loops))]
fn more_hyps(
    alloc: Global,
    cursor: &mut Cursor<'_, '_>,
    levels: usize,
    found: &mut Items<Hyp>,
) -> Result<(), Refusal>
    requires { levels ≤ 201 }
    ensures { Gives (λ u. map plain_hyp found.new)
        (read (many levels (is_sign Comma) (λ w. hyp levels) (map plain_hyp found.old)) cursor.old) result cursor.new }
{
    while cursor.sees(Test::Sign(Symbol::Comma)) {
        cursor.take(levels, Test::Sign(Symbol::Comma))?;
        found.push(hyp(alloc, cursor, levels)?)?;
    }
    Ok(())
}

/// Hypotheses with commas between, behind the name of the first.
pub fn hyps_behind(
    alloc: Global,
    cursor: &mut Cursor<'_, '_>,
    levels: usize,
    name: Option<Name>,
) -> Result<Items<Hyp>, Refusal>
    requires { levels ≤ 201 }
    ensures { Gives (map plain_hyp) (read (hyps_behind levels (name_of name)) cursor.old) result cursor.new }
{
    let first = hyp_behind(alloc, cursor, levels, name)?;
    let mut found = Items::new(alloc);
    found.push(first)?;
    more_hyps(alloc, cursor, levels, &mut found)?;
    Ok(found)
}

/// A name as a term.
#[tactic(auto, using(lq_ast::proofs::PlainLaws::plain_laws))]
pub fn ident(alloc: Global, text: &str) -> Result<Surface, AllocError>
    ensures { IfOk result (λ t. plain t ≡ Ident text.now) }
{
    Ok(Surface::Ident(Name::from_str(alloc, text)?))
}

/// The term that a match is on, where it is an atom.
#[tactic(auto, using(lq_ast::proofs::PlainLaws::plain_laws, lq_phrases::proofs::TermLaws::atom_zero, lq_phrases::proofs::TermLaws::atom_down))]
fn matched_atom(
    alloc: Global,
    cursor: &mut Cursor<'_, '_>,
    levels: usize,
) -> Result<Surface, Refusal>
    requires { levels ≤ 201 }
    ensures { Gives plain (read (atom_level levels free_spot) cursor.old) result cursor.new }
{
    if levels == 0 {
        cursor.take(0, Test::Atom)?;
        Ok(Surface::PropSort)
    } else {
        atom(alloc, cursor, levels - 1, FREE)
    }
}

/// What a match is on, behind `reverse`.
fn head_behind_reverse(
    alloc: Global,
    cursor: &mut Cursor<'_, '_>,
    inside: usize,
) -> Result<(bool, Surface, Mode), Refusal>
    requires { inside ≤ 200 }
    ensures { Gives match_of (read (head_behind_reverse (free inside)) cursor.old) result cursor.new }
{
    if cursor.sees_word("goal") {
        cursor.expect_word(inside, "goal")?;
        Ok((true, ident(alloc, "goal")?, Mode::Goal))
    } else {
        Ok((false, ident(alloc, "reverse")?, Mode::Term))
    }
}

/// What a match is on, behind `constr`.
fn head_behind_constr(
    alloc: Global,
    cursor: &mut Cursor<'_, '_>,
    inside: usize,
) -> Result<(bool, Surface, Mode), Refusal>
    requires { inside ≤ 200 }
    ensures { Gives match_of (read (head_behind_constr (free inside)) cursor.old) result cursor.new }
{
    if cursor.sees(Test::Sign(Symbol::Colon)) {
        cursor.expect(inside, Symbol::Colon)?;
        let subject = round_term(alloc, cursor, inside)?;
        Ok((false, subject, Mode::Term))
    } else {
        Ok((false, ident(alloc, "constr")?, Mode::Term))
    }
}

/// What a match is on: whether `reverse` is written, the term, and whether that is the goal.
pub fn match_head(
    alloc: Global,
    cursor: &mut Cursor<'_, '_>,
    inside: usize,
) -> Result<(bool, Surface, Mode), Refusal>
    requires { inside ≤ 200 }
    ensures { Gives match_of (read (match_head (free inside)) cursor.old) result cursor.new }
{
    if cursor.sees_word("reverse") {
        cursor.expect_word(inside, "reverse")?;
        head_behind_reverse(alloc, cursor, inside)
    } else if cursor.sees_word("constr") {
        cursor.expect_word(inside, "constr")?;
        head_behind_constr(alloc, cursor, inside)
    } else if cursor.sees_word("goal") {
        cursor.expect_word(inside, "goal")?;
        Ok((false, ident(alloc, "goal")?, Mode::Either))
    } else {
        let subject = matched_atom(alloc, cursor, inside)?;
        Ok((false, subject, Mode::Term))
    }
}

/// What is matched, by what the clauses are on.
#[tactic(auto, unfolding(lq_ast::specs::PlainTactics::plain_matched))]
pub fn matched_of(reversed: bool, subject: Surface, mode: Mode) -> Matched
    ensures { plain_matched result ≡ matched_of reversed (plain subject) (mode_of mode) }
{
    match mode {
        Mode::Term => Matched::Term(subject),
        Mode::Goal => Matched::Goal(reversed),
        Mode::Either => Matched::Goal(reversed),
    }
}
