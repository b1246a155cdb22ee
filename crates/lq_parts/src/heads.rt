//! Clauses of matches up to their `=>`.

ghost use Rattle.std.specs.Prelude.{◌≡◌, ◌≤◌, [], map};
ghost use Rattle.lq_ast.specs.Plain.{name_of};
ghost use Rattle.lq_ast.specs.PlainTactics.{plain_hyp};
ghost use Rattle.lq_ast.specs.Syntax.{Blank};
ghost use Rattle.lq_sentences.specs.Rules.{read};
ghost use Rattle.lq_sentences.specs.Patterns.{whole_behind, pattern};
ghost use Rattle.lq_sentences.specs.Patterns.{behind_name as pattern_behind_name};
ghost use Rattle.lq_phrases.specs.Views.{Gives};
ghost use Rattle.lq_parts.specs.Heads.{conclusion, sequent_behind, sequent, on_a_goal, on_a_term};
ghost use Rattle.lq_parts.specs.Heads.{behind_blank, behind_name, on_any, head_in, clause_head};
ghost use Rattle.lq_parts.specs.Views.{mode_of, head_of, head_on};

use crate::matches::{Mode, hyps_behind};
use lq_ast::{Hyp, Name, Pattern, Surface};
use lq_grammar::Symbol;
use lq_phrases::{
    Cursor, Refusal, Test, behind_name as pattern_behind_name, pattern, whole_behind,
};
use sqlite_items::Items;
use std::alloc::Global;

/// What stands before the `=>` of a clause.
#[derive(Drop)]
pub enum ClauseHead {
    /// `_`
    Any,
    /// A pattern.
    Pat(Pattern),
    /// `x : p, y : q |- r`
    Sequent(Items<Hyp>, Pattern),
}

/// `|- p` behind hypotheses.
fn conclusion(
    alloc: Global,
    cursor: &mut Cursor<'_, '_>,
    inside: usize,
    hyps: Items<Hyp>,
) -> Result<ClauseHead, Refusal>
    requires { inside ≤ 200 }
    ensures { Gives head_of (read (conclusion inside (map plain_hyp hyps)) cursor.old) result cursor.new }
{
    cursor.expect(inside, Symbol::Turnstile)?;
    let whole = pattern(alloc, cursor, inside)?;
    Ok(ClauseHead::Sequent(hyps, whole))
}

/// A head on the goal, behind the name of its first hypothesis.
fn sequent_behind(
    alloc: Global,
    cursor: &mut Cursor<'_, '_>,
    inside: usize,
    name: Option<Name>,
) -> Result<ClauseHead, Refusal>
    requires { inside ≤ 200 }
    ensures { Gives head_of (read (sequent_behind inside (name_of name)) cursor.old) result cursor.new }
{
    let hyps = hyps_behind(alloc, cursor, inside, name)?;
    conclusion(alloc, cursor, inside, hyps)
}

/// A head on the goal.
fn sequent(alloc: Global, cursor: &mut Cursor<'_, '_>, inside: usize) -> Result<ClauseHead, Refusal>
    requires { inside ≤ 200 }
    ensures { Gives head_of (read (sequent inside) cursor.old) result cursor.new }
{
    if cursor.sees(Test::Sign(Symbol::Turnstile)) {
        conclusion(alloc, cursor, inside, Items::new(alloc))
    } else {
        let bound = cursor.binder(alloc, inside)?;
        sequent_behind(alloc, cursor, inside, bound.name)
    }
}

/// A head on the goal behind a name, and that it is on the goal.
fn goal_behind(
    alloc: Global,
    cursor: &mut Cursor<'_, '_>,
    inside: usize,
    name: Option<Name>,
) -> Result<(ClauseHead, Mode), Refusal>
    requires { inside ≤ 200 }
    ensures { Gives head_on (read (on_a_goal (sequent_behind inside (name_of name))) cursor.old) result cursor.new }
{
    let head = sequent_behind(alloc, cursor, inside, name)?;
    Ok((head, Mode::Goal))
}

/// A head on the goal behind `_`.
#[tactic(auto, unfolding(lq_ast::specs::Plain::name_of))]
fn goal_behind_blank(
    alloc: Global,
    cursor: &mut Cursor<'_, '_>,
    inside: usize,
) -> Result<(ClauseHead, Mode), Refusal>
    requires { inside ≤ 200 }
    ensures { Gives head_on (read (on_a_goal (sequent_behind inside [])) cursor.old) result cursor.new }
{
    goal_behind(alloc, cursor, inside, None)
}

/// A head on the goal behind a name.
#[tactic(auto, unfolding(lq_ast::specs::Plain::name_of))]
fn goal_behind_name(
    alloc: Global,
    cursor: &mut Cursor<'_, '_>,
    inside: usize,
    name: Name,
) -> Result<(ClauseHead, Mode), Refusal>
    requires { inside ≤ 200 }
    ensures { Gives head_on (read (on_a_goal (sequent_behind inside name)) cursor.old) result cursor.new }
{
    goal_behind(alloc, cursor, inside, Some(name))
}

/// A pattern that begins with the `_` at that place.
#[tactic(auto, using(lq_ast::proofs::PlainLaws::plain_laws))]
fn blank_pattern(
    alloc: Global,
    cursor: &mut Cursor<'_, '_>,
    inside: usize,
    place: usize,
) -> Result<(ClauseHead, Mode), Refusal>
    requires { inside ≤ 200 }
    ensures { Gives head_on (read (on_a_term (whole_behind inside (Blank place))) cursor.old) result cursor.new }
{
    let whole = whole_behind(alloc, cursor, inside, Surface::Blank(place as u64))?;
    Ok((ClauseHead::Pat(whole), Mode::Term))
}

/// A head behind `_`.
fn behind_blank(
    alloc: Global,
    cursor: &mut Cursor<'_, '_>,
    inside: usize,
    mode: Mode,
    place: usize,
) -> Result<(ClauseHead, Mode), Refusal>
    requires { inside ≤ 200 }
    ensures { Gives head_on (read (behind_blank inside (mode_of mode) place) cursor.old) result cursor.new }
{
    if cursor.sees(Test::Sign(Symbol::FatArrow)) {
        return Ok((ClauseHead::Any, mode));
    }
    match mode {
        Mode::Goal => goal_behind_blank(alloc, cursor, inside),
        Mode::Term => blank_pattern(alloc, cursor, inside, place),
        Mode::Either => {
            if cursor.sees(Test::Sign(Symbol::Colon)) {
                goal_behind_blank(alloc, cursor, inside)
            } else {
                blank_pattern(alloc, cursor, inside, place)
            }
        }
    }
}

/// A head of a match that may be on either, behind a name.
fn behind_name(
    alloc: Global,
    cursor: &mut Cursor<'_, '_>,
    inside: usize,
    name: Name,
) -> Result<(ClauseHead, Mode), Refusal>
    requires { inside ≤ 200 }
    ensures { Gives head_on (read (behind_name inside name) cursor.old) result cursor.new }
{
    if cursor.sees(Test::Sign(Symbol::Colon)) {
        goal_behind_name(alloc, cursor, inside, name)
    } else {
        let whole = pattern_behind_name(alloc, cursor, inside, name)?;
        Ok((ClauseHead::Pat(whole), Mode::Term))
    }
}

/// A head that is a pattern.
fn whole_pattern(
    alloc: Global,
    cursor: &mut Cursor<'_, '_>,
    inside: usize,
) -> Result<(ClauseHead, Mode), Refusal>
    requires { inside ≤ 200 }
    ensures { Gives head_on (read (on_a_term (pattern inside)) cursor.old) result cursor.new }
{
    let whole = pattern(alloc, cursor, inside)?;
    Ok((ClauseHead::Pat(whole), Mode::Term))
}

/// A head of a match that may be on either, which does not begin with `_`.
fn on_any(
    alloc: Global,
    cursor: &mut Cursor<'_, '_>,
    inside: usize,
) -> Result<(ClauseHead, Mode), Refusal>
    requires { inside ≤ 200 }
    ensures { Gives head_on (read (on_any inside) cursor.old) result cursor.new }
{
    if cursor.sees(Test::Sign(Symbol::Turnstile)) {
        let head = conclusion(alloc, cursor, inside, Items::new(alloc))?;
        Ok((head, Mode::Goal))
    } else if cursor.sees(Test::Name) {
        let name = cursor.name(alloc, inside)?;
        behind_name(alloc, cursor, inside, name)
    } else {
        whole_pattern(alloc, cursor, inside)
    }
}

/// A head that does not begin with `_`.
fn head_in(
    alloc: Global,
    cursor: &mut Cursor<'_, '_>,
    inside: usize,
    mode: Mode,
) -> Result<(ClauseHead, Mode), Refusal>
    requires { inside ≤ 200 }
    ensures { Gives head_on (read (head_in inside (mode_of mode)) cursor.old) result cursor.new }
{
    match mode {
        Mode::Goal => {
            let head = sequent(alloc, cursor, inside)?;
            Ok((head, Mode::Goal))
        }
        Mode::Term => whole_pattern(alloc, cursor, inside),
        Mode::Either => on_any(alloc, cursor, inside),
    }
}

/// What stands before the `=>` of a clause, and what the match is on behind it.
pub fn clause_head(
    alloc: Global,
    cursor: &mut Cursor<'_, '_>,
    inside: usize,
    mode: Mode,
) -> Result<(ClauseHead, Mode), Refusal>
    requires { inside ≤ 200 }
    ensures { Gives head_on (read (clause_head inside (mode_of mode)) cursor.old) result cursor.new }
{
    if cursor.sees(Test::Sign(Symbol::Underscore)) {
        let next = cursor.take(inside, Test::Sign(Symbol::Underscore))?;
        behind_blank(alloc, cursor, inside, mode, next.place)
    } else {
        head_in(alloc, cursor, inside, mode)
    }
}
