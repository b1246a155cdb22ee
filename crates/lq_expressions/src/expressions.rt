//! Ltac expressions. A function is given how many levels of nesting are left: `levels` for an expression of its own, or
//! `inside` for what stands inside the expression that it reads.

ghost use Rattle.std.specs.Prelude.{◌≡◌, ◌≤◌, ◌+◌, [], None, map, codes};
ghost use Rattle.lq_ast.specs.Plain.{plain};
ghost use Rattle.lq_ast.specs.Tactics.{first, solve};
ghost use Rattle.lq_ast.specs.PlainTactics.{plain_tac, plain_step, plain_clause, plain_binding, plain_arg};
ghost use Rattle.lq_grammar.specs.declared.token.Symbol.TheVariants.{Bar, Semicolon};
ghost use Rattle.lq_sentences.specs.Words.{is_sign, reads};
ghost use Rattle.lq_sentences.specs.Rules.{read};
ghost use Rattle.lq_sentences.specs.Parts.{many, separated};
ghost use Rattle.lq_sentences.specs.Arguments.{behind_ltac, argument_at, begins_arg, call, listed, branches, one_place};
ghost use Rattle.lq_sentences.specs.Matches.{right_side, clause, one_more, clauses, match_form};
ghost use Rattle.lq_sentences.specs.Tactics.{function_form, bind, let_form, form_of, do_form, tryif_form, prefixed, round_tac};
ghost use Rattle.lq_sentences.specs.Tactics.{named, basic_at, operated, basic, pre_at, pre_in, step, tac_in};
ghost use Rattle.lq_phrases.specs.declared.word.Ends.TheVariants.{Nothing};
ghost use Rattle.lq_phrases.specs.Views.{word_of, placed_of, ends_of, here, free, Gives};
ghost use Rattle.lq_parts.specs.Views.{mode_of, head_of};
ghost use Rattle.lq_expressions.specs.Views.{a_tac, a_pre, steps_behind, place, more_places, places_of, bindings, let_behind};
ghost use Rattle.lq_expressions.specs.Views.{match_clauses, clauses_found, right_of, more_clauses};

use crate::places::{Places, step_of};
use crate::trees::{discard, put_clause, sequence};
use lq_ast::{Arg, Binding, Clause, Manner, Name, Step, Surface, Tac};
use lq_grammar::Symbol;
use lq_parts::{
    ClauseHead, Mode, amount, clause_head, constr, context, cycle, eval, fail, fresh, gfail, ident,
    idtac, match_head, matched_of, primitive, swap, type_of,
};
use lq_phrases::{
    Cursor, Ends, Placed, Refusal, Spot, Test, Word, atom_at, form_named, is_number, is_symbol,
    is_word, names, prefix_named, primitive_named, some_names, text_of, value_of,
};
use lq_sentences::{Form, Prefix};
use sqlite_items::{Boxed, Items};
use std::alloc::Global;

/// An expression.
#[cycle(expressions)]
#[tactic(auto, using(lq_ast::proofs::TacticLaws::tactic_laws, crate::proofs::LevelLaws::tac_zero, crate::proofs::LevelLaws::tac_down))]
pub fn tac(
    alloc: Global,
    cursor: &mut Cursor<'_, '_>,
    levels: usize,
    ends: Ends,
) -> Result<Tac, Refusal>
    requires { levels ≤ 201 }
    ensures { Gives plain_tac (read (a_tac levels ends) cursor.old) result cursor.new }
{
    if levels == 0 {
        cursor.take(0, Test::Tactic)?;
        Ok(Tac::Shelve)
    } else {
        tac_in(alloc, cursor, levels - 1, ends)
    }
}

/// An expression without a `;`.
#[cycle(expressions)]
#[tactic(auto, using(lq_ast::proofs::TacticLaws::tactic_laws, crate::proofs::LevelLaws::pre_zero, crate::proofs::LevelLaws::pre_down))]
fn pre_tac(
    alloc: Global,
    cursor: &mut Cursor<'_, '_>,
    levels: usize,
    ends: Ends,
) -> Result<Tac, Refusal>
    requires { levels ≤ 201 }
    ensures { Gives plain_tac (read (a_pre levels ends) cursor.old) result cursor.new }
{
    if levels == 0 {
        cursor.take(0, Test::Tactic)?;
        Ok(Tac::Shelve)
    } else {
        pre_in(alloc, cursor, levels - 1, ends)
    }
}

/// An expression in a box.
#[cycle(expressions)]
fn boxed_tac(
    alloc: Global,
    cursor: &mut Cursor<'_, '_>,
    levels: usize,
    ends: Ends,
) -> Result<Boxed<Tac>, Refusal>
    requires { levels ≤ 201 }
    ensures { Gives plain_tac (read (a_tac levels ends) cursor.old) result cursor.new }
{
    let whole = tac(alloc, cursor, levels, ends)?;
    Ok(Boxed::new(alloc, whole)?)
}

/// An expression without a `;`, in a box.
#[cycle(expressions)]
fn boxed_pre(
    alloc: Global,
    cursor: &mut Cursor<'_, '_>,
    levels: usize,
    ends: Ends,
) -> Result<Boxed<Tac>, Refusal>
    requires { levels ≤ 201 }
    ensures { Gives plain_tac (read (a_pre levels ends) cursor.old) result cursor.new }
{
    let whole = pre_tac(alloc, cursor, levels, ends)?;
    Ok(Boxed::new(alloc, whole)?)
}

/// An expression with so many levels inside.
#[cycle(expressions)]
fn tac_in(
    alloc: Global,
    cursor: &mut Cursor<'_, '_>,
    inside: usize,
    ends: Ends,
) -> Result<Tac, Refusal>
    requires { inside ≤ 200 }
    ensures { Gives plain_tac (read (tac_in (here inside ends)) cursor.old) result cursor.new }
{
    let first = pre_in(alloc, cursor, inside, ends)?;
    steps_behind(alloc, cursor, inside, ends, first)
}

/// An expression with what stands behind it, each part behind a `;`.
#[cycle(expressions)]
fn steps_behind(
    alloc: Global,
    cursor: &mut Cursor<'_, '_>,
    inside: usize,
    ends: Ends,
    first: Tac,
) -> Result<Tac, Refusal>
    requires { inside ≤ 200 }
    ensures { Gives plain_tac (read (steps_behind (here inside ends) (plain_tac first)) cursor.old) result cursor.new }
{
    let mut found = Items::new(alloc);
    match more_steps(alloc, cursor, inside, ends, &mut found) {
        Ok(()) => Ok(sequence(alloc, first, found)?),
        Err(refusal) => Err(refusal),
    }
}

/// The steps behind those found so far.
#[cycle(expressions)]
#[tactic(auto, using(lq_phrases::proofs::Loops::loops))]
fn more_steps(
    alloc: Global,
    cursor: &mut Cursor<'_, '_>,
    inside: usize,
    ends: Ends,
    found: &mut Items<Step>,
) -> Result<(), Refusal>
    requires { inside ≤ 200 }
    ensures { Gives (λ u. map plain_step found.new)
        (read (many (inside + 1) (is_sign Semicolon) (λ w. step (here inside ends)) (map plain_step found.old)) cursor.old) result cursor.new }
{
    while cursor.sees(Test::Sign(Symbol::Semicolon)) {
        cursor.take(inside + 1, Test::Sign(Symbol::Semicolon))?;
        found.push(step(alloc, cursor, inside, ends)?)?;
    }
    Ok(())
}

/// What stands behind a `;`.
#[cycle(expressions)]
#[tactic(auto, using(lq_ast::proofs::TacticLaws::tactic_laws))]
fn step(
    alloc: Global,
    cursor: &mut Cursor<'_, '_>,
    inside: usize,
    ends: Ends,
) -> Result<Step, Refusal>
    requires { inside ≤ 200 }
    ensures { Gives plain_step (read (step (here inside ends)) cursor.old) result cursor.new }
{
    if cursor.sees(Test::Sign(Symbol::OpenSquare)) {
        branches(alloc, cursor, inside)
    } else {
        let whole = pre_in(alloc, cursor, inside, ends)?;
        Ok(Step::Then(whole))
    }
}

/// An expression without a `;` with so many levels inside.
#[cycle(expressions)]
fn pre_in(
    alloc: Global,
    cursor: &mut Cursor<'_, '_>,
    inside: usize,
    ends: Ends,
) -> Result<Tac, Refusal>
    requires { inside ≤ 200 }
    ensures { Gives plain_tac (read (pre_in (here inside ends)) cursor.old) result cursor.new }
{
    let next = cursor.take(inside + 1, Test::Tactic)?;
    pre_at(alloc, cursor, inside, ends, next.word)
}

/// The same behind its first word.
#[cycle(expressions)]
fn pre_at(
    alloc: Global,
    cursor: &mut Cursor<'_, '_>,
    inside: usize,
    ends: Ends,
    word: Word<'_>,
) -> Result<Tac, Refusal>
    requires { inside ≤ 200 }
    ensures { Gives plain_tac (read (pre_at (here inside ends) (word_of word.entry)) cursor.old) result cursor.new }
{
    match prefix_named(text_of(word)) {
        Some(which) => prefixed(alloc, cursor, inside, ends, which),
        None => basic(alloc, cursor, inside, ends, word),
    }
}

/// A basic expression behind its first word, and `+` or `||` with what stands behind it.
#[cycle(expressions)]
fn basic(
    alloc: Global,
    cursor: &mut Cursor<'_, '_>,
    inside: usize,
    ends: Ends,
    word: Word<'_>,
) -> Result<Tac, Refusal>
    requires { inside ≤ 200 }
    ensures { Gives plain_tac (read (basic (here inside ends) (word_of word.entry)) cursor.old) result cursor.new }
{
    let left = basic_at(alloc, cursor, inside, ends, word)?;
    operated(alloc, cursor, inside, ends, left)
}

/// A basic expression, and `+` or `||` with what stands behind it.
#[cycle(expressions)]
#[tactic(auto, using(lq_ast::proofs::TacticLaws::tactic_laws))]
fn operated(
    alloc: Global,
    cursor: &mut Cursor<'_, '_>,
    inside: usize,
    ends: Ends,
    left: Tac,
) -> Result<Tac, Refusal>
    requires { inside ≤ 200 }
    ensures { Gives plain_tac (read (operated (here inside ends) (plain_tac left)) cursor.old) result cursor.new }
{
    if cursor.sees(Test::Sign(Symbol::Plus)) {
        cursor.expect(inside + 1, Symbol::Plus)?;
        let right = boxed_pre(alloc, cursor, inside, ends)?;
        Ok(Tac::Plus(Boxed::new(alloc, left)?, right))
    } else if cursor.sees(Test::Sign(Symbol::Bars)) {
        cursor.expect(inside + 1, Symbol::Bars)?;
        let right = boxed_pre(alloc, cursor, inside, ends)?;
        Ok(Tac::Orelse(Boxed::new(alloc, left)?, right))
    } else {
        Ok(left)
    }
}

/// A basic expression behind its first word.
#[cycle(expressions)]
#[tactic(auto, using(lq_ast::proofs::TacticLaws::tactic_laws))]
fn basic_at(
    alloc: Global,
    cursor: &mut Cursor<'_, '_>,
    inside: usize,
    ends: Ends,
    word: Word<'_>,
) -> Result<Tac, Refusal>
    requires { inside ≤ 200 }
    ensures { Gives plain_tac (read (basic_at (here inside ends) (word_of word.entry)) cursor.old) result cursor.new }
{
    if is_number(word) {
        Ok(Tac::Number(value_of(word)))
    } else if is_symbol(Symbol::OpenRound, word) {
        round_tac(alloc, cursor, inside)
    } else {
        named(alloc, cursor, inside, ends, text_of(word))
    }
}

/// `a)` behind a bracket.
#[cycle(expressions)]
fn round_tac(alloc: Global, cursor: &mut Cursor<'_, '_>, inside: usize) -> Result<Tac, Refusal>
    requires { inside ≤ 200 }
    ensures { Gives plain_tac (read (round_tac (free inside)) cursor.old) result cursor.new }
{
    let whole = tac(alloc, cursor, inside, Ends::Nothing)?;
    cursor.expect(inside + 1, Symbol::CloseRound)?;
    Ok(whole)
}

/// A basic expression behind the name that begins it: a form, a primitive, or a call.
#[cycle(expressions)]
fn named(
    alloc: Global,
    cursor: &mut Cursor<'_, '_>,
    inside: usize,
    ends: Ends,
    text: &str,
) -> Result<Tac, Refusal>
    requires { inside ≤ 200 }
    ensures { Gives plain_tac (read (named (here inside ends) text.now) cursor.old) result cursor.new }
{
    match form_named(text) {
        Some(which) => form_of(alloc, cursor, inside, ends, which),
        None => match primitive_named(text) {
            Some(which) => primitive(alloc, cursor, inside, ends, which),
            None => call(alloc, cursor, inside, ends, text),
        },
    }
}

/// A form behind its word.
#[cycle(expressions)]
#[tactic(auto, using(lq_ast::proofs::TacticLaws::tactic_laws))]
fn form_of(
    alloc: Global,
    cursor: &mut Cursor<'_, '_>,
    inside: usize,
    ends: Ends,
    which: Form,
) -> Result<Tac, Refusal>
    requires { inside ≤ 200 }
    ensures { Gives plain_tac (read (form_of (here inside ends) which) cursor.old) result cursor.new }
{
    match which {
        Form::First => first_form(alloc, cursor, inside),
        Form::Solve => solve_form(alloc, cursor, inside),
        Form::Match(manner) => match_form(alloc, cursor, inside, manner),
        Form::Idtac => idtac(alloc, cursor, inside, ends),
        Form::Fail => fail(alloc, cursor, inside, ends),
        Form::Gfail => gfail(alloc, cursor, inside, ends),
        Form::Fun => function_form(alloc, cursor, inside, ends),
        Form::Let => let_form(alloc, cursor, inside, ends),
        Form::Fresh => fresh(alloc, cursor, inside, ends),
        Form::Type => type_of(alloc, cursor, inside, ends),
        Form::Eval => eval(alloc, cursor, inside, ends),
        Form::Constr => constr(alloc, cursor, inside, ends),
        Form::Context => context(alloc, cursor, inside, ends),
        Form::Shelve => Ok(Tac::Shelve),
        Form::Revgoals => Ok(Tac::Revgoals),
        Form::Cycle => cycle(cursor, inside, ends),
        Form::Swap => swap(cursor, inside, ends),
    }
}

/// An expression behind the word that stands before it.
#[cycle(expressions)]
#[tactic(auto, using(lq_ast::proofs::TacticLaws::tactic_laws))]
fn prefixed(
    alloc: Global,
    cursor: &mut Cursor<'_, '_>,
    inside: usize,
    ends: Ends,
    which: Prefix,
) -> Result<Tac, Refusal>
    requires { inside ≤ 200 }
    ensures { Gives plain_tac (read (prefixed (here inside ends) which) cursor.old) result cursor.new }
{
    match which {
        Prefix::Try => Ok(Tac::Try(boxed_pre(alloc, cursor, inside, ends)?)),
        Prefix::Repeat => Ok(Tac::Repeat(boxed_pre(alloc, cursor, inside, ends)?)),
        Prefix::Once => Ok(Tac::Once(boxed_pre(alloc, cursor, inside, ends)?)),
        Prefix::ExactlyOnce => Ok(Tac::ExactlyOnce(boxed_pre(alloc, cursor, inside, ends)?)),
        Prefix::Progress => Ok(Tac::Progress(boxed_pre(alloc, cursor, inside, ends)?)),
        Prefix::Do => do_form(alloc, cursor, inside, ends),
        Prefix::Tryif => tryif_form(alloc, cursor, inside, ends),
    }
}

/// `do` behind its word.
#[cycle(expressions)]
#[tactic(auto, using(lq_ast::proofs::TacticLaws::tactic_laws))]
fn do_form(
    alloc: Global,
    cursor: &mut Cursor<'_, '_>,
    inside: usize,
    ends: Ends,
) -> Result<Tac, Refusal>
    requires { inside ≤ 200 }
    ensures { Gives plain_tac (read (do_form (here inside ends)) cursor.old) result cursor.new }
{
    let times = amount(alloc, cursor, inside)?;
    let whole = boxed_pre(alloc, cursor, inside, ends)?;
    Ok(Tac::Do(times, whole))
}

/// `tryif` behind its word.
#[cycle(expressions)]
#[tactic(auto, using(lq_ast::proofs::TacticLaws::tactic_laws))]
fn tryif_form(
    alloc: Global,
    cursor: &mut Cursor<'_, '_>,
    inside: usize,
    ends: Ends,
) -> Result<Tac, Refusal>
    requires { inside ≤ 200 }
    ensures { Gives plain_tac (read (tryif_form (here inside ends)) cursor.old) result cursor.new }
{
    let test = boxed_tac(alloc, cursor, inside, Ends::Then)?;
    cursor.expect_word(inside, "then")?;
    let yes = boxed_tac(alloc, cursor, inside, Ends::Else)?;
    cursor.expect_word(inside, "else")?;
    let no = boxed_pre(alloc, cursor, inside, ends)?;
    Ok(Tac::Tryif(test, yes, no))
}

/// A call: a name and its arguments.
#[cycle(expressions)]
#[tactic(auto, using(lq_ast::proofs::TacticLaws::tactic_laws))]
fn call(
    alloc: Global,
    cursor: &mut Cursor<'_, '_>,
    inside: usize,
    ends: Ends,
    text: &str,
) -> Result<Tac, Refusal>
    requires { inside ≤ 200 }
    ensures { Gives plain_tac (read (call (here inside ends) text.now) cursor.old) result cursor.new }
{
    let mut found = Items::new(alloc);
    more_args(alloc, cursor, inside, ends, &mut found)?;
    Ok(Tac::Call(Name::from_str(alloc, text)?, found))
}

/// The arguments behind those found so far.
#[cycle(expressions)]
#[tactic(auto, using(lq_phrases::proofs::Loops::loops))]
fn more_args(
    alloc: Global,
    cursor: &mut Cursor<'_, '_>,
    inside: usize,
    ends: Ends,
    found: &mut Items<Arg>,
) -> Result<(), Refusal>
    requires { inside ≤ 200 }
    ensures { Gives (λ u. map plain_arg found.new)
        (read (many (inside + 1) (begins_arg (ends_of ends)) (argument_at (here inside ends)) (map plain_arg found.old)) cursor.old) result cursor.new }
{
    while cursor.sees(Test::Arg(ends)) {
        let next = cursor.take(inside + 1, Test::Arg(ends))?;
        found.push(argument_at(alloc, cursor, inside, ends, next)?)?;
    }
    Ok(())
}

/// An argument behind its first word.
#[cycle(expressions)]
#[tactic(auto, using(lq_ast::proofs::TacticLaws::tactic_laws))]
fn argument_at(
    alloc: Global,
    cursor: &mut Cursor<'_, '_>,
    inside: usize,
    ends: Ends,
    next: Placed<'_>,
) -> Result<Arg, Refusal>
    requires { inside ≤ 200 }
    ensures { Gives plain_arg (read (argument_at (here inside ends) (placed_of next.entry)) cursor.old) result cursor.new }
{
    if is_number(next.word) {
        Ok(Arg::Numeral(value_of(next.word)))
    } else if is_word("ltac", next.word) {
        behind_ltac(alloc, cursor, inside)
    } else {
        let spot = Spot {
            is_pattern: false,
            ends,
        };
        Ok(Arg::Atom(atom_at(alloc, cursor, inside, spot, next)?))
    }
}

/// An argument behind the word `ltac`.
#[cycle(expressions)]
#[tactic(auto, using(lq_ast::proofs::TacticLaws::tactic_laws))]
fn behind_ltac(alloc: Global, cursor: &mut Cursor<'_, '_>, inside: usize) -> Result<Arg, Refusal>
    requires { inside ≤ 200 }
    ensures { Gives plain_arg (read (behind_ltac (free inside)) cursor.old) result cursor.new }
{
    if cursor.sees(Test::Sign(Symbol::Colon)) {
        cursor.expect(inside + 1, Symbol::Colon)?;
        cursor.expect(inside + 1, Symbol::OpenRound)?;
        let whole = tac(alloc, cursor, inside, Ends::Nothing)?;
        cursor.expect(inside + 1, Symbol::CloseRound)?;
        Ok(Arg::Inner(whole))
    } else {
        Ok(Arg::Atom(ident(alloc, "ltac")?))
    }
}

/// `first` behind its word.
#[cycle(expressions)]
#[tactic(auto, using(lq_ast::proofs::TacticLaws::tactic_laws))]
fn first_form(alloc: Global, cursor: &mut Cursor<'_, '_>, inside: usize) -> Result<Tac, Refusal>
    requires { inside ≤ 200 }
    ensures { Gives plain_tac (read (listed (free inside) first) cursor.old) result cursor.new }
{
    cursor.expect(inside + 1, Symbol::OpenSquare)?;
    let found = list(alloc, cursor, inside)?;
    cursor.expect(inside + 1, Symbol::CloseSquare)?;
    Ok(Tac::First(found))
}

/// `solve` behind its word.
#[cycle(expressions)]
#[tactic(auto, using(lq_ast::proofs::TacticLaws::tactic_laws))]
fn solve_form(alloc: Global, cursor: &mut Cursor<'_, '_>, inside: usize) -> Result<Tac, Refusal>
    requires { inside ≤ 200 }
    ensures { Gives plain_tac (read (listed (free inside) solve) cursor.old) result cursor.new }
{
    cursor.expect(inside + 1, Symbol::OpenSquare)?;
    let found = list(alloc, cursor, inside)?;
    cursor.expect(inside + 1, Symbol::CloseSquare)?;
    Ok(Tac::Solve(found))
}

/// Expressions with bars between.
#[cycle(expressions)]
fn list(alloc: Global, cursor: &mut Cursor<'_, '_>, inside: usize) -> Result<Items<Tac>, Refusal>
    requires { inside ≤ 200 }
    ensures { Gives (map plain_tac) (read (separated inside Bar (a_tac inside Nothing)) cursor.old) result cursor.new }
{
    let mut found = Items::new(alloc);
    found.push(tac(alloc, cursor, inside, Ends::Nothing)?)?;
    more_tacs(alloc, cursor, inside, &mut found)?;
    Ok(found)
}

/// The expressions behind those found so far.
#[cycle(expressions)]
#[tactic(auto, using(lq_phrases::proofs::Loops::loops))]
fn more_tacs(
    alloc: Global,
    cursor: &mut Cursor<'_, '_>,
    inside: usize,
    found: &mut Items<Tac>,
) -> Result<(), Refusal>
    requires { inside ≤ 200 }
    ensures { Gives (λ u. map plain_tac found.new)
        (read (many inside (is_sign Bar) (λ w. a_tac inside Nothing) (map plain_tac found.old)) cursor.old) result cursor.new }
{
    while cursor.sees(Test::Sign(Symbol::Bar)) {
        cursor.take(inside, Test::Sign(Symbol::Bar))?;
        found.push(tac(alloc, cursor, inside, Ends::Nothing)?)?;
    }
    Ok(())
}

/// `[a | b .. | c]` behind a `;`.
#[cycle(expressions)]
fn branches(alloc: Global, cursor: &mut Cursor<'_, '_>, inside: usize) -> Result<Step, Refusal>
    requires { inside ≤ 200 }
    ensures { Gives plain_step (read (branches (free inside)) cursor.old) result cursor.new }
{
    cursor.expect(inside + 1, Symbol::OpenSquare)?;
    let mut found = first_place(alloc, cursor, inside)?;
    more_places(alloc, cursor, inside, &mut found)?;
    cursor.expect(inside + 1, Symbol::CloseSquare)?;
    Ok(step_of(found))
}

/// The first place with its `..`.
#[cycle(expressions)]
fn first_place(alloc: Global, cursor: &mut Cursor<'_, '_>, inside: usize) -> Result<Places, Refusal>
    requires { inside ≤ 200 }
    ensures { Gives places_of (read (one_place (free inside) ([], None)) cursor.old) result cursor.new }
{
    let mut found = Places::new(alloc);
    match one_place(alloc, cursor, inside, &mut found) {
        Ok(()) => Ok(found),
        Err(refusal) => Err(refusal),
    }
}

/// A place with its `..`, which is put to those found so far.
#[cycle(expressions)]
fn one_place(
    alloc: Global,
    cursor: &mut Cursor<'_, '_>,
    inside: usize,
    found: &mut Places,
) -> Result<(), Refusal>
    requires { inside ≤ 200 }
    ensures { Gives (λ u. places_of found.new) (read (one_place (free inside) (places_of found.old)) cursor.old) result cursor.new }
{
    let whole = place(alloc, cursor, inside)?;
    match cursor.eat(inside, Test::Filling(found.is_unfilled())) {
        Ok(fills) => Ok(found.put(alloc, whole, fills)?),
        Err(refusal) => Err(refusal),
    }
}

/// An expression, or an empty place, which is `idtac`.
#[cycle(expressions)]
#[tactic(auto, using(lq_ast::proofs::TacticLaws::tactic_laws))]
fn place(alloc: Global, cursor: &mut Cursor<'_, '_>, inside: usize) -> Result<Tac, Refusal>
    requires { inside ≤ 200 }
    ensures { Gives plain_tac (read (place inside) cursor.old) result cursor.new }
{
    if cursor.sees(Test::Rim) {
        Ok(Tac::Idtac(Items::new(alloc)))
    } else {
        tac(alloc, cursor, inside, Ends::Nothing)
    }
}

/// The places behind those found so far.
#[cycle(expressions)]
#[tactic(auto, using(lq_phrases::proofs::Loops::turns))]
fn more_places(
    alloc: Global,
    cursor: &mut Cursor<'_, '_>,
    inside: usize,
    found: &mut Places,
) -> Result<(), Refusal>
    requires { inside ≤ 200 }
    ensures { Gives (λ u. places_of found.new)
        (read (more_places inside (places_of found.old)) cursor.old) result cursor.new }
{
    while cursor.sees(Test::Sign(Symbol::Bar)) {
        cursor.take(inside, Test::Sign(Symbol::Bar))?;
        one_place(alloc, cursor, inside, found)?;
    }
    Ok(())
}

/// `fun` behind its word.
#[cycle(expressions)]
#[tactic(auto, using(lq_ast::proofs::TacticLaws::tactic_laws))]
fn function_form(
    alloc: Global,
    cursor: &mut Cursor<'_, '_>,
    inside: usize,
    ends: Ends,
) -> Result<Tac, Refusal>
    requires { inside ≤ 200 }
    ensures { Gives plain_tac (read (function_form (here inside ends)) cursor.old) result cursor.new }
{
    let parameters = some_names(alloc, cursor, inside)?;
    cursor.expect(inside, Symbol::FatArrow)?;
    let body = boxed_tac(alloc, cursor, inside, ends)?;
    Ok(Tac::Lambda(parameters, body))
}

/// `let` behind its word.
#[cycle(expressions)]
fn let_form(
    alloc: Global,
    cursor: &mut Cursor<'_, '_>,
    inside: usize,
    ends: Ends,
) -> Result<Tac, Refusal>
    requires { inside ≤ 200 }
    ensures { Gives plain_tac (read (let_form (here inside ends)) cursor.old) result cursor.new }
{
    let is_rec = cursor.eat(inside, Test::Rec)?;
    match bindings(alloc, cursor, inside) {
        Ok(found) => let_behind(alloc, cursor, inside, ends, is_rec, found),
        Err(refusal) => Err(refusal),
    }
}

/// `in a` behind the bindings of a `let`.
#[cycle(expressions)]
#[tactic(auto, using(lq_ast::proofs::TacticLaws::tactic_laws))]
fn let_behind(
    alloc: Global,
    cursor: &mut Cursor<'_, '_>,
    inside: usize,
    ends: Ends,
    is_rec: bool,
    found: Items<Binding>,
) -> Result<Tac, Refusal>
    requires { inside ≤ 200 }
    ensures { Gives plain_tac (read (let_behind (here inside ends) is_rec (map plain_binding found)) cursor.old) result cursor.new }
{
    cursor.expect_word(inside, "in")?;
    let rest = boxed_tac(alloc, cursor, inside, ends)?;
    Ok(Tac::LetTac(is_rec, found, rest))
}

/// Bindings with `with` between.
#[cycle(expressions)]
fn bindings(
    alloc: Global,
    cursor: &mut Cursor<'_, '_>,
    inside: usize,
) -> Result<Items<Binding>, Refusal>
    requires { inside ≤ 200 }
    ensures { Gives (map plain_binding) (read (bindings (free inside)) cursor.old) result cursor.new }
{
    let mut found = Items::new(alloc);
    found.push(bind(alloc, cursor, inside)?)?;
    more_bindings(alloc, cursor, inside, &mut found)?;
    Ok(found)
}

/// `f x y := a`
#[cycle(expressions)]
#[tactic(auto, using(crate::proofs::LevelLaws::binding_is))]
fn bind(alloc: Global, cursor: &mut Cursor<'_, '_>, inside: usize) -> Result<Binding, Refusal>
    requires { inside ≤ 200 }
    ensures { Gives plain_binding (read (bind (free inside)) cursor.old) result cursor.new }
{
    let name = cursor.name(alloc, inside)?;
    let parameters = names(alloc, cursor, inside)?;
    cursor.expect(inside, Symbol::ColonEqual)?;
    let value = tac(alloc, cursor, inside, Ends::Nothing)?;
    Ok(Binding {
        name,
        parameters,
        value,
    })
}

/// The bindings behind those found so far.
#[cycle(expressions)]
#[tactic(auto, using(lq_phrases::proofs::Loops::loops))]
fn more_bindings(
    alloc: Global,
    cursor: &mut Cursor<'_, '_>,
    inside: usize,
    found: &mut Items<Binding>,
) -> Result<(), Refusal>
    requires { inside ≤ 200 }
    ensures { Gives (λ u. map plain_binding found.new)
        (read (many inside (reads (codes "with")) (λ w. bind (free inside)) (map plain_binding found.old)) cursor.old) result cursor.new }
{
    while cursor.sees(Test::With) {
        cursor.take(inside, Test::With)?;
        found.push(bind(alloc, cursor, inside)?)?;
    }
    Ok(())
}

/// A match behind its word.
#[cycle(expressions)]
#[tactic(auto, using(lq_ast::proofs::TacticLaws::tactic_laws))]
fn match_form(
    alloc: Global,
    cursor: &mut Cursor<'_, '_>,
    inside: usize,
    manner: Manner,
) -> Result<Tac, Refusal>
    requires { inside ≤ 200 }
    ensures { Gives plain_tac (read (match_form (free inside) manner) cursor.old) result cursor.new }
{
    let (reversed, subject, mode) = match_head(alloc, cursor, inside)?;
    match match_clauses(alloc, cursor, inside, mode) {
        Ok((found, last)) => Ok(Tac::Match(manner, matched_of(reversed, subject, last), found)),
        Err(refusal) => Err(refusal),
    }
}

/// The clauses of a match between `with` and `end`, and what the match is on behind them.
#[cycle(expressions)]
fn match_clauses(
    alloc: Global,
    cursor: &mut Cursor<'_, '_>,
    inside: usize,
    mode: Mode,
) -> Result<(Items<Clause>, Mode), Refusal>
    requires { inside ≤ 200 }
    ensures { Gives clauses_found (read (match_clauses (free inside) (mode_of mode)) cursor.old) result cursor.new }
{
    cursor.expect_word(inside, "with")?;
    let mut found = Items::new(alloc);
    let last = clauses(alloc, cursor, inside, mode, &mut found)?;
    cursor.expect_word(inside + 1, "end")?;
    Ok((found, last))
}

/// The clauses of a match, which are put to none; what the match is on behind them.
#[cycle(expressions)]
fn clauses(
    alloc: Global,
    cursor: &mut Cursor<'_, '_>,
    inside: usize,
    mode: Mode,
    found: &mut Items<Clause>,
) -> Result<Mode, Refusal>
    requires within { inside ≤ 200 }
    requires none { found.old ≡ [] }
    ensures { Gives (λ m. (map plain_clause found.new, mode_of m)) (read (clauses (free inside) (mode_of mode)) cursor.old) result cursor.new }
{
    cursor.eat(inside, Test::Sign(Symbol::Bar))?;
    let next = one_clause(alloc, cursor, inside, mode, found)?;
    more_clauses(alloc, cursor, inside, next, found)
}

/// A clause, which is put to those found so far, and what the match is on behind it.
#[cycle(expressions)]
fn one_clause(
    alloc: Global,
    cursor: &mut Cursor<'_, '_>,
    inside: usize,
    mode: Mode,
    found: &mut Items<Clause>,
) -> Result<Mode, Refusal>
    requires { inside ≤ 200 }
    ensures { Gives (λ m. (map plain_clause found.new, mode_of m))
        (read (one_more (map plain_clause found.old, mode_of mode) (clause (free inside) (mode_of mode))) cursor.old) result cursor.new }
{
    match clause_head(alloc, cursor, inside, mode) {
        Ok((head, next)) => right_of(alloc, cursor, inside, head, next, found),
        Err(refusal) => Err(refusal),
    }
}

/// The right side of a clause, which is put with its head to those found so far; `next` is what the match is on behind it.
#[cycle(expressions)]
fn right_of(
    alloc: Global,
    cursor: &mut Cursor<'_, '_>,
    inside: usize,
    head: ClauseHead,
    next: Mode,
    found: &mut Items<Clause>,
) -> Result<Mode, Refusal>
    requires { inside ≤ 200 }
    ensures { Gives (λ m. (map plain_clause found.new, mode_of m))
        (read (right_of (free inside) (head_of head, mode_of next) (map plain_clause found.old)) cursor.old) result cursor.new }
{
    match right_side(alloc, cursor, inside) {
        Ok(whole) => {
            put_clause(found, head, whole)?;
            Ok(next)
        }
        Err(refusal) => {
            discard(head);
            Err(refusal)
        }
    }
}

/// `=> a`
#[cycle(expressions)]
fn right_side(alloc: Global, cursor: &mut Cursor<'_, '_>, inside: usize) -> Result<Tac, Refusal>
    requires { inside ≤ 200 }
    ensures { Gives plain_tac (read (right_side (free inside)) cursor.old) result cursor.new }
{
    cursor.expect(inside, Symbol::FatArrow)?;
    tac(alloc, cursor, inside, Ends::Nothing)
}

/// The clauses behind those found so far, and what the match is on behind them.
#[cycle(expressions)]
#[tactic(auto, using(lq_phrases::proofs::Loops::turns))]
fn more_clauses(
    alloc: Global,
    cursor: &mut Cursor<'_, '_>,
    inside: usize,
    mode: Mode,
    found: &mut Items<Clause>,
) -> Result<Mode, Refusal>
    requires { inside ≤ 200 }
    ensures { Gives (λ m. (map plain_clause found.new, mode_of m))
        (read (more_clauses inside (map plain_clause found.old, mode_of mode)) cursor.old) result cursor.new }
{
    let mut last = mode;
    while cursor.sees(Test::Sign(Symbol::Bar)) {
        cursor.take(inside, Test::Sign(Symbol::Bar))?;
        last = one_clause(alloc, cursor, inside, last, found)?;
    }
    Ok(last)
}
