//! Expressions with no expression inside, each behind its word.

ghost use Rattle.std.specs.Prelude.{◌≡◌, ◌≤◌, ◌+◌};
ghost use Rattle.lq_ast.specs.PlainTactics.{plain_tac};
ghost use Rattle.lq_ast.specs.Tactics.{fail, gfail, idtac};
ghost use Rattle.lq_sentences.specs.Rules.{read, when};
ghost use Rattle.lq_sentences.specs.Tactics.{form_of, fail_form, fresh_form, type_form, eval_form};
ghost use Rattle.lq_sentences.specs.Tactics.{constr_form, context_form, cycle_form, swap_form, reduction_of};
ghost use Rattle.lq_sentences.specs.declared.forms.Form.TheVariants.{Idtac};
ghost use Rattle.lq_phrases.specs.Views.{word_of, here, Gives};

use crate::primitives::own_term;
use crate::sayings::{failure, messages, parts};
use lq_ast::{Reduction, Tac};
use lq_grammar::Symbol;
use lq_phrases::{
    Cursor, Ends, FREE, Refusal, Spot, Test, Word, atom, is_word, round_term, square_term,
};
use std::alloc::Global;

/// `idtac` behind its word.
#[tactic(auto, using(lq_ast::proofs::TacticLaws::tactic_laws))]
pub fn idtac(
    alloc: Global,
    cursor: &mut Cursor<'_, '_>,
    inside: usize,
    ends: Ends,
) -> Result<Tac, Refusal>
    requires { inside ≤ 200 }
    ensures { Gives plain_tac (read (form_of (here inside ends) Idtac) cursor.old) result cursor.new }
{
    Ok(Tac::Idtac(messages(alloc, cursor, inside, ends)?))
}

/// `fail` behind its word.
#[tactic(auto, using(lq_ast::proofs::TacticLaws::tactic_laws))]
pub fn fail(
    alloc: Global,
    cursor: &mut Cursor<'_, '_>,
    inside: usize,
    ends: Ends,
) -> Result<Tac, Refusal>
    requires { inside ≤ 200 }
    ensures { Gives plain_tac (read (fail_form (here inside ends) fail) cursor.old) result cursor.new }
{
    let (level, found) = failure(alloc, cursor, inside, ends)?;
    Ok(Tac::Fail(level, found))
}

/// `gfail` behind its word.
#[tactic(auto, using(lq_ast::proofs::TacticLaws::tactic_laws))]
pub fn gfail(
    alloc: Global,
    cursor: &mut Cursor<'_, '_>,
    inside: usize,
    ends: Ends,
) -> Result<Tac, Refusal>
    requires { inside ≤ 200 }
    ensures { Gives plain_tac (read (fail_form (here inside ends) gfail) cursor.old) result cursor.new }
{
    let (level, found) = failure(alloc, cursor, inside, ends)?;
    Ok(Tac::Gfail(level, found))
}

/// `fresh` behind its word.
#[tactic(auto, using(lq_ast::proofs::TacticLaws::tactic_laws))]
pub fn fresh(
    alloc: Global,
    cursor: &mut Cursor<'_, '_>,
    inside: usize,
    ends: Ends,
) -> Result<Tac, Refusal>
    requires { inside ≤ 200 }
    ensures { Gives plain_tac (read (fresh_form (here inside ends)) cursor.old) result cursor.new }
{
    Ok(Tac::Fresh(parts(alloc, cursor, inside, ends)?))
}

/// `type of t` behind its first word.
#[tactic(auto, using(lq_ast::proofs::TacticLaws::tactic_laws))]
pub fn type_of(
    alloc: Global,
    cursor: &mut Cursor<'_, '_>,
    inside: usize,
    ends: Ends,
) -> Result<Tac, Refusal>
    requires { inside ≤ 200 }
    ensures { Gives plain_tac (read (type_form (here inside ends)) cursor.old) result cursor.new }
{
    cursor.expect_word(inside + 1, "of")?;
    let spot = Spot {
        is_pattern: false,
        ends,
    };
    Ok(Tac::TypeOf(atom(alloc, cursor, inside, spot)?))
}

/// What `eval` gives.
fn reduction(word: Word<'_>) -> Reduction
    ensures { result ≡ reduction_of (word_of word.entry) }
{
    if is_word("hnf", word) {
        Reduction::ToHnf
    } else {
        Reduction::ToNormal
    }
}

/// `eval` behind its word.
#[tactic(auto, using(lq_ast::proofs::TacticLaws::tactic_laws))]
pub fn eval(
    alloc: Global,
    cursor: &mut Cursor<'_, '_>,
    inside: usize,
    ends: Ends,
) -> Result<Tac, Refusal>
    requires { inside ≤ 200 }
    ensures { Gives plain_tac (read (eval_form (here inside ends)) cursor.old) result cursor.new }
{
    let next = cursor.take(inside + 1, Test::Reduction)?;
    cursor.expect_word(inside + 1, "in")?;
    let subject = own_term(alloc, cursor, inside, ends)?;
    Ok(Tac::Eval(reduction(next.word), subject))
}

/// `constr:(t)` behind its word.
#[tactic(auto, using(lq_ast::proofs::TacticLaws::tactic_laws))]
pub fn constr(
    alloc: Global,
    cursor: &mut Cursor<'_, '_>,
    inside: usize,
    ends: Ends,
) -> Result<Tac, Refusal>
    requires { inside ≤ 200 }
    ensures { Gives plain_tac (read (constr_form (here inside ends)) cursor.old) result cursor.new }
{
    cursor.expect(inside + 1, Symbol::Colon)?;
    Ok(Tac::Constr(round_term(alloc, cursor, inside + 1)?))
}

/// `context C [t]` behind its word.
#[tactic(auto, using(lq_ast::proofs::TacticLaws::tactic_laws))]
pub fn context(
    alloc: Global,
    cursor: &mut Cursor<'_, '_>,
    inside: usize,
    ends: Ends,
) -> Result<Tac, Refusal>
    requires { inside ≤ 200 }
    ensures { Gives plain_tac (read (context_form (here inside ends)) cursor.old) result cursor.new }
{
    let name = cursor.name(alloc, inside + 1)?;
    let subject = square_term(alloc, cursor, inside + 1, FREE)?;
    Ok(Tac::Context(name, subject))
}

/// `cycle` behind its word.
#[tactic(auto, using(lq_ast::proofs::TacticLaws::tactic_laws))]
pub fn cycle(cursor: &mut Cursor<'_, '_>, inside: usize, ends: Ends) -> Result<Tac, Refusal>
    requires { inside ≤ 200 }
    ensures { Gives plain_tac (read (cycle_form (here inside ends)) cursor.old) result cursor.new }
{
    let is_back = cursor.eat(inside + 1, Test::Sign(Symbol::Minus))?;
    let number = cursor.number(inside + 1)?;
    Ok(Tac::Cycle(is_back, number))
}

/// `swap` behind its word.
#[tactic(auto, using(lq_ast::proofs::TacticLaws::tactic_laws))]
pub fn swap(cursor: &mut Cursor<'_, '_>, inside: usize, ends: Ends) -> Result<Tac, Refusal>
    requires { inside ≤ 200 }
    ensures { Gives plain_tac (read (swap_form (here inside ends)) cursor.old) result cursor.new }
{
    let first = cursor.number(inside + 1)?;
    let second = cursor.number(inside + 1)?;
    Ok(Tac::Swap(first, second))
}
