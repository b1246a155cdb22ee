//! Primitives, each behind its word.

ghost use Rattle.std.specs.Prelude.{◌≡◌, ◌≤◌, ◌+◌, map};
ghost use Rattle.lq_ast.specs.Plain.{plain};
ghost use Rattle.lq_ast.specs.PlainTactics.{plain_tac};
ghost use Rattle.lq_grammar.specs.declared.token.Symbol.TheVariants.{Bar};
ghost use Rattle.lq_sentences.specs.Words.{is_sign, reads};
ghost use Rattle.lq_sentences.specs.Rules.{read};
ghost use Rattle.lq_sentences.specs.Parts.{many, names, separated};
ghost use Rattle.lq_sentences.specs.Levels.{a_term};
ghost use Rattle.lq_sentences.specs.Primitives.{pair, intro_form, intros_form, constructor_form, as_names};
ghost use Rattle.lq_sentences.specs.Primitives.{as_part, induction_form, destruct_form, rewrite_form, rename_form, primitive};
ghost use Rattle.lq_phrases.specs.Views.{here, Gives, same};
ghost use Rattle.lq_parts.specs.Views.{pair_of};

use lq_ast::{Name, PrimTac, Rule, Surface, Tac};
use lq_grammar::Symbol;
use lq_phrases::{Cursor, Ends, FREE, Refusal, Spot, Test, more_names, names, term};
use lq_sentences::Primitive;
use sqlite_items::Items;
use std::alloc::Global;

/// A term on the expression's own level.
pub fn own_term(
    alloc: Global,
    cursor: &mut Cursor<'_, '_>,
    inside: usize,
    ends: Ends,
) -> Result<Surface, Refusal>
    requires { inside ≤ 200 }
    ensures { Gives plain (read (a_term (here inside ends)) cursor.old) result cursor.new }
{
    term(
        alloc,
        cursor,
        inside + 1,
        Spot {
            is_pattern: false,
            ends,
        },
    )
}

/// `(x : A)` and `(x := t)`
fn pair(
    alloc: Global,
    cursor: &mut Cursor<'_, '_>,
    inside: usize,
    sign: Symbol,
) -> Result<(Name, Surface), Refusal>
    requires { inside ≤ 200 }
    ensures { Gives pair_of (read (pair inside sign) cursor.old) result cursor.new }
{
    cursor.expect(inside + 1, Symbol::OpenRound)?;
    let name = cursor.name(alloc, inside)?;
    cursor.expect(inside, sign)?;
    let value = term(alloc, cursor, inside, FREE)?;
    cursor.expect(inside + 1, Symbol::CloseRound)?;
    Ok((name, value))
}

/// `intro` behind its word.
#[tactic(auto, using(lq_ast::proofs::TacticLaws::tactic_laws), unfolding(lq_ast::specs::Plain::plain_prim))]
fn intro(
    alloc: Global,
    cursor: &mut Cursor<'_, '_>,
    inside: usize,
    ends: Ends,
) -> Result<Tac, Refusal>
    requires { inside ≤ 200 }
    ensures { Gives plain_tac (read (intro_form (here inside ends)) cursor.old) result cursor.new }
{
    if cursor.sees(Test::Spare(ends)) {
        let name = cursor.name(alloc, inside + 1)?;
        Ok(Tac::Prim(PrimTac::Intro(Some(name))))
    } else {
        Ok(Tac::Prim(PrimTac::Intro(None)))
    }
}

/// `intros` behind its word.
#[tactic(auto, using(lq_ast::proofs::TacticLaws::tactic_laws), unfolding(lq_ast::specs::Plain::plain_prim))]
fn intros(
    alloc: Global,
    cursor: &mut Cursor<'_, '_>,
    inside: usize,
    ends: Ends,
) -> Result<Tac, Refusal>
    requires { inside ≤ 200 }
    ensures { Gives plain_tac (read (intros_form (here inside ends)) cursor.old) result cursor.new }
{
    let found = more_names(
        alloc,
        cursor,
        inside + 1,
        Test::Spare(ends),
        Items::new(alloc),
    )?;
    Ok(Tac::Prim(PrimTac::Intros(found)))
}

/// `constructor` behind its word.
#[tactic(auto, using(lq_ast::proofs::TacticLaws::tactic_laws), unfolding(lq_ast::specs::Plain::plain_prim))]
fn constructor(cursor: &mut Cursor<'_, '_>, inside: usize, ends: Ends) -> Result<Tac, Refusal>
    requires { inside ≤ 200 }
    ensures { Gives plain_tac (read (constructor_form (here inside ends)) cursor.old) result cursor.new }
{
    if cursor.sees(Test::Number) {
        let number = cursor.number(inside + 1)?;
        Ok(Tac::Prim(PrimTac::Constructor(Some(number))))
    } else {
        Ok(Tac::Prim(PrimTac::Constructor(None)))
    }
}

/// The branches of `as` behind those found so far.
#[tactic(auto, using(lq_phrases::proofs::Loops::loops))]
fn more_branches(
    alloc: Global,
    cursor: &mut Cursor<'_, '_>,
    levels: usize,
    found: &mut Items<Items<Name>>,
) -> Result<(), Refusal>
    ensures { Gives (λ u. found.new) (read (many levels (is_sign Bar) (λ w. names levels) found.old) cursor.old) result cursor.new }
{
    while cursor.sees(Test::Sign(Symbol::Bar)) {
        cursor.take(levels, Test::Sign(Symbol::Bar))?;
        found.push(names(alloc, cursor, levels)?)?;
    }
    Ok(())
}

/// The branches of `as`, and at least one.
fn branches(
    alloc: Global,
    cursor: &mut Cursor<'_, '_>,
    levels: usize,
) -> Result<Items<Items<Name>>, Refusal>
    ensures { Gives same (read (separated levels Bar (names levels)) cursor.old) result cursor.new }
{
    let mut found = Items::new(alloc);
    found.push(names(alloc, cursor, levels)?)?;
    more_branches(alloc, cursor, levels, &mut found)?;
    Ok(found)
}

/// `as [x y | z]`
fn as_names(
    alloc: Global,
    cursor: &mut Cursor<'_, '_>,
    inside: usize,
) -> Result<Items<Items<Name>>, Refusal>
    requires { inside ≤ 200 }
    ensures { Gives same (read (as_names inside) cursor.old) result cursor.new }
{
    cursor.expect_word(inside + 1, "as")?;
    cursor.expect(inside + 1, Symbol::OpenSquare)?;
    let found = branches(alloc, cursor, inside)?;
    cursor.expect(inside + 1, Symbol::CloseSquare)?;
    Ok(found)
}

/// The branches of `as`, if they are written.
fn as_part(
    alloc: Global,
    cursor: &mut Cursor<'_, '_>,
    inside: usize,
    ends: Ends,
) -> Result<Option<Items<Items<Name>>>, Refusal>
    requires { inside ≤ 200 }
    ensures { Gives same (read (as_part (here inside ends)) cursor.old) result cursor.new }
{
    if cursor.sees_word("as") {
        Ok(Some(as_names(alloc, cursor, inside)?))
    } else {
        Ok(None)
    }
}

/// `induction` behind its word.
#[tactic(auto, using(lq_ast::proofs::TacticLaws::tactic_laws), unfolding(lq_ast::specs::Plain::plain_rule))]
fn induction(
    alloc: Global,
    cursor: &mut Cursor<'_, '_>,
    inside: usize,
    ends: Ends,
) -> Result<Tac, Refusal>
    requires { inside ≤ 200 }
    ensures { Gives plain_tac (read (induction_form (here inside ends)) cursor.old) result cursor.new }
{
    let name = cursor.name(alloc, inside + 1)?;
    let found = as_part(alloc, cursor, inside, ends)?;
    Ok(Tac::Rule(Rule::Induction(name, found)))
}

/// `destruct` behind its word.
#[tactic(auto, using(lq_ast::proofs::TacticLaws::tactic_laws), unfolding(lq_ast::specs::Plain::plain_rule))]
fn destruct(
    alloc: Global,
    cursor: &mut Cursor<'_, '_>,
    inside: usize,
    ends: Ends,
) -> Result<Tac, Refusal>
    requires { inside ≤ 200 }
    ensures { Gives plain_tac (read (destruct_form (here inside ends)) cursor.old) result cursor.new }
{
    let subject = own_term(alloc, cursor, inside, ends)?;
    let found = as_part(alloc, cursor, inside, ends)?;
    Ok(Tac::Rule(Rule::Destruct(subject, found)))
}

/// `rewrite` behind its word.
#[tactic(auto, using(lq_ast::proofs::TacticLaws::tactic_laws), unfolding(lq_ast::specs::Plain::plain_rule))]
fn rewrite(
    alloc: Global,
    cursor: &mut Cursor<'_, '_>,
    inside: usize,
    ends: Ends,
) -> Result<Tac, Refusal>
    requires { inside ≤ 200 }
    ensures { Gives plain_tac (read (rewrite_form (here inside ends)) cursor.old) result cursor.new }
{
    let is_back = cursor.eat(inside + 1, Test::Sign(Symbol::BackArrow))?;
    let subject = own_term(alloc, cursor, inside, ends)?;
    if is_back {
        Ok(Tac::Rule(Rule::RewriteBack(subject)))
    } else {
        Ok(Tac::Rule(Rule::Rewrite(subject)))
    }
}

/// `rename` behind its word.
#[tactic(auto, using(lq_ast::proofs::TacticLaws::tactic_laws), unfolding(lq_ast::specs::Plain::plain_rule))]
fn rename(
    alloc: Global,
    cursor: &mut Cursor<'_, '_>,
    inside: usize,
    ends: Ends,
) -> Result<Tac, Refusal>
    requires { inside ≤ 200 }
    ensures { Gives plain_tac (read (rename_form (here inside ends)) cursor.old) result cursor.new }
{
    let old = cursor.name(alloc, inside + 1)?;
    cursor.expect_word(inside + 1, "into")?;
    let new = cursor.name(alloc, inside + 1)?;
    Ok(Tac::Rule(Rule::Rename(old, new)))
}

/// A primitive behind its word.
#[tactic(auto, using(lq_ast::proofs::TacticLaws::tactic_laws), unfolding(lq_ast::specs::Plain::plain_prim, lq_ast::specs::Plain::plain_rule))]
pub fn primitive(
    alloc: Global,
    cursor: &mut Cursor<'_, '_>,
    inside: usize,
    ends: Ends,
    which: Primitive,
) -> Result<Tac, Refusal>
    requires { inside ≤ 200 }
    ensures { Gives plain_tac (read (primitive (here inside ends) which) cursor.old) result cursor.new }
{
    match which {
        Primitive::Intro => intro(alloc, cursor, inside, ends),
        Primitive::Intros => intros(alloc, cursor, inside, ends),
        Primitive::Exact => Ok(Tac::Prim(PrimTac::Exact(own_term(alloc, cursor, inside, ends)?))),
        Primitive::Refine => Ok(Tac::Prim(PrimTac::Refine(own_term(alloc, cursor, inside, ends)?))),
        Primitive::Apply => Ok(Tac::Prim(PrimTac::Apply(own_term(alloc, cursor, inside, ends)?))),
        Primitive::Eapply => Ok(Tac::Prim(PrimTac::Eapply(own_term(alloc, cursor, inside, ends)?))),
        Primitive::Assumption => Ok(Tac::Prim(PrimTac::Assumption)),
        Primitive::Constructor => constructor(cursor, inside, ends),
        Primitive::Split => Ok(Tac::Prim(PrimTac::Split)),
        Primitive::Left => Ok(Tac::Prim(PrimTac::Left)),
        Primitive::Right => Ok(Tac::Prim(PrimTac::Right)),
        Primitive::Exists => Ok(Tac::Prim(PrimTac::Exists(own_term(alloc, cursor, inside, ends)?))),
        Primitive::Assert => {
            let (name, kind) = pair(alloc, cursor, inside, Symbol::Colon)?;
            Ok(Tac::Prim(PrimTac::Assert(name, kind)))
        }
        Primitive::Cut => Ok(Tac::Prim(PrimTac::Cut(own_term(alloc, cursor, inside, ends)?))),
        Primitive::Pose => {
            let (name, value) = pair(alloc, cursor, inside, Symbol::ColonEqual)?;
            Ok(Tac::Prim(PrimTac::Pose(name, value)))
        }
        Primitive::Exfalso => Ok(Tac::Prim(PrimTac::Exfalso)),
        Primitive::Reflexivity => Ok(Tac::Prim(PrimTac::Reflexivity)),
        Primitive::Elim => Ok(Tac::Rule(Rule::Elim(own_term(alloc, cursor, inside, ends)?))),
        Primitive::Induction => induction(alloc, cursor, inside, ends),
        Primitive::Destruct => destruct(alloc, cursor, inside, ends),
        Primitive::Rewrite => rewrite(alloc, cursor, inside, ends),
        Primitive::Unfold => Ok(Tac::Rule(Rule::Unfold(cursor.name(alloc, inside + 1)?))),
        Primitive::Change => Ok(Tac::Rule(Rule::Change(own_term(alloc, cursor, inside, ends)?))),
        Primitive::Hnf => Ok(Tac::Rule(Rule::Hnf)),
        Primitive::Compute => Ok(Tac::Rule(Rule::Compute)),
        Primitive::Clear => Ok(Tac::Rule(Rule::Clear(cursor.name(alloc, inside + 1)?))),
        Primitive::Rename => rename(alloc, cursor, inside, ends),
        Primitive::Revert => Ok(Tac::Rule(Rule::Revert(cursor.name(alloc, inside + 1)?))),
        Primitive::Generalize => Ok(Tac::Rule(Rule::Generalize(own_term(
            alloc, cursor, inside, ends,
        )?))),
    }
}
