//! Terms. A function is given how many levels of nesting are left: `levels` for its own words, or `inside` for what stands
//! inside it.

ghost use Rattle.std.specs.Prelude.{◌≡◌, ◌≤◌, ◌-◌, map, codes};
ghost use Rattle.lq_ast.specs.Syntax.{Forall, Fun};
ghost use Rattle.lq_ast.specs.Plain.{plain, plain_binders, plain_domain};
ghost use Rattle.lq_ast.specs.PlainCommands.{plain_group};
ghost use Rattle.lq_grammar.specs.declared.token.Symbol.TheVariants.{Comma, FatArrow, OpenRound};
ghost use Rattle.lq_sentences.specs.Words.{is_sign};
ghost use Rattle.lq_sentences.specs.Rules.{read};
ghost use Rattle.lq_sentences.specs.Parts.{behind, many};
ghost use Rattle.lq_sentences.specs.Terms.{term, within, typed_names, closed, group, cast_behind, bracketed, atom, atom_at};
ghost use Rattle.lq_sentences.specs.Terms.{arrow_behind, arrow_term, names_behind, inner_group, binders};
ghost use Rattle.lq_sentences.specs.Terms.{quantified, domain_behind, let_head, let_body, let_term};
ghost use Rattle.lq_phrases.specs.Views.{placed_of, spot_of, binder_of, bound_of, inner_groups, more_atoms, application_of, head_of, body_of, inner_term, Gives};

use crate::atoms::{question, type_sort};
use crate::cursor::Cursor;
use crate::refusal::Refusal;
use crate::rows::some_binders;
use crate::trees::{alone, applied, bare, typed, with_type};
use crate::word::{Ends, Placed, Spot, Test, is_symbol, is_word, name_of};
use lq_ast::{Binder, Binders, Domain, Group, Name, Surface};
use lq_grammar::Symbol;
use sqlite_items::{Boxed, Items};
use std::alloc::Global;

/// Where a part of it stands that no word ends.
fn within(spot: Spot) -> Spot
    ensures { spot_of result ≡ within (spot_of spot) }
{
    Spot {
        is_pattern: spot.is_pattern,
        ends: Ends::Nothing,
    }
}

/// A term.
#[cycle(terms)]
#[tactic(auto, using(lq_ast::proofs::PlainLaws::plain_laws, crate::proofs::TermLaws::term_zero, crate::proofs::TermLaws::term_down))]
pub fn term(
    alloc: Global,
    cursor: &mut Cursor<'_, '_>,
    levels: usize,
    spot: Spot,
) -> Result<Surface, Refusal>
    requires { levels ≤ 201 }
    ensures { Gives plain (read (term levels (spot_of spot)) cursor.old) result cursor.new }
{
    if levels == 0 {
        cursor.take(0, Test::Term)?;
        Ok(Surface::PropSort)
    } else {
        term_in(alloc, cursor, levels - 1, spot)
    }
}

/// A term behind a symbol.
#[cycle(terms)]
fn behind(
    alloc: Global,
    cursor: &mut Cursor<'_, '_>,
    levels: usize,
    symbol: Symbol,
    inside: usize,
    spot: Spot,
) -> Result<Surface, Refusal>
    requires { inside ≤ 201 }
    ensures { Gives plain (read (behind levels symbol (term inside (spot_of spot))) cursor.old) result cursor.new }
{
    cursor.expect(levels, symbol)?;
    term(alloc, cursor, inside, spot)
}

/// The same in a box.
#[cycle(terms)]
fn boxed_behind(
    alloc: Global,
    cursor: &mut Cursor<'_, '_>,
    levels: usize,
    symbol: Symbol,
    inside: usize,
    spot: Spot,
) -> Result<Boxed<Surface>, Refusal>
    requires { inside ≤ 201 }
    ensures { Gives plain (read (behind levels symbol (term inside (spot_of spot))) cursor.old) result cursor.new }
{
    let whole = behind(alloc, cursor, levels, symbol, inside, spot)?;
    Ok(Boxed::new(alloc, whole)?)
}

/// A term with so many levels inside.
#[cycle(terms)]
fn term_in(
    alloc: Global,
    cursor: &mut Cursor<'_, '_>,
    inside: usize,
    spot: Spot,
) -> Result<Surface, Refusal>
    requires { inside ≤ 200 }
    ensures { Gives plain (read (inner_term inside (spot_of spot)) cursor.old) result cursor.new }
{
    if cursor.sees_word("forall") {
        forall(alloc, cursor, inside, spot)
    } else if cursor.sees_word("fun") {
        lambda(alloc, cursor, inside, spot)
    } else if cursor.sees_word("let") {
        let_in(alloc, cursor, inside, spot)
    } else {
        let first = atom(alloc, cursor, inside, spot)?;
        arrow(alloc, cursor, inside, spot, first)
    }
}

/// `forall x y : A, B`
#[cycle(terms)]
#[tactic(auto, using(lq_ast::proofs::PlainLaws::plain_laws))]
fn forall(
    alloc: Global,
    cursor: &mut Cursor<'_, '_>,
    inside: usize,
    spot: Spot,
) -> Result<Surface, Refusal>
    requires { inside ≤ 200 }
    ensures { Gives plain
        (read (quantified inside (inside - 1) (term inside) (term (inside - 1)) (spot_of spot) (codes "forall") Forall Comma) cursor.old) result cursor.new }
{
    cursor.expect_word(inside + 1, "forall")?;
    let bound = binders(alloc, cursor, inside, spot)?;
    let rest = boxed_behind(alloc, cursor, inside, Symbol::Comma, inside, spot)?;
    Ok(Surface::Forall(bound, rest))
}

/// `fun x y : A => t`
#[cycle(terms)]
#[tactic(auto, using(lq_ast::proofs::PlainLaws::plain_laws))]
fn lambda(
    alloc: Global,
    cursor: &mut Cursor<'_, '_>,
    inside: usize,
    spot: Spot,
) -> Result<Surface, Refusal>
    requires { inside ≤ 200 }
    ensures { Gives plain
        (read (quantified inside (inside - 1) (term inside) (term (inside - 1)) (spot_of spot) (codes "fun") Fun FatArrow) cursor.old) result cursor.new }
{
    cursor.expect_word(inside + 1, "fun")?;
    let bound = binders(alloc, cursor, inside, spot)?;
    let rest = boxed_behind(alloc, cursor, inside, Symbol::FatArrow, inside, spot)?;
    Ok(Surface::Fun(bound, rest))
}

/// `let x : A := v in t`
#[cycle(terms)]
#[tactic(auto, using(lq_ast::proofs::PlainLaws::plain_laws))]
fn let_in(
    alloc: Global,
    cursor: &mut Cursor<'_, '_>,
    inside: usize,
    spot: Spot,
) -> Result<Surface, Refusal>
    requires { inside ≤ 200 }
    ensures { Gives plain (read (let_term inside (term inside) (spot_of spot)) cursor.old) result cursor.new }
{
    let (name, domain) = let_head(alloc, cursor, inside, spot)?;
    let (value, rest) = let_body(alloc, cursor, inside, spot)?;
    Ok(Surface::LetIn(name, domain, value, rest))
}

/// `let x : A`
#[cycle(terms)]
fn let_head(
    alloc: Global,
    cursor: &mut Cursor<'_, '_>,
    inside: usize,
    spot: Spot,
) -> Result<(Option<Name>, Domain), Refusal>
    requires { inside ≤ 200 }
    ensures { Gives head_of (read (let_head inside (term inside) (spot_of spot)) cursor.old) result cursor.new }
{
    cursor.expect_word(inside + 1, "let")?;
    let Binder { name, place } = cursor.binder(alloc, inside)?;
    let domain = domain_behind(alloc, cursor, inside, spot, place)?;
    Ok((name, domain))
}

/// `:= v in t`
#[cycle(terms)]
fn let_body(
    alloc: Global,
    cursor: &mut Cursor<'_, '_>,
    inside: usize,
    spot: Spot,
) -> Result<(Boxed<Surface>, Boxed<Surface>), Refusal>
    requires { inside ≤ 200 }
    ensures { Gives body_of (read (let_body inside (term inside) (spot_of spot)) cursor.old) result cursor.new }
{
    let value = boxed_behind(
        alloc,
        cursor,
        inside,
        Symbol::ColonEqual,
        inside,
        within(spot),
    )?;
    cursor.expect_word(inside, "in")?;
    let rest = boxed_term(alloc, cursor, inside, spot)?;
    Ok((value, rest))
}

/// A term in a box.
#[cycle(terms)]
fn boxed_term(
    alloc: Global,
    cursor: &mut Cursor<'_, '_>,
    levels: usize,
    spot: Spot,
) -> Result<Boxed<Surface>, Refusal>
    requires { levels ≤ 201 }
    ensures { Gives plain (read (term levels (spot_of spot)) cursor.old) result cursor.new }
{
    let whole = term(alloc, cursor, levels, spot)?;
    Ok(Boxed::new(alloc, whole)?)
}

/// The type of what a `let` binds, if one is written.
#[cycle(terms)]
#[tactic(auto, using(lq_ast::proofs::PlainLaws::plain_laws))]
fn domain_behind(
    alloc: Global,
    cursor: &mut Cursor<'_, '_>,
    inside: usize,
    spot: Spot,
    place: u64,
) -> Result<Domain, Refusal>
    requires { inside ≤ 200 }
    ensures { Gives plain_domain (read (domain_behind inside (term inside) (spot_of spot) place) cursor.old) result cursor.new }
{
    if cursor.sees(Test::Sign(Symbol::Colon)) {
        let kind = boxed_behind(alloc, cursor, inside, Symbol::Colon, inside, within(spot))?;
        Ok(Domain::Written(kind))
    } else {
        Ok(Domain::Missing(place))
    }
}

/// What is bound by `forall` and `fun`.
#[cycle(terms)]
fn binders(
    alloc: Global,
    cursor: &mut Cursor<'_, '_>,
    inside: usize,
    spot: Spot,
) -> Result<Items<Binders>, Refusal>
    requires { inside ≤ 200 }
    ensures { Gives bound_of (read (binders inside (inside - 1) (term inside) (term (inside - 1)) (spot_of spot)) cursor.old) result cursor.new }
{
    if cursor.sees(Test::Sign(Symbol::OpenRound)) {
        groups(alloc, cursor, inside, spot)
    } else {
        let names = some_binders(alloc, cursor, inside)?;
        let bound = names_behind(alloc, cursor, inside, spot, names)?;
        Ok(alone(alloc, bound)?)
    }
}

/// Groups in a row.
#[cycle(terms)]
fn groups(
    alloc: Global,
    cursor: &mut Cursor<'_, '_>,
    levels: usize,
    spot: Spot,
) -> Result<Items<Binders>, Refusal>
    requires { levels ≤ 200 }
    ensures { Gives bound_of (read (inner_groups levels (spot_of spot)) cursor.old) result cursor.new }
{
    let mut found = Items::new(alloc);
    more_groups(alloc, cursor, levels, spot, &mut found)?;
    Ok(found)
}

/// Names, with a type if one is written behind them.
#[cycle(terms)]
fn names_behind(
    alloc: Global,
    cursor: &mut Cursor<'_, '_>,
    inside: usize,
    spot: Spot,
    names: Items<Binder>,
) -> Result<Binders, Refusal>
    requires { inside ≤ 200 }
    ensures { Gives plain_binders (read (names_behind inside (term inside) (spot_of spot) (map binder_of names)) cursor.old) result cursor.new }
{
    if cursor.sees(Test::Sign(Symbol::Colon)) {
        let kind = boxed_behind(alloc, cursor, inside, Symbol::Colon, inside, within(spot))?;
        Ok(with_type(names, kind))
    } else {
        Ok(bare(names))
    }
}

/// The groups behind those found so far.
#[cycle(terms)]
#[tactic(auto, using(crate::proofs::Loops::loops))]
fn more_groups(
    alloc: Global,
    cursor: &mut Cursor<'_, '_>,
    levels: usize,
    spot: Spot,
    found: &mut Items<Binders>,
) -> Result<(), Refusal>
    requires { levels ≤ 200 }
    ensures { Gives (λ u. map plain_binders found.new)
        (read (many levels (is_sign OpenRound) (inner_group levels (levels - 1) (term (levels - 1)) (spot_of spot))
        (map plain_binders found.old)) cursor.old) result cursor.new }
{
    while cursor.sees(Test::Sign(Symbol::OpenRound)) {
        cursor.take(levels, Test::Sign(Symbol::OpenRound))?;
        let free = Spot {
            is_pattern: spot.is_pattern,
            ends: Ends::Nothing,
        };
        let inner = group(alloc, cursor, levels, free)?;
        found.push(typed(alloc, inner)?)?;
    }
    Ok(())
}

/// `x y : A)` behind its bracket.
#[cycle(terms)]
pub fn group(
    alloc: Global,
    cursor: &mut Cursor<'_, '_>,
    levels: usize,
    spot: Spot,
) -> Result<Group, Refusal>
    requires { levels ≤ 201 }
    ensures { Gives plain_group (read (group levels (levels - 1) (term (levels - 1) (spot_of spot))) cursor.old) result cursor.new }
{
    let inside = levels.saturating_sub(1);
    match typed_names(alloc, cursor, inside, spot) {
        Ok(whole) => closed(cursor, levels, whole),
        Err(refusal) => Err(refusal),
    }
}

/// A group, with the bracket that closes it.
fn closed(cursor: &mut Cursor<'_, '_>, levels: usize, whole: Group) -> Result<Group, Refusal>
    ensures { Gives plain_group (read (closed levels (plain_group whole)) cursor.old) result cursor.new }
{
    cursor.expect(levels, Symbol::CloseRound)?;
    Ok(whole)
}

/// `x y : A`
#[cycle(terms)]
#[tactic(auto, using(crate::proofs::TermLaws::trees))]
fn typed_names(
    alloc: Global,
    cursor: &mut Cursor<'_, '_>,
    levels: usize,
    spot: Spot,
) -> Result<Group, Refusal>
    requires { levels ≤ 200 }
    ensures { Gives plain_group (read (typed_names levels (term levels (spot_of spot))) cursor.old) result cursor.new }
{
    let names = some_binders(alloc, cursor, levels)?;
    let kind = behind(alloc, cursor, levels, Symbol::Colon, levels, spot)?;
    Ok(Group { names, kind })
}

/// An atom.
#[cycle(terms)]
pub fn atom(
    alloc: Global,
    cursor: &mut Cursor<'_, '_>,
    inside: usize,
    spot: Spot,
) -> Result<Surface, Refusal>
    requires { inside ≤ 200 }
    ensures { Gives plain (read (atom inside (term inside) (spot_of spot)) cursor.old) result cursor.new }
{
    let next = cursor.take(inside + 1, Test::Atom)?;
    atom_at(alloc, cursor, inside, spot, next)
}

/// An atom behind its first word.
#[cycle(terms)]
#[tactic(auto, using(lq_ast::proofs::PlainLaws::plain_laws))]
pub fn atom_at(
    alloc: Global,
    cursor: &mut Cursor<'_, '_>,
    inside: usize,
    spot: Spot,
    next: Placed<'_>,
) -> Result<Surface, Refusal>
    requires { inside ≤ 200 }
    ensures { Gives plain (read (atom_at inside (term inside) (spot_of spot) (placed_of next.entry)) cursor.old) result cursor.new }
{
    if is_symbol(Symbol::Underscore, next.word) {
        Ok(Surface::Blank(next.place as u64))
    } else if is_symbol(Symbol::OpenRound, next.word) {
        bracketed(alloc, cursor, inside, spot)
    } else if is_symbol(Symbol::Question, next.word) {
        question(alloc, cursor, inside, spot, next.place)
    } else if is_word("Prop", next.word) {
        Ok(Surface::PropSort)
    } else if is_word("Type", next.word) {
        type_sort(cursor, inside + 1)
    } else {
        Ok(Surface::Ident(name_of(alloc, next.word)?))
    }
}

/// `t)` and `t : A)` behind a bracket.
#[cycle(terms)]
fn bracketed(
    alloc: Global,
    cursor: &mut Cursor<'_, '_>,
    inside: usize,
    spot: Spot,
) -> Result<Surface, Refusal>
    requires { inside ≤ 200 }
    ensures { Gives plain (read (bracketed inside (term inside) (spot_of spot)) cursor.old) result cursor.new }
{
    let first = term(alloc, cursor, inside, within(spot))?;
    let whole = cast_behind(alloc, cursor, inside, spot, first)?;
    cursor.expect(inside + 1, Symbol::CloseRound)?;
    Ok(whole)
}

/// A term, with its type if one is written behind it.
#[cycle(terms)]
#[tactic(auto, using(lq_ast::proofs::PlainLaws::plain_laws))]
fn cast_behind(
    alloc: Global,
    cursor: &mut Cursor<'_, '_>,
    inside: usize,
    spot: Spot,
    left: Surface,
) -> Result<Surface, Refusal>
    requires { inside ≤ 200 }
    ensures { Gives plain (read (cast_behind inside (term inside) (spot_of spot) (plain left)) cursor.old) result cursor.new }
{
    if cursor.sees(Test::Sign(Symbol::Colon)) {
        let kind = boxed_behind(alloc, cursor, inside, Symbol::Colon, inside, within(spot))?;
        Ok(Surface::Cast(Boxed::new(alloc, left)?, kind))
    } else {
        Ok(left)
    }
}

/// The arguments behind those found so far.
#[cycle(terms)]
#[tactic(auto, using(crate::proofs::Loops::loops))]
fn more_arguments(
    alloc: Global,
    cursor: &mut Cursor<'_, '_>,
    inside: usize,
    spot: Spot,
    found: &mut Items<Surface>,
) -> Result<(), Refusal>
    requires { inside ≤ 200 }
    ensures { Gives (λ u. map plain found.new) (read (more_atoms inside (spot_of spot) (map plain found.old)) cursor.old) result cursor.new }
{
    while cursor.sees(Test::Argument(spot.ends)) {
        let next = cursor.take(inside + 1, Test::Argument(spot.ends))?;
        found.push(atom_at(alloc, cursor, inside, spot, next)?)?;
    }
    Ok(())
}

/// A function with its arguments.
#[cycle(terms)]
fn application(
    alloc: Global,
    cursor: &mut Cursor<'_, '_>,
    inside: usize,
    spot: Spot,
    function: Surface,
) -> Result<Surface, Refusal>
    requires { inside ≤ 200 }
    ensures { Gives plain (read (application_of inside (spot_of spot) (plain function)) cursor.old) result cursor.new }
{
    let mut found = Items::new(alloc);
    more_arguments(alloc, cursor, inside, spot, &mut found)?;
    Ok(applied(alloc, function, found)?)
}

/// What a term goes on with behind its first atom: arguments, and an arrow.
#[cycle(terms)]
pub fn arrow(
    alloc: Global,
    cursor: &mut Cursor<'_, '_>,
    inside: usize,
    spot: Spot,
    first: Surface,
) -> Result<Surface, Refusal>
    requires { inside ≤ 200 }
    ensures { Gives plain (read (arrow_term inside (term inside) (spot_of spot) (plain first)) cursor.old) result cursor.new }
{
    let left = application(alloc, cursor, inside, spot, first)?;
    arrow_behind(alloc, cursor, inside, spot, left)
}

/// A term, or an arrow if one is written behind it.
#[cycle(terms)]
#[tactic(auto, using(lq_ast::proofs::PlainLaws::plain_laws))]
fn arrow_behind(
    alloc: Global,
    cursor: &mut Cursor<'_, '_>,
    inside: usize,
    spot: Spot,
    left: Surface,
) -> Result<Surface, Refusal>
    requires { inside ≤ 200 }
    ensures { Gives plain (read (arrow_behind inside (term inside) (spot_of spot) (plain left)) cursor.old) result cursor.new }
{
    if cursor.sees(Test::Sign(Symbol::Arrow)) {
        let right = boxed_behind(alloc, cursor, inside + 1, Symbol::Arrow, inside, spot)?;
        Ok(Surface::Arrow(Boxed::new(alloc, left)?, right))
    } else {
        Ok(left)
    }
}
