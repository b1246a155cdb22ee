//! Commands whose parts are names and terms.

ghost use Rattle.std.specs.Prelude.{◌≡◌, map};
ghost use Rattle.lq_ast.specs.Commands.{theorem, lemma};
ghost use Rattle.lq_ast.specs.Plain.{plain};
ghost use Rattle.lq_ast.specs.PlainCommands.{plain_group, plain_groups, plain_constructor, plain_type, plain_vernac};
ghost use Rattle.lq_grammar.specs.declared.token.Symbol.TheVariants.{OpenRound, Bar, Colon, ColonEqual};
ghost use Rattle.lq_sentences.specs.Words.{is_sign};
ghost use Rattle.lq_sentences.specs.Rules.{read};
ghost use Rattle.lq_sentences.specs.Parts.{behind, many, maybe, separated};
ghost use Rattle.lq_sentences.specs.Sentences.{all_levels, a_term, outer_group, groups, colon, constructor};
ghost use Rattle.lq_sentences.specs.Sentences.{constructors, head, declared, inductive_form, definition_form, statement_form};
ghost use Rattle.lq_sentences.specs.Sentences.{command_of};
ghost use Rattle.lq_sentences.specs.declared.forms.Command.TheVariants.{Print, Check};
ghost use Rattle.lq_phrases.specs.Views.{Gives};
ghost use Rattle.lq_parts.specs.Views.{declared_head, declared_of};

use lq_ast::{Constructor, Group, Name, Surface, Vernac};
use lq_grammar::Symbol;
use lq_phrases::{Cursor, FREE, Refusal, Test, group, term};
use sqlite_items::Items;
use std::alloc::Global;

/// The groups behind those found so far.
#[tactic(auto, using(lq_phrases::proofs::Loops::loops))]
fn more_groups(
    alloc: Global,
    cursor: &mut Cursor<'_, '_>,
    found: &mut Items<Group>,
) -> Result<(), Refusal>
    ensures { Gives (λ u. map plain_group found.new)
        (read (many all_levels (is_sign OpenRound) outer_group (map plain_group found.old)) cursor.old) result cursor.new }
{
    while cursor.sees(Test::Sign(Symbol::OpenRound)) {
        cursor.take(201, Test::Sign(Symbol::OpenRound))?;
        found.push(group(alloc, cursor, 201, FREE)?)?;
    }
    Ok(())
}

/// What is declared with a name before its colon.
fn groups(alloc: Global, cursor: &mut Cursor<'_, '_>) -> Result<Items<Group>, Refusal>
    ensures { Gives plain_groups (read groups cursor.old) result cursor.new }
{
    let mut found = Items::new(alloc);
    more_groups(alloc, cursor, &mut found)?;
    Ok(found)
}

/// A type behind its colon.
fn colon(alloc: Global, cursor: &mut Cursor<'_, '_>) -> Result<Surface, Refusal>
    ensures { Gives plain (read colon cursor.old) result cursor.new }
{
    cursor.expect(201, Symbol::Colon)?;
    term(alloc, cursor, 201, FREE)
}

/// A type behind its colon, if one is written.
#[tactic(auto, using(lq_phrases::proofs::TermLaws::trees))]
fn written_type(alloc: Global, cursor: &mut Cursor<'_, '_>) -> Result<Option<Surface>, Refusal>
    ensures { Gives plain_type (read (maybe (is_sign Colon) colon) cursor.old) result cursor.new }
{
    if cursor.sees(Test::Sign(Symbol::Colon)) {
        Ok(Some(colon(alloc, cursor)?))
    } else {
        Ok(None)
    }
}

/// `c : T`
#[tactic(auto, unfolding(lq_ast::specs::PlainCommands::plain_constructor))]
fn constructor(alloc: Global, cursor: &mut Cursor<'_, '_>) -> Result<Constructor, Refusal>
    ensures { Gives plain_constructor (read constructor cursor.old) result cursor.new }
{
    let name = cursor.name(alloc, 201)?;
    let kind = colon(alloc, cursor)?;
    Ok(Constructor { name, kind })
}

/// The constructors behind those found so far.
#[tactic(auto, using(lq_phrases::proofs::Loops::loops))]
fn more_constructors(
    alloc: Global,
    cursor: &mut Cursor<'_, '_>,
    found: &mut Items<Constructor>,
) -> Result<(), Refusal>
    ensures { Gives (λ u. map plain_constructor found.new)
        (read (many all_levels (is_sign Bar) (λ w. constructor) (map plain_constructor found.old)) cursor.old) result cursor.new }
{
    while cursor.sees(Test::Sign(Symbol::Bar)) {
        cursor.take(201, Test::Sign(Symbol::Bar))?;
        found.push(constructor(alloc, cursor)?)?;
    }
    Ok(())
}

/// Constructors, and at least one.
fn some_constructors(
    alloc: Global,
    cursor: &mut Cursor<'_, '_>,
) -> Result<Items<Constructor>, Refusal>
    ensures { Gives (map plain_constructor) (read (separated all_levels Bar constructor) cursor.old) result cursor.new }
{
    let mut found = Items::new(alloc);
    found.push(constructor(alloc, cursor)?)?;
    more_constructors(alloc, cursor, &mut found)?;
    Ok(found)
}

/// The constructors of a family.
fn constructors(alloc: Global, cursor: &mut Cursor<'_, '_>) -> Result<Items<Constructor>, Refusal>
    ensures { Gives (map plain_constructor) (read constructors cursor.old) result cursor.new }
{
    if cursor.sees(Test::Sign(Symbol::Stop)) {
        Ok(Items::new(alloc))
    } else {
        cursor.eat(201, Test::Sign(Symbol::Bar))?;
        some_constructors(alloc, cursor)
    }
}

/// A name and what is declared with it before its colon.
fn head(alloc: Global, cursor: &mut Cursor<'_, '_>) -> Result<(Name, Items<Group>), Refusal>
    ensures { Gives declared_head (read head cursor.old) result cursor.new }
{
    let name = cursor.name(alloc, 201)?;
    let parameters = groups(alloc, cursor)?;
    Ok((name, parameters))
}

/// A name, what is declared with it before its colon, and its type.
fn declared(
    alloc: Global,
    cursor: &mut Cursor<'_, '_>,
) -> Result<(Name, Items<Group>, Surface), Refusal>
    ensures { Gives declared_of (read declared cursor.old) result cursor.new }
{
    let (name, parameters) = head(alloc, cursor)?;
    let kind = colon(alloc, cursor)?;
    Ok((name, parameters, kind))
}

/// `Inductive` behind its word.
#[tactic(auto, unfolding(lq_ast::specs::PlainCommands::plain_vernac))]
pub fn inductive(alloc: Global, cursor: &mut Cursor<'_, '_>) -> Result<Vernac, Refusal>
    ensures { Gives plain_vernac (read inductive_form cursor.old) result cursor.new }
{
    let (name, parameters, kind) = declared(alloc, cursor)?;
    let found = behind_becomes(alloc, cursor)?;
    Ok(Vernac::Inductive(name, parameters, kind, found))
}

/// The constructors of a family behind `:=`.
fn behind_becomes(alloc: Global, cursor: &mut Cursor<'_, '_>) -> Result<Items<Constructor>, Refusal>
    ensures { Gives (map plain_constructor) (read (behind all_levels ColonEqual constructors) cursor.old) result cursor.new }
{
    cursor.expect(201, Symbol::ColonEqual)?;
    constructors(alloc, cursor)
}

/// A term behind `:=`.
fn value(alloc: Global, cursor: &mut Cursor<'_, '_>) -> Result<Surface, Refusal>
    ensures { Gives plain (read (behind all_levels ColonEqual a_term) cursor.old) result cursor.new }
{
    cursor.expect(201, Symbol::ColonEqual)?;
    term(alloc, cursor, 201, FREE)
}

/// `Definition` behind its word.
#[tactic(auto, unfolding(lq_ast::specs::PlainCommands::plain_vernac))]
pub fn definition(alloc: Global, cursor: &mut Cursor<'_, '_>) -> Result<Vernac, Refusal>
    ensures { Gives plain_vernac (read definition_form cursor.old) result cursor.new }
{
    let (name, parameters) = head(alloc, cursor)?;
    let kind = written_type(alloc, cursor)?;
    let body = value(alloc, cursor)?;
    Ok(Vernac::Definition(name, parameters, kind, body))
}

/// `Print` behind its word.
#[tactic(auto, unfolding(lq_ast::specs::PlainCommands::plain_vernac))]
pub fn print(alloc: Global, cursor: &mut Cursor<'_, '_>) -> Result<Vernac, Refusal>
    ensures { Gives plain_vernac (read (command_of Print) cursor.old) result cursor.new }
{
    Ok(Vernac::Print(cursor.name(alloc, 201)?))
}

/// `Check` behind its word.
#[tactic(auto, unfolding(lq_ast::specs::PlainCommands::plain_vernac))]
pub fn check(alloc: Global, cursor: &mut Cursor<'_, '_>) -> Result<Vernac, Refusal>
    ensures { Gives plain_vernac (read (command_of Check) cursor.old) result cursor.new }
{
    Ok(Vernac::Check(term(alloc, cursor, 201, FREE)?))
}

/// `Theorem` behind its word.
#[tactic(auto, unfolding(lq_ast::specs::PlainCommands::plain_vernac))]
pub fn theorem(alloc: Global, cursor: &mut Cursor<'_, '_>) -> Result<Vernac, Refusal>
    ensures { Gives plain_vernac (read (statement_form theorem) cursor.old) result cursor.new }
{
    let (name, parameters, kind) = declared(alloc, cursor)?;
    Ok(Vernac::Theorem(name, parameters, kind))
}

/// `Lemma` behind its word.
#[tactic(auto, unfolding(lq_ast::specs::PlainCommands::plain_vernac))]
pub fn lemma(alloc: Global, cursor: &mut Cursor<'_, '_>) -> Result<Vernac, Refusal>
    ensures { Gives plain_vernac (read (statement_form lemma) cursor.old) result cursor.new }
{
    let (name, parameters, kind) = declared(alloc, cursor)?;
    Ok(Vernac::Lemma(name, parameters, kind))
}
