//! A term is spelled item after item.

ghost use Rattle.std.specs.Prelude.{◌≡◌, ◌≤◌, ◌<◌, ◌+◌, ◌*◌, [], ◌∷◌, ◌++◌, map, length, OnOk, IfOk};
ghost use Rattle.std.specs.List.{AllByRecursion};
ghost use Rattle.std.specs.String.{string_bytes};
ghost use Rattle.lq_trees.specs.Tree.{Tree, Name};
ghost use Rattle.lq_trees.specs.Size.{size};
ghost use Rattle.lq_terms.specs.Terms.{Terms, HasName, HasTerm, text_of, tree_of, trees_by};
ghost use Rattle.lq_print.specs.declared.pieces.Piece.{Piece};
ghost use Rattle.lq_calculus.specs.Declarations.{lookup};
ghost use Rattle.lq_texts.specs.Printing.{constructor_name, eliminator_text, nth_name};
ghost use Rattle.lq_env.specs.Families.{HasConstructor, constructors_of};
ghost use Rattle.lq_env.specs.Environments.{IsEnv, IsOwn, env_of};
ghost use Rattle.std.specs.Option.{option_copied};
ghost use Rattle.lq_print.specs.declared.work.Work.{Work};
ghost use Rattle.lq_print.specs.Spelling.{Spelled, spell, put_name, enter, leave, hide};
ghost use Rattle.lq_print.specs.Pieces.{spelled_of, IsSpelling, Spells};
ghost use Rattle.lq_print.specs.Works.{HasScope, HasWork, IsFamilyAt, Turned, Closes, done, run, weight};

use crate::pieces::{Binder, Piece};
use crate::spelling::{Spelling, emit, enter, leave, put_bound, put_name};
use crate::steps::write;
use crate::work::{Scope, Work};
use crate::writing::write_number;
use lq_env::{Entry, Env, Family};
use lq_terms::{Bank, NameId, NoMemory, Node, TermId};
use lq_trees::Sort;

/// A declared family.
fn family_of(env: &Env, name: NameId) -> Option<&Family>
    ensures { (bank : Terms) → IsEnv bank env.now → IsOwn bank name
        → IsFamilyAt bank (option_copied result) (lookup (env_of bank env.now) (text_of bank name)) }
{
    match env.lookup(name) {
        Some(entry) => match entry {
            Entry::Family(family, _) => Some(family),
            Entry::Constant { .. } => None,
            Entry::Arity { .. } => None,
            Entry::Constructor { .. } => None,
            Entry::Eliminator { .. } => None,
        },
        None => None,
    }
}

/// The name of the constructor at a place; the empty one where there is none.
fn nth_name<'t>(bank: &'t Bank<'_>, constructors: &[(NameId, TermId)], place: usize) -> &'t str
    requires { AllByRecursion (HasConstructor bank.now) constructors.now }
    ensures { result.now ≡ nth_name (constructors_of bank.now constructors.now) place }
{
    if place >= constructors.len() {
        return "";
    }
    bank.text(constructors[place].0)
}

/// The printed name of a constructor, which is empty where the family has no such constructor.
fn constructor_name<'t>(bank: &'t Bank<'_>, env: &Env, family: NameId, index: u32) -> &'t str
    requires env { IsEnv bank.now env.now }
    requires family { HasName bank.now family }
    ensures { result.now ≡ constructor_name (env_of bank.now env.now) (text_of bank.now family) index }
{
    bank.names_apart();
    let Some(family) = family_of(env, family) else {
        return "";
    };
    nth_name(bank, family.constructors.constructors(), index as usize)
}

/// The printed name of an eliminator.
#[tactic(auto, unfolding(lq_texts::specs::Printing::eliminator_text))]
fn eliminator_text(bank: &Bank<'_>, family: NameId, sort: Sort) -> Result<String, NoMemory>
    requires { HasName bank.now family }
    ensures { IfOk result (λ x. string_bytes x ≡ eliminator_text (text_of bank.now family) sort) }
{
    let mut text = String::new(bank.allocator());
    write(&mut text, bank.text(family))?;
    match sort {
        Sort::Base => write(&mut text, "_ind")?,
        Sort::Level(level) => {
            write(&mut text, "_rec")?;
            write_number(&mut text, u64::from(level))?
        }
    }
    Ok(text)
}

/// Spells an eliminator.
fn put_eliminator(
    bank: &Bank<'_>,
    spelling: &mut Spelling,
    family: NameId,
    sort: Sort,
) -> Result<(), NoMemory>
    requires family { HasName bank.now family }
    requires spelling { IsSpelling bank.now spelling.old }
    ensures { OnOk result (Spells bank.now spelling.old spelling.new (put_name (eliminator_text (text_of bank.now family) sort))) }
{
    let text = eliminator_text(bank, family, sort)?;
    put_name(spelling, text.as_str())
}

/// A binder begins, whose body is to be spelled; what is to be done then is put on.
fn open(
    spelling: &mut Spelling,
    work: &mut Vec<Work>,
    then: Work,
    body: TermId,
) -> Result<(), NoMemory>
    ensures enters { OnOk result ((bank : Terms) → IsSpelling bank spelling.old → Spells bank spelling.old spelling.new enter) }
    ensures work { OnOk result (work.new.items ≡ work.old.items ++ then ∷ Work.Visit body ∷ []) }
{
    enter(spelling)?;
    work.push(then)?;
    work.push(Work::Visit(body))?;
    Ok(())
}

/// Puts on the parts of an application.
fn put_parts(work: &mut Vec<Work>, function: TermId, argument: TermId) -> Result<(), NoMemory>
    ensures { OnOk result (work.new.items ≡ work.old.items ++ Work.Emit Piece.Applied ∷ Work.Visit function ∷ Work.Visit argument ∷ []) }
{
    work.push(Work::Emit(Piece::Applied))?;
    work.push(Work::Visit(function))?;
    work.push(Work::Visit(argument))?;
    Ok(())
}

/// Puts on terms to be spelled.
fn put_each(work: &mut Vec<Work>, terms: &[TermId]) -> Result<(), NoMemory>
    ensures { OnOk result (work.new.items ≡ work.old.items ++ map Work.Visit terms.now) }
{
    for term in terms {
        work.push(Work::Visit(*term))?;
    }
    Ok(())
}

/// Puts on the entries of a variable's instance, and that their pieces are left out then.
fn put_instance(
    work: &mut Vec<Work>,
    number: u32,
    pieces: usize,
    entries: &[TermId],
) -> Result<(), NoMemory>
    ensures { OnOk result (work.new.items ≡ work.old.items ++ Work.Hide number pieces ∷ map Work.Visit entries.now) }
{
    work.push(Work::Hide(number, pieces))?;
    put_each(work, entries)
}

/// A term is looked at: it is a piece, or its parts are put on.
fn visit(
    bank: &Bank<'_>,
    env: &Env,
    spelling: &mut Spelling,
    work: &mut Vec<Work>,
    term: TermId,
) -> Result<(), NoMemory>
    requires env { IsEnv bank.now env.now }
    requires term { HasTerm bank.now term }
    requires spelling { IsSpelling bank.now spelling.old }
    ensures { OnOk result (Turned bank.now (env_of bank.now env.now) (spell (env_of bank.now env.now) (tree_of bank.now term))
        (3 * size (tree_of bank.now term))
        work.old.items work.new.items spelling.old spelling.new) }
{
    let low = spelling.names.len();
    match bank.node(term) {
        Node::Rel(index) => put_bound(spelling, *index),
        Node::Var(name) => put_name(spelling, bank.text(*name)),
        Node::Sort(sort) => emit(spelling, Piece::Sort(*sort)),
        Node::Prod(name, kind, rest) => {
            let scope = Scope {
                name: *name,
                low,
                kind: *kind,
            };
            open(spelling, work, Work::Product(scope), *rest)
        }
        Node::Lam(name, kind, rest) => {
            let scope = Scope {
                name: *name,
                low,
                kind: *kind,
            };
            open(spelling, work, Work::Function(scope), *rest)
        }
        Node::Let(name, value, kind, rest) => {
            let scope = Scope {
                name: *name,
                low,
                kind: *kind,
            };
            open(spelling, work, Work::Local(scope, *value), *rest)
        }
        Node::App(function, argument) => put_parts(work, *function, *argument),
        Node::Const(name) => put_name(spelling, bank.text(*name)),
        Node::Ind(name) => put_name(spelling, bank.text(*name)),
        Node::Ctor(family, index) => {
            put_name(spelling, constructor_name(bank, env, *family, *index))
        }
        Node::Elim(family, sort) => put_eliminator(bank, spelling, *family, *sort),
        Node::Evar(number, parts) => {
            put_instance(work, *number, spelling.pieces.len(), parts.terms())
        }
    }
}

/// A binder ends over a body that is spelled: the binder.
fn close(spelling: &mut Spelling, scope: Scope) -> Binder
    ensures binder { (bank : Terms) → HasScope bank spelling.old scope → Closes bank scope spelling.old spelling.new result }
    ensures leaves { (bank : Terms) → IsSpelling bank spelling.old → Spells bank spelling.old spelling.new leave }
{
    let is_used = leave(&mut spelling.flags);
    Binder {
        name: scope.name,
        is_used,
        low: scope.low,
        high: spelling.names.len(),
    }
}

/// Puts on a node behind a type.
fn put_kind(work: &mut Vec<Work>, piece: Piece, kind: TermId) -> Result<(), NoMemory>
    ensures { OnOk result (work.new.items ≡ work.old.items ++ Work.Emit piece ∷ Work.Visit kind ∷ []) }
{
    work.push(Work::Emit(piece))?;
    work.push(Work::Visit(kind))?;
    Ok(())
}

/// Puts on a node behind a type, and that behind a value.
fn put_kind_and_value(
    work: &mut Vec<Work>,
    piece: Piece,
    kind: TermId,
    value: TermId,
) -> Result<(), NoMemory>
    ensures { OnOk result (work.new.items ≡ work.old.items ++ Work.Emit piece ∷ Work.Visit kind ∷ Work.Visit value ∷ []) }
{
    put_kind(work, piece, kind)?;
    work.push(Work::Visit(value))?;
    Ok(())
}

/// Leaves out the pieces from a place on, and puts a variable.
fn hide(spelling: &mut Spelling, number: u32, pieces: usize) -> Result<(), NoMemory>
    ensures { OnOk result ((bank : Terms) → IsSpelling bank spelling.old → Spells bank spelling.old spelling.new (hide number pieces)) }
{
    spelling.pieces.truncate(pieces);
    spelling.pieces.push(Piece::Unknown(number))?;
    Ok(())
}

/// Does one item of what is left.
fn step(
    bank: &Bank<'_>,
    env: &Env,
    spelling: &mut Spelling,
    work: &mut Vec<Work>,
    item: Work,
) -> Result<(), NoMemory>
    requires env { IsEnv bank.now env.now }
    requires item { HasWork bank.now spelling.old item }
    requires spelling { IsSpelling bank.now spelling.old }
    ensures { OnOk result (Turned bank.now (env_of bank.now env.now) (done bank.now (env_of bank.now env.now) spelling.old item) (weight bank.now item)
        work.old.items work.new.items spelling.old spelling.new) }
{
    match item {
        Work::Visit(term) => visit(bank, env, spelling, work, term),
        Work::Product(scope) => {
            let binder = close(spelling, scope);
            put_kind(work, Piece::Product(binder), scope.kind)
        }
        Work::Function(scope) => {
            let binder = close(spelling, scope);
            put_kind(work, Piece::Function(binder), scope.kind)
        }
        Work::Local(scope, value) => {
            let binder = close(spelling, scope);
            put_kind_and_value(work, Piece::Local(binder), scope.kind, value)
        }
        Work::Emit(piece) => emit(spelling, piece),
        Work::Hide(number, pieces) => hide(spelling, number, pieces),
    }
}

/// Does what is left.
fn run(
    bank: &Bank<'_>,
    env: &Env,
    spelling: &mut Spelling,
    work: &mut Vec<Work>,
) -> Result<(), NoMemory>
    requires env { IsEnv bank.now env.now }
    requires work { AllByRecursion (HasWork bank.now spelling.old) work.old.items }
    requires spelling { IsSpelling bank.now spelling.old }
    ensures { OnOk result (Spells bank.now spelling.old spelling.new (run bank.now (env_of bank.now env.now) spelling.old work.old.items)) }
{
    while let Some(item) = work.pop() {
        step(bank, env, spelling, work, item)?;
    }
    Ok(())
}

/// Spells a term.
pub(crate) fn spell(
    bank: &Bank<'_>,
    env: &Env,
    spelling: &mut Spelling,
    term: TermId,
) -> Result<(), NoMemory>
    requires env { IsEnv bank.now env.now }
    requires term { HasTerm bank.now term }
    requires spelling { IsSpelling bank.now spelling.old }
    ensures { OnOk result (Spells bank.now spelling.old spelling.new (spell (env_of bank.now env.now) (tree_of bank.now term))) }
{
    let mut work = Vec::new(bank.allocator());
    work.push(Work::Visit(term))?;
    run(bank, env, spelling, &mut work)
}
