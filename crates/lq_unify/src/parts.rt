//! The parts of a term, and a term with other parts in their places.

ghost use Rattle.std.specs.Prelude.{◌≡◌, [], ◌∷◌, length, map, IfOk};
ghost use Rattle.std.specs.List.{AllByRecursion};
ghost use Rattle.lq_trees.specs.Tree.{Tree};
ghost use Rattle.lq_terms.specs.Terms.{HasTerm, IsTerm, tree_of, trees_by, Grows};
ghost use Rattle.lq_unify.specs.Parts.{parts_of, with_parts};

use lq_terms::{Bank, Instance, NoMemory, Node, TermId};
use std::alloc::Global;

/// These two terms.
fn two(alloc: Global, first: TermId, second: TermId) -> Result<Vec<TermId>, NoMemory>
    ensures { IfOk result (λ ts. ts.items ≡ first ∷ second ∷ []) }
{
    let mut terms = Vec::new(alloc);
    terms.push(first)?;
    terms.push(second)?;
    Ok(terms)
}

/// These three terms.
fn three(
    alloc: Global,
    first: TermId,
    second: TermId,
    third: TermId,
) -> Result<Vec<TermId>, NoMemory>
    ensures { IfOk result (λ ts. ts.items ≡ first ∷ second ∷ third ∷ []) }
{
    let mut terms = Vec::new(alloc);
    terms.push(first)?;
    terms.push(second)?;
    terms.push(third)?;
    Ok(terms)
}

/// The parts of a term, from the left.
pub(crate) fn parts_of(bank: &Bank<'_>, term: TermId) -> Result<Vec<TermId>, NoMemory>
    requires { HasTerm bank.now term }
    ensures are { IfOk result (λ ts. map (tree_of bank.now) ts.items ≡ parts_of (tree_of bank.now term)) }
    ensures has { IfOk result (λ ts. AllByRecursion (HasTerm bank.now) ts.items) }
{
    match bank.node(term) {
        Node::Prod(_, kind, rest) => two(bank.allocator(), *kind, *rest),
        Node::Lam(_, kind, rest) => two(bank.allocator(), *kind, *rest),
        Node::Let(_, value, kind, rest) => three(bank.allocator(), *value, *kind, *rest),
        Node::App(function, argument) => two(bank.allocator(), *function, *argument),
        Node::Evar(_, parts) => {
            let parts = Vec::from_slice(bank.allocator(), parts.terms())?;
            Ok(parts)
        }
        Node::Rel(_)
        | Node::Var(_)
        | Node::Sort(_)
        | Node::Const(_)
        | Node::Ind(_)
        | Node::Ctor(..)
        | Node::Elim(..) => Ok(Vec::new(bank.allocator())),
    }
}

/// A variable with these entries.
fn variable_with(bank: &mut Bank<'_>, variable: u32, entries: &[TermId]) -> Result<TermId, NoMemory>
    requires { AllByRecursion (HasTerm bank.old) entries.now }
    ensures made { IfOk result (λ t. IsTerm bank.new t (Tree.Evar variable (trees_by (tree_of bank.old) entries.now))) }
    ensures grows { Grows bank.old bank.new }
{
    let entries = Vec::from_slice(bank.allocator(), entries)?;
    bank.make(Node::Evar(variable, Instance::from_terms(entries)))
}

/// A term with other parts, as many, in the places of its own.
pub(crate) fn with_parts(
    bank: &mut Bank<'_>,
    term: TermId,
    parts: &[TermId],
) -> Result<TermId, NoMemory>
    requires term { HasTerm bank.old term }
    requires parts { AllByRecursion (HasTerm bank.old) parts.now }
    requires as_many { length parts.now ≡ length (parts_of (tree_of bank.old term)) }
    ensures made { IfOk result (λ t. IsTerm bank.new t (with_parts (tree_of bank.old term) (map (tree_of bank.old) parts.now))) }
    ensures grows { Grows bank.old bank.new }
{
    match bank.node(term) {
        Node::Prod(binder, _, _) => {
            let binder = *binder;
            bank.make(Node::Prod(binder, parts[0], parts[1]))
        }
        Node::Lam(binder, _, _) => {
            let binder = *binder;
            bank.make(Node::Lam(binder, parts[0], parts[1]))
        }
        Node::Let(binder, _, _, _) => {
            let binder = *binder;
            bank.make(Node::Let(binder, parts[0], parts[1], parts[2]))
        }
        Node::App(_, _) => bank.make(Node::App(parts[0], parts[1])),
        Node::Evar(variable, _) => {
            let variable = *variable;
            variable_with(bank, variable, parts)
        }
        Node::Rel(_)
        | Node::Var(_)
        | Node::Sort(_)
        | Node::Const(_)
        | Node::Ind(_)
        | Node::Ctor(..)
        | Node::Elim(..) => Ok(term),
    }
}
