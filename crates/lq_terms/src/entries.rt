//! What a bank keeps of each term.

ghost use Rattle.std.specs.Prelude.{◌≡◌, ℕ, ◌+◌, ◌<◌, length, map, slice_get, Some, IfOk};
ghost use Rattle.std.specs.List.{AllByRecursion};
ghost use Rattle.lq_terms.specs.Terms.{EachPart};
ghost use Rattle.lq_terms.specs.Shapes.{shape_by};
ghost use Rattle.lq_terms.specs.Sound.{Entry, class_at};

use crate::classes::{Class, Classes, Shape};
use crate::facts::Facts;
use crate::nodes::{NoMemory, Node, TermId};
use indexmap::IndexMap;
use std::alloc::Global;

/// What is known of a term's tree, its class, and how many shapes there were when it was made.
#[derive(Drop)]
pub(crate) struct Kept {
    pub(crate) facts: Facts,
    pub(crate) class: Class,
    pub(crate) shapes: usize,
}

/// The nodes of terms, each at the term's place, with what is kept of it.
pub(crate) type Entries = IndexMap<Node, Kept>;

/// The shape of a node whose parts have entries.
pub(crate) fn shape_of(alloc: Global, entries: &Entries, node: &Node) -> Result<Shape, NoMemory>
    requires { EachPart (λ _. Unit {0}) (λ t. t.place < length entries.now.entries) node.now }
    ensures { IfOk result (λ s. s ≡ shape_by (class_at entries.now.entries) node.now) }
{
    match node {
        Node::Rel(index) => Ok(Shape::Rel(*index)),
        Node::Var(name) => Ok(Shape::Var(*name)),
        Node::Sort(sort) => Ok(Shape::Sort(*sort)),
        Node::Prod(_, kind, rest) => Ok(Shape::Prod(
            class_at(entries, *kind),
            class_at(entries, *rest),
        )),
        Node::Lam(_, kind, rest) => Ok(Shape::Lam(
            class_at(entries, *kind),
            class_at(entries, *rest),
        )),
        Node::Let(_, value, kind, rest) => Ok(Shape::Let(
            class_at(entries, *value),
            class_at(entries, *kind),
            class_at(entries, *rest),
        )),
        Node::App(function, argument) => Ok(Shape::App(
            class_at(entries, *function),
            class_at(entries, *argument),
        )),
        Node::Const(name) => Ok(Shape::Const(*name)),
        Node::Ind(name) => Ok(Shape::Ind(*name)),
        Node::Ctor(name, index) => Ok(Shape::Ctor(*name, *index)),
        Node::Elim(name, sort) => Ok(Shape::Elim(*name, *sort)),
        Node::Evar(index, parts) => {
            let classes = classes_at(alloc, entries, parts.terms())?;
            Ok(Shape::Evar(*index, classes))
        }
    }
}

/// The class of a term.
fn class_at(entries: &Entries, term: TermId) -> Class
    requires { term.place < length entries.now.entries }
    ensures { result ≡ class_at entries.now.entries term }
{
    entries[term.place].class
}

/// The classes of terms.
fn classes_at(alloc: Global, entries: &Entries, terms: &[TermId]) -> Result<Classes, NoMemory>
    requires { AllByRecursion (λ t. t.place < length entries.now.entries) terms.now }
    ensures { IfOk result (λ c. c ≡ map (class_at entries.now.entries) terms.now) }
{
    let mut classes = Classes::new(alloc);
    for term in terms {
        classes.push(class_at(entries, *term))?;
    }
    Ok(classes)
}

/// How many shapes there were when the last entry was made.
pub(crate) fn shapes_before(entries: &Entries) -> usize
    ensures { (k : ℕ) (e : Entry) → slice_get entries.now.entries k ≡ Some e → k + 1 ≡ length entries.now.entries → result ≡ e.1.shapes }
{
    match entries.last() {
        Some((_, kept)) => kept.shapes,
        None => 0,
    }
}
