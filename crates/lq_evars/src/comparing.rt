//! Two terms are compared as they read. Nothing is built: each is gone through with what is around it, and what is left to compare
//! stands on a stack.

ghost use Rattle.std.specs.Prelude.{◌≡◌, ◌<◌, ◌^◌, [], ◌∷◌, ◌++◌, map, length, true, OnOk, IfOk};
ghost use Rattle.lq_terms.specs.Terms.{tree_of};
ghost use Rattle.lq_evars.specs.declared.scopes.Around.{Around};
ghost use Rattle.lq_solving.specs.Stores.{reads_same};
ghost use Rattle.lq_solving.specs.Kept.{IsStore};
ghost use Rattle.lq_evars.specs.Places.{store_of, HasStore};
ghost use Rattle.lq_evars.specs.Closures.{AreLinks, IsTermOver, HasClosure, depth_of, closure_tree, SettledClosure, beside, under, closure_parts, paired};
ghost use Rattle.lq_evars.specs.Closures.{HasPair};
ghost use Rattle.lq_evars.specs.Closures.{IsShallow, same_pair, ComparesTo, first_pair};
ghost use Rattle.lq_evars.specs.Noting.{AreSame, AreMarks};

use crate::labels::{label_of, same_label};
use crate::noting::{Mark, is_noted, note_marks, put_mark};
use crate::scopes::{Around, Closure, Link, turned};
use crate::store::Store;
use indexmap::IndexMap;
use lq_terms::{Bank, NoMemory, Node, TermId, holds_hypothesis, holds_unknown, loose, same};
use std::alloc::Global;

/// Two closures that are left to compare.
#[derive(Clone, Copy)]
pub(crate) struct Pair {
    pub(crate) left: Closure,
    pub(crate) right: Closure,
}

/// A part of a closure's term.
fn part(closure: Closure, term: TermId) -> Closure
    ensures { result ≡ beside closure term }
{
    Closure {
        term,
        around: closure.around,
        base: closure.base,
        under: closure.under,
    }
}

/// What is under the binder of a closure's term.
fn rest(closure: Closure, term: TermId) -> Closure
    requires { depth_of closure < 2 ^ 63 }
    ensures { result ≡ under closure term }
{
    Closure {
        term,
        around: closure.around,
        base: closure.base,
        under: closure.under + 1,
    }
}

/// Puts on two closures.
fn push_two(parts: &mut Vec<Closure>, first: Closure, second: Closure) -> Result<(), NoMemory>
    ensures { OnOk result (parts.new.items ≡ parts.old.items ++ first ∷ second ∷ []) }
{
    parts.push(first)?;
    parts.push(second)?;
    Ok(())
}

/// Puts on three closures.
fn push_three(
    parts: &mut Vec<Closure>,
    first: Closure,
    second: Closure,
    third: Closure,
) -> Result<(), NoMemory>
    ensures { OnOk result (parts.new.items ≡ parts.old.items ++ first ∷ second ∷ third ∷ []) }
{
    parts.push(first)?;
    parts.push(second)?;
    parts.push(third)?;
    Ok(())
}

/// Puts on the entries of an instance.
fn push_entries(
    parts: &mut Vec<Closure>,
    closure: Closure,
    entries: &[TermId],
) -> Result<(), NoMemory>
    ensures { OnOk result (parts.new.items ≡ parts.old.items ++ map (beside closure) entries.now) }
{
    for entry in entries {
        parts.push(part(closure, *entry))?;
    }
    Ok(())
}

/// Puts on the parts of a closure.
fn push_parts(parts: &mut Vec<Closure>, closure: Closure, node: &Node) -> Result<(), NoMemory>
    requires { depth_of closure < 2 ^ 63 }
    ensures { OnOk result (parts.new.items ≡ parts.old.items ++ closure_parts closure node.now) }
{
    match node {
        Node::Prod(_, kind, under) => {
            push_two(parts, part(closure, *kind), rest(closure, *under))
        }
        Node::Lam(_, kind, under) => {
            push_two(parts, part(closure, *kind), rest(closure, *under))
        }
        Node::Let(_, value, kind, under) => push_three(
            parts,
            part(closure, *value),
            part(closure, *kind),
            rest(closure, *under),
        ),
        Node::App(function, argument) => {
            push_two(parts, part(closure, *function), part(closure, *argument))
        }
        Node::Evar(_, entries) => push_entries(parts, closure, entries.terms()),
        Node::Rel(_)
        | Node::Var(_)
        | Node::Sort(_)
        | Node::Const(_)
        | Node::Ind(_)
        | Node::Ctor(..)
        | Node::Elim(..) => Ok(()),
    }
}

/// The parts of a closure, by the node of its term.
fn parts_of(alloc: Global, closure: Closure, node: &Node) -> Result<Vec<Closure>, NoMemory>
    requires { depth_of closure < 2 ^ 63 }
    ensures { IfOk result (λ cs. cs.items ≡ closure_parts closure node.now) }
{
    let mut parts = Vec::new(alloc);
    push_parts(&mut parts, closure, node)?;
    Ok(parts)
}

/// Puts on closures, pairwise.
fn push_each(work: &mut Vec<Pair>, left: &[Closure], right: &[Closure]) -> Result<(), NoMemory>
    ensures { OnOk result (work.new.items ≡ work.old.items ++ paired left.now right.now) }
{
    for i in 0..left.len() {
        if i >= right.len() {
            return Ok(());
        }
        work.push(Pair {
            left: left[i],
            right: right[i],
        })?;
    }
    Ok(())
}

/// Puts on the parts of two closures, pairwise.
fn push_pairs(
    alloc: Global,
    work: &mut Vec<Pair>,
    pair: Pair,
    left: &Node,
    right: &Node,
) -> Result<(), NoMemory>
    requires left { depth_of pair.left < 2 ^ 63 }
    requires right { depth_of pair.right < 2 ^ 63 }
    ensures { OnOk result (work.new.items ≡ work.old.items ++ paired (closure_parts pair.left left.now) (closure_parts pair.right right.now)) }
{
    let left = parts_of(alloc, pair.left, left)?;
    let right = parts_of(alloc, pair.right, right)?;
    push_each(work, left.as_slice(), right.as_slice())
}

/// Compares two closures that stand for themselves: their heads now, their parts later.
fn compare(
    bank: &Bank<'_>,
    store: &Store,
    links: &[Link],
    work: &mut Vec<Pair>,
    pair: Pair,
) -> Result<bool, NoMemory>
    requires links { AreLinks bank.now (store_of bank.now store.now).variables links.now }
    requires pair { HasPair bank.now (store_of bank.now store.now).variables (length links.now) pair }
    requires shallow { IsShallow (length work.old.items) pair }
    requires left { SettledClosure bank.now (store_of bank.now store.now) links.now pair.left }
    requires right { SettledClosure bank.now (store_of bank.now store.now) links.now pair.right }
    ensures { IfOk result (ComparesTo bank.now (store_of bank.now store.now) links.now links.now pair work.old.items work.new.items) }
{
    let left_node = bank.node(pair.left.term);
    let right_node = bank.node(pair.right.term);
    let left = label_of(bank, store, links, pair.left, left_node);
    let right = label_of(bank, store, links, pair.right, right_node);
    if !same_label(bank, left, right) {
        return Ok(false);
    }
    push_pairs(bank.allocator(), work, pair, left_node, right_node)?;
    Ok(true)
}

/// Puts on a pair with one closure turned, if one is; compares the pair otherwise.
fn turn(
    bank: &Bank<'_>,
    store: &Store,
    links: &mut Vec<Link>,
    work: &mut Vec<Pair>,
    pair: Pair,
) -> Result<bool, NoMemory>
    requires store { HasStore bank.now store.now }
    requires kept { IsStore (store_of bank.now store.now) }
    requires links { AreLinks bank.now (store_of bank.now store.now).variables links.old.items }
    requires pair { HasPair bank.now (store_of bank.now store.now).variables (length links.old.items) pair }
    requires shallow { IsShallow (length work.old.items) pair }
    ensures { IfOk result (ComparesTo bank.now (store_of bank.now store.now) links.old.items links.new.items pair work.old.items work.new.items) }
{
    if let Some(left) = turned(bank, store, links, pair.left)? {
        work.push(Pair {
            left,
            right: pair.right,
        })?;
        return Ok(true);
    }
    if let Some(right) = turned(bank, store, links, pair.right)? {
        work.push(Pair {
            left: pair.left,
            right,
        })?;
        return Ok(true);
    }
    compare(bank, store, links.as_slice(), work, pair)
}

/// Whether nothing is around a closure.
pub(crate) fn is_alone(closure: Closure) -> bool
    ensures around { result ≡ true → closure.around ≡ Around.Nothing }
    ensures base { result ≡ true → closure.base ≡ 0 }
{
    match closure.around {
        Around::Nothing => closure.base == 0,
        Around::At(_) => false,
    }
}

/// Whether a closure's term holds no variable, and stands for itself in what is around it; in one step.
fn is_plain(bank: &Bank<'_>, store: &Store, links: &[Link], closure: Closure) -> bool
    requires closure { HasClosure bank.now (store_of bank.now store.now).variables (length links.now) closure }
    ensures { result ≡ true → closure_tree bank.now (store_of bank.now store.now) links.now closure ≡ tree_of bank.now closure.term }
{
    let _store = store;
    let _links = links;
    if holds_unknown(bank, closure.term) {
        return false;
    }
    if is_alone(closure) {
        return true;
    }
    if holds_hypothesis(bank, closure.term) {
        return false;
    }
    loose(bank, closure.term) <= closure.under as u64
}

/// Whether what is around is one place.
fn same_around(left: Around, right: Around) -> bool
    ensures { result ≡ true → left ≡ right }
{
    match left {
        Around::Nothing => match right {
            Around::Nothing => true,
            Around::At(_) => false,
        },
        Around::At(place) => match right {
            Around::Nothing => false,
            Around::At(other) => place == other,
        },
    }
}

/// Whether two closures are one.
fn is_one(left: Closure, right: Closure) -> bool
    ensures { result ≡ true → left ≡ right }
{
    left.term == right.term
        && left.base == right.base
        && left.under == right.under
        && same_around(left.around, right.around)
}

/// Compares a pair that was just taken off the others, or puts on what is to be compared in its place, with a mark.
fn step(
    bank: &Bank<'_>,
    store: &Store,
    links: &mut Vec<Link>,
    work: &mut Vec<Pair>,
    known: &IndexMap<TermId, TermId>,
    marks: &mut Vec<Mark>,
    pair: Pair,
) -> Result<bool, NoMemory>
    requires store { HasStore bank.now store.now }
    requires kept { IsStore (store_of bank.now store.now) }
    requires links { AreLinks bank.now (store_of bank.now store.now).variables links.old.items }
    requires pair { HasPair bank.now (store_of bank.now store.now).variables (length links.old.items) pair }
    requires shallow { IsShallow (length work.old.items) pair }
    requires known { AreSame bank.now (store_of bank.now store.now) known.now.entries }
    requires marks { AreMarks bank.now (store_of bank.now store.now) links.old.items (work.old.items ++ pair ∷ []) marks.old.items }
    ensures compared { IfOk result
        (ComparesTo bank.now (store_of bank.now store.now) links.old.items links.new.items pair work.old.items work.new.items) }
    ensures marks { OnOk result (AreMarks bank.now (store_of bank.now store.now) links.old.items (work.old.items ++ pair ∷ []) marks.new.items) }
{
    if is_one(pair.left, pair.right) {
        return Ok(true);
    }
    if is_plain(bank, store, links.as_slice(), pair.left)
        && is_plain(bank, store, links.as_slice(), pair.right)
    {
        return Ok(same(bank, pair.left.term, pair.right.term));
    }
    if is_noted(bank, store, links.as_slice(), known, pair) {
        return Ok(true);
    }
    put_mark(bank, store, links.as_slice(), work.as_slice(), pair, marks)?;
    turn(bank, store, links, work, pair)
}

/// The pair of two terms with nothing around them.
fn first(left: TermId, right: TermId) -> Pair
    ensures { result ≡ first_pair left right }
{
    Pair {
        left: Closure {
            term: left,
            around: Around::Nothing,
            base: 0,
            under: 0,
        },
        right: Closure {
            term: right,
            around: Around::Nothing,
            base: 0,
            under: 0,
        },
    }
}

/// Compares two terms, with no links, nothing left to compare and nothing noted at first.
fn run(
    bank: &Bank<'_>,
    store: &Store,
    links: &mut Vec<Link>,
    work: &mut Vec<Pair>,
    known: &mut IndexMap<TermId, TermId>,
    marks: &mut Vec<Mark>,
    pair: Pair,
) -> Result<bool, NoMemory>
    requires store { HasStore bank.now store.now }
    requires kept { IsStore (store_of bank.now store.now) }
    requires left { IsTermOver bank.now (store_of bank.now store.now).variables pair.left.term }
    requires right { IsTermOver bank.now (store_of bank.now store.now).variables pair.right.term }
    requires first { pair ≡ first_pair pair.left.term pair.right.term }
    requires links { links.old.items ≡ [] }
    requires work { work.old.items ≡ [] }
    requires known { known.old.entries ≡ [] }
    requires marks { marks.old.items ≡ [] }
    ensures { IfOk result (λ b. b ≡ same_pair bank.now (store_of bank.now store.now) [] pair) }
{
    work.push(pair)?;
    while let Some(next) = work.pop() {
        note_marks(
            bank,
            store,
            links.as_slice(),
            work.as_slice(),
            next,
            known,
            marks,
        )?;
        if !step(bank, store, links, work, known, marks, next)? {
            return Ok(false);
        }
    }
    Ok(true)
}

/// Whether two terms as they read are equal but for the names of binders.
pub(crate) fn reads_alike(
    bank: &Bank<'_>,
    store: &Store,
    left: TermId,
    right: TermId,
) -> Result<bool, NoMemory>
    requires store { HasStore bank.now store.now }
    requires kept { IsStore (store_of bank.now store.now) }
    requires left { IsTermOver bank.now (store_of bank.now store.now).variables left }
    requires right { IsTermOver bank.now (store_of bank.now store.now).variables right }
    ensures { IfOk result (λ b. b ≡ reads_same (store_of bank.now store.now) (tree_of bank.now left) (tree_of bank.now right)) }
{
    let mut links = Vec::new(bank.allocator());
    let mut work = Vec::new(bank.allocator());
    let mut known = IndexMap::new(bank.allocator());
    let mut marks = Vec::new(bank.allocator());
    run(
        bank,
        store,
        &mut links,
        &mut work,
        &mut known,
        &mut marks,
        first(left, right),
    )
}
