//! A term is put together from what stands for its parts.

ghost use Rattle.std.specs.Prelude.{◌≡◌, ◌<◌, Some, [], ◌∷◌, map, length, true, IfOk, OnOk};
ghost use Rattle.std.specs.List.{AllByRecursion};
ghost use Rattle.lq_terms.specs.Terms.{Terms, HasTerm, tree_of, Grows};
ghost use Rattle.lq_evars.specs.Near.{IsNear};
ghost use Rattle.lq_evars.specs.Places.{store_of, HasStore};
ghost use Rattle.lq_evars.specs.Reading.{as_read, trees_known, IsIn, AllIn, Covers, AreRead, Reads, EachReads, Finds, HasEntries};

use crate::filling::{filled_in, settled};
use crate::store::Store;
use indexmap::IndexMap;
use lq_terms::{Bank, Instance, NoMemory, Node, TermId};

/// Whether something stands for a term.
pub(crate) fn is_known(known: &IndexMap<TermId, TermId>, term: TermId) -> bool
    ensures { (bank : Terms) → result ≡ true → IsIn (tree_of bank term) (trees_known bank known.now.entries) }
{
    known.get(&term).copied().is_some()
}

/// What stands for a part that is known.
pub(crate) fn known_as(
    bank: &Bank<'_>,
    store: &Store,
    known: &IndexMap<TermId, TermId>,
    part: TermId,
) -> TermId
    requires has { HasTerm bank.now part }
    requires read { AreRead bank.now store.now known.now.entries }
    requires known { IsIn (tree_of bank.now part) (trees_known bank.now known.now.entries) }
    ensures { Reads bank.now store.now part result }
{
    let _store = store;
    bank.terms_apart();
    match known.get(&part).copied() {
        Some(answer) => answer,
        None => unreachable!(),
    }
}

/// What stands for two parts that are known.
fn known_two(
    bank: &Bank<'_>,
    store: &Store,
    known: &IndexMap<TermId, TermId>,
    first: TermId,
    second: TermId,
) -> (TermId, TermId)
    requires has_first { HasTerm bank.now first }
    requires has_second { HasTerm bank.now second }
    requires read { AreRead bank.now store.now known.now.entries }
    requires first { IsIn (tree_of bank.now first) (trees_known bank.now known.now.entries) }
    requires second { IsIn (tree_of bank.now second) (trees_known bank.now known.now.entries) }
    ensures first { Reads bank.now store.now first result.0 }
    ensures second { Reads bank.now store.now second result.1 }
{
    let left = known_as(bank, store, known, first);
    let right = known_as(bank, store, known, second);
    (left, right)
}

/// What stands for each of these parts.
fn each_known(
    bank: &Bank<'_>,
    store: &Store,
    known: &IndexMap<TermId, TermId>,
    parts: &[TermId],
) -> Result<Instance, NoMemory>
    requires has { AllByRecursion (HasTerm bank.now) parts.now }
    requires read { AreRead bank.now store.now known.now.entries }
    requires known { AllIn (map (tree_of bank.now) parts.now) (trees_known bank.now known.now.entries) }
    ensures { IfOk result (λ us. EachReads bank.now store.now parts.now us) }
{
    let mut answers = Instance::new(bank.allocator());
    for part in parts {
        let answer = known_as(bank, store, known, *part);
        answers.push(answer)?;
    }
    Ok(answers)
}

/// A term reads as what this answer stands for, from now on.
pub(crate) fn note(
    bank: &mut Bank<'_>,
    store: &Store,
    known: &mut IndexMap<TermId, TermId>,
    term: TermId,
    answer: TermId,
) -> Result<(), NoMemory>
    requires term { HasTerm bank.old term }
    requires answer { HasTerm bank.old answer }
    requires store { HasStore bank.old store.now }
    requires read { AreRead bank.old store.now known.old.entries }
    requires near { IsNear 0 (tree_of bank.old answer) (as_read (store_of bank.old store.now) (tree_of bank.old term)) }
    ensures read { OnOk result (AreRead bank.new store.now known.new.entries) }
    ensures covers { OnOk result (Covers (tree_of bank.old term ∷ trees_known bank.old known.old.entries) (trees_known bank.new known.new.entries)) }
    ensures grows { Grows bank.old bank.new }
{
    let _store = store;
    let answer = settled(bank, answer)?;
    match known.insert(term, answer) {
        Ok(_) => Ok(()),
        Err(_) => Err(NoMemory),
    }
}

/// A variable with the entries of its instance as they read, or its value with them.
fn variable_read(
    bank: &mut Bank<'_>,
    store: &Store,
    known: &IndexMap<TermId, TermId>,
    term: TermId,
    variable: u32,
    entries: Instance,
) -> Result<TermId, NoMemory>
    requires finds { Finds bank.old store.now known.now.entries term }
    requires entries { HasEntries bank.old store.now term variable entries }
    ensures has { IfOk result (HasTerm bank.new) }
    ensures near { IfOk result (λ t. IsNear 0 (tree_of bank.new t) (as_read (store_of bank.old store.now) (tree_of bank.old term))) }
    ensures grows { Grows bank.old bank.new }
{
    let _term = term;
    match store.value(variable) {
        None => bank.make(Node::Evar(variable, entries)),
        Some(value) => {
            let body = known_as(bank, store, known, value);
            filled_in(bank, body, store.context(variable), &entries)
        }
    }
}

/// What stands for a term whose parts are known.
pub(crate) fn rebuilt(
    bank: &mut Bank<'_>,
    store: &Store,
    known: &IndexMap<TermId, TermId>,
    term: TermId,
) -> Result<TermId, NoMemory>
    requires { Finds bank.old store.now known.now.entries term }
    ensures has { IfOk result (HasTerm bank.new) }
    ensures near { IfOk result (λ t. IsNear 0 (tree_of bank.new t) (as_read (store_of bank.old store.now) (tree_of bank.old term))) }
    ensures grows { Grows bank.old bank.new }
{
    match bank.node(term) {
        Node::Prod(binder, kind, rest) => {
            let binder = *binder;
            let (kind, rest) = known_two(bank, store, known, *kind, *rest);
            bank.make(Node::Prod(binder, kind, rest))
        }
        Node::Lam(binder, kind, rest) => {
            let binder = *binder;
            let (kind, rest) = known_two(bank, store, known, *kind, *rest);
            bank.make(Node::Lam(binder, kind, rest))
        }
        Node::Let(binder, value, kind, rest) => {
            let binder = *binder;
            let value = known_as(bank, store, known, *value);
            let (kind, rest) = known_two(bank, store, known, *kind, *rest);
            bank.make(Node::Let(binder, value, kind, rest))
        }
        Node::App(function, argument) => {
            let (function, argument) = known_two(bank, store, known, *function, *argument);
            bank.make(Node::App(function, argument))
        }
        Node::Evar(variable, parts) => {
            let variable = *variable;
            let entries = each_known(bank, store, known, parts.terms())?;
            variable_read(bank, store, known, term, variable, entries)
        }
        Node::Rel(_) => Ok(term),
        Node::Var(_) => Ok(term),
        Node::Sort(_) => Ok(term),
        Node::Const(_) => Ok(term),
        Node::Ind(_) => Ok(term),
        Node::Ctor(..) => Ok(term),
        Node::Elim(..) => Ok(term),
    }
}
