//! Variables by their names, with other types, and as reduction finds them.

use crate::rows::RowFault;
use lq_evars::Store;
use lq_terms::{Bank, Bodies, Context, Hypothesis, NameId, NoMemory, Node, TermId};
use lq_trees::Sort;
use std::alloc::Global;

/// One more variable without hypotheses.
fn make(
    bank: &Bank<'_>,
    store: &mut Store,
    kind: TermId,
    name: Option<NameId>,
) -> Result<u32, RowFault> {
    if let Some(name) = name {
        if store.named(name).is_some() {
            return Err(RowFault::Malformed);
        }
    }
    let context = Context::new(bank.allocator());
    match store.new_var(context, kind, name) {
        Ok(id) => Ok(id),
        Err(fault) => Err(RowFault::from(fault)),
    }
}

/// So many variables, of which the last has a name: its number, found by the name; it has that name and no other variable has one.
pub(crate) fn named_row(
    bank: &mut Bank<'_>,
    store: &mut Store,
    many: u32,
) -> Result<u64, RowFault> {
    let kind = bank.make(Node::Sort(Sort::Base))?;
    let name = bank.name("x")?;
    for _ in 1..many {
        make(bank, store, kind, None)?;
    }
    let id = make(bank, store, kind, Some(name))?;
    match store.named(name) {
        Some(found) if found == id && has_name(store, id) => Ok(u64::from(found)),
        _ => Err(RowFault::Malformed),
    }
}

/// So many variables, and then one more: how many there are.
pub(crate) fn full_row(bank: &mut Bank<'_>, store: &mut Store, many: u32) -> Result<u64, RowFault> {
    let kind = bank.make(Node::Sort(Sort::Base))?;
    for _ in 0..many {
        make(bank, store, kind, None)?;
    }
    make(bank, store, kind, None)?;
    Ok(u64::from(store.count()))
}

/// A context of so many hypotheses.
fn hypotheses(alloc: Global, hypothesis: Hypothesis, many: u32) -> Result<Context, NoMemory> {
    let mut context = Context::new(alloc);
    for _ in 0..many {
        context.push(hypothesis)?;
    }
    Ok(context)
}

/// How many hypotheses the context of a variable has.
fn context_length(store: &Store, id: u32) -> Result<u64, RowFault> {
    if id >= store.count() {
        return Err(RowFault::Malformed);
    }
    Ok(store.context(id).hypotheses().len() as u64)
}

/// A variable below so many hypotheses: how many its context has.
pub(crate) fn context_row(
    bank: &mut Bank<'_>,
    store: &mut Store,
    many: u32,
) -> Result<u64, RowFault> {
    let kind = bank.make(Node::Sort(Sort::Base))?;
    let name = bank.name("x")?;
    let hypothesis = Hypothesis {
        name,
        body: None,
        kind,
    };
    let context = hypotheses(bank.allocator(), hypothesis, many)?;
    match store.new_var(context, kind, None) {
        Ok(id) => context_length(store, id),
        Err(fault) => Err(RowFault::from(fault)),
    }
}

/// Whether the variable of that number has a name, and the first one has none.
fn has_name(store: &Store, id: u32) -> bool {
    if id == 0 || id >= store.count() {
        return false;
    }
    store.name(id).is_some() && store.name(0).is_none()
}

/// Whether the first of so many variables has one type, and the last another.
fn same_kinds(store: &Store, many: u32, first: TermId, last: TermId) -> Result<u64, RowFault> {
    if many < 2 || store.count() != many {
        return Err(RowFault::Malformed);
    }
    Ok(u64::from(store.kind(0) == first && store.kind(many - 1) == last))
}

/// So many variables, of which the first gets another type: whether it has that, and the last has the type that it had.
pub(crate) fn kind_row(bank: &mut Bank<'_>, store: &mut Store, many: u32) -> Result<u64, RowFault> {
    let kind = bank.make(Node::Sort(Sort::Base))?;
    let other = bank.make(Node::Sort(Sort::Level(0)))?;
    for _ in 0..many {
        make(bank, store, kind, None)?;
    }
    if many < 2 || store.count() != many {
        return Err(RowFault::Malformed);
    }
    match store.set_kind(0, other) {
        Ok(()) => same_kinds(store, many, other, kind),
        Err(fault) => Err(RowFault::from(fault)),
    }
}

/// How many variables have a value.
pub(crate) fn valued(store: &Store) -> u64 {
    let mut found = 0;
    for id in 0..store.count() {
        if store.value(id).is_some() && found < store.given() {
            found += 1;
        }
    }
    found as u64
}

/// How many variables reduction finds valued, without hypotheses.
pub(crate) fn told_row(store: &Store) -> u64 {
    let mut found: u32 = 0;
    for id in 0..store.count() {
        if let Some((context, _)) = store.body(id) {
            if context.hypotheses().is_empty() && found < store.count() {
                found += 1;
            }
        }
    }
    u64::from(found)
}
