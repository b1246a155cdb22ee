//! A term is read part after part. What a part reads as is known until the call ends, so that one that occurs often is read once.
//! A part that weighs too much has a stand-in, so that nothing large is built.

ghost use Rattle.std.specs.Prelude.{◌≡◌, [], ◌∷◌, ◌++◌, map, IfOk, OnOk};
ghost use Rattle.lq_terms.specs.Terms.{HasTerm, tree_of, Grows};
ghost use Rattle.lq_solving.specs.Kept.{IsOver, IsStore};
ghost use Rattle.lq_evars.specs.Near.{IsNear};
ghost use Rattle.lq_evars.specs.Places.{store_of, value_at, HasStore};
ghost use Rattle.lq_evars.specs.Reading.{as_read, Asks, AreRead, Covers, Finds, Reading, ItemDone, Reads, trees_known, with_term};
ghost use Rattle.lq_evars.specs.declared.work.Work.{Work};

use crate::rebuilding::{is_known, known_as, note, rebuilt};
use crate::store::Store;
use crate::work::Work;
use indexmap::IndexMap;
use lq_terms::{Bank, NoMemory, Node, TermId, holds_unknown};

/// Puts on terms to be read.
fn push_each(work: &mut Vec<Work>, terms: &[TermId]) -> Result<(), NoMemory>
    ensures { OnOk result (work.new.items ≡ work.old.items ++ map Work.Visit terms.now) }
{
    for term in terms {
        work.push(Work::Visit(*term))?;
    }
    Ok(())
}

/// Puts on two terms to be read.
fn push_two(work: &mut Vec<Work>, first: TermId, second: TermId) -> Result<(), NoMemory>
    ensures { OnOk result (work.new.items ≡ work.old.items ++ Work.Visit first ∷ Work.Visit second ∷ []) }
{
    work.push(Work::Visit(first))?;
    work.push(Work::Visit(second))?;
    Ok(())
}

/// Puts on three terms to be read.
fn push_three(
    work: &mut Vec<Work>,
    first: TermId,
    second: TermId,
    third: TermId,
) -> Result<(), NoMemory>
    ensures { OnOk result (work.new.items ≡ work.old.items ++ Work.Visit first ∷ Work.Visit second ∷ Work.Visit third ∷ []) }
{
    work.push(Work::Visit(first))?;
    work.push(Work::Visit(second))?;
    work.push(Work::Visit(third))?;
    Ok(())
}

/// Puts on the value of a variable to be read, if it has one.
fn push_value(store: &Store, work: &mut Vec<Work>, variable: u32) -> Result<(), NoMemory>
    ensures { OnOk result (work.new.items ≡ work.old.items ++ map Work.Visit (with_term (value_at store.now variable) [])) }
{
    match store.value(variable) {
        Some(value) => {
            work.push(Work::Visit(value))?;
            Ok(())
        }
        None => Ok(()),
    }
}

/// Puts on the value of a variable, if it has one, and the entries of its instance.
fn push_variable(
    store: &Store,
    work: &mut Vec<Work>,
    variable: u32,
    entries: &[TermId],
) -> Result<(), NoMemory>
    ensures { OnOk result (work.new.items ≡ work.old.items ++ map Work.Visit (with_term (value_at store.now variable) entries.now)) }
{
    push_value(store, work, variable)?;
    push_each(work, entries)?;
    Ok(())
}

/// Puts on the parts of a term.
fn push_parts(
    bank: &Bank<'_>,
    store: &Store,
    work: &mut Vec<Work>,
    term: TermId,
) -> Result<(), NoMemory>
    requires term { HasTerm bank.now term }
    requires store { HasStore bank.now store.now }
    requires kept { IsStore (store_of bank.now store.now) }
    ensures { OnOk result (Asks bank.now (store_of bank.now store.now).values work.old.items work.new.items (tree_of bank.now term)) }
{
    match bank.node(term) {
        Node::Prod(_, kind, rest) => {
            push_two(work, *kind, *rest)?;
            Ok(())
        }
        Node::Lam(_, kind, rest) => {
            push_two(work, *kind, *rest)?;
            Ok(())
        }
        Node::Let(_, value, kind, rest) => {
            push_three(work, *value, *kind, *rest)?;
            Ok(())
        }
        Node::App(function, argument) => {
            push_two(work, *function, *argument)?;
            Ok(())
        }
        Node::Evar(variable, parts) => {
            push_variable(store, work, *variable, parts.terms())?;
            Ok(())
        }
        Node::Rel(_)
        | Node::Var(_)
        | Node::Sort(_)
        | Node::Const(_)
        | Node::Ind(_)
        | Node::Ctor(..)
        | Node::Elim(..) => Ok(()),
    }
}

/// A term is looked at: it is known, or reads as itself, or its parts are to be read first.
fn visit(
    bank: &mut Bank<'_>,
    store: &Store,
    work: &mut Vec<Work>,
    known: &mut IndexMap<TermId, TermId>,
    term: TermId,
) -> Result<(), NoMemory>
    requires { Reading bank.old store.now (work.old.items ++ Work.Visit term ∷ []) known.old.entries }
    ensures stepped { OnOk result (ItemDone bank.old bank.new store.now (Work.Visit term) work.old.items work.new.items known.old.entries known.new.entries) }
    ensures grows { Grows bank.old bank.new }
{
    if is_known(known, term) {
        return Ok(());
    }
    if !holds_unknown(bank, term) {
        return note(bank, store, known, term, term);
    }
    work.push(Work::Build(term))?;
    push_parts(bank, store, work, term)
}

/// A term whose parts are known is put together.
fn build(
    bank: &mut Bank<'_>,
    store: &Store,
    known: &mut IndexMap<TermId, TermId>,
    term: TermId,
) -> Result<(), NoMemory>
    requires { Finds bank.old store.now known.old.entries term }
    ensures read { OnOk result (AreRead bank.new store.now known.new.entries) }
    ensures covers { OnOk result (Covers (tree_of bank.old term ∷ trees_known bank.old known.old.entries) (trees_known bank.new known.new.entries)) }
    ensures grows { Grows bank.old bank.new }
{
    let answer = rebuilt(bank, store, known, term)?;
    note(bank, store, known, term, answer)
}

/// Does one item of what is left.
fn step(
    bank: &mut Bank<'_>,
    store: &Store,
    work: &mut Vec<Work>,
    known: &mut IndexMap<TermId, TermId>,
    item: Work,
) -> Result<(), NoMemory>
    requires { Reading bank.old store.now (work.old.items ++ item ∷ []) known.old.entries }
    ensures stepped { OnOk result (ItemDone bank.old bank.new store.now item work.old.items work.new.items known.old.entries known.new.entries) }
    ensures grows { Grows bank.old bank.new }
{
    match item {
        Work::Visit(term) => visit(bank, store, work, known, term),
        Work::Build(term) => build(bank, store, known, term),
    }
}

/// Reads a term with what is known, which is nothing at first.
fn run(
    bank: &mut Bank<'_>,
    store: &Store,
    work: &mut Vec<Work>,
    known: &mut IndexMap<TermId, TermId>,
    term: TermId,
) -> Result<TermId, NoMemory>
    requires reading { Reading bank.old store.now (Work.Visit term ∷ []) [] }
    requires work { work.old.items ≡ [] }
    requires known { known.old.entries ≡ [] }
    ensures reads { IfOk result (Reads bank.new store.now term) }
    ensures grows { Grows bank.old bank.new }
{
    work.push(Work::Visit(term))?;
    while let Some(item) = work.pop() {
        step(bank, store, work, known, item)?;
    }
    Ok(known_as(bank, store, known, term))
}

/// What stands for a term as it reads.
pub(crate) fn read_near(
    bank: &mut Bank<'_>,
    store: &Store,
    term: TermId,
) -> Result<TermId, NoMemory>
    requires store { HasStore bank.old store.now }
    requires kept { IsStore (store_of bank.old store.now) }
    requires term { HasTerm bank.old term }
    requires over { IsOver (store_of bank.old store.now).variables (tree_of bank.old term) }
    ensures has { IfOk result (HasTerm bank.new) }
    ensures near { IfOk result (λ t. IsNear 0 (tree_of bank.new t) (as_read (store_of bank.old store.now) (tree_of bank.old term))) }
    ensures grows { Grows bank.old bank.new }
{
    let mut known = IndexMap::new(bank.allocator());
    let mut work = Vec::new(bank.allocator());
    run(bank, store, &mut work, &mut known, term)
}
