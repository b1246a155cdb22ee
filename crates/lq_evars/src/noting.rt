//! Terms that are equal as they read are noted, so that a pair of terms that occurs often is compared once.

ghost use Rattle.std.specs.Prelude.{◌≡◌, [], ◌∷◌, ◌++◌, true, OnOk};
ghost use Rattle.lq_evars.specs.Places.{store_of};
ghost use Rattle.lq_evars.specs.Closures.{same_pair};
ghost use Rattle.lq_evars.specs.Noting.{IsSame, AreSame, AreMarks};

use crate::comparing::{Pair, is_alone};
use crate::scopes::Link;
use crate::store::Store;
use indexmap::IndexMap;
use lq_terms::{Bank, NoMemory, TermId};

/// Two terms with nothing around them, which are equal as they read once all pairs above a height of the stack are found to be equal.
#[derive(Clone, Copy)]
pub(crate) struct Mark {
    pub(crate) height: usize,
    pub(crate) left: TermId,
    pub(crate) right: TermId,
}

/// Whether two terms are one.
fn is_term(left: TermId, right: TermId) -> bool
    ensures { result ≡ true → left ≡ right }
{
    left == right
}

/// Whether a pair is of terms with nothing around them that are noted as equal.
pub(crate) fn is_noted(
    bank: &Bank<'_>,
    store: &Store,
    links: &[Link],
    known: &IndexMap<TermId, TermId>,
    pair: Pair,
) -> bool
    requires { AreSame bank.now (store_of bank.now store.now) known.now.entries }
    ensures { result ≡ true → same_pair bank.now (store_of bank.now store.now) links.now pair ≡ true }
{
    let _bank = bank;
    let _store = store;
    let _links = links;
    if !is_alone(pair.left) {
        return false;
    }
    if !is_alone(pair.right) {
        return false;
    }
    match known.get(&pair.left.term).copied() {
        Some(term) => is_term(term, pair.right.term),
        None => false,
    }
}

/// Notes two terms as equal.
fn note(
    bank: &Bank<'_>,
    store: &Store,
    known: &mut IndexMap<TermId, TermId>,
    left: TermId,
    right: TermId,
) -> Result<(), NoMemory>
    requires known { AreSame bank.now (store_of bank.now store.now) known.old.entries }
    requires same { IsSame bank.now (store_of bank.now store.now) left right }
    ensures { OnOk result (AreSame bank.now (store_of bank.now store.now) known.new.entries) }
{
    let _bank = bank;
    let _store = store;
    match known.insert(left, right) {
        Ok(_) => Ok(()),
        Err(_) => Err(NoMemory),
    }
}

/// Notes the terms of the marks above which all pairs were compared, where a pair was just taken off the others.
pub(crate) fn note_marks(
    bank: &Bank<'_>,
    store: &Store,
    links: &[Link],
    work: &[Pair],
    pair: Pair,
    known: &mut IndexMap<TermId, TermId>,
    marks: &mut Vec<Mark>,
) -> Result<(), NoMemory>
    requires known { AreSame bank.now (store_of bank.now store.now) known.old.entries }
    requires marks { AreMarks bank.now (store_of bank.now store.now) links.now (work.now ++ pair ∷ []) marks.old.items }
    ensures known { OnOk result (AreSame bank.now (store_of bank.now store.now) known.new.entries) }
    ensures marks { OnOk result (AreMarks bank.now (store_of bank.now store.now) links.now (work.now ++ pair ∷ []) marks.new.items) }
{
    let _links = links;
    let _pair = pair;
    while let Some(mark) = marks.pop() {
        if mark.height <= work.len() {
            marks.push(mark)?;
            return Ok(());
        }
        note(bank, store, known, mark.left, mark.right)?;
    }
    Ok(())
}

/// Puts on a mark for a pair that was just taken off the others, if nothing is around its terms.
pub(crate) fn put_mark(
    bank: &Bank<'_>,
    store: &Store,
    links: &[Link],
    work: &[Pair],
    pair: Pair,
    marks: &mut Vec<Mark>,
) -> Result<(), NoMemory>
    requires { AreMarks bank.now (store_of bank.now store.now) links.now (work.now ++ pair ∷ []) marks.old.items }
    ensures { OnOk result (AreMarks bank.now (store_of bank.now store.now) links.now (work.now ++ pair ∷ []) marks.new.items) }
{
    let _bank = bank;
    let _store = store;
    let _links = links;
    if !is_alone(pair.left) {
        return Ok(());
    }
    if !is_alone(pair.right) {
        return Ok(());
    }
    marks.push(Mark {
        height: work.len(),
        left: pair.left.term,
        right: pair.right.term,
    })?;
    Ok(())
}
