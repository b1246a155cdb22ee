//! An instance turned round: a term over its entries becomes one over the hypotheses at whose places they stand.

ghost use Rattle.std.specs.Prelude.{◌≡◌, Some, length, map, option_map, IfOk, OnOk, IfSome};
ghost use Rattle.std.specs.List.{AllByRecursion};
ghost use Rattle.lq_trees.specs.Tree.{Name, value_of};
ghost use Rattle.lq_terms.specs.Changes.{HasHypothesis};
ghost use Rattle.lq_terms.specs.Terms.{HasName, HasTerm, text_of, tree_of, trees_by, Grows};
ghost use Rattle.lq_solving.specs.Kept.{IsOver, IsStore};
ghost use Rattle.lq_solving.specs.Unification.{place_of};
ghost use Rattle.lq_evars.specs.Places.{store_of, HasStore};
ghost use Rattle.lq_evars.specs.Reading.{as_read};
ghost use Rattle.lq_unify.specs.Held.{is_absent};
ghost use Rattle.lq_unify.specs.Solutions.{solution, places_of, HasPlaces, place_more, names_of};

use crate::holding::is_barred_in;
use crate::replacing::{How, replaced};
use indexmap::IndexMap;
use lq_evars::Store;
use lq_terms::{Bank, Hypothesis, NameId, NoMemory, Node, TermId};

/// An entry that is a hypothesis is replaced by the hypothesis of that name from now on.
fn place(
    bank: &mut Bank<'_>,
    places: &mut IndexMap<NameId, TermId>,
    name: NameId,
    entry: TermId,
) -> Result<(), NoMemory>
    requires name { HasName bank.old name }
    requires entry { HasTerm bank.old entry }
    requires has { HasPlaces bank.old places.old.entries }
    ensures placed { OnOk result ((x : Name) → value_of (places_of bank.new places.new.entries) x
        ≡ place_more (text_of bank.old name) (tree_of bank.old entry) (value_of (places_of bank.old places.old.entries)) x) }
    ensures has { OnOk result (HasPlaces bank.new places.new.entries) }
    ensures grows { Grows bank.old bank.new }
{
    let Node::Var(found) = bank.node(entry) else {
        return Ok(());
    };
    let found = *found;
    let term = bank.make(Node::Var(name))?;
    bank.names_apart();
    match places.insert(found, term) {
        Ok(_) => Ok(()),
        Err(_) => Err(NoMemory),
    }
}

/// What the hypotheses among the entries of an instance are replaced by: each by the hypothesis at whose place it stands first.
fn places_for(
    bank: &mut Bank<'_>,
    context: &[Hypothesis],
    entries: &[TermId],
) -> Result<IndexMap<NameId, TermId>, NoMemory>
    requires context { AllByRecursion (HasHypothesis bank.old) context.now }
    requires entries { AllByRecursion (HasTerm bank.old) entries.now }
    requires as_many { length context.now ≡ length entries.now }
    ensures are { IfOk result (λ m. (x : Name) → value_of (places_of bank.new m.entries) x
        ≡ place_of (names_of bank.old context.now) (trees_by (tree_of bank.old) entries.now) x) }
    ensures has { IfOk result (λ m. HasPlaces bank.new m.entries) }
    ensures grows { Grows bank.old bank.new }
{
    let mut places = IndexMap::new(bank.allocator());
    for i in (0..context.len()).rev() {
        place(bank, &mut places, context[i].name, entries[i])?;
    }
    Ok(places)
}

/// A term with each hypothesis replaced by the one of the context at whose place it stands first among the entries. There is no
/// answer where a hypothesis is no entry, nor where the variable itself stands in the term. It goes as deep as the term is.
pub(crate) fn inverted(
    bank: &mut Bank<'_>,
    variable: u32,
    context: &[Hypothesis],
    entries: &[TermId],
    term: TermId,
) -> Result<Option<TermId>, NoMemory>
    requires context { AllByRecursion (HasHypothesis bank.old) context.now }
    requires entries { AllByRecursion (HasTerm bank.old) entries.now }
    requires as_many { length context.now ≡ length entries.now }
    requires term { HasTerm bank.old term }
    ensures is { IfOk result (λ o. option_map (tree_of bank.new) o
        ≡ solution (Some variable) (place_of (names_of bank.old context.now) (trees_by (tree_of bank.old) entries.now)) (tree_of bank.old term)) }
    ensures has { IfOk result (λ o. IfSome o (HasTerm bank.new)) }
    ensures grows { Grows bank.old bank.new }
{
    let places = places_for(bank, context, entries)?;
    let how = How {
        barred: Some(variable),
        stays: false,
    };
    replaced(bank, how, &places, term)
}

/// Whether there is no such term for one as it reads, however large that is. It builds nothing.
pub(crate) fn is_unsolvable(
    bank: &mut Bank<'_>,
    store: &Store,
    variable: u32,
    context: &[Hypothesis],
    entries: &[TermId],
    term: TermId,
) -> Result<bool, NoMemory>
    requires store { HasStore bank.old store.now }
    requires kept { IsStore (store_of bank.old store.now) }
    requires context { AllByRecursion (HasHypothesis bank.old) context.now }
    requires entries { AllByRecursion (HasTerm bank.old) entries.now }
    requires as_many { length context.now ≡ length entries.now }
    requires term { HasTerm bank.old term }
    requires over { IsOver (store_of bank.old store.now).variables (tree_of bank.old term) }
    ensures is { IfOk result (λ b. b ≡ is_absent (solution (Some variable) (place_of (names_of bank.old context.now) (trees_by (tree_of bank.old) entries.now))
        (as_read (store_of bank.old store.now) (tree_of bank.old term)))) }
    ensures grows { Grows bank.old bank.new }
{
    let places = places_for(bank, context, entries)?;
    is_barred_in(&*bank, store, variable, &places, term)
}
