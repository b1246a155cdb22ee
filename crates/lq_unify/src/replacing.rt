//! A term with its hypotheses replaced by terms without loose bound variables: part after part, one that occurs often once.

ghost use Rattle.std.specs.Prelude.{◌≡◌, Some, None, [], ◌∷◌, map, option_map, IfOk, OnOk, IfSome, IfNone};
ghost use Rattle.std.specs.List.{AllByRecursion};
ghost use Rattle.lq_terms.specs.Terms.{HasName, HasTerm, IsTerm, text_of, tree_of, Grows};
ghost use Rattle.lq_trees.specs.Tree.{Tree};
ghost use Rattle.lq_unify.specs.Solutions.{is_barred, IsByParts, solution, solutions, place_in, HasPlaces, AreSolved};

use crate::parts::{parts_of, with_parts};
use indexmap::IndexMap;
use lq_terms::{Bank, NameId, NoMemory, Node, TermId, holds_hypothesis, holds_unknown};

/// What hypotheses are replaced by, and what must not stand in the term.
#[derive(Clone, Copy)]
pub(crate) struct How {
    /// A variable for which there is no answer, if there is such a one.
    pub(crate) barred: Option<u32>,
    /// Whether hypotheses for which nothing is given stay. Else there is no answer for them.
    pub(crate) stays: bool,
}

/// What a hypothesis is replaced by.
fn placed(
    bank: &Bank<'_>,
    how: How,
    places: &IndexMap<NameId, TermId>,
    term: TermId,
    name: NameId,
) -> Option<TermId>
    requires name { HasName bank.now name }
    requires term { IsTerm bank.now term (Tree.Var (text_of bank.now name)) }
    requires places { HasPlaces bank.now places.now.entries }
    ensures is { option_map (tree_of bank.now) result ≡ place_in bank.now how.stays places.now.entries (text_of bank.now name) }
    ensures has { IfSome result (HasTerm bank.now) }
{
    bank.names_apart();
    match places.get(&name).copied() {
        Some(place) => Some(place),
        None => { if how.stays { Some(term) } else { None } }
    }
}

/// What a part became is known from now on.
fn note(
    bank: &Bank<'_>,
    how: How,
    places: &IndexMap<NameId, TermId>,
    known: &mut IndexMap<TermId, TermId>,
    part: TermId,
    answer: TermId,
) -> Result<(), NoMemory>
    requires known { AreSolved bank.now how.barred how.stays places.now.entries known.old.entries }
    requires part { HasTerm bank.now part }
    requires answer { HasTerm bank.now answer }
    requires is { solution how.barred (place_in bank.now how.stays places.now.entries) (tree_of bank.now part) ≡ Some (tree_of bank.now answer) }
    ensures { OnOk result (AreSolved bank.now how.barred how.stays places.now.entries known.new.entries) }
{
    let _places = places;
    let _bank = bank;
    let _how = how;
    match known.insert(part, answer) {
        Ok(_) => Ok(()),
        Err(_) => Err(NoMemory),
    }
}

/// What a part became, if it is known.
fn known_as(
    bank: &Bank<'_>,
    how: How,
    places: &IndexMap<NameId, TermId>,
    known: &IndexMap<TermId, TermId>,
    part: TermId,
) -> Option<TermId>
    requires known { AreSolved bank.now how.barred how.stays places.now.entries known.now.entries }
    ensures is { IfSome result (λ t. solution how.barred (place_in bank.now how.stays places.now.entries) (tree_of bank.now part) ≡ Some (tree_of bank.now t)) }
    ensures has { IfSome result (HasTerm bank.now) }
{
    let _places = places;
    let _bank = bank;
    let _how = how;
    known.get(&part).copied()
}

/// Whether there is no answer for a variable.
fn is_barred(how: How, variable: u32) -> bool
    ensures { result ≡ is_barred how.barred variable }
{
    match how.barred {
        Some(barred) => barred == variable,
        None => false,
    }
}

/// The answer for a term that is a hypothesis or the barred variable. There is none for another term.
fn at_leaf(
    bank: &Bank<'_>,
    how: How,
    places: &IndexMap<NameId, TermId>,
    term: TermId,
) -> Option<Option<TermId>>
    requires term { HasTerm bank.now term }
    requires places { HasPlaces bank.now places.now.entries }
    ensures is { IfSome result (λ o. option_map (tree_of bank.now) o
        ≡ solution how.barred (place_in bank.now how.stays places.now.entries) (tree_of bank.now term)) }
    ensures has { IfSome result (λ o. IfSome o (HasTerm bank.now)) }
    ensures other { IfNone result (IsByParts how.barred (tree_of bank.now term)) }
{
    match bank.node(term) {
        Node::Var(name) => Some(placed(bank, how, places, term, *name)),
        Node::Evar(variable, _) => {
            if is_barred(how, *variable) {
                Some(None)
            } else {
                None
            }
        }
        _ => None,
    }
}

/// The terms with their hypotheses replaced, if there is an answer for each.
#[cycle(replacing)]
fn replaced_each(
    bank: &mut Bank<'_>,
    how: How,
    places: &IndexMap<NameId, TermId>,
    known: &mut IndexMap<TermId, TermId>,
    parts: &[TermId],
) -> Result<Option<Vec<TermId>>, NoMemory>
    requires places { HasPlaces bank.old places.now.entries }
    requires known { AreSolved bank.old how.barred how.stays places.now.entries known.old.entries }
    requires parts { AllByRecursion (HasTerm bank.old) parts.now }
    ensures are { IfOk result (λ o. option_map (λ ts. map (tree_of bank.new) ts.items) o
        ≡ solutions how.barred (place_in bank.old how.stays places.now.entries) (map (tree_of bank.old) parts.now)) }
    ensures has { IfOk result (λ o. IfSome o (λ ts. AllByRecursion (HasTerm bank.new) ts.items)) }
    ensures known { OnOk result (AreSolved bank.new how.barred how.stays places.now.entries known.new.entries) }
    ensures grows { Grows bank.old bank.new }
{
    let mut answers = Vec::new(bank.allocator());
    for part in parts {
        let Some(answer) = replaced_in(bank, how, places, known, *part)? else {
            return Ok(None);
        };
        answers.push(answer)?;
    }
    Ok(Some(answers))
}

/// A term with its hypotheses replaced, if there is an answer for each. It calls itself as often as the term is deep.
#[cycle(replacing)]
fn replaced_in(
    bank: &mut Bank<'_>,
    how: How,
    places: &IndexMap<NameId, TermId>,
    known: &mut IndexMap<TermId, TermId>,
    term: TermId,
) -> Result<Option<TermId>, NoMemory>
    requires places { HasPlaces bank.old places.now.entries }
    requires known { AreSolved bank.old how.barred how.stays places.now.entries known.old.entries }
    requires term { HasTerm bank.old term }
    ensures is { IfOk result (λ o. option_map (tree_of bank.new) o
        ≡ solution how.barred (place_in bank.old how.stays places.now.entries) (tree_of bank.old term)) }
    ensures has { IfOk result (λ o. IfSome o (HasTerm bank.new)) }
    ensures known { OnOk result (AreSolved bank.new how.barred how.stays places.now.entries known.new.entries) }
    ensures grows { Grows bank.old bank.new }
{
    if !holds_hypothesis(bank, term) && !holds_unknown(bank, term) {
        return Ok(Some(term));
    }
    if let Some(answer) = known_as(bank, how, places, known, term) {
        return Ok(Some(answer));
    }
    if let Some(answer) = at_leaf(bank, how, places, term) {
        return Ok(answer);
    }
    let parts = parts_of(bank, term)?;
    let Some(parts) = replaced_each(bank, how, places, known, parts.as_slice())? else {
        return Ok(None);
    };
    let answer = with_parts(bank, term, parts.as_slice())?;
    note(bank, how, places, known, term, answer)?;
    Ok(Some(answer))
}

/// A term with its hypotheses replaced by terms without loose bound variables, if there is an answer for each. It goes as deep
/// as the term is.
pub(crate) fn replaced(
    bank: &mut Bank<'_>,
    how: How,
    places: &IndexMap<NameId, TermId>,
    term: TermId,
) -> Result<Option<TermId>, NoMemory>
    requires places { HasPlaces bank.old places.now.entries }
    requires term { HasTerm bank.old term }
    ensures is { IfOk result (λ o. option_map (tree_of bank.new) o
        ≡ solution how.barred (place_in bank.old how.stays places.now.entries) (tree_of bank.old term)) }
    ensures has { IfOk result (λ o. IfSome o (HasTerm bank.new)) }
    ensures grows { Grows bank.old bank.new }
{
    let mut known = IndexMap::new(bank.allocator());
    replaced_in(bank, how, places, &mut known, term)
}
