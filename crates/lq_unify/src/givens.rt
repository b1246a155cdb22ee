//! What is given for the hypotheses of a context, and a term with that in their places.

ghost use Rattle.std.specs.Prelude.{◌≡◌, Some, length, IfOk};
ghost use Rattle.std.specs.List.{AllByRecursion};
ghost use Rattle.lq_trees.specs.Change.{instance};
ghost use Rattle.lq_trees.specs.Tree.{Name, value_of};
ghost use Rattle.lq_terms.specs.Changes.{bindings, HasHypothesis};
ghost use Rattle.lq_terms.specs.Terms.{HasTerm, IsTerm, tree_of, Grows};
ghost use Rattle.lq_unify.specs.Solutions.{places_of, HasPlaces, AreClosed};

use crate::replacing::{How, replaced};
use indexmap::IndexMap;
use lq_terms::{Bank, Hypothesis, NameId, NoMemory, TermId};

/// These terms for the hypotheses of a context, in order. Of equal names the first counts.
pub(crate) fn given_for(
    bank: &Bank<'_>,
    context: &[Hypothesis],
    terms: &[TermId],
) -> Result<IndexMap<NameId, TermId>, NoMemory>
    requires context { AllByRecursion (HasHypothesis bank.now) context.now }
    requires terms { AllByRecursion (HasTerm bank.now) terms.now }
    requires as_many { length context.now ≡ length terms.now }
    ensures are { IfOk result (λ m. (x : Name) → value_of (places_of bank.now m.entries) x ≡ value_of (bindings bank.now context.now terms.now) x) }
    ensures has { IfOk result (λ m. HasPlaces bank.now m.entries) }
{
    bank.names_apart();
    let mut given = IndexMap::new(bank.allocator());
    for i in (0..context.len()).rev() {
        given.insert(context[i].name, terms[i])?;
    }
    Ok(given)
}

/// A body with these terms, which have no loose bound variables, for the hypotheses of a context. It has no limits, refuses for want of
/// memory alone, and goes as deep as the body is.
pub fn filled(
    bank: &mut Bank<'_>,
    context: &[Hypothesis],
    terms: &[TermId],
    body: TermId,
) -> Result<TermId, NoMemory>
    requires context { AllByRecursion (HasHypothesis bank.old) context.now }
    requires terms { AllByRecursion (HasTerm bank.old) terms.now }
    requires as_many { length context.now ≡ length terms.now }
    requires closed { AreClosed bank.old terms.now }
    requires body { HasTerm bank.old body }
    ensures made { IfOk result (λ t. IsTerm bank.new t (instance (bindings bank.old context.now terms.now) (tree_of bank.old body))) }
    ensures grows { Grows bank.old bank.new }
{
    let given = given_for(bank, context, terms)?;
    let how = How {
        barred: None,
        stays: true,
    };
    match replaced(bank, how, &given, body)? {
        Some(term) => Ok(term),
        None => unreachable!(),
    }
}
