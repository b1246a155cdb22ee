//! A value's body with terms for the hypotheses of its context, and what stands for terms that weigh too much.

ghost use Rattle.std.specs.Prelude.{◌≡◌, ◌<◌, ◌≤◌, length, true, false, IfOk};
ghost use Rattle.std.specs.List.{AllByRecursion};
ghost use Rattle.lq_trees.specs.Change.{instance};
ghost use Rattle.lq_trees.specs.Index.{Within};
ghost use Rattle.lq_trees.specs.Size.{size};
ghost use Rattle.lq_trees.specs.Tree.{Tree};
ghost use Rattle.lq_terms.specs.Terms.{HasTerm, IsTerm, tree_of, Grows};
ghost use Rattle.lq_terms.specs.Changes.{bindings, HasHypothesis};
ghost use Rattle.lq_evars.specs.Near.{weighs, IsNear, stand_in};
ghost use Rattle.lq_evars.specs.Reading.{IsLow};

use lq_terms::{
    Bank, Context, Instance, NoMemory, Node, SizeFault, TermId, instance, loose, measure, put,
};

/// How many nodes and loose bound variables a term may have together while it is read.
const MOST: u64 = 1_000_000;

/// The bound variable that stands for each term that has more.
const STAND_IN: u32 = 2_000_000;

/// Whether a term has more than 1,000,000 nodes and loose bound variables together, in one step.
pub(crate) fn is_over(bank: &Bank<'_>, term: TermId) -> bool
    requires { HasTerm bank.now term }
    ensures over { result ≡ true → 1000000 < weighs 0 (tree_of bank.now term) }
    ensures within { result ≡ false → weighs 0 (tree_of bank.now term) ≤ 1000000 }
{
    let loose = loose(bank, term);
    if loose > MOST {
        return true;
    }
    measure(bank, term).size > MOST - loose
}

/// What stands for each term that weighs too much.
pub(crate) fn stand_in(bank: &mut Bank<'_>) -> Result<TermId, NoMemory>
    ensures is { IfOk result (λ t. IsTerm bank.new t stand_in) }
    ensures grows { Grows bank.old bank.new }
{
    bank.make(Node::Rel(STAND_IN))
}

/// The term, or what stands for it where it weighs too much.
pub(crate) fn settled(bank: &mut Bank<'_>, term: TermId) -> Result<TermId, NoMemory>
    requires { HasTerm bank.old term }
    ensures has { IfOk result (HasTerm bank.new) }
    ensures near { IfOk result (λ t. (u : Tree) → IsNear 0 (tree_of bank.old term) u → IsNear 0 (tree_of bank.new t) u) }
    ensures low { IfOk result (IsLow bank.new) }
    ensures grows { Grows bank.old bank.new }
{
    if is_over(bank, term) {
        stand_in(bank)
    } else {
        Ok(term)
    }
}

/// A body whose instance is known to be too deep, or what stands for it where it weighs too much: the instance however deep it is.
fn deep(
    bank: &mut Bank<'_>,
    body: TermId,
    context: &Context,
    entries: &Instance,
) -> Result<TermId, NoMemory>
    requires body { HasTerm bank.old body }
    requires closed { Within 0 (tree_of bank.old body) }
    requires context { AllByRecursion (HasHypothesis bank.old) context.now }
    requires entries { AllByRecursion (HasTerm bank.old) entries.now }
    requires low { AllByRecursion (IsLow bank.old) entries.now }
    requires as_many { length context.now ≡ length entries.now }
    requires small { size (instance (bindings bank.old context.now entries.now) (tree_of bank.old body)) ≤ 1000000 }
    ensures is { IfOk result (λ t. IsTerm bank.new t (instance (bindings bank.old context.now entries.now) (tree_of bank.old body))) }
    ensures grows { Grows bank.old bank.new }
{
    put(bank, body, 0, context.hypotheses(), entries.terms())
}

/// A body with terms for the hypotheses of its context, or what stands for it where it weighs too much.
pub(crate) fn filled_in(
    bank: &mut Bank<'_>,
    body: TermId,
    context: &Context,
    entries: &Instance,
) -> Result<TermId, NoMemory>
    requires body { HasTerm bank.old body }
    requires closed { weighs 0 (tree_of bank.old body) ≤ 1000000 → Within 0 (tree_of bank.old body) }
    requires context { AllByRecursion (HasHypothesis bank.old) context.now }
    requires entries { AllByRecursion (HasTerm bank.old) entries.now }
    requires low { AllByRecursion (IsLow bank.old) entries.now }
    requires as_many { length context.now ≡ length entries.now }
    ensures has { IfOk result (HasTerm bank.new) }
    ensures small { IfOk result (λ t. weighs 0 (tree_of bank.old body) ≤ 1000000
        → IsNear 0 (tree_of bank.new t) (instance (bindings bank.old context.now entries.now) (tree_of bank.old body))) }
    ensures large { IfOk result (λ t. 1000000 < weighs 0 (tree_of bank.old body) → tree_of bank.new t ≡ stand_in) }
    ensures grows { Grows bank.old bank.new }
{
    if is_over(bank, body) {
        return stand_in(bank);
    }
    match instance(bank, body, context, entries) {
        Ok(term) => Ok(term),
        Err(SizeFault::TooLarge) => stand_in(bank),
        Err(SizeFault::TooDeep) => deep(bank, body, context, entries),
        Err(SizeFault::NoMemory) => Err(NoMemory),
    }
}
