//! How large a term is, whether it is within the limits, and what it holds.

ghost use Rattle.std.specs.Prelude.{◌≡◌};
ghost use Rattle.lq_trees.specs.Size.{measure, fit};
ghost use Rattle.lq_trees.specs.Marks.{loose, holds_hypothesis, holds_unknown};
ghost use Rattle.lq_terms.specs.Terms.{HasTerm, tree_of};

use crate::bank::Bank;
use crate::nodes::TermId;
use lq_trees::{Fit, Measure};

/// How large a term is, in one step: its nodes, counted up to 4,294,967,295, and how many its longest way down has.
pub fn measure(bank: &Bank<'_>, term: TermId) -> Measure
    requires { HasTerm bank.now term }
    ensures { result ≡ measure (tree_of bank.now term) }
{
    bank.measure(term)
}

/// Whether a term has at most 1,000,000 nodes, and then whether it is at most 2,000 deep, in one step.
pub fn fits(bank: &Bank<'_>, term: TermId) -> Fit
    requires { HasTerm bank.now term }
    ensures { result ≡ fit (tree_of bank.now term) }
{
    bank.fits(term)
}

/// How many loose bound variables a term has, counted up to the outermost that it names, in one step. One that has
/// none is closed.
pub fn loose(bank: &Bank<'_>, term: TermId) -> u64
    requires { HasTerm bank.now term }
    ensures { result ≡ loose (tree_of bank.now term) }
{
    bank.loose(term)
}

/// Whether a hypothesis stands in a term, in one step.
pub fn holds_hypothesis(bank: &Bank<'_>, term: TermId) -> bool
    requires { HasTerm bank.now term }
    ensures { result ≡ holds_hypothesis (tree_of bank.now term) }
{
    bank.holds_hypothesis(term)
}

/// Whether an unknown stands in a term, in one step.
pub fn holds_unknown(bank: &Bank<'_>, term: TermId) -> bool
    requires { HasTerm bank.now term }
    ensures { result ≡ holds_unknown (tree_of bank.now term) }
{
    bank.holds_unknown(term)
}
