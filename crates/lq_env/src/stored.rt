//! The types that a family stores: its own, and its constructors'.

ghost use Rattle.std.specs.Prelude.{◌≡◌};
ghost use Rattle.lq_trees.specs.Tree.{Tree};
ghost use Rattle.lq_trees.specs.Index.{Within};
ghost use Rattle.lq_terms.specs.Terms.{HasTerm, IsTerm, Grows, tree_of};
ghost use Rattle.lq_calculus.specs.Declarations.{products, family_type, constructor_type};
ghost use Rattle.lq_env.specs.Families.{IsFamily, family_of, Stores};
ghost use Rattle.lq_env.specs.Building.{Builds};

use crate::family::{EnvFault, Family};
use crate::telescopes::products;
use lq_terms::{Bank, Node, TermId, fits};
use lq_trees::Fit;

/// A type that was built, if it is within the limits.
pub(crate) fn within_limits(bank: &Bank<'_>, built: TermId) -> Result<TermId, EnvFault>
    requires { HasTerm bank.now built }
    ensures { Stores bank.now result (tree_of bank.now built) }
{
    match fits(bank, built) {
        Fit::Fits => Ok(built),
        Fit::TooLarge => Err(EnvFault::TooLarge),
        Fit::TooDeep => Err(EnvFault::TooDeep),
    }
}

/// The products over a family's indices into its sort.
fn arity(bank: &mut Bank<'_>, family: &Family) -> Result<TermId, EnvFault>
    requires { IsFamily bank.old family.now }
    ensures answer { Builds bank.new result (products (family_of bank.old family.now).indices (Tree.Sort family.now.sort)) }
    ensures grows { Grows bank.old bank.new }
{
    let sort = bank.make(Node::Sort(family.sort))?;
    products(bank, family.indices.hypotheses(), sort)
}

/// The products over a family's parameters, within the limits.
pub(crate) fn under_parameters(
    bank: &mut Bank<'_>,
    family: &Family,
    end: TermId,
) -> Result<TermId, EnvFault>
    requires family { IsFamily bank.old family.now }
    requires end { HasTerm bank.old end }
    requires within { Within 0 (tree_of bank.old end) }
    ensures answer { Stores bank.new result (products (family_of bank.old family.now).parameters (tree_of bank.old end)) }
    ensures grows { Grows bank.old bank.new }
{
    match products(bank, family.parameters.hypotheses(), end) {
        Ok(whole) => within_limits(bank, whole),
        Err(fault) => Err(fault),
    }
}

/// A family's type: the products over its parameters and indices into its sort. It is refused as too large or
/// too deep exactly where it passes that limit.
pub fn family_type(bank: &mut Bank<'_>, family: &Family) -> Result<TermId, EnvFault>
    requires { IsFamily bank.old family.now }
    ensures answer { Stores bank.new result (family_type (family_of bank.old family.now)) }
    ensures grows { Grows bank.old bank.new }
{
    match arity(bank, family) {
        Ok(arity) => under_parameters(bank, family, arity),
        Err(fault) => Err(fault),
    }
}

/// A constructor's whole type, by its type under the parameters: the products over them. It is refused as too large or
/// too deep exactly where it passes that limit.
pub fn constructor_type(
    bank: &mut Bank<'_>,
    family: &Family,
    kind: TermId,
) -> Result<TermId, EnvFault>
    requires family { IsFamily bank.old family.now }
    requires kind { HasTerm bank.old kind }
    requires within { Within 0 (tree_of bank.old kind) }
    ensures answer { Stores bank.new result (constructor_type (family_of bank.old family.now) (tree_of bank.old kind)) }
    ensures grows { Grows bank.old bank.new }
{
    under_parameters(bank, family, kind)
}
