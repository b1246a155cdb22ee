//! The type of a family that is being declared.

ghost use Rattle.std.specs.Prelude.{◌≡◌, IfOk};
ghost use Rattle.lq_terms.specs.Terms.{HasName, IsTerm, Grows, text_of, tree_of};
ghost use Rattle.lq_terms.specs.Telling.{IsClosed};
ghost use Rattle.lq_calculus.specs.Declarations.{family_type};
ghost use Rattle.lq_calculus.specs.Checking.{fitting};
ghost use Rattle.lq_env.specs.Families.{IsFamily, family_of};
ghost use Rattle.lq_kernel.specs.Declaring.{doubled, chained};

use lq_env::{EnvFault, Family, family_type};
use lq_terms::{Bank, NameId, NoMemory, Node, TermId};
use lq_trees::Sort;

/// A type of more than 1,000,000 nodes, made of few.
fn large_type(bank: &mut Bank<'_>, binder: NameId) -> Result<TermId, NoMemory>
    requires { HasName bank.old binder }
    ensures large { IfOk result (λ t. IsTerm bank.new t (doubled (text_of bank.old binder) 20)) }
    ensures grows { Grows bank.old bank.new }
{
    let mut kind = bank.make(Node::Sort(Sort::Base))?;
    for i in 0..20u32 {
        kind = bank.make(Node::Prod(binder, kind, kind))?;
    }
    Ok(kind)
}

/// A type of few nodes that is deeper than 2,000.
fn deep_type(bank: &mut Bank<'_>, binder: NameId) -> Result<TermId, NoMemory>
    requires { HasName bank.old binder }
    ensures deep { IfOk result (λ t. IsTerm bank.new t (chained (text_of bank.old binder) 2000)) }
    ensures grows { Grows bank.old bank.new }
{
    let domain = bank.make(Node::Sort(Sort::Base))?;
    let mut kind = domain;
    for i in 0..2000u32 {
        kind = bank.make(Node::Prod(binder, domain, kind))?;
    }
    Ok(kind)
}

/// A type that counts as a family's: the family's own where it is within the limits, else one that passes
/// the same limit, since nothing but the limit is seen of it then.
pub(crate) fn family_arity(bank: &mut Bank<'_>, family: &Family) -> Result<TermId, NoMemory>
    requires { IsFamily bank.old family.now }
    ensures closed { IfOk result (IsClosed bank.new 0) }
    ensures alike { IfOk result (λ t. fitting (tree_of bank.new t) ≡ fitting (family_type (family_of bank.old family.now))) }
    ensures grows { Grows bank.old bank.new }
{
    match family_type(bank, family) {
        Ok(kind) => Ok(kind),
        Err(EnvFault::TooLarge) => large_type(bank, family.name),
        Err(EnvFault::TooDeep) => deep_type(bank, family.name),
        Err(EnvFault::NoMemory) => Err(NoMemory),
        Err(_) => unreachable!(),
    }
}
