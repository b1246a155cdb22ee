//! Families.

ghost use Rattle.std.specs.Prelude.{◌≡◌, OnOk, OnErr};
ghost use Rattle.std.specs.List.{AllByRecursion};
ghost use Rattle.lq_terms.specs.Terms.{Grows};
ghost use Rattle.lq_calculus.specs.Declarations.{first_taken, declared_names, names_of, family_type, add_inductive};
ghost use Rattle.lq_env.specs.Families.{IsSort, HasFamily, IsFamily, Stores, family_of};
ghost use Rattle.lq_env.specs.Environments.{Adds, Extends, IsEnv, env_of};
ghost use Rattle.lq_env.specs.Inductive.{Passes};

use lq_env::{Env, EnvFault, Family, family_type, refuse_taken_names};
use lq_terms::{Bank, TermId};
use lq_trees::Sort;

/// Appends a family, its constructors and its eliminators, those into `sorts` permitted.
pub fn family_added(
    env: &mut Env,
    bank: &mut Bank<'_>,
    family: Family,
    sorts: &[Sort],
) -> Result<(), EnvFault>
    requires env { IsEnv bank.old env.old }
    requires family { IsFamily bank.old family }
    requires sorts { AllByRecursion IsSort sorts.now }
    ensures answer { Adds bank.new result env.new (add_inductive (env_of bank.old env.old) (family_of bank.old family) sorts.now) }
    ensures extends { OnOk result (Extends env.old env.new) }
    ensures kept { OnErr result (env.new ≡ env.old) }
    ensures grows { Grows bank.old bank.new }
{
    env.add_inductive(bank, family, sorts)
}

/// Refuses the first of the names that a family declares which is declared already or stands twice.
pub fn taken_names_refused(bank: &mut Bank<'_>, env: &Env, family: &Family) -> Result<(), EnvFault>
    requires env { IsEnv bank.old env.now }
    requires family { HasFamily bank.old family.now }
    ensures answer { Passes bank.new result (first_taken (names_of (env_of bank.old env.now)) (declared_names (family_of bank.old family.now))) }
    ensures grows { Grows bank.old bank.new }
{
    refuse_taken_names(bank, env, family)
}

/// A family's type: the products over its parameters and indices into its sort.
pub fn type_of_family(bank: &mut Bank<'_>, family: &Family) -> Result<TermId, EnvFault>
    requires { IsFamily bank.old family.now }
    ensures answer { Stores bank.new result (family_type (family_of bank.old family.now)) }
    ensures grows { Grows bank.old bank.new }
{
    family_type(bank, family)
}
