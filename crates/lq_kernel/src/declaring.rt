//! Inductive families are declared.

ghost use Rattle.std.specs.Prelude.{◌≡◌, ◌+◌, ◌∷◌, [], ◌++◌, ℕ, Bool, List, None, IfOk, OnOk, OnErr};
ghost use Rattle.std.specs.List.{AllByRecursion};
ghost use Rattle.lq_trees.specs.declared.Sort.{Sort as Universe};
ghost use Rattle.lq_terms.specs.Terms.{text_of, tree_of, Grows};
ghost use Rattle.lq_calculus.specs.Declarations.{arity, names_of, declared_names, family_type, first_taken, is_small, permitted, add_inductive};
ghost use Rattle.lq_calculus.specs.Checking.{check_constructors, declare_family};
ghost use Rattle.lq_env.specs.Environments.{IsEnv, env_of, Extends};
ghost use Rattle.lq_env.specs.Families.{IsFamily, IsSort, family_of};
ghost use Rattle.lq_kernel.specs.Answers.{Declares};
ghost use Rattle.lq_kernel.specs.Declaring.{IsOffered, LooksOver, FindsSmall, AddsFamily, IsEverywhere, ChecksFamily, constructors_work};

use crate::arities::family_arity;
use crate::families::{check_constructors, known_constructors, known_context, sorts_of, telescope};
use crate::faults::{KernelFault, lacking};
use lq_env::{Env, Family, refuse_taken_names};
use lq_terms::{Bank, Context, Steps, Work};
use lq_trees::Sort;
use std::sync::ledger::Ledger;

/// Refuses a family of which a name is taken, or whose types hold a hypothesis that is none of those which
/// stand before them; the bank may grow.
fn look_over(
    bank: &mut Bank<'_>,
    env: &Env,
    family: &Family,
    telescope: &Context,
) -> Result<(), KernelFault>
    requires env { IsEnv bank.old env.now }
    requires family { IsOffered bank.old family.now }
    requires telescope { telescope.now ≡ family.now.parameters ++ family.now.indices }
    ensures answer { LooksOver bank.new result (env_of bank.old env.now) (family_of bank.old family.now) }
    ensures new { OnOk result (first_taken (names_of (env_of bank.old env.now)) (declared_names (family_of bank.old family.now)) ≡ None) }
    ensures family { OnOk result (IsFamily bank.old family.now) }
    ensures nodes { bank.new.nodes ≡ bank.old.nodes }
    ensures grows { Grows bank.old bank.new }
{
    refuse_taken_names(bank, env, family)?;
    known_context(bank, telescope)?;
    known_constructors(bank, family)
}

/// The check of a family's constructors, with the family as one that is being declared. The environment is
/// as before in the end.
fn check_inside<L: Ledger>(
    work: &mut Work<'_, '_>,
    env: &mut Env,
    family: &Family,
    steps: &mut Steps<L>,
) -> Result<bool, KernelFault>
    requires env { IsEnv work.old.bank.now env.old }
    requires offered { IsOffered work.old.bank.now family.now }
    requires family { IsFamily work.old.bank.now family.now }
    requires new { first_taken (names_of (env_of work.old.bank.now env.old)) (declared_names (family_of work.old.bank.now family.now)) ≡ None }
    ensures answer { FindsSmall work.new.bank.now result (constructors_work (env_of work.old.bank.now env.old) (family_of work.old.bank.now family.now))
        work.old.ticks.now.left work.new.ticks.now.left }
    ensures kept { env.new ≡ env.old }
    ensures same_bank { work.new.bank.ghost_name ≡ work.old.bank.ghost_name }
    ensures same_ticks { work.new.ticks.ghost_name ≡ work.old.ticks.ghost_name }
    ensures grows { Grows work.old.bank.now work.new.bank.now }
    ensures budget { work.new.ticks.now.left + work.new.ticks.now.spent ≡ work.old.ticks.now.left + work.old.ticks.now.spent }
    ensures counted { steps.new + work.old.ticks.now.spent ≡ steps.old + work.new.ticks.now.spent }
{
    let arity = family_arity(work.bank, family)?;
    work.bank.names_apart();
    match env.open_family(family.name, arity) {
        Ok(()) => {
            let small = check_constructors(work, env, family, steps);
            env.close_family();
            small
        }
        Err(fault) => Err(lacking(fault)),
    }
}

/// The checks of a family: its names, the sorts of its parameters and indices, its constructors. It answers
/// whether the family, if it lies in Prop, is eliminated into every sort. Where it passes, the terms that were made to find
/// out are dropped.
fn check_family<L: Ledger>(
    work: &mut Work<'_, '_>,
    env: &mut Env,
    family: &Family,
    steps: &mut Steps<L>,
) -> Result<bool, KernelFault>
    requires env { IsEnv work.old.bank.now env.old }
    requires family { IsOffered work.old.bank.now family.now }
    ensures answer { ChecksFamily work.new.bank.now result (env_of work.old.bank.now env.old) (family_of work.old.bank.now family.now) work.old.ticks.now.left
        work.new.ticks.now.left }
    ensures new { OnOk result (first_taken (names_of (env_of work.old.bank.now env.old)) (declared_names (family_of work.old.bank.now family.now)) ≡ None) }
    ensures family { OnOk result (IsFamily work.old.bank.now family.now) }
    ensures dropped { OnOk result (work.new.bank.now.nodes ≡ work.old.bank.now.nodes) }
    ensures kept { env.new ≡ env.old }
    ensures same_bank { work.new.bank.ghost_name ≡ work.old.bank.ghost_name }
    ensures same_ticks { work.new.ticks.ghost_name ≡ work.old.ticks.ghost_name }
    ensures grows { Grows work.old.bank.now work.new.bank.now }
    ensures budget { work.new.ticks.now.left + work.new.ticks.now.spent ≡ work.old.ticks.now.left + work.old.ticks.now.spent }
    ensures counted { steps.new + work.old.ticks.now.spent ≡ steps.old + work.new.ticks.now.spent }
{
    let telescope = telescope(work.bank.allocator(), family)?;
    look_over(work.bank, env, family, &telescope)?;
    let mark = work.bank.mark();
    sorts_of(work, env, &telescope, steps)?;
    let small = check_inside(work, env, family, steps)?;
    work.bank.undo(mark);
    Ok(small)
}

/// Whether a family is eliminated into every sort.
fn is_permitted_everywhere(sort: Sort, small: bool) -> bool
    ensures { (found : List (List Universe)) → small ≡ is_small found → IsEverywhere result (permitted sort found) }
{
    match sort {
        Sort::Base => small,
        Sort::Level(_) => true,
    }
}

/// Adds a family that is eliminated into those sorts.
fn add_into(
    bank: &mut Bank<'_>,
    env: &mut Env,
    family: Family,
    sorts: &[Sort],
) -> Result<(), KernelFault>
    requires env { IsEnv bank.old env.old }
    requires family { IsFamily bank.old family }
    requires sorts { AllByRecursion IsSort sorts.now }
    ensures answer { AddsFamily bank.new result env.new (add_inductive (env_of bank.old env.old) (family_of bank.old family) sorts.now) }
    ensures extends { OnOk result (Extends env.old env.new) }
    ensures kept { OnErr result (env.new ≡ env.old) }
    ensures grows { Grows bank.old bank.new }
{
    match env.add_inductive(bank, family, sorts) {
        Ok(()) => Ok(()),
        Err(fault) => Err(KernelFault::from(fault)),
    }
}

/// Adds a family, eliminated into the sorts that are permitted for it.
fn add_family(
    bank: &mut Bank<'_>,
    env: &mut Env,
    family: Family,
    small: bool,
) -> Result<(), KernelFault>
    requires env { IsEnv bank.old env.old }
    requires family { IsFamily bank.old family }
    ensures answer { (found : List (List Universe)) → small ≡ is_small found
        → AddsFamily bank.new result env.new (add_inductive (env_of bank.old env.old) (family_of bank.old family) (permitted family.sort found)) }
    ensures extends { OnOk result (Extends env.old env.new) }
    ensures kept { OnErr result (env.new ≡ env.old) }
    ensures grows { Grows bank.old bank.new }
{
    if is_permitted_everywhere(family.sort, small) {
        let every = [
            Sort::Base,
            Sort::Level(0),
            Sort::Level(1),
            Sort::Level(2),
            Sort::Level(3),
        ];
        add_into(bank, env, family, &every)
    } else {
        add_into(bank, env, family, &[Sort::Base])
    }
}

/// Declares a family that passes the checks. After a refusal the environment is as before.
pub(crate) fn declare_family<L: Ledger>(
    work: &mut Work<'_, '_>,
    env: &mut Env,
    family: Family,
    steps: &mut Steps<L>,
) -> Result<(), KernelFault>
    requires env { IsEnv work.old.bank.now env.old }
    requires family { IsOffered work.old.bank.now family }
    ensures answer { Declares work.new.bank.now result env.new (λ n. declare_family (env_of work.old.bank.now env.old) n (family_of work.old.bank.now family))
        work.old.ticks.now.left work.new.ticks.now.left }
    ensures env { IsEnv work.new.bank.now env.new }
    ensures extends { OnOk result (Extends env.old env.new) }
    ensures kept { OnErr result (env.new ≡ env.old) }
    ensures same_bank { work.new.bank.ghost_name ≡ work.old.bank.ghost_name }
    ensures same_ticks { work.new.ticks.ghost_name ≡ work.old.ticks.ghost_name }
    ensures grows { Grows work.old.bank.now work.new.bank.now }
    ensures budget { work.new.ticks.now.left + work.new.ticks.now.spent ≡ work.old.ticks.now.left + work.old.ticks.now.spent }
    ensures counted { steps.new + work.old.ticks.now.spent ≡ steps.old + work.new.ticks.now.spent }
{
    let small = check_family(work, env, &family, steps)?;
    add_family(work.bank, env, family, small)
}
