//! Variables on which the types of others depend.

ghost use Rattle.std.specs.Prelude.{◌≡◌, ◌<◌, ◌++◌, ◌∷◌, [], length, slice_get, IfOk, OnOk};
ghost use Rattle.std.specs.List.{AllByRecursion};
ghost use Rattle.lq_evars.specs.Places.{HasStore, store_of};
ghost use Rattle.lq_solving.specs.Kept.{IsStore};
ghost use Rattle.lq_tactics.specs.Applying.{any_depends, kind_depends};
ghost use Rattle.lq_tactics.specs.Primitives.{independent};
ghost use Rattle.lq_prims.specs.Scenes.{IsGoal};

use crate::holding::reads_with;
use lq_evars::Store;
use lq_terms::{Bank, NoMemory};

/// Whether the type of a variable depends on another.
fn kind_depends(bank: &Bank<'_>, store: &Store, other: u32, variable: u32) -> Result<bool, NoMemory>
    requires { IsGoal bank.now store.now variable }
    ensures { IfOk result (λ b. b ≡ kind_depends (store_of bank.now store.now) other (slice_get (store_of bank.now store.now).variables variable)) }
{
    let context = store.context(variable).hypotheses();
    let kind = store.kind(variable);
    reads_with(bank, store, other, context, kind)
}

/// Whether the type of one of the variables depends on another.
pub(crate) fn any_depends(
    bank: &Bank<'_>,
    store: &Store,
    other: u32,
    variables: &[u32],
) -> Result<bool, NoMemory>
    requires store { HasStore bank.now store.now }
    requires kept { IsStore (store_of bank.now store.now) }
    requires variables { AllByRecursion (λ k. k < length store.now.variables) variables.now }
    ensures { IfOk result (λ b. b ≡ any_depends (store_of bank.now store.now) other variables.now) }
{
    for variable in variables {
        if kind_depends(bank, store, other, *variable)? {
            return Ok(true);
        }
    }
    Ok(false)
}

/// One variable more behind others.
fn add(variables: &mut Vec<u32>, variable: u32) -> Result<(), NoMemory>
    ensures { OnOk result (variables.new.items ≡ variables.old.items ++ variable ∷ []) }
{
    variables.push(variable)?;
    Ok(())
}

/// Those of the variables on which the type of none of them depends, in order.
pub(crate) fn independent(
    bank: &Bank<'_>,
    store: &Store,
    variables: &[u32],
) -> Result<Vec<u32>, NoMemory>
    requires store { HasStore bank.now store.now }
    requires kept { IsStore (store_of bank.now store.now) }
    requires variables { AllByRecursion (λ k. k < length store.now.variables) variables.now }
    ensures { IfOk result (λ v. v.items ≡ independent (store_of bank.now store.now) variables.now variables.now) }
{
    let mut found = Vec::new(bank.allocator());
    for variable in variables {
        if !any_depends(bank, store, *variable, variables)? {
            add(&mut found, *variable)?;
        }
    }
    Ok(found)
}
