//! The variables that go to the shelf after a row.

ghost use Rattle.std.specs.Prelude.{◌≡◌, ◌<◌, ◌++◌, ◌∷◌, [], length, IfOk, OnOk};
ghost use Rattle.std.specs.List.{AllByRecursion};
ghost use Rattle.lq_terms.specs.Terms.{Terms};
ghost use Rattle.lq_solving.specs.Stores.{Store as TreeStore, count};
ghost use Rattle.lq_solving.specs.Kept.{IsStore};
ghost use Rattle.lq_states.specs.Goals.{has, without};
ghost use Rattle.lq_tactics.specs.Rows.{made_open, open_of};
ghost use Rattle.lq_evars.specs.Places.{store_of};
ghost use Rattle.lq_prims.specs.Listing.{is_left};

use lq_evars::Store;
use lq_terms::NoMemory;
use std::alloc::Global;

/// Whether a list has a goal.
fn has(goals: &[u32], goal: u32) -> bool
    ensures { result ≡ has goals.now goal }
{
    for listed in goals {
        if *listed == goal {
            return true;
        }
    }
    false
}

/// Whether a variable has no value and is none of the goals.
fn is_shelved(store: &Store, goals: &[u32], variable: u32) -> bool
    requires { variable < length store.now.variables }
    ensures { (bank : Terms) → IsStore (store_of bank store.now) → result ≡ is_left goals.now (store_of bank store.now) variable }
{
    match store.value(variable) {
        Some(_) => false,
        None => !has(goals, variable),
    }
}

/// One variable more behind others.
fn add(variables: &mut Vec<u32>, variable: u32) -> Result<(), NoMemory>
    ensures { OnOk result (variables.new.items ≡ variables.old.items ++ variable ∷ []) }
{
    variables.push(variable)?;
    Ok(())
}

/// The variables without a value that were made since there were so many, but for the goals.
pub(crate) fn shelved(
    alloc: Global,
    store: &Store,
    before: u32,
    goals: &[u32],
) -> Result<Vec<u32>, NoMemory>
    ensures { IfOk result (λ v. (bank : Terms) → IsStore (store_of bank store.now) → (s : TreeStore) → count s ≡ before
        → v.items ≡ without goals.now (made_open s (store_of bank store.now))) }
{
    let mut shelved = Vec::new(alloc);
    for variable in before..store.count() {
        if is_shelved(store, goals, variable) {
            add(&mut shelved, variable)?;
        }
    }
    Ok(shelved)
}

/// Those of the variables that have no value, but for some of them.
pub(crate) fn open_without(
    alloc: Global,
    store: &Store,
    variables: &[u32],
    but: &[u32],
) -> Result<Vec<u32>, NoMemory>
    requires { AllByRecursion (λ k. k < length store.now.variables) variables.now }
    ensures { IfOk result (λ v. (bank : Terms) → IsStore (store_of bank store.now)
        → v.items ≡ without but.now (open_of (store_of bank store.now) variables.now)) }
{
    let mut found = Vec::new(alloc);
    for variable in variables {
        if is_shelved(store, but, *variable) {
            add(&mut found, *variable)?;
        }
    }
    Ok(found)
}
