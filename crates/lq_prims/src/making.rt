//! The variables that a term made.

ghost use Rattle.std.specs.Prelude.{◌≡◌, ◌≤◌, length, IfOk};
ghost use Rattle.lq_terms.specs.Terms.{Terms};
ghost use Rattle.lq_solving.specs.Stores.{Store as TreeStore, count};
ghost use Rattle.lq_solving.specs.Kept.{IsStore};
ghost use Rattle.lq_evars.specs.Places.{store_of};
ghost use Rattle.lq_tactics.specs.Rows.{made_open};
ghost use Rattle.lq_prims.specs.Making.{left_work};
ghost use Rattle.lq_prims.specs.Working.{Tells};

use crate::faults::PrimFault;
use crate::listing::shelved;
use lq_evars::Store;
use lq_terms::{Bank, NoMemory};
use std::alloc::Global;

/// The variables without a value that were made since there were so many, in order.
pub(crate) fn made_open(alloc: Global, store: &Store, before: u32) -> Result<Vec<u32>, NoMemory>
    ensures { IfOk result (λ v. (bank : Terms) → IsStore (store_of bank store.now) → (s : TreeStore) → count s ≡ before
        → v.items ≡ made_open s (store_of bank store.now)) }
{
    shelved(alloc, store, before, &[])
}

/// So many goals, of which a store has as many variables at least.
fn count_of(store: &Store, goals: &[u32]) -> u32
    requires { length goals.now ≤ length store.now.variables }
    ensures { result ≡ length goals.now }
{
    let _most = store.count();
    goals.len() as u32
}

/// Refuses as `VariablesLeft` where variables have no value that were made since there were so many.
pub(crate) fn refuse_open(
    alloc: Global,
    bank: &Bank<'_>,
    store: &Store,
    before: u32,
) -> Result<(), PrimFault>
    requires before { before ≤ length store.now.variables }
    requires kept { IsStore (store_of bank.now store.now) }
    ensures { (s : TreeStore) → count s ≡ before → Tells bank.now (λ u. u) result (left_work s (store_of bank.now store.now)) }
{
    match made_open(alloc, store, before) {
        Ok(open) => {
            let left = open.as_slice();
            if left.is_empty() {
                Ok(())
            } else {
                Err(PrimFault::VariablesLeft(count_of(store, left)))
            }
        }
        Err(_) => Err(PrimFault::NoMemory),
    }
}
