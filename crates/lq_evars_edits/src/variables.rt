//! Variables, and what a store tells of them.

ghost use Rattle.std.specs.Prelude.{◌≡◌, ◌<◌, Some, length, slice_get, option_map, take, OnOk, OnErr, IfOk, IfErr};
ghost use Rattle.lq_terms.specs.Terms.{Terms, text_of, tree_of};
ghost use Rattle.lq_solving.specs.Stores.{Variable as TreeVariable, count, value, named_variable, new_variable, with_kind};
ghost use Rattle.lq_solving.specs.Kept.{IsStore, IsVariable, StandsIn};
ghost use Rattle.lq_evars.specs.declared.store.StoreFault.{StoreFault};
ghost use Rattle.lq_evars.specs.Places.{Places, store_of, variable_of, value_at, number_of, HasStore, IsOwn, IsOwnOr, IsNewName};
ghost use Rattle.lq_evars.specs.Places.{GivesMore, Makes, one_more, kind_changed};

use lq_evars::{Store, StoreFault};
use lq_terms::{Context, NameId, NoMemory, TermId};
use std::alloc::Global;

/// The same store.
pub fn copied(store: &Store, alloc: Global) -> Result<Store, NoMemory>
    ensures { IfOk result (λ s. s ≡ store.now) }
{
    store.copy(alloc)
}

/// How many variables there are.
pub fn number_of_variables(store: &Store) -> u32
    ensures length { result ≡ length store.now.variables }
    ensures told { (bank : Terms) → result ≡ count (store_of bank store.now) }
{
    store.count()
}

/// The number of the variable of a name.
pub fn named(store: &Store, name: NameId) -> Option<u32>
    ensures place { result ≡ number_of store.now name }
    ensures told { (bank : Terms) → HasStore bank store.now → IsOwn bank name → result ≡ named_variable (store_of bank store.now) (text_of bank name) }
{
    store.named(name)
}

/// The value of a variable.
pub fn value_of(store: &Store, id: u32) -> Option<TermId>
    ensures place { result ≡ value_at store.now id }
    ensures told { (bank : Terms) → IsStore (store_of bank store.now) → option_map (tree_of bank) result ≡ value (store_of bank store.now) id }
{
    store.value(id)
}

/// One more variable.
pub fn made(
    store: &mut Store,
    context: Context,
    kind: TermId,
    name: Option<NameId>,
) -> Result<u32, StoreFault>
    requires { IsNewName store.old name }
    ensures added { OnOk result (store.new ≡ one_more store.old (record { context = context; kind = kind; name = name })) }
    ensures kept { OnErr result (store.new ≡ store.old) }
    ensures told { (bank : Terms)
        → Makes bank result store.new (new_variable (store_of bank store.old) (variable_of bank (record { context = context; kind = kind; name = name }))) }
    ensures stands { (bank : Terms) → HasStore bank store.old → IsStore (store_of bank store.old)
        → IsVariable (store_of bank store.old) (variable_of bank (record { context = context; kind = kind; name = name })) → IsOwnOr bank name
        → OnOk result (IsStore (store_of bank store.new)) }
{
    store.new_var(context, kind, name)
}

/// Another type for a variable.
pub fn retyped(store: &mut Store, id: u32, kind: TermId) -> Result<(), StoreFault>
    requires { id < length store.old.variables }
    ensures changed { OnOk result (store.new ≡ kind_changed store.old id kind) }
    ensures kept { OnErr result (store.new ≡ store.old) }
    ensures refused { IfErr result (λ f. f ≡ StoreFault.NoMemory) }
    ensures told { OnOk result ((bank : Terms) → store_of bank store.new ≡ with_kind (store_of bank store.old) id (tree_of bank kind)) }
    ensures stands { (bank : Terms) → IsStore (store_of bank store.old)
        → ((v : TreeVariable) → slice_get (store_of bank store.old).variables id ≡ Some v → StandsIn (store_of bank store.old) v.context (tree_of bank kind))
        → OnOk result (IsStore (store_of bank store.new)) }
{
    store.set_kind(id, kind)
}

/// The store as it was when so many values were given.
pub fn back(store: &mut Store, given: usize)
    ensures variables { store.new.variables ≡ store.old.variables }
    ensures values { store.new.values ≡ take given store.old.values }
    ensures back { (before : Places) → GivesMore before store.old → given ≡ length before.values → store.new ≡ before }
{
    store.take_back(given);
}
