//! Values, and terms as they read.

ghost use Rattle.std.specs.Prelude.{◌≡◌, OnOk, OnErr, IfOk};
ghost use Rattle.lq_trees.specs.Index.{Within};
ghost use Rattle.lq_terms.specs.Terms.{HasTerm, Grows, tree_of};
ghost use Rattle.lq_solving.specs.Stores.{assigned, read_fitting, reads_same};
ghost use Rattle.lq_solving.specs.Kept.{IsStore, IsValue, IsOver};
ghost use Rattle.lq_evars.specs.Places.{store_of, HasStore, one_given};
ghost use Rattle.lq_evars.specs.Reading.{Answers, Gives};
ghost use Rattle.lq_evars.specs.Closures.{IsTermOver};

use lq_evars::{Store, StoreFault};
use lq_terms::{Bank, NoMemory, TermId};

/// The term with all values filled in.
pub fn read_through(store: &Store, bank: &mut Bank<'_>, term: TermId) -> Result<TermId, StoreFault>
    requires store { HasStore bank.old store.now }
    requires kept { IsStore (store_of bank.old store.now) }
    requires term { HasTerm bank.old term }
    requires over { IsOver (store_of bank.old store.now).variables (tree_of bank.old term) }
    requires closed { Within 0 (tree_of bank.old term) }
    ensures answer { Answers bank.new result (read_fitting (store_of bank.old store.now) (tree_of bank.old term)) }
    ensures grows { Grows bank.old bank.new }
{
    store.read(bank, term)
}

/// Whether two terms as they read are equal but for the names of binders.
pub fn is_same(
    store: &Store,
    bank: &Bank<'_>,
    left: TermId,
    right: TermId,
) -> Result<bool, NoMemory>
    requires store { HasStore bank.now store.now }
    requires kept { IsStore (store_of bank.now store.now) }
    requires left { IsTermOver bank.now (store_of bank.now store.now).variables left }
    requires right { IsTermOver bank.now (store_of bank.now store.now).variables right }
    ensures { IfOk result (λ b. b ≡ reads_same (store_of bank.now store.now) (tree_of bank.now left) (tree_of bank.now right)) }
{
    store.same(bank, left, right)
}

/// A value for a variable that has none.
pub fn assigned(
    store: &mut Store,
    bank: &mut Bank<'_>,
    id: u32,
    body: TermId,
) -> Result<(), StoreFault>
    requires store { HasStore bank.old store.old }
    requires kept { IsStore (store_of bank.old store.old) }
    requires body { HasTerm bank.old body }
    requires value { IsValue (store_of bank.old store.old).variables (store_of bank.old store.old).values (record { id = id; body = tree_of bank.old body }) }
    ensures given { OnOk result (store.new ≡ one_given store.old id body) }
    ensures kept { OnErr result (store.new ≡ store.old) }
    ensures told { Gives bank.new result store.new (assigned (store_of bank.old store.old) id (tree_of bank.old body)) }
    ensures stands { OnOk result (IsStore (store_of bank.new store.new)) }
    ensures has { OnOk result (HasStore bank.new store.new) }
    ensures grows { Grows bank.old bank.new }
{
    store.assign(bank, id, body)
}
