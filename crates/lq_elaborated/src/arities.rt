//! Arities of families, once they are elaborated.

ghost use Rattle.std.specs.Prelude.{◌≡◌};
ghost use Rattle.lq_trees.specs.declared.Fit.{Fit};
ghost use Rattle.lq_trees.specs.Size.{fit};
ghost use Rattle.lq_terms.specs.Terms.{Grows, tree_of};
ghost use Rattle.lq_solving.specs.Kept.{IsStore};
ghost use Rattle.lq_solving.specs.Stores.{read};
ghost use Rattle.lq_evars.specs.Places.{store_of, HasStore};
ghost use Rattle.lq_goals.specs.Seen.{IsReadable};
ghost use Rattle.lq_declaring.specs.Families.{row_stop};
ghost use Rattle.lq_elaborated.specs.Families.{ReadsRow};

use lq_causes::Stop;
use lq_declaring::{Row, RowFault, all_solved, row_of};
use lq_evars::Store;
use lq_print::{Cause, TermCause};
use lq_terms::{Bank, TermId};

/// A term that is no row, as what stops a sentence.
fn stop_of(fault: RowFault) -> Stop
    ensures { result ≡ row_stop fault }
{
    match fault {
        RowFault::NotASort(end) => Stop::Refused(Cause::Term(TermCause::NotASort(end))),
        RowFault::NoMemory => Stop::NoMemory,
    }
}

/// An arity as it reads, and its row, whose first binders, so many, are the parameters. Refused as `NotASort` where it does not end in a
/// sort, and as `Unresolved` where a variable of the store has no value.
pub fn arity_read(
    bank: &mut Bank<'_>,
    store: &Store,
    parameters: usize,
    arity: TermId,
) -> Result<(TermId, Row), Stop>
    requires store { HasStore bank.old store.now }
    requires kept { IsStore (store_of bank.old store.now) }
    requires arity { IsReadable bank.old store.now arity }
    requires fits { fit (read (store_of bank.old store.now) (tree_of bank.old arity)) ≡ Fit.Fits }
    ensures answer { ReadsRow bank.new result (store_of bank.old store.now) (tree_of bank.old arity) parameters }
    ensures grows { Grows bank.old bank.new }
{
    let read = match store.read(bank, arity) {
        Ok(read) => read,
        Err(fault) => return Err(Stop::from(fault)),
    };
    let row = match row_of(bank, parameters, read) {
        Ok(row) => row,
        Err(fault) => return Err(stop_of(fault)),
    };
    match all_solved(store) {
        Ok(()) => Ok((read, row)),
        Err(stop) => Err(stop),
    }
}
