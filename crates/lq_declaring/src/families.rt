//! What a family asks of the kernel, once its terms are elaborated.

ghost use Rattle.std.specs.Prelude.{◌≡◌, ◌+◌, ◌<◌, ◌≤◌, length, IfOk, OnOk, OnErr};
ghost use Rattle.std.specs.List.{AllByRecursion};
ghost use Rattle.lq_trees.specs.Index.{Within};
ghost use Rattle.lq_calculus.specs.Checking.{declare_family};
ghost use Rattle.lq_calculus.specs.Typing.{DerivedEnv};
ghost use Rattle.lq_terms.specs.Terms.{HasName, text_of, tree_of, Grows};
ghost use Rattle.lq_env.specs.Environments.{IsEnv, env_of, Extends};
ghost use Rattle.lq_env.specs.Families.{HasConstructor, constructors_of};
ghost use Rattle.lq_solving.specs.Kept.{IsStore};
ghost use Rattle.lq_evars.specs.Places.{store_of, HasStore};
ghost use Rattle.lq_goals.specs.Seen.{IsReadable};
ghost use Rattle.lq_kernel.specs.Closed.{IsScoped};
ghost use Rattle.lq_sessions.specs.Declaring.{family_by, kernel_work};
ghost use Rattle.lq_declaring.specs.Constants.{Declares};
ghost use Rattle.lq_declaring.specs.Families.{CanReadIt, ReadsEach, ReadsAll, family_rest, row_stop};
ghost use Rattle.lq_declaring.specs.Rows.{IsRow, row_in};

use crate::constants::all_solved;
use crate::rows::{Row, RowFault, row_of};
use lq_causes::Stop;
use lq_env::{Constructors, Env, Family};
use lq_evars::{Store, StoreFault};
use lq_kernel::{Declaration, declare};
use lq_print::{Cause, TermCause};
use lq_terms::{Bank, NameId, Steps, TermId, Work};
use std::sync::ledger::Ledger;

/// Constructors with their types as they read, in order.
fn each_read(
    bank: &mut Bank<'_>,
    store: &Store,
    constructors: &[(NameId, TermId)],
) -> Result<Constructors, StoreFault>
    requires store { HasStore bank.old store.now }
    requires kept { IsStore (store_of bank.old store.now) }
    requires constructors { AllByRecursion (CanReadIt bank.old store.now) constructors.now }
    ensures read { ReadsEach bank.new result (store_of bank.old store.now) (constructors_of bank.old constructors.now) }
    ensures grows { Grows bank.old bank.new }
{
    let mut read = Constructors::new(bank.allocator());
    for constructor in constructors {
        match store.read(bank, constructor.1) {
            Ok(kind) => read.push(constructor.0, kind)?,
            Err(fault) => return Err(fault),
        }
    }
    Ok(read)
}

/// An arity, and constructors, as they read, in order.
fn all_read(
    bank: &mut Bank<'_>,
    store: &Store,
    arity: TermId,
    constructors: &[(NameId, TermId)],
) -> Result<(TermId, Constructors), StoreFault>
    requires store { HasStore bank.old store.now }
    requires kept { IsStore (store_of bank.old store.now) }
    requires arity { IsReadable bank.old store.now arity }
    requires constructors { AllByRecursion (CanReadIt bank.old store.now) constructors.now }
    ensures read { ReadsAll bank.new result (store_of bank.old store.now) (tree_of bank.old arity) (constructors_of bank.old constructors.now) }
    ensures scoped { IfOk result (λ r. IsScoped bank.new 0 r.0) }
    ensures grows { Grows bank.old bank.new }
{
    let read = match store.read(bank, arity) {
        Ok(read) => read,
        Err(fault) => return Err(fault),
    };
    match each_read(bank, store, constructors) {
        Ok(constructors) => Ok((read, constructors)),
        Err(fault) => Err(fault),
    }
}

/// A term that is no row, as what stops a sentence.
fn stop_of(fault: RowFault) -> Stop
    ensures { result ≡ row_stop fault }
{
    match fault {
        RowFault::NotASort(end) => Stop::Refused(Cause::Term(TermCause::NotASort(end))),
        RowFault::NoMemory => Stop::NoMemory,
    }
}

/// The kernel declares a family of a row.
fn declared<L: Ledger>(
    work: &mut Work<'_, '_>,
    env: &mut Env,
    name: NameId,
    row: Row,
    constructors: Constructors,
    steps: &mut Steps<L>,
) -> Result<(), Stop>
    requires env { IsEnv work.old.bank.now env.old }
    requires name { HasName work.old.bank.now name }
    requires row { IsRow work.old.bank.now row }
    requires few { length row.parameters + length row.indices < 4294967296 }
    requires have { AllByRecursion (HasConstructor work.old.bank.now) constructors }
    requires within { AllByRecursion (λ c. Within 0 (tree_of work.old.bank.now c.1)) constructors }
    requires few_constructors { length constructors < 4294967296 }
    ensures answer { Declares work.new.bank.now result env.new (λ n. kernel_work (declare_family (env_of work.old.bank.now env.old) n
        (family_by (text_of work.old.bank.now name) (row_in work.old.bank.now row) (constructors_of work.old.bank.now constructors))))
        work.old.ticks.now.left work.new.ticks.now.left }
    ensures derived { OnOk result (DerivedEnv (env_of work.old.bank.now env.old) → DerivedEnv (env_of work.new.bank.now env.new)) }
    ensures env { IsEnv work.new.bank.now env.new }
    ensures extends { OnOk result (Extends env.old env.new) }
    ensures kept { OnErr result (env.new ≡ env.old) }
    ensures same_bank { work.new.bank.ghost_name ≡ work.old.bank.ghost_name }
    ensures same_ticks { work.new.ticks.ghost_name ≡ work.old.ticks.ghost_name }
    ensures grows { Grows work.old.bank.now work.new.bank.now }
    ensures budget { work.new.ticks.now.left + work.new.ticks.now.spent ≡ work.old.ticks.now.left + work.old.ticks.now.spent }
    ensures counted { steps.new + work.old.ticks.now.spent ≡ steps.old + work.new.ticks.now.spent }
{
    let family = Family {
        name,
        parameters: row.parameters,
        indices: row.indices,
        sort: row.sort,
        constructors,
    };
    match declare(work, env, Declaration::Inductive(family), steps) {
        Ok(()) => Ok(()),
        Err(fault) => Err(Stop::from(fault)),
    }
}

/// A family, once its arity and the types of its constructors were elaborated: refused where a variable of the store has no value, where
/// the arity as it reads and then a constructor's type pass the limits, where the arity does not end in a sort, and as the kernel refuses
/// the family. The arity's first binders, so many, are the parameters. After a refusal the environment is as before.
pub fn declare_inductive<L: Ledger>(
    work: &mut Work<'_, '_>,
    env: &mut Env,
    store: &Store,
    name: NameId,
    parameters: usize,
    arity: TermId,
    constructors: &[(NameId, TermId)],
    steps: &mut Steps<L>,
) -> Result<(), Stop>
    requires env { IsEnv work.old.bank.now env.old }
    requires store { HasStore work.old.bank.now store.now }
    requires stored { IsStore (store_of work.old.bank.now store.now) }
    requires name { HasName work.old.bank.now name }
    requires arity { IsReadable work.old.bank.now store.now arity }
    requires constructors { AllByRecursion (CanReadIt work.old.bank.now store.now) constructors.now }
    requires few { length constructors.now < 4294967296 }
    ensures answer { Declares work.new.bank.now result env.new (family_rest (env_of work.old.bank.now env.old) (text_of work.old.bank.now name) parameters
        (store_of work.old.bank.now store.now) (tree_of work.old.bank.now arity) (constructors_of work.old.bank.now constructors.now))
        work.old.ticks.now.left work.new.ticks.now.left }
    ensures derived { OnOk result (DerivedEnv (env_of work.old.bank.now env.old) → DerivedEnv (env_of work.new.bank.now env.new)) }
    ensures env { IsEnv work.new.bank.now env.new }
    ensures extends { OnOk result (Extends env.old env.new) }
    ensures kept { OnErr result (env.new ≡ env.old) }
    ensures same_bank { work.new.bank.ghost_name ≡ work.old.bank.ghost_name }
    ensures same_ticks { work.new.ticks.ghost_name ≡ work.old.ticks.ghost_name }
    ensures grows { Grows work.old.bank.now work.new.bank.now }
    ensures budget { work.new.ticks.now.left + work.new.ticks.now.spent ≡ work.old.ticks.now.left + work.old.ticks.now.spent }
    ensures counted { steps.new + work.old.ticks.now.spent ≡ steps.old + work.new.ticks.now.spent }
{
    match all_solved(store) {
        Ok(()) => {}
        Err(stop) => return Err(stop),
    }
    let (arity, constructors) = match all_read(work.bank, store, arity, constructors) {
        Ok(read) => read,
        Err(fault) => return Err(Stop::from(fault)),
    };
    match row_of(work.bank, parameters, arity) {
        Ok(row) => declared(work, env, name, row, constructors, steps),
        Err(fault) => Err(stop_of(fault)),
    }
}
