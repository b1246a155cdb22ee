//! Statements, from their terms as they are written.

ghost use Rattle.std.specs.Prelude.{◌≡◌, ◌+◌, [], IfOk, map};
ghost use Rattle.lq_ast.specs.Plain.{plain, plain_binders, joined};
ghost use Rattle.lq_ast.specs.Syntax.{bound, Forall};
ghost use Rattle.lq_kernel.specs.Closed.{IsScoped};
ghost use Rattle.lq_terms.specs.Terms.{Grows, tree_of};
ghost use Rattle.lq_env.specs.Environments.{IsEnv, env_of};
ghost use Rattle.lq_solving.specs.Claims.{ArePlainDeclarations};
ghost use Rattle.lq_solving.specs.Kept.{IsStore, StandsIn};
ghost use Rattle.lq_solving.specs.Stores.{no_variables};
ghost use Rattle.lq_evars.specs.Places.{store_of, HasStore};
ghost use Rattle.lq_goals.specs.Seen.{IsReadable};
ghost use Rattle.lq_elaborated.specs.Stating.{statement_work, Finishes, States};

use crate::terms::type_in;
use lq_ast::{Binders, Surface};
use lq_causes::Stop;
use lq_declaring::all_solved;
use lq_elab::Written;
use lq_env::Env;
use lq_evars::Store;
use lq_terms::{Bank, Context, Steps, TermId, Work};
use std::sync::ledger::Ledger;

/// A term as it reads, where each variable has a value.
fn finished(bank: &mut Bank<'_>, store: &Store, term: TermId) -> Result<TermId, Stop>
    requires store { HasStore bank.old store.now }
    requires kept { IsStore (store_of bank.old store.now) }
    requires term { IsReadable bank.old store.now term }
    ensures answer { Finishes bank.new result (store_of bank.old store.now) (tree_of bank.old term) }
    ensures grows { Grows bank.old bank.new }
{
    match all_solved(store) {
        Ok(()) => {}
        Err(stop) => return Err(stop),
    }
    match store.read(bank, term) {
        Ok(read) => Ok(read),
        Err(fault) => Err(Stop::from(fault)),
    }
}

/// The statement of a theorem, from its parameters and its type as they are written: a term that has a sort, without variables, as it
/// reads. It pays the ticks of elaboration. Refused as elaboration refuses, as `NotASort` with the weak head form of its type, as
/// `Unresolved` where variables have no value, with how many, and as `TooLarge` or `TooDeep` where it passes a limit as it reads. See the
/// Rocq reference manual, "Assertions and proofs".
pub fn state<L: Ledger>(
    work: &mut Work<'_, '_>,
    env: &Env,
    groups: &[Binders],
    kind: &Surface,
    steps: &mut Steps<L>,
) -> Result<TermId, Stop>
    requires env { IsEnv work.old.bank.now env.now }
    requires plain { ArePlainDeclarations (env_of work.old.bank.now env.now) }
    ensures answer { States work.new.bank.now result (statement_work (env_of work.old.bank.now env.now)
        (bound Forall (joined (map plain_binders groups.now)) (plain kind.now))) work.old.ticks.now.left work.new.ticks.now.left }
    ensures scoped { IfOk result (IsScoped work.new.bank.now 0) }
    ensures stands { IfOk result (λ t. StandsIn no_variables [] (tree_of work.new.bank.now t)) }
    ensures same_bank { work.new.bank.ghost_name ≡ work.old.bank.ghost_name }
    ensures same_ticks { work.new.ticks.ghost_name ≡ work.old.ticks.ghost_name }
    ensures grows { Grows work.old.bank.now work.new.bank.now }
    ensures budget { work.new.ticks.now.left + work.new.ticks.now.spent ≡ work.old.ticks.now.left + work.old.ticks.now.spent }
    ensures counted { steps.new + work.old.ticks.now.spent ≡ steps.old + work.new.ticks.now.spent }
{
    let alloc = work.bank.allocator();
    let context = Context::new(alloc);
    let mut store = match Store::new(alloc) {
        Ok(store) => store,
        Err(_) => return Err(Stop::NoMemory),
    };
    match type_in(
        work,
        env,
        &mut store,
        &context,
        Written::Forall(groups, kind),
        steps,
    ) {
        Ok(found) => finished(work.bank, &store, found.term),
        Err(stop) => Err(stop),
    }
}
