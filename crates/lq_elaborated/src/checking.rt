//! Terms that are checked, from how they are written.

ghost use Rattle.std.specs.Prelude.{◌≡◌, ◌+◌, ◌≤◌, length};
ghost use Rattle.lq_ast.specs.Plain.{plain};
ghost use Rattle.lq_terms.specs.Contexts.{HasContext, context_of};
ghost use Rattle.lq_terms.specs.Terms.{Grows};
ghost use Rattle.lq_env.specs.Environments.{IsEnv, env_of};
ghost use Rattle.lq_solving.specs.Claims.{ArePlainDeclarations};
ghost use Rattle.lq_solving.specs.Kept.{IsContext, IsStore};
ghost use Rattle.lq_solving.specs.Stores.{Store as TreeStore, count};
ghost use Rattle.lq_evars.specs.Places.{store_of, HasStore};
ghost use Rattle.lq_goals.specs.Seen.{IsReadable};
ghost use Rattle.lq_elaborated.specs.Checking.{checked_work, Checks, ReadsFound};
ghost use Rattle.lq_elaborated.specs.Finding.{found_in};

use crate::terms::{Typed, term_in};
use lq_ast::Surface;
use lq_causes::Stop;
use lq_declaring::{both_read, unsolved_from};
use lq_elab::Written;
use lq_env::Env;
use lq_evars::Store;
use lq_print::{Cause, SentenceCause};
use lq_terms::{Bank, Context, Steps, Work};
use std::sync::ledger::Ledger;

/// A term and its type as they read, where each variable from a number on has a value.
fn found_read(bank: &mut Bank<'_>, store: &Store, first: u32, found: Typed) -> Result<Typed, Stop>
    requires store { HasStore bank.old store.now }
    requires kept { IsStore (store_of bank.old store.now) }
    requires first { first ≤ length store.now.variables }
    requires term { IsReadable bank.old store.now found.term }
    requires kind { IsReadable bank.old store.now found.kind }
    ensures answer { (s : TreeStore) → first ≡ count s → ReadsFound bank.new result s (found_in bank.old store.now found) }
    ensures grows { Grows bank.old bank.new }
{
    let open = unsolved_from(store, first);
    if open != 0 {
        return Err(Stop::Refused(Cause::Sentence(SentenceCause::Unresolved(open as u64))));
    }
    match both_read(bank, store, found.term, found.kind) {
        Ok((term, kind)) => Ok(Typed { term, kind }),
        Err(fault) => Err(Stop::from(fault)),
    }
}

/// A term in a context over a store, and its type, as they read. It pays the ticks of elaboration. Refused as elaboration refuses, and as
/// `Unresolved` where variables that it made have no value, with how many. The store may have more variables afterwards.
pub fn check_term<L: Ledger>(
    work: &mut Work<'_, '_>,
    env: &Env,
    store: &mut Store,
    context: &Context,
    term: &Surface,
    steps: &mut Steps<L>,
) -> Result<Typed, Stop>
    requires env { IsEnv work.old.bank.now env.now }
    requires plain { ArePlainDeclarations (env_of work.old.bank.now env.now) }
    requires store { HasStore work.old.bank.now store.old }
    requires kept { IsStore (store_of work.old.bank.now store.old) }
    requires context { HasContext work.old.bank.now context.now }
    requires hypotheses { IsContext (store_of work.old.bank.now store.old) (context_of work.old.bank.now context.now) }
    ensures answer { Checks work.new.bank.now result (checked_work (env_of work.old.bank.now env.now) (context_of work.old.bank.now context.now)
        (store_of work.old.bank.now store.old) (plain term.now)) work.old.ticks.now.left work.new.ticks.now.left }
    ensures same_bank { work.new.bank.ghost_name ≡ work.old.bank.ghost_name }
    ensures same_ticks { work.new.ticks.ghost_name ≡ work.old.ticks.ghost_name }
    ensures grows { Grows work.old.bank.now work.new.bank.now }
    ensures budget { work.new.ticks.now.left + work.new.ticks.now.spent ≡ work.old.ticks.now.left + work.old.ticks.now.spent }
    ensures counted { steps.new + work.old.ticks.now.spent ≡ steps.old + work.new.ticks.now.spent }
{
    let first = store.count();
    match term_in(work, env, store, context, Written::Term(term), None, steps) {
        Ok(found) => found_read(work.bank, store, first, found),
        Err(stop) => Err(stop),
    }
}
