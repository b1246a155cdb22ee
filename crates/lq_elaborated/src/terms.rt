//! Terms and types of a sentence, elaborated.

ghost use Rattle.std.specs.Prelude.{◌≡◌, ◌+◌, None, IfOk, OnErr, option_map};
ghost use Rattle.lq_terms.specs.Terms.{Grows, tree_of};
ghost use Rattle.lq_terms.specs.Contexts.{HasBody, HasContext, context_of};
ghost use Rattle.lq_env.specs.Environments.{IsEnv, env_of};
ghost use Rattle.lq_solving.specs.Claims.{ArePlainDeclarations};
ghost use Rattle.lq_solving.specs.Kept.{IsContext, IsStore, OptionStands};
ghost use Rattle.lq_solving.specs.Stores.{names_in};
ghost use Rattle.lq_evars.specs.Places.{store_of, HasStore};
ghost use Rattle.lq_elab.specs.Calls.{written_tree};
ghost use Rattle.lq_sessions.specs.Declaring.{term_work, type_work};
ghost use Rattle.lq_elaborated.specs.Finding.{Finds, IsTyped};

use crate::faults::stop_of;
use lq_causes::Stop;
use lq_elab::{Written, elaborate, sort_of};
use lq_env::Env;
use lq_evars::Store;
use lq_terms::{Context, Steps, TermId, Work};
use std::sync::ledger::Ledger;

/// A term that was elaborated, and its type.
#[derive(Clone, Copy)]
pub struct Typed {
    /// The term.
    pub term: TermId,
    /// Its type.
    pub kind: TermId,
}

/// A term as it is written, elaborated in a context without Ltac values, and with the type that is wanted of it if one is: a term and its
/// type, and the store with the variables that were made. It pays the ticks of `elaborate` and refuses as that does, by the
/// causes of a sentence; after a refusal the store is as before.
pub fn term_in<L: Ledger>(
    work: &mut Work<'_, '_>,
    env: &Env,
    store: &mut Store,
    context: &Context,
    term: Written<'_>,
    wanted: Option<TermId>,
    steps: &mut Steps<L>,
) -> Result<Typed, Stop>
    requires env { IsEnv work.old.bank.now env.now }
    requires plain { ArePlainDeclarations (env_of work.old.bank.now env.now) }
    requires store { HasStore work.old.bank.now store.old }
    requires kept { IsStore (store_of work.old.bank.now store.old) }
    requires context { HasContext work.old.bank.now context.now }
    requires hypotheses { IsContext (store_of work.old.bank.now store.old) (context_of work.old.bank.now context.now) }
    requires wanted { HasBody work.old.bank.now wanted }
    requires wanted_stands { OptionStands (store_of work.old.bank.now store.old) (names_in (context_of work.old.bank.now context.now))
        (option_map (tree_of work.old.bank.now) wanted) }
    ensures answer { Finds work.new.bank.now store.new result
        (λ n. term_work (env_of work.old.bank.now env.now) n (context_of work.old.bank.now context.now) (store_of work.old.bank.now store.old)
        (written_tree term.entry) (option_map (tree_of work.old.bank.now) wanted)) work.old.ticks.now.left work.new.ticks.now.left }
    ensures stands { IfOk result (IsTyped work.new.bank.now (store_of work.old.bank.now store.old) store.new (context_of work.old.bank.now context.now)) }
    ensures back { OnErr result (store.new ≡ store.old) }
    ensures same_bank { work.new.bank.ghost_name ≡ work.old.bank.ghost_name }
    ensures same_ticks { work.new.ticks.ghost_name ≡ work.old.ticks.ghost_name }
    ensures grows { Grows work.old.bank.now work.new.bank.now }
    ensures budget { work.new.ticks.now.left + work.new.ticks.now.spent ≡ work.old.ticks.now.left + work.old.ticks.now.spent }
    ensures counted { steps.new + work.old.ticks.now.spent ≡ steps.old + work.new.ticks.now.spent }
{
    match elaborate(work, env, store, context, &[], term, wanted, steps) {
        Ok(found) => Ok(Typed {
            term: found.term,
            kind: found.kind,
        }),
        Err(fault) => Err(stop_of(fault)),
    }
}

/// The same for a type, whose own type must be a sort. Refused as `NotASort` where it is none, with its weak head form. It pays the ticks
/// of `elaborate` and then those of that form; after a refusal the store may have more variables.
pub fn type_in<L: Ledger>(
    work: &mut Work<'_, '_>,
    env: &Env,
    store: &mut Store,
    context: &Context,
    term: Written<'_>,
    steps: &mut Steps<L>,
) -> Result<Typed, Stop>
    requires env { IsEnv work.old.bank.now env.now }
    requires plain { ArePlainDeclarations (env_of work.old.bank.now env.now) }
    requires store { HasStore work.old.bank.now store.old }
    requires kept { IsStore (store_of work.old.bank.now store.old) }
    requires context { HasContext work.old.bank.now context.now }
    requires hypotheses { IsContext (store_of work.old.bank.now store.old) (context_of work.old.bank.now context.now) }
    ensures answer { Finds work.new.bank.now store.new result
        (λ n. type_work (env_of work.old.bank.now env.now) n (context_of work.old.bank.now context.now) (store_of work.old.bank.now store.old)
        (written_tree term.entry)) work.old.ticks.now.left work.new.ticks.now.left }
    ensures stands { IfOk result (IsTyped work.new.bank.now (store_of work.old.bank.now store.old) store.new (context_of work.old.bank.now context.now)) }
    ensures same_bank { work.new.bank.ghost_name ≡ work.old.bank.ghost_name }
    ensures same_ticks { work.new.ticks.ghost_name ≡ work.old.ticks.ghost_name }
    ensures grows { Grows work.old.bank.now work.new.bank.now }
    ensures budget { work.new.ticks.now.left + work.new.ticks.now.spent ≡ work.old.ticks.now.left + work.old.ticks.now.spent }
    ensures counted { steps.new + work.old.ticks.now.spent ≡ steps.old + work.new.ticks.now.spent }
{
    let found = match term_in(work, env, store, context, term, None, steps) {
        Ok(found) => found,
        Err(stop) => return Err(stop),
    };
    match sort_of(work, env, store, context, found.kind, steps) {
        Ok(_) => Ok(found),
        Err(fault) => Err(stop_of(fault)),
    }
}
