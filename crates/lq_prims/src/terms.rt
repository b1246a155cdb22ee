//! Written terms in a goal's context.

ghost use Rattle.std.specs.Prelude.{◌≡◌, ◌+◌, IfOk, OnErr, option_map};
ghost use Rattle.std.specs.List.{AllByRecursion};
ghost use Rattle.lq_trees.specs.Tree.{Tree};
ghost use Rattle.lq_ast.specs.Plain.{plain};
ghost use Rattle.lq_terms.specs.Terms.{tree_of, Grows};
ghost use Rattle.lq_terms.specs.Contexts.{HasBody};
ghost use Rattle.lq_env.specs.Environments.{env_of};
ghost use Rattle.lq_solving.specs.Stores.{names_in};
ghost use Rattle.lq_solving.specs.Kept.{OptionStands};
ghost use Rattle.lq_solving.specs.Elaboration.{found};
ghost use Rattle.lq_evars.specs.Places.{store_of};
ghost use Rattle.lq_elab.specs.Calls.{ValuesStand, IsElaborated};
ghost use Rattle.lq_elab.specs.States.{HasGiven, givens_of};
ghost use Rattle.lq_tactics.specs.Rows.{term_of};
ghost use Rattle.lq_prims.specs.Scenes.{IsDeclared, IsGoal, context_at, scene_by};
ghost use Rattle.lq_prims.specs.Working.{Does};

use crate::faults::PrimFault;
use crate::unifying::copied;
use lq_ast::Surface;
use lq_elab::{Elaborated, Given, Written, elaborate};
use lq_env::Env;
use lq_evars::Store;
use lq_terms::{NameId, Steps, TermId, Work};
use std::sync::ledger::Ledger;

/// A written term, elaborated in a goal's context, with the type that is wanted of it if one is: see `lq_elab::elaborate`. After a refusal
/// the store is as before.
pub(crate) fn term_of<L: Ledger>(
    work: &mut Work<'_, '_>,
    env: &Env,
    store: &mut Store,
    goal: u32,
    values: &[(NameId, Given)],
    term: &Surface,
    wanted: Option<TermId>,
    steps: &mut Steps<L>,
) -> Result<Elaborated, PrimFault>
    requires declared { IsDeclared work.old.bank.now env.now }
    requires place { IsGoal work.old.bank.now store.old goal }
    requires values { AllByRecursion (HasGiven work.old.bank.now) values.now }
    requires values_stand { ValuesStand (store_of work.old.bank.now store.old) (givens_of work.old.bank.now values.now) }
    requires wanted { HasBody work.old.bank.now wanted }
    requires wanted_stands { OptionStands (store_of work.old.bank.now store.old) (names_in (context_at (store_of work.old.bank.now store.old) goal))
        (option_map (tree_of work.old.bank.now) wanted) }
    ensures answer { (T : Tree) → Does work.new.bank.now
        (λ e. found (store_of work.new.bank.now store.new) (tree_of work.new.bank.now e.term) (tree_of work.new.bank.now e.kind)) result
        (λ n. term_of (scene_by (env_of work.old.bank.now env.now) (store_of work.old.bank.now store.old) goal
        (context_at (store_of work.old.bank.now store.old) goal) T (givens_of work.old.bank.now values.now) n)
        (plain term.now) (option_map (tree_of work.old.bank.now) wanted)) work.old.ticks.now.left work.new.ticks.now.left }
    ensures stands { IfOk result (IsElaborated work.new.bank.now (store_of work.old.bank.now store.old) store.new
        (context_at (store_of work.old.bank.now store.old) goal)) }
    ensures back { OnErr result (store.new ≡ store.old) }
    ensures same_bank { work.new.bank.ghost_name ≡ work.old.bank.ghost_name }
    ensures same_ticks { work.new.ticks.ghost_name ≡ work.old.ticks.ghost_name }
    ensures grows { Grows work.old.bank.now work.new.bank.now }
    ensures budget { work.new.ticks.now.left + work.new.ticks.now.spent ≡ work.old.ticks.now.left + work.old.ticks.now.spent }
    ensures counted { steps.new + work.old.ticks.now.spent ≡ steps.old + work.new.ticks.now.spent }
{
    let context = match copied(work.bank.allocator(), store.context(goal)) {
        Ok(context) => context,
        Err(_) => return Err(PrimFault::NoMemory),
    };
    match elaborate(
        work,
        env,
        store,
        &context,
        values,
        Written::Term(term),
        wanted,
        steps,
    ) {
        Ok(elaborated) => Ok(elaborated),
        Err(fault) => Err(PrimFault::from(fault)),
    }
}
