//! A term as it is written, elaborated; and the sort that a type must have.

ghost use Rattle.std.specs.Prelude.{◌≡◌, ◌+◌, ℕ, IfOk, OnErr, option_map};
ghost use Rattle.std.specs.List.{AllByRecursion};
ghost use Rattle.lq_trees.specs.Tree.{Tree};
ghost use Rattle.lq_terms.specs.Terms.{HasTerm, Grows, tree_of};
ghost use Rattle.lq_terms.specs.Contexts.{HasBody, HasContext, context_of};
ghost use Rattle.lq_env.specs.Environments.{IsEnv, env_of};
ghost use Rattle.lq_solving.specs.Claims.{ArePlainDeclarations};
ghost use Rattle.lq_solving.specs.Elaboration.{Site, elaborate_call, found, found_sort, made_between};
ghost use Rattle.lq_solving.specs.Kept.{IsContext, IsStore, OptionStands, StandsIn};
ghost use Rattle.lq_solving.specs.Stores.{names_in};
ghost use Rattle.lq_solving.proofs.ElabSettled.{at};
ghost use Rattle.lq_evars.specs.Places.{store_of, HasStore};
ghost use Rattle.lq_elab.specs.Answers.{Comes};
ghost use Rattle.lq_elab.specs.Calls.{written_tree, site_at, ValuesStand, Elaborates, IsElaborated};
ghost use Rattle.lq_elab.specs.States.{HasGiven, givens_of};

use lq_elab::{Elaborated, Given, Written, elaborate, sort_of};
use lq_env::Env;
use lq_evars::Store;
use lq_terms::{Context, NameId, Steps, TermId, Work};
use lq_trees::Sort;
use lq_typing::ElabFault;
use std::sync::ledger::Ledger;

/// A term as it is written, elaborated.
pub fn elaborated<L: Ledger>(
    work: &mut Work<'_, '_>,
    env: &Env,
    store: &mut Store,
    context: &Context,
    values: &[(NameId, Given)],
    term: Written<'_>,
    wanted: Option<TermId>,
    steps: &mut Steps<L>,
) -> Result<Elaborated, ElabFault>
    requires env { IsEnv work.old.bank.now env.now }
    requires plain { ArePlainDeclarations (env_of work.old.bank.now env.now) }
    requires store { HasStore work.old.bank.now store.old }
    requires kept { IsStore (store_of work.old.bank.now store.old) }
    requires context { HasContext work.old.bank.now context.now }
    requires hypotheses { IsContext (store_of work.old.bank.now store.old) (context_of work.old.bank.now context.now) }
    requires values { AllByRecursion (HasGiven work.old.bank.now) values.now }
    requires values_stand { ValuesStand (store_of work.old.bank.now store.old) (givens_of work.old.bank.now values.now) }
    requires wanted { HasBody work.old.bank.now wanted }
    requires wanted_stands { OptionStands (store_of work.old.bank.now store.old) (names_in (context_of work.old.bank.now context.now))
        (option_map (tree_of work.old.bank.now) wanted) }
    ensures answer { Elaborates work.new.bank.now store.new result
        (λ n. elaborate_call (site_at work.old.bank.now env.now context.now values.now n) (store_of work.old.bank.now store.old)
        (written_tree term.entry) (option_map (tree_of work.old.bank.now) wanted)) work.old.ticks.now.left work.new.ticks.now.left }
    ensures stands { IfOk result (IsElaborated work.new.bank.now (store_of work.old.bank.now store.old) store.new (context_of work.old.bank.now context.now)) }
    ensures made { IfOk result (λ e. e.made.items ≡ made_between (store_of work.old.bank.now store.old) (store_of work.new.bank.now store.new)) }
    ensures back { OnErr result (store.new ≡ store.old) }
    ensures same_bank { work.new.bank.ghost_name ≡ work.old.bank.ghost_name }
    ensures same_ticks { work.new.ticks.ghost_name ≡ work.old.ticks.ghost_name }
    ensures grows { Grows work.old.bank.now work.new.bank.now }
    ensures budget { work.new.ticks.now.left + work.new.ticks.now.spent ≡ work.old.ticks.now.left + work.old.ticks.now.spent }
    ensures counted { steps.new + work.old.ticks.now.spent ≡ steps.old + work.new.ticks.now.spent }
{
    elaborate(work, env, store, context, values, term, wanted, steps)
}

/// The sort that a type's weak head form must be.
pub fn sort_found<L: Ledger>(
    work: &mut Work<'_, '_>,
    env: &Env,
    store: &Store,
    context: &Context,
    kind: TermId,
    steps: &mut Steps<L>,
) -> Result<Sort, ElabFault>
    requires env { IsEnv work.old.bank.now env.now }
    requires plain { ArePlainDeclarations (env_of work.old.bank.now env.now) }
    requires store { HasStore work.old.bank.now store.now }
    requires kept { IsStore (store_of work.old.bank.now store.now) }
    requires context { HasContext work.old.bank.now context.now }
    requires hypotheses { IsContext (store_of work.old.bank.now store.now) (context_of work.old.bank.now context.now) }
    requires kind { HasTerm work.old.bank.now kind }
    requires stands { StandsIn (store_of work.old.bank.now store.now) (context_of work.old.bank.now context.now) (tree_of work.old.bank.now kind) }
    ensures answer { (e : Site) (t : Tree) → env_of work.old.bank.now env.now ≡ e.env → Comes work.new.bank.now (λ u. u) result
        (λ n. found_sort (at n e) (context_of work.old.bank.now context.now)
        (found (store_of work.old.bank.now store.now) t (tree_of work.old.bank.now kind))) work.old.ticks.now.left work.new.ticks.now.left }
    ensures same_bank { work.new.bank.ghost_name ≡ work.old.bank.ghost_name }
    ensures same_ticks { work.new.ticks.ghost_name ≡ work.old.ticks.ghost_name }
    ensures grows { Grows work.old.bank.now work.new.bank.now }
    ensures budget { work.new.ticks.now.left + work.new.ticks.now.spent ≡ work.old.ticks.now.left + work.old.ticks.now.spent }
    ensures counted { steps.new + work.old.ticks.now.spent ≡ steps.old + work.new.ticks.now.spent }
{
    sort_of(work, env, store, context, kind, steps)
}
