//! What was found is held against what is wanted.

ghost use Rattle.std.specs.Prelude.{ℕ, ◌≡◌, ◌+◌, [], ◌∷◌, length, option_map, IfOk, OnOk};
ghost use Rattle.lq_trees.specs.Tree.{Tree};
ghost use Rattle.lq_trees.specs.Index.{Within};
ghost use Rattle.lq_terms.specs.Contexts.{HasContext, HasBody, context_of};
ghost use Rattle.lq_terms.specs.Terms.{HasTerm, tree_of, Grows};
ghost use Rattle.lq_solving.specs.Claims.{ArePlainDeclarations};
ghost use Rattle.lq_solving.specs.ElabFaults.{elab_fitting, carrying, found_wanted};
ghost use Rattle.lq_solving.specs.Elaboration.{Site, found, unified, against};
ghost use Rattle.lq_solving.specs.Kept.{IsContext, IsOver, IsStore, OptionStands, StandsIn};
ghost use Rattle.lq_solving.specs.Stores.{Store as TreeStore, names_in, read};
ghost use Rattle.lq_solving.proofs.ElabKept.{Grown};
ghost use Rattle.lq_solving.proofs.ElabSettled.{at};
ghost use Rattle.lq_env.specs.Environments.{IsEnv, env_of};
ghost use Rattle.lq_evars.specs.Places.{store_of, HasStore, GivesMore};
ghost use Rattle.lq_evars.specs.declared.store.StoreFault.{StoreFault as Lack};
ghost use Rattle.lq_typing.specs.Refusals.{Refuses};
ghost use Rattle.lq_elab.specs.Answers.{Comes};
ghost use Rattle.lq_elab.specs.Agreeing.{read_fault, unify_fault};

use lq_env::Env;
use lq_evars::{Store, StoreFault};
use lq_terms::{Bank, Context, Steps, TermId, Work};
use lq_typing::ElabFault;
use lq_unify::{UnifyFault, unify};
use std::sync::ledger::Ledger;

/// A fault of reading, as one of elaboration.
pub(crate) fn fault_of(fault: StoreFault) -> ElabFault
    ensures { result ≡ read_fault fault }
{
    match fault {
        StoreFault::TooLarge => ElabFault::TooLarge,
        StoreFault::TooDeep => ElabFault::TooDeep,
        StoreFault::Full => ElabFault::Full,
        StoreFault::NoMemory => ElabFault::NoMemory,
    }
}

/// A fault of unification, as one of elaboration.
fn unify_fault_of(fault: UnifyFault) -> ElabFault
    ensures { result ≡ unify_fault fault }
{
    match fault {
        UnifyFault::StepsOut => ElabFault::StepsOut,
        UnifyFault::TooLarge => ElabFault::TooLarge,
        UnifyFault::TooDeep => ElabFault::TooDeep,
        UnifyFault::NoMemory => ElabFault::NoMemory,
    }
}

/// A term as it reads, which a rule needs or a fault carries, within the limits.
pub(crate) fn measured(
    bank: &mut Bank<'_>,
    store: &Store,
    term: TermId,
) -> Result<TermId, ElabFault>
    requires store { HasStore bank.old store.now }
    requires kept { IsStore (store_of bank.old store.now) }
    requires term { HasTerm bank.old term }
    requires over { IsOver (store_of bank.old store.now).variables (tree_of bank.old term) }
    requires within { Within 0 (tree_of bank.old term) }
    ensures answer { (left : ℕ) → Comes bank.new (tree_of bank.new) result (λ n. elab_fitting (read (store_of bank.old store.now) (tree_of bank.old term))) left left }
    ensures is { IfOk result (λ t. tree_of bank.new t ≡ read (store_of bank.old store.now) (tree_of bank.old term)) }
    ensures has { IfOk result (HasTerm bank.new) }
    ensures grows { Grows bank.old bank.new }
{
    match store.read(bank, term) {
        Ok(term) => Ok(term),
        Err(fault) => Err(fault_of(fault)),
    }
}

/// The fault that the found type is not the wanted one: both as they read, or the limit that one passes.
fn mismatch(bank: &mut Bank<'_>, store: &Store, found: TermId, wanted: TermId) -> ElabFault
    requires store { HasStore bank.old store.now }
    requires kept { IsStore (store_of bank.old store.now) }
    requires found { HasTerm bank.old found }
    requires found_over { IsOver (store_of bank.old store.now).variables (tree_of bank.old found) }
    requires found_within { Within 0 (tree_of bank.old found) }
    requires wanted { HasTerm bank.old wanted }
    requires wanted_over { IsOver (store_of bank.old store.now).variables (tree_of bank.old wanted) }
    requires wanted_within { Within 0 (tree_of bank.old wanted) }
    ensures answer { (s : TreeStore) (T U : Tree) (left : ℕ) → s ≡ store_of bank.old store.now → T ≡ tree_of bank.old found → U ≡ tree_of bank.old wanted
        → Refuses {A = TreeStore} bank.new result (λ n. carrying (read s T ∷ read s U ∷ []) (found_wanted (read s T) (read s U))) left left }
    ensures grows { Grows bank.old bank.new }
{
    match measured(bank, store, found) {
        Ok(found) => match measured(bank, store, wanted) {
            Ok(wanted) => ElabFault::Mismatch(found, wanted),
            Err(fault) => fault,
        },
        Err(fault) => fault,
    }
}

/// Unifies a found type with the wanted one, in a context of so many hypotheses.
fn unified_in<L: Ledger>(
    work: &mut Work<'_, '_>,
    env: &Env,
    store: &mut Store,
    context: &Context,
    count: usize,
    found: TermId,
    wanted: TermId,
    steps: &mut Steps<L>,
) -> Result<(), ElabFault>
    requires env { IsEnv work.old.bank.now env.now }
    requires plain { ArePlainDeclarations (env_of work.old.bank.now env.now) }
    requires store { HasStore work.old.bank.now store.old }
    requires kept { IsStore (store_of work.old.bank.now store.old) }
    requires context { HasContext work.old.bank.now context.now }
    requires count { count ≡ length context.now }
    requires hypotheses { IsContext (store_of work.old.bank.now store.old) (context_of work.old.bank.now context.now) }
    requires found { HasTerm work.old.bank.now found }
    requires found_stands { StandsIn (store_of work.old.bank.now store.old) (context_of work.old.bank.now context.now) (tree_of work.old.bank.now found) }
    requires wanted { HasTerm work.old.bank.now wanted }
    requires wanted_stands { StandsIn (store_of work.old.bank.now store.old) (context_of work.old.bank.now context.now) (tree_of work.old.bank.now wanted) }
    ensures answer { (e : Site) → env_of work.old.bank.now env.now ≡ e.env → Comes work.new.bank.now (λ _. store_of work.new.bank.now store.new) result
        (λ n. unified (at n e) (context_of work.old.bank.now context.now) (store_of work.old.bank.now store.old) (tree_of work.old.bank.now found)
        (tree_of work.old.bank.now wanted)) work.old.ticks.now.left work.new.ticks.now.left }
    ensures grown { OnOk result (Grown (store_of work.old.bank.now store.old) (store_of work.new.bank.now store.new)) }
    ensures has { OnOk result (HasStore work.new.bank.now store.new) }
    ensures more { GivesMore store.old store.new }
    ensures same_bank { work.new.bank.ghost_name ≡ work.old.bank.ghost_name }
    ensures same_ticks { work.new.ticks.ghost_name ≡ work.old.ticks.ghost_name }
    ensures grows { Grows work.old.bank.now work.new.bank.now }
    ensures budget { work.new.ticks.now.left + work.new.ticks.now.spent ≡ work.old.ticks.now.left + work.old.ticks.now.spent }
    ensures counted { steps.new + work.old.ticks.now.spent ≡ steps.old + work.new.ticks.now.spent }
{
    env.computes();
    match unify(work, env, store, context, found, wanted, steps) {
        Ok(true) => Ok(()),
        Ok(false) => Err(mismatch(work.bank, store, found, wanted)),
        Err(fault) => Err(unify_fault_of(fault)),
    }
}

/// Unifies a found type with the wanted one.
pub(crate) fn unified<L: Ledger>(
    work: &mut Work<'_, '_>,
    env: &Env,
    store: &mut Store,
    context: &Context,
    found: TermId,
    wanted: TermId,
    steps: &mut Steps<L>,
) -> Result<(), ElabFault>
    requires env { IsEnv work.old.bank.now env.now }
    requires plain { ArePlainDeclarations (env_of work.old.bank.now env.now) }
    requires store { HasStore work.old.bank.now store.old }
    requires kept { IsStore (store_of work.old.bank.now store.old) }
    requires context { HasContext work.old.bank.now context.now }
    requires hypotheses { IsContext (store_of work.old.bank.now store.old) (context_of work.old.bank.now context.now) }
    requires found { HasTerm work.old.bank.now found }
    requires found_stands { StandsIn (store_of work.old.bank.now store.old) (context_of work.old.bank.now context.now) (tree_of work.old.bank.now found) }
    requires wanted { HasTerm work.old.bank.now wanted }
    requires wanted_stands { StandsIn (store_of work.old.bank.now store.old) (context_of work.old.bank.now context.now) (tree_of work.old.bank.now wanted) }
    ensures answer { (e : Site) → env_of work.old.bank.now env.now ≡ e.env → Comes work.new.bank.now (λ _. store_of work.new.bank.now store.new) result
        (λ n. unified (at n e) (context_of work.old.bank.now context.now) (store_of work.old.bank.now store.old) (tree_of work.old.bank.now found)
        (tree_of work.old.bank.now wanted)) work.old.ticks.now.left work.new.ticks.now.left }
    ensures grown { OnOk result (Grown (store_of work.old.bank.now store.old) (store_of work.new.bank.now store.new)) }
    ensures has { OnOk result (HasStore work.new.bank.now store.new) }
    ensures more { GivesMore store.old store.new }
    ensures same_bank { work.new.bank.ghost_name ≡ work.old.bank.ghost_name }
    ensures same_ticks { work.new.ticks.ghost_name ≡ work.old.ticks.ghost_name }
    ensures grows { Grows work.old.bank.now work.new.bank.now }
    ensures budget { work.new.ticks.now.left + work.new.ticks.now.spent ≡ work.old.ticks.now.left + work.old.ticks.now.spent }
    ensures counted { steps.new + work.old.ticks.now.spent ≡ steps.old + work.new.ticks.now.spent }
{
    let count = context.hypotheses().len();
    unified_in(work, env, store, context, count, found, wanted, steps)
}

/// What was elaborated without a wanted type is measured, and held against one if there is one.
pub(crate) fn agreed<L: Ledger>(
    work: &mut Work<'_, '_>,
    env: &Env,
    store: &mut Store,
    context: &Context,
    kind: TermId,
    wanted: Option<TermId>,
    steps: &mut Steps<L>,
) -> Result<(), ElabFault>
    requires env { IsEnv work.old.bank.now env.now }
    requires plain { ArePlainDeclarations (env_of work.old.bank.now env.now) }
    requires store { HasStore work.old.bank.now store.old }
    requires kept { IsStore (store_of work.old.bank.now store.old) }
    requires context { HasContext work.old.bank.now context.now }
    requires hypotheses { IsContext (store_of work.old.bank.now store.old) (context_of work.old.bank.now context.now) }
    requires kind { HasTerm work.old.bank.now kind }
    requires kind_stands { StandsIn (store_of work.old.bank.now store.old) (context_of work.old.bank.now context.now) (tree_of work.old.bank.now kind) }
    requires wanted { HasBody work.old.bank.now wanted }
    requires wanted_stands { OptionStands (store_of work.old.bank.now store.old) (names_in (context_of work.old.bank.now context.now))
        (option_map (tree_of work.old.bank.now) wanted) }
    ensures answer { (e : Site) (t : Tree) → env_of work.old.bank.now env.now ≡ e.env
        → Comes work.new.bank.now (λ _. found (store_of work.new.bank.now store.new) t (tree_of work.old.bank.now kind)) result
        (λ n. against (at n e) (context_of work.old.bank.now context.now) (option_map (tree_of work.old.bank.now) wanted)
        (found (store_of work.old.bank.now store.old) t (tree_of work.old.bank.now kind))) work.old.ticks.now.left work.new.ticks.now.left }
    ensures grown { OnOk result (Grown (store_of work.old.bank.now store.old) (store_of work.new.bank.now store.new)) }
    ensures has { OnOk result (HasStore work.new.bank.now store.new) }
    ensures more { GivesMore store.old store.new }
    ensures same_bank { work.new.bank.ghost_name ≡ work.old.bank.ghost_name }
    ensures same_ticks { work.new.ticks.ghost_name ≡ work.old.ticks.ghost_name }
    ensures grows { Grows work.old.bank.now work.new.bank.now }
    ensures budget { work.new.ticks.now.left + work.new.ticks.now.spent ≡ work.old.ticks.now.left + work.old.ticks.now.spent }
    ensures counted { steps.new + work.old.ticks.now.spent ≡ steps.old + work.new.ticks.now.spent }
{
    match measured(work.bank, store, kind) {
        Ok(_) => match wanted {
            Some(wanted) => unified(work, env, store, context, kind, wanted, steps),
            None => Ok(()),
        },
        Err(fault) => Err(fault),
    }
}
