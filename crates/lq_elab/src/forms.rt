//! Weak head forms of types as they read.

ghost use Rattle.std.specs.Prelude.{◌≡◌, ◌+◌, option_map, IfOk};
ghost use Rattle.lq_trees.specs.Tree.{Tree};
ghost use Rattle.lq_trees.specs.Hypotheses.{HoldsOnly};
ghost use Rattle.lq_terms.specs.Contexts.{HasBody, HasContext, context_of};
ghost use Rattle.lq_terms.specs.Terms.{HasTerm, tree_of, Grows};
ghost use Rattle.lq_solving.specs.Claims.{ArePlainDeclarations};
ghost use Rattle.lq_solving.specs.Elaboration.{Site, found, form_of, found_sort, wanted_product};
ghost use Rattle.lq_solving.specs.Kept.{IsContext, IsStore, OptionStands, StandsIn};
ghost use Rattle.lq_solving.proofs.StandsLaws.{StandsUnder};
ghost use Rattle.lq_solving.specs.Stores.{names_in};
ghost use Rattle.lq_solving.proofs.ElabSettled.{at};
ghost use Rattle.lq_env.specs.Environments.{IsEnv, env_of};
ghost use Rattle.lq_evars.specs.Places.{store_of, HasStore};
ghost use Rattle.lq_elab.specs.Answers.{Comes, product_found};
ghost use Rattle.lq_elab.specs.Forms.{elab_fault, IsSortOr, IsProductOr, IsProductIf};
ghost use Rattle.lq_elab.specs.Frames.{pair_of, HasPair, ProductStands};

use lq_env::Env;
use lq_evars::Store;
use lq_reduce::{ReduceFault, whnf};
use lq_terms::{Bank, Context, Node, Steps, TermId, Work};
use lq_trees::Sort;
use lq_typing::ElabFault;
use std::sync::ledger::Ledger;

/// A fault of reduction, as one of elaboration.
fn fault_of(fault: ReduceFault) -> ElabFault
    ensures { result ≡ elab_fault fault }
{
    match fault {
        ReduceFault::StepsOut => ElabFault::StepsOut,
        ReduceFault::TooLarge => ElabFault::TooLarge,
        ReduceFault::TooDeep => ElabFault::TooDeep,
        ReduceFault::NoMemory => ElabFault::NoMemory,
    }
}

/// The weak head form of a type as it reads.
pub(crate) fn head_form<L: Ledger>(
    work: &mut Work<'_, '_>,
    env: &Env,
    store: &Store,
    context: &Context,
    kind: TermId,
    steps: &mut Steps<L>,
) -> Result<TermId, ElabFault>
    requires env { IsEnv work.old.bank.now env.now }
    requires plain { ArePlainDeclarations (env_of work.old.bank.now env.now) }
    requires store { HasStore work.old.bank.now store.now }
    requires kept { IsStore (store_of work.old.bank.now store.now) }
    requires context { HasContext work.old.bank.now context.now }
    requires hypotheses { IsContext (store_of work.old.bank.now store.now) (context_of work.old.bank.now context.now) }
    requires kind { HasTerm work.old.bank.now kind }
    requires stands { StandsIn (store_of work.old.bank.now store.now) (context_of work.old.bank.now context.now) (tree_of work.old.bank.now kind) }
    ensures answer { (e : Site) → env_of work.old.bank.now env.now ≡ e.env → Comes work.new.bank.now (tree_of work.new.bank.now) result
        (λ n. form_of (at n e) (context_of work.old.bank.now context.now) (store_of work.old.bank.now store.now) (tree_of work.old.bank.now kind))
        work.old.ticks.now.left work.new.ticks.now.left }
    ensures has { IfOk result (HasTerm work.new.bank.now) }
    ensures stands { IfOk result (λ t. StandsIn (store_of work.old.bank.now store.now) (context_of work.old.bank.now context.now) (tree_of work.new.bank.now t)) }
    ensures holds { IfOk result (λ t. HoldsOnly (names_in (context_of work.old.bank.now context.now)) (tree_of work.new.bank.now t)) }
    ensures same_bank { work.new.bank.ghost_name ≡ work.old.bank.ghost_name }
    ensures same_ticks { work.new.ticks.ghost_name ≡ work.old.ticks.ghost_name }
    ensures grows { Grows work.old.bank.now work.new.bank.now }
    ensures budget { work.new.ticks.now.left + work.new.ticks.now.spent ≡ work.old.ticks.now.left + work.old.ticks.now.spent }
    ensures counted { steps.new + work.old.ticks.now.spent ≡ steps.old + work.new.ticks.now.spent }
{
    work.bank.names_apart();
    env.computes();
    store.values_stand();
    match whnf(work, env, store, context, kind, steps) {
        Ok(form) => Ok(form),
        Err(fault) => Err(fault_of(fault)),
    }
}

/// A weak head form that must be a sort.
fn as_sort(bank: &Bank<'_>, form: TermId) -> Result<Sort, ElabFault>
    requires { HasTerm bank.now form }
    ensures { IsSortOr bank.now result form }
{
    match bank.node(form) {
        Node::Sort(sort) => Ok(*sort),
        _ => Err(ElabFault::NotASort(form)),
    }
}

/// The domain and the rest of a weak head form that must be a product.
fn as_product(bank: &Bank<'_>, form: TermId) -> Result<(TermId, TermId), ElabFault>
    requires { HasTerm bank.now form }
    ensures { IsProductOr bank.now result form }
{
    match bank.node(form) {
        Node::Prod(_, domain, rest) => Ok((*domain, *rest)),
        _ => Err(ElabFault::NotAProduct(form)),
    }
}

/// The domain and the rest of a weak head form, if it is a product.
fn parts_of(bank: &Bank<'_>, form: TermId) -> Option<(TermId, TermId)>
    requires { HasTerm bank.now form }
    ensures { IsProductIf bank.now result form }
{
    match bank.node(form) {
        Node::Prod(_, domain, rest) => Some((*domain, *rest)),
        _ => None,
    }
}

/// The sort that a type's weak head form must be: `kind` is the type of a term that stands as a type in `context`.
/// Each contraction on the way to the weak head form takes a tick.
///
/// `Err`: `NotASort` with the weak head form where that is no sort, `StepsOut` where the ticks don't last, `TooLarge` or `TooDeep` where a
/// form on the way passes the limits of terms, or want of memory.
/// Rocq reference manual, "Conversion rules" and "Sorts".
pub fn sort_of<L: Ledger>(
    work: &mut Work<'_, '_>,
    env: &Env,
    store: &Store,
    context: &Context,
    kind: TermId,
    steps: &mut Steps<L>,
) -> Result<Sort, ElabFault>
    requires env { IsEnv work.old.bank.now env.now }
    requires plain { ArePlainDeclarations (env_of work.old.bank.now env.now) }
    requires store { HasStore work.old.bank.now store.now }
    requires kept { IsStore (store_of work.old.bank.now store.now) }
    requires context { HasContext work.old.bank.now context.now }
    requires hypotheses { IsContext (store_of work.old.bank.now store.now) (context_of work.old.bank.now context.now) }
    requires kind { HasTerm work.old.bank.now kind }
    requires stands { StandsIn (store_of work.old.bank.now store.now) (context_of work.old.bank.now context.now) (tree_of work.old.bank.now kind) }
    ensures answer { (e : Site) (t : Tree) → env_of work.old.bank.now env.now ≡ e.env → Comes work.new.bank.now (λ u. u) result
        (λ n. found_sort (at n e) (context_of work.old.bank.now context.now)
        (found (store_of work.old.bank.now store.now) t (tree_of work.old.bank.now kind))) work.old.ticks.now.left work.new.ticks.now.left }
    ensures same_bank { work.new.bank.ghost_name ≡ work.old.bank.ghost_name }
    ensures same_ticks { work.new.ticks.ghost_name ≡ work.old.ticks.ghost_name }
    ensures grows { Grows work.old.bank.now work.new.bank.now }
    ensures budget { work.new.ticks.now.left + work.new.ticks.now.spent ≡ work.old.ticks.now.left + work.old.ticks.now.spent }
    ensures counted { steps.new + work.old.ticks.now.spent ≡ steps.old + work.new.ticks.now.spent }
{
    match head_form(work, env, store, context, kind, steps) {
        Ok(form) => as_sort(work.bank, form),
        Err(fault) => Err(fault),
    }
}

/// The domain and the rest of the product that a type's weak head form must be.
pub(crate) fn product_of<L: Ledger>(
    work: &mut Work<'_, '_>,
    env: &Env,
    store: &Store,
    context: &Context,
    kind: TermId,
    steps: &mut Steps<L>,
) -> Result<(TermId, TermId), ElabFault>
    requires env { IsEnv work.old.bank.now env.now }
    requires plain { ArePlainDeclarations (env_of work.old.bank.now env.now) }
    requires store { HasStore work.old.bank.now store.now }
    requires kept { IsStore (store_of work.old.bank.now store.now) }
    requires context { HasContext work.old.bank.now context.now }
    requires hypotheses { IsContext (store_of work.old.bank.now store.now) (context_of work.old.bank.now context.now) }
    requires kind { HasTerm work.old.bank.now kind }
    requires stands { StandsIn (store_of work.old.bank.now store.now) (context_of work.old.bank.now context.now) (tree_of work.old.bank.now kind) }
    ensures answer { (e : Site) → env_of work.old.bank.now env.now ≡ e.env → Comes work.new.bank.now (pair_of work.new.bank.now) result
        (λ n. product_found (at n e) (context_of work.old.bank.now context.now) (store_of work.old.bank.now store.now) (tree_of work.old.bank.now kind))
        work.old.ticks.now.left work.new.ticks.now.left }
    ensures has { IfOk result (λ p. HasTerm work.new.bank.now p.0 × HasTerm work.new.bank.now p.1) }
    ensures domain { IfOk result (λ p. StandsIn (store_of work.old.bank.now store.now) (context_of work.old.bank.now context.now) (tree_of work.new.bank.now p.0)) }
    ensures rest { IfOk result (λ p. StandsUnder (store_of work.old.bank.now store.now) (names_in (context_of work.old.bank.now context.now)) 1
        (tree_of work.new.bank.now p.1)) }
    ensures holds { IfOk result (λ p. HoldsOnly (names_in (context_of work.old.bank.now context.now)) (tree_of work.new.bank.now p.1)) }
    ensures same_bank { work.new.bank.ghost_name ≡ work.old.bank.ghost_name }
    ensures same_ticks { work.new.ticks.ghost_name ≡ work.old.ticks.ghost_name }
    ensures grows { Grows work.old.bank.now work.new.bank.now }
    ensures budget { work.new.ticks.now.left + work.new.ticks.now.spent ≡ work.old.ticks.now.left + work.old.ticks.now.spent }
    ensures counted { steps.new + work.old.ticks.now.spent ≡ steps.old + work.new.ticks.now.spent }
{
    match head_form(work, env, store, context, kind, steps) {
        Ok(form) => as_product(work.bank, form),
        Err(fault) => Err(fault),
    }
}

/// The domain and the rest of the product that is wanted, if one is.
pub(crate) fn wanted_parts<L: Ledger>(
    work: &mut Work<'_, '_>,
    env: &Env,
    store: &Store,
    context: &Context,
    wanted: Option<TermId>,
    steps: &mut Steps<L>,
) -> Result<Option<(TermId, TermId)>, ElabFault>
    requires env { IsEnv work.old.bank.now env.now }
    requires plain { ArePlainDeclarations (env_of work.old.bank.now env.now) }
    requires store { HasStore work.old.bank.now store.now }
    requires kept { IsStore (store_of work.old.bank.now store.now) }
    requires context { HasContext work.old.bank.now context.now }
    requires hypotheses { IsContext (store_of work.old.bank.now store.now) (context_of work.old.bank.now context.now) }
    requires wanted { HasBody work.old.bank.now wanted }
    requires stands { OptionStands (store_of work.old.bank.now store.now) (names_in (context_of work.old.bank.now context.now))
        (option_map (tree_of work.old.bank.now) wanted) }
    ensures answer { (e : Site) → env_of work.old.bank.now env.now ≡ e.env → Comes work.new.bank.now (option_map (pair_of work.new.bank.now)) result
        (λ n. wanted_product (at n e) (context_of work.old.bank.now context.now) (store_of work.old.bank.now store.now)
        (option_map (tree_of work.old.bank.now) wanted)) work.old.ticks.now.left work.new.ticks.now.left }
    ensures has { IfOk result (HasPair work.new.bank.now) }
    ensures product_stands { IfOk result (λ o. ProductStands (store_of work.old.bank.now store.now) (names_in (context_of work.old.bank.now context.now))
        (option_map (pair_of work.new.bank.now) o)) }
    ensures same_bank { work.new.bank.ghost_name ≡ work.old.bank.ghost_name }
    ensures same_ticks { work.new.ticks.ghost_name ≡ work.old.ticks.ghost_name }
    ensures grows { Grows work.old.bank.now work.new.bank.now }
    ensures budget { work.new.ticks.now.left + work.new.ticks.now.spent ≡ work.old.ticks.now.left + work.old.ticks.now.spent }
    ensures counted { steps.new + work.old.ticks.now.spent ≡ steps.old + work.new.ticks.now.spent }
{
    match wanted {
        Some(kind) => match head_form(work, env, store, context, kind, steps) {
            Ok(form) => Ok(parts_of(work.bank, form)),
            Err(fault) => Err(fault),
        },
        None => Ok(None),
    }
}
