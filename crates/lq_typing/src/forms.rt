//! Weak head forms and comparison over a store: terms and contexts are as they are kept, answers as they are read.

ghost use Rattle.std.specs.Prelude.{◌≡◌, ◌≤◌, ◌+◌, ℕ, IfOk, OnOk};
ghost use Rattle.lq_trees.specs.Index.{Within};
ghost use Rattle.lq_terms.specs.Terms.{HasTerm, tree_of, Grows};
ghost use Rattle.lq_terms.specs.Contexts.{context_of};
ghost use Rattle.lq_calculus.specs.Declarations.{rules_of};
ghost use Rattle.lq_calculus.specs.Checking.{needed_form, matching, conv};
ghost use Rattle.lq_inference.specs.Inference.{matching_by};
ghost use Rattle.lq_solving.specs.Stores.{read, read_context};
ghost use Rattle.lq_solving.specs.Inference.{by_store_types};
ghost use Rattle.lq_solving.specs.Kept.{IsOver, IsStore, StandsIn};
ghost use Rattle.lq_env.specs.Environments.{env_of};
ghost use Rattle.lq_evars.specs.Places.{store_of, HasStore};
ghost use Rattle.lq_kernel.specs.Answers.{Refuses, Checks};
ghost use Rattle.lq_kernel.specs.Steps.{Sorts, Answers, Fitted, IsSortOr, IsProductOr};
ghost use Rattle.lq_typing.specs.Sites.{IsSite};
ghost use Rattle.lq_typing.specs.Kinds.{IsKind, Kinds, Splits, needed_sort, needed_product};

use lq_env::Env;
use lq_evars::{Store, StoreFault};
use lq_kernel::KernelFault;
use lq_reduce::{conv, whnf};
use lq_terms::{Bank, Context, Node, Steps, TermId, Work};
use lq_trees::Sort;
use std::sync::ledger::Ledger;

/// The weak head form that a rule needs of a type as read, at a tick for each contraction.
fn head_form<L: Ledger>(
    work: &mut Work<'_, '_>,
    env: &Env,
    store: &Store,
    context: &Context,
    term: TermId,
    steps: &mut Steps<L>,
) -> Result<TermId, KernelFault>
    requires site { IsSite work.old.bank.now env.now store.now context.now }
    requires term { IsKind work.old.bank.now (store_of work.old.bank.now store.now) (context_of work.old.bank.now context.now) term }
    ensures answer { Kinds work.new.bank.now result (store_of work.old.bank.now store.now) (context_of work.old.bank.now context.now)
        (λ n. needed_form (env_of work.old.bank.now env.now) n (read_context (store_of work.old.bank.now store.now)
        (context_of work.old.bank.now context.now)) (tree_of work.old.bank.now term)) work.old.ticks.now.left work.new.ticks.now.left }
    ensures fewer { OnOk result (work.new.ticks.now.left ≤ work.old.ticks.now.left) }
    ensures same_bank { work.new.bank.ghost_name ≡ work.old.bank.ghost_name }
    ensures same_ticks { work.new.ticks.ghost_name ≡ work.old.ticks.ghost_name }
    ensures grows { Grows work.old.bank.now work.new.bank.now }
    ensures budget { work.new.ticks.now.left + work.new.ticks.now.spent ≡ work.old.ticks.now.left + work.old.ticks.now.spent }
    ensures counted { steps.new + work.old.ticks.now.spent ≡ steps.old + work.new.ticks.now.spent }
{
    work.bank.names_apart();
    env.computes();
    store.values_stand();
    match whnf(work, env, store, context, term, steps) {
        Ok(form) => Ok(form),
        Err(fault) => Err(KernelFault::from(fault)),
    }
}

/// A weak head form that must be a sort.
fn as_sort(bank: &Bank<'_>, form: TermId) -> Result<Sort, KernelFault>
    requires { HasTerm bank.now form }
    ensures { IsSortOr bank.now result form }
{
    match bank.node(form) {
        Node::Sort(sort) => Ok(*sort),
        _ => Err(KernelFault::NotASort(form)),
    }
}

/// The domain and the rest of a weak head form that must be a product.
fn as_product(bank: &Bank<'_>, form: TermId) -> Result<(TermId, TermId), KernelFault>
    requires { HasTerm bank.now form }
    ensures { IsProductOr bank.now result form }
{
    match bank.node(form) {
        Node::Prod(_, domain, rest) => Ok((*domain, *rest)),
        _ => Err(KernelFault::NotAProduct(form)),
    }
}

/// The sort that a type as read must be.
pub(crate) fn sort_form<L: Ledger>(
    work: &mut Work<'_, '_>,
    env: &Env,
    store: &Store,
    context: &Context,
    term: TermId,
    steps: &mut Steps<L>,
) -> Result<Sort, KernelFault>
    requires site { IsSite work.old.bank.now env.now store.now context.now }
    requires term { IsKind work.old.bank.now (store_of work.old.bank.now store.now) (context_of work.old.bank.now context.now) term }
    ensures answer { Sorts work.new.bank.now result
        (λ n. needed_sort (env_of work.old.bank.now env.now) n (read_context (store_of work.old.bank.now store.now)
        (context_of work.old.bank.now context.now)) (tree_of work.old.bank.now term)) work.old.ticks.now.left work.new.ticks.now.left }
    ensures fewer { OnOk result (work.new.ticks.now.left ≤ work.old.ticks.now.left) }
    ensures same_bank { work.new.bank.ghost_name ≡ work.old.bank.ghost_name }
    ensures same_ticks { work.new.ticks.ghost_name ≡ work.old.ticks.ghost_name }
    ensures grows { Grows work.old.bank.now work.new.bank.now }
    ensures budget { work.new.ticks.now.left + work.new.ticks.now.spent ≡ work.old.ticks.now.left + work.old.ticks.now.spent }
    ensures counted { steps.new + work.old.ticks.now.spent ≡ steps.old + work.new.ticks.now.spent }
{
    let form = head_form(work, env, store, context, term, steps)?;
    as_sort(work.bank, form)
}

/// The domain and the rest of the product that a type as read must be, which are as read too.
pub(crate) fn product_form<L: Ledger>(
    work: &mut Work<'_, '_>,
    env: &Env,
    store: &Store,
    context: &Context,
    term: TermId,
    steps: &mut Steps<L>,
) -> Result<(TermId, TermId), KernelFault>
    requires site { IsSite work.old.bank.now env.now store.now context.now }
    requires term { IsKind work.old.bank.now (store_of work.old.bank.now store.now) (context_of work.old.bank.now context.now) term }
    ensures answer { Splits work.new.bank.now result (store_of work.old.bank.now store.now) (context_of work.old.bank.now context.now)
        (λ n. needed_product (env_of work.old.bank.now env.now) n (read_context (store_of work.old.bank.now store.now)
        (context_of work.old.bank.now context.now)) (tree_of work.old.bank.now term)) work.old.ticks.now.left work.new.ticks.now.left }
    ensures fewer { OnOk result (work.new.ticks.now.left ≤ work.old.ticks.now.left) }
    ensures same_bank { work.new.bank.ghost_name ≡ work.old.bank.ghost_name }
    ensures same_ticks { work.new.ticks.ghost_name ≡ work.old.ticks.ghost_name }
    ensures grows { Grows work.old.bank.now work.new.bank.now }
    ensures budget { work.new.ticks.now.left + work.new.ticks.now.spent ≡ work.old.ticks.now.left + work.old.ticks.now.spent }
    ensures counted { steps.new + work.old.ticks.now.spent ≡ steps.old + work.new.ticks.now.spent }
{
    let form = head_form(work, env, store, context, term, steps)?;
    as_product(work.bank, form)
}

/// Whether a type as read and a kept one compare.
fn compares<L: Ledger>(
    work: &mut Work<'_, '_>,
    env: &Env,
    store: &Store,
    context: &Context,
    found: TermId,
    wanted: TermId,
    steps: &mut Steps<L>,
) -> Result<bool, KernelFault>
    requires site { IsSite work.old.bank.now env.now store.now context.now }
    requires found { IsKind work.old.bank.now (store_of work.old.bank.now store.now) (context_of work.old.bank.now context.now) found }
    requires has_wanted { HasTerm work.old.bank.now wanted }
    requires wanted { StandsIn (store_of work.old.bank.now store.now) (context_of work.old.bank.now context.now) (tree_of work.old.bank.now wanted) }
    ensures answer { Answers work.new.bank.now result
        (λ n. conv (rules_of (env_of work.old.bank.now env.now)) (read_context (store_of work.old.bank.now store.now)
        (context_of work.old.bank.now context.now)) n (tree_of work.old.bank.now found)
        (read (store_of work.old.bank.now store.now) (tree_of work.old.bank.now wanted))) work.old.ticks.now.left work.new.ticks.now.left }
    ensures fewer { OnOk result (work.new.ticks.now.left ≤ work.old.ticks.now.left) }
    ensures same_bank { work.new.bank.ghost_name ≡ work.old.bank.ghost_name }
    ensures same_ticks { work.new.ticks.ghost_name ≡ work.old.ticks.ghost_name }
    ensures grows { Grows work.old.bank.now work.new.bank.now }
    ensures budget { work.new.ticks.now.left + work.new.ticks.now.spent ≡ work.old.ticks.now.left + work.old.ticks.now.spent }
    ensures counted { steps.new + work.old.ticks.now.spent ≡ steps.old + work.new.ticks.now.spent }
{
    work.bank.names_apart();
    env.computes();
    store.values_stand();
    match conv(work, env, store, context, found, wanted, steps) {
        Ok(same) => Ok(same),
        Err(fault) => Err(KernelFault::from(fault)),
    }
}

/// Refuses two types as read that do not compare.
pub(crate) fn matching<L: Ledger>(
    work: &mut Work<'_, '_>,
    env: &Env,
    store: &Store,
    context: &Context,
    found: TermId,
    wanted: TermId,
    steps: &mut Steps<L>,
) -> Result<(), KernelFault>
    requires site { IsSite work.old.bank.now env.now store.now context.now }
    requires found { IsKind work.old.bank.now (store_of work.old.bank.now store.now) (context_of work.old.bank.now context.now) found }
    requires wanted { IsKind work.old.bank.now (store_of work.old.bank.now store.now) (context_of work.old.bank.now context.now) wanted }
    ensures answer { Checks work.new.bank.now result
        (λ n. matching (env_of work.old.bank.now env.now) n (read_context (store_of work.old.bank.now store.now) (context_of work.old.bank.now context.now))
        (tree_of work.old.bank.now found) (tree_of work.old.bank.now wanted)) work.old.ticks.now.left work.new.ticks.now.left }
    ensures fewer { OnOk result (work.new.ticks.now.left ≤ work.old.ticks.now.left) }
    ensures same_bank { work.new.bank.ghost_name ≡ work.old.bank.ghost_name }
    ensures same_ticks { work.new.ticks.ghost_name ≡ work.old.ticks.ghost_name }
    ensures grows { Grows work.old.bank.now work.new.bank.now }
    ensures budget { work.new.ticks.now.left + work.new.ticks.now.spent ≡ work.old.ticks.now.left + work.old.ticks.now.spent }
    ensures counted { steps.new + work.old.ticks.now.spent ≡ steps.old + work.new.ticks.now.spent }
{
    let same = compares(work, env, store, context, found, wanted, steps)?;
    if same {
        Ok(())
    } else {
        Err(KernelFault::Mismatch(found, wanted))
    }
}

/// A kept type as it reads, within the limits.
pub(crate) fn read_kind(
    bank: &mut Bank<'_>,
    store: &Store,
    term: TermId,
) -> Result<TermId, KernelFault>
    requires store { HasStore bank.old store.now }
    requires kept { IsStore (store_of bank.old store.now) }
    requires term { HasTerm bank.old term }
    requires over { IsOver (store_of bank.old store.now).variables (tree_of bank.old term) }
    requires closed { Within 0 (tree_of bank.old term) }
    ensures answer { Fitted bank.new result (read (store_of bank.old store.now) (tree_of bank.old term)) }
    ensures grows { Grows bank.old bank.new }
{
    match store.read(bank, term) {
        Ok(kind) => Ok(kind),
        Err(StoreFault::TooLarge) => Err(KernelFault::TooLarge),
        Err(StoreFault::TooDeep) => Err(KernelFault::TooDeep),
        Err(StoreFault::NoMemory) => Err(KernelFault::NoMemory),
        Err(StoreFault::Full) => unreachable!(),
    }
}

/// The fault of a type that was found and does not compare with one that was written: the written one is read and measured first.
fn differ(bank: &mut Bank<'_>, store: &Store, found: TermId, written: TermId) -> KernelFault
    requires store { HasStore bank.old store.now }
    requires kept { IsStore (store_of bank.old store.now) }
    requires found { HasTerm bank.old found }
    requires written { HasTerm bank.old written }
    requires over { IsOver (store_of bank.old store.now).variables (tree_of bank.old written) }
    requires closed { Within 0 (tree_of bank.old written) }
    ensures answer { (b : ℕ) → Refuses {A = Unit {0}} bank.new result
        (λ n. (by_store_types (store_of bank.old store.now)).differ (tree_of bank.old found) (read (store_of bank.old store.now)
        (tree_of bank.old written))) b b }
    ensures grows { Grows bank.old bank.new }
{
    match read_kind(bank, store, written) {
        Ok(wanted) => KernelFault::Mismatch(found, wanted),
        Err(fault) => fault,
    }
}

/// Refuses a found type that does not compare with one that was written, which is kept.
pub(crate) fn matching_written<L: Ledger>(
    work: &mut Work<'_, '_>,
    env: &Env,
    store: &Store,
    context: &Context,
    found: TermId,
    wanted: TermId,
    steps: &mut Steps<L>,
) -> Result<(), KernelFault>
    requires site { IsSite work.old.bank.now env.now store.now context.now }
    requires found { IsKind work.old.bank.now (store_of work.old.bank.now store.now) (context_of work.old.bank.now context.now) found }
    requires has_wanted { HasTerm work.old.bank.now wanted }
    requires wanted { StandsIn (store_of work.old.bank.now store.now) (context_of work.old.bank.now context.now) (tree_of work.old.bank.now wanted) }
    ensures answer { Checks work.new.bank.now result
        (λ n. matching_by (by_store_types (store_of work.old.bank.now store.now)) (env_of work.old.bank.now env.now) n (read_context
        (store_of work.old.bank.now store.now) (context_of work.old.bank.now context.now))
        (tree_of work.old.bank.now found) (read (store_of work.old.bank.now store.now)
        (tree_of work.old.bank.now wanted))) work.old.ticks.now.left work.new.ticks.now.left }
    ensures fewer { OnOk result (work.new.ticks.now.left ≤ work.old.ticks.now.left) }
    ensures same_bank { work.new.bank.ghost_name ≡ work.old.bank.ghost_name }
    ensures same_ticks { work.new.ticks.ghost_name ≡ work.old.ticks.ghost_name }
    ensures grows { Grows work.old.bank.now work.new.bank.now }
    ensures budget { work.new.ticks.now.left + work.new.ticks.now.spent ≡ work.old.ticks.now.left + work.old.ticks.now.spent }
    ensures counted { steps.new + work.old.ticks.now.spent ≡ steps.old + work.new.ticks.now.spent }
{
    let same = compares(work, env, store, context, found, wanted, steps)?;
    if same {
        Ok(())
    } else {
        Err(differ(work.bank, store, found, wanted))
    }
}
