//! The types at the ends of nodes: terms are made whose reading they are, and are read within the limits.

ghost use Rattle.std.specs.Prelude.{◌≡◌, ◌<◌, ◌^◌, length, slice_get, Some, IfOk};
ghost use Rattle.lq_trees.specs.Tree.{Tree};
ghost use Rattle.lq_trees.specs.Change.{subst, close};
ghost use Rattle.lq_trees.specs.Hypotheses.{HoldsOnly};
ghost use Rattle.lq_trees.specs.Index.{Within};
ghost use Rattle.lq_trees.specs.Size.{fit};
ghost use Rattle.lq_trees.specs.declared.Fit.{Fit as Limit};
ghost use Rattle.lq_terms.specs.Contexts.{HasContext, context_of};
ghost use Rattle.lq_terms.specs.Terms.{HasName, HasTerm, IsTerm, text_of, tree_of, Grows};
ghost use Rattle.lq_solving.specs.Stores.{names_in, read};
ghost use Rattle.lq_solving.specs.Kept.{IsOver, IsStore};
ghost use Rattle.lq_evars.specs.Places.{store_of, HasStore};
ghost use Rattle.lq_kernel.specs.Steps.{Fitted};

use crate::forms::read_kind;
use lq_evars::Store;
use lq_kernel::KernelFault;
use lq_terms::{
    Bank, Context, Hypothesis, NameId, NoMemory, Node, SizeFault, TermId, close, name_under, open,
    subst,
};
use lq_unify::filled;

/// A type within the limits, closed at a hypothesis: it is as large and as deep as before.
fn closed(bank: &mut Bank<'_>, kind: TermId, name: NameId) -> Result<TermId, NoMemory>
    requires kind { HasTerm bank.old kind }
    requires within { Within 0 (tree_of bank.old kind) }
    requires fits { fit (tree_of bank.old kind) ≡ Limit.Fits }
    requires name { HasName bank.old name }
    ensures made { IfOk result (λ t. IsTerm bank.new t (close (text_of bank.old name) (tree_of bank.old kind))) }
    ensures grows { Grows bank.old bank.new }
{
    match close(bank, kind, name) {
        Ok(rest) => Ok(rest),
        Err(SizeFault::NoMemory) => Err(NoMemory),
        Err(SizeFault::TooLarge) => unreachable!(),
        Err(SizeFault::TooDeep) => unreachable!(),
    }
}

/// The type of a function, by its binder and domain as they are kept, and by the type, as read, of its rest under a hypothesis.
pub(crate) fn function_kind(
    bank: &mut Bank<'_>,
    store: &Store,
    binder: NameId,
    domain: TermId,
    name: NameId,
    kind: TermId,
) -> Result<TermId, KernelFault>
    requires store { HasStore bank.old store.now }
    requires kept { IsStore (store_of bank.old store.now) }
    requires binder { HasName bank.old binder }
    requires domain { HasTerm bank.old domain }
    requires domain_over { IsOver (store_of bank.old store.now).variables (tree_of bank.old domain) }
    requires domain_within { Within 0 (tree_of bank.old domain) }
    requires name { HasName bank.old name }
    requires kind { HasTerm bank.old kind }
    requires kind_over { IsOver (store_of bank.old store.now).variables (tree_of bank.old kind) }
    requires kind_within { Within 0 (tree_of bank.old kind) }
    requires fits { fit (tree_of bank.old kind) ≡ Limit.Fits }
    ensures answer { Fitted bank.new result (read (store_of bank.old store.now)
        (Tree.Prod (text_of bank.old binder) (tree_of bank.old domain) (close (text_of bank.old name) (tree_of bank.old kind)))) }
    ensures grows { Grows bank.old bank.new }
{
    let rest = closed(bank, kind, name)?;
    let product = bank.make(Node::Prod(binder, domain, rest))?;
    read_kind(bank, store, product)
}

/// No context has as many hypotheses as 64 digits can count. It does nothing when it runs.
fn few(context: &[Hypothesis])
    ensures { length context.now < 10 ^ 64 }
{
    let _count = context.len();
}

/// A value in the place of the bound variable of what stands below one binder, by a name that the context has not: it has no limits.
fn put_in(
    bank: &mut Bank<'_>,
    context: &[Hypothesis],
    rest: TermId,
    value: TermId,
) -> Result<TermId, NoMemory>
    requires context { HasContext bank.old context.now }
    requires rest { HasTerm bank.old rest }
    requires within { Within 1 (tree_of bank.old rest) }
    requires holds { HoldsOnly (names_in (context_of bank.old context.now)) (tree_of bank.old rest) }
    requires value { HasTerm bank.old value }
    requires closed { Within 0 (tree_of bank.old value) }
    ensures made { IfOk result (λ t. IsTerm bank.new t (subst (tree_of bank.old value) (tree_of bank.old rest))) }
    ensures grows { Grows bank.old bank.new }
{
    few(context);
    let base = bank.name("x")?;
    let name = name_under(bank, context, base)?;
    let opened = open(bank, rest, name)?;
    let variable = Hypothesis {
        name,
        body: None,
        kind: value,
    };
    filled(bank, &[variable], &[value], opened)
}

/// A value in the place of the bound variable of what stands below one binder. It has no limits.
fn substituted(
    bank: &mut Bank<'_>,
    context: &[Hypothesis],
    rest: TermId,
    value: TermId,
) -> Result<TermId, NoMemory>
    requires context { HasContext bank.old context.now }
    requires rest { HasTerm bank.old rest }
    requires within { Within 1 (tree_of bank.old rest) }
    requires holds { HoldsOnly (names_in (context_of bank.old context.now)) (tree_of bank.old rest) }
    requires value { HasTerm bank.old value }
    requires closed { Within 0 (tree_of bank.old value) }
    ensures made { IfOk result (λ t. IsTerm bank.new t (subst (tree_of bank.old value) (tree_of bank.old rest))) }
    ensures grows { Grows bank.old bank.new }
{
    match subst(bank, rest, value) {
        Ok(term) => Ok(term),
        Err(SizeFault::NoMemory) => Err(NoMemory),
        Err(_) => put_in(bank, context, rest, value),
    }
}

/// What stands below one binder, as read, with a kept value in the place of its bound variable.
pub(crate) fn rest_kind(
    bank: &mut Bank<'_>,
    store: &Store,
    context: &[Hypothesis],
    value: TermId,
    rest: TermId,
) -> Result<TermId, KernelFault>
    requires store { HasStore bank.old store.now }
    requires kept { IsStore (store_of bank.old store.now) }
    requires context { HasContext bank.old context.now }
    requires rest { HasTerm bank.old rest }
    requires rest_over { IsOver (store_of bank.old store.now).variables (tree_of bank.old rest) }
    requires within { Within 1 (tree_of bank.old rest) }
    requires holds { HoldsOnly (names_in (context_of bank.old context.now)) (tree_of bank.old rest) }
    requires value { HasTerm bank.old value }
    requires value_over { IsOver (store_of bank.old store.now).variables (tree_of bank.old value) }
    requires closed { Within 0 (tree_of bank.old value) }
    ensures answer { Fitted bank.new result (read (store_of bank.old store.now) (subst (tree_of bank.old value) (tree_of bank.old rest))) }
    ensures grows { Grows bank.old bank.new }
{
    let kind = substituted(bank, context, rest, value)?;
    read_kind(bank, store, kind)
}

/// The type of a local definition, by its value as it is kept, and by the type, as read, of its rest under a hypothesis.
pub(crate) fn definition_kind(
    bank: &mut Bank<'_>,
    store: &Store,
    context: &[Hypothesis],
    value: TermId,
    name: NameId,
    kind: TermId,
) -> Result<TermId, KernelFault>
    requires store { HasStore bank.old store.now }
    requires kept { IsStore (store_of bank.old store.now) }
    requires context { HasContext bank.old context.now }
    requires value { HasTerm bank.old value }
    requires value_over { IsOver (store_of bank.old store.now).variables (tree_of bank.old value) }
    requires closed { Within 0 (tree_of bank.old value) }
    requires name { HasName bank.old name }
    requires kind { HasTerm bank.old kind }
    requires kind_over { IsOver (store_of bank.old store.now).variables (tree_of bank.old kind) }
    requires kind_within { Within 0 (tree_of bank.old kind) }
    requires holds { HoldsOnly (names_in (context_of bank.old context.now)) (close (text_of bank.old name) (tree_of bank.old kind)) }
    requires fits { fit (tree_of bank.old kind) ≡ Limit.Fits }
    ensures answer { Fitted bank.new result (read (store_of bank.old store.now)
        (subst (tree_of bank.old value) (close (text_of bank.old name) (tree_of bank.old kind)))) }
    ensures grows { Grows bank.old bank.new }
{
    let rest = closed(bank, kind, name)?;
    rest_kind(bank, store, context, value, rest)
}
