//! The types of nodes that ask for the type of no part.

ghost use Rattle.std.specs.Prelude.{◌≡◌, ◌<◌, ◌+◌, ℕ, suc, length, slice_get, Some, option_map, IfOk, IfSome, OnOk};
ghost use Rattle.std.specs.List.{AllByRecursion};
ghost use Rattle.lq_trees.specs.Index.{EachWithin};
ghost use Rattle.lq_trees.specs.Tree.{Tree, Context as TreeContext};
ghost use Rattle.lq_terms.specs.Contexts.{HasAllOf, HasContext, hypothesis_of, context_of};
ghost use Rattle.lq_terms.specs.Terms.{HasName, HasTerm, text_of, tree_of, trees_by, Grows};
ghost use Rattle.lq_calculus.specs.Contraction.{hypothesis};
ghost use Rattle.lq_calculus.specs.Declarations.{Env as Environment};
ghost use Rattle.lq_inference.specs.Inference.{infer_by};
ghost use Rattle.lq_solving.specs.Stores.{Store as TreeStore, Variable as TreeVariable, names_in, names_at, body_at, read, read_context};
ghost use Rattle.lq_solving.specs.Inference.{by_store_types};
ghost use Rattle.lq_solving.specs.Kept.{EachIsOver, IsContext, IsStore};
ghost use Rattle.lq_env.specs.Environments.{IsEnv, env_of};
ghost use Rattle.lq_evars.specs.Places.{store_of, HasStore};
ghost use Rattle.lq_kernel.specs.Steps.{Fitted, IsUnknown};
ghost use Rattle.lq_unify.specs.Exposing.{IsOfStore};
ghost use Rattle.lq_typing.specs.Going.{IsOpen, IsSingle, IsDeclared};
ghost use Rattle.lq_typing.specs.Sites.{IsSite};
ghost use Rattle.lq_typing.specs.Kinds.{Comes};

use crate::forms::read_kind;
use crate::unknowns::NoVariables;
use lq_env::Env;
use lq_evars::Store;
use lq_kernel::{KernelFault, infer_with};
use lq_terms::{Bank, Context, Hypothesis, NameId, NoMemory, Node, Steps, TermId, Work};
use lq_unify::{exposed, filled};
use std::sync::ledger::Ledger;

/// The term, with values put in for it as long as it is a variable that has one: it reads the same.
pub(crate) fn shown(bank: &mut Bank<'_>, store: &Store, term: TermId) -> Result<TermId, NoMemory>
    requires store { HasStore bank.old store.now }
    requires kept { IsStore (store_of bank.old store.now) }
    requires term { IsOfStore bank.old (store_of bank.old store.now) term }
    ensures term { IfOk result (IsOfStore bank.new (store_of bank.old store.now)) }
    ensures reads { IfOk result (λ t. read (store_of bank.old store.now) (tree_of bank.new t) ≡ read (store_of bank.old store.now) (tree_of bank.old term)) }
    ensures open { IfOk result (λ t. IsOpen (store_of bank.old store.now).values (tree_of bank.new t)) }
    ensures grows { Grows bank.old bank.new }
{
    match bank.node(term) {
        Node::Evar(_, _) => exposed(bank, store, term),
        _ => Ok(term),
    }
}

/// The first hypothesis of a name.
fn find(bank: &Bank<'_>, hypotheses: &[Hypothesis], name: NameId) -> Option<Hypothesis>
    requires context { HasContext bank.now hypotheses.now }
    requires name { HasName bank.now name }
    ensures found { option_map (hypothesis_of bank.now) result ≡ hypothesis (context_of bank.now hypotheses.now) (text_of bank.now name) }
    ensures is { IfSome result (HasAllOf bank.now) }
{
    for hypothesis in hypotheses {
        if bank.same_name(hypothesis.name, name) {
            return Some(*hypothesis);
        }
    }
    None
}

/// The type of a variable at an instance, as read.
fn kind_at(
    bank: &mut Bank<'_>,
    store: &Store,
    variable: u32,
    entries: &[TermId],
) -> Result<TermId, KernelFault>
    requires store { HasStore bank.old store.now }
    requires kept { IsStore (store_of bank.old store.now) }
    requires inside { variable < length store.now.variables }
    requires entries { AllByRecursion (HasTerm bank.old) entries.now }
    requires as_many { length entries.now ≡ length (names_at (store_of bank.old store.now).variables variable) }
    requires over { EachIsOver (store_of bank.old store.now).variables (trees_by (tree_of bank.old) entries.now) }
    requires closed { EachWithin 0 (trees_by (tree_of bank.old) entries.now) }
    ensures answer { (v : TreeVariable) → slice_get (store_of bank.old store.now).variables variable ≡ Some v
        → Fitted bank.new result (read (store_of bank.old store.now) (body_at (names_in v.context) v.kind (trees_by (tree_of bank.old) entries.now))) }
    ensures grows { Grows bank.old bank.new }
{
    let kind = filled(
        bank,
        store.context(variable).hypotheses(),
        entries,
        store.kind(variable),
    )?;
    read_kind(bank, store, kind)
}

/// The type of a hypothesis, as read, once its tick is paid.
fn hypothesis_kind(
    bank: &mut Bank<'_>,
    store: &Store,
    hypotheses: &[Hypothesis],
    name: NameId,
) -> Result<TermId, KernelFault>
    requires store { HasStore bank.old store.now }
    requires kept { IsStore (store_of bank.old store.now) }
    requires has { HasContext bank.old hypotheses.now }
    requires context { IsContext (store_of bank.old store.now) (context_of bank.old hypotheses.now) }
    requires name { HasName bank.old name }
    ensures answer { (E : Environment) (b : ℕ) → Comes bank.new result
        (λ n. infer_by (by_store_types (store_of bank.old store.now)) E n (read_context (store_of bank.old store.now) (context_of bank.old hypotheses.now))
        (read (store_of bank.old store.now) (Tree.Var (text_of bank.old name)))) (suc b) b }
    ensures grows { Grows bank.old bank.new }
{
    match find(bank, hypotheses, name) {
        Some(hypothesis) => read_kind(bank, store, hypothesis.kind),
        None => Err(KernelFault::Unbound(name)),
    }
}

/// The type of a variable that has no value, as read, once its tick is paid.
fn variable_kind(bank: &mut Bank<'_>, store: &Store, term: TermId) -> Result<TermId, KernelFault>
    requires store { HasStore bank.old store.now }
    requires kept { IsStore (store_of bank.old store.now) }
    requires term { IsOfStore bank.old (store_of bank.old store.now) term }
    requires open { IsOpen (store_of bank.old store.now).values (tree_of bank.old term) }
    requires unknown { IsUnknown (tree_of bank.old term) }
    ensures answer { (E : Environment) (g : TreeContext) (b : ℕ) → Comes bank.new result
        (λ n. infer_by (by_store_types (store_of bank.old store.now)) E n (read_context (store_of bank.old store.now) g)
        (read (store_of bank.old store.now) (tree_of bank.old term))) (suc b) b }
    ensures grows { Grows bank.old bank.new }
{
    let Node::Evar(variable, entries) = bank.node(term) else {
        unreachable!()
    };
    let variable = *variable;
    let entries = Vec::from_slice(bank.allocator(), entries.terms())?;
    kind_at(bank, store, variable, entries.as_slice())
}

/// The type of a node that is typed alike everywhere.
fn declared_kind<L: Ledger>(
    work: &mut Work<'_, '_>,
    env: &Env,
    term: TermId,
    steps: &mut Steps<L>,
) -> Result<TermId, KernelFault>
    requires env { IsEnv work.old.bank.now env.now }
    requires has { HasTerm work.old.bank.now term }
    requires declared { IsDeclared (tree_of work.old.bank.now term) }
    ensures answer { (s : TreeStore) (g : TreeContext) → Comes work.new.bank.now result
        (λ n. infer_by (by_store_types s) (env_of work.old.bank.now env.now) n (read_context s g) (read s
        (tree_of work.old.bank.now term))) work.old.ticks.now.left work.new.ticks.now.left }
    ensures pays { OnOk result (work.new.ticks.now.left < work.old.ticks.now.left) }
    ensures same_bank { work.new.bank.ghost_name ≡ work.old.bank.ghost_name }
    ensures same_ticks { work.new.ticks.ghost_name ≡ work.old.ticks.ghost_name }
    ensures grows { Grows work.old.bank.now work.new.bank.now }
    ensures budget { work.new.ticks.now.left + work.new.ticks.now.spent ≡ work.old.ticks.now.left + work.old.ticks.now.spent }
    ensures counted { steps.new + work.old.ticks.now.spent ≡ steps.old + work.new.ticks.now.spent }
{
    let context = Context::new(work.bank.allocator());
    infer_with(work, env, &NoVariables, &context, term, steps)
}

/// The type of a node that asks for the type of no part.
pub(crate) fn single_kind<L: Ledger>(
    work: &mut Work<'_, '_>,
    env: &Env,
    store: &Store,
    context: &Context,
    term: TermId,
    steps: &mut Steps<L>,
) -> Result<TermId, KernelFault>
    requires site { IsSite work.old.bank.now env.now store.now context.now }
    requires term { IsOfStore work.old.bank.now (store_of work.old.bank.now store.now) term }
    requires open { IsOpen (store_of work.old.bank.now store.now).values (tree_of work.old.bank.now term) }
    requires single { IsSingle (tree_of work.old.bank.now term) }
    ensures answer { Comes work.new.bank.now result
        (λ n. infer_by (by_store_types (store_of work.old.bank.now store.now)) (env_of work.old.bank.now env.now) n (read_context
        (store_of work.old.bank.now store.now) (context_of work.old.bank.now context.now))
        (read (store_of work.old.bank.now store.now) (tree_of work.old.bank.now term))) work.old.ticks.now.left work.new.ticks.now.left }
    ensures pays { OnOk result (work.new.ticks.now.left < work.old.ticks.now.left) }
    ensures same_bank { work.new.bank.ghost_name ≡ work.old.bank.ghost_name }
    ensures same_ticks { work.new.ticks.ghost_name ≡ work.old.ticks.ghost_name }
    ensures grows { Grows work.old.bank.now work.new.bank.now }
    ensures budget { work.new.ticks.now.left + work.new.ticks.now.spent ≡ work.old.ticks.now.left + work.old.ticks.now.spent }
    ensures counted { steps.new + work.old.ticks.now.spent ≡ steps.old + work.new.ticks.now.spent }
{
    match work.bank.node(term) {
        Node::Var(name) => {
            let name = *name;
            if !work.ticks.take(steps) {
                return Err(KernelFault::StepsOut);
            }
            hypothesis_kind(work.bank, store, context.hypotheses(), name)
        }
        Node::Evar(_, _) => {
            if !work.ticks.take(steps) {
                return Err(KernelFault::StepsOut);
            }
            variable_kind(work.bank, store, term)
        }
        _ => declared_kind(work, env, term, steps),
    }
}
