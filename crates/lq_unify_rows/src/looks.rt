//! What the calls ask of a term that stands in a context over a store, by a look at it. Each look calls itself as deep as the term is.

ghost use Rattle.std.specs.Prelude.{◌≡◌, false, None, eqb, length, IsTrue};
ghost use Rattle.std.specs.List.{AllByRecursion};
ghost use Rattle.lq_trees.specs.Fresh.{is_listed};
ghost use Rattle.lq_trees.specs.Marks.{holds_hypothesis, holds_unknown};
ghost use Rattle.lq_terms.specs.Contexts.{HasAllOf, HasBody, HasContext, context_of};
ghost use Rattle.lq_terms.specs.Terms.{HasName, HasTerm, IsPart, text_of, tree_of, trees_by};
ghost use Rattle.lq_solving.specs.Kept.{IsStore, IsValue};
ghost use Rattle.lq_solving.specs.Stores.{find_value, names_in, names_at};
ghost use Rattle.lq_evars.specs.Places.{store_of, HasStore};
ghost use Rattle.lq_unify_rows.specs.Scenes.{IsSeen, EachIsSeen, BodyIsSeen, MayCome, Takes, IsFree, EachIsFree};

use lq_evars::Store;
use lq_terms::{Bank, Hypothesis, NameId, Node, TermId, holds_hypothesis, holds_unknown, loose};

/// Whether a term holds neither hypotheses nor variables, in one step.
pub(crate) fn is_plain(bank: &Bank<'_>, term: TermId) -> bool
    requires { HasTerm bank.now term }
    ensures hypothesis { IsTrue result → holds_hypothesis (tree_of bank.now term) ≡ false }
    ensures unknown { IsTrue result → holds_unknown (tree_of bank.now term) ≡ false }
{
    !holds_hypothesis(bank, term) && !holds_unknown(bank, term)
}

/// Whether a hypothesis has that name.
fn listed(bank: &Bank<'_>, hypotheses: &[Hypothesis], name: NameId) -> bool
    requires hypotheses { HasContext bank.now hypotheses.now }
    requires name { HasName bank.now name }
    ensures { result ≡ is_listed (names_in (context_of bank.now hypotheses.now)) (text_of bank.now name) }
{
    for hypothesis in hypotheses {
        if bank.same_name(hypothesis.name, name) {
            return true;
        }
    }
    false
}

/// Whether a variable is one of the store, and has so many hypotheses.
fn takes(bank: &Bank<'_>, store: &Store, variable: u32, many: usize) -> bool
    ensures { IsTrue result → Takes bank.now store.now variable many }
{
    let _bank = bank;
    if variable >= store.count() {
        return false;
    }
    store.context(variable).hypotheses().len() == many
}

/// The same of terms as of one.
#[cycle(looks)]
fn each_stands(
    bank: &Bank<'_>,
    store: &Store,
    hypotheses: &[Hypothesis],
    depth: u64,
    whole: TermId,
    parts: &[TermId],
) -> bool
    requires store { HasStore bank.now store.now }
    requires hypotheses { HasContext bank.now hypotheses.now }
    requires parts { AllByRecursion (IsPart bank.now whole) parts.now }
    ensures { IsTrue result → EachIsSeen bank.now store.now hypotheses.now depth (trees_by (tree_of bank.now) parts.now) }
{
    for part in parts {
        if !stands(bank, store, hypotheses, depth, *part) {
            return false;
        }
    }
    true
}

/// Whether fewer bound variables than the depth are loose in a term, and it holds these hypotheses alone, and variables of the store
/// with as many entries as they have hypotheses.
#[cycle(looks)]
pub(crate) fn stands(
    bank: &Bank<'_>,
    store: &Store,
    hypotheses: &[Hypothesis],
    depth: u64,
    term: TermId,
) -> bool
    requires store { HasStore bank.now store.now }
    requires hypotheses { HasContext bank.now hypotheses.now }
    requires term { HasTerm bank.now term }
    ensures { IsTrue result → IsSeen bank.now store.now hypotheses.now depth (tree_of bank.now term) }
{
    if is_plain(bank, term) {
        return loose(bank, term) <= depth;
    }
    let Some(below) = depth.checked_add(1) else {
        return false;
    };
    match bank.node(term) {
        Node::Rel(index) => u64::from(*index) < depth,
        Node::Var(name) => listed(bank, hypotheses, *name),
        Node::Sort(_) => true,
        Node::Const(_) => true,
        Node::Ind(_) => true,
        Node::Ctor(_, _) => true,
        Node::Elim(_, _) => true,
        Node::Evar(variable, entries) => {
            let parts = entries.terms();
            takes(bank, store, *variable, parts.len())
                && each_stands(bank, store, hypotheses, depth, term, parts)
        }
        Node::Let(_, value, kind, rest) => {
            stands(bank, store, hypotheses, depth, *value)
                && stands(bank, store, hypotheses, depth, *kind)
                && stands(bank, store, hypotheses, below, *rest)
        }
        Node::Prod(_, kind, rest) => {
            stands(bank, store, hypotheses, depth, *kind)
                && stands(bank, store, hypotheses, below, *rest)
        }
        Node::Lam(_, kind, body) => {
            stands(bank, store, hypotheses, depth, *kind)
                && stands(bank, store, hypotheses, below, *body)
        }
        Node::App(function, argument) => {
            stands(bank, store, hypotheses, depth, *function)
                && stands(bank, store, hypotheses, depth, *argument)
        }
    }
}

/// Whether a variable has no value, and is another one than that.
fn is_open(bank: &Bank<'_>, store: &Store, variable: u32, found: u32) -> bool
    requires { IsStore (store_of bank.now store.now) }
    ensures { IsTrue result → (find_value (store_of bank.now store.now).values found ≡ None) × (eqb variable found ≡ false) }
{
    let _bank = bank;
    variable != found && store.value(found).is_none()
}

/// The same of terms as of one.
#[cycle(frees)]
fn each_is_free(
    bank: &Bank<'_>,
    store: &Store,
    variable: u32,
    whole: TermId,
    parts: &[TermId],
) -> bool
    requires store { IsStore (store_of bank.now store.now) }
    requires parts { AllByRecursion (IsPart bank.now whole) parts.now }
    ensures { IsTrue result → EachIsFree (store_of bank.now store.now).values variable (trees_by (tree_of bank.now) parts.now) }
{
    for part in parts {
        if !is_free(bank, store, variable, *part) {
            return false;
        }
    }
    true
}

/// Whether no variable that stands in a term has a value, and none is that one.
#[cycle(frees)]
fn is_free(bank: &Bank<'_>, store: &Store, variable: u32, term: TermId) -> bool
    requires store { IsStore (store_of bank.now store.now) }
    requires term { HasTerm bank.now term }
    ensures { IsTrue result → IsFree (store_of bank.now store.now).values variable (tree_of bank.now term) }
{
    if is_plain(bank, term) {
        return true;
    }
    match bank.node(term) {
        Node::Rel(_) => true,
        Node::Var(_) => true,
        Node::Sort(_) => true,
        Node::Const(_) => true,
        Node::Ind(_) => true,
        Node::Ctor(_, _) => true,
        Node::Elim(_, _) => true,
        Node::Evar(found, entries) => {
            is_open(bank, store, variable, *found)
                && each_is_free(bank, store, variable, term, entries.terms())
        }
        Node::Let(_, value, kind, rest) => {
            is_free(bank, store, variable, *value)
                && is_free(bank, store, variable, *kind)
                && is_free(bank, store, variable, *rest)
        }
        Node::Prod(_, kind, rest) => {
            is_free(bank, store, variable, *kind) && is_free(bank, store, variable, *rest)
        }
        Node::Lam(_, kind, body) => {
            is_free(bank, store, variable, *kind) && is_free(bank, store, variable, *body)
        }
        Node::App(function, argument) => {
            is_free(bank, store, variable, *function) && is_free(bank, store, variable, *argument)
        }
    }
}

/// Whether a body that may be there stands among these hypotheses.
fn body_stands(
    bank: &Bank<'_>,
    store: &Store,
    hypotheses: &[Hypothesis],
    body: Option<TermId>,
) -> bool
    requires store { HasStore bank.now store.now }
    requires hypotheses { HasContext bank.now hypotheses.now }
    requires body { HasBody bank.now body }
    ensures { IsTrue result → BodyIsSeen bank.now store.now hypotheses.now body }
{
    match body {
        Some(term) => stands(bank, store, hypotheses, 0, term),
        None => true,
    }
}

/// Whether a hypothesis may come next: it has a new name, and its body and its type stand among those that are there.
pub(crate) fn may_come(
    bank: &Bank<'_>,
    store: &Store,
    hypotheses: &[Hypothesis],
    hypothesis: Hypothesis,
) -> bool
    requires store { HasStore bank.now store.now }
    requires hypotheses { HasContext bank.now hypotheses.now }
    requires hypothesis { HasAllOf bank.now hypothesis }
    ensures { IsTrue result → MayCome bank.now store.now hypotheses.now hypothesis }
{
    !listed(bank, hypotheses, hypothesis.name)
        && body_stands(bank, store, hypotheses, hypothesis.body)
        && stands(bank, store, hypotheses, 0, hypothesis.kind)
}

/// Whether a variable may get a value: it has none, and the value stands in the variable's context and holds neither the variable
/// nor one that has a value.
pub(crate) fn may_get(bank: &Bank<'_>, store: &Store, variable: u32, body: TermId) -> bool
    requires store { HasStore bank.now store.now }
    requires kept { IsStore (store_of bank.now store.now) }
    requires body { HasTerm bank.now body }
    ensures { IsTrue result → IsValue (store_of bank.now store.now).variables (store_of bank.now store.now).values
        (record { id = variable; body = tree_of bank.now body }) }
{
    if variable >= store.count() || store.value(variable).is_some() {
        return false;
    }
    let context = store.context(variable).hypotheses();
    stands(bank, store, context, 0, body) && is_free(bank, store, variable, body)
}
