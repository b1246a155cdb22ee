//! Names: what is found of them.

ghost use Rattle.std.specs.Prelude.{◌≡◌, ◌+◌, ◌≤◌, ℕ, not, length, option_map, IfOk, OnOk};
ghost use Rattle.lq_trees.specs.Tree.{Name, Tree};
ghost use Rattle.lq_trees.specs.Fresh.{is_listed};
ghost use Rattle.lq_trees.specs.Index.{Within};
ghost use Rattle.lq_trees.specs.Ticks.{gives};
ghost use Rattle.lq_terms.specs.Terms.{HasName, HasTerm, tree_of, text_of, Grows};
ghost use Rattle.lq_terms.specs.Contexts.{HasContext, context_of};
ghost use Rattle.lq_solving.specs.Occurs.{only_names};
ghost use Rattle.lq_solving.specs.Stores.{Store as TreeStore, names_in, read};
ghost use Rattle.lq_solving.specs.Kept.{IsOver, IsStore};
ghost use Rattle.lq_solving.specs.Elaboration.{found, name_found, value_found, given_term};
ghost use Rattle.lq_solving.proofs.ElabSettled.{at};
ghost use Rattle.lq_evars.specs.Places.{store_of, HasStore};
ghost use Rattle.lq_unify.specs.Solutions.{places_of, HasPlaces};
ghost use Rattle.lq_unify.specs.Holding.{has_no_place};
ghost use Rattle.lq_elab.specs.Answers.{Comes, found_of};
ghost use Rattle.lq_elab.specs.Frames.{spot_of};
ghost use Rattle.lq_elab.specs.States.{IsSite, IsState, site_of};

use crate::finding::Found;
use crate::frames::Frames;
use crate::globals::global;
use crate::scope::{Meaning, Scope};
use crate::sites::Site;
use indexmap::IndexMap;
use lq_evars::Store;
use lq_terms::{Bank, Context, Hypothesis, NameId, NoMemory, Node, Steps, TermId, Work};
use lq_typing::{ElabFault, type_of};
use lq_unify::is_barred_in;
use std::sync::ledger::Ledger;

/// A number that no variable has.
const NO_VARIABLE: u32 = 4_294_967_295;

/// The hypotheses of a context, each with some term: what `lq_unify::is_barred_in` takes, where a term may hold the hypotheses of
/// that context alone. `Err`: there was no memory.
pub fn places_in(
    bank: &Bank<'_>,
    context: &[Hypothesis],
) -> Result<IndexMap<NameId, TermId>, NoMemory>
    requires { HasContext bank.now context.now }
    ensures are { IfOk result (λ m. (x : Name) → has_no_place (places_of bank.now m.entries) x ≡ not (is_listed (names_in (context_of bank.now context.now)) x)) }
    ensures has { IfOk result (λ m. HasPlaces bank.now m.entries) }
{
    bank.names_apart();
    let mut places = IndexMap::new(bank.allocator());
    for i in (0..context.len()).rev() {
        let Ok(_) = places.insert(context[i].name, context[i].kind) else {
            return Err(NoMemory);
        };
    }
    Ok(places)
}

/// Whether a term as it reads, over so many variables, holds other hypotheses than those of a context.
fn holds_others(
    bank: &Bank<'_>,
    store: &Store,
    count: u32,
    context: &Context,
    term: TermId,
) -> Result<bool, NoMemory>
    requires store { HasStore bank.now store.now }
    requires kept { IsStore (store_of bank.now store.now) }
    requires count { count ≡ length store.now.variables }
    requires context { HasContext bank.now context.now }
    requires term { HasTerm bank.now term }
    requires over { IsOver (store_of bank.now store.now).variables (tree_of bank.now term) }
    ensures { IfOk result (λ b. only_names (names_in (context_of bank.now context.now)) (read (store_of bank.now store.now) (tree_of bank.now term)) ≡ not b) }
{
    let places = places_in(bank, context.hypotheses())?;
    is_barred_in(bank, store, NO_VARIABLE, &places, term)
}

/// A term that is an Ltac value: each hypothesis that it holds must be one of the goal's context.
fn value_of<L: Ledger>(
    work: &mut Work<'_, '_>,
    site: &Site<'_>,
    store: &Store,
    name: NameId,
    term: TermId,
    steps: &mut Steps<L>,
) -> Result<Found, ElabFault>
    requires store { HasStore work.old.bank.now store.now }
    requires kept { IsStore (store_of work.old.bank.now store.now) }
    requires site { IsSite work.old.bank.now (store_of work.old.bank.now store.now) site.now }
    requires name { HasName work.old.bank.now name }
    requires term { HasTerm work.old.bank.now term }
    requires over { IsOver (store_of work.old.bank.now store.now).variables (tree_of work.old.bank.now term) }
    requires within { Within 0 (tree_of work.old.bank.now term) }
    ensures answer { Comes work.new.bank.now (λ f. found (store_of work.old.bank.now store.now) (tree_of work.new.bank.now f.term) (tree_of work.new.bank.now f.kind))
        result (λ n. value_found (at n (site_of work.old.bank.now site.now)) (store_of work.old.bank.now store.now) (text_of work.old.bank.now name)
        (given_term (tree_of work.old.bank.now term))) work.old.ticks.now.left work.new.ticks.now.left }
    ensures term { IfOk result (λ f. HasTerm work.new.bank.now f.term) }
    ensures kind { IfOk result (λ f. HasTerm work.new.bank.now f.kind) }
    ensures same_bank { work.new.bank.ghost_name ≡ work.old.bank.ghost_name }
    ensures same_ticks { work.new.ticks.ghost_name ≡ work.old.ticks.ghost_name }
    ensures grows { Grows work.old.bank.now work.new.bank.now }
    ensures budget { work.new.ticks.now.left + work.new.ticks.now.spent ≡ work.old.ticks.now.left + work.old.ticks.now.spent }
    ensures counted { steps.new + work.old.ticks.now.spent ≡ steps.old + work.new.ticks.now.spent }
{
    match holds_others(work.bank, store, store.count(), site.outer, term) {
        Ok(true) => Err(ElabFault::Unknown(name)),
        Ok(false) => match type_of(work, site.env, store, site.outer, term, steps) {
            Ok(kind) => Ok(Found { term, kind }),
            Err(fault) => Err(fault),
        },
        Err(_) => Err(ElabFault::NoMemory),
    }
}

/// A hypothesis with its type.
fn variable(bank: &mut Bank<'_>, name: NameId, kind: TermId) -> Result<Found, ElabFault>
    requires name { HasName bank.old name }
    requires kind { HasTerm bank.old kind }
    ensures answer { (s : TreeStore) (left : ℕ) → Comes bank.new (λ f. found s (tree_of bank.new f.term) (tree_of bank.new f.kind)) result
        (λ n. gives (found s (Tree.Var (text_of bank.old name)) (tree_of bank.old kind))) left left }
    ensures term { IfOk result (λ f. HasTerm bank.new f.term) }
    ensures kind { IfOk result (λ f. HasTerm bank.new f.kind) }
    ensures grows { Grows bank.old bank.new }
{
    let term = bank.make(Node::Var(name))?;
    Ok(Found { term, kind })
}

/// What a name stands for, with its type.
pub(crate) fn meant<'t, L: Ledger>(
    work: &mut Work<'_, '_>,
    site: &Site<'_>,
    store: &Store,
    context: &Context,
    scope: &Scope,
    frames: &Frames<'t>,
    name: NameId,
    steps: &mut Steps<L>,
) -> Result<Found, ElabFault>
    requires state { IsState work.old.bank.now site.now store.now context.now scope.now frames.now }
    requires name { HasName work.old.bank.now name }
    ensures answer { Comes work.new.bank.now (λ f. found (store_of work.old.bank.now store.now) (tree_of work.new.bank.now f.term) (tree_of work.new.bank.now f.kind))
        result (λ n. name_found (at n (site_of work.old.bank.now site.now)) (spot_of work.old.bank.now context.now frames.now).binders
        (context_of work.old.bank.now context.now) (store_of work.old.bank.now store.now) (text_of work.old.bank.now name))
        work.old.ticks.now.left work.new.ticks.now.left }
    ensures term { IfOk result (λ f. HasTerm work.new.bank.now f.term) }
    ensures kind { IfOk result (λ f. HasTerm work.new.bank.now f.kind) }
    ensures same_bank { work.new.bank.ghost_name ≡ work.old.bank.ghost_name }
    ensures same_ticks { work.new.ticks.ghost_name ≡ work.old.ticks.ghost_name }
    ensures grows { Grows work.old.bank.now work.new.bank.now }
    ensures budget { work.new.ticks.now.left + work.new.ticks.now.spent ≡ work.old.ticks.now.left + work.old.ticks.now.spent }
    ensures counted { steps.new + work.old.ticks.now.spent ≡ steps.old + work.new.ticks.now.spent }
{
    let _context = context;
    let _frames = frames;
    match scope.get(work.bank, name) {
        Meaning::Variable(hypothesis, kind) => variable(work.bank, hypothesis, kind),
        Meaning::Value(term) => value_of(work, site, store, name, term, steps),
        Meaning::Nothing => Err(ElabFault::Unknown(name)),
        Meaning::NoTerm => Err(ElabFault::NotATerm(name)),
        Meaning::Global => global(work.bank, site.env, name),
    }
}
