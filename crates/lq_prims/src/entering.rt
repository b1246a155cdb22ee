//! A goal under one hypothesis more.

ghost use Rattle.std.specs.Prelude.{◌≡◌, ◌+◌, ◌++◌, ◌∷◌, [], ℕ, false, None, Some, IfOk, OnOk};
ghost use Rattle.lq_trees.specs.Tree.{Tree};
ghost use Rattle.lq_trees.specs.Tree.Tree.{Rel, Evar};
ghost use Rattle.lq_trees.specs.Fresh.{is_listed, opened};
ghost use Rattle.lq_calculus.specs.Declarations.{Env as Environment, variables};
ghost use Rattle.lq_terms.specs.Contexts.{HasAllOf, hypothesis_of};
ghost use Rattle.lq_terms.specs.Terms.{HasName, HasTerm, IsTerm, text_of, tree_of, Grows};
ghost use Rattle.lq_solving.specs.Stores.{names_in, instance_list, count};
ghost use Rattle.lq_solving.specs.Kept.{OptionStands, StandsIn};
ghost use Rattle.lq_solving.specs.Elaboration.{Givens};
ghost use Rattle.lq_solving.proofs.StandsLaws.{StandsUnder};
ghost use Rattle.lq_evars.specs.Places.{HasStore, store_of};
ghost use Rattle.lq_tactics.specs.Rows.{Scene, new_goal};
ghost use Rattle.lq_tactics.specs.Primitives.{under_product, under_value};
ghost use Rattle.lq_prims.specs.Reaching.{reached_done};
ghost use Rattle.lq_prims.specs.Scenes.{IsGoal, context_at, behind, scene_by};
ghost use Rattle.lq_prims.specs.Working.{Does};

use crate::faults::PrimFault;
use crate::new_goals::new_goal;
use crate::standing::{entries_under, with_hypothesis};
use lq_evars::Store;
use lq_terms::{Bank, Hypothesis, NameId, NoMemory, Node, Steps, TermId, Work, open};
use std::sync::ledger::Ledger;

/// What a row reaches with one new goal: the goal's body, and the new goal.
#[derive(Clone, Copy)]
pub(crate) struct Reached {
    pub(crate) body: TermId,
    pub(crate) goal: u32,
}

/// The variable that comes next, at a goal's hypotheses and the nearest binder's variable.
fn next_inside(bank: &mut Bank<'_>, store: &Store, goal: u32) -> Result<TermId, NoMemory>
    requires { IsGoal bank.old store.now goal }
    ensures inside { IfOk result (λ t. IsTerm bank.new t (Evar (count (store_of bank.old store.now))
        (instance_list (variables (context_at (store_of bank.old store.now) goal) ++ Rel 0 ∷ [])))) }
    ensures grows { Grows bank.old bank.new }
{
    let entries = entries_under(bank, store.context(goal).hypotheses())?;
    bank.make(Node::Evar(store.count(), entries))
}

/// A new goal under one hypothesis more, whose name is a new one.
fn entered<L: Ledger>(
    work: &mut Work<'_, '_>,
    store: &mut Store,
    goal: u32,
    hypothesis: Hypothesis,
    rest: TermId,
    steps: &mut Steps<L>,
) -> Result<u32, PrimFault>
    requires place { IsGoal work.old.bank.now store.old goal }
    requires hypothesis { HasAllOf work.old.bank.now hypothesis }
    requires new { is_listed (names_in (context_at (store_of work.old.bank.now store.old) goal)) (text_of work.old.bank.now hypothesis.name) ≡ false }
    requires body { OptionStands (store_of work.old.bank.now store.old) (names_in (context_at (store_of work.old.bank.now store.old) goal))
        (hypothesis_of work.old.bank.now hypothesis).body }
    requires kind { StandsIn (store_of work.old.bank.now store.old) (context_at (store_of work.old.bank.now store.old) goal)
        (tree_of work.old.bank.now hypothesis.kind) }
    requires rest { HasTerm work.old.bank.now rest }
    requires rest_stands { StandsUnder (store_of work.old.bank.now store.old) (names_in (context_at (store_of work.old.bank.now store.old) goal)) 1
        (tree_of work.old.bank.now rest) }
    ensures answer { (c : ℕ → Scene) → ((n : ℕ) → (c n).bound ≡ n) → Does work.new.bank.now (λ k. (store_of work.new.bank.now store.new, k)) result
        (λ n. new_goal (c n) (store_of work.old.bank.now store.old)
        (behind (context_at (store_of work.old.bank.now store.old) goal) (hypothesis_of work.old.bank.now hypothesis))
        (opened (text_of work.old.bank.now hypothesis.name) (tree_of work.old.bank.now rest))) work.old.ticks.now.left work.new.ticks.now.left }
    ensures number { IfOk result (λ k. k ≡ count (store_of work.old.bank.now store.old)) }
    ensures has { OnOk result (HasStore work.new.bank.now store.new) }
    ensures same_bank { work.new.bank.ghost_name ≡ work.old.bank.ghost_name }
    ensures same_ticks { work.new.ticks.ghost_name ≡ work.old.ticks.ghost_name }
    ensures grows { Grows work.old.bank.now work.new.bank.now }
    ensures budget { work.new.ticks.now.left + work.new.ticks.now.spent ≡ work.old.ticks.now.left + work.old.ticks.now.spent }
    ensures counted { steps.new + work.old.ticks.now.spent ≡ steps.old + work.new.ticks.now.spent }
{
    let alloc = work.bank.allocator();
    let context = with_hypothesis(alloc, store.context(goal).hypotheses(), hypothesis)?;
    let kind = open(work.bank, rest, hypothesis.name)?;
    new_goal(work, store, context, kind, steps)
}

/// The goal under a hypothesis of that name and type, and what is a function of it.
pub(crate) fn under_product<L: Ledger>(
    work: &mut Work<'_, '_>,
    store: &mut Store,
    goal: u32,
    name: NameId,
    domain: TermId,
    rest: TermId,
    steps: &mut Steps<L>,
) -> Result<Reached, PrimFault>
    requires place { IsGoal work.old.bank.now store.old goal }
    requires name { HasName work.old.bank.now name }
    requires new { is_listed (names_in (context_at (store_of work.old.bank.now store.old) goal)) (text_of work.old.bank.now name) ≡ false }
    requires domain { HasTerm work.old.bank.now domain }
    requires domain_stands { StandsIn (store_of work.old.bank.now store.old) (context_at (store_of work.old.bank.now store.old) goal)
        (tree_of work.old.bank.now domain) }
    requires rest { HasTerm work.old.bank.now rest }
    requires rest_stands { StandsUnder (store_of work.old.bank.now store.old) (names_in (context_at (store_of work.old.bank.now store.old) goal)) 1
        (tree_of work.old.bank.now rest) }
    ensures answer { (E : Environment) (T : Tree) (vs : Givens) → Does work.new.bank.now (reached_done work.new.bank.now store.new) result
        (λ n. under_product (scene_by E (store_of work.old.bank.now store.old) goal (context_at (store_of work.old.bank.now store.old) goal) T vs n)
        (text_of work.old.bank.now name) (text_of work.old.bank.now name) (tree_of work.old.bank.now domain) (tree_of work.old.bank.now rest))
        work.old.ticks.now.left work.new.ticks.now.left }
    ensures body { IfOk result (λ r. HasTerm work.new.bank.now r.body) }
    ensures has { OnOk result (HasStore work.new.bank.now store.new) }
    ensures same_bank { work.new.bank.ghost_name ≡ work.old.bank.ghost_name }
    ensures same_ticks { work.new.ticks.ghost_name ≡ work.old.ticks.ghost_name }
    ensures grows { Grows work.old.bank.now work.new.bank.now }
    ensures budget { work.new.ticks.now.left + work.new.ticks.now.spent ≡ work.old.ticks.now.left + work.old.ticks.now.spent }
    ensures counted { steps.new + work.old.ticks.now.spent ≡ steps.old + work.new.ticks.now.spent }
{
    let inside = next_inside(work.bank, store, goal)?;
    let body = work.bank.make(Node::Lam(name, domain, inside))?;
    let hypothesis = Hypothesis {
        name,
        body: None,
        kind: domain,
    };
    let made = entered(work, store, goal, hypothesis, rest, steps)?;
    Ok(Reached { body, goal: made })
}

/// The goal under a hypothesis of that name, value and type, and what is a local definition round it.
pub(crate) fn under_definition<L: Ledger>(
    work: &mut Work<'_, '_>,
    store: &mut Store,
    goal: u32,
    name: NameId,
    value: TermId,
    kind: TermId,
    rest: TermId,
    steps: &mut Steps<L>,
) -> Result<Reached, PrimFault>
    requires place { IsGoal work.old.bank.now store.old goal }
    requires name { HasName work.old.bank.now name }
    requires new { is_listed (names_in (context_at (store_of work.old.bank.now store.old) goal)) (text_of work.old.bank.now name) ≡ false }
    requires value { HasTerm work.old.bank.now value }
    requires value_stands { StandsIn (store_of work.old.bank.now store.old) (context_at (store_of work.old.bank.now store.old) goal)
        (tree_of work.old.bank.now value) }
    requires kind { HasTerm work.old.bank.now kind }
    requires kind_stands { StandsIn (store_of work.old.bank.now store.old) (context_at (store_of work.old.bank.now store.old) goal)
        (tree_of work.old.bank.now kind) }
    requires rest { HasTerm work.old.bank.now rest }
    requires rest_stands { StandsUnder (store_of work.old.bank.now store.old) (names_in (context_at (store_of work.old.bank.now store.old) goal)) 1
        (tree_of work.old.bank.now rest) }
    ensures answer { (E : Environment) (T : Tree) (vs : Givens) → Does work.new.bank.now (reached_done work.new.bank.now store.new) result
        (λ n. under_value (scene_by E (store_of work.old.bank.now store.old) goal (context_at (store_of work.old.bank.now store.old) goal) T vs n)
        (text_of work.old.bank.now name) (text_of work.old.bank.now name) (tree_of work.old.bank.now value) (tree_of work.old.bank.now kind)
        (tree_of work.old.bank.now rest)) work.old.ticks.now.left work.new.ticks.now.left }
    ensures body { IfOk result (λ r. HasTerm work.new.bank.now r.body) }
    ensures has { OnOk result (HasStore work.new.bank.now store.new) }
    ensures same_bank { work.new.bank.ghost_name ≡ work.old.bank.ghost_name }
    ensures same_ticks { work.new.ticks.ghost_name ≡ work.old.ticks.ghost_name }
    ensures grows { Grows work.old.bank.now work.new.bank.now }
    ensures budget { work.new.ticks.now.left + work.new.ticks.now.spent ≡ work.old.ticks.now.left + work.old.ticks.now.spent }
    ensures counted { steps.new + work.old.ticks.now.spent ≡ steps.old + work.new.ticks.now.spent }
{
    let inside = next_inside(work.bank, store, goal)?;
    let body = work.bank.make(Node::Let(name, value, kind, inside))?;
    let hypothesis = Hypothesis {
        name,
        body: Some(value),
        kind,
    };
    let made = entered(work, store, goal, hypothesis, rest, steps)?;
    Ok(Reached { body, goal: made })
}
