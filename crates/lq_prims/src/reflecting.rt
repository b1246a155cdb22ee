//! `reflexivity`: the proof that a term is equal to itself (Rocq reference manual, "Tactics").

ghost use Rattle.std.specs.Prelude.{◌≡◌, ◌+◌, [], Some, codes, IfOk, OnOk};
ghost use Rattle.lq_trees.specs.Tree.{Tree};
ghost use Rattle.lq_trees.specs.Tree.Tree.{App, Ctor};
ghost use Rattle.lq_terms.specs.Terms.{HasTerm, IsTerm, tree_of, Grows};
ghost use Rattle.lq_env.specs.Environments.{env_of};
ghost use Rattle.lq_solving.specs.Kept.{IsStore, StandsIn};
ghost use Rattle.lq_solving.specs.Elaboration.{Givens};
ghost use Rattle.lq_evars.specs.Places.{HasStore, store_of};
ghost use Rattle.lq_tactics.specs.Rows.{done_by, ended};
ghost use Rattle.lq_tactics.specs.Primitives.{reflexive, do_reflexivity};
ghost use Rattle.lq_prims.specs.Scenes.{IsDeclared, IsGoal, IsPlaced, context_at, scene_by, scene_in, step_by};
ghost use Rattle.lq_prims.specs.Working.{Does};
ghost use Rattle.lq_prims.specs.Equalities.{HasEquality};

use crate::equalities::{Equality, equality_of};
use crate::faults::PrimFault;
use crate::giving::give;
use crate::needing::head;
use crate::rooms::has_room;
use crate::unifying::{apart, unifies_at};
use lq_env::Env;
use lq_evars::Store;
use lq_terms::{Bank, NoMemory, Node, Steps, TermId, Work};
use std::sync::ledger::Ledger;

/// The constructor of `eq` on an equality's type and its left side.
pub(crate) fn reflection(bank: &mut Bank<'_>, equality: Equality) -> Result<TermId, NoMemory>
    requires { HasEquality bank.old equality }
    ensures is { IfOk result (λ t. IsTerm bank.new t (App (App (Ctor (codes "eq") 0) (tree_of bank.old equality.kind)) (tree_of bank.old equality.left))) }
    ensures grows { Grows bank.old bank.new }
{
    let family = bank.name("eq")?;
    let constructor = bank.make(Node::Ctor(family, 0))?;
    let on_kind = bank.make(Node::App(constructor, equality.kind))?;
    bank.make(Node::App(on_kind, equality.left))
}

/// The body that `reflexivity` gives on an equality: its sides unify. After a refusal for want of memory the store may have more values.
pub(crate) fn reflexive<L: Ledger>(
    work: &mut Work<'_, '_>,
    env: &Env,
    store: &mut Store,
    goal: u32,
    equality: Equality,
    steps: &mut Steps<L>,
) -> Result<TermId, PrimFault>
    requires declared { IsDeclared work.old.bank.now env.now }
    requires place { IsGoal work.old.bank.now store.old goal }
    requires has { HasEquality work.old.bank.now equality }
    requires left { StandsIn (store_of work.old.bank.now store.old) (context_at (store_of work.old.bank.now store.old) goal) (tree_of work.old.bank.now equality.left) }
    requires right { StandsIn (store_of work.old.bank.now store.old) (context_at (store_of work.old.bank.now store.old) goal) (tree_of work.old.bank.now equality.right) }
    ensures answer { (T t : Tree) (vs : Givens) → Does work.new.bank.now (λ u. done_by (store_of work.new.bank.now store.new) (tree_of work.new.bank.now u) []) result
        (λ n. reflexive (scene_by (env_of work.old.bank.now env.now) (store_of work.old.bank.now store.old) goal
        (context_at (store_of work.old.bank.now store.old) goal) T vs n) t
        (Some (tree_of work.old.bank.now equality.kind, tree_of work.old.bank.now equality.left, tree_of work.old.bank.now equality.right)))
        work.old.ticks.now.left work.new.ticks.now.left }
    ensures body { IfOk result (HasTerm work.new.bank.now) }
    ensures has { OnOk result (HasStore work.new.bank.now store.new) }
    ensures same_bank { work.new.bank.ghost_name ≡ work.old.bank.ghost_name }
    ensures same_ticks { work.new.ticks.ghost_name ≡ work.old.ticks.ghost_name }
    ensures grows { Grows work.old.bank.now work.new.bank.now }
    ensures budget { work.new.ticks.now.left + work.new.ticks.now.spent ≡ work.old.ticks.now.left + work.old.ticks.now.spent }
    ensures counted { steps.new + work.old.ticks.now.spent ≡ steps.old + work.new.ticks.now.spent }
{
    match unifies_at(work, env, store, goal, equality.left, equality.right, steps) {
        Ok(true) => {
            let body = reflection(work.bank, equality)?;
            Ok(body)
        }
        Ok(false) => Err(apart(work.bank, store, equality.left, equality.right)),
        Err(fault) => Err(fault),
    }
}

/// The body that `reflexivity` gives: the weak head form of the goal's type is an equality whose sides unify.
fn do_reflexivity<L: Ledger>(
    work: &mut Work<'_, '_>,
    env: &Env,
    store: &mut Store,
    goal: u32,
    kind: TermId,
    steps: &mut Steps<L>,
) -> Result<TermId, PrimFault>
    requires placed { IsPlaced work.old.bank.now env.now store.old goal kind }
    ensures answer { (vs : Givens) → Does work.new.bank.now (λ u. done_by (store_of work.new.bank.now store.new) (tree_of work.new.bank.now u) []) result
        (λ n. do_reflexivity (scene_in work.old.bank.now env.now store.old goal kind vs n)) work.old.ticks.now.left work.new.ticks.now.left }
    ensures body { IfOk result (HasTerm work.new.bank.now) }
    ensures has { OnOk result (HasStore work.new.bank.now store.new) }
    ensures same_bank { work.new.bank.ghost_name ≡ work.old.bank.ghost_name }
    ensures same_ticks { work.new.ticks.ghost_name ≡ work.old.ticks.ghost_name }
    ensures grows { Grows work.old.bank.now work.new.bank.now }
    ensures budget { work.new.ticks.now.left + work.new.ticks.now.spent ≡ work.old.ticks.now.left + work.old.ticks.now.spent }
    ensures counted { steps.new + work.old.ticks.now.spent ≡ steps.old + work.new.ticks.now.spent }
{
    let form = head(work, env, store, store.context(goal), kind, steps)?;
    match equality_of(work.bank, form) {
        Some(equality) => reflexive(work, env, store, goal, equality, steps),
        None => Err(PrimFault::NotAnEquality(form)),
    }
}

/// `reflexivity`: the goal's body is the constructor of `eq` on the equality's type and its left side. It is refused as `NotAnEquality`
/// where the weak head form of the goal's type is no equality, and as `DoNotUnify` where the sides do not unify.
pub(crate) fn reflexivity<L: Ledger>(
    work: &mut Work<'_, '_>,
    env: &Env,
    store: &mut Store,
    goal: u32,
    kind: TermId,
    steps: &mut Steps<L>,
) -> Result<(), PrimFault>
    requires placed { IsPlaced work.old.bank.now env.now store.old goal kind }
    ensures answer { (vs : Givens) → Does work.new.bank.now (λ u. step_by (store_of work.new.bank.now store.new) []) result
        (λ n. ended (scene_in work.old.bank.now env.now store.old goal kind vs n)
        (do_reflexivity (scene_in work.old.bank.now env.now store.old goal kind vs n)))
        work.old.ticks.now.left work.new.ticks.now.left }
    ensures has { OnOk result (HasStore work.new.bank.now store.new) }
    ensures kept { OnOk result (IsStore (store_of work.new.bank.now store.new)) }
    ensures same_bank { work.new.bank.ghost_name ≡ work.old.bank.ghost_name }
    ensures same_ticks { work.new.ticks.ghost_name ≡ work.old.ticks.ghost_name }
    ensures grows { Grows work.old.bank.now work.new.bank.now }
    ensures budget { work.new.ticks.now.left + work.new.ticks.now.spent ≡ work.old.ticks.now.left + work.old.ticks.now.spent }
    ensures counted { steps.new + work.old.ticks.now.spent ≡ steps.old + work.new.ticks.now.spent }
{
    has_room(store, goal);
    let body = do_reflexivity(work, env, store, goal, kind, steps)?;
    give(work.bank, store, goal, body)
}
