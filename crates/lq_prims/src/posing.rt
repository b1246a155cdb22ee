//! `pose` (Rocq reference manual, "Tactics").

ghost use Rattle.std.specs.Prelude.{◌≡◌, ◌+◌, ◌∷◌, [], ℕ, Some, IfOk, OnOk};
ghost use Rattle.std.specs.List.{AllByRecursion};
ghost use Rattle.lq_trees.specs.Tree.Tree.{Let};
ghost use Rattle.lq_ast.specs.Plain.{plain};
ghost use Rattle.lq_terms.specs.Contexts.{context_of};
ghost use Rattle.lq_terms.specs.Terms.{HasName, HasTerm, IsTerm, text_of, tree_of, Grows};
ghost use Rattle.lq_solving.specs.Kept.{IsStore};
ghost use Rattle.lq_evars.specs.Places.{HasStore, store_of};
ghost use Rattle.lq_elab.specs.Calls.{ValuesStand};
ghost use Rattle.lq_elab.specs.States.{HasGiven, givens_of};
ghost use Rattle.lq_tactics.specs.Rows.{Scene, ended};
ghost use Rattle.lq_tactics.specs.Primitives.{do_pose};
ghost use Rattle.lq_tactics.proofs.RowsKept.{IsReached};
ghost use Rattle.lq_prims.specs.Building.{built_done, pose_work};
ghost use Rattle.lq_prims.specs.Leaving.{Leaves};
ghost use Rattle.lq_prims.specs.Making.{HasIn, IsIn, MayFollow};
ghost use Rattle.lq_prims.specs.Scenes.{IsPlaced, scene_in, step_by};
ghost use Rattle.lq_prims.specs.Working.{Does};

use crate::behind::new_goal_behind;
use crate::building::{Built, alone, given};
use crate::faults::PrimFault;
use crate::naming::unused;
use crate::new_goals::NewGoal;
use crate::terms::term_of;
use crate::unifying::copied;
use lq_ast::Surface;
use lq_elab::Given;
use lq_env::Env;
use lq_evars::Store;
use lq_terms::{Bank, Context, Hypothesis, NameId, NoMemory, Node, Steps, TermId, Work};
use std::sync::ledger::Ledger;

/// A local definition round a goal.
fn round(
    bank: &mut Bank<'_>,
    name: NameId,
    value: TermId,
    kind: TermId,
    rest: NewGoal,
) -> Result<Built, NoMemory>
    requires name { HasName bank.old name }
    requires value { HasTerm bank.old value }
    requires kind { HasTerm bank.old kind }
    requires rest { HasTerm bank.old rest.term }
    ensures body { IfOk result (λ b. IsTerm bank.new b.body (Let (text_of bank.old name) (tree_of bank.old value) (tree_of bank.old kind)
        (tree_of bank.old rest.term))) }
    ensures goals { IfOk result (λ b. b.goals.items ≡ rest.goal ∷ []) }
    ensures grows { Grows bank.old bank.new }
{
    let goals = alone(bank.allocator(), rest.goal)?;
    match bank.make(Node::Let(name, value, kind, rest.term)) {
        Ok(body) => Ok(Built { body, goals }),
        Err(fault) => Err(fault),
    }
}

/// The goal of `pose`, behind a local definition of that name, value and type, and what it is put into.
fn pose_goal<L: Ledger>(
    work: &mut Work<'_, '_>,
    store: &mut Store,
    context: &Context,
    kind: TermId,
    name: NameId,
    value: TermId,
    type_of: TermId,
    steps: &mut Steps<L>,
) -> Result<Built, PrimFault>
    requires place { IsIn work.old.bank.now store.old context.now }
    requires kind { HasIn work.old.bank.now store.old context.now kind }
    requires follows { MayFollow work.old.bank.now store.old context.now (record { name = name; body = Some value; kind = type_of }) }
    ensures answer { (c : ℕ → Scene) → ((n : ℕ) → (c n).bound ≡ n) → Does work.new.bank.now (built_done work.new.bank.now store.new) result
        (λ n. pose_work (c n) (store_of work.old.bank.now store.old) (context_of work.old.bank.now context.now) (tree_of work.old.bank.now kind)
        (text_of work.old.bank.now name) (tree_of work.old.bank.now value) (tree_of work.old.bank.now type_of))
        work.old.ticks.now.left work.new.ticks.now.left }
    ensures body { IfOk result (λ b. HasTerm work.new.bank.now b.body) }
    ensures has { OnOk result (HasStore work.new.bank.now store.new) }
    ensures same_bank { work.new.bank.ghost_name ≡ work.old.bank.ghost_name }
    ensures same_ticks { work.new.ticks.ghost_name ≡ work.old.ticks.ghost_name }
    ensures grows { Grows work.old.bank.now work.new.bank.now }
    ensures budget { work.new.ticks.now.left + work.new.ticks.now.spent ≡ work.old.ticks.now.left + work.old.ticks.now.spent }
    ensures counted { steps.new + work.old.ticks.now.spent ≡ steps.old + work.new.ticks.now.spent }
{
    let hypothesis = Hypothesis {
        name,
        body: Some(value),
        kind: type_of,
    };
    match new_goal_behind(work, store, context, hypothesis, kind, steps) {
        Ok(rest) => match round(work.bank, name, value, type_of, rest) {
            Ok(built) => Ok(built),
            Err(_) => Err(PrimFault::NoMemory),
        },
        Err(fault) => Err(fault),
    }
}

/// What `pose` builds: the goal behind a local definition of the term.
fn do_pose<L: Ledger>(
    work: &mut Work<'_, '_>,
    env: &Env,
    store: &mut Store,
    goal: u32,
    kind: TermId,
    values: &[(NameId, Given)],
    name: NameId,
    term: &Surface,
    steps: &mut Steps<L>,
) -> Result<Built, PrimFault>
    requires placed { IsPlaced work.old.bank.now env.now store.old goal kind }
    requires values { AllByRecursion (HasGiven work.old.bank.now) values.now }
    requires values_stand { ValuesStand (store_of work.old.bank.now store.old) (givens_of work.old.bank.now values.now) }
    requires name { HasName work.old.bank.now name }
    ensures answer { Does work.new.bank.now (built_done work.new.bank.now store.new) result
        (λ n. do_pose (scene_in work.old.bank.now env.now store.old goal kind (givens_of work.old.bank.now values.now) n)
        (text_of work.old.bank.now name) (plain term.now)) work.old.ticks.now.left work.new.ticks.now.left }
    ensures body { IfOk result (λ b. HasTerm work.new.bank.now b.body) }
    ensures has { OnOk result (HasStore work.new.bank.now store.new) }
    ensures reached { IfOk result (λ b. IsReached (scene_in work.old.bank.now env.now store.old goal kind [] 0) (built_done work.new.bank.now store.new b)) }
    ensures same_bank { work.new.bank.ghost_name ≡ work.old.bank.ghost_name }
    ensures same_ticks { work.new.ticks.ghost_name ≡ work.old.ticks.ghost_name }
    ensures grows { Grows work.old.bank.now work.new.bank.now }
    ensures budget { work.new.ticks.now.left + work.new.ticks.now.spent ≡ work.old.ticks.now.left + work.old.ticks.now.spent }
    ensures counted { steps.new + work.old.ticks.now.spent ≡ steps.old + work.new.ticks.now.spent }
{
    let context = match copied(work.bank.allocator(), store.context(goal)) {
        Ok(context) => context,
        Err(_) => return Err(PrimFault::NoMemory),
    };
    match term_of(work, env, store, goal, values, term, None, steps) {
        Ok(found) => match unused(work.bank, context.hypotheses(), name) {
            Ok(()) => pose_goal(
                work, store, &context, kind, name, found.term, found.kind, steps,
            ),
            Err(fault) => Err(fault),
        },
        Err(fault) => Err(fault),
    }
}

/// `pose`: the goal gets a new one behind a local definition of the term of that name. It is refused as `NameInUse` where a hypothesis has
/// the name; the refusals of `lq_elab::elaborate` come in `PrimFault::Elab`.
pub(crate) fn pose<L: Ledger>(
    work: &mut Work<'_, '_>,
    env: &Env,
    store: &mut Store,
    goal: u32,
    kind: TermId,
    values: &[(NameId, Given)],
    name: NameId,
    term: &Surface,
    steps: &mut Steps<L>,
) -> Result<Vec<u32>, PrimFault>
    requires placed { IsPlaced work.old.bank.now env.now store.old goal kind }
    requires values { AllByRecursion (HasGiven work.old.bank.now) values.now }
    requires values_stand { ValuesStand (store_of work.old.bank.now store.old) (givens_of work.old.bank.now values.now) }
    requires name { HasName work.old.bank.now name }
    ensures answer { Does work.new.bank.now (λ v. step_by (store_of work.new.bank.now store.new) v.items) result
        (λ n. ended (scene_in work.old.bank.now env.now store.old goal kind (givens_of work.old.bank.now values.now) n)
        (do_pose (scene_in work.old.bank.now env.now store.old goal kind (givens_of work.old.bank.now values.now) n)
        (text_of work.old.bank.now name) (plain term.now))) work.old.ticks.now.left work.new.ticks.now.left }
    ensures leaves { IfOk result (λ v. Leaves (store_of work.old.bank.now store.old) goal (store_of work.new.bank.now store.new) v.items) }
    ensures has { OnOk result (HasStore work.new.bank.now store.new) }
    ensures kept { OnOk result (IsStore (store_of work.new.bank.now store.new)) }
    ensures same_bank { work.new.bank.ghost_name ≡ work.old.bank.ghost_name }
    ensures same_ticks { work.new.ticks.ghost_name ≡ work.old.ticks.ghost_name }
    ensures grows { Grows work.old.bank.now work.new.bank.now }
    ensures budget { work.new.ticks.now.left + work.new.ticks.now.spent ≡ work.old.ticks.now.left + work.old.ticks.now.spent }
    ensures counted { steps.new + work.old.ticks.now.spent ≡ steps.old + work.new.ticks.now.spent }
{
    match do_pose(work, env, store, goal, kind, values, name, term, steps) {
        Ok(built) => given(work.bank, store, goal, built),
        Err(fault) => Err(fault),
    }
}
