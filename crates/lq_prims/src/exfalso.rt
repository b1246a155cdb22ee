//! `exfalso` (Rocq reference manual, "Tactics").

ghost use Rattle.std.specs.Prelude.{◌≡◌, ◌+◌, ◌∷◌, [], ℕ, codes, IfOk, OnOk};
ghost use Rattle.lq_trees.specs.Tree.Tree.{App, Elim, Ind, Lam};
ghost use Rattle.lq_terms.specs.Contexts.{context_of};
ghost use Rattle.lq_terms.specs.Terms.{HasTerm, IsTerm, tree_of, Grows};
ghost use Rattle.lq_solving.specs.Kept.{IsStore};
ghost use Rattle.lq_solving.specs.Elaboration.{Givens};
ghost use Rattle.lq_evars.specs.Places.{HasStore, store_of};
ghost use Rattle.lq_tactics.specs.Rows.{Scene, ended};
ghost use Rattle.lq_tactics.specs.Primitives.{do_exfalso};
ghost use Rattle.lq_tactics.proofs.RowsKept.{IsReached};
ghost use Rattle.lq_prims.specs.Building.{built_done, false_work, from_false};
ghost use Rattle.lq_prims.specs.Leaving.{Leaves};
ghost use Rattle.lq_prims.specs.Making.{HasIn, IsIn};
ghost use Rattle.lq_prims.specs.Scenes.{IsPlaced, scene_in, step_by};
ghost use Rattle.lq_prims.specs.Working.{Does};

use crate::building::{Built, alone, given};
use crate::faults::PrimFault;
use crate::new_goals::{NewGoal, new_goal_term};
use crate::sorts::goal_sort;
use crate::unifying::copied;
use lq_env::Env;
use lq_evars::Store;
use lq_terms::{Bank, Context, NoMemory, Node, Steps, TermId, Work};
use lq_trees::Sort;
use std::sync::ledger::Ledger;

/// `False`.
fn falsehood(bank: &mut Bank<'_>) -> Result<TermId, NoMemory>
    ensures is { IfOk result (λ t. IsTerm bank.new t (Ind (codes "False"))) }
    ensures grows { Grows bank.old bank.new }
{
    let family = bank.name("False")?;
    bank.make(Node::Ind(family))
}

/// The eliminator of `False` into a sort, on a function that is the type everywhere.
fn eliminated(
    bank: &mut Bank<'_>,
    sort: Sort,
    motive: TermId,
    term: TermId,
) -> Result<TermId, NoMemory>
    requires motive { HasTerm bank.old motive }
    requires term { HasTerm bank.old term }
    ensures is { IfOk result (λ t. IsTerm bank.new t (App (App (Elim (codes "False") sort) (tree_of bank.old motive)) (tree_of bank.old term))) }
    ensures grows { Grows bank.old bank.new }
{
    let family = bank.name("False")?;
    let eliminator = bank.make(Node::Elim(family, sort))?;
    let on_motive = bank.make(Node::App(eliminator, motive))?;
    bank.make(Node::App(on_motive, term))
}

/// The function that is the type, whatever proof of `False` it gets.
fn motive(bank: &mut Bank<'_>, falsehood: TermId, kind: TermId) -> Result<TermId, NoMemory>
    requires falsehood { HasTerm bank.old falsehood }
    requires kind { HasTerm bank.old kind }
    ensures is { IfOk result (λ t. IsTerm bank.new t (Lam [] (tree_of bank.old falsehood) (tree_of bank.old kind))) }
    ensures grows { Grows bank.old bank.new }
{
    let anonymous = bank.name("")?;
    bank.make(Node::Lam(anonymous, falsehood, kind))
}

/// `False`, and the function that is the type whatever proof of `False` it gets.
fn prepared(bank: &mut Bank<'_>, kind: TermId) -> Result<(TermId, TermId), NoMemory>
    requires { HasTerm bank.old kind }
    ensures falsehood { IfOk result (λ p. IsTerm bank.new p.0 (Ind (codes "False"))) }
    ensures motive { IfOk result (λ p. IsTerm bank.new p.1 (Lam [] (Ind (codes "False")) (tree_of bank.old kind))) }
    ensures grows { Grows bank.old bank.new }
{
    let falsehood = falsehood(bank)?;
    let motive = motive(bank, falsehood, kind)?;
    Ok((falsehood, motive))
}

/// The proof by a goal that is `False`.
fn proved(
    bank: &mut Bank<'_>,
    sort: Sort,
    motive: TermId,
    inside: NewGoal,
) -> Result<Built, NoMemory>
    requires motive { HasTerm bank.old motive }
    requires inside { HasTerm bank.old inside.term }
    ensures body { IfOk result (λ b. IsTerm bank.new b.body (App (App (Elim (codes "False") sort) (tree_of bank.old motive)) (tree_of bank.old inside.term))) }
    ensures goals { IfOk result (λ b. b.goals.items ≡ inside.goal ∷ []) }
    ensures grows { Grows bank.old bank.new }
{
    let goals = alone(bank.allocator(), inside.goal)?;
    match eliminated(bank, sort, motive, inside.term) {
        Ok(body) => Ok(Built { body, goals }),
        Err(fault) => Err(fault),
    }
}

/// The goal of `exfalso`, in a context of its goal, and what is proved by it.
fn false_goal<L: Ledger>(
    work: &mut Work<'_, '_>,
    store: &mut Store,
    context: &Context,
    kind: TermId,
    sort: Sort,
    steps: &mut Steps<L>,
) -> Result<Built, PrimFault>
    requires place { IsIn work.old.bank.now store.old context.now }
    requires kind { HasIn work.old.bank.now store.old context.now kind }
    ensures answer { (c : ℕ → Scene) → ((n : ℕ) → (c n).bound ≡ n) → Does work.new.bank.now (built_done work.new.bank.now store.new) result
        (λ n. false_work (c n) (store_of work.old.bank.now store.old) (context_of work.old.bank.now context.now) (tree_of work.old.bank.now kind) sort)
        work.old.ticks.now.left work.new.ticks.now.left }
    ensures body { IfOk result (λ b. HasTerm work.new.bank.now b.body) }
    ensures has { OnOk result (HasStore work.new.bank.now store.new) }
    ensures same_bank { work.new.bank.ghost_name ≡ work.old.bank.ghost_name }
    ensures same_ticks { work.new.ticks.ghost_name ≡ work.old.ticks.ghost_name }
    ensures grows { Grows work.old.bank.now work.new.bank.now }
    ensures budget { work.new.ticks.now.left + work.new.ticks.now.spent ≡ work.old.ticks.now.left + work.old.ticks.now.spent }
    ensures counted { steps.new + work.old.ticks.now.spent ≡ steps.old + work.new.ticks.now.spent }
{
    let (falsehood, motive) = match prepared(work.bank, kind) {
        Ok(terms) => terms,
        Err(_) => return Err(PrimFault::NoMemory),
    };
    match new_goal_term(work, store, context, falsehood, steps) {
        Ok(inside) => match proved(work.bank, sort, motive, inside) {
            Ok(built) => Ok(built),
            Err(_) => Err(PrimFault::NoMemory),
        },
        Err(fault) => Err(fault),
    }
}

/// What `exfalso` builds: the goal's type is eliminated from a proof of `False`.
fn do_exfalso<L: Ledger>(
    work: &mut Work<'_, '_>,
    env: &Env,
    store: &mut Store,
    goal: u32,
    kind: TermId,
    steps: &mut Steps<L>,
) -> Result<Built, PrimFault>
    requires placed { IsPlaced work.old.bank.now env.now store.old goal kind }
    ensures answer { (vs : Givens) → Does work.new.bank.now (built_done work.new.bank.now store.new) result
        (λ n. do_exfalso (scene_in work.old.bank.now env.now store.old goal kind vs n)) work.old.ticks.now.left work.new.ticks.now.left }
    ensures body { IfOk result (λ b. HasTerm work.new.bank.now b.body) }
    ensures has { OnOk result (HasStore work.new.bank.now store.new) }
    ensures reached { IfOk result (λ b. IsReached (scene_in work.old.bank.now env.now store.old goal kind [] 0) (built_done work.new.bank.now store.new b)) }
    ensures same_bank { work.new.bank.ghost_name ≡ work.old.bank.ghost_name }
    ensures same_ticks { work.new.ticks.ghost_name ≡ work.old.ticks.ghost_name }
    ensures grows { Grows work.old.bank.now work.new.bank.now }
    ensures budget { work.new.ticks.now.left + work.new.ticks.now.spent ≡ work.old.ticks.now.left + work.old.ticks.now.spent }
    ensures counted { steps.new + work.old.ticks.now.spent ≡ steps.old + work.new.ticks.now.spent }
{
    let context = match copied(work.bank.allocator(), store.context(goal)) {
        Ok(context) => context,
        Err(_) => return Err(PrimFault::NoMemory),
    };
    match goal_sort(work, env, store, goal, kind, steps) {
        Ok(sort) => false_goal(work, store, &context, kind, sort, steps),
        Err(fault) => Err(fault),
    }
}

/// `exfalso`: the goal becomes `False`. It is refused as the type of its type is (`PrimFault::Elab`), `NotASort` among that.
pub(crate) fn exfalso<L: Ledger>(
    work: &mut Work<'_, '_>,
    env: &Env,
    store: &mut Store,
    goal: u32,
    kind: TermId,
    steps: &mut Steps<L>,
) -> Result<Vec<u32>, PrimFault>
    requires placed { IsPlaced work.old.bank.now env.now store.old goal kind }
    ensures answer { (vs : Givens) → Does work.new.bank.now (λ v. step_by (store_of work.new.bank.now store.new) v.items) result
        (λ n. ended (scene_in work.old.bank.now env.now store.old goal kind vs n) (do_exfalso (scene_in work.old.bank.now env.now store.old goal kind vs n)))
        work.old.ticks.now.left work.new.ticks.now.left }
    ensures leaves { IfOk result (λ v. Leaves (store_of work.old.bank.now store.old) goal (store_of work.new.bank.now store.new) v.items) }
    ensures has { OnOk result (HasStore work.new.bank.now store.new) }
    ensures kept { OnOk result (IsStore (store_of work.new.bank.now store.new)) }
    ensures same_bank { work.new.bank.ghost_name ≡ work.old.bank.ghost_name }
    ensures same_ticks { work.new.ticks.ghost_name ≡ work.old.ticks.ghost_name }
    ensures grows { Grows work.old.bank.now work.new.bank.now }
    ensures budget { work.new.ticks.now.left + work.new.ticks.now.spent ≡ work.old.ticks.now.left + work.old.ticks.now.spent }
    ensures counted { steps.new + work.old.ticks.now.spent ≡ steps.old + work.new.ticks.now.spent }
{
    match do_exfalso(work, env, store, goal, kind, steps) {
        Ok(built) => given(work.bank, store, goal, built),
        Err(fault) => Err(fault),
    }
}
