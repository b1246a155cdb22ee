//! `cut` (Rocq reference manual, "Tactics").

ghost use Rattle.std.specs.Prelude.{◌≡◌, ◌+◌, ◌∷◌, [], ℕ, IfOk, OnOk};
ghost use Rattle.std.specs.List.{AllByRecursion};
ghost use Rattle.lq_trees.specs.Tree.Tree.{App, Prod};
ghost use Rattle.lq_ast.specs.Plain.{plain};
ghost use Rattle.lq_terms.specs.Contexts.{context_of};
ghost use Rattle.lq_terms.specs.Terms.{HasTerm, IsTerm, tree_of, Grows};
ghost use Rattle.lq_solving.specs.Kept.{IsStore};
ghost use Rattle.lq_evars.specs.Places.{HasStore, store_of};
ghost use Rattle.lq_elab.specs.Calls.{ValuesStand};
ghost use Rattle.lq_elab.specs.States.{HasGiven, givens_of};
ghost use Rattle.lq_tactics.specs.Rows.{Scene, ended};
ghost use Rattle.lq_tactics.specs.Primitives.{do_cut};
ghost use Rattle.lq_tactics.proofs.RowsKept.{IsReached};
ghost use Rattle.lq_prims.specs.Building.{built_done, cut_work};
ghost use Rattle.lq_prims.specs.Leaving.{Leaves};
ghost use Rattle.lq_prims.specs.Making.{HasIn, IsIn};
ghost use Rattle.lq_prims.specs.Scenes.{IsPlaced, scene_in, step_by};
ghost use Rattle.lq_prims.specs.Working.{Does};

use crate::building::{Built, both, given};
use crate::faults::PrimFault;
use crate::new_goals::{NewGoal, new_goal_term};
use crate::terms::term_of;
use crate::unifying::copied;
use lq_ast::Surface;
use lq_elab::Given;
use lq_env::Env;
use lq_evars::Store;
use lq_terms::{Bank, Context, NameId, NoMemory, Node, Steps, TermId, Work};
use std::sync::ledger::Ledger;

/// A product that its rest does not look at.
pub(crate) fn arrow(bank: &mut Bank<'_>, domain: TermId, rest: TermId) -> Result<TermId, NoMemory>
    requires domain { HasTerm bank.old domain }
    requires rest { HasTerm bank.old rest }
    ensures is { IfOk result (λ t. IsTerm bank.new t (Prod [] (tree_of bank.old domain) (tree_of bank.old rest))) }
    ensures grows { Grows bank.old bank.new }
{
    let anonymous = bank.name("")?;
    bank.make(Node::Prod(anonymous, domain, rest))
}

/// A goal applied to another.
fn applied(bank: &mut Bank<'_>, function: NewGoal, argument: NewGoal) -> Result<Built, NoMemory>
    requires function { HasTerm bank.old function.term }
    requires argument { HasTerm bank.old argument.term }
    ensures body { IfOk result (λ b. IsTerm bank.new b.body (App (tree_of bank.old function.term) (tree_of bank.old argument.term))) }
    ensures goals { IfOk result (λ b. b.goals.items ≡ function.goal ∷ argument.goal ∷ []) }
    ensures grows { Grows bank.old bank.new }
{
    let goals = both(bank.allocator(), function.goal, argument.goal)?;
    match bank.make(Node::App(function.term, argument.term)) {
        Ok(body) => Ok(Built { body, goals }),
        Err(fault) => Err(fault),
    }
}

/// The two goals of `cut`, in a context of its goal, and what they are put together to.
fn cut_goals<L: Ledger>(
    work: &mut Work<'_, '_>,
    store: &mut Store,
    context: &Context,
    kind: TermId,
    term: TermId,
    steps: &mut Steps<L>,
) -> Result<Built, PrimFault>
    requires place { IsIn work.old.bank.now store.old context.now }
    requires kind { HasIn work.old.bank.now store.old context.now kind }
    requires term { HasIn work.old.bank.now store.old context.now term }
    ensures answer { (c : ℕ → Scene) → ((n : ℕ) → (c n).bound ≡ n) → Does work.new.bank.now (built_done work.new.bank.now store.new) result
        (λ n. cut_work (c n) (store_of work.old.bank.now store.old) (context_of work.old.bank.now context.now) (tree_of work.old.bank.now kind)
        (tree_of work.old.bank.now term)) work.old.ticks.now.left work.new.ticks.now.left }
    ensures body { IfOk result (λ b. HasTerm work.new.bank.now b.body) }
    ensures has { OnOk result (HasStore work.new.bank.now store.new) }
    ensures same_bank { work.new.bank.ghost_name ≡ work.old.bank.ghost_name }
    ensures same_ticks { work.new.ticks.ghost_name ≡ work.old.ticks.ghost_name }
    ensures grows { Grows work.old.bank.now work.new.bank.now }
    ensures budget { work.new.ticks.now.left + work.new.ticks.now.spent ≡ work.old.ticks.now.left + work.old.ticks.now.spent }
    ensures counted { steps.new + work.old.ticks.now.spent ≡ steps.old + work.new.ticks.now.spent }
{
    let product = match arrow(work.bank, term, kind) {
        Ok(product) => product,
        Err(_) => return Err(PrimFault::NoMemory),
    };
    match new_goal_term(work, store, context, product, steps) {
        Ok(function) => match new_goal_term(work, store, context, term, steps) {
            Ok(argument) => match applied(work.bank, function, argument) {
                Ok(built) => Ok(built),
                Err(_) => Err(PrimFault::NoMemory),
            },
            Err(fault) => Err(fault),
        },
        Err(fault) => Err(fault),
    }
}

/// What `cut` builds: a function from the term to the goal's type, and an argument.
fn do_cut<L: Ledger>(
    work: &mut Work<'_, '_>,
    env: &Env,
    store: &mut Store,
    goal: u32,
    kind: TermId,
    values: &[(NameId, Given)],
    term: &Surface,
    steps: &mut Steps<L>,
) -> Result<Built, PrimFault>
    requires placed { IsPlaced work.old.bank.now env.now store.old goal kind }
    requires values { AllByRecursion (HasGiven work.old.bank.now) values.now }
    requires values_stand { ValuesStand (store_of work.old.bank.now store.old) (givens_of work.old.bank.now values.now) }
    ensures answer { Does work.new.bank.now (built_done work.new.bank.now store.new) result
        (λ n. do_cut (scene_in work.old.bank.now env.now store.old goal kind (givens_of work.old.bank.now values.now) n) (plain term.now))
        work.old.ticks.now.left work.new.ticks.now.left }
    ensures body { IfOk result (λ b. HasTerm work.new.bank.now b.body) }
    ensures has { OnOk result (HasStore work.new.bank.now store.new) }
    ensures reached { IfOk result (λ b. IsReached (scene_in work.old.bank.now env.now store.old goal kind [] 0) (built_done work.new.bank.now store.new b)) }
    ensures same_bank { work.new.bank.ghost_name ≡ work.old.bank.ghost_name }
    ensures same_ticks { work.new.ticks.ghost_name ≡ work.old.ticks.ghost_name }
    ensures grows { Grows work.old.bank.now work.new.bank.now }
    ensures budget { work.new.ticks.now.left + work.new.ticks.now.spent ≡ work.old.ticks.now.left + work.old.ticks.now.spent }
    ensures counted { steps.new + work.old.ticks.now.spent ≡ steps.old + work.new.ticks.now.spent }
{
    let context = match copied(work.bank.allocator(), store.context(goal)) {
        Ok(context) => context,
        Err(_) => return Err(PrimFault::NoMemory),
    };
    match term_of(work, env, store, goal, values, term, None, steps) {
        Ok(found) => cut_goals(work, store, &context, kind, found.term, steps),
        Err(fault) => Err(fault),
    }
}

/// `cut`: the goal gets two new ones, a function from the term to its type, and an argument of the function; the term need not be a type.
/// The refusals of `lq_elab::elaborate` come in `PrimFault::Elab`.
pub(crate) fn cut<L: Ledger>(
    work: &mut Work<'_, '_>,
    env: &Env,
    store: &mut Store,
    goal: u32,
    kind: TermId,
    values: &[(NameId, Given)],
    term: &Surface,
    steps: &mut Steps<L>,
) -> Result<Vec<u32>, PrimFault>
    requires placed { IsPlaced work.old.bank.now env.now store.old goal kind }
    requires values { AllByRecursion (HasGiven work.old.bank.now) values.now }
    requires values_stand { ValuesStand (store_of work.old.bank.now store.old) (givens_of work.old.bank.now values.now) }
    ensures answer { Does work.new.bank.now (λ v. step_by (store_of work.new.bank.now store.new) v.items) result
        (λ n. ended (scene_in work.old.bank.now env.now store.old goal kind (givens_of work.old.bank.now values.now) n)
        (do_cut (scene_in work.old.bank.now env.now store.old goal kind (givens_of work.old.bank.now values.now) n) (plain term.now)))
        work.old.ticks.now.left work.new.ticks.now.left }
    ensures leaves { IfOk result (λ v. Leaves (store_of work.old.bank.now store.old) goal (store_of work.new.bank.now store.new) v.items) }
    ensures has { OnOk result (HasStore work.new.bank.now store.new) }
    ensures kept { OnOk result (IsStore (store_of work.new.bank.now store.new)) }
    ensures same_bank { work.new.bank.ghost_name ≡ work.old.bank.ghost_name }
    ensures same_ticks { work.new.ticks.ghost_name ≡ work.old.ticks.ghost_name }
    ensures grows { Grows work.old.bank.now work.new.bank.now }
    ensures budget { work.new.ticks.now.left + work.new.ticks.now.spent ≡ work.old.ticks.now.left + work.old.ticks.now.spent }
    ensures counted { steps.new + work.old.ticks.now.spent ≡ steps.old + work.new.ticks.now.spent }
{
    match do_cut(work, env, store, goal, kind, values, term, steps) {
        Ok(built) => given(work.bank, store, goal, built),
        Err(fault) => Err(fault),
    }
}
