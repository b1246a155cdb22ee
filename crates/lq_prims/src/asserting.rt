//! `assert` (Rocq reference manual, "Tactics").

ghost use Rattle.std.specs.Prelude.{◌≡◌, ◌+◌, ◌∷◌, [], ℕ, false, IfOk, OnOk};
ghost use Rattle.std.specs.List.{AllByRecursion};
ghost use Rattle.lq_trees.specs.Tree.{Tree};
ghost use Rattle.lq_trees.specs.Tree.Tree.{App, Lam};
ghost use Rattle.lq_trees.specs.Fresh.{is_listed};
ghost use Rattle.lq_ast.specs.Plain.{plain};
ghost use Rattle.lq_terms.specs.Contexts.{context_of};
ghost use Rattle.lq_terms.specs.Terms.{HasName, HasTerm, IsTerm, text_of, tree_of, Grows};
ghost use Rattle.lq_env.specs.Environments.{env_of};
ghost use Rattle.lq_solving.specs.Kept.{IsStore};
ghost use Rattle.lq_solving.specs.Elaboration.{found};
ghost use Rattle.lq_solving.specs.Stores.{names_in};
ghost use Rattle.lq_evars.specs.Places.{HasStore, store_of};
ghost use Rattle.lq_elab.specs.Calls.{IsElaborated, ValuesStand};
ghost use Rattle.lq_elab.specs.States.{HasGiven, givens_of};
ghost use Rattle.lq_tactics.specs.Rows.{Scene, ended};
ghost use Rattle.lq_tactics.specs.Primitives.{do_assert, type_term};
ghost use Rattle.lq_tactics.proofs.RowsKept.{IsReached};
ghost use Rattle.lq_prims.specs.Building.{assert_work, built_done};
ghost use Rattle.lq_prims.specs.Leaving.{Leaves};
ghost use Rattle.lq_prims.specs.Making.{HasIn, IsIn};
ghost use Rattle.lq_prims.specs.Scenes.{IsDeclared, IsGoal, IsPlaced, context_at, scene_by, scene_in, step_by};
ghost use Rattle.lq_prims.specs.Working.{Does};

use crate::behind::new_goal_behind;
use crate::building::{Built, both, given};
use crate::faults::PrimFault;
use crate::naming::unused;
use crate::new_goals::{NewGoal, new_goal_term};
use crate::terms::term_of;
use crate::unifying::copied;
use lq_ast::Surface;
use lq_elab::{Elaborated, Given, sort_of};
use lq_env::Env;
use lq_evars::Store;
use lq_terms::{Bank, Context, Hypothesis, NameId, NoMemory, Node, Steps, TermId, Work};
use std::sync::ledger::Ledger;

/// A written term that must be a type, elaborated in a goal's context.
fn type_term<L: Ledger>(
    work: &mut Work<'_, '_>,
    env: &Env,
    store: &mut Store,
    goal: u32,
    values: &[(NameId, Given)],
    term: &Surface,
    steps: &mut Steps<L>,
) -> Result<Elaborated, PrimFault>
    requires declared { IsDeclared work.old.bank.now env.now }
    requires place { IsGoal work.old.bank.now store.old goal }
    requires values { AllByRecursion (HasGiven work.old.bank.now) values.now }
    requires values_stand { ValuesStand (store_of work.old.bank.now store.old) (givens_of work.old.bank.now values.now) }
    ensures answer { (T : Tree) → Does work.new.bank.now
        (λ e. found (store_of work.new.bank.now store.new) (tree_of work.new.bank.now e.term) (tree_of work.new.bank.now e.kind)) result
        (λ n. type_term (scene_by (env_of work.old.bank.now env.now) (store_of work.old.bank.now store.old) goal
        (context_at (store_of work.old.bank.now store.old) goal) T (givens_of work.old.bank.now values.now) n)
        (plain term.now)) work.old.ticks.now.left work.new.ticks.now.left }
    ensures stands { IfOk result (IsElaborated work.new.bank.now (store_of work.old.bank.now store.old) store.new
        (context_at (store_of work.old.bank.now store.old) goal)) }
    ensures same_bank { work.new.bank.ghost_name ≡ work.old.bank.ghost_name }
    ensures same_ticks { work.new.ticks.ghost_name ≡ work.old.ticks.ghost_name }
    ensures grows { Grows work.old.bank.now work.new.bank.now }
    ensures budget { work.new.ticks.now.left + work.new.ticks.now.spent ≡ work.old.ticks.now.left + work.old.ticks.now.spent }
    ensures counted { steps.new + work.old.ticks.now.spent ≡ steps.old + work.new.ticks.now.spent }
{
    let context = match copied(work.bank.allocator(), store.context(goal)) {
        Ok(context) => context,
        Err(_) => return Err(PrimFault::NoMemory),
    };
    match term_of(work, env, store, goal, values, term, None, steps) {
        Ok(found) => match sort_of(work, env, store, &context, found.kind, steps) {
            Ok(_sort) => Ok(found),
            Err(fault) => Err(PrimFault::from(fault)),
        },
        Err(fault) => Err(fault),
    }
}

/// A function of a hypothesis, applied to a proof of its type.
fn applied(
    bank: &mut Bank<'_>,
    name: NameId,
    kind: TermId,
    rest: NewGoal,
    argument: NewGoal,
) -> Result<Built, NoMemory>
    requires name { HasName bank.old name }
    requires kind { HasTerm bank.old kind }
    requires rest { HasTerm bank.old rest.term }
    requires argument { HasTerm bank.old argument.term }
    ensures body { IfOk result (λ b. IsTerm bank.new b.body (App (Lam (text_of bank.old name) (tree_of bank.old kind) (tree_of bank.old rest.term))
        (tree_of bank.old argument.term))) }
    ensures goals { IfOk result (λ b. b.goals.items ≡ argument.goal ∷ rest.goal ∷ []) }
    ensures grows { Grows bank.old bank.new }
{
    let goals = both(bank.allocator(), argument.goal, rest.goal)?;
    let function = bank.make(Node::Lam(name, kind, rest.term))?;
    match bank.make(Node::App(function, argument.term)) {
        Ok(body) => Ok(Built { body, goals }),
        Err(fault) => Err(fault),
    }
}

/// The two goals of `assert`: a proof of the type, and the goal's type behind a hypothesis of that name and type; and what they are put
/// together to.
fn assert_goals<L: Ledger>(
    work: &mut Work<'_, '_>,
    store: &mut Store,
    context: &Context,
    kind: TermId,
    name: NameId,
    term: TermId,
    steps: &mut Steps<L>,
) -> Result<Built, PrimFault>
    requires place { IsIn work.old.bank.now store.old context.now }
    requires kind { HasIn work.old.bank.now store.old context.now kind }
    requires term { HasIn work.old.bank.now store.old context.now term }
    requires name { HasName work.old.bank.now name }
    requires new { is_listed (names_in (context_of work.old.bank.now context.now)) (text_of work.old.bank.now name) ≡ false }
    ensures answer { (c : ℕ → Scene) → ((n : ℕ) → (c n).bound ≡ n) → Does work.new.bank.now (built_done work.new.bank.now store.new) result
        (λ n. assert_work (c n) (store_of work.old.bank.now store.old) (context_of work.old.bank.now context.now) (tree_of work.old.bank.now kind)
        (text_of work.old.bank.now name) (tree_of work.old.bank.now term)) work.old.ticks.now.left work.new.ticks.now.left }
    ensures body { IfOk result (λ b. HasTerm work.new.bank.now b.body) }
    ensures has { OnOk result (HasStore work.new.bank.now store.new) }
    ensures same_bank { work.new.bank.ghost_name ≡ work.old.bank.ghost_name }
    ensures same_ticks { work.new.ticks.ghost_name ≡ work.old.ticks.ghost_name }
    ensures grows { Grows work.old.bank.now work.new.bank.now }
    ensures budget { work.new.ticks.now.left + work.new.ticks.now.spent ≡ work.old.ticks.now.left + work.old.ticks.now.spent }
    ensures counted { steps.new + work.old.ticks.now.spent ≡ steps.old + work.new.ticks.now.spent }
{
    let hypothesis = Hypothesis {
        name,
        body: None,
        kind: term,
    };
    match new_goal_term(work, store, context, term, steps) {
        Ok(argument) => {
            match new_goal_behind(work, store, context, hypothesis, kind, steps) {
                Ok(rest) => match applied(work.bank, name, term, rest, argument) {
                    Ok(built) => Ok(built),
                    Err(_) => Err(PrimFault::NoMemory),
                },
                Err(fault) => Err(fault),
            }
        }
        Err(fault) => Err(fault),
    }
}

/// What `assert` builds: a function of a hypothesis of that type, and an argument.
fn do_assert<L: Ledger>(
    work: &mut Work<'_, '_>,
    env: &Env,
    store: &mut Store,
    goal: u32,
    kind: TermId,
    values: &[(NameId, Given)],
    name: NameId,
    term: &Surface,
    steps: &mut Steps<L>,
) -> Result<Built, PrimFault>
    requires placed { IsPlaced work.old.bank.now env.now store.old goal kind }
    requires values { AllByRecursion (HasGiven work.old.bank.now) values.now }
    requires values_stand { ValuesStand (store_of work.old.bank.now store.old) (givens_of work.old.bank.now values.now) }
    requires name { HasName work.old.bank.now name }
    ensures answer { Does work.new.bank.now (built_done work.new.bank.now store.new) result
        (λ n. do_assert (scene_in work.old.bank.now env.now store.old goal kind (givens_of work.old.bank.now values.now) n)
        (text_of work.old.bank.now name) (plain term.now)) work.old.ticks.now.left work.new.ticks.now.left }
    ensures body { IfOk result (λ b. HasTerm work.new.bank.now b.body) }
    ensures has { OnOk result (HasStore work.new.bank.now store.new) }
    ensures reached { IfOk result (λ b. IsReached (scene_in work.old.bank.now env.now store.old goal kind [] 0) (built_done work.new.bank.now store.new b)) }
    ensures same_bank { work.new.bank.ghost_name ≡ work.old.bank.ghost_name }
    ensures same_ticks { work.new.ticks.ghost_name ≡ work.old.ticks.ghost_name }
    ensures grows { Grows work.old.bank.now work.new.bank.now }
    ensures budget { work.new.ticks.now.left + work.new.ticks.now.spent ≡ work.old.ticks.now.left + work.old.ticks.now.spent }
    ensures counted { steps.new + work.old.ticks.now.spent ≡ steps.old + work.new.ticks.now.spent }
{
    let context = match copied(work.bank.allocator(), store.context(goal)) {
        Ok(context) => context,
        Err(_) => return Err(PrimFault::NoMemory),
    };
    match type_term(work, env, store, goal, values, term, steps) {
        Ok(found) => match unused(work.bank, context.hypotheses(), name) {
            Ok(()) => assert_goals(work, store, &context, kind, name, found.term, steps),
            Err(fault) => Err(fault),
        },
        Err(fault) => Err(fault),
    }
}

/// `assert`: the goal gets two new ones, a proof of the type, and the goal behind a hypothesis of that name and type. It is refused as
/// `NameInUse` where a hypothesis has the name; the refusals of `lq_elab::elaborate`, and `NotASort` where the term is no type, come in
/// `PrimFault::Elab`.
pub(crate) fn assert<L: Ledger>(
    work: &mut Work<'_, '_>,
    env: &Env,
    store: &mut Store,
    goal: u32,
    kind: TermId,
    values: &[(NameId, Given)],
    name: NameId,
    term: &Surface,
    steps: &mut Steps<L>,
) -> Result<Vec<u32>, PrimFault>
    requires placed { IsPlaced work.old.bank.now env.now store.old goal kind }
    requires values { AllByRecursion (HasGiven work.old.bank.now) values.now }
    requires values_stand { ValuesStand (store_of work.old.bank.now store.old) (givens_of work.old.bank.now values.now) }
    requires name { HasName work.old.bank.now name }
    ensures answer { Does work.new.bank.now (λ v. step_by (store_of work.new.bank.now store.new) v.items) result
        (λ n. ended (scene_in work.old.bank.now env.now store.old goal kind (givens_of work.old.bank.now values.now) n)
        (do_assert (scene_in work.old.bank.now env.now store.old goal kind (givens_of work.old.bank.now values.now) n)
        (text_of work.old.bank.now name) (plain term.now))) work.old.ticks.now.left work.new.ticks.now.left }
    ensures leaves { IfOk result (λ v. Leaves (store_of work.old.bank.now store.old) goal (store_of work.new.bank.now store.new) v.items) }
    ensures has { OnOk result (HasStore work.new.bank.now store.new) }
    ensures kept { OnOk result (IsStore (store_of work.new.bank.now store.new)) }
    ensures same_bank { work.new.bank.ghost_name ≡ work.old.bank.ghost_name }
    ensures same_ticks { work.new.ticks.ghost_name ≡ work.old.ticks.ghost_name }
    ensures grows { Grows work.old.bank.now work.new.bank.now }
    ensures budget { work.new.ticks.now.left + work.new.ticks.now.spent ≡ work.old.ticks.now.left + work.old.ticks.now.spent }
    ensures counted { steps.new + work.old.ticks.now.spent ≡ steps.old + work.new.ticks.now.spent }
{
    match do_assert(work, env, store, goal, kind, values, name, term, steps) {
        Ok(built) => given(work.bank, store, goal, built),
        Err(fault) => Err(fault),
    }
}
