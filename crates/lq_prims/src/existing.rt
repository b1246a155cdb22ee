//! `exists` (Rocq reference manual, "Tactics").

ghost use Rattle.std.specs.Prelude.{◌≡◌, ◌+◌, [], IfOk, OnOk};
ghost use Rattle.std.specs.List.{AllByRecursion};
ghost use Rattle.lq_trees.specs.Change.{subst};
ghost use Rattle.lq_trees.specs.Hypotheses.{HoldsOnly};
ghost use Rattle.lq_trees.specs.Index.{Within};
ghost use Rattle.lq_trees.specs.Tree.{Tree};
ghost use Rattle.lq_trees.specs.Tree.Tree.{App};
ghost use Rattle.lq_ast.specs.Plain.{plain};
ghost use Rattle.lq_terms.specs.Contexts.{HasContext, context_of};
ghost use Rattle.lq_terms.specs.Terms.{HasTerm, IsTerm, tree_of, Grows};
ghost use Rattle.lq_env.specs.Environments.{env_of};
ghost use Rattle.lq_solving.specs.Kept.{IsStore};
ghost use Rattle.lq_solving.specs.Stores.{names_in};
ghost use Rattle.lq_solving.specs.Elaboration.{Givens};
ghost use Rattle.lq_solving.proofs.ElabKept.{Grown};
ghost use Rattle.lq_evars.specs.Places.{HasStore, store_of};
ghost use Rattle.lq_elab.specs.Calls.{ValuesStand};
ghost use Rattle.lq_elab.specs.States.{HasGiven, givens_of};
ghost use Rattle.lq_tactics.specs.Primitives.{do_exists, exists_found};
ghost use Rattle.lq_tactics.specs.Rows.{Scene, ended};
ghost use Rattle.lq_tactics.proofs.RowsKept.{IsReached};
ghost use Rattle.lq_prims.specs.Building.{built_done};
ghost use Rattle.lq_prims.specs.Existing.{single_work, only_work, argument_work, exists_work, IsFunction, TakesArgument};
ghost use Rattle.lq_prims.specs.Inductives.{inductive_by, found_by, HasInductive, HasTyped};
ghost use Rattle.lq_prims.specs.Leaving.{Leaves};
ghost use Rattle.lq_prims.specs.Making.{HasIn, IsIn};
ghost use Rattle.lq_prims.specs.Scenes.{IsDeclared, IsGoal, IsPlaced, context_at, scene_by, scene_in, step_by};
ghost use Rattle.lq_prims.specs.Working.{Does, Tells};

use crate::applying::apply_found;
use crate::binders::{Binder, binder_of};
use crate::building::{Built, given};
use crate::faults::PrimFault;
use crate::inductives::{Inductive, Typed, constructor_found, goal_inductive, has_number};
use crate::rooms::has_room;
use crate::terms::term_of;
use crate::unifying::copied;
use lq_ast::Surface;
use lq_elab::{Given, filled};
use lq_env::Env;
use lq_evars::Store;
use lq_terms::{Bank, Context, NameId, NoMemory, Node, Steps, TermId, Work};
use std::sync::ledger::Ledger;

/// The only constructor of an inductive type, at the type's parameters, with its type there.
fn only_of(bank: &mut Bank<'_>, inductive: &Inductive<'_>) -> Result<Typed, PrimFault>
    requires inductive { HasInductive bank.old inductive.now }
    ensures answer { (c : Scene) → Tells bank.new (found_by bank.new c.store) result (single_work c (inductive_by bank.old inductive.now)) }
    ensures has { IfOk result (HasTyped bank.new) }
    ensures grows { Grows bank.old bank.new }
{
    match has_number(bank, inductive, 1) {
        Ok(()) => constructor_found(bank, inductive, 0),
        Err(fault) => Err(fault),
    }
}

/// The only constructor of the goal's type, with its type there, which is as it reads.
fn only_constructor<L: Ledger>(
    work: &mut Work<'_, '_>,
    env: &Env,
    store: &Store,
    goal: u32,
    kind: TermId,
    steps: &mut Steps<L>,
) -> Result<Typed, PrimFault>
    requires placed { IsPlaced work.old.bank.now env.now store.now goal kind }
    ensures answer { (vs : Givens) → Does work.new.bank.now (found_by work.new.bank.now (store_of work.old.bank.now store.now)) result
        (λ n. only_work (scene_in work.old.bank.now env.now store.now goal kind vs n)) work.old.ticks.now.left work.new.ticks.now.left }
    ensures stands { IfOk result (IsFunction work.new.bank.now store.now (context_at (store_of work.new.bank.now store.now) goal)) }
    ensures same_bank { work.new.bank.ghost_name ≡ work.old.bank.ghost_name }
    ensures same_ticks { work.new.ticks.ghost_name ≡ work.old.ticks.ghost_name }
    ensures grows { Grows work.old.bank.now work.new.bank.now }
    ensures budget { work.new.ticks.now.left + work.new.ticks.now.spent ≡ work.old.ticks.now.left + work.old.ticks.now.spent }
    ensures counted { steps.new + work.old.ticks.now.spent ≡ steps.old + work.new.ticks.now.spent }
{
    match goal_inductive(work, env, store, goal, kind, steps) {
        Ok(inductive) => only_of(work.bank, &inductive),
        Err(fault) => Err(fault),
    }
}

/// A function applied to an argument, with what is left of its type, which is a product with that rest.
fn applied_once(
    bank: &mut Bank<'_>,
    context: &Context,
    function: TermId,
    rest: TermId,
    argument: TermId,
) -> Result<Typed, NoMemory>
    requires context { HasContext bank.old context.now }
    requires function { HasTerm bank.old function }
    requires rest { HasTerm bank.old rest }
    requires within { Within 1 (tree_of bank.old rest) }
    requires holds { HoldsOnly (names_in (context_of bank.old context.now)) (tree_of bank.old rest) }
    requires argument { HasTerm bank.old argument }
    requires closed { Within 0 (tree_of bank.old argument) }
    ensures term { IfOk result (λ f. IsTerm bank.new f.term (App (tree_of bank.old function) (tree_of bank.old argument))) }
    ensures kind { IfOk result (λ f. IsTerm bank.new f.kind (subst (tree_of bank.old argument) (tree_of bank.old rest))) }
    ensures grows { Grows bank.old bank.new }
{
    let kind = filled(bank, context.hypotheses(), rest, argument)?;
    let term = bank.make(Node::App(function, argument))?;
    Ok(Typed { term, kind })
}

/// A function applied to a written term, for which the domain of its type is wanted; with what is left of its type.
fn with_argument<L: Ledger>(
    work: &mut Work<'_, '_>,
    env: &Env,
    store: &mut Store,
    goal: u32,
    context: &Context,
    values: &[(NameId, Given)],
    function: TermId,
    domain: TermId,
    rest: TermId,
    term: &Surface,
    steps: &mut Steps<L>,
) -> Result<Typed, PrimFault>
    requires declared { IsDeclared work.old.bank.now env.now }
    requires goal { IsGoal work.old.bank.now store.old goal }
    requires place { IsIn work.old.bank.now store.old context.now }
    requires same { context_of work.old.bank.now context.now ≡ context_at (store_of work.old.bank.now store.old) goal }
    requires values { AllByRecursion (HasGiven work.old.bank.now) values.now }
    requires values_stand { ValuesStand (store_of work.old.bank.now store.old) (givens_of work.old.bank.now values.now) }
    requires takes { TakesArgument work.old.bank.now store.old context.now function domain rest }
    ensures answer { (T : Tree) → Does work.new.bank.now (found_by work.new.bank.now (store_of work.new.bank.now store.new)) result
        (λ n. argument_work (scene_by (env_of work.old.bank.now env.now) (store_of work.old.bank.now store.old) goal
        (context_at (store_of work.old.bank.now store.old) goal) T (givens_of work.old.bank.now values.now) n)
        (plain term.now) (tree_of work.old.bank.now function) (tree_of work.old.bank.now domain) (tree_of work.old.bank.now rest))
        work.old.ticks.now.left work.new.ticks.now.left }
    ensures place { OnOk result (IsIn work.new.bank.now store.new context.now) }
    ensures grown { OnOk result (Grown (store_of work.old.bank.now store.old) (store_of work.new.bank.now store.new)) }
    ensures term { IfOk result (λ f. HasIn work.new.bank.now store.new context.now f.term) }
    ensures kind { IfOk result (λ f. HasIn work.new.bank.now store.new context.now f.kind) }
    ensures same_bank { work.new.bank.ghost_name ≡ work.old.bank.ghost_name }
    ensures same_ticks { work.new.ticks.ghost_name ≡ work.old.ticks.ghost_name }
    ensures grows { Grows work.old.bank.now work.new.bank.now }
    ensures budget { work.new.ticks.now.left + work.new.ticks.now.spent ≡ work.old.ticks.now.left + work.old.ticks.now.spent }
    ensures counted { steps.new + work.old.ticks.now.spent ≡ steps.old + work.new.ticks.now.spent }
{
    match term_of(work, env, store, goal, values, term, Some(domain), steps) {
        Ok(argument) => match applied_once(work.bank, context, function, rest, argument.term) {
            Ok(found) => Ok(found),
            Err(_) => Err(PrimFault::NoMemory),
        },
        Err(fault) => Err(fault),
    }
}

/// A function applied to a written term, with what is left of its type. It is refused as `NoArgument` where its type, as it stands, is no
/// product.
fn exists_found<L: Ledger>(
    work: &mut Work<'_, '_>,
    env: &Env,
    store: &mut Store,
    goal: u32,
    context: &Context,
    values: &[(NameId, Given)],
    function: Typed,
    term: &Surface,
    steps: &mut Steps<L>,
) -> Result<Typed, PrimFault>
    requires declared { IsDeclared work.old.bank.now env.now }
    requires goal { IsGoal work.old.bank.now store.old goal }
    requires place { IsIn work.old.bank.now store.old context.now }
    requires same { context_of work.old.bank.now context.now ≡ context_at (store_of work.old.bank.now store.old) goal }
    requires values { AllByRecursion (HasGiven work.old.bank.now) values.now }
    requires values_stand { ValuesStand (store_of work.old.bank.now store.old) (givens_of work.old.bank.now values.now) }
    requires function { IsFunction work.old.bank.now store.old (context_of work.old.bank.now context.now) function }
    ensures answer { (T : Tree) → Does work.new.bank.now (found_by work.new.bank.now (store_of work.new.bank.now store.new)) result
        (λ n. exists_found (scene_by (env_of work.old.bank.now env.now) (store_of work.old.bank.now store.old) goal
        (context_at (store_of work.old.bank.now store.old) goal) T (givens_of work.old.bank.now values.now) n)
        (plain term.now) (found_by work.old.bank.now (store_of work.old.bank.now store.old) function) (tree_of work.old.bank.now function.kind))
        work.old.ticks.now.left work.new.ticks.now.left }
    ensures place { OnOk result (IsIn work.new.bank.now store.new context.now) }
    ensures grown { OnOk result (Grown (store_of work.old.bank.now store.old) (store_of work.new.bank.now store.new)) }
    ensures term { IfOk result (λ f. HasIn work.new.bank.now store.new context.now f.term) }
    ensures kind { IfOk result (λ f. HasIn work.new.bank.now store.new context.now f.kind) }
    ensures same_bank { work.new.bank.ghost_name ≡ work.old.bank.ghost_name }
    ensures same_ticks { work.new.ticks.ghost_name ≡ work.old.ticks.ghost_name }
    ensures grows { Grows work.old.bank.now work.new.bank.now }
    ensures budget { work.new.ticks.now.left + work.new.ticks.now.spent ≡ work.old.ticks.now.left + work.old.ticks.now.spent }
    ensures counted { steps.new + work.old.ticks.now.spent ≡ steps.old + work.new.ticks.now.spent }
{
    match binder_of(work.bank, function.kind) {
        Some(Binder::Product(_name, domain, rest)) => with_argument(
            work,
            env,
            store,
            goal,
            context,
            values,
            function.term,
            domain,
            rest,
            term,
            steps,
        ),
        Some(Binder::Definition(_name, _value, _kind, _rest)) => Err(PrimFault::NoArgument),
        None => Err(PrimFault::NoArgument),
    }
}

/// What a function builds that is applied to a written term, and then to the premises that are left.
fn exists_of<L: Ledger>(
    work: &mut Work<'_, '_>,
    env: &Env,
    store: &mut Store,
    goal: u32,
    kind: TermId,
    values: &[(NameId, Given)],
    function: Typed,
    term: &Surface,
    steps: &mut Steps<L>,
) -> Result<Built, PrimFault>
    requires placed { IsPlaced work.old.bank.now env.now store.old goal kind }
    requires values { AllByRecursion (HasGiven work.old.bank.now) values.now }
    requires values_stand { ValuesStand (store_of work.old.bank.now store.old) (givens_of work.old.bank.now values.now) }
    requires function { IsFunction work.old.bank.now store.old (context_at (store_of work.old.bank.now store.old) goal) function }
    ensures answer { Does work.new.bank.now (built_done work.new.bank.now store.new) result
        (λ n. exists_work (scene_in work.old.bank.now env.now store.old goal kind (givens_of work.old.bank.now values.now) n) (plain term.now)
        (found_by work.old.bank.now (store_of work.old.bank.now store.old) function)) work.old.ticks.now.left work.new.ticks.now.left }
    ensures body { IfOk result (λ b. HasTerm work.new.bank.now b.body) }
    ensures has { OnOk result (HasStore work.new.bank.now store.new) }
    ensures reached { IfOk result (λ b. IsReached (scene_in work.old.bank.now env.now store.old goal kind [] 0) (built_done work.new.bank.now store.new b)) }
    ensures same_bank { work.new.bank.ghost_name ≡ work.old.bank.ghost_name }
    ensures same_ticks { work.new.ticks.ghost_name ≡ work.old.ticks.ghost_name }
    ensures grows { Grows work.old.bank.now work.new.bank.now }
    ensures budget { work.new.ticks.now.left + work.new.ticks.now.spent ≡ work.old.ticks.now.left + work.old.ticks.now.spent }
    ensures counted { steps.new + work.old.ticks.now.spent ≡ steps.old + work.new.ticks.now.spent }
{
    has_room(store, goal);
    let context = match copied(work.bank.allocator(), store.context(goal)) {
        Ok(context) => context,
        Err(_) => return Err(PrimFault::NoMemory),
    };
    let before = store.count();
    match exists_found(
        work, env, store, goal, &context, values, function, term, steps,
    ) {
        Ok(found) => apply_found(
            work, env, store, &context, kind, found.term, found.kind, true, before, steps,
        ),
        Err(fault) => Err(fault),
    }
}

/// What `exists` builds: the only constructor of the goal's type, applied to the term and to the premises that are left.
fn do_exists<L: Ledger>(
    work: &mut Work<'_, '_>,
    env: &Env,
    store: &mut Store,
    goal: u32,
    kind: TermId,
    values: &[(NameId, Given)],
    term: &Surface,
    steps: &mut Steps<L>,
) -> Result<Built, PrimFault>
    requires placed { IsPlaced work.old.bank.now env.now store.old goal kind }
    requires values { AllByRecursion (HasGiven work.old.bank.now) values.now }
    requires values_stand { ValuesStand (store_of work.old.bank.now store.old) (givens_of work.old.bank.now values.now) }
    ensures answer { Does work.new.bank.now (built_done work.new.bank.now store.new) result
        (λ n. do_exists (scene_in work.old.bank.now env.now store.old goal kind (givens_of work.old.bank.now values.now) n) (plain term.now))
        work.old.ticks.now.left work.new.ticks.now.left }
    ensures body { IfOk result (λ b. HasTerm work.new.bank.now b.body) }
    ensures has { OnOk result (HasStore work.new.bank.now store.new) }
    ensures reached { IfOk result (λ b. IsReached (scene_in work.old.bank.now env.now store.old goal kind [] 0) (built_done work.new.bank.now store.new b)) }
    ensures same_bank { work.new.bank.ghost_name ≡ work.old.bank.ghost_name }
    ensures same_ticks { work.new.ticks.ghost_name ≡ work.old.ticks.ghost_name }
    ensures grows { Grows work.old.bank.now work.new.bank.now }
    ensures budget { work.new.ticks.now.left + work.new.ticks.now.spent ≡ work.old.ticks.now.left + work.old.ticks.now.spent }
    ensures counted { steps.new + work.old.ticks.now.spent ≡ steps.old + work.new.ticks.now.spent }
{
    match only_constructor(work, env, store, goal, kind, steps) {
        Ok(function) => exists_of(work, env, store, goal, kind, values, function, term, steps),
        Err(fault) => Err(fault),
    }
}

/// `exists`: the goal's type has one constructor, which takes an argument; the goal's body is that constructor at the type's parameters,
/// applied to the term and then, as by `apply`, to new variables for the premises that are left; those without a value are the new goals, in
/// order. It is refused as `NotInductive` where the weak head form of the goal's type is no inductive type, as `WrongNumber` where that has
/// another number of constructors, as `NoArgument` where the constructor takes no argument, as `CannotApply` where the rest unifies with the
/// goal's type for no number of premises, and as `NotDetermined` where a variable stays without a value on which a premise or the rest
/// depends. The refusals of `lq_elab::elaborate` come in `PrimFault::Elab`.
pub(crate) fn exists<L: Ledger>(
    work: &mut Work<'_, '_>,
    env: &Env,
    store: &mut Store,
    goal: u32,
    kind: TermId,
    values: &[(NameId, Given)],
    term: &Surface,
    steps: &mut Steps<L>,
) -> Result<Vec<u32>, PrimFault>
    requires placed { IsPlaced work.old.bank.now env.now store.old goal kind }
    requires values { AllByRecursion (HasGiven work.old.bank.now) values.now }
    requires values_stand { ValuesStand (store_of work.old.bank.now store.old) (givens_of work.old.bank.now values.now) }
    ensures answer { Does work.new.bank.now (λ v. step_by (store_of work.new.bank.now store.new) v.items) result
        (λ n. ended (scene_in work.old.bank.now env.now store.old goal kind (givens_of work.old.bank.now values.now) n)
        (do_exists (scene_in work.old.bank.now env.now store.old goal kind (givens_of work.old.bank.now values.now) n) (plain term.now)))
        work.old.ticks.now.left work.new.ticks.now.left }
    ensures leaves { IfOk result (λ v. Leaves (store_of work.old.bank.now store.old) goal (store_of work.new.bank.now store.new) v.items) }
    ensures has { OnOk result (HasStore work.new.bank.now store.new) }
    ensures kept { OnOk result (IsStore (store_of work.new.bank.now store.new)) }
    ensures same_bank { work.new.bank.ghost_name ≡ work.old.bank.ghost_name }
    ensures same_ticks { work.new.ticks.ghost_name ≡ work.old.ticks.ghost_name }
    ensures grows { Grows work.old.bank.now work.new.bank.now }
    ensures budget { work.new.ticks.now.left + work.new.ticks.now.spent ≡ work.old.ticks.now.left + work.old.ticks.now.spent }
    ensures counted { steps.new + work.old.ticks.now.spent ≡ steps.old + work.new.ticks.now.spent }
{
    match do_exists(work, env, store, goal, kind, values, term, steps) {
        Ok(built) => given(work.bank, store, goal, built),
        Err(fault) => Err(fault),
    }
}
