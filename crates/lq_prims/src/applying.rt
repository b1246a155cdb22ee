//! `apply` and `eapply` (Rocq reference manual, "Tactics").

ghost use Rattle.std.specs.Prelude.{◌≡◌, ◌+◌, ◌∷◌, [], ℕ, true, false, IfOk, OnOk};
ghost use Rattle.std.specs.List.{AllByRecursion};
ghost use Rattle.lq_trees.specs.Ticks.{gives};
ghost use Rattle.lq_trees.specs.Tree.{Tree};
ghost use Rattle.lq_ast.specs.Plain.{plain};
ghost use Rattle.lq_terms.specs.Contexts.{context_of};
ghost use Rattle.lq_terms.specs.Terms.{HasTerm, tree_of, Grows};
ghost use Rattle.lq_env.specs.Environments.{env_of};
ghost use Rattle.lq_solving.specs.Kept.{IsOver, IsStore};
ghost use Rattle.lq_solving.specs.Stores.{Store as TreeStore, count, read};
ghost use Rattle.lq_solving.specs.Elaboration.{Givens, found};
ghost use Rattle.lq_trees.specs.Index.{Within};
ghost use Rattle.lq_evars.specs.Places.{HasStore, store_of};
ghost use Rattle.lq_elab.specs.Calls.{ValuesStand};
ghost use Rattle.lq_elab.specs.States.{HasGiven, givens_of};
ghost use Rattle.lq_tactics.specs.Applying.{apply_found, do_apply};
ghost use Rattle.lq_tactics.specs.Rows.{Done, Scene, cannot_apply, ended, needed, told};
ghost use Rattle.lq_tactics.proofs.RowsKept.{IsReached};
ghost use Rattle.lq_prims.specs.Applied.{applied_work, chosen_work};
ghost use Rattle.lq_prims.specs.Building.{built_done};
ghost use Rattle.lq_prims.specs.Leaving.{Leaves};
ghost use Rattle.lq_prims.specs.Making.{HasIn, IsIn};
ghost use Rattle.lq_prims.specs.Opening.{Carries, HasFurther, HasOpening, choice_of, opening_of};
ghost use Rattle.lq_prims.specs.Scenes.{IsDeclared, IsPlaced, scene_by, scene_in, step_by};
ghost use Rattle.lq_prims.specs.Working.{Does, Refuses};

use crate::building::{Built, given};
use crate::faults::PrimFault;
use crate::needing::needed;
use crate::opening::{Opening, chosen, opened};
use crate::premises::left_of;
use crate::rooms::has_room;
use crate::settling::as_goals;
use crate::terms::term_of;
use crate::unifying::copied;
use lq_ast::Surface;
use lq_elab::Given;
use lq_env::Env;
use lq_evars::Store;
use lq_terms::{Bank, Context, NameId, Steps, TermId, Work};
use std::sync::ledger::Ledger;

/// What an opening builds in its store: the term applied to the premises, those without a value being goals.
fn applied_to<L: Ledger>(
    work: &mut Work<'_, '_>,
    store: &mut Store,
    context: &Context,
    opening: Opening,
    term: TermId,
    strict: bool,
    before: u32,
    steps: &mut Steps<L>,
) -> Result<Built, PrimFault>
    requires opening { HasOpening work.old.bank.now context.now opening }
    requires term { HasTerm work.old.bank.now term }
    ensures answer { (c : ℕ → Scene) → ((n : ℕ) → (c n).bound ≡ n) → ((n : ℕ) → (c n).context ≡ context_of work.old.bank.now context.now)
        → (s : TreeStore) → count s ≡ before → Does work.new.bank.now (built_done work.new.bank.now store.new) result
        (λ n. applied_work (c n) strict s (tree_of work.old.bank.now term) (opening_of work.old.bank.now opening))
        work.old.ticks.now.left work.new.ticks.now.left }
    ensures body { IfOk result (λ b. HasTerm work.new.bank.now b.body) }
    ensures has { OnOk result (HasStore work.new.bank.now store.new) }
    ensures same_bank { work.new.bank.ghost_name ≡ work.old.bank.ghost_name }
    ensures same_ticks { work.new.ticks.ghost_name ≡ work.old.ticks.ghost_name }
    ensures grows { Grows work.old.bank.now work.new.bank.now }
    ensures budget { work.new.ticks.now.left + work.new.ticks.now.spent ≡ work.old.ticks.now.left + work.old.ticks.now.spent }
    ensures counted { steps.new + work.old.ticks.now.spent ≡ steps.old + work.new.ticks.now.spent }
{
    match left_of(work.bank, context, &opening, term, strict, before) {
        Ok(built) => {
            *store = opening.store;
            match as_goals(work, store, built.goals.as_slice(), steps) {
                Ok(()) => Ok(built),
                Err(fault) => Err(fault),
            }
        }
        Err(fault) => Err(fault),
    }
}

/// The opening of a term's type whose rest unifies with a type, if there is one, with the store after that.
fn chosen_of<L: Ledger>(
    work: &mut Work<'_, '_>,
    env: &Env,
    store: &Store,
    context: &Context,
    kind: TermId,
    wanted: TermId,
    steps: &mut Steps<L>,
) -> Result<Option<Opening>, PrimFault>
    requires declared { IsDeclared work.old.bank.now env.now }
    requires place { IsIn work.old.bank.now store.now context.now }
    requires kind { HasIn work.old.bank.now store.now context.now kind }
    requires wanted { HasIn work.old.bank.now store.now context.now wanted }
    ensures answer { (s : TreeStore) (k : ℕ) (T t : Tree) (vs : Givens) → Does work.new.bank.now (choice_of work.new.bank.now) result
        (λ n. chosen_work (scene_by (env_of work.old.bank.now env.now) s k (context_of work.old.bank.now context.now) T vs n)
        (tree_of work.old.bank.now wanted) (found (store_of work.old.bank.now store.now) t (tree_of work.old.bank.now kind)))
        work.old.ticks.now.left work.new.ticks.now.left }
    ensures has { IfOk result (HasFurther work.new.bank.now context.now) }
    ensures same_bank { work.new.bank.ghost_name ≡ work.old.bank.ghost_name }
    ensures same_ticks { work.new.ticks.ghost_name ≡ work.old.ticks.ghost_name }
    ensures grows { Grows work.old.bank.now work.new.bank.now }
    ensures budget { work.new.ticks.now.left + work.new.ticks.now.spent ≡ work.old.ticks.now.left + work.old.ticks.now.spent }
    ensures counted { steps.new + work.old.ticks.now.spent ≡ steps.old + work.new.ticks.now.spent }
{
    match opened(work, env, store, context, kind, steps) {
        Ok(openings) => chosen(work, env, context, openings, wanted, steps),
        Err(fault) => Err(fault),
    }
}

/// The fault that a term does not apply to a type, which is as read: it names the term as it reads, or tells that it passes a limit.
fn not_applied(bank: &mut Bank<'_>, store: &Store, term: TermId, wanted: TermId) -> PrimFault
    requires store { HasStore bank.old store.now }
    requires kept { IsStore (store_of bank.old store.now) }
    requires term { HasTerm bank.old term }
    requires over { IsOver (store_of bank.old store.now).variables (tree_of bank.old term) }
    requires closed { Within 0 (tree_of bank.old term) }
    requires wanted { HasTerm bank.old wanted }
    requires fits { needed (tree_of bank.old wanted) ≡ gives (tree_of bank.old wanted) }
    ensures answer { (b : ℕ) → Refuses {A = Done} bank.new result
        (λ n. told (read (store_of bank.old store.now) (tree_of bank.old term) ∷ tree_of bank.old wanted ∷ [])
        (cannot_apply (read (store_of bank.old store.now) (tree_of bank.old term)) (tree_of bank.old wanted))) b b }
    ensures grows { Grows bank.old bank.new }
{
    match needed(bank, store, term) {
        Ok(read) => PrimFault::CannotApply(read, wanted),
        Err(fault) => fault,
    }
}

/// What a term with its type builds, applied to a goal's type in a context.
pub(crate) fn apply_found<L: Ledger>(
    work: &mut Work<'_, '_>,
    env: &Env,
    store: &mut Store,
    context: &Context,
    kind: TermId,
    term: TermId,
    term_kind: TermId,
    strict: bool,
    before: u32,
    steps: &mut Steps<L>,
) -> Result<Built, PrimFault>
    requires declared { IsDeclared work.old.bank.now env.now }
    requires place { IsIn work.old.bank.now store.old context.now }
    requires kind { HasIn work.old.bank.now store.old context.now kind }
    requires term { HasIn work.old.bank.now store.old context.now term }
    requires term_kind { HasIn work.old.bank.now store.old context.now term_kind }
    ensures answer { (s : TreeStore) (k : ℕ) (vs : Givens) → count s ≡ before → Does work.new.bank.now (built_done work.new.bank.now store.new) result
        (λ n. apply_found (scene_by (env_of work.old.bank.now env.now) s k (context_of work.old.bank.now context.now) (tree_of work.old.bank.now kind) vs n)
        strict (found (store_of work.old.bank.now store.old) (tree_of work.old.bank.now term) (tree_of work.old.bank.now term_kind)))
        work.old.ticks.now.left work.new.ticks.now.left }
    ensures body { IfOk result (λ b. HasTerm work.new.bank.now b.body) }
    ensures has { OnOk result (HasStore work.new.bank.now store.new) }
    ensures same_bank { work.new.bank.ghost_name ≡ work.old.bank.ghost_name }
    ensures same_ticks { work.new.ticks.ghost_name ≡ work.old.ticks.ghost_name }
    ensures grows { Grows work.old.bank.now work.new.bank.now }
    ensures budget { work.new.ticks.now.left + work.new.ticks.now.spent ≡ work.old.ticks.now.left + work.old.ticks.now.spent }
    ensures counted { steps.new + work.old.ticks.now.spent ≡ steps.old + work.new.ticks.now.spent }
{
    let wanted = match needed(work.bank, store, kind) {
        Ok(wanted) => wanted,
        Err(fault) => return Err(fault),
    };
    match chosen_of(work, env, store, context, term_kind, wanted, steps) {
        Ok(Some(opening)) => applied_to(work, store, context, opening, term, strict, before, steps),
        Ok(None) => Err(not_applied(work.bank, store, term, wanted)),
        Err(fault) => Err(fault),
    }
}

/// What `apply` builds: the term applied to the premises that its type wants, so that the rest is the goal's type; where it is strict no
/// variable stays undetermined.
fn do_apply<L: Ledger>(
    work: &mut Work<'_, '_>,
    env: &Env,
    store: &mut Store,
    goal: u32,
    kind: TermId,
    values: &[(NameId, Given)],
    term: &Surface,
    strict: bool,
    steps: &mut Steps<L>,
) -> Result<Built, PrimFault>
    requires placed { IsPlaced work.old.bank.now env.now store.old goal kind }
    requires values { AllByRecursion (HasGiven work.old.bank.now) values.now }
    requires values_stand { ValuesStand (store_of work.old.bank.now store.old) (givens_of work.old.bank.now values.now) }
    ensures answer { Does work.new.bank.now (built_done work.new.bank.now store.new) result
        (λ n. do_apply (scene_in work.old.bank.now env.now store.old goal kind (givens_of work.old.bank.now values.now) n) strict (plain term.now))
        work.old.ticks.now.left work.new.ticks.now.left }
    ensures body { IfOk result (λ b. HasTerm work.new.bank.now b.body) }
    ensures has { OnOk result (HasStore work.new.bank.now store.new) }
    ensures reached { IfOk result (λ b. IsReached (scene_in work.old.bank.now env.now store.old goal kind [] 0) (built_done work.new.bank.now store.new b)) }
    ensures same_bank { work.new.bank.ghost_name ≡ work.old.bank.ghost_name }
    ensures same_ticks { work.new.ticks.ghost_name ≡ work.old.ticks.ghost_name }
    ensures grows { Grows work.old.bank.now work.new.bank.now }
    ensures budget { work.new.ticks.now.left + work.new.ticks.now.spent ≡ work.old.ticks.now.left + work.old.ticks.now.spent }
    ensures counted { steps.new + work.old.ticks.now.spent ≡ steps.old + work.new.ticks.now.spent }
{
    has_room(store, goal);
    let context = match copied(work.bank.allocator(), store.context(goal)) {
        Ok(context) => context,
        Err(_) => return Err(PrimFault::NoMemory),
    };
    let before = store.count();
    match term_of(work, env, store, goal, values, term, None, steps) {
        Ok(found) => apply_found(
            work, env, store, &context, kind, found.term, found.kind, strict, before, steps,
        ),
        Err(fault) => Err(fault),
    }
}

/// `apply`: the goal's body is the term, applied to new variables for the premises of its type, as many as there are so that the rest unifies
/// with the goal's type; those without a value are the new goals, in order. It is refused as `CannotApply` where the rest unifies for no
/// number of premises, and as `NotDetermined` where a variable stays without a value on which a premise or the rest depends. The refusals of
/// `lq_elab::elaborate` come in `PrimFault::Elab`.
pub(crate) fn apply<L: Ledger>(
    work: &mut Work<'_, '_>,
    env: &Env,
    store: &mut Store,
    goal: u32,
    kind: TermId,
    values: &[(NameId, Given)],
    term: &Surface,
    steps: &mut Steps<L>,
) -> Result<Vec<u32>, PrimFault>
    requires placed { IsPlaced work.old.bank.now env.now store.old goal kind }
    requires values { AllByRecursion (HasGiven work.old.bank.now) values.now }
    requires values_stand { ValuesStand (store_of work.old.bank.now store.old) (givens_of work.old.bank.now values.now) }
    ensures answer { Does work.new.bank.now (λ v. step_by (store_of work.new.bank.now store.new) v.items) result
        (λ n. ended (scene_in work.old.bank.now env.now store.old goal kind (givens_of work.old.bank.now values.now) n)
        (do_apply (scene_in work.old.bank.now env.now store.old goal kind (givens_of work.old.bank.now values.now) n) true (plain term.now)))
        work.old.ticks.now.left work.new.ticks.now.left }
    ensures leaves { IfOk result (λ v. Leaves (store_of work.old.bank.now store.old) goal (store_of work.new.bank.now store.new) v.items) }
    ensures has { OnOk result (HasStore work.new.bank.now store.new) }
    ensures kept { OnOk result (IsStore (store_of work.new.bank.now store.new)) }
    ensures same_bank { work.new.bank.ghost_name ≡ work.old.bank.ghost_name }
    ensures same_ticks { work.new.ticks.ghost_name ≡ work.old.ticks.ghost_name }
    ensures grows { Grows work.old.bank.now work.new.bank.now }
    ensures budget { work.new.ticks.now.left + work.new.ticks.now.spent ≡ work.old.ticks.now.left + work.old.ticks.now.spent }
    ensures counted { steps.new + work.old.ticks.now.spent ≡ steps.old + work.new.ticks.now.spent }
{
    match do_apply(work, env, store, goal, kind, values, term, true, steps) {
        Ok(built) => given(work.bank, store, goal, built),
        Err(fault) => Err(fault),
    }
}

/// `eapply`: as `apply`, but variables on which a premise or the rest depends may stay without a value; they are no goals.
pub(crate) fn eapply<L: Ledger>(
    work: &mut Work<'_, '_>,
    env: &Env,
    store: &mut Store,
    goal: u32,
    kind: TermId,
    values: &[(NameId, Given)],
    term: &Surface,
    steps: &mut Steps<L>,
) -> Result<Vec<u32>, PrimFault>
    requires placed { IsPlaced work.old.bank.now env.now store.old goal kind }
    requires values { AllByRecursion (HasGiven work.old.bank.now) values.now }
    requires values_stand { ValuesStand (store_of work.old.bank.now store.old) (givens_of work.old.bank.now values.now) }
    ensures answer { Does work.new.bank.now (λ v. step_by (store_of work.new.bank.now store.new) v.items) result
        (λ n. ended (scene_in work.old.bank.now env.now store.old goal kind (givens_of work.old.bank.now values.now) n)
        (do_apply (scene_in work.old.bank.now env.now store.old goal kind (givens_of work.old.bank.now values.now) n) false (plain term.now)))
        work.old.ticks.now.left work.new.ticks.now.left }
    ensures leaves { IfOk result (λ v. Leaves (store_of work.old.bank.now store.old) goal (store_of work.new.bank.now store.new) v.items) }
    ensures has { OnOk result (HasStore work.new.bank.now store.new) }
    ensures kept { OnOk result (IsStore (store_of work.new.bank.now store.new)) }
    ensures same_bank { work.new.bank.ghost_name ≡ work.old.bank.ghost_name }
    ensures same_ticks { work.new.ticks.ghost_name ≡ work.old.ticks.ghost_name }
    ensures grows { Grows work.old.bank.now work.new.bank.now }
    ensures budget { work.new.ticks.now.left + work.new.ticks.now.spent ≡ work.old.ticks.now.left + work.old.ticks.now.spent }
    ensures counted { steps.new + work.old.ticks.now.spent ≡ steps.old + work.new.ticks.now.spent }
{
    match do_apply(work, env, store, goal, kind, values, term, false, steps) {
        Ok(built) => given(work.bank, store, goal, built),
        Err(fault) => Err(fault),
    }
}
