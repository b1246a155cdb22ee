//! `intro` (Rocq reference manual, "Tactics").

ghost use Rattle.std.specs.Prelude.{◌≡◌, ◌<◌, ◌+◌, ◌∷◌, [], ℕ, false, length, option_map, IfOk, OnOk};
ghost use Rattle.lq_trees.specs.Tree.{Tree};
ghost use Rattle.lq_trees.specs.Fresh.{is_listed};
ghost use Rattle.lq_calculus.specs.Declarations.{Env as Environment};
ghost use Rattle.lq_terms.specs.Terms.{HasName, HasTerm, text_of, tree_of, Grows};
ghost use Rattle.lq_solving.specs.Stores.{names_in};
ghost use Rattle.lq_solving.specs.Kept.{IsStore, StandsIn};
ghost use Rattle.lq_solving.specs.Elaboration.{Givens};
ghost use Rattle.lq_evars.specs.Places.{HasNameOr, HasStore, store_of};
ghost use Rattle.lq_tactics.specs.Rows.{Scene, ended};
ghost use Rattle.lq_tactics.specs.Primitives.{intro_name, intro_on, binder_form, do_intro};
ghost use Rattle.lq_prims.specs.Binders.{HasBinder, binder_tree};
ghost use Rattle.lq_prims.specs.Reaching.{reached_done};
ghost use Rattle.lq_prims.specs.Scenes.{IsGoal, IsPlaced, context_at, scene_by, scene_in, step_by};
ghost use Rattle.lq_prims.specs.Working.{Does, Tells};

use crate::binders::{Binder, binder_of};
use crate::entering::{Reached, under_definition, under_product};
use crate::faults::PrimFault;
use crate::giving::give;
use crate::naming::intro_name;
use crate::needing::head;
use crate::rooms::has_room;
use lq_env::Env;
use lq_evars::Store;
use lq_terms::{Bank, NameId, Steps, TermId, Work};
use std::sync::ledger::Ledger;

/// The name of a goal's new hypothesis.
fn named(
    bank: &mut Bank<'_>,
    store: &Store,
    goal: u32,
    written: Option<NameId>,
    binder: NameId,
) -> Result<NameId, PrimFault>
    requires place { IsGoal bank.old store.now goal }
    requires written { HasNameOr bank.old written }
    requires binder { HasName bank.old binder }
    ensures answer { (c : Scene) → c.context ≡ context_at (store_of bank.old store.now) goal
        → Tells bank.new (text_of bank.new) result (intro_name c (option_map (text_of bank.old) written) (text_of bank.old binder)) }
    ensures has { IfOk result (HasName bank.new) }
    ensures new { IfOk result (λ x. is_listed (names_in (context_at (store_of bank.old store.now) goal)) (text_of bank.new x) ≡ false) }
    ensures grows { Grows bank.old bank.new }
{
    let context = store.context(goal).hypotheses();
    let count = context.len();
    intro_name(bank, context, count, written, binder)
}

/// `intro` on a product or a local definition.
fn introduced<L: Ledger>(
    work: &mut Work<'_, '_>,
    store: &mut Store,
    goal: u32,
    written: Option<NameId>,
    binder: Binder,
    steps: &mut Steps<L>,
) -> Result<Reached, PrimFault>
    requires place { IsGoal work.old.bank.now store.old goal }
    requires written { HasNameOr work.old.bank.now written }
    requires binder { HasBinder work.old.bank.now binder }
    requires stands { StandsIn (store_of work.old.bank.now store.old) (context_at (store_of work.old.bank.now store.old) goal)
        (binder_tree work.old.bank.now binder) }
    ensures answer { (E : Environment) (T : Tree) (vs : Givens) → Does work.new.bank.now (reached_done work.new.bank.now store.new) result
        (λ n. intro_on (scene_by E (store_of work.old.bank.now store.old) goal (context_at (store_of work.old.bank.now store.old) goal) T vs n)
        (option_map (text_of work.old.bank.now) written) (binder_tree work.old.bank.now binder)) work.old.ticks.now.left work.new.ticks.now.left }
    ensures body { IfOk result (λ r. HasTerm work.new.bank.now r.body) }
    ensures has { OnOk result (HasStore work.new.bank.now store.new) }
    ensures same_bank { work.new.bank.ghost_name ≡ work.old.bank.ghost_name }
    ensures same_ticks { work.new.ticks.ghost_name ≡ work.old.ticks.ghost_name }
    ensures grows { Grows work.old.bank.now work.new.bank.now }
    ensures budget { work.new.ticks.now.left + work.new.ticks.now.spent ≡ work.old.ticks.now.left + work.old.ticks.now.spent }
    ensures counted { steps.new + work.old.ticks.now.spent ≡ steps.old + work.new.ticks.now.spent }
{
    match binder {
        Binder::Product(base, domain, rest) => {
            let name = named(work.bank, store, goal, written, base)?;
            under_product(work, store, goal, name, domain, rest, steps)
        }
        Binder::Definition(base, value, kind, rest) => {
            let name = named(work.bank, store, goal, written, base)?;
            under_definition(work, store, goal, name, value, kind, rest, steps)
        }
    }
}

/// A goal's type where it is a product or a local definition, or else its weak head form.
fn binder_form<L: Ledger>(
    work: &mut Work<'_, '_>,
    env: &Env,
    store: &Store,
    goal: u32,
    kind: TermId,
    steps: &mut Steps<L>,
) -> Result<TermId, PrimFault>
    requires placed { IsPlaced work.old.bank.now env.now store.now goal kind }
    ensures answer { (vs : Givens) → Does work.new.bank.now (tree_of work.new.bank.now) result
        (λ n. binder_form (scene_in work.old.bank.now env.now store.now goal kind vs n)) work.old.ticks.now.left work.new.ticks.now.left }
    ensures has { IfOk result (HasTerm work.new.bank.now) }
    ensures same_bank { work.new.bank.ghost_name ≡ work.old.bank.ghost_name }
    ensures same_ticks { work.new.ticks.ghost_name ≡ work.old.ticks.ghost_name }
    ensures grows { Grows work.old.bank.now work.new.bank.now }
    ensures budget { work.new.ticks.now.left + work.new.ticks.now.spent ≡ work.old.ticks.now.left + work.old.ticks.now.spent }
    ensures counted { steps.new + work.old.ticks.now.spent ≡ steps.old + work.new.ticks.now.spent }
{
    match binder_of(work.bank, kind) {
        Some(_) => Ok(kind),
        None => head(work, env, store, store.context(goal), kind, steps),
    }
}

/// What `intro` reaches: the goal under the binder of its type, or of its type's weak head form.
fn do_intro<L: Ledger>(
    work: &mut Work<'_, '_>,
    env: &Env,
    store: &mut Store,
    goal: u32,
    kind: TermId,
    written: Option<NameId>,
    steps: &mut Steps<L>,
) -> Result<Reached, PrimFault>
    requires placed { IsPlaced work.old.bank.now env.now store.old goal kind }
    requires written { HasNameOr work.old.bank.now written }
    ensures answer { (vs : Givens) → Does work.new.bank.now (reached_done work.new.bank.now store.new) result
        (λ n. do_intro (scene_in work.old.bank.now env.now store.old goal kind vs n) (option_map (text_of work.old.bank.now) written))
        work.old.ticks.now.left work.new.ticks.now.left }
    ensures body { IfOk result (λ r. HasTerm work.new.bank.now r.body) }
    ensures has { OnOk result (HasStore work.new.bank.now store.new) }
    ensures same_bank { work.new.bank.ghost_name ≡ work.old.bank.ghost_name }
    ensures same_ticks { work.new.ticks.ghost_name ≡ work.old.ticks.ghost_name }
    ensures grows { Grows work.old.bank.now work.new.bank.now }
    ensures budget { work.new.ticks.now.left + work.new.ticks.now.spent ≡ work.old.ticks.now.left + work.old.ticks.now.spent }
    ensures counted { steps.new + work.old.ticks.now.spent ≡ steps.old + work.new.ticks.now.spent }
{
    let form = binder_form(work, env, store, goal, kind, steps)?;
    match binder_of(work.bank, form) {
        Some(binder) => introduced(work, store, goal, written, binder, steps),
        None => Err(PrimFault::NothingToIntroduce),
    }
}

/// `intro`: the goal gets its body, and the goal under the binder is answered. It is refused as `NothingToIntroduce` where the weak head
/// form of its type has no binder, and as `NameInUse` where a hypothesis has the name that is written.
pub(crate) fn intro<L: Ledger>(
    work: &mut Work<'_, '_>,
    env: &Env,
    store: &mut Store,
    goal: u32,
    kind: TermId,
    written: Option<NameId>,
    steps: &mut Steps<L>,
) -> Result<u32, PrimFault>
    requires placed { IsPlaced work.old.bank.now env.now store.old goal kind }
    requires written { HasNameOr work.old.bank.now written }
    ensures answer { (vs : Givens) → Does work.new.bank.now (λ k. step_by (store_of work.new.bank.now store.new) (k ∷ [])) result
        (λ n. ended (scene_in work.old.bank.now env.now store.old goal kind vs n)
        (do_intro (scene_in work.old.bank.now env.now store.old goal kind vs n) (option_map (text_of work.old.bank.now) written)))
        work.old.ticks.now.left work.new.ticks.now.left }
    ensures has { OnOk result (HasStore work.new.bank.now store.new) }
    ensures kept { OnOk result (IsStore (store_of work.new.bank.now store.new)) }
    ensures same_bank { work.new.bank.ghost_name ≡ work.old.bank.ghost_name }
    ensures same_ticks { work.new.ticks.ghost_name ≡ work.old.ticks.ghost_name }
    ensures grows { Grows work.old.bank.now work.new.bank.now }
    ensures budget { work.new.ticks.now.left + work.new.ticks.now.spent ≡ work.old.ticks.now.left + work.old.ticks.now.spent }
    ensures counted { steps.new + work.old.ticks.now.spent ≡ steps.old + work.new.ticks.now.spent }
{
    has_room(store, goal);
    let reached = do_intro(work, env, store, goal, kind, written, steps)?;
    match give(work.bank, store, goal, reached.body) {
        Ok(()) => Ok(reached.goal),
        Err(fault) => Err(fault),
    }
}
