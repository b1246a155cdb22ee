//! `intros`, and one step of it (Rocq reference manual, "Tactics").

ghost use Rattle.std.specs.Prelude.{◌≡◌, ◌+◌, ◌∷◌, [], map, option_map, IfOk, OnOk};
ghost use Rattle.std.specs.List.{AllByRecursion};
ghost use Rattle.lq_terms.specs.Terms.{HasName, text_of, Grows};
ghost use Rattle.lq_env.specs.Environments.{env_of};
ghost use Rattle.lq_solving.specs.Kept.{IsStore};
ghost use Rattle.lq_solving.specs.Elaboration.{Givens};
ghost use Rattle.lq_evars.specs.Places.{HasNameOr, HasStore, store_of};
ghost use Rattle.lq_tactics.specs.Primitives.{intro_all, intro_each, most_binders};
ghost use Rattle.lq_prims.specs.Moving.{Moves};
ghost use Rattle.lq_prims.specs.Scenes.{IsPlaced, scene_in, step_by};
ghost use Rattle.lq_prims.specs.Working.{Does};

use crate::binders::binder_of;
use crate::faults::PrimFault;
use crate::introducing::intro;
use crate::placing::goal_kind;
use crate::rooms::has_room;
use lq_env::Env;
use lq_evars::Store;
use lq_terms::{NameId, Steps, TermId, Work};
use std::sync::ledger::Ledger;

/// A goal, and its type as it reads.
#[derive(Clone, Copy)]
pub(crate) struct Placed {
    pub(crate) goal: u32,
    pub(crate) kind: TermId,
}

/// `intro` on a goal, and the goal that it leaves. It is refused as `intro` is, and where the type of that goal as it reads passes a limit.
pub(crate) fn moved<L: Ledger>(
    work: &mut Work<'_, '_>,
    env: &Env,
    store: &mut Store,
    place: Placed,
    written: Option<NameId>,
    steps: &mut Steps<L>,
) -> Result<Placed, PrimFault>
    requires placed { IsPlaced work.old.bank.now env.now store.old place.goal place.kind }
    requires written { HasNameOr work.old.bank.now written }
    ensures answer { (vs : Givens) → Moves work.new.bank.now (env_of work.old.bank.now env.now) store.new vs result
        (λ n. scene_in work.old.bank.now env.now store.old place.goal place.kind vs n)
        (option_map (text_of work.old.bank.now) written) work.old.ticks.now.left work.new.ticks.now.left }
    ensures placed { IfOk result (λ p. IsPlaced work.new.bank.now env.now store.new p.goal p.kind) }
    ensures same_bank { work.new.bank.ghost_name ≡ work.old.bank.ghost_name }
    ensures same_ticks { work.new.ticks.ghost_name ≡ work.old.ticks.ghost_name }
    ensures grows { Grows work.old.bank.now work.new.bank.now }
    ensures budget { work.new.ticks.now.left + work.new.ticks.now.spent ≡ work.old.ticks.now.left + work.old.ticks.now.spent }
    ensures counted { steps.new + work.old.ticks.now.spent ≡ steps.old + work.new.ticks.now.spent }
{
    has_room(store, place.goal);
    let goal = intro(work, env, store, place.goal, place.kind, written, steps)?;
    match goal_kind(work.bank, store, goal) {
        Ok(kind) => Ok(Placed { goal, kind }),
        Err(fault) => Err(fault),
    }
}

/// `intros` without names: `intro` while the goal's type is a product or a local definition as it stands. The goal that is left is
/// answered.
pub(crate) fn intros<L: Ledger>(
    work: &mut Work<'_, '_>,
    env: &Env,
    store: &mut Store,
    place: Placed,
    steps: &mut Steps<L>,
) -> Result<u32, PrimFault>
    requires placed { IsPlaced work.old.bank.now env.now store.old place.goal place.kind }
    ensures answer { (vs : Givens) → Does work.new.bank.now (λ k. step_by (store_of work.new.bank.now store.new) (k ∷ [])) result
        (λ n. intro_all most_binders (scene_in work.old.bank.now env.now store.old place.goal place.kind vs n))
        work.old.ticks.now.left work.new.ticks.now.left }
    ensures has { OnOk result (HasStore work.new.bank.now store.new) }
    ensures kept { OnOk result (IsStore (store_of work.new.bank.now store.new)) }
    ensures same_bank { work.new.bank.ghost_name ≡ work.old.bank.ghost_name }
    ensures same_ticks { work.new.ticks.ghost_name ≡ work.old.ticks.ghost_name }
    ensures grows { Grows work.old.bank.now work.new.bank.now }
    ensures budget { work.new.ticks.now.left + work.new.ticks.now.spent ≡ work.old.ticks.now.left + work.old.ticks.now.spent }
    ensures counted { steps.new + work.old.ticks.now.spent ≡ steps.old + work.new.ticks.now.spent }
{
    let mut at = place;
    let mut more: u32 = 2_001;
    while more > 0 {
        match binder_of(work.bank, at.kind) {
            None => return Ok(at.goal),
            Some(_) => match moved(work, env, store, at, None, steps) {
                Ok(next) => at = next,
                Err(fault) => return Err(fault),
            },
        }
        more -= 1;
    }
    Ok(at.goal)
}

/// `intros` with names: `intro` for each of them. The goal that is left is answered.
pub(crate) fn intros_named<L: Ledger>(
    work: &mut Work<'_, '_>,
    env: &Env,
    store: &mut Store,
    place: Placed,
    names: &[NameId],
    steps: &mut Steps<L>,
) -> Result<u32, PrimFault>
    requires placed { IsPlaced work.old.bank.now env.now store.old place.goal place.kind }
    requires names { AllByRecursion (HasName work.old.bank.now) names.now }
    ensures answer { (vs : Givens) → Does work.new.bank.now (λ k. step_by (store_of work.new.bank.now store.new) (k ∷ [])) result
        (λ n. intro_each (map (text_of work.old.bank.now) names.now)
        (scene_in work.old.bank.now env.now store.old place.goal place.kind vs n)) work.old.ticks.now.left work.new.ticks.now.left }
    ensures has { OnOk result (HasStore work.new.bank.now store.new) }
    ensures kept { OnOk result (IsStore (store_of work.new.bank.now store.new)) }
    ensures same_bank { work.new.bank.ghost_name ≡ work.old.bank.ghost_name }
    ensures same_ticks { work.new.ticks.ghost_name ≡ work.old.ticks.ghost_name }
    ensures grows { Grows work.old.bank.now work.new.bank.now }
    ensures budget { work.new.ticks.now.left + work.new.ticks.now.spent ≡ work.old.ticks.now.left + work.old.ticks.now.spent }
    ensures counted { steps.new + work.old.ticks.now.spent ≡ steps.old + work.new.ticks.now.spent }
{
    let mut at = place;
    for name in names {
        match moved(work, env, store, at, Some(*name), steps) {
            Ok(next) => at = next,
            Err(fault) => return Err(fault),
        }
    }
    Ok(at.goal)
}
