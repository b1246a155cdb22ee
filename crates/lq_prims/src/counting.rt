//! How many constructors the type of a goal of a proof has.

ghost use Rattle.std.specs.Prelude.{◌≡◌, ◌+◌, ℕ};
ghost use Rattle.lq_terms.specs.Terms.{Grows};
ghost use Rattle.lq_env.specs.Environments.{env_of};
ghost use Rattle.lq_solving.specs.Elaboration.{Givens};
ghost use Rattle.lq_evars.specs.Places.{store_of};
ghost use Rattle.lq_prims.specs.Advancing.{MayAdvance, count_work};
ghost use Rattle.lq_prims.specs.Working.{Does};

use crate::faults::PrimFault;
use crate::inductives::count;
use crate::placing::goal_kind;
use lq_env::Env;
use lq_goals::Proof;
use lq_terms::{Steps, Work};
use std::sync::ledger::Ledger;

/// How many constructors the type of a goal in focus or on the shelf has, for those who try one after the other (Rocq reference manual,
/// "Tactics", `constructor`): a tick for each contraction to the type's weak head form. It is refused as `NotInductive` where that is no
/// inductive type, and where the type or the form passes a limit.
pub fn constructor_count<L: Ledger>(
    work: &mut Work<'_, '_>,
    env: &Env,
    proof: &Proof,
    goal: u32,
    steps: &mut Steps<L>,
) -> Result<u32, PrimFault>
    requires may { MayAdvance work.old.bank.now env.now proof.now goal }
    ensures answer { (vs : Givens) → Does work.new.bank.now (λ n. n) result
        (λ n. count_work (env_of work.old.bank.now env.now) n (store_of work.old.bank.now proof.now.store) goal vs)
        work.old.ticks.now.left work.new.ticks.now.left }
    ensures same_bank { work.new.bank.ghost_name ≡ work.old.bank.ghost_name }
    ensures same_ticks { work.new.ticks.ghost_name ≡ work.old.ticks.ghost_name }
    ensures grows { Grows work.old.bank.now work.new.bank.now }
    ensures budget { work.new.ticks.now.left + work.new.ticks.now.spent ≡ work.old.ticks.now.left + work.old.ticks.now.spent }
    ensures counted { steps.new + work.old.ticks.now.spent ≡ steps.old + work.new.ticks.now.spent }
{
    let store = proof.store();
    match goal_kind(work.bank, store, goal) {
        Ok(kind) => count(work, env, store, goal, kind, steps),
        Err(fault) => Err(fault),
    }
}
