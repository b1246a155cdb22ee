//! The end of a primitive: its new goals take the goal's place.

ghost use Rattle.std.specs.Prelude.{◌≡◌, ◌≤◌, ℕ, length, OnOk};
ghost use Rattle.lq_terms.specs.Terms.{Terms};
ghost use Rattle.lq_states.specs.Goals.{Proof as TreeProof};
ghost use Rattle.lq_states.specs.Kept.{IsProof, IsSwept};
ghost use Rattle.lq_goals.specs.Held.{proof_of};
ghost use Rattle.lq_tactics.specs.Rows.{Scene, Step, listed};
ghost use Rattle.lq_prims.specs.Finishing.{Finishes, done_with};
ghost use Rattle.lq_prims.specs.Working.{Tells};

use crate::faults::PrimFault;
use crate::listing::shelved;
use lq_goals::Proof;
use std::alloc::Global;

/// The new goals take the goal's place, and the other variables without a value that were made since there were so many go to the
/// shelf, in order of making. It is refused as `TooManyGoals` where more than 10,000 goals would be in focus.
pub(crate) fn finish(
    alloc: Global,
    proof: &mut Proof,
    goal: u32,
    before: u32,
    goals: &[u32],
) -> Result<Vec<u32>, PrimFault>
    requires { before ≤ length proof.old.store.variables }
    ensures answer { (bank : Terms) (p : TreeProof) (c : Scene) (st : Step) → Finishes bank proof.old goal before goals.now p c st
        → Tells bank (λ v. done_with bank proof.new goals.now v.items) result (listed p goal st) }
    ensures stands { (bank : Terms) (p : TreeProof) (c : Scene) (st : Step) → Finishes bank proof.old goal before goals.now p c st
        → OnOk result (IsProof (proof_of bank proof.new) × IsSwept (proof_of bank proof.new) proof.new.given proof.new.seen) }
    ensures store { proof.new.store ≡ proof.old.store }
{
    let shelf = shelved(alloc, proof.store(), before, goals)?;
    match proof.replace(&[goal], goals, shelf.as_slice()) {
        Ok(()) => Ok(shelf),
        Err(fault) => Err(PrimFault::from(fault)),
    }
}
