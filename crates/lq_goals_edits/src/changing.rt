//! The lists of a proof, and its copy.

ghost use Rattle.std.specs.Prelude.{◌≡◌, OnOk, OnErr, IfOk};
ghost use Rattle.lq_terms.specs.Terms.{Terms};
ghost use Rattle.lq_states.specs.Goals.{replaced, shelve};
ghost use Rattle.lq_states.specs.Kept.{IsListed, AreDistinct, MayReplace, IsProof, IsSwept};
ghost use Rattle.lq_goals.specs.Held.{proof_of, Changes};

use lq_goals::{GoalFault, Proof};
use lq_terms::NoMemory;
use std::alloc::Global;

/// The same proof.
pub fn copied(proof: &Proof, alloc: Global) -> Result<Proof, NoMemory>
    ensures { IfOk result (λ p. p ≡ proof.now) }
{
    proof.copy(alloc)
}

/// Goals give their places to others.
pub fn replaced(
    proof: &mut Proof,
    taken: &[u32],
    left: &[u32],
    shelved: &[u32],
) -> Result<(), GoalFault>
    ensures kept { OnErr result (proof.new ≡ proof.old) }
    ensures store { proof.new.store ≡ proof.old.store }
    ensures told { (bank : Terms) → IsListed (proof_of bank proof.old) → MayReplace (proof_of bank proof.old) taken.now left.now shelved.now
        → IsSwept (proof_of bank proof.old) proof.old.given proof.old.seen
        → Changes bank result proof.new (replaced (proof_of bank proof.old) taken.now left.now shelved.now) }
    ensures stands { (bank : Terms) → IsListed (proof_of bank proof.old) → MayReplace (proof_of bank proof.old) taken.now left.now shelved.now
        → IsSwept (proof_of bank proof.old) proof.old.given proof.old.seen
        → OnOk result (IsProof (proof_of bank proof.new) × IsSwept (proof_of bank proof.new) proof.new.given proof.new.seen) }
{
    proof.replace(taken, left, shelved)
}

/// Goals go from the focus to the shelf's end.
pub fn shelved(proof: &mut Proof, goals: &[u32]) -> Result<(), GoalFault>
    ensures kept { OnErr result (proof.new ≡ proof.old) }
    ensures store { proof.new.store ≡ proof.old.store }
    ensures told { (bank : Terms) → Changes bank result proof.new (shelve (proof_of bank proof.old) goals.now) }
    ensures swept { (bank : Terms) → IsSwept (proof_of bank proof.old) proof.old.given proof.old.seen
        → OnOk result (IsSwept (proof_of bank proof.new) proof.new.given proof.new.seen) }
    ensures listed { (bank : Terms) → IsListed (proof_of bank proof.old) → AreDistinct goals.now → OnOk result (IsListed (proof_of bank proof.new)) }
    ensures stands { (bank : Terms) → IsProof (proof_of bank proof.old) → AreDistinct goals.now → OnOk result (IsProof (proof_of bank proof.new)) }
{
    proof.shelve(goals)
}
