//! What the end of a proof asks of the kernel.

ghost use Rattle.std.specs.Prelude.{◌≡◌, ◌+◌, OnOk, OnErr};
ghost use Rattle.lq_calculus.specs.Typing.{DerivedEnv};
ghost use Rattle.lq_terms.specs.Terms.{HasName, text_of, tree_of, Grows};
ghost use Rattle.lq_env.specs.Environments.{IsEnv, env_of, Extends};
ghost use Rattle.lq_solving.specs.Kept.{IsStore};
ghost use Rattle.lq_evars.specs.Places.{store_of, HasStore};
ghost use Rattle.lq_states.specs.Kept.{IsProof};
ghost use Rattle.lq_goals.specs.Held.{proof_of};
ghost use Rattle.lq_kernel.specs.Closed.{IsScoped};
ghost use Rattle.lq_declaring.specs.Closing.{closing_work};
ghost use Rattle.lq_declaring.specs.Constants.{Declares};

use crate::constants::declared;
use lq_causes::Stop;
use lq_env::Env;
use lq_goals::Proof;
use lq_print::{Cause, SentenceCause};
use lq_terms::{NameId, Steps, TermId, Work};
use std::sync::ledger::Ledger;

/// The constant of a proof that ends: refused where goals are open, with how many; where shelved variables have no value, with how many;
/// where the proof's term as it reads passes the limits; and as the kernel refuses the constant. After a refusal the environment
/// is as before. See the Rocq reference manual, "Proof mode".
pub fn declare_proved<L: Ledger>(
    work: &mut Work<'_, '_>,
    env: &mut Env,
    proof: &Proof,
    name: NameId,
    statement: TermId,
    opaque: bool,
    steps: &mut Steps<L>,
) -> Result<(), Stop>
    requires env { IsEnv work.old.bank.now env.old }
    requires store { HasStore work.old.bank.now proof.now.store }
    requires stored { IsStore (store_of work.old.bank.now proof.now.store) }
    requires proof { IsProof (proof_of work.old.bank.now proof.now) }
    requires name { HasName work.old.bank.now name }
    requires statement { IsScoped work.old.bank.now 0 statement }
    ensures answer { Declares work.new.bank.now result env.new (closing_work (env_of work.old.bank.now env.old) (text_of work.old.bank.now name)
        (tree_of work.old.bank.now statement) (proof_of work.old.bank.now proof.now) opaque) work.old.ticks.now.left work.new.ticks.now.left }
    ensures derived { OnOk result (DerivedEnv (env_of work.old.bank.now env.old) → DerivedEnv (env_of work.new.bank.now env.new)) }
    ensures env { IsEnv work.new.bank.now env.new }
    ensures extends { OnOk result (Extends env.old env.new) }
    ensures kept { OnErr result (env.new ≡ env.old) }
    ensures same_bank { work.new.bank.ghost_name ≡ work.old.bank.ghost_name }
    ensures same_ticks { work.new.ticks.ghost_name ≡ work.old.ticks.ghost_name }
    ensures grows { Grows work.old.bank.now work.new.bank.now }
    ensures budget { work.new.ticks.now.left + work.new.ticks.now.spent ≡ work.old.ticks.now.left + work.old.ticks.now.spent }
    ensures counted { steps.new + work.old.ticks.now.spent ≡ steps.old + work.new.ticks.now.spent }
{
    let open = proof.open_count();
    if open != 0 {
        return Err(Stop::Refused(Cause::Sentence(SentenceCause::OpenGoals(open))));
    }
    let shelved = proof.shelf_count();
    if shelved != 0 {
        return Err(Stop::Refused(Cause::Sentence(SentenceCause::Unresolved(shelved))));
    }
    match proof.root(work.bank) {
        Ok(body) => declared(work, env, name, statement, body, opaque, steps),
        Err(fault) => Err(Stop::from(fault)),
    }
}
