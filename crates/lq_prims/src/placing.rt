//! Where a row works: a goal and its type as it reads.

ghost use Rattle.std.specs.Prelude.{ℕ, List, IfOk};
ghost use Rattle.lq_calculus.specs.Declarations.{Env as Environment};
ghost use Rattle.lq_terms.specs.Terms.{Grows};
ghost use Rattle.lq_terms.specs.declared.nodes.NameId.{NameId};
ghost use Rattle.lq_env.specs.declared.environment.Declared.{Declared};
ghost use Rattle.lq_solving.specs.Elaboration.{Givens};
ghost use Rattle.lq_evars.specs.Places.{store_of};
ghost use Rattle.lq_prims.specs.Scenes.{IsGoal, IsDeclared, IsPlaced};
ghost use Rattle.lq_prims.specs.Placing.{Sets};

use crate::faults::PrimFault;
use crate::needing::needed;
use lq_evars::Store;
use lq_terms::{Bank, TermId};

/// A goal's type as it reads. It is refused as too large or too deep where that passes a limit.
pub(crate) fn goal_kind(bank: &mut Bank<'_>, store: &Store, goal: u32) -> Result<TermId, PrimFault>
    requires { IsGoal bank.old store.now goal }
    ensures answer { (E : Environment) (vs : Givens) → Sets bank.new E (store_of bank.old store.now) goal vs result }
    ensures placed { (ds : List (NameId × Declared)) → IsDeclared bank.old ds → IfOk result (IsPlaced bank.new ds store.now goal) }
    ensures grows { Grows bank.old bank.new }
{
    let kind = store.kind(goal);
    match needed(bank, store, kind) {
        Ok(read) => Ok(read),
        Err(fault) => Err(fault),
    }
}
