//! The declarations so far, and the proof that is open.

ghost use Rattle.std.specs.Prelude.{◌≡◌, IfOk};
ghost use Rattle.lq_terms.specs.Terms.{Terms};
ghost use Rattle.lq_sessions.specs.Output.{blank};
ghost use Rattle.lq_session.specs.Sessions.{session_of};

use lq_env::Env;
use lq_goals::Proof;
use lq_terms::{NameId, NoMemory, TermId};
use std::alloc::Global;

/// A proof that is open. What it names lies in one bank.
#[derive(Drop)]
pub struct Opened {
    /// Its name.
    pub name: NameId,
    /// Its statement.
    pub statement: TermId,
    /// Its state.
    pub proof: Proof,
}

/// The declarations so far, the budgets of an Ltac sentence and of another one in ticks, and the proof that is open, if one is.
#[derive(Drop)]
pub struct Session {
    /// The declarations.
    pub env: Env,
    /// The budget of an Ltac sentence.
    pub steps: u64,
    /// The budget of another sentence.
    pub kernel: u64,
    /// The open proof.
    pub opened: Option<Opened>,
}

impl Session {
    /// A session without declarations, with its budgets in ticks.
    pub fn new(alloc: Global, steps: u64, kernel: u64) -> Result<Session, NoMemory>
        ensures { IfOk result (λ s. (bank : Terms) → session_of bank s ≡ blank steps kernel) }
    {
        let env = Env::new(alloc)?;
        Ok(Session {
            env,
            steps,
            kernel,
            opened: None,
        })
    }
}
