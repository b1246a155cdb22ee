//! A session set aside, and restored.

ghost use Rattle.std.specs.Prelude.{◌≡◌, IfOk};
ghost use Rattle.lq_session.specs.Asides.{aside_of, WentOn, IsSetAside};

use crate::opened::{Opened, Session};
use lq_env::EnvMark;
use lq_terms::NoMemory;
use std::alloc::Global;

/// What a session is restored from: how far its declarations had come, and its open proof, if one was open.
#[derive(Drop)]
pub struct Aside {
    mark: EnvMark,
    opened: Option<Opened>,
}

impl Opened {
    /// The same open proof.
    fn copy(&self, alloc: Global) -> Result<Opened, NoMemory>
        ensures { IfOk result (λ o. o ≡ self.now) }
    {
        let proof = self.proof.copy(alloc)?;
        Ok(Opened {
            name: self.name,
            statement: self.statement,
            proof,
        })
    }
}

/// The same open proof, if one is open.
fn copied(opened: &Option<Opened>, alloc: Global) -> Result<Option<Opened>, NoMemory>
    ensures { IfOk result (λ o. o ≡ opened.now) }
{
    match opened {
        Some(opened) => Ok(Some(opened.copy(alloc)?)),
        None => Ok(None),
    }
}

impl Session {
    /// What restores the session later. The session stays as it is, and the open proof, if one is open, is copied: want of memory is the one
    /// fault.
    pub fn set_aside(&self, alloc: Global) -> Result<Aside, NoMemory>
        ensures { IfOk result (λ a. a ≡ aside_of self.now) }
    {
        let opened = copied(&self.opened, alloc)?;
        Ok(Aside {
            mark: self.env.mark(),
            opened,
        })
    }

    /// The session is again the one that was set aside, where declarations were only added since and the budgets are the same; which proof is
    /// open makes no difference. It takes no memory, and the time of what it takes out. See the Rocq reference manual, `Fail`.
    pub fn restore(&mut self, aside: Aside)
        requires { IsSetAside aside self.old }
        ensures { (before : Session) → aside ≡ aside_of before → WentOn before self.old → self.new ≡ before }
    {
        self.env.undo(aside.mark);
        self.opened = aside.opened;
    }
}
