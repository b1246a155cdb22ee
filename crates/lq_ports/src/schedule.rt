//! The calls of a port in memory, of which some are to fail.

ghost use Rattle.std.specs.Prelude.{◌≡◌, ◌≤◌, ◌↔◌, ◌⊎◌, Contains, IsTrue, IsErrOf, is_ok, if◌then◌else◌};
ghost use Rattle.lq_ports.specs.Ports.{one_more};
ghost use Rattle.lq_ports.specs.declared.ports.PortFault.TheVariants.{Failed, NoMemory};

use crate::ports::PortFault;

/// Which calls fail, and how many there were.
#[derive(Drop)]
pub(crate) struct Schedule {
    pub(crate) failing: Vec<u64>,
    pub(crate) calls: u64,
    pub(crate) faults: u64,
}

impl Schedule {
    /// No call was made yet.
    pub(crate) fn new(failing: Vec<u64>) -> Schedule
        ensures failing { result.failing ≡ failing }
        ensures calls { result.calls ≡ 0 }
        ensures faults { result.faults ≡ 0 }
    {
        Schedule {
            failing,
            calls: 0,
            faults: 0,
        }
    }

    /// Counts a call, and its fault: it fails where it is listed, and where it is stuck.
    pub(crate) fn call(&mut self, stuck: bool) -> Result<(), PortFault>
        ensures fails { IsErrOf result Failed ↔ (Contains self.old.failing.items (one_more self.old.calls) ⊎ IsTrue stuck) }
        ensures memory { ¬ IsErrOf result NoMemory }
        ensures failing { self.new.failing ≡ self.old.failing }
        ensures later { self.old.faults ≤ self.new.faults }
        ensures calls { self.new.calls ≡ one_more self.old.calls }
        ensures faults { self.new.faults ≡ (if is_ok result then self.old.faults else one_more self.old.faults) }
    {
        self.calls = self.calls.saturating_add(1);
        if self.failing.contains(&self.calls) || stuck {
            self.faults = self.faults.saturating_add(1);
            return Err(PortFault::Failed);
        }
        Ok(())
    }
}
