//! Ports in memory that move few bytes at a time and fail at calls that are listed.

ghost use Rattle.std.specs.Prelude.{◌≡◌, ◌<◌, ◌≤◌, ◌↔◌, ◌⊎◌, ◌++◌, [], min, length, take, drop};
ghost use Rattle.std.specs.Prelude.{Contains, IfOk, IsErrOf, MatchResult, Some, is_ok, if◌then◌else◌};
ghost use Rattle.std.specs.Io.KnownBytes.{IsAtEnd};
ghost use Rattle.lq_ports.specs.Ports.{Reads, Rose, Writes, one_more};
ghost use Rattle.lq_ports.specs.declared.ports.PortFault.TheVariants.{Failed, NoMemory};

use crate::ports::{PortFault, Sink, Source};
use crate::schedule::Schedule;
use crate::still::{StillSink, StillSource};
use std::alloc::Global;
use std::marker::Model;

/// A source of bytes in memory, which gives few bytes at a time and fails at the calls that are listed.
#[derive(Drop)]
pub struct MemorySource {
    still: StillSource,
    at_most: usize,
    schedule: Schedule,
}

impl Model for MemorySource {
    ghost use Rattle.std.specs.Prelude.{◌≤◌};
    ghost use Rattle.lq_ports.specs.Memory.{SourceState};

    ghost Value = { SourceState };

    ghost view = { λ s. record {
      left = s.still;
      at_most = s.at_most;
      failing = s.schedule.failing.items;
      calls = s.schedule.calls;
      faults = s.schedule.faults;
    } };

    ghost invariant = { λ s. 1 ≤ s.at_most };
}

impl MemorySource {
    /// A source of these bytes. A call gives at most so many, and the calls whose numbers are
    /// listed fail: the first has the number 1.
    pub fn new(bytes: Vec<u8>, at_most: usize, failing: Vec<u64>) -> MemorySource
        requires { 1 ≤ at_most }
        ensures { result ≡ record { left = bytes.items; at_most = at_most; failing = failing.items; calls = 0; faults = 0 } }
    {
        MemorySource {
            still: StillSource::new(bytes),
            at_most,
            schedule: Schedule::new(failing),
        }
    }
}

impl Source for MemorySource {
    ghost remaining = { λ s. Some s.left };

    ghost faults = { λ s. s.faults };

    fn read(&mut self, buf: &mut [u8]) -> Result<usize, PortFault>
        ensures bound { IfOk result (λ n. n ≤ length buf.new) }
        ensures bytes { Reads (Some self.old.left) (Some self.new.left) buf.new result }
        ensures end { IfOk result (λ n. n ≡ 0 → 0 < length buf.new → IsAtEnd (Some self.new.left)) }
        ensures later { self.old.faults ≤ self.new.faults }
        ensures cause { IsErrOf result Failed → Rose self.old.faults self.new.faults }

        // It fails at the calls that are listed and at no others, and never wants memory.
        ensures fails { IsErrOf result Failed ↔ Contains self.old.failing (one_more self.old.calls) }
        ensures memory { ¬ IsErrOf result NoMemory }
        ensures count { IfOk result (λ n. n ≡ min self.old.at_most (min (length buf.old) (length self.old.left))) }
        ensures buffer { MatchResult result (λ n. buf.new ≡ take n self.old.left ++ drop n buf.old) (λ _. buf.new ≡ buf.old) }

        // What the next calls do.
        ensures calls { self.new.calls ≡ one_more self.old.calls }
        ensures faults { self.new.faults ≡ (if is_ok result then self.old.faults else one_more self.old.faults) }
        ensures failing { self.new.failing ≡ self.old.failing }
        ensures at_most { self.new.at_most ≡ self.old.at_most }
    {
        self.schedule.call(false)?;
        let room = self.at_most.min(buf.len());
        self.still.read(&mut buf[..room])
    }

    fn faults(&self) -> u64 {
        self.schedule.faults
    }
}

/// A sink for bytes in memory, which takes few bytes at a time and fails at the calls that are listed.
#[derive(Drop)]
pub struct MemorySink {
    still: StillSink,
    at_most: usize,
    schedule: Schedule,
}

impl Model for MemorySink {
    ghost use Rattle.lq_ports.specs.Memory.{SinkState};

    ghost Value = { SinkState };

    ghost view = { λ s. record {
      held = s.still;
      at_most = s.at_most;
      failing = s.schedule.failing.items;
      calls = s.schedule.calls;
      faults = s.schedule.faults;
    } };
}

impl MemorySink {
    /// An empty sink. A call takes at most so many bytes, and the calls whose numbers are listed
    /// fail: the first has the number 1. Where no byte may be taken, each call with bytes fails.
    pub fn new(alloc: Global, at_most: usize, failing: Vec<u64>) -> MemorySink
        ensures { result ≡ record { held = []; at_most = at_most; failing = failing.items; calls = 0; faults = 0 } }
    {
        MemorySink {
            still: StillSink::new(alloc),
            at_most,
            schedule: Schedule::new(failing),
        }
    }

    /// The bytes that it holds.
    pub fn bytes(&self) -> &[u8]
        ensures { result.now ≡ self.now.held }
    {
        self.still.bytes()
    }
}

impl Sink for MemorySink {
    ghost contents = { λ s. Some s.held };

    ghost faults = { λ s. s.faults };

    fn write(&mut self, piece: &[u8]) -> Result<usize, PortFault>
        ensures bound { IfOk result (λ n. n ≤ length piece.now) }
        ensures some { IfOk result (λ n. 0 < length piece.now → 0 < n) }
        ensures bytes { Writes (Some self.old.held) (Some self.new.held) piece.now result }
        ensures later { self.old.faults ≤ self.new.faults }
        ensures cause { IsErrOf result Failed → Rose self.old.faults self.new.faults }

        // It fails at the calls that are listed, where it may take no byte, and at no others.
        ensures fails { IsErrOf result Failed ↔ (Contains self.old.failing (one_more self.old.calls)
            ⊎ ((self.old.at_most ≡ 0) × (0 < length piece.now))) }
        ensures count { IfOk result (λ n. n ≡ min self.old.at_most (length piece.now)) }

        // What the next calls do.
        ensures calls { self.new.calls ≡ one_more self.old.calls }
        ensures quiet { ¬ IsErrOf result Failed → self.new.faults ≡ self.old.faults }
        ensures one_fault { IsErrOf result Failed → self.new.faults ≡ one_more self.old.faults }
        ensures failing { self.new.failing ≡ self.old.failing }
        ensures at_most { self.new.at_most ≡ self.old.at_most }
    {
        let room = self.at_most.min(piece.len());
        self.schedule.call(room == 0 && !piece.is_empty())?;
        self.still.write(&piece[..room])
    }

    fn faults(&self) -> u64 {
        self.schedule.faults
    }
}
