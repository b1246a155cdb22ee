//! Standard input and output as ports. They tell nothing of the bytes.

ghost use Rattle.std.specs.Prelude.{◌≡◌, ◌<◌, ◌≤◌, length, IfOk, IsErrOf, is_ok, if◌then◌else◌};
ghost use Rattle.lq_ports.specs.Ports.{one_more};
ghost use Rattle.lq_ports.specs.declared.ports.PortFault.TheVariants.{NoMemory};

use crate::ports::{PortFault, Sink, Source};
use std::io::{Read, Write};
use std::marker::Model;
use std::rt::{Stdin, Stdout};

/// Standard input as a source. Contracts see it as its count of faults.
#[derive(Drop)]
pub struct StdSource {
    input: Stdin,
    faults: u64,
}

impl Model for StdSource {
    ghost use Rattle.std.specs.Prelude.{ℕ};

    ghost Value = { ℕ };

    ghost view = { λ s. s.faults };
}

impl StdSource {
    /// The standard input of a runtime.
    pub fn new(input: Stdin) -> StdSource
        ensures { result ≡ 0 }
    {
        StdSource { input, faults: 0 }
    }
}

impl Source for StdSource {
    ghost faults = { λ s. s };

    /// One call of the system. Each of its errors is a fault.
    fn read(&mut self, buf: &mut [u8]) -> Result<usize, PortFault>
        ensures bound { IfOk result (λ n. n ≤ length buf.new) }
        ensures later { self.old ≤ self.new }
        ensures memory { ¬ IsErrOf result NoMemory }
        ensures faults { self.new ≡ (if is_ok result then self.old else one_more self.old) }
    {
        match self.input.read(buf) {
            Ok(count) => Ok(count),
            Err(_) => {
                self.faults = self.faults.saturating_add(1);
                Err(PortFault::Failed)
            }
        }
    }

    fn faults(&self) -> u64 {
        self.faults
    }
}

/// Standard output as a sink. Contracts see it as its count of faults.
#[derive(Drop)]
pub struct StdSink {
    output: Stdout,
    faults: u64,
}

impl Model for StdSink {
    ghost use Rattle.std.specs.Prelude.{ℕ};

    ghost Value = { ℕ };

    ghost view = { λ s. s.faults };
}

impl StdSink {
    /// The standard output of a runtime.
    pub fn new(output: Stdout) -> StdSink
        ensures { result ≡ 0 }
    {
        StdSink { output, faults: 0 }
    }
}

impl Sink for StdSink {
    ghost faults = { λ s. s };

    /// One call of the system. Each of its errors is a fault, and so is a call that takes nothing of
    /// a piece that isn't empty.
    fn write(&mut self, piece: &[u8]) -> Result<usize, PortFault>
        ensures bound { IfOk result (λ n. n ≤ length piece.now) }
        ensures some { IfOk result (λ n. 0 < length piece.now → 0 < n) }
        ensures later { self.old ≤ self.new }
        ensures memory { ¬ IsErrOf result NoMemory }
        ensures faults { self.new ≡ (if is_ok result then self.old else one_more self.old) }
    {
        match self.output.write(piece) {
            Ok(count) if count > 0 || piece.is_empty() => Ok(count),
            _ => {
                self.faults = self.faults.saturating_add(1);
                Err(PortFault::Failed)
            }
        }
    }

    fn faults(&self) -> u64 {
        self.faults
    }
}
