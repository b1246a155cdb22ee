//! Ports in memory that never fail.

ghost use Rattle.std.specs.Prelude.{◌≡◌, ◌<◌, ◌≤◌, ◌++◌, [], min, length, take, drop, IsOk, IfOk, IsErrOf, Some};
ghost use Rattle.std.specs.Io.KnownBytes.{IsAtEnd};
ghost use Rattle.lq_ports.specs.Ports.{Reads, Writes};
ghost use Rattle.lq_ports.specs.declared.ports.PortFault.TheVariants.{Failed};

use crate::ports::{PortFault, Sink, Source};
use std::alloc::Global;
use std::marker::Model;

/// A source of bytes in memory that never fails. Contracts see it as the bytes that it has left.
#[derive(Drop)]
pub struct StillSource {
    bytes: Vec<u8>,
    place: usize,
}

impl Model for StillSource {
    ghost use Rattle.std.specs.Prelude.{ℕ, List, ◌≤◌, drop, vec_len};

    ghost Value = { List ℕ };

    ghost view = { λ s. drop s.place s.bytes.items };

    ghost invariant = { λ s. s.place ≤ vec_len s.bytes };
}

impl StillSource {
    /// A source of these bytes.
    pub fn new(bytes: Vec<u8>) -> StillSource
        ensures { result ≡ bytes.items }
    {
        StillSource { bytes, place: 0 }
    }

    /// The bytes that it has left.
    fn left(&self) -> &[u8]
        ensures { result.now ≡ self.now }
    {
        &self.bytes[self.place..]
    }
}

/// Copies bytes to the front of the buffer, as many as there are and have room, and says how many.
fn copy_front(from: &[u8], buf: &mut [u8]) -> usize
    ensures count { result ≡ min (length buf.old) (length from.now) }
    ensures copied { buf.new ≡ take result from.now ++ drop result buf.old }
{
    let count = buf.len().min(from.len());
    buf[..count].copy_from_slice(&from[..count]);
    count
}

impl Source for StillSource {
    ghost remaining = { λ s. Some s };

    ghost faults = { λ _. 0 };

    /// Gives as many bytes as are left and have room.
    fn read(&mut self, buf: &mut [u8]) -> Result<usize, PortFault>
        ensures bound { IfOk result (λ n. n ≤ length buf.new) }
        ensures bytes { Reads (Some self.old) (Some self.new) buf.new result }
        ensures end { IfOk result (λ n. n ≡ 0 → 0 < length buf.new → IsAtEnd (Some self.new)) }
        ensures ok { IsOk result }
        ensures count { IfOk result (λ n. n ≡ min (length buf.old) (length self.old)) }
        ensures copied { IfOk result (λ n. buf.new ≡ take n self.old ++ drop n buf.old) }
        ensures rest { IfOk result (λ n. self.new ≡ drop n self.old) }
    {
        let count = copy_front(self.left(), buf);
        self.place += count;
        Ok(count)
    }

    fn faults(&self) -> u64 {
        0
    }
}

/// A sink for bytes in memory that never fails, though memory may be wanting. Contracts see it as
/// the bytes that it holds.
#[derive(Drop)]
pub struct StillSink {
    bytes: Vec<u8>,
}

impl Model for StillSink {
    ghost use Rattle.std.specs.Prelude.{ℕ, List};

    ghost Value = { List ℕ };

    ghost view = { λ s. s.bytes.items };
}

impl StillSink {
    /// An empty sink.
    pub fn new(alloc: Global) -> StillSink
        ensures { result ≡ [] }
    {
        StillSink {
            bytes: Vec::new(alloc),
        }
    }

    /// The bytes that it holds.
    pub fn bytes(&self) -> &[u8]
        ensures { result.now ≡ self.now }
    {
        &self.bytes
    }
}

impl Sink for StillSink {
    ghost contents = { λ s. Some s };

    ghost faults = { λ _. 0 };

    /// Takes the whole piece.
    fn write(&mut self, piece: &[u8]) -> Result<usize, PortFault>
        ensures bound { IfOk result (λ n. n ≤ length piece.now) }
        ensures some { IfOk result (λ n. 0 < length piece.now → 0 < n) }
        ensures bytes { Writes (Some self.old) (Some self.new) piece.now result }
        ensures whole { IfOk result (λ n. n ≡ length piece.now) }
        ensures never { ¬ IsErrOf result Failed }
    {
        match self.bytes.extend_from_slice(piece) {
            Ok(()) => Ok(piece.len()),
            Err(_) => Err(PortFault::NoMemory),
        }
    }

    fn faults(&self) -> u64 {
        0
    }
}
