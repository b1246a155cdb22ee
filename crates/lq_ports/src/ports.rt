//! What a source of bytes and a sink for bytes promise.

ghost use Rattle.std.specs.Prelude.{◌≡◌, ◌<◌, ◌≤◌, ℕ, List, None, Option, length, is_some, IfOk, IsErrOf};
ghost use Rattle.std.specs.Io.KnownBytes.{IsAtEnd};
ghost use Rattle.lq_ports.specs.Ports.{Reads, Rose, Writes};
ghost use Rattle.lq_ports.specs.declared.ports.PortFault.TheVariants.{Failed};

use thiserror::Error;

/// Why a call moved no byte.
#[derive(Clone, Copy, Debug, PartialEq, Eq, Error)]
pub enum PortFault {
    /// The port failed, and its count of faults rose.
    #[error("the port failed")]
    Failed,
    /// There was no memory.
    #[error("there was no memory")]
    NoMemory,
}

/// Where bytes come from.
pub trait Source {
    /// The bytes that it has left, where it tells them.
    ghost remaining: { Self → Option (List ℕ) } = { λ _. None };

    /// How often it has failed.
    ghost faults: { Self → ℕ };

    /// Moves the next bytes to the front of the buffer, and answers how many. None for a buffer
    /// that has room is the end. What stands behind them in the buffer is not said.
    fn read(&mut self, buf: &mut [u8]) -> Result<usize, PortFault>
        ensures bound { IfOk result (λ n. n ≤ length buf.new) }
        ensures bytes { Reads (remaining self.old) (remaining self.new) buf.new result }
        ensures end { IfOk result (λ n. n ≡ 0 → 0 < length buf.new → IsAtEnd (remaining self.new)) }
        ensures told { is_some (remaining self.new) ≡ is_some (remaining self.old) }
        ensures later { faults self.old ≤ faults self.new }
        ensures cause { IsErrOf result Failed → Rose (faults self.old) (faults self.new) };

    /// How often it has failed. The count stands still at its last value.
    fn faults(&self) -> u64
        ensures { result ≡ faults self.now };
}

/// Where bytes go.
pub trait Sink {
    /// The bytes that it holds, where it tells them.
    ghost contents: { Self → Option (List ℕ) } = { λ _. None };

    /// How often it has failed.
    ghost faults: { Self → ℕ };

    /// Takes bytes from the front of the piece, and answers how many: at least one of a piece that
    /// isn't empty.
    fn write(&mut self, piece: &[u8]) -> Result<usize, PortFault>
        ensures bound { IfOk result (λ n. n ≤ length piece.now) }
        ensures some { IfOk result (λ n. 0 < length piece.now → 0 < n) }
        ensures bytes { Writes (contents self.old) (contents self.new) piece.now result }
        ensures told { is_some (contents self.new) ≡ is_some (contents self.old) }
        ensures later { faults self.old ≤ faults self.new }
        ensures cause { IsErrOf result Failed → Rose (faults self.old) (faults self.new) };

    /// How often it has failed. The count stands still at its last value.
    fn faults(&self) -> u64
        ensures { result ≡ faults self.now };
}
