//! Ports in memory that never fail.

ghost use Rattle.std.specs.Prelude.{◌≡◌, ◌<◌, ◌≤◌, ◌++◌, min, length, take, drop, IsOk, IfOk, IsErrOf, Some};
ghost use Rattle.std.specs.Io.KnownBytes.{IsAtEnd};
ghost use Rattle.lq_ports.specs.Ports.{Reads, Writes};
ghost use Rattle.lq_ports.specs.declared.ports.PortFault.TheVariants.{Failed};

use lq_ports::{PortFault, Sink, Source, StillSink, StillSource};

/// Moves the next bytes of a source to the front of the buffer.
pub fn still_read(source: &mut StillSource, buf: &mut [u8]) -> Result<usize, PortFault>
    ensures bound { IfOk result (λ n. n ≤ length buf.new) }
    ensures bytes { Reads (Some source.old) (Some source.new) buf.new result }
    ensures end { IfOk result (λ n. n ≡ 0 → 0 < length buf.new → IsAtEnd (Some source.new)) }
    ensures ok { IsOk result }
    ensures count { IfOk result (λ n. n ≡ min (length buf.old) (length source.old)) }
    ensures copied { IfOk result (λ n. buf.new ≡ take n source.old ++ drop n buf.old) }
    ensures rest { IfOk result (λ n. source.new ≡ drop n source.old) }
{
    source.read(buf)
}

/// Puts a piece behind what a sink holds.
pub fn still_write(sink: &mut StillSink, piece: &[u8]) -> Result<usize, PortFault>
    ensures bound { IfOk result (λ n. n ≤ length piece.now) }
    ensures some { IfOk result (λ n. 0 < length piece.now → 0 < n) }
    ensures bytes { Writes (Some sink.old) (Some sink.new) piece.now result }
    ensures whole { IfOk result (λ n. n ≡ length piece.now) }
    ensures never { ¬ IsErrOf result Failed }
{
    sink.write(piece)
}
