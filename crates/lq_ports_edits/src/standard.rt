//! Standard input and output as ports.

ghost use Rattle.std.specs.Prelude.{◌≡◌, ◌<◌, ◌≤◌, length, IfOk, IsErrOf, is_ok, if◌then◌else◌};
ghost use Rattle.lq_ports.specs.Ports.{one_more};
ghost use Rattle.lq_ports.specs.declared.ports.PortFault.TheVariants.{NoMemory};

use lq_ports::{PortFault, Sink, Source, StdSink, StdSource};

/// Moves the next bytes of standard input to the front of the buffer.
pub fn standard_read(source: &mut StdSource, buf: &mut [u8]) -> Result<usize, PortFault>
    ensures bound { IfOk result (λ n. n ≤ length buf.new) }
    ensures later { source.old ≤ source.new }
    ensures memory { ¬ IsErrOf result NoMemory }
    ensures faults { source.new ≡ (if is_ok result then source.old else one_more source.old) }
{
    source.read(buf)
}

/// Writes the front of a piece to standard output.
pub fn standard_write(sink: &mut StdSink, piece: &[u8]) -> Result<usize, PortFault>
    ensures bound { IfOk result (λ n. n ≤ length piece.now) }
    ensures some { IfOk result (λ n. 0 < length piece.now → 0 < n) }
    ensures later { sink.old ≤ sink.new }
    ensures memory { ¬ IsErrOf result NoMemory }
    ensures faults { sink.new ≡ (if is_ok result then sink.old else one_more sink.old) }
{
    sink.write(piece)
}
