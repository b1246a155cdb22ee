//! Ports in memory that move few bytes at a time and fail at calls that are listed.

ghost use Rattle.std.specs.Prelude.{◌≡◌, ◌<◌, ◌≤◌, ◌↔◌, ◌⊎◌, ◌++◌, min, length, take, drop};
ghost use Rattle.std.specs.Prelude.{Contains, IfOk, IsErrOf, MatchResult, Some, is_ok, if◌then◌else◌};
ghost use Rattle.std.specs.Io.KnownBytes.{IsAtEnd};
ghost use Rattle.lq_ports.specs.Ports.{Reads, Rose, Writes, one_more};
ghost use Rattle.lq_ports.specs.declared.ports.PortFault.TheVariants.{Failed, NoMemory};

use lq_ports::{MemorySink, MemorySource, PortFault, Sink, Source};

/// Moves the next bytes of a source to the front of the buffer.
pub fn memory_read(source: &mut MemorySource, buf: &mut [u8]) -> Result<usize, PortFault>
    ensures bound { IfOk result (λ n. n ≤ length buf.new) }
    ensures bytes { Reads (Some source.old.left) (Some source.new.left) buf.new result }
    ensures end { IfOk result (λ n. n ≡ 0 → 0 < length buf.new → IsAtEnd (Some source.new.left)) }
    ensures later { source.old.faults ≤ source.new.faults }
    ensures cause { IsErrOf result Failed → Rose source.old.faults source.new.faults }
    ensures fails { IsErrOf result Failed ↔ Contains source.old.failing (one_more source.old.calls) }
    ensures memory { ¬ IsErrOf result NoMemory }
    ensures count { IfOk result (λ n. n ≡ min source.old.at_most (min (length buf.old) (length source.old.left))) }
    ensures buffer { MatchResult result (λ n. buf.new ≡ take n source.old.left ++ drop n buf.old) (λ _. buf.new ≡ buf.old) }
    ensures calls { source.new.calls ≡ one_more source.old.calls }
    ensures faults { source.new.faults ≡ (if is_ok result then source.old.faults else one_more source.old.faults) }
    ensures failing { source.new.failing ≡ source.old.failing }
    ensures at_most { source.new.at_most ≡ source.old.at_most }
{
    source.read(buf)
}

/// How often a source has failed.
pub fn source_faults(source: &MemorySource) -> u64
    ensures { result ≡ source.now.faults }
{
    source.faults()
}

/// Puts the front of a piece behind what a sink holds.
pub fn memory_write(sink: &mut MemorySink, piece: &[u8]) -> Result<usize, PortFault>
    ensures bound { IfOk result (λ n. n ≤ length piece.now) }
    ensures some { IfOk result (λ n. 0 < length piece.now → 0 < n) }
    ensures bytes { Writes (Some sink.old.held) (Some sink.new.held) piece.now result }
    ensures later { sink.old.faults ≤ sink.new.faults }
    ensures cause { IsErrOf result Failed → Rose sink.old.faults sink.new.faults }
    ensures fails { IsErrOf result Failed ↔ (Contains sink.old.failing (one_more sink.old.calls)
        ⊎ ((sink.old.at_most ≡ 0) × (0 < length piece.now))) }
    ensures count { IfOk result (λ n. n ≡ min sink.old.at_most (length piece.now)) }
    ensures calls { sink.new.calls ≡ one_more sink.old.calls }
    ensures quiet { ¬ IsErrOf result Failed → sink.new.faults ≡ sink.old.faults }
    ensures one_fault { IsErrOf result Failed → sink.new.faults ≡ one_more sink.old.faults }
    ensures failing { sink.new.failing ≡ sink.old.failing }
    ensures at_most { sink.new.at_most ≡ sink.old.at_most }
{
    sink.write(piece)
}

/// How often a sink has failed.
pub fn sink_faults(sink: &MemorySink) -> u64
    ensures { result ≡ sink.now.faults }
{
    sink.faults()
}
