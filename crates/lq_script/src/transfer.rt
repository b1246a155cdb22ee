//! All the bytes of a source, up to a limit, and all of some bytes to a sink.

ghost use Rattle.std.specs.Prelude.{◌≡◌, ◌+◌, ◌<◌, ◌≤◌, ◌++◌, length, take, vec_len, IfOk, OnOk, OnErr, IsErrOf};
ghost use Rattle.std.specs.Io.KnownBytes.{Appends, Consumes, IsAtEnd};
ghost use Rattle.lq_ports.specs.Ports.{Rose};
ghost use Rattle.lq_script.specs.Transfer.{AppendsFront, LosesFront, ReadsFront};

use lq_ports::{PortFault, Sink, Source};
use std::alloc::{AllocError, Global};

/// Why a script was not read.
#[derive(Clone, Copy, Debug, PartialEq, Eq)]
pub enum ReadFailure {
    /// The source failed, and its count of faults rose.
    Fault,
    /// There was no memory.
    NoMemory,
}

impl From<PortFault> for ReadFailure {
    ghost use Rattle.lq_script.specs.Failures.{read_failure};

    ghost from_gives = { λ fault failure. failure ≡ read_failure fault };

    fn from(fault: PortFault) -> ReadFailure {
        match fault {
            PortFault::Failed => ReadFailure::Fault,
            PortFault::NoMemory => ReadFailure::NoMemory,
        }
    }
}

impl From<AllocError> for ReadFailure {
    ghost use Rattle.lq_script.specs.declared.transfer.ReadFailure.{ReadFailure};

    ghost from_gives = { λ _ failure. failure ≡ ReadFailure.NoMemory };

    fn from(_: AllocError) -> ReadFailure {
        ReadFailure::NoMemory
    }
}

/// Why bytes were not written.
#[derive(Clone, Copy, Debug, PartialEq, Eq)]
pub enum WriteFailure {
    /// The sink failed, and its count of faults rose.
    Fault,
    /// There was no memory.
    NoMemory,
}

impl From<PortFault> for WriteFailure {
    ghost use Rattle.lq_script.specs.Failures.{write_failure};

    ghost from_gives = { λ fault failure. failure ≡ write_failure fault };

    fn from(fault: PortFault) -> WriteFailure {
        match fault {
            PortFault::Failed => WriteFailure::Fault,
            PortFault::NoMemory => WriteFailure::NoMemory,
        }
    }
}

/// How many bytes are read at most: one more than a script may have.
const MOST_READ: usize = 4_194_305;

/// How many bytes one call of the source is asked for at most.
const PIECE: usize = 65_536;

/// A buffer of that length.
fn buffer(alloc: Global, len: usize) -> Result<Vec<u8>, AllocError>
    ensures { IfOk result (λ buffer. vec_len buffer ≡ len) }
{
    vec![in alloc; 0; len]
}

/// Reads once, and puts what came behind the script.
fn read_piece<S: Source>(
    source: &mut S,
    piece: &mut [u8],
    script: &mut Vec<u8>,
) -> Result<usize, ReadFailure>
    ensures bound { IfOk result (λ n. n ≤ length piece.new) }
    ensures taken { IfOk result (λ n. Consumes (S.remaining source.old) (S.remaining source.new) (take n piece.new)) }
    ensures script { IfOk result (λ n. script.new.items ≡ script.old.items ++ take n piece.new) }
    ensures len { IfOk result (λ n. vec_len script.new ≡ vec_len script.old + n) }
    ensures end { IfOk result (λ n. n ≡ 0 → 0 < length piece.new → IsAtEnd (S.remaining source.new)) }
    ensures lost { OnErr result (LosesFront (length piece.new) (S.remaining source.old) (S.remaining source.new)) }
    ensures later { S.faults source.old ≤ S.faults source.new }
    ensures cause { IsErrOf result ReadFailure.Fault → Rose (S.faults source.old) (S.faults source.new) }
{
    let count = source.read(piece)?;
    script.extend_from_slice(&piece[..count])?;
    Ok(count)
}

/// Reads to the end of the source, or until 4,194,305 bytes are there: so many tell that a script
/// is too long.
pub fn read_script<S: Source>(alloc: Global, source: &mut S) -> Result<Vec<u8>, ReadFailure>
    ensures bytes { IfOk result (λ script. ReadsFront 4194305 (S.remaining source.old) (S.remaining source.new) script.items) }
    ensures bound { IfOk result (λ script. vec_len script ≤ 4194305) }
    ensures lost { OnErr result (LosesFront 4194305 (S.remaining source.old) (S.remaining source.new)) }
    ensures later { S.faults source.old ≤ S.faults source.new }
    ensures cause { IsErrOf result ReadFailure.Fault → Rose (S.faults source.old) (S.faults source.new) }
{
    let mut piece = buffer(alloc, PIECE)?;
    let mut script = Vec::new(alloc);
    while script.len() < MOST_READ {
        let room = PIECE.min(MOST_READ - script.len());
        if read_piece(source, &mut piece[..room], &mut script)? == 0 {
            return Ok(script);
        }
    }
    Ok(script)
}

/// Writes all the bytes, in as many calls of the sink as it takes.
pub fn write_all<K: Sink>(sink: &mut K, bytes: &[u8]) -> Result<(), WriteFailure>
    ensures ok { OnOk result (Appends (K.contents sink.old) (K.contents sink.new) bytes.now) }
    ensures err { OnErr result (AppendsFront (K.contents sink.old) (K.contents sink.new) bytes.now) }
    ensures later { K.faults sink.old ≤ K.faults sink.new }
    ensures cause { IsErrOf result WriteFailure.Fault → Rose (K.faults sink.old) (K.faults sink.new) }
{
    let mut written = 0;
    while written < bytes.len() {
        let count = sink.write(&bytes[written..])?;
        written += count;
    }
    Ok(())
}
