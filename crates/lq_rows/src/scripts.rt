//! What scripts come to.

ghost use Rattle.std.specs.Prelude.{◌≤◌};

use lq_ports::{MemorySink, MemorySource, StillSink, StillSource};
use lq_row_texts::RowFault;
use lq_script::{Status, ltac_main};
use std::alloc::Global;

/// What a script comes to: its status, and what is written.
#[derive(Drop)]
pub(crate) struct Told {
    pub(crate) status: Status,
    pub(crate) text: String,
}

/// What is written, as text.
fn written(alloc: Global, bytes: &[u8], status: Status) -> Result<Told, RowFault> {
    match str::from_utf8(bytes) {
        Ok(text) => Ok(Told {
            status,
            text: String::from_str(alloc, text)?,
        }),
        Err(_) => Err(RowFault::Malformed),
    }
}

/// Runs a script through ports that move all bytes at once.
fn at_once(alloc: Global, script: Vec<u8>) -> Result<Told, RowFault> {
    let mut source = StillSource::new(script);
    let mut sink = StillSink::new(alloc);
    let status = ltac_main(alloc, &[], &mut source, &mut sink);
    written(alloc, sink.bytes(), status)
}

/// How ports in memory move bytes: how many at most, and whether the first read and the first write fail.
#[derive(Clone, Copy)]
struct Ports {
    at_most: usize,
    fails_read: bool,
    fails_write: bool,
}

/// The first call, where it fails.
fn first_if(alloc: Global, fails: bool) -> Result<Vec<u64>, RowFault> {
    let mut calls = Vec::new(alloc);
    if fails {
        calls.push(1)?;
    }
    Ok(calls)
}

/// Runs a script through ports in memory.
fn through(alloc: Global, script: Vec<u8>, ports: Ports) -> Result<Told, RowFault>
    requires { 1 ≤ ports.at_most }
{
    let reads = first_if(alloc, ports.fails_read)?;
    let writes = first_if(alloc, ports.fails_write)?;
    let mut source = MemorySource::new(script, ports.at_most, reads);
    let mut sink = MemorySink::new(alloc, ports.at_most, writes);
    let status = ltac_main(alloc, &[], &mut source, &mut sink);
    written(alloc, sink.bytes(), status)
}

/// Runs a script through the ports of a row.
pub(crate) fn answer(alloc: Global, word: &str, script: Vec<u8>) -> Result<Told, RowFault> {
    let whole = Ports {
        at_most: 65_536,
        fails_read: false,
        fails_write: false,
    };
    match word {
        "run" => at_once(alloc, script),
        "file" => at_once(alloc, script),
        "bytewise" => through(
            alloc,
            script,
            Ports {
                at_most: 1,
                ..whole
            },
        ),
        "no-read" => through(
            alloc,
            script,
            Ports {
                fails_read: true,
                ..whole
            },
        ),
        "no-write" => through(
            alloc,
            script,
            Ports {
                fails_write: true,
                ..whole
            },
        ),
        _ => Err(RowFault::Malformed),
    }
}
