//! The top call.

ghost use Rattle.std.specs.Prelude.{◌≡◌, ◌≤◌, ℕ, List, Some};
ghost use Rattle.lq_ports.specs.Ports.{Rose};
ghost use Rattle.lq_output.specs.Output.{HasDerivations};
ghost use Rattle.lq_script.specs.Main.{Delivers, Gives, IsVerdict, ReadsAll};

use crate::script::{Answer, run_script};
use crate::transfer::{ReadFailure, WriteFailure, read_script, write_all};
use lq_output::Status;
use lq_ports::{Sink, Source};
use std::alloc::Global;

/// Runs a script: reads all of it from the source, and writes what it gives to the sink. The words
/// of the command line are ignored so far.
///
/// It answers `Done` where every sentence is accepted and no theorem is left open, `ScriptFault`
/// where a sentence is refused, and `TooLong` where the script has more than 4,194,304 bytes. These
/// come exactly where the definition of the script's output gives them, with all of its text
/// written. `ReadFault` and `WriteFault` come only where the source, the sink has counted a fault
/// in this call, and `NoMemory` where memory ran out; what is written then is a front of the text.
pub fn ltac_main<S: Source, K: Sink>(
    alloc: Global,
    words: &[String],
    source: &mut S,
    out: &mut K,
) -> Status
    // The status and the bytes written are those of the script, or a front of its bytes.
    ensures gives { (bytes : List ℕ) → S.remaining source.old ≡ Some bytes → Gives bytes (K.contents out.old) (K.contents out.new) result }
    ensures reads { (bytes : List ℕ) → S.remaining source.old ≡ Some bytes → ReadsAll result (S.remaining source.new) }
    // A report is of a theorem whose term has its statement as type by the typing rules.
    ensures derived { (bytes : List ℕ) → S.remaining source.old ≡ Some bytes → (n : ℕ) → HasDerivations n bytes }
    // The ports' faults have their cause there.
    ensures read_fault { result ≡ Status.ReadFault → Rose (S.faults source.old) (S.faults source.new) }
    ensures write_fault { result ≡ Status.WriteFault → Rose (K.faults out.old) (K.faults out.new) }
{
    let _words = words;
    transfer_script(alloc, source, out)
}

/// Reads a script, runs it, and writes its answer.
fn transfer_script<S: Source, K: Sink>(alloc: Global, source: &mut S, out: &mut K) -> Status
    ensures gives { (bytes : List ℕ) → S.remaining source.old ≡ Some bytes → Gives bytes (K.contents out.old) (K.contents out.new) result }
    ensures reads { (bytes : List ℕ) → S.remaining source.old ≡ Some bytes → ReadsAll result (S.remaining source.new) }
    ensures read_fault { result ≡ Status.ReadFault → Rose (S.faults source.old) (S.faults source.new) }
    ensures write_fault { result ≡ Status.WriteFault → Rose (K.faults out.old) (K.faults out.new) }
{
    match read_script(alloc, source) {
        Ok(script) => match run_script(alloc, script.as_slice()) {
            Ok(answer) => deliver(out, &answer),
            Err(_) => Status::NoMemory,
        },
        Err(ReadFailure::Fault) => Status::ReadFault,
        Err(ReadFailure::NoMemory) => Status::NoMemory,
    }
}

/// Writes an answer, and tells its status.
fn deliver<K: Sink>(out: &mut K, answer: &Answer) -> Status
    ensures delivered { Delivers (K.contents out.old) (K.contents out.new) answer.now result }
    ensures no_read { IsVerdict answer.now.status → result ≡ Status.ReadFault → ⊥ }
    ensures cause { IsVerdict answer.now.status → result ≡ Status.WriteFault → Rose (K.faults out.old) (K.faults out.new) }
{
    match write_all(out, answer.text.as_slice()) {
        Ok(()) => answer.status,
        Err(WriteFailure::Fault) => Status::WriteFault,
        Err(WriteFailure::NoMemory) => Status::NoMemory,
    }
}
