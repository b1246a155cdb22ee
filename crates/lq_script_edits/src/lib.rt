//! The top call and the number of a status once more, with their clauses: what an edit turns here is refused by the clauses alone.
#![tactic(auto)]

ghost use Rattle.std.specs.Prelude.{◌≡◌, ◌≤◌, ℕ, List, Some};
ghost use Rattle.lq_ports.specs.Ports.{Rose};
ghost use Rattle.lq_output.specs.Numbers.{number_of};
ghost use Rattle.lq_output.specs.Output.{HasDerivations};
ghost use Rattle.lq_script.specs.Main.{Gives, ReadsAll};

use lq_ports::{Sink, Source};
use lq_script::{Status, ltac_main};
use std::alloc::Global;

/// Runs a script: reads all of it from the source, and writes what it gives to the sink.
pub fn whole_script<S: Source, K: Sink>(
    alloc: Global,
    words: &[String],
    source: &mut S,
    out: &mut K,
) -> Status
    ensures gives { (bytes : List ℕ) → S.remaining source.old ≡ Some bytes → Gives bytes (K.contents out.old) (K.contents out.new) result }
    ensures reads { (bytes : List ℕ) → S.remaining source.old ≡ Some bytes → ReadsAll result (S.remaining source.new) }
    ensures derived { (bytes : List ℕ) → S.remaining source.old ≡ Some bytes → (n : ℕ) → HasDerivations n bytes }
    ensures read_fault { result ≡ Status.ReadFault → Rose (S.faults source.old) (S.faults source.new) }
    ensures write_fault { result ≡ Status.WriteFault → Rose (K.faults out.old) (K.faults out.new) }
{
    ltac_main(alloc, words, source, out)
}

/// The number of a status.
pub fn status_number(status: Status) -> u8
    ensures { result ≡ number_of status }
{
    status.number()
}
