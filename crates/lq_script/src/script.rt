//! A whole script: its sentences one after the other, and what is written for them.

ghost use Rattle.std.specs.Prelude.{◌≡◌, ◌<◌, ◌^◌, ◌&&◌, length, IfOk, IfErr, true, string_bytes};
ghost use Rattle.lq_output.specs.Output.{all_blank, is_outside, too_long};
ghost use Rattle.lq_script.specs.Answers.{as_output, IsOutputOf};
ghost use Rattle.lq_script.specs.Proofs.{Tells};
ghost use Rattle.lq_script.specs.States.{state_of, IsSession};
ghost use Rattle.lq_script.specs.Turns.{IsAccepted, IsRefused, IsEndOf, IsRunOf, Turns};

use crate::fault::SentenceFault;
use crate::printer::append_fault_line;
use crate::reader::{behind_blanks, read, sentence_end};
use crate::session::{Place, Session};
use lq_output::Status;
use lq_terms::{NoMemory, Steps};
use std::alloc::Global;
use std::marker::Brand;
use std::sync::ledger::{Blank, Ledger};

/// The most bytes of a script.
const MOST_BYTES: usize = 4_194_304;

/// What a script gives: the text that is written, and the status.
#[derive(Drop)]
pub(crate) struct Answer {
    /// The text.
    pub(crate) text: Vec<u8>,
    /// The status.
    pub(crate) status: Status,
}

/// The answer to a script.
pub(crate) fn run_script(alloc: Global, bytes: &[u8]) -> Result<Answer, NoMemory>
    ensures { IfOk result (IsOutputOf bytes.now) }
{
    if bytes.len() > MOST_BYTES {
        return answer_too_long(alloc);
    }
    let blank = Blank::new(1);
    run_sentences::<Brand>(alloc, bytes, blank)
}

/// The answer to a script of too many bytes.
#[tactic(auto, unfolding(lq_output::specs::Output::too_long))]
fn answer_too_long(alloc: Global) -> Result<Answer, NoMemory>
    ensures { IfOk result (λ a. too_long ≡ as_output a) }
{
    let text = Vec::from_slice(alloc, b"Error: script longer than 4194304 bytes\n")?;
    Ok(Answer {
        text,
        status: Status::TooLong,
    })
}

/// The answer to a script's sentences, one after the other: the first fault ends the run.
fn run_sentences<L: Ledger>(alloc: Global, bytes: &[u8], blank: Blank) -> Result<Answer, NoMemory>
    requires length { length bytes.now < 2 ^ 62 }
    requires name { blank.name ≡ L.name }
    requires parts { blank.parts ≡ L.parts }
    requires some { 0 < L.parts }
    ensures { IfOk result (IsRunOf bytes.now) }
{
    let mut steps = Steps::<L>::new(blank);
    let mut session = Session::new(alloc)?;
    let mut text = Vec::new(alloc);
    let mut from = 0usize;
    let mut number = 1u64;
    while let Some(dot) = sentence_end(bytes, from) {
        if !run_sentence(
            &mut session,
            &bytes[from..dot],
            number,
            &mut text,
            &mut steps,
        )? {
            return Ok(Answer {
                text,
                status: Status::ScriptFault,
            });
        }
        from = dot + 1;
        number += 1;
    }
    end(&mut session, &bytes[from..], number, text)
}

/// Runs a sentence and puts what it writes, or the line of its fault, behind the text so far. It
/// answers whether the run goes on.
fn run_sentence<L: Ledger>(
    session: &mut Session<'_>,
    sentence: &[u8],
    number: u64,
    text: &mut Vec<u8>,
    steps: &mut Steps<L>,
) -> Result<bool, NoMemory>
    requires { IsSession session.old }
    ensures is { IfOk result (λ goes. goes ≡ true → IsSession session.new) }
    ensures turns { IfOk result (λ goes. Turns goes session.old session.new number sentence.now text.old.items text.new.items) }
{
    match read_and_run(session, sentence, steps) {
        Ok(line) => {
            text.extend_from_slice(line.as_bytes())?;
            Ok(true)
        }
        Err(fault) => {
            append_fault_line(text, &mut session.bank, number, fault)?;
            Ok(false)
        }
    }
}

/// Runs the sentence that a text without its dot is, and gives what it writes.
fn read_and_run<L: Ledger>(
    session: &mut Session<'_>,
    text: &[u8],
    steps: &mut Steps<L>,
) -> Result<String, SentenceFault>
    requires { IsSession session.old }
    ensures is { IsSession session.new }
    ensures accepted { IfOk result (λ line. IsAccepted session.old session.new text.now (string_bytes line)) }
    ensures refused { IfErr result (λ fault. Tells session.new.bank fault (IsRefused session.old text.now)) }
{
    match read(session.bank.allocator(), text)? {
        Some(sentence) => session.run(&sentence, steps),
        None => Err(SentenceFault::NotBuilt),
    }
}

/// The answer at the end of a script: behind the last sentence stand blanks alone, and no theorem is
/// begun, or there is a fault.
fn end(
    session: &mut Session<'_>,
    rest: &[u8],
    number: u64,
    mut text: Vec<u8>,
) -> Result<Answer, NoMemory>
    ensures { IfOk result (IsEndOf (state_of session.old) number rest.now text.items) }
{
    if is_ended(session, rest) {
        return Ok(Answer {
            text,
            status: Status::Done,
        });
    }
    append_fault_line(
        &mut text,
        &mut session.bank,
        number,
        SentenceFault::NotBuilt,
    )?;
    Ok(Answer {
        text,
        status: Status::ScriptFault,
    })
}

/// Whether a script may end here, with that text behind its last sentence.
fn is_ended(session: &Session<'_>, rest: &[u8]) -> bool
    ensures { result ≡ (is_outside (state_of session.now).place && all_blank rest.now) }
{
    is_outside(session) && is_all_blank(rest)
}

/// Whether a session stands between theorems.
#[tactic(auto, unfolding(lq_output::specs::Output::is_outside))]
fn is_outside(session: &Session<'_>) -> bool
    ensures { result ≡ is_outside (state_of session.now).place }
{
    match &session.place {
        Place::Outside => true,
        _ => false,
    }
}

/// Whether a text is blanks alone.
#[tactic(auto, using(crate::proofs::ScriptLaws::blanks))]
fn is_all_blank(text: &[u8]) -> bool
    ensures { result ≡ all_blank text.now }
{
    behind_blanks(text).is_empty()
}
