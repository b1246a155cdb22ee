//! The answers of a row's stream.

ghost use Rattle.std.specs.Prelude.{◌≡◌, ◌<◌, IsTrue, IfOk};
ghost use Rattle.lq_stream.specs.Asking.{IsReady};
ghost use Rattle.lq_stream_rows.specs.Acting.{themselves, everything};

use crate::numbers::Numbers;
use crate::program::Code;
use crate::row::{Row, nodes_of, row_of};
use lq_row_texts::RowFault;
use lq_stream::{Answer, Demand, NoStop, Stream, StreamFault};
use lq_terms::{Steps, Ticks};
use std::alloc::Global;
use std::marker::Brand;
use std::sync::ledger::{Blank, Ledger};

/// The cause of each demand.
const CAUSE: u64 = 9;

/// Writes an answer.
fn write_answer(
    alloc: Global,
    answer: Result<Answer<u64, u64>, StreamFault>,
    out: &mut String,
) -> Result<(), RowFault> {
    let text = match answer {
        Ok(Answer::Success(value)) => format!(in alloc; " gives {value}")?,
        Ok(Answer::End(level, cause)) => format!(in alloc; " ends at {level} with {cause}")?,
        Err(fault) => format!(in alloc; " {fault:?}")?,
    };
    out.push_str(&text)?;
    Ok(())
}

/// Writes what is left, the state, and the numbers written so far.
fn write_scene(
    alloc: Global,
    machine: &Numbers,
    left: u64,
    out: &mut String,
) -> Result<(), RowFault> {
    let state = machine.state;
    let text = format!(in alloc; ", {left} left, state {state}, wrote")?;
    out.push_str(&text)?;
    for number in &machine.written {
        let text = format!(in alloc; " {number}")?;
        out.push_str(&text)?;
    }
    out.push(';')?;
    Ok(())
}

/// Asks once, writes the answer, and says whether the stream may be asked again.
fn ask<L: Ledger>(
    alloc: Global,
    machine: &mut Numbers,
    stream: &mut Stream<Numbers>,
    level: u128,
    ticks: &mut Ticks,
    steps: &mut Steps<L>,
    out: &mut String,
) -> Result<bool, RowFault>
    requires ready { IsReady everything themselves stream.old }
    ensures ready { IfOk result (λ more. IsTrue more → IsReady everything themselves stream.new) }
{
    let demand = Demand {
        level,
        cause: CAUSE,
    };
    let answer = stream.next(machine, demand, ticks, &mut NoStop, steps);
    let more = matches!(&answer, Ok(Answer::Success(_)));
    write_answer(alloc, answer, out)?;
    write_scene(alloc, machine, ticks.left, out)?;
    Ok(more)
}

/// Asks at each of these levels, until there is no success.
fn ask_all<L: Ledger>(
    alloc: Global,
    machine: &mut Numbers,
    row: Row<'_>,
    blank: Blank,
    out: &mut String,
) -> Result<(), RowFault>
    requires name { blank.name ≡ L.name }
    requires parts { blank.parts ≡ L.parts }
    requires some { 0 < L.parts }
{
    let mut steps = Steps::<L>::new(blank);
    let mut ticks = Ticks::new(row.budget);
    let start = Code {
        node: 0,
        done: 0,
        value: 0,
    };
    let Ok(mut stream) = Stream::new(alloc, start) else {
        return Err(RowFault::NoMemory);
    };
    for &digit in row.levels.as_bytes() {
        let level = u128::from(digit.saturating_sub(b'0'));
        if !ask(
            alloc,
            machine,
            &mut stream,
            level,
            &mut ticks,
            &mut steps,
            out,
        )? {
            break;
        }
    }
    Ok(())
}

/// What a line comes to.
pub(crate) fn told(alloc: Global, line: &str) -> Result<String, RowFault> {
    let row = row_of(line)?;
    let mut machine = Numbers {
        nodes: nodes_of(alloc, row.program)?,
        state: 0,
        written: Vec::new(alloc),
    };
    let mut out = String::new(alloc);
    ask_all::<Brand>(alloc, &mut machine, row, Blank::new(1), &mut out)?;
    Ok(out)
}
