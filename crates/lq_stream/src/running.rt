//! A stream runs up to its next answer: turns up to a tick, and then on.

ghost use Rattle.std.specs.Prelude.{◌≡◌, ◌≤◌, ◌<◌, ◌+◌, ℕ, length, Err, IfOk};
ghost use Rattle.lq_runs.specs.Runs.{Run};
ghost use Rattle.lq_stream.specs.Holding.{HasDoing};
ghost use Rattle.lq_stream.specs.Places.{Held};
ghost use Rattle.lq_stream.specs.Turning.{Works, LeadsTo, EndsAs, Ticked, TurnHas};
ghost use Rattle.lq_stream.specs.declared.stacks.StreamFault.{StreamFault};

use crate::machine::Machine;
use crate::moves::StepFault;
use crate::stacks::{Answer, StreamFault};
use crate::stop::Stop;
use crate::turning::{Stacks, turn};
use crate::turns::{Doing, Turn};
use lq_terms::{Steps, Ticks};
use std::sync::ledger::Ledger;

/// Makes turns up to the next tick, or to an answer.
fn to_tick<M: Machine, L: Ledger>(
    machine: &mut M,
    stacks: &mut Stacks<M>,
    start: Doing<M::Code, M::Value, M::Cause>,
    at: usize,
    ticks: &mut Ticks,
    steps: &mut Steps<L>,
) -> Result<Turn<M::Code, M::Value, M::Cause>, StepFault>
    requires held { Held (M.known machine.old) stacks.old.links.items stacks.old.choices.items stacks.old.tops.items }
    requires start { HasDoing (M.known machine.old) start }
    requires at { at ≤ length stacks.old.links.items }
    requires works { (f : ℕ → Run M.Message M.CauseTree M.State M.ValueTree) × Works M.rank M.rest_rank (M.does machine.old)
        (record {
          told = M.told machine.old;
          state = M.state machine.old;
          messages = M.messages machine.old;
          left = ticks.old.left;
          links = stacks.old.links.items;
          choices = stacks.old.choices.items;
        }) start at f }
    ensures later { M.later machine.old machine.new }
    ensures held { IfOk result (λ r. Held (M.known machine.new) stacks.new.links.items stacks.new.choices.items stacks.new.tops.items
        × TurnHas (M.known machine.new) (length stacks.new.links.items) r) }
    ensures leads { (f : ℕ → Run M.Message M.CauseTree M.State M.ValueTree) → Works M.rank M.rest_rank (M.does machine.old)
        (record {
          told = M.told machine.old;
          state = M.state machine.old;
          messages = M.messages machine.old;
          left = ticks.old.left;
          links = stacks.old.links.items;
          choices = stacks.old.choices.items;
        }) start at f
        → LeadsTo M.rank M.rest_rank (M.does machine.old)
        (record {
          told = M.told machine.old;
          state = M.state machine.old;
          messages = M.messages machine.old;
          left = ticks.old.left;
          links = stacks.old.links.items;
          choices = stacks.old.choices.items;
        })
        (record {
          told = M.told machine.new;
          state = M.state machine.new;
          messages = M.messages machine.new;
          left = ticks.new.left;
          links = stacks.new.links.items;
          choices = stacks.new.choices.items;
        }) f result }
    ensures ticked { IfOk result (Ticked ticks.old.left ticks.new.left) }
    ensures left { ticks.new.left + ticks.new.spent ≡ ticks.old.left + ticks.old.spent }
    ensures counted { steps.new + ticks.old.spent ≡ steps.old + ticks.new.spent }
{
    let whole = ticks.left;
    let mut doing = start;
    let mut place = at;
    'turns: loop {
        match turn(machine, stacks, doing, place, ticks, steps)? {
            Turn::Answered(answer) => return Ok(Turn::Answered(answer)),
            Turn::GoesOn(next, below) => {
                if ticks.left != whole {
                    return Ok(Turn::GoesOn(next, below));
                }
                doing = next;
                place = below;
            }
        }
    }
}

/// Runs up to an answer, and asks before each tick whether to stop.
pub(crate) fn to_answer<M: Machine, P: Stop, L: Ledger>(
    machine: &mut M,
    stacks: &mut Stacks<M>,
    start: Doing<M::Code, M::Value, M::Cause>,
    ticks: &mut Ticks,
    stop: &mut P,
    steps: &mut Steps<L>,
) -> Result<Answer<M::Value, M::Cause>, StreamFault>
    requires held { Held (M.known machine.old) stacks.old.links.items stacks.old.choices.items stacks.old.tops.items }
    requires start { HasDoing (M.known machine.old) start }
    requires works { (f : ℕ → Run M.Message M.CauseTree M.State M.ValueTree) × Works M.rank M.rest_rank (M.does machine.old)
        (record {
          told = M.told machine.old;
          state = M.state machine.old;
          messages = M.messages machine.old;
          left = ticks.old.left;
          links = stacks.old.links.items;
          choices = stacks.old.choices.items;
        }) start 0 f }
    requires running { P.told stop.old → ⊥ }
    ensures later { M.later machine.old machine.new }
    ensures stop { P.later stop.old stop.new }
    ensures held { IfOk result (λ r. Held (M.known machine.new) stacks.new.links.items stacks.new.choices.items stacks.new.tops.items) }
    ensures ends { (f : ℕ → Run M.Message M.CauseTree M.State M.ValueTree) → Works M.rank M.rest_rank (M.does machine.old)
        (record {
          told = M.told machine.old;
          state = M.state machine.old;
          messages = M.messages machine.old;
          left = ticks.old.left;
          links = stacks.old.links.items;
          choices = stacks.old.choices.items;
        }) start 0 f
        → EndsAs M.rank M.rest_rank (M.does machine.old)
        (record {
          told = M.told machine.old;
          state = M.state machine.old;
          messages = M.messages machine.old;
          left = ticks.old.left;
          links = stacks.old.links.items;
          choices = stacks.old.choices.items;
        })
        (record {
          told = M.told machine.new;
          state = M.state machine.new;
          messages = M.messages machine.new;
          left = ticks.new.left;
          links = stacks.new.links.items;
          choices = stacks.new.choices.items;
        }) f result }
    ensures cancelled { result ≡ Err StreamFault.Cancelled → P.told stop.new }
    ensures left { ticks.new.left + ticks.new.spent ≡ ticks.old.left + ticks.old.spent }
    ensures counted { steps.new + ticks.old.spent ≡ steps.old + ticks.new.spent }
{
    let mut doing = start;
    let mut place = 0;
    'ticks: loop {
        if stop.ask() {
            return Err(StreamFault::Cancelled);
        }
        match to_tick(machine, stacks, doing, place, ticks, steps) {
            Ok(Turn::Answered(answer)) => return Ok(answer),
            Ok(Turn::GoesOn(next, below)) => {
                doing = next;
                place = below;
            }
            Err(StepFault::StepsOut) => return Err(StreamFault::StepsOut),
            Err(StepFault::NoMemory) => return Err(StreamFault::NoMemory),
        }
    }
}
