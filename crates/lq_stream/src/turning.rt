//! A turn of a stream: a code is run, a success goes on, or a failure comes to the newest choice.

ghost use Rattle.std.specs.Prelude.{◌≡◌, ◌≤◌, ◌<◌, ◌+◌, ◌⊎◌, ℕ, max, List, [], ◌∷◌, ◌++◌, length, take, Ok, IfOk, OnOk};
ghost use Rattle.lq_runs.specs.Runs.{Run};
ghost use Rattle.lq_stream.specs.Holding.{HasDoing};
ghost use Rattle.lq_stream.specs.Places.{newest, Held};
ghost use Rattle.lq_stream.specs.Turning.{Works, Turns, TurnHas};
ghost use Rattle.lq_stream.specs.declared.turns.Doing.TheVariants.{Run as Running, Success, Failure, Look};

use crate::machine::Machine;
use crate::moves::StepFault;
use crate::stacks::{Answer, Choice, Link};
use crate::steps::{looked, moved, refused, succeeded};
use crate::turns::{Doing, Turn};
use lq_terms::{NoMemory, Steps, Ticks};
use std::sync::ledger::Ledger;

/// The continuations and the choices of a stream, and for each choice how high those up to it reach into the continuations.
#[derive(Drop)]
pub struct Stacks<M: Machine> {
    /// The continuations.
    pub links: Vec<Link<M::Rest>>,
    /// The choices, the newest last.
    pub choices: Vec<Choice<M::Code, M::Value, M::Cause, M::Mark>>,
    /// The tops of the choices.
    pub tops: Vec<usize>,
}

/// The newest of the tops, or 0.
fn newest_top(tops: &Vec<usize>) -> usize
    ensures { result ≡ newest 0 tops.now.items }
{
    if tops.is_empty() {
        0
    } else {
        tops[tops.len() - 1]
    }
}

/// Cuts the continuations back to the highest place that is held: by a choice, or as the place of now.
fn cut<R: Drop>(links: &mut Vec<Link<R>>, tops: &Vec<usize>, place: usize)
    ensures { links.new.items ≡ take (max place (newest 0 tops.now.items)) links.old.items }
{
    let top = newest_top(tops);
    if top < place {
        links.truncate(place);
    } else {
        links.truncate(top);
    }
}

/// Gives the newest choice a top, where it has none.
fn cover(tops: &mut Vec<usize>, choices: usize, places: usize) -> Result<(), NoMemory>
    ensures { OnOk result (((length tops.old.items < choices) × (tops.new.items ≡ tops.old.items ++ places ∷ []))
        ⊎ ((choices ≤ length tops.old.items) × (tops.new.items ≡ tops.old.items))) }
{
    if tops.len() < choices {
        tops.push(places)?;
    }
    Ok(())
}

/// Runs a code.
fn run_code<M: Machine, L: Ledger>(
    machine: &mut M,
    stacks: &mut Stacks<M>,
    code: M::Code,
    place: usize,
    ticks: &mut Ticks,
    steps: &mut Steps<L>,
) -> Result<Turn<M::Code, M::Value, M::Cause>, StepFault>
    requires held { Held (M.known machine.old) stacks.old.links.items stacks.old.choices.items stacks.old.tops.items }
    requires code { (M.known machine.old).code code }
    requires place { place ≤ length stacks.old.links.items }
    ensures later { M.later machine.old machine.new }
    ensures held { IfOk result (λ r. Held (M.known machine.new) stacks.new.links.items stacks.new.choices.items stacks.new.tops.items
        × TurnHas (M.known machine.new) (length stacks.new.links.items) r) }
    ensures turns { Turns M.rank M.rest_rank (M.does machine.old)
        (record {
          told = M.told machine.old;
          state = M.state machine.old;
          messages = M.messages machine.old;
          left = ticks.old.left;
          links = stacks.old.links.items;
          choices = stacks.old.choices.items;
        }) (Running code) place
        (record {
          told = M.told machine.new;
          state = M.state machine.new;
          messages = M.messages machine.new;
          left = ticks.new.left;
          links = stacks.new.links.items;
          choices = stacks.new.choices.items;
        }) result }
    ensures less { IfOk result (λ r. ticks.new.left ≤ ticks.old.left) }
    ensures left { ticks.new.left + ticks.new.spent ≡ ticks.old.left + ticks.old.spent }
    ensures counted { steps.new + ticks.old.spent ≡ steps.old + ticks.new.spent }
{
    cut(&mut stacks.links, &stacks.tops, place);
    let next = machine.step(code, ticks, steps)?;
    let (doing, below) = moved(machine, &mut stacks.links, &mut stacks.choices, place, next)?;
    cover(&mut stacks.tops, stacks.choices.len(), stacks.links.len())?;
    Ok(Turn::GoesOn(doing, below))
}

/// Goes on with a success.
fn go_on<M: Machine>(
    machine: &mut M,
    stacks: &mut Stacks<M>,
    value: M::Value,
    place: usize,
) -> Result<Turn<M::Code, M::Value, M::Cause>, StepFault>
    requires held { Held (M.known machine.old) stacks.old.links.items stacks.old.choices.items stacks.old.tops.items }
    requires value { (M.known machine.old).value value }
    requires place { place ≤ length stacks.old.links.items }
    ensures later { M.later machine.old machine.new }
    ensures held { IfOk result (λ r. Held (M.known machine.new) stacks.new.links.items stacks.new.choices.items stacks.new.tops.items
        × TurnHas (M.known machine.new) (length stacks.new.links.items) r) }
    ensures turns { (left : ℕ) → IfOk result (λ r. Turns M.rank M.rest_rank (M.does machine.old)
        (record {
          told = M.told machine.old;
          state = M.state machine.old;
          messages = M.messages machine.old;
          left = left;
          links = stacks.old.links.items;
          choices = stacks.old.choices.items;
        }) (Success value) place
        (record {
          told = M.told machine.new;
          state = M.state machine.new;
          messages = M.messages machine.new;
          left = left;
          links = stacks.new.links.items;
          choices = stacks.new.choices.items;
        }) (Ok r)) }
    ensures never { result ≡ Err StepFault.StepsOut → ⊥ }
{
    if place == 0 {
        return Ok(Turn::Answered(Answer::Success(value)));
    }
    let (doing, below) = succeeded(machine, &stacks.links, &mut stacks.choices, place, value)?;
    stacks.tops.truncate(stacks.choices.len());
    Ok(Turn::GoesOn(doing, below))
}

/// Comes to the newest choice with a failure.
fn fail<M: Machine>(
    machine: &mut M,
    stacks: &mut Stacks<M>,
    place: usize,
    level: u128,
    cause: M::Cause,
) -> Turn<M::Code, M::Value, M::Cause>
    requires held { Held (M.known machine.old) stacks.old.links.items stacks.old.choices.items stacks.old.tops.items }
    requires cause { (M.known machine.old).cause cause }
    requires place { place ≤ length stacks.old.links.items }
    ensures later { M.later machine.old machine.new }
    ensures held { Held (M.known machine.new) stacks.new.links.items stacks.new.choices.items stacks.new.tops.items
        × TurnHas (M.known machine.new) (length stacks.new.links.items) result }
    ensures turns { (left : ℕ) → Turns M.rank M.rest_rank (M.does machine.old)
        (record {
          told = M.told machine.old;
          state = M.state machine.old;
          messages = M.messages machine.old;
          left = left;
          links = stacks.old.links.items;
          choices = stacks.old.choices.items;
        }) (Failure level cause) place
        (record {
          told = M.told machine.new;
          state = M.state machine.new;
          messages = M.messages machine.new;
          left = left;
          links = stacks.new.links.items;
          choices = stacks.new.choices.items;
        }) (Ok result) }
{
    match stacks.choices.pop() {
        None => Turn::Answered(Answer::End(level, cause)),
        Some(choice) => {
            stacks.tops.truncate(stacks.choices.len());
            let (doing, below) = refused(machine, choice, place, level, cause);
            Turn::GoesOn(doing, below)
        }
    }
}

/// Comes to the newest choice with the look for a second success.
fn look<M: Machine>(
    machine: &mut M,
    stacks: &mut Stacks<M>,
    place: usize,
) -> Turn<M::Code, M::Value, M::Cause>
    requires held { Held (M.known machine.old) stacks.old.links.items stacks.old.choices.items stacks.old.tops.items }
    requires place { place ≤ length stacks.old.links.items }
    requires some { 0 < length stacks.old.choices.items }
    ensures later { M.later machine.old machine.new }
    ensures held { Held (M.known machine.new) stacks.new.links.items stacks.new.choices.items stacks.new.tops.items
        × TurnHas (M.known machine.new) (length stacks.new.links.items) result }
    ensures turns { (left : ℕ) → Turns M.rank M.rest_rank (M.does machine.old)
        (record {
          told = M.told machine.old;
          state = M.state machine.old;
          messages = M.messages machine.old;
          left = left;
          links = stacks.old.links.items;
          choices = stacks.old.choices.items;
        }) Look place
        (record {
          told = M.told machine.new;
          state = M.state machine.new;
          messages = M.messages machine.new;
          left = left;
          links = stacks.new.links.items;
          choices = stacks.new.choices.items;
        }) (Ok result) }
{
    match stacks.choices.pop() {
        None => unreachable!(),
        Some(choice) => {
            stacks.tops.truncate(stacks.choices.len());
            let (doing, below) = looked(machine, choice, place);
            Turn::GoesOn(doing, below)
        }
    }
}

/// Makes a turn.
pub(crate) fn turn<M: Machine, L: Ledger>(
    machine: &mut M,
    stacks: &mut Stacks<M>,
    doing: Doing<M::Code, M::Value, M::Cause>,
    place: usize,
    ticks: &mut Ticks,
    steps: &mut Steps<L>,
) -> Result<Turn<M::Code, M::Value, M::Cause>, StepFault>
    requires held { Held (M.known machine.old) stacks.old.links.items stacks.old.choices.items stacks.old.tops.items }
    requires doing { HasDoing (M.known machine.old) doing }
    requires place { place ≤ length stacks.old.links.items }
    requires works { (f : ℕ → Run M.Message M.CauseTree M.State M.ValueTree) × Works M.rank M.rest_rank (M.does machine.old)
        (record {
          told = M.told machine.old;
          state = M.state machine.old;
          messages = M.messages machine.old;
          left = ticks.old.left;
          links = stacks.old.links.items;
          choices = stacks.old.choices.items;
        }) doing place f }
    ensures later { M.later machine.old machine.new }
    ensures held { IfOk result (λ r. Held (M.known machine.new) stacks.new.links.items stacks.new.choices.items stacks.new.tops.items
        × TurnHas (M.known machine.new) (length stacks.new.links.items) r) }
    ensures turns { Turns M.rank M.rest_rank (M.does machine.old)
        (record {
          told = M.told machine.old;
          state = M.state machine.old;
          messages = M.messages machine.old;
          left = ticks.old.left;
          links = stacks.old.links.items;
          choices = stacks.old.choices.items;
        }) doing place
        (record {
          told = M.told machine.new;
          state = M.state machine.new;
          messages = M.messages machine.new;
          left = ticks.new.left;
          links = stacks.new.links.items;
          choices = stacks.new.choices.items;
        }) result }
    ensures less { IfOk result (λ r. ticks.new.left ≤ ticks.old.left) }
    ensures left { ticks.new.left + ticks.new.spent ≡ ticks.old.left + ticks.old.spent }
    ensures counted { steps.new + ticks.old.spent ≡ steps.old + ticks.new.spent }
{
    match doing {
        Doing::Run(code) => run_code(machine, stacks, code, place, ticks, steps),
        Doing::Success(value) => go_on(machine, stacks, value, place),
        Doing::Failure(level, cause) => Ok(fail(machine, stacks, place, level, cause)),
        Doing::Look => Ok(look(machine, stacks, place)),
    }
}
