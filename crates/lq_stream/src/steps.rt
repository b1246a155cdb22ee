//! What a stream does at a move, at a failure and at a success.

ghost use Rattle.lq_stream.specs.declared.stacks.Choice.TheVariants.{Passed};
ghost use Rattle.std.specs.Prelude.{MatchBool, ◌≡◌, ◌≤◌, ◌<◌, ◌+◌, ℕ, suc, pred, List, [], ◌∷◌, ◌++◌, length, IfOk};
ghost use Rattle.lq_runs.specs.Machines.{Falls};
ghost use Rattle.lq_runs.specs.Runs.{Run};
ghost use Rattle.lq_runs.specs.Stacks as Stack;
ghost use Rattle.lq_runs.specs.Streams.{runs, moves, has, fails, turns, Shows};
ghost use Rattle.lq_stream.specs.Stepping.{move_of, EachPart};
ghost use Rattle.lq_stream.specs.Failing.{IsFailing};
ghost use Rattle.lq_stream.specs.Reading.{frame_of, stack_at, choice_of, choices_of};
ghost use Rattle.lq_stream.specs.Holding.{RestHas, IsPlain, AreLinks, IsChoice, AreChoices, HasDoing, HasFirst, KnowsMark, Stands, off_choice, offs};
ghost use Rattle.lq_stream.specs.Places.{Shrinks, GrowsByOne};
ghost use Rattle.lq_stream.specs.Turning.{doing_turns};

use crate::machine::Machine;
use crate::moves::Move;
use crate::stacks::{Choice, Frame, Link};
use crate::turns::Doing;
use lq_terms::NoMemory;
use std::mem::replace;

/// Puts a continuation over those at a place, and answers its own place.
fn push<R: Drop>(links: &mut Vec<Link<R>>, frame: Frame<R>, below: usize) -> Result<usize, NoMemory>
    ensures pushed { IfOk result (λ i. (links.new.items ≡ links.old.items ++ record { frame = frame; below = below } ∷ [])
        × (i ≡ suc (length links.old.items))) }
{
    links.push(Link { frame, below })?;
    Ok(links.len())
}

/// Makes a move: what is done next, and the place of the continuations.
pub(crate) fn moved<M: Machine>(
    machine: &M,
    links: &mut Vec<Link<M::Rest>>,
    choices: &mut Vec<Choice<M::Code, M::Value, M::Cause, M::Mark>>,
    place: usize,
    next: Move<M::Code, M::Rest, M::Value, M::Cause>,
) -> Result<(Doing<M::Code, M::Value, M::Cause>, usize), NoMemory>
    requires links { AreLinks (M.known machine.now).rest 0 links.old.items }
    requires choices { AreChoices (M.known machine.now) (length links.old.items) choices.old.items }
    requires place { place ≤ length links.old.items }
    requires parts { EachPart (M.known machine.now) next }
    ensures links { IfOk result (λ r. AreLinks (M.known machine.now).rest 0 links.new.items) }
    ensures choices { IfOk result (λ r. AreChoices (M.known machine.now) (length links.new.items) choices.new.items) }
    ensures place { IfOk result (λ r. r.1 ≤ length links.new.items) }
    ensures doing { IfOk result (λ r. HasDoing (M.known machine.now) r.0) }
    ensures stands { (f : ℕ → Run M.Message M.CauseTree M.State M.ValueTree)
        → Shows M.rest_rank (M.does machine.now) (M.state machine.now) (moves (move_of (M.told machine.now) next))
        (stack_at (M.told machine.now).rest links.old.items place)
        (choices_of (M.told machine.now) links.old.items choices.old.items) f
        → IfOk result (λ r. Stands M.rest_rank (M.told machine.now) (M.does machine.now) (M.state machine.now) r.0
        (stack_at (M.told machine.now).rest links.new.items r.1)
        (choices_of (M.told machine.now) links.new.items choices.new.items) f) }
    ensures grown { IfOk result (λ r. GrowsByOne choices.old.items choices.new.items) }
    ensures longer { IfOk result (λ r. length links.old.items ≤ length links.new.items) }
    ensures falls { (a : M.CodeTree) → Falls M.rank M.rest_rank (M.rank a) (move_of (M.told machine.now) next)
        → IfOk result (λ r. doing_turns M.rank M.rest_rank (M.told machine.now) r.0
        (stack_at (M.told machine.now).rest links.new.items r.1)
        (choices_of (M.told machine.now) links.new.items choices.new.items)
        < turns M.rank M.rest_rank (runs a)
        (stack_at (M.told machine.now).rest links.old.items place)
        (choices_of (M.told machine.now) links.old.items choices.old.items)) }
{
    match next {
        Move::Give(value) => Ok((Doing::Success(value), place)),
        Move::Fail(level, cause) => Ok((Doing::Failure(level, cause), place)),
        Move::Plus(first, second) => {
            choices.push(Choice::Alternative(second, machine.mark(), place))?;
            Ok((Doing::Run(first), place))
        }
        Move::Bind(code, rest) => {
            let below = push(links, Frame::Then(rest), place)?;
            Ok((Doing::Run(code), below))
        }
        Move::Branch(test, rest, otherwise) => {
            let height = choices.len();
            let below = push(links, Frame::Test(rest, height), place)?;
            choices.push(Choice::Otherwise(otherwise, machine.mark(), place))?;
            Ok((Doing::Run(test), below))
        }
        Move::Once(code) => {
            let height = choices.len();
            let below = push(links, Frame::Only(height), place)?;
            Ok((Doing::Run(code), below))
        }
        Move::Sole(code, cause) => {
            let height = choices.len();
            let below = push(links, Frame::Alone(height), place)?;
            choices.push(Choice::NoSuccess(cause, place))?;
            Ok((Doing::Run(code), below))
        }
        Move::Lower(code) => {
            let height = choices.len();
            let below = push(links, Frame::Less(height), place)?;
            choices.push(Choice::Lowering)?;
            Ok((Doing::Run(code), below))
        }
    }
}

/// A level less, or 0.
fn lowered(level: u128) -> u128
    ensures { result ≡ pred level }
{
    if level == 0 { 0 } else { level - 1 }
}

/// What a failure does at the newest choice: what is done next, and the place of the continuations.
pub(crate) fn refused<M: Machine>(
    machine: &mut M,
    choice: Choice<M::Code, M::Value, M::Cause, M::Mark>,
    place: usize,
    level: u128,
    cause: M::Cause,
) -> (Doing<M::Code, M::Value, M::Cause>, usize)
    requires choice { KnowsMark (M.known machine.old).mark choice }
    requires cause { (M.known machine.old).cause cause }
    ensures later { M.later machine.old machine.new }
    ensures messages { M.messages machine.new ≡ M.messages machine.old }
    ensures keeps { (places : ℕ) → place ≤ places → IsChoice (M.known machine.old) places choice
        → HasDoing (M.known machine.old) result.0 × (result.1 ≤ places) }
    ensures stands { (links : List (Link M.Rest)) (hs : List (Stack.Choice M.CodeTree M.RestTree M.ValueTree M.CauseTree M.State))
        (f : ℕ → Run M.Message M.CauseTree M.State M.ValueTree)
        → Shows M.rest_rank (M.does machine.old) (M.state machine.old) (fails level ((M.told machine.old).cause cause))
        (stack_at (M.told machine.old).rest links place)
        (choice_of (M.told machine.old) links choice ∷ hs) f
        → Stands M.rest_rank (M.told machine.old) (M.does machine.old) (M.state machine.new) result.0
        (stack_at (M.told machine.old).rest links result.1) hs f }
    ensures falls { (links : List (Link M.Rest)) (hs : List (Stack.Choice M.CodeTree M.RestTree M.ValueTree M.CauseTree M.State))
        (f : ℕ → Run M.Message M.CauseTree M.State M.ValueTree)
        → Shows M.rest_rank (M.does machine.old) (M.state machine.old) (fails level ((M.told machine.old).cause cause))
        (stack_at (M.told machine.old).rest links place)
        (choice_of (M.told machine.old) links choice ∷ hs) f
        → doing_turns M.rank M.rest_rank (M.told machine.old) result.0 (stack_at (M.told machine.old).rest links result.1) hs
        < turns M.rank M.rest_rank (fails level ((M.told machine.old).cause cause))
        (stack_at (M.told machine.old).rest links place)
        (choice_of (M.told machine.old) links choice ∷ hs) }
{
    match choice {
        Choice::Alternative(code, saved, at) => {
            if level != 0 {
                return (Doing::Failure(level - 1, cause), place);
            }
            machine.undo(saved);
            (Doing::Run(code), at)
        }
        Choice::Otherwise(code, mark, at) => {
            if level != 0 {
                return (Doing::Failure(level - 1, cause), place);
            }
            machine.undo(mark);
            (Doing::Run(code), at)
        }
        Choice::Lowering => (Doing::Failure(lowered(level), cause), place),
        Choice::Passed => (Doing::Failure(level, cause), place),
        Choice::NoSuccess(_, _) => (Doing::Failure(level, cause), place),
        Choice::FirstSuccess(_, mark, value, at) => {
            machine.undo(mark);
            (Doing::Success(value), at)
        }
    }
}

/// What the look for a second success does at the newest choice: what is done next, and the place of the continuations.
pub(crate) fn looked<M: Machine>(
    machine: &mut M,
    choice: Choice<M::Code, M::Value, M::Cause, M::Mark>,
    place: usize,
) -> (Doing<M::Code, M::Value, M::Cause>, usize)
    requires choice { KnowsMark (M.known machine.old).mark choice }
    ensures later { M.later machine.old machine.new }
    ensures messages { M.messages machine.new ≡ M.messages machine.old }
    ensures keeps { (places : ℕ) → place ≤ places → IsChoice (M.known machine.old) places choice
        → HasDoing (M.known machine.old) result.0 × (result.1 ≤ places) }
    ensures stands { (links : List (Link M.Rest)) (hs : List (Stack.Choice M.CodeTree M.RestTree M.ValueTree M.CauseTree M.State))
        (f : ℕ → Run M.Message M.CauseTree M.State M.ValueTree) (cause : M.CauseTree)
        → Shows M.rest_rank (M.does machine.old) (M.state machine.old) (fails 0 cause)
        (stack_at (M.told machine.old).rest links place)
        (choice_of (M.told machine.old) links choice ∷ hs) f
        → HasFirst (choice_of (M.told machine.old) links choice ∷ hs)
        → Stands M.rest_rank (M.told machine.old) (M.does machine.old) (M.state machine.new) result.0
        (stack_at (M.told machine.old).rest links result.1) hs f }
    ensures falls { (links : List (Link M.Rest)) (hs : List (Stack.Choice M.CodeTree M.RestTree M.ValueTree M.CauseTree M.State))
        (f : ℕ → Run M.Message M.CauseTree M.State M.ValueTree) (cause : M.CauseTree)
        → Shows M.rest_rank (M.does machine.old) (M.state machine.old) (fails 0 cause)
        (stack_at (M.told machine.old).rest links place)
        (choice_of (M.told machine.old) links choice ∷ hs) f
        → doing_turns M.rank M.rest_rank (M.told machine.old) result.0 (stack_at (M.told machine.old).rest links result.1) hs
        < turns M.rank M.rest_rank (fails 0 cause)
        (stack_at (M.told machine.old).rest links place)
        (choice_of (M.told machine.old) links choice ∷ hs) }
{
    match choice {
        Choice::Alternative(code, mark, at) => {
            machine.undo(mark);
            (Doing::Run(code), at)
        }
        Choice::Otherwise(code, mark, at) => {
            machine.undo(mark);
            (Doing::Run(code), at)
        }
        Choice::FirstSuccess(_, mark, value, at) => {
            machine.undo(mark);
            (Doing::Success(value), at)
        }
        Choice::Lowering => (Doing::Look, place),
        Choice::Passed => (Doing::Look, place),
        Choice::NoSuccess(_, _) => (Doing::Look, place),
    }
}

/// Whether a handler acts.
fn acts<A: Drop, V: Drop, C: Drop, K: Drop>(choice: &Choice<A, V, C, K>) -> bool
    ensures { MatchBool result (off_choice choice.now ≡ Passed) (off_choice choice.now ≡ choice.now) }
{
    match choice {
        Choice::Otherwise(_, _, _) | Choice::Lowering => true,
        Choice::Alternative(_, _, _)
        | Choice::Passed
        | Choice::NoSuccess(_, _)
        | Choice::FirstSuccess(_, _, _, _) => false,
    }
}

/// The handler at a height acts no longer.
fn switch_off<A: Drop, V: Drop, C: Drop, K: Drop>(
    choices: &mut Vec<Choice<A, V, C, K>>,
    height: usize,
)
    ensures { choices.new.items ≡ offs height choices.old.items }
{
    if height < choices.len() {
        if acts(&choices[height]) {
            choices[height] = Choice::Passed;
        }
    }
}

/// What a success does at a continuation that is no exactly-once.
fn passed<M: Machine>(
    machine: &mut M,
    choices: &mut Vec<Choice<M::Code, M::Value, M::Cause, M::Mark>>,
    frame: &Frame<M::Rest>,
    value: M::Value,
) -> Result<Doing<M::Code, M::Value, M::Cause>, NoMemory>
    requires rest { RestHas (M.known machine.old).rest frame.now }
    requires value { (M.known machine.old).value value }
    requires plain { IsPlain frame.now }
    ensures later { M.later machine.old machine.new }
    ensures state { M.state machine.new ≡ M.state machine.old }
    ensures messages { M.messages machine.new ≡ M.messages machine.old }
    ensures keeps { (places : ℕ) → AreChoices (M.known machine.old) places choices.old.items
        → IfOk result (λ r. AreChoices (M.known machine.old) places choices.new.items
        × HasDoing (M.known machine.new) r) }
    ensures stands { (links : List (Link M.Rest)) (ks : List (Stack.Frame M.RestTree))
        (f : ℕ → Run M.Message M.CauseTree M.State M.ValueTree)
        → Shows M.rest_rank (M.does machine.old) (M.state machine.old)
        (has ((M.told machine.old).value value))
        (frame_of (M.told machine.old).rest frame.now ∷ ks)
        (choices_of (M.told machine.old) links choices.old.items) f
        → IfOk result (λ r. Stands M.rest_rank (M.told machine.new) (M.does machine.old) (M.state machine.old) r ks
        (choices_of (M.told machine.old) links choices.new.items) f) }
    ensures shrinks { IfOk result (λ r. Shrinks choices.old.items choices.new.items) }
    ensures falls { (links : List (Link M.Rest)) (ks : List (Stack.Frame M.RestTree))
        → IfOk result (λ r. doing_turns M.rank M.rest_rank (M.told machine.new) r ks
        (choices_of (M.told machine.old) links choices.new.items)
        < turns M.rank M.rest_rank (has ((M.told machine.old).value value))
        (frame_of (M.told machine.old).rest frame.now ∷ ks)
        (choices_of (M.told machine.old) links choices.old.items)) }
{
    match frame {
        Frame::Then(rest) => {
            let code = machine.enter(rest, value)?;
            Ok(Doing::Run(code))
        }
        Frame::Test(rest, height) => {
            switch_off(choices, *height);
            let code = machine.enter(rest, value)?;
            Ok(Doing::Run(code))
        }
        Frame::Less(height) => {
            switch_off(choices, *height);
            Ok(Doing::Success(value))
        }
        Frame::Only(height) => {
            choices.truncate(*height);
            Ok(Doing::Success(value))
        }
        Frame::Alone(_) => Ok(Doing::Success(value)),
    }
}

/// What a success does at an exactly-once: the first one is kept, and after a second one the whole fails.
fn found<M: Machine>(
    machine: &M,
    choices: &mut Vec<Choice<M::Code, M::Value, M::Cause, M::Mark>>,
    height: usize,
    value: M::Value,
) -> Doing<M::Code, M::Value, M::Cause>
    requires value { (M.known machine.now).value value }
    ensures keeps { (places : ℕ) → AreChoices (M.known machine.now) places choices.old.items
        → AreChoices (M.known machine.now) places choices.new.items
        × HasDoing (M.known machine.now) result }
    ensures stands { (links : List (Link M.Rest)) (ks : List (Stack.Frame M.RestTree))
        (f : ℕ → Run M.Message M.CauseTree M.State M.ValueTree)
        → Shows M.rest_rank (M.does machine.now) (M.state machine.now)
        (has ((M.told machine.now).value value))
        (Stack.alone height ∷ ks)
        (choices_of (M.told machine.now) links choices.old.items) f
        → IsFailing result × Stands M.rest_rank (M.told machine.now) (M.does machine.now) (M.state machine.now) result
        (Stack.alone height ∷ ks)
        (choices_of (M.told machine.now) links choices.new.items) f }
    ensures shrinks { Shrinks choices.old.items choices.new.items }
    ensures falls { (links : List (Link M.Rest)) (ks : List (Stack.Frame M.RestTree))
        (f : ℕ → Run M.Message M.CauseTree M.State M.ValueTree)
        → Shows M.rest_rank (M.does machine.now) (M.state machine.now)
        (has ((M.told machine.now).value value))
        (Stack.alone height ∷ ks)
        (choices_of (M.told machine.now) links choices.old.items) f
        → doing_turns M.rank M.rest_rank (M.told machine.now) result
        (Stack.alone height ∷ ks)
        (choices_of (M.told machine.now) links choices.new.items)
        < turns M.rank M.rest_rank (has ((M.told machine.now).value value))
        (Stack.alone height ∷ ks)
        (choices_of (M.told machine.now) links choices.old.items) }
{
    if height >= choices.len() {
        return Doing::Success(value);
    }
    match replace(&mut choices[height], Choice::Passed) {
        Choice::NoSuccess(cause, at) => {
            choices[height] = Choice::FirstSuccess(cause, machine.mark(), value, at);
            Doing::Look
        }
        Choice::FirstSuccess(cause, _, _, _) => {
            choices.truncate(height);
            Doing::Failure(0, cause)
        }
        other => {
            choices[height] = other;
            Doing::Success(value)
        }
    }
}

/// What a success does at a place with a continuation: what is done next, and the place of the continuations.
pub(crate) fn succeeded<M: Machine>(
    machine: &mut M,
    links: &Vec<Link<M::Rest>>,
    choices: &mut Vec<Choice<M::Code, M::Value, M::Cause, M::Mark>>,
    place: usize,
    value: M::Value,
) -> Result<(Doing<M::Code, M::Value, M::Cause>, usize), NoMemory>
    requires links { AreLinks (M.known machine.old).rest 0 links.now.items }
    requires some { 0 < place }
    requires place { place ≤ length links.now.items }
    requires value { (M.known machine.old).value value }
    ensures later { M.later machine.old machine.new }
    ensures state { M.state machine.new ≡ M.state machine.old }
    ensures messages { M.messages machine.new ≡ M.messages machine.old }
    ensures place { IfOk result (λ r. r.1 ≤ length links.now.items) }
    ensures keeps { (places : ℕ) → AreChoices (M.known machine.old) places choices.old.items
        → IfOk result (λ r. AreChoices (M.known machine.old) places choices.new.items
        × HasDoing (M.known machine.new) r.0) }
    ensures stands { (f : ℕ → Run M.Message M.CauseTree M.State M.ValueTree)
        → Shows M.rest_rank (M.does machine.old) (M.state machine.old) (has ((M.told machine.old).value value))
        (stack_at (M.told machine.old).rest links.now.items place)
        (choices_of (M.told machine.old) links.now.items choices.old.items) f
        → IfOk result (λ r. Stands M.rest_rank (M.told machine.new) (M.does machine.old) (M.state machine.old) r.0
        (stack_at (M.told machine.old).rest links.now.items r.1)
        (choices_of (M.told machine.old) links.now.items choices.new.items) f) }
    ensures shrinks { IfOk result (λ r. Shrinks choices.old.items choices.new.items) }
    ensures falls { (f : ℕ → Run M.Message M.CauseTree M.State M.ValueTree)
        → Shows M.rest_rank (M.does machine.old) (M.state machine.old) (has ((M.told machine.old).value value))
        (stack_at (M.told machine.old).rest links.now.items place)
        (choices_of (M.told machine.old) links.now.items choices.old.items) f
        → IfOk result (λ r. doing_turns M.rank M.rest_rank (M.told machine.new) r.0
        (stack_at (M.told machine.old).rest links.now.items r.1)
        (choices_of (M.told machine.old) links.now.items choices.new.items)
        < turns M.rank M.rest_rank (has ((M.told machine.old).value value))
        (stack_at (M.told machine.old).rest links.now.items place)
        (choices_of (M.told machine.old) links.now.items choices.old.items)) }
{
    let link = &links[place - 1];
    match &link.frame {
        Frame::Alone(height) => Ok((found(machine, choices, *height, value), place)),
        frame => {
            let next = passed(machine, choices, frame, value)?;
            Ok((next, link.below))
        }
    }
}
