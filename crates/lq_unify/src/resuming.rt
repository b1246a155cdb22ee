//! What waits goes on, once there is an answer.

ghost use Rattle.std.specs.Prelude.{◌≡◌, ◌≤◌, ◌+◌, ◌∷◌, ℕ, List, true, length, take, IfOk};
ghost use Rattle.lq_trees.specs.Rules.{Rules};
ghost use Rattle.lq_terms.specs.Terms.{Terms};
ghost use Rattle.lq_terms.specs.declared.nodes.Hypothesis.{Hypothesis};
ghost use Rattle.lq_solving.specs.Unification.{Unify, Answer};
ghost use Rattle.lq_evars.specs.Places.{Places};
ghost use Rattle.lq_unify.specs.declared.frames.Frame.{Frame};
ghost use Rattle.lq_unify.specs.Frames.{IsWork, IsSince, turn_weight, turns};
ghost use Rattle.lq_unify.specs.Turns.{IsNext, HasAnswer, Goes, due};

use crate::forms::Form;
use crate::frames::{Frame, Frames, Parts, Reducing};
use crate::pairs::Pair;
use lq_evars::Store;
use lq_terms::{Context, NoMemory};

/// What comes next.
#[derive(Clone, Copy)]
pub(crate) enum Next {
    /// Two terms are to be unified.
    Ask(Pair),
    /// Two terms go to weak head form.
    Reduce(Pair),
    /// There is an answer.
    Answer(bool),
}

/// The first hypotheses, so many.
fn shorten(context: &mut Context, mark: usize)
    ensures { context.new ≡ take mark context.old }
{
    'longer: while context.hypotheses().len() > mark {
        context.pop();
    }
}

/// The next of the parts, once those before it were unified.
fn next_part(context: &mut Context, frames: &mut Frames, mut parts: Parts) -> Result<Next, NoMemory>
    ensures is { (bank : Terms) (s : Places) → parts.mark ≡ length context.old → IsWork bank s context.old (Frame.Parts parts ∷ frames.old)
        → IfOk result (IsNext bank s context.new frames.new) }
    ensures goes { (bank : Terms) (s : Places) (r : Rules) (f : ℕ → Unify Answer) (budget left : ℕ)
        → parts.mark ≡ length context.old → IsWork bank s context.old (Frame.Parts parts ∷ frames.old)
        → HasAnswer r f budget left bank s context.old (Frame.Parts parts ∷ frames.old) true
        → IfOk result (Goes r f budget left bank s context.new frames.new) }
    ensures since { (before s : Places) → IsSince before s frames.old → IsSince before s frames.new }
    ensures falls { IfOk result (λ n. turns frames.new + due n ≤ 1 + turns frames.old) }
{
    if parts.next < parts.form.pairs.len() {
        let pair = parts.form.pairs[parts.next];
        parts.next += 1;
        frames.push(Frame::Parts(parts))?;
        return Ok(Next::Ask(pair));
    }
    let Some(under) = parts.form.under else {
        return Ok(Next::Answer(true));
    };
    context.push(under.variable)?;
    parts.form.under = None;
    frames.push(Frame::Parts(parts))?;
    Ok(Next::Ask(under.pair))
}

/// A call that went well needs no weak head forms; after a No the store goes back.
fn next_form(store: &mut Store, reducing: Reducing, yes: bool) -> Next
    ensures is { (bank : Terms) (hs : List Hypothesis) (fs : List Frame) → reducing.mark ≡ length hs → IsWork bank store.old hs (Frame.Reducing reducing ∷ fs)
        → IsNext bank store.new hs fs result }
    ensures goes { (bank : Terms) (hs : List Hypothesis) (fs : List Frame) (r : Rules) (f : ℕ → Unify Answer) (budget left : ℕ)
        → reducing.mark ≡ length hs → IsWork bank store.old hs (Frame.Reducing reducing ∷ fs)
        → HasAnswer r f budget left bank store.old hs (Frame.Reducing reducing ∷ fs) yes → Goes r f budget left bank store.new hs fs result }
    ensures since { (before : Places) (fs : List Frame) → IsSince before store.old (Frame.Reducing reducing ∷ fs) → IsSince before store.new fs }
    ensures falls { due result ≤ 3 }
{
    if yes {
        return Next::Answer(true);
    }
    store.take_back(reducing.given);
    Next::Reduce(reducing.pair)
}

/// What waited nearest goes on with the answer.
pub(crate) fn resumed(
    store: &mut Store,
    context: &mut Context,
    frames: &mut Frames,
    frame: Frame,
    yes: bool,
) -> Result<Next, NoMemory>
    ensures is { (bank : Terms) → IsWork bank store.old context.old (frame ∷ frames.old) → IfOk result (IsNext bank store.new context.new frames.new) }
    ensures goes { (bank : Terms) (r : Rules) (f : ℕ → Unify Answer) (budget left : ℕ) → IsWork bank store.old context.old (frame ∷ frames.old)
        → HasAnswer r f budget left bank store.old context.old (frame ∷ frames.old) yes
        → IfOk result (Goes r f budget left bank store.new context.new frames.new) }
    ensures since { (before : Places) → IsSince before store.old (frame ∷ frames.old) → IsSince before store.new frames.new }
    ensures falls { IfOk result (λ n. turns frames.new + due n ≤ turn_weight frame + turns frames.old) }
{
    match frame {
        Frame::Parts(parts) => {
            shorten(context, parts.mark);
            if !yes {
                return Ok(Next::Answer(false));
            }
            next_part(context, frames, parts)
        }
        Frame::Reducing(reducing) => {
            shorten(context, reducing.mark);
            Ok(next_form(store, reducing, yes))
        }
    }
}
