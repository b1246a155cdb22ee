//! The rows of a call.

ghost use Rattle.std.specs.Prelude.{◌≡◌, ◌≤◌, ◌+◌, ◌∷◌, ℕ, List, None, length, IfOk, OnOk};
ghost use Rattle.lq_trees.specs.Rules.{Rules};
ghost use Rattle.lq_terms.specs.declared.nodes.Hypothesis.{Hypothesis};
ghost use Rattle.lq_terms.specs.Contexts.{context_of};
ghost use Rattle.lq_terms.specs.Terms.{Terms, tree_of, Grows};
ghost use Rattle.lq_solving.specs.Stores.{read};
ghost use Rattle.lq_solving.specs.Unification.{Unify, Answer, one_variable, by_solving};
ghost use Rattle.lq_solving.specs.Waiting.{parts};
ghost use Rattle.lq_evars.specs.Places.{Places, store_of};
ghost use Rattle.lq_unify.specs.declared.frames.Frame.{Frame};
ghost use Rattle.lq_unify.specs.Heads.{HasOpenHead};
ghost use Rattle.lq_unify.specs.Forms.{HasForm, form_in};
ghost use Rattle.lq_unify.specs.Standing.{AllStand};
ghost use Rattle.lq_unify.specs.Working.{IsRowed};
ghost use Rattle.lq_unify.specs.Frames.{IsWork, IsSince, sides_in, waits, turns};
ghost use Rattle.lq_unify.specs.Turns.{PairStands, IsNext, Goes, Turned, NoRow, looked, most_turns, due};

use crate::exposing::exposed;
use crate::faults::UnifyFault;
use crate::forms::{Form, variable_form};
use crate::frames::{Frame, Frames, Parts, Reducing};
use crate::pairs::Pair;
use crate::resuming::Next;
use crate::solving::by_solving;
use crate::splitting::parts_by_form;
use lq_evars::Store;
use lq_terms::{Bank, Context, NoMemory};

/// Two terms wait to go to weak head form after a No, if this was the first look at them.
fn remember(
    store: &Store,
    mark: usize,
    frames: &mut Frames,
    pair: Pair,
    first: bool,
) -> Result<(), NoMemory>
    ensures work { (bank : Terms) (hs : List Hypothesis) → mark ≡ length hs → IsWork bank store.now hs frames.old → PairStands bank store.now hs pair
        → OnOk result (IsWork bank store.now hs frames.new) }
    ensures waits { (bank : Terms) (hs : List Hypothesis) → mark ≡ length hs → OnOk result (waits bank store.now hs frames.new
        ≡ looked first (context_of bank hs) (store_of bank store.now) (tree_of bank pair.left) (tree_of bank pair.right) (waits bank store.now hs frames.old)) }
    ensures since { (before : Places) → IsSince before store.now frames.old → IsSince before store.now frames.new }
    ensures falls { OnOk result (turns frames.new + 2 ≤ most_turns first + turns frames.old) }
{
    if !first {
        return Ok(());
    }
    frames.push(Frame::Reducing(Reducing {
        mark,
        given: store.given(),
        pair,
    }))
}

/// Parts wait to be unified, and behind them two terms to go to weak head form after a No, if this was the first look at them.
fn wait_for(
    store: &Store,
    mark: usize,
    frames: &mut Frames,
    pair: Pair,
    form: Form,
    first: bool,
) -> Result<(), NoMemory>
    ensures work { (bank : Terms) (hs : List Hypothesis) → mark ≡ length hs → IsWork bank store.now hs frames.old → PairStands bank store.now hs pair
        → HasForm bank form → AllStand (store_of bank store.now) (form_in bank (context_of bank hs) form) → OnOk result (IsWork bank store.now hs frames.new) }
    ensures waits { (bank : Terms) (hs : List Hypothesis) → mark ≡ length hs → OnOk result (waits bank store.now hs frames.new
        ≡ parts (form_in bank (context_of bank hs) form) ∷ looked first (context_of bank hs) (store_of bank store.now)
        (tree_of bank pair.left) (tree_of bank pair.right) (waits bank store.now hs frames.old)) }
    ensures since { (before : Places) → IsSince before store.now frames.old → IsSince before store.now frames.new }
    ensures falls { OnOk result (turns frames.new + 1 ≤ most_turns first + turns frames.old) }
{
    remember(store, mark, frames, pair, first)?;
    frames.push(Frame::Parts(Parts {
        mark,
        next: 0,
        form,
    }))
}

/// No row applies: two terms go to weak head form, if this was the first look at them.
fn no_row(pair: Pair, first: bool) -> Next
    ensures stands { (bank : Terms) (s : Places) (hs : List Hypothesis) (fs : List Frame) → IsWork bank s hs fs → PairStands bank s hs pair → IsNext bank s hs fs result }
    ensures goes { (bank : Terms) (s : Places) (hs : List Hypothesis) (fs : List Frame) (r : Rules) (f : ℕ → Unify Answer) (budget left : ℕ)
        → NoRow first r f budget left bank s hs fs pair → Goes r f budget left bank s hs fs result }
    ensures falls { due result ≤ most_turns first }
{
    if first {
        Next::Reduce(pair)
    } else {
        Next::Answer(false)
    }
}

/// The rows by forms, of two terms whose heads are read and neither of which is a variable.
fn formed_rows(
    bank: &mut Bank<'_>,
    store: &Store,
    context: &Context,
    mark: usize,
    frames: &mut Frames,
    pair: Pair,
    first: bool,
) -> Result<Next, NoMemory>
    requires work { IsWork bank.old store.now context.now frames.old }
    requires pair { PairStands bank.old store.now context.now pair }
    requires mark { mark ≡ length context.now }
    requires left_open { HasOpenHead (store_of bank.old store.now).values (tree_of bank.old pair.left) }
    requires right_open { HasOpenHead (store_of bank.old store.now).values (tree_of bank.old pair.right) }
    ensures is { IfOk result (IsNext bank.new store.now context.now frames.new) }
    ensures goes { (r : Rules) (f : ℕ → Unify Answer) (budget left : ℕ)
        → IsRowed first r f budget left (store_of bank.old store.now) (waits bank.old store.now context.now frames.old) (sides_in bank.old context.now pair)
        → one_variable (context_of bank.old context.now) (tree_of bank.old pair.left) (tree_of bank.old pair.right) ≡ None
        → by_solving (store_of bank.old store.now) (read (store_of bank.old store.now) (tree_of bank.old pair.left)) (read (store_of bank.old store.now) (tree_of bank.old pair.right)) ≡ None
        → IfOk result (Goes r f budget left bank.new store.now context.now frames.new) }
    ensures since { (before : Places) → IsSince before store.now frames.old → IsSince before store.now frames.new }
    ensures falls { IfOk result (λ n. turns frames.new + due n ≤ most_turns first + turns frames.old) }
    ensures grows { Grows bank.old bank.new }
{
    match parts_by_form(bank, context.hypotheses(), pair.left, pair.right)? {
        Some(form) => {
            wait_for(store, mark, frames, pair, form, first)?;
            Ok(Next::Answer(true))
        }
        None => Ok(no_row(pair, first)),
    }
}

/// The first row that applies to two terms whose heads are read, but for the one by weak head forms.
fn open_rows(
    bank: &mut Bank<'_>,
    store: &mut Store,
    context: &Context,
    mark: usize,
    frames: &mut Frames,
    pair: Pair,
    first: bool,
) -> Result<Next, UnifyFault>
    requires work { IsWork bank.old store.old context.now frames.old }
    requires pair { PairStands bank.old store.old context.now pair }
    requires mark { mark ≡ length context.now }
    requires left_open { HasOpenHead (store_of bank.old store.old).values (tree_of bank.old pair.left) }
    requires right_open { HasOpenHead (store_of bank.old store.old).values (tree_of bank.old pair.right) }
    ensures is { IfOk result (IsNext bank.new store.new context.now frames.new) }
    ensures goes { (r : Rules) (f : ℕ → Unify Answer) (budget left : ℕ)
        → IsRowed first r f budget left (store_of bank.old store.old) (waits bank.old store.old context.now frames.old) (sides_in bank.old context.now pair)
        → Turned r f budget left bank.new store.new context.now frames.new result }
    ensures since { (before : Places) → IsSince before store.old frames.old → IsSince before store.new frames.new }
    ensures falls { IfOk result (λ n. turns frames.new + due n ≤ most_turns first + turns frames.old) }
    ensures grows { Grows bank.old bank.new }
{
    if let Some(form) = variable_form(bank, pair.left, pair.right)? {
        wait_for(store, mark, frames, pair, form, false)?;
        return Ok(Next::Answer(true));
    }
    match by_solving(bank, store, pair.left, pair.right) {
        Ok(Some(yes)) => Ok(Next::Answer(yes)),
        Ok(None) => {
            let next = formed_rows(bank, store, context, mark, frames, pair, first)?;
            Ok(next)
        }
        Err(fault) => Err(fault),
    }
}

/// The first row that applies to two terms, but for the one by weak head forms: their heads are read.
pub(crate) fn rows(
    bank: &mut Bank<'_>,
    store: &mut Store,
    context: &Context,
    frames: &mut Frames,
    pair: Pair,
    first: bool,
) -> Result<Next, UnifyFault>
    requires work { IsWork bank.old store.old context.now frames.old }
    requires pair { PairStands bank.old store.old context.now pair }
    ensures is { IfOk result (IsNext bank.new store.new context.now frames.new) }
    ensures goes { (r : Rules) (f : ℕ → Unify Answer) (budget left : ℕ)
        → IsRowed first r f budget left (store_of bank.old store.old) (waits bank.old store.old context.now frames.old) (sides_in bank.old context.now pair)
        → Turned r f budget left bank.new store.new context.now frames.new result }
    ensures since { (before : Places) → IsSince before store.old frames.old → IsSince before store.new frames.new }
    ensures falls { IfOk result (λ n. turns frames.new + due n ≤ most_turns first + turns frames.old) }
    ensures grows { Grows bank.old bank.new }
{
    let mark = context.hypotheses().len();
    let left = exposed(bank, store, pair.left)?;
    let right = exposed(bank, store, pair.right)?;
    open_rows(
        bank,
        store,
        context,
        mark,
        frames,
        Pair { left, right },
        first,
    )
}
