//! Lists of goals.

ghost use Rattle.std.specs.Prelude.{◌≡◌, ◌++◌, if◌then◌else◌, IfOk, OnOk};
ghost use Rattle.lq_states.specs.Goals.{has, without, has_each, placed, refocused};
ghost use Rattle.lq_goals.specs.Held.{open_in, is_missing, stands_for};
ghost use Rattle.lq_evars.specs.Places.{value_at};

use lq_evars::Store;
use lq_terms::NoMemory;
use std::alloc::Global;

/// Whether a list has a goal.
pub(crate) fn has(goals: &[u32], goal: u32) -> bool
    ensures { result ≡ has goals.now goal }
{
    for listed in goals {
        if *listed == goal {
            return true;
        }
    }
    false
}

/// Whether a list has each of some goals.
pub(crate) fn has_each(goals: &[u32], wanted: &[u32]) -> bool
    ensures { result ≡ has_each goals.now wanted.now }
{
    for goal in wanted {
        if !has(goals, *goal) {
            return false;
        }
    }
    true
}

/// The taken goals leave a list.
pub(crate) fn take_out(goals: &mut Vec<u32>, taken: &[u32])
    ensures { goals.new.items ≡ without taken.now goals.old.items }
{
    goals.retain(|goal| !has(taken, *goal));
}

/// Whether a variable has no value.
fn is_open(store: &Store, goal: u32) -> bool
    ensures { result ≡ is_missing (value_at store.now goal) }
{
    match store.value(goal) {
        Some(_) => false,
        None => true,
    }
}

/// The goals that have a value leave a list.
pub(crate) fn sweep(goals: &mut Vec<u32>, store: &Store)
    ensures { goals.new.items ≡ open_in store.now goals.old.items }
{
    goals.retain(|goal| is_open(store, *goal));
}

/// Adds what comes for a goal where others take the place of the first taken one.
fn add(
    made: &mut Vec<u32>,
    first: u32,
    taken: &[u32],
    left: &[u32],
    goal: u32,
) -> Result<(), NoMemory>
    ensures { OnOk result (made.new.items ≡ made.old.items ++ stands_for first taken.now left.now goal) }
{
    if goal == first {
        made.extend_from_slice(left)?;
        return Ok(());
    }
    if has(taken, goal) {
        return Ok(());
    }
    made.push(goal)?;
    Ok(())
}

/// A list with goals in the place of the first taken one, and without the other taken ones.
fn placed(
    alloc: Global,
    first: u32,
    taken: &[u32],
    left: &[u32],
    goals: &[u32],
) -> Result<Vec<u32>, NoMemory>
    ensures { IfOk result (λ v. v.items ≡ placed first taken.now left.now goals.now) }
{
    let mut made = Vec::new(alloc);
    for goal in goals {
        add(&mut made, first, taken, left, *goal)?;
    }
    Ok(made)
}

/// Goals ahead of a list without the taken ones.
fn ahead(alloc: Global, taken: &[u32], left: &[u32], goals: &[u32]) -> Result<Vec<u32>, NoMemory>
    ensures { IfOk result (λ v. v.items ≡ left.now ++ without taken.now goals.now) }
{
    let mut made = behind(alloc, goals, &[])?;
    take_out(&mut made, taken);
    behind(alloc, left, made.as_slice())
}

/// A list without the taken goals, and with others at its end.
pub(crate) fn shelf_with(
    alloc: Global,
    taken: &[u32],
    shelved: &[u32],
    shelf: &[u32],
) -> Result<Vec<u32>, NoMemory>
    ensures { IfOk result (λ v. v.items ≡ without taken.now shelf.now ++ shelved.now) }
{
    let mut made = behind(alloc, shelf, &[])?;
    take_out(&mut made, taken);
    made.extend_from_slice(shelved)?;
    Ok(made)
}

/// One list behind another.
pub(crate) fn behind(alloc: Global, first: &[u32], second: &[u32]) -> Result<Vec<u32>, NoMemory>
    ensures { IfOk result (λ v. v.items ≡ first.now ++ second.now) }
{
    let mut made = Vec::new(alloc);
    made.extend_from_slice(first)?;
    made.extend_from_slice(second)?;
    Ok(made)
}

/// The goals in focus after the taken ones gave their places to those left.
pub(crate) fn refocused(
    alloc: Global,
    taken: &[u32],
    left: &[u32],
    focus: &[u32],
) -> Result<Vec<u32>, NoMemory>
    ensures { IfOk result (λ v. v.items ≡ refocused taken.now left.now focus.now) }
{
    match taken {
        [] => behind(alloc, &[], focus),
        [first, ..] => gives_way(alloc, *first, taken, left, focus),
    }
}

/// The goals in focus after the taken ones, of which that is the first, gave their places to those left.
fn gives_way(
    alloc: Global,
    first: u32,
    taken: &[u32],
    left: &[u32],
    focus: &[u32],
) -> Result<Vec<u32>, NoMemory>
    ensures { IfOk result (λ v. v.items
        ≡ (if has focus.now first then placed first taken.now left.now focus.now else left.now ++ without taken.now focus.now)) }
{
    if has(focus, first) {
        placed(alloc, first, taken, left, focus)
    } else {
        ahead(alloc, taken, left, focus)
    }
}
