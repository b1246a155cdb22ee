//! The steps of a row.

ghost use Rattle.lq_terms.specs.Terms.{Grows};
ghost use Rattle.lq_goals_rows.specs.Looks.{IsKept, IsSort};

use crate::giving::{give, make};
use crate::lists::{goals_of, number};
use crate::rows::RowFault;
use crate::views::{goal_size, hidden, root_size, seen};
use lq_goals::Proof;
use lq_terms::{Bank, TermId};
use std::alloc::Global;

/// So many variables more.
fn make_all(bank: &Bank<'_>, proof: &mut Proof, sort: TermId, many: u32) -> Result<(), RowFault>
    requires kept { IsKept bank.now proof.old }
    requires sort { IsSort bank.now sort }
    ensures { IsKept bank.now proof.new }
{
    for _ in 0..many {
        make(bank, proof, sort)?;
    }
    Ok(())
}

/// Goals give their places to others.
fn replace(bank: &Bank<'_>, proof: &mut Proof, lists: &str) -> Result<(), RowFault>
    requires { IsKept bank.now proof.old }
    ensures { IsKept bank.now proof.new }
{
    let Some((taken, rest)) = lists.split_once(':') else {
        return Err(RowFault::Malformed);
    };
    let Some((left, shelved)) = rest.split_once(':') else {
        return Err(RowFault::Malformed);
    };
    let alloc = bank.allocator();
    let taken = goals_of(alloc, taken)?;
    let left = goals_of(alloc, left)?;
    let shelved = goals_of(alloc, shelved)?;
    proof.replace(taken.as_slice(), left.as_slice(), shelved.as_slice())?;
    Ok(())
}

/// Goals go to the shelf.
fn shelve(bank: &Bank<'_>, proof: &mut Proof, goals: &str) -> Result<(), RowFault>
    requires { IsKept bank.now proof.old }
    ensures { IsKept bank.now proof.new }
{
    let goals = goals_of(bank.allocator(), goals)?;
    proof.shelve(goals.as_slice())?;
    Ok(())
}

/// The first goal in focus.
fn first(proof: &Proof) -> Result<u32, RowFault> {
    match proof.focused() {
        [goal, ..] => Ok(*goal),
        [] => Err(RowFault::NothingFocused),
    }
}

/// So many times a new variable takes the place of the first goal.
fn chain(bank: &Bank<'_>, proof: &mut Proof, sort: TermId, many: u32) -> Result<(), RowFault>
    requires kept { IsKept bank.now proof.old }
    requires sort { IsSort bank.now sort }
    ensures { IsKept bank.now proof.new }
{
    for _ in 0..many {
        let goal = first(proof)?;
        let next = make(bank, proof, sort)?;
        proof.replace(&[goal], &[next], &[])?;
    }
    Ok(())
}

/// The goals in focus get a value and leave, one after the other.
#[tactic(auto, using(crate::proofs::Keeping::keeping))]
fn solve(bank: &mut Bank<'_>, proof: &mut Proof, sort: TermId) -> Result<(), RowFault>
    requires kept { IsKept bank.old proof.old }
    requires sort { IsSort bank.old sort }
    ensures kept { IsKept bank.new proof.new }
    ensures grows { Grows bank.old bank.new }
{
    for _ in 0..proof.focused().len() {
        let goal = first(proof)?;
        give(bank, proof, sort, goal)?;
        proof.replace(&[goal], &[], &[])?;
    }
    Ok(())
}

/// The proof is a copy of itself.
fn copy(bank: &Bank<'_>, proof: &mut Proof) -> Result<(), RowFault>
    requires { IsKept bank.now proof.old }
    ensures { IsKept bank.now proof.new }
{
    *proof = proof.copy(bank.allocator())?;
    Ok(())
}

/// What is written of the proof's term.
fn root_text(alloc: Global, size: Option<u64>) -> Result<String, RowFault> {
    match size {
        Some(size) => Ok(format!(in alloc; "root of {size}, ")?),
        None => Ok(format!(in alloc; "root open, ")?),
    }
}

/// Hides the first goal, and writes what is seen then.
#[tactic(auto, using(crate::proofs::Keeping::keeping))]
fn hide(bank: &mut Bank<'_>, proof: &mut Proof, out: &mut String) -> Result<(), RowFault>
    requires { IsKept bank.old proof.old }
    ensures kept { IsKept bank.new proof.new }
    ensures grows { Grows bank.old bank.new }
{
    let (goals, shelved) = hidden(bank, proof)?;
    let text = format!(in bank.allocator(); "view of {goals} and {shelved}, ")?;
    out.push_str(&text)?;
    Ok(())
}

/// Writes what is asked of the proof as it reads.
fn ask(
    bank: &mut Bank<'_>,
    proof: &Proof,
    word: &str,
    rest: &str,
    out: &mut String,
) -> Result<(), RowFault>
    requires { IsKept bank.old proof.now }
    ensures { Grows bank.old bank.new }
{
    let alloc = bank.allocator();
    let text = match word {
        "goal" => {
            let size = goal_size(bank, proof, number(rest)?)?;
            format!(in alloc; "goal of {size}, ")?
        }
        "root" => {
            let size = root_size(bank, proof)?;
            root_text(alloc, size)?
        }
        "view" => {
            let (goals, shelved) = seen(bank, proof)?;
            format!(in alloc; "view of {goals} and {shelved}, ")?
        }
        _ => return Err(RowFault::Malformed),
    };
    out.push_str(&text)?;
    Ok(())
}

/// A step.
pub(crate) fn step(
    bank: &mut Bank<'_>,
    proof: &mut Proof,
    sort: TermId,
    word: &str,
    out: &mut String,
) -> Result<(), RowFault>
    requires kept { IsKept bank.old proof.old }
    requires sort { IsSort bank.old sort }
    ensures kept { IsKept bank.new proof.new }
    ensures grows { Grows bank.old bank.new }
{
    let (word, rest) = match word.split_once('=') {
        Some((word, rest)) => (word, rest),
        None => (word, ""),
    };
    match word {
        "make" => make_all(bank, proof, sort, number(rest)?),
        "give" => give(bank, proof, sort, number(rest)?),
        "replace" => replace(bank, proof, rest),
        "shelve" => shelve(bank, proof, rest),
        "chain" => chain(bank, proof, sort, number(rest)?),
        "solve" => solve(bank, proof, sort),
        "copy" => copy(bank, proof),
        "hide" => hide(bank, proof, out),
        _ => ask(bank, proof, word, rest, out),
    }
}
