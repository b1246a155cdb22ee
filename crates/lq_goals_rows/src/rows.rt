//! Rows over a proof. A line has words. The first is the type of the proof's one goal, number 0: `deep=N` are N successors of the sort
//! of propositions, `wide=N` is that sort, N times applied to itself. Each other word is a step; the first one that is refused ends
//! the line.
//!
//! `make=N`: N variables more. `give=K`: variable K has the sort of propositions as its value. `replace=T:L:S`: the goals T give their
//! places to L, and S are shelved. `shelve=K`: these goals go to the shelf. `solve`: the goals in focus, one after the other, get a value
//! and leave. `chain=N`: N times a new variable takes the place of the first goal. `copy`: the proof is a copy of itself.
//!
//! `goal=K`, `root`: how many nodes the type of a goal has as it reads, and how many the proof's term has, if it is no variable.
//! `view`: how many goals are seen, and how many are on the shelf, where none is there yet and the goals in focus rise. `hide`: the
//! same, after the first goal went there.
//!
//! The answer is what was asked, the goals in focus, those on the shelf, and how many there are of both.

ghost use Rattle.std.specs.Prelude.{IfOk};
ghost use Rattle.lq_terms.specs.Terms.{Grows};
ghost use Rattle.lq_goals_rows.specs.Looks.{IsKept, HasPlain};

use crate::giving::{deep, sort, wide};
use crate::lists::{number, write_goals};
use crate::steps::step;
use lq_evars::StoreFault;
use lq_goals::{GoalFault, Proof};
use lq_terms::{Bank, NoMemory, TermId};
use std::alloc::{AllocError, AllocFailed, Global};

/// Why a row has no answer.
#[derive(Clone, Copy)]
pub(crate) enum RowFault {
    /// A goal is not in focus.
    NothingFocused,
    /// Too many goals would be in focus.
    TooManyGoals,
    /// A term as read is too large.
    TooLarge,
    /// A term as read is too deep.
    TooDeep,
    /// There are too many variables.
    Full,
    /// There was no memory.
    NoMemory,
    /// There is no such row.
    Malformed,
}

impl From<NoMemory> for RowFault {
    fn from(_: NoMemory) -> RowFault {
        RowFault::NoMemory
    }
}

impl From<AllocError> for RowFault {
    fn from(_: AllocError) -> RowFault {
        RowFault::NoMemory
    }
}

impl<T: Drop> From<AllocFailed<T>> for RowFault {
    fn from(_: AllocFailed<T>) -> RowFault {
        RowFault::NoMemory
    }
}

impl From<GoalFault> for RowFault {
    fn from(fault: GoalFault) -> RowFault {
        match fault {
            GoalFault::NothingFocused => RowFault::NothingFocused,
            GoalFault::TooManyGoals => RowFault::TooManyGoals,
            GoalFault::NoMemory => RowFault::NoMemory,
        }
    }
}

impl From<StoreFault> for RowFault {
    fn from(fault: StoreFault) -> RowFault {
        match fault {
            StoreFault::TooLarge => RowFault::TooLarge,
            StoreFault::TooDeep => RowFault::TooDeep,
            StoreFault::Full => RowFault::Full,
            StoreFault::NoMemory => RowFault::NoMemory,
        }
    }
}

/// The type of the proof's goal.
#[tactic(auto, using(crate::proofs::Keeping::keeping))]
fn kind_of(bank: &mut Bank<'_>, word: &str) -> Result<TermId, RowFault>
    ensures has { IfOk result (HasPlain bank.new) }
    ensures grows { Grows bank.old bank.new }
{
    let Some((word, many)) = word.split_once('=') else {
        return Err(RowFault::Malformed);
    };
    let many = number(many)?;
    match word {
        "deep" => deep(bank, many),
        "wide" => wide(bank, many),
        _ => Err(RowFault::Malformed),
    }
}

/// Writes the lists.
fn write_lists(alloc: Global, proof: &Proof, out: &mut String) -> Result<(), RowFault> {
    out.push_str("focus")?;
    write_goals(alloc, proof.focused(), out)?;
    let text = format!(in alloc;
        ", open {}, shelf {}",
        proof.open_count(),
        proof.shelf_count()
    )?;
    out.push_str(&text)?;
    Ok(())
}

/// The steps of a line.
#[tactic(auto, using(crate::proofs::Keeping::keeping))]
fn steps(
    bank: &mut Bank<'_>,
    proof: &mut Proof,
    line: &str,
    out: &mut String,
) -> Result<(), RowFault>
    requires { IsKept bank.old proof.old }
{
    let sort = sort(bank)?;
    for word in line.split(' ') {
        step(bank, proof, sort, word, out)?;
    }
    Ok(())
}

/// The answer to a line over a proof.
fn on_proof(bank: &mut Bank<'_>, proof: &mut Proof, line: &str) -> Result<String, RowFault>
    requires { IsKept bank.old proof.old }
{
    let alloc = bank.allocator();
    let mut out = String::new(alloc);
    steps(bank, proof, line, &mut out)?;
    write_lists(alloc, proof, &mut out)?;
    Ok(out)
}

/// The answer to a line whose goal has that type.
fn from_kind(bank: &mut Bank<'_>, kind: TermId, line: &str) -> Result<String, RowFault>
    requires { HasPlain bank.old kind }
{
    let mut proof = Proof::start(bank, kind)?;
    on_proof(bank, &mut proof, line)
}

/// The answer to a line in a bank.
#[tactic(auto, using(crate::proofs::Keeping::keeping))]
fn in_bank(bank: &mut Bank<'_>, first: &str, line: &str) -> Result<String, RowFault> {
    let kind = kind_of(bank, first)?;
    from_kind(bank, kind, line)
}

/// The answer to a line.
pub(crate) fn answer(alloc: Global, line: &str) -> Result<String, RowFault> {
    let Some((first, rest)) = line.split_once(' ') else {
        return Err(RowFault::Malformed);
    };
    let mut bank = Bank::new(alloc)?;
    in_bank(&mut bank, first, rest)
}
