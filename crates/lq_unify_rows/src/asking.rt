//! Whether two terms unify, under a budget: `unify T = T`, `unify T = T giving K := T, K := T` with the values that are given, in order.

ghost use Rattle.std.specs.Prelude.{◌≡◌, ◌<◌, IfOk};
ghost use Rattle.lq_terms.specs.Terms.{HasTerm, Grows, tree_of};
ghost use Rattle.lq_evars.specs.Places.{HasStore, GivesMore};
ghost use Rattle.lq_unify_rows.specs.Scenes.{IsScene, IsSeen, HasWanted};

use crate::declaring::Declared;
use crate::looks::stands;
use crate::reading::{Pair, is_value, pair_of};
use crate::words::{number, parted, write};
use lq_evars::Store;
use lq_terms::{Bank, Context, Steps, TermId, Ticks, Work};
use lq_unify::{UnifyFault, unify};
use lq_words::{RowFault, build};
use std::marker::Brand;
use std::sync::ledger::{Blank, Ledger};

/// What is written where the budget is spent.
pub(crate) const OUT: &str = "out of ticks ";

/// What a row asks, in words: two terms, and the values that are wanted.
#[derive(Clone, Copy)]
pub(crate) struct Asked<'a> {
    pub(crate) terms: &'a str,
    pub(crate) values: &'a str,
}

/// The answer. The store may have values more.
fn answer_in<L: Ledger>(
    work: &mut Work<'_, '_>,
    store: &mut Store,
    context: &Context,
    declared: &Declared,
    pair: Pair,
    steps: &mut Steps<L>,
) -> Result<bool, UnifyFault>
    requires scene { IsScene work.old.bank.now store.old context.now declared.now }
    requires left { HasTerm work.old.bank.now pair.left }
    requires left_seen { IsSeen work.old.bank.now store.old context.now 0 (tree_of work.old.bank.now pair.left) }
    requires right { HasTerm work.old.bank.now pair.right }
    requires right_seen { IsSeen work.old.bank.now store.old context.now 0 (tree_of work.old.bank.now pair.right) }
    ensures has { HasStore work.new.bank.now store.new }
    ensures more { GivesMore store.old store.new }
    ensures same_bank { work.new.bank.ghost_name ≡ work.old.bank.ghost_name }
    ensures grows { Grows work.old.bank.now work.new.bank.now }
{
    unify(work, declared, store, context, pair.left, pair.right, steps)
}

/// The same, with ticks that are counted from a blank.
fn answer_to<L: Ledger>(
    bank: &mut Bank<'_>,
    ticks: &mut Ticks,
    store: &mut Store,
    context: &Context,
    declared: &Declared,
    pair: Pair,
    blank: Blank,
) -> Result<bool, UnifyFault>
    requires scene { IsScene bank.old store.old context.now declared.now }
    requires left { HasTerm bank.old pair.left }
    requires left_seen { IsSeen bank.old store.old context.now 0 (tree_of bank.old pair.left) }
    requires right { HasTerm bank.old pair.right }
    requires right_seen { IsSeen bank.old store.old context.now 0 (tree_of bank.old pair.right) }
    requires name { blank.name ≡ L.name }
    requires parts { blank.parts ≡ L.parts }
    requires some { 0 < L.parts }
    ensures has { HasStore bank.new store.new }
    ensures more { GivesMore store.old store.new }
    ensures grows { Grows bank.old bank.new }
{
    let mut steps = Steps::<L>::new(blank);
    let mut work = Work {
        bank: &mut *bank,
        ticks: &mut *ticks,
    };
    answer_in(&mut work, store, context, declared, pair, &mut steps)
}

/// Whether the variables that got values since so many were given are these, in order, with these values.
fn are_given(bank: &Bank<'_>, store: &Store, given: usize, wanted: &[(u32, TermId)]) -> bool
    requires store { HasStore bank.now store.now }
    requires wanted { HasWanted bank.now wanted.now }
{
    let mut place = given;
    for (variable, value) in wanted {
        if store.given_to(place) != Some(*variable) || !is_value(bank, store, *variable, *value) {
            return false;
        }
        place = place.saturating_add(1);
    }
    store.given() == place
}

/// Writes an answer, and whether other values were given than the row wants.
fn write_answer(
    answer: Result<bool, UnifyFault>,
    as_wanted: bool,
    out: &mut String,
) -> Result<(), RowFault> {
    let word = match answer {
        Ok(true) => "yes ",
        Ok(false) => "no ",
        Err(UnifyFault::StepsOut) => OUT,
        Err(UnifyFault::TooLarge) => "too large ",
        Err(UnifyFault::TooDeep) => "too deep ",
        Err(UnifyFault::NoMemory) => "no memory ",
    };
    write(out, word)?;
    if !as_wanted && !matches!(answer, Err(UnifyFault::StepsOut)) {
        return write(out, "with other values ");
    }
    Ok(())
}

/// Writes the answer under a budget, and gives what is left of it. The store is as before.
#[tactic(auto, using(crate::proofs::Keeping::keeping))]
fn told(
    bank: &mut Bank<'_>,
    store: &mut Store,
    context: &Context,
    declared: &Declared,
    pair: Pair,
    wanted: &[(u32, TermId)],
    budget: u64,
    out: &mut String,
) -> Result<u64, RowFault>
    requires scene { IsScene bank.old store.old context.now declared.now }
    requires left { HasTerm bank.old pair.left }
    requires right { HasTerm bank.old pair.right }
    requires wanted { HasWanted bank.old wanted.now }
    ensures store { store.new ≡ store.old }
    ensures grows { Grows bank.old bank.new }
{
    let hypotheses = context.hypotheses();
    if !stands(bank, store, hypotheses, 0, pair.left) {
        return Err(RowFault::Unwritten);
    }
    if !stands(bank, store, hypotheses, 0, pair.right) {
        return Err(RowFault::Unwritten);
    }
    let given = store.given();
    let mut ticks = Ticks::new(budget);
    let blank = Blank::new(1);
    let answer = answer_to::<Brand>(bank, &mut ticks, store, context, declared, pair, blank);
    let as_wanted = are_given(bank, store, given, wanted);
    store.take_back(given);
    write_answer(answer, as_wanted, out)?;
    Ok(ticks.left)
}

/// One more value that is wanted: `K := T`.
#[tactic(auto, using(crate::proofs::Keeping::keeping))]
fn want(bank: &mut Bank<'_>, wanted: &mut Vec<(u32, TermId)>, text: &str) -> Result<(), RowFault>
    requires wanted { HasWanted bank.old wanted.old.items }
    ensures wanted { HasWanted bank.new wanted.new.items }
    ensures grows { Grows bank.old bank.new }
{
    let (variable, value) = parted(text, " := ")?;
    let variable = number(variable)?;
    let value = build(bank, value)?;
    wanted.push((variable, value))?;
    Ok(())
}

/// The values that are wanted, in order.
#[tactic(auto, using(crate::proofs::Keeping::keeping))]
fn wanted_of(bank: &mut Bank<'_>, values: &str) -> Result<Vec<(u32, TermId)>, RowFault>
    ensures wanted { IfOk result (λ ws. HasWanted bank.new ws.items) }
    ensures grows { Grows bank.old bank.new }
{
    let mut wanted = Vec::new(bank.allocator());
    for text in values.split(", ") {
        if !text.is_empty() {
            want(bank, &mut wanted, text)?;
        }
    }
    Ok(wanted)
}

/// Writes the answer to a row under a budget, and gives what is left of it. The store is as before.
#[tactic(auto, using(crate::proofs::Keeping::keeping))]
pub(crate) fn ask_under(
    bank: &mut Bank<'_>,
    store: &mut Store,
    context: &Context,
    declared: &Declared,
    asked: Asked<'_>,
    budget: u64,
    out: &mut String,
) -> Result<u64, RowFault>
    requires scene { IsScene bank.old store.old context.now declared.now }
    ensures store { store.new ≡ store.old }
    ensures grows { Grows bank.old bank.new }
{
    let pair = pair_of(bank, asked.terms)?;
    let wanted = wanted_of(bank, asked.values)?;
    told(bank, store, context, declared, pair, &wanted, budget, out)
}
