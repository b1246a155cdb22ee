//! Rows over a store. `chain N`: of N variables each but the last is valued by the next; whether the first one reads as the last (1).
//! `nest N`: each is valued by the successor of the next; how many nodes the first one reads as. `twice N`: each is valued by the
//! next, applied to itself; the same. `copy N`: the same as `nest N`, read through a copy.
//!
//! Whether two terms are equal as they read (1 or 0), of N variables that are filled so: `same N`, by `chain`: the first and the last;
//! `deep N`, by `nest`, and `wide N`, by `twice`: the first and what it is valued by; `apart N`, by `twice`: the first and the second;
//! `uneven N`, by `twice`: the first and the last.
//!
//! `value N`: a variable is valued by N successors of the sort of propositions: 1. `back N`: by `chain`; when all values but one were taken
//! back: how many variables have a value. `named N`: of N variables the last has a name: the number of the variable of that name. `kind N`:
//! of N variables the first gets another type: whether it has that (1). `told N`: by `chain`: how many variables reduction finds valued.
//! `full N`: N variables, and then one more: how many there are. `context N`: a variable below N hypotheses: how many its context has.

ghost use Rattle.std.specs.Prelude.{◌≡◌, IfOk};
ghost use Rattle.lq_terms.specs.Terms.{HasTerm, Grows};
ghost use Rattle.lq_evars_rows.specs.Looks.{HasSimple, IsSort, IsKept};

use crate::scenes::{add, alike, give, link, read_variable, sort, successor, twice};
use crate::variables::{context_row, full_row, kind_row, named_row, told_row, valued};
use lq_evars::{Store, StoreFault};
use lq_terms::{Bank, NoMemory, TermId, measure};
use std::alloc::Global;

/// Why a row has no number.
#[derive(Clone, Copy)]
pub(crate) enum RowFault {
    /// A term as read is too large.
    TooLarge,
    /// A term as read is too deep.
    TooDeep,
    /// There are too many variables.
    Full,
    /// There was no memory.
    NoMemory,
    /// There is no such row.
    Malformed,
}

impl From<NoMemory> for RowFault {
    fn from(_: NoMemory) -> RowFault {
        RowFault::NoMemory
    }
}

impl From<StoreFault> for RowFault {
    fn from(fault: StoreFault) -> RowFault {
        match fault {
            StoreFault::TooLarge => RowFault::TooLarge,
            StoreFault::TooDeep => RowFault::TooDeep,
            StoreFault::Full => RowFault::Full,
            StoreFault::NoMemory => RowFault::NoMemory,
        }
    }
}

/// What stands around the next variable in a value.
#[derive(Clone, Copy)]
enum Shape {
    /// Nothing.
    Chain,
    /// The successor.
    Nest,
    /// It is applied to itself.
    Twice,
}

/// The value of a variable.
fn body(bank: &mut Bank<'_>, shape: Shape, next: u32) -> Result<TermId, NoMemory>
    ensures simple { IfOk result (HasSimple bank.new next) }
    ensures grows { Grows bank.old bank.new }
{
    let term = link(bank, next)?;
    match shape {
        Shape::Chain => Ok(term),
        Shape::Nest => successor(bank, next, term),
        Shape::Twice => twice(bank, next, term),
    }
}

/// So many variables more.
fn add_all(bank: &Bank<'_>, store: &mut Store, sort: TermId, many: u32) -> Result<(), RowFault>
    requires kept { IsKept bank.now store.old }
    requires sort { IsSort bank.now sort }
    ensures { IsKept bank.now store.new }
{
    for _ in 0..many {
        add(bank, store, sort)?;
    }
    Ok(())
}

/// A value for each of so many variables.
fn give_all(bank: &mut Bank<'_>, store: &mut Store, shape: Shape, many: u32) -> Result<(), RowFault>
    requires { IsKept bank.old store.old }
    ensures { IsKept bank.new store.new }
{
    for next in 1..many {
        let body = body(bank, shape, next)?;
        give(bank, store, next - 1, next, body)?;
    }
    Ok(())
}

/// Variables that are valued by the next ones.
fn fill(bank: &mut Bank<'_>, store: &mut Store, shape: Shape, many: u32) -> Result<(), RowFault>
    requires { IsKept bank.old store.old }
    ensures { IsKept bank.new store.new }
{
    let sort = sort(bank)?;
    add_all(bank, store, sort, many)?;
    give_all(bank, store, shape, many)
}

/// How many nodes the first variable reads as.
fn size(bank: &mut Bank<'_>, store: &Store) -> Result<u64, RowFault>
    requires { IsKept bank.old store.now }
{
    let found = read_variable(bank, store, 0)?;
    Ok(measure(bank, found).size)
}

/// Whether the first variable reads as the last one.
fn reaches(bank: &mut Bank<'_>, store: &Store, many: u32) -> Result<u64, RowFault>
    requires { IsKept bank.old store.now }
{
    let found = read_variable(bank, store, 0)?;
    let last = link(bank, many.saturating_sub(1))?;
    Ok(if found == last { 1 } else { 0 })
}

/// Whether a variable reads as another one.
fn reads_as(bank: &mut Bank<'_>, store: &Store, left: u32, right: u32) -> Result<u64, RowFault>
    requires { IsKept bank.old store.now }
{
    let first = link(bank, left)?;
    let second = link(bank, right)?;
    let same = alike(bank, store, left, first, right, second)?;
    Ok(u64::from(same))
}

/// Whether the first variable reads as what it is valued by.
fn reads_as_value(bank: &mut Bank<'_>, store: &Store, shape: Shape) -> Result<u64, RowFault>
    requires { IsKept bank.old store.now }
{
    let first = link(bank, 0)?;
    let value = body(bank, shape, 1)?;
    let same = alike(bank, store, 0, first, 1, value)?;
    Ok(u64::from(same))
}

/// The values but the first are taken back: how many are left.
fn taken_back(bank: &Bank<'_>, store: &mut Store) -> u64
    requires { IsKept bank.now store.old }
{
    let _bank = bank;
    store.take_back(1);
    valued(store)
}

/// What a word asks of two terms.
fn compared(bank: &mut Bank<'_>, store: &mut Store, word: &str, many: u32) -> Result<u64, RowFault>
    requires { IsKept bank.old store.old }
{
    let last = many.saturating_sub(1);
    match word {
        "same" => {
            fill(bank, store, Shape::Chain, many)?;
            reads_as(bank, store, 0, last)
        }
        "deep" => {
            fill(bank, store, Shape::Nest, many)?;
            reads_as_value(bank, store, Shape::Nest)
        }
        "wide" => {
            fill(bank, store, Shape::Twice, many)?;
            reads_as_value(bank, store, Shape::Twice)
        }
        "apart" => {
            fill(bank, store, Shape::Twice, many)?;
            reads_as(bank, store, 0, 1)
        }
        "uneven" => {
            fill(bank, store, Shape::Twice, many)?;
            reads_as(bank, store, 0, last)
        }
        _ => Err(RowFault::Malformed),
    }
}

/// So many successors of a term.
#[tactic(auto, using(crate::proofs::Keeping::keeping))]
fn nested(bank: &mut Bank<'_>, variable: u32, term: TermId, many: u32) -> Result<TermId, NoMemory>
    requires { HasSimple bank.old variable term }
    ensures simple { IfOk result (HasSimple bank.new variable) }
    ensures grows { Grows bank.old bank.new }
{
    let mut whole = term;
    for _ in 0..many {
        whole = successor(bank, variable, whole)?;
    }
    Ok(whole)
}

/// A variable is valued by so many successors of the sort of propositions: whether it reads as that.
fn value_row(bank: &mut Bank<'_>, store: &mut Store, many: u32) -> Result<u64, RowFault>
    requires { IsKept bank.old store.old }
{
    let sort = sort(bank)?;
    add_all(bank, store, sort, 2)?;
    let value = nested(bank, 1, sort, many)?;
    give(bank, store, 0, 1, value)?;
    let found = read_variable(bank, store, 0)?;
    Ok(u64::from(found == value))
}

/// What a word asks of a store that is filled.
fn asked(bank: &mut Bank<'_>, store: &mut Store, word: &str, many: u32) -> Result<u64, RowFault>
    requires { IsKept bank.old store.old }
{
    match word {
        "chain" => {
            fill(bank, store, Shape::Chain, many)?;
            reaches(bank, store, many)
        }
        "nest" => {
            fill(bank, store, Shape::Nest, many)?;
            size(bank, store)
        }
        "twice" => {
            fill(bank, store, Shape::Twice, many)?;
            size(bank, store)
        }
        "copy" => {
            fill(bank, store, Shape::Nest, many)?;
            let copy = store.copy(bank.allocator())?;
            size(bank, &copy)
        }
        "value" => value_row(bank, store, many),
        "back" => {
            fill(bank, store, Shape::Chain, many)?;
            Ok(taken_back(bank, store))
        }
        "told" => {
            fill(bank, store, Shape::Chain, many)?;
            Ok(told_row(store))
        }
        _ => compared(bank, store, word, many),
    }
}

/// The same over an empty store.
fn in_bank(bank: &mut Bank<'_>, word: &str, many: u32) -> Result<u64, RowFault> {
    let mut store = Store::new(bank.allocator())?;
    match word {
        "named" => named_row(bank, &mut store, many),
        "kind" => kind_row(bank, &mut store, many),
        "full" => full_row(bank, &mut store, many),
        "context" => context_row(bank, &mut store, many),
        _ => asked(bank, &mut store, word, many),
    }
}

/// The answer to a line.
pub(crate) fn answer(alloc: Global, line: &str) -> Result<u64, RowFault> {
    let Some((word, many)) = line.split_once(' ') else {
        return Err(RowFault::Malformed);
    };
    let Ok(many) = many.parse::<u32>() else {
        return Err(RowFault::Malformed);
    };
    let mut bank = Bank::new(alloc)?;
    in_bank(&mut bank, word, many)
}
