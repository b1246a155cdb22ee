//! Rows over a bank of terms: `lift BY FROM in T = T`, `subst V in T = T`, `close a in T = T`, `open a in T = T`,
//! `instance a V in T = T` with `V` for the hypothesis, `put BELOW a V in T = T`, `spread INSIDE P,P in T = T`, where
//! an answer `yes` is that both are the same but for names of binders; `fresh a of a b = a0`, `same T = T`,
//! `measure T = SIZE DEPTH`, `fits T`, `marks T = LOOSE yes no` with whether a hypothesis and
//! whether an unknown stands in it, `twice T`, `import T`, `name a`, `undo T`.

ghost use Rattle.std.specs.Prelude.{◌≡◌, ◌≤◌, IfOk};
ghost use Rattle.std.specs.List.{AllByRecursion};
ghost use Rattle.lq_trees.specs.Index.{Within};
ghost use Rattle.lq_trees.specs.Size.{fit};
ghost use Rattle.lq_trees.specs.declared.Fit.{Fit};
ghost use Rattle.lq_env.specs.Premises.{AreBelow};
ghost use Rattle.lq_words.specs.Low.{IsLow};
ghost use Rattle.lq_terms.specs.Terms.{HasName, HasTerm, Grows, tree_of};
ghost use Rattle.lq_kernel_rows.specs.Told.{IfTerm};

use crate::row::{Change, change_of, number, parted, yes};
use crate::told::size_word;
use lq_terms::{
    Bank, Context, Hypothesis, Instance, NameId, SizeFault, TermId, close, fits, fresh_name,
    holds_hypothesis, holds_unknown, instance, lift, loose, measure, open, put, same, spread,
    subst,
};
use lq_trees::Fit;
use lq_words::{RowFault, build, reaches};
use std::alloc::Global;

/// Whether a term is the one that is written so; else why there is none.
fn compared(
    bank: &mut Bank<'_>,
    answer: Result<TermId, SizeFault>,
    wanted: &str,
) -> Result<&'static str, RowFault>
    requires { IfTerm bank.old answer }
    ensures { Grows bank.old bank.new }
{
    match answer {
        Ok(term) => {
            let wanted = build(bank, wanted)?;
            Ok(yes(same(bank, term, wanted)))
        }
        Err(fault) => Ok(size_word(fault)),
    }
}

/// Raises loose bound variables.
#[tactic(auto, using(crate::proofs::Fits::fits))]
fn lifts(bank: &mut Bank<'_>, row: Change<'_>) -> Result<&'static str, RowFault>
    ensures { Grows bank.old bank.new }
{
    let (by, from) = parted(row.head, " ")?;
    let by = number(by)?;
    let from = number(from)?;
    if by > 1_000 || from > 1_000 {
        return Err(RowFault::Malformed);
    }
    let term = build(bank, row.term)?;
    let answer = lift(bank, term, by, from);
    compared(bank, answer, row.wanted)
}

/// Puts a term in the place of the outermost bound variable.
#[tactic(auto, using(crate::proofs::Fits::fits))]
fn substitutes(bank: &mut Bank<'_>, row: Change<'_>) -> Result<&'static str, RowFault>
    ensures { Grows bank.old bank.new }
{
    let value = build(bank, row.head)?;
    let term = build(bank, row.term)?;
    let answer = subst(bank, term, value);
    compared(bank, answer, row.wanted)
}

/// Makes a hypothesis the outermost bound variable.
#[tactic(auto, using(crate::proofs::Fits::fits))]
fn closes(bank: &mut Bank<'_>, row: Change<'_>) -> Result<&'static str, RowFault>
    ensures { Grows bank.old bank.new }
{
    let term = build(bank, row.term)?;
    let name = bank.name(row.head)?;
    let answer = close(bank, term, name);
    compared(bank, answer, row.wanted)
}

/// Makes the outermost bound variable a hypothesis.
fn opens(bank: &mut Bank<'_>, row: Change<'_>) -> Result<&'static str, RowFault>
    ensures { Grows bank.old bank.new }
{
    let term = build(bank, row.term)?;
    let name = bank.name(row.head)?;
    let answer = open(bank, term, name)?;
    compared(bank, Ok(answer), row.wanted)
}

/// Puts a term in the place of a hypothesis.
#[tactic(auto, using(crate::proofs::Fits::fits))]
fn instantiate(
    bank: &mut Bank<'_>,
    term: TermId,
    name: NameId,
    value: TermId,
) -> Result<Result<TermId, SizeFault>, RowFault>
    requires term { HasTerm bank.old term }
    requires within { Within 1000000 (tree_of bank.old term) }
    requires name { HasName bank.old name }
    requires value { HasTerm bank.old value }
    requires low { Within 1000000 (tree_of bank.old value) }
    ensures term { IfOk result (IfTerm bank.new) }
    ensures grows { Grows bank.old bank.new }
{
    let mut context = Context::new(bank.allocator());
    context.push(Hypothesis {
        name,
        body: None,
        kind: value,
    })?;
    let mut terms = Instance::new(bank.allocator());
    terms.push(value)?;
    Ok(instance(bank, term, &context, &terms))
}

/// Puts a term in the place of a hypothesis.
#[tactic(auto, using(crate::proofs::Fits::fits))]
fn fills(bank: &mut Bank<'_>, row: Change<'_>) -> Result<&'static str, RowFault>
    ensures { Grows bank.old bank.new }
{
    let (name, value) = parted(row.head, " ")?;
    let value = build(bank, value)?;
    let term = build(bank, row.term)?;
    let name = bank.name(name)?;
    let answer = instantiate(bank, term, name, value)?;
    compared(bank, answer, row.wanted)
}

/// Puts a term in the place of a hypothesis, below binders that are not part of the term.
#[tactic(auto, using(crate::proofs::Fits::fits))]
fn put_below(
    bank: &mut Bank<'_>,
    term: TermId,
    below: u32,
    hypothesis: Hypothesis,
    value: TermId,
) -> Result<TermId, RowFault>
    requires term { IsLow bank.old term }
    requires fits { fit (tree_of bank.old term) ≡ Fit.Fits }
    requires below { below ≤ 1000 }
    requires name { HasName bank.old hypothesis.name }
    requires value { IsLow bank.old value }
    requires fits_value { fit (tree_of bank.old value) ≡ Fit.Fits }
    ensures has { IfOk result (HasTerm bank.new) }
    ensures grows { Grows bank.old bank.new }
{
    let answer = put(bank, term, below, &[hypothesis], &[value])?;
    Ok(answer)
}

/// Puts a term in the place of a hypothesis, below binders that are not part of the term.
#[tactic(auto, using(crate::proofs::Fits::fits))]
fn puts(bank: &mut Bank<'_>, row: Change<'_>) -> Result<&'static str, RowFault>
    ensures { Grows bank.old bank.new }
{
    let (below, rest) = parted(row.head, " ")?;
    let below = number(below)?;
    let hypothesis = hypothesis_of(bank, rest)?;
    let term = build(bank, row.term)?;
    let value = hypothesis.kind;
    if below > 1_000 || fits(bank, term) != Fit::Fits || fits(bank, value) != Fit::Fits {
        return Err(RowFault::Unwritten);
    }
    let answer = put_below(bank, term, below, hypothesis, value)?;
    compared(bank, Ok(answer), row.wanted)
}

/// A hypothesis's name and the term that is put in its place, which stands as its type too.
fn hypothesis_of(bank: &mut Bank<'_>, text: &str) -> Result<Hypothesis, RowFault>
    ensures kind { IfOk result (λ h. IsLow bank.new h.kind) }
    ensures name { IfOk result (λ h. HasName bank.new h.name) }
    ensures grows { Grows bank.old bank.new }
{
    let (name, value) = parted(text, " ")?;
    let kind = build(bank, value)?;
    let name = bank.name(name)?;
    Ok(Hypothesis {
        name,
        body: None,
        kind,
    })
}

/// Places below a number, with commas between them.
#[tactic(auto, using(crate::proofs::Fits::fits))]
fn places(alloc: Global, text: &str, inside: u32) -> Result<Vec<u32>, RowFault>
    ensures { IfOk result (λ v. AreBelow inside v.items) }
{
    let mut places = Vec::new(alloc);
    for word in text.split(',') {
        let place = number(word)?;
        if place >= inside {
            return Err(RowFault::Unwritten);
        }
        places.push(place)?;
    }
    Ok(places)
}

/// Moves the bound variables of binders to other places.
#[tactic(auto, using(crate::proofs::Fits::fits))]
fn move_to(
    bank: &mut Bank<'_>,
    row: Change<'_>,
    places: &[u32],
    inside: u32,
) -> Result<&'static str, RowFault>
    requires below { AreBelow inside places.now }
    requires few { inside ≤ 1000 }
    ensures { Grows bank.old bank.new }
{
    let term = build(bank, row.term)?;
    let count = places.len() as u64;
    if !reaches(bank, count, term) || measure(bank, term).size > 1_000_000 {
        return Err(RowFault::Unwritten);
    }
    let answer = spread(bank, term, places, inside)?;
    compared(bank, Ok(answer), row.wanted)
}

/// Moves the bound variables of binders to other places.
fn spreads(bank: &mut Bank<'_>, row: Change<'_>) -> Result<&'static str, RowFault>
    ensures { Grows bank.old bank.new }
{
    let (inside, words) = parted(row.head, " ")?;
    let inside = number(inside)?;
    if inside > 1_000 {
        return Err(RowFault::Malformed);
    }
    let places = places(bank.allocator(), words, inside)?;
    move_to(bank, row, &places, inside)
}

/// Takes a term into another bank, from this one and from its copy.
fn imported(bank: &Bank<'_>, other: &mut Bank<'_>, term: TermId) -> Result<bool, RowFault>
    requires { HasTerm bank.now term }
{
    let copy = bank.copy()?;
    imported_twice(bank, &copy, other, term)
}

/// Takes a term into another bank, from this one and from a bank that is the same.
fn imported_twice(
    bank: &Bank<'_>,
    copy: &Bank<'_>,
    other: &mut Bank<'_>,
    term: TermId,
) -> Result<bool, RowFault>
    requires here { HasTerm bank.now term }
    requires there { HasTerm copy.now term }
{
    let here = other.import(bank, term)?;
    let there = other.import(copy, term)?;
    let whole = measure(other, here) == measure(bank, term);
    Ok(whole && same(other, here, there))
}

/// Whether a term stands in another bank as it is here.
fn imports(bank: &mut Bank<'_>, text: &str) -> Result<&'static str, RowFault>
    ensures { Grows bank.old bank.new }
{
    let term = build(bank, text)?;
    let mut other = Bank::new(bank.allocator())?;
    let is = imported(bank, &mut other, term)?;
    Ok(yes(is))
}

/// Whether two terms are the same.
fn compares(bank: &mut Bank<'_>, text: &str) -> Result<&'static str, RowFault>
    ensures { Grows bank.old bank.new }
{
    let (left, right) = parted(text, " = ")?;
    let left = build(bank, left)?;
    let right = build(bank, right)?;
    Ok(yes(same(bank, left, right)))
}

/// Whether a term is as large and as deep as that.
fn measures(bank: &mut Bank<'_>, text: &str) -> Result<&'static str, RowFault>
    ensures { Grows bank.old bank.new }
{
    let (term, wanted) = parted(text, " = ")?;
    let (size, depth) = parted(wanted, " ")?;
    let size = u64::from(number(size)?);
    let depth = u64::from(number(depth)?);
    let term = build(bank, term)?;
    let found = measure(bank, term);
    Ok(yes(found.size == size && found.depth == depth))
}

/// Whether a term is within the limits.
fn is_fitting(bank: &mut Bank<'_>, text: &str) -> Result<&'static str, RowFault>
    ensures { Grows bank.old bank.new }
{
    let term = build(bank, text)?;
    match fits(bank, term) {
        Fit::Fits => Ok("fits"),
        Fit::TooLarge => Ok("too large"),
        Fit::TooDeep => Ok("too deep"),
    }
}

/// Whether a term has so many loose bound variables, and holds a hypothesis and an unknown or not.
fn is_marked(bank: &mut Bank<'_>, text: &str) -> Result<&'static str, RowFault>
    ensures { Grows bank.old bank.new }
{
    let (term, wanted) = parted(text, " = ")?;
    let (count, wanted) = parted(wanted, " ")?;
    let (hypothesis, unknown) = parted(wanted, " ")?;
    let count = u64::from(number(count)?);
    let term = build(bank, term)?;
    let is_loose = loose(bank, term) == count;
    let is_named = yes(holds_hypothesis(bank, term)) == hypothesis;
    let is_unknown = yes(holds_unknown(bank, term)) == unknown;
    Ok(yes(is_loose && is_named && is_unknown))
}

/// Whether a term that is made twice is one, which the second time adds nothing.
fn is_made_once(bank: &mut Bank<'_>, text: &str) -> Result<&'static str, RowFault>
    ensures { Grows bank.old bank.new }
{
    let first = build(bank, text)?;
    let mark = bank.mark();
    let second = build(bank, text)?;
    Ok(yes(first == second && bank.mark() == mark))
}

/// Whether a name is kept once, with its text.
fn is_kept_once(bank: &mut Bank<'_>, text: &str) -> Result<&'static str, RowFault>
    ensures { Grows bank.old bank.new }
{
    let first = bank.name(text)?;
    let second = bank.name(text)?;
    Ok(yes(first == second && bank.same_name(first, second) && bank.text(first) == text))
}

/// Whether a bank is as it was where what is made of a term is taken out again.
fn is_undone(bank: &mut Bank<'_>, text: &str) -> Result<&'static str, RowFault>
    ensures { Grows bank.old bank.new }
{
    let mark = bank.mark();
    build(bank, text)?;
    let grown = bank.mark() != mark;
    bank.undo(mark);
    Ok(yes(grown && bank.mark() == mark))
}

/// Names in a row, with blanks between them.
#[tactic(auto, using(crate::proofs::Fits::fits))]
fn names(bank: &mut Bank<'_>, text: &str) -> Result<Vec<NameId>, RowFault>
    ensures has { IfOk result (λ v. AllByRecursion (HasName bank.new) v.items) }
    ensures grows { Grows bank.old bank.new }
{
    let mut names = Vec::new(bank.allocator());
    for word in text.split_whitespace() {
        let name = bank.name(word)?;
        names.push(name)?;
    }
    Ok(names)
}

/// Whether the fresh name is that one.
#[tactic(auto, using(crate::proofs::Fits::fits))]
fn is_fresh(bank: &mut Bank<'_>, text: &str) -> Result<&'static str, RowFault>
    ensures { Grows bank.old bank.new }
{
    let (base, rest) = parted(text, " of ")?;
    let (taken, wanted) = parted(rest, " = ")?;
    let base = bank.name(base)?;
    let taken = names(bank, taken)?;
    let found = fresh_name(bank, &taken, base)?;
    Ok(yes(bank.text(found) == wanted))
}

/// What a bank answers to a change.
fn changed(bank: &mut Bank<'_>, word: &str, text: &str) -> Result<&'static str, RowFault>
    ensures { Grows bank.old bank.new }
{
    let row = change_of(text)?;
    match word {
        "lift" => lifts(bank, row),
        "subst" => substitutes(bank, row),
        "close" => closes(bank, row),
        "open" => opens(bank, row),
        "put" => puts(bank, row),
        "spread" => spreads(bank, row),
        _ => fills(bank, row),
    }
}

/// Whether a word asks something of a bank.
pub(crate) fn is_of_bank(word: &str) -> bool {
    is_change(word)
        || matches!(
            word,
            "same" | "measure" | "fits" | "marks" | "twice" | "import" | "name" | "undo" | "fresh"
        )
}

/// Whether a word changes a term.
fn is_change(word: &str) -> bool {
    matches!(
        word,
        "lift" | "subst" | "close" | "open" | "instance" | "put" | "spread"
    )
}

/// What a bank answers to a row.
pub(crate) fn bank_row(
    bank: &mut Bank<'_>,
    word: &str,
    text: &str,
) -> Result<&'static str, RowFault>
    ensures { Grows bank.old bank.new }
{
    if is_change(word) {
        return changed(bank, word, text);
    }
    match word {
        "same" => compares(bank, text),
        "measure" => measures(bank, text),
        "fits" => is_fitting(bank, text),
        "marks" => is_marked(bank, text),
        "twice" => is_made_once(bank, text),
        "import" => imports(bank, text),
        "name" => is_kept_once(bank, text),
        "undo" => is_undone(bank, text),
        _ => is_fresh(bank, text),
    }
}
