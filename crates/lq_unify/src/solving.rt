//! A variable is solved by a term: its value becomes the term with the variable's instance turned round.

ghost use Rattle.std.specs.Prelude.{◌≡◌, ◌<◌, true, false, Some, None, length, option_map, IfOk, IfSome, OnOk, OnErr};
ghost use Rattle.std.specs.List.{AllByRecursion};
ghost use Rattle.lq_trees.specs.Size.{fit};
ghost use Rattle.lq_trees.specs.Tree.{Tree, Trees};
ghost use Rattle.lq_terms.specs.Terms.{HasTerm, tree_of, trees_by, Grows};
ghost use Rattle.lq_solving.specs.Stores.{names_at, assigned, read};
ghost use Rattle.lq_solving.specs.Kept.{IsStore};
ghost use Rattle.lq_solving.specs.Unification.{Unify, Answer, is_variable, solve, or_else, by_right, by_solving};
ghost use Rattle.lq_trees.specs.Ticks.{gives};
ghost use Rattle.lq_solving.proofs.StoreLaws.{MayBeGiven};
ghost use Rattle.lq_evars.specs.Places.{store_of, HasStore};
ghost use Rattle.lq_evars.specs.Reading.{as_read};
ghost use Rattle.lq_unify.specs.Exposing.{IsOfStore};
ghost use Rattle.lq_unify.specs.Heads.{HasOpenHead};
ghost use Rattle.lq_unify.specs.Held.{is_absent};
ghost use Rattle.lq_unify.specs.Solving.{AreExposed, Solves, SolvesOr, solved, GivesOn, GivesBody, HasBody, IsLimit, IsMeant, IsOpenAt, body_of};

use crate::exposing::exposed;
use crate::faults::UnifyFault;
use crate::inverting::{inverted, is_unsolvable};
use lq_evars::{Store, StoreFault};
use lq_terms::{Bank, NoMemory, Node, TermId};
use std::alloc::Global;

/// The same terms.
fn copied(alloc: Global, terms: &[TermId]) -> Result<Vec<TermId>, NoMemory>
    ensures { IfOk result (λ ts. ts.items ≡ terms.now) }
{
    let terms = Vec::from_slice(alloc, terms)?;
    Ok(terms)
}

/// The entries of an instance, each with its head read.
fn exposed_each(
    bank: &mut Bank<'_>,
    store: &Store,
    entries: &[TermId],
) -> Result<Vec<TermId>, NoMemory>
    requires store { HasStore bank.old store.now }
    requires kept { IsStore (store_of bank.old store.now) }
    requires entries { AllByRecursion (IsOfStore bank.old (store_of bank.old store.now)) entries.now }
    ensures exposed { IfOk result (λ us. AreExposed (store_of bank.old store.now) bank.old bank.new entries.now us.items) }
    ensures grows { Grows bank.old bank.new }
{
    let mut answers = Vec::new(bank.allocator());
    for entry in entries {
        let answer = exposed(bank, store, *entry)?;
        answers.push(answer)?;
    }
    Ok(answers)
}

/// A term without loose bound variables that stands for itself, with the hypotheses among these entries replaced by those of the
/// variable's context at whose places they stand first. There is no answer as in `inverted`.
fn turned_round(
    bank: &mut Bank<'_>,
    store: &Store,
    variable: u32,
    entries: &[TermId],
    term: TermId,
) -> Result<Option<TermId>, NoMemory>
    requires store { HasStore bank.old store.now }
    requires variable { variable < length store.now.variables }
    requires entries { AllByRecursion (HasTerm bank.old) entries.now }
    requires as_many { length (names_at (store_of bank.old store.now).variables variable) ≡ length entries.now }
    requires term { HasTerm bank.old term }
    ensures is { IfOk result (λ o. option_map (tree_of bank.new) o ≡ body_of bank.old store.now variable entries.now (tree_of bank.old term)) }
    ensures has { IfOk result (λ o. IfSome o (HasTerm bank.new)) }
    ensures grows { Grows bank.old bank.new }
{
    let context = store.context(variable);
    inverted(bank, variable, context.hypotheses(), entries, term)
}

/// Whether there is no body for a variable at these entries and a term as it reads, however large that is.
fn is_without_body(
    bank: &mut Bank<'_>,
    store: &Store,
    variable: u32,
    entries: &[TermId],
    term: TermId,
) -> Result<bool, NoMemory>
    requires store { HasStore bank.old store.now }
    requires kept { IsStore (store_of bank.old store.now) }
    requires variable { variable < length store.now.variables }
    requires entries { AllByRecursion (HasTerm bank.old) entries.now }
    requires as_many { length (names_at (store_of bank.old store.now).variables variable) ≡ length entries.now }
    requires term { IsOfStore bank.old (store_of bank.old store.now) term }
    ensures is { IfOk result (λ b. b ≡ is_absent (body_of bank.old store.now variable entries.now
        (as_read (store_of bank.old store.now) (tree_of bank.old term)))) }
    ensures grows { Grows bank.old bank.new }
{
    let context = store.context(variable);
    is_unsolvable(bank, store, variable, context.hypotheses(), entries, term)
}

/// The fault of a body that passes a limit, unless there is no body.
fn without_body(
    bank: &mut Bank<'_>,
    store: &Store,
    variable: u32,
    entries: &[TermId],
    term: TermId,
    fault: UnifyFault,
) -> Result<Option<TermId>, UnifyFault>
    requires store { HasStore bank.old store.now }
    requires kept { IsStore (store_of bank.old store.now) }
    requires variable { variable < length store.now.variables }
    requires entries { AllByRecursion (HasTerm bank.old) entries.now }
    requires as_many { length (names_at (store_of bank.old store.now).variables variable) ≡ length entries.now }
    requires term { IsOfStore bank.old (store_of bank.old store.now) term }
    requires fault { IsLimit fault (fit (as_read (store_of bank.old store.now) (tree_of bank.old term))) }
    ensures body { HasBody bank.new result (body_of bank.old store.now variable entries.now (as_read (store_of bank.old store.now) (tree_of bank.old term)))
        (fit (as_read (store_of bank.old store.now) (tree_of bank.old term))) }
    ensures grows { Grows bank.old bank.new }
{
    let barred = is_without_body(bank, store, variable, entries, term)?;
    if barred { Ok(None) } else { Err(fault) }
}

/// The body for a variable at these entries by a term, both as they read: where there is one, the fault of it counts.
fn body_for(
    bank: &mut Bank<'_>,
    store: &Store,
    variable: u32,
    entries: &[TermId],
    term: TermId,
) -> Result<Option<TermId>, UnifyFault>
    requires store { HasStore bank.old store.now }
    requires kept { IsStore (store_of bank.old store.now) }
    requires variable { variable < length store.now.variables }
    requires entries { AllByRecursion (HasTerm bank.old) entries.now }
    requires as_many { length (names_at (store_of bank.old store.now).variables variable) ≡ length entries.now }
    requires term { IsOfStore bank.old (store_of bank.old store.now) term }
    ensures body { HasBody bank.new result (body_of bank.old store.now variable entries.now (as_read (store_of bank.old store.now) (tree_of bank.old term)))
        (fit (as_read (store_of bank.old store.now) (tree_of bank.old term))) }
    ensures grows { Grows bank.old bank.new }
{
    match store.read(bank, term) {
        Ok(read) => {
            let body = turned_round(bank, store, variable, entries, read)?;
            Ok(body)
        }
        Err(StoreFault::TooLarge) => {
            without_body(bank, store, variable, entries, term, UnifyFault::TooLarge)
        }
        Err(StoreFault::TooDeep) => {
            without_body(bank, store, variable, entries, term, UnifyFault::TooDeep)
        }
        Err(StoreFault::Full) => unreachable!(),
        Err(StoreFault::NoMemory) => Err(UnifyFault::NoMemory),
    }
}

/// The variable gets this body.
fn give(
    bank: &mut Bank<'_>,
    store: &mut Store,
    variable: u32,
    body: TermId,
) -> Result<bool, UnifyFault>
    requires store { HasStore bank.old store.old }
    requires kept { IsStore (store_of bank.old store.old) }
    requires body { HasTerm bank.old body }
    requires value { MayBeGiven (store_of bank.old store.old) variable (tree_of bank.old body) }
    ensures answer { GivesBody bank.new result store.new (assigned (store_of bank.old store.old) variable (tree_of bank.old body)) }
    ensures gives { OnOk result (GivesOn bank.old bank.new store.old store.new) }
    ensures refused { OnErr result (store.new ≡ store.old) }
    ensures grows { Grows bank.old bank.new }
{
    match store.assign(bank, variable, body) {
        Ok(()) => Ok(true),
        Err(StoreFault::TooLarge) => Err(UnifyFault::TooLarge),
        Err(StoreFault::TooDeep) => Err(UnifyFault::TooDeep),
        Err(StoreFault::Full) => unreachable!(),
        Err(StoreFault::NoMemory) => Err(UnifyFault::NoMemory),
    }
}

/// Solves a variable at these entries, whose heads are read, by a term.
fn solve_exposed(
    bank: &mut Bank<'_>,
    store: &mut Store,
    variable: u32,
    entries: &[TermId],
    term: TermId,
) -> Result<bool, UnifyFault>
    requires store { HasStore bank.old store.old }
    requires kept { IsStore (store_of bank.old store.old) }
    requires variable { variable < length store.old.variables }
    requires entries { AllByRecursion (HasTerm bank.old) entries.now }
    requires as_many { length (names_at (store_of bank.old store.old).variables variable) ≡ length entries.now }
    requires meant { (E : Trees) × IsMeant bank.old (store_of bank.old store.old) variable entries.now E }
    requires term { IsOfStore bank.old (store_of bank.old store.old) term }
    ensures answer { (E : Trees) → IsMeant bank.old (store_of bank.old store.old) variable entries.now E
        → Solves bank.new result store.new (solve (store_of bank.old store.old) variable E (read (store_of bank.old store.old) (tree_of bank.old term))) }
    ensures gives { OnOk result (GivesOn bank.old bank.new store.old store.new) }
    ensures refused { OnErr result (store.new ≡ store.old) }
    ensures no { IfOk result (λ b. b ≡ false → store.new ≡ store.old) }
    ensures grows { Grows bank.old bank.new }
{
    match body_for(bank, store, variable, entries, term) {
        Ok(body) => match body {
            Some(body) => give(bank, store, variable, body),
            None => Ok(false),
        },
        Err(fault) => Err(fault),
    }
}

/// Solves a variable at an instance of these entries by a term.
fn solve_at(
    bank: &mut Bank<'_>,
    store: &mut Store,
    variable: u32,
    entries: &[TermId],
    term: TermId,
) -> Result<bool, UnifyFault>
    requires store { HasStore bank.old store.old }
    requires kept { IsStore (store_of bank.old store.old) }
    requires at { IsOpenAt bank.old (store_of bank.old store.old) variable entries.now }
    requires term { IsOfStore bank.old (store_of bank.old store.old) term }
    ensures answer { Solves bank.new result store.new
        (solved (store_of bank.old store.old) (read (store_of bank.old store.old) (Tree.Evar variable (trees_by (tree_of bank.old) entries.now)))
        (read (store_of bank.old store.old) (tree_of bank.old term))) }
    ensures gives { OnOk result (GivesOn bank.old bank.new store.old store.new) }
    ensures refused { OnErr result (store.new ≡ store.old) }
    ensures no { IfOk result (λ b. b ≡ false → store.new ≡ store.old) }
    ensures grows { Grows bank.old bank.new }
{
    let exposed = exposed_each(bank, store, entries)?;
    solve_exposed(bank, store, variable, exposed.as_slice(), term)
}

/// Solves a variable by a term, both as they read: whether the variable got a value. There is none where the term holds the variable,
/// or a hypothesis that is no entry of the variable's instance. It is refused exactly where the value passes a limit; after a
/// refusal, and where there is none, the store is as before.
pub(crate) fn solve(
    bank: &mut Bank<'_>,
    store: &mut Store,
    variable: TermId,
    term: TermId,
) -> Result<bool, UnifyFault>
    requires store { HasStore bank.old store.old }
    requires kept { IsStore (store_of bank.old store.old) }
    requires variable { IsOfStore bank.old (store_of bank.old store.old) variable }
    requires open { HasOpenHead (store_of bank.old store.old).values (tree_of bank.old variable) }
    requires is { is_variable (tree_of bank.old variable) ≡ true }
    requires term { IsOfStore bank.old (store_of bank.old store.old) term }
    ensures answer { Solves bank.new result store.new
        (solved (store_of bank.old store.old) (read (store_of bank.old store.old) (tree_of bank.old variable))
        (read (store_of bank.old store.old) (tree_of bank.old term))) }
    ensures gives { OnOk result (GivesOn bank.old bank.new store.old store.new) }
    ensures refused { OnErr result (store.new ≡ store.old) }
    ensures no { IfOk result (λ b. b ≡ false → store.new ≡ store.old) }
    ensures grows { Grows bank.old bank.new }
{
    let Node::Evar(number, entries) = bank.node(variable) else {
        unreachable!();
    };
    let number = *number;
    let entries = copied(bank.allocator(), entries.terms())?;
    solve_at(bank, store, number, entries.as_slice(), term)
}

/// Whether a term is a variable at an instance.
fn is_unknown(bank: &Bank<'_>, term: TermId) -> bool
    requires { HasTerm bank.now term }
    ensures { result ≡ is_variable (tree_of bank.now term) }
{
    match bank.node(term) {
        Node::Evar(_, _) => true,
        _ => false,
    }
}

/// Solves the right side by the left one, if it is a variable.
fn solve_right(
    bank: &mut Bank<'_>,
    store: &mut Store,
    left: TermId,
    right: TermId,
) -> Result<Option<bool>, UnifyFault>
    requires store { HasStore bank.old store.old }
    requires kept { IsStore (store_of bank.old store.old) }
    requires left { IsOfStore bank.old (store_of bank.old store.old) left }
    requires right { IsOfStore bank.old (store_of bank.old store.old) right }
    requires right_open { HasOpenHead (store_of bank.old store.old).values (tree_of bank.old right) }
    ensures answer { SolvesOr bank.new result store.new
        (by_right (store_of bank.old store.old) (read (store_of bank.old store.old) (tree_of bank.old left))
        (read (store_of bank.old store.old) (tree_of bank.old right))) }
    ensures gives { OnOk result (GivesOn bank.old bank.new store.old store.new) }
    ensures refused { OnErr result (store.new ≡ store.old) }
    ensures no { IfOk result (λ o. (o ≡ Some true → ⊥) → store.new ≡ store.old) }
    ensures grows { Grows bank.old bank.new }
{
    if !is_unknown(bank, right) {
        return Ok(None);
    }
    match solve(bank, store, right, left) {
        Ok(answer) => Ok(Some(answer)),
        Err(fault) => Err(fault),
    }
}

/// What comes after a No of the left side: the right side is solved by the left one, if it is a variable; else the No stands.
fn after_no(
    bank: &mut Bank<'_>,
    store: &mut Store,
    left: TermId,
    right: TermId,
) -> Result<bool, UnifyFault>
    requires store { HasStore bank.old store.old }
    requires kept { IsStore (store_of bank.old store.old) }
    requires left { IsOfStore bank.old (store_of bank.old store.old) left }
    requires right { IsOfStore bank.old (store_of bank.old store.old) right }
    requires right_open { HasOpenHead (store_of bank.old store.old).values (tree_of bank.old right) }
    ensures answer { (w : Unify Answer) → w ≡ gives None → Solves bank.new result store.new
        (or_else w (by_right (store_of bank.old store.old) (read (store_of bank.old store.old) (tree_of bank.old left))
        (read (store_of bank.old store.old) (tree_of bank.old right)))) }
    ensures gives { OnOk result (GivesOn bank.old bank.new store.old store.new) }
    ensures refused { OnErr result (store.new ≡ store.old) }
    ensures no { IfOk result (λ b. b ≡ false → store.new ≡ store.old) }
    ensures grows { Grows bank.old bank.new }
{
    match solve_right(bank, store, left, right) {
        Ok(answer) => match answer {
            Some(answer) => Ok(answer),
            None => Ok(false),
        },
        Err(fault) => Err(fault),
    }
}

/// Solves the left side, which is a variable, by the right one; where that says No, the right side by the left one, if it is one too.
fn left_first(
    bank: &mut Bank<'_>,
    store: &mut Store,
    left: TermId,
    right: TermId,
) -> Result<bool, UnifyFault>
    requires store { HasStore bank.old store.old }
    requires kept { IsStore (store_of bank.old store.old) }
    requires left { IsOfStore bank.old (store_of bank.old store.old) left }
    requires right { IsOfStore bank.old (store_of bank.old store.old) right }
    requires left_open { HasOpenHead (store_of bank.old store.old).values (tree_of bank.old left) }
    requires right_open { HasOpenHead (store_of bank.old store.old).values (tree_of bank.old right) }
    requires is { is_variable (tree_of bank.old left) ≡ true }
    ensures answer { Solves bank.new result store.new
        (or_else (solved (store_of bank.old store.old) (read (store_of bank.old store.old) (tree_of bank.old left))
        (read (store_of bank.old store.old) (tree_of bank.old right)))
        (by_right (store_of bank.old store.old) (read (store_of bank.old store.old) (tree_of bank.old left))
        (read (store_of bank.old store.old) (tree_of bank.old right)))) }
    ensures gives { OnOk result (GivesOn bank.old bank.new store.old store.new) }
    ensures refused { OnErr result (store.new ≡ store.old) }
    ensures no { IfOk result (λ b. b ≡ false → store.new ≡ store.old) }
    ensures grows { Grows bank.old bank.new }
{
    match solve(bank, store, left, right) {
        Ok(answer) => {
            if answer {
                Ok(true)
            } else {
                after_no(bank, store, left, right)
            }
        }
        Err(fault) => Err(fault),
    }
}

/// Solves the left side by the right one, if it is a variable; where that says No, and where it is none, the right side by the left
/// one, if that is a variable. There is no answer where neither is one. After a No, and after a refusal, the store is as before.
pub(crate) fn by_solving(
    bank: &mut Bank<'_>,
    store: &mut Store,
    left: TermId,
    right: TermId,
) -> Result<Option<bool>, UnifyFault>
    requires store { HasStore bank.old store.old }
    requires kept { IsStore (store_of bank.old store.old) }
    requires left { IsOfStore bank.old (store_of bank.old store.old) left }
    requires right { IsOfStore bank.old (store_of bank.old store.old) right }
    requires left_open { HasOpenHead (store_of bank.old store.old).values (tree_of bank.old left) }
    requires right_open { HasOpenHead (store_of bank.old store.old).values (tree_of bank.old right) }
    ensures answer { SolvesOr bank.new result store.new
        (by_solving (store_of bank.old store.old) (read (store_of bank.old store.old) (tree_of bank.old left))
        (read (store_of bank.old store.old) (tree_of bank.old right))) }
    ensures gives { OnOk result (GivesOn bank.old bank.new store.old store.new) }
    ensures refused { OnErr result (store.new ≡ store.old) }
    ensures no { IfOk result (λ o. (o ≡ Some true → ⊥) → store.new ≡ store.old) }
    ensures grows { Grows bank.old bank.new }
{
    if !is_unknown(bank, left) {
        return solve_right(bank, store, left, right);
    }
    match left_first(bank, store, left, right) {
        Ok(answer) => Ok(Some(answer)),
        Err(fault) => Err(fault),
    }
}
