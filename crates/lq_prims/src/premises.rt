//! The premises of a term that is applied: those on which something depends, and those that become goals.

ghost use Rattle.std.specs.Prelude.{◌≡◌, ◌<◌, ◌++◌, ◌∷◌, [], map, length, slice_get, option_map, IfOk, OnOk};
ghost use Rattle.std.specs.List.{AllByRecursion};
ghost use Rattle.lq_calculus.specs.Contraction.{apply};
ghost use Rattle.lq_terms.specs.Contexts.{HasContext, context_of};
ghost use Rattle.lq_terms.specs.Terms.{Terms, HasName, HasTerm, IsName, IsTerm, text_of, tree_of, Grows};
ghost use Rattle.lq_solving.specs.Stores.{Store as TreeStore, count};
ghost use Rattle.lq_evars.specs.Places.{HasNameOr, HasStore, store_of};
ghost use Rattle.lq_tactics.specs.Applying.{dependent_in, determined, is_needed, name_of_variable, premise_name};
ghost use Rattle.lq_tactics.specs.Rows.{goal_term};
ghost use Rattle.lq_prims.specs.Applied.{binder_at, goals_work, needed_ones, or_blank};
ghost use Rattle.lq_prims.specs.Opening.{HasOpening, opening_of};
ghost use Rattle.lq_prims.specs.Working.{Tells};

use crate::building::Built;
use crate::depending::any_depends;
use crate::faults::PrimFault;
use crate::holding::reads_with;
use crate::listing::open_without;
use crate::making::made_open;
use crate::opening::Opening;
use crate::standing::goal_term;
use lq_evars::Store;
use lq_terms::{Bank, Context, Hypothesis, NameId, NoMemory, Node, TermId};

/// Whether a premise, or the type that is left, depends on a variable.
fn is_needed(
    bank: &Bank<'_>,
    context: &Context,
    opening: &Opening,
    variable: u32,
) -> Result<bool, NoMemory>
    requires { HasOpening bank.now context.now opening.now }
    ensures { IfOk result (λ b. b ≡ is_needed (store_of bank.now opening.now.store) (opening_of bank.now opening.now) variable) }
{
    let store = &opening.store;
    if any_depends(bank, store, variable, opening.premises.as_slice())? {
        return Ok(true);
    }
    reads_with(bank, store, variable, context.hypotheses(), opening.rest)
}

/// One variable more behind others.
fn add(variables: &mut Vec<u32>, variable: u32) -> Result<(), NoMemory>
    ensures { OnOk result (variables.new.items ≡ variables.old.items ++ variable ∷ []) }
{
    variables.push(variable)?;
    Ok(())
}

/// Those of the variables on which a premise or the type that is left depends, in order.
fn dependent_in(
    bank: &Bank<'_>,
    context: &Context,
    opening: &Opening,
    variables: &[u32],
) -> Result<Vec<u32>, NoMemory>
    requires { HasOpening bank.now context.now opening.now }
    ensures { IfOk result (λ v. v.items ≡ dependent_in (store_of bank.now opening.now.store) (opening_of bank.now opening.now) variables.now) }
{
    let mut found = Vec::new(bank.allocator());
    for variable in variables {
        if is_needed(bank, context, opening, *variable)? {
            add(&mut found, *variable)?;
        }
    }
    Ok(found)
}

/// Those of the variables that were made since there were so many.
fn needed_ones(
    bank: &Bank<'_>,
    context: &Context,
    opening: &Opening,
    before: u32,
) -> Result<Vec<u32>, NoMemory>
    requires opening { HasOpening bank.now context.now opening.now }
    ensures is { IfOk result (λ v. (s : TreeStore) → count s ≡ before → v.items ≡ needed_ones s (opening_of bank.now opening.now)) }
    ensures inside { IfOk result (λ v. AllByRecursion (λ k. k < length opening.now.store.variables) v.items) }
{
    let made = made_open(bank.allocator(), &opening.store, before)?;
    dependent_in(bank, context, opening, made.as_slice())
}

/// The name of the binder of a premise, if the variable is one of the premises.
fn binder_at(premises: &[u32], names: &[NameId], variable: u32) -> Option<NameId>
    ensures is { (bank : Terms) → option_map (text_of bank) result ≡ binder_at premises.now (map (text_of bank) names.now) variable }
    ensures has { (bank : Terms) → AllByRecursion (HasName bank) names.now → HasNameOr bank result }
{
    let mut place: usize = 0;
    'premises: while place < premises.len() && place < names.len() {
        if premises[place] == variable {
            return Some(names[place]);
        }
        place += 1;
    }
    None
}

/// A binder's name, `_` where it has none.
fn or_blank(bank: &mut Bank<'_>, binder: NameId) -> Result<NameId, NoMemory>
    requires { HasName bank.old binder }
    ensures is { IfOk result (λ x. IsName bank.new x (or_blank (text_of bank.old binder))) }
    ensures grows { Grows bank.old bank.new }
{
    if bank.text(binder).is_empty() {
        bank.name("_")
    } else {
        Ok(binder)
    }
}

/// The name of a variable that another row made, `_` where it has none.
fn name_of_variable(bank: &mut Bank<'_>, store: &Store, variable: u32) -> Result<NameId, NoMemory>
    requires store { HasStore bank.old store.now }
    requires variable { variable < length store.now.variables }
    ensures is { IfOk result (λ x. IsName bank.new x (name_of_variable (slice_get (store_of bank.old store.now).variables variable))) }
    ensures grows { Grows bank.old bank.new }
{
    match store.name(variable) {
        Some(name) => Ok(name),
        None => bank.name("_"),
    }
}

/// The binder's name of a premise, or else the variable's own name.
fn premise_name(
    bank: &mut Bank<'_>,
    context: &Context,
    opening: &Opening,
    variable: u32,
) -> Result<NameId, NoMemory>
    requires opening { HasOpening bank.old context.now opening.now }
    requires variable { variable < length opening.now.store.variables }
    ensures is { IfOk result (λ x. IsName bank.new x (premise_name (store_of bank.old opening.now.store) opening.now.premises.items
        (map (text_of bank.old) opening.now.names.items) variable)) }
    ensures grows { Grows bank.old bank.new }
{
    match binder_at(
        opening.premises.as_slice(),
        opening.names.as_slice(),
        variable,
    ) {
        Some(binder) => or_blank(bank, binder),
        None => name_of_variable(bank, &opening.store, variable),
    }
}

/// Refuses as `NotDetermined`, where it is asked for, if there is one of the variables: with the first one's name.
fn determined(
    bank: &mut Bank<'_>,
    context: &Context,
    opening: &Opening,
    strict: bool,
    variables: &[u32],
) -> Result<(), PrimFault>
    requires opening { HasOpening bank.old context.now opening.now }
    requires variables { AllByRecursion (λ k. k < length opening.now.store.variables) variables.now }
    ensures answer { Tells bank.new (λ u. u) result
        (determined strict (store_of bank.old opening.now.store) (opening_of bank.old opening.now) variables.now) }
    ensures grows { Grows bank.old bank.new }
{
    if !strict || variables.is_empty() {
        return Ok(());
    }
    match premise_name(bank, context, opening, variables[0]) {
        Ok(name) => Err(PrimFault::NotDetermined(name)),
        Err(_) => Err(PrimFault::NoMemory),
    }
}

/// The new goals: the premises without a value, but for the made variables on which something depends.
fn goals_of(
    bank: &mut Bank<'_>,
    context: &Context,
    opening: &Opening,
    strict: bool,
    before: u32,
) -> Result<Vec<u32>, PrimFault>
    requires opening { HasOpening bank.old context.now opening.now }
    ensures answer { (s : TreeStore) → count s ≡ before
        → Tells bank.new (λ v. v.items) result (goals_work strict s (opening_of bank.old opening.now)) }
    ensures inside { IfOk result (λ v. AllByRecursion (λ k. k < length opening.now.store.variables) v.items) }
    ensures grows { Grows bank.old bank.new }
{
    let needed = match needed_ones(bank, context, opening, before) {
        Ok(needed) => needed,
        Err(_) => return Err(PrimFault::NoMemory),
    };
    match determined(bank, context, opening, strict, needed.as_slice()) {
        Ok(()) => match open_without(
            bank.allocator(),
            &opening.store,
            opening.premises.as_slice(),
            needed.as_slice(),
        ) {
            Ok(goals) => Ok(goals),
            Err(_) => Err(PrimFault::NoMemory),
        },
        Err(fault) => Err(fault),
    }
}

/// A term applied to goals at the hypotheses of their context.
fn applied(
    bank: &mut Bank<'_>,
    context: &[Hypothesis],
    term: TermId,
    goals: &[u32],
) -> Result<TermId, NoMemory>
    requires context { HasContext bank.old context.now }
    requires term { HasTerm bank.old term }
    ensures is { IfOk result (λ t. IsTerm bank.new t (apply (tree_of bank.old term) (map (λ k. goal_term k (context_of bank.old context.now)) goals.now))) }
    ensures grows { Grows bank.old bank.new }
{
    let mut body = term;
    for goal in goals {
        let argument = goal_term(bank, *goal, context)?;
        body = bank.make(Node::App(body, argument))?;
    }
    Ok(body)
}

/// What an opening leaves: the term applied to the premises, and the new goals.
pub(crate) fn left_of(
    bank: &mut Bank<'_>,
    context: &Context,
    opening: &Opening,
    term: TermId,
    strict: bool,
    before: u32,
) -> Result<Built, PrimFault>
    requires opening { HasOpening bank.old context.now opening.now }
    requires term { HasTerm bank.old term }
    ensures answer { (s : TreeStore) → count s ≡ before
        → Tells bank.new (λ b. b.goals.items) result (goals_work strict s (opening_of bank.old opening.now)) }
    ensures body { IfOk result (λ b. IsTerm bank.new b.body (apply (tree_of bank.old term)
        (map (λ k. goal_term k (context_of bank.old context.now)) opening.now.premises.items))) }
    ensures inside { IfOk result (λ b. AllByRecursion (λ k. k < length opening.now.store.variables) b.goals.items) }
    ensures grows { Grows bank.old bank.new }
{
    match goals_of(bank, context, opening, strict, before) {
        Ok(goals) => match applied(
            bank,
            context.hypotheses(),
            term,
            opening.premises.as_slice(),
        ) {
            Ok(body) => Ok(Built { body, goals }),
            Err(_) => Err(PrimFault::NoMemory),
        },
        Err(fault) => Err(fault),
    }
}
