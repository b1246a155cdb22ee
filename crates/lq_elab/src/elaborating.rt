//! Elaboration: from a term as it is written to a term and its type.

ghost use Rattle.std.specs.Prelude.{◌≡◌, ◌+◌, ◌-◌, ◌≤◌, ℕ, [], IfOk, OnOk, OnErr, length, option_map};
ghost use Rattle.std.specs.List.{AllByRecursion};
ghost use Rattle.lq_trees.specs.declared.Fit.{Fit};
ghost use Rattle.lq_trees.specs.Index.{Within};
ghost use Rattle.lq_trees.specs.Size.{fit};
ghost use Rattle.lq_terms.specs.Terms.{HasTerm, Grows, tree_of};
ghost use Rattle.lq_terms.specs.Contexts.{HasBody, HasContext, context_of};
ghost use Rattle.lq_env.specs.Environments.{IsEnv, env_of};
ghost use Rattle.lq_solving.specs.Claims.{ArePlainDeclarations};
ghost use Rattle.lq_solving.specs.Elaboration.{elaborate, elaborate_call, made_between, numbers};
ghost use Rattle.lq_solving.specs.Kept.{IsContext, IsOver, IsStore, OptionStands};
ghost use Rattle.lq_solving.specs.Stores.{names_in, read};
ghost use Rattle.lq_solving.proofs.ElabSettled.{at};
ghost use Rattle.lq_evars.specs.Places.{Places, store_of, HasStore};
ghost use Rattle.lq_elab.specs.Answers.{Comes, found_of};
ghost use Rattle.lq_elab.specs.Calls.{written_tree, site_at, ValuesStand, Elaborates, IsElaborated};
ghost use Rattle.lq_elab.specs.Frames.{spot_of};
ghost use Rattle.lq_elab.specs.Making.{Restores};
ghost use Rattle.lq_elab.specs.Naming.{meaning};
ghost use Rattle.lq_elab.specs.Running.{Ends, limits};
ghost use Rattle.lq_elab.specs.Scopes.{IsScope};
ghost use Rattle.lq_elab.specs.States.{IsSite, HasGiven, givens_of, site_of};
ghost use Rattle.lq_elab.specs.Views.{asked_tree};

use crate::agreeing::measured;
use crate::finding::Found;
use crate::frames::Frames;
use crate::machine::run;
use crate::scope::Scope;
use crate::sites::{Given, Site};
use crate::starting::outermost;
use crate::views::{Asked, Row};
use lq_ast::{Binders, Surface};
use lq_env::Env;
use lq_evars::Store;
use lq_terms::{Bank, Context, NameId, NoMemory, Steps, TermId, Work};
use lq_typing::ElabFault;
use std::alloc::Global;
use std::sync::ledger::Ledger;

/// A term as it is written: whole, or as a row of binders over a body, as declarations have it.
#[derive(Clone, Copy)]
pub enum Written<'t> {
    /// A term.
    Term(&'t Surface),
    /// A product over what is bound.
    Forall(&'t [Binders], &'t Surface),
    /// A function of what is bound.
    Fun(&'t [Binders], &'t Surface),
}

/// What was elaborated.
#[derive(Drop)]
pub struct Elaborated {
    /// The term.
    pub term: TermId,
    /// Its type.
    pub kind: TermId,
    /// The variables that were made, in order.
    pub made: Vec<u32>,
}

/// What is asked for first.
fn asked_of<'t>(term: Written<'t>) -> Asked<'t>
    ensures { asked_tree result ≡ written_tree term.entry }
{
    match term {
        Written::Term(term) => Asked::Term(term),
        Written::Forall(groups, body) => Asked::Row(Row {
            is_product: true,
            names: &[],
            kind: None,
            groups,
            body,
        }),
        Written::Fun(groups, body) => Asked::Row(Row {
            is_product: false,
            names: &[],
            kind: None,
            groups,
            body,
        }),
    }
}

/// The same context.
fn copied(alloc: Global, context: &Context) -> Result<Context, NoMemory>
    ensures { IfOk result (λ c. c ≡ context.now) }
{
    match Vec::from_slice(alloc, context.hypotheses()) {
        Ok(hypotheses) => Ok(Context::from_hypotheses(hypotheses)),
        Err(_) => Err(NoMemory),
    }
}

/// The numbers from one on up to another.
fn numbered(alloc: Global, first: u32, end: u32) -> Result<Vec<u32>, NoMemory>
    requires { first ≤ end }
    ensures { IfOk result (λ v. v.items ≡ numbers first (end - first)) }
{
    let mut made = Vec::new(alloc);
    for number in first..end {
        made.push(number)?;
    }
    Ok(made)
}

/// The store as it was when so many values were given.
fn restore(store: &mut Store, saved: Option<Store>, given: usize)
    ensures { (before : Places) → Restores before saved store.old → given ≡ length before.values → store.new ≡ before }
{
    match saved {
        Some(kept) => {
            *store = kept;
            store.take_back(given);
        }
        None => store.take_back(given),
    }
}

/// A term is elaborated in a context of its own, with a scope and a stack that are there.
fn begun<L: Ledger>(
    work: &mut Work<'_, '_>,
    site: &Site<'_>,
    store: &mut Store,
    saved: &mut Option<Store>,
    context: &mut Context,
    scope: &mut Scope,
    term: Asked<'_>,
    wanted: Option<TermId>,
    steps: &mut Steps<L>,
) -> Result<Found, ElabFault>
    requires site { IsSite work.old.bank.now (store_of work.old.bank.now store.old) site.now }
    requires store { HasStore work.old.bank.now store.old }
    requires kept { IsStore (store_of work.old.bank.now store.old) }
    requires context { context.old ≡ site.now.outer.now }
    requires scope { IsScope work.old.bank.now (meaning (site_of work.old.bank.now site.now) (spot_of work.old.bank.now site.now.outer.now [])) scope.old }
    requires wanted { HasBody work.old.bank.now wanted }
    requires wanted_stands { OptionStands (store_of work.old.bank.now store.old) (names_in (context_of work.old.bank.now site.now.outer.now))
        (option_map (tree_of work.old.bank.now) wanted) }
    ensures ends { Ends work.new.bank.now site.now (store_of work.old.bank.now store.old) store.new result
        (λ n. elaborate (at n (site_of work.old.bank.now site.now)) [] (context_of work.old.bank.now site.now.outer.now)
        (store_of work.old.bank.now store.old) (asked_tree term.entry) (option_map (tree_of work.old.bank.now) wanted))
        work.old.ticks.now.left work.new.ticks.now.left }
    ensures since { (before : Places) → Restores before saved.old store.old → Restores before saved.new store.new }
    ensures same_bank { work.new.bank.ghost_name ≡ work.old.bank.ghost_name }
    ensures same_ticks { work.new.ticks.ghost_name ≡ work.old.ticks.ghost_name }
    ensures grows { Grows work.old.bank.now work.new.bank.now }
    ensures budget { work.new.ticks.now.left + work.new.ticks.now.spent ≡ work.old.ticks.now.left + work.old.ticks.now.spent }
    ensures counted { steps.new + work.old.ticks.now.spent ≡ steps.old + work.new.ticks.now.spent }
{
    let mut frames = Frames::new(work.bank.allocator());
    run(
        work,
        site,
        store,
        saved,
        context,
        scope,
        &mut frames,
        term,
        wanted,
        steps,
    )
}

/// What was elaborated keeps within the limits as it reads.
fn kept_within(bank: &mut Bank<'_>, store: &Store, found: Found) -> Result<(), ElabFault>
    requires store { HasStore bank.old store.now }
    requires kept { IsStore (store_of bank.old store.now) }
    requires term { HasTerm bank.old found.term }
    requires term_over { IsOver (store_of bank.old store.now).variables (tree_of bank.old found.term) }
    requires term_within { Within 0 (tree_of bank.old found.term) }
    requires kind { HasTerm bank.old found.kind }
    requires kind_over { IsOver (store_of bank.old store.now).variables (tree_of bank.old found.kind) }
    requires kind_within { Within 0 (tree_of bank.old found.kind) }
    ensures answer { (left : ℕ) → Comes bank.new (λ _. found_of bank.old store.now found) result (λ n. limits (found_of bank.old store.now found)) left left }
    ensures term_fits { OnOk result (fit (read (store_of bank.old store.now) (tree_of bank.old found.term)) ≡ Fit.Fits) }
    ensures kind_fits { OnOk result (fit (read (store_of bank.old store.now) (tree_of bank.old found.kind)) ≡ Fit.Fits) }
    ensures grows { Grows bank.old bank.new }
{
    match measured(bank, store, found.term) {
        Ok(_) => match measured(bank, store, found.kind) {
            Ok(_) => Ok(()),
            Err(fault) => Err(fault),
        },
        Err(fault) => Err(fault),
    }
}

/// A term is elaborated, and keeps within the limits with its type.
fn limited<L: Ledger>(
    work: &mut Work<'_, '_>,
    site: &Site<'_>,
    store: &mut Store,
    saved: &mut Option<Store>,
    context: &mut Context,
    scope: &mut Scope,
    term: Asked<'_>,
    wanted: Option<TermId>,
    steps: &mut Steps<L>,
) -> Result<Found, ElabFault>
    requires site { IsSite work.old.bank.now (store_of work.old.bank.now store.old) site.now }
    requires store { HasStore work.old.bank.now store.old }
    requires kept { IsStore (store_of work.old.bank.now store.old) }
    requires context { context.old ≡ site.now.outer.now }
    requires scope { IsScope work.old.bank.now (meaning (site_of work.old.bank.now site.now) (spot_of work.old.bank.now site.now.outer.now [])) scope.old }
    requires wanted { HasBody work.old.bank.now wanted }
    requires wanted_stands { OptionStands (store_of work.old.bank.now store.old) (names_in (context_of work.old.bank.now site.now.outer.now))
        (option_map (tree_of work.old.bank.now) wanted) }
    ensures ends { Ends work.new.bank.now site.now (store_of work.old.bank.now store.old) store.new result
        (λ n. elaborate_call (at n (site_of work.old.bank.now site.now))
        (store_of work.old.bank.now store.old) (asked_tree term.entry) (option_map (tree_of work.old.bank.now) wanted))
        work.old.ticks.now.left work.new.ticks.now.left }
    ensures term_fits { IfOk result (λ x. fit (read (store_of work.new.bank.now store.new) (tree_of work.new.bank.now x.term)) ≡ Fit.Fits) }
    ensures kind_fits { IfOk result (λ x. fit (read (store_of work.new.bank.now store.new) (tree_of work.new.bank.now x.kind)) ≡ Fit.Fits) }
    ensures since { (before : Places) → Restores before saved.old store.old → Restores before saved.new store.new }
    ensures same_bank { work.new.bank.ghost_name ≡ work.old.bank.ghost_name }
    ensures same_ticks { work.new.ticks.ghost_name ≡ work.old.ticks.ghost_name }
    ensures grows { Grows work.old.bank.now work.new.bank.now }
    ensures budget { work.new.ticks.now.left + work.new.ticks.now.spent ≡ work.old.ticks.now.left + work.old.ticks.now.spent }
    ensures counted { steps.new + work.old.ticks.now.spent ≡ steps.old + work.new.ticks.now.spent }
{
    match begun(
        work, site, store, saved, context, scope, term, wanted, steps,
    ) {
        Ok(found) => match kept_within(work.bank, store, found) {
            Ok(()) => Ok(found),
            Err(fault) => Err(fault),
        },
        Err(fault) => Err(fault),
    }
}

/// The same with a context and a scope of its own.
fn called<L: Ledger>(
    work: &mut Work<'_, '_>,
    site: &Site<'_>,
    store: &mut Store,
    saved: &mut Option<Store>,
    term: Asked<'_>,
    wanted: Option<TermId>,
    steps: &mut Steps<L>,
) -> Result<Found, ElabFault>
    requires site { IsSite work.old.bank.now (store_of work.old.bank.now store.old) site.now }
    requires store { HasStore work.old.bank.now store.old }
    requires kept { IsStore (store_of work.old.bank.now store.old) }
    requires wanted { HasBody work.old.bank.now wanted }
    requires wanted_stands { OptionStands (store_of work.old.bank.now store.old) (names_in (context_of work.old.bank.now site.now.outer.now))
        (option_map (tree_of work.old.bank.now) wanted) }
    ensures ends { Ends work.new.bank.now site.now (store_of work.old.bank.now store.old) store.new result
        (λ n. elaborate_call (at n (site_of work.old.bank.now site.now))
        (store_of work.old.bank.now store.old) (asked_tree term.entry) (option_map (tree_of work.old.bank.now) wanted))
        work.old.ticks.now.left work.new.ticks.now.left }
    ensures term_fits { IfOk result (λ x. fit (read (store_of work.new.bank.now store.new) (tree_of work.new.bank.now x.term)) ≡ Fit.Fits) }
    ensures kind_fits { IfOk result (λ x. fit (read (store_of work.new.bank.now store.new) (tree_of work.new.bank.now x.kind)) ≡ Fit.Fits) }
    ensures since { (before : Places) → Restores before saved.old store.old → Restores before saved.new store.new }
    ensures same_bank { work.new.bank.ghost_name ≡ work.old.bank.ghost_name }
    ensures same_ticks { work.new.ticks.ghost_name ≡ work.old.ticks.ghost_name }
    ensures grows { Grows work.old.bank.now work.new.bank.now }
    ensures budget { work.new.ticks.now.left + work.new.ticks.now.spent ≡ work.old.ticks.now.left + work.old.ticks.now.spent }
    ensures counted { steps.new + work.old.ticks.now.spent ≡ steps.old + work.new.ticks.now.spent }
{
    let mut context = match copied(work.bank.allocator(), site.outer) {
        Ok(context) => context,
        Err(_) => return Err(ElabFault::NoMemory),
    };
    let mut scope = match outermost(work.bank, site) {
        Ok(scope) => scope,
        Err(_) => return Err(ElabFault::NoMemory),
    };
    limited(
        work,
        site,
        store,
        saved,
        &mut context,
        &mut scope,
        term,
        wanted,
        steps,
    )
}

/// The same with the numbers of the variables that were made.
fn with_numbers<L: Ledger>(
    work: &mut Work<'_, '_>,
    site: &Site<'_>,
    store: &mut Store,
    saved: &mut Option<Store>,
    term: Asked<'_>,
    wanted: Option<TermId>,
    steps: &mut Steps<L>,
) -> Result<Elaborated, ElabFault>
    requires site { IsSite work.old.bank.now (store_of work.old.bank.now store.old) site.now }
    requires store { HasStore work.old.bank.now store.old }
    requires kept { IsStore (store_of work.old.bank.now store.old) }
    requires wanted { HasBody work.old.bank.now wanted }
    requires wanted_stands { OptionStands (store_of work.old.bank.now store.old) (names_in (context_of work.old.bank.now site.now.outer.now))
        (option_map (tree_of work.old.bank.now) wanted) }
    ensures answer { Elaborates work.new.bank.now store.new result
        (λ n. elaborate_call (at n (site_of work.old.bank.now site.now))
        (store_of work.old.bank.now store.old) (asked_tree term.entry) (option_map (tree_of work.old.bank.now) wanted))
        work.old.ticks.now.left work.new.ticks.now.left }
    ensures stands { IfOk result (IsElaborated work.new.bank.now (store_of work.old.bank.now store.old) store.new
        (context_of work.old.bank.now site.now.outer.now)) }
    ensures made { IfOk result (λ e. e.made.items ≡ made_between (store_of work.old.bank.now store.old) (store_of work.new.bank.now store.new)) }
    ensures since { (before : Places) → Restores before saved.old store.old → Restores before saved.new store.new }
    ensures same_bank { work.new.bank.ghost_name ≡ work.old.bank.ghost_name }
    ensures same_ticks { work.new.ticks.ghost_name ≡ work.old.ticks.ghost_name }
    ensures grows { Grows work.old.bank.now work.new.bank.now }
    ensures budget { work.new.ticks.now.left + work.new.ticks.now.spent ≡ work.old.ticks.now.left + work.old.ticks.now.spent }
    ensures counted { steps.new + work.old.ticks.now.spent ≡ steps.old + work.new.ticks.now.spent }
{
    let first = store.count();
    match called(work, site, store, saved, term, wanted, steps) {
        Ok(found) => match numbered(work.bank.allocator(), first, store.count()) {
            Ok(made) => Ok(Elaborated {
                term: found.term,
                kind: found.kind,
                made,
            }),
            Err(_) => Err(ElabFault::NoMemory),
        },
        Err(fault) => Err(fault),
    }
}

/// A term as it is written, elaborated in a context with what Ltac names stand for, and with the type that is wanted of it if one is: a
/// term and its type that stand in the context, the store with the variables that were made and the values that were found, and the numbers
/// of those variables. It pays a tick for each node that is written, before its parts, and the ticks of the weak head forms, unifications
/// and inferences that the rules need. The term and the type are within the limits as they read. After a refusal the store is as before.
/// The rules are those of the Rocq reference manual ("Terms", "Typing rules"), with `_` and `?[n]` for new variables of the wanted type.
/// The refusals: `Unknown` for a name that is neither value, hypothesis nor declaration; `NotATerm` for an Ltac value that is neither term
/// nor name; `ElimForbidden` for an eliminator into a sort that its family does not allow; `NotASort` for a type that has no sort, with its
/// weak head form; `NoSortAbove` for the type of the last sort; `NotAProduct` for a function whose type is none, with its weak head form;
/// `CannotInfer` for `_`, `?[n]` or a binder whose type nothing tells, with its place; `NameInUse` for `?[n]` with a name that a variable has;
/// `Mismatch` for a found type that is not the wanted one, both as they read; `StepsOut` exactly where the budget has too few ticks, and then
/// none is left; `TooLarge` and `TooDeep` where a weak head form or a type that a rule needs, a value, or the answer passes the limits;
/// `Full` where there are 16,777,216 variables; `NoMemory`. The first in the order of work counts.
pub fn elaborate<L: Ledger>(
    work: &mut Work<'_, '_>,
    env: &Env,
    store: &mut Store,
    context: &Context,
    values: &[(NameId, Given)],
    term: Written<'_>,
    wanted: Option<TermId>,
    steps: &mut Steps<L>,
) -> Result<Elaborated, ElabFault>
    requires env { IsEnv work.old.bank.now env.now }
    requires plain { ArePlainDeclarations (env_of work.old.bank.now env.now) }
    requires store { HasStore work.old.bank.now store.old }
    requires kept { IsStore (store_of work.old.bank.now store.old) }
    requires context { HasContext work.old.bank.now context.now }
    requires hypotheses { IsContext (store_of work.old.bank.now store.old) (context_of work.old.bank.now context.now) }
    requires values { AllByRecursion (HasGiven work.old.bank.now) values.now }
    requires values_stand { ValuesStand (store_of work.old.bank.now store.old) (givens_of work.old.bank.now values.now) }
    requires wanted { HasBody work.old.bank.now wanted }
    requires wanted_stands { OptionStands (store_of work.old.bank.now store.old) (names_in (context_of work.old.bank.now context.now))
        (option_map (tree_of work.old.bank.now) wanted) }
    ensures answer { Elaborates work.new.bank.now store.new result
        (λ n. elaborate_call (site_at work.old.bank.now env.now context.now values.now n) (store_of work.old.bank.now store.old)
        (written_tree term.entry) (option_map (tree_of work.old.bank.now) wanted)) work.old.ticks.now.left work.new.ticks.now.left }
    ensures stands { IfOk result (IsElaborated work.new.bank.now (store_of work.old.bank.now store.old) store.new (context_of work.old.bank.now context.now)) }
    ensures made { IfOk result (λ e. e.made.items ≡ made_between (store_of work.old.bank.now store.old) (store_of work.new.bank.now store.new)) }
    ensures back { OnErr result (store.new ≡ store.old) }
    ensures same_bank { work.new.bank.ghost_name ≡ work.old.bank.ghost_name }
    ensures same_ticks { work.new.ticks.ghost_name ≡ work.old.ticks.ghost_name }
    ensures grows { Grows work.old.bank.now work.new.bank.now }
    ensures budget { work.new.ticks.now.left + work.new.ticks.now.spent ≡ work.old.ticks.now.left + work.old.ticks.now.spent }
    ensures counted { steps.new + work.old.ticks.now.spent ≡ steps.old + work.new.ticks.now.spent }
{
    let site = Site {
        env,
        outer: context,
        values,
    };
    let given = store.given();
    let mut saved = None;
    match with_numbers(
        work,
        &site,
        store,
        &mut saved,
        asked_of(term),
        wanted,
        steps,
    ) {
        Ok(elaborated) => Ok(elaborated),
        Err(fault) => {
            restore(store, saved, given);
            Err(fault)
        }
    }
}
