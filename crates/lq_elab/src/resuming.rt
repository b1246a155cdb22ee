//! A part was elaborated: the term that waits for it goes on.

ghost use Rattle.std.specs.Prelude.{◌≡◌, ◌+◌, ◌*◌, ◌∷◌, ℕ, length, map, None, option_map, OnOk};
ghost use Rattle.lq_trees.specs.Tree.{Tree};
ghost use Rattle.lq_calculus.specs.Typing.{product_sort};
ghost use Rattle.lq_ast.specs.Plain.{plain};
ghost use Rattle.lq_terms.specs.Terms.{HasTerm, Grows, tree_of};
ghost use Rattle.lq_terms.specs.Contexts.{HasBody, HasContext, context_of};
ghost use Rattle.lq_solving.specs.Stores.{names_in};
ghost use Rattle.lq_solving.specs.Kept.{IsContext, IsStore, OptionStands, StandsIn};
ghost use Rattle.lq_solving.specs.ElabFaults.{Elab};
ghost use Rattle.lq_solving.specs.Elaboration.{Found as TreeFound, found, domain_agrees};
ghost use Rattle.lq_solving.proofs.ElabKept.{Grown};
ghost use Rattle.lq_solving.proofs.ElabSettled.{at};
ghost use Rattle.lq_evars.specs.Places.{store_of, HasStore, GivesMore};
ghost use Rattle.lq_elab.specs.declared.frames.Part.{Part as Waited};
ghost use Rattle.lq_elab.specs.declared.turns.Turn.{Turn as Next};
ghost use Rattle.lq_elab.specs.Answers.{Comes, found_of};
ghost use Rattle.lq_elab.specs.Continuing.{Continues};
ghost use Rattle.lq_elab.specs.Ending.{left_of, written_or};
ghost use Rattle.lq_elab.specs.Frames.{HasPair, ProductStands, pair_of, spot_of, waits, weights};
ghost use Rattle.lq_elab.specs.States.{IsSite, IsState, TurnStands, site_of, turn_work};
ghost use Rattle.lq_elab.specs.Waiting.{Leads, held_work, waiting, applied_function};

use crate::agreeing::unified;
use crate::asking::waited;
use crate::ending::{application_made, definition_made, function_made, product_made, returned};
use crate::entering::{Under, descended};
use crate::finding::Found;
use crate::forms::{product_of, sort_of};
use crate::frames::{Bound, Frame, Frames, Part};
use crate::scope::Scope;
use crate::settling::settled;
use crate::sites::Site;
use crate::turns::Turn;
use crate::views::Asked;
use lq_ast::Surface;
use lq_evars::Store;
use lq_terms::{Context, NameId, Steps, TermId, Work};
use lq_trees::Sort;
use lq_typing::ElabFault;
use std::sync::ledger::Ledger;

/// The sort of a product, by the sorts of its domain and its rest.
fn product_sort(domain: Sort, rest: Sort) -> Sort
    ensures { result ≡ product_sort domain rest }
{
    match (domain, rest) {
        (_, Sort::Base) => Sort::Base,
        (Sort::Base, Sort::Level(level)) => Sort::Level(level),
        (Sort::Level(first), Sort::Level(second)) => Sort::Level(first.max(second)),
    }
}

/// A product, whose domain was elaborated: it must have a sort, and the rest is asked for under the binder.
fn product_domain<'t, L: Ledger>(
    work: &mut Work<'_, '_>,
    site: &Site<'_>,
    store: &mut Store,
    context: &mut Context,
    scope: &mut Scope,
    frames: &mut Frames<'t>,
    binder: NameId,
    rest: Asked<'t>,
    wanted: Option<TermId>,
    found: Found,
    steps: &mut Steps<L>,
) -> Result<Turn<'t>, ElabFault>
    requires state { IsState work.old.bank.now site.now store.old context.old scope.old (record { part = Waited.ProductDomain binder rest; wanted = wanted } ∷ frames.old) }
    requires found { TurnStands work.old.bank.now store.old context.old (Next.Found found) }
    ensures goes { Continues work.new.bank.now site.now (store_of work.old.bank.now store.old) store.new context.new scope.new frames.new result
        (turn_work work.old.bank.now site.now store.old context.old (record { part = Waited.ProductDomain binder rest.entry; wanted = wanted } ∷ frames.old) (Next.Found found))
        work.old.ticks.now.left work.new.ticks.now.left
        (weights (record { part = Waited.ProductDomain binder rest.entry; wanted = wanted } ∷ frames.old) + 4 * work.old.ticks.now.left) }
    ensures more { GivesMore store.old store.new }
    ensures same_bank { work.new.bank.ghost_name ≡ work.old.bank.ghost_name }
    ensures same_ticks { work.new.ticks.ghost_name ≡ work.old.ticks.ghost_name }
    ensures grows { Grows work.old.bank.now work.new.bank.now }
    ensures budget { work.new.ticks.now.left + work.new.ticks.now.spent ≡ work.old.ticks.now.left + work.old.ticks.now.spent }
    ensures counted { steps.new + work.old.ticks.now.spent ≡ steps.old + work.new.ticks.now.spent }
{
    match sort_of(work, site.env, store, context, found.kind, steps) {
        Ok(sort) => {
            match descended(
                work.bank,
                site,
                store,
                context,
                scope,
                frames,
                Under::Product(sort),
                binder,
                found.term,
                wanted,
                rest,
                None,
            ) {
                Ok(turn) => Ok(turn),
                Err(_) => Err(ElabFault::NoMemory),
            }
        }
        Err(fault) => Err(fault),
    }
}

/// A product, whose rest was elaborated: it must have a sort, and the product is made.
fn product_rest<'t, L: Ledger>(
    work: &mut Work<'_, '_>,
    site: &Site<'_>,
    store: &mut Store,
    context: &mut Context,
    scope: &mut Scope,
    frames: &mut Frames<'t>,
    bound: Bound,
    sort: Sort,
    wanted: Option<TermId>,
    found: Found,
    steps: &mut Steps<L>,
) -> Result<Turn<'t>, ElabFault>
    requires state { IsState work.old.bank.now site.now store.old context.old scope.old (record { part = Waited.ProductRest bound sort; wanted = wanted } ∷ frames.old) }
    requires found { TurnStands work.old.bank.now store.old context.old (Next.Found found) }
    ensures goes { Continues work.new.bank.now site.now (store_of work.old.bank.now store.old) store.new context.new scope.new frames.new result
        (turn_work work.old.bank.now site.now store.old context.old (record { part = Waited.ProductRest bound sort; wanted = wanted } ∷ frames.old) (Next.Found found))
        work.old.ticks.now.left work.new.ticks.now.left
        (weights (record { part = Waited.ProductRest bound sort; wanted = wanted } ∷ frames.old) + 4 * work.old.ticks.now.left) }
    ensures more { GivesMore store.old store.new }
    ensures same_bank { work.new.bank.ghost_name ≡ work.old.bank.ghost_name }
    ensures same_ticks { work.new.ticks.ghost_name ≡ work.old.ticks.ghost_name }
    ensures grows { Grows work.old.bank.now work.new.bank.now }
    ensures budget { work.new.ticks.now.left + work.new.ticks.now.spent ≡ work.old.ticks.now.left + work.old.ticks.now.spent }
    ensures counted { steps.new + work.old.ticks.now.spent ≡ steps.old + work.new.ticks.now.spent }
{
    match sort_of(work, site.env, store, context, found.kind, steps) {
        Ok(rest) => match product_made(work.bank, bound, product_sort(sort, rest), found.term) {
            Ok(made) => returned(
                work,
                site,
                store,
                context,
                scope,
                frames,
                Under::Product(sort),
                bound,
                made,
                wanted,
                steps,
            ),
            Err(_) => Err(ElabFault::NoMemory),
        },
        Err(fault) => Err(fault),
    }
}

/// What waits with a function for its rest: nothing is wanted of the function where a product's parts are.
fn left_wanted(wanted: Option<TermId>, product: Option<(TermId, TermId)>) -> Option<TermId>
    ensures { result ≡ left_of wanted product }
{
    match product {
        Some(_) => None,
        None => wanted,
    }
}

/// The rest of the product that is wanted, if one is.
fn rest_of(product: Option<(TermId, TermId)>) -> Option<TermId>
    ensures { result ≡ option_map (λ p. p.1) product }
{
    match product {
        Some((_, rest)) => Some(rest),
        None => None,
    }
}

/// A written domain is unified with that of the product that is wanted, if one is.
fn domain_agreed<L: Ledger>(
    work: &mut Work<'_, '_>,
    site: &Site<'_>,
    store: &mut Store,
    context: &Context,
    domain: TermId,
    product: Option<(TermId, TermId)>,
    steps: &mut Steps<L>,
) -> Result<(), ElabFault>
    requires site { IsSite work.old.bank.now (store_of work.old.bank.now store.old) site.now }
    requires store { HasStore work.old.bank.now store.old }
    requires kept { IsStore (store_of work.old.bank.now store.old) }
    requires context { HasContext work.old.bank.now context.now }
    requires hypotheses { IsContext (store_of work.old.bank.now store.old) (context_of work.old.bank.now context.now) }
    requires domain { HasTerm work.old.bank.now domain }
    requires domain_stands { StandsIn (store_of work.old.bank.now store.old) (context_of work.old.bank.now context.now) (tree_of work.old.bank.now domain) }
    requires product { HasPair work.old.bank.now product }
    requires product_stands { ProductStands (store_of work.old.bank.now store.old) (names_in (context_of work.old.bank.now context.now))
        (option_map (pair_of work.old.bank.now) product) }
    ensures answer { (K : Tree) → Comes work.new.bank.now (λ _. store_of work.new.bank.now store.new) result
        (λ n. domain_agrees (at n (site_of work.old.bank.now site.now)) (context_of work.old.bank.now context.now)
        (found (store_of work.old.bank.now store.old) (tree_of work.old.bank.now domain) K) (option_map (pair_of work.old.bank.now) product))
        work.old.ticks.now.left work.new.ticks.now.left }
    ensures grown { OnOk result (Grown (store_of work.old.bank.now store.old) (store_of work.new.bank.now store.new)) }
    ensures has { OnOk result (HasStore work.new.bank.now store.new) }
    ensures more { GivesMore store.old store.new }
    ensures same_bank { work.new.bank.ghost_name ≡ work.old.bank.ghost_name }
    ensures same_ticks { work.new.ticks.ghost_name ≡ work.old.ticks.ghost_name }
    ensures grows { Grows work.old.bank.now work.new.bank.now }
    ensures budget { work.new.ticks.now.left + work.new.ticks.now.spent ≡ work.old.ticks.now.left + work.old.ticks.now.spent }
    ensures counted { steps.new + work.old.ticks.now.spent ≡ steps.old + work.new.ticks.now.spent }
{
    match product {
        Some((wanted, _)) => unified(work, site.env, store, context, domain, wanted, steps),
        None => Ok(()),
    }
}

/// A function, whose domain was elaborated: it must have a sort and agree with the wanted one, and the rest is asked for under the binder.
fn function_domain<'t, L: Ledger>(
    work: &mut Work<'_, '_>,
    site: &Site<'_>,
    store: &mut Store,
    context: &mut Context,
    scope: &mut Scope,
    frames: &mut Frames<'t>,
    binder: NameId,
    rest: Asked<'t>,
    product: Option<(TermId, TermId)>,
    wanted: Option<TermId>,
    found: Found,
    steps: &mut Steps<L>,
) -> Result<Turn<'t>, ElabFault>
    requires state { IsState work.old.bank.now site.now store.old context.old scope.old (record { part = Waited.FunctionDomain binder rest product; wanted = wanted } ∷ frames.old) }
    requires found { TurnStands work.old.bank.now store.old context.old (Next.Found found) }
    ensures goes { Continues work.new.bank.now site.now (store_of work.old.bank.now store.old) store.new context.new scope.new frames.new result
        (turn_work work.old.bank.now site.now store.old context.old (record { part = Waited.FunctionDomain binder rest.entry product; wanted = wanted } ∷ frames.old) (Next.Found found))
        work.old.ticks.now.left work.new.ticks.now.left
        (weights (record { part = Waited.FunctionDomain binder rest.entry product; wanted = wanted } ∷ frames.old) + 4 * work.old.ticks.now.left) }
    ensures more { GivesMore store.old store.new }
    ensures same_bank { work.new.bank.ghost_name ≡ work.old.bank.ghost_name }
    ensures same_ticks { work.new.ticks.ghost_name ≡ work.old.ticks.ghost_name }
    ensures grows { Grows work.old.bank.now work.new.bank.now }
    ensures budget { work.new.ticks.now.left + work.new.ticks.now.spent ≡ work.old.ticks.now.left + work.old.ticks.now.spent }
    ensures counted { steps.new + work.old.ticks.now.spent ≡ steps.old + work.new.ticks.now.spent }
{
    match sort_of(work, site.env, store, context, found.kind, steps) {
        Ok(_) => match domain_agreed(work, site, store, context, found.term, product, steps) {
            Ok(()) => match descended(
                work.bank,
                site,
                store,
                context,
                scope,
                frames,
                Under::Function,
                binder,
                found.term,
                left_wanted(wanted, product),
                rest,
                rest_of(product),
            ) {
                Ok(turn) => Ok(turn),
                Err(_) => Err(ElabFault::NoMemory),
            },
            Err(fault) => Err(fault),
        },
        Err(fault) => Err(fault),
    }
}

/// A function, whose rest was elaborated: the function is made.
fn function_rest<'t, L: Ledger>(
    work: &mut Work<'_, '_>,
    site: &Site<'_>,
    store: &mut Store,
    context: &mut Context,
    scope: &mut Scope,
    frames: &mut Frames<'t>,
    bound: Bound,
    wanted: Option<TermId>,
    found: Found,
    steps: &mut Steps<L>,
) -> Result<Turn<'t>, ElabFault>
    requires state { IsState work.old.bank.now site.now store.old context.old scope.old (record { part = Waited.FunctionRest bound; wanted = wanted } ∷ frames.old) }
    requires found { TurnStands work.old.bank.now store.old context.old (Next.Found found) }
    ensures goes { Continues work.new.bank.now site.now (store_of work.old.bank.now store.old) store.new context.new scope.new frames.new result
        (turn_work work.old.bank.now site.now store.old context.old (record { part = Waited.FunctionRest bound; wanted = wanted } ∷ frames.old) (Next.Found found))
        work.old.ticks.now.left work.new.ticks.now.left
        (weights (record { part = Waited.FunctionRest bound; wanted = wanted } ∷ frames.old) + 4 * work.old.ticks.now.left) }
    ensures more { GivesMore store.old store.new }
    ensures same_bank { work.new.bank.ghost_name ≡ work.old.bank.ghost_name }
    ensures same_ticks { work.new.ticks.ghost_name ≡ work.old.ticks.ghost_name }
    ensures grows { Grows work.old.bank.now work.new.bank.now }
    ensures budget { work.new.ticks.now.left + work.new.ticks.now.spent ≡ work.old.ticks.now.left + work.old.ticks.now.spent }
    ensures counted { steps.new + work.old.ticks.now.spent ≡ steps.old + work.new.ticks.now.spent }
{
    match function_made(work.bank, bound, found) {
        Ok(made) => returned(
            work,
            site,
            store,
            context,
            scope,
            frames,
            Under::Function,
            bound,
            made,
            wanted,
            steps,
        ),
        Err(_) => Err(ElabFault::NoMemory),
    }
}

/// A local definition, whose type was elaborated: it must have a sort, and the value is asked for with it.
fn definition_typed<'t, L: Ledger>(
    work: &mut Work<'_, '_>,
    site: &Site<'_>,
    store: &mut Store,
    context: &mut Context,
    scope: &mut Scope,
    frames: &mut Frames<'t>,
    binder: NameId,
    value: &'t Surface,
    rest: &'t Surface,
    wanted: Option<TermId>,
    found: Found,
    steps: &mut Steps<L>,
) -> Result<Turn<'t>, ElabFault>
    requires state { IsState work.old.bank.now site.now store.old context.old scope.old (record { part = Waited.DefinitionKind binder value rest; wanted = wanted } ∷ frames.old) }
    requires found { TurnStands work.old.bank.now store.old context.old (Next.Found found) }
    ensures goes { Continues work.new.bank.now site.now (store_of work.old.bank.now store.old) store.new context.new scope.new frames.new result
        (turn_work work.old.bank.now site.now store.old context.old (record { part = Waited.DefinitionKind binder value.entry rest.entry; wanted = wanted } ∷ frames.old) (Next.Found found))
        work.old.ticks.now.left work.new.ticks.now.left
        (weights (record { part = Waited.DefinitionKind binder value.entry rest.entry; wanted = wanted } ∷ frames.old) + 4 * work.old.ticks.now.left) }
    ensures more { GivesMore store.old store.new }
    ensures same_bank { work.new.bank.ghost_name ≡ work.old.bank.ghost_name }
    ensures same_ticks { work.new.ticks.ghost_name ≡ work.old.ticks.ghost_name }
    ensures grows { Grows work.old.bank.now work.new.bank.now }
    ensures budget { work.new.ticks.now.left + work.new.ticks.now.spent ≡ work.old.ticks.now.left + work.old.ticks.now.spent }
    ensures counted { steps.new + work.old.ticks.now.spent ≡ steps.old + work.new.ticks.now.spent }
{
    match sort_of(work, site.env, store, context, found.kind, steps) {
        Ok(_) => {
            match waited(
                work.bank,
                site,
                store,
                context,
                scope,
                frames,
                Part::DefinitionValue(binder, Some(found.term), rest),
                wanted,
                Asked::Term(value),
                Some(found.term),
            ) {
                Ok(turn) => Ok(turn),
                Err(_) => Err(ElabFault::NoMemory),
            }
        }
        Err(fault) => Err(fault),
    }
}

/// The type that is written, else the one that was found.
fn kind_or(kind: Option<TermId>, found: Found) -> TermId
    ensures { result ≡ written_or kind found.kind }
{
    match kind {
        Some(kind) => kind,
        None => found.kind,
    }
}

/// A local definition, whose value was elaborated: the rest is asked for under the binder.
fn definition_value<'t, L: Ledger>(
    work: &mut Work<'_, '_>,
    site: &Site<'_>,
    store: &mut Store,
    context: &mut Context,
    scope: &mut Scope,
    frames: &mut Frames<'t>,
    binder: NameId,
    kind: Option<TermId>,
    rest: &'t Surface,
    wanted: Option<TermId>,
    found: Found,
    steps: &mut Steps<L>,
) -> Result<Turn<'t>, ElabFault>
    requires state { IsState work.old.bank.now site.now store.old context.old scope.old (record { part = Waited.DefinitionValue binder kind rest; wanted = wanted } ∷ frames.old) }
    requires found { TurnStands work.old.bank.now store.old context.old (Next.Found found) }
    ensures goes { Continues work.new.bank.now site.now (store_of work.old.bank.now store.old) store.new context.new scope.new frames.new result
        (turn_work work.old.bank.now site.now store.old context.old (record { part = Waited.DefinitionValue binder kind rest.entry; wanted = wanted } ∷ frames.old) (Next.Found found))
        work.old.ticks.now.left work.new.ticks.now.left
        (weights (record { part = Waited.DefinitionValue binder kind rest.entry; wanted = wanted } ∷ frames.old) + 4 * work.old.ticks.now.left) }
    ensures more { GivesMore store.old store.new }
    ensures same_bank { work.new.bank.ghost_name ≡ work.old.bank.ghost_name }
    ensures same_ticks { work.new.ticks.ghost_name ≡ work.old.ticks.ghost_name }
    ensures grows { Grows work.old.bank.now work.new.bank.now }
    ensures budget { work.new.ticks.now.left + work.new.ticks.now.spent ≡ work.old.ticks.now.left + work.old.ticks.now.spent }
    ensures counted { steps.new + work.old.ticks.now.spent ≡ steps.old + work.new.ticks.now.spent }
{
    match descended(
        work.bank,
        site,
        store,
        context,
        scope,
        frames,
        Under::Definition(found.term),
        binder,
        kind_or(kind, found),
        wanted,
        Asked::Term(rest),
        None,
    ) {
        Ok(turn) => Ok(turn),
        Err(_) => Err(ElabFault::NoMemory),
    }
}

/// A local definition, whose rest was elaborated: the definition is made.
fn definition_rest<'t, L: Ledger>(
    work: &mut Work<'_, '_>,
    site: &Site<'_>,
    store: &mut Store,
    context: &mut Context,
    scope: &mut Scope,
    frames: &mut Frames<'t>,
    bound: Bound,
    value: TermId,
    wanted: Option<TermId>,
    found: Found,
    steps: &mut Steps<L>,
) -> Result<Turn<'t>, ElabFault>
    requires state { IsState work.old.bank.now site.now store.old context.old scope.old (record { part = Waited.DefinitionRest bound value; wanted = wanted } ∷ frames.old) }
    requires found { TurnStands work.old.bank.now store.old context.old (Next.Found found) }
    ensures goes { Continues work.new.bank.now site.now (store_of work.old.bank.now store.old) store.new context.new scope.new frames.new result
        (turn_work work.old.bank.now site.now store.old context.old (record { part = Waited.DefinitionRest bound value; wanted = wanted } ∷ frames.old) (Next.Found found))
        work.old.ticks.now.left work.new.ticks.now.left
        (weights (record { part = Waited.DefinitionRest bound value; wanted = wanted } ∷ frames.old) + 4 * work.old.ticks.now.left) }
    ensures more { GivesMore store.old store.new }
    ensures same_bank { work.new.bank.ghost_name ≡ work.old.bank.ghost_name }
    ensures same_ticks { work.new.ticks.ghost_name ≡ work.old.ticks.ghost_name }
    ensures grows { Grows work.old.bank.now work.new.bank.now }
    ensures budget { work.new.ticks.now.left + work.new.ticks.now.spent ≡ work.old.ticks.now.left + work.old.ticks.now.spent }
    ensures counted { steps.new + work.old.ticks.now.spent ≡ steps.old + work.new.ticks.now.spent }
{
    match definition_made(work.bank, bound, value, found) {
        Ok(made) => returned(
            work,
            site,
            store,
            context,
            scope,
            frames,
            Under::Definition(value),
            bound,
            made,
            wanted,
            steps,
        ),
        Err(_) => Err(ElabFault::NoMemory),
    }
}

/// An application, whose function was elaborated: its type must be a product, and the argument is asked for with the domain.
fn function_found<'t, L: Ledger>(
    work: &mut Work<'_, '_>,
    site: &Site<'_>,
    store: &mut Store,
    context: &mut Context,
    scope: &mut Scope,
    frames: &mut Frames<'t>,
    argument: &'t Surface,
    others: &'t [Surface],
    wanted: Option<TermId>,
    found: Found,
    steps: &mut Steps<L>,
) -> Result<Turn<'t>, ElabFault>
    requires state { IsState work.old.bank.now site.now store.old context.old scope.old (record { part = Waited.Function argument others; wanted = wanted } ∷ frames.old) }
    requires found { TurnStands work.old.bank.now store.old context.old (Next.Found found) }
    ensures goes { Continues work.new.bank.now site.now (store_of work.old.bank.now store.old) store.new context.new scope.new frames.new result
        (turn_work work.old.bank.now site.now store.old context.old (record { part = Waited.Function argument.entry others.entry; wanted = wanted } ∷ frames.old) (Next.Found found))
        work.old.ticks.now.left work.new.ticks.now.left
        (weights (record { part = Waited.Function argument.entry others.entry; wanted = wanted } ∷ frames.old) + 4 * work.old.ticks.now.left) }
    ensures more { GivesMore store.old store.new }
    ensures same_bank { work.new.bank.ghost_name ≡ work.old.bank.ghost_name }
    ensures same_ticks { work.new.ticks.ghost_name ≡ work.old.ticks.ghost_name }
    ensures grows { Grows work.old.bank.now work.new.bank.now }
    ensures budget { work.new.ticks.now.left + work.new.ticks.now.spent ≡ work.old.ticks.now.left + work.old.ticks.now.spent }
    ensures counted { steps.new + work.old.ticks.now.spent ≡ steps.old + work.new.ticks.now.spent }
{
    match product_of(work, site.env, store, context, found.kind, steps) {
        Ok((domain, rest)) => {
            match waited(
                work.bank,
                site,
                store,
                context,
                scope,
                frames,
                Part::Argument(found.term, rest, others),
                wanted,
                Asked::Term(argument),
                Some(domain),
            ) {
                Ok(turn) => Ok(turn),
                Err(_) => Err(ElabFault::NoMemory),
            }
        }
        Err(fault) => Err(fault),
    }
}

/// An application with arguments behind the one that was made: it waits for what comes of that as their function.
fn followed<'t, L: Ledger>(
    work: &mut Work<'_, '_>,
    site: &Site<'_>,
    store: &mut Store,
    context: &Context,
    scope: &Scope,
    frames: &mut Frames<'t>,
    argument: &'t Surface,
    others: &'t [Surface],
    made: Found,
    wanted: Option<TermId>,
    steps: &mut Steps<L>,
) -> Result<Turn<'t>, ElabFault>
    requires state { IsState work.old.bank.now site.now store.old context.now scope.now frames.old }
    requires made { TurnStands work.old.bank.now store.old context.now (Next.Found made) }
    requires wanted { HasBody work.old.bank.now wanted }
    requires wanted_stands { OptionStands (store_of work.old.bank.now store.old) (names_in (context_of work.old.bank.now context.now))
        (option_map (tree_of work.old.bank.now) wanted) }
    ensures goes { (f : ℕ → Elab TreeFound) (budget : ℕ) → Leads f (held_work (site_of work.old.bank.now site.now)
        (waiting (spot_of work.old.bank.now context.now frames.old) (option_map (tree_of work.old.bank.now) wanted)
        (applied_function (plain argument.now) (map plain others.now)) ∷ waits work.old.bank.now context.now frames.old)
        (context_of work.old.bank.now context.now) None (found_of work.old.bank.now store.old made)) budget work.old.ticks.now.left
        → Continues work.new.bank.now site.now (store_of work.old.bank.now store.old) store.new context.now scope.now frames.new result f budget
        work.new.ticks.now.left (3 + 3 * length others.now + weights frames.old + 1 + 4 * work.old.ticks.now.left) }
    ensures more { GivesMore store.old store.new }
    ensures same_bank { work.new.bank.ghost_name ≡ work.old.bank.ghost_name }
    ensures same_ticks { work.new.ticks.ghost_name ≡ work.old.ticks.ghost_name }
    ensures grows { Grows work.old.bank.now work.new.bank.now }
    ensures budget { work.new.ticks.now.left + work.new.ticks.now.spent ≡ work.old.ticks.now.left + work.old.ticks.now.spent }
    ensures counted { steps.new + work.old.ticks.now.spent ≡ steps.old + work.new.ticks.now.spent }
{
    match frames.push(Frame {
        part: Part::Function(argument, others),
        wanted,
    }) {
        Ok(()) => settled(work, site, store, context, scope, frames, made, None, steps),
        Err(_) => Err(ElabFault::NoMemory),
    }
}

/// An application, whose argument was elaborated: it is made, and held against what is wanted, or is the function of the arguments that follow.
fn argument_found<'t, L: Ledger>(
    work: &mut Work<'_, '_>,
    site: &Site<'_>,
    store: &mut Store,
    context: &mut Context,
    scope: &mut Scope,
    frames: &mut Frames<'t>,
    function: TermId,
    rest: TermId,
    others: &'t [Surface],
    wanted: Option<TermId>,
    found: Found,
    steps: &mut Steps<L>,
) -> Result<Turn<'t>, ElabFault>
    requires state { IsState work.old.bank.now site.now store.old context.old scope.old (record { part = Waited.Argument function rest others; wanted = wanted } ∷ frames.old) }
    requires found { TurnStands work.old.bank.now store.old context.old (Next.Found found) }
    ensures goes { Continues work.new.bank.now site.now (store_of work.old.bank.now store.old) store.new context.new scope.new frames.new result
        (turn_work work.old.bank.now site.now store.old context.old (record { part = Waited.Argument function rest others.entry; wanted = wanted } ∷ frames.old) (Next.Found found))
        work.old.ticks.now.left work.new.ticks.now.left
        (weights (record { part = Waited.Argument function rest others.entry; wanted = wanted } ∷ frames.old) + 4 * work.old.ticks.now.left) }
    ensures more { GivesMore store.old store.new }
    ensures same_bank { work.new.bank.ghost_name ≡ work.old.bank.ghost_name }
    ensures same_ticks { work.new.ticks.ghost_name ≡ work.old.ticks.ghost_name }
    ensures grows { Grows work.old.bank.now work.new.bank.now }
    ensures budget { work.new.ticks.now.left + work.new.ticks.now.spent ≡ work.old.ticks.now.left + work.old.ticks.now.spent }
    ensures counted { steps.new + work.old.ticks.now.spent ≡ steps.old + work.new.ticks.now.spent }
{
    match application_made(work.bank, context.hypotheses(), function, rest, found.term) {
        Ok(made) => match others.split_first() {
            Some((argument, later)) => followed(
                work, site, store, context, scope, frames, argument, later, made, wanted, steps,
            ),
            None => settled(
                work, site, store, context, scope, frames, made, wanted, steps,
            ),
        },
        Err(_) => Err(ElabFault::NoMemory),
    }
}

/// A cast, whose type was elaborated: it must have a sort, and the term is asked for with it.
fn cast_typed<'t, L: Ledger>(
    work: &mut Work<'_, '_>,
    site: &Site<'_>,
    store: &mut Store,
    context: &mut Context,
    scope: &mut Scope,
    frames: &mut Frames<'t>,
    term: &'t Surface,
    wanted: Option<TermId>,
    found: Found,
    steps: &mut Steps<L>,
) -> Result<Turn<'t>, ElabFault>
    requires state { IsState work.old.bank.now site.now store.old context.old scope.old (record { part = Waited.CastKind term; wanted = wanted } ∷ frames.old) }
    requires found { TurnStands work.old.bank.now store.old context.old (Next.Found found) }
    ensures goes { Continues work.new.bank.now site.now (store_of work.old.bank.now store.old) store.new context.new scope.new frames.new result
        (turn_work work.old.bank.now site.now store.old context.old (record { part = Waited.CastKind term.entry; wanted = wanted } ∷ frames.old) (Next.Found found))
        work.old.ticks.now.left work.new.ticks.now.left
        (weights (record { part = Waited.CastKind term.entry; wanted = wanted } ∷ frames.old) + 4 * work.old.ticks.now.left) }
    ensures more { GivesMore store.old store.new }
    ensures same_bank { work.new.bank.ghost_name ≡ work.old.bank.ghost_name }
    ensures same_ticks { work.new.ticks.ghost_name ≡ work.old.ticks.ghost_name }
    ensures grows { Grows work.old.bank.now work.new.bank.now }
    ensures budget { work.new.ticks.now.left + work.new.ticks.now.spent ≡ work.old.ticks.now.left + work.old.ticks.now.spent }
    ensures counted { steps.new + work.old.ticks.now.spent ≡ steps.old + work.new.ticks.now.spent }
{
    match sort_of(work, site.env, store, context, found.kind, steps) {
        Ok(_) => match waited(
            work.bank,
            site,
            store,
            context,
            scope,
            frames,
            Part::CastTerm(found.term),
            wanted,
            Asked::Term(term),
            Some(found.term),
        ) {
            Ok(turn) => Ok(turn),
            Err(_) => Err(ElabFault::NoMemory),
        },
        Err(fault) => Err(fault),
    }
}

/// A cast, whose term was elaborated: its type is the written one.
fn cast_found<'t, L: Ledger>(
    work: &mut Work<'_, '_>,
    site: &Site<'_>,
    store: &mut Store,
    context: &mut Context,
    scope: &mut Scope,
    frames: &mut Frames<'t>,
    kind: TermId,
    wanted: Option<TermId>,
    found: Found,
    steps: &mut Steps<L>,
) -> Result<Turn<'t>, ElabFault>
    requires state { IsState work.old.bank.now site.now store.old context.old scope.old (record { part = Waited.CastTerm kind; wanted = wanted } ∷ frames.old) }
    requires found { TurnStands work.old.bank.now store.old context.old (Next.Found found) }
    ensures goes { Continues work.new.bank.now site.now (store_of work.old.bank.now store.old) store.new context.new scope.new frames.new result
        (turn_work work.old.bank.now site.now store.old context.old (record { part = Waited.CastTerm kind; wanted = wanted } ∷ frames.old) (Next.Found found))
        work.old.ticks.now.left work.new.ticks.now.left
        (weights (record { part = Waited.CastTerm kind; wanted = wanted } ∷ frames.old) + 4 * work.old.ticks.now.left) }
    ensures more { GivesMore store.old store.new }
    ensures same_bank { work.new.bank.ghost_name ≡ work.old.bank.ghost_name }
    ensures same_ticks { work.new.ticks.ghost_name ≡ work.old.ticks.ghost_name }
    ensures grows { Grows work.old.bank.now work.new.bank.now }
    ensures budget { work.new.ticks.now.left + work.new.ticks.now.spent ≡ work.old.ticks.now.left + work.old.ticks.now.spent }
    ensures counted { steps.new + work.old.ticks.now.spent ≡ steps.old + work.new.ticks.now.spent }
{
    let cast = Found {
        term: found.term,
        kind,
    };
    settled(
        work, site, store, context, scope, frames, cast, wanted, steps,
    )
}

/// What waited nearest goes on with what was elaborated.
pub(crate) fn resumed<'t, L: Ledger>(
    work: &mut Work<'_, '_>,
    site: &Site<'_>,
    store: &mut Store,
    context: &mut Context,
    scope: &mut Scope,
    frames: &mut Frames<'t>,
    part: Part<'t>,
    wanted: Option<TermId>,
    found: Found,
    steps: &mut Steps<L>,
) -> Result<Turn<'t>, ElabFault>
    requires state { IsState work.old.bank.now site.now store.old context.old scope.old (record { part = part; wanted = wanted } ∷ frames.old) }
    requires found { TurnStands work.old.bank.now store.old context.old (Next.Found found) }
    ensures goes { Continues work.new.bank.now site.now (store_of work.old.bank.now store.old) store.new context.new scope.new frames.new result
        (turn_work work.old.bank.now site.now store.old context.old (record { part = part.entry; wanted = wanted } ∷ frames.old) (Next.Found found))
        work.old.ticks.now.left work.new.ticks.now.left
        (weights (record { part = part.entry; wanted = wanted } ∷ frames.old) + 4 * work.old.ticks.now.left) }
    ensures more { GivesMore store.old store.new }
    ensures same_bank { work.new.bank.ghost_name ≡ work.old.bank.ghost_name }
    ensures same_ticks { work.new.ticks.ghost_name ≡ work.old.ticks.ghost_name }
    ensures grows { Grows work.old.bank.now work.new.bank.now }
    ensures budget { work.new.ticks.now.left + work.new.ticks.now.spent ≡ work.old.ticks.now.left + work.old.ticks.now.spent }
    ensures counted { steps.new + work.old.ticks.now.spent ≡ steps.old + work.new.ticks.now.spent }
{
    match part {
        Part::ProductDomain(binder, rest) => product_domain(
            work, site, store, context, scope, frames, binder, rest, wanted, found, steps,
        ),
        Part::ProductRest(bound, sort) => product_rest(
            work, site, store, context, scope, frames, bound, sort, wanted, found, steps,
        ),
        Part::FunctionDomain(binder, rest, product) => function_domain(
            work, site, store, context, scope, frames, binder, rest, product, wanted, found, steps,
        ),
        Part::FunctionRest(bound) => function_rest(
            work, site, store, context, scope, frames, bound, wanted, found, steps,
        ),
        Part::DefinitionKind(binder, value, rest) => definition_typed(
            work, site, store, context, scope, frames, binder, value, rest, wanted, found, steps,
        ),
        Part::DefinitionValue(binder, kind, rest) => definition_value(
            work, site, store, context, scope, frames, binder, kind, rest, wanted, found, steps,
        ),
        Part::DefinitionRest(bound, value) => definition_rest(
            work, site, store, context, scope, frames, bound, value, wanted, found, steps,
        ),
        Part::Function(argument, others) => function_found(
            work, site, store, context, scope, frames, argument, others, wanted, found, steps,
        ),
        Part::Argument(function, rest, others) => argument_found(
            work, site, store, context, scope, frames, function, rest, others, wanted, found, steps,
        ),
        Part::CastKind(term) => cast_typed(
            work, site, store, context, scope, frames, term, wanted, found, steps,
        ),
        Part::CastTerm(kind) => cast_found(
            work, site, store, context, scope, frames, kind, wanted, found, steps,
        ),
    }
}
