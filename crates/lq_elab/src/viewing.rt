//! A term that is asked for: its tick, its outermost node, and what that asks for or is found to be.

ghost use Rattle.std.specs.Prelude.{◌≡◌, ◌<◌, ◌≤◌, ◌+◌, ◌*◌, ℕ, option_map, IfOk, OnOk};
ghost use Rattle.lq_terms.specs.Terms.{HasName, IsName, tree_of, text_of, Grows};
ghost use Rattle.lq_terms.specs.Contexts.{HasBody, context_of};
ghost use Rattle.lq_ast.specs.Plain.{name_of};
ghost use Rattle.lq_solving.specs.Stores.{names_in};
ghost use Rattle.lq_solving.specs.Kept.{OptionStands};
ghost use Rattle.lq_solving.specs.ElabFaults.{Elab};
ghost use Rattle.lq_solving.specs.Elaboration.{Found as TreeFound};
ghost use Rattle.lq_solving.proofs.ElabKept.{Grown};
ghost use Rattle.lq_evars.specs.Places.{Places, store_of};
ghost use Rattle.lq_elab.specs.declared.turns.Turn.{Turn as Next};
ghost use Rattle.lq_elab.specs.Making.{Restores};
ghost use Rattle.lq_elab.specs.Nodes.{node_name, node_work};
ghost use Rattle.lq_elab.specs.Waiting.{Leads};
ghost use Rattle.lq_elab.specs.Frames.{spot_of, waits, weights};
ghost use Rattle.lq_elab.specs.States.{IsState, TurnStands, Goes, site_of, turn_work, due};

use crate::blanks::{blank_asked, named_asked};
use crate::frames::{Frames, Part};
use crate::functions::binder_asked;
use crate::heads::{application_asked, begun, definition_asked};
use crate::leaves::{name_asked, sort_asked};
use crate::scope::Scope;
use crate::sites::Site;
use crate::turns::Turn;
use crate::views::{Asked, View, view_of};
use lq_ast::Name;
use lq_evars::Store;
use lq_terms::{Bank, Context, NameId, NoMemory, Steps, TermId, Work};
use lq_trees::Sort;
use lq_typing::ElabFault;
use std::sync::ledger::Ledger;

/// The text of a name, empty where there is none.
fn text_of<'t>(name: &'t Option<Name>) -> &'t str
    ensures { result.now ≡ name_of name.now }
{
    match name {
        Some(name) => name.as_str(),
        None => "",
    }
}

/// The text of a node's name, empty where it has none.
fn text_in<'t>(view: View<'t>) -> &'t str
    ensures { result.now ≡ node_name view.entry }
{
    match view {
        View::Binder(head) => text_of(&head.binder.name),
        View::LetIn(name, _, _, _) => text_of(name),
        View::Ident(name) => name.as_str(),
        View::Meta(name) => name.as_str(),
        View::NewVar(name, _) => name.as_str(),
        _ => "",
    }
}

/// A node's name.
fn name_in<'t>(bank: &mut Bank<'_>, view: View<'t>) -> Result<NameId, NoMemory>
    ensures name { IfOk result (λ x. IsName bank.new x (node_name view.entry)) }
    ensures grows { Grows bank.old bank.new }
{
    bank.name(text_in(view))
}

/// What comes next, where a term is asked for whose node and tick were looked at.
fn node_asked<'t, L: Ledger>(
    work: &mut Work<'_, '_>,
    site: &Site<'_>,
    store: &mut Store,
    saved: &mut Option<Store>,
    context: &mut Context,
    scope: &mut Scope,
    frames: &mut Frames<'t>,
    view: View<'t>,
    name: NameId,
    wanted: Option<TermId>,
    steps: &mut Steps<L>,
) -> Result<Turn<'t>, ElabFault>
    requires state { IsState work.old.bank.now site.now store.old context.old scope.old frames.old }
    requires name { IsName work.old.bank.now name (node_name view) }
    requires wanted { HasBody work.old.bank.now wanted }
    requires wanted_stands { OptionStands (store_of work.old.bank.now store.old) (names_in (context_of work.old.bank.now context.old))
        (option_map (tree_of work.old.bank.now) wanted) }
    ensures state { IfOk result (λ _. IsState work.new.bank.now site.now store.new context.new scope.new frames.new) }
    ensures stands { IfOk result (TurnStands work.new.bank.now store.new context.new) }
    ensures goes { (f : ℕ → Elab TreeFound) (budget : ℕ) → Leads f (node_work (site_of work.old.bank.now site.now)
        (waits work.old.bank.now context.old frames.old) (spot_of work.old.bank.now context.old frames.old) (store_of work.old.bank.now store.old)
        (option_map (tree_of work.old.bank.now) wanted) view.entry) budget work.old.ticks.now.left
        → Goes work.new.bank.now site.now store.new context.new frames.new result f budget work.new.ticks.now.left }
    ensures grown { OnOk result (Grown (store_of work.old.bank.now store.old) (store_of work.new.bank.now store.new)) }
    ensures falls { IfOk result (λ t. weights frames.new + due t + 4 * work.new.ticks.now.left ≤ 3 + weights frames.old + 4 * work.old.ticks.now.left) }
    ensures since { (before : Places) → Restores before saved.old store.old → Restores before saved.new store.new }
    ensures same_bank { work.new.bank.ghost_name ≡ work.old.bank.ghost_name }
    ensures same_ticks { work.new.ticks.ghost_name ≡ work.old.ticks.ghost_name }
    ensures grows { Grows work.old.bank.now work.new.bank.now }
    ensures budget { work.new.ticks.now.left + work.new.ticks.now.spent ≡ work.old.ticks.now.left + work.old.ticks.now.spent }
    ensures counted { steps.new + work.old.ticks.now.spent ≡ steps.old + work.new.ticks.now.spent }
{
    match view {
        View::Binder(head) => binder_asked(
            work, site, store, context, scope, frames, head, name, wanted, steps,
        ),
        View::LetIn(_, kind, value, rest) => definition_asked(
            work.bank, site, store, context, scope, frames, name, kind, value, rest, wanted,
        ),
        View::Arrow(domain, rest) => begun(
            work.bank,
            site,
            store,
            context,
            scope,
            frames,
            Part::ProductDomain(name, Asked::Term(rest)),
            wanted,
            Asked::Term(domain),
            None,
        ),
        View::Apply(function, argument, others) => application_asked(
            work, site, store, context, scope, frames, function, argument, others, wanted, steps,
        ),
        View::Ident(_) => name_asked(
            work, site, store, context, scope, frames, name, wanted, steps,
        ),
        View::Blank(place) => blank_asked(
            work.bank, site, store, saved, context, scope, frames, place, wanted,
        ),
        View::PropSort => sort_asked(
            work,
            site,
            store,
            context,
            scope,
            frames,
            Sort::Base,
            wanted,
            steps,
        ),
        View::TypeSort(level) => sort_asked(
            work,
            site,
            store,
            context,
            scope,
            frames,
            Sort::Level(level),
            wanted,
            steps,
        ),
        View::Cast(term, kind) => begun(
            work.bank,
            site,
            store,
            context,
            scope,
            frames,
            Part::CastKind(term),
            wanted,
            Asked::Term(kind),
            None,
        ),
        View::Meta(_) => Err(ElabFault::Unknown(name)),
        View::NewVar(_, place) => named_asked(
            work.bank, site, store, saved, context, scope, frames, name, place, wanted,
        ),
    }
}

/// What comes next, where a term is asked for.
pub(crate) fn asked<'t, L: Ledger>(
    work: &mut Work<'_, '_>,
    site: &Site<'_>,
    store: &mut Store,
    saved: &mut Option<Store>,
    context: &mut Context,
    scope: &mut Scope,
    frames: &mut Frames<'t>,
    term: Asked<'t>,
    wanted: Option<TermId>,
    steps: &mut Steps<L>,
) -> Result<Turn<'t>, ElabFault>
    requires state { IsState work.old.bank.now site.now store.old context.old scope.old frames.old }
    requires stands { TurnStands work.old.bank.now store.old context.old (Next.Ask term wanted) }
    ensures state { IfOk result (λ _. IsState work.new.bank.now site.now store.new context.new scope.new frames.new) }
    ensures stands { IfOk result (TurnStands work.new.bank.now store.new context.new) }
    ensures goes { (f : ℕ → Elab TreeFound) (budget : ℕ)
        → Leads f (turn_work work.old.bank.now site.now store.old context.old frames.old (Next.Ask term.entry wanted)) budget work.old.ticks.now.left
        → Goes work.new.bank.now site.now store.new context.new frames.new result f budget work.new.ticks.now.left }
    ensures grown { OnOk result (Grown (store_of work.old.bank.now store.old) (store_of work.new.bank.now store.new)) }
    ensures falls { IfOk result (λ t. weights frames.new + due t + 4 * work.new.ticks.now.left < weights frames.old + 4 * work.old.ticks.now.left) }
    ensures since { (before : Places) → Restores before saved.old store.old → Restores before saved.new store.new }
    ensures same_bank { work.new.bank.ghost_name ≡ work.old.bank.ghost_name }
    ensures same_ticks { work.new.ticks.ghost_name ≡ work.old.ticks.ghost_name }
    ensures grows { Grows work.old.bank.now work.new.bank.now }
    ensures budget { work.new.ticks.now.left + work.new.ticks.now.spent ≡ work.old.ticks.now.left + work.old.ticks.now.spent }
    ensures counted { steps.new + work.old.ticks.now.spent ≡ steps.old + work.new.ticks.now.spent }
{
    let view = view_of(term);
    if !work.ticks.take(steps) {
        return Err(ElabFault::StepsOut);
    }
    match name_in(work.bank, view) {
        Ok(name) => node_asked(
            work, site, store, saved, context, scope, frames, view, name, wanted, steps,
        ),
        Err(_) => Err(ElabFault::NoMemory),
    }
}
