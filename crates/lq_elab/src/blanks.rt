//! `_` and `?[n]`, once their tick is paid: new variables of the context.

ghost use Rattle.std.specs.Prelude.{◌≡◌, ◌+◌, ◌≤◌, ℕ, None, Some, option_map, IfOk, OnOk};
ghost use Rattle.lq_terms.specs.Terms.{HasName, HasTerm, tree_of, text_of, Grows};
ghost use Rattle.lq_terms.specs.Contexts.{HasBody, context_of};
ghost use Rattle.lq_solving.specs.Stores.{names_in};
ghost use Rattle.lq_solving.specs.Kept.{OptionStands, StandsIn};
ghost use Rattle.lq_solving.specs.ElabFaults.{Elab};
ghost use Rattle.lq_solving.specs.Elaboration.{Found as TreeFound, made, blank_found, named_found};
ghost use Rattle.lq_solving.proofs.ElabKept.{Grown};
ghost use Rattle.lq_evars.specs.Places.{Places, store_of, IsNewName, IsOwnOr};
ghost use Rattle.lq_elab.specs.Making.{Restores};
ghost use Rattle.lq_elab.specs.Waiting.{Leads};
ghost use Rattle.lq_elab.specs.Nodes.{made_next};
ghost use Rattle.lq_elab.specs.Frames.{waits};
ghost use Rattle.lq_elab.specs.States.{IsState, TurnStands, Goes, site_of, due};

use crate::frames::Frames;
use crate::making::new_variable;
use crate::scope::Scope;
use crate::sites::Site;
use crate::turns::Turn;
use lq_evars::Store;
use lq_terms::{Bank, Context, NameId, TermId};
use lq_typing::ElabFault;

/// A new variable of a type in the context comes next.
fn made<'t>(
    bank: &mut Bank<'_>,
    site: &Site<'_>,
    store: &mut Store,
    saved: &mut Option<Store>,
    context: &Context,
    scope: &Scope,
    frames: &Frames<'t>,
    kind: TermId,
    name: Option<NameId>,
) -> Result<Turn<'t>, ElabFault>
    requires state { IsState bank.old site.now store.old context.now scope.now frames.now }
    requires kind { HasTerm bank.old kind }
    requires stands { StandsIn (store_of bank.old store.old) (context_of bank.old context.now) (tree_of bank.old kind) }
    requires new { IsNewName store.old name }
    requires own { IsOwnOr bank.old name }
    ensures state { IfOk result (λ _. IsState bank.new site.now store.new context.now scope.now frames.now) }
    ensures stands { IfOk result (TurnStands bank.new store.new context.now) }
    ensures goes { (f : ℕ → Elab TreeFound) (budget left : ℕ) → Leads f (made_next (site_of bank.old site.now) (waits bank.old context.now frames.now)
        (made (context_of bank.old context.now) (store_of bank.old store.old) (tree_of bank.old kind) (option_map (text_of bank.old) name)))
        budget left → Goes bank.new site.now store.new context.now frames.now result f budget left }
    ensures grown { OnOk result (Grown (store_of bank.old store.old) (store_of bank.new store.new)) }
    ensures ends { IfOk result (λ t. due t ≤ 1) }
    ensures since { (before : Places) → Restores before saved.old store.old → Restores before saved.new store.new }
    ensures grows { Grows bank.old bank.new }
{
    let _site = site;
    let _scope = scope;
    let _frames = frames;
    match new_variable(bank, store, saved, context, kind, name) {
        Ok(found) => Ok(Turn::Found(found)),
        Err(fault) => Err(fault),
    }
}

/// `_`: a type must be wanted.
pub(crate) fn blank_asked<'t>(
    bank: &mut Bank<'_>,
    site: &Site<'_>,
    store: &mut Store,
    saved: &mut Option<Store>,
    context: &Context,
    scope: &Scope,
    frames: &Frames<'t>,
    place: u64,
    wanted: Option<TermId>,
) -> Result<Turn<'t>, ElabFault>
    requires state { IsState bank.old site.now store.old context.now scope.now frames.now }
    requires wanted { HasBody bank.old wanted }
    requires wanted_stands { OptionStands (store_of bank.old store.old) (names_in (context_of bank.old context.now)) (option_map (tree_of bank.old) wanted) }
    ensures state { IfOk result (λ _. IsState bank.new site.now store.new context.now scope.now frames.now) }
    ensures stands { IfOk result (TurnStands bank.new store.new context.now) }
    ensures goes { (f : ℕ → Elab TreeFound) (budget left : ℕ) → Leads f (made_next (site_of bank.old site.now) (waits bank.old context.now frames.now)
        (blank_found (context_of bank.old context.now) (store_of bank.old store.old) place (option_map (tree_of bank.old) wanted)))
        budget left → Goes bank.new site.now store.new context.now frames.now result f budget left }
    ensures grown { OnOk result (Grown (store_of bank.old store.old) (store_of bank.new store.new)) }
    ensures ends { IfOk result (λ t. due t ≤ 1) }
    ensures since { (before : Places) → Restores before saved.old store.old → Restores before saved.new store.new }
    ensures grows { Grows bank.old bank.new }
{
    match wanted {
        Some(kind) => made(bank, site, store, saved, context, scope, frames, kind, None),
        None => Err(ElabFault::CannotInfer(place)),
    }
}

/// `?[n]`: a type must be wanted, and no variable may have the name.
pub(crate) fn named_asked<'t>(
    bank: &mut Bank<'_>,
    site: &Site<'_>,
    store: &mut Store,
    saved: &mut Option<Store>,
    context: &Context,
    scope: &Scope,
    frames: &Frames<'t>,
    name: NameId,
    place: u64,
    wanted: Option<TermId>,
) -> Result<Turn<'t>, ElabFault>
    requires state { IsState bank.old site.now store.old context.now scope.now frames.now }
    requires name { HasName bank.old name }
    requires wanted { HasBody bank.old wanted }
    requires wanted_stands { OptionStands (store_of bank.old store.old) (names_in (context_of bank.old context.now)) (option_map (tree_of bank.old) wanted) }
    ensures state { IfOk result (λ _. IsState bank.new site.now store.new context.now scope.now frames.now) }
    ensures stands { IfOk result (TurnStands bank.new store.new context.now) }
    ensures goes { (f : ℕ → Elab TreeFound) (budget left : ℕ) → Leads f (made_next (site_of bank.old site.now) (waits bank.old context.now frames.now)
        (named_found (context_of bank.old context.now) (store_of bank.old store.old) (text_of bank.old name) place (option_map (tree_of bank.old) wanted)))
        budget left → Goes bank.new site.now store.new context.now frames.now result f budget left }
    ensures grown { OnOk result (Grown (store_of bank.old store.old) (store_of bank.new store.new)) }
    ensures ends { IfOk result (λ t. due t ≤ 1) }
    ensures since { (before : Places) → Restores before saved.old store.old → Restores before saved.new store.new }
    ensures grows { Grows bank.old bank.new }
{
    bank.names_apart();
    let Some(kind) = wanted else {
        return Err(ElabFault::CannotInfer(place));
    };
    match store.named(name) {
        Some(_) => Err(ElabFault::NameInUse(name)),
        None => made(
            bank,
            site,
            store,
            saved,
            context,
            scope,
            frames,
            kind,
            Some(name),
        ),
    }
}
