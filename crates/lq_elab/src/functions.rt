//! Products and functions, once their tick is paid.

ghost use Rattle.std.specs.Prelude.{◌≡◌, ◌+◌, ◌*◌, ◌≤◌, ℕ, false, Option, option_map, IfOk, OnOk};
ghost use Rattle.lq_trees.specs.Tree.{Tree};
ghost use Rattle.lq_terms.specs.Terms.{HasName, tree_of, text_of, Grows};
ghost use Rattle.lq_terms.specs.Contexts.{HasBody, context_of};
ghost use Rattle.lq_solving.specs.Stores.{names_in};
ghost use Rattle.lq_solving.specs.Kept.{OptionStands};
ghost use Rattle.lq_solving.specs.ElabFaults.{Elab};
ghost use Rattle.lq_solving.specs.Elaboration.{Found as TreeFound};
ghost use Rattle.lq_evars.specs.Places.{store_of};
ghost use Rattle.lq_elab.specs.Waiting.{Leads};
ghost use Rattle.lq_elab.specs.Views.{head_domain, row_tree};
ghost use Rattle.lq_elab.specs.Nodes.{bare_work, head_work};
ghost use Rattle.lq_elab.specs.Frames.{HasPair, ProductStands, pair_of, spot_of, waits, weights};
ghost use Rattle.lq_elab.specs.States.{IsState, TurnStands, Goes, site_of, due};

use crate::entering::{Under, descended};
use crate::forms::wanted_parts;
use crate::frames::Frames;
use crate::heads::{product_asked, typed_asked};
use crate::scope::Scope;
use crate::sites::Site;
use crate::turns::Turn;
use crate::views::{Asked, Head};
use lq_evars::Store;
use lq_terms::{Bank, Context, NameId, Steps, TermId, Work};
use lq_typing::ElabFault;
use std::sync::ledger::Ledger;

/// A function whose binder has no type: a product must be wanted, whose domain is taken, and the rest is asked for with its rest.
fn bare_asked<'t>(
    bank: &mut Bank<'_>,
    site: &Site<'_>,
    store: &Store,
    context: &mut Context,
    scope: &mut Scope,
    frames: &mut Frames<'t>,
    head: Head<'t>,
    binder: NameId,
    parts: Option<(TermId, TermId)>,
) -> Result<Turn<'t>, ElabFault>
    requires state { IsState bank.old site.now store.now context.old scope.old frames.old }
    requires binder { HasName bank.old binder }
    requires parts { HasPair bank.old parts }
    requires parts_stand { ProductStands (store_of bank.old store.now) (names_in (context_of bank.old context.old)) (option_map (pair_of bank.old) parts) }
    ensures state { OnOk result (IsState bank.new site.now store.now context.new scope.new frames.new) }
    ensures stands { IfOk result (TurnStands bank.new store.now context.new) }
    ensures goes { (w : Option Tree) (f : ℕ → Elab TreeFound) (budget left : ℕ) → Leads f (bare_work (site_of bank.old site.now)
        (waits bank.old context.old frames.old) (spot_of bank.old context.old frames.old) (store_of bank.old store.now) w (text_of bank.old binder)
        head.entry.binder.now.place (row_tree head.entry.rest) (option_map (pair_of bank.old) parts)) budget left
        → Goes bank.new site.now store.now context.new frames.new result f budget left }
    ensures falls { IfOk result (λ t. weights frames.new + due t ≤ 2 + weights frames.old) }
    ensures grows { Grows bank.old bank.new }
{
    let Some((domain, rest)) = parts else {
        return Err(ElabFault::CannotInfer(head.binder.place));
    };
    match descended(
        bank,
        site,
        store,
        context,
        scope,
        frames,
        Under::Function,
        binder,
        domain,
        None,
        Asked::Row(head.rest),
        Some(rest),
    ) {
        Ok(turn) => Ok(turn),
        Err(_) => Err(ElabFault::NoMemory),
    }
}

/// A function: the product that is wanted is looked at first.
fn function_asked<'t, L: Ledger>(
    work: &mut Work<'_, '_>,
    site: &Site<'_>,
    store: &Store,
    context: &mut Context,
    scope: &mut Scope,
    frames: &mut Frames<'t>,
    head: Head<'t>,
    binder: NameId,
    wanted: Option<TermId>,
    steps: &mut Steps<L>,
) -> Result<Turn<'t>, ElabFault>
    requires state { IsState work.old.bank.now site.now store.now context.old scope.old frames.old }
    requires binder { HasName work.old.bank.now binder }
    requires wanted { HasBody work.old.bank.now wanted }
    requires wanted_stands { OptionStands (store_of work.old.bank.now store.now) (names_in (context_of work.old.bank.now context.old))
        (option_map (tree_of work.old.bank.now) wanted) }
    ensures state { IfOk result (λ _. IsState work.new.bank.now site.now store.now context.new scope.new frames.new) }
    ensures stands { IfOk result (TurnStands work.new.bank.now store.now context.new) }
    ensures goes { (f : ℕ → Elab TreeFound) (budget : ℕ) → Leads f (head_work (site_of work.old.bank.now site.now)
        (waits work.old.bank.now context.old frames.old) (spot_of work.old.bank.now context.old frames.old) (store_of work.old.bank.now store.now)
        (option_map (tree_of work.old.bank.now) wanted) false (text_of work.old.bank.now binder) (head_domain head.entry) (row_tree head.entry.rest))
        budget work.old.ticks.now.left
        → Goes work.new.bank.now site.now store.now context.new frames.new result f budget work.new.ticks.now.left }
    ensures falls { IfOk result (λ t. weights frames.new + due t + 4 * work.new.ticks.now.left ≤ 3 + weights frames.old + 4 * work.old.ticks.now.left) }
    ensures same_bank { work.new.bank.ghost_name ≡ work.old.bank.ghost_name }
    ensures same_ticks { work.new.ticks.ghost_name ≡ work.old.ticks.ghost_name }
    ensures grows { Grows work.old.bank.now work.new.bank.now }
    ensures budget { work.new.ticks.now.left + work.new.ticks.now.spent ≡ work.old.ticks.now.left + work.old.ticks.now.spent }
    ensures counted { steps.new + work.old.ticks.now.spent ≡ steps.old + work.new.ticks.now.spent }
{
    match wanted_parts(work, site.env, store, context, wanted, steps) {
        Ok(parts) => match head.kind {
            Some(kind) => typed_asked(
                work.bank, site, store, context, scope, frames, head.rest, binder, kind, parts,
                wanted,
            ),
            None => bare_asked(
                work.bank, site, store, context, scope, frames, head, binder, parts,
            ),
        },
        Err(fault) => Err(fault),
    }
}

/// A product or a function.
pub(crate) fn binder_asked<'t, L: Ledger>(
    work: &mut Work<'_, '_>,
    site: &Site<'_>,
    store: &Store,
    context: &mut Context,
    scope: &mut Scope,
    frames: &mut Frames<'t>,
    head: Head<'t>,
    binder: NameId,
    wanted: Option<TermId>,
    steps: &mut Steps<L>,
) -> Result<Turn<'t>, ElabFault>
    requires state { IsState work.old.bank.now site.now store.now context.old scope.old frames.old }
    requires binder { HasName work.old.bank.now binder }
    requires wanted { HasBody work.old.bank.now wanted }
    requires wanted_stands { OptionStands (store_of work.old.bank.now store.now) (names_in (context_of work.old.bank.now context.old))
        (option_map (tree_of work.old.bank.now) wanted) }
    ensures state { IfOk result (λ _. IsState work.new.bank.now site.now store.now context.new scope.new frames.new) }
    ensures stands { IfOk result (TurnStands work.new.bank.now store.now context.new) }
    ensures goes { (f : ℕ → Elab TreeFound) (budget : ℕ) → Leads f (head_work (site_of work.old.bank.now site.now)
        (waits work.old.bank.now context.old frames.old) (spot_of work.old.bank.now context.old frames.old) (store_of work.old.bank.now store.now)
        (option_map (tree_of work.old.bank.now) wanted) head.entry.rest.is_product (text_of work.old.bank.now binder) (head_domain head.entry)
        (row_tree head.entry.rest)) budget work.old.ticks.now.left
        → Goes work.new.bank.now site.now store.now context.new frames.new result f budget work.new.ticks.now.left }
    ensures falls { IfOk result (λ t. weights frames.new + due t + 4 * work.new.ticks.now.left ≤ 3 + weights frames.old + 4 * work.old.ticks.now.left) }
    ensures same_bank { work.new.bank.ghost_name ≡ work.old.bank.ghost_name }
    ensures same_ticks { work.new.ticks.ghost_name ≡ work.old.ticks.ghost_name }
    ensures grows { Grows work.old.bank.now work.new.bank.now }
    ensures budget { work.new.ticks.now.left + work.new.ticks.now.spent ≡ work.old.ticks.now.left + work.old.ticks.now.spent }
    ensures counted { steps.new + work.old.ticks.now.spent ≡ steps.old + work.new.ticks.now.spent }
{
    if head.rest.is_product {
        product_asked(
            work.bank, site, store, context, scope, frames, head, binder, wanted,
        )
    } else {
        function_asked(
            work, site, store, context, scope, frames, head, binder, wanted, steps,
        )
    }
}
