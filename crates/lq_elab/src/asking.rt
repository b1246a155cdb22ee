//! A term that is asked for: what of it waits, and the part that comes first.

ghost use Rattle.std.specs.Prelude.{◌≡◌, ◌+◌, ◌*◌, ◌≤◌, ◌∷◌, ℕ, option_map, IfOk, OnOk};
ghost use Rattle.lq_terms.specs.Terms.{tree_of};
ghost use Rattle.lq_terms.specs.Contexts.{HasBody, context_of};
ghost use Rattle.lq_solving.specs.Stores.{names_in};
ghost use Rattle.lq_solving.specs.Kept.{OptionStands};
ghost use Rattle.lq_solving.specs.ElabFaults.{Elab};
ghost use Rattle.lq_solving.specs.Elaboration.{Found as TreeFound};
ghost use Rattle.lq_evars.specs.Places.{store_of};
ghost use Rattle.lq_elab.specs.Waiting.{Leads, asked_work, waiting};
ghost use Rattle.lq_elab.specs.Views.{asked_tree};
ghost use Rattle.lq_elab.specs.Frames.{HasPart, PartStands, IsOutside, part_of, spot_of, waits, weight_of, weights};
ghost use Rattle.lq_elab.specs.States.{IsState, TurnStands, site_of, turn_work, due};

use crate::frames::{Frame, Frames, Part};
use crate::scope::Scope;
use crate::sites::Site;
use crate::turns::Turn;
use crate::views::Asked;
use lq_evars::Store;
use lq_terms::{Bank, Context, NoMemory, TermId};

/// A part is asked for first, with the type that is wanted of it, and the rest of the term waits.
pub(crate) fn waited<'t>(
    bank: &Bank<'_>,
    site: &Site<'_>,
    store: &Store,
    context: &Context,
    scope: &Scope,
    frames: &mut Frames<'t>,
    part: Part<'t>,
    wanted: Option<TermId>,
    asked: Asked<'t>,
    first: Option<TermId>,
) -> Result<Turn<'t>, NoMemory>
    requires state { IsState bank.now site.now store.now context.now scope.now frames.old }
    requires wanted { HasBody bank.now wanted }
    requires wanted_stands { OptionStands (store_of bank.now store.now) (names_in (context_of bank.now context.now)) (option_map (tree_of bank.now) wanted) }
    requires part { HasPart bank.now part }
    requires part_stands { PartStands (store_of bank.now store.now) (names_in (context_of bank.now context.now)) (part_of bank.now part) }
    requires outside { IsOutside part }
    requires first { HasBody bank.now first }
    requires first_stands { OptionStands (store_of bank.now store.now) (names_in (context_of bank.now context.now)) (option_map (tree_of bank.now) first) }
    ensures state { OnOk result (IsState bank.now site.now store.now context.now scope.now frames.new) }
    ensures stands { IfOk result (TurnStands bank.now store.now context.now) }
    ensures goes { (f : ℕ → Elab TreeFound) (budget left : ℕ) → Leads f (asked_work (site_of bank.now site.now)
        (waiting (spot_of bank.now context.now frames.old) (option_map (tree_of bank.now) wanted) (part_of bank.now part.entry) ∷ waits bank.now context.now frames.old)
        (spot_of bank.now context.now frames.old) (store_of bank.now store.now) (asked_tree asked.entry) (option_map (tree_of bank.now) first)) budget left
        → IfOk result (λ t. Leads f (turn_work bank.now site.now store.now context.now frames.new t) budget left) }
    ensures falls { IfOk result (λ t. weights frames.new + due t ≤ weight_of part.entry + weights frames.old) }
{
    let _bank = bank;
    let _site = site;
    let _store = store;
    let _context = context;
    let _scope = scope;
    frames.push(Frame { part, wanted })?;
    Ok(Turn::Ask(asked, first))
}
