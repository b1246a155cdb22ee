//! What a term was elaborated to is held against what is wanted of it.

ghost use Rattle.std.specs.Prelude.{◌≡◌, ◌+◌, ◌≤◌, ℕ, option_map, IfOk, OnOk};
ghost use Rattle.lq_terms.specs.Terms.{HasTerm, tree_of, Grows};
ghost use Rattle.lq_terms.specs.Contexts.{HasBody, context_of};
ghost use Rattle.lq_solving.specs.Stores.{names_in};
ghost use Rattle.lq_solving.specs.Kept.{OptionStands, StandsIn};
ghost use Rattle.lq_solving.specs.ElabFaults.{Elab};
ghost use Rattle.lq_solving.specs.Elaboration.{Found as TreeFound};
ghost use Rattle.lq_solving.proofs.ElabKept.{Grown};
ghost use Rattle.lq_evars.specs.Places.{store_of, GivesMore};
ghost use Rattle.lq_elab.specs.Answers.{found_of};
ghost use Rattle.lq_elab.specs.Waiting.{Leads, held_work};
ghost use Rattle.lq_elab.specs.Frames.{waits};
ghost use Rattle.lq_elab.specs.States.{IsState, TurnStands, Goes, site_of};

use crate::agreeing::agreed;
use crate::finding::Found;
use crate::frames::Frames;
use crate::scope::Scope;
use crate::sites::Site;
use crate::turns::Turn;
use lq_evars::Store;
use lq_terms::{Context, Steps, TermId, Work};
use lq_typing::ElabFault;
use std::sync::ledger::Ledger;

/// What a term was elaborated to comes next, once it is held against what is wanted of the term.
pub(crate) fn settled<'t, L: Ledger>(
    work: &mut Work<'_, '_>,
    site: &Site<'_>,
    store: &mut Store,
    context: &Context,
    scope: &Scope,
    frames: &Frames<'t>,
    found: Found,
    wanted: Option<TermId>,
    steps: &mut Steps<L>,
) -> Result<Turn<'t>, ElabFault>
    requires state { IsState work.old.bank.now site.now store.old context.now scope.now frames.now }
    requires term { HasTerm work.old.bank.now found.term }
    requires term_stands { StandsIn (store_of work.old.bank.now store.old) (context_of work.old.bank.now context.now) (tree_of work.old.bank.now found.term) }
    requires kind { HasTerm work.old.bank.now found.kind }
    requires kind_stands { StandsIn (store_of work.old.bank.now store.old) (context_of work.old.bank.now context.now) (tree_of work.old.bank.now found.kind) }
    requires wanted { HasBody work.old.bank.now wanted }
    requires wanted_stands { OptionStands (store_of work.old.bank.now store.old) (names_in (context_of work.old.bank.now context.now))
        (option_map (tree_of work.old.bank.now) wanted) }
    ensures state { IfOk result (λ _. IsState work.new.bank.now site.now store.new context.now scope.now frames.now) }
    ensures stands { IfOk result (TurnStands work.new.bank.now store.new context.now) }
    ensures is { IfOk result (λ t. t ≡ Turn.Found found) }
    ensures goes { (f : ℕ → Elab TreeFound) (budget : ℕ) → Leads f (held_work (site_of work.old.bank.now site.now)
        (waits work.old.bank.now context.now frames.now) (context_of work.old.bank.now context.now) (option_map (tree_of work.old.bank.now) wanted)
        (found_of work.old.bank.now store.old found)) budget work.old.ticks.now.left
        → Goes work.new.bank.now site.now store.new context.now frames.now result f budget work.new.ticks.now.left }
    ensures grown { OnOk result (Grown (store_of work.old.bank.now store.old) (store_of work.new.bank.now store.new)) }
    ensures more { GivesMore store.old store.new }
    ensures fewer { OnOk result (work.new.ticks.now.left ≤ work.old.ticks.now.left) }
    ensures same_bank { work.new.bank.ghost_name ≡ work.old.bank.ghost_name }
    ensures same_ticks { work.new.ticks.ghost_name ≡ work.old.ticks.ghost_name }
    ensures grows { Grows work.old.bank.now work.new.bank.now }
    ensures budget { work.new.ticks.now.left + work.new.ticks.now.spent ≡ work.old.ticks.now.left + work.old.ticks.now.spent }
    ensures counted { steps.new + work.old.ticks.now.spent ≡ steps.old + work.new.ticks.now.spent }
{
    let _scope = scope;
    let _frames = frames;
    match agreed(work, site.env, store, context, found.kind, wanted, steps) {
        Ok(()) => Ok(Turn::Found(found)),
        Err(fault) => Err(fault),
    }
}
