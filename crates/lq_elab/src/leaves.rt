//! Leaves, once their tick is paid: what is found of them is held against what is wanted.

ghost use Rattle.std.specs.Prelude.{◌≡◌, ◌+◌, ◌≤◌, ◌⊎◌, ℕ, option_map, IfOk, IfErr, OnOk, MatchOption};
ghost use Rattle.lq_trees.specs.Ticks.{gives, fails};
ghost use Rattle.lq_trees.specs.Tree.{Tree};
ghost use Rattle.lq_calculus.specs.Checking.{sort_above, no_sort_above, Kernel};
ghost use Rattle.lq_terms.specs.Terms.{HasName, HasTerm, IsTerm, tree_of, text_of, Grows};
ghost use Rattle.lq_terms.specs.Contexts.{HasBody, context_of};
ghost use Rattle.lq_solving.specs.Stores.{names_in};
ghost use Rattle.lq_solving.specs.Kept.{OptionStands};
ghost use Rattle.lq_solving.specs.ElabFaults.{Elab};
ghost use Rattle.lq_solving.specs.Elaboration.{Found as TreeFound, found, name_found};
ghost use Rattle.lq_solving.proofs.ElabKept.{Grown};
ghost use Rattle.lq_solving.proofs.ElabSettled.{at};
ghost use Rattle.lq_evars.specs.Places.{store_of, GivesMore};
ghost use Rattle.lq_elab.specs.Answers.{Comes};
ghost use Rattle.lq_elab.specs.Waiting.{Leads};
ghost use Rattle.lq_elab.specs.Nodes.{held_leaf, sort_found};
ghost use Rattle.lq_elab.specs.Frames.{spot_of, waits};
ghost use Rattle.lq_elab.specs.States.{IsState, TurnStands, Goes, site_of, due};

use crate::finding::Found;
use crate::frames::Frames;
use crate::naming::meant;
use crate::scope::Scope;
use crate::settling::settled;
use crate::sites::Site;
use crate::turns::Turn;
use lq_evars::Store;
use lq_terms::{Bank, Context, NameId, Node, Steps, TermId, Work};
use lq_trees::Sort;
use lq_typing::ElabFault;
use std::sync::ledger::Ledger;

/// The last level of the sorts.
const LAST_LEVEL: u8 = 3;

/// The sort above a sort, if there is one.
fn above(sort: Sort) -> Option<Sort>
    ensures { MatchOption result (sort_above sort ≡ fails no_sort_above) (λ u. sort_above sort ≡ gives (Tree.Sort u)) }
{
    match sort {
        Sort::Base => Some(Sort::Level(0)),
        Sort::Level(level) if level < LAST_LEVEL => Some(Sort::Level(level + 1)),
        Sort::Level(_) => None,
    }
}

/// A sort, with the one above it.
fn with_above(bank: &mut Bank<'_>, sort: Sort) -> Result<Found, ElabFault>
    ensures term { IfOk result (λ f. IsTerm bank.new f.term (Tree.Sort sort)) }
    ensures kind { IfOk result (λ f. HasTerm bank.new f.kind × (sort_above sort ≡ gives (tree_of bank.new f.kind))) }
    ensures err { IfErr result (λ e. (e ≡ ElabFault.NoMemory) ⊎ ((e ≡ ElabFault.NoSortAbove) × (sort_above sort ≡ fails no_sort_above))) }
    ensures grows { Grows bank.old bank.new }
{
    let Some(next) = above(sort) else {
        return Err(ElabFault::NoSortAbove);
    };
    let kind = bank.make(Node::Sort(next))?;
    let term = bank.make(Node::Sort(sort))?;
    Ok(Found { term, kind })
}

/// A sort: the one above it is its type.
pub(crate) fn sort_asked<'t, L: Ledger>(
    work: &mut Work<'_, '_>,
    site: &Site<'_>,
    store: &mut Store,
    context: &Context,
    scope: &Scope,
    frames: &Frames<'t>,
    sort: Sort,
    wanted: Option<TermId>,
    steps: &mut Steps<L>,
) -> Result<Turn<'t>, ElabFault>
    requires state { IsState work.old.bank.now site.now store.old context.now scope.now frames.now }
    requires wanted { HasBody work.old.bank.now wanted }
    requires wanted_stands { OptionStands (store_of work.old.bank.now store.old) (names_in (context_of work.old.bank.now context.now))
        (option_map (tree_of work.old.bank.now) wanted) }
    ensures state { IfOk result (λ _. IsState work.new.bank.now site.now store.new context.now scope.now frames.now) }
    ensures stands { IfOk result (TurnStands work.new.bank.now store.new context.now) }
    ensures goes { (f : ℕ → Elab TreeFound) (budget : ℕ) → Leads f (held_leaf (site_of work.old.bank.now site.now)
        (waits work.old.bank.now context.now frames.now) (spot_of work.old.bank.now context.now frames.now) (store_of work.old.bank.now store.old)
        (option_map (tree_of work.old.bank.now) wanted) (λ n. sort_found (site_of work.old.bank.now site.now)
        (waits work.old.bank.now context.now frames.now) (spot_of work.old.bank.now context.now frames.now) (store_of work.old.bank.now store.old)
        (option_map (tree_of work.old.bank.now) wanted) sort)) budget work.old.ticks.now.left
        → Goes work.new.bank.now site.now store.new context.now frames.now result f budget work.new.ticks.now.left }
    ensures grown { OnOk result (Grown (store_of work.old.bank.now store.old) (store_of work.new.bank.now store.new)) }
    ensures more { GivesMore store.old store.new }
    ensures ends { IfOk result (λ t. due t ≤ 1) }
    ensures fewer { OnOk result (work.new.ticks.now.left ≤ work.old.ticks.now.left) }
    ensures same_bank { work.new.bank.ghost_name ≡ work.old.bank.ghost_name }
    ensures same_ticks { work.new.ticks.ghost_name ≡ work.old.ticks.ghost_name }
    ensures grows { Grows work.old.bank.now work.new.bank.now }
    ensures budget { work.new.ticks.now.left + work.new.ticks.now.spent ≡ work.old.ticks.now.left + work.old.ticks.now.spent }
    ensures counted { steps.new + work.old.ticks.now.spent ≡ steps.old + work.new.ticks.now.spent }
{
    match with_above(work.bank, sort) {
        Ok(found) => settled(
            work, site, store, context, scope, frames, found, wanted, steps,
        ),
        Err(fault) => Err(fault),
    }
}

/// A name: what it stands for.
pub(crate) fn name_asked<'t, L: Ledger>(
    work: &mut Work<'_, '_>,
    site: &Site<'_>,
    store: &mut Store,
    context: &Context,
    scope: &Scope,
    frames: &Frames<'t>,
    name: NameId,
    wanted: Option<TermId>,
    steps: &mut Steps<L>,
) -> Result<Turn<'t>, ElabFault>
    requires state { IsState work.old.bank.now site.now store.old context.now scope.now frames.now }
    requires name { HasName work.old.bank.now name }
    requires wanted { HasBody work.old.bank.now wanted }
    requires wanted_stands { OptionStands (store_of work.old.bank.now store.old) (names_in (context_of work.old.bank.now context.now))
        (option_map (tree_of work.old.bank.now) wanted) }
    ensures state { IfOk result (λ _. IsState work.new.bank.now site.now store.new context.now scope.now frames.now) }
    ensures stands { IfOk result (TurnStands work.new.bank.now store.new context.now) }
    ensures goes { (f : ℕ → Elab TreeFound) (budget : ℕ) → Leads f (held_leaf (site_of work.old.bank.now site.now)
        (waits work.old.bank.now context.now frames.now) (spot_of work.old.bank.now context.now frames.now) (store_of work.old.bank.now store.old)
        (option_map (tree_of work.old.bank.now) wanted) (λ n. name_found (at n (site_of work.old.bank.now site.now))
        (spot_of work.old.bank.now context.now frames.now).binders (context_of work.old.bank.now context.now) (store_of work.old.bank.now store.old)
        (text_of work.old.bank.now name))) budget work.old.ticks.now.left
        → Goes work.new.bank.now site.now store.new context.now frames.now result f budget work.new.ticks.now.left }
    ensures grown { OnOk result (Grown (store_of work.old.bank.now store.old) (store_of work.new.bank.now store.new)) }
    ensures more { GivesMore store.old store.new }
    ensures ends { IfOk result (λ t. due t ≤ 1) }
    ensures fewer { OnOk result (work.new.ticks.now.left ≤ work.old.ticks.now.left) }
    ensures same_bank { work.new.bank.ghost_name ≡ work.old.bank.ghost_name }
    ensures same_ticks { work.new.ticks.ghost_name ≡ work.old.ticks.ghost_name }
    ensures grows { Grows work.old.bank.now work.new.bank.now }
    ensures budget { work.new.ticks.now.left + work.new.ticks.now.spent ≡ work.old.ticks.now.left + work.old.ticks.now.spent }
    ensures counted { steps.new + work.old.ticks.now.spent ≡ steps.old + work.new.ticks.now.spent }
{
    match meant(work, site, store, context, scope, frames, name, steps) {
        Ok(found) => settled(
            work, site, store, context, scope, frames, found, wanted, steps,
        ),
        Err(fault) => Err(fault),
    }
}
