//! Back from under a binder, and terms made of their parts, of any size.

ghost use Rattle.std.specs.Prelude.{◌≡◌, ◌+◌, ◌*◌, ◌≤◌, ◌∷◌, ℕ, option_map, IfOk};
ghost use Rattle.lq_trees.specs.Change.{subst, close};
ghost use Rattle.lq_trees.specs.Hypotheses.{HoldsOnly};
ghost use Rattle.lq_trees.specs.Index.{Within};
ghost use Rattle.lq_trees.specs.Tree.{Tree};
ghost use Rattle.lq_terms.specs.Terms.{HasTerm, Grows, text_of, tree_of};
ghost use Rattle.lq_terms.specs.Contexts.{HasContext, context_of};
ghost use Rattle.lq_solving.specs.Stores.{names_in};
ghost use Rattle.lq_solving.specs.ElabFaults.{Elab};
ghost use Rattle.lq_solving.specs.Elaboration.{Found as TreeFound};
ghost use Rattle.lq_evars.specs.Places.{store_of, GivesMore};
ghost use Rattle.lq_elab.specs.Answers.{found_of};
ghost use Rattle.lq_elab.specs.Continuing.{Continues};
ghost use Rattle.lq_elab.specs.Ending.{IsMade};
ghost use Rattle.lq_elab.specs.Entering.{part_under};
ghost use Rattle.lq_elab.specs.Frames.{HasBound, shorter, waits, weights};
ghost use Rattle.lq_elab.specs.States.{IsState, TurnStands, site_of};
ghost use Rattle.lq_elab.specs.Waiting.{Leads, held_work};

use crate::binding::left;
use crate::entering::{Under, body_of};
use crate::finding::Found;
use crate::frames::{Bound, Frames};
use crate::scope::Scope;
use crate::settling::settled;
use crate::shutting::{filled, replaced, shut};
use crate::sites::Site;
use crate::turns::Turn;
use lq_evars::Store;
use lq_terms::{Bank, Context, Hypothesis, NoMemory, Node, Steps, TermId, Work};
use lq_trees::Sort;
use lq_typing::ElabFault;
use std::sync::ledger::Ledger;

/// A product of this sort, by its rest under the hypothesis.
pub(crate) fn product_made(
    bank: &mut Bank<'_>,
    bound: Bound,
    sort: Sort,
    rest: TermId,
) -> Result<Found, NoMemory>
    requires bound { HasBound bank.old bound }
    requires rest { HasTerm bank.old rest }
    requires within { Within 0 (tree_of bank.old rest) }
    ensures made { IfOk result (λ f. IsMade bank.new f
        (Tree.Prod (text_of bank.old bound.binder) (tree_of bank.old bound.kind) (close (text_of bank.old bound.hypothesis) (tree_of bank.old rest)))
        (Tree.Sort sort)) }
    ensures grows { Grows bank.old bank.new }
{
    let rest = shut(bank, rest, bound.hypothesis)?;
    let term = bank.make(Node::Prod(bound.binder, bound.kind, rest))?;
    let kind = bank.make(Node::Sort(sort))?;
    Ok(Found { term, kind })
}

/// A function, by its rest and the type of that under the hypothesis.
pub(crate) fn function_made(
    bank: &mut Bank<'_>,
    bound: Bound,
    rest: Found,
) -> Result<Found, NoMemory>
    requires bound { HasBound bank.old bound }
    requires rest { HasTerm bank.old rest.term }
    requires within { Within 0 (tree_of bank.old rest.term) }
    requires kind { HasTerm bank.old rest.kind }
    requires kind_within { Within 0 (tree_of bank.old rest.kind) }
    ensures made { IfOk result (λ f. IsMade bank.new f
        (Tree.Lam (text_of bank.old bound.binder) (tree_of bank.old bound.kind) (close (text_of bank.old bound.hypothesis) (tree_of bank.old rest.term)))
        (Tree.Prod (text_of bank.old bound.binder) (tree_of bank.old bound.kind) (close (text_of bank.old bound.hypothesis) (tree_of bank.old rest.kind)))) }
    ensures grows { Grows bank.old bank.new }
{
    let body = shut(bank, rest.term, bound.hypothesis)?;
    let codomain = shut(bank, rest.kind, bound.hypothesis)?;
    let term = bank.make(Node::Lam(bound.binder, bound.kind, body))?;
    let kind = bank.make(Node::Prod(bound.binder, bound.kind, codomain))?;
    Ok(Found { term, kind })
}

/// A local definition, by its value, and by its rest and the type of that under the hypothesis.
pub(crate) fn definition_made(
    bank: &mut Bank<'_>,
    bound: Bound,
    value: TermId,
    rest: Found,
) -> Result<Found, NoMemory>
    requires bound { HasBound bank.old bound }
    requires value { HasTerm bank.old value }
    requires closed { Within 0 (tree_of bank.old value) }
    requires rest { HasTerm bank.old rest.term }
    requires within { Within 0 (tree_of bank.old rest.term) }
    requires kind { HasTerm bank.old rest.kind }
    requires kind_within { Within 0 (tree_of bank.old rest.kind) }
    ensures made { IfOk result (λ f. IsMade bank.new f
        (Tree.Let (text_of bank.old bound.binder) (tree_of bank.old value) (tree_of bank.old bound.kind)
        (close (text_of bank.old bound.hypothesis) (tree_of bank.old rest.term)))
        (subst (tree_of bank.old value) (close (text_of bank.old bound.hypothesis) (tree_of bank.old rest.kind)))) }
    ensures grows { Grows bank.old bank.new }
{
    let kind = replaced(bank, rest.kind, bound.hypothesis, value)?;
    let body = shut(bank, rest.term, bound.hypothesis)?;
    let term = bank.make(Node::Let(bound.binder, value, bound.kind, body))?;
    Ok(Found { term, kind })
}

/// An application, by its function, the rest of the product that is the function's type, and its argument.
pub(crate) fn application_made(
    bank: &mut Bank<'_>,
    context: &[Hypothesis],
    function: TermId,
    rest: TermId,
    argument: TermId,
) -> Result<Found, NoMemory>
    requires context { HasContext bank.old context.now }
    requires function { HasTerm bank.old function }
    requires rest { HasTerm bank.old rest }
    requires within { Within 1 (tree_of bank.old rest) }
    requires holds { HoldsOnly (names_in (context_of bank.old context.now)) (tree_of bank.old rest) }
    requires argument { HasTerm bank.old argument }
    requires closed { Within 0 (tree_of bank.old argument) }
    ensures made { IfOk result (λ f. IsMade bank.new f (Tree.App (tree_of bank.old function) (tree_of bank.old argument))
        (subst (tree_of bank.old argument) (tree_of bank.old rest))) }
    ensures grows { Grows bank.old bank.new }
{
    let kind = filled(bank, context, rest, argument)?;
    let term = bank.make(Node::App(function, argument))?;
    Ok(Found { term, kind })
}

/// Comes back from under a binder with what was made of the rest, which is held against what is wanted of the whole.
pub(crate) fn returned<'t, L: Ledger>(
    work: &mut Work<'_, '_>,
    site: &Site<'_>,
    store: &mut Store,
    context: &mut Context,
    scope: &mut Scope,
    frames: &Frames<'t>,
    under: Under,
    bound: Bound,
    made: Found,
    wanted: Option<TermId>,
    steps: &mut Steps<L>,
) -> Result<Turn<'t>, ElabFault>
    requires state { IsState work.old.bank.now site.now store.old context.old scope.old
        (record { part = part_under under bound; wanted = wanted } ∷ frames.now) }
    requires made { TurnStands work.old.bank.now store.old (shorter context.old) (Turn.Found made) }
    ensures goes { (f : ℕ → Elab TreeFound) (budget : ℕ) → Leads f (held_work (site_of work.old.bank.now site.now)
        (waits work.old.bank.now (shorter context.old) frames.now) (context_of work.old.bank.now (shorter context.old))
        (option_map (tree_of work.old.bank.now) wanted) (found_of work.old.bank.now store.old made)) budget work.old.ticks.now.left
        → Continues work.new.bank.now site.now (store_of work.old.bank.now store.old) store.new context.new scope.new frames.now result f budget
        work.new.ticks.now.left (weights frames.now + 1 + 4 * work.old.ticks.now.left) }
    ensures more { GivesMore store.old store.new }
    ensures same_bank { work.new.bank.ghost_name ≡ work.old.bank.ghost_name }
    ensures same_ticks { work.new.ticks.ghost_name ≡ work.old.ticks.ghost_name }
    ensures grows { Grows work.old.bank.now work.new.bank.now }
    ensures budget { work.new.ticks.now.left + work.new.ticks.now.spent ≡ work.old.ticks.now.left + work.old.ticks.now.spent }
    ensures counted { steps.new + work.old.ticks.now.spent ≡ steps.old + work.new.ticks.now.spent }
{
    left(
        work.bank,
        site,
        context,
        scope,
        frames,
        bound,
        body_of(under),
    );
    settled(
        work, site, store, context, scope, frames, made, wanted, steps,
    )
}
