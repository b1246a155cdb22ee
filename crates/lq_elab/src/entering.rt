//! Under a binder: the rest is asked for.

ghost use Rattle.std.specs.Prelude.{◌≡◌, ◌+◌, ◌≤◌, ◌∷◌, ℕ, option_map, IfOk, OnOk};
ghost use Rattle.lq_trees.specs.Fresh.{fresh, opened};
ghost use Rattle.lq_terms.specs.Terms.{HasName, HasTerm, Grows, text_of, tree_of};
ghost use Rattle.lq_terms.specs.Contexts.{HasBody, context_of};
ghost use Rattle.lq_solving.specs.Stores.{names_in};
ghost use Rattle.lq_solving.specs.Kept.{OptionStands, StandsIn};
ghost use Rattle.lq_solving.specs.ElabFaults.{Elab};
ghost use Rattle.lq_solving.specs.Elaboration.{Found as TreeFound};
ghost use Rattle.lq_evars.specs.Places.{store_of};
ghost use Rattle.lq_elab.specs.Waiting.{Leads, asked_work, waiting};
ghost use Rattle.lq_elab.specs.Views.{asked_tree};
ghost use Rattle.lq_elab.specs.Entering.{body_under, part_under, rest_part, spot_under, RestStands};
ghost use Rattle.lq_elab.specs.Frames.{spot_of, waits, weights};
ghost use Rattle.lq_elab.specs.States.{IsState, TurnStands, site_of, turn_work, due};

use crate::binding::entered;
use crate::frames::{Bound, Frame, Frames, Part};
use crate::scope::Scope;
use crate::sites::Site;
use crate::turns::Turn;
use crate::views::Asked;
use lq_evars::Store;
use lq_terms::{Bank, Context, NameId, NoMemory, TermId, open};
use lq_trees::Sort;

/// Whose rest stands under a binder.
#[derive(Clone, Copy)]
pub(crate) enum Under {
    /// That of a product, whose domain has this sort.
    Product(Sort),
    /// That of a function.
    Function,
    /// That of a local definition with this value.
    Definition(TermId),
}

/// The body of the hypothesis for the binder's variable.
pub(crate) fn body_of(under: Under) -> Option<TermId>
    ensures { result ≡ body_under under }
{
    match under {
        Under::Product(_) | Under::Function => None,
        Under::Definition(value) => Some(value),
    }
}

/// What waits for the rest.
fn part_of<'t>(under: Under, bound: Bound) -> Part<'t>
    ensures { result ≡ part_under under bound }
{
    match under {
        Under::Product(sort) => Part::ProductRest(bound, sort),
        Under::Function => Part::FunctionRest(bound),
        Under::Definition(value) => Part::DefinitionRest(bound, value),
    }
}

/// What stands below one binder with a hypothesis for its variable, if there is such a term.
fn opened_if(
    bank: &mut Bank<'_>,
    rest: Option<TermId>,
    name: NameId,
) -> Result<Option<TermId>, NoMemory>
    requires rest { HasBody bank.old rest }
    requires name { HasName bank.old name }
    ensures opened { IfOk result (λ o. option_map (tree_of bank.new) o ≡ option_map (opened (text_of bank.old name)) (option_map (tree_of bank.old) rest)) }
    ensures has { IfOk result (HasBody bank.new) }
    ensures grows { Grows bank.old bank.new }
{
    match rest {
        Some(rest) => {
            let term = open(bank, rest, name)?;
            Ok(Some(term))
        }
        None => Ok(None),
    }
}

/// Goes under a binder, and asks for the rest: with what is wanted of it, below the binder too, where something is.
pub(crate) fn descended<'t>(
    bank: &mut Bank<'_>,
    site: &Site<'_>,
    store: &Store,
    context: &mut Context,
    scope: &mut Scope,
    frames: &mut Frames<'t>,
    under: Under,
    binder: NameId,
    kind: TermId,
    wanted: Option<TermId>,
    rest: Asked<'t>,
    wanted_rest: Option<TermId>,
) -> Result<Turn<'t>, NoMemory>
    requires state { IsState bank.old site.now store.now context.old scope.old frames.old }
    requires binder { HasName bank.old binder }
    requires body { HasBody bank.old (body_under under) }
    requires body_stands { OptionStands (store_of bank.old store.now) (names_in (context_of bank.old context.old))
        (option_map (tree_of bank.old) (body_under under)) }
    requires kind { HasTerm bank.old kind }
    requires kind_stands { StandsIn (store_of bank.old store.now) (context_of bank.old context.old) (tree_of bank.old kind) }
    requires wanted { HasBody bank.old wanted }
    requires wanted_stands { OptionStands (store_of bank.old store.now) (names_in (context_of bank.old context.old)) (option_map (tree_of bank.old) wanted) }
    requires wanted_rest { HasBody bank.old wanted_rest }
    requires rest_stands { RestStands (store_of bank.old store.now) (names_in (context_of bank.old context.old)) (option_map (tree_of bank.old) wanted_rest) }
    ensures state { OnOk result (IsState bank.new site.now store.now context.new scope.new frames.new) }
    ensures stands { IfOk result (TurnStands bank.new store.now context.new) }
    ensures goes { (f : ℕ → Elab TreeFound) (budget left : ℕ) → Leads f (asked_work (site_of bank.old site.now)
        (waiting (spot_of bank.old context.old frames.old) (option_map (tree_of bank.old) wanted) (rest_part bank.old under (text_of bank.old binder)
        (fresh (context_of bank.old context.old) (text_of bank.old binder)) (tree_of bank.old kind)) ∷ waits bank.old context.old frames.old)
        (spot_under bank.old (spot_of bank.old context.old frames.old) under (text_of bank.old binder)
        (fresh (context_of bank.old context.old) (text_of bank.old binder)) (tree_of bank.old kind))
        (store_of bank.old store.now) (asked_tree rest.entry)
        (option_map (opened (fresh (context_of bank.old context.old) (text_of bank.old binder))) (option_map (tree_of bank.old) wanted_rest))) budget left
        → IfOk result (λ t. Leads f (turn_work bank.new site.now store.now context.new frames.new t) budget left) }
    ensures falls { IfOk result (λ t. weights frames.new + due t ≤ 2 + weights frames.old) }
    ensures grows { Grows bank.old bank.new }
{
    let bound = entered(
        bank,
        site,
        store,
        context,
        scope,
        frames,
        binder,
        body_of(under),
        kind,
    )?;
    let first = opened_if(bank, wanted_rest, bound.hypothesis)?;
    frames.push(Frame {
        part: part_of(under, bound),
        wanted,
    })?;
    Ok(Turn::Ask(rest, first))
}
