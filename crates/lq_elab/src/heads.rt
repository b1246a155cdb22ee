//! Nodes that have parts, once their tick is paid: the part that comes first is asked for, and the rest of the node waits.

ghost use Rattle.std.specs.Prelude.{◌≡◌, ◌<◌, ◌+◌, ◌*◌, ◌≤◌, ◌∷◌, ℕ, true, length, map, None, option_map, IfOk, IfErr, OnOk};
ghost use Rattle.lq_terms.specs.Terms.{HasName, tree_of, text_of, Grows};
ghost use Rattle.lq_terms.specs.Contexts.{HasBody, context_of};
ghost use Rattle.lq_ast.specs.Plain.{plain, plain_domain, name_of};
ghost use Rattle.lq_solving.specs.Stores.{names_in};
ghost use Rattle.lq_solving.specs.Kept.{OptionStands};
ghost use Rattle.lq_solving.specs.ElabFaults.{Elab};
ghost use Rattle.lq_solving.specs.Elaboration.{Found as TreeFound};
ghost use Rattle.lq_evars.specs.Places.{store_of};
ghost use Rattle.lq_elab.specs.Arguments.{ticks};
ghost use Rattle.lq_elab.specs.Waiting.{Leads, asked_work, waiting, applied_function, function_domain};
ghost use Rattle.lq_elab.specs.Views.{asked_tree, head_domain, row_tree};
ghost use Rattle.lq_elab.specs.Nodes.{head_work, definition_work};
ghost use Rattle.lq_elab.specs.Frames.{HasPart, HasPair, PartStands, ProductStands, IsOutside, pair_of, part_of, spot_of, waits, weight_of, weights};
ghost use Rattle.lq_elab.specs.States.{IsState, TurnStands, Goes, site_of, due};

use crate::asking::waited;
use crate::frames::{Frames, Part};
use crate::scope::Scope;
use crate::sites::Site;
use crate::turns::Turn;
use crate::views::{Asked, Head, Row};
use lq_ast::{Domain, Surface};
use lq_evars::Store;
use lq_terms::{Bank, Context, NameId, Steps, TermId, Ticks, Work};
use lq_typing::ElabFault;
use std::sync::ledger::Ledger;

/// A part is asked for first, with the type that is wanted of it, and the rest of the term waits.
pub(crate) fn begun<'t>(
    bank: &Bank<'_>,
    site: &Site<'_>,
    store: &Store,
    context: &Context,
    scope: &Scope,
    frames: &mut Frames<'t>,
    part: Part<'t>,
    wanted: Option<TermId>,
    asked: Asked<'t>,
    first: Option<TermId>,
) -> Result<Turn<'t>, ElabFault>
    requires state { IsState bank.now site.now store.now context.now scope.now frames.old }
    requires wanted { HasBody bank.now wanted }
    requires wanted_stands { OptionStands (store_of bank.now store.now) (names_in (context_of bank.now context.now)) (option_map (tree_of bank.now) wanted) }
    requires part { HasPart bank.now part }
    requires part_stands { PartStands (store_of bank.now store.now) (names_in (context_of bank.now context.now)) (part_of bank.now part) }
    requires outside { IsOutside part }
    requires first { HasBody bank.now first }
    requires first_stands { OptionStands (store_of bank.now store.now) (names_in (context_of bank.now context.now)) (option_map (tree_of bank.now) first) }
    ensures state { OnOk result (IsState bank.now site.now store.now context.now scope.now frames.new) }
    ensures stands { IfOk result (TurnStands bank.now store.now context.now) }
    ensures goes { (f : ℕ → Elab TreeFound) (budget left : ℕ) → Leads f (asked_work (site_of bank.now site.now)
        (waiting (spot_of bank.now context.now frames.old) (option_map (tree_of bank.now) wanted) (part_of bank.now part.entry) ∷ waits bank.now context.now frames.old)
        (spot_of bank.now context.now frames.old) (store_of bank.now store.now) (asked_tree asked.entry) (option_map (tree_of bank.now) first)) budget left
        → Goes bank.now site.now store.now context.now frames.new result f budget left }
    ensures falls { IfOk result (λ t. weights frames.new + due t ≤ weight_of part.entry + weights frames.old) }
{
    match waited(
        bank, site, store, context, scope, frames, part, wanted, asked, first,
    ) {
        Ok(turn) => Ok(turn),
        Err(_) => Err(ElabFault::NoMemory),
    }
}

/// A local definition: its type is asked for if one is written, else its value.
pub(crate) fn definition_asked<'t>(
    bank: &Bank<'_>,
    site: &Site<'_>,
    store: &Store,
    context: &Context,
    scope: &Scope,
    frames: &mut Frames<'t>,
    binder: NameId,
    kind: &'t Domain,
    value: &'t Surface,
    rest: &'t Surface,
    wanted: Option<TermId>,
) -> Result<Turn<'t>, ElabFault>
    requires state { IsState bank.now site.now store.now context.now scope.now frames.old }
    requires wanted { HasBody bank.now wanted }
    requires wanted_stands { OptionStands (store_of bank.now store.now) (names_in (context_of bank.now context.now)) (option_map (tree_of bank.now) wanted) }
    requires binder { HasName bank.now binder }
    ensures state { OnOk result (IsState bank.now site.now store.now context.now scope.now frames.new) }
    ensures stands { IfOk result (TurnStands bank.now store.now context.now) }
    ensures goes { (f : ℕ → Elab TreeFound) (budget left : ℕ) → Leads f (definition_work (site_of bank.now site.now) (waits bank.now context.now frames.old)
        (spot_of bank.now context.now frames.old) (store_of bank.now store.now) (option_map (tree_of bank.now) wanted)
        (text_of bank.now binder) (plain_domain kind.now) (plain value.now) (plain rest.now)) budget left
        → Goes bank.now site.now store.now context.now frames.new result f budget left }
    ensures falls { IfOk result (λ t. weights frames.new + due t ≤ 2 + weights frames.old) }
{
    match kind {
        Domain::Written(kind) => begun(
            bank,
            site,
            store,
            context,
            scope,
            frames,
            Part::DefinitionKind(binder, value, rest),
            wanted,
            Asked::Term(kind.get()),
            None,
        ),
        Domain::Missing(_) => begun(
            bank,
            site,
            store,
            context,
            scope,
            frames,
            Part::DefinitionValue(binder, None, rest),
            wanted,
            Asked::Term(value),
            None,
        ),
    }
}

/// Pays so many ticks.
fn pay_each<L: Ledger>(
    ticks: &mut Ticks,
    count: usize,
    steps: &mut Steps<L>,
) -> Result<(), ElabFault>
    ensures paid { OnOk result (count + ticks.new.left ≡ ticks.old.left) }
    ensures out { IfErr result (λ e. (e ≡ ElabFault.StepsOut) × (ticks.old.left < count) × (ticks.new.left ≡ 0)) }
    ensures budget { ticks.new.left + ticks.new.spent ≡ ticks.old.left + ticks.old.spent }
    ensures counted { steps.new + ticks.old.spent ≡ steps.old + ticks.new.spent }
{
    let mut due = count;
    'each: while due > 0 {
        if !ticks.take(steps) {
            return Err(ElabFault::StepsOut);
        }
        due -= 1;
    }
    Ok(())
}

/// An application: a tick for each further argument, then the function is asked for.
pub(crate) fn application_asked<'t, L: Ledger>(
    work: &mut Work<'_, '_>,
    site: &Site<'_>,
    store: &Store,
    context: &Context,
    scope: &Scope,
    frames: &mut Frames<'t>,
    function: &'t Surface,
    argument: &'t Surface,
    others: &'t [Surface],
    wanted: Option<TermId>,
    steps: &mut Steps<L>,
) -> Result<Turn<'t>, ElabFault>
    requires state { IsState work.old.bank.now site.now store.now context.now scope.now frames.old }
    requires wanted { HasBody work.old.bank.now wanted }
    requires wanted_stands { OptionStands (store_of work.old.bank.now store.now) (names_in (context_of work.old.bank.now context.now))
        (option_map (tree_of work.old.bank.now) wanted) }
    ensures state { OnOk result (IsState work.new.bank.now site.now store.now context.now scope.now frames.new) }
    ensures stands { IfOk result (TurnStands work.new.bank.now store.now context.now) }
    ensures goes { (f : ℕ → Elab TreeFound) (budget : ℕ) → Leads f (λ n. ticks (length others.now) (asked_work (site_of work.old.bank.now site.now)
        (waiting (spot_of work.old.bank.now context.now frames.old) (option_map (tree_of work.old.bank.now) wanted)
        (applied_function (plain argument.now) (map plain others.now)) ∷ waits work.old.bank.now context.now frames.old)
        (spot_of work.old.bank.now context.now frames.old) (store_of work.old.bank.now store.now) (plain function.now) None n)) budget work.old.ticks.now.left
        → Goes work.new.bank.now site.now store.now context.now frames.new result f budget work.new.ticks.now.left }
    ensures falls { IfOk result (λ t. weights frames.new + due t + 4 * work.new.ticks.now.left ≤ 3 + weights frames.old + 4 * work.old.ticks.now.left) }
    ensures same { work.new.bank.now ≡ work.old.bank.now }
    ensures same_bank { work.new.bank.ghost_name ≡ work.old.bank.ghost_name }
    ensures same_ticks { work.new.ticks.ghost_name ≡ work.old.ticks.ghost_name }
    ensures budget { work.new.ticks.now.left + work.new.ticks.now.spent ≡ work.old.ticks.now.left + work.old.ticks.now.spent }
    ensures counted { steps.new + work.old.ticks.now.spent ≡ steps.old + work.new.ticks.now.spent }
{
    match pay_each(work.ticks, others.len(), steps) {
        Ok(()) => begun(
            work.bank,
            site,
            store,
            context,
            scope,
            frames,
            Part::Function(argument, others),
            wanted,
            Asked::Term(function),
            None,
        ),
        Err(fault) => Err(fault),
    }
}

/// A product: the type of its binder is asked for; it must be written.
pub(crate) fn product_asked<'t>(
    bank: &Bank<'_>,
    site: &Site<'_>,
    store: &Store,
    context: &Context,
    scope: &Scope,
    frames: &mut Frames<'t>,
    head: Head<'t>,
    binder: NameId,
    wanted: Option<TermId>,
) -> Result<Turn<'t>, ElabFault>
    requires state { IsState bank.now site.now store.now context.now scope.now frames.old }
    requires wanted { HasBody bank.now wanted }
    requires wanted_stands { OptionStands (store_of bank.now store.now) (names_in (context_of bank.now context.now)) (option_map (tree_of bank.now) wanted) }
    requires binder { HasName bank.now binder }
    ensures state { OnOk result (IsState bank.now site.now store.now context.now scope.now frames.new) }
    ensures stands { IfOk result (TurnStands bank.now store.now context.now) }
    ensures goes { (f : ℕ → Elab TreeFound) (budget left : ℕ) → Leads f (head_work (site_of bank.now site.now) (waits bank.now context.now frames.old)
        (spot_of bank.now context.now frames.old) (store_of bank.now store.now) (option_map (tree_of bank.now) wanted)
        true (text_of bank.now binder) (head_domain head.entry) (row_tree head.entry.rest)) budget left
        → Goes bank.now site.now store.now context.now frames.new result f budget left }
    ensures falls { IfOk result (λ t. weights frames.new + due t ≤ 2 + weights frames.old) }
{
    match head.kind {
        Some(kind) => begun(
            bank,
            site,
            store,
            context,
            scope,
            frames,
            Part::ProductDomain(binder, Asked::Row(head.rest)),
            wanted,
            Asked::Term(kind),
            None,
        ),
        None => Err(ElabFault::CannotInfer(head.binder.place)),
    }
}

/// A function whose binder has a type: that is asked for, once the product that is wanted is known, if one is.
pub(crate) fn typed_asked<'t>(
    bank: &Bank<'_>,
    site: &Site<'_>,
    store: &Store,
    context: &Context,
    scope: &Scope,
    frames: &mut Frames<'t>,
    rest: Row<'t>,
    binder: NameId,
    kind: &'t Surface,
    parts: Option<(TermId, TermId)>,
    wanted: Option<TermId>,
) -> Result<Turn<'t>, ElabFault>
    requires state { IsState bank.now site.now store.now context.now scope.now frames.old }
    requires wanted { HasBody bank.now wanted }
    requires wanted_stands { OptionStands (store_of bank.now store.now) (names_in (context_of bank.now context.now)) (option_map (tree_of bank.now) wanted) }
    requires binder { HasName bank.now binder }
    requires parts { HasPair bank.now parts }
    requires parts_stand { ProductStands (store_of bank.now store.now) (names_in (context_of bank.now context.now)) (option_map (pair_of bank.now) parts) }
    ensures state { OnOk result (IsState bank.now site.now store.now context.now scope.now frames.new) }
    ensures stands { IfOk result (TurnStands bank.now store.now context.now) }
    ensures goes { (f : ℕ → Elab TreeFound) (budget left : ℕ) → Leads f (asked_work (site_of bank.now site.now)
        (waiting (spot_of bank.now context.now frames.old) (option_map (tree_of bank.now) wanted)
        (function_domain (text_of bank.now binder) (row_tree rest.entry) (option_map (pair_of bank.now) parts)) ∷ waits bank.now context.now frames.old)
        (spot_of bank.now context.now frames.old) (store_of bank.now store.now) (plain kind.now) None) budget left
        → Goes bank.now site.now store.now context.now frames.new result f budget left }
    ensures falls { IfOk result (λ t. weights frames.new + due t ≤ 2 + weights frames.old) }
{
    begun(
        bank,
        site,
        store,
        context,
        scope,
        frames,
        Part::FunctionDomain(binder, Asked::Row(rest), parts),
        wanted,
        Asked::Term(kind),
        None,
    )
}
