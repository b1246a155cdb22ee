//! The whole types of generated eliminators.

ghost use Rattle.std.specs.Prelude.{◌≡◌, ◌≤◌, ◌<◌, ◌+◌, [], ◌∷◌, ◌++◌, length, map, codes, IfOk, OnOk, IfErr};
ghost use Rattle.std.specs.List.{AllByRecursion};
ghost use Rattle.lq_trees.specs.Tree.{Tree};
ghost use Rattle.lq_trees.specs.Size.{size};
ghost use Rattle.lq_trees.specs.Index.{Within};
ghost use Rattle.lq_terms.specs.Terms.{HasName, HasTerm, IsName, IsTerm, Grows, tree_of, text_of};
ghost use Rattle.lq_calculus.specs.Declarations.{premise, conclusion, predicate_type, elim_type};
ghost use Rattle.lq_env.specs.Families.{IsFamily, HasFamily, family_of, constructors_of, Stores};
ghost use Rattle.lq_env.specs.Building.{Builds, HasBinder, binders_of};
ghost use Rattle.lq_env.specs.Telescopes.{telescope, span};
ghost use Rattle.lq_env.specs.Computing.{AreWithinLimits};
ghost use Rattle.lq_env.specs.Premises.{IsDraft, Overflows, premise_binders, eliminator_body};

use crate::eliminators::{conclude, predicate};
use crate::family::{EnvFault, Family};
use crate::premises::{Draft, premise, push_binder};
use crate::stored::under_parameters;
use crate::telescopes::{Binder, telescope};
use lq_terms::{Bank, NameId, TermId, measure};
use lq_trees::{MOST_NODES, Sort};

/// One more premise, as a product without a name.
fn add_premise(
    bank: &mut Bank<'_>,
    family: &Family,
    draft: &mut Draft,
    unnamed: NameId,
    number: u32,
    kind: TermId,
) -> Result<(), EnvFault>
    requires family { HasFamily bank.old family.now }
    requires draft { IsDraft bank.old draft.old }
    requires unnamed { IsName bank.old unnamed [] }
    requires kind { HasTerm bank.old kind }
    requires within { Within 0 (tree_of bank.old kind) }
    requires small { size (tree_of bank.old kind) ≤ 1000000 }
    requires number { number ≤ 1000000 }
    ensures binders { OnOk result (binders_of bank.new draft.new.binders.items ≡ binders_of bank.old draft.old.binders.items ++
        ([], premise (family_of bank.old family.now) number (Tree.Rel number) [] (tree_of bank.old kind)) ∷ []) }
    ensures draft { OnOk result (IsDraft bank.new draft.new) }
    ensures refused { IfErr result (λ e. Overflows e (span (binders_of bank.old draft.old.binders.items) + 1 + size
        (premise (family_of bank.old family.now) number (Tree.Rel number) [] (tree_of bank.old kind)))) }
    ensures grows { Grows bank.old bank.new }
{
    match premise(bank, family, number, kind) {
        Ok(kind) => push_binder(
            bank,
            draft,
            Binder {
                name: unnamed,
                kind,
            },
        ),
        Err(fault) => Err(fault),
    }
}

/// The premises of a family's constructors in order, behind the predicate.
fn add_premises(
    bank: &mut Bank<'_>,
    family: &Family,
    draft: &mut Draft,
    unnamed: NameId,
) -> Result<(), EnvFault>
    requires family { IsFamily bank.old family.now }
    requires stored { AreWithinLimits (family_of bank.old family.now) }
    requires draft { IsDraft bank.old draft.old }
    requires unnamed { IsName bank.old unnamed [] }
    ensures binders { OnOk result (binders_of bank.new draft.new.binders.items ≡ binders_of bank.old draft.old.binders.items ++ premise_binders
        (family_of bank.old family.now) 0 (family_of bank.old family.now).constructors) }
    ensures draft { OnOk result (IsDraft bank.new draft.new) }
    ensures refused { IfErr result (λ e. Overflows e (span (binders_of bank.old draft.old.binders.items ++ premise_binders (family_of bank.old family.now) 0
        (family_of bank.old family.now).constructors))) }
    ensures grows { Grows bank.old bank.new }
{
    let constructors = family.constructors.constructors();
    for i in 0..constructors.len() {
        let kind = constructors[i].1;
        if let Err(fault) = add_premise(bank, family, draft, unnamed, i as u32, kind) {
            return Err(fault);
        }
    }
    Ok(())
}

/// The predicate and the premises, as binders.
fn with_premises(bank: &mut Bank<'_>, family: &Family, predicate: TermId) -> Result<Draft, EnvFault>
    requires family { IsFamily bank.old family.now }
    requires stored { AreWithinLimits (family_of bank.old family.now) }
    requires predicate { HasTerm bank.old predicate }
    ensures binders { IfOk result (λ d. binders_of bank.new d.binders.items ≡ (codes "Q", tree_of bank.old predicate) ∷ premise_binders
        (family_of bank.old family.now) 0 (family_of bank.old family.now).constructors) }
    ensures draft { IfOk result (IsDraft bank.new) }
    ensures refused { IfErr result (λ e. Overflows e (span ((codes "Q", tree_of bank.old predicate) ∷ premise_binders (family_of bank.old family.now) 0
        (family_of bank.old family.now).constructors))) }
    ensures grows { Grows bank.old bank.new }
{
    let mut draft = Draft {
        binders: Vec::new(bank.allocator()),
        places: Vec::new(bank.allocator()),
        nodes: 0,
    };
    let name = bank.name("Q")?;
    let unnamed = bank.name("")?;
    let binder = Binder {
        name,
        kind: predicate,
    };
    if let Err(fault) = push_binder(bank, &mut draft, binder) {
        return Err(fault);
    }
    if let Err(fault) = add_premises(bank, family, &mut draft, unnamed) {
        return Err(fault);
    }
    Ok(draft)
}

/// An eliminator's type under the parameters, by its binders: these, and the conclusion.
fn concluded(bank: &mut Bank<'_>, family: &Family, draft: &Draft) -> Result<TermId, EnvFault>
    requires family { IsFamily bank.old family.now }
    requires draft { IsDraft bank.old draft.now }
    requires constructors { length family.now.constructors ≤ 1000000 }
    requires indices { length family.now.indices ≤ 1000000 }
    ensures answer { Builds bank.new result (telescope (binders_of bank.old draft.now.binders.items)
        (conclusion (family_of bank.old family.now) (Tree.Rel (length family.now.constructors)))) }
    ensures grows { Grows bank.old bank.new }
{
    let end = match conclude(bank, family) {
        Ok(end) => end,
        Err(fault) => return Err(fault),
    };
    if draft.nodes + measure(bank, end).size > MOST_NODES {
        return Err(EnvFault::TooLarge);
    }
    let whole = telescope(bank, &draft.binders, end)?;
    Ok(whole)
}

/// An eliminator's type under the parameters, by the type of its predicate.
fn body(bank: &mut Bank<'_>, family: &Family, predicate: TermId) -> Result<TermId, EnvFault>
    requires family { IsFamily bank.old family.now }
    requires stored { AreWithinLimits (family_of bank.old family.now) }
    requires predicate { HasTerm bank.old predicate }
    requires indices { length family.now.indices ≤ 1000000 }
    ensures answer { Builds bank.new result (eliminator_body (family_of bank.old family.now) (tree_of bank.old predicate)) }
    ensures grows { Grows bank.old bank.new }
{
    let draft = match with_premises(bank, family, predicate) {
        Ok(draft) => draft,
        Err(fault) => return Err(fault),
    };
    concluded(bank, family, &draft)
}

/// An eliminator's type under the parameters.
fn under_predicate(bank: &mut Bank<'_>, family: &Family, sort: Sort) -> Result<TermId, EnvFault>
    requires family { IsFamily bank.old family.now }
    requires stored { AreWithinLimits (family_of bank.old family.now) }
    ensures answer { Builds bank.new result (eliminator_body (family_of bank.old family.now) (predicate_type (family_of bank.old family.now) sort)) }
    ensures grows { Grows bank.old bank.new }
{
    match predicate(bank, family, sort) {
        Ok(predicate) => body(bank, family, predicate),
        Err(fault) => Err(fault),
    }
}

/// The type of a family's eliminator into a sort: the products over the parameters, the predicate `Q`, a premise for each
/// constructor, the indices and the scrutinee `z`, into the predicate at them. It is refused as too large or too deep exactly
/// where it passes that limit.
pub(crate) fn eliminator_type(
    bank: &mut Bank<'_>,
    family: &Family,
    sort: Sort,
) -> Result<TermId, EnvFault>
    requires family { IsFamily bank.old family.now }
    requires stored { AreWithinLimits (family_of bank.old family.now) }
    ensures answer { Stores bank.new result (elim_type (family_of bank.old family.now) sort) }
    ensures grows { Grows bank.old bank.new }
{
    match under_predicate(bank, family, sort) {
        Ok(body) => under_parameters(bank, family, body),
        Err(fault) => Err(fault),
    }
}
