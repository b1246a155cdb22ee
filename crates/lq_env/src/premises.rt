//! The premises of generated eliminators.

ghost use Rattle.std.specs.Prelude.{◌≡◌, ◌≤◌, ◌<◌, ◌+◌, ◌-◌, suc, [], ◌∷◌, ◌++◌, length, map, slice_get, IfOk, OnOk, IfErr, Some};
ghost use Rattle.std.specs.List.{AllByRecursion};
ghost use Rattle.lq_trees.specs.Tree.{Tree};
ghost use Rattle.lq_trees.specs.Change.{fill};
ghost use Rattle.lq_trees.specs.Size.{size};
ghost use Rattle.lq_trees.specs.Index.{Within};
ghost use Rattle.lq_terms.specs.Terms.{HasName, HasTerm, IsTerm, Grows, tree_of, text_of};
ghost use Rattle.lq_terms.specs.Changes.{variables_at};
ghost use Rattle.lq_calculus.specs.Contraction.{apply};
ghost use Rattle.lq_calculus.specs.Declarations.{own, premise, variables};
ghost use Rattle.lq_env.specs.Families.{IsFamily, HasFamily, family_of};
ghost use Rattle.lq_env.specs.Building.{Builds, HasBinder, binders_of};
ghost use Rattle.lq_env.specs.Telescopes.{span};
ghost use Rattle.lq_env.specs.Computing.{AreWithin, AreSmall};
ghost use Rattle.lq_env.specs.Premises.{AreBelow, IsDraft, Overflows, Advances, RefusesAt, end_by, so_far, hypothesis_at, with_recursive};

use crate::eliminators::{apply_each, apply_hypotheses, apply_node, apply_places};
use crate::family::{EnvFault, Family};
use crate::positivity::own;
use crate::telescopes::{Binder, telescope};
use lq_terms::{Bank, NameId, NoMemory, Node, TermId, measure, spread};
use lq_trees::MOST_NODES;

/// A premise as far as it is built.
#[derive(Drop)]
pub(crate) struct Draft {
    /// The constructor's arguments, and behind each recursive one its hypothesis, the outermost first.
    pub(crate) binders: Vec<Binder>,
    /// Where the binder of each argument stands among them, the outermost first.
    pub(crate) places: Vec<u32>,
    /// How many nodes the binders have.
    pub(crate) nodes: u64,
}

/// One more binder.
pub(crate) fn push_binder(
    bank: &Bank<'_>,
    draft: &mut Draft,
    binder: Binder,
) -> Result<(), EnvFault>
    requires draft { IsDraft bank.now draft.old }
    requires binder { HasBinder bank.now binder }
    ensures binders { OnOk result (draft.new.binders.items ≡ draft.old.binders.items ++ binder ∷ []) }
    ensures places { OnOk result (draft.new.places.items ≡ draft.old.places.items) }
    ensures draft { OnOk result (IsDraft bank.now draft.new) }
    ensures refused { IfErr result (λ e. Overflows e (span (binders_of bank.now draft.old.binders.items) + 1 + size (tree_of bank.now binder.kind))) }
{
    let nodes = draft.nodes + 1 + measure(bank, binder.kind).size;
    if nodes > MOST_NODES {
        return Err(EnvFault::TooLarge);
    }
    let Ok(()) = draft.binders.push(binder) else {
        return Err(EnvFault::NoMemory);
    };
    draft.nodes = nodes;
    Ok(())
}

/// The binder of an argument: the variables of the arguments before it move to where their binders stand.
fn add_argument(
    bank: &mut Bank<'_>,
    draft: &mut Draft,
    name: NameId,
    kind: TermId,
) -> Result<(), EnvFault>
    requires draft { IsDraft bank.old draft.old }
    requires name { HasName bank.old name }
    requires kind { HasTerm bank.old kind }
    requires within { Within (length draft.old.places.items) (tree_of bank.old kind) }
    requires small { size (tree_of bank.old kind) ≤ 1000000 }
    ensures binders { OnOk result (binders_of bank.new draft.new.binders.items ≡ binders_of bank.old draft.old.binders.items ++
        (text_of bank.old name, fill (variables_at (length draft.old.binders.items) draft.old.places.items) 0 (tree_of bank.old kind)) ∷ []) }
    ensures places { OnOk result (draft.new.places.items ≡ draft.old.places.items ++ length draft.old.binders.items ∷ []) }
    ensures draft { OnOk result (IsDraft bank.new draft.new) }
    ensures refused { IfErr result (λ e. Overflows e (span (binders_of bank.old draft.old.binders.items) + 1 + size (tree_of bank.old kind))) }
    ensures grows { Grows bank.old bank.new }
{
    let place = draft.binders.len() as u32;
    let kind = spread(bank, kind, &draft.places, place)?;
    if let Err(fault) = push_binder(bank, draft, Binder { name, kind }) {
        return Err(fault);
    }
    let Ok(()) = draft.places.push(place) else {
        return Err(EnvFault::NoMemory);
    };
    Ok(())
}

/// The predicate, which is that bound variable, at terms whose bound variables move.
fn predicate_at(
    bank: &mut Bank<'_>,
    predicate: u32,
    terms: &[TermId],
    places: &[u32],
    inside: u32,
) -> Result<TermId, NoMemory>
    requires terms { AllByRecursion (HasTerm bank.old) terms.now }
    requires within { AreWithin bank.old (length places.now) terms.now }
    requires small { AreSmall bank.old terms.now }
    requires places { AreBelow inside places.now }
    requires few { inside ≤ 1000001 }
    ensures made { IfOk result (λ t. IsTerm bank.new t (apply (Tree.Rel predicate)
        (map (fill (variables_at inside places.now) 0) (map (tree_of bank.old) terms.now)))) }
    ensures grows { Grows bank.old bank.new }
{
    let head = bank.make(Node::Rel(predicate))?;
    apply_each(bank, head, terms, places, inside)
}

/// The hypothesis behind a recursive argument: the predicate at the indices of its type and at it.
fn hypothesis(
    bank: &mut Bank<'_>,
    number: u32,
    indices: &[TermId],
    places: &[u32],
    inside: u32,
) -> Result<TermId, NoMemory>
    requires indices { AllByRecursion (HasTerm bank.old) indices.now }
    requires within { AreWithin bank.old (length places.now) indices.now }
    requires small { AreSmall bank.old indices.now }
    requires places { AreBelow inside places.now }
    requires few { inside ≤ 1000001 }
    requires number { number ≤ 1000000 }
    ensures made { IfOk result (λ t. IsTerm bank.new t (hypothesis_at number inside places.now (map (tree_of bank.old) indices.now))) }
    ensures grows { Grows bank.old bank.new }
{
    let predicate = predicate_at(bank, number + inside, indices, places, inside)?;
    apply_node(bank, predicate, Node::Rel(0))
}

/// A constructor of the family applied to its parameters, which stand as hypotheses, and to its arguments.
fn constructed(
    bank: &mut Bank<'_>,
    family: &Family,
    number: u32,
    places: &[u32],
    inside: u32,
) -> Result<TermId, NoMemory>
    requires { HasFamily bank.old family.now }
    ensures made { IfOk result (λ t. IsTerm bank.new t (apply (apply (Tree.Ctor (family_of bank.old family.now).name number)
        (variables (family_of bank.old family.now).parameters)) (map (λ p. Tree.Rel (inside - suc p)) places.now))) }
    ensures grows { Grows bank.old bank.new }
{
    let head = bank.make(Node::Ctor(family.name, number))?;
    let applied = apply_hypotheses(bank, head, family.parameters.hypotheses())?;
    apply_places(bank, applied, places, inside)
}

/// The binders of a recursive argument and of the hypothesis behind it.
fn add_recursive(
    bank: &mut Bank<'_>,
    draft: &mut Draft,
    number: u32,
    name: NameId,
    kind: TermId,
    indices: &[TermId],
) -> Result<(), EnvFault>
    requires draft { IsDraft bank.old draft.old }
    requires name { HasName bank.old name }
    requires kind { HasTerm bank.old kind }
    requires within { Within (length draft.old.places.items) (tree_of bank.old kind) }
    requires small { size (tree_of bank.old kind) ≤ 1000000 }
    requires number { number ≤ 1000000 }
    requires indices { AllByRecursion (HasTerm bank.old) indices.now }
    requires indices_within { AreWithin bank.old (length draft.old.places.items) indices.now }
    requires indices_small { AreSmall bank.old indices.now }
    ensures binders { OnOk result (binders_of bank.new draft.new.binders.items ≡ with_recursive number (binders_of bank.old draft.old.binders.items)
        draft.old.places.items (text_of bank.old name) (tree_of bank.old kind) (map (tree_of bank.old) indices.now)) }
    ensures places { OnOk result (draft.new.places.items ≡ draft.old.places.items ++ length draft.old.binders.items ∷ []) }
    ensures draft { OnOk result (IsDraft bank.new draft.new) }
    ensures refused { IfErr result (λ e. Overflows e (span (with_recursive number (binders_of bank.old draft.old.binders.items) draft.old.places.items
        (text_of bank.old name) (tree_of bank.old kind) (map (tree_of bank.old) indices.now)))) }
    ensures grows { Grows bank.old bank.new }
{
    let inside = draft.binders.len() as u32 + 1;
    let hypothesis = hypothesis(bank, number, indices, &draft.places, inside)?;
    let unnamed = bank.name("")?;
    if let Err(fault) = add_argument(bank, draft, name, kind) {
        return Err(fault);
    }
    push_binder(
        bank,
        draft,
        Binder {
            name: unnamed,
            kind: hypothesis,
        },
    )
}

/// The binders of one argument: a recursive one is followed by its hypothesis.
fn add(
    bank: &mut Bank<'_>,
    family: &Family,
    draft: &mut Draft,
    number: u32,
    name: NameId,
    kind: TermId,
) -> Result<(), EnvFault>
    requires family { HasFamily bank.old family.now }
    requires draft { IsDraft bank.old draft.old }
    requires name { HasName bank.old name }
    requires kind { HasTerm bank.old kind }
    requires within { Within (length draft.old.places.items) (tree_of bank.old kind) }
    requires small { size (tree_of bank.old kind) ≤ 1000000 }
    requires number { number ≤ 1000000 }
    ensures advanced { OnOk result (Advances (family_of bank.old family.now) number (binders_of bank.old draft.old.binders.items) draft.old.places.items
        (text_of bank.old name) (tree_of bank.old kind) (binders_of bank.new draft.new.binders.items) draft.new.places.items) }
    ensures places { OnOk result (draft.new.places.items ≡ draft.old.places.items ++ length draft.old.binders.items ∷ []) }
    ensures draft { OnOk result (IsDraft bank.new draft.new) }
    ensures refused { IfErr result (RefusesAt (family_of bank.old family.now) number (binders_of bank.old draft.old.binders.items) draft.old.places.items
        (text_of bank.old name) (tree_of bank.old kind)) }
    ensures grows { Grows bank.old bank.new }
{
    let Some(indices) = own(bank, family, kind)? else {
        return add_argument(bank, draft, name, kind);
    };
    add_recursive(bank, draft, number, name, kind, &indices)
}

/// The end of a premise: the predicate at the indices of the constructor's result, and at the constructor with its arguments.
fn finish(
    bank: &mut Bank<'_>,
    family: &Family,
    draft: &Draft,
    number: u32,
    rest: TermId,
) -> Result<TermId, NoMemory>
    requires family { HasFamily bank.old family.now }
    requires draft { IsDraft bank.old draft.now }
    requires rest { HasTerm bank.old rest }
    requires within { Within (length draft.now.places.items) (tree_of bank.old rest) }
    requires small { size (tree_of bank.old rest) ≤ 1000000 }
    requires number { number ≤ 1000000 }
    ensures made { IfOk result (λ t. IsTerm bank.new t (end_by (family_of bank.old family.now) number (Tree.Rel (number + length draft.now.binders.items))
        (variables_at (length draft.now.binders.items) draft.now.places.items) (tree_of bank.old rest)
        (own (family_of bank.old family.now) (tree_of bank.old rest)))) }
    ensures grows { Grows bank.old bank.new }
{
    let Some(indices) = own(bank, family, rest)? else {
        return Ok(rest);
    };
    let inside = draft.binders.len() as u32;
    let predicate = predicate_at(bank, number + inside, &indices, &draft.places, inside)?;
    let constructed = constructed(bank, family, number, &draft.places, inside)?;
    bank.make(Node::App(predicate, constructed))
}

/// The premise of a constructor, by its number, counted from 0, and its type: the product of its arguments, where each recursive
/// one is followed by a hypothesis that the predicate holds of it, into the predicate of the result. It is refused as too large
/// exactly where it has more than 1,000,000 nodes.
pub(crate) fn premise(
    bank: &mut Bank<'_>,
    family: &Family,
    number: u32,
    kind: TermId,
) -> Result<TermId, EnvFault>
    requires family { HasFamily bank.old family.now }
    requires kind { HasTerm bank.old kind }
    requires within { Within 0 (tree_of bank.old kind) }
    requires small { size (tree_of bank.old kind) ≤ 1000000 }
    requires number { number ≤ 1000000 }
    ensures answer { Builds bank.new result (premise (family_of bank.old family.now) number (Tree.Rel number) [] (tree_of bank.old kind)) }
    ensures grows { Grows bank.old bank.new }
{
    let mut draft = Draft {
        binders: Vec::new(bank.allocator()),
        places: Vec::new(bank.allocator()),
        nodes: 0,
    };
    let mut rest = kind;
    while let Node::Prod(name, argument, body) = bank.node(rest) {
        let name = *name;
        let argument = *argument;
        rest = *body;
        if let Err(fault) = add(bank, family, &mut draft, number, name, argument) {
            return Err(fault);
        }
    }
    let end = finish(bank, family, &draft, number, rest)?;
    if draft.nodes + measure(bank, end).size > MOST_NODES {
        return Err(EnvFault::TooLarge);
    }
    let whole = telescope(bank, &draft.binders, end)?;
    Ok(whole)
}
