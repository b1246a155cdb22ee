//! The types of generated eliminators.

ghost use Rattle.std.specs.Prelude.{◌≡◌, ◌≤◌, ◌<◌, ◌+◌, ◌-◌, suc, [], ◌∷◌, ◌++◌, length, map, IfOk, OnOk, codes};
ghost use Rattle.std.specs.List.{AllByRecursion};
ghost use Rattle.lq_trees.specs.Tree.{Tree};
ghost use Rattle.lq_trees.specs.Change.{fill};
ghost use Rattle.lq_trees.specs.Size.{size};
ghost use Rattle.lq_trees.specs.Index.{Within, highest, last_index};
ghost use Rattle.lq_terms.specs.Terms.{HasName, HasTerm, HasParts, IsTerm, Grows, node_tree, tree_of, text_of};
ghost use Rattle.lq_terms.specs.Changes.{variables_at};
ghost use Rattle.lq_terms.specs.Contexts.{HasContext, context_of};
ghost use Rattle.lq_calculus.specs.Contraction.{apply};
ghost use Rattle.lq_calculus.specs.Declarations.{variables, instance_of, predicate_type, conclusion};
ghost use Rattle.lq_env.specs.Families.{IsFamily, HasFamily, family_of};
ghost use Rattle.lq_env.specs.Building.{Builds};
ghost use Rattle.lq_env.specs.Computing.{AreWithin, AreSmall};
ghost use Rattle.lq_env.specs.Premises.{AreBelow};

use crate::family::{EnvFault, Family};
use crate::telescopes::products;
use lq_terms::{Bank, Hypothesis, NoMemory, Node, TermId, spread};
use lq_trees::Sort;

/// A function applied to the term of a node.
pub(crate) fn apply_node(
    bank: &mut Bank<'_>,
    function: TermId,
    argument: Node,
) -> Result<TermId, NoMemory>
    requires function { HasTerm bank.old function }
    requires argument { HasParts bank.old argument }
    ensures made { IfOk result (λ t. IsTerm bank.new t (Tree.App (tree_of bank.old function) (node_tree bank.old argument))) }
    ensures grows { Grows bank.old bank.new }
{
    let argument = bank.make(argument)?;
    bank.make(Node::App(function, argument))
}

/// A function applied to the hypotheses of a context, in order.
pub(crate) fn apply_hypotheses(
    bank: &mut Bank<'_>,
    function: TermId,
    context: &[Hypothesis],
) -> Result<TermId, NoMemory>
    requires function { HasTerm bank.old function }
    requires context { HasContext bank.old context.now }
    ensures made { IfOk result (λ t. IsTerm bank.new t (apply (tree_of bank.old function) (variables (context_of bank.old context.now)))) }
    ensures grows { Grows bank.old bank.new }
{
    let mut whole = function;
    for hypothesis in context {
        whole = apply_node(bank, whole, Node::Var(hypothesis.name))?;
    }
    Ok(whole)
}

/// A function applied to the bound variables of binders, in order: each has its place among so many.
pub(crate) fn apply_places(
    bank: &mut Bank<'_>,
    function: TermId,
    places: &[u32],
    inside: u32,
) -> Result<TermId, NoMemory>
    requires { HasTerm bank.old function }
    ensures made { IfOk result (λ t. IsTerm bank.new t (apply (tree_of bank.old function) (map (λ p. Tree.Rel (inside - suc p)) places.now))) }
    ensures grows { Grows bank.old bank.new }
{
    let mut whole = function;
    for place in places {
        let index = inside.saturating_sub(1).saturating_sub(*place);
        whole = apply_node(bank, whole, Node::Rel(index))?;
    }
    Ok(whole)
}

/// A function applied to a term whose bound variables move.
fn apply_moved(
    bank: &mut Bank<'_>,
    function: TermId,
    term: TermId,
    places: &[u32],
    inside: u32,
) -> Result<TermId, NoMemory>
    requires function { HasTerm bank.old function }
    requires term { HasTerm bank.old term }
    requires index { highest (fill (variables_at inside places.now) 0 (tree_of bank.old term)) ≤ last_index }
    ensures made { IfOk result (λ t. IsTerm bank.new t (Tree.App (tree_of bank.old function)
        (fill (variables_at inside places.now) 0 (tree_of bank.old term)))) }
    ensures grows { Grows bank.old bank.new }
{
    let moved = spread(bank, term, places, inside)?;
    bank.make(Node::App(function, moved))
}

/// A function applied to terms whose bound variables move.
pub(crate) fn apply_each(
    bank: &mut Bank<'_>,
    function: TermId,
    terms: &[TermId],
    places: &[u32],
    inside: u32,
) -> Result<TermId, NoMemory>
    requires function { HasTerm bank.old function }
    requires terms { AllByRecursion (HasTerm bank.old) terms.now }
    requires within { AreWithin bank.old (length places.now) terms.now }
    requires small { AreSmall bank.old terms.now }
    requires places { AreBelow inside places.now }
    requires few { inside ≤ 1000001 }
    ensures made { IfOk result (λ t. IsTerm bank.new t (apply (tree_of bank.old function)
        (map (fill (variables_at inside places.now) 0) (map (tree_of bank.old) terms.now)))) }
    ensures grows { Grows bank.old bank.new }
{
    let mut whole = function;
    for i in 0..terms.len() {
        whole = apply_moved(bank, whole, terms[i], places, inside)?;
    }
    Ok(whole)
}

/// The family applied to its parameters and indices, which stand as hypotheses.
fn instance(bank: &mut Bank<'_>, family: &Family) -> Result<TermId, NoMemory>
    requires { HasFamily bank.old family.now }
    ensures made { IfOk result (λ t. IsTerm bank.new t (instance_of (family_of bank.old family.now) (variables (family_of bank.old family.now).indices))) }
    ensures grows { Grows bank.old bank.new }
{
    let head = bank.make(Node::Ind(family.name))?;
    let applied = apply_hypotheses(bank, head, family.parameters.hypotheses())?;
    apply_hypotheses(bank, applied, family.indices.hypotheses())
}

/// The product without a name from a domain into a sort.
fn into_sort(bank: &mut Bank<'_>, domain: TermId, sort: Sort) -> Result<TermId, NoMemory>
    requires { HasTerm bank.old domain }
    ensures made { IfOk result (λ t. IsTerm bank.new t (Tree.Prod [] (tree_of bank.old domain) (Tree.Sort sort))) }
    ensures grows { Grows bank.old bank.new }
{
    let sort = bank.make(Node::Sort(sort))?;
    let unnamed = bank.name("")?;
    bank.make(Node::Prod(unnamed, domain, sort))
}

/// The type of the predicate of an eliminator into a sort.
pub(crate) fn predicate(
    bank: &mut Bank<'_>,
    family: &Family,
    sort: Sort,
) -> Result<TermId, EnvFault>
    requires { IsFamily bank.old family.now }
    ensures answer { Builds bank.new result (predicate_type (family_of bank.old family.now) sort) }
    ensures grows { Grows bank.old bank.new }
{
    let instance = instance(bank, family)?;
    let end = into_sort(bank, instance, sort)?;
    products(bank, family.indices.hypotheses(), end)
}

/// The product over `z` of a domain, into a predicate, which is that bound variable, at hypotheses and at `z`.
fn at_scrutinee(
    bank: &mut Bank<'_>,
    domain: TermId,
    predicate: u32,
    context: &[Hypothesis],
) -> Result<TermId, NoMemory>
    requires domain { HasTerm bank.old domain }
    requires context { HasContext bank.old context.now }
    ensures made { IfOk result (λ t. IsTerm bank.new t (Tree.Prod (codes "z") (tree_of bank.old domain)
        (Tree.App (apply (Tree.Rel predicate) (variables (context_of bank.old context.now))) (Tree.Rel 0)))) }
    ensures grows { Grows bank.old bank.new }
{
    let head = bank.make(Node::Rel(predicate))?;
    let applied = apply_hypotheses(bank, head, context)?;
    let body = apply_node(bank, applied, Node::Rel(0))?;
    let name = bank.name("z")?;
    bank.make(Node::Prod(name, domain, body))
}

/// The conclusion of an eliminator: for the indices and each `z` of the family at them, the predicate, which stands outside the premises.
pub(crate) fn conclude(bank: &mut Bank<'_>, family: &Family) -> Result<TermId, EnvFault>
    requires family { IsFamily bank.old family.now }
    requires constructors { length family.now.constructors ≤ 1000000 }
    requires indices { length family.now.indices ≤ 1000000 }
    ensures answer { Builds bank.new result (conclusion (family_of bank.old family.now) (Tree.Rel (length family.now.constructors))) }
    ensures grows { Grows bank.old bank.new }
{
    let instance = instance(bank, family)?;
    let indices = family.indices.hypotheses();
    let outside = family.constructors.constructors().len() + 1 + indices.len();
    let end = at_scrutinee(bank, instance, outside as u32, indices)?;
    products(bank, indices, end)
}
