//! Products over binders, and over the hypotheses of a context.

ghost use Rattle.std.specs.Prelude.{◌≡◌, ◌≤◌, ◌<◌, ◌+◌, min, [], ◌∷◌, ◌++◌, length, map, take, drop, IfOk, OnOk};
ghost use Rattle.std.specs.List.{AllByRecursion};
ghost use Rattle.lq_trees.specs.Tree.{Tree};
ghost use Rattle.lq_trees.specs.Change.{lift};
ghost use Rattle.lq_trees.specs.Size.{size};
ghost use Rattle.lq_trees.specs.Index.{Within};
ghost use Rattle.lq_terms.specs.Terms.{HasName, HasTerm, IsTerm, Grows, tree_of, text_of};
ghost use Rattle.lq_terms.specs.Contexts.{HasContext, context_of};
ghost use Rattle.lq_calculus.specs.Declarations.{count_down, products};
ghost use Rattle.lq_env.specs.Telescopes.{telescope, binders_behind, weight_of, AreApart};
ghost use Rattle.lq_env.specs.Building.{HasBinder, binders_of, Builds, many};

use crate::family::EnvFault;
use lq_terms::{Bank, Hypothesis, NameId, NoMemory, Node, TermId, measure, put};
use lq_trees::MOST_NODES;

/// A binder and its type.
#[derive(Clone, Copy)]
pub(crate) struct Binder {
    /// Its name.
    pub(crate) name: NameId,
    /// Its type.
    pub(crate) kind: TermId,
}

/// The products over binders, the outermost first.
pub(crate) fn telescope(
    bank: &mut Bank<'_>,
    binders: &[Binder],
    end: TermId,
) -> Result<TermId, NoMemory>
    requires binders { AllByRecursion (HasBinder bank.old) binders.now }
    requires end { HasTerm bank.old end }
    ensures made { IfOk result (λ t. IsTerm bank.new t (telescope (binders_of bank.old binders.now) (tree_of bank.old end))) }
    ensures grows { Grows bank.old bank.new }
{
    let mut whole = end;
    let mut left = binders.len();
    while left > 0 {
        left -= 1;
        let binder = binders[left];
        whole = bank.make(Node::Prod(binder.name, binder.kind, whole))?;
    }
    Ok(whole)
}

/// Bound variables for so many binders outside, the last one the nearest.
pub(crate) fn count_down(bank: &mut Bank<'_>, count: usize) -> Result<Vec<TermId>, NoMemory>
    requires { count ≤ 1000000 }
    ensures trees { IfOk result (λ ts. map (tree_of bank.new) ts.items ≡ count_down count) }
    ensures has { IfOk result (λ ts. AllByRecursion (HasTerm bank.new) ts.items) }
    ensures grows { Grows bank.old bank.new }
{
    let mut variables = Vec::new(bank.allocator());
    let mut left = count;
    while left > 0 {
        left -= 1;
        let variable = bank.make(Node::Rel(left as u32))?;
        variables.push(variable)?;
    }
    Ok(variables)
}

/// How many nodes the binders of a context have, counted up to 1,000,001.
pub(crate) fn context_nodes(bank: &Bank<'_>, context: &[Hypothesis]) -> u64
    requires { HasContext bank.now context.now }
    ensures { result ≡ min (weight_of (context_of bank.now context.now)) 1000001 }
{
    let mut nodes = 0u64;
    for hypothesis in context {
        nodes = (nodes + 1 + measure(bank, hypothesis.kind).size).min(MOST_NODES + 1);
    }
    nodes
}

/// The binders of a context, each hypothesis in a type being the bound variable that it is there.
pub(crate) fn close_kinds(
    bank: &mut Bank<'_>,
    context: &[Hypothesis],
    variables: &[TermId],
) -> Result<Vec<Binder>, NoMemory>
    requires context { HasContext bank.old context.now }
    requires apart { AreApart (context_of bank.old context.now) }
    requires small { weight_of (context_of bank.old context.now) ≤ 1000000 }
    requires variables { AllByRecursion (HasTerm bank.old) variables.now }
    requires trees { map (tree_of bank.old) variables.now ≡ count_down (length context.now) }
    ensures closed { IfOk result (λ bs. binders_of bank.new bs.items ≡ binders_behind [] (context_of bank.old context.now)) }
    ensures has { IfOk result (λ bs. AllByRecursion (HasBinder bank.new) bs.items) }
    ensures grows { Grows bank.old bank.new }
{
    let mut binders = Vec::new(bank.allocator());
    let count = context.len();
    for i in 0..count {
        let hypothesis = context[i];
        let before = &context[..i];
        let places = &variables[count - i..];
        let kind = put(bank, hypothesis.kind, 0, before, places)?;
        binders.push(Binder {
            name: hypothesis.name,
            kind,
        })?;
    }
    Ok(binders)
}

/// The products over a context, the oldest hypothesis outermost: the end stands under all of them.
pub(crate) fn products(
    bank: &mut Bank<'_>,
    context: &[Hypothesis],
    end: TermId,
) -> Result<TermId, EnvFault>
    requires context { HasContext bank.old context.now }
    requires apart { AreApart (context_of bank.old context.now) }
    requires end { HasTerm bank.old end }
    requires within { Within many (tree_of bank.old end) }
    ensures answer { (tree : Tree) → tree_of bank.old end ≡ lift (length context.now) 0 tree
        → Builds bank.new result (products (context_of bank.old context.now) tree) }
    ensures grows { Grows bank.old bank.new }
{
    if context_nodes(bank, context) + measure(bank, end).size > MOST_NODES {
        return Err(EnvFault::TooLarge);
    }
    let variables = count_down(bank, context.len())?;
    let binders = close_kinds(bank, context, &variables)?;
    let end = put(bank, end, 0, context, &variables)?;
    let whole = telescope(bank, &binders, end)?;
    Ok(whole)
}
