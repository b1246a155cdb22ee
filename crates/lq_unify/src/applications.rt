//! Parts of two applications.

ghost use Rattle.std.specs.Prelude.{◌≡◌, ◌≤◌, ◌∷◌, false, length, map, option_map, IfOk, IfSome, IfNone};
ghost use Rattle.std.specs.List.{AllByRecursion};
ghost use Rattle.lq_trees.specs.Tree.{Context};
ghost use Rattle.lq_calculus.specs.Contraction.{apply};
ghost use Rattle.lq_terms.specs.Terms.{HasTerm, tree_of, Grows};
ghost use Rattle.lq_solving.specs.Unification.{is_variable, application_parts, split_last};
ghost use Rattle.lq_unify.specs.Pairs.{pairs_in, HasPair};
ghost use Rattle.lq_unify.specs.Applications.{HasApplication, application_of, splits, IsSplit};

use crate::pairs::{Pair, pairs_of};
use crate::spines::{Application, applied};
use lq_terms::{Bank, NoMemory, Node, TermId};
use std::alloc::Global;

/// Whether a term is a variable.
fn is_variable(bank: &Bank<'_>, term: TermId) -> bool
    requires { HasTerm bank.now term }
    ensures { result ≡ is_variable (tree_of bank.now term) }
{
    match bank.node(term) {
        Node::Evar(_, _) => true,
        _ => false,
    }
}

/// A head and its arguments in one list.
fn whole(alloc: Global, head: TermId, arguments: &[TermId]) -> Result<Vec<TermId>, NoMemory>
    ensures { IfOk result (λ ts. ts.items ≡ head ∷ arguments.now) }
{
    let mut terms = Vec::new(alloc);
    terms.push(head)?;
    for argument in arguments {
        terms.push(*argument)?;
    }
    Ok(terms)
}

/// The parts of two applications whose heads are no variables: the heads, then the arguments from the left, if there are as many.
pub(crate) fn application_form(
    bank: &Bank<'_>,
    left: &Application,
    right: &Application,
) -> Result<Option<Vec<Pair>>, NoMemory>
    requires left { HasApplication bank.now left.now }
    requires right { HasApplication bank.now right.now }
    ensures are { (g : Context) → IfOk result (λ o. option_map (λ ps. pairs_in bank.now g ps.items) o
        ≡ application_parts g (application_of bank.now left.now) (application_of bank.now right.now)) }
    ensures has { IfOk result (λ o. IfSome o (λ ps. AllByRecursion (HasPair bank.now) ps.items)) }
{
    if is_variable(bank, left.head) {
        return Ok(None);
    }
    if is_variable(bank, right.head) {
        return Ok(None);
    }
    let lefts = whole(bank.allocator(), left.head, left.arguments.as_slice())?;
    let rights = whole(bank.allocator(), right.head, right.arguments.as_slice())?;
    pairs_of(bank, lefts.as_slice(), rights.as_slice())
}

/// Two lists of terms that are to be unified pairwise: that of a variable with its arguments, and that of the other side.
#[derive(Drop)]
pub(crate) struct Split {
    pub(crate) variable: Vec<TermId>,
    pub(crate) other: Vec<TermId>,
}

/// An application without its last arguments, so many, and those arguments.
fn without_last(
    bank: &mut Bank<'_>,
    application: &Application,
    count: usize,
) -> Result<Vec<TermId>, NoMemory>
    requires application { HasApplication bank.old application.now }
    requires count { count ≤ length application.now.arguments.items }
    ensures are { IfOk result (λ ts. map (tree_of bank.new) ts.items
        ≡ apply (tree_of bank.old application.now.head) (split_last count (map (tree_of bank.old) application.now.arguments.items)).0
        ∷ (split_last count (map (tree_of bank.old) application.now.arguments.items)).1) }
    ensures has { IfOk result (λ ts. AllByRecursion (HasTerm bank.new) ts.items) }
    ensures grows { Grows bank.old bank.new }
{
    let arguments = application.arguments.as_slice();
    let rest = arguments.len() - count;
    let head = applied(bank, application.head, &arguments[..rest])?;
    whole(bank.allocator(), head, &arguments[rest..])
}

/// The lists of a variable with arguments, at least one, and of an application with at least as many: the variable and its
/// arguments, and the other one without its last arguments, as many, and those.
pub(crate) fn taken_apart(
    bank: &mut Bank<'_>,
    variable: &Application,
    other: &Application,
) -> Result<Option<Split>, NoMemory>
    requires variable { HasApplication bank.old variable.now }
    requires other { HasApplication bank.old other.now }
    ensures lists { IfOk result (λ o. IfSome o (IsSplit bank.new (application_of bank.old variable.now) (application_of bank.old other.now))) }
    ensures none { IfOk result (λ o. IfNone o (splits (application_of bank.old variable.now) (application_of bank.old other.now) ≡ false)) }
    ensures grows { Grows bank.old bank.new }
{
    let count = variable.arguments.len();
    if !is_variable(bank, variable.head) {
        return Ok(None);
    }
    if count < 1 || other.arguments.len() < count {
        return Ok(None);
    }
    let other = without_last(bank, other, count)?;
    let variable = whole(
        bank.allocator(),
        variable.head,
        variable.arguments.as_slice(),
    )?;
    Ok(Some(Split { variable, other }))
}
