//! The parts of two terms by their forms, or of a variable with arguments and an application.

ghost use Rattle.std.specs.Prelude.{[], IfOk};
ghost use Rattle.lq_trees.specs.Tree.{Context};
ghost use Rattle.lq_terms.specs.Contexts.{HasContext, context_of};
ghost use Rattle.lq_terms.specs.Terms.{HasTerm, tree_of, Grows};
ghost use Rattle.lq_calculus.specs.Contraction.{spine};
ghost use Rattle.lq_solving.specs.Unification.{split_left, split_right, first_some, parts_by_form};
ghost use Rattle.lq_unify.specs.Applications.{HasApplication, application_of};
ghost use Rattle.lq_unify.specs.Forms.{FormIs};

use crate::applications::taken_apart;
use crate::forms::{Form, alone, same_form};
use crate::pairs::pairs_of;
use crate::spines::{Application, spine};
use lq_terms::{Bank, Hypothesis, NoMemory, TermId};

/// The parts of a variable with arguments on the left, and of an application with at least as many.
fn variable_left(
    bank: &mut Bank<'_>,
    left: &Application,
    right: &Application,
) -> Result<Option<Form>, NoMemory>
    requires left { HasApplication bank.old left.now }
    requires right { HasApplication bank.old right.now }
    ensures form { (g : Context) → IfOk result (λ o. FormIs bank.new g o
        (split_left g (application_of bank.old left.now) (application_of bank.old right.now))) }
    ensures grows { Grows bank.old bank.new }
{
    let Some(split) = taken_apart(bank, left, right)? else {
        return Ok(None);
    };
    let pairs = pairs_of(bank, split.variable.as_slice(), split.other.as_slice())?;
    Ok(alone(pairs))
}

/// The parts of an application, and of a variable on the right with arguments, at most as many.
fn variable_right(
    bank: &mut Bank<'_>,
    left: &Application,
    right: &Application,
) -> Result<Option<Form>, NoMemory>
    requires left { HasApplication bank.old left.now }
    requires right { HasApplication bank.old right.now }
    ensures form { (g : Context) → IfOk result (λ o. FormIs bank.new g o
        (split_right g (application_of bank.old left.now) (application_of bank.old right.now))) }
    ensures grows { Grows bank.old bank.new }
{
    let Some(split) = taken_apart(bank, right, left)? else {
        return Ok(None);
    };
    let pairs = pairs_of(bank, split.other.as_slice(), split.variable.as_slice())?;
    Ok(alone(pairs))
}

/// The parts of a variable with arguments and an application, the variable on the left or else on the right.
fn split_form(bank: &mut Bank<'_>, left: TermId, right: TermId) -> Result<Option<Form>, NoMemory>
    requires left { HasTerm bank.old left }
    requires right { HasTerm bank.old right }
    ensures form { (g : Context) → IfOk result (λ o. FormIs bank.new g o
        (first_some (split_left g (spine (tree_of bank.old left) []) (spine (tree_of bank.old right) []))
        (split_right g (spine (tree_of bank.old left) []) (spine (tree_of bank.old right) [])))) }
    ensures grows { Grows bank.old bank.new }
{
    let first = spine(bank, left)?;
    let second = spine(bank, right)?;
    if let Some(form) = variable_left(bank, &first, &second)? {
        return Ok(Some(form));
    }
    variable_right(bank, &first, &second)
}

/// The parts of two terms of one form, or of a variable with arguments and an application, their heads being read.
pub(crate) fn parts_by_form(
    bank: &mut Bank<'_>,
    context: &[Hypothesis],
    left: TermId,
    right: TermId,
) -> Result<Option<Form>, NoMemory>
    requires context { HasContext bank.old context.now }
    requires left { HasTerm bank.old left }
    requires right { HasTerm bank.old right }
    ensures form { IfOk result (λ o. FormIs bank.new (context_of bank.old context.now) o
        (parts_by_form (context_of bank.old context.now) (tree_of bank.old left) (tree_of bank.old right))) }
    ensures grows { Grows bank.old bank.new }
{
    if let Some(form) = same_form(bank, context, left, right)? {
        return Ok(Some(form));
    }
    split_form(bank, left, right)
}
