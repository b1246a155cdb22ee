//! The look for strange hypotheses. It keeps its own stack.

ghost use Rattle.std.specs.Prelude.{◌≡◌, ◌+◌, ◌<◌, ◌∷◌, [], ◌++◌, map, reverse, option_map, OnOk, IfOk, IfSome};
ghost use Rattle.std.specs.List.{AllByRecursion};
ghost use Rattle.lq_trees.specs.Size.{size};
ghost use Rattle.lq_terms.specs.Terms.{HasName, HasTerm, text_of, tree_of};
ghost use Rattle.lq_terms.specs.Contexts.{context_of};
ghost use Rattle.lq_calculus.specs.Checking.{strange};
ghost use Rattle.lq_kernel.specs.Closed.{IsContext};
ghost use Rattle.lq_kernel.specs.Steps.{Knows, Looked, weight};

use crate::faults::KernelFault;
use crate::lookups::find;
use lq_terms::{Bank, Hypothesis, NameId, NoMemory, Node, TermId};

/// Two terms onto a stack, the first on top.
fn push_two(stack: &mut Vec<TermId>, first: TermId, second: TermId) -> Result<(), NoMemory>
    ensures { OnOk result (stack.new.items ≡ stack.old.items ++ second ∷ first ∷ []) }
{
    stack.push(second)?;
    stack.push(first)?;
    Ok(())
}

/// Three terms onto a stack, the first on top.
fn push_three(
    stack: &mut Vec<TermId>,
    first: TermId,
    second: TermId,
    third: TermId,
) -> Result<(), NoMemory>
    ensures { OnOk result (stack.new.items ≡ stack.old.items ++ third ∷ second ∷ first ∷ []) }
{
    stack.push(third)?;
    stack.push(second)?;
    stack.push(first)?;
    Ok(())
}

/// Terms onto a stack, the first on top.
fn push_each(stack: &mut Vec<TermId>, terms: &[TermId]) -> Result<(), NoMemory>
    ensures { OnOk result (stack.new.items ≡ stack.old.items ++ reverse terms.now) }
{
    let mut left = terms.len();
    while left > 0 {
        left -= 1;
        stack.push(terms[left])?;
    }
    Ok(())
}

/// A term's name, if it is a hypothesis that is none of the context's; else its parts go onto the stack,
/// the first on top.
fn look(
    bank: &Bank<'_>,
    hypotheses: &[Hypothesis],
    stack: &mut Vec<TermId>,
    term: TermId,
) -> Result<Option<NameId>, NoMemory>
    requires context { IsContext bank.now hypotheses.now }
    requires term { HasTerm bank.now term }
    requires stack { AllByRecursion (HasTerm bank.now) stack.old.items }
    ensures looked { IfOk result (λ o. Looked bank.now (map (λ h. h.name) (context_of bank.now hypotheses.now)) o (tree_of bank.now term) stack.old.items
        stack.new.items) }
    ensures has { OnOk result (AllByRecursion (HasTerm bank.now) stack.new.items) }
    ensures falls { OnOk result (weight (tree_of bank.now) stack.new.items < size (tree_of bank.now term) + weight (tree_of bank.now) stack.old.items) }
{
    match bank.node(term) {
        Node::Var(name) => match find(bank, hypotheses, *name) {
            Some(_) => Ok(None),
            None => Ok(Some(*name)),
        },
        Node::Prod(_, kind, rest) | Node::Lam(_, kind, rest) => {
            push_two(stack, *kind, *rest)?;
            Ok(None)
        }
        Node::Let(_, value, kind, rest) => {
            push_three(stack, *value, *kind, *rest)?;
            Ok(None)
        }
        Node::App(function, argument) => {
            push_two(stack, *function, *argument)?;
            Ok(None)
        }
        Node::Evar(_, parts) => {
            push_each(stack, parts.terms())?;
            Ok(None)
        }
        Node::Rel(_)
        | Node::Sort(_)
        | Node::Const(_)
        | Node::Ind(_)
        | Node::Ctor(..)
        | Node::Elim(..) => Ok(None),
    }
}

/// The first hypothesis of a term, in pre-order, whose name is none of the context's.
fn stranger(
    bank: &Bank<'_>,
    hypotheses: &[Hypothesis],
    term: TermId,
) -> Result<Option<NameId>, NoMemory>
    requires context { IsContext bank.now hypotheses.now }
    requires term { HasTerm bank.now term }
    ensures found { IfOk result (λ o. option_map (text_of bank.now) o ≡ strange (map (λ h. h.name) (context_of bank.now hypotheses.now))
        (tree_of bank.now term)) }
    ensures has { IfOk result (λ o. IfSome o (HasName bank.now)) }
{
    let mut stack = Vec::new(bank.allocator());
    stack.push(term)?;
    while let Some(part) = stack.pop() {
        if let Some(name) = look(bank, hypotheses, &mut stack, part)? {
            return Ok(Some(name));
        }
    }
    Ok(None)
}

/// Refuses a term with a hypothesis whose name is none of the context's: the first such.
pub(crate) fn known(
    bank: &Bank<'_>,
    hypotheses: &[Hypothesis],
    term: TermId,
) -> Result<(), KernelFault>
    requires context { IsContext bank.now hypotheses.now }
    requires term { HasTerm bank.now term }
    ensures { Knows bank.now result (map (λ h. h.name) (context_of bank.now hypotheses.now)) (tree_of bank.now term) }
{
    match stranger(bank, hypotheses, term)? {
        Some(name) => Err(KernelFault::Unbound(name)),
        None => Ok(()),
    }
}
