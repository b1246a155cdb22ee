//! The tests on a family's constructors.

ghost use Rattle.std.specs.Prelude.{◌≡◌, ◌<◌, [], ◌∷◌, length, map, option_map, take, drop, Some, IfOk, IfSome};
ghost use Rattle.std.specs.List.{AllByRecursion};
ghost use Rattle.lq_terms.specs.Terms.{HasName, HasTerm, text_of, tree_of};
ghost use Rattle.lq_terms.specs.Contexts.{HasContext, context_of};
ghost use Rattle.lq_calculus.specs.Declarations.{are_variables, own, misuse, argument_fault, result_fault, constructor_fault, constructors_fault};
ghost use Rattle.lq_env.specs.Families.{HasFamily, HasConstructor, family_of, constructors_of, IsFault, Finds};
ghost use Rattle.lq_env.specs.Spines.{is_variable, is_instance, IsOwnBy};

use crate::family::{EnvFault, Family};
use crate::spines::{any_holds, holds, spine};
use lq_terms::{Bank, Hypothesis, NameId, NoMemory, Node, TermId, measure};

/// Whether a term is the hypothesis of that name.
fn is_variable(bank: &Bank<'_>, name: NameId, term: TermId) -> bool
    requires name { HasName bank.now name }
    requires term { HasTerm bank.now term }
    ensures { result ≡ is_variable (text_of bank.now name) (tree_of bank.now term) }
{
    match bank.node(term) {
        Node::Var(other) => bank.same_name(name, *other),
        _ => false,
    }
}

/// Whether terms are the hypotheses of a context, in order.
fn are_variables(bank: &Bank<'_>, context: &[Hypothesis], terms: &[TermId]) -> bool
    requires context { HasContext bank.now context.now }
    requires terms { AllByRecursion (HasTerm bank.now) terms.now }
    ensures { result ≡ are_variables (context_of bank.now context.now) (map (tree_of bank.now) terms.now) }
{
    if context.len() != terms.len() {
        return false;
    }
    for i in 0..context.len() {
        if !is_variable(bank, context[i].name, terms[i]) {
            return false;
        }
    }
    true
}

/// Whether a head with its arguments is the family applied to exactly its parameters and to indices without it.
fn is_instance(
    bank: &Bank<'_>,
    family: &Family,
    head: TermId,
    arguments: &[TermId],
) -> Result<bool, NoMemory>
    requires family { HasFamily bank.now family.now }
    requires head { HasTerm bank.now head }
    requires arguments { AllByRecursion (HasTerm bank.now) arguments.now }
    ensures { IfOk result (λ b. b ≡ is_instance (family_of bank.now family.now) (tree_of bank.now head) (map (tree_of bank.now) arguments.now)) }
{
    let Node::Ind(name) = bank.node(head) else {
        return Ok(false);
    };
    if !bank.same_name(family.name, *name) {
        return Ok(false);
    }
    let parameters = family.parameters.hypotheses();
    let split = parameters.len().min(arguments.len());
    if !are_variables(bank, parameters, &arguments[..split]) {
        return Ok(false);
    }
    let indices = &arguments[split..];
    if indices.len() != family.indices.hypotheses().len() {
        return Ok(false);
    }
    let holds = any_holds(bank, *name, indices)?;
    Ok(!holds)
}

/// The indices of the family, where a term is the family applied to exactly its parameters and to indices without it.
pub(crate) fn own(
    bank: &Bank<'_>,
    family: &Family,
    term: TermId,
) -> Result<Option<Vec<TermId>>, NoMemory>
    requires family { HasFamily bank.now family.now }
    requires term { HasTerm bank.now term }
    ensures indices { IfOk result (λ o. option_map (λ ts. map (tree_of bank.now) ts.items) o ≡ own (family_of bank.now family.now) (tree_of bank.now term)) }
    ensures has { IfOk result (λ o. IfSome o (λ ts. AllByRecursion (HasTerm bank.now) ts.items)) }
{
    let application = spine(bank, term)?;
    let arguments = application.arguments.as_slice();
    if !is_instance(bank, family, application.head, arguments)? {
        return Ok(None);
    }
    let split = family.parameters.hypotheses().len().min(arguments.len());
    let indices = Vec::from_slice(bank.allocator(), &arguments[split..])?;
    Ok(Some(indices))
}

/// Whether a term is the family applied to exactly its parameters and to indices without it.
fn is_own(bank: &Bank<'_>, family: &Family, term: TermId) -> Result<bool, NoMemory>
    requires family { HasFamily bank.now family.now }
    requires term { HasTerm bank.now term }
    ensures { IfOk result (IsOwnBy (family_of bank.now family.now) (tree_of bank.now term)) }
{
    let application = spine(bank, term)?;
    let arguments = application.arguments.as_slice();
    let is_own = is_instance(bank, family, application.head, arguments)?;
    Ok(is_own)
}

/// The fault of an argument that holds the family and is no recursive one.
fn misuse(bank: &Bank<'_>, constructor: NameId, number: u64, kind: TermId) -> EnvFault
    requires constructor { HasName bank.now constructor }
    requires kind { HasTerm bank.now kind }
    ensures { IsFault bank.now result (Some (misuse (text_of bank.now constructor) number (tree_of bank.now kind))) }
{
    match bank.node(kind) {
        Node::Prod(_, _, _) => EnvFault::NotPositive(constructor, number),
        _ => EnvFault::NestedUse(constructor, number),
    }
}

/// The fault of an argument of a constructor, of that number, by its type.
fn argument_fault(
    bank: &Bank<'_>,
    family: &Family,
    constructor: NameId,
    number: u64,
    kind: TermId,
) -> Result<Option<EnvFault>, NoMemory>
    requires family { HasFamily bank.now family.now }
    requires constructor { HasName bank.now constructor }
    requires kind { HasTerm bank.now kind }
    ensures { IfOk result (λ o. Finds bank.now o (argument_fault (family_of bank.now family.now) (text_of bank.now constructor) number
        (tree_of bank.now kind))) }
{
    if !holds(bank, family.name, kind)? {
        return Ok(None);
    }
    if is_own(bank, family, kind)? {
        return Ok(None);
    }
    Ok(Some(misuse(bank, constructor, number, kind)))
}

/// The fault of a constructor's result.
fn result_fault(
    bank: &Bank<'_>,
    family: &Family,
    constructor: NameId,
    kind: TermId,
) -> Result<Option<EnvFault>, NoMemory>
    requires family { HasFamily bank.now family.now }
    requires constructor { HasName bank.now constructor }
    requires kind { HasTerm bank.now kind }
    ensures { IfOk result (λ o. Finds bank.now o (result_fault (family_of bank.now family.now) (text_of bank.now constructor) (tree_of bank.now kind))) }
{
    if is_own(bank, family, kind)? {
        return Ok(None);
    }
    Ok(Some(EnvFault::BadResult(constructor)))
}

/// The first fault of a constructor, by its type: its arguments in order, and then its result.
fn constructor_fault(
    bank: &Bank<'_>,
    family: &Family,
    constructor: NameId,
    kind: TermId,
) -> Result<Option<EnvFault>, NoMemory>
    requires family { HasFamily bank.now family.now }
    requires constructor { HasName bank.now constructor }
    requires kind { HasTerm bank.now kind }
    ensures { IfOk result (λ o. Finds bank.now o (constructor_fault (family_of bank.now family.now) (text_of bank.now constructor) 1 (tree_of bank.now kind))) }
{
    // a term is less than 2 to the 63 deep
    let _measure = measure(bank, kind);
    let mut rest = kind;
    let mut number = 1u64;
    while let Node::Prod(_, argument, body) = bank.node(rest) {
        if let Some(fault) = argument_fault(bank, family, constructor, number, *argument)? {
            return Ok(Some(fault));
        }
        rest = *body;
        number += 1;
    }
    result_fault(bank, family, constructor, rest)
}

/// The first fault of a family's constructors in order: each argument is the family applied to its parameters and
/// to indices without it, or does not hold the family at all, and so does each result; a fault names the
/// constructor and the number of the argument, from 1.
pub(crate) fn constructors_fault(
    bank: &Bank<'_>,
    family: &Family,
) -> Result<Option<EnvFault>, NoMemory>
    requires family { HasFamily bank.now family.now }
    ensures { IfOk result (λ o. Finds bank.now o (constructors_fault (family_of bank.now family.now) (family_of bank.now family.now).constructors)) }
{
    for constructor in family.constructors.constructors() {
        if let Some(fault) = constructor_fault(bank, family, constructor.0, constructor.1)? {
            return Ok(Some(fault));
        }
    }
    Ok(None)
}
