//! The outermost scope: the hypotheses of the goal, and the Ltac values that hide them.

ghost use Rattle.std.specs.Prelude.{◌≡◌, [], Some, IfOk, OnOk};
ghost use Rattle.std.specs.List.{AllByRecursion};
ghost use Rattle.lq_terms.specs.Contexts.{HasContext, context_of};
ghost use Rattle.lq_elab.specs.Frames.{spot_of};
ghost use Rattle.lq_elab.specs.Naming.{meaning, meaning_of_value};
ghost use Rattle.lq_elab.specs.Scopes.{IsScope, HasMeaning, meaning_of};
ghost use Rattle.lq_elab.specs.Starting.{named_hypothesis, named_value, not_global};
ghost use Rattle.lq_elab.specs.States.{HasGiven, given_of, givens_of, site_of};

use crate::scope::{Meaning, Scope};
use crate::sites::{Given, Site};
use lq_terms::{Bank, Hypothesis, NameId, NoMemory};

/// The hypotheses of a context by name. Of equal names the first counts.
fn hypotheses_of(bank: &Bank<'_>, context: &[Hypothesis]) -> Result<Scope, NoMemory>
    requires { HasContext bank.now context.now }
    ensures { IfOk result (IsScope bank.now (named_hypothesis (context_of bank.now context.now))) }
{
    let mut scope = Scope::new(bank.allocator());
    for i in (0..context.len()).rev() {
        let meaning = Meaning::Variable(context[i].name, context[i].kind);
        scope.add(bank, context[i].name, meaning)?;
    }
    Ok(scope)
}

/// Nothing in place of a global.
fn or_nothing(meaning: Meaning) -> Meaning
    ensures { result ≡ not_global meaning }
{
    match meaning {
        Meaning::Global => Meaning::Nothing,
        known => known,
    }
}

/// What an Ltac value stands for, by the hypotheses of the goal.
fn meaning_given(
    bank: &Bank<'_>,
    hypotheses: &Scope,
    context: &[Hypothesis],
    value: (NameId, Given),
) -> Meaning
    requires hypotheses { IsScope bank.now (named_hypothesis (context_of bank.now context.now)) hypotheses.now }
    requires value { HasGiven bank.now value }
    ensures is { meaning_of bank.now result ≡ Some (meaning_of_value (context_of bank.now context.now) (given_of bank.now value.1)) }
    ensures has { HasMeaning bank.now result }
{
    let _context = context;
    match value.1 {
        Given::Term(term) => Meaning::Value(term),
        Given::Name(name) => or_nothing(hypotheses.get(bank, name)),
        Given::Other => Meaning::NoTerm,
    }
}

/// The Ltac values over the hypotheses. Of equal names the first counts, and each hides the hypothesis of its name.
fn values_set(
    bank: &Bank<'_>,
    hypotheses: &Scope,
    scope: &mut Scope,
    context: &[Hypothesis],
    values: &[(NameId, Given)],
) -> Result<(), NoMemory>
    requires hypotheses { IsScope bank.now (named_hypothesis (context_of bank.now context.now)) hypotheses.now }
    requires scope { IsScope bank.now (named_hypothesis (context_of bank.now context.now)) scope.old }
    requires values { AllByRecursion (HasGiven bank.now) values.now }
    ensures { OnOk result (IsScope bank.now (named_value (context_of bank.now context.now) (givens_of bank.now values.now)) scope.new) }
{
    for i in (0..values.len()).rev() {
        let meaning = meaning_given(bank, hypotheses, context, values[i]);
        scope.add(bank, values[i].0, meaning)?;
    }
    Ok(())
}

/// What names stand for outermost. It takes time in proportion to the hypotheses and the values.
pub(crate) fn outermost(bank: &Bank<'_>, site: &Site<'_>) -> Result<Scope, NoMemory>
    requires outer { HasContext bank.now site.now.outer.now }
    requires values { AllByRecursion (HasGiven bank.now) site.now.values.now }
    ensures { IfOk result (IsScope bank.now (meaning (site_of bank.now site.now) (spot_of bank.now site.now.outer.now []))) }
{
    let context = site.outer.hypotheses();
    let known = hypotheses_of(bank, context)?;
    let mut scope = hypotheses_of(bank, context)?;
    values_set(bank, &known, &mut scope, context, site.values)?;
    Ok(scope)
}
