//! The variables of a store again.

ghost use Rattle.std.specs.Prelude.{◌≡◌, IfOk};

use crate::store::Variable;
use lq_terms::{Context, NoMemory};
use std::alloc::Global;

/// The same hypotheses again.
fn copied_context(alloc: Global, context: &Context) -> Result<Context, NoMemory>
    ensures { IfOk result (λ c. c ≡ context.now) }
{
    match Vec::from_slice(alloc, context.hypotheses()) {
        Ok(hypotheses) => Ok(Context::from_hypotheses(hypotheses)),
        Err(_) => Err(NoMemory),
    }
}

/// The same variable again.
fn copied(alloc: Global, variable: &Variable) -> Result<Variable, NoMemory>
    ensures { IfOk result (λ v. v ≡ variable.now) }
{
    let context = copied_context(alloc, &variable.context)?;
    Ok(Variable {
        context,
        kind: variable.kind,
        name: variable.name,
    })
}

/// The same variables again.
pub(crate) fn copied_all(alloc: Global, variables: &[Variable]) -> Result<Vec<Variable>, NoMemory>
    ensures { IfOk result (λ vs. vs.items ≡ variables.now) }
{
    let mut copies = Vec::new(alloc);
    for variable in variables {
        let copy = copied(alloc, variable)?;
        copies.push(copy)?;
    }
    Ok(copies)
}
