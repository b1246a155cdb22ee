//! No variable has a type.

use lq_kernel::{KernelFault, Variables};
use lq_terms::{Bank, Node, TermId};

/// No variable has a type.
#[derive(Clone, Copy)]
pub(crate) struct NoVariables;

impl Variables for NoVariables {
    ghost use Rattle.std.specs.Prelude.{refl};
    ghost use Rattle.lq_inference.specs.Inference.{closed};

    ghost given = { λ _ _. closed };

    ghost stand = { λ _ _. Unit {0} };

    fn kind(&self, bank: &mut Bank<'_>, variable: TermId) -> Result<TermId, KernelFault> {
        match bank.node(variable) {
            Node::Evar(index, _) => Err(KernelFault::HasVariable(*index)),
            _ => unreachable!(),
        }
    }

    fn differ(&self, _bank: &Bank<'_>, found: TermId, written: TermId) -> KernelFault {
        KernelFault::Mismatch(found, written)
    }

    ghost stay = { λ _ _ _ _ s. s };

    ghost same = { λ _ _ _ _ _. refl };
}
