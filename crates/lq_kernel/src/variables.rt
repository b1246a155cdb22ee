//! What inference asks of a caller's variables.

ghost use Rattle.std.specs.Prelude.{◌≡◌, ℕ};
ghost use Rattle.lq_trees.specs.Tree.{Tree, Trees};
ghost use Rattle.lq_terms.specs.Terms.{Terms, HasTerm, tree_of, Grows};
ghost use Rattle.lq_inference.specs.Inference.{Open};
ghost use Rattle.lq_kernel.specs.Answers.{Refuses};
ghost use Rattle.lq_kernel.specs.Closed.{IsScoped};
ghost use Rattle.lq_kernel.specs.Steps.{Types, IsUnknown};

use crate::faults::KernelFault;
use lq_terms::{Bank, Node, TermId};

/// The types of variables, and the fault of a type that differs from one that was written.
pub trait Variables {
    /// What they give, over trees.
    ghost given: { Self → Terms → Open };

    /// What they need of a bank.
    ghost stand: { Self → Terms → Type 0 };

    /// The type of a variable at its instance, within the limits.
    fn kind(&self, bank: &mut Bank<'_>, variable: TermId) -> Result<TermId, KernelFault>
        requires stand { stand self.now bank.old }
        requires variable { IsScoped bank.old 0 variable }
        requires unknown { IsUnknown (tree_of bank.old variable) }
        ensures answer { (k : ℕ) (ts : Trees) (b : ℕ) → tree_of bank.old variable ≡ Tree.Evar k ts
            → Types bank.new result (λ n. (given self.now bank.old).variable k ts) b b }
        ensures grows { Grows bank.old bank.new };

    /// The fault of a type that was found and does not compare with one that was written.
    fn differ(&self, bank: &Bank<'_>, found: TermId, written: TermId) -> KernelFault
        requires stand { stand self.now bank.now }
        requires found { HasTerm bank.now found }
        requires written { HasTerm bank.now written }
        ensures { (b : ℕ) → Refuses bank.now result (λ n. (given self.now bank.now).differ (tree_of bank.now found) (tree_of bank.now written)) b b };

    /// As the bank grows, it has what they need, and they give the same.
    ghost stay: { (variables : Self) (old new : Terms) → Grows old new → stand variables old → stand variables new };

    ghost same: { (variables : Self) (old new : Terms) → Grows old new → stand variables old → given variables new ≡ given variables old };
}

/// No variable has a type.
#[derive(Clone, Copy)]
pub(crate) struct NoVariables;

impl Variables for NoVariables {
    ghost use Rattle.std.specs.Prelude.{refl};
    ghost use Rattle.lq_inference.specs.Inference.{closed};

    ghost given = { λ _ _. closed };

    ghost stand = { λ _ _. Unit {0} };

    fn kind(&self, bank: &mut Bank<'_>, variable: TermId) -> Result<TermId, KernelFault> {
        match bank.node(variable) {
            Node::Evar(index, _) => Err(KernelFault::HasVariable(*index)),
            _ => unreachable!(),
        }
    }

    fn differ(&self, _bank: &Bank<'_>, found: TermId, written: TermId) -> KernelFault {
        KernelFault::Mismatch(found, written)
    }

    ghost stay = { λ _ _ _ _ s. s };

    ghost same = { λ _ _ _ _ _. refl };
}
