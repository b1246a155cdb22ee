//! Contexts that are lent, and the hypotheses that stand for bound variables.

ghost use Rattle.std.specs.Prelude.{◌≡◌, IfOk, Option, option_map};
ghost use Rattle.lq_trees.specs.Tree.{Name, Tree, Context as TreeContext};
ghost use Rattle.lq_trees.specs.Fresh.{fresh};
ghost use Rattle.lq_terms.specs.Terms.{HasName, text_of, tree_of, Grows};
ghost use Rattle.lq_terms.specs.Contexts.{context_of};
ghost use Rattle.lq_kernel.specs.Closed.{IsScoped, IsBody, IsContext};
ghost use Rattle.lq_kernel.specs.Steps.{IsVariable};

use lq_terms::{Bank, Context, Hypothesis, NameId, NoMemory, TermId, name_under};
use std::alloc::Global;

/// The same hypotheses again, to be lent to work that goes under binders.
pub(crate) fn copied(alloc: Global, context: &Context) -> Result<Context, NoMemory>
    ensures { IfOk result (λ g. g ≡ context.now) }
{
    let mut copied = Context::new(alloc);
    for hypothesis in context.hypotheses() {
        copied.push(*hypothesis)?;
    }
    Ok(copied)
}

/// The hypothesis that stands for a binder's variable of that kind, under a name that none of the context has. It is a
/// local definition if it has a body.
pub(crate) fn variable(
    bank: &mut Bank<'_>,
    context: &Context,
    binder: NameId,
    body: Option<TermId>,
    kind: TermId,
) -> Result<Hypothesis, NoMemory>
    requires context { IsContext bank.old context.now }
    requires binder { HasName bank.old binder }
    requires body { IsBody bank.old body }
    requires kind { IsScoped bank.old 0 kind }
    ensures variable { (G : TreeContext) (x : Name) (o : Option Tree) (A : Tree) → context_of bank.old context.now ≡ G → text_of bank.old binder ≡ x
        → option_map (tree_of bank.old) body ≡ o → tree_of bank.old kind ≡ A
        → IfOk result (λ h. IsVariable bank.new h (record { name = fresh G x; body = o; kind = A })) }
    ensures grows { Grows bank.old bank.new }
{
    let name = name_under(bank, context.hypotheses(), binder)?;
    Ok(Hypothesis { name, body, kind })
}
