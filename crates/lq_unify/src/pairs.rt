//! Pairs of terms that are to be unified.

ghost use Rattle.std.specs.Prelude.{◌≡◌, length, map, option_map, IfOk, IfSome};
ghost use Rattle.std.specs.List.{AllByRecursion};
ghost use Rattle.lq_trees.specs.Tree.{Name, Tree, Context, Hypothesis as TreeHypothesis};
ghost use Rattle.lq_trees.specs.Fresh.{fresh, opened};
ghost use Rattle.lq_terms.specs.Contexts.{HasContext, HasBody, context_of};
ghost use Rattle.lq_terms.specs.Terms.{HasName, HasTerm, text_of, tree_of, Grows};
ghost use Rattle.lq_solving.specs.Unification.{parts_of};
ghost use Rattle.lq_unify.specs.Pairs.{pairs_in, HasPair, IsUnder};

use lq_terms::{Bank, Hypothesis, NameId, NoMemory, TermId, name_under, open};

/// Two terms that are to be unified.
#[derive(Clone, Copy)]
pub(crate) struct Pair {
    pub(crate) left: TermId,
    pub(crate) right: TermId,
}

/// Two terms that are to be unified under a binder, and the hypothesis that stands for the binder's variable.
#[derive(Clone, Copy)]
pub(crate) struct Under {
    pub(crate) variable: Hypothesis,
    pub(crate) pair: Pair,
}

/// Terms pairwise, if there are as many on both sides.
pub(crate) fn pairs_of(
    bank: &Bank<'_>,
    left: &[TermId],
    right: &[TermId],
) -> Result<Option<Vec<Pair>>, NoMemory>
    requires left { AllByRecursion (HasTerm bank.now) left.now }
    requires right { AllByRecursion (HasTerm bank.now) right.now }
    ensures are { (g : Context) → IfOk result (λ o. option_map (λ ps. pairs_in bank.now g ps.items) o
        ≡ parts_of g (map (tree_of bank.now) left.now) (map (tree_of bank.now) right.now)) }
    ensures has { IfOk result (λ o. IfSome o (λ ps. AllByRecursion (HasPair bank.now) ps.items)) }
{
    if left.len() != right.len() {
        return Ok(None);
    }
    let mut pairs = Vec::new(bank.allocator());
    for i in 0..left.len() {
        pairs.push(Pair {
            left: left[i],
            right: right[i],
        })?;
    }
    Ok(Some(pairs))
}

/// What is under two binders, where the hypothesis that stands for their variable is made from the first one.
pub(crate) fn opened_under(
    bank: &mut Bank<'_>,
    context: &[Hypothesis],
    binder: NameId,
    body: Option<TermId>,
    kind: TermId,
    pair: Pair,
) -> Result<Under, NoMemory>
    requires context { HasContext bank.old context.now }
    requires binder { HasName bank.old binder }
    requires body { HasBody bank.old body }
    requires kind { HasTerm bank.old kind }
    requires pair { HasPair bank.old pair }
    ensures under { IfOk result (λ u. IsUnder bank.new u
        (record {
          name = fresh (context_of bank.old context.now) (text_of bank.old binder);
          body = option_map (tree_of bank.old) body;
          kind = tree_of bank.old kind;
        })
        (opened (fresh (context_of bank.old context.now) (text_of bank.old binder)) (tree_of bank.old pair.left))
        (opened (fresh (context_of bank.old context.now) (text_of bank.old binder)) (tree_of bank.old pair.right))) }
    ensures grows { Grows bank.old bank.new }
{
    let name = name_under(bank, context, binder)?;
    let left = open(bank, pair.left, name)?;
    let right = open(bank, pair.right, name)?;
    Ok(Under {
        variable: Hypothesis { name, body, kind },
        pair: Pair { left, right },
    })
}
