//! Weak head forms, comparison, and limits.

ghost use Rattle.std.specs.Prelude.{◌≡◌, ◌+◌, ℕ};
ghost use Rattle.lq_trees.specs.Tree.{Name, Tree, Context as TreeContext};
ghost use Rattle.lq_trees.specs.Change.{subst, close};
ghost use Rattle.lq_trees.specs.declared.Fit.{Fit as Limit};
ghost use Rattle.lq_trees.specs.Size.{fit};
ghost use Rattle.lq_terms.specs.Terms.{HasName, HasTerm, text_of, tree_of, Grows};
ghost use Rattle.lq_terms.specs.Contexts.{context_of};
ghost use Rattle.lq_calculus.specs.Declarations.{Env as Environment, rules_of};
ghost use Rattle.lq_calculus.specs.Typing.{product_sort};
ghost use Rattle.lq_calculus.specs.Checking.{needed_form, matching, conv};
ghost use Rattle.lq_inference.specs.Inference.{Open, matching_by};
ghost use Rattle.lq_env.specs.Environments.{IsEnv, env_of};
ghost use Rattle.lq_kernel.specs.Answers.{Checks};
ghost use Rattle.lq_kernel.specs.Closed.{IsScoped, IsContext};
ghost use Rattle.lq_kernel.specs.Steps.{Types, Answers, Fitted, IsSortOr, IsProductOr};

use crate::faults::KernelFault;
use crate::variables::Variables;
use lq_env::Env;
use lq_reduce::{conv, whnf};
use lq_terms::{Bank, Context, NameId, NoBodies, Node, Steps, TermId, Work, close, fits, subst};
use lq_trees::{Fit, Sort};
use std::sync::ledger::Ledger;

/// A term, if it is within the limits.
pub(crate) fn within_limits(bank: &Bank<'_>, term: TermId) -> Result<TermId, KernelFault>
    requires { HasTerm bank.now term }
    ensures { Fitted bank.now result (tree_of bank.now term) }
{
    match fits(bank, term) {
        Fit::Fits => Ok(term),
        Fit::TooLarge => Err(KernelFault::TooLarge),
        Fit::TooDeep => Err(KernelFault::TooDeep),
    }
}

/// The weak head form that a rule needs, at a tick for each contraction.
pub(crate) fn head_form<L: Ledger>(
    work: &mut Work<'_, '_>,
    env: &Env,
    context: &Context,
    term: TermId,
    steps: &mut Steps<L>,
) -> Result<TermId, KernelFault>
    requires term { IsScoped work.old.bank.now 0 term }
    requires env { IsEnv work.old.bank.now env.now }
    requires context { IsContext work.old.bank.now context.now }
    ensures answer { (E : Environment) (G : TreeContext) (T : Tree) → env_of work.old.bank.now env.now ≡ E → context_of work.old.bank.now context.now ≡ G
        → tree_of work.old.bank.now term ≡ T
        → Types work.new.bank.now result (λ n. needed_form E n G T) work.old.ticks.now.left work.new.ticks.now.left }
    ensures same_bank { work.new.bank.ghost_name ≡ work.old.bank.ghost_name }
    ensures same_ticks { work.new.ticks.ghost_name ≡ work.old.ticks.ghost_name }
    ensures grows { Grows work.old.bank.now work.new.bank.now }
    ensures budget { work.new.ticks.now.left + work.new.ticks.now.spent ≡ work.old.ticks.now.left + work.old.ticks.now.spent }
    ensures counted { steps.new + work.old.ticks.now.spent ≡ steps.old + work.new.ticks.now.spent }
{
    work.bank.names_apart();
    env.computes();
    match whnf(work, env, &NoBodies, context, term, steps) {
        Ok(form) => Ok(form),
        Err(fault) => Err(KernelFault::from(fault)),
    }
}

/// Whether two terms compare.
fn compares<L: Ledger>(
    work: &mut Work<'_, '_>,
    env: &Env,
    context: &Context,
    found: TermId,
    wanted: TermId,
    steps: &mut Steps<L>,
) -> Result<bool, KernelFault>
    requires found { IsScoped work.old.bank.now 0 found }
    requires wanted { IsScoped work.old.bank.now 0 wanted }
    requires env { IsEnv work.old.bank.now env.now }
    requires context { IsContext work.old.bank.now context.now }
    ensures answer { (E : Environment) (G : TreeContext) (T U : Tree) → env_of work.old.bank.now env.now ≡ E → context_of work.old.bank.now context.now ≡ G
        → tree_of work.old.bank.now found ≡ T → tree_of work.old.bank.now wanted ≡ U
        → Answers work.new.bank.now result (λ n. conv (rules_of E) G n T U) work.old.ticks.now.left work.new.ticks.now.left }
    ensures same_bank { work.new.bank.ghost_name ≡ work.old.bank.ghost_name }
    ensures same_ticks { work.new.ticks.ghost_name ≡ work.old.ticks.ghost_name }
    ensures grows { Grows work.old.bank.now work.new.bank.now }
    ensures budget { work.new.ticks.now.left + work.new.ticks.now.spent ≡ work.old.ticks.now.left + work.old.ticks.now.spent }
    ensures counted { steps.new + work.old.ticks.now.spent ≡ steps.old + work.new.ticks.now.spent }
{
    work.bank.names_apart();
    env.computes();
    match conv(work, env, &NoBodies, context, found, wanted, steps) {
        Ok(same) => Ok(same),
        Err(fault) => Err(KernelFault::from(fault)),
    }
}

/// Refuses two types that do not compare.
pub(crate) fn matching<L: Ledger>(
    work: &mut Work<'_, '_>,
    env: &Env,
    context: &Context,
    found: TermId,
    wanted: TermId,
    steps: &mut Steps<L>,
) -> Result<(), KernelFault>
    requires found { IsScoped work.old.bank.now 0 found }
    requires wanted { IsScoped work.old.bank.now 0 wanted }
    requires env { IsEnv work.old.bank.now env.now }
    requires context { IsContext work.old.bank.now context.now }
    ensures answer { (E : Environment) (G : TreeContext) (T U : Tree) → env_of work.old.bank.now env.now ≡ E → context_of work.old.bank.now context.now ≡ G
        → tree_of work.old.bank.now found ≡ T → tree_of work.old.bank.now wanted ≡ U
        → Checks work.new.bank.now result (λ n. matching E n G T U) work.old.ticks.now.left work.new.ticks.now.left }
    ensures same_bank { work.new.bank.ghost_name ≡ work.old.bank.ghost_name }
    ensures same_ticks { work.new.ticks.ghost_name ≡ work.old.ticks.ghost_name }
    ensures grows { Grows work.old.bank.now work.new.bank.now }
    ensures budget { work.new.ticks.now.left + work.new.ticks.now.spent ≡ work.old.ticks.now.left + work.old.ticks.now.spent }
    ensures counted { steps.new + work.old.ticks.now.spent ≡ steps.old + work.new.ticks.now.spent }
{
    let same = compares(work, env, context, found, wanted, steps)?;
    if same {
        Ok(())
    } else {
        Err(KernelFault::Mismatch(found, wanted))
    }
}

/// Refuses a found type that does not compare with one that was written.
pub(crate) fn matching_written<V: Variables, L: Ledger>(
    work: &mut Work<'_, '_>,
    env: &Env,
    variables: &V,
    context: &Context,
    found: TermId,
    written: TermId,
    steps: &mut Steps<L>,
) -> Result<(), KernelFault>
    requires found { IsScoped work.old.bank.now 0 found }
    requires written { IsScoped work.old.bank.now 0 written }
    requires env { IsEnv work.old.bank.now env.now }
    requires variables { V.stand variables.now work.old.bank.now }
    requires context { IsContext work.old.bank.now context.now }
    ensures answer { (o : Open) (E : Environment) (G : TreeContext) (T U : Tree) → V.given variables.now work.old.bank.now ≡ o
        → env_of work.old.bank.now env.now ≡ E → context_of work.old.bank.now context.now ≡ G
        → tree_of work.old.bank.now found ≡ T → tree_of work.old.bank.now written ≡ U
        → Checks work.new.bank.now result (λ n. matching_by o E n G T U) work.old.ticks.now.left work.new.ticks.now.left }
    ensures same_bank { work.new.bank.ghost_name ≡ work.old.bank.ghost_name }
    ensures same_ticks { work.new.ticks.ghost_name ≡ work.old.ticks.ghost_name }
    ensures grows { Grows work.old.bank.now work.new.bank.now }
    ensures budget { work.new.ticks.now.left + work.new.ticks.now.spent ≡ work.old.ticks.now.left + work.old.ticks.now.spent }
    ensures counted { steps.new + work.old.ticks.now.spent ≡ steps.old + work.new.ticks.now.spent }
{
    let same = compares(work, env, context, found, written, steps)?;
    if same {
        Ok(())
    } else {
        Err(variables.differ(work.bank, found, written))
    }
}

/// A weak head form that must be a sort.
pub(crate) fn as_sort(bank: &Bank<'_>, form: TermId) -> Result<Sort, KernelFault>
    requires { HasTerm bank.now form }
    ensures { IsSortOr bank.now result form }
{
    match bank.node(form) {
        Node::Sort(sort) => Ok(*sort),
        _ => Err(KernelFault::NotASort(form)),
    }
}

/// The domain and the rest of a weak head form that must be a product.
pub(crate) fn as_product(bank: &Bank<'_>, form: TermId) -> Result<(TermId, TermId), KernelFault>
    requires { HasTerm bank.now form }
    ensures { IsProductOr bank.now result form }
{
    match bank.node(form) {
        Node::Prod(_, domain, rest) => Ok((*domain, *rest)),
        _ => Err(KernelFault::NotAProduct(form)),
    }
}

/// The sort of a product, by the sorts of its domain and its rest.
pub(crate) fn product_sort(domain: Sort, rest: Sort) -> Sort
    ensures { result ≡ product_sort domain rest }
{
    match (domain, rest) {
        (_, Sort::Base) => Sort::Base,
        (Sort::Base, Sort::Level(level)) => Sort::Level(level),
        (Sort::Level(first), Sort::Level(second)) => Sort::Level(first.max(second)),
    }
}

/// The product of a kind and the type of a function's body under a hypothesis of that name.
pub(crate) fn function_kind(
    bank: &mut Bank<'_>,
    binder: NameId,
    kind: TermId,
    name: NameId,
    body: TermId,
) -> Result<TermId, KernelFault>
    requires binder { HasName bank.old binder }
    requires kind { HasTerm bank.old kind }
    requires name { HasName bank.old name }
    requires body { IsScoped bank.old 0 body }
    requires fits { fit (tree_of bank.old body) ≡ Limit.Fits }
    ensures answer { (x y : Name) (A B : Tree) → text_of bank.old binder ≡ x → text_of bank.old name ≡ y → tree_of bank.old kind ≡ A
        → tree_of bank.old body ≡ B → Fitted bank.new result (Tree.Prod x A (close y B)) }
    ensures grows { Grows bank.old bank.new }
{
    let rest = close(bank, body, name)?;
    let product = bank.make(Node::Prod(binder, kind, rest))?;
    within_limits(bank, product)
}

/// The type of a local definition's rest under a hypothesis of that name, with the value in its place.
pub(crate) fn definition_kind(
    bank: &mut Bank<'_>,
    value: TermId,
    name: NameId,
    body: TermId,
) -> Result<TermId, KernelFault>
    requires value { IsScoped bank.old 0 value }
    requires name { HasName bank.old name }
    requires body { IsScoped bank.old 0 body }
    requires fits { fit (tree_of bank.old body) ≡ Limit.Fits }
    ensures answer { (v B : Tree) (y : Name) → tree_of bank.old value ≡ v → text_of bank.old name ≡ y → tree_of bank.old body ≡ B
        → Fitted bank.new result (subst v (close y B)) }
    ensures grows { Grows bank.old bank.new }
{
    let rest = close(bank, body, name)?;
    application_kind(bank, value, rest)
}

/// The rest of a product with the argument in the place of its variable.
pub(crate) fn application_kind(
    bank: &mut Bank<'_>,
    argument: TermId,
    rest: TermId,
) -> Result<TermId, KernelFault>
    requires argument { IsScoped bank.old 0 argument }
    requires rest { IsScoped bank.old 1 rest }
    ensures answer { (a B : Tree) → tree_of bank.old argument ≡ a → tree_of bank.old rest ≡ B → Fitted bank.new result (subst a B) }
    ensures grows { Grows bank.old bank.new }
{
    Ok(subst(bank, rest, argument)?)
}
