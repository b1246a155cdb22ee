//! Inference, where a caller gives the types of variables. It calls itself as deep as the term is. Each call is lent one context, which is as before when it ends: under a
//! binder it has one hypothesis more.

ghost use Rattle.std.specs.Prelude.{◌≡◌, ◌+◌, ℕ, [], ◌∷◌, ◌++◌};
ghost use Rattle.lq_trees.specs.Tree.{Tree, Context as TreeContext, Hypothesis as TreeHypothesis};
ghost use Rattle.lq_trees.specs.Fresh.{opened};
ghost use Rattle.lq_terms.specs.Terms.{HasName, text_of, tree_of, Grows};
ghost use Rattle.lq_terms.specs.Contexts.{context_of, hypothesis_of};
ghost use Rattle.lq_calculus.specs.Declarations.{Env as Environment};
ghost use Rattle.lq_inference.specs.Inference.{Open, infer_by};
ghost use Rattle.lq_env.specs.Environments.{IsEnv, env_of};
ghost use Rattle.lq_kernel.specs.Answers.{Checks};
ghost use Rattle.lq_kernel.specs.Closed.{IsScoped, IsHypothesis, IsContext};
ghost use Rattle.lq_kernel.specs.Steps.{Types, Sorts, Products, sort_by, check_by, written_by, product_of, inside_of};

use crate::faults::KernelFault;
use crate::forms::{
    application_kind, as_product, as_sort, definition_kind, function_kind, head_form, matching,
    matching_written, product_sort,
};
use crate::inside::variable;
use crate::lookups::{
    constant_type, constructor_type, eliminator_type, family_type, hypothesis_type, sort_type,
};
use crate::variables::Variables;
use lq_env::Env;
use lq_terms::{Context, Hypothesis, NameId, Node, Steps, TermId, Work, open};
use lq_trees::Sort;
use std::sync::ledger::Ledger;

/// The type of a term under the hypotheses of a context, at a tick for each node before its parts.
#[cycle(typing)]
pub(crate) fn type_of<V: Variables, L: Ledger>(
    work: &mut Work<'_, '_>,
    env: &Env,
    variables: &V,
    context: &mut Context,
    term: TermId,
    steps: &mut Steps<L>,
) -> Result<TermId, KernelFault>
    requires term { IsScoped work.old.bank.now 0 term }
    requires env { IsEnv work.old.bank.now env.now }
    requires variables { V.stand variables.now work.old.bank.now }
    requires context { IsContext work.old.bank.now context.old }
    ensures answer { (o : Open) (E : Environment) (G : TreeContext) (T : Tree) → V.given variables.now work.old.bank.now ≡ o → env_of work.old.bank.now env.now ≡ E → context_of work.old.bank.now context.old ≡ G
        → tree_of work.old.bank.now term ≡ T
        → Types work.new.bank.now result (λ n. infer_by o E n G T) work.old.ticks.now.left work.new.ticks.now.left }
    ensures kept { context.new ≡ context.old }
    ensures same_bank { work.new.bank.ghost_name ≡ work.old.bank.ghost_name }
    ensures same_ticks { work.new.ticks.ghost_name ≡ work.old.ticks.ghost_name }
    ensures grows { Grows work.old.bank.now work.new.bank.now }
    ensures budget { work.new.ticks.now.left + work.new.ticks.now.spent ≡ work.old.ticks.now.left + work.old.ticks.now.spent }
    ensures counted { steps.new + work.old.ticks.now.spent ≡ steps.old + work.new.ticks.now.spent }
{
    if !work.ticks.take(steps) {
        return Err(KernelFault::StepsOut);
    }
    node_type(work, env, variables, context, term, steps)
}

/// The type of a term, whose own tick is paid.
#[cycle(typing)]
fn node_type<V: Variables, L: Ledger>(
    work: &mut Work<'_, '_>,
    env: &Env,
    variables: &V,
    context: &mut Context,
    term: TermId,
    steps: &mut Steps<L>,
) -> Result<TermId, KernelFault>
    requires term { IsScoped work.old.bank.now 0 term }
    requires env { IsEnv work.old.bank.now env.now }
    requires variables { V.stand variables.now work.old.bank.now }
    requires context { IsContext work.old.bank.now context.old }
    ensures answer { (o : Open) (E : Environment) (G : TreeContext) (T : Tree) → V.given variables.now work.old.bank.now ≡ o → env_of work.old.bank.now env.now ≡ E → context_of work.old.bank.now context.old ≡ G
        → tree_of work.old.bank.now term ≡ T
        → Types work.new.bank.now result (inside_of o E G T) work.old.ticks.now.left work.new.ticks.now.left }
    ensures kept { context.new ≡ context.old }
    ensures same_bank { work.new.bank.ghost_name ≡ work.old.bank.ghost_name }
    ensures same_ticks { work.new.ticks.ghost_name ≡ work.old.ticks.ghost_name }
    ensures grows { Grows work.old.bank.now work.new.bank.now }
    ensures budget { work.new.ticks.now.left + work.new.ticks.now.spent ≡ work.old.ticks.now.left + work.old.ticks.now.spent }
    ensures counted { steps.new + work.old.ticks.now.spent ≡ steps.old + work.new.ticks.now.spent }
{
    match work.bank.node(term) {
        Node::Rel(_) => unreachable!(),
        Node::Var(name) => hypothesis_type(work.bank, context.hypotheses(), *name),
        Node::Sort(sort) => {
            let sort = *sort;
            sort_type(work.bank, sort)
        }
        Node::Prod(binder, kind, rest) => {
            let (binder, kind, rest) = (*binder, *kind, *rest);
            product_type(work, env, variables, context, binder, kind, rest, steps)
        }
        Node::Lam(binder, kind, rest) => {
            let (binder, kind, rest) = (*binder, *kind, *rest);
            function_type(work, env, variables, context, binder, kind, rest, steps)
        }
        Node::Let(binder, value, kind, rest) => {
            let (binder, value, kind, rest) = (*binder, *value, *kind, *rest);
            definition_type(
                work, env, variables, context, binder, value, kind, rest, steps,
            )
        }
        Node::App(function, argument) => {
            let (function, argument) = (*function, *argument);
            application_type(work, env, variables, context, function, argument, steps)
        }
        Node::Const(name) => constant_type(work.bank, env, *name),
        Node::Ind(name) => family_type(work.bank, env, *name),
        Node::Ctor(name, index) => {
            let (name, index) = (*name, *index);
            constructor_type(work.bank, env, name, index)
        }
        Node::Elim(name, sort) => eliminator_type(work.bank, env, *name, *sort),
        Node::Evar(_, _) => variables.kind(work.bank, term),
    }
}

/// The sort of a term that must have one.
#[cycle(typing)]
pub(crate) fn sort_in<V: Variables, L: Ledger>(
    work: &mut Work<'_, '_>,
    env: &Env,
    variables: &V,
    context: &mut Context,
    term: TermId,
    steps: &mut Steps<L>,
) -> Result<Sort, KernelFault>
    requires term { IsScoped work.old.bank.now 0 term }
    requires env { IsEnv work.old.bank.now env.now }
    requires variables { V.stand variables.now work.old.bank.now }
    requires context { IsContext work.old.bank.now context.old }
    ensures answer { (o : Open) (E : Environment) (G : TreeContext) (T : Tree) → V.given variables.now work.old.bank.now ≡ o → env_of work.old.bank.now env.now ≡ E → context_of work.old.bank.now context.old ≡ G
        → tree_of work.old.bank.now term ≡ T
        → Sorts work.new.bank.now result (λ n. sort_by o E n G T) work.old.ticks.now.left work.new.ticks.now.left }
    ensures kept { context.new ≡ context.old }
    ensures same_bank { work.new.bank.ghost_name ≡ work.old.bank.ghost_name }
    ensures same_ticks { work.new.ticks.ghost_name ≡ work.old.ticks.ghost_name }
    ensures grows { Grows work.old.bank.now work.new.bank.now }
    ensures budget { work.new.ticks.now.left + work.new.ticks.now.spent ≡ work.old.ticks.now.left + work.old.ticks.now.spent }
    ensures counted { steps.new + work.old.ticks.now.spent ≡ steps.old + work.new.ticks.now.spent }
{
    let kind = type_of(work, env, variables, context, term, steps)?;
    let form = head_form(work, env, context, kind, steps)?;
    as_sort(work.bank, form)
}

/// The domain and the rest of the product that the type of a function must be.
#[cycle(typing)]
fn product_in<V: Variables, L: Ledger>(
    work: &mut Work<'_, '_>,
    env: &Env,
    variables: &V,
    context: &mut Context,
    term: TermId,
    steps: &mut Steps<L>,
) -> Result<(TermId, TermId), KernelFault>
    requires term { IsScoped work.old.bank.now 0 term }
    requires env { IsEnv work.old.bank.now env.now }
    requires variables { V.stand variables.now work.old.bank.now }
    requires context { IsContext work.old.bank.now context.old }
    ensures answer { (o : Open) (E : Environment) (G : TreeContext) (T : Tree) → V.given variables.now work.old.bank.now ≡ o → env_of work.old.bank.now env.now ≡ E → context_of work.old.bank.now context.old ≡ G
        → tree_of work.old.bank.now term ≡ T
        → Products work.new.bank.now result (λ n. product_of o E n G T) work.old.ticks.now.left work.new.ticks.now.left }
    ensures kept { context.new ≡ context.old }
    ensures same_bank { work.new.bank.ghost_name ≡ work.old.bank.ghost_name }
    ensures same_ticks { work.new.ticks.ghost_name ≡ work.old.ticks.ghost_name }
    ensures grows { Grows work.old.bank.now work.new.bank.now }
    ensures budget { work.new.ticks.now.left + work.new.ticks.now.spent ≡ work.old.ticks.now.left + work.old.ticks.now.spent }
    ensures counted { steps.new + work.old.ticks.now.spent ≡ steps.old + work.new.ticks.now.spent }
{
    let kind = type_of(work, env, variables, context, term, steps)?;
    let form = head_form(work, env, context, kind, steps)?;
    as_product(work.bank, form)
}

/// Refuses a term that has not the type: its own is inferred, and the two are compared.
#[cycle(typing)]
pub(crate) fn check_in<V: Variables, L: Ledger>(
    work: &mut Work<'_, '_>,
    env: &Env,
    variables: &V,
    context: &mut Context,
    term: TermId,
    wanted: TermId,
    steps: &mut Steps<L>,
) -> Result<(), KernelFault>
    requires term { IsScoped work.old.bank.now 0 term }
    requires wanted { IsScoped work.old.bank.now 0 wanted }
    requires env { IsEnv work.old.bank.now env.now }
    requires variables { V.stand variables.now work.old.bank.now }
    requires context { IsContext work.old.bank.now context.old }
    ensures answer { (o : Open) (E : Environment) (G : TreeContext) (T U : Tree) → V.given variables.now work.old.bank.now ≡ o → env_of work.old.bank.now env.now ≡ E → context_of work.old.bank.now context.old ≡ G
        → tree_of work.old.bank.now term ≡ T → tree_of work.old.bank.now wanted ≡ U
        → Checks work.new.bank.now result (λ n. check_by o E n G T U) work.old.ticks.now.left work.new.ticks.now.left }
    ensures kept { context.new ≡ context.old }
    ensures same_bank { work.new.bank.ghost_name ≡ work.old.bank.ghost_name }
    ensures same_ticks { work.new.ticks.ghost_name ≡ work.old.ticks.ghost_name }
    ensures grows { Grows work.old.bank.now work.new.bank.now }
    ensures budget { work.new.ticks.now.left + work.new.ticks.now.spent ≡ work.old.ticks.now.left + work.old.ticks.now.spent }
    ensures counted { steps.new + work.old.ticks.now.spent ≡ steps.old + work.new.ticks.now.spent }
{
    let found = type_of(work, env, variables, context, term, steps)?;
    matching(work, env, context, found, wanted, steps)
}

/// The same where the type was written.
#[cycle(typing)]
fn written_in<V: Variables, L: Ledger>(
    work: &mut Work<'_, '_>,
    env: &Env,
    variables: &V,
    context: &mut Context,
    term: TermId,
    wanted: TermId,
    steps: &mut Steps<L>,
) -> Result<(), KernelFault>
    requires term { IsScoped work.old.bank.now 0 term }
    requires wanted { IsScoped work.old.bank.now 0 wanted }
    requires env { IsEnv work.old.bank.now env.now }
    requires variables { V.stand variables.now work.old.bank.now }
    requires context { IsContext work.old.bank.now context.old }
    ensures answer { (o : Open) (E : Environment) (G : TreeContext) (T U : Tree) → V.given variables.now work.old.bank.now ≡ o → env_of work.old.bank.now env.now ≡ E → context_of work.old.bank.now context.old ≡ G
        → tree_of work.old.bank.now term ≡ T → tree_of work.old.bank.now wanted ≡ U
        → Checks work.new.bank.now result (λ n. written_by o E n G T U) work.old.ticks.now.left work.new.ticks.now.left }
    ensures kept { context.new ≡ context.old }
    ensures same_bank { work.new.bank.ghost_name ≡ work.old.bank.ghost_name }
    ensures same_ticks { work.new.ticks.ghost_name ≡ work.old.ticks.ghost_name }
    ensures grows { Grows work.old.bank.now work.new.bank.now }
    ensures budget { work.new.ticks.now.left + work.new.ticks.now.spent ≡ work.old.ticks.now.left + work.old.ticks.now.spent }
    ensures counted { steps.new + work.old.ticks.now.spent ≡ steps.old + work.new.ticks.now.spent }
{
    let found = type_of(work, env, variables, context, term, steps)?;
    matching_written(work, env, variables, context, found, wanted, steps)
}

/// The type of what stands under a binder, with that hypothesis for the binder's variable.
#[cycle(typing)]
fn type_inside<V: Variables, L: Ledger>(
    work: &mut Work<'_, '_>,
    env: &Env,
    variables: &V,
    context: &mut Context,
    variable: Hypothesis,
    rest: TermId,
    steps: &mut Steps<L>,
) -> Result<TermId, KernelFault>
    requires variable { IsHypothesis work.old.bank.now variable }
    requires rest { IsScoped work.old.bank.now 1 rest }
    requires env { IsEnv work.old.bank.now env.now }
    requires variables { V.stand variables.now work.old.bank.now }
    requires context { IsContext work.old.bank.now context.old }
    ensures answer { (o : Open) (E : Environment) (G : TreeContext) (H : TreeHypothesis) (B : Tree) → V.given variables.now work.old.bank.now ≡ o → env_of work.old.bank.now env.now ≡ E
        → context_of work.old.bank.now context.old ≡ G → hypothesis_of work.old.bank.now variable ≡ H
        → tree_of work.old.bank.now rest ≡ B → Types work.new.bank.now result (λ n. infer_by o E n (G ++ H ∷ []) (opened H.name B)) work.old.ticks.now.left
        work.new.ticks.now.left }
    ensures kept { context.new ≡ context.old }
    ensures same_bank { work.new.bank.ghost_name ≡ work.old.bank.ghost_name }
    ensures same_ticks { work.new.ticks.ghost_name ≡ work.old.ticks.ghost_name }
    ensures grows { Grows work.old.bank.now work.new.bank.now }
    ensures budget { work.new.ticks.now.left + work.new.ticks.now.spent ≡ work.old.ticks.now.left + work.old.ticks.now.spent }
    ensures counted { steps.new + work.old.ticks.now.spent ≡ steps.old + work.new.ticks.now.spent }
{
    let term = open(work.bank, rest, variable.name)?;
    context.push(variable)?;
    let kind = type_of(work, env, variables, context, term, steps);
    context.pop();
    kind
}

/// The sort of what stands under a binder, with that hypothesis for the binder's variable.
#[cycle(typing)]
fn sort_inside<V: Variables, L: Ledger>(
    work: &mut Work<'_, '_>,
    env: &Env,
    variables: &V,
    context: &mut Context,
    variable: Hypothesis,
    rest: TermId,
    steps: &mut Steps<L>,
) -> Result<Sort, KernelFault>
    requires variable { IsHypothesis work.old.bank.now variable }
    requires rest { IsScoped work.old.bank.now 1 rest }
    requires env { IsEnv work.old.bank.now env.now }
    requires variables { V.stand variables.now work.old.bank.now }
    requires context { IsContext work.old.bank.now context.old }
    ensures answer { (o : Open) (E : Environment) (G : TreeContext) (H : TreeHypothesis) (B : Tree) → V.given variables.now work.old.bank.now ≡ o → env_of work.old.bank.now env.now ≡ E
        → context_of work.old.bank.now context.old ≡ G → hypothesis_of work.old.bank.now variable ≡ H
        → tree_of work.old.bank.now rest ≡ B → Sorts work.new.bank.now result (λ n. sort_by o E n (G ++ H ∷ []) (opened H.name B)) work.old.ticks.now.left
        work.new.ticks.now.left }
    ensures kept { context.new ≡ context.old }
    ensures same_bank { work.new.bank.ghost_name ≡ work.old.bank.ghost_name }
    ensures same_ticks { work.new.ticks.ghost_name ≡ work.old.ticks.ghost_name }
    ensures grows { Grows work.old.bank.now work.new.bank.now }
    ensures budget { work.new.ticks.now.left + work.new.ticks.now.spent ≡ work.old.ticks.now.left + work.old.ticks.now.spent }
    ensures counted { steps.new + work.old.ticks.now.spent ≡ steps.old + work.new.ticks.now.spent }
{
    let term = open(work.bank, rest, variable.name)?;
    context.push(variable)?;
    let sort = sort_in(work, env, variables, context, term, steps);
    context.pop();
    sort
}

/// The type of a product: the sort of its domain and that of its rest give it.
#[cycle(typing)]
fn product_type<V: Variables, L: Ledger>(
    work: &mut Work<'_, '_>,
    env: &Env,
    variables: &V,
    context: &mut Context,
    binder: NameId,
    kind: TermId,
    rest: TermId,
    steps: &mut Steps<L>,
) -> Result<TermId, KernelFault>
    requires binder { HasName work.old.bank.now binder }
    requires kind { IsScoped work.old.bank.now 0 kind }
    requires rest { IsScoped work.old.bank.now 1 rest }
    requires env { IsEnv work.old.bank.now env.now }
    requires variables { V.stand variables.now work.old.bank.now }
    requires context { IsContext work.old.bank.now context.old }
    ensures answer { (o : Open) (E : Environment) (G : TreeContext) → V.given variables.now work.old.bank.now ≡ o → env_of work.old.bank.now env.now ≡ E → context_of work.old.bank.now context.old ≡ G
        → Types work.new.bank.now result (inside_of o E G (Tree.Prod (text_of work.old.bank.now binder) (tree_of work.old.bank.now kind)
        (tree_of work.old.bank.now rest))) work.old.ticks.now.left work.new.ticks.now.left }
    ensures kept { context.new ≡ context.old }
    ensures same_bank { work.new.bank.ghost_name ≡ work.old.bank.ghost_name }
    ensures same_ticks { work.new.ticks.ghost_name ≡ work.old.ticks.ghost_name }
    ensures grows { Grows work.old.bank.now work.new.bank.now }
    ensures budget { work.new.ticks.now.left + work.new.ticks.now.spent ≡ work.old.ticks.now.left + work.old.ticks.now.spent }
    ensures counted { steps.new + work.old.ticks.now.spent ≡ steps.old + work.new.ticks.now.spent }
{
    let domain = sort_in(work, env, variables, context, kind, steps)?;
    let variable = variable(work.bank, context, binder, None, kind)?;
    let last = sort_inside(work, env, variables, context, variable, rest, steps)?;
    Ok(work.bank.make(Node::Sort(product_sort(domain, last)))?)
}

/// The type of a function, whose domain must have a sort.
#[cycle(typing)]
fn function_type<V: Variables, L: Ledger>(
    work: &mut Work<'_, '_>,
    env: &Env,
    variables: &V,
    context: &mut Context,
    binder: NameId,
    kind: TermId,
    rest: TermId,
    steps: &mut Steps<L>,
) -> Result<TermId, KernelFault>
    requires binder { HasName work.old.bank.now binder }
    requires kind { IsScoped work.old.bank.now 0 kind }
    requires rest { IsScoped work.old.bank.now 1 rest }
    requires env { IsEnv work.old.bank.now env.now }
    requires variables { V.stand variables.now work.old.bank.now }
    requires context { IsContext work.old.bank.now context.old }
    ensures answer { (o : Open) (E : Environment) (G : TreeContext) → V.given variables.now work.old.bank.now ≡ o → env_of work.old.bank.now env.now ≡ E → context_of work.old.bank.now context.old ≡ G
        → Types work.new.bank.now result (inside_of o E G (Tree.Lam (text_of work.old.bank.now binder) (tree_of work.old.bank.now kind)
        (tree_of work.old.bank.now rest))) work.old.ticks.now.left work.new.ticks.now.left }
    ensures kept { context.new ≡ context.old }
    ensures same_bank { work.new.bank.ghost_name ≡ work.old.bank.ghost_name }
    ensures same_ticks { work.new.ticks.ghost_name ≡ work.old.ticks.ghost_name }
    ensures grows { Grows work.old.bank.now work.new.bank.now }
    ensures budget { work.new.ticks.now.left + work.new.ticks.now.spent ≡ work.old.ticks.now.left + work.old.ticks.now.spent }
    ensures counted { steps.new + work.old.ticks.now.spent ≡ steps.old + work.new.ticks.now.spent }
{
    sort_in(work, env, variables, context, kind, steps)?;
    let variable = variable(work.bank, context, binder, None, kind)?;
    let body = type_inside(work, env, variables, context, variable, rest, steps)?;
    function_kind(work.bank, binder, kind, variable.name, body)
}

/// The type of a local definition: its type must have a sort, and its value that type.
#[cycle(typing)]
fn definition_type<V: Variables, L: Ledger>(
    work: &mut Work<'_, '_>,
    env: &Env,
    variables: &V,
    context: &mut Context,
    binder: NameId,
    value: TermId,
    kind: TermId,
    rest: TermId,
    steps: &mut Steps<L>,
) -> Result<TermId, KernelFault>
    requires binder { HasName work.old.bank.now binder }
    requires value { IsScoped work.old.bank.now 0 value }
    requires kind { IsScoped work.old.bank.now 0 kind }
    requires rest { IsScoped work.old.bank.now 1 rest }
    requires env { IsEnv work.old.bank.now env.now }
    requires variables { V.stand variables.now work.old.bank.now }
    requires context { IsContext work.old.bank.now context.old }
    ensures answer { (o : Open) (E : Environment) (G : TreeContext) → V.given variables.now work.old.bank.now ≡ o → env_of work.old.bank.now env.now ≡ E → context_of work.old.bank.now context.old ≡ G
        → Types work.new.bank.now result (inside_of o E G (Tree.Let (text_of work.old.bank.now binder) (tree_of work.old.bank.now value)
        (tree_of work.old.bank.now kind) (tree_of work.old.bank.now rest))) work.old.ticks.now.left work.new.ticks.now.left }
    ensures kept { context.new ≡ context.old }
    ensures same_bank { work.new.bank.ghost_name ≡ work.old.bank.ghost_name }
    ensures same_ticks { work.new.ticks.ghost_name ≡ work.old.ticks.ghost_name }
    ensures grows { Grows work.old.bank.now work.new.bank.now }
    ensures budget { work.new.ticks.now.left + work.new.ticks.now.spent ≡ work.old.ticks.now.left + work.old.ticks.now.spent }
    ensures counted { steps.new + work.old.ticks.now.spent ≡ steps.old + work.new.ticks.now.spent }
{
    sort_in(work, env, variables, context, kind, steps)?;
    written_in(work, env, variables, context, value, kind, steps)?;
    let variable = variable(work.bank, context, binder, Some(value), kind)?;
    let body = type_inside(work, env, variables, context, variable, rest, steps)?;
    definition_kind(work.bank, value, variable.name, body)
}

/// The type of an application: that of the function must be a product, and the argument must have its domain.
#[cycle(typing)]
fn application_type<V: Variables, L: Ledger>(
    work: &mut Work<'_, '_>,
    env: &Env,
    variables: &V,
    context: &mut Context,
    function: TermId,
    argument: TermId,
    steps: &mut Steps<L>,
) -> Result<TermId, KernelFault>
    requires function { IsScoped work.old.bank.now 0 function }
    requires argument { IsScoped work.old.bank.now 0 argument }
    requires env { IsEnv work.old.bank.now env.now }
    requires variables { V.stand variables.now work.old.bank.now }
    requires context { IsContext work.old.bank.now context.old }
    ensures answer { (o : Open) (E : Environment) (G : TreeContext) → V.given variables.now work.old.bank.now ≡ o → env_of work.old.bank.now env.now ≡ E → context_of work.old.bank.now context.old ≡ G
        → Types work.new.bank.now result (inside_of o E G (Tree.App (tree_of work.old.bank.now function) (tree_of work.old.bank.now argument)))
        work.old.ticks.now.left work.new.ticks.now.left }
    ensures kept { context.new ≡ context.old }
    ensures same_bank { work.new.bank.ghost_name ≡ work.old.bank.ghost_name }
    ensures same_ticks { work.new.ticks.ghost_name ≡ work.old.ticks.ghost_name }
    ensures grows { Grows work.old.bank.now work.new.bank.now }
    ensures budget { work.new.ticks.now.left + work.new.ticks.now.spent ≡ work.old.ticks.now.left + work.old.ticks.now.spent }
    ensures counted { steps.new + work.old.ticks.now.spent ≡ steps.old + work.new.ticks.now.spent }
{
    let (domain, rest) = product_in(work, env, variables, context, function, steps)?;
    check_in(work, env, variables, context, argument, domain, steps)?;
    application_kind(work.bank, argument, rest)
}
