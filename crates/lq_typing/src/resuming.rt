//! What waits goes on, once a type was found.

ghost use Rattle.std.specs.Prelude.{◌≡◌, ◌≤◌, ◌<◌, ◌+◌, ◌∷◌, length, IfOk, OnOk, Result};
ghost use Rattle.lq_terms.specs.Terms.{HasName, HasTerm, Grows};
ghost use Rattle.lq_terms.specs.Contexts.{HasContext};
ghost use Rattle.lq_calculus.specs.Typing.{product_sort};
ghost use Rattle.lq_env.specs.Environments.{env_of};
ghost use Rattle.lq_kernel.specs.declared.faults.KernelFault.{KernelFault as Fault};
ghost use Rattle.lq_typing.specs.declared.waiting.Frame.{Frame as Part};
ghost use Rattle.lq_typing.specs.declared.waiting.Turn.{Turn as Next};
ghost use Rattle.lq_typing.specs.Frames.{turn_work, IsTurn, due};
ghost use Rattle.lq_typing.specs.Going.{Goes, turn_found};
ghost use Rattle.lq_typing.specs.Entering.{HasUnder, IsEntered, body_under, frame_under};
ghost use Rattle.lq_typing.specs.Sites.{IsLent};

use crate::forms::{matching, matching_written, product_form, sort_form};
use crate::kinds::{definition_kind, function_kind, rest_kind};
use crate::waiting::{Frame, Turn, Under, Waiting};
use lq_env::Env;
use lq_evars::Store;
use lq_kernel::KernelFault;
use lq_terms::{
    Bank, Context, Hypothesis, NameId, NoMemory, Node, Steps, TermId, Work, name_under, open,
};
use lq_trees::Sort;
use std::sync::ledger::Ledger;

/// The sort of a product, by the sorts of its domain and its rest.
fn product_sort(domain: Sort, rest: Sort) -> Sort
    ensures { result ≡ product_sort domain rest }
{
    match (domain, rest) {
        (_, Sort::Base) => Sort::Base,
        (Sort::Base, Sort::Level(level)) => Sort::Level(level),
        (Sort::Level(first), Sort::Level(second)) => Sort::Level(first.max(second)),
    }
}

/// The body of the hypothesis for a binder's variable.
fn body_of(under: Under) -> Option<TermId>
    ensures { result ≡ body_under under }
{
    match under {
        Under::Product(_) | Under::Function => None,
        Under::Definition(value) => Some(value),
    }
}

/// What waits for the type of the rest under a binder.
fn frame_of(under: Under, binder: NameId, name: NameId, domain: TermId) -> Frame
    ensures { result ≡ frame_under under binder name domain }
{
    match under {
        Under::Product(sort) => Frame::ProductRest(sort),
        Under::Function => Frame::FunctionRest(binder, name, domain),
        Under::Definition(value) => Frame::DefinitionRest(name, value),
    }
}

/// The type of what stands under a binder is asked for, with one hypothesis more.
fn entered(
    bank: &mut Bank<'_>,
    context: &mut Context,
    waiting: &mut Waiting,
    under: Under,
    binder: NameId,
    domain: TermId,
    rest: TermId,
) -> Result<Turn, NoMemory>
    requires context { HasContext bank.old context.old }
    requires binder { HasName bank.old binder }
    requires rest { HasTerm bank.old rest }
    ensures entered { IfOk result (IsEntered bank.old bank.new context.old context.new waiting.old waiting.new under binder domain rest) }
    ensures grows { Grows bank.old bank.new }
{
    let _count = context.hypotheses().len();
    let name = name_under(bank, context.hypotheses(), binder)?;
    let term = open(bank, rest, name)?;
    context.push(Hypothesis {
        name,
        body: body_of(under),
        kind: domain,
    })?;
    waiting.push(frame_of(under, binder, name, domain))?;
    Ok(Turn::Ask(term))
}

/// A type that was found comes next.
pub(crate) fn found(kind: Result<TermId, KernelFault>) -> Result<Turn, KernelFault>
    ensures { result ≡ turn_found kind }
{
    match kind {
        Ok(kind) => Ok(Turn::Found(kind)),
        Err(fault) => Err(fault),
    }
}

/// A product goes on, once the type of its domain was found.
fn product_domain<L: Ledger>(
    work: &mut Work<'_, '_>,
    env: &Env,
    store: &Store,
    context: &mut Context,
    waiting: &mut Waiting,
    binder: NameId,
    domain: TermId,
    rest: TermId,
    kind: TermId,
    steps: &mut Steps<L>,
) -> Result<Turn, KernelFault>
    requires lent { IsLent work.old.bank.now env.now store.now }
    requires turn { IsTurn work.old.bank.now store.now context.old (Part.ProductDomain binder domain rest ∷ waiting.old) (Next.Found kind) }
    ensures goes { Goes work.new.bank.now store.now (env_of work.old.bank.now env.now) context.new waiting.new result
        (turn_work work.old.bank.now store.now (env_of work.old.bank.now env.now) context.old (Part.ProductDomain binder domain rest ∷ waiting.old)
        (Next.Found kind)) work.old.ticks.now.left work.new.ticks.now.left }
    ensures falls { IfOk result (λ t. length waiting.new + due t < 2 + length waiting.old) }
    ensures fewer { OnOk result (work.new.ticks.now.left ≤ work.old.ticks.now.left) }
    ensures same_bank { work.new.bank.ghost_name ≡ work.old.bank.ghost_name }
    ensures same_ticks { work.new.ticks.ghost_name ≡ work.old.ticks.ghost_name }
    ensures grows { Grows work.old.bank.now work.new.bank.now }
    ensures budget { work.new.ticks.now.left + work.new.ticks.now.spent ≡ work.old.ticks.now.left + work.old.ticks.now.spent }
    ensures counted { steps.new + work.old.ticks.now.spent ≡ steps.old + work.new.ticks.now.spent }
{
    let sort = sort_form(work, env, store, context, kind, steps)?;
    let turn = entered(
        work.bank,
        context,
        waiting,
        Under::Product(sort),
        binder,
        domain,
        rest,
    )?;
    Ok(turn)
}

/// The type of a product, once that of its rest was found.
fn product_rest<L: Ledger>(
    work: &mut Work<'_, '_>,
    env: &Env,
    store: &Store,
    context: &mut Context,
    waiting: &mut Waiting,
    domain: Sort,
    kind: TermId,
    steps: &mut Steps<L>,
) -> Result<Turn, KernelFault>
    requires lent { IsLent work.old.bank.now env.now store.now }
    requires turn { IsTurn work.old.bank.now store.now context.old (Part.ProductRest domain ∷ waiting.old) (Next.Found kind) }
    ensures goes { Goes work.new.bank.now store.now (env_of work.old.bank.now env.now) context.new waiting.new result
        (turn_work work.old.bank.now store.now (env_of work.old.bank.now env.now) context.old (Part.ProductRest domain ∷ waiting.old)
        (Next.Found kind)) work.old.ticks.now.left work.new.ticks.now.left }
    ensures falls { IfOk result (λ t. length waiting.new + due t < 2 + length waiting.old) }
    ensures fewer { OnOk result (work.new.ticks.now.left ≤ work.old.ticks.now.left) }
    ensures same_bank { work.new.bank.ghost_name ≡ work.old.bank.ghost_name }
    ensures same_ticks { work.new.ticks.ghost_name ≡ work.old.ticks.ghost_name }
    ensures grows { Grows work.old.bank.now work.new.bank.now }
    ensures budget { work.new.ticks.now.left + work.new.ticks.now.spent ≡ work.old.ticks.now.left + work.old.ticks.now.spent }
    ensures counted { steps.new + work.old.ticks.now.spent ≡ steps.old + work.new.ticks.now.spent }
{
    let rest = sort_form(work, env, store, context, kind, steps)?;
    context.pop();
    let product = work.bank.make(Node::Sort(product_sort(domain, rest)))?;
    Ok(Turn::Found(product))
}

/// A function goes on, once the type of its domain was found.
fn function_domain<L: Ledger>(
    work: &mut Work<'_, '_>,
    env: &Env,
    store: &Store,
    context: &mut Context,
    waiting: &mut Waiting,
    binder: NameId,
    domain: TermId,
    rest: TermId,
    kind: TermId,
    steps: &mut Steps<L>,
) -> Result<Turn, KernelFault>
    requires lent { IsLent work.old.bank.now env.now store.now }
    requires turn { IsTurn work.old.bank.now store.now context.old (Part.FunctionDomain binder domain rest ∷ waiting.old) (Next.Found kind) }
    ensures goes { Goes work.new.bank.now store.now (env_of work.old.bank.now env.now) context.new waiting.new result
        (turn_work work.old.bank.now store.now (env_of work.old.bank.now env.now) context.old (Part.FunctionDomain binder domain rest ∷ waiting.old)
        (Next.Found kind)) work.old.ticks.now.left work.new.ticks.now.left }
    ensures falls { IfOk result (λ t. length waiting.new + due t < 2 + length waiting.old) }
    ensures fewer { OnOk result (work.new.ticks.now.left ≤ work.old.ticks.now.left) }
    ensures same_bank { work.new.bank.ghost_name ≡ work.old.bank.ghost_name }
    ensures same_ticks { work.new.ticks.ghost_name ≡ work.old.ticks.ghost_name }
    ensures grows { Grows work.old.bank.now work.new.bank.now }
    ensures budget { work.new.ticks.now.left + work.new.ticks.now.spent ≡ work.old.ticks.now.left + work.old.ticks.now.spent }
    ensures counted { steps.new + work.old.ticks.now.spent ≡ steps.old + work.new.ticks.now.spent }
{
    sort_form(work, env, store, context, kind, steps)?;
    let turn = entered(
        work.bank,
        context,
        waiting,
        Under::Function,
        binder,
        domain,
        rest,
    )?;
    Ok(turn)
}

/// The type of a function, once that of its rest was found.
fn function_rest<L: Ledger>(
    work: &mut Work<'_, '_>,
    env: &Env,
    store: &Store,
    context: &mut Context,
    waiting: &mut Waiting,
    binder: NameId,
    name: NameId,
    domain: TermId,
    kind: TermId,
    steps: &mut Steps<L>,
) -> Result<Turn, KernelFault>
    requires lent { IsLent work.old.bank.now env.now store.now }
    requires turn { IsTurn work.old.bank.now store.now context.old (Part.FunctionRest binder name domain ∷ waiting.old) (Next.Found kind) }
    ensures goes { Goes work.new.bank.now store.now (env_of work.old.bank.now env.now) context.new waiting.new result
        (turn_work work.old.bank.now store.now (env_of work.old.bank.now env.now) context.old (Part.FunctionRest binder name domain ∷ waiting.old)
        (Next.Found kind)) work.old.ticks.now.left work.new.ticks.now.left }
    ensures falls { IfOk result (λ t. length waiting.new + due t < 2 + length waiting.old) }
    ensures fewer { OnOk result (work.new.ticks.now.left ≤ work.old.ticks.now.left) }
    ensures same_bank { work.new.bank.ghost_name ≡ work.old.bank.ghost_name }
    ensures same_ticks { work.new.ticks.ghost_name ≡ work.old.ticks.ghost_name }
    ensures grows { Grows work.old.bank.now work.new.bank.now }
    ensures budget { work.new.ticks.now.left + work.new.ticks.now.spent ≡ work.old.ticks.now.left + work.old.ticks.now.spent }
    ensures counted { steps.new + work.old.ticks.now.spent ≡ steps.old + work.new.ticks.now.spent }
{
    context.pop();
    found(function_kind(work.bank, store, binder, domain, name, kind))
}

/// A local definition goes on, once the type of its type was found.
fn definition_kind_found<L: Ledger>(
    work: &mut Work<'_, '_>,
    env: &Env,
    store: &Store,
    context: &mut Context,
    waiting: &mut Waiting,
    binder: NameId,
    value: TermId,
    written: TermId,
    rest: TermId,
    kind: TermId,
    steps: &mut Steps<L>,
) -> Result<Turn, KernelFault>
    requires lent { IsLent work.old.bank.now env.now store.now }
    requires turn { IsTurn work.old.bank.now store.now context.old (Part.DefinitionKind binder value written rest ∷ waiting.old) (Next.Found kind) }
    ensures goes { Goes work.new.bank.now store.now (env_of work.old.bank.now env.now) context.new waiting.new result
        (turn_work work.old.bank.now store.now (env_of work.old.bank.now env.now) context.old (Part.DefinitionKind binder value written rest ∷ waiting.old)
        (Next.Found kind)) work.old.ticks.now.left work.new.ticks.now.left }
    ensures falls { IfOk result (λ t. length waiting.new + due t < 2 + length waiting.old) }
    ensures fewer { OnOk result (work.new.ticks.now.left ≤ work.old.ticks.now.left) }
    ensures same_bank { work.new.bank.ghost_name ≡ work.old.bank.ghost_name }
    ensures same_ticks { work.new.ticks.ghost_name ≡ work.old.ticks.ghost_name }
    ensures grows { Grows work.old.bank.now work.new.bank.now }
    ensures budget { work.new.ticks.now.left + work.new.ticks.now.spent ≡ work.old.ticks.now.left + work.old.ticks.now.spent }
    ensures counted { steps.new + work.old.ticks.now.spent ≡ steps.old + work.new.ticks.now.spent }
{
    sort_form(work, env, store, context, kind, steps)?;
    waiting.push(Frame::DefinitionValue(binder, value, written, rest))?;
    Ok(Turn::Ask(value))
}

/// A local definition goes on, once the type of its value was found.
fn definition_value<L: Ledger>(
    work: &mut Work<'_, '_>,
    env: &Env,
    store: &Store,
    context: &mut Context,
    waiting: &mut Waiting,
    binder: NameId,
    value: TermId,
    written: TermId,
    rest: TermId,
    kind: TermId,
    steps: &mut Steps<L>,
) -> Result<Turn, KernelFault>
    requires lent { IsLent work.old.bank.now env.now store.now }
    requires turn { IsTurn work.old.bank.now store.now context.old (Part.DefinitionValue binder value written rest ∷ waiting.old) (Next.Found kind) }
    ensures goes { Goes work.new.bank.now store.now (env_of work.old.bank.now env.now) context.new waiting.new result
        (turn_work work.old.bank.now store.now (env_of work.old.bank.now env.now) context.old (Part.DefinitionValue binder value written rest ∷ waiting.old)
        (Next.Found kind)) work.old.ticks.now.left work.new.ticks.now.left }
    ensures falls { IfOk result (λ t. length waiting.new + due t < 2 + length waiting.old) }
    ensures fewer { OnOk result (work.new.ticks.now.left ≤ work.old.ticks.now.left) }
    ensures same_bank { work.new.bank.ghost_name ≡ work.old.bank.ghost_name }
    ensures same_ticks { work.new.ticks.ghost_name ≡ work.old.ticks.ghost_name }
    ensures grows { Grows work.old.bank.now work.new.bank.now }
    ensures budget { work.new.ticks.now.left + work.new.ticks.now.spent ≡ work.old.ticks.now.left + work.old.ticks.now.spent }
    ensures counted { steps.new + work.old.ticks.now.spent ≡ steps.old + work.new.ticks.now.spent }
{
    matching_written(work, env, store, context, kind, written, steps)?;
    let turn = entered(
        work.bank,
        context,
        waiting,
        Under::Definition(value),
        binder,
        written,
        rest,
    )?;
    Ok(turn)
}

/// The type of a local definition, once that of its rest was found.
fn definition_rest<L: Ledger>(
    work: &mut Work<'_, '_>,
    env: &Env,
    store: &Store,
    context: &mut Context,
    waiting: &mut Waiting,
    name: NameId,
    value: TermId,
    kind: TermId,
    steps: &mut Steps<L>,
) -> Result<Turn, KernelFault>
    requires lent { IsLent work.old.bank.now env.now store.now }
    requires turn { IsTurn work.old.bank.now store.now context.old (Part.DefinitionRest name value ∷ waiting.old) (Next.Found kind) }
    ensures goes { Goes work.new.bank.now store.now (env_of work.old.bank.now env.now) context.new waiting.new result
        (turn_work work.old.bank.now store.now (env_of work.old.bank.now env.now) context.old (Part.DefinitionRest name value ∷ waiting.old)
        (Next.Found kind)) work.old.ticks.now.left work.new.ticks.now.left }
    ensures falls { IfOk result (λ t. length waiting.new + due t < 2 + length waiting.old) }
    ensures fewer { OnOk result (work.new.ticks.now.left ≤ work.old.ticks.now.left) }
    ensures same_bank { work.new.bank.ghost_name ≡ work.old.bank.ghost_name }
    ensures same_ticks { work.new.ticks.ghost_name ≡ work.old.ticks.ghost_name }
    ensures grows { Grows work.old.bank.now work.new.bank.now }
    ensures budget { work.new.ticks.now.left + work.new.ticks.now.spent ≡ work.old.ticks.now.left + work.old.ticks.now.spent }
    ensures counted { steps.new + work.old.ticks.now.spent ≡ steps.old + work.new.ticks.now.spent }
{
    context.pop();
    found(definition_kind(work.bank, store, context.hypotheses(), value, name, kind))
}

/// An application goes on, once the type of its function was found.
fn function_found<L: Ledger>(
    work: &mut Work<'_, '_>,
    env: &Env,
    store: &Store,
    context: &mut Context,
    waiting: &mut Waiting,
    argument: TermId,
    kind: TermId,
    steps: &mut Steps<L>,
) -> Result<Turn, KernelFault>
    requires lent { IsLent work.old.bank.now env.now store.now }
    requires turn { IsTurn work.old.bank.now store.now context.old (Part.Function argument ∷ waiting.old) (Next.Found kind) }
    ensures goes { Goes work.new.bank.now store.now (env_of work.old.bank.now env.now) context.new waiting.new result
        (turn_work work.old.bank.now store.now (env_of work.old.bank.now env.now) context.old (Part.Function argument ∷ waiting.old)
        (Next.Found kind)) work.old.ticks.now.left work.new.ticks.now.left }
    ensures falls { IfOk result (λ t. length waiting.new + due t < 2 + length waiting.old) }
    ensures fewer { OnOk result (work.new.ticks.now.left ≤ work.old.ticks.now.left) }
    ensures same_bank { work.new.bank.ghost_name ≡ work.old.bank.ghost_name }
    ensures same_ticks { work.new.ticks.ghost_name ≡ work.old.ticks.ghost_name }
    ensures grows { Grows work.old.bank.now work.new.bank.now }
    ensures budget { work.new.ticks.now.left + work.new.ticks.now.spent ≡ work.old.ticks.now.left + work.old.ticks.now.spent }
    ensures counted { steps.new + work.old.ticks.now.spent ≡ steps.old + work.new.ticks.now.spent }
{
    let (domain, rest) = product_form(work, env, store, context, kind, steps)?;
    waiting.push(Frame::Argument(argument, domain, rest))?;
    Ok(Turn::Ask(argument))
}

/// The type of an application, once that of its argument was found.
fn argument_found<L: Ledger>(
    work: &mut Work<'_, '_>,
    env: &Env,
    store: &Store,
    context: &mut Context,
    waiting: &mut Waiting,
    argument: TermId,
    domain: TermId,
    rest: TermId,
    kind: TermId,
    steps: &mut Steps<L>,
) -> Result<Turn, KernelFault>
    requires lent { IsLent work.old.bank.now env.now store.now }
    requires turn { IsTurn work.old.bank.now store.now context.old (Part.Argument argument domain rest ∷ waiting.old) (Next.Found kind) }
    ensures goes { Goes work.new.bank.now store.now (env_of work.old.bank.now env.now) context.new waiting.new result
        (turn_work work.old.bank.now store.now (env_of work.old.bank.now env.now) context.old (Part.Argument argument domain rest ∷ waiting.old)
        (Next.Found kind)) work.old.ticks.now.left work.new.ticks.now.left }
    ensures falls { IfOk result (λ t. length waiting.new + due t < 2 + length waiting.old) }
    ensures fewer { OnOk result (work.new.ticks.now.left ≤ work.old.ticks.now.left) }
    ensures same_bank { work.new.bank.ghost_name ≡ work.old.bank.ghost_name }
    ensures same_ticks { work.new.ticks.ghost_name ≡ work.old.ticks.ghost_name }
    ensures grows { Grows work.old.bank.now work.new.bank.now }
    ensures budget { work.new.ticks.now.left + work.new.ticks.now.spent ≡ work.old.ticks.now.left + work.old.ticks.now.spent }
    ensures counted { steps.new + work.old.ticks.now.spent ≡ steps.old + work.new.ticks.now.spent }
{
    matching(work, env, store, context, kind, domain, steps)?;
    found(rest_kind(work.bank, store, context.hypotheses(), argument, rest))
}

/// What waited nearest goes on with the type that was found.
pub(crate) fn resumed<L: Ledger>(
    work: &mut Work<'_, '_>,
    env: &Env,
    store: &Store,
    context: &mut Context,
    waiting: &mut Waiting,
    frame: Frame,
    kind: TermId,
    steps: &mut Steps<L>,
) -> Result<Turn, KernelFault>
    requires lent { IsLent work.old.bank.now env.now store.now }
    requires turn { IsTurn work.old.bank.now store.now context.old (frame ∷ waiting.old) (Next.Found kind) }
    ensures goes { Goes work.new.bank.now store.now (env_of work.old.bank.now env.now) context.new waiting.new result
        (turn_work work.old.bank.now store.now (env_of work.old.bank.now env.now) context.old (frame ∷ waiting.old)
        (Next.Found kind)) work.old.ticks.now.left work.new.ticks.now.left }
    ensures falls { IfOk result (λ t. length waiting.new + due t < 2 + length waiting.old) }
    ensures fewer { OnOk result (work.new.ticks.now.left ≤ work.old.ticks.now.left) }
    ensures same_bank { work.new.bank.ghost_name ≡ work.old.bank.ghost_name }
    ensures same_ticks { work.new.ticks.ghost_name ≡ work.old.ticks.ghost_name }
    ensures grows { Grows work.old.bank.now work.new.bank.now }
    ensures budget { work.new.ticks.now.left + work.new.ticks.now.spent ≡ work.old.ticks.now.left + work.old.ticks.now.spent }
    ensures counted { steps.new + work.old.ticks.now.spent ≡ steps.old + work.new.ticks.now.spent }
{
    match frame {
        Frame::ProductDomain(binder, domain, rest) => product_domain(
            work, env, store, context, waiting, binder, domain, rest, kind, steps,
        ),
        Frame::ProductRest(sort) => {
            product_rest(work, env, store, context, waiting, sort, kind, steps)
        }
        Frame::FunctionDomain(binder, domain, rest) => function_domain(
            work, env, store, context, waiting, binder, domain, rest, kind, steps,
        ),
        Frame::FunctionRest(binder, name, domain) => function_rest(
            work, env, store, context, waiting, binder, name, domain, kind, steps,
        ),
        Frame::DefinitionKind(binder, value, written, rest) => definition_kind_found(
            work, env, store, context, waiting, binder, value, written, rest, kind, steps,
        ),
        Frame::DefinitionValue(binder, value, written, rest) => definition_value(
            work, env, store, context, waiting, binder, value, written, rest, kind, steps,
        ),
        Frame::DefinitionRest(name, value) => {
            definition_rest(work, env, store, context, waiting, name, value, kind, steps)
        }
        Frame::Function(argument) => {
            function_found(work, env, store, context, waiting, argument, kind, steps)
        }
        Frame::Argument(argument, domain, rest) => argument_found(
            work, env, store, context, waiting, argument, domain, rest, kind, steps,
        ),
    }
}
