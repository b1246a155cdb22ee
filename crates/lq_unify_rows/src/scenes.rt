//! What changes the store and the hypotheses: `assume a : T`, `assume a : T := T`, `forget`, `variable T`, `variables N : T`,
//! `give K := T`, `link N`.

ghost use Rattle.std.specs.Prelude.{◌≡◌, IfOk};
ghost use Rattle.lq_terms.specs.Contexts.{HasAllOf, HasBody};
ghost use Rattle.lq_terms.specs.Terms.{HasTerm, Grows};
ghost use Rattle.lq_unify_rows.specs.Scenes.{IsScene};

use crate::declaring::Declared;
use crate::looks::{may_come, may_get, stands};
use crate::words::{number, parted};
use lq_evars::{Store, StoreFault};
use lq_terms::{Bank, Context, Hypothesis, Instance, NoMemory, Node, TermId};
use lq_words::{RowFault, build};
use std::alloc::Global;

/// The word for a refusal of the store.
pub(crate) fn fault_word(fault: StoreFault) -> &'static str {
    match fault {
        StoreFault::TooLarge => "too large",
        StoreFault::TooDeep => "too deep",
        StoreFault::Full => "full",
        StoreFault::NoMemory => "no memory",
    }
}

/// A body that may be there.
fn body(bank: &mut Bank<'_>, words: Option<&str>) -> Result<Option<TermId>, RowFault>
    ensures body { IfOk result (HasBody bank.new) }
    ensures grows { Grows bank.old bank.new }
{
    match words {
        Some(words) => Ok(Some(build(bank, words)?)),
        None => Ok(None),
    }
}

/// The hypothesis `NAME : T` or `NAME : T := BODY`.
#[tactic(auto, using(crate::proofs::Keeping::keeping))]
fn hypothesis(bank: &mut Bank<'_>, text: &str) -> Result<Hypothesis, RowFault>
    ensures has { IfOk result (HasAllOf bank.new) }
    ensures grows { Grows bank.old bank.new }
{
    let (name, rest) = parted(text, " : ")?;
    let (kind, words) = match rest.split_once(" := ") {
        Some((kind, words)) => (kind, Some(words)),
        None => (rest, None),
    };
    let kind = build(bank, kind)?;
    let body = body(bank, words)?;
    let name = bank.name(name)?;
    Ok(Hypothesis { name, body, kind })
}

/// One more hypothesis, if it may come.
fn push(
    bank: &Bank<'_>,
    store: &Store,
    context: &mut Context,
    declared: &Declared,
    hypothesis: Hypothesis,
) -> Result<(), RowFault>
    requires scene { IsScene bank.now store.now context.old declared.now }
    requires hypothesis { HasAllOf bank.now hypothesis }
    ensures { IsScene bank.now store.now context.new declared.now }
{
    let _declared = declared;
    if !may_come(bank, store, context.hypotheses(), hypothesis) {
        return Err(RowFault::Unwritten);
    }
    context.push(hypothesis)?;
    Ok(())
}

/// One more hypothesis, from its words.
#[tactic(auto, using(crate::proofs::Keeping::keeping))]
pub(crate) fn assume(
    bank: &mut Bank<'_>,
    store: &Store,
    context: &mut Context,
    declared: &Declared,
    text: &str,
) -> Result<&'static str, RowFault>
    requires scene { IsScene bank.old store.now context.old declared.now }
    ensures { IsScene bank.new store.now context.new declared.now }
{
    let hypothesis = hypothesis(bank, text)?;
    push(bank, store, context, declared, hypothesis)?;
    Ok("assumed")
}

/// The same context.
fn copied(alloc: Global, context: &Context) -> Result<Context, NoMemory>
    ensures { IfOk result (λ c. c ≡ context.now) }
{
    match Vec::from_slice(alloc, context.hypotheses()) {
        Ok(hypotheses) => Ok(Context::from_hypotheses(hypotheses)),
        Err(_) => Err(NoMemory),
    }
}

/// One more variable, of a type among the hypotheses.
fn add(
    bank: &Bank<'_>,
    store: &mut Store,
    context: &Context,
    declared: &Declared,
    kind: TermId,
) -> Result<&'static str, RowFault>
    requires scene { IsScene bank.now store.old context.now declared.now }
    requires kind { HasTerm bank.now kind }
    ensures { IsScene bank.now store.new context.now declared.now }
{
    let _declared = declared;
    if !stands(bank, store, context.hypotheses(), 0, kind) {
        return Err(RowFault::Unwritten);
    }
    let own = copied(bank.allocator(), context)?;
    match store.new_var(own, kind, None) {
        Ok(_) => Ok("made"),
        Err(fault) => Ok(fault_word(fault)),
    }
}

/// So many variables more.
fn add_many(
    bank: &Bank<'_>,
    store: &mut Store,
    context: &Context,
    declared: &Declared,
    kind: TermId,
    many: u32,
) -> Result<&'static str, RowFault>
    requires scene { IsScene bank.now store.old context.now declared.now }
    requires kind { HasTerm bank.now kind }
    ensures { IsScene bank.now store.new context.now declared.now }
{
    for _ in 0..many {
        add(bank, store, context, declared, kind)?;
    }
    Ok("made")
}

/// So many variables more, from their type's words.
#[tactic(auto, using(crate::proofs::Keeping::keeping))]
pub(crate) fn make(
    bank: &mut Bank<'_>,
    store: &mut Store,
    context: &Context,
    declared: &Declared,
    kind: &str,
    many: u32,
) -> Result<&'static str, RowFault>
    requires scene { IsScene bank.old store.old context.now declared.now }
    ensures { IsScene bank.new store.new context.now declared.now }
{
    let kind = build(bank, kind)?;
    add_many(bank, store, context, declared, kind, many)
}

/// A variable gets a value, if it may.
fn assign(
    bank: &mut Bank<'_>,
    store: &mut Store,
    context: &Context,
    declared: &Declared,
    variable: u32,
    body: TermId,
) -> Result<&'static str, RowFault>
    requires scene { IsScene bank.old store.old context.now declared.now }
    requires body { HasTerm bank.old body }
    ensures { IsScene bank.new store.new context.now declared.now }
{
    let _context = context;
    let _declared = declared;
    if !may_get(bank, store, variable, body) {
        return Err(RowFault::Unwritten);
    }
    match store.assign(bank, variable, body) {
        Ok(()) => Ok("given"),
        Err(fault) => Ok(fault_word(fault)),
    }
}

/// A variable gets a value: `K := T`.
#[tactic(auto, using(crate::proofs::Keeping::keeping))]
pub(crate) fn give(
    bank: &mut Bank<'_>,
    store: &mut Store,
    context: &Context,
    declared: &Declared,
    text: &str,
) -> Result<&'static str, RowFault>
    requires scene { IsScene bank.old store.old context.now declared.now }
    ensures { IsScene bank.new store.new context.now declared.now }
{
    let (variable, body) = parted(text, " := ")?;
    let variable = number(variable)?;
    let body = build(bank, body)?;
    assign(bank, store, context, declared, variable, body)
}

/// A variable without entries.
fn bare(bank: &mut Bank<'_>, variable: u32) -> Result<TermId, NoMemory>
    ensures has { IfOk result (HasTerm bank.new) }
    ensures grows { Grows bank.old bank.new }
{
    let entries = Instance::new(bank.allocator());
    bank.make(Node::Evar(variable, entries))
}

/// A variable without hypotheses is valued by the next one.
#[tactic(auto, using(crate::proofs::Keeping::keeping))]
fn link_next(
    bank: &mut Bank<'_>,
    store: &mut Store,
    context: &Context,
    declared: &Declared,
    next: u32,
) -> Result<&'static str, RowFault>
    requires scene { IsScene bank.old store.old context.now declared.now }
    ensures { IsScene bank.new store.new context.now declared.now }
{
    let body = bare(bank, next)?;
    assign(bank, store, context, declared, next.saturating_sub(1), body)
}

/// Each of so many variables without hypotheses is valued by the next one.
pub(crate) fn link(
    bank: &mut Bank<'_>,
    store: &mut Store,
    context: &Context,
    declared: &Declared,
    many: u32,
) -> Result<&'static str, RowFault>
    requires scene { IsScene bank.old store.old context.now declared.now }
    ensures { IsScene bank.new store.new context.now declared.now }
{
    for variable in 0..many {
        link_next(bank, store, context, declared, variable.saturating_add(1))?;
    }
    Ok("linked")
}
