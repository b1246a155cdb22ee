//! Terms in a bank, from their words.

ghost use Rattle.std.specs.Prelude.{◌≡◌, IfOk, OnOk};
ghost use Rattle.lq_terms.specs.Terms.{HasName, HasTerm, Grows};
ghost use Rattle.lq_words.specs.Low.{IsLow, IsLowNode, HasStack};

use crate::words::{Shape, Step, steps_of};
use lq_terms::{Bank, Instance, NameId, NoMemory, Node, TermId};
use std::alloc::{AllocError, AllocFailed};

/// Why a row gives up.
#[derive(Clone, Copy, Debug, PartialEq, Eq)]
pub enum RowFault {
    /// There was no memory.
    NoMemory,
    /// The row, or a term in it, is not written as one.
    Malformed,
    /// What is written is not as the callers of what is asked promise.
    Unwritten,
}

impl From<NoMemory> for RowFault {
    fn from(_: NoMemory) -> RowFault {
        RowFault::NoMemory
    }
}

impl From<AllocError> for RowFault {
    fn from(_: AllocError) -> RowFault {
        RowFault::NoMemory
    }
}

impl<T: Drop> From<AllocFailed<T>> for RowFault {
    fn from(_: AllocFailed<T>) -> RowFault {
        RowFault::NoMemory
    }
}

/// The parts of a node around a term: a binder, a first and a second part, and the term.
#[derive(Clone, Copy)]
struct Parts {
    binder: NameId,
    first: TermId,
    second: TermId,
    term: TermId,
}

/// The name in a step.
fn text<'a>(step: Step<'a>) -> &'a str {
    match step {
        Step::Var(text) => text,
        Step::Const(text) => text,
        Step::Ind(text) => text,
        Step::Ctor(text, _) => text,
        Step::Elim(text, _) => text,
        _ => "x",
    }
}

/// Takes the last term.
fn pop(bank: &Bank<'_>, stack: &mut Vec<TermId>) -> Result<TermId, RowFault>
    requires { HasStack bank.now stack.old.items }
    ensures has { IfOk result (IsLow bank.now) }
    ensures rest { HasStack bank.now stack.new.items }
{
    let _bank = bank;
    match stack.pop() {
        Some(term) => Ok(term),
        None => Err(RowFault::Malformed),
    }
}

/// A variable with so many entries, each of them the part.
fn variable(bank: &Bank<'_>, number: u32, count: u32, part: TermId) -> Result<Node, NoMemory>
    requires { IsLow bank.now part }
    ensures { IfOk result (IsLowNode bank.now) }
{
    let mut entries = Instance::new(bank.allocator());
    for _ in 0..count {
        entries.push(part)?;
    }
    Ok(Node::Evar(number, entries))
}

/// A variable with as many entries, each of them the last term; without entries it needs none.
fn waiting(
    bank: &Bank<'_>,
    stack: &mut Vec<TermId>,
    number: u32,
    count: u32,
) -> Result<Node, RowFault>
    requires stack { HasStack bank.now stack.old.items }
    ensures low { IfOk result (IsLowNode bank.now) }
    ensures rest { HasStack bank.now stack.new.items }
{
    if count == 0 {
        return Ok(Node::Evar(number, Instance::new(bank.allocator())));
    }
    let part = pop(bank, stack)?;
    let node = variable(bank, number, count, part)?;
    Ok(node)
}

/// One more entry, the last term.
#[tactic(auto, using(crate::proofs::Lows::lows))]
fn enter(bank: &Bank<'_>, stack: &mut Vec<TermId>, entries: &mut Instance) -> Result<(), RowFault>
    requires stack { HasStack bank.now stack.old.items }
    requires entries { HasStack bank.now entries.old }
    ensures stack { HasStack bank.now stack.new.items }
    ensures entries { OnOk result (HasStack bank.now entries.new) }
{
    let part = pop(bank, stack)?;
    entries.push(part)?;
    Ok(())
}

/// A variable with so many entries, the last terms in order.
fn entered(
    bank: &Bank<'_>,
    stack: &mut Vec<TermId>,
    number: u32,
    count: u32,
) -> Result<Node, RowFault>
    requires stack { HasStack bank.now stack.old.items }
    ensures low { IfOk result (IsLowNode bank.now) }
    ensures rest { HasStack bank.now stack.new.items }
{
    let mut entries = Instance::new(bank.allocator());
    for _ in 0..count {
        enter(bank, stack, &mut entries)?;
    }
    Ok(Node::Evar(number, entries))
}

/// The node of a step that is not around a term.
fn leaf(
    bank: &Bank<'_>,
    stack: &mut Vec<TermId>,
    step: Step<'_>,
    name: NameId,
) -> Result<Node, RowFault>
    requires stack { HasStack bank.now stack.old.items }
    requires name { HasName bank.now name }
    ensures low { IfOk result (IsLowNode bank.now) }
    ensures rest { HasStack bank.now stack.new.items }
{
    match step {
        Step::Rel(index) => {
            if index < 1_000_000 {
                Ok(Node::Rel(index))
            } else {
                Err(RowFault::Malformed)
            }
        }
        Step::Var(_) => Ok(Node::Var(name)),
        Step::Sort(sort) => Ok(Node::Sort(sort)),
        Step::Const(_) => Ok(Node::Const(name)),
        Step::Ind(_) => Ok(Node::Ind(name)),
        Step::Ctor(_, index) => Ok(Node::Ctor(name, index)),
        Step::Elim(_, sort) => Ok(Node::Elim(name, sort)),
        Step::Evar(number, count) => waiting(bank, stack, number, count),
        Step::Instance(number, count) => entered(bank, stack, number, count),
        _ => Err(RowFault::Malformed),
    }
}

/// The node of a shape around a term.
#[tactic(auto, using(crate::proofs::Lows::lows))]
fn around(bank: &Bank<'_>, shape: Shape, parts: Parts) -> Node
    requires binder { HasName bank.now parts.binder }
    requires first { IsLow bank.now parts.first }
    requires second { IsLow bank.now parts.second }
    requires term { IsLow bank.now parts.term }
    ensures { IsLowNode bank.now result }
{
    let _bank = bank;
    match shape {
        Shape::Prod => Node::Prod(parts.binder, parts.first, parts.term),
        Shape::Lam => Node::Lam(parts.binder, parts.first, parts.term),
        Shape::Let => Node::Let(parts.binder, parts.first, parts.second, parts.term),
        Shape::App => Node::App(parts.first, parts.term),
        Shape::Spine => Node::App(parts.term, parts.first),
        Shape::Nest => Node::Prod(parts.binder, parts.term, parts.first),
        Shape::Double => Node::Prod(parts.binder, parts.term, parts.term),
        Shape::Twice => Node::App(parts.term, parts.term),
    }
}

/// The term of a node.
#[tactic(auto, using(crate::proofs::Lows::lows))]
fn make(bank: &mut Bank<'_>, node: Node) -> Result<TermId, NoMemory>
    requires { IsLowNode bank.old node }
    ensures low { IfOk result (IsLow bank.new) }
    ensures grows { Grows bank.old bank.new }
{
    bank.make(node)
}

/// So many nodes of a shape around a term.
#[tactic(auto, using(crate::proofs::Lows::lows))]
fn layers(
    bank: &mut Bank<'_>,
    shape: Shape,
    count: u32,
    first: TermId,
    second: TermId,
    term: TermId,
) -> Result<TermId, NoMemory>
    requires first { IsLow bank.old first }
    requires second { IsLow bank.old second }
    requires term { IsLow bank.old term }
    ensures low { IfOk result (IsLow bank.new) }
    ensures grows { Grows bank.old bank.new }
{
    let binder = bank.name("x")?;
    let mut term = term;
    for _ in 0..count {
        let parts = Parts {
            binder,
            first,
            second,
            term,
        };
        let node = around(bank, shape, parts);
        term = make(bank, node)?;
    }
    Ok(term)
}

/// The first and the second part of a shape, and the term; what a shape lacks is the term again.
fn pop_parts(
    bank: &Bank<'_>,
    stack: &mut Vec<TermId>,
    shape: Shape,
) -> Result<(TermId, TermId, TermId), RowFault>
    requires { HasStack bank.now stack.old.items }
    ensures first { IfOk result (λ p. IsLow bank.now p.0) }
    ensures second { IfOk result (λ p. IsLow bank.now p.1) }
    ensures term { IfOk result (λ p. IsLow bank.now p.2) }
    ensures rest { HasStack bank.now stack.new.items }
{
    let first = pop(bank, stack)?;
    match shape {
        Shape::Double => Ok((first, first, first)),
        Shape::Twice => Ok((first, first, first)),
        Shape::Let => {
            let second = pop(bank, stack)?;
            let term = pop(bank, stack)?;
            Ok((first, second, term))
        }
        _ => {
            let term = pop(bank, stack)?;
            Ok((first, term, term))
        }
    }
}

/// One more term, of one node.
#[tactic(auto, using(crate::proofs::Lows::lows))]
fn put(bank: &mut Bank<'_>, stack: &mut Vec<TermId>, step: Step<'_>) -> Result<(), RowFault>
    requires { HasStack bank.old stack.old.items }
    ensures stack { OnOk result (HasStack bank.new stack.new.items) }
    ensures grows { Grows bank.old bank.new }
{
    let name = bank.name(text(step))?;
    let node = leaf(bank, stack, step, name)?;
    let term = make(bank, node)?;
    stack.push(term)?;
    Ok(())
}

/// One more term, of nodes around one.
#[tactic(auto, using(crate::proofs::Lows::lows))]
fn put_layers(
    bank: &mut Bank<'_>,
    stack: &mut Vec<TermId>,
    shape: Shape,
    count: u32,
) -> Result<(), RowFault>
    requires { HasStack bank.old stack.old.items }
    ensures stack { OnOk result (HasStack bank.new stack.new.items) }
    ensures grows { Grows bank.old bank.new }
{
    let (first, second, term) = pop_parts(bank, stack, shape)?;
    let term = layers(bank, shape, count, first, second, term)?;
    stack.push(term)?;
    Ok(())
}

/// One more term.
fn take(bank: &mut Bank<'_>, stack: &mut Vec<TermId>, step: Step<'_>) -> Result<(), RowFault>
    requires { HasStack bank.old stack.old.items }
    ensures stack { OnOk result (HasStack bank.new stack.new.items) }
    ensures grows { Grows bank.old bank.new }
{
    match step {
        Step::Around(shape, count) => put_layers(bank, stack, shape, count),
        _ => put(bank, stack, step),
    }
}

/// The term of the steps.
fn assemble(bank: &mut Bank<'_>, steps: &[Step<'_>]) -> Result<TermId, RowFault>
    ensures has { IfOk result (HasTerm bank.new) }
    ensures low { IfOk result (IsLow bank.new) }
    ensures grows { Grows bank.old bank.new }
{
    let mut stack = Vec::new(bank.allocator());
    let mut left = steps.len();
    while left > 0 {
        left -= 1;
        take(bank, &mut stack, steps[left])?;
    }
    let term = pop(bank, &mut stack)?;
    if !stack.is_empty() {
        return Err(RowFault::Malformed);
    }
    Ok(term)
}

/// The term that is written so. Its loose bound variables are below 1,000,000.
pub fn build(bank: &mut Bank<'_>, text: &str) -> Result<TermId, RowFault>
    ensures has { IfOk result (HasTerm bank.new) }
    ensures low { IfOk result (IsLow bank.new) }
    ensures grows { Grows bank.old bank.new }
{
    let steps = steps_of(bank.allocator(), text)?;
    assemble(bank, &steps)
}
