//! The machine of a program: each step pays a tick, its state is a number, and it writes numbers.

ghost use Rattle.std.specs.Prelude.{◌≡◌, ◌<◌, ◌+◌, ℕ, List, ◌++◌, OnOk, refl};
ghost use Rattle.lq_stream.specs.Stepping.{move_of};
ghost use Rattle.lq_stream_rows.specs.Acting.{called, said, set_by, node_at, acts, themselves, everything, code_rank, rest_rank, lawful, later_on, same_acts, all_known, all_alike};
ghost use Rattle.lq_stream_rows.specs.declared.program.Node.{Node};
ghost use Rattle.lq_stream_rows.specs.declared.program.Code.{Code};

use crate::program::{Code, Node};
use lq_stream::{Machine, Move, StepFault};
use lq_terms::{NoMemory, Steps, Ticks};
use std::sync::ledger::Ledger;

/// A program, the state, and the numbers written so far.
#[derive(Drop)]
pub struct Numbers {
    /// The nodes.
    pub nodes: Vec<Node>,
    /// The state.
    pub state: u64,
    /// The numbers written so far.
    pub written: Vec<u64>,
}

/// A node from the start.
fn start(node: usize) -> Code
    ensures { result ≡ record { node = node; done = 0; value = 0 } }
{
    Code {
        node,
        done: 0,
        value: 0,
    }
}

/// What a node calls for, in a state.
fn called_by(node: Node, code: Code, state: u64) -> Move<Code, Code, u64, u64>
    ensures { move_of themselves result ≡ called node code state }
{
    match node {
        Node::Give(number) | Node::Say(number) | Node::Set(number) => Move::Give(number),
        Node::Fail(level, cause) => Move::Fail(level, cause),
        Node::Unless(number, level) => {
            if code.value == number {
                Move::Fail(level, 7)
            } else {
                Move::Give(code.value)
            }
        }
        Node::State => Move::Give(state),
        Node::Plus(first, second) => Move::Plus(start(first), start(second)),
        Node::Bind(first, second) => Move::Bind(start(first), start(second)),
        Node::Branch(test, rest, other) => Move::Branch(start(test), start(rest), start(other)),
        Node::Once(part) => Move::Once(start(part)),
        Node::Sole(part) => Move::Sole(start(part), 8),
        Node::Lower(part) => Move::Lower(start(part)),
        Node::Times(count, part) => times(code, count, part),
        Node::Nest(count, part) => nest(code, count, part),
    }
}

/// A node once more.
fn again(code: Code) -> Code
    requires { code.done < 18446744073709551615 }
    ensures { result ≡ record { node = code.node; done = code.done + 1; value = 0 } }
{
    Code {
        node: code.node,
        done: code.done + 1,
        value: 0,
    }
}

/// A part so many times.
fn times(code: Code, count: u64, part: usize) -> Move<Code, Code, u64, u64>
    ensures { move_of themselves result ≡ called (Node.Times count part) code 0 }
{
    if code.done < count {
        Move::Bind(start(part), again(code))
    } else {
        Move::Give(code.done)
    }
}

/// A part inside so many tests.
fn nest(code: Code, count: u64, part: usize) -> Move<Code, Code, u64, u64>
    ensures { move_of themselves result ≡ called (Node.Nest count part) code 0 }
{
    if code.done < count {
        Move::Branch(again(code), start(part), start(part))
    } else {
        Move::Once(start(part))
    }
}

impl Numbers {
    /// The node at a place; there is none behind the last one.
    fn node(&self, place: usize) -> Node
        ensures { result ≡ node_at self.now.nodes.items place }
    {
        match self.nodes.get(place) {
            Some(node) => *node,
            None => Node::Give(0),
        }
    }

    /// Writes the number of a node, or makes it the state.
    fn act(&mut self, node: Node) -> Result<(), NoMemory>
        ensures nodes { self.new.nodes.items ≡ self.old.nodes.items }
        ensures state { OnOk result (self.new.state ≡ set_by node self.old.state) }
        ensures written { OnOk result (self.new.written.items ≡ self.old.written.items ++ said node) }
    {
        match node {
            Node::Say(number) => {
                self.written.push(number)?;
                Ok(())
            }
            Node::Set(number) => {
                self.state = number;
                Ok(())
            }
            Node::Give(_)
            | Node::Fail(_, _)
            | Node::Unless(_, _)
            | Node::State
            | Node::Plus(_, _)
            | Node::Bind(_, _)
            | Node::Branch(_, _, _)
            | Node::Once(_)
            | Node::Sole(_)
            | Node::Lower(_)
            | Node::Times(_, _)
            | Node::Nest(_, _) => Ok(()),
        }
    }
}

impl Machine for Numbers {
    type Code = Code;

    type Rest = Code;

    type Value = u64;

    type Cause = u64;

    type Mark = u64;

    ghost State = { ℕ };

    ghost Message = { ℕ };

    ghost CodeTree = { Code };

    ghost RestTree = { Code };

    ghost ValueTree = { ℕ };

    ghost CauseTree = { ℕ };

    ghost told = { λ m. themselves };

    ghost known = { λ m. everything };

    ghost state = { λ m. m.state };

    ghost messages = { λ m. m.written.items };

    ghost does = { λ m. acts m.nodes.items };

    ghost rank = { code_rank };

    ghost rest_rank = { rest_rank };

    ghost later = { λ m n. n.nodes.items ≡ m.nodes.items };

    fn step<L: Ledger>(
        &mut self,
        code: Code,
        ticks: &mut Ticks,
        steps: &mut Steps<L>,
    ) -> Result<Move<Code, Code, u64, u64>, StepFault> {
        if !ticks.take(steps) {
            return Err(StepFault::StepsOut);
        }
        let node = self.node(code.node);
        let next = called_by(node, code, self.state);
        self.act(node)?;
        Ok(next)
    }

    fn enter(&mut self, rest: &Code, value: u64) -> Result<Code, NoMemory> {
        Ok(Code {
            node: rest.node,
            done: rest.done,
            value,
        })
    }

    fn mark(&self) -> u64 {
        self.state
    }

    fn undo(&mut self, mark: u64) {
        self.state = mark;
    }

    ghost later_refl = { λ m. refl };

    ghost later_trans = { λ m n o h i. later_on m.nodes.items n.nodes.items o.nodes.items h i };

    ghost keeps_does = { λ m n h. same_acts m.nodes.items n.nodes.items h };

    ghost keeps_known = { λ m n h. all_known };

    ghost keeps_told = { λ m n h. all_alike };

    ghost lawful = { λ m. lawful m.nodes.items };
}
