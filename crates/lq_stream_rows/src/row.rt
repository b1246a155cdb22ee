//! What a row is: a program, the levels of its demands, and a budget.

use crate::program::Node;
use lq_row_texts::RowFault;
use std::alloc::Global;

/// A number at the front of a text, or 0, and what stands behind it.
fn number_of<'a>(text: &'a str) -> (usize, &'a str) {
    let (word, rest) = match text.split_once(' ') {
        Some((word, rest)) => (word, rest),
        None => (text, ""),
    };
    match word.parse::<usize>() {
        Ok(number) => (number, rest),
        Err(_) => (0, rest),
    }
}

/// The node with a name and these numbers.
fn named(name: &str, first: usize, second: usize, third: usize) -> Result<Node, RowFault> {
    match name {
        "give" => Ok(Node::Give(first as u64)),
        "fail" => Ok(Node::Fail(first as u128, second as u64)),
        "unless" => Ok(Node::Unless(first as u64, second as u128)),
        "say" => Ok(Node::Say(first as u64)),
        "set" => Ok(Node::Set(first as u64)),
        "state" => Ok(Node::State),
        "plus" => Ok(Node::Plus(first, second)),
        "bind" => Ok(Node::Bind(first, second)),
        "branch" => Ok(Node::Branch(first, second, third)),
        "once" => Ok(Node::Once(first)),
        "sole" => Ok(Node::Sole(first)),
        "lower" => Ok(Node::Lower(first)),
        "times" => Ok(Node::Times(first as u64, second)),
        "nest" => Ok(Node::Nest(first as u64, second)),
        _ => Err(RowFault::Malformed),
    }
}

/// The node that a text says.
fn node_of(text: &str) -> Result<Node, RowFault> {
    let (name, numbers) = match text.split_once(' ') {
        Some((name, numbers)) => (name, numbers),
        None => (text, ""),
    };
    let (first, rest) = number_of(numbers);
    let (second, rest) = number_of(rest);
    let (third, _) = number_of(rest);
    named(name, first, second, third)
}

/// The nodes of a program, in order.
pub(crate) fn nodes_of(alloc: Global, text: &str) -> Result<Vec<Node>, RowFault> {
    let mut nodes = Vec::new(alloc);
    for word in text.split(", ") {
        nodes.push(node_of(word)?)?;
    }
    Ok(nodes)
}

/// What a row is made of: its program, the levels of its demands in digits, and its budget.
#[derive(Clone, Copy)]
pub(crate) struct Row<'a> {
    /// The program.
    pub program: &'a str,
    /// The levels.
    pub levels: &'a str,
    /// The budget.
    pub budget: u64,
}

/// The row that a line is.
pub(crate) fn row_of<'a>(line: &'a str) -> Result<Row<'a>, RowFault> {
    let Some((program, rest)) = line.split_once(" | ") else {
        return Err(RowFault::Malformed);
    };
    let Some((levels, budget)) = rest.split_once(" | ") else {
        return Err(RowFault::Malformed);
    };
    match budget.parse::<u64>() {
        Ok(budget) => Ok(Row {
            program,
            levels,
            budget,
        }),
        Err(_) => Err(RowFault::Malformed),
    }
}
