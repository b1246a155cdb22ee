//! Programs over numbers.

/// A node of a program; its parts are places of other nodes.
#[derive(Clone, Copy)]
pub enum Node {
    /// Succeeds with a number.
    Give(u64),
    /// Fails at a level, with a number as its cause.
    Fail(u128, u64),
    /// Fails at a level where it comes with that value, and else succeeds with the value.
    Unless(u64, u128),
    /// Writes a number, and succeeds with it.
    Say(u64),
    /// Makes the state a number, and succeeds with it.
    Set(u64),
    /// Succeeds with the state.
    State,
    /// The first part, and the second one as an alternative.
    Plus(usize, usize),
    /// The first part, and each of its successes followed by the second one.
    Bind(usize, usize),
    /// Each success of the first part followed by the second one; where it has none, the third one.
    Branch(usize, usize, usize),
    /// The first success of the part.
    Once(usize),
    /// The success of the part where there is one alone, else a failure with cause 8.
    Sole(usize),
    /// The part, whose failure loses a level.
    Lower(usize),
    /// The part so many times, each success followed by the next time.
    Times(u64, usize),
    /// The part inside so many tests, whose other side is the part too.
    Nest(u64, usize),
}

/// A node that is to be run, how many times it has been, and the value with which it goes on.
#[derive(Clone, Copy)]
pub struct Code {
    /// The place of the node.
    pub node: usize,
    /// How many times it has been run.
    pub done: u64,
    /// The value.
    pub value: u64,
}
