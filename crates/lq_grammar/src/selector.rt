//! The parts of a selector.

/// What comes next in a list of ranges.
#[derive(Clone, Copy)]
pub enum RangePart {
    /// The first number of a range.
    First,
    /// What stands behind the first number of a range.
    Behind,
    /// The number behind the `-` of a range.
    Last,
    /// What stands behind a range with two numbers.
    Done,
}
