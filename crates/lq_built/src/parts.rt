//! The parts of the language that are built one after the other.

/// Which parts of the language are built, each with all before it.
#[derive(Clone, Copy)]
pub struct Parts {
    /// Values, definitions, messages and the plain combinators.
    pub values: bool,
    /// `+`, `exactly_once`, `constructor` without a number, `Outcomes`.
    pub backtracking: bool,
    /// The matching forms and contexts.
    pub matching: bool,
    /// Bullets, braces, selectors but `par:`, the order of goals, and the second table of primitives.
    pub focus: bool,
    /// `par:`
    pub parallel: bool,
}
