//! Why a sentence is refused, with what its text names. Terms are read through the store; places are counted in bytes from 0,
//! goals and arguments from 1.

use lq_ast::Text;
use lq_terms::{NameId, TermId};
use lq_trees::Sort;

/// A fault of tokens or of syntax, with its place.
#[derive(Clone, Copy)]
pub enum TextCause {
    /// A character that begins no token.
    BadChar(u64),
    /// A number that is too large.
    BadNumber(u64),
    /// A comment that isn't closed.
    OpenComment(u64),
    /// A string that isn't closed.
    OpenString(u64),
    /// A token at which no sentence goes on.
    Unexpected(u64),
    /// The text ends inside a sentence.
    EndInside(u64),
    /// A token that is nested too deep.
    TooNested(u64),
    /// A sentence that is too long.
    SentenceTooLong(u64),
}

/// A sentence that isn't allowed where it stands.
#[derive(Clone, Copy)]
pub enum SentenceCause {
    /// The sentence isn't built yet.
    NotBuilt,
    /// No proof is open.
    NoProof,
    /// The proof of that name is open already.
    NestedProof(NameId),
    /// The script ends inside the proof of that name.
    OpenProof(NameId),
    /// So many goals are open.
    OpenGoals(u64),
    /// So many variables have no value.
    Unresolved(u64),
    /// The sentence behind `Fail` hasn't failed.
    HasNotFailed,
    /// A count that is out of range.
    BadCount(u128),
    /// A name that is declared already.
    NameTaken(NameId),
    /// A name of a definition of Ltac, or of a built-in one.
    LtacTaken(NameId),
}

/// A declaration that is refused: a constructor, and the number of its argument.
#[derive(Clone, Copy)]
pub enum DeclarationCause {
    /// The family stands in a place that isn't positive.
    NotPositive(NameId, u64),
    /// The family stands inside another family.
    NestedUse(NameId, u64),
    /// The constructor's type doesn't end in the family.
    BadResult(NameId),
    /// The argument's type has too great a sort.
    TooBig(NameId, u64),
    /// A family that can't be eliminated into the sort.
    ElimForbidden(NameId, Sort),
}

/// A fault of typing, elaboration, unification or the store.
#[derive(Clone, Copy)]
pub enum TermCause {
    /// A name that stands for nothing.
    Unknown(NameId),
    /// A type that is no product.
    NotAProduct(TermId),
    /// A type that is no sort.
    NotASort(TermId),
    /// The type that was found, and the one that was wanted.
    Mismatch(TermId, TermId),
    /// A sort with none above it.
    NoSortAbove,
    /// A place at which nothing tells the term.
    CannotInfer(u64),
    /// A variable in a finished term.
    HasVariable(u32),
    /// The budget is spent.
    StepsOut,
    /// A term of too many nodes.
    TooLarge,
    /// A term that is too deep.
    TooDeep,
    /// The store has as many variables as it may.
    Full,
}

/// A fault of goals and their lists.
#[derive(Clone, Copy)]
pub enum GoalCause {
    /// A goal of that number isn't there.
    NoSuchGoal(u128),
    /// A goal of that name isn't there.
    NoSuchName(NameId),
    /// So many goals are there, and one is wanted.
    NotOne(u64),
    /// So many goals are left.
    NotSolved(u64),
    /// The bullet that was expected: its character, an ASCII one, and how often it stands.
    WrongBullet(u8, u8),
    /// No goal is in focus.
    NothingFocused,
    /// No brace is open.
    NoBrace,
    /// More goals than there may be.
    TooManyGoals,
}

/// A primitive of the first table that is refused.
#[derive(Clone, Copy)]
pub enum PrimitiveCause {
    /// The goal is no product.
    NothingToIntroduce,
    /// A name that a hypothesis has.
    NameInUse(NameId),
    /// A term, and the goal that it doesn't prove.
    CannotApply(TermId, TermId),
    /// A premise that the goal doesn't determine, with its name, if it has one.
    NotDetermined(Option<NameId>),
    /// No hypothesis proves the goal.
    NoAssumption,
    /// A type that is no inductive one.
    NotInductive(TermId),
    /// A constructor of that number isn't there.
    NoConstructor(u128),
    /// So many constructors are there, and so many are wanted.
    Constructors(u64, u64),
    /// The constructor has no argument.
    NoArgument,
    /// A goal that is no equality.
    NotEquality(TermId),
    /// Two terms that do not unify.
    DoNotUnify(TermId, TermId),
    /// The predicate that a row builds is ill-typed.
    IllTyped,
}

/// A primitive of the second table that is refused.
#[derive(Clone, Copy)]
pub enum RuleCause {
    /// A name of no hypothesis.
    NotAHypothesis(NameId),
    /// The names behind `as` don't fit.
    WrongNames,
    /// A type that is no equation.
    NotAnEquation(TermId),
    /// The left side of the equation doesn't occur.
    NothingToRewrite,
    /// A name of no transparent constant.
    NotTransparent(NameId),
    /// A name that doesn't occur.
    DoesNotOccur(NameId),
    /// Two terms that are not convertible.
    NotConvertible(TermId, TermId),
    /// A hypothesis that something still uses.
    StillUsed(NameId),
}

/// A failure of Ltac.
#[derive(Drop)]
pub enum LtacCause {
    /// `fail`, with the texts of its messages.
    Failure(Vec<Text>),
    /// No branch is left.
    NothingApplies,
    /// No clause matches.
    NoMatch,
    /// The goals are as they were.
    NoProgress,
    /// More than one success.
    ManySuccesses,
    /// No success is left.
    NoMore,
    /// So many goals, and so many branches.
    WrongCount(u64, u64),
    /// A value that is no tactic.
    NotRunnable,
    /// Arguments behind what is no function.
    NotAFunction,
    /// A name that stands for no term.
    NotATerm(NameId),
    /// A name that stands for no name.
    NotAName(NameId),
    /// A name that stands for no number.
    NotANumber(NameId),
}

/// Why a sentence is refused.
#[derive(Drop)]
pub enum Cause {
    /// Tokens or syntax.
    Text(TextCause),
    /// A sentence in its place.
    Sentence(SentenceCause),
    /// A declaration.
    Declaration(DeclarationCause),
    /// A term.
    Term(TermCause),
    /// The goals.
    Goal(GoalCause),
    /// A primitive of the first table.
    Primitive(PrimitiveCause),
    /// A primitive of the second table.
    Rule(RuleCause),
    /// Ltac.
    Ltac(LtacCause),
}

/// Why a sentence is refused, and the level of the failure: how many handlers it passes, 0 where it is none of Ltac's.
#[derive(Drop)]
pub struct ScriptCause {
    /// Why.
    pub cause: Cause,
    /// The level.
    pub level: u128,
}
