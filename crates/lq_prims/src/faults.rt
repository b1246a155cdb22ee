//! Why a primitive does nothing.

use lq_beta::BetaFault;
use lq_evars::StoreFault;
use lq_goals::GoalFault;
use lq_reduce::ReduceFault;
use lq_terms::{NameId, NoMemory, TermId};
use lq_typing::ElabFault;
use lq_unify::UnifyFault;

/// Why a primitive of the first table does nothing. A term that is named is as it reads at that moment.
#[derive(Clone, Copy)]
pub enum PrimFault {
    /// The goal's type has no binder.
    NothingToIntroduce,
    /// A hypothesis of the goal has the name.
    NameInUse(NameId),
    /// So many variables that the term made have no value.
    VariablesLeft(u32),
    /// The term's type does not unify with the goal's type, however many premises it is given: the term, and the goal's type.
    CannotApply(TermId, TermId),
    /// A variable on which a premise or the conclusion depends has no value: its name.
    NotDetermined(NameId),
    /// No hypothesis has the goal's type.
    NoAssumption,
    /// The weak head form of the goal's type is no inductive type.
    NotInductive(TermId),
    /// The type has no constructor of that number, counted from 1.
    NoConstructor(u128),
    /// The type has so many constructors, and so many are wanted.
    WrongNumber(u32, u32),
    /// The constructor takes no argument.
    NoArgument,
    /// The weak head form of the goal's type is no equality.
    NotAnEquality(TermId),
    /// The two sides of the equality do not unify.
    DoNotUnify(TermId, TermId),
    /// What else a call that the row makes is refused for: elaboration, inference, unification, reduction; and the budget that is spent.
    Elab(ElabFault),
    /// What a call of the row on the store is refused for; and `TooLarge` where the goal's body would hold the goal itself, or
    /// the row's work gave the goal a value.
    Store(StoreFault),
    /// More than 10,000 goals would be in focus.
    TooManyGoals,
    /// There was no memory.
    NoMemory,
}

impl From<StoreFault> for PrimFault {
    ghost use Rattle.std.specs.Prelude.{◌≡◌};
    ghost use Rattle.lq_prims.specs.Refusals.{store_refusal};

    ghost from_gives = { λ f e. e ≡ store_refusal f };

    fn from(fault: StoreFault) -> PrimFault {
        match fault {
            StoreFault::NoMemory => PrimFault::NoMemory,
            other => PrimFault::Store(other),
        }
    }
}

impl From<NoMemory> for PrimFault {
    ghost use Rattle.std.specs.Prelude.{◌≡◌};
    ghost use Rattle.lq_prims.specs.declared.faults.PrimFault.{PrimFault};

    ghost from_gives = { λ _ e. e ≡ PrimFault.NoMemory };

    fn from(_: NoMemory) -> PrimFault {
        PrimFault::NoMemory
    }
}

impl From<ReduceFault> for PrimFault {
    ghost use Rattle.std.specs.Prelude.{◌≡◌};
    ghost use Rattle.lq_prims.specs.Refusals.{reduce_refusal};

    ghost from_gives = { λ f e. e ≡ reduce_refusal f };

    fn from(fault: ReduceFault) -> PrimFault {
        match fault {
            ReduceFault::StepsOut => PrimFault::Elab(ElabFault::StepsOut),
            ReduceFault::TooLarge => PrimFault::Elab(ElabFault::TooLarge),
            ReduceFault::TooDeep => PrimFault::Elab(ElabFault::TooDeep),
            ReduceFault::NoMemory => PrimFault::NoMemory,
        }
    }
}

impl From<UnifyFault> for PrimFault {
    ghost use Rattle.std.specs.Prelude.{◌≡◌};
    ghost use Rattle.lq_prims.specs.Refusals.{unify_refusal};

    ghost from_gives = { λ f e. e ≡ unify_refusal f };

    fn from(fault: UnifyFault) -> PrimFault {
        match fault {
            UnifyFault::StepsOut => PrimFault::Elab(ElabFault::StepsOut),
            UnifyFault::TooLarge => PrimFault::Elab(ElabFault::TooLarge),
            UnifyFault::TooDeep => PrimFault::Elab(ElabFault::TooDeep),
            UnifyFault::NoMemory => PrimFault::NoMemory,
        }
    }
}

impl From<BetaFault> for PrimFault {
    ghost use Rattle.std.specs.Prelude.{◌≡◌};
    ghost use Rattle.lq_prims.specs.Refusals.{beta_refusal};

    ghost from_gives = { λ f e. e ≡ beta_refusal f };

    fn from(fault: BetaFault) -> PrimFault {
        match fault {
            BetaFault::StepsOut => PrimFault::Elab(ElabFault::StepsOut),
            BetaFault::NoMemory => PrimFault::NoMemory,
        }
    }
}

impl From<ElabFault> for PrimFault {
    ghost use Rattle.std.specs.Prelude.{◌≡◌};
    ghost use Rattle.lq_prims.specs.declared.faults.PrimFault.{PrimFault};

    ghost from_gives = { λ f e. e ≡ PrimFault.Elab f };

    fn from(fault: ElabFault) -> PrimFault {
        PrimFault::Elab(fault)
    }
}

impl From<GoalFault> for PrimFault {
    ghost use Rattle.std.specs.Prelude.{◌≡◌};
    ghost use Rattle.lq_prims.specs.Refusals.{list_refusal};

    ghost from_gives = { λ f e. e ≡ list_refusal f };

    fn from(fault: GoalFault) -> PrimFault {
        match fault {
            GoalFault::NoMemory => PrimFault::NoMemory,
            _ => PrimFault::TooManyGoals,
        }
    }
}
