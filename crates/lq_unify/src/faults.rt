//! Why unification does not answer.

use lq_terms::NoMemory;

/// Why unification does not answer.
#[derive(Clone, Copy)]
pub enum UnifyFault {
    /// The budget of ticks is spent.
    StepsOut,
    /// A weak head form, or a value that a variable is to get, has more than 1,000,000 nodes as it reads.
    TooLarge,
    /// A weak head form, or a value that a variable is to get, fits in size as it reads, and is deeper than 2,000.
    TooDeep,
    /// There was no memory.
    NoMemory,
}

impl From<NoMemory> for UnifyFault {
    ghost use Rattle.std.specs.Prelude.{◌≡◌};
    ghost use Rattle.lq_unify.specs.declared.faults.UnifyFault.{UnifyFault};

    ghost from_gives = { λ _ e. e ≡ UnifyFault.NoMemory };

    fn from(_: NoMemory) -> UnifyFault {
        UnifyFault::NoMemory
    }
}
