//! Why the kernel refuses.

ghost use Rattle.std.specs.Prelude.{◌≡◌};
ghost use Rattle.lq_env.specs.declared.family.EnvFault.{EnvFault as Lack};
ghost use Rattle.lq_kernel.specs.declared.faults.KernelFault.{KernelFault as Fault};

use lq_env::EnvFault;
use lq_reduce::ReduceFault;
use lq_terms::{NameId, NoMemory, SizeFault, TermId};
use std::alloc::{AllocError, AllocFailed};

/// Why the kernel refuses a term or a declaration.
#[derive(Clone, Copy, Debug, PartialEq, Eq)]
pub enum KernelFault {
    /// Neither a hypothesis nor a declaration of the node's kind has this name.
    Unbound(NameId),
    /// The weak head form of a function's type, which is no product.
    NotAProduct(TermId),
    /// The weak head form of a type's type, which is no sort.
    NotASort(TermId),
    /// The type that was found, and the one that was wanted.
    Mismatch(TermId, TermId),
    /// The last sort has no type.
    NoSortAbove,
    /// An unknown stands in the term.
    HasVariable(u32),
    /// The budget of ticks is spent.
    StepsOut,
    /// An argument of a constructor, counted from 1, whose sort is above that of the family.
    TooBig(NameId, u64),
    /// A type or a weak head form has more than 1,000,000 nodes.
    TooLarge,
    /// A type or a weak head form fits in size, and is deeper than 2,000.
    TooDeep,
    /// The environment refuses: it does not take the declaration, or does not give the eliminator.
    Env(EnvFault),
    /// There was no memory.
    NoMemory,
}

impl From<NoMemory> for KernelFault {
    ghost use Rattle.std.specs.Prelude.{◌≡◌};
    ghost use Rattle.lq_kernel.specs.declared.faults.KernelFault.{KernelFault};

    ghost from_gives = { λ _ e. e ≡ KernelFault.NoMemory };

    fn from(_: NoMemory) -> KernelFault {
        KernelFault::NoMemory
    }
}

impl From<AllocError> for KernelFault {
    ghost use Rattle.std.specs.Prelude.{◌≡◌};
    ghost use Rattle.lq_kernel.specs.declared.faults.KernelFault.{KernelFault};

    ghost from_gives = { λ _ e. e ≡ KernelFault.NoMemory };

    fn from(_: AllocError) -> KernelFault {
        KernelFault::NoMemory
    }
}

impl<T: Drop> From<AllocFailed<T>> for KernelFault {
    ghost use Rattle.std.specs.Prelude.{◌≡◌};
    ghost use Rattle.lq_kernel.specs.declared.faults.KernelFault.{KernelFault};

    ghost from_gives = { λ _ e. e ≡ KernelFault.NoMemory };

    fn from(_: AllocFailed<T>) -> KernelFault {
        KernelFault::NoMemory
    }
}

impl From<SizeFault> for KernelFault {
    ghost use Rattle.std.specs.Prelude.{◌≡◌};
    ghost use Rattle.lq_kernel.specs.Steps.{limit_fault};

    ghost from_gives = { λ s e. e ≡ limit_fault s };

    fn from(fault: SizeFault) -> KernelFault {
        match fault {
            SizeFault::TooLarge => KernelFault::TooLarge,
            SizeFault::TooDeep => KernelFault::TooDeep,
            SizeFault::NoMemory => KernelFault::NoMemory,
        }
    }
}

impl From<ReduceFault> for KernelFault {
    ghost use Rattle.std.specs.Prelude.{◌≡◌};
    ghost use Rattle.lq_kernel.specs.Steps.{reduce_fault};

    ghost from_gives = { λ s e. e ≡ reduce_fault s };

    fn from(fault: ReduceFault) -> KernelFault {
        match fault {
            ReduceFault::StepsOut => KernelFault::StepsOut,
            ReduceFault::TooLarge => KernelFault::TooLarge,
            ReduceFault::TooDeep => KernelFault::TooDeep,
            ReduceFault::NoMemory => KernelFault::NoMemory,
        }
    }
}

impl From<EnvFault> for KernelFault {
    ghost use Rattle.std.specs.Prelude.{◌≡◌};
    ghost use Rattle.lq_kernel.specs.Steps.{refusal};

    ghost from_gives = { λ s e. e ≡ refusal s };

    fn from(fault: EnvFault) -> KernelFault {
        match fault {
            EnvFault::NoMemory => KernelFault::NoMemory,
            EnvFault::NameTaken(name) => KernelFault::Env(EnvFault::NameTaken(name)),
            EnvFault::NotPositive(name, argument) => {
                KernelFault::Env(EnvFault::NotPositive(name, argument))
            }
            EnvFault::NestedUse(name, argument) => {
                KernelFault::Env(EnvFault::NestedUse(name, argument))
            }
            EnvFault::BadResult(name) => KernelFault::Env(EnvFault::BadResult(name)),
            EnvFault::ElimForbidden(name, sort) => {
                KernelFault::Env(EnvFault::ElimForbidden(name, sort))
            }
            EnvFault::TooLarge => KernelFault::Env(EnvFault::TooLarge),
            EnvFault::TooDeep => KernelFault::Env(EnvFault::TooDeep),
        }
    }
}

/// Want of memory, which is all that is left to refuse by.
pub(crate) fn lacking(fault: EnvFault) -> KernelFault
    requires { fault ≡ Lack.NoMemory }
    ensures { result ≡ Fault.NoMemory }
{
    match fault {
        EnvFault::NoMemory => KernelFault::NoMemory,
        _ => unreachable!(),
    }
}
