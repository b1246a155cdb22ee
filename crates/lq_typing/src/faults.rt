//! Why a term has no type over a store, or is not elaborated.

use lq_env::EnvFault;
use lq_kernel::KernelFault;
use lq_terms::{NameId, NoMemory, TermId};
use lq_trees::Sort;

/// Why a term has no type over a store, or is not elaborated. A term that is named is as it reads at that moment.
#[derive(Clone, Copy)]
pub enum ElabFault {
    /// Neither a value, a hypothesis nor a declaration has this name.
    Unknown(NameId),
    /// The type that was found, and the one that was wanted.
    Mismatch(TermId, TermId),
    /// The weak head form of a function's type, which is no product.
    NotAProduct(TermId),
    /// The last sort has no type.
    NoSortAbove,
    /// What stands at this place of the script has a type that nothing tells.
    CannotInfer(u64),
    /// The weak head form of a type's type, which is no sort.
    NotASort(TermId),
    /// The family is not eliminated into the sort.
    ElimForbidden(NameId, Sort),
    /// A variable has the name already.
    NameInUse(NameId),
    /// The budget of ticks is spent.
    StepsOut,
    /// A type or a weak head form has more than 1,000,000 nodes.
    TooLarge,
    /// A type or a weak head form fits in size, and is deeper than 2,000.
    TooDeep,
    /// The store has as many variables as it may.
    Full,
    /// The name's value is neither a term nor a name.
    NotATerm(NameId),
    /// There was no memory.
    NoMemory,
}

impl From<NoMemory> for ElabFault {
    ghost use Rattle.std.specs.Prelude.{◌≡◌};
    ghost use Rattle.lq_typing.specs.declared.faults.ElabFault.{ElabFault};

    ghost from_gives = { λ _ e. e ≡ ElabFault.NoMemory };

    fn from(_: NoMemory) -> ElabFault {
        ElabFault::NoMemory
    }
}

impl From<KernelFault> for ElabFault {
    ghost use Rattle.std.specs.Prelude.{◌≡◌};
    ghost use Rattle.lq_typing.specs.Refusals.{kernel_refusal};

    ghost from_gives = { λ f e. e ≡ kernel_refusal f };

    /// As the definition has it, the refusals that inference over a store never has are `Full`.
    fn from(fault: KernelFault) -> ElabFault {
        match fault {
            KernelFault::Unbound(name) => ElabFault::Unknown(name),
            KernelFault::NotAProduct(form) => ElabFault::NotAProduct(form),
            KernelFault::NotASort(form) => ElabFault::NotASort(form),
            KernelFault::Mismatch(found, wanted) => ElabFault::Mismatch(found, wanted),
            KernelFault::NoSortAbove => ElabFault::NoSortAbove,
            KernelFault::HasVariable(_) => ElabFault::Full,
            KernelFault::StepsOut => ElabFault::StepsOut,
            KernelFault::TooBig(_, _) => ElabFault::Full,
            KernelFault::TooLarge => ElabFault::TooLarge,
            KernelFault::TooDeep => ElabFault::TooDeep,
            KernelFault::Env(fault) => ElabFault::from(fault),
            KernelFault::NoMemory => ElabFault::NoMemory,
        }
    }
}

impl From<EnvFault> for ElabFault {
    ghost use Rattle.std.specs.Prelude.{◌≡◌};
    ghost use Rattle.lq_typing.specs.Refusals.{declared_refusal};

    ghost from_gives = { λ f e. e ≡ declared_refusal f };

    /// As the definition has it, the refusals that inference over a store never has are `Full`.
    fn from(fault: EnvFault) -> ElabFault {
        match fault {
            EnvFault::ElimForbidden(family, sort) => ElabFault::ElimForbidden(family, sort),
            EnvFault::NoMemory => ElabFault::NoMemory,
            _ => ElabFault::Full,
        }
    }
}
