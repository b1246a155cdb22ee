//! Why nothing was read.

ghost use Rattle.std.specs.Prelude.{◌≡◌};
ghost use Rattle.lq_script.specs.declared.reader.fault.Unread.TheVariants.{Memory};

use std::alloc::{AllocError, AllocFailed};

/// Why a reader gave nothing.
#[derive(Drop)]
pub(crate) enum Unread {
    /// There was no memory.
    Memory,
    /// The text is not in the grammar.
    Grammar,
}

impl From<AllocError> for Unread {
    ghost from_gives = { λ _ fault. fault ≡ Memory };

    fn from(_: AllocError) -> Unread {
        Unread::Memory
    }
}

impl<T: Drop> From<AllocFailed<T>> for Unread {
    ghost from_gives = { λ _ fault. fault ≡ Memory };

    fn from(_: AllocFailed<T>) -> Unread {
        Unread::Memory
    }
}
