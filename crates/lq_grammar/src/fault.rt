//! Why a text has no next sentence.

ghost use Rattle.std.specs.Prelude.{◌≡◌};
ghost use Rattle.lq_grammar.specs.declared.fault.LexFault.TheVariants.{NoMemory};

use std::alloc::{AllocError, AllocFailed};
use thiserror::Error;

/// A fault of the text, with its place in bytes from the start of the text, or want of memory.
#[derive(Clone, Copy, Debug, PartialEq, Eq, Error)]
pub enum LexFault {
    /// The byte at this place begins no character, the character here begins no token, or the name here is too long.
    #[error("bad character at {0}")]
    BadChar(usize),
    /// The comment that was opened here is not closed.
    #[error("comment opened at {0} is not closed")]
    OpenComment(usize),
    /// The string that was opened here is not closed.
    #[error("string opened at {0} is not closed")]
    OpenString(usize),
    /// The number here is 2^128 or more, or a character of a name stands directly behind it.
    #[error("bad number at {0}")]
    BadNumber(usize),
    /// There was no memory for the tokens.
    #[error("there was no memory")]
    NoMemory,
}

impl From<AllocError> for LexFault {
    ghost from_gives = { λ _ fault. fault ≡ NoMemory };

    fn from(_: AllocError) -> LexFault {
        LexFault::NoMemory
    }
}

impl<T: Drop> From<AllocFailed<T>> for LexFault {
    ghost from_gives = { λ _ fault. fault ≡ NoMemory };

    fn from(_: AllocFailed<T>) -> LexFault {
        LexFault::NoMemory
    }
}
