//! Why the tokens of a text are no sentence.

ghost use Rattle.std.specs.Prelude.{◌≡◌};
ghost use Rattle.lq_sentences.specs.declared.fault.SyntaxFault.TheVariants.{NoMemory};

use std::alloc::{AllocError, AllocFailed};
use thiserror::Error;

/// A fault of syntax, with its place in bytes from the start of the text, or want of memory.
#[derive(Clone, Copy, Debug, Error)]
pub enum SyntaxFault {
    /// No sentence goes on with the token at this place.
    #[error("unexpected token at {0}")]
    Unexpected(usize),
    /// The token at this place stands 201 levels deep.
    #[error("nested more than 200 deep at {0}")]
    TooNested(usize),
    /// The text ends inside a sentence; this is its end.
    #[error("text ends inside a sentence at {0}")]
    EndInside(usize),
    /// The sentence that begins at this place does not end within 65,536 bytes.
    #[error("sentence longer than 65536 bytes at {0}")]
    SentenceTooLong(usize),
    /// There was no memory for the tree.
    #[error("there was no memory")]
    NoMemory,
}

impl From<AllocError> for SyntaxFault {
    ghost from_gives = { λ _ fault. fault ≡ NoMemory };

    fn from(_: AllocError) -> SyntaxFault {
        SyntaxFault::NoMemory
    }
}

impl<T: Drop> From<AllocFailed<T>> for SyntaxFault {
    ghost from_gives = { λ _ fault. fault ≡ NoMemory };

    fn from(_: AllocFailed<T>) -> SyntaxFault {
        SyntaxFault::NoMemory
    }
}
