//! Why a sentence is refused.

use lq_terms::{NoMemory, TermId};

/// Why a sentence was not carried out.
#[derive(Clone, Copy)]
pub enum SentenceFault {
    /// It is no sentence in its place, or has another fault than the next two.
    NotBuilt,
    /// A term has the first type, and the second was wanted.
    Differs(TermId, TermId),
    /// So many goals are open.
    OpenGoals(u64),
    /// There was no memory.
    NoMemory,
}

impl From<NoMemory> for SentenceFault {
    ghost use Rattle.std.specs.Prelude.{◌≡◌};
    ghost use Rattle.lq_script.specs.declared.fault.SentenceFault.{SentenceFault};

    ghost from_gives = { λ _ e. e ≡ SentenceFault.NoMemory };

    fn from(_: NoMemory) -> SentenceFault {
        SentenceFault::NoMemory
    }
}
