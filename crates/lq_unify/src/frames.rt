//! Work that waits for an answer.

ghost use Rattle.std.specs.Prelude.{◌≡◌, [], ◌∷◌, OnOk, OnErr, MatchOption};

use crate::forms::Form;
use crate::pairs::Pair;
use lq_terms::NoMemory;
use std::alloc::Global;
use std::marker::Model;

/// Parts that are still to be unified.
#[derive(Drop)]
pub(crate) struct Parts {
    /// How many hypotheses their context has.
    pub(crate) mark: usize,
    /// How many of the pairs were unified.
    pub(crate) next: usize,
    /// All of them.
    pub(crate) form: Form,
}

/// A call whose terms go to weak head form after a No.
#[derive(Clone, Copy)]
pub(crate) struct Reducing {
    /// How many hypotheses their context has.
    pub(crate) mark: usize,
    /// How many values the store had.
    pub(crate) given: usize,
    /// The two terms.
    pub(crate) pair: Pair,
}

/// What waits for an answer.
#[derive(Drop)]
pub(crate) enum Frame {
    /// Parts that are still to be unified.
    Parts(Parts),
    /// A call whose terms go to weak head form after a No.
    Reducing(Reducing),
}

/// All that waits for an answer, which contracts see as a list, the nearest first.
#[derive(Drop)]
pub(crate) struct Frames {
    frames: Vec<Frame>,
}

impl Model for Frames {
    ghost use Rattle.std.specs.Prelude.{List, reverse};
    ghost use Rattle.lq_unify.specs.declared.frames.Frame.{Frame};

    ghost Value = { List Frame };

    ghost view = { λ f. reverse f.frames.items };
}

impl Frames {
    /// Nothing waits.
    pub(crate) fn new(alloc: Global) -> Frames
        ensures { result ≡ [] }
    {
        Frames {
            frames: Vec::new(alloc),
        }
    }

    /// One more, the nearest.
    pub(crate) fn push(&mut self, frame: Frame) -> Result<(), NoMemory>
        ensures ok { OnOk result (self.new ≡ frame ∷ self.old) }
        ensures err { OnErr result (self.new ≡ self.old) }
    {
        match self.frames.push(frame) {
            Ok(()) => Ok(()),
            Err(_) => Err(NoMemory),
        }
    }

    /// Takes the nearest one away and answers it, if there is one.
    pub(crate) fn pop(&mut self) -> Option<Frame>
        ensures { MatchOption result ((self.old ≡ []) × (self.new ≡ [])) (λ f. self.old ≡ f ∷ self.new) }
    {
        self.frames.pop()
    }
}
