//! What waits for the types of parts while a term's type is found.

ghost use Rattle.std.specs.Prelude.{◌≡◌, [], ◌∷◌, OnOk, OnErr, MatchOption};

use lq_terms::{NameId, NoMemory, TermId};
use lq_trees::Sort;
use std::alloc::Global;
use std::marker::Model;

/// What waits for the type of a part. Terms are as they are kept.
#[derive(Clone, Copy)]
pub(crate) enum Frame {
    /// A product, for that of its domain: binder, domain, rest.
    ProductDomain(NameId, TermId, TermId),
    /// A product, for that of its rest under one hypothesis more; the sort of its domain is known.
    ProductRest(Sort),
    /// A function, for that of its domain: binder, domain, rest.
    FunctionDomain(NameId, TermId, TermId),
    /// A function, for that of its rest under a hypothesis more: binder, hypothesis, domain.
    FunctionRest(NameId, NameId, TermId),
    /// A local definition, for that of its type: binder, value, type, rest.
    DefinitionKind(NameId, TermId, TermId, TermId),
    /// A local definition, for that of its value: binder, value, type, rest.
    DefinitionValue(NameId, TermId, TermId, TermId),
    /// A local definition, for that of its rest under a hypothesis more: hypothesis, value.
    DefinitionRest(NameId, TermId),
    /// An application, for that of its function: the argument.
    Function(TermId),
    /// An application, for that of its argument: the argument, and the domain and the rest of the function's product.
    Argument(TermId, TermId, TermId),
}

/// What stands under a binder whose variable gets a hypothesis.
#[derive(Clone, Copy)]
pub(crate) enum Under {
    /// The rest of a product, whose domain has that sort.
    Product(Sort),
    /// The rest of a function.
    Function,
    /// The rest of a local definition of that value.
    Definition(TermId),
}

/// What comes next.
#[derive(Clone, Copy)]
pub(crate) enum Turn {
    /// The type of a kept term is to be found.
    Ask(TermId),
    /// A type was found. It is as read.
    Found(TermId),
}

/// All that waits, which contracts see as a list, the nearest first.
#[derive(Drop)]
pub(crate) struct Waiting {
    frames: Vec<Frame>,
}

impl Model for Waiting {
    ghost use Rattle.std.specs.Prelude.{List, reverse};
    ghost use Rattle.lq_typing.specs.declared.waiting.Frame.{Frame};

    ghost Value = { List Frame };

    ghost view = { λ w. reverse w.frames.items };
}

impl Waiting {
    /// Nothing waits.
    pub(crate) fn new(alloc: Global) -> Waiting
        ensures { result ≡ [] }
    {
        Waiting {
            frames: Vec::new(alloc),
        }
    }

    /// One more, the nearest.
    pub(crate) fn push(&mut self, frame: Frame) -> Result<(), NoMemory>
        ensures ok { OnOk result (self.new ≡ frame ∷ self.old) }
        ensures err { OnErr result (self.new ≡ self.old) }
    {
        match self.frames.push(frame) {
            Ok(()) => Ok(()),
            Err(_) => Err(NoMemory),
        }
    }

    /// Takes the nearest one away and answers it, if there is one.
    pub(crate) fn pop(&mut self) -> Option<Frame>
        ensures { MatchOption result ((self.old ≡ []) × (self.new ≡ [])) (λ f. self.old ≡ f ∷ self.new) }
    {
        self.frames.pop()
    }
}
