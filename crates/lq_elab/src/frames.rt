//! What waits for what a part is elaborated to.

ghost use Rattle.std.specs.Prelude.{◌≡◌, [], ◌∷◌, OnOk, OnErr, MatchOption};

use crate::scope::Meaning;
use crate::views::Asked;
use lq_ast::Surface;
use lq_terms::{NameId, NoMemory, TermId};
use lq_trees::Sort;
use std::alloc::Global;
use std::marker::Model;

/// A binder whose rest is elaborated under a hypothesis for its variable.
#[derive(Clone, Copy)]
pub(crate) struct Bound {
    /// Its name.
    pub(crate) binder: NameId,
    /// The hypothesis.
    pub(crate) hypothesis: NameId,
    /// Its type.
    pub(crate) kind: TermId,
    /// What the name stood for outside.
    pub(crate) hidden: Meaning,
}

/// What of a term waits for what a part of it is elaborated to.
#[derive(Clone, Copy)]
pub(crate) enum Part<'t> {
    /// A product, for its domain: the binder and the rest.
    ProductDomain(NameId, Asked<'t>),
    /// A product, for its rest; the sort of its domain is known.
    ProductRest(Bound, Sort),
    /// A function, for its domain: the binder, the rest, and the domain and the rest of the product that is wanted, if one is.
    FunctionDomain(NameId, Asked<'t>, Option<(TermId, TermId)>),
    /// A function, for its rest.
    FunctionRest(Bound),
    /// A local definition, for its type: the name, the value and the rest.
    DefinitionKind(NameId, &'t Surface, &'t Surface),
    /// A local definition, for its value: the name, the type if one is written, and the rest.
    DefinitionValue(NameId, Option<TermId>, &'t Surface),
    /// A local definition, for its rest: the value.
    DefinitionRest(Bound, TermId),
    /// An application, for its function: the first argument and the others.
    Function(&'t Surface, &'t [Surface]),
    /// An application, for an argument: the function, the rest of its product, and the arguments that follow.
    Argument(TermId, TermId, &'t [Surface]),
    /// A cast, for its type: the term.
    CastKind(&'t Surface),
    /// A cast, for its term: the type.
    CastTerm(TermId),
}

/// A term that waits for a part of it.
#[derive(Clone, Copy)]
pub(crate) struct Frame<'t> {
    /// What of it waits.
    pub(crate) part: Part<'t>,
    /// The type that is wanted of the term.
    pub(crate) wanted: Option<TermId>,
}

/// All that waits, which contracts see as a list, the nearest first.
#[derive(Drop)]
pub(crate) struct Frames<'t> {
    frames: Vec<Frame<'t>>,
}

impl<'t> Model for Frames<'t> {
    ghost use Rattle.std.specs.Prelude.{List, reverse};
    ghost use Rattle.std.specs.Coded.{coded_list, codes};
    ghost use Rattle.lq_ast.specs.contracts.surface.Surface as e;
    ghost use Rattle.lq_ast.specs.contracts.surface.Binders as b;
    ghost use Rattle.lq_elab.specs.declared.frames.Frame.{Frame};

    ghost Value = { List Frame };

    ghost coded = { coded_list (Prim.hlevel (codes, e.the_row.coded, b.the_row.coded)) };

    ghost view = { λ f. reverse f.frames.items };
}

impl<'t> Frames<'t> {
    /// Nothing waits.
    pub(crate) fn new(alloc: Global) -> Frames<'t>
        ensures { result ≡ [] }
    {
        Frames {
            frames: Vec::new(alloc),
        }
    }

    /// One more, the nearest.
    pub(crate) fn push(&mut self, frame: Frame<'t>) -> Result<(), NoMemory>
        ensures ok { OnOk result (self.new ≡ frame.entry ∷ self.old) }
        ensures err { OnErr result (self.new ≡ self.old) }
    {
        match self.frames.push(frame) {
            Ok(()) => Ok(()),
            Err(_) => Err(NoMemory),
        }
    }

    /// Takes the nearest one away and answers it, if there is one.
    pub(crate) fn pop(&mut self) -> Option<Frame<'t>>
        ensures { MatchOption result ((self.old ≡ []) × (self.new ≡ [])) (λ f. self.old ≡ f ∷ self.new) }
    {
        self.frames.pop()
    }
}
