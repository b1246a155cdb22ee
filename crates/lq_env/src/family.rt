//! An inductive family as it is declared, and why an environment does not take a declaration.

ghost use Rattle.std.specs.Prelude.{◌≡◌, [], ◌∷◌, ◌++◌, OnOk, OnErr};

use lq_terms::{Context, NameId, NoMemory, TermId};
use lq_trees::Sort;
use std::alloc::{AllocFailed, Global};
use std::marker::Model;

/// Constructors in order, which contracts see as a list: the name of each, and its type under the
/// family's parameters, which stand in it as hypotheses.
#[derive(Drop)]
pub struct Constructors {
    constructors: Vec<(NameId, TermId)>,
}

impl Model for Constructors {
    ghost use Rattle.std.specs.Prelude.{List};
    ghost use Rattle.lq_terms.specs.declared.nodes.NameId.{NameId};
    ghost use Rattle.lq_terms.specs.declared.nodes.TermId.{TermId};

    ghost Value = { List (NameId × TermId) };

    ghost view = { λ c. c.constructors.items };
}

impl Constructors {
    /// No constructors.
    pub fn new(alloc: Global) -> Constructors
        ensures { result ≡ [] }
    {
        Constructors {
            constructors: Vec::new(alloc),
        }
    }

    /// One more constructor, at the end. After want of memory the list is as before.
    pub fn push(&mut self, name: NameId, kind: TermId) -> Result<(), NoMemory>
        ensures ok { OnOk result (self.new ≡ self.old ++ (name, kind) ∷ []) }
        ensures err { OnErr result (self.new ≡ self.old) }
    {
        match self.constructors.push((name, kind)) {
            Ok(()) => Ok(()),
            Err(_) => Err(NoMemory),
        }
    }

    /// The constructors.
    pub fn constructors(&self) -> &[(NameId, TermId)]
        ensures { result.now ≡ self.now }
    {
        self.constructors.as_slice()
    }
}

/// An inductive family. What it names lies in one bank.
#[derive(Drop)]
pub struct Family {
    /// Its name.
    pub name: NameId,
    /// Its parameters, the oldest first. Their types hold parameters before them as hypotheses.
    pub parameters: Context,
    /// Its indices, the oldest first. Their types hold parameters, and indices before them.
    pub indices: Context,
    /// The sort that it lies in.
    pub sort: Sort,
    /// Its constructors.
    pub constructors: Constructors,
}

/// Why an environment does not take a declaration, or does not give an eliminator.
#[derive(Clone, Copy, Debug, PartialEq, Eq)]
pub enum EnvFault {
    /// The name is declared already, or twice in this declaration.
    NameTaken(NameId),
    /// An argument of a constructor, counted from 1 without parameters, is a product that holds the family.
    NotPositive(NameId, u64),
    /// An argument of a constructor, counted from 1 without parameters, holds the family otherwise than as a recursive argument.
    NestedUse(NameId, u64),
    /// The constructor's type does not end in the family applied to its parameters and to indices without it.
    BadResult(NameId),
    /// The family is not eliminated into the sort.
    ElimForbidden(NameId, Sort),
    /// A type that is to be stored has more than 1,000,000 nodes.
    TooLarge,
    /// A type that is to be stored fits in size, and is deeper than 2,000.
    TooDeep,
    /// There was no memory.
    NoMemory,
}

impl From<NoMemory> for EnvFault {
    ghost use Rattle.std.specs.Prelude.{◌≡◌};
    ghost use Rattle.lq_env.specs.declared.family.EnvFault.{EnvFault};

    ghost from_gives = { λ _ e. e ≡ EnvFault.NoMemory };

    fn from(_: NoMemory) -> EnvFault {
        EnvFault::NoMemory
    }
}

impl<T: Drop> From<AllocFailed<T>> for EnvFault {
    ghost use Rattle.std.specs.Prelude.{◌≡◌};
    ghost use Rattle.lq_env.specs.declared.family.EnvFault.{EnvFault};

    ghost from_gives = { λ _ e. e ≡ EnvFault.NoMemory };

    fn from(_: AllocFailed<T>) -> EnvFault {
        EnvFault::NoMemory
    }
}
