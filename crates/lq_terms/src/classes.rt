//! Classes: two terms of a bank are the same but for the names of their binders exactly where they have one class.

ghost use Rattle.std.specs.Prelude.{◌≡◌, ◌==◌, ℕ, ◌<◌, [], ◌∷◌, ◌++◌, length, map, slice_get, Some, IfOk, OnOk, OnErr};
ghost use Rattle.std.specs.List.{AllByRecursion};
ghost use Rattle.std.specs.Cmp.Lexicographic.{pointwise};
ghost use Rattle.std.specs.Cmp.Rules.{comparing, hashing};
ghost use Rattle.std.specs.Hash as fed;
ghost use Rattle.std.proofs.Common.{rules};
ghost use Rattle.lq_terms.specs.declared.classes.Shape.{Shape};
ghost use Rattle.lq_terms.specs.Shapes.{AreDistinct};

use crate::nodes::{NameId, NoMemory};
use indexmap::IndexSet;
use lq_trees::Sort;
use std::alloc::Global;
use std::hash::{Hash, Hasher};
use std::marker::Model;

/// A class: the place of a shape.
pub(crate) type Class = usize;

/// The classes of the entries of an instance, which contracts see as a list.
#[derive(Drop)]
pub(crate) struct Classes {
    places: Vec<Class>,
}

impl Model for Classes {
    ghost use Rattle.std.specs.Prelude.{ℕ, List};

    ghost Value = { List ℕ };

    ghost view = { λ c. c.places.items };
}

impl PartialEq for Classes {
    ghost eq = { pointwise ◌==◌ };

    ghost laws = { Prim.search (comparing, rules) };

    fn eq(&self, other: &Classes) -> bool {
        self.places == other.places
    }
}

impl Eq for Classes {
    ghost laws = { Prim.search (comparing, rules) };
}

impl Hash for Classes {
    ghost hash_input = { fed.slice fed.usize };

    ghost respects_eq = { Prim.search (hashing, rules) };

    fn hash<H: Hasher>(&self, state: &mut H) {
        self.places.hash(state);
    }
}

impl Classes {
    /// None.
    pub(crate) fn new(alloc: Global) -> Classes
        ensures { result ≡ [] }
    {
        Classes {
            places: Vec::new(alloc),
        }
    }

    /// One more, at the end.
    pub(crate) fn push(&mut self, class: Class) -> Result<(), NoMemory>
        ensures ok { OnOk result (self.new ≡ self.old ++ class ∷ []) }
        ensures err { OnErr result (self.new ≡ self.old) }
    {
        match self.places.push(class) {
            Ok(()) => Ok(()),
            Err(_) => Err(NoMemory),
        }
    }
}

/// A node without the names of its binders, and with the classes of its parts in their place.
#[derive(Drop, PartialEq, Eq, Hash)]
pub(crate) enum Shape {
    Rel(u32),
    Var(NameId),
    Sort(Sort),
    Prod(Class, Class),
    Lam(Class, Class),
    Let(Class, Class, Class),
    App(Class, Class),
    Const(NameId),
    Ind(NameId),
    Ctor(NameId, u32),
    Elim(NameId, Sort),
    Evar(u32, Classes),
}

/// The class of a shape, which joins the shapes if it is new.
pub(crate) fn class_of(shapes: &mut IndexSet<Shape>, shape: Shape) -> Result<Class, NoMemory>
    requires { AreDistinct shapes.old.keys }
    ensures stands { IfOk result (λ c. slice_get shapes.new.keys c ≡ Some shape) }
    ensures kept { (i : ℕ) (s : Shape) → slice_get shapes.old.keys i ≡ Some s → slice_get shapes.new.keys i ≡ Some s }
    ensures distinct { AreDistinct shapes.new.keys }
{
    match shapes.insert_full(shape) {
        Ok((class, _)) => Ok(class),
        Err(_) => Err(NoMemory),
    }
}
