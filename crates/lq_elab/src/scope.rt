//! What names stand for, by a map: the nearest binder, else the Ltac value, else the hypothesis.

ghost use Rattle.std.specs.Prelude.{◌≡◌, false, Option, Some, None, IfOk, OnOk};
ghost use Rattle.lq_trees.specs.Tree.{Name, same_name};
ghost use Rattle.lq_terms.specs.Terms.{Terms, HasName, text_of};
ghost use Rattle.lq_elab.specs.Naming.{Meaning as TreeMeaning, with_meaning};
ghost use Rattle.lq_elab.specs.Scopes.{IsScope, meaning_of, HasMeaning};

use indexmap::IndexMap;
use lq_terms::{Bank, NameId, NoMemory, TermId};
use std::alloc::Global;
use std::marker::Model;

/// What a name stands for.
#[derive(Clone, Copy)]
pub(crate) enum Meaning {
    /// A hypothesis and its type.
    Variable(NameId, TermId),
    /// A term that is an Ltac value.
    Value(TermId),
    /// Nothing: an Ltac value that is the name of no hypothesis.
    Nothing,
    /// An Ltac value that is neither term nor name.
    NoTerm,
    /// A global, if there is one of that name.
    Global,
}

/// What each name stands for that is no global alone, which contracts see as pairs.
#[derive(Drop)]
pub(crate) struct Scope {
    meanings: IndexMap<NameId, Meaning>,
}

impl Model for Scope {
    ghost use Rattle.std.specs.Prelude.{List};
    ghost use Rattle.lq_terms.specs.declared.nodes.NameId.{NameId};
    ghost use Rattle.lq_elab.specs.declared.scope.Meaning.{Meaning};

    ghost Value = { List (NameId × Meaning) };

    ghost view = { λ s. s.meanings.entries };
}

impl Scope {
    /// Each name is that of a global.
    pub(crate) fn new(alloc: Global) -> Scope
        ensures { (bank : Terms) → IsScope bank (λ x. None) result }
    {
        Scope {
            meanings: IndexMap::new(alloc),
        }
    }

    /// What a name stands for.
    pub(crate) fn get(&self, bank: &Bank<'_>, name: NameId) -> Meaning
        requires name { HasName bank.now name }
        ensures is { (meanings : Name → Option TreeMeaning) → IsScope bank.now meanings self.now
            → meaning_of bank.now result ≡ meanings (text_of bank.now name) }
        ensures has { (meanings : Name → Option TreeMeaning) → IsScope bank.now meanings self.now → HasMeaning bank.now result }
    {
        bank.names_apart();
        match self.meanings.get(&name).copied() {
            Some(meaning) => meaning,
            None => Meaning::Global,
        }
    }

    /// A name, also an empty one, stands for something else.
    pub(crate) fn add(
        &mut self,
        bank: &Bank<'_>,
        name: NameId,
        meaning: Meaning,
    ) -> Result<(), NoMemory>
        requires name { HasName bank.now name }
        requires meaning { HasMeaning bank.now meaning }
        ensures { (old new : Name → Option TreeMeaning) → IsScope bank.now old self.old → meaning_of bank.now meaning ≡ new (text_of bank.now name)
            → ((z : Name) → same_name (text_of bank.now name) z ≡ false → new z ≡ old z) → OnOk result (IsScope bank.now new self.new) }
    {
        let Ok(_) = self.meanings.insert(name, meaning) else {
            return Err(NoMemory);
        };
        Ok(())
    }

    /// A name stands for something else, if it is a name.
    fn put(&mut self, bank: &Bank<'_>, name: NameId, meaning: Meaning) -> Result<(), NoMemory>
        requires name { HasName bank.now name }
        requires meaning { HasMeaning bank.now meaning }
        ensures set { (old : Name → Option TreeMeaning) (m : TreeMeaning) → IsScope bank.now old self.old → meaning_of bank.now meaning ≡ Some m
            → OnOk result (IsScope bank.now (with_meaning (text_of bank.now name) m old) self.new) }
        ensures restored { (new : Name → Option TreeMeaning) (m : TreeMeaning) → IsScope bank.now (with_meaning (text_of bank.now name) m new) self.old
            → meaning_of bank.now meaning ≡ new (text_of bank.now name) → IsScope bank.now new self.new }
    {
        bank.names_apart();
        if bank.text(name).is_empty() {
            return Ok(());
        }
        let Ok(_) = self.meanings.insert(name, meaning) else {
            return Err(NoMemory);
        };
        Ok(())
    }

    /// From now on a name stands for something else, if it is a name. What it stood for is answered.
    pub(crate) fn set(
        &mut self,
        bank: &Bank<'_>,
        name: NameId,
        meaning: Meaning,
    ) -> Result<Meaning, NoMemory>
        requires name { HasName bank.now name }
        requires meaning { HasMeaning bank.now meaning }
        ensures set { (old : Name → Option TreeMeaning) (m : TreeMeaning) → IsScope bank.now old self.old → meaning_of bank.now meaning ≡ Some m
            → OnOk result (IsScope bank.now (with_meaning (text_of bank.now name) m old) self.new) }
        ensures hidden { (old : Name → Option TreeMeaning) → IsScope bank.now old self.old
            → IfOk result (λ o. meaning_of bank.now o ≡ old (text_of bank.now name)) }
        ensures has { (old : Name → Option TreeMeaning) → IsScope bank.now old self.old → IfOk result (HasMeaning bank.now) }
    {
        let hidden = self.get(bank, name);
        self.put(bank, name, meaning)?;
        Ok(hidden)
    }

    /// A name stands again for what it stood for before it was set. It takes no memory.
    pub(crate) fn restore(&mut self, bank: &Bank<'_>, name: NameId, hidden: Meaning)
        requires name { HasName bank.now name }
        requires hidden { HasMeaning bank.now hidden }
        ensures { (new : Name → Option TreeMeaning) (m : TreeMeaning) → IsScope bank.now (with_meaning (text_of bank.now name) m new) self.old
            → meaning_of bank.now hidden ≡ new (text_of bank.now name) → IsScope bank.now new self.new }
    {
        match self.put(bank, name, hidden) {
            Ok(()) => {}
            Err(_) => {}
        }
    }
}
