//! Existential variables in order of making, and the values that they were given.

ghost use Rattle.std.specs.Prelude.{ℕ, ◌≡◌, ◌<◌, Some, None, [], length, take, slice_get, option_map, OnOk, OnErr, IfOk, IfErr};
ghost use Rattle.lq_evars.specs.declared.store.StoreFault.{StoreFault};
ghost use Rattle.lq_terms.specs.Terms.{Terms, text_of, tree_of};
ghost use Rattle.lq_terms.specs.Contexts.{context_of};
ghost use Rattle.lq_terms.specs.Telling.{HasValues, values_in};
ghost use Rattle.lq_terms.specs.declared.nodes.TermId.{TermId};
ghost use Rattle.lq_trees.specs.Index.{Within};
ghost use Rattle.lq_terms.specs.Terms.{HasTerm, Grows};
ghost use Rattle.lq_solving.specs.Stores.{Variable as TreeVariable, no_variables, count, value, named_variable, new_variable, with_kind};
ghost use Rattle.lq_solving.specs.Stores.{values_of, assigned, read_fitting, reads_same};
ghost use Rattle.lq_solving.specs.Kept.{IsStore, IsVariable, IsValue, IsOver, StandsIn};
ghost use Rattle.lq_evars.specs.declared.store.Variable.{Variable};
ghost use Rattle.lq_evars.specs.Places.{Places, store_of, variable_of, value_at, number_of, HasStore, IsOwn, IsOwnOr, IsNewName, body_at};
ghost use Rattle.lq_evars.specs.Places.{GivesMore, Makes, one_more, one_given, kind_changed};
ghost use Rattle.lq_evars.specs.Reading.{Answers, Gives};
ghost use Rattle.lq_evars.specs.Closures.{IsTermOver};

use crate::comparing::reads_alike;
use crate::copying::copied_all;
use crate::filling::is_over;
use crate::reading::read_near;
use indexmap::IndexMap;
use lq_terms::{Bank, Bodies, Context, NameId, NoMemory, TermId, fits};
use lq_trees::Fit;
use std::alloc::Global;
use std::marker::Model;

/// How many variables a store may have.
const MOST_VARIABLES: u32 = 16_777_216;

/// Why a store does not answer.
#[derive(Clone, Copy)]
pub enum StoreFault {
    /// A term as read has more than 1,000,000 nodes.
    TooLarge,
    /// A term as read fits in size, and is deeper than 2,000.
    TooDeep,
    /// There are 16,777,216 variables.
    Full,
    /// There was no memory.
    NoMemory,
}

impl From<NoMemory> for StoreFault {
    ghost use Rattle.lq_evars.specs.declared.store.StoreFault.{StoreFault};

    ghost from_gives = { λ _ e. e ≡ StoreFault.NoMemory };

    fn from(_: NoMemory) -> StoreFault {
        StoreFault::NoMemory
    }
}

/// A variable: the hypotheses among which it stands, its type, its name if it has one.
#[derive(Drop)]
pub struct Variable {
    pub(crate) context: Context,
    pub(crate) kind: TermId,
    pub(crate) name: Option<NameId>,
}

/// Variables by number, in order of making, and values in the order in which they were given. Contracts see both as lists.
#[derive(Drop)]
pub struct Store {
    variables: Vec<Variable>,
    /// The value of a variable by its number.
    values: IndexMap<u32, TermId>,
    /// The number of a variable by its name.
    numbers: IndexMap<NameId, u32>,
}

impl Model for Store {
    ghost use Rattle.std.specs.Prelude.{◌≡◌, ◌≤◌, length};
    ghost use Rattle.lq_evars.specs.Places.{Places, numbers_from};

    ghost Value = { Places };

    ghost view = { λ s. record { variables = s.variables.items; values = s.values.entries } };

    ghost invariant = { λ s. (s.numbers.entries ≡ numbers_from 0 s.variables.items) × (length s.variables.items ≤ 16777216) };
}

impl Store {
    /// One with no variables.
    pub fn new(alloc: Global) -> Result<Store, NoMemory>
        ensures variables { IfOk result (λ s. s.variables ≡ []) }
        ensures values { IfOk result (λ s. s.values ≡ []) }
        ensures told { IfOk result (λ s. (bank : Terms) → store_of bank s ≡ no_variables) }
    {
        Ok(Store {
            variables: Vec::new(alloc),
            values: IndexMap::new(alloc),
            numbers: IndexMap::new(alloc),
        })
    }

    /// The same store.
    pub fn copy(&self, alloc: Global) -> Result<Store, NoMemory>
        ensures { IfOk result (λ s. s ≡ self.now) }
    {
        let variables = copied_all(alloc, self.variables.as_slice())?;
        self.with_variables(variables)
    }

    /// A store with the same values and numbers, and with variables that are the same.
    fn with_variables(&self, variables: Vec<Variable>) -> Result<Store, NoMemory>
        requires { variables.items ≡ self.now.variables }
        ensures { IfOk result (λ s. s ≡ self.now) }
    {
        let Ok(values) = self.values.clone() else {
            return Err(NoMemory);
        };
        let Ok(numbers) = self.numbers.clone() else {
            return Err(NoMemory);
        };
        Ok(Store {
            variables,
            values,
            numbers,
        })
    }

    /// What a store tells reduction of its variables' values is what is asked of such values, and is what the definition tells. It does
    /// nothing when it runs.
    pub fn values_stand(&self)
        ensures stand { (bank : Terms) → HasStore bank self.now → IsStore (store_of bank self.now) → HasValues bank (body_at self.now) }
        ensures told { (bank : Terms) → IsStore (store_of bank self.now) → (k : ℕ)
            → values_in bank (body_at self.now) k ≡ values_of (store_of bank self.now) k }
    {
        let _values = &self.values;
    }

    /// How many variables there are. It takes no memory.
    pub fn count(&self) -> u32
        ensures length { result ≡ length self.now.variables }
        ensures told { (bank : Terms) → result ≡ count (store_of bank self.now) }
    {
        self.variables.len() as u32
    }

    /// The number of the variable of that name, if there is one. It takes no memory.
    pub fn named(&self, name: NameId) -> Option<u32>
        ensures place { result ≡ number_of self.now name }
        ensures told { (bank : Terms) → HasStore bank self.now → IsOwn bank name
            → result ≡ named_variable (store_of bank self.now) (text_of bank name) }
    {
        self.numbers.get(&name).copied()
    }

    /// The value of the variable of that number, if it has one. It takes no memory.
    pub fn value(&self, id: u32) -> Option<TermId>
        ensures place { result ≡ value_at self.now id }
        ensures told { (bank : Terms) → IsStore (store_of bank self.now) → option_map (tree_of bank) result ≡ value (store_of bank self.now) id }
    {
        self.values.get(&id).copied()
    }

    /// The hypotheses among which a variable stands. It takes no memory.
    pub fn context(&self, id: u32) -> &Context
        requires { id < length self.now.variables }
        ensures place { (v : Variable) → slice_get self.now.variables id ≡ Some v → result.now ≡ v.context }
        ensures told { (bank : Terms) → (v : TreeVariable) → slice_get (store_of bank self.now).variables id ≡ Some v
            → context_of bank result.now ≡ v.context }
    {
        &self.variables[id as usize].context
    }

    /// A variable's type. It takes no memory.
    pub fn kind(&self, id: u32) -> TermId
        requires { id < length self.now.variables }
        ensures place { (v : Variable) → slice_get self.now.variables id ≡ Some v → result ≡ v.kind }
        ensures told { (bank : Terms) → (v : TreeVariable) → slice_get (store_of bank self.now).variables id ≡ Some v
            → tree_of bank result ≡ v.kind }
    {
        self.variables[id as usize].kind
    }

    /// A variable's name, if it has one. It takes no memory.
    pub fn name(&self, id: u32) -> Option<NameId>
        requires { id < length self.now.variables }
        ensures place { (v : Variable) → slice_get self.now.variables id ≡ Some v → result ≡ v.name }
        ensures told { (bank : Terms) → (v : TreeVariable) → slice_get (store_of bank self.now).variables id ≡ Some v
            → option_map (text_of bank) result ≡ v.name }
    {
        self.variables[id as usize].name
    }

    /// One more variable, whose number is the count before. No variable has its name. It is refused as full exactly where
    /// there are 16,777,216 variables; after a refusal the store is as before.
    pub fn new_var(
        &mut self,
        context: Context,
        kind: TermId,
        name: Option<NameId>,
    ) -> Result<u32, StoreFault>
        requires { IsNewName self.old name }
        ensures added { OnOk result (self.new ≡ one_more self.old (record { context = context; kind = kind; name = name })) }
        ensures kept { OnErr result (self.new ≡ self.old) }
        ensures told { (bank : Terms)
            → Makes bank result self.new (new_variable (store_of bank self.old) (variable_of bank (record { context = context; kind = kind; name = name }))) }
        ensures stands { (bank : Terms) → HasStore bank self.old → IsStore (store_of bank self.old)
            → IsVariable (store_of bank self.old) (variable_of bank (record { context = context; kind = kind; name = name })) → IsOwnOr bank name
            → OnOk result (IsStore (store_of bank self.new)) }
    {
        let id = self.count();
        if id >= MOST_VARIABLES {
            return Err(StoreFault::Full);
        }
        self.add_variable(Variable {
            context,
            kind,
            name,
        })?;
        Ok(id)
    }

    /// One more variable: the one change that adds variables.
    fn add_variable(&mut self, variable: Variable) -> Result<(), NoMemory>
        requires new { IsNewName self.old variable.name }
        requires room { length self.old.variables < 16777216 }
        ensures ok { OnOk result (self.new ≡ one_more self.old variable) }
        ensures err { OnErr result (self.new ≡ self.old) }
    {
        let place = self.variables.len();
        let name = variable.name;
        self.variables.push(variable)?;
        let Some(name) = name else {
            return Ok(());
        };
        match self.numbers.insert(name, place as u32) {
            Ok(_) => Ok(()),
            Err(_) => {
                self.variables.truncate(place);
                Err(NoMemory)
            }
        }
    }

    /// A variable's type is that term from now on. The only refusal is for want of memory, after which the store is as before.
    pub fn set_kind(&mut self, id: u32, kind: TermId) -> Result<(), StoreFault>
        requires { id < length self.old.variables }
        ensures changed { OnOk result (self.new ≡ kind_changed self.old id kind) }
        ensures kept { OnErr result (self.new ≡ self.old) }
        ensures refused { IfErr result (λ f. f ≡ StoreFault.NoMemory) }
        ensures told { OnOk result ((bank : Terms) → store_of bank self.new ≡ with_kind (store_of bank self.old) id (tree_of bank kind)) }
        ensures stands { (bank : Terms) → IsStore (store_of bank self.old)
            → ((v : TreeVariable) → slice_get (store_of bank self.old).variables id ≡ Some v
            → StandsIn (store_of bank self.old) v.context (tree_of bank kind))
            → OnOk result (IsStore (store_of bank self.new)) }
    {
        self.put_kind(id, kind);
        Ok(())
    }

    /// Another type for a variable: the one change of a type.
    fn put_kind(&mut self, id: u32, kind: TermId)
        requires { id < length self.old.variables }
        ensures changed { self.new ≡ kind_changed self.old id kind }
        ensures told { (bank : Terms) → store_of bank self.new ≡ with_kind (store_of bank self.old) id (tree_of bank kind) }
    {
        self.variables[id as usize].kind = kind;
    }

    /// The term with all values filled in. It is refused as too large exactly where that has more than 1,000,000 nodes, and as
    /// too deep exactly where it fits in size and is deeper than 2,000. A part that reads as it stands keeps its place, one that
    /// occurs often is read once, and nothing is built that has more than 1,000,000 nodes.
    pub fn read(&self, bank: &mut Bank<'_>, term: TermId) -> Result<TermId, StoreFault>
        requires store { HasStore bank.old self.now }
        requires kept { IsStore (store_of bank.old self.now) }
        requires term { HasTerm bank.old term }
        requires over { IsOver (store_of bank.old self.now).variables (tree_of bank.old term) }
        requires closed { Within 0 (tree_of bank.old term) }
        ensures answer { Answers bank.new result (read_fitting (store_of bank.old self.now) (tree_of bank.old term)) }
        ensures grows { Grows bank.old bank.new }
    {
        let answer = read_near(bank, self, term)?;
        if is_over(bank, answer) {
            return Err(StoreFault::TooLarge);
        }
        match fits(bank, answer) {
            Fit::Fits => Ok(answer),
            Fit::TooLarge => Err(StoreFault::TooLarge),
            Fit::TooDeep => Err(StoreFault::TooDeep),
        }
    }

    /// Whether two terms as they read are equal but for the names of binders, however large they are. Nothing is built, and the only
    /// refusal is for want of memory: what is left to compare stands on a stack on the heap. Parts without variables that stand for
    /// themselves are compared in one step, and two terms with nothing around them that occur often are compared once.
    pub fn same(&self, bank: &Bank<'_>, left: TermId, right: TermId) -> Result<bool, NoMemory>
        requires store { HasStore bank.now self.now }
        requires kept { IsStore (store_of bank.now self.now) }
        requires left { IsTermOver bank.now (store_of bank.now self.now).variables left }
        requires right { IsTermOver bank.now (store_of bank.now self.now).variables right }
        ensures { IfOk result (λ b. b ≡ reads_same (store_of bank.now self.now) (tree_of bank.now left) (tree_of bank.now right)) }
    {
        reads_alike(bank, self, left, right)
    }

    /// A value for a variable that has none: a body that does not lead back to the variable, and as it reads holds hypotheses of
    /// the variable's context alone. It is refused as too large or too deep exactly where the body as it reads passes those limits;
    /// after a refusal the store is as before.
    pub fn assign(&mut self, bank: &mut Bank<'_>, id: u32, body: TermId) -> Result<(), StoreFault>
        requires store { HasStore bank.old self.old }
        requires kept { IsStore (store_of bank.old self.old) }
        requires body { HasTerm bank.old body }
        requires value { IsValue (store_of bank.old self.old).variables (store_of bank.old self.old).values (record { id = id; body = tree_of bank.old body }) }
        ensures given { OnOk result (self.new ≡ one_given self.old id body) }
        ensures kept { OnErr result (self.new ≡ self.old) }
        ensures told { Gives bank.new result self.new (assigned (store_of bank.old self.old) id (tree_of bank.old body)) }
        ensures stands { OnOk result (IsStore (store_of bank.new self.new)) }
        ensures has { OnOk result (HasStore bank.new self.new) }
        ensures grows { Grows bank.old bank.new }
    {
        match self.read(bank, body) {
            Ok(_) => {
                self.put_value(id, body)?;
                Ok(())
            }
            Err(fault) => Err(fault),
        }
    }

    /// A value for a variable that has none: the one change that gives values.
    fn put_value(&mut self, id: u32, body: TermId) -> Result<(), NoMemory>
        requires { value_at self.old id ≡ None }
        ensures given { OnOk result (self.new ≡ one_given self.old id body) }
        ensures kept { OnErr result (self.new ≡ self.old) }
    {
        let Ok(_) = self.values.insert(id, body) else {
            return Err(NoMemory);
        };
        Ok(())
    }

    /// How many values were given. It takes no memory.
    pub fn given(&self) -> usize
        ensures { result ≡ length self.now.values }
    {
        self.values.len()
    }

    /// The number of the variable that was given the value of that place, in the order of giving. It takes no memory.
    pub fn given_to(&self, place: usize) -> Option<u32>
        ensures { result ≡ option_map (λ a. a.0) (slice_get self.now.values place) }
    {
        match self.values.get_index(place) {
            Some((id, _)) => Some(*id),
            None => None,
        }
    }

    /// The store as it was when so many values were given, where only values were given since: the one change that takes values
    /// back. It takes no memory, and the time of what it takes back.
    pub fn take_back(&mut self, given: usize)
        ensures variables { self.new.variables ≡ self.old.variables }
        ensures values { self.new.values ≡ take given self.old.values }
        ensures back { (before : Places) → GivesMore before self.old → given ≡ length before.values → self.new ≡ before }
    {
        self.values.truncate(given);
    }
}

impl Bodies for Store {
    ghost use Rattle.lq_evars.specs.Places.{body_at};

    ghost value_of = { body_at };

    fn body(&self, variable: u32) -> Option<(&Context, TermId)> {
        let value = self.value(variable)?;
        match self.variables.get(variable as usize) {
            Some(known) => Some((&known.context, value)),
            None => None,
        }
    }
}
