//! A proof: its store, the goals in focus and those on the shelf.

ghost use Rattle.std.specs.Prelude.{◌≡◌, ◌∷◌, ◌++◌, [], true, false, length, drop, slice_get, None, IfOk, OnOk, OnErr};
ghost use Rattle.std.specs.Borrow.{Lends, sem};
ghost use Rattle.lq_terms.specs.Terms.{Terms, HasTerm, tree_of};
ghost use Rattle.lq_terms.specs.Contexts.{HasContext, context_of};
ghost use Rattle.lq_solving.specs.Stores.{no_variables};
ghost use Rattle.lq_solving.specs.Kept.{IsStore, IsVariable};
ghost use Rattle.lq_evars.specs.Places.{HasStore, store_of};
ghost use Rattle.lq_evars.specs.contracts.store.Store.{the_row as store_row};
ghost use Rattle.lq_states.specs.Goals.{alone, started, without, replaced, shelve, open_count};
ghost use Rattle.lq_states.specs.Kept.{IsListed, AreDistinct, MayReplace, IsProof, IsSwept};
ghost use Rattle.lq_goals.specs.Held.{proof_of, with_places, with_goals, open_in, Changes, Exchanges, AreQuiet, IsQuiet, IsPlain};
ghost use Rattle.lq_evars.specs.declared.store.StoreFault.{StoreFault};
ghost use Rattle.lq_goals.specs.contracts.proof.Proof.{the_row};

use crate::lists::{behind, has, has_each, refocused, shelf_with, sweep, take_out};
use lq_evars::{Store, StoreFault};
use lq_terms::{Bank, Context, NoMemory, TermId};
use std::alloc::Global;
use std::marker::Model;

/// How many goals may be in focus.
const MOST_GOALS: usize = 10_000;

/// Why the lists of a proof don't change.
#[derive(Clone, Copy)]
pub enum GoalFault {
    /// A goal is not in focus.
    NothingFocused,
    /// More than 10,000 goals would be in focus.
    TooManyGoals,
    /// There was no memory.
    NoMemory,
}

impl From<NoMemory> for GoalFault {
    ghost use Rattle.lq_goals.specs.declared.proof.GoalFault.{GoalFault};

    ghost from_gives = { λ _ e. e ≡ GoalFault.NoMemory };

    fn from(_: NoMemory) -> GoalFault {
        GoalFault::NoMemory
    }
}

/// A store of existential variables, and the numbers of those that are goals: in focus, or on the shelf. Variable 0 is the root,
/// whose value is the proof's term.
#[derive(Drop)]
pub struct Proof {
    store: Store,
    focus: Vec<u32>,
    shelf: Vec<u32>,
    /// How many values the store had when goals with a value last left the lists.
    given: usize,
    /// How many variables it had then.
    seen: u32,
}

impl Model for Proof {
    ghost use Rattle.lq_goals.specs.Held.{Held};

    ghost Value = { Held };

    ghost view = { λ p. record { store = p.store; focus = p.focus.items; shelf = p.shelf.items; given = p.given; seen = p.seen } };
}

/// A store with one variable.
fn with_root(alloc: Global, context: Context, kind: TermId) -> Result<Store, NoMemory>
    ensures told { IfOk result (λ s. (bank : Terms) → store_of bank s ≡ (alone (context_of bank context) (tree_of bank kind)).store) }
    ensures has { (bank : Terms) → HasContext bank context → HasTerm bank kind → IfOk result (HasStore bank) }
    ensures stands { (bank : Terms) → IsVariable no_variables (record { context = context_of bank context; kind = tree_of bank kind; name = None })
        → IfOk result (λ s. IsStore (store_of bank s)) }
{
    let mut store = Store::new(alloc)?;
    match store.new_var(context, kind, None) {
        Ok(_) => Ok(store),
        Err(fault) => Err(memory_ended(fault)),
    }
}

/// Want of memory, the one fault that comes there.
fn memory_ended(fault: StoreFault) -> NoMemory
    requires { fault ≡ StoreFault.NoMemory }
{
    let _fault = fault;
    NoMemory
}

impl Proof {
    /// The proof of one goal of that type, variable 0, with no hypotheses. It is the root.
    pub fn start(bank: &Bank<'_>, kind: TermId) -> Result<Proof, NoMemory>
        ensures told { IfOk result (λ p. (other : Terms) → proof_of other p ≡ started (tree_of other kind)) }
        ensures has { (other : Terms) → HasTerm other kind → IfOk result (λ p. HasStore other p.store) }
        ensures stands { (other : Terms) → IsVariable no_variables (record { context = []; kind = tree_of other kind; name = None })
            → IfOk result (λ p. IsStore (store_of other p.store)) }
        ensures swept { IfOk result (λ p. (other : Terms) → IsSwept (proof_of other p) p.given p.seen) }
    {
        let alloc = bank.allocator();
        Proof::alone(alloc, Context::new(alloc), kind)
    }

    /// The proof of one goal, variable 0, with that context and type. It is the root.
    pub fn alone(alloc: Global, context: Context, kind: TermId) -> Result<Proof, NoMemory>
        ensures told { IfOk result (λ p. (bank : Terms) → proof_of bank p ≡ alone (context_of bank context) (tree_of bank kind)) }
        ensures has { (bank : Terms) → HasContext bank context → HasTerm bank kind → IfOk result (λ p. HasStore bank p.store) }
        ensures stands { (bank : Terms) → IsVariable no_variables (record { context = context_of bank context; kind = tree_of bank kind; name = None })
            → IfOk result (λ p. IsStore (store_of bank p.store)) }
        ensures swept { IfOk result (λ p. (bank : Terms) → IsSwept (proof_of bank p) p.given p.seen) }
    {
        let store = with_root(alloc, context, kind)?;
        let focus = behind(alloc, &[0], &[])?;
        Ok(Proof {
            store,
            focus,
            shelf: Vec::new(alloc),
            given: 0,
            seen: 1,
        })
    }

    /// The same proof.
    pub fn copy(&self, alloc: Global) -> Result<Proof, NoMemory>
        ensures { IfOk result (λ p. p ≡ self.now) }
    {
        let store = self.store.copy(alloc)?;
        self.with_store(alloc, store)
    }

    /// A proof with the same lists over that store.
    fn with_store(&self, alloc: Global, store: Store) -> Result<Proof, NoMemory>
        ensures { IfOk result (λ p. p ≡ with_places self.now store) }
    {
        let focus = behind(alloc, self.focus.as_slice(), &[])?;
        let shelf = behind(alloc, self.shelf.as_slice(), &[])?;
        Ok(Proof {
            store,
            focus,
            shelf,
            given: self.given,
            seen: self.seen,
        })
    }

    /// The store. It takes no memory.
    pub fn store(&self) -> &Store
        ensures { result.now ≡ self.now.store }
    {
        &self.store
    }

    /// The store, lent for writing; the lists stay. It takes no memory.
    pub fn store_mut(&mut self) -> &mut Store
        ensures* writes_back { sem 𝓛 (Lends the_row store_row self.entry result (with_places self.old)) }
        ensures value { result.now ≡ self.old.store }
    {
        &mut self.store
    }

    /// The goals in focus. It takes no memory.
    pub fn focused(&self) -> &[u32]
        ensures { result.now ≡ self.now.focus }
    {
        self.focus.as_slice()
    }

    /// How many goals are open, those on the shelf apart. It takes no memory.
    pub fn open_count(&self) -> u64
        ensures { (bank : Terms) → result ≡ open_count (proof_of bank self.now) }
    {
        self.focused().len() as u64
    }

    /// How many goals are on the shelf. It takes no memory.
    pub fn shelf_count(&self) -> u64
        ensures { result ≡ length self.now.shelf }
    {
        self.shelf.len() as u64
    }

    /// Goals give their places to others. The taken ones are in focus or on the shelf. Those left and those shelved are distinct
    /// variables without a value that stand in no list but among the taken; where none is taken, none is left. The goals left
    /// stand at the place of the first taken one, or at the front where that came from the shelf; the shelved ones stand at the
    /// shelf's end. Then each goal that has a value leaves the lists. It is refused exactly where more than 10,000 goals would be
    /// in focus; after a refusal the proof is as before.
    pub fn replace(&mut self, taken: &[u32], left: &[u32], shelved: &[u32]) -> Result<(), GoalFault>
        ensures kept { OnErr result (self.new ≡ self.old) }
        ensures store { self.new.store ≡ self.old.store }
        ensures told { (bank : Terms) → IsListed (proof_of bank self.old) → MayReplace (proof_of bank self.old) taken.now left.now shelved.now
            → IsSwept (proof_of bank self.old) self.old.given self.old.seen
            → Changes bank result self.new (replaced (proof_of bank self.old) taken.now left.now shelved.now) }
        ensures stands { (bank : Terms) → IsListed (proof_of bank self.old) → MayReplace (proof_of bank self.old) taken.now left.now shelved.now
            → IsSwept (proof_of bank self.old) self.old.given self.old.seen
            → OnOk result (IsProof (proof_of bank self.new) × IsSwept (proof_of bank self.new) self.new.given self.new.seen) }
    {
        let alloc = *self.focus.allocator();
        let focus = refocused(alloc, taken, left, self.focus.as_slice())?;
        if self.is_plain(taken) && !self.has_new_value(taken) {
            self.exchange(focus, shelved)
        } else {
            self.exchange_all(focus, taken, shelved)
        }
    }

    /// Whether at most one goal is taken, and that one is in focus.
    fn is_plain(&self, taken: &[u32]) -> bool
        ensures { result ≡ true → IsPlain self.now.focus taken.now }
    {
        match taken {
            [] => true,
            [goal] => has(self.focus.as_slice(), *goal),
            _ => false,
        }
    }

    /// Whether a value was given to a goal that isn't taken, since goals with a value last left the lists.
    fn has_new_value(&self, taken: &[u32]) -> bool
        ensures { result ≡ false → AreQuiet self.now.seen taken.now (drop self.now.given self.now.store.values) }
    {
        for place in self.given..self.store.given() {
            if self.is_new_value(place, taken) {
                return true;
            }
        }
        false
    }

    /// Whether the value of that place, in the order of giving, was given to a goal that isn't taken.
    fn is_new_value(&self, place: usize, taken: &[u32]) -> bool
        ensures { result ≡ false → IsQuiet self.now.seen taken.now (slice_get self.now.store.values place) }
    {
        match self.store.given_to(place) {
            Some(id) => id < self.seen && !has(taken, id),
            None => false,
        }
    }

    /// The goals in focus, and more on the shelf.
    fn exchange(&mut self, focus: Vec<u32>, shelved: &[u32]) -> Result<(), GoalFault>
        ensures { Exchanges result self.old self.new focus.items (self.old.shelf ++ shelved.now) }
    {
        if focus.len() > MOST_GOALS {
            return Err(GoalFault::TooManyGoals);
        }
        if self.shelf.extend_from_slice(shelved).is_err() {
            return Err(GoalFault::NoMemory);
        }
        self.put_focus(focus);
        Ok(())
    }

    /// The goals in focus, from which those with a value have left.
    fn put_focus(&mut self, focus: Vec<u32>)
        ensures { self.new ≡ with_goals self.old focus.items self.old.shelf }
    {
        self.focus = focus;
        self.given = self.store.given();
        self.seen = self.store.count();
    }

    /// The goals in focus, and the shelf without the taken ones and with more; goals with a value leave both.
    fn exchange_all(
        &mut self,
        mut focus: Vec<u32>,
        taken: &[u32],
        shelved: &[u32],
    ) -> Result<(), GoalFault>
        ensures { Exchanges result self.old self.new (open_in self.old.store focus.items)
            (open_in self.old.store (without taken.now self.old.shelf ++ shelved.now)) }
    {
        sweep(&mut focus, &self.store);
        if focus.len() > MOST_GOALS {
            return Err(GoalFault::TooManyGoals);
        }
        self.shelf = self.reshelved(taken, shelved)?;
        self.put_focus(focus);
        Ok(())
    }

    /// The shelf without the taken goals, with more, and without those that have a value.
    fn reshelved(&self, taken: &[u32], shelved: &[u32]) -> Result<Vec<u32>, NoMemory>
        ensures { IfOk result (λ v. v.items ≡ open_in self.now.store (without taken.now self.now.shelf ++ shelved.now)) }
    {
        let mut shelf = shelf_with(
            *self.shelf.allocator(),
            taken,
            shelved,
            self.shelf.as_slice(),
        )?;
        sweep(&mut shelf, &self.store);
        Ok(shelf)
    }

    /// Moves goals from the focus to the shelf's end. They are distinct. It is refused exactly where one isn't in focus; after a
    /// refusal the proof is as before.
    pub fn shelve(&mut self, goals: &[u32]) -> Result<(), GoalFault>
        ensures kept { OnErr result (self.new ≡ self.old) }
        ensures store { self.new.store ≡ self.old.store }
        ensures told { (bank : Terms) → Changes bank result self.new (shelve (proof_of bank self.old) goals.now) }
        ensures swept { (bank : Terms) → IsSwept (proof_of bank self.old) self.old.given self.old.seen
            → OnOk result (IsSwept (proof_of bank self.new) self.new.given self.new.seen) }
        ensures listed { (bank : Terms) → IsListed (proof_of bank self.old) → AreDistinct goals.now → OnOk result (IsListed (proof_of bank self.new)) }
        ensures stands { (bank : Terms) → IsProof (proof_of bank self.old) → AreDistinct goals.now → OnOk result (IsProof (proof_of bank self.new)) }
    {
        if !has_each(self.focus.as_slice(), goals) {
            return Err(GoalFault::NothingFocused);
        }
        if self.shelf.extend_from_slice(goals).is_err() {
            return Err(GoalFault::NoMemory);
        }
        take_out(&mut self.focus, goals);
        Ok(())
    }
}
