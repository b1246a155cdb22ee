//! Types that are opened into premises.

ghost use Rattle.std.specs.Prelude.{◌≡◌, ◌<◌, ◌+◌, ◌++◌, ◌∷◌, [], ℕ, suc, length, Some, None, IfOk, OnOk};
ghost use Rattle.std.specs.List.{AllByRecursion};
ghost use Rattle.lq_trees.specs.Change.{subst};
ghost use Rattle.lq_trees.specs.Hypotheses.{HoldsOnly};
ghost use Rattle.lq_trees.specs.Index.{Within};
ghost use Rattle.lq_trees.specs.Tree.{Tree};
ghost use Rattle.lq_trees.specs.Tree.Tree.{Prod};
ghost use Rattle.lq_terms.specs.Contexts.{HasContext, context_of};
ghost use Rattle.lq_terms.specs.declared.nodes.TermId.{TermId};
ghost use Rattle.lq_terms.specs.Terms.{Terms, HasName, HasTerm, IsTerm, text_of, tree_of, Grows};
ghost use Rattle.lq_env.specs.Environments.{env_of};
ghost use Rattle.lq_solving.proofs.ElabKept.{Grown};
ghost use Rattle.lq_solving.proofs.Good.{IsGood};
ghost use Rattle.lq_solving.specs.Stores.{Store as TreeStore, names_in, new_variable};
ghost use Rattle.lq_solving.specs.Elaboration.{Givens, found};
ghost use Rattle.lq_evars.specs.Places.{store_of};
ghost use Rattle.lq_tactics.specs.Rows.{Scene, goal_term, store_work};
ghost use Rattle.lq_tactics.specs.Applying.{not_opened, premise_more, most_premises};
ghost use Rattle.lq_prims.specs.Making.{HasIn, IsIn};
ghost use Rattle.lq_prims.specs.Opening.{Carries, CarriesFurther, HasFurther, HasOpening, OneMore, Opens, choice_of, choose_work, open_work, opening_of, openings_of};
ghost use Rattle.lq_prims.specs.Scenes.{IsDeclared, scene_by};
ghost use Rattle.lq_prims.specs.Working.{Does, Tells};

use crate::binders::{Binder, binder_of};
use crate::faults::PrimFault;
use crate::needing::head;
use crate::new_goals::NewGoal;
use crate::standing::goal_term;
use crate::unifying::{copied, unifies};
use lq_elab::filled;
use lq_env::Env;
use lq_evars::Store;
use lq_terms::{Bank, Context, NameId, NoMemory, Steps, TermId, Work};
use std::alloc::Global;
use std::sync::ledger::Ledger;

/// A term applied to premises: the store, the premises' variables in order, the names of their binders, and the type that is left.
#[derive(Drop)]
pub(crate) struct Opening {
    pub(crate) store: Store,
    pub(crate) premises: Vec<u32>,
    pub(crate) names: Vec<NameId>,
    pub(crate) rest: TermId,
}

/// A term without premises.
fn not_opened(alloc: Global, store: &Store, kind: TermId) -> Result<Opening, NoMemory>
    ensures opening { IfOk result (λ o. (bank : Terms) (t : Tree) → opening_of bank o ≡ not_opened (found (store_of bank store.now) t (tree_of bank kind))) }
    ensures names { IfOk result (λ o. o.names.items ≡ []) }
    ensures premises { IfOk result (λ o. o.premises.items ≡ []) }
    ensures store { IfOk result (λ o. o.store ≡ store.now) }
    ensures rest { IfOk result (λ o. o.rest ≡ kind) }
{
    match store.copy(alloc) {
        Ok(store) => Ok(Opening {
            store,
            premises: Vec::new(alloc),
            names: Vec::new(alloc),
            rest: kind,
        }),
        Err(fault) => Err(fault),
    }
}

/// Numbers, and one behind them.
fn numbers_more(alloc: Global, numbers: &[u32], number: u32) -> Result<Vec<u32>, NoMemory>
    ensures { IfOk result (λ v. v.items ≡ numbers.now ++ number ∷ []) }
{
    let Ok(mut longer) = Vec::from_slice(alloc, numbers) else {
        return Err(NoMemory);
    };
    longer.push(number)?;
    Ok(longer)
}

/// Names, and one behind them.
fn names_more(alloc: Global, names: &[NameId], name: NameId) -> Result<Vec<NameId>, NoMemory>
    ensures { IfOk result (λ v. v.items ≡ names.now ++ name ∷ []) }
{
    let Ok(mut longer) = Vec::from_slice(alloc, names) else {
        return Err(NoMemory);
    };
    longer.push(name)?;
    Ok(longer)
}

/// A new variable of that type in a context, with the term that it is at the hypotheses there.
fn premise(
    bank: &mut Bank<'_>,
    store: &mut Store,
    context: &Context,
    kind: TermId,
) -> Result<NewGoal, PrimFault>
    requires place { IsIn bank.old store.old context.now }
    requires kind { HasIn bank.old store.old context.now kind }
    ensures answer { Tells bank.new (λ g. (store_of bank.new store.new, g.goal)) result
        (store_work (new_variable (store_of bank.old store.old) (record { context = context_of bank.old context.now; kind = tree_of bank.old kind; name = None }))) }
    ensures term { IfOk result (λ g. IsTerm bank.new g.term (goal_term g.goal (context_of bank.old context.now))) }
    ensures place { OnOk result (IsIn bank.new store.new context.now) }
    ensures grown { OnOk result (Grown (store_of bank.old store.old) (store_of bank.new store.new)) }
    ensures stands { IfOk result (λ g. HasIn bank.new store.new context.now g.term) }
    ensures number { IfOk result (λ g. g.goal ≡ length store.old.variables) }
    ensures more { OnOk result (length store.new.variables ≡ suc (length store.old.variables)) }
    ensures room { OnOk result (length store.old.variables < 16777216) }
    ensures grows { Grows bank.old bank.new }
{
    let own = copied(bank.allocator(), context)?;
    match store.new_var(own, kind, None) {
        Ok(goal) => match goal_term(bank, goal, context.hypotheses()) {
            Ok(term) => Ok(NewGoal { goal, term }),
            Err(_) => Err(PrimFault::NoMemory),
        },
        Err(fault) => Err(PrimFault::from(fault)),
    }
}

/// An opening with one premise more, which was made in a copy of its store; the rest is left under the premise's binder.
fn with_premise(
    bank: &mut Bank<'_>,
    context: &Context,
    opening: &Opening,
    store: Store,
    made: NewGoal,
    name: NameId,
    rest: TermId,
) -> Result<Opening, NoMemory>
    requires context { HasContext bank.old context.now }
    requires rest { HasTerm bank.old rest }
    requires within { Within 1 (tree_of bank.old rest) }
    requires holds { HoldsOnly (names_in (context_of bank.old context.now)) (tree_of bank.old rest) }
    requires term { HasTerm bank.old made.term }
    requires closed { Within 0 (tree_of bank.old made.term) }
    ensures store { IfOk result (λ o. o.store ≡ store) }
    ensures premises { IfOk result (λ o. o.premises.items ≡ opening.now.premises.items ++ made.goal ∷ []) }
    ensures names { IfOk result (λ o. o.names.items ≡ opening.now.names.items ++ name ∷ []) }
    ensures rest { IfOk result (λ o. IsTerm bank.new o.rest (subst (tree_of bank.old made.term) (tree_of bank.old rest))) }
    ensures grows { Grows bank.old bank.new }
{
    let alloc = bank.allocator();
    let premises = numbers_more(alloc, opening.premises.as_slice(), made.goal)?;
    let names = names_more(alloc, opening.names.as_slice(), name)?;
    match filled(bank, context.hypotheses(), rest, made.term) {
        Ok(rest) => Ok(Opening {
            store,
            premises,
            names,
            rest,
        }),
        Err(fault) => Err(fault),
    }
}

/// One premise more, the domain of a product, and what is left of the product. The store is copied.
fn premise_more(
    bank: &mut Bank<'_>,
    context: &Context,
    opening: &Opening,
    name: NameId,
    domain: TermId,
    rest: TermId,
) -> Result<Opening, PrimFault>
    requires opening { HasOpening bank.old context.now opening.now }
    requires name { HasName bank.old name }
    requires domain { HasTerm bank.old domain }
    requires rest { HasTerm bank.old rest }
    requires good { IsGood (store_of bank.old opening.now.store).variables (store_of bank.old opening.now.store).values
        (names_in (context_of bank.old context.now)) 0 (Prod (text_of bank.old name) (tree_of bank.old domain) (tree_of bank.old rest)) }
    ensures answer { (c : Scene) → c.context ≡ context_of bank.old context.now → Tells bank.new (opening_of bank.new) result
        (premise_more c (opening_of bank.old opening.now) (text_of bank.old name) (tree_of bank.old domain) (tree_of bank.old rest)) }
    ensures has { IfOk result (HasOpening bank.new context.now) }
    ensures later { (t : TermId) → Carries bank.old context.now t opening.now → IfOk result (Carries bank.new context.now t) }
    ensures more { IfOk result (λ o. OneMore (length opening.now.store.variables) (Some o)) }
    ensures grows { Grows bank.old bank.new }
{
    let mut store = match opening.store.copy(bank.allocator()) {
        Ok(store) => store,
        Err(_) => return Err(PrimFault::NoMemory),
    };
    match premise(bank, &mut store, context, domain) {
        Ok(made) => match with_premise(bank, context, opening, store, made, name, rest) {
            Ok(next) => Ok(next),
            Err(_) => Err(PrimFault::NoMemory),
        },
        Err(fault) => Err(fault),
    }
}

/// One premise more, if the weak head form of what is left is a product.
fn further<L: Ledger>(
    work: &mut Work<'_, '_>,
    env: &Env,
    context: &Context,
    opening: &Opening,
    steps: &mut Steps<L>,
) -> Result<Option<Opening>, PrimFault>
    requires declared { IsDeclared work.old.bank.now env.now }
    requires opening { HasOpening work.old.bank.now context.now opening.now }
    ensures answer { (s : TreeStore) (k : ℕ) (T : Tree) (vs : Givens) → Opens work.new.bank.now result
        (λ n. scene_by (env_of work.old.bank.now env.now) s k (context_of work.old.bank.now context.now) T vs n)
        (opening_of work.old.bank.now opening.now) work.old.ticks.now.left work.new.ticks.now.left }
    ensures has { IfOk result (HasFurther work.new.bank.now context.now) }
    ensures later { (t : TermId) → Carries work.old.bank.now context.now t opening.now → IfOk result (CarriesFurther work.new.bank.now context.now t) }
    ensures more { IfOk result (OneMore (length opening.now.store.variables)) }
    ensures same_bank { work.new.bank.ghost_name ≡ work.old.bank.ghost_name }
    ensures same_ticks { work.new.ticks.ghost_name ≡ work.old.ticks.ghost_name }
    ensures grows { Grows work.old.bank.now work.new.bank.now }
    ensures budget { work.new.ticks.now.left + work.new.ticks.now.spent ≡ work.old.ticks.now.left + work.old.ticks.now.spent }
    ensures counted { steps.new + work.old.ticks.now.spent ≡ steps.old + work.new.ticks.now.spent }
{
    match head(work, env, &opening.store, context, opening.rest, steps) {
        Ok(form) => match binder_of(work.bank, form) {
            Some(Binder::Product(name, domain, rest)) => {
                match premise_more(work.bank, context, opening, name, domain, rest) {
                    Ok(next) => Ok(Some(next)),
                    Err(fault) => Err(fault),
                }
            }
            Some(Binder::Definition(_name, _value, _kind, _rest)) => Ok(None),
            None => Ok(None),
        },
        Err(fault) => Err(fault),
    }
}

/// One opening more behind others.
fn put_behind(openings: &mut Vec<Opening>, opening: Opening) -> Result<(), NoMemory>
    ensures { OnOk result (openings.new.items ≡ openings.old.items ++ opening ∷ []) }
{
    openings.push(opening)?;
    Ok(())
}

/// The opening goes behind others, and one premise more is opened from it, if the weak head form of what is left is a product.
fn opened_on<L: Ledger>(
    work: &mut Work<'_, '_>,
    env: &Env,
    context: &Context,
    openings: &mut Vec<Opening>,
    last: Opening,
    steps: &mut Steps<L>,
) -> Result<Option<Opening>, PrimFault>
    requires declared { IsDeclared work.old.bank.now env.now }
    requires last { HasOpening work.old.bank.now context.now last }
    ensures answer { (s : TreeStore) (k : ℕ) (T : Tree) (vs : Givens) → Opens work.new.bank.now result
        (λ n. scene_by (env_of work.old.bank.now env.now) s k (context_of work.old.bank.now context.now) T vs n)
        (opening_of work.old.bank.now last) work.old.ticks.now.left work.new.ticks.now.left }
    ensures has { IfOk result (HasFurther work.new.bank.now context.now) }
    ensures later { (t : TermId) → Carries work.old.bank.now context.now t last → IfOk result (CarriesFurther work.new.bank.now context.now t) }
    ensures more { IfOk result (OneMore (length last.store.variables)) }
    ensures behind { OnOk result (openings.new.items ≡ openings.old.items ++ last ∷ []) }
    ensures same_bank { work.new.bank.ghost_name ≡ work.old.bank.ghost_name }
    ensures same_ticks { work.new.ticks.ghost_name ≡ work.old.ticks.ghost_name }
    ensures grows { Grows work.old.bank.now work.new.bank.now }
    ensures budget { work.new.ticks.now.left + work.new.ticks.now.spent ≡ work.old.ticks.now.left + work.old.ticks.now.spent }
    ensures counted { steps.new + work.old.ticks.now.spent ≡ steps.old + work.new.ticks.now.spent }
{
    match further(work, env, context, &last, steps) {
        Ok(next) => match put_behind(openings, last) {
            Ok(()) => Ok(next),
            Err(_) => Err(PrimFault::NoMemory),
        },
        Err(fault) => Err(fault),
    }
}

/// More premises than there may be variables.
const MOST_PREMISES: u32 = 16_777_217;

/// The openings of a type, from none to all premises.
pub(crate) fn opened<L: Ledger>(
    work: &mut Work<'_, '_>,
    env: &Env,
    store: &Store,
    context: &Context,
    kind: TermId,
    steps: &mut Steps<L>,
) -> Result<Vec<Opening>, PrimFault>
    requires declared { IsDeclared work.old.bank.now env.now }
    requires place { IsIn work.old.bank.now store.now context.now }
    requires kind { HasIn work.old.bank.now store.now context.now kind }
    ensures answer { (s : TreeStore) (k : ℕ) (T t : Tree) (vs : Givens) → Does work.new.bank.now (λ v. openings_of work.new.bank.now v.items) result
        (λ n. open_work (scene_by (env_of work.old.bank.now env.now) s k (context_of work.old.bank.now context.now) T vs n) most_premises
        (not_opened (found (store_of work.old.bank.now store.now) t (tree_of work.old.bank.now kind))) [])
        work.old.ticks.now.left work.new.ticks.now.left }
    ensures has { IfOk result (λ v. AllByRecursion (HasOpening work.new.bank.now context.now) v.items) }
    ensures later { (t : TermId) → HasIn work.old.bank.now store.now context.now t
        → IfOk result (λ v. AllByRecursion (Carries work.new.bank.now context.now t) v.items) }
    ensures same_bank { work.new.bank.ghost_name ≡ work.old.bank.ghost_name }
    ensures same_ticks { work.new.ticks.ghost_name ≡ work.old.ticks.ghost_name }
    ensures grows { Grows work.old.bank.now work.new.bank.now }
    ensures budget { work.new.ticks.now.left + work.new.ticks.now.spent ≡ work.old.ticks.now.left + work.old.ticks.now.spent }
    ensures counted { steps.new + work.old.ticks.now.spent ≡ steps.old + work.new.ticks.now.spent }
{
    let mut openings = Vec::new(work.bank.allocator());
    let mut last = match not_opened(work.bank.allocator(), store, kind) {
        Ok(last) => last,
        Err(_) => return Err(PrimFault::NoMemory),
    };
    let mut more: u32 = MOST_PREMISES;
    'premises: while more > 0 {
        more -= 1;
        match opened_on(work, env, context, &mut openings, last, steps) {
            Ok(Some(next)) => last = next,
            Ok(None) => return Ok(openings),
            Err(fault) => return Err(fault),
        }
    }
    unreachable!()
}

/// The first of openings, from all premises down to none, whose rest unifies with a type; with the store after that.
pub(crate) fn chosen<L: Ledger>(
    work: &mut Work<'_, '_>,
    env: &Env,
    context: &Context,
    openings: Vec<Opening>,
    wanted: TermId,
    steps: &mut Steps<L>,
) -> Result<Option<Opening>, PrimFault>
    requires declared { IsDeclared work.old.bank.now env.now }
    requires context { HasContext work.old.bank.now context.now }
    requires has { HasTerm work.old.bank.now wanted }
    requires openings { AllByRecursion (HasOpening work.old.bank.now context.now) openings.items }
    requires wanted { AllByRecursion (Carries work.old.bank.now context.now wanted) openings.items }
    ensures answer { (s : TreeStore) (k : ℕ) (T : Tree) (vs : Givens) → Does work.new.bank.now (choice_of work.new.bank.now) result
        (λ n. choose_work (scene_by (env_of work.old.bank.now env.now) s k (context_of work.old.bank.now context.now) T vs n)
        (tree_of work.old.bank.now wanted) (openings_of work.old.bank.now openings.items)) work.old.ticks.now.left work.new.ticks.now.left }
    ensures has { IfOk result (HasFurther work.new.bank.now context.now) }
    ensures same_bank { work.new.bank.ghost_name ≡ work.old.bank.ghost_name }
    ensures same_ticks { work.new.ticks.ghost_name ≡ work.old.ticks.ghost_name }
    ensures grows { Grows work.old.bank.now work.new.bank.now }
    ensures budget { work.new.ticks.now.left + work.new.ticks.now.spent ≡ work.old.ticks.now.left + work.old.ticks.now.spent }
    ensures counted { steps.new + work.old.ticks.now.spent ≡ steps.old + work.new.ticks.now.spent }
{
    let mut left = openings;
    'openings: while let Some(opening) = left.pop() {
        let mut opening = opening;
        match unifies(
            work,
            env,
            &mut opening.store,
            context,
            opening.rest,
            wanted,
            steps,
        ) {
            Ok(true) => return Ok(Some(opening)),
            Ok(false) => (),
            Err(fault) => return Err(fault),
        }
    }
    Ok(None)
}
