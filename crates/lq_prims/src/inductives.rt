//! Inductive types and their constructors (Rocq reference manual, "Inductive types").

ghost use Rattle.std.specs.Prelude.{◌≡◌, ◌<◌, ◌+◌, [], map, length, take, slice_get, IfOk, eqb};
ghost use Rattle.std.specs.List.{AllByRecursion};
ghost use Rattle.std.specs.Option.{option_copied};
ghost use Rattle.lq_trees.specs.Change.{instance};
ghost use Rattle.lq_trees.specs.Index.{Within};
ghost use Rattle.lq_calculus.specs.Contraction.{spine};
ghost use Rattle.lq_calculus.specs.Declarations.{lookup, family_in};
ghost use Rattle.lq_terms.specs.Changes.{bindings, HasHypothesis};
ghost use Rattle.lq_terms.specs.Terms.{Terms, HasTerm, IsTerm, tree_of, text_of, Grows};
ghost use Rattle.lq_env.specs.Environments.{IsEnv, IsOwn, env_of};
ghost use Rattle.lq_env.specs.Families.{IsFamily};
ghost use Rattle.lq_solving.specs.Elaboration.{Givens};
ghost use Rattle.lq_solving.specs.Stores.{Store as TreeStore};
ghost use Rattle.lq_tactics.specs.Rows.{Scene};
ghost use Rattle.lq_tactics.specs.Applying.{inductive_of, goal_inductive, has_number, constructor_found, constructor_at, constructor_count};
ghost use Rattle.lq_prims.specs.Inductives.{inductive_by, found_by, numbered_work, IsShallow, HasInductive, HasTyped, IsFamilyOr, IsInductiveOr, IsConstructorOr};
ghost use Rattle.lq_prims.specs.Scenes.{IsPlaced, scene_in};
ghost use Rattle.lq_prims.specs.Working.{Does, Tells};

use crate::faults::PrimFault;
use crate::needing::head;
use crate::spines::{Application, applied, spine};
use lq_env::{Entry, Env, Family};
use lq_evars::Store;
use lq_terms::{Bank, Hypothesis, NameId, NoMemory, Node, Steps, TermId, Work, measure, put};
use std::sync::ledger::Ledger;

/// How deep a constructor's type may be where values take its parameters' places: a bank has no room for the numbers of bound variables
/// far beyond that.
const MOST_DEPTH: u64 = 4_294_960_000;

/// An inductive type: its name, its family as it is declared, and its arguments, as many as parameters and indices.
#[derive(Drop)]
pub(crate) struct Inductive<'e> {
    pub(crate) name: NameId,
    pub(crate) family: &'e Family,
    pub(crate) args: Vec<TermId>,
}

/// A term with its type.
#[derive(Clone, Copy)]
pub(crate) struct Typed {
    pub(crate) term: TermId,
    pub(crate) kind: TermId,
}

/// The family of a name.
fn family_at<'e>(env: &'e Env, name: NameId) -> Option<&'e Family>
    ensures { (bank : Terms) → IsEnv bank env.now → IsOwn bank name
        → IsFamilyOr bank (option_copied result) (family_in (lookup (env_of bank env.now) (text_of bank name))) }
{
    match env.lookup(name) {
        Some(entry) => match entry {
            Entry::Family(family, _) => Some(family),
            Entry::Constant { .. } => None,
            Entry::Arity { .. } => None,
            Entry::Constructor { .. } => None,
            Entry::Eliminator { .. } => None,
        },
        None => None,
    }
}

/// Whether there are as many arguments as a family has parameters and indices.
fn has_places(bank: &Bank<'_>, family: &Family, arguments: &[TermId]) -> bool
    requires { IsFamily bank.now family.now }
    ensures { result ≡ eqb (length arguments.now) (length family.now.parameters + length family.now.indices) }
{
    let _bank = bank;
    let parameters = family.parameters.hypotheses().len();
    let indices = family.indices.hypotheses().len();
    arguments.len() == parameters + indices
}

/// The inductive type that a head makes with its arguments.
fn inductive_of<'e>(
    bank: &Bank<'_>,
    env: &'e Env,
    application: Application,
) -> Option<Inductive<'e>>
    requires env { IsEnv bank.now env.now }
    requires head { HasTerm bank.now application.head }
    requires arguments { AllByRecursion (HasTerm bank.now) application.arguments.items }
    requires shallow { AllByRecursion (λ t. IsShallow (tree_of bank.now t)) application.arguments.items }
    ensures { IsInductiveOr bank.now (inductive_of (env_of bank.now env.now) (tree_of bank.now application.head, map (tree_of bank.now) application.arguments.items)) result }
{
    bank.names_apart();
    let Application { head, arguments } = application;
    let Node::Ind(name) = bank.node(head) else {
        return None;
    };
    let name = *name;
    match family_at(env, name) {
        Some(family) => {
            if has_places(bank, family, arguments.as_slice()) {
                Some(Inductive {
                    name,
                    family,
                    args: arguments,
                })
            } else {
                None
            }
        }
        None => None,
    }
}

/// The inductive type that a term is as it stands.
fn inductive_at<'e>(
    bank: &Bank<'_>,
    env: &'e Env,
    form: TermId,
) -> Result<Option<Inductive<'e>>, NoMemory>
    requires env { IsEnv bank.now env.now }
    requires form { HasTerm bank.now form }
    requires shallow { IsShallow (tree_of bank.now form) }
    ensures { IfOk result (IsInductiveOr bank.now (inductive_of (env_of bank.now env.now) (spine (tree_of bank.now form) []))) }
{
    let application = spine(bank, form)?;
    Ok(inductive_of(bank, env, application))
}

/// The inductive type that the weak head form of the goal's type is: a tick for each contraction. It is refused as `NotInductive` where
/// that is none.
pub(crate) fn goal_inductive<'e, L: Ledger>(
    work: &mut Work<'_, '_>,
    env: &'e Env,
    store: &Store,
    goal: u32,
    kind: TermId,
    steps: &mut Steps<L>,
) -> Result<Inductive<'e>, PrimFault>
    requires placed { IsPlaced work.old.bank.now env.now store.now goal kind }
    ensures answer { (vs : Givens) → Does work.new.bank.now (inductive_by work.new.bank.now) result
        (λ n. goal_inductive (scene_in work.old.bank.now env.now store.now goal kind vs n)) work.old.ticks.now.left work.new.ticks.now.left }
    ensures has { IfOk result (HasInductive work.new.bank.now) }
    ensures same_bank { work.new.bank.ghost_name ≡ work.old.bank.ghost_name }
    ensures same_ticks { work.new.ticks.ghost_name ≡ work.old.ticks.ghost_name }
    ensures grows { Grows work.old.bank.now work.new.bank.now }
    ensures budget { work.new.ticks.now.left + work.new.ticks.now.spent ≡ work.old.ticks.now.left + work.old.ticks.now.spent }
    ensures counted { steps.new + work.old.ticks.now.spent ≡ steps.old + work.new.ticks.now.spent }
{
    let form = head(work, env, store, store.context(goal), kind, steps)?;
    match inductive_at(work.bank, env, form) {
        Ok(Some(inductive)) => Ok(inductive),
        Ok(None) => Err(PrimFault::NotInductive(form)),
        Err(_) => Err(PrimFault::NoMemory),
    }
}

/// How many constructors a family has.
fn count_of(family: &Family) -> u32
    requires { length family.now.constructors < 4294967296 }
    ensures { result ≡ length family.now.constructors }
{
    family.constructors.constructors().len() as u32
}

/// Refuses as `WrongNumber` a type that has not so many constructors.
pub(crate) fn has_number(
    bank: &Bank<'_>,
    inductive: &Inductive<'_>,
    number: u32,
) -> Result<(), PrimFault>
    requires { HasInductive bank.now inductive.now }
    ensures { Tells bank.now (λ u. inductive_by bank.now inductive.now) result (has_number number (inductive_by bank.now inductive.now)) }
{
    let _bank = bank;
    let count = count_of(inductive.family);
    if count == number {
        Ok(())
    } else {
        Err(PrimFault::WrongNumber(count, number))
    }
}

/// How many constructors the goal's type has: a tick for each contraction. It is refused as `NotInductive` where the weak head form of the
/// goal's type is no inductive type.
pub(crate) fn count<L: Ledger>(
    work: &mut Work<'_, '_>,
    env: &Env,
    store: &Store,
    goal: u32,
    kind: TermId,
    steps: &mut Steps<L>,
) -> Result<u32, PrimFault>
    requires placed { IsPlaced work.old.bank.now env.now store.now goal kind }
    ensures answer { (vs : Givens) → Does work.new.bank.now (λ n. n) result
        (λ n. constructor_count (scene_in work.old.bank.now env.now store.now goal kind vs n)) work.old.ticks.now.left work.new.ticks.now.left }
    ensures same_bank { work.new.bank.ghost_name ≡ work.old.bank.ghost_name }
    ensures same_ticks { work.new.ticks.ghost_name ≡ work.old.ticks.ghost_name }
    ensures grows { Grows work.old.bank.now work.new.bank.now }
    ensures budget { work.new.ticks.now.left + work.new.ticks.now.spent ≡ work.old.ticks.now.left + work.old.ticks.now.spent }
    ensures counted { steps.new + work.old.ticks.now.spent ≡ steps.old + work.new.ticks.now.spent }
{
    let inductive = goal_inductive(work, env, store, goal, kind, steps)?;
    Ok(count_of(inductive.family))
}

/// The constructor at a place, counted from 0, with its type under the parameters.
fn nth_constructor(family: &Family, place: u128) -> Option<(u32, TermId)>
    requires { length family.now.constructors < 4294967296 }
    ensures { IsConstructorOr family.now.constructors place result }
{
    let constructors = family.constructors.constructors();
    if place >= constructors.len() as u128 {
        return None;
    }
    Some((place as u32, constructors[place as usize].1))
}

/// A type under hypotheses with values in their places.
fn placed(
    bank: &mut Bank<'_>,
    kind: TermId,
    context: &[Hypothesis],
    values: &[TermId],
) -> Result<TermId, NoMemory>
    requires kind { HasTerm bank.old kind }
    requires within { Within 0 (tree_of bank.old kind) }
    requires context { AllByRecursion (HasHypothesis bank.old) context.now }
    requires values { AllByRecursion (HasTerm bank.old) values.now }
    requires shallow { AllByRecursion (λ t. IsShallow (tree_of bank.old t)) values.now }
    requires as_many { length context.now ≡ length values.now }
    ensures placed { IfOk result (λ t. IsTerm bank.new t (instance (bindings bank.old context.now values.now) (tree_of bank.old kind))) }
    ensures grows { Grows bank.old bank.new }
{
    if measure(bank, kind).depth > MOST_DEPTH {
        return Err(NoMemory);
    }
    put(bank, kind, 0, context, values)
}

/// The arguments that are parameters.
fn parameters_of<'i>(bank: &Bank<'_>, inductive: &'i Inductive<'_>) -> &'i [TermId]
    requires { HasInductive bank.now inductive.now }
    ensures { result.now ≡ take (length inductive.now.family.now.parameters) inductive.now.args.items }
{
    let _bank = bank;
    let count = inductive.family.parameters.hypotheses().len();
    &inductive.args.as_slice()[..count]
}

/// A constructor at the type's parameters, by its number and its type under the parameters, with its type there.
fn constructor_at(
    bank: &mut Bank<'_>,
    inductive: &Inductive<'_>,
    index: u32,
    kind: TermId,
) -> Result<Typed, NoMemory>
    requires inductive { HasInductive bank.old inductive.now }
    requires kind { HasTerm bank.old kind }
    requires within { Within 0 (tree_of bank.old kind) }
    ensures is { (c : Scene) → IfOk result (λ f. found_by bank.new c.store f ≡ constructor_at c (inductive_by bank.old inductive.now) index (tree_of bank.old kind)) }
    ensures has { IfOk result (HasTyped bank.new) }
    ensures grows { Grows bank.old bank.new }
{
    let values = parameters_of(bank, inductive);
    let constructor = bank.make(Node::Ctor(inductive.name, index))?;
    let term = applied(bank, constructor, values)?;
    let kind = placed(bank, kind, inductive.family.parameters.hypotheses(), values)?;
    Ok(Typed { term, kind })
}

/// The constructor at a place, counted from 0, at the type's parameters, with its type there; refused as `NoConstructor` where there is none.
/// A type that is so deep that a bank might have no room for the numbers of its bound variables counts as want of memory.
pub(crate) fn constructor_found(
    bank: &mut Bank<'_>,
    inductive: &Inductive<'_>,
    place: u128,
) -> Result<Typed, PrimFault>
    requires inductive { HasInductive bank.old inductive.now }
    requires place { place < 340282366920938463463374607431768211455 }
    ensures answer { (c : Scene) → Tells bank.new (found_by bank.new c.store) result
        (constructor_found c (inductive_by bank.old inductive.now) place (slice_get (inductive_by bank.old inductive.now).family.constructors place)) }
    ensures has { IfOk result (HasTyped bank.new) }
    ensures grows { Grows bank.old bank.new }
{
    match nth_constructor(inductive.family, place) {
        Some((index, kind)) => match constructor_at(bank, inductive, index, kind) {
            Ok(typed) => Ok(typed),
            Err(_) => Err(PrimFault::NoMemory),
        },
        None => Err(PrimFault::NoConstructor(place + 1)),
    }
}

/// The constructor of a number, counted from 1, at the type's parameters, with its type there; refused as `NoConstructor` where there is none.
pub(crate) fn numbered(
    bank: &mut Bank<'_>,
    inductive: &Inductive<'_>,
    number: u128,
) -> Result<Typed, PrimFault>
    requires inductive { HasInductive bank.old inductive.now }
    ensures answer { (c : Scene) → Tells bank.new (found_by bank.new c.store) result (numbered_work c (inductive_by bank.old inductive.now) number) }
    ensures has { IfOk result (HasTyped bank.new) }
    ensures grows { Grows bank.old bank.new }
{
    if number == 0 {
        Err(PrimFault::NoConstructor(0))
    } else {
        constructor_found(bank, inductive, number - 1)
    }
}
