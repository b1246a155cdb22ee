//! Constructors of families, elaborated one after the other.

ghost use Rattle.std.specs.Prelude.{◌≡◌, ◌+◌, [], ◌∷◌, ◌++◌, ◌<◌, false, length, map, IfOk, OnOk, OnErr};
ghost use Rattle.lq_trees.specs.Fresh.{is_listed};
ghost use Rattle.lq_trees.specs.declared.Fit.{Fit};
ghost use Rattle.lq_trees.specs.Size.{fit};
ghost use Rattle.lq_calculus.specs.Declarations.{arity, names_of};
ghost use Rattle.lq_calculus.specs.Typing.{DerivedEnv};
ghost use Rattle.lq_ast.specs.Plain.{plain, plain_binders, joined};
ghost use Rattle.lq_ast.specs.PlainCommands.{plain_constructor};
ghost use Rattle.lq_terms.specs.Contexts.{HasContext, context_of};
ghost use Rattle.lq_terms.specs.Terms.{HasName, HasTerm, text_of, tree_of, Grows};
ghost use Rattle.lq_env.specs.Environments.{IsEnv, env_of, Extends};
ghost use Rattle.lq_solving.specs.Claims.{ArePlainDeclarations, IsPlain};
ghost use Rattle.lq_solving.specs.Kept.{IsContext, IsStore, StandsIn};
ghost use Rattle.lq_solving.specs.Stores.{read};
ghost use Rattle.lq_evars.specs.Places.{store_of, HasStore};
ghost use Rattle.lq_goals.specs.Seen.{IsReadable};
ghost use Rattle.lq_declaring.specs.Constants.{Declares};
ghost use Rattle.lq_sessions.specs.Declaring.{type_work, constructors_work, family_work};
ghost use Rattle.lq_elaborated.specs.Families.{FindsConstructor, FindsConstructors, arity_work, constructed_work};

use crate::arities::arity_read;
use crate::terms::{term_in, type_in};
use lq_ast::{Binders, Constructor, Surface};
use lq_causes::Stop;
use lq_declaring::declare_inductive;
use lq_elab::Written;
use lq_env::{Constructors, Env};
use lq_evars::Store;
use lq_terms::{Context, NameId, Steps, TermId, Work};
use std::sync::ledger::Ledger;

/// A constructor: its type is elaborated in a context, which must have a sort, and its name is put into the bank.
fn constructor_in<L: Ledger>(
    work: &mut Work<'_, '_>,
    env: &Env,
    store: &mut Store,
    context: &Context,
    constructor: &Constructor,
    steps: &mut Steps<L>,
) -> Result<(NameId, TermId), Stop>
    requires env { IsEnv work.old.bank.now env.now }
    requires plain { ArePlainDeclarations (env_of work.old.bank.now env.now) }
    requires store { HasStore work.old.bank.now store.old }
    requires kept { IsStore (store_of work.old.bank.now store.old) }
    requires context { HasContext work.old.bank.now context.now }
    requires hypotheses { IsContext (store_of work.old.bank.now store.old) (context_of work.old.bank.now context.now) }
    ensures answer { FindsConstructor work.new.bank.now (store_of work.old.bank.now store.old) store.new result constructor.now.name
        (λ n. type_work (env_of work.old.bank.now env.now) n (context_of work.old.bank.now context.now) (store_of work.old.bank.now store.old)
        (plain constructor.now.kind)) work.old.ticks.now.left work.new.ticks.now.left }
    ensures same_bank { work.new.bank.ghost_name ≡ work.old.bank.ghost_name }
    ensures same_ticks { work.new.ticks.ghost_name ≡ work.old.ticks.ghost_name }
    ensures grows { Grows work.old.bank.now work.new.bank.now }
    ensures budget { work.new.ticks.now.left + work.new.ticks.now.spent ≡ work.old.ticks.now.left + work.old.ticks.now.spent }
    ensures counted { steps.new + work.old.ticks.now.spent ≡ steps.old + work.new.ticks.now.spent }
{
    let found = match type_in(
        work,
        env,
        store,
        context,
        Written::Term(&constructor.kind),
        steps,
    ) {
        Ok(found) => found,
        Err(stop) => return Err(stop),
    };
    let name = work.bank.name(constructor.name.as_str())?;
    Ok((name, found.term))
}

/// The constructors of a family in order, with the family in the environment and its parameters as the context: each type is elaborated
/// over what the store has from those before, and must have a sort. It pays the ticks of elaboration. Refused as elaboration refuses, and
/// as `NotASort` with the weak head form of a type's own type. See the Rocq reference manual, "Inductive types".
fn constructors_in<L: Ledger>(
    work: &mut Work<'_, '_>,
    env: &Env,
    store: &mut Store,
    context: &Context,
    constructors: &[Constructor],
    steps: &mut Steps<L>,
) -> Result<Constructors, Stop>
    requires env { IsEnv work.old.bank.now env.now }
    requires plain { ArePlainDeclarations (env_of work.old.bank.now env.now) }
    requires store { HasStore work.old.bank.now store.old }
    requires kept { IsStore (store_of work.old.bank.now store.old) }
    requires context { HasContext work.old.bank.now context.now }
    requires hypotheses { IsContext (store_of work.old.bank.now store.old) (context_of work.old.bank.now context.now) }
    ensures answer { FindsConstructors work.new.bank.now (store_of work.old.bank.now store.old) store.new result
        (λ n. constructors_work (env_of work.old.bank.now env.now) n (context_of work.old.bank.now context.now)
        (store_of work.old.bank.now store.old) (map plain_constructor constructors.now)) work.old.ticks.now.left work.new.ticks.now.left }
    ensures few { IfOk result (λ cs. length cs ≡ length constructors.now) }
    ensures same_bank { work.new.bank.ghost_name ≡ work.old.bank.ghost_name }
    ensures same_ticks { work.new.ticks.ghost_name ≡ work.old.ticks.ghost_name }
    ensures grows { Grows work.old.bank.now work.new.bank.now }
    ensures budget { work.new.ticks.now.left + work.new.ticks.now.spent ≡ work.old.ticks.now.left + work.old.ticks.now.spent }
    ensures counted { steps.new + work.old.ticks.now.spent ≡ steps.old + work.new.ticks.now.spent }
{
    let mut made = Constructors::new(work.bank.allocator());
    for constructor in constructors {
        match constructor_in(work, env, store, context, constructor, steps) {
            Ok((name, kind)) => made.push(name, kind)?,
            Err(stop) => return Err(stop),
        }
    }
    Ok(made)
}

/// The same with a family of that name and type in the environment while they are elaborated, as one that is being declared. The
/// environment is as before in the end.
fn constructors_inside<L: Ledger>(
    work: &mut Work<'_, '_>,
    env: &mut Env,
    store: &mut Store,
    name: NameId,
    kind: TermId,
    context: &Context,
    constructors: &[Constructor],
    steps: &mut Steps<L>,
) -> Result<Constructors, Stop>
    requires env { IsEnv work.old.bank.now env.old }
    requires plain { ArePlainDeclarations (env_of work.old.bank.now env.old) }
    requires name { HasName work.old.bank.now name }
    requires new { is_listed (names_of (env_of work.old.bank.now env.old)) (text_of work.old.bank.now name) ≡ false }
    requires kind { HasTerm work.old.bank.now kind }
    requires bare { IsPlain 0 (tree_of work.old.bank.now kind) }
    requires store { HasStore work.old.bank.now store.old }
    requires kept { IsStore (store_of work.old.bank.now store.old) }
    requires context { HasContext work.old.bank.now context.now }
    requires hypotheses { IsContext (store_of work.old.bank.now store.old) (context_of work.old.bank.now context.now) }
    ensures answer { FindsConstructors work.new.bank.now (store_of work.old.bank.now store.old) store.new result
        (λ n. constructors_work (env_of work.old.bank.now env.old ++ (text_of work.old.bank.now name, arity (tree_of work.old.bank.now kind)) ∷ []) n
        (context_of work.old.bank.now context.now) (store_of work.old.bank.now store.old) (map plain_constructor constructors.now))
        work.old.ticks.now.left work.new.ticks.now.left }
    ensures few { IfOk result (λ cs. length cs ≡ length constructors.now) }
    ensures kept { env.new ≡ env.old }
    ensures same_bank { work.new.bank.ghost_name ≡ work.old.bank.ghost_name }
    ensures same_ticks { work.new.ticks.ghost_name ≡ work.old.ticks.ghost_name }
    ensures grows { Grows work.old.bank.now work.new.bank.now }
    ensures budget { work.new.ticks.now.left + work.new.ticks.now.spent ≡ work.old.ticks.now.left + work.old.ticks.now.spent }
    ensures counted { steps.new + work.old.ticks.now.spent ≡ steps.old + work.new.ticks.now.spent }
{
    work.bank.names_apart();
    match env.open_family(name, kind) {
        Ok(()) => {
            let made = constructors_in(work, env, store, context, constructors, steps);
            env.close_family();
            made
        }
        Err(fault) => Err(Stop::from(fault)),
    }
}

/// The constructors of a family whose arity was read, and the family: the arity, and its type as it reads, which holds no variable.
fn declare_constructed<L: Ledger>(
    work: &mut Work<'_, '_>,
    env: &mut Env,
    store: &mut Store,
    name: NameId,
    parameters: usize,
    arity: TermId,
    kind: TermId,
    context: &Context,
    constructors: &[Constructor],
    steps: &mut Steps<L>,
) -> Result<(), Stop>
    requires env { IsEnv work.old.bank.now env.old }
    requires plain { ArePlainDeclarations (env_of work.old.bank.now env.old) }
    requires name { HasName work.old.bank.now name }
    requires new { is_listed (names_of (env_of work.old.bank.now env.old)) (text_of work.old.bank.now name) ≡ false }
    requires arity { IsReadable work.old.bank.now store.old arity }
    requires kind { HasTerm work.old.bank.now kind }
    requires bare { IsPlain 0 (tree_of work.old.bank.now kind) }
    requires store { HasStore work.old.bank.now store.old }
    requires stored { IsStore (store_of work.old.bank.now store.old) }
    requires context { HasContext work.old.bank.now context.now }
    requires hypotheses { IsContext (store_of work.old.bank.now store.old) (context_of work.old.bank.now context.now) }
    requires few { length constructors.now < 4294967296 }
    ensures answer { Declares work.new.bank.now result env.new (constructed_work (env_of work.old.bank.now env.old) (text_of work.old.bank.now name)
        parameters (store_of work.old.bank.now store.old) (tree_of work.old.bank.now arity) (tree_of work.old.bank.now kind)
        (context_of work.old.bank.now context.now) (map plain_constructor constructors.now)) work.old.ticks.now.left work.new.ticks.now.left }
    ensures derived { OnOk result (DerivedEnv (env_of work.old.bank.now env.old) → DerivedEnv (env_of work.new.bank.now env.new)) }
    ensures env { IsEnv work.new.bank.now env.new }
    ensures extends { OnOk result (Extends env.old env.new) }
    ensures kept { OnErr result (env.new ≡ env.old) }
    ensures same_bank { work.new.bank.ghost_name ≡ work.old.bank.ghost_name }
    ensures same_ticks { work.new.ticks.ghost_name ≡ work.old.ticks.ghost_name }
    ensures grows { Grows work.old.bank.now work.new.bank.now }
    ensures budget { work.new.ticks.now.left + work.new.ticks.now.spent ≡ work.old.ticks.now.left + work.old.ticks.now.spent }
    ensures counted { steps.new + work.old.ticks.now.spent ≡ steps.old + work.new.ticks.now.spent }
{
    match constructors_inside(work, env, store, name, kind, context, constructors, steps) {
        Ok(made) => declare_inductive(
            work,
            env,
            store,
            name,
            parameters,
            arity,
            made.constructors(),
            steps,
        ),
        Err(stop) => Err(stop),
    }
}

/// A family whose arity was elaborated: the arity is read as a row, its constructors are elaborated, and the family is declared.
fn declare_behind<L: Ledger>(
    work: &mut Work<'_, '_>,
    env: &mut Env,
    store: &mut Store,
    name: NameId,
    parameters: usize,
    arity: TermId,
    constructors: &[Constructor],
    steps: &mut Steps<L>,
) -> Result<(), Stop>
    requires env { IsEnv work.old.bank.now env.old }
    requires plain { ArePlainDeclarations (env_of work.old.bank.now env.old) }
    requires name { HasName work.old.bank.now name }
    requires new { is_listed (names_of (env_of work.old.bank.now env.old)) (text_of work.old.bank.now name) ≡ false }
    requires store { HasStore work.old.bank.now store.old }
    requires stored { IsStore (store_of work.old.bank.now store.old) }
    requires arity { IsReadable work.old.bank.now store.old arity }
    requires stands { StandsIn (store_of work.old.bank.now store.old) [] (tree_of work.old.bank.now arity) }
    requires fits { fit (read (store_of work.old.bank.now store.old) (tree_of work.old.bank.now arity)) ≡ Fit.Fits }
    requires few { length constructors.now < 4294967296 }
    ensures answer { Declares work.new.bank.now result env.new (arity_work (env_of work.old.bank.now env.old) (text_of work.old.bank.now name)
        parameters (store_of work.old.bank.now store.old) (tree_of work.old.bank.now arity) (map plain_constructor constructors.now))
        work.old.ticks.now.left work.new.ticks.now.left }
    ensures derived { OnOk result (DerivedEnv (env_of work.old.bank.now env.old) → DerivedEnv (env_of work.new.bank.now env.new)) }
    ensures env { IsEnv work.new.bank.now env.new }
    ensures extends { OnOk result (Extends env.old env.new) }
    ensures kept { OnErr result (env.new ≡ env.old) }
    ensures same_bank { work.new.bank.ghost_name ≡ work.old.bank.ghost_name }
    ensures same_ticks { work.new.ticks.ghost_name ≡ work.old.ticks.ghost_name }
    ensures grows { Grows work.old.bank.now work.new.bank.now }
    ensures budget { work.new.ticks.now.left + work.new.ticks.now.spent ≡ work.old.ticks.now.left + work.old.ticks.now.spent }
    ensures counted { steps.new + work.old.ticks.now.spent ≡ steps.old + work.new.ticks.now.spent }
{
    match arity_read(work.bank, store, parameters, arity) {
        Ok((kind, row)) => declare_constructed(
            work,
            env,
            store,
            name,
            parameters,
            arity,
            kind,
            &row.parameters,
            constructors,
            steps,
        ),
        Err(stop) => Err(stop),
    }
}

/// A family, from its parameters, its arity and its constructors as they are written, and the number of names that the parameters bind.
/// The arity is elaborated, must be a row of products that ends in a sort, and may have no variable without a value; then each
/// constructor's type is elaborated over the parameters, with the family in the environment; then no variable may be without a value, the
/// terms as they read keep within the limits, the arity first, and the kernel checks and declares the family. All of it is paid by one
/// budget. After a refusal the environment is as before. See the Rocq reference manual, "Inductive types".
pub fn define_family<L: Ledger>(
    work: &mut Work<'_, '_>,
    env: &mut Env,
    name: NameId,
    groups: &[Binders],
    parameters: usize,
    kind: &Surface,
    constructors: &[Constructor],
    steps: &mut Steps<L>,
) -> Result<(), Stop>
    requires env { IsEnv work.old.bank.now env.old }
    requires plain { ArePlainDeclarations (env_of work.old.bank.now env.old) }
    requires name { HasName work.old.bank.now name }
    requires new { is_listed (names_of (env_of work.old.bank.now env.old)) (text_of work.old.bank.now name) ≡ false }
    requires count { parameters ≡ length (joined (map plain_binders groups.now)) }
    requires few { length constructors.now < 4294967296 }
    ensures answer { Declares work.new.bank.now result env.new (λ n. family_work (env_of work.old.bank.now env.old) n
        (text_of work.old.bank.now name) (joined (map plain_binders groups.now)) (plain kind.now) (map plain_constructor constructors.now))
        work.old.ticks.now.left work.new.ticks.now.left }
    ensures plain { OnOk result (ArePlainDeclarations (env_of work.new.bank.now env.new)) }
    ensures derived { OnOk result (DerivedEnv (env_of work.old.bank.now env.old) → DerivedEnv (env_of work.new.bank.now env.new)) }
    ensures env { IsEnv work.new.bank.now env.new }
    ensures extends { OnOk result (Extends env.old env.new) }
    ensures kept { OnErr result (env.new ≡ env.old) }
    ensures same_bank { work.new.bank.ghost_name ≡ work.old.bank.ghost_name }
    ensures same_ticks { work.new.ticks.ghost_name ≡ work.old.ticks.ghost_name }
    ensures grows { Grows work.old.bank.now work.new.bank.now }
    ensures budget { work.new.ticks.now.left + work.new.ticks.now.spent ≡ work.old.ticks.now.left + work.old.ticks.now.spent }
    ensures counted { steps.new + work.old.ticks.now.spent ≡ steps.old + work.new.ticks.now.spent }
{
    let alloc = work.bank.allocator();
    let context = Context::new(alloc);
    let mut store = match Store::new(alloc) {
        Ok(store) => store,
        Err(_) => return Err(Stop::NoMemory),
    };
    let arity = Written::Forall(groups, kind);
    match term_in(work, env, &mut store, &context, arity, None, steps) {
        Ok(found) => declare_behind(
            work,
            env,
            &mut store,
            name,
            parameters,
            found.term,
            constructors,
            steps,
        ),
        Err(stop) => Err(stop),
    }
}
