//! Definitions, from their terms as they are written.

ghost use Rattle.std.specs.Prelude.{◌≡◌, ◌+◌, [], OnOk, OnErr, map, option_map};
ghost use Rattle.lq_ast.specs.Plain.{plain, plain_binders, joined};
ghost use Rattle.lq_calculus.specs.Typing.{DerivedEnv};
ghost use Rattle.lq_terms.specs.Terms.{HasName, HasTerm, Grows, text_of, tree_of};
ghost use Rattle.lq_env.specs.Environments.{IsEnv, env_of, Extends};
ghost use Rattle.lq_solving.specs.Claims.{ArePlainDeclarations};
ghost use Rattle.lq_solving.specs.Kept.{IsStore, StandsIn};
ghost use Rattle.lq_evars.specs.Places.{store_of, HasStore};
ghost use Rattle.lq_elab.specs.Calls.{written_tree};
ghost use Rattle.lq_sessions.specs.Declaring.{definition_work};
ghost use Rattle.lq_declaring.specs.Constants.{Declares};
ghost use Rattle.lq_elaborated.specs.Defining.{body_work, found_work, written_work};

use crate::terms::{term_in, type_in};
use lq_ast::{Binders, Surface};
use lq_causes::Stop;
use lq_declaring::{declare_found, declare_written};
use lq_elab::Written;
use lq_env::Env;
use lq_evars::Store;
use lq_terms::{Context, NameId, Steps, TermId, Work};
use std::sync::ledger::Ledger;

/// A definition whose type was elaborated: its body is elaborated against it, and the constant is declared.
fn against_type<L: Ledger>(
    work: &mut Work<'_, '_>,
    env: &mut Env,
    store: &mut Store,
    context: &Context,
    name: NameId,
    kind: TermId,
    body: Written<'_>,
    steps: &mut Steps<L>,
) -> Result<(), Stop>
    requires env { IsEnv work.old.bank.now env.old }
    requires plain { ArePlainDeclarations (env_of work.old.bank.now env.old) }
    requires store { HasStore work.old.bank.now store.old }
    requires kept { IsStore (store_of work.old.bank.now store.old) }
    requires context { context.now ≡ [] }
    requires name { HasName work.old.bank.now name }
    requires kind { HasTerm work.old.bank.now kind }
    requires stands { StandsIn (store_of work.old.bank.now store.old) [] (tree_of work.old.bank.now kind) }
    ensures answer { Declares work.new.bank.now result env.new (body_work (env_of work.old.bank.now env.old) (text_of work.old.bank.now name)
        (store_of work.old.bank.now store.old) (tree_of work.old.bank.now kind) (written_tree body.entry))
        work.old.ticks.now.left work.new.ticks.now.left }
    ensures derived { OnOk result (DerivedEnv (env_of work.old.bank.now env.old) → DerivedEnv (env_of work.new.bank.now env.new)) }
    ensures env { IsEnv work.new.bank.now env.new }
    ensures extends { OnOk result (Extends env.old env.new) }
    ensures kept { OnErr result (env.new ≡ env.old) }
    ensures same_bank { work.new.bank.ghost_name ≡ work.old.bank.ghost_name }
    ensures same_ticks { work.new.ticks.ghost_name ≡ work.old.ticks.ghost_name }
    ensures grows { Grows work.old.bank.now work.new.bank.now }
    ensures budget { work.new.ticks.now.left + work.new.ticks.now.spent ≡ work.old.ticks.now.left + work.old.ticks.now.spent }
    ensures counted { steps.new + work.old.ticks.now.spent ≡ steps.old + work.new.ticks.now.spent }
{
    match term_in(work, env, store, context, body, Some(kind), steps) {
        Ok(found) => declare_written(work, env, store, name, kind, found.term, steps),
        Err(stop) => Err(stop),
    }
}

/// A definition with its type written.
fn define_written<L: Ledger>(
    work: &mut Work<'_, '_>,
    env: &mut Env,
    store: &mut Store,
    context: &Context,
    name: NameId,
    kind: Written<'_>,
    body: Written<'_>,
    steps: &mut Steps<L>,
) -> Result<(), Stop>
    requires env { IsEnv work.old.bank.now env.old }
    requires plain { ArePlainDeclarations (env_of work.old.bank.now env.old) }
    requires store { HasStore work.old.bank.now store.old }
    requires kept { IsStore (store_of work.old.bank.now store.old) }
    requires context { context.now ≡ [] }
    requires name { HasName work.old.bank.now name }
    ensures answer { Declares work.new.bank.now result env.new (written_work (env_of work.old.bank.now env.old) (text_of work.old.bank.now name)
        (store_of work.old.bank.now store.old) (written_tree kind.entry) (written_tree body.entry))
        work.old.ticks.now.left work.new.ticks.now.left }
    ensures derived { OnOk result (DerivedEnv (env_of work.old.bank.now env.old) → DerivedEnv (env_of work.new.bank.now env.new)) }
    ensures env { IsEnv work.new.bank.now env.new }
    ensures extends { OnOk result (Extends env.old env.new) }
    ensures kept { OnErr result (env.new ≡ env.old) }
    ensures same_bank { work.new.bank.ghost_name ≡ work.old.bank.ghost_name }
    ensures same_ticks { work.new.ticks.ghost_name ≡ work.old.ticks.ghost_name }
    ensures grows { Grows work.old.bank.now work.new.bank.now }
    ensures budget { work.new.ticks.now.left + work.new.ticks.now.spent ≡ work.old.ticks.now.left + work.old.ticks.now.spent }
    ensures counted { steps.new + work.old.ticks.now.spent ≡ steps.old + work.new.ticks.now.spent }
{
    match type_in(work, env, store, context, kind, steps) {
        Ok(found) => against_type(work, env, store, context, name, found.term, body, steps),
        Err(stop) => Err(stop),
    }
}

/// A definition without its type: its body is elaborated, and the constant is declared with the type that was found.
fn define_found<L: Ledger>(
    work: &mut Work<'_, '_>,
    env: &mut Env,
    store: &mut Store,
    context: &Context,
    name: NameId,
    body: Written<'_>,
    steps: &mut Steps<L>,
) -> Result<(), Stop>
    requires env { IsEnv work.old.bank.now env.old }
    requires plain { ArePlainDeclarations (env_of work.old.bank.now env.old) }
    requires store { HasStore work.old.bank.now store.old }
    requires kept { IsStore (store_of work.old.bank.now store.old) }
    requires context { context.now ≡ [] }
    requires name { HasName work.old.bank.now name }
    ensures answer { Declares work.new.bank.now result env.new (found_work (env_of work.old.bank.now env.old) (text_of work.old.bank.now name)
        (store_of work.old.bank.now store.old) (written_tree body.entry)) work.old.ticks.now.left work.new.ticks.now.left }
    ensures derived { OnOk result (DerivedEnv (env_of work.old.bank.now env.old) → DerivedEnv (env_of work.new.bank.now env.new)) }
    ensures env { IsEnv work.new.bank.now env.new }
    ensures extends { OnOk result (Extends env.old env.new) }
    ensures kept { OnErr result (env.new ≡ env.old) }
    ensures same_bank { work.new.bank.ghost_name ≡ work.old.bank.ghost_name }
    ensures same_ticks { work.new.ticks.ghost_name ≡ work.old.ticks.ghost_name }
    ensures grows { Grows work.old.bank.now work.new.bank.now }
    ensures budget { work.new.ticks.now.left + work.new.ticks.now.spent ≡ work.old.ticks.now.left + work.old.ticks.now.spent }
    ensures counted { steps.new + work.old.ticks.now.spent ≡ steps.old + work.new.ticks.now.spent }
{
    match term_in(work, env, store, context, body, None, steps) {
        Ok(found) => declare_found(work, env, store, name, found.kind, found.term, steps),
        Err(stop) => Err(stop),
    }
}

/// The constant of a definition, from its parameters, its type, if it is written, and its body: the type is elaborated, which must have a
/// sort, and the body against it; without a type written the type is the one that is found. Then no variable may be without a value, the
/// terms as they read keep within the limits (the type first where it is written, else the body), and the kernel checks and declares the
/// constant. All of it is paid by one budget. After a refusal the environment is as before. See the Rocq reference manual, "Definitions".
pub fn define<L: Ledger>(
    work: &mut Work<'_, '_>,
    env: &mut Env,
    name: NameId,
    groups: &[Binders],
    kind: Option<&Surface>,
    body: &Surface,
    steps: &mut Steps<L>,
) -> Result<(), Stop>
    requires env { IsEnv work.old.bank.now env.old }
    requires plain { ArePlainDeclarations (env_of work.old.bank.now env.old) }
    requires name { HasName work.old.bank.now name }
    ensures answer { Declares work.new.bank.now result env.new (λ n. definition_work (env_of work.old.bank.now env.old) n
        (text_of work.old.bank.now name) (joined (map plain_binders groups.now)) (option_map (λ A. plain A.now) kind.entry) (plain body.now))
        work.old.ticks.now.left work.new.ticks.now.left }
    ensures plain { OnOk result (ArePlainDeclarations (env_of work.new.bank.now env.new)) }
    ensures derived { OnOk result (DerivedEnv (env_of work.old.bank.now env.old) → DerivedEnv (env_of work.new.bank.now env.new)) }
    ensures env { IsEnv work.new.bank.now env.new }
    ensures extends { OnOk result (Extends env.old env.new) }
    ensures kept { OnErr result (env.new ≡ env.old) }
    ensures same_bank { work.new.bank.ghost_name ≡ work.old.bank.ghost_name }
    ensures same_ticks { work.new.ticks.ghost_name ≡ work.old.ticks.ghost_name }
    ensures grows { Grows work.old.bank.now work.new.bank.now }
    ensures budget { work.new.ticks.now.left + work.new.ticks.now.spent ≡ work.old.ticks.now.left + work.old.ticks.now.spent }
    ensures counted { steps.new + work.old.ticks.now.spent ≡ steps.old + work.new.ticks.now.spent }
{
    let alloc = work.bank.allocator();
    let context = Context::new(alloc);
    let mut store = match Store::new(alloc) {
        Ok(store) => store,
        Err(_) => return Err(Stop::NoMemory),
    };
    let body = Written::Fun(groups, body);
    match kind {
        Some(kind) => define_written(
            work,
            env,
            &mut store,
            &context,
            name,
            Written::Forall(groups, kind),
            body,
            steps,
        ),
        None => define_found(work, env, &mut store, &context, name, body, steps),
    }
}
