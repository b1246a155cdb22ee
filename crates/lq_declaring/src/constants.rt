//! What a definition asks of the kernel, once its terms are elaborated.

ghost use Rattle.std.specs.Prelude.{◌≡◌, ◌+◌, [], ◌∷◌, IfOk, OnOk, OnErr};
ghost use Rattle.lq_calculus.specs.Checking.{declare_constant};
ghost use Rattle.lq_calculus.specs.Typing.{DerivedEnv};
ghost use Rattle.lq_terms.specs.Terms.{Terms, HasName, text_of, tree_of, Grows};
ghost use Rattle.lq_env.specs.Environments.{IsEnv, env_of, Extends};
ghost use Rattle.lq_solving.specs.Kept.{IsStore};
ghost use Rattle.lq_evars.specs.Places.{store_of, HasStore};
ghost use Rattle.lq_goals.specs.Seen.{IsReadable};
ghost use Rattle.lq_kernel.specs.Closed.{IsScoped};
ghost use Rattle.lq_sessions.specs.Declaring.{constant_work, kernel_work};
ghost use Rattle.lq_declaring.specs.Constants.{Declares, IsSolved, ReadsBoth};

use crate::unsolved::unsolved_from;
use lq_causes::Stop;
use lq_env::Env;
use lq_evars::{Store, StoreFault};
use lq_kernel::{Declaration, declare};
use lq_print::{Cause, SentenceCause};
use lq_terms::{Bank, NameId, Steps, TermId, Work};
use std::sync::ledger::Ledger;

/// Each variable of a store must have a value. Refused as `Unresolved` with how many have none. It takes no memory.
pub fn all_solved(store: &Store) -> Result<(), Stop>
    ensures { (bank : Terms) → IsStore (store_of bank store.now) → IsSolved (store_of bank store.now) result }
{
    let count = unsolved_from(store, 0);
    if count == 0 {
        Ok(())
    } else {
        Err(Stop::Refused(Cause::Sentence(SentenceCause::Unresolved(count as u64))))
    }
}

/// Two terms as they read, in order. Refused as `TooLarge` or `TooDeep` where one of them passes that limit, the first that does.
pub fn both_read(
    bank: &mut Bank<'_>,
    store: &Store,
    first: TermId,
    second: TermId,
) -> Result<(TermId, TermId), StoreFault>
    requires store { HasStore bank.old store.now }
    requires kept { IsStore (store_of bank.old store.now) }
    requires first { IsReadable bank.old store.now first }
    requires second { IsReadable bank.old store.now second }
    ensures read { ReadsBoth bank.new result (store_of bank.old store.now) (tree_of bank.old first) (tree_of bank.old second) }
    ensures scoped { IfOk result (λ p. IsScoped bank.new 0 p.0 × IsScoped bank.new 0 p.1) }
    ensures grows { Grows bank.old bank.new }
{
    let one = match store.read(bank, first) {
        Ok(one) => one,
        Err(fault) => return Err(fault),
    };
    match store.read(bank, second) {
        Ok(two) => Ok((one, two)),
        Err(fault) => Err(fault),
    }
}

/// The kernel declares a constant.
pub(crate) fn declared<L: Ledger>(
    work: &mut Work<'_, '_>,
    env: &mut Env,
    name: NameId,
    kind: TermId,
    body: TermId,
    opaque: bool,
    steps: &mut Steps<L>,
) -> Result<(), Stop>
    requires env { IsEnv work.old.bank.now env.old }
    requires name { HasName work.old.bank.now name }
    requires kind { IsScoped work.old.bank.now 0 kind }
    requires body { IsScoped work.old.bank.now 0 body }
    ensures answer { Declares work.new.bank.now result env.new (λ n. kernel_work (declare_constant (env_of work.old.bank.now env.old) n
        (text_of work.old.bank.now name) (tree_of work.old.bank.now kind) (tree_of work.old.bank.now body) opaque))
        work.old.ticks.now.left work.new.ticks.now.left }
    ensures derived { OnOk result (DerivedEnv (env_of work.old.bank.now env.old) → DerivedEnv (env_of work.new.bank.now env.new)) }
    ensures env { IsEnv work.new.bank.now env.new }
    ensures extends { OnOk result (Extends env.old env.new) }
    ensures dropped { OnOk result (work.new.bank.now.nodes ≡ work.old.bank.now.nodes) }
    ensures kept { OnErr result (env.new ≡ env.old) }
    ensures same_bank { work.new.bank.ghost_name ≡ work.old.bank.ghost_name }
    ensures same_ticks { work.new.ticks.ghost_name ≡ work.old.ticks.ghost_name }
    ensures grows { Grows work.old.bank.now work.new.bank.now }
    ensures budget { work.new.ticks.now.left + work.new.ticks.now.spent ≡ work.old.ticks.now.left + work.old.ticks.now.spent }
    ensures counted { steps.new + work.old.ticks.now.spent ≡ steps.old + work.new.ticks.now.spent }
{
    let declaration = Declaration::Constant {
        name,
        kind,
        body,
        opaque,
    };
    match declare(work, env, declaration, steps) {
        Ok(()) => Ok(()),
        Err(fault) => Err(Stop::from(fault)),
    }
}

/// A definition with its type written, once both were elaborated: refused where a variable of the store has no value, where the type
/// as it reads and then the body pass the limits, and as the kernel refuses the constant. After a refusal the environment is as before.
pub fn declare_written<L: Ledger>(
    work: &mut Work<'_, '_>,
    env: &mut Env,
    store: &Store,
    name: NameId,
    kind: TermId,
    body: TermId,
    steps: &mut Steps<L>,
) -> Result<(), Stop>
    requires env { IsEnv work.old.bank.now env.old }
    requires store { HasStore work.old.bank.now store.now }
    requires stored { IsStore (store_of work.old.bank.now store.now) }
    requires name { HasName work.old.bank.now name }
    requires kind { IsReadable work.old.bank.now store.now kind }
    requires body { IsReadable work.old.bank.now store.now body }
    ensures answer { Declares work.new.bank.now result env.new (λ n. constant_work (env_of work.old.bank.now env.old) n
        (text_of work.old.bank.now name) (store_of work.old.bank.now store.now) (tree_of work.old.bank.now kind) (tree_of work.old.bank.now body)
        (tree_of work.old.bank.now kind ∷ tree_of work.old.bank.now body ∷ [])) work.old.ticks.now.left work.new.ticks.now.left }
    ensures derived { OnOk result (DerivedEnv (env_of work.old.bank.now env.old) → DerivedEnv (env_of work.new.bank.now env.new)) }
    ensures env { IsEnv work.new.bank.now env.new }
    ensures extends { OnOk result (Extends env.old env.new) }
    ensures kept { OnErr result (env.new ≡ env.old) }
    ensures same_bank { work.new.bank.ghost_name ≡ work.old.bank.ghost_name }
    ensures same_ticks { work.new.ticks.ghost_name ≡ work.old.ticks.ghost_name }
    ensures grows { Grows work.old.bank.now work.new.bank.now }
    ensures budget { work.new.ticks.now.left + work.new.ticks.now.spent ≡ work.old.ticks.now.left + work.old.ticks.now.spent }
    ensures counted { steps.new + work.old.ticks.now.spent ≡ steps.old + work.new.ticks.now.spent }
{
    match all_solved(store) {
        Ok(()) => {}
        Err(stop) => return Err(stop),
    }
    match both_read(work.bank, store, kind, body) {
        Ok((kind, body)) => declared(work, env, name, kind, body, false, steps),
        Err(fault) => Err(Stop::from(fault)),
    }
}

/// A definition without its type written, once its body was elaborated and its type found: refused where a variable of the store has
/// no value, where the body as it reads and then the type pass the limits, and as the kernel refuses the constant. After a refusal the
/// environment is as before.
pub fn declare_found<L: Ledger>(
    work: &mut Work<'_, '_>,
    env: &mut Env,
    store: &Store,
    name: NameId,
    kind: TermId,
    body: TermId,
    steps: &mut Steps<L>,
) -> Result<(), Stop>
    requires env { IsEnv work.old.bank.now env.old }
    requires store { HasStore work.old.bank.now store.now }
    requires stored { IsStore (store_of work.old.bank.now store.now) }
    requires name { HasName work.old.bank.now name }
    requires kind { IsReadable work.old.bank.now store.now kind }
    requires body { IsReadable work.old.bank.now store.now body }
    ensures answer { Declares work.new.bank.now result env.new (λ n. constant_work (env_of work.old.bank.now env.old) n
        (text_of work.old.bank.now name) (store_of work.old.bank.now store.now) (tree_of work.old.bank.now kind) (tree_of work.old.bank.now body)
        (tree_of work.old.bank.now body ∷ tree_of work.old.bank.now kind ∷ [])) work.old.ticks.now.left work.new.ticks.now.left }
    ensures derived { OnOk result (DerivedEnv (env_of work.old.bank.now env.old) → DerivedEnv (env_of work.new.bank.now env.new)) }
    ensures env { IsEnv work.new.bank.now env.new }
    ensures extends { OnOk result (Extends env.old env.new) }
    ensures kept { OnErr result (env.new ≡ env.old) }
    ensures same_bank { work.new.bank.ghost_name ≡ work.old.bank.ghost_name }
    ensures same_ticks { work.new.ticks.ghost_name ≡ work.old.ticks.ghost_name }
    ensures grows { Grows work.old.bank.now work.new.bank.now }
    ensures budget { work.new.ticks.now.left + work.new.ticks.now.spent ≡ work.old.ticks.now.left + work.old.ticks.now.spent }
    ensures counted { steps.new + work.old.ticks.now.spent ≡ steps.old + work.new.ticks.now.spent }
{
    match all_solved(store) {
        Ok(()) => {}
        Err(stop) => return Err(stop),
    }
    match both_read(work.bank, store, body, kind) {
        Ok((body, kind)) => declared(work, env, name, kind, body, false, steps),
        Err(fault) => Err(Stop::from(fault)),
    }
}
