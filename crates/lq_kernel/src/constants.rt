//! Constants are declared.

ghost use Rattle.std.specs.Prelude.{◌≡◌, ◌+◌, ◌∷◌, [], ◌++◌, Bool, false, OnOk, OnErr};
ghost use Rattle.lq_trees.specs.Fresh.{is_listed};
ghost use Rattle.lq_terms.specs.Terms.{HasName, HasTerm, text_of, tree_of, Grows};
ghost use Rattle.lq_terms.specs.Telling.{IsClosed};
ghost use Rattle.lq_calculus.specs.Declarations.{constant, names_of};
ghost use Rattle.lq_calculus.specs.Checking.{known, declare_constant};
ghost use Rattle.lq_env.specs.Environments.{IsEnv, env_of, Extends};
ghost use Rattle.lq_kernel.specs.Closed.{IsScoped};
ghost use Rattle.lq_kernel.specs.Answers.{Accepts, Declares};
ghost use Rattle.lq_kernel.specs.Steps.{KnowsAll};

use crate::closed::{check_in, sort_in};
use crate::faults::{KernelFault, lacking};
use crate::looking::known;
use lq_env::{Env, EnvFault};
use lq_terms::{Bank, Context, NameId, Steps, TermId, Work};
use std::sync::ledger::Ledger;

/// Whether a name is declared.
fn is_taken(bank: &Bank<'_>, env: &Env, name: NameId) -> bool
    requires env { IsEnv bank.now env.now }
    requires name { HasName bank.now name }
    ensures { result ≡ is_listed (names_of (env_of bank.now env.now)) (text_of bank.now name) }
{
    bank.names_apart();
    env.lookup(name).is_some()
}

/// Refuses a type and a body that hold a hypothesis: the first of the type, then that of the body.
fn known_alone(bank: &Bank<'_>, kind: TermId, body: TermId) -> Result<(), KernelFault>
    requires kind { HasTerm bank.now kind }
    requires body { HasTerm bank.now body }
    ensures { KnowsAll bank.now result (known [] (tree_of bank.now kind ∷ tree_of bank.now body ∷ [])) }
{
    let empty = Context::new(bank.allocator());
    known(bank, empty.hypotheses(), kind)?;
    known(bank, empty.hypotheses(), body)
}

/// Refuses a constant, in this order: a taken name, a hypothesis in its type or in its body, a type without a
/// sort, a body that has not the type. Where it passes, the terms that were made to find out are dropped.
fn check_constant<L: Ledger>(
    work: &mut Work<'_, '_>,
    env: &Env,
    name: NameId,
    kind: TermId,
    body: TermId,
    steps: &mut Steps<L>,
) -> Result<(), KernelFault>
    requires name { HasName work.old.bank.now name }
    requires kind { IsScoped work.old.bank.now 0 kind }
    requires body { IsScoped work.old.bank.now 0 body }
    requires env { IsEnv work.old.bank.now env.now }
    ensures answer { (opaque : Bool) → Accepts work.new.bank.now result
        (env_of work.old.bank.now env.now ++ (
          text_of work.old.bank.now name,
          constant (tree_of work.old.bank.now kind) (tree_of work.old.bank.now body)
              opaque,
        ) ∷ []) (λ n. declare_constant (env_of work.old.bank.now env.now) n (text_of work.old.bank.now name) (tree_of work.old.bank.now kind)
        (tree_of work.old.bank.now body) opaque) work.old.ticks.now.left work.new.ticks.now.left }
    ensures closed { OnOk result (IsClosed work.old.bank.now 0 kind × IsClosed work.old.bank.now 0 body) }
    ensures dropped { OnOk result (work.new.bank.now.nodes ≡ work.old.bank.now.nodes) }
    ensures new { OnOk result (is_listed (names_of (env_of work.old.bank.now env.now)) (text_of work.old.bank.now name) ≡ false) }
    ensures same_bank { work.new.bank.ghost_name ≡ work.old.bank.ghost_name }
    ensures same_ticks { work.new.ticks.ghost_name ≡ work.old.ticks.ghost_name }
    ensures grows { Grows work.old.bank.now work.new.bank.now }
    ensures budget { work.new.ticks.now.left + work.new.ticks.now.spent ≡ work.old.ticks.now.left + work.old.ticks.now.spent }
    ensures counted { steps.new + work.old.ticks.now.spent ≡ steps.old + work.new.ticks.now.spent }
{
    if is_taken(work.bank, env, name) {
        return Err(KernelFault::Env(EnvFault::NameTaken(name)));
    }
    known_alone(work.bank, kind, body)?;
    let mut context = Context::new(work.bank.allocator());
    let mark = work.bank.mark();
    sort_in(work, env, &mut context, kind, steps)?;
    check_in(work, env, &mut context, body, kind, steps)?;
    work.bank.undo(mark);
    Ok(())
}

/// Declares a constant that passes the checks. After a refusal the environment is as before.
pub(crate) fn declare_constant<L: Ledger>(
    work: &mut Work<'_, '_>,
    env: &mut Env,
    name: NameId,
    kind: TermId,
    body: TermId,
    opaque: bool,
    steps: &mut Steps<L>,
) -> Result<(), KernelFault>
    requires name { HasName work.old.bank.now name }
    requires kind { IsScoped work.old.bank.now 0 kind }
    requires body { IsScoped work.old.bank.now 0 body }
    requires env { IsEnv work.old.bank.now env.old }
    ensures answer { Declares work.new.bank.now result env.new (λ n. declare_constant (env_of work.old.bank.now env.old) n (text_of work.old.bank.now name)
        (tree_of work.old.bank.now kind) (tree_of work.old.bank.now body) opaque) work.old.ticks.now.left work.new.ticks.now.left }
    ensures env { IsEnv work.new.bank.now env.new }
    ensures extends { OnOk result (Extends env.old env.new) }
    ensures dropped { OnOk result (work.new.bank.now.nodes ≡ work.old.bank.now.nodes) }
    ensures kept { OnErr result (env.new ≡ env.old) }
    ensures same_bank { work.new.bank.ghost_name ≡ work.old.bank.ghost_name }
    ensures same_ticks { work.new.ticks.ghost_name ≡ work.old.ticks.ghost_name }
    ensures grows { Grows work.old.bank.now work.new.bank.now }
    ensures budget { work.new.ticks.now.left + work.new.ticks.now.spent ≡ work.old.ticks.now.left + work.old.ticks.now.spent }
    ensures counted { steps.new + work.old.ticks.now.spent ≡ steps.old + work.new.ticks.now.spent }
{
    check_constant(work, env, name, kind, body, steps)?;
    work.bank.names_apart();
    match env.add_constant(name, kind, body, opaque) {
        Ok(()) => Ok(()),
        Err(fault) => Err(lacking(fault)),
    }
}
