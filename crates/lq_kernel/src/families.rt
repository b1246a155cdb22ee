//! Inductive families are checked.

ghost use Rattle.std.specs.Prelude.{◌≡◌, ◌+◌, ◌∷◌, [], ◌++◌, ℕ, List, map, length, IfOk, IfErr, OnOk};
ghost use Rattle.std.specs.List.{AllByRecursion};
ghost use Rattle.lq_trees.specs.Tree.{Name, Tree, Context as TreeContext};
ghost use Rattle.lq_terms.specs.Terms.{HasName, text_of, tree_of, Grows};
ghost use Rattle.lq_terms.specs.Contexts.{context_of};
ghost use Rattle.lq_trees.specs.declared.Sort.{Sort as Universe};
ghost use Rattle.lq_calculus.specs.Declarations.{Env as Environment, is_small};
ghost use Rattle.lq_calculus.specs.Checking.{known, known_context, sorts_of, check_constructors};
ghost use Rattle.lq_env.specs.Environments.{IsEnv, env_of};
ghost use Rattle.lq_env.specs.Families.{HasConstructor, family_of, constructors_of};
ghost use Rattle.lq_kernel.specs.Closed.{IsScoped, IsContext};
ghost use Rattle.lq_trees.specs.Ticks.{done, ComesTo};
ghost use Rattle.lq_kernel.specs.Answers.{Refuses, Checks};
ghost use Rattle.lq_kernel.specs.Steps.{KnowsAll};
ghost use Rattle.lq_kernel.specs.Declaring.{IsOffered, constructor_work, FindsSmall};

use crate::closed::sort_in;
use crate::faults::KernelFault;
use crate::inside::copied;
use crate::looking::known;
use crate::telescopes::{all_proofs, first_big, telescope_sort};
use lq_env::{Env, Family};
use lq_terms::{Bank, Context, Hypothesis, NameId, NoMemory, Steps, TermId, Work};
use lq_trees::Sort;
use std::alloc::Global;
use std::sync::ledger::Ledger;

/// Hypotheses behind those of a context.
fn push_hypotheses(context: &mut Context, hypotheses: &[Hypothesis]) -> Result<(), NoMemory>
    ensures { OnOk result (context.new ≡ context.old ++ hypotheses.now) }
{
    for hypothesis in hypotheses {
        context.push(*hypothesis)?;
    }
    Ok(())
}

/// A family's parameters with its indices behind them.
pub(crate) fn telescope(alloc: Global, family: &Family) -> Result<Context, NoMemory>
    ensures { IfOk result (λ g. g ≡ family.now.parameters ++ family.now.indices) }
{
    let mut telescope = Context::new(alloc);
    push_hypotheses(&mut telescope, family.parameters.hypotheses())?;
    push_hypotheses(&mut telescope, family.indices.hypotheses())?;
    Ok(telescope)
}

/// Refuses the first hypothesis in the types of a context that is none of those before it.
pub(crate) fn known_context(bank: &Bank<'_>, telescope: &Context) -> Result<(), KernelFault>
    requires { IsContext bank.now telescope.now }
    ensures { KnowsAll bank.now result (known_context [] (context_of bank.now telescope.now)) }
{
    let mut before = Context::new(bank.allocator());
    for hypothesis in telescope.hypotheses() {
        known(bank, before.hypotheses(), hypothesis.kind)?;
        before.push(*hypothesis)?;
    }
    Ok(())
}

/// Refuses the first hypothesis in the types of constructors that is no parameter.
pub(crate) fn known_constructors(bank: &Bank<'_>, family: &Family) -> Result<(), KernelFault>
    requires parameters { IsContext bank.now family.now.parameters }
    requires constructors { AllByRecursion (HasConstructor bank.now) family.now.constructors }
    ensures { KnowsAll bank.now result (known (context_of bank.now family.now.parameters) (map (λ c. c.1) (constructors_of bank.now family.now.constructors))) }
{
    for constructor in family.constructors.constructors() {
        known(bank, family.parameters.hypotheses(), constructor.1)?;
    }
    Ok(())
}

/// Refuses a context of which some type has no sort under the hypotheses before it.
pub(crate) fn sorts_of<L: Ledger>(
    work: &mut Work<'_, '_>,
    env: &Env,
    telescope: &Context,
    steps: &mut Steps<L>,
) -> Result<(), KernelFault>
    requires env { IsEnv work.old.bank.now env.now }
    requires context { IsContext work.old.bank.now telescope.now }
    ensures answer { Checks work.new.bank.now result (λ n. sorts_of (env_of work.old.bank.now env.now) n [] (context_of work.old.bank.now telescope.now))
        work.old.ticks.now.left work.new.ticks.now.left }
    ensures same_bank { work.new.bank.ghost_name ≡ work.old.bank.ghost_name }
    ensures same_ticks { work.new.ticks.ghost_name ≡ work.old.ticks.ghost_name }
    ensures grows { Grows work.old.bank.now work.new.bank.now }
    ensures budget { work.new.ticks.now.left + work.new.ticks.now.spent ≡ work.old.ticks.now.left + work.old.ticks.now.spent }
    ensures counted { steps.new + work.old.ticks.now.spent ≡ steps.old + work.new.ticks.now.spent }
{
    let mut before = Context::new(work.bank.allocator());
    for hypothesis in telescope.hypotheses() {
        sort_in(work, env, &mut before, hypothesis.kind, steps)?;
        before.push(*hypothesis)?;
    }
    Ok(())
}

/// The sorts of a constructor's arguments. Its type must have a sort, and no argument may have one above
/// that of its family.
fn check_constructor<L: Ledger>(
    work: &mut Work<'_, '_>,
    env: &Env,
    family: &Family,
    name: NameId,
    kind: TermId,
    steps: &mut Steps<L>,
) -> Result<Vec<Sort>, KernelFault>
    requires name { HasName work.old.bank.now name }
    requires kind { IsScoped work.old.bank.now 0 kind }
    requires env { IsEnv work.old.bank.now env.now }
    requires context { IsContext work.old.bank.now family.now.parameters }
    ensures answer { (E : Environment) (G : TreeContext) (x : Name) (T : Tree) → env_of work.old.bank.now env.now ≡ E
        → context_of work.old.bank.now family.now.parameters ≡ G → text_of work.old.bank.now name ≡ x → tree_of work.old.bank.now kind ≡ T
        → IfOk result (λ domains.
        ComesTo (λ n. constructor_work E n G family.now.sort x T) work.old.ticks.now.left (done domains.items work.new.ticks.now.left)) }
    ensures refused { (E : Environment) (G : TreeContext) (x : Name) (T : Tree) → env_of work.old.bank.now env.now ≡ E
        → context_of work.old.bank.now family.now.parameters ≡ G → text_of work.old.bank.now name ≡ x → tree_of work.old.bank.now kind ≡ T
        → IfErr result (λ e. Refuses work.new.bank.now e (λ n. constructor_work E n G family.now.sort x T) work.old.ticks.now.left work.new.ticks.now.left) }
    ensures same_bank { work.new.bank.ghost_name ≡ work.old.bank.ghost_name }
    ensures same_ticks { work.new.ticks.ghost_name ≡ work.old.ticks.ghost_name }
    ensures grows { Grows work.old.bank.now work.new.bank.now }
    ensures budget { work.new.ticks.now.left + work.new.ticks.now.spent ≡ work.old.ticks.now.left + work.old.ticks.now.spent }
    ensures counted { steps.new + work.old.ticks.now.spent ≡ steps.old + work.new.ticks.now.spent }
{
    let mut parameters = copied(work.bank.allocator(), &family.parameters)?;
    let mut domains = Vec::new(work.bank.allocator());
    telescope_sort(work, env, &mut parameters, kind, &mut domains, steps)?;
    match first_big(family.sort, &domains) {
        Some(argument) => Err(KernelFault::TooBig(name, argument)),
        None => Ok(domains),
    }
}

/// Whether a family in Prop is eliminated into every sort, by the sorts of its last constructor's arguments and the number
/// of the constructors before it.
fn is_small_with(before: usize, domains: &[Sort]) -> bool
    ensures { (found : List (List Universe)) → length found ≡ before → result ≡ is_small (found ++ domains.now ∷ []) }
{
    before == 0 && all_proofs(domains)
}

/// Refuses constructors of which some type has no sort, or some argument one above the family's. Else it
/// answers whether the family, if it lies in Prop, is eliminated into every sort: it has no constructor, or one whose
/// arguments are all proofs.
pub(crate) fn check_constructors<L: Ledger>(
    work: &mut Work<'_, '_>,
    env: &Env,
    family: &Family,
    steps: &mut Steps<L>,
) -> Result<bool, KernelFault>
    requires family { IsOffered work.old.bank.now family.now }
    requires env { IsEnv work.old.bank.now env.now }
    ensures answer { FindsSmall work.new.bank.now result (λ n. check_constructors (env_of work.old.bank.now env.now) n
        (family_of work.old.bank.now family.now) (constructors_of work.old.bank.now family.now.constructors)) work.old.ticks.now.left work.new.ticks.now.left }
    ensures same_bank { work.new.bank.ghost_name ≡ work.old.bank.ghost_name }
    ensures same_ticks { work.new.ticks.ghost_name ≡ work.old.ticks.ghost_name }
    ensures grows { Grows work.old.bank.now work.new.bank.now }
    ensures budget { work.new.ticks.now.left + work.new.ticks.now.spent ≡ work.old.ticks.now.left + work.old.ticks.now.spent }
    ensures counted { steps.new + work.old.ticks.now.spent ≡ steps.old + work.new.ticks.now.spent }
{
    let mut small = true;
    let constructors = family.constructors.constructors();
    for (index, constructor) in constructors.iter().enumerate() {
        let domains = check_constructor(work, env, family, constructor.0, constructor.1, steps)?;
        small = is_small_with(index, &domains);
    }
    Ok(small)
}
