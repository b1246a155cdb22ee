//! The hypothesis of a name, and the types of leaves.

ghost use Rattle.std.specs.Prelude.{◌≡◌, ℕ, Some, option_map, slice_get, IfSome};
ghost use Rattle.std.specs.Option.{option_copied};
ghost use Rattle.lq_trees.specs.Index.{Within};
ghost use Rattle.lq_trees.specs.Tree.{Tree, Context as TreeContext};
ghost use Rattle.lq_terms.specs.Terms.{HasName, text_of, tree_of, Grows};
ghost use Rattle.lq_terms.specs.Contexts.{hypothesis_of, context_of};
ghost use Rattle.lq_calculus.specs.Contraction.{hypothesis};
ghost use Rattle.lq_calculus.specs.Declarations.{Env as Environment, lookup, constructor_type};
ghost use Rattle.lq_calculus.specs.Checking.{fitting, elim_kind};
ghost use Rattle.lq_inference.specs.Inference.{Open};
ghost use Rattle.lq_env.specs.Environments.{IsEnv, IsFamilyEntry, env_of, entry_at, kind_of};
ghost use Rattle.lq_env.specs.Families.{IsSort, IsFamily, family_of};
ghost use Rattle.lq_kernel.specs.Closed.{IsScoped, IsHypothesis, IsContext};
ghost use Rattle.lq_kernel.specs.Steps.{Types, Fitted, inside_of};

use crate::faults::KernelFault;
use crate::forms::within_limits;
use lq_env::{Entry, Env, EnvFault, Family};
use lq_terms::{Bank, Hypothesis, NameId, Node, TermId};
use lq_trees::Sort;

/// The last level of the types.
const LAST_LEVEL: u8 = 3;

/// The first hypothesis of a name.
pub(crate) fn find(bank: &Bank<'_>, hypotheses: &[Hypothesis], name: NameId) -> Option<Hypothesis>
    requires context { IsContext bank.now hypotheses.now }
    requires name { HasName bank.now name }
    ensures found { option_map (hypothesis_of bank.now) result ≡ hypothesis (context_of bank.now hypotheses.now) (text_of bank.now name) }
    ensures is { IfSome result (IsHypothesis bank.now) }
{
    for hypothesis in hypotheses {
        if bank.same_name(hypothesis.name, name) {
            return Some(*hypothesis);
        }
    }
    None
}

/// The type of a hypothesis.
pub(crate) fn hypothesis_type(
    bank: &Bank<'_>,
    hypotheses: &[Hypothesis],
    name: NameId,
) -> Result<TermId, KernelFault>
    requires name { HasName bank.now name }
    requires context { IsContext bank.now hypotheses.now }
    ensures { (o : Open) (E : Environment) (b : ℕ) → Types bank.now result (inside_of o E (context_of bank.now hypotheses.now) (Tree.Var (text_of bank.now name))) b b }
{
    match find(bank, hypotheses, name) {
        Some(hypothesis) => within_limits(bank, hypothesis.kind),
        None => Err(KernelFault::Unbound(name)),
    }
}

/// The type of a sort.
pub(crate) fn sort_type(bank: &mut Bank<'_>, sort: Sort) -> Result<TermId, KernelFault>
    ensures answer { (o : Open) (E : Environment) (G : TreeContext) (b : ℕ) → Types bank.new result (inside_of o E G (Tree.Sort sort)) b b }
    ensures grows { Grows bank.old bank.new }
{
    let level = match sort {
        Sort::Base => 0,
        Sort::Level(level) if level < LAST_LEVEL => level + 1,
        Sort::Level(_) => return Err(KernelFault::NoSortAbove),
    };
    Ok(bank.make(Node::Sort(Sort::Level(level)))?)
}

/// The type of a constant; `Unbound` where the name is no constant, `TooLarge` or `TooDeep` where the type passes the limits.
pub fn constant_type(bank: &Bank<'_>, env: &Env, name: NameId) -> Result<TermId, KernelFault>
    requires name { HasName bank.now name }
    requires env { IsEnv bank.now env.now }
    ensures { (o : Open) (G : TreeContext) (b : ℕ) → Types bank.now result (inside_of o (env_of bank.now env.now) G (Tree.Const (text_of bank.now name))) b b }
{
    bank.names_apart();
    let Some(entry) = env.lookup(name) else {
        return Err(KernelFault::Unbound(name));
    };
    match entry {
        Entry::Constant { kind, .. } => within_limits(bank, *kind),
        _ => Err(KernelFault::Unbound(name)),
    }
}

/// The type that an environment keeps of a name.
fn kept_type(bank: &Bank<'_>, env: &Env, name: NameId) -> Result<TermId, KernelFault>
    requires name { HasName bank.now name }
    requires env { IsEnv bank.now env.now }
    ensures { (tree : Tree) (b : ℕ) → kind_of (env_of bank.now env.now) (text_of bank.now name) ≡ Some tree → Within 0 tree
        → Types bank.now result (λ n. fitting tree) b b }
{
    bank.names_apart();
    match env.kind(name) {
        Some(kind) => within_limits(bank, kind),
        None => Err(KernelFault::Unbound(name)),
    }
}

/// The type of a family, declared or being declared; `Unbound` where the name is none, `TooLarge` or `TooDeep` where the type
/// passes the limits.
pub fn family_type(bank: &Bank<'_>, env: &Env, name: NameId) -> Result<TermId, KernelFault>
    requires name { HasName bank.now name }
    requires env { IsEnv bank.now env.now }
    ensures { (o : Open) (G : TreeContext) (b : ℕ) → Types bank.now result (inside_of o (env_of bank.now env.now) G (Tree.Ind (text_of bank.now name))) b b }
{
    bank.names_apart();
    let Some(entry) = env.lookup(name) else {
        return Err(KernelFault::Unbound(name));
    };
    match entry {
        Entry::Family(..) | Entry::Arity { .. } => kept_type(bank, env, name),
        _ => Err(KernelFault::Unbound(name)),
    }
}

/// The type of a family's eliminator into a sort; `Unbound` where the name is no family, `Env` where it has none into that sort,
/// `TooLarge` or `TooDeep` where the type passes the limits. See the Rocq reference manual, "Inductive types".
pub fn eliminator_type(
    bank: &Bank<'_>,
    env: &Env,
    name: NameId,
    sort: Sort,
) -> Result<TermId, KernelFault>
    requires name { HasName bank.now name }
    requires env { IsEnv bank.now env.now }
    ensures { (o : Open) (G : TreeContext) (b : ℕ) → Types bank.now result (inside_of o (env_of bank.now env.now) G (Tree.Elim (text_of bank.now name) sort)) b b }
{
    bank.names_apart();
    let Some(entry) = env.lookup(name) else {
        return Err(KernelFault::Unbound(name));
    };
    match entry {
        Entry::Family(..) => type_into(bank, env, name, sort),
        _ => Err(KernelFault::Unbound(name)),
    }
}

/// The type of a declared family's eliminator into a sort.
fn type_into(bank: &Bank<'_>, env: &Env, name: NameId, sort: Sort) -> Result<TermId, KernelFault>
    requires name { HasName bank.now name }
    requires env { IsEnv bank.now env.now }
    requires family { IsFamilyEntry (entry_at env.now name) }
    ensures { (b : ℕ) → Types bank.now result (λ n. elim_kind (text_of bank.now name) sort (lookup (env_of bank.now env.now) (text_of bank.now name))) b b }
{
    bank.names_apart();
    match sort {
        Sort::Base => permitted_type(bank, env, name, sort),
        Sort::Level(level) => {
            if level <= LAST_LEVEL {
                permitted_type(bank, env, name, sort)
            } else {
                Err(KernelFault::Env(EnvFault::ElimForbidden(name, sort)))
            }
        }
    }
}

/// The type of a declared family's eliminator into one of the sorts.
fn permitted_type(
    bank: &Bank<'_>,
    env: &Env,
    name: NameId,
    sort: Sort,
) -> Result<TermId, KernelFault>
    requires name { HasName bank.now name }
    requires env { IsEnv bank.now env.now }
    requires family { IsFamilyEntry (entry_at env.now name) }
    requires sort { IsSort sort }
    ensures { (b : ℕ) → Types bank.now result (λ n. elim_kind (text_of bank.now name) sort (lookup (env_of bank.now env.now) (text_of bank.now name))) b b }
{
    bank.names_apart();
    match env.elim_type(name, sort) {
        Ok(kind) => within_limits(bank, kind),
        Err(fault) => Err(KernelFault::Env(fault)),
    }
}

/// The type of a family's constructor, counted from 0; `Unbound` where there is none, `TooLarge` or `TooDeep` where the type
/// passes the limits.
pub fn constructor_type(
    bank: &mut Bank<'_>,
    env: &Env,
    name: NameId,
    index: u32,
) -> Result<TermId, KernelFault>
    requires name { HasName bank.old name }
    requires env { IsEnv bank.old env.now }
    ensures answer { (o : Open) (G : TreeContext) (b : ℕ) → Types bank.new result (inside_of o (env_of bank.old env.now) G (Tree.Ctor (text_of bank.old name) index)) b b }
    ensures grows { Grows bank.old bank.new }
{
    bank.names_apart();
    let Some(entry) = env.lookup(name) else {
        return Err(KernelFault::Unbound(name));
    };
    let Entry::Family(family, _) = entry else {
        return Err(KernelFault::Unbound(name));
    };
    match member(family, index) {
        Some((_, kind)) => whole_type(bank, family, *kind),
        None => Err(KernelFault::Unbound(name)),
    }
}

/// A constructor's whole type, by its type under the parameters.
fn whole_type(bank: &mut Bank<'_>, family: &Family, kind: TermId) -> Result<TermId, KernelFault>
    requires family { IsFamily bank.old family.now }
    requires kind { IsScoped bank.old 0 kind }
    ensures answer { Fitted bank.new result (constructor_type (family_of bank.old family.now) (tree_of bank.old kind)) }
    ensures grows { Grows bank.old bank.new }
{
    match lq_env::constructor_type(bank, family, kind) {
        Ok(whole) => Ok(whole),
        Err(EnvFault::TooLarge) => Err(KernelFault::TooLarge),
        Err(EnvFault::TooDeep) => Err(KernelFault::TooDeep),
        Err(EnvFault::NoMemory) => Err(KernelFault::NoMemory),
        Err(_) => unreachable!(),
    }
}

/// A family's constructor, counted from 0.
fn member(family: &Family, index: u32) -> Option<&(NameId, TermId)>
    ensures { option_copied result ≡ slice_get family.now.constructors index }
{
    family.constructors.constructors().get(index as usize)
}
