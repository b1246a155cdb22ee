//! What a written term stands for.

ghost use Rattle.std.specs.Prelude.{◌≡◌, ◌≤◌, ◌<◌, ◌+◌, suc, max, length, ◌∷◌, IfOk, OnOk, IfSome};
ghost use Rattle.std.specs.List.{AllByRecursion};
ghost use Rattle.lq_terms.specs.Terms.{HasName, HasTerm, text_of, Grows};
ghost use Rattle.lq_env.specs.Environments.{IsEnv, env_of};
ghost use Rattle.lq_output.specs.Nesting.{nesting};
ghost use Rattle.lq_output.specs.Steps.{binder_of, global, meant, product_of, resolved};
ghost use Rattle.lq_script.specs.Syntax.{plain_surface};
ghost use Rattle.lq_script.specs.Scopes.{scope_of, IsMeant, IsGlobal};
ghost use Rattle.lq_script.specs.Places.{next_place};

use crate::syntax::Surface;
use lq_env::{Entry, Env};
use lq_terms::{Bank, NameId, NoMemory, Node, TermId};
use lq_trees::Sort;

/// The number of the nearest binder, once there is one more, which is the nearest.
fn behind(is_here: bool, found: Option<u32>) -> Option<u32>
    requires { IfSome found (λ number. number < 4294967295) }
    ensures { result ≡ next_place is_here found }
{
    if is_here {
        return Some(0);
    }
    match found {
        Some(number) => Some(number + 1),
        None => None,
    }
}

/// The number of the nearest binder of a name, counted from the last one on.
fn nearest(bank: &Bank<'_>, binders: &[NameId], name: NameId) -> Option<u32>
    requires binders { AllByRecursion (HasName bank.now) binders.now }
    requires name { HasName bank.now name }
    requires few { length binders.now ≤ 200 }
    ensures { result ≡ binder_of (scope_of bank.now binders.now) (text_of bank.now name) }
{
    let mut found = None;
    for binder in binders {
        found = behind(bank.same_name(*binder, name), found);
    }
    found
}

/// The type of the constant of a name.
pub(crate) fn constant_type(bank: &Bank<'_>, env: &Env, name: NameId) -> Option<TermId>
    requires env { IsEnv bank.now env.now }
    requires name { HasName bank.now name }
    ensures { IsGlobal bank.now (text_of bank.now name) result (global (env_of bank.now env.now) (text_of bank.now name)) }
{
    let _text = bank.text(name);
    let Some(entry) = env.lookup(name) else {
        return None;
    };
    match entry {
        Entry::Constant { kind, .. } => Some(*kind),
        _ => None,
    }
}

/// What a name stands for: the nearest binder of that name, else the constant.
fn meaning(
    bank: &mut Bank<'_>,
    env: &Env,
    binders: &[NameId],
    name: NameId,
) -> Result<Option<TermId>, NoMemory>
    requires env { IsEnv bank.old env.now }
    requires binders { AllByRecursion (HasName bank.old) binders.now }
    requires name { HasName bank.old name }
    requires few { length binders.now ≤ 200 }
    ensures answer { IfOk result (λ o. IsMeant bank.new o (meant (env_of bank.old env.now) (scope_of bank.old binders.now) (text_of bank.old name))) }
    ensures grows { Grows bank.old bank.new }
{
    let node = match nearest(bank, binders, name) {
        Some(number) => Node::Rel(number),
        None => match constant_type(bank, env, name) {
            Some(_) => Node::Const(name),
            None => return Ok(None),
        },
    };
    Ok(Some(bank.make(node)?))
}

/// What a written name stands for.
#[tactic(auto, using(crate::proofs::Grown::grown))]
fn named(
    bank: &mut Bank<'_>,
    env: &Env,
    binders: &[NameId],
    text: &str,
) -> Result<Option<TermId>, NoMemory>
    requires env { IsEnv bank.old env.now }
    requires binders { AllByRecursion (HasName bank.old) binders.now }
    requires few { length binders.now ≤ 200 }
    ensures answer { IfOk result (λ o. IsMeant bank.new o (meant (env_of bank.old env.now) (scope_of bank.old binders.now) text.now)) }
    ensures grows { Grows bank.old bank.new }
{
    let name = bank.name(text)?;
    let term = meaning(bank, env, binders, name)?;
    Ok(term)
}

/// The term that a written term stands for under binders, of which the last is the nearest; none where a name is unknown.
/// It calls itself as deep as the written term is nested.
#[cycle(resolve)]
#[tactic(auto, unfolding(lq_output::specs::Steps::resolved))]
pub(crate) fn resolve(
    bank: &mut Bank<'_>,
    env: &Env,
    binders: &mut Vec<NameId>,
    surface: &Surface,
) -> Result<Option<TermId>, NoMemory>
    requires env { IsEnv bank.old env.now }
    requires binders { AllByRecursion (HasName bank.old) binders.old.items }
    requires shallow { length binders.old.items + nesting (plain_surface surface.now) ≤ 200 }
    ensures answer { IfOk result
        (λ o. IsMeant bank.new o (resolved (env_of bank.old env.now) (scope_of bank.old binders.old.items) (plain_surface surface.now))) }
    ensures kept { OnOk result (binders.new.items ≡ binders.old.items) }
    ensures grows { Grows bank.old bank.new }
{
    match surface {
        Surface::Named(text) => {
            let term = named(bank, env, binders.as_slice(), text.as_str())?;
            Ok(term)
        }
        Surface::Prop => {
            let term = bank.make(Node::Sort(Sort::Base))?;
            Ok(Some(term))
        }
        Surface::Forall(text, kind, rest) => {
            let term = product(bank, env, binders, text.as_str(), kind, rest)?;
            Ok(term)
        }
        Surface::Arrow(kind, rest) => {
            let term = product(bank, env, binders, "", kind, rest)?;
            Ok(term)
        }
    }
}

/// The product that a binder's name and its two written parts stand for.
#[cycle(resolve)]
#[tactic(auto, using(crate::proofs::Grown::grown))]
fn product(
    bank: &mut Bank<'_>,
    env: &Env,
    binders: &mut Vec<NameId>,
    text: &str,
    kind: &Surface,
    rest: &Surface,
) -> Result<Option<TermId>, NoMemory>
    requires env { IsEnv bank.old env.now }
    requires binders { AllByRecursion (HasName bank.old) binders.old.items }
    requires shallow { length binders.old.items + suc (max (nesting (plain_surface kind.now)) (nesting (plain_surface rest.now))) ≤ 200 }
    ensures answer { IfOk result
        (λ o. IsMeant bank.new o
        (product_of text.now (resolved (env_of bank.old env.now) (scope_of bank.old binders.old.items) (plain_surface kind.now))
        (resolved (env_of bank.old env.now) (text.now ∷ scope_of bank.old binders.old.items) (plain_surface rest.now)))) }
    ensures kept { OnOk result (binders.new.items ≡ binders.old.items) }
    ensures grows { Grows bank.old bank.new }
{
    let name = bank.name(text)?;
    let Some(kind) = resolve(bank, env, binders, kind)? else {
        return Ok(None);
    };
    let Some(rest) = resolve_under(bank, env, binders, name, rest)? else {
        return Ok(None);
    };
    let term = bank.make(Node::Prod(name, kind, rest))?;
    Ok(Some(term))
}

/// The same as [`resolve`], under one binder more.
#[cycle(resolve)]
#[tactic(auto, using(crate::proofs::Grown::grown))]
fn resolve_under(
    bank: &mut Bank<'_>,
    env: &Env,
    binders: &mut Vec<NameId>,
    name: NameId,
    surface: &Surface,
) -> Result<Option<TermId>, NoMemory>
    requires env { IsEnv bank.old env.now }
    requires binders { AllByRecursion (HasName bank.old) binders.old.items }
    requires name { HasName bank.old name }
    requires shallow { suc (length binders.old.items) + nesting (plain_surface surface.now) ≤ 200 }
    ensures answer { IfOk result
        (λ o. IsMeant bank.new o
        (resolved (env_of bank.old env.now) (text_of bank.old name ∷ scope_of bank.old binders.old.items) (plain_surface surface.now))) }
    ensures kept { OnOk result (binders.new.items ≡ binders.old.items) }
    ensures grows { Grows bank.old bank.new }
{
    binders.push(name)?;
    let term = resolve(bank, env, binders, surface)?;
    binders.pop();
    Ok(term)
}
