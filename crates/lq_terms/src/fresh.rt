//! Names that are not taken.

ghost use Rattle.std.specs.Prelude.{◌≡◌, ◌++◌, map, decimal, IfOk};
ghost use Rattle.std.specs.List.{AllByRecursion};
ghost use Rattle.lq_trees.specs.Fresh.{is_listed, fresh_of, fresh};
ghost use Rattle.lq_terms.specs.Numbers.{IsFirstFree};
ghost use Rattle.lq_terms.specs.Terms.{HasName, IsName, text_of, Grows};
ghost use Rattle.lq_terms.specs.Contexts.{context_of, HasContext};
ghost use Rattle.lq_trees.specs.Tree.{Context};

use crate::bank::Bank;
use crate::nodes::{Hypothesis, NameId, NoMemory};
use crate::numbers::{first_free, used_numbers};
use std::alloc::Global;

/// Whether a name is one of those.
#[tactic(auto, using(crate::proofs::FreshNames::listing))]
fn is_taken(bank: &Bank<'_>, taken: &[NameId], name: NameId) -> bool
    requires taken { AllByRecursion (HasName bank.now) taken.now }
    requires name { HasName bank.now name }
    ensures { result ≡ is_listed (map (text_of bank.now) taken.now) (text_of bank.now name) }
{
    for other in taken {
        if bank.same_name(*other, name) {
            return true;
        }
    }
    false
}

/// A name with a number behind it, in decimal digits.
fn numbered(bank: &mut Bank<'_>, base: NameId, number: usize) -> Result<NameId, NoMemory>
    requires { HasName bank.old base }
    ensures name { IfOk result (λ x. IsName bank.new x (text_of bank.old base ++ decimal number)) }
    ensures nodes { bank.new.nodes ≡ bank.old.nodes }
    ensures grows { Grows bank.old bank.new }
{
    let alloc = bank.allocator();
    let text = format!(in alloc; "{}{number}", bank.text(base))?;
    bank.name(text.as_str())
}

/// The first number from 0 on that no taken name has behind the base.
fn free_number(bank: &Bank<'_>, taken: &[NameId], base: NameId) -> Result<usize, NoMemory>
    requires taken { AllByRecursion (HasName bank.now) taken.now }
    requires base { HasName bank.now base }
    ensures { IfOk result (IsFirstFree (map (text_of bank.now) taken.now) (text_of bank.now base)) }
{
    let used = used_numbers(bank, taken, base)?;
    Ok(first_free(&used))
}

/// The first of the base, the base with 0 behind it, with 1 and so on that is not taken.
pub fn fresh_name(bank: &mut Bank<'_>, taken: &[NameId], base: NameId) -> Result<NameId, NoMemory>
    requires taken { AllByRecursion (HasName bank.old) taken.now }
    requires base { HasName bank.old base }
    ensures name { IfOk result (λ x. IsName bank.new x (fresh_of (map (text_of bank.old) taken.now) (text_of bank.old base))) }
    ensures nodes { bank.new.nodes ≡ bank.old.nodes }
    ensures grows { Grows bank.old bank.new }
{
    if !is_taken(bank, taken, base) {
        return Ok(base);
    }
    let number = free_number(bank, taken, base)?;
    numbered(bank, base, number)
}

/// The name of a binder's variable under the binder: the first of the binder's name (`x` if it has
/// none), that name with 0 behind it, with 1 and so on that no hypothesis has.
pub fn name_under(
    bank: &mut Bank<'_>,
    context: &[Hypothesis],
    binder: NameId,
) -> Result<NameId, NoMemory>
    requires context { HasContext bank.old context.now }
    requires binder { HasName bank.old binder }
    ensures name { IfOk result (λ x. IsName bank.new x (fresh (context_of bank.old context.now) (text_of bank.old binder))) }
    ensures nodes { bank.new.nodes ≡ bank.old.nodes }
    ensures grows { Grows bank.old bank.new }
{
    let base = base_of(bank, binder)?;
    let taken = names_of(bank.allocator(), context)?;
    fresh_name(bank, taken.as_slice(), base)
}

/// The names of hypotheses.
fn names_of(alloc: Global, context: &[Hypothesis]) -> Result<Vec<NameId>, NoMemory>
    ensures { IfOk result (λ v. v.items ≡ map (λ h. h.name) context.now) }
{
    let names = context.iter().map(|hypothesis| hypothesis.name);
    Ok(names.collect(alloc)?)
}

/// The name that a fresh one is made from: the binder's, or `x`.
fn base_of(bank: &mut Bank<'_>, binder: NameId) -> Result<NameId, NoMemory>
    requires { HasName bank.old binder }
    ensures has { IfOk result (HasName bank.new) }
    ensures base { IfOk result (λ x. (g : Context) → fresh g (text_of bank.old binder) ≡ fresh_of (map (λ h. h.name) g) (text_of bank.new x)) }
    ensures nodes { bank.new.nodes ≡ bank.old.nodes }
    ensures grows { Grows bank.old bank.new }
{
    if bank.text(binder).is_empty() {
        bank.name("x")
    } else {
        Ok(binder)
    }
}
