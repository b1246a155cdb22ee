//! The printed name of a binder.

ghost use Rattle.std.specs.Prelude.{◌≡◌, ◌++◌, true, map, reverse, IfOk};
ghost use Rattle.lq_trees.specs.Fresh.{is_listed, fresh_of};
ghost use Rattle.lq_terms.specs.Terms.{HasName, text_of};
ghost use Rattle.lq_texts.specs.Printing.{own_name};
ghost use Rattle.lq_print.specs.Tables.{text_at, IsText, Lengthens, AreWithin};
ghost use Rattle.lq_print.specs.Flat.{name_for};
ghost use Rattle.lq_print.specs.Pieces.{over_in, HasBinder};
ghost use Rattle.lq_print.specs.Pages.{printed};

use crate::numbers::free_number;
use crate::pieces::Binder;
use crate::texts::Texts;
use lq_terms::{Bank, NameId, NoMemory};

/// Whether a text is one of those with these numbers.
fn is_among(texts: &Texts, numbers: &[usize], text: &str) -> bool
    requires { AreWithin texts.now numbers.now }
    ensures { result ≡ is_listed (map (text_at texts.now) numbers.now) text.now }
{
    let Some(number) = texts.find(text) else {
        return false;
    };
    for other in numbers {
        if *other == number {
            return true;
        }
    }
    false
}

/// Whether a text is one of the names inside, or one of the binders.
fn is_taken(texts: &Texts, inside: &[usize], binders: &[usize], text: &str) -> bool
    requires inside { AreWithin texts.now inside.now }
    requires binders { AreWithin texts.now binders.now }
    ensures { result ≡ is_listed (map (text_at texts.now) inside.now ++ printed texts.now binders.now) text.now }
{
    if is_among(texts, binders, text) {
        return true;
    }
    is_among(texts, inside, text)
}

/// Numbers, and then others from the last one on.
fn put_together(texts: &Texts, inside: &[usize], binders: &[usize]) -> Result<Vec<usize>, NoMemory>
    ensures { IfOk result (λ v. v.items ≡ inside.now ++ reverse binders.now) }
{
    let alloc = texts.allocator();
    let nearest_first: Vec<usize> = binders.iter().rev().copied().collect(alloc)?;
    let mut taken = Vec::from_slice(alloc, inside)?;
    taken.extend_from_slice(nearest_first.as_slice())?;
    Ok(taken)
}

/// The base with the first number behind it with which it is not taken.
fn renumbered(
    texts: &mut Texts,
    inside: &[usize],
    binders: &[usize],
    base: &str,
) -> Result<usize, NoMemory>
    requires inside { AreWithin texts.old inside.now }
    requires binders { AreWithin texts.old binders.now }
    requires taken { is_listed (map (text_at texts.old) inside.now ++ printed texts.old binders.now) base.now ≡ true }
    ensures name { IfOk result (λ k. IsText texts.new k (fresh_of (map (text_at texts.old) inside.now ++ printed texts.old binders.now) base.now)) }
    ensures longer { Lengthens texts.old texts.new }
{
    let taken = put_together(texts, inside, binders)?;
    let number = free_number(texts, taken.as_slice(), base)?;
    let text = format!(in texts.allocator(); "{base}{number}")?;
    texts.add(text.as_str())
}

/// The first of the base, the base with 0 behind it, with 1 and so on that is not taken: it is none of the names inside and
/// none of the binders, of which the nearest is the last.
fn fresh_among(
    texts: &mut Texts,
    inside: &[usize],
    binders: &[usize],
    base: &str,
) -> Result<usize, NoMemory>
    requires inside { AreWithin texts.old inside.now }
    requires binders { AreWithin texts.old binders.now }
    ensures name { IfOk result (λ k. IsText texts.new k (fresh_of (map (text_at texts.old) inside.now ++ printed texts.old binders.now) base.now)) }
    ensures longer { Lengthens texts.old texts.new }
{
    if is_taken(texts, inside, binders, base) {
        renumbered(texts, inside, binders, base)
    } else {
        texts.add(base)
    }
}

/// A binder's own name, `x` if it has none.
fn own_name<'t>(bank: &'t Bank<'_>, binder: NameId) -> &'t str
    requires { HasName bank.now binder }
    ensures { result.now ≡ own_name (text_of bank.now binder) }
{
    let text = bank.text(binder);
    if text.is_empty() { "x" } else { text }
}

/// The printed name of a binder, by its number; the empty one where the body does not use it. Of the printed binders round it
/// the nearest is the last.
pub(crate) fn printed_name(
    bank: &Bank<'_>,
    texts: &mut Texts,
    names: &[usize],
    binders: &[usize],
    binder: Binder,
) -> Result<usize, NoMemory>
    requires names { AreWithin texts.old names.now }
    requires binders { AreWithin texts.old binders.now }
    requires binder { HasBinder bank.now names.now binder }
    ensures name { IfOk result (λ k. IsText texts.new k (name_for (over_in bank.now texts.old names.now binder) (printed texts.old binders.now))) }
    ensures longer { Lengthens texts.old texts.new }
{
    if !binder.is_used {
        return texts.add("");
    }
    let inside = &names[binder.low..binder.high];
    fresh_among(texts, inside, binders, own_name(bank, binder.name))
}
