//! Rows with a price in ticks: each is asked with an ample budget, which gives the price, with exactly that, and with one tick less;
//! behind `once ` it is asked with the ample budget alone.

ghost use Rattle.std.specs.Prelude.{◌≡◌};
ghost use Rattle.lq_terms.specs.Terms.{Grows};
ghost use Rattle.lq_unify_rows.specs.Scenes.{IsScene};

use crate::asking::{Asked, OUT, ask_under};
use crate::declaring::Declared;
use crate::words::write;
use lq_evars::Store;
use lq_terms::{Bank, Context};
use lq_words::RowFault;

/// A budget that no row spends.
const BUDGET: u64 = 100_000_000;

/// Whether the answer is that one under a budget, and leaves none of it.
#[tactic(auto, using(crate::proofs::Keeping::keeping))]
fn spends(
    bank: &mut Bank<'_>,
    store: &mut Store,
    context: &Context,
    declared: &Declared,
    asked: Asked<'_>,
    budget: u64,
    wanted: &str,
) -> Result<bool, RowFault>
    requires scene { IsScene bank.old store.old context.now declared.now }
    ensures store { store.new ≡ store.old }
    ensures grows { Grows bank.old bank.new }
{
    let mut again = String::new(bank.allocator());
    let left = ask_under(bank, store, context, declared, asked, budget, &mut again)?;
    Ok(left == 0 && again.as_str() == wanted)
}

/// Whether that is the price: the answer is the same with exactly that, and there are too few ticks with one less.
#[tactic(auto, using(crate::proofs::Keeping::keeping))]
fn costs(
    bank: &mut Bank<'_>,
    store: &mut Store,
    context: &Context,
    declared: &Declared,
    asked: Asked<'_>,
    price: u64,
    wanted: &str,
) -> Result<bool, RowFault>
    requires scene { IsScene bank.old store.old context.now declared.now }
    ensures store { store.new ≡ store.old }
    ensures grows { Grows bank.old bank.new }
{
    if !spends(bank, store, context, declared, asked, price, wanted)? {
        return Ok(false);
    }
    match price.checked_sub(1) {
        Some(less) => spends(bank, store, context, declared, asked, less, OUT),
        None => Ok(true),
    }
}

/// Writes a price, or that it is none.
fn write_price(
    bank: &Bank<'_>,
    is_price: bool,
    price: u64,
    out: &mut String,
) -> Result<(), RowFault> {
    let mark = if is_price { "" } else { "but not " };
    let text = format!(in bank.allocator(); "for {mark}{price}")?;
    write(out, &text)
}

/// Writes the answer to a row, and the price.
#[tactic(auto, using(crate::proofs::Keeping::keeping))]
fn write_priced(
    bank: &mut Bank<'_>,
    store: &mut Store,
    context: &Context,
    declared: &Declared,
    asked: Asked<'_>,
    once: bool,
    out: &mut String,
) -> Result<(), RowFault>
    requires scene { IsScene bank.old store.old context.now declared.now }
    ensures store { store.new ≡ store.old }
    ensures grows { Grows bank.old bank.new }
{
    let mut answer = String::new(bank.allocator());
    let left = ask_under(bank, store, context, declared, asked, BUDGET, &mut answer)?;
    let price = BUDGET.saturating_sub(left);
    let is_price = once || costs(bank, store, context, declared, asked, price, &answer)?;
    write(out, &answer)?;
    write_price(bank, is_price, price, out)
}

/// What a row asks that stands behind `once `.
fn behind_once(text: &str) -> Result<&str, RowFault> {
    match text.strip_prefix("unify ") {
        Some(text) => Ok(text),
        None => Err(RowFault::Malformed),
    }
}

/// Writes the answer to a row behind the word `unify` or `once`, and the price.
#[tactic(auto, using(crate::proofs::Keeping::keeping))]
pub(crate) fn priced_row(
    bank: &mut Bank<'_>,
    store: &mut Store,
    context: &Context,
    declared: &Declared,
    word: &str,
    text: &str,
    out: &mut String,
) -> Result<(), RowFault>
    requires scene { IsScene bank.old store.old context.now declared.now }
    ensures store { store.new ≡ store.old }
    ensures grows { Grows bank.old bank.new }
{
    let once = word == "once";
    let text = if once { behind_once(text)? } else { text };
    let (terms, values) = match text.split_once(" giving ") {
        Some(parts) => parts,
        None => (text, ""),
    };
    let asked = Asked { terms, values };
    write_priced(bank, store, context, declared, asked, once, out)
}
