//! Rows with a price in ticks: `weak T = T`, `normal T = T`, `compare T = T`, each with values of the first variables
//! behind ` given `, joined by `, `; `infer T = T`, `infer T`, `check T : T`, `sort T`; `offer DECLARATION`, which takes
//! it out again, `offer-hidden DECLARATION` for a constant whose body is hidden, `declare DECLARATION`, which keeps it.
//! Each but the last is asked with an ample budget, which gives the price, with exactly that, and with one tick less;
//! behind `once ` it is asked with the ample budget alone.

ghost use Rattle.lq_terms.specs.Terms.{Grows};
ghost use Rattle.lq_env.specs.Environments.{IsEnv};
ghost use Rattle.lq_kernel.specs.Closed.{IsContext};

use crate::offers::{Offer, offer_under};
use crate::row::parted;
use crate::terms_asked::{Ask, Pair, ask_under};
use crate::told::{OUT, write};
use lq_env::Env;
use lq_terms::{Bank, Context};
use lq_words::RowFault;

/// A budget that no row spends.
const BUDGET: u64 = 100_000_000;

/// What has a price.
#[derive(Clone, Copy)]
enum Priced<'a> {
    Terms(Pair<'a>),
    Offer(Offer<'a>),
}

/// What is asked of two terms that a mark parts, with values.
fn pair<'a>(ask: Ask, text: &'a str, mark: &str) -> Result<Priced<'a>, RowFault> {
    let (text, values) = match text.split_once(" given ") {
        Some(parts) => parts,
        None => (text, ""),
    };
    let (first, second) = parted(text, mark)?;
    Ok(Priced::Terms(Pair {
        ask,
        first,
        second,
        values,
    }))
}

/// What is asked of one term.
fn alone<'a>(ask: Ask, text: &'a str) -> Priced<'a> {
    Priced::Terms(Pair {
        ask,
        first: text,
        second: text,
        values: "",
    })
}

/// A declaration that is offered.
fn offer<'a>(text: &'a str, opaque: bool, stays: bool) -> Priced<'a> {
    Priced::Offer(Offer {
        text,
        opaque,
        stays,
    })
}

/// What a row asks.
fn what_of<'a>(word: &str, text: &'a str) -> Result<Priced<'a>, RowFault> {
    match word {
        "weak" => pair(Ask::Weak, text, " = "),
        "normal" => pair(Ask::Normal, text, " = "),
        "compare" => pair(Ask::Compare, text, " = "),
        "infer" => {
            if text.contains(" = ") {
                pair(Ask::Infer, text, " = ")
            } else {
                Ok(alone(Ask::Type, text))
            }
        }
        "check" => pair(Ask::Check, text, " : "),
        "sort" => Ok(alone(Ask::SortOf, text)),
        "offer" => Ok(offer(text, false, false)),
        "offer-hidden" => Ok(offer(text, true, false)),
        _ => Ok(offer(text, false, true)),
    }
}

/// Writes the answer under a budget, and gives what is left of it.
#[tactic(auto, using(crate::proofs::Growing::growing))]
fn under(
    bank: &mut Bank<'_>,
    env: &mut Env,
    context: &Context,
    what: Priced<'_>,
    budget: u64,
    out: &mut String,
) -> Result<u64, RowFault>
    requires env { IsEnv bank.old env.old }
    requires context { IsContext bank.old context.now }
    ensures env { IsEnv bank.new env.new }
    ensures grows { Grows bank.old bank.new }
{
    match what {
        Priced::Terms(terms) => ask_under(bank, env, context, terms, budget, out),
        Priced::Offer(offer) => offer_under(bank, env, offer, budget, out),
    }
}

/// Whether the answer is that one under a budget, and leaves none of it.
#[tactic(auto, using(crate::proofs::Growing::growing))]
fn spends(
    bank: &mut Bank<'_>,
    env: &mut Env,
    context: &Context,
    what: Priced<'_>,
    budget: u64,
    wanted: &str,
) -> Result<bool, RowFault>
    requires env { IsEnv bank.old env.old }
    requires context { IsContext bank.old context.now }
    ensures env { IsEnv bank.new env.new }
    ensures grows { Grows bank.old bank.new }
{
    let mut again = String::new(bank.allocator());
    let left = under(bank, env, context, what, budget, &mut again)?;
    Ok(left == 0 && again.as_str() == wanted)
}

/// Whether that is the price: the answer is the same with exactly that, and there are too few ticks with one less.
#[tactic(auto, using(crate::proofs::Growing::growing))]
fn costs(
    bank: &mut Bank<'_>,
    env: &mut Env,
    context: &Context,
    what: Priced<'_>,
    price: u64,
    wanted: &str,
) -> Result<bool, RowFault>
    requires env { IsEnv bank.old env.old }
    requires context { IsContext bank.old context.now }
    ensures env { IsEnv bank.new env.new }
    ensures grows { Grows bank.old bank.new }
{
    if !spends(bank, env, context, what, price, wanted)? {
        return Ok(false);
    }
    match price.checked_sub(1) {
        Some(less) => spends(bank, env, context, what, less, OUT),
        None => Ok(true),
    }
}

/// Writes a price, or that it is none.
fn write_price(
    bank: &Bank<'_>,
    is_price: bool,
    price: u64,
    out: &mut String,
) -> Result<(), RowFault> {
    let mark = if is_price { "" } else { "but not " };
    let text = format!(in bank.allocator(); "for {mark}{price}")?;
    write(out, &text)
}

/// Writes the answer to what has a price, and the price.
#[tactic(auto, using(crate::proofs::Growing::growing))]
fn write_priced(
    bank: &mut Bank<'_>,
    env: &mut Env,
    context: &Context,
    what: Priced<'_>,
    once: bool,
    out: &mut String,
) -> Result<(), RowFault>
    requires env { IsEnv bank.old env.old }
    requires context { IsContext bank.old context.now }
    ensures env { IsEnv bank.new env.new }
    ensures grows { Grows bank.old bank.new }
{
    let mut answer = String::new(bank.allocator());
    let left = under(bank, env, context, what, BUDGET, &mut answer)?;
    let price = BUDGET.saturating_sub(left);
    let is_price = once || costs(bank, env, context, what, price, &answer)?;
    write(out, &answer)?;
    write_price(bank, is_price, price, out)
}

/// Whether a declaration is kept, so that it can be offered only once.
fn is_kept(what: Priced<'_>) -> bool {
    match what {
        Priced::Terms(_) => false,
        Priced::Offer(offer) => offer.stays,
    }
}

/// Whether a word asks what has a price.
pub(crate) fn is_priced(word: &str) -> bool {
    matches!(
        word,
        "weak"
            | "normal"
            | "compare"
            | "infer"
            | "check"
            | "sort"
            | "offer"
            | "offer-hidden"
            | "declare"
            | "once"
    )
}

/// Writes the answer to a row that has a price, and the price.
pub(crate) fn priced_row(
    bank: &mut Bank<'_>,
    env: &mut Env,
    context: &Context,
    word: &str,
    text: &str,
    out: &mut String,
) -> Result<(), RowFault>
    requires env { IsEnv bank.old env.old }
    requires context { IsContext bank.old context.now }
    ensures env { IsEnv bank.new env.new }
    ensures grows { Grows bank.old bank.new }
{
    if word == "once" {
        let (word, text) = parted(text, " ")?;
        let what = what_of(word, text)?;
        return write_priced(bank, env, context, what, true, out);
    }
    let what = what_of(word, text)?;
    write_priced(bank, env, context, what, is_kept(what), out)
}
