//! The values of variables in the rows over reduction.

ghost use Rattle.std.specs.Prelude.{◌≡◌, ◌∷◌, [], IsTrue, IfOk, map};
ghost use Rattle.std.specs.List.{AllByRecursion};
ghost use Rattle.lq_terms.specs.Terms.{HasTerm, Grows};
ghost use Rattle.lq_terms.specs.Contexts.{HasAllOf};
ghost use Rattle.lq_terms.specs.Telling.{HasValues};
ghost use Rattle.lq_words.specs.Low.{HasStack};
ghost use Rattle.lq_kernel_rows.specs.ToldValues.{told_values};

use lq_terms::{Bank, Bodies, Context, Hypothesis, TermId};
use lq_words::{RowFault, build, stands};

/// The first variables have these values, all in one context.
#[derive(Drop)]
pub(crate) struct Values {
    context: Context,
    values: Vec<TermId>,
}

impl Bodies for Values {
    ghost use Rattle.lq_kernel_rows.specs.ToldValues.{told_values};

    ghost value_of = { λ b. told_values b.context b.values.items };

    fn body(&self, variable: u32) -> Option<(&Context, TermId)> {
        match self.values.get(variable as usize) {
            Some(value) => Some((&self.context, *value)),
            None => None,
        }
    }
}

/// Whether the values of the first variables, each in the context of that hypothesis, hold no other hypothesis, and
/// variables of greater numbers than their own alone.
fn are_values(bank: &Bank<'_>, hypothesis: Hypothesis, values: &[TermId]) -> bool
    requires hypothesis { HasAllOf bank.now hypothesis }
    requires values { AllByRecursion (HasTerm bank.now) values.now }
    ensures { IsTrue result → HasValues bank.now (told_values (hypothesis ∷ []) values.now) }
{
    let names = [hypothesis.name];
    let mut left = values.len();
    while left > 0 {
        let least = left as u64;
        left -= 1;
        if !stands(bank, &names, least, 0, values[left]) {
            return false;
        }
    }
    true
}

/// Terms that are written so, in order.
#[tactic(auto, using(crate::proofs::Settling::stacks))]
fn terms(bank: &mut Bank<'_>, texts: &str) -> Result<Vec<TermId>, RowFault>
    ensures has { IfOk result (λ ts. AllByRecursion (HasTerm bank.new) ts.items) }
    ensures grows { Grows bank.old bank.new }
{
    let mut terms = Vec::new(bank.allocator());
    for text in texts.split(", ") {
        if !text.is_empty() {
            let term = build(bank, text)?;
            terms.push(term)?;
        }
    }
    Ok(terms)
}

/// Values of the first variables, each in the context of that hypothesis.
fn settled(bank: &Bank<'_>, hypothesis: Hypothesis, values: Vec<TermId>) -> Result<Values, RowFault>
    requires hypothesis { HasAllOf bank.now hypothesis }
    requires values { AllByRecursion (HasTerm bank.now) values.items }
    ensures { IfOk result (λ v. HasValues bank.now (told_values v.context v.values.items)) }
{
    if !are_values(bank, hypothesis, &values) {
        return Err(RowFault::Unwritten);
    }
    let mut context = Context::new(bank.allocator());
    context.push(hypothesis)?;
    Ok(Values { context, values })
}

/// Values of the first variables that are written so, each in the context of the hypothesis `a : nat`.
#[tactic(auto, using(crate::proofs::Settling::stacks))]
pub(crate) fn given(bank: &mut Bank<'_>, texts: &str) -> Result<Values, RowFault>
    ensures values { IfOk result (λ v. HasValues bank.new (told_values v.context v.values.items)) }
    ensures grows { Grows bank.old bank.new }
{
    let kind = build(bank, "nat")?;
    let name = bank.name("a")?;
    let terms = terms(bank, texts)?;
    let hypothesis = Hypothesis {
        name,
        body: None,
        kind,
    };
    settled(bank, hypothesis, terms)
}
