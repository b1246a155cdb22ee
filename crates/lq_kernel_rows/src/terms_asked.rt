//! What rows ask of terms under a budget: reduction, comparison, types.

ghost use Rattle.std.specs.Prelude.{◌≡◌, ◌<◌, IfOk, IfErr};
ghost use Rattle.lq_terms.specs.Terms.{Grows};
ghost use Rattle.lq_terms.specs.Telling.{HasValues};
ghost use Rattle.lq_env.specs.Environments.{IsEnv};
ghost use Rattle.lq_kernel.specs.Closed.{IsScoped, IsContext};
ghost use Rattle.lq_kernel_rows.specs.Told.{HasFault};
ghost use Rattle.lq_kernel_rows.specs.ToldValues.{told_values};

use crate::hypotheses::scoped;
use crate::told::{write, write_fault, write_sort};
use crate::values::{Values, given};
use lq_env::Env;
use lq_kernel::{KernelFault, check, infer, sort_of};
use lq_reduce::{ReduceFault, conv, normal, whnf};
use lq_terms::{Bank, Context, Steps, TermId, Ticks, Work, same};
use lq_trees::Sort;
use lq_words::RowFault;
use std::marker::Brand;
use std::sync::ledger::{Blank, Ledger};

/// What is asked of two terms.
#[derive(Clone, Copy)]
pub(crate) enum Ask {
    /// Whether the second is the weak head form of the first.
    Weak,
    /// Whether it is its normal form.
    Normal,
    /// Whether they compare.
    Compare,
    /// Whether the second is the type of the first.
    Infer,
    /// Whether the first has a type, the second being the same.
    Type,
    /// Whether the first has the second as a type.
    Check,
    /// The sort of the first, the second being the same.
    SortOf,
}

/// An answer that is no refusal.
#[derive(Clone, Copy)]
enum Answer {
    Yes,
    No,
    Sort(Sort),
}

/// Two terms, and what is asked of them.
#[derive(Clone, Copy)]
struct Asked {
    ask: Ask,
    first: TermId,
    second: TermId,
}

/// What a row asks, in words, with the values of variables where it gives some.
#[derive(Clone, Copy)]
pub(crate) struct Pair<'a> {
    pub(crate) ask: Ask,
    pub(crate) first: &'a str,
    pub(crate) second: &'a str,
    pub(crate) values: &'a str,
}

/// The answer that a truth is.
fn truth(is: bool) -> Answer {
    if is { Answer::Yes } else { Answer::No }
}

/// A fault of reduction as one of the kernel.
fn as_kernel(bank: &Bank<'_>, fault: ReduceFault) -> KernelFault
    ensures { HasFault bank.now result }
{
    let _bank = bank;
    match fault {
        ReduceFault::StepsOut => KernelFault::StepsOut,
        ReduceFault::TooLarge => KernelFault::TooLarge,
        ReduceFault::TooDeep => KernelFault::TooDeep,
        ReduceFault::NoMemory => KernelFault::NoMemory,
    }
}

/// Whether the second term is the form of the first, or compares with it.
#[tactic(auto, using(crate::proofs::Scenes::scenes))]
fn reduced<L: Ledger>(
    work: &mut Work<'_, '_>,
    env: &Env,
    values: &Values,
    context: &Context,
    asked: Asked,
    steps: &mut Steps<L>,
) -> Result<bool, ReduceFault>
    requires first { IsScoped work.old.bank.now 0 asked.first }
    requires second { IsScoped work.old.bank.now 0 asked.second }
    requires env { IsEnv work.old.bank.now env.now }
    requires context { IsContext work.old.bank.now context.now }
    requires values { HasValues work.old.bank.now (told_values values.now.context values.now.values.items) }
    ensures same_bank { work.new.bank.ghost_name ≡ work.old.bank.ghost_name }
    ensures same_ticks { work.new.ticks.ghost_name ≡ work.old.ticks.ghost_name }
    ensures grows { Grows work.old.bank.now work.new.bank.now }
{
    let form = match asked.ask {
        Ask::Weak => whnf(work, env, values, context, asked.first, steps)?,
        Ask::Normal => normal(work, env, values, context, asked.first, steps)?,
        _ => return conv(work, env, values, context, asked.first, asked.second, steps),
    };
    Ok(same(work.bank, form, asked.second))
}

/// Whether the second term is the type of the first.
#[tactic(auto, using(crate::proofs::Faults::refusals))]
fn inferred<L: Ledger>(
    work: &mut Work<'_, '_>,
    env: &Env,
    context: &Context,
    asked: Asked,
    steps: &mut Steps<L>,
) -> Result<bool, KernelFault>
    requires first { IsScoped work.old.bank.now 0 asked.first }
    requires second { IsScoped work.old.bank.now 0 asked.second }
    requires env { IsEnv work.old.bank.now env.now }
    requires context { IsContext work.old.bank.now context.now }
    ensures fault { IfErr result (HasFault work.new.bank.now) }
    ensures same_bank { work.new.bank.ghost_name ≡ work.old.bank.ghost_name }
    ensures same_ticks { work.new.ticks.ghost_name ≡ work.old.ticks.ghost_name }
    ensures grows { Grows work.old.bank.now work.new.bank.now }
{
    match infer(work, env, context, asked.first, steps) {
        Ok(kind) => Ok(same(work.bank, kind, asked.second)),
        Err(fault) => Err(fault),
    }
}

/// Whether the first term has the second as a type.
#[tactic(auto, using(crate::proofs::Faults::refusals))]
fn checked<L: Ledger>(
    work: &mut Work<'_, '_>,
    env: &Env,
    context: &Context,
    asked: Asked,
    steps: &mut Steps<L>,
) -> Result<(), KernelFault>
    requires first { IsScoped work.old.bank.now 0 asked.first }
    requires second { IsScoped work.old.bank.now 0 asked.second }
    requires env { IsEnv work.old.bank.now env.now }
    requires context { IsContext work.old.bank.now context.now }
    ensures fault { IfErr result (HasFault work.new.bank.now) }
    ensures same_bank { work.new.bank.ghost_name ≡ work.old.bank.ghost_name }
    ensures same_ticks { work.new.ticks.ghost_name ≡ work.old.ticks.ghost_name }
    ensures grows { Grows work.old.bank.now work.new.bank.now }
{
    check(work, env, context, asked.first, asked.second, steps)
}

/// The sort of the first term.
#[tactic(auto, using(crate::proofs::Faults::refusals))]
fn sorted<L: Ledger>(
    work: &mut Work<'_, '_>,
    env: &Env,
    context: &Context,
    term: TermId,
    steps: &mut Steps<L>,
) -> Result<Sort, KernelFault>
    requires term { IsScoped work.old.bank.now 0 term }
    requires env { IsEnv work.old.bank.now env.now }
    requires context { IsContext work.old.bank.now context.now }
    ensures fault { IfErr result (HasFault work.new.bank.now) }
    ensures same_bank { work.new.bank.ghost_name ≡ work.old.bank.ghost_name }
    ensures same_ticks { work.new.ticks.ghost_name ≡ work.old.ticks.ghost_name }
    ensures grows { Grows work.old.bank.now work.new.bank.now }
{
    sort_of(work, env, context, term, steps)
}

/// The answer of the kernel.
fn typed<L: Ledger>(
    work: &mut Work<'_, '_>,
    env: &Env,
    context: &Context,
    asked: Asked,
    steps: &mut Steps<L>,
) -> Result<Answer, KernelFault>
    requires first { IsScoped work.old.bank.now 0 asked.first }
    requires second { IsScoped work.old.bank.now 0 asked.second }
    requires env { IsEnv work.old.bank.now env.now }
    requires context { IsContext work.old.bank.now context.now }
    ensures fault { IfErr result (HasFault work.new.bank.now) }
    ensures same_bank { work.new.bank.ghost_name ≡ work.old.bank.ghost_name }
    ensures same_ticks { work.new.ticks.ghost_name ≡ work.old.ticks.ghost_name }
    ensures grows { Grows work.old.bank.now work.new.bank.now }
{
    match asked.ask {
        Ask::Infer => match inferred(work, env, context, asked, steps) {
            Ok(is) => Ok(truth(is)),
            Err(fault) => Err(fault),
        },
        Ask::Type => match inferred(work, env, context, asked, steps) {
            Ok(_) => Ok(Answer::Yes),
            Err(fault) => Err(fault),
        },
        Ask::Check => match checked(work, env, context, asked, steps) {
            Ok(()) => Ok(Answer::Yes),
            Err(fault) => Err(fault),
        },
        _ => match sorted(work, env, context, asked.first, steps) {
            Ok(sort) => Ok(Answer::Sort(sort)),
            Err(fault) => Err(fault),
        },
    }
}

/// The answer of reduction and comparison.
fn computed<L: Ledger>(
    work: &mut Work<'_, '_>,
    env: &Env,
    values: &Values,
    context: &Context,
    asked: Asked,
    steps: &mut Steps<L>,
) -> Result<Answer, KernelFault>
    requires first { IsScoped work.old.bank.now 0 asked.first }
    requires second { IsScoped work.old.bank.now 0 asked.second }
    requires env { IsEnv work.old.bank.now env.now }
    requires context { IsContext work.old.bank.now context.now }
    requires values { HasValues work.old.bank.now (told_values values.now.context values.now.values.items) }
    ensures fault { IfErr result (HasFault work.new.bank.now) }
    ensures same_bank { work.new.bank.ghost_name ≡ work.old.bank.ghost_name }
    ensures same_ticks { work.new.ticks.ghost_name ≡ work.old.ticks.ghost_name }
    ensures grows { Grows work.old.bank.now work.new.bank.now }
{
    match reduced(work, env, values, context, asked, steps) {
        Ok(is) => Ok(truth(is)),
        Err(fault) => Err(as_kernel(work.bank, fault)),
    }
}

/// Whether something is asked of reduction and comparison.
fn is_computed(ask: Ask) -> bool {
    matches!(ask, Ask::Weak | Ask::Normal | Ask::Compare)
}

/// The answer, its ticks counted from a blank.
fn answer_to<L: Ledger>(
    bank: &mut Bank<'_>,
    ticks: &mut Ticks,
    env: &Env,
    values: &Values,
    context: &Context,
    asked: Asked,
    blank: Blank,
) -> Result<Answer, KernelFault>
    requires first { IsScoped bank.old 0 asked.first }
    requires second { IsScoped bank.old 0 asked.second }
    requires env { IsEnv bank.old env.now }
    requires context { IsContext bank.old context.now }
    requires values { HasValues bank.old (told_values values.now.context values.now.values.items) }
    requires name { blank.name ≡ L.name }
    requires parts { blank.parts ≡ L.parts }
    requires some { 0 < L.parts }
    ensures fault { IfErr result (HasFault bank.new) }
    ensures grows { Grows bank.old bank.new }
{
    let mut steps = Steps::<L>::new(blank);
    let mut work = Work { bank, ticks };
    if is_computed(asked.ask) {
        computed(&mut work, env, values, context, asked, &mut steps)
    } else {
        typed(&mut work, env, context, asked, &mut steps)
    }
}

/// Writes an answer.
fn write_answer(
    bank: &Bank<'_>,
    answer: Result<Answer, KernelFault>,
    out: &mut String,
) -> Result<(), RowFault>
    requires { IfErr answer (HasFault bank.now) }
{
    match answer {
        Ok(Answer::Yes) => write(out, "yes "),
        Ok(Answer::No) => write(out, "no "),
        Ok(Answer::Sort(sort)) => write_sort(bank, sort, out),
        Err(fault) => write_fault(bank, fault, out),
    }
}

/// Writes the answer under a budget, and gives what is left of it.
fn with_values(
    bank: &mut Bank<'_>,
    env: &Env,
    values: &Values,
    context: &Context,
    asked: Asked,
    budget: u64,
    out: &mut String,
) -> Result<u64, RowFault>
    requires first { IsScoped bank.old 0 asked.first }
    requires second { IsScoped bank.old 0 asked.second }
    requires env { IsEnv bank.old env.now }
    requires context { IsContext bank.old context.now }
    requires values { HasValues bank.old (told_values values.now.context values.now.values.items) }
    ensures grows { Grows bank.old bank.new }
{
    let mut ticks = Ticks::new(budget);
    let blank = Blank::new(1);
    let answer = answer_to::<Brand>(bank, &mut ticks, env, values, context, asked, blank);
    write_answer(bank, answer, out)?;
    Ok(ticks.left)
}

/// The terms that are asked about.
#[tactic(auto, using(crate::proofs::Growing::growing))]
fn asked_of(bank: &mut Bank<'_>, terms: Pair<'_>) -> Result<Asked, RowFault>
    ensures first { IfOk result (λ a. IsScoped bank.new 0 a.first) }
    ensures second { IfOk result (λ a. IsScoped bank.new 0 a.second) }
    ensures grows { Grows bank.old bank.new }
{
    let first = scoped(bank, terms.first)?;
    let second = scoped(bank, terms.second)?;
    Ok(Asked {
        ask: terms.ask,
        first,
        second,
    })
}

/// The same with the values that are written so.
#[tactic(auto, using(crate::proofs::Growing::growing))]
fn with_given(
    bank: &mut Bank<'_>,
    env: &Env,
    context: &Context,
    asked: Asked,
    texts: &str,
    budget: u64,
    out: &mut String,
) -> Result<u64, RowFault>
    requires first { IsScoped bank.old 0 asked.first }
    requires second { IsScoped bank.old 0 asked.second }
    requires env { IsEnv bank.old env.now }
    requires context { IsContext bank.old context.now }
    ensures grows { Grows bank.old bank.new }
{
    let values = given(bank, texts)?;
    with_values(bank, env, &values, context, asked, budget, out)
}

/// Writes the answer to a row under a budget, and gives what is left of it.
#[tactic(auto, using(crate::proofs::Growing::growing))]
pub(crate) fn ask_under(
    bank: &mut Bank<'_>,
    env: &Env,
    context: &Context,
    terms: Pair<'_>,
    budget: u64,
    out: &mut String,
) -> Result<u64, RowFault>
    requires env { IsEnv bank.old env.now }
    requires context { IsContext bank.old context.now }
    ensures grows { Grows bank.old bank.new }
{
    let asked = asked_of(bank, terms)?;
    with_given(bank, env, context, asked, terms.values, budget, out)
}
