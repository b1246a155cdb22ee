//! Faults as text.

ghost use Rattle.std.specs.Prelude.{◌≡◌, ◌<◌, ◌++◌, decimal, codes, replicate, OnOk, IfOk};
ghost use Rattle.std.specs.String.{string_bytes};
ghost use Rattle.lq_terms.specs.Terms.{HasName, HasTerm, text_of, tree_of};
ghost use Rattle.lq_env.specs.Environments.{IsEnv, env_of};
ghost use Rattle.lq_texts.specs.Printing.{term_text, name_text, sort_text};
ghost use Rattle.lq_texts.specs.Faults.{cause_text, fault_text, level_text, argument_text, with_messages};
ghost use Rattle.lq_print.specs.Goals.{HasNameOr};
ghost use Rattle.lq_print.specs.Causes.{text_cause, sentence_cause, declaration_cause, term_cause, goal_cause, primitive_cause};
ghost use Rattle.lq_print.specs.Causes.{rule_cause, ltac_cause, cause_of, name_or_none, sign_before, HasSentenceCause, HasDeclarationCause};
ghost use Rattle.lq_print.specs.Causes.{HasTermCause, HasGoalCause, HasPrimitiveCause, HasRuleCause, HasLtacCause, HasCause};

use crate::causes::{
    Cause, DeclarationCause, GoalCause, LtacCause, PrimitiveCause, RuleCause, ScriptCause,
    SentenceCause, TermCause, TextCause,
};
use crate::printing::append_term;
use crate::steps::write;
use crate::writing::{write_name, write_number, write_sort};
use lq_ast::Text;
use lq_env::Env;
use lq_terms::{Bank, NameId, NoMemory, TermId};
use lq_trees::Sort;

/// Writes a long number in decimal digits.
fn write_long(out: &mut String, number: u128) -> Result<(), NoMemory>
    ensures { OnOk result (string_bytes out.new ≡ string_bytes out.old ++ decimal number) }
{
    let alloc = *out.allocator();
    let digits = number.to_string(alloc)?;
    write(out, digits.as_str())
}

/// Writes words and a number.
fn write_numbered(out: &mut String, words: &str, number: u64) -> Result<(), NoMemory>
    ensures { OnOk result (string_bytes out.new ≡ string_bytes out.old ++ (words.now ++ decimal number)) }
{
    write(out, words)?;
    write_number(out, number)
}

/// Writes words and a long number.
fn write_long_numbered(out: &mut String, words: &str, number: u128) -> Result<(), NoMemory>
    ensures { OnOk result (string_bytes out.new ≡ string_bytes out.old ++ (words.now ++ decimal number)) }
{
    write(out, words)?;
    write_long(out, number)
}

/// Writes words, a name and words.
fn write_named(
    out: &mut String,
    bank: &Bank<'_>,
    before: &str,
    name: NameId,
    after: &str,
) -> Result<(), NoMemory>
    requires { HasName bank.now name }
    ensures { OnOk result (string_bytes out.new ≡ string_bytes out.old ++ (before.now ++ text_of bank.now name ++ after.now)) }
{
    write(out, before)?;
    write(out, bank.text(name))?;
    write(out, after)
}

/// Writes words and a name.
fn write_named_last(
    out: &mut String,
    bank: &Bank<'_>,
    words: &str,
    name: NameId,
) -> Result<(), NoMemory>
    requires { HasName bank.now name }
    ensures { OnOk result (string_bytes out.new ≡ string_bytes out.old ++ (words.now ++ text_of bank.now name)) }
{
    write(out, words)?;
    write(out, bank.text(name))
}

/// Writes a name and words.
fn write_named_first(
    out: &mut String,
    bank: &Bank<'_>,
    name: NameId,
    words: &str,
) -> Result<(), NoMemory>
    requires { HasName bank.now name }
    ensures { OnOk result (string_bytes out.new ≡ string_bytes out.old ++ (text_of bank.now name ++ words.now)) }
{
    write(out, bank.text(name))?;
    write(out, words)
}

/// Writes words and a term.
fn write_told(
    out: &mut String,
    bank: &Bank<'_>,
    env: &Env,
    words: &str,
    term: TermId,
) -> Result<(), NoMemory>
    requires env { IsEnv bank.now env.now }
    requires term { HasTerm bank.now term }
    ensures { OnOk result (string_bytes out.new ≡ string_bytes out.old ++ (words.now ++ term_text (env_of bank.now env.now) (tree_of bank.now term))) }
{
    write(out, words)?;
    append_term(out, bank, env, term)
}

/// Writes words, a term, words and a term.
fn write_both_told(
    out: &mut String,
    bank: &Bank<'_>,
    env: &Env,
    words: &str,
    term: TermId,
    between: &str,
    other: TermId,
) -> Result<(), NoMemory>
    requires env { IsEnv bank.now env.now }
    requires term { HasTerm bank.now term }
    requires other { HasTerm bank.now other }
    ensures { OnOk result (string_bytes out.new ≡ string_bytes out.old
        ++ (words.now ++ term_text (env_of bank.now env.now) (tree_of bank.now term)
        ++ between.now ++ term_text (env_of bank.now env.now) (tree_of bank.now other))) }
{
    write_told(out, bank, env, words, term)?;
    write_told(out, bank, env, between, other)
}

/// Writes a term, words, a term and words.
fn write_pair_told(
    out: &mut String,
    bank: &Bank<'_>,
    env: &Env,
    term: TermId,
    other: TermId,
    words: &str,
) -> Result<(), NoMemory>
    requires env { IsEnv bank.now env.now }
    requires term { HasTerm bank.now term }
    requires other { HasTerm bank.now other }
    ensures { OnOk result (string_bytes out.new ≡ string_bytes out.old
        ++ (term_text (env_of bank.now env.now) (tree_of bank.now term) ++ codes " and "
        ++ term_text (env_of bank.now env.now) (tree_of bank.now other) ++ words.now)) }
{
    append_term(out, bank, env, term)?;
    write_told(out, bank, env, " and ", other)?;
    write(out, words)
}

/// Writes what a fault of tokens or of syntax is.
#[tactic(auto, unfolding(lq_texts::specs::Faults::cause_text))]
fn write_text_cause(
    out: &mut String,
    bank: &Bank<'_>,
    env: &Env,
    cause: TextCause,
) -> Result<(), NoMemory>
    ensures { OnOk result (string_bytes out.new ≡ string_bytes out.old ++ cause_text (env_of bank.now env.now) (text_cause cause)) }
{
    match cause {
        TextCause::BadChar(place) => write_numbered(out, "bad character at ", place),
        TextCause::BadNumber(place) => write_numbered(out, "bad number at ", place),
        TextCause::OpenComment(place) => {
            write_numbered(out, "comment opened at ", place)?;
            write(out, " is not closed")
        }
        TextCause::OpenString(place) => {
            write_numbered(out, "string opened at ", place)?;
            write(out, " is not closed")
        }
        TextCause::Unexpected(place) => write_numbered(out, "unexpected token at ", place),
        TextCause::EndInside(place) => {
            write_numbered(out, "text ends inside a sentence at ", place)
        }
        TextCause::TooNested(place) => {
            write_numbered(out, "nested more than 200 deep at ", place)
        }
        TextCause::SentenceTooLong(place) => {
            write_numbered(out, "sentence longer than 65536 bytes at ", place)
        }
    }
}

/// Writes why a sentence isn't allowed where it stands.
#[tactic(auto, unfolding(lq_texts::specs::Faults::cause_text))]
fn write_sentence_cause(
    out: &mut String,
    bank: &Bank<'_>,
    env: &Env,
    cause: SentenceCause,
) -> Result<(), NoMemory>
    requires { HasSentenceCause bank.now cause }
    ensures { OnOk result (string_bytes out.new ≡ string_bytes out.old ++ cause_text (env_of bank.now env.now) (sentence_cause bank.now cause)) }
{
    match cause {
        SentenceCause::NotBuilt => write(out, "not built"),
        SentenceCause::NoProof => write(out, "no proof is open"),
        SentenceCause::NestedProof(name) => write_named(out, bank, "proof of ", name, " is open"),
        SentenceCause::OpenProof(name) => {
            write_named_last(out, bank, "script ends inside the proof of ", name)
        }
        SentenceCause::OpenGoals(count) => write_numbered(out, "open goals: ", count),
        SentenceCause::Unresolved(count) => {
            write_numbered(out, "variables without a value: ", count)
        }
        SentenceCause::HasNotFailed => write(out, "the sentence has not failed"),
        SentenceCause::BadCount(count) => {
            write_long_numbered(out, "count ", count)?;
            write(out, " is out of range")
        }
        SentenceCause::NameTaken(name) => {
            write_named_first(out, bank, name, " is declared already")
        }
        SentenceCause::LtacTaken(name) => {
            write_named(out, bank, "Ltac ", name, " is defined already")
        }
    }
}

/// Writes which argument of which constructor, and what is wrong with it.
#[tactic(auto, unfolding(lq_texts::specs::Faults::argument_text))]
fn write_argument(
    out: &mut String,
    bank: &Bank<'_>,
    number: u64,
    constructor: NameId,
    words: &str,
) -> Result<(), NoMemory>
    requires { HasName bank.now constructor }
    ensures { OnOk result (string_bytes out.new ≡ string_bytes out.old ++ argument_text number (text_of bank.now constructor) words.now) }
{
    write_numbered(out, "argument ", number)?;
    write_named(out, bank, " of ", constructor, words)
}

/// Writes that a family can't be eliminated into a sort.
fn write_forbidden(
    out: &mut String,
    bank: &Bank<'_>,
    family: NameId,
    sort: Sort,
) -> Result<(), NoMemory>
    requires { HasName bank.now family }
    ensures { OnOk result (string_bytes out.new ≡ string_bytes out.old
        ++ (text_of bank.now family ++ codes " cannot be eliminated into " ++ sort_text sort)) }
{
    write_named_first(out, bank, family, " cannot be eliminated into ")?;
    write_sort(out, sort)
}

/// Writes why a declaration is refused.
#[tactic(auto, unfolding(lq_texts::specs::Faults::cause_text))]
fn write_declaration_cause(
    out: &mut String,
    bank: &Bank<'_>,
    env: &Env,
    cause: DeclarationCause,
) -> Result<(), NoMemory>
    requires { HasDeclarationCause bank.now cause }
    ensures { OnOk result (string_bytes out.new ≡ string_bytes out.old ++ cause_text (env_of bank.now env.now) (declaration_cause bank.now cause)) }
{
    match cause {
        DeclarationCause::NotPositive(constructor, number) => {
            write_argument(out, bank, number, constructor, " is not positive")
        }
        DeclarationCause::NestedUse(constructor, number) => {
            write_argument(out, bank, number, constructor, " is a nested use")
        }
        DeclarationCause::BadResult(constructor) => {
            write_named_first(out, bank, constructor, " has a wrong result")
        }
        DeclarationCause::TooBig(constructor, number) => {
            write_argument(out, bank, number, constructor, " is too big")
        }
        DeclarationCause::ElimForbidden(family, sort) => write_forbidden(out, bank, family, sort),
    }
}

/// Writes that a finished term holds a variable.
fn write_has_variable(out: &mut String, variable: u32) -> Result<(), NoMemory>
    ensures { OnOk result (string_bytes out.new ≡ string_bytes out.old ++ (codes "variable ?" ++ decimal variable ++ codes " in a finished term")) }
{
    write_numbered(out, "variable ?", u64::from(variable))?;
    write(out, " in a finished term")
}

/// Writes a fault of typing, elaboration, unification or the store.
#[tactic(auto, unfolding(lq_texts::specs::Faults::cause_text))]
fn write_term_cause(
    out: &mut String,
    bank: &Bank<'_>,
    env: &Env,
    cause: TermCause,
) -> Result<(), NoMemory>
    requires env { IsEnv bank.now env.now }
    requires cause { HasTermCause bank.now cause }
    ensures { OnOk result (string_bytes out.new ≡ string_bytes out.old ++ cause_text (env_of bank.now env.now) (term_cause bank.now cause)) }
{
    match cause {
        TermCause::Unknown(name) => write_named_last(out, bank, "unknown name ", name),
        TermCause::NotAProduct(kind) => write_told(out, bank, env, "not a product: ", kind),
        TermCause::NotASort(kind) => write_told(out, bank, env, "not a sort: ", kind),
        TermCause::Mismatch(found, wanted) => {
            write_both_told(out, bank, env, "found ", found, ", wanted ", wanted)
        }
        TermCause::NoSortAbove => write_numbered(out, "no sort above Type ", 3),
        TermCause::CannotInfer(place) => write_numbered(out, "cannot infer at ", place),
        TermCause::HasVariable(variable) => write_has_variable(out, variable),
        TermCause::StepsOut => write(out, "steps out"),
        TermCause::TooLarge => write(out, "term of more than 1000000 nodes"),
        TermCause::TooDeep => write(out, "term deeper than 2000"),
        TermCause::Full => write(out, "too many variables"),
    }
}

/// Writes a bullet: its character as often as it stands.
fn write_bullet(out: &mut String, character: u8, count: u8) -> Result<(), NoMemory>
    requires { character < 128 }
    ensures { OnOk result (string_bytes out.new ≡ string_bytes out.old ++ replicate count character) }
{
    for _place in 0..count {
        out.push(char::from(character))?;
    }
    Ok(())
}

/// Writes which bullet was expected.
fn write_wrong_bullet(out: &mut String, character: u8, count: u8) -> Result<(), NoMemory>
    requires { character < 128 }
    ensures { OnOk result (string_bytes out.new ≡ string_bytes out.old ++ (codes "expected bullet " ++ replicate count character)) }
{
    write(out, "expected bullet ")?;
    write_bullet(out, character, count)
}

/// Writes a fault of goals and their lists.
#[tactic(auto, unfolding(lq_texts::specs::Faults::cause_text))]
fn write_goal_cause(
    out: &mut String,
    bank: &Bank<'_>,
    env: &Env,
    cause: GoalCause,
) -> Result<(), NoMemory>
    requires { HasGoalCause bank.now cause }
    ensures { OnOk result (string_bytes out.new ≡ string_bytes out.old ++ cause_text (env_of bank.now env.now) (goal_cause bank.now cause)) }
{
    match cause {
        GoalCause::NoSuchGoal(number) => write_long_numbered(out, "no goal ", number),
        GoalCause::NoSuchName(name) => write_named_last(out, bank, "no goal named ", name),
        GoalCause::NotOne(count) => {
            write_number(out, count)?;
            write(out, " goals, wanted one")
        }
        GoalCause::NotSolved(count) => write_numbered(out, "goals left: ", count),
        GoalCause::WrongBullet(character, count) => write_wrong_bullet(out, character, count),
        GoalCause::NothingFocused => write(out, "no goal is focused"),
        GoalCause::NoBrace => write(out, "no brace is open"),
        GoalCause::TooManyGoals => write(out, "more than 10000 goals"),
    }
}

/// Writes a name, `_` where there is none.
fn write_name_or_none(
    out: &mut String,
    bank: &Bank<'_>,
    name: Option<NameId>,
) -> Result<(), NoMemory>
    requires { HasNameOr bank.now name }
    ensures { OnOk result (string_bytes out.new ≡ string_bytes out.old ++ name_text (name_or_none bank.now name)) }
{
    match name {
        Some(name) => write_name(out, bank.text(name)),
        None => write_name(out, ""),
    }
}

/// Writes how many constructors there are and how many are wanted.
fn write_constructors(out: &mut String, count: u64, wanted: u64) -> Result<(), NoMemory>
    ensures { OnOk result (string_bytes out.new ≡ string_bytes out.old ++ (decimal count ++ codes " constructors, wanted " ++ decimal wanted)) }
{
    write_number(out, count)?;
    write_numbered(out, " constructors, wanted ", wanted)
}

/// Writes that two terms do not unify.
fn write_apart(
    out: &mut String,
    bank: &Bank<'_>,
    env: &Env,
    left: TermId,
    right: TermId,
) -> Result<(), NoMemory>
    requires env { IsEnv bank.now env.now }
    requires left { HasTerm bank.now left }
    requires right { HasTerm bank.now right }
    ensures { OnOk result (string_bytes out.new ≡ string_bytes out.old
        ++ (term_text (env_of bank.now env.now) (tree_of bank.now left) ++ codes " and "
        ++ term_text (env_of bank.now env.now) (tree_of bank.now right) ++ codes " do not unify")) }
{
    write_pair_told(out, bank, env, left, right, " do not unify")
}

/// Writes why a primitive of the first table is refused.
#[tactic(auto, unfolding(lq_texts::specs::Faults::cause_text))]
fn write_primitive_cause(
    out: &mut String,
    bank: &Bank<'_>,
    env: &Env,
    cause: PrimitiveCause,
) -> Result<(), NoMemory>
    requires env { IsEnv bank.now env.now }
    requires cause { HasPrimitiveCause bank.now cause }
    ensures { OnOk result (string_bytes out.new ≡ string_bytes out.old ++ cause_text (env_of bank.now env.now) (primitive_cause bank.now cause)) }
{
    match cause {
        PrimitiveCause::NothingToIntroduce => write(out, "nothing to introduce"),
        PrimitiveCause::NameInUse(name) => write_named(out, bank, "name ", name, " is in use"),
        PrimitiveCause::CannotApply(term, goal) => {
            write_both_told(out, bank, env, "cannot apply ", term, " to ", goal)
        }
        PrimitiveCause::NotDetermined(name) => {
            write_name_or_none(out, bank, name)?;
            write(out, " is not determined")
        }
        PrimitiveCause::NoAssumption => write(out, "no assumption fits"),
        PrimitiveCause::NotInductive(kind) => {
            write_told(out, bank, env, "not an inductive type: ", kind)
        }
        PrimitiveCause::NoConstructor(number) => {
            write_long_numbered(out, "no constructor ", number)
        }
        PrimitiveCause::Constructors(count, wanted) => write_constructors(out, count, wanted),
        PrimitiveCause::NoArgument => write(out, "the constructor has no argument"),
        PrimitiveCause::NotEquality(goal) => {
            write_told(out, bank, env, "not an equality: ", goal)
        }
        PrimitiveCause::DoNotUnify(left, right) => write_apart(out, bank, env, left, right),
        PrimitiveCause::IllTyped => write(out, "ill-typed predicate"),
    }
}

/// Writes why a primitive of the second table is refused.
#[tactic(auto, unfolding(lq_texts::specs::Faults::cause_text))]
fn write_rule_cause(
    out: &mut String,
    bank: &Bank<'_>,
    env: &Env,
    cause: RuleCause,
) -> Result<(), NoMemory>
    requires env { IsEnv bank.now env.now }
    requires cause { HasRuleCause bank.now cause }
    ensures { OnOk result (string_bytes out.new ≡ string_bytes out.old ++ cause_text (env_of bank.now env.now) (rule_cause bank.now cause)) }
{
    match cause {
        RuleCause::NotAHypothesis(name) => {
            write_named_first(out, bank, name, " is not a hypothesis")
        }
        RuleCause::WrongNames => write(out, "wrong names after as"),
        RuleCause::NotAnEquation(kind) => write_told(out, bank, env, "not an equation: ", kind),
        RuleCause::NothingToRewrite => write(out, "nothing to rewrite"),
        RuleCause::NotTransparent(name) => {
            write_named_first(out, bank, name, " is not transparent")
        }
        RuleCause::DoesNotOccur(name) => write_named_first(out, bank, name, " does not occur"),
        RuleCause::NotConvertible(left, right) => {
            write_pair_told(out, bank, env, left, right, " are not convertible")
        }
        RuleCause::StillUsed(name) => write_named_first(out, bank, name, " is still used"),
    }
}

/// The sign before a message: the first one has a colon, the others a space.
fn message_sign(place: usize) -> &'static str
    ensures { result.now ≡ sign_before place }
{
    match place {
        0 => ": ",
        _ => " ",
    }
}

/// Writes the messages of a failure.
fn write_messages(out: &mut String, messages: &[Text]) -> Result<(), NoMemory>
    ensures { OnOk result (string_bytes out.new ≡ string_bytes out.old ++ with_messages messages.now) }
{
    for place in 0..messages.len() {
        write(out, message_sign(place))?;
        write(out, messages[place].as_str())?;
    }
    Ok(())
}

/// Writes a failure with its messages.
fn write_failure(out: &mut String, messages: &[Text]) -> Result<(), NoMemory>
    ensures { OnOk result (string_bytes out.new ≡ string_bytes out.old ++ (codes "Ltac failure" ++ with_messages messages.now)) }
{
    write(out, "Ltac failure")?;
    write_messages(out, messages)
}

/// Writes a failure of Ltac.
#[tactic(auto, unfolding(lq_texts::specs::Faults::cause_text))]
fn write_ltac_cause(
    out: &mut String,
    bank: &Bank<'_>,
    env: &Env,
    cause: &LtacCause,
) -> Result<(), NoMemory>
    requires { HasLtacCause bank.now cause.now }
    ensures { OnOk result (string_bytes out.new ≡ string_bytes out.old ++ cause_text (env_of bank.now env.now) (ltac_cause bank.now cause.now)) }
{
    match cause {
        LtacCause::Failure(messages) => write_failure(out, messages.as_slice()),
        LtacCause::NothingApplies => write(out, "nothing applies"),
        LtacCause::NoMatch => write(out, "no matching clause"),
        LtacCause::NoProgress => write(out, "no progress"),
        LtacCause::ManySuccesses => write(out, "more than one success"),
        LtacCause::NoMore => write(out, "no more success"),
        LtacCause::WrongCount(goals, branches) => write_counts(out, *goals, *branches),
        LtacCause::NotRunnable => write(out, "value cannot be run"),
        LtacCause::NotAFunction => write(out, "too many arguments"),
        LtacCause::NotATerm(name) => write_named_first(out, bank, *name, " is not a term"),
        LtacCause::NotAName(name) => write_named_first(out, bank, *name, " is not a name"),
        LtacCause::NotANumber(name) => write_named_first(out, bank, *name, " is not a number"),
    }
}

/// Writes how many goals and how many branches there are.
fn write_counts(out: &mut String, goals: u64, branches: u64) -> Result<(), NoMemory>
    ensures { OnOk result (string_bytes out.new ≡ string_bytes out.old
        ++ (decimal goals ++ codes " goals, " ++ decimal branches ++ codes " branches")) }
{
    write_number(out, goals)?;
    write_numbered(out, " goals, ", branches)?;
    write(out, " branches")
}

/// Writes a cause.
fn write_cause(out: &mut String, bank: &Bank<'_>, env: &Env, cause: &Cause) -> Result<(), NoMemory>
    requires env { IsEnv bank.now env.now }
    requires cause { HasCause bank.now cause.now }
    ensures { OnOk result (string_bytes out.new ≡ string_bytes out.old ++ cause_text (env_of bank.now env.now) (cause_of bank.now cause.now)) }
{
    match cause {
        Cause::Text(cause) => write_text_cause(out, bank, env, *cause),
        Cause::Sentence(cause) => write_sentence_cause(out, bank, env, *cause),
        Cause::Declaration(cause) => write_declaration_cause(out, bank, env, *cause),
        Cause::Term(cause) => write_term_cause(out, bank, env, *cause),
        Cause::Goal(cause) => write_goal_cause(out, bank, env, *cause),
        Cause::Primitive(cause) => write_primitive_cause(out, bank, env, *cause),
        Cause::Rule(cause) => write_rule_cause(out, bank, env, *cause),
        Cause::Ltac(cause) => write_ltac_cause(out, bank, env, cause),
    }
}

/// Writes the level of a failure, if it isn't 0.
#[tactic(auto, unfolding(lq_texts::specs::Faults::level_text))]
fn write_level(out: &mut String, level: u128) -> Result<(), NoMemory>
    ensures { OnOk result (string_bytes out.new ≡ string_bytes out.old ++ level_text level) }
{
    if level == 0 {
        return Ok(());
    }
    write_long_numbered(out, " (level ", level)?;
    write(out, ")")
}

/// Writes a fault.
#[tactic(auto, unfolding(lq_texts::specs::Faults::fault_text))]
pub(crate) fn append_fault(
    out: &mut String,
    bank: &Bank<'_>,
    env: &Env,
    cause: &ScriptCause,
) -> Result<(), NoMemory>
    requires env { IsEnv bank.now env.now }
    requires cause { HasCause bank.now cause.now.cause }
    ensures { OnOk result (string_bytes out.new ≡ string_bytes out.old
        ++ fault_text (env_of bank.now env.now) (cause_of bank.now cause.now.cause) cause.now.level) }
{
    write_cause(out, bank, env, &cause.cause)?;
    write_level(out, cause.level)
}

/// The text of a fault, with its level where that isn't 0. Its terms are read through the store already; the environment is the one in
/// which the fault arose, and tells the names of constructors: one of no declared family has the empty name.
/// The only refusal is for want of memory.
pub fn fault_text(bank: &Bank<'_>, env: &Env, cause: &ScriptCause) -> Result<Text, NoMemory>
    requires env { IsEnv bank.now env.now }
    requires cause { HasCause bank.now cause.now.cause }
    ensures { IfOk result (λ x. x ≡ fault_text (env_of bank.now env.now) (cause_of bank.now cause.now.cause) cause.now.level) }
{
    let mut out = String::new(bank.allocator());
    append_fault(&mut out, bank, env, cause)?;
    Ok(Text::from_string(out))
}
