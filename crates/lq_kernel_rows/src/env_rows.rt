//! Rows over an environment as it stands: `type NAME = T`, `eliminator FAMILY SORT = T`, `counts NAME = P I C`,
//! `rule FAMILY K`, `body NAME = T`, `taken FAMILY`, `family-type FAMILY = T`, `constructor-type T of FAMILY = T`.

ghost use Rattle.std.specs.Prelude.{◌≡◌, IfOk, IfErr, IfSome};
ghost use Rattle.lq_trees.specs.Index.{Within};
ghost use Rattle.lq_terms.specs.Terms.{HasName, HasTerm, Grows, tree_of};
ghost use Rattle.lq_env.specs.Families.{IsFamily};
ghost use Rattle.lq_env.specs.Environments.{IsEnv};
ghost use Rattle.lq_kernel_rows.specs.Told.{HasEnvFault};

use crate::hypotheses::scoped;
use crate::row::{number, parted, yes};
use crate::told::{write, write_env_fault};
use lq_env::{Entry, Env, EnvFault, Family, constructor_type, family_type, refuse_taken_names};
use lq_terms::{Bank, NameId, Rules, TermId, same};
use lq_trees::Sort;
use lq_words::{RowFault, build, is_sort, parse_family, sort_of, taken_family};

/// The word for a term that may be there: whether it is the one that is written so.
fn compared(
    bank: &mut Bank<'_>,
    found: Option<TermId>,
    wanted: &str,
) -> Result<&'static str, RowFault>
    requires { IfSome found (HasTerm bank.old) }
    ensures { Grows bank.old bank.new }
{
    match found {
        Some(found) => {
            let wanted = build(bank, wanted)?;
            Ok(yes(same(bank, found, wanted)))
        }
        None => Ok("none"),
    }
}

/// The closed type of a name.
fn kind(bank: &Bank<'_>, env: &Env, name: NameId) -> Option<TermId>
    requires { IsEnv bank.now env.now }
    ensures { IfSome result (HasTerm bank.now) }
{
    let _bank = bank;
    env.kind(name)
}

/// What a name stands for.
#[tactic(auto, using(crate::proofs::Scenes::scenes))]
fn body(bank: &Bank<'_>, env: &Env, name: NameId) -> Option<TermId>
    requires { IsEnv bank.now env.now }
    ensures { IfSome result (HasTerm bank.now) }
{
    let _bank = bank;
    env.delta(name)
}

/// Whether a name has that type, or none.
#[tactic(auto, using(lq_words::proofs::Environments::growing))]
fn has_type(bank: &mut Bank<'_>, env: &Env, text: &str) -> Result<&'static str, RowFault>
    requires { IsEnv bank.old env.now }
    ensures { Grows bank.old bank.new }
{
    let (name, wanted) = parted(text, " = ")?;
    let name = bank.name(name)?;
    let found = kind(bank, env, name);
    compared(bank, found, wanted)
}

/// Whether a name stands for that, or for none.
#[tactic(auto, using(lq_words::proofs::Environments::growing))]
fn has_body(bank: &mut Bank<'_>, env: &Env, text: &str) -> Result<&'static str, RowFault>
    requires { IsEnv bank.old env.now }
    ensures { Grows bank.old bank.new }
{
    let (name, wanted) = parted(text, " = ")?;
    let name = bank.name(name)?;
    let found = body(bank, env, name);
    compared(bank, found, wanted)
}

/// The type of a family's eliminator into a sort; none where that is forbidden.
fn eliminator(
    bank: &Bank<'_>,
    env: &Env,
    family: NameId,
    into: Sort,
) -> Result<Option<TermId>, RowFault>
    requires env { IsEnv bank.now env.now }
    requires family { HasName bank.now family }
    ensures { IfOk result (λ o. IfSome o (HasTerm bank.now)) }
{
    let _text = bank.text(family);
    if !is_sort(into) {
        return Err(RowFault::Unwritten);
    }
    match env.lookup(family) {
        Some(Entry::Family(_, _)) => match env.elim_type(family, into) {
            Ok(kind) => Ok(Some(kind)),
            Err(fault) => {
                if fault == EnvFault::ElimForbidden(family, into) {
                    Ok(None)
                } else {
                    Err(RowFault::NoMemory)
                }
            }
        },
        _ => Err(RowFault::Unwritten),
    }
}

/// Whether the eliminator of a family into a sort has that type.
#[tactic(auto, using(lq_words::proofs::Environments::growing))]
fn has_eliminator(bank: &mut Bank<'_>, env: &Env, text: &str) -> Result<&'static str, RowFault>
    requires { IsEnv bank.old env.now }
    ensures { Grows bank.old bank.new }
{
    let (head, wanted) = parted(text, " = ")?;
    let (family, into) = parted(head, " ")?;
    let Some(into) = sort_of(into) else {
        return Err(RowFault::Malformed);
    };
    let family = bank.name(family)?;
    let found = eliminator(bank, env, family, into)?;
    compared(bank, found, wanted)
}

/// Whether a family has these numbers of parameters, indices and constructors.
fn has_counts(bank: &mut Bank<'_>, env: &Env, text: &str) -> Result<&'static str, RowFault>
    ensures { Grows bank.old bank.new }
{
    let (name, wanted) = parted(text, " = ")?;
    let name = bank.name(name)?;
    let Some(found) = env.counts(name) else {
        return Ok("none");
    };
    let told = format!(in bank.allocator();
        "{} {} {}",
        found.parameters, found.indices, found.constructors
    )?;
    Ok(yes(told.as_str() == wanted))
}

/// Writes which arguments of a constructor are recursive.
fn write_marks(marks: &[bool], out: &mut String) -> Result<(), RowFault> {
    for mark in marks {
        write(out, if *mark { "recursive " } else { "plain " })?;
    }
    Ok(())
}

/// Writes the rule of a constructor of a family, or that there is none.
fn write_rule(bank: &mut Bank<'_>, env: &Env, text: &str, out: &mut String) -> Result<(), RowFault>
    ensures { Grows bank.old bank.new }
{
    let (family, constructor) = parted(text, " ")?;
    let constructor = number(constructor)?;
    let family = bank.name(family)?;
    match env.iota(family, constructor) {
        Some(rule) => {
            write(out, "rule ")?;
            write_marks(rule.recursive.marks(), out)
        }
        None => write(out, "none "),
    }
}

/// A family that is written so, as an environment takes it.
fn given_family(bank: &mut Bank<'_>, text: &str) -> Result<Family, RowFault>
    ensures family { IfOk result (IsFamily bank.new) }
    ensures grows { Grows bank.old bank.new }
{
    match parse_family(text) {
        Some(written) => taken_family(bank, written),
        None => Err(RowFault::Malformed),
    }
}

/// The answer whether a family's names are taken.
#[tactic(auto, using(crate::proofs::Faults::refusals))]
fn names_taken(bank: &mut Bank<'_>, env: &Env, family: &Family) -> Result<(), EnvFault>
    requires env { IsEnv bank.old env.now }
    requires family { IsFamily bank.old family.now }
    ensures fault { IfErr result (HasEnvFault bank.new) }
    ensures grows { Grows bank.old bank.new }
{
    refuse_taken_names(bank, env, family)
}

/// Writes which name of a family is taken, or that they are free.
#[tactic(auto, using(lq_words::proofs::Environments::growing))]
fn write_taken(bank: &mut Bank<'_>, env: &Env, text: &str, out: &mut String) -> Result<(), RowFault>
    requires { IsEnv bank.old env.now }
    ensures { Grows bank.old bank.new }
{
    let family = given_family(bank, text)?;
    match names_taken(bank, env, &family) {
        Ok(()) => write(out, "free "),
        Err(fault) => write_env_fault(bank, fault, out),
    }
}

/// Whether a type that is to be stored is the one that is written so; else why it is not stored.
fn stored(
    bank: &mut Bank<'_>,
    answer: Result<TermId, EnvFault>,
    wanted: &str,
) -> Result<&'static str, RowFault>
    requires { IfOk answer (HasTerm bank.old) }
    ensures { Grows bank.old bank.new }
{
    match answer {
        Ok(found) => compared(bank, Some(found), wanted),
        Err(EnvFault::TooLarge) => Ok("too large to store"),
        Err(EnvFault::TooDeep) => Ok("too deep to store"),
        Err(_) => Ok("no memory"),
    }
}

/// Whether a family has that type.
fn has_family_type(bank: &mut Bank<'_>, text: &str) -> Result<&'static str, RowFault>
    ensures { Grows bank.old bank.new }
{
    let (family, wanted) = parted(text, " = ")?;
    let family = given_family(bank, family)?;
    let answer = family_type(bank, &family);
    stored(bank, answer, wanted)
}

/// Whether a constructor of a family has that type.
#[tactic(auto, using(crate::proofs::Growing::growing))]
fn has_constructor_type(bank: &mut Bank<'_>, text: &str) -> Result<&'static str, RowFault>
    ensures { Grows bank.old bank.new }
{
    let (kind, rest) = parted(text, " of ")?;
    let (family, wanted) = parted(rest, " = ")?;
    let family = given_family(bank, family)?;
    let answer = constructed(bank, &family, kind)?;
    stored(bank, answer, wanted)
}

/// The whole type of a constructor of a family whose type under the parameters is written so.
#[tactic(auto, using(crate::proofs::Growing::families))]
fn constructed(
    bank: &mut Bank<'_>,
    family: &Family,
    kind: &str,
) -> Result<Result<TermId, EnvFault>, RowFault>
    requires { IsFamily bank.old family.now }
    ensures term { IfOk result (λ r. IfOk r (HasTerm bank.new)) }
    ensures grows { Grows bank.old bank.new }
{
    let kind = scoped(bank, kind)?;
    Ok(constructor_type(bank, family, kind))
}

/// What an environment answers in one word.
fn env_word(
    bank: &mut Bank<'_>,
    env: &Env,
    word: &str,
    text: &str,
) -> Result<&'static str, RowFault>
    requires { IsEnv bank.old env.now }
    ensures { Grows bank.old bank.new }
{
    match word {
        "type" => has_type(bank, env, text),
        "body" => has_body(bank, env, text),
        "eliminator" => has_eliminator(bank, env, text),
        "counts" => has_counts(bank, env, text),
        "family-type" => has_family_type(bank, text),
        "constructor-type" => has_constructor_type(bank, text),
        _ => Err(RowFault::Malformed),
    }
}

/// Writes what an environment answers to a row.
pub(crate) fn env_row(
    bank: &mut Bank<'_>,
    env: &Env,
    word: &str,
    text: &str,
    out: &mut String,
) -> Result<(), RowFault>
    requires { IsEnv bank.old env.now }
    ensures { Grows bank.old bank.new }
{
    match word {
        "rule" => write_rule(bank, env, text, out),
        "taken" => write_taken(bank, env, text, out),
        _ => {
            let answer = env_word(bank, env, word, text)?;
            write(out, answer)
        }
    }
}
