//! Faults, sorts and terms in words.

ghost use Rattle.std.specs.Prelude.{IfErr};
ghost use Rattle.lq_terms.specs.Terms.{HasTerm, HasName};
ghost use Rattle.lq_kernel_rows.specs.Told.{HasFault, HasEnvFault};

use lq_env::EnvFault;
use lq_kernel::KernelFault;
use lq_terms::{Bank, NameId, Node, SizeFault, TermId};
use lq_trees::Sort;
use lq_words::RowFault;

/// Writes a number, and a blank behind.
fn write_number(
    bank: &Bank<'_>,
    mark: &str,
    number: u64,
    out: &mut String,
) -> Result<(), RowFault> {
    let text = format!(in bank.allocator(); "{mark}{number} ")?;
    out.push_str(&text)?;
    Ok(())
}

/// Writes a name behind a mark, and a blank behind it.
fn write_name(bank: &Bank<'_>, mark: &str, name: NameId, out: &mut String) -> Result<(), RowFault>
    requires { HasName bank.now name }
{
    out.push_str(mark)?;
    out.push_str(bank.text(name))?;
    out.push(' ')?;
    Ok(())
}

/// Writes a sort, and a blank behind.
pub(crate) fn write_sort(bank: &Bank<'_>, sort: Sort, out: &mut String) -> Result<(), RowFault> {
    match sort {
        Sort::Base => {
            out.push_str("Prop ")?;
            Ok(())
        }
        Sort::Level(level) => write_number(bank, "Type.", u64::from(level), out),
    }
}

/// Writes a constructor.
fn write_constructor(
    bank: &Bank<'_>,
    name: NameId,
    index: u32,
    out: &mut String,
) -> Result<(), RowFault>
    requires { HasName bank.now name }
{
    let text = format!(in bank.allocator(); "{}:{index} ", bank.text(name))?;
    out.push_str(&text)?;
    Ok(())
}

/// Writes an eliminator.
fn write_eliminator(
    bank: &Bank<'_>,
    name: NameId,
    sort: Sort,
    out: &mut String,
) -> Result<(), RowFault>
    requires { HasName bank.now name }
{
    out.push_str(bank.text(name))?;
    out.push('!')?;
    write_sort(bank, sort, out)
}

/// Writes a word and two terms. It calls itself as deep as these are.
#[cycle(told)]
fn write_two(
    bank: &Bank<'_>,
    word: &str,
    first: TermId,
    second: TermId,
    out: &mut String,
) -> Result<(), RowFault>
    requires first { HasTerm bank.now first }
    requires second { HasTerm bank.now second }
{
    write(out, word)?;
    write_term(bank, first, out)?;
    write_term(bank, second, out)
}

/// Writes a local definition: its value, and then its kind and the rest.
#[cycle(told)]
fn write_definition(
    bank: &Bank<'_>,
    value: TermId,
    kind: TermId,
    rest: TermId,
    out: &mut String,
) -> Result<(), RowFault>
    requires value { HasTerm bank.now value }
    requires kind { HasTerm bank.now kind }
    requires rest { HasTerm bank.now rest }
{
    write(out, "let ")?;
    write_term(bank, value, out)?;
    write_two(bank, "", kind, rest, out)
}

/// Writes a term in the words that rows write it in. It calls itself as deep as the term is.
#[cycle(told)]
fn write_term(bank: &Bank<'_>, term: TermId, out: &mut String) -> Result<(), RowFault>
    requires { HasTerm bank.now term }
{
    match bank.node(term) {
        Node::Rel(index) => write_number(bank, "", u64::from(*index), out),
        Node::Var(name) => write_name(bank, "'", *name, out),
        Node::Sort(sort) => write_sort(bank, *sort, out),
        Node::Const(name) => write_name(bank, "=", *name, out),
        Node::Ind(name) => write_name(bank, "", *name, out),
        Node::Ctor(name, index) => write_constructor(bank, *name, *index, out),
        Node::Elim(name, sort) => write_eliminator(bank, *name, *sort, out),
        Node::Evar(number, _) => write_number(bank, "?", u64::from(*number), out),
        Node::Let(_, value, kind, rest) => write_definition(bank, *value, *kind, *rest, out),
        Node::Prod(_, kind, rest) => write_two(bank, "-> ", *kind, *rest, out),
        Node::Lam(_, kind, body) => write_two(bank, "fun ", *kind, *body, out),
        Node::App(function, argument) => write_two(bank, "@ ", *function, *argument, out),
    }
}

/// Writes words.
pub(crate) fn write(out: &mut String, words: &str) -> Result<(), RowFault> {
    out.push_str(words)?;
    Ok(())
}

/// Writes a name with a number: of a constructor and one of its arguments.
fn write_place(
    bank: &Bank<'_>,
    words: &str,
    name: NameId,
    place: u64,
    out: &mut String,
) -> Result<(), RowFault>
    requires { HasName bank.now name }
{
    write_name(bank, words, name, out)?;
    write_number(bank, "", place, out)
}

/// Writes a refusal of an environment.
pub(crate) fn write_env_fault(
    bank: &Bank<'_>,
    fault: EnvFault,
    out: &mut String,
) -> Result<(), RowFault>
    requires { HasEnvFault bank.now fault }
{
    match fault {
        EnvFault::NameTaken(name) => write_name(bank, "taken: ", name, out),
        EnvFault::NotPositive(name, place) => write_place(bank, "not positive: ", name, place, out),
        EnvFault::NestedUse(name, place) => write_place(bank, "nested use: ", name, place, out),
        EnvFault::BadResult(name) => write_name(bank, "bad result: ", name, out),
        EnvFault::ElimForbidden(name, sort) => {
            write_name(bank, "forbidden: ", name, out)?;
            write_sort(bank, sort, out)
        }
        EnvFault::TooLarge => write(out, "too large to store "),
        EnvFault::TooDeep => write(out, "too deep to store "),
        EnvFault::NoMemory => write(out, "no memory "),
    }
}

/// Writes the type that was found, and the one that was wanted.
fn write_mismatch(
    bank: &Bank<'_>,
    found: TermId,
    wanted: TermId,
    out: &mut String,
) -> Result<(), RowFault>
    requires found { HasTerm bank.now found }
    requires wanted { HasTerm bank.now wanted }
{
    write(out, "found ")?;
    write_term(bank, found, out)?;
    write(out, "wanted ")?;
    write_term(bank, wanted, out)
}

/// Writes words, and a term.
fn write_words(bank: &Bank<'_>, words: &str, term: TermId, out: &mut String) -> Result<(), RowFault>
    requires { HasTerm bank.now term }
{
    write(out, words)?;
    write_term(bank, term, out)
}

/// Writes a refusal of the kernel.
pub(crate) fn write_fault(
    bank: &Bank<'_>,
    fault: KernelFault,
    out: &mut String,
) -> Result<(), RowFault>
    requires { HasFault bank.now fault }
{
    match fault {
        KernelFault::Unbound(name) => write_name(bank, "unbound: ", name, out),
        KernelFault::NotAProduct(term) => write_words(bank, "not a product: ", term, out),
        KernelFault::NotASort(term) => write_words(bank, "not a sort: ", term, out),
        KernelFault::Mismatch(found, wanted) => write_mismatch(bank, found, wanted, out),
        KernelFault::NoSortAbove => write(out, "no sort above "),
        KernelFault::HasVariable(number) => {
            write_number(bank, "a variable: ?", u64::from(number), out)
        }
        KernelFault::StepsOut => write(out, OUT),
        KernelFault::TooBig(name, place) => write_place(bank, "too big: ", name, place, out),
        KernelFault::TooLarge => write(out, "too large "),
        KernelFault::TooDeep => write(out, "too deep "),
        KernelFault::Env(fault) => write_env_fault(bank, fault, out),
        KernelFault::NoMemory => write(out, "no memory "),
    }
}

/// What is written where the budget is spent.
pub(crate) const OUT: &str = "out of ticks ";

/// The word for a term that is not within the limits.
pub(crate) fn size_word(fault: SizeFault) -> &'static str {
    match fault {
        SizeFault::TooLarge => "too large",
        SizeFault::TooDeep => "too deep",
        SizeFault::NoMemory => "no memory",
    }
}
