//! What is left to do while a term is written.

ghost use Rattle.std.specs.Prelude.{◌≡◌, ◌∷◌, ◌++◌, OnOk, nat_lt};
ghost use Rattle.std.specs.String.{string_bytes};
ghost use Rattle.lq_print.specs.declared.steps.Item.{Item};
ghost use Rattle.lq_print.specs.Writing.{opening};
ghost use Rattle.lq_print.specs.Pages.{sign_text, kind_of, closing_items, binder_items, local_items, application_items};

use lq_terms::NoMemory;

/// A sign between parts of a term, with its spaces.
#[derive(Clone, Copy)]
pub(crate) enum Sign {
    /// `)`
    Close,
    /// A space.
    Space,
    /// `,`
    Comma,
    /// `->`
    Arrow,
    /// `=>`
    Becomes,
    /// `:=`
    Value,
    /// `in`
    In,
}

/// The kind of term that stands in a place without brackets.
#[derive(Clone, Copy)]
pub(crate) enum Wanted {
    /// Any term.
    Term,
    /// An application or an atom.
    Application,
    /// An atom.
    Atom,
}

/// An item of work.
#[derive(Clone, Copy)]
pub(crate) enum Item {
    /// To write a sign.
    Word(Sign),
    /// To write the next term.
    Term(Wanted),
    /// A binder of that printed name begins.
    Under(usize),
    /// The nearest binder ends.
    Back,
}

/// The text of a sign.
pub(crate) fn sign_text(sign: Sign) -> &'static str
    ensures { result.now ≡ sign_text sign }
{
    match sign {
        Sign::Close => ")",
        Sign::Space => " ",
        Sign::Comma => ", ",
        Sign::Arrow => " -> ",
        Sign::Becomes => " => ",
        Sign::Value => " := ",
        Sign::In => " in ",
    }
}

/// Whether a binder wants brackets there.
pub(crate) fn encloses_binder(wanted: Wanted) -> bool
    ensures { result ≡ nat_lt 0 (kind_of wanted) }
{
    match wanted {
        Wanted::Term => false,
        Wanted::Application => true,
        Wanted::Atom => true,
    }
}

/// Whether an application wants brackets there.
pub(crate) fn encloses_application(wanted: Wanted) -> bool
    ensures { result ≡ nat_lt 1 (kind_of wanted) }
{
    match wanted {
        Wanted::Term => false,
        Wanted::Application => false,
        Wanted::Atom => true,
    }
}

/// Writes a text.
pub(crate) fn write(out: &mut String, text: &str) -> Result<(), NoMemory>
    ensures { OnOk result (string_bytes out.new ≡ string_bytes out.old ++ text.now) }
{
    out.push_str(text)?;
    Ok(())
}

/// Opens brackets, if they are wanted, and puts on that they are closed.
pub(crate) fn open(out: &mut String, work: &mut Vec<Item>, wanted: bool) -> Result<(), NoMemory>
    ensures text { OnOk result (string_bytes out.new ≡ string_bytes out.old ++ opening wanted) }
    ensures work { OnOk result (work.new.items ≡ work.old.items ++ closing_items wanted) }
{
    if wanted {
        write(out, "(")?;
        work.push(Item::Word(Sign::Close))?;
    }
    Ok(())
}

/// Puts on the parts of an application.
pub(crate) fn put_application(work: &mut Vec<Item>) -> Result<(), NoMemory>
    ensures { OnOk result (work.new.items ≡ work.old.items ++ application_items) }
{
    work.push(Item::Term(Wanted::Atom))?;
    work.push(Item::Word(Sign::Space))?;
    work.push(Item::Term(Wanted::Application))?;
    Ok(())
}

/// Puts on a binder's type, a sign, and what is under the binder.
pub(crate) fn put_binder(
    work: &mut Vec<Item>,
    name: usize,
    sign: Sign,
    kind: Wanted,
) -> Result<(), NoMemory>
    ensures { OnOk result (work.new.items ≡ work.old.items ++ binder_items name sign kind) }
{
    work.push(Item::Back)?;
    work.push(Item::Term(Wanted::Term))?;
    work.push(Item::Under(name))?;
    work.push(Item::Word(sign))?;
    work.push(Item::Term(kind))?;
    Ok(())
}

/// Puts on a binder's type, its value, and what is under the binder.
pub(crate) fn put_local(work: &mut Vec<Item>, name: usize) -> Result<(), NoMemory>
    ensures { OnOk result (work.new.items ≡ work.old.items ++ local_items name) }
{
    put_binder(work, name, Sign::In, Wanted::Term)?;
    work.push(Item::Word(Sign::Value))?;
    work.push(Item::Term(Wanted::Term))?;
    Ok(())
}
