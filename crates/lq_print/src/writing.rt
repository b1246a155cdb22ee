//! A term is written from its pieces, item after item.

ghost use Rattle.std.specs.Prelude.{◌≡◌, ◌<◌, ◌+◌, ◌*◌, ℕ, [], ◌∷◌, ◌++◌, List, length, nat_lt, decimal, slice_get};
ghost use Rattle.std.specs.Prelude.{OnOk, MatchOption, codes};
ghost use Rattle.std.specs.String.{string_bytes};
ghost use Rattle.lq_trees.specs.Tree.{Name, Tree};
ghost use Rattle.lq_calculus.specs.Declarations.{Env as TreeEnv};
ghost use Rattle.lq_texts.specs.Printing.{bound_name, sort_text, name_text, term_text};
ghost use Rattle.lq_print.specs.declared.steps.Item.{Item};
ghost use Rattle.lq_print.specs.Tables.{text_at, AreWithin, Lengthens};
ghost use Rattle.lq_print.specs.declared.steps.Wanted.{Wanted};
ghost use Rattle.lq_print.specs.Flat.{flat};
ghost use Rattle.lq_print.specs.Spelling.{applied, product, function, local};
ghost use Rattle.lq_print.specs.Writing.{opening, product_front, binder_front, at_once, steps_for};
ghost use Rattle.lq_print.specs.Pieces.{shown_in, over_in, HasBinder, HasPiece, IsSpelling, spelled_of};
ghost use Rattle.lq_print.specs.Pages.{printed, kind_of, product_items, Puts, HasPage, Writes};

use crate::choosing::printed_name;
use crate::pieces::{Binder, Piece};
use crate::spelling::Spelling;
use crate::steps::{
    Item, Sign, Wanted, encloses_application, encloses_binder, open, put_application, put_binder,
    put_local, sign_text, write,
};
use crate::texts::Texts;
use lq_terms::{Bank, NoMemory};
use lq_trees::Sort;

/// Writes a number in decimal digits.
pub(crate) fn write_number(out: &mut String, number: u64) -> Result<(), NoMemory>
    ensures { OnOk result (string_bytes out.new ≡ string_bytes out.old ++ decimal number) }
{
    let alloc = *out.allocator();
    let digits = number.to_string(alloc)?;
    write(out, digits.as_str())
}

/// Writes a sort.
#[tactic(auto, unfolding(lq_texts::specs::Printing::sort_text, lq_texts::specs::Printing::text, lq_texts::specs::Printing::sort_surface))]
pub(crate) fn write_sort(out: &mut String, sort: Sort) -> Result<(), NoMemory>
    ensures { OnOk result (string_bytes out.new ≡ string_bytes out.old ++ sort_text sort) }
{
    match sort {
        Sort::Base => write(out, "Prop"),
        Sort::Level(level) => {
            write(out, "Type ")?;
            write_number(out, u64::from(level))
        }
    }
}

/// Writes a bound variable: the printed name of its binder. Of the binders the nearest is the last.
fn write_bound(
    out: &mut String,
    texts: &Texts,
    binders: &[usize],
    index: u32,
) -> Result<(), NoMemory>
    requires { AreWithin texts.now binders.now }
    ensures { OnOk result (string_bytes out.new ≡ string_bytes out.old ++ bound_name (slice_get (printed texts.now binders.now) index)) }
{
    match binders.len().checked_sub(index as usize + 1) {
        Some(place) => write(out, texts.text(binders[place])),
        None => Ok(()),
    }
}

/// Writes an existential variable.
fn write_unknown(out: &mut String, number: u32) -> Result<(), NoMemory>
    ensures { OnOk result (string_bytes out.new ≡ string_bytes out.old ++ (codes "?" ++ decimal number)) }
{
    write(out, "?")?;
    write_number(out, u64::from(number))
}

/// Writes the front of a product with its printed name, or of an arrow, and puts on the rest.
fn write_product(
    out: &mut String,
    texts: &Texts,
    work: &mut Vec<Item>,
    name: usize,
) -> Result<(), NoMemory>
    requires { name < length texts.now }
    ensures text { OnOk result (string_bytes out.new ≡ string_bytes out.old ++ product_front (text_at texts.now name)) }
    ensures work { OnOk result (work.new.items ≡ work.old.items ++ product_items (text_at texts.now name) name) }
{
    let text = texts.text(name);
    if text.is_empty() {
        return put_binder(work, name, Sign::Arrow, Wanted::Application);
    }
    write(out, "forall ")?;
    write(out, text)?;
    write(out, " : ")?;
    put_binder(work, name, Sign::Comma, Wanted::Term)
}

/// Writes a binder's printed name, `_` for the empty one.
pub(crate) fn write_name(out: &mut String, name: &str) -> Result<(), NoMemory>
    ensures { OnOk result (string_bytes out.new ≡ string_bytes out.old ++ name_text name.now) }
{
    if name.is_empty() {
        return write(out, "_");
    }
    write(out, name)
}

/// Writes a word, a binder's printed name, `_` for the empty one, and a colon.
fn write_binder(out: &mut String, texts: &Texts, word: &str, name: usize) -> Result<(), NoMemory>
    requires { name < length texts.now }
    ensures { OnOk result (string_bytes out.new ≡ string_bytes out.old ++ binder_front word.now (text_at texts.now name)) }
{
    write(out, word)?;
    write_name(out, texts.text(name))?;
    write(out, " : ")
}

/// Writes what is written of a product at once, and puts on the rest.
fn write_product_piece(
    out: &mut String,
    bank: &Bank<'_>,
    texts: &mut Texts,
    names: &[usize],
    binders: &[usize],
    work: &mut Vec<Item>,
    wanted: Wanted,
    binder: Binder,
) -> Result<(), NoMemory>
    requires names { AreWithin texts.old names.now }
    requires binders { AreWithin texts.old binders.now }
    requires binder { HasBinder bank.now names.now binder }
    ensures text { OnOk result (string_bytes out.new ≡ string_bytes out.old
        ++ at_once (kind_of wanted) (printed texts.old binders.now) (product (over_in bank.now texts.old names.now binder))) }
    ensures work { OnOk result (Puts texts.new work.old.items work.new.items
        (steps_for (kind_of wanted) (printed texts.old binders.now) (product (over_in bank.now texts.old names.now binder)))) }
    ensures longer { Lengthens texts.old texts.new }
{
    let name = printed_name(bank, texts, names, binders, binder)?;
    open(out, work, encloses_binder(wanted))?;
    write_product(out, texts, work, name)
}

/// Writes what is written of a function at once, and puts on the rest.
fn write_function_piece(
    out: &mut String,
    bank: &Bank<'_>,
    texts: &mut Texts,
    names: &[usize],
    binders: &[usize],
    work: &mut Vec<Item>,
    wanted: Wanted,
    binder: Binder,
) -> Result<(), NoMemory>
    requires names { AreWithin texts.old names.now }
    requires binders { AreWithin texts.old binders.now }
    requires binder { HasBinder bank.now names.now binder }
    ensures text { OnOk result (string_bytes out.new ≡ string_bytes out.old
        ++ at_once (kind_of wanted) (printed texts.old binders.now) (function (over_in bank.now texts.old names.now binder))) }
    ensures work { OnOk result (Puts texts.new work.old.items work.new.items
        (steps_for (kind_of wanted) (printed texts.old binders.now) (function (over_in bank.now texts.old names.now binder)))) }
    ensures longer { Lengthens texts.old texts.new }
{
    let name = printed_name(bank, texts, names, binders, binder)?;
    open(out, work, encloses_binder(wanted))?;
    put_binder(work, name, Sign::Becomes, Wanted::Term)?;
    write_binder(out, texts, "fun ", name)
}

/// Writes what is written of a local definition at once, and puts on the rest.
fn write_local_piece(
    out: &mut String,
    bank: &Bank<'_>,
    texts: &mut Texts,
    names: &[usize],
    binders: &[usize],
    work: &mut Vec<Item>,
    wanted: Wanted,
    binder: Binder,
) -> Result<(), NoMemory>
    requires names { AreWithin texts.old names.now }
    requires binders { AreWithin texts.old binders.now }
    requires binder { HasBinder bank.now names.now binder }
    ensures text { OnOk result (string_bytes out.new ≡ string_bytes out.old
        ++ at_once (kind_of wanted) (printed texts.old binders.now) (local (over_in bank.now texts.old names.now binder))) }
    ensures work { OnOk result (Puts texts.new work.old.items work.new.items
        (steps_for (kind_of wanted) (printed texts.old binders.now) (local (over_in bank.now texts.old names.now binder)))) }
    ensures longer { Lengthens texts.old texts.new }
{
    let name = printed_name(bank, texts, names, binders, binder)?;
    open(out, work, encloses_binder(wanted))?;
    put_local(work, name)?;
    write_binder(out, texts, "let ", name)
}

/// Writes what is written of an application at once, and puts on the rest.
fn write_application_piece(
    out: &mut String,
    work: &mut Vec<Item>,
    wanted: Wanted,
) -> Result<(), NoMemory>
    ensures text { OnOk result (string_bytes out.new ≡ string_bytes out.old ++ opening (nat_lt 1 (kind_of wanted))) }
    ensures work { OnOk result ((ts : List Name) → (bs : List Name) → Puts ts work.old.items work.new.items (steps_for (kind_of wanted) bs applied)) }
{
    open(out, work, encloses_application(wanted))?;
    put_application(work)
}

/// Writes what is written of a piece at once, and puts on the rest. Of the printed binders the nearest is the last.
fn write_piece(
    out: &mut String,
    bank: &Bank<'_>,
    texts: &mut Texts,
    names: &[usize],
    binders: &[usize],
    work: &mut Vec<Item>,
    wanted: Wanted,
    piece: Piece,
) -> Result<(), NoMemory>
    requires names { AreWithin texts.old names.now }
    requires binders { AreWithin texts.old binders.now }
    requires piece { HasPiece bank.now texts.old names.now piece }
    ensures text { OnOk result (string_bytes out.new ≡ string_bytes out.old
        ++ at_once (kind_of wanted) (printed texts.old binders.now) (shown_in bank.now texts.old names.now piece)) }
    ensures work { OnOk result (Puts texts.new work.old.items work.new.items
        (steps_for (kind_of wanted) (printed texts.old binders.now) (shown_in bank.now texts.old names.now piece))) }
    ensures longer { Lengthens texts.old texts.new }
{
    match piece {
        Piece::Bound(index) => write_bound(out, texts, binders, index),
        Piece::Named(number) => write(out, texts.text(number)),
        Piece::Sort(sort) => write_sort(out, sort),
        Piece::Applied => write_application_piece(out, work, wanted),
        Piece::Product(binder) => {
            write_product_piece(out, bank, texts, names, binders, work, wanted, binder)
        }
        Piece::Function(binder) => {
            write_function_piece(out, bank, texts, names, binders, work, wanted, binder)
        }
        Piece::Local(binder) => {
            write_local_piece(out, bank, texts, names, binders, work, wanted, binder)
        }
        Piece::Unknown(number) => write_unknown(out, number),
    }
}

/// Writes what is written of the next term at once, and puts on the rest.
fn write_next(
    out: &mut String,
    bank: &Bank<'_>,
    spelling: &mut Spelling,
    binders: &[usize],
    work: &mut Vec<Item>,
    wanted: Wanted,
) -> Result<(), NoMemory>
    requires { HasPage bank.now binders.now (work.old.items ++ Item.Term wanted ∷ []) spelling.old }
    ensures page { OnOk result (HasPage bank.now binders.now work.new.items spelling.new) }
    ensures writes { OnOk result ((env : TreeEnv) → (goal : List ℕ)
        → Writes bank.now env goal (string_bytes out.old) binders.now (work.old.items ++ Item.Term wanted ∷ []) spelling.old
        → Writes bank.now env goal (string_bytes out.new) binders.now work.new.items spelling.new) }
    ensures lighter { OnOk result (9 * length spelling.new.pieces.items + length work.new.items
        < 9 * length spelling.old.pieces.items + (length work.old.items + 1)) }
{
    // there is a piece, since no more terms are left to write than pieces spell
    let Some(piece) = spelling.pieces.pop() else {
        return Ok(());
    };
    write_piece(
        out,
        bank,
        &mut spelling.texts,
        spelling.names.as_slice(),
        binders,
        work,
        wanted,
        piece,
    )
}

/// The nearest binder ends, if there is one.
fn end_binder(binders: &mut Vec<usize>) -> Option<usize>
    ensures { MatchOption result ((binders.old.items ≡ []) × (binders.new.items ≡ [])) (λ h. binders.old.items ≡ binders.new.items ++ h ∷ []) }
{
    binders.pop()
}

/// Does one item of what is left.
fn step(
    out: &mut String,
    bank: &Bank<'_>,
    spelling: &mut Spelling,
    binders: &mut Vec<usize>,
    work: &mut Vec<Item>,
    item: Item,
) -> Result<(), NoMemory>
    requires { HasPage bank.now binders.old.items (work.old.items ++ item ∷ []) spelling.old }
    ensures page { OnOk result (HasPage bank.now binders.new.items work.new.items spelling.new) }
    ensures writes { OnOk result ((env : TreeEnv) → (goal : List ℕ)
        → Writes bank.now env goal (string_bytes out.old) binders.old.items (work.old.items ++ item ∷ []) spelling.old
        → Writes bank.now env goal (string_bytes out.new) binders.new.items work.new.items spelling.new) }
    ensures lighter { OnOk result (9 * length spelling.new.pieces.items + length work.new.items
        < 9 * length spelling.old.pieces.items + (length work.old.items + 1)) }
{
    match item {
        Item::Word(sign) => write(out, sign_text(sign)),
        Item::Term(wanted) => write_next(out, bank, spelling, binders.as_slice(), work, wanted),
        Item::Under(name) => {
            binders.push(name)?;
            Ok(())
        }
        Item::Back => {
            end_binder(binders);
            Ok(())
        }
    }
}

/// Does what is left.
fn run(
    out: &mut String,
    bank: &Bank<'_>,
    spelling: &mut Spelling,
    binders: &mut Vec<usize>,
    work: &mut Vec<Item>,
) -> Result<(), NoMemory>
    requires { HasPage bank.now binders.old.items work.old.items spelling.old }
    ensures { OnOk result ((env : TreeEnv) → (goal : List ℕ)
        → Writes bank.now env goal (string_bytes out.old) binders.old.items work.old.items spelling.old
        → string_bytes out.new ≡ goal) }
{
    while let Some(item) = work.pop() {
        step(out, bank, spelling, binders, work, item)?;
    }
    Ok(())
}

/// Writes the term that is spelled.
pub(crate) fn write_spelled(
    out: &mut String,
    bank: &Bank<'_>,
    spelling: &mut Spelling,
) -> Result<(), NoMemory>
    requires { IsSpelling bank.now spelling.old }
    ensures { OnOk result ((env : TreeEnv) → (t : Tree) → (spelled_of bank.now spelling.old).pieces ≡ flat env t
        → string_bytes out.new ≡ string_bytes out.old ++ term_text env t) }
{
    let alloc = bank.allocator();
    let mut work = Vec::new(alloc);
    let mut binders = Vec::new(alloc);
    start(&mut work)?;
    run(out, bank, spelling, &mut binders, &mut work)
}

/// Puts on that a whole term is written.
fn start(work: &mut Vec<Item>) -> Result<(), NoMemory>
    ensures { OnOk result (work.new.items ≡ work.old.items ++ Item.Term Wanted.Term ∷ []) }
{
    work.push(Item::Term(Wanted::Term))?;
    Ok(())
}
