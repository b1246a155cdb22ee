//! Terms and faults as text. What is written goes to the end of a buffer; after an
//! `Err` the buffer may have part of it.

ghost use Rattle.std.specs.Prelude.{◌≡◌, ◌+◌, ◌^◌, ◌<◌, ◌∷◌, ◌++◌, map, slice_get, Some, option_map, OnOk, IfOk, decimal};
ghost use Rattle.std.specs.List.{AllByRecursion};
ghost use Rattle.lq_trees.specs.Size.{depth};
ghost use Rattle.lq_terms.specs.Terms.{HasName, HasTerm, IsName, text_of, tree_of, Grows};
ghost use Rattle.lq_output.specs.Printing.{uses, names_in, own_name, printed_name, sort_text, binder_text};
ghost use Rattle.lq_output.specs.Printing.{left_side, arrow_text, forall_text, text_under, term_text};
ghost use Rattle.lq_output.specs.Sentences.{fault_text};
ghost use Rattle.lq_output.specs.Output.{refused};
ghost use Rattle.lq_script.specs.Binders.{binders_of, is_product};
ghost use Rattle.lq_script.specs.Faults.{fault_of, HasFault};
ghost use Rattle.lq_script.specs.Printed.{HasProduct, product_of, used_text, unused_text};

use crate::fault::SentenceFault;
use lq_terms::{Bank, NameId, NoMemory, Node, TermId, fresh_name, measure};
use lq_trees::Sort;

/// A product: its binder, the domain and the rest.
#[derive(Clone, Copy)]
struct Product {
    binder: NameId,
    kind: TermId,
    rest: TermId,
}

/// Writes a text.
fn append(out: &mut Vec<u8>, text: &str) -> Result<(), NoMemory>
    ensures { OnOk result (out.new.items ≡ out.old.items ++ text.now) }
{
    out.extend_from_slice(text.as_bytes())?;
    Ok(())
}

/// Writes a number in decimal digits.
fn append_number(out: &mut Vec<u8>, number: u64) -> Result<(), NoMemory>
    ensures { OnOk result (out.new.items ≡ out.old.items ++ decimal number) }
{
    let alloc = *out.allocator();
    let digits = number.to_string(alloc)?;
    append(out, digits.as_str())
}

/// Writes a sort.
#[tactic(auto, unfolding(lq_output::specs::Printing::sort_text))]
fn append_sort(out: &mut Vec<u8>, sort: Sort) -> Result<(), NoMemory>
    ensures { OnOk result (out.new.items ≡ out.old.items ++ sort_text sort) }
{
    match sort {
        Sort::Base => append(out, "Prop"),
        Sort::Level(level) => {
            append(out, "Type ")?;
            append_number(out, u64::from(level))
        }
    }
}

/// Whether the variable occurs that the binder binds which is so many binders further out.
#[tactic(auto, unfolding(lq_output::specs::Printing::uses))]
fn occurs(bank: &Bank<'_>, term: TermId, index: u64) -> bool
    requires term { HasTerm bank.now term }
    requires index { index + depth (tree_of bank.now term) < 2 ^ 64 }
    ensures { result ≡ uses index (tree_of bank.now term) }
{
    match bank.node(term) {
        Node::Rel(other) => index == u64::from(*other),
        Node::Prod(_, kind, rest) => {
            occurs(bank, *kind, index) || occurs(bank, *rest, index + 1)
        }
        _ => false,
    }
}

/// Whether the variable of the binder round the term occurs.
fn is_used(bank: &Bank<'_>, rest: TermId) -> bool
    requires { HasTerm bank.now rest }
    ensures { result ≡ uses 0 (tree_of bank.now rest) }
{
    // The binders on the way down are fewer than the depth, which a `u64` holds.
    let _measure = measure(bank, rest);
    occurs(bank, rest, 0)
}

/// Puts the hypotheses and constants that occur behind the names.
#[tactic(auto, unfolding(lq_output::specs::Printing::names_in))]
fn collect_names(bank: &Bank<'_>, term: TermId, names: &mut Vec<NameId>) -> Result<(), NoMemory>
    requires term { HasTerm bank.now term }
    requires names { AllByRecursion (HasName bank.now) names.old.items }
    ensures texts { OnOk result (map (text_of bank.now) names.new.items ≡ map (text_of bank.now) names.old.items ++ names_in (tree_of bank.now term)) }
    ensures has { OnOk result (AllByRecursion (HasName bank.now) names.new.items) }
{
    match bank.node(term) {
        Node::Var(name) | Node::Const(name) => {
            names.push(*name)?;
            Ok(())
        }
        Node::Prod(_, kind, rest) => {
            collect_names(bank, *kind, names)?;
            collect_names(bank, *rest, names)
        }
        _ => Ok(()),
    }
}

/// The names that are no printed name of a binder round the term: the hypotheses and constants in it,
/// and the printed binders round it, the nearest first.
fn taken_names(bank: &Bank<'_>, binders: &[NameId], rest: TermId) -> Result<Vec<NameId>, NoMemory>
    requires binders { AllByRecursion (HasName bank.now) binders.now }
    requires rest { HasTerm bank.now rest }
    ensures texts { IfOk result (λ v. map (text_of bank.now) v.items ≡ names_in (tree_of bank.now rest) ++ binders_of bank.now binders.now) }
    ensures has { IfOk result (λ v. AllByRecursion (HasName bank.now) v.items) }
{
    let alloc = bank.allocator();
    let nearest_first: Vec<NameId> = binders.iter().rev().copied().collect(alloc)?;
    let mut taken = Vec::new(alloc);
    collect_names(bank, rest, &mut taken)?;
    taken.extend_from_slice(nearest_first.as_slice())?;
    Ok(taken)
}

/// The binder's own name, `x` if it has none.
#[tactic(auto, unfolding(lq_output::specs::Printing::own_name))]
fn own_name(bank: &mut Bank<'_>, binder: NameId) -> Result<NameId, NoMemory>
    requires { HasName bank.old binder }
    ensures name { IfOk result (λ x. IsName bank.new x (own_name (text_of bank.old binder))) }
    ensures grows { Grows bank.old bank.new }
{
    if bank.text(binder).is_empty() {
        bank.name("x")
    } else {
        Ok(binder)
    }
}

/// The name that a used binder is printed with.
fn printed_name(
    bank: &mut Bank<'_>,
    binders: &[NameId],
    binder: NameId,
    rest: TermId,
) -> Result<NameId, NoMemory>
    requires binders { AllByRecursion (HasName bank.old) binders.now }
    requires binder { HasName bank.old binder }
    requires rest { HasTerm bank.old rest }
    ensures name { IfOk result (λ x. IsName bank.new x (printed_name (binders_of bank.old binders.now) (text_of bank.old binder) (tree_of bank.old rest))) }
    ensures grows { Grows bank.old bank.new }
{
    let own = own_name(bank, binder)?;
    let taken = taken_names(bank, binders, rest)?;
    fresh_name(bank, taken.as_slice(), own)
}

/// Whether a term is a product.
fn is_product(bank: &Bank<'_>, term: TermId) -> bool
    requires { HasTerm bank.now term }
    ensures { result ≡ is_product (tree_of bank.now term) }
{
    matches!(bank.node(term), Node::Prod(..))
}

/// Writes a bound variable: the name of its binder. Of the binders' names the nearest is the last.
fn append_variable(
    out: &mut Vec<u8>,
    bank: &Bank<'_>,
    binders: &[NameId],
    index: u32,
) -> Result<(), NoMemory>
    requires { AllByRecursion (HasName bank.now) binders.now }
    ensures { OnOk result (out.new.items ≡ out.old.items ++ binder_text (slice_get (binders_of bank.now binders.now) index)) }
{
    match binders.len().checked_sub(index as usize + 1) {
        Some(place) => append(out, bank.text(binders[place])),
        None => Ok(()),
    }
}

/// Writes a term under printed binders. Of the binders' names the nearest is the last, and one that is
/// not used has the empty name.
#[cycle(append_under)]
#[tactic(auto, unfolding(lq_output::specs::Printing::text_under))]
fn append_under(
    out: &mut Vec<u8>,
    bank: &mut Bank<'_>,
    binders: &mut Vec<NameId>,
    term: TermId,
) -> Result<(), NoMemory>
    requires binders { AllByRecursion (HasName bank.old) binders.old.items }
    requires term { HasTerm bank.old term }
    ensures wrote { OnOk result (out.new.items ≡ out.old.items ++ text_under (binders_of bank.old binders.old.items) (tree_of bank.old term)) }
    ensures binders { OnOk result (binders.new.items ≡ binders.old.items) }
    ensures grows { Grows bank.old bank.new }
{
    match bank.node(term) {
        Node::Rel(index) => {
            let index = *index;
            append_variable(out, bank, binders.as_slice(), index)
        }
        Node::Var(name) | Node::Const(name) => append(out, bank.text(*name)),
        Node::Sort(sort) => append_sort(out, *sort),
        Node::Prod(binder, kind, rest) => {
            let product = Product {
                binder: *binder,
                kind: *kind,
                rest: *rest,
            };
            append_product(out, bank, binders, product)
        }
        _ => Ok(()),
    }
}

/// Writes a product.
#[cycle(append_under)]
fn append_product(
    out: &mut Vec<u8>,
    bank: &mut Bank<'_>,
    binders: &mut Vec<NameId>,
    product: Product,
) -> Result<(), NoMemory>
    requires binders { AllByRecursion (HasName bank.old) binders.old.items }
    requires product { HasProduct bank.old product }
    ensures wrote { OnOk result (out.new.items ≡ out.old.items ++ text_under (binders_of bank.old binders.old.items) (product_of bank.old product)) }
    ensures binders { OnOk result (binders.new.items ≡ binders.old.items) }
    ensures grows { Grows bank.old bank.new }
{
    if is_used(bank, product.rest) {
        append_forall(out, bank, binders, product)
    } else {
        append_arrow(out, bank, binders, product)
    }
}

/// Writes a product whose variable is used.
#[cycle(append_under)]
fn append_forall(
    out: &mut Vec<u8>,
    bank: &mut Bank<'_>,
    binders: &mut Vec<NameId>,
    product: Product,
) -> Result<(), NoMemory>
    requires binders { AllByRecursion (HasName bank.old) binders.old.items }
    requires product { HasProduct bank.old product }
    ensures wrote { OnOk result
        (out.new.items ≡ out.old.items ++ used_text (binders_of bank.old binders.old.items) (text_of bank.old product.binder) (tree_of bank.old product.kind)
        (tree_of bank.old product.rest)) }
    ensures binders { OnOk result (binders.new.items ≡ binders.old.items) }
    ensures grows { Grows bank.old bank.new }
{
    let name = printed_name(bank, binders.as_slice(), product.binder, product.rest)?;
    append(out, "forall ")?;
    append(out, bank.text(name))?;
    append(out, " : ")?;
    append_under(out, bank, binders, product.kind)?;
    append(out, ", ")?;
    append_below(out, bank, binders, name, product.rest)
}

/// Writes a product whose variable is not used.
#[cycle(append_under)]
fn append_arrow(
    out: &mut Vec<u8>,
    bank: &mut Bank<'_>,
    binders: &mut Vec<NameId>,
    product: Product,
) -> Result<(), NoMemory>
    requires binders { AllByRecursion (HasName bank.old) binders.old.items }
    requires product { HasProduct bank.old product }
    ensures wrote { OnOk result
        (out.new.items ≡ out.old.items ++ unused_text (binders_of bank.old binders.old.items) (tree_of bank.old product.kind) (tree_of bank.old product.rest)) }
    ensures binders { OnOk result (binders.new.items ≡ binders.old.items) }
    ensures grows { Grows bank.old bank.new }
{
    let unnamed = bank.name("")?;
    append_left(out, bank, binders, product.kind)?;
    append(out, " -> ")?;
    append_below(out, bank, binders, unnamed, product.rest)
}

/// Writes a left side of an arrow: in brackets if it is a product.
#[cycle(append_under)]
fn append_left(
    out: &mut Vec<u8>,
    bank: &mut Bank<'_>,
    binders: &mut Vec<NameId>,
    kind: TermId,
) -> Result<(), NoMemory>
    requires binders { AllByRecursion (HasName bank.old) binders.old.items }
    requires kind { HasTerm bank.old kind }
    ensures wrote { OnOk result
        (out.new.items ≡ out.old.items ++ left_side (tree_of bank.old kind) (text_under (binders_of bank.old binders.old.items) (tree_of bank.old kind))) }
    ensures binders { OnOk result (binders.new.items ≡ binders.old.items) }
    ensures grows { Grows bank.old bank.new }
{
    if is_product(bank, kind) {
        append(out, "(")?;
        append_under(out, bank, binders, kind)?;
        append(out, ")")
    } else {
        append_under(out, bank, binders, kind)
    }
}

/// Writes a term under one more printed binder.
#[cycle(append_under)]
fn append_below(
    out: &mut Vec<u8>,
    bank: &mut Bank<'_>,
    binders: &mut Vec<NameId>,
    name: NameId,
    rest: TermId,
) -> Result<(), NoMemory>
    requires binders { AllByRecursion (HasName bank.old) binders.old.items }
    requires name { HasName bank.old name }
    requires rest { HasTerm bank.old rest }
    ensures wrote { OnOk result
        (out.new.items ≡ out.old.items ++ text_under (text_of bank.old name ∷ binders_of bank.old binders.old.items) (tree_of bank.old rest)) }
    ensures binders { OnOk result (binders.new.items ≡ binders.old.items) }
    ensures grows { Grows bank.old bank.new }
{
    binders.push(name)?;
    append_under(out, bank, binders, rest)?;
    binders.pop();
    Ok(())
}

/// Writes a term.
#[tactic(auto, unfolding(lq_output::specs::Printing::term_text))]
fn append_term(out: &mut Vec<u8>, bank: &mut Bank<'_>, term: TermId) -> Result<(), NoMemory>
    requires { HasTerm bank.old term }
    ensures wrote { OnOk result (out.new.items ≡ out.old.items ++ term_text (tree_of bank.old term)) }
    ensures grows { Grows bank.old bank.new }
{
    let mut binders = Vec::new(bank.allocator());
    append_under(out, bank, &mut binders, term)
}

/// Writes a fault.
#[tactic(auto, unfolding(lq_output::specs::Sentences::fault_text))]
fn append_fault(
    out: &mut Vec<u8>,
    bank: &mut Bank<'_>,
    fault: SentenceFault,
) -> Result<(), NoMemory>
    requires { HasFault bank.old fault }
    ensures wrote { OnOk result (option_map (λ f. out.old.items ++ fault_text f) (fault_of bank.old fault) ≡ Some out.new.items) }
    ensures grows { Grows bank.old bank.new }
{
    match fault {
        SentenceFault::NotBuilt => append(out, "not built"),
        SentenceFault::Differs(found, wanted) => {
            append(out, "found ")?;
            append_term(out, bank, found)?;
            append(out, ", wanted ")?;
            append_term(out, bank, wanted)
        }
        SentenceFault::OpenGoals(count) => {
            append(out, "open goals: ")?;
            append_number(out, count)
        }
        SentenceFault::NoMemory => Err(NoMemory),
    }
}

/// Writes the line that ends the output of a script whose sentence of that number has a fault. Want of
/// memory is no fault of a sentence: it has no line, and the answer is that there was no memory.
pub(crate) fn append_fault_line(
    out: &mut Vec<u8>,
    bank: &mut Bank<'_>,
    number: u64,
    fault: SentenceFault,
) -> Result<(), NoMemory>
    requires { HasFault bank.old fault }
    ensures wrote { OnOk result (option_map (λ f. out.old.items ++ (refused number f).text) (fault_of bank.old fault) ≡ Some out.new.items) }
    ensures grows { Grows bank.old bank.new }
{
    append(out, "Error: sentence ")?;
    append_number(out, number)?;
    append(out, ": ")?;
    append_fault(out, bank, fault)?;
    append(out, "\n")
}
