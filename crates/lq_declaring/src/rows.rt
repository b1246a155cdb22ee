//! Rows of products: the arity of a family as its parameters, its indices and its sort.

ghost use Rattle.std.specs.Prelude.{◌≡◌, ◌+◌, ◌≤◌, [], length, take, drop, IfOk};
ghost use Rattle.lq_trees.specs.Fresh.{fresh, opened, under};
ghost use Rattle.lq_trees.specs.Size.{depth};
ghost use Rattle.lq_terms.specs.Terms.{HasName, HasTerm, text_of, tree_of, Grows};
ghost use Rattle.lq_terms.specs.Contexts.{context_of};
ghost use Rattle.lq_kernel.specs.Closed.{IsScoped, IsContext};
ghost use Rattle.lq_kernel.specs.Declaring.{IsOfferedBehind};
ghost use Rattle.lq_kernel.specs.Steps.{IsSplitOr};
ghost use Rattle.lq_sessions.specs.Declaring.{row_of};
ghost use Rattle.lq_declaring.specs.Rows.{row_end, Enters, GoesBehind, IsSortOr, FindsRow};

use lq_terms::{Bank, Context, Hypothesis, NameId, NoMemory, Node, TermId, name_under, open};
use lq_trees::Sort;
use std::alloc::Global;

/// A row of products that ends in a sort. What it names lies in one bank.
#[derive(Drop)]
pub struct Row {
    /// Its first binders.
    pub parameters: Context,
    /// The others.
    pub indices: Context,
    /// The sort.
    pub sort: Sort,
}

/// Why a term is no row.
#[derive(Clone, Copy)]
pub enum RowFault {
    /// What stands behind the products is no sort.
    NotASort(TermId),
    /// There was no memory.
    NoMemory,
}

impl From<NoMemory> for RowFault {
    ghost use Rattle.std.specs.Prelude.{◌≡◌};
    ghost use Rattle.lq_declaring.specs.declared.rows.RowFault.{RowFault};

    ghost from_gives = { λ _ e. e ≡ RowFault.NoMemory };

    fn from(_: NoMemory) -> RowFault {
        RowFault::NoMemory
    }
}

/// The binder, the domain and the rest of a term that is a product.
fn product_parts(bank: &Bank<'_>, term: TermId) -> Option<(NameId, TermId, TermId)>
    requires { HasTerm bank.now term }
    ensures { IsSplitOr bank.now result term }
{
    match bank.node(term) {
        Node::Prod(binder, kind, rest) => Some((*binder, *kind, *rest)),
        _ => None,
    }
}

/// The sort that a term is.
fn sort_at(bank: &Bank<'_>, term: TermId) -> Option<Sort>
    requires { HasTerm bank.now term }
    ensures { IsSortOr (tree_of bank.now term) result }
{
    match bank.node(term) {
        Node::Sort(sort) => Some(*sort),
        _ => None,
    }
}

/// A hypothesis for a product's variable is put behind so many others; the answer is what stands under the binder.
fn entered(
    bank: &mut Bank<'_>,
    binders: &mut Context,
    count: usize,
    binder: NameId,
    kind: TermId,
    rest: TermId,
) -> Result<TermId, NoMemory>
    requires binders { IsContext bank.old binders.old }
    requires count { count ≡ length binders.old }
    requires offered { IsOfferedBehind [] (context_of bank.old binders.old) }
    requires binder { HasName bank.old binder }
    requires kind { IsScoped bank.old 0 kind }
    requires rest { IsScoped bank.old 1 rest }
    ensures entered { IfOk result (Enters bank.new binders.new (context_of bank.old binders.old) (text_of bank.old binder) (tree_of bank.old kind)
        (tree_of bank.old rest)) }
    ensures grows { Grows bank.old bank.new }
{
    let name = name_under(bank, binders.hypotheses(), binder)?;
    let inner = open(bank, rest, name)?;
    binders.push(Hypothesis {
        name,
        body: None,
        kind,
    })?;
    Ok(inner)
}

/// Goes through the products of a row: their binders are put on, and the answer is what stands behind the last.
fn gone_through(
    bank: &mut Bank<'_>,
    binders: &mut Context,
    term: TermId,
) -> Result<TermId, NoMemory>
    requires binders { binders.old ≡ [] }
    requires term { IsScoped bank.old 0 term }
    ensures behind { IfOk result (GoesBehind bank.new binders.new (tree_of bank.old term)) }
    ensures grows { Grows bank.old bank.new }
{
    let mut rest = term;
    while let Some((binder, kind, inner)) = product_parts(bank, rest) {
        let count = binders.hypotheses().len();
        rest = entered(bank, binders, count, binder, kind, inner)?;
    }
    Ok(rest)
}

/// A context of these hypotheses.
fn context_from(alloc: Global, hypotheses: &[Hypothesis]) -> Result<Context, NoMemory>
    ensures { IfOk result (λ c. c ≡ hypotheses.now) }
{
    match Vec::from_slice(alloc, hypotheses) {
        Ok(hypotheses) => Ok(Context::from_hypotheses(hypotheses)),
        Err(_) => Err(NoMemory),
    }
}

/// Binders in two contexts, so many in the first, with the sort behind them.
fn split(alloc: Global, binders: &[Hypothesis], count: usize, sort: Sort) -> Result<Row, NoMemory>
    ensures parameters { IfOk result (λ row. row.parameters ≡ take count binders.now) }
    ensures indices { IfOk result (λ row. row.indices ≡ drop count binders.now) }
    ensures sort { IfOk result (λ row. row.sort ≡ sort) }
{
    let first = count.min(binders.len());
    let parameters = context_from(alloc, &binders[..first])?;
    let indices = context_from(alloc, &binders[first..])?;
    Ok(Row {
        parameters,
        indices,
        sort,
    })
}

/// A term as a row of products that ends in a sort, its first `count` binders as parameters and the others as indices, each under
/// a name that none before it has. It is refused exactly where no sort stands behind the products, with what stands there.
pub fn row_of(bank: &mut Bank<'_>, count: usize, term: TermId) -> Result<Row, RowFault>
    requires term { IsScoped bank.old 0 term }
    ensures row { FindsRow bank.new result (row_of count (tree_of bank.old term)) }
    ensures few { IfOk result (λ row. length row.parameters + length row.indices ≤ depth (tree_of bank.old term)) }
    ensures grows { Grows bank.old bank.new }
{
    let mut binders = Context::new(bank.allocator());
    let last = gone_through(bank, &mut binders, term)?;
    let Some(sort) = sort_at(bank, last) else {
        return Err(RowFault::NotASort(last));
    };
    let row = split(bank.allocator(), binders.hypotheses(), count, sort)?;
    Ok(row)
}
