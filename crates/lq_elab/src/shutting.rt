//! A hypothesis becomes a bound variable, and a value takes a bound variable's place, in terms of any size: a term on the way may be over
//! the limits, and read within them later.

ghost use Rattle.std.specs.Prelude.{◌≡◌, ◌≤◌, [], ◌∷◌, length, IfOk};
ghost use Rattle.lq_trees.specs.Change.{subst, close, put};
ghost use Rattle.lq_trees.specs.Index.{Within, highest, last_index};
ghost use Rattle.lq_trees.specs.Hypotheses.{HoldsOnly};
ghost use Rattle.lq_terms.specs.Terms.{HasName, HasTerm, IsTerm, text_of, tree_of, Grows};
ghost use Rattle.lq_terms.specs.Contexts.{HasContext, context_of};
ghost use Rattle.lq_solving.specs.Stores.{names_in};

use lq_terms::{
    Bank, Hypothesis, NameId, NoMemory, Node, SizeFault, TermId, measure, name_under, open, put,
    subst,
};

/// How deep terms may be together where one is put into the other: a bank has no room for the numbers of bound variables beyond that.
const MOST_DEPTH: u64 = 4_294_967_294;

/// A term for the hypotheses of one name.
fn put_for(
    bank: &mut Bank<'_>,
    term: TermId,
    name: NameId,
    value: TermId,
) -> Result<TermId, NoMemory>
    requires term { HasTerm bank.old term }
    requires name { HasName bank.old name }
    requires value { HasTerm bank.old value }
    requires index { highest (put ((text_of bank.old name, tree_of bank.old value) ∷ []) 0 (tree_of bank.old term)) ≤ last_index }
    ensures put { IfOk result (λ t. IsTerm bank.new t (put ((text_of bank.old name, tree_of bank.old value) ∷ []) 0 (tree_of bank.old term))) }
    ensures grows { Grows bank.old bank.new }
{
    let hypothesis = Hypothesis {
        name,
        body: None,
        kind: value,
    };
    put(bank, term, 0, &[hypothesis], &[value])
}

/// The term with a hypothesis as its outermost loose bound variable.
pub(crate) fn shut(bank: &mut Bank<'_>, term: TermId, name: NameId) -> Result<TermId, NoMemory>
    requires term { HasTerm bank.old term }
    requires within { Within 0 (tree_of bank.old term) }
    requires name { HasName bank.old name }
    ensures shut { IfOk result (λ t. IsTerm bank.new t (close (text_of bank.old name) (tree_of bank.old term))) }
    ensures grows { Grows bank.old bank.new }
{
    if measure(bank, term).depth > MOST_DEPTH {
        return Err(NoMemory);
    }
    let variable = bank.make(Node::Rel(0))?;
    put_for(bank, term, name, variable)
}

/// The term with a value for a hypothesis: what comes of it where the hypothesis becomes a bound variable and the value takes its place.
pub(crate) fn replaced(
    bank: &mut Bank<'_>,
    term: TermId,
    name: NameId,
    value: TermId,
) -> Result<TermId, NoMemory>
    requires term { HasTerm bank.old term }
    requires within { Within 0 (tree_of bank.old term) }
    requires name { HasName bank.old name }
    requires value { HasTerm bank.old value }
    requires closed { Within 0 (tree_of bank.old value) }
    ensures replaced { IfOk result (λ t. IsTerm bank.new t (subst (tree_of bank.old value) (close (text_of bank.old name) (tree_of bank.old term)))) }
    ensures grows { Grows bank.old bank.new }
{
    let depth = measure(bank, term).depth;
    let most = measure(bank, value).depth;
    if depth > MOST_DEPTH || most > MOST_DEPTH - depth {
        return Err(NoMemory);
    }
    put_for(bank, term, name, value)
}

/// The rest of a product with a value for its bound variable, where that passes the limits: the variable is a new hypothesis first.
fn filled_wide(
    bank: &mut Bank<'_>,
    context: &[Hypothesis],
    count: usize,
    rest: TermId,
    value: TermId,
) -> Result<TermId, NoMemory>
    requires context { HasContext bank.old context.now }
    requires count { count ≡ length context.now }
    requires rest { HasTerm bank.old rest }
    requires within { Within 1 (tree_of bank.old rest) }
    requires holds { HoldsOnly (names_in (context_of bank.old context.now)) (tree_of bank.old rest) }
    requires value { HasTerm bank.old value }
    requires closed { Within 0 (tree_of bank.old value) }
    ensures filled { IfOk result (λ t. IsTerm bank.new t (subst (tree_of bank.old value) (tree_of bank.old rest))) }
    ensures grows { Grows bank.old bank.new }
{
    let depth = measure(bank, rest).depth;
    let most = measure(bank, value).depth;
    if depth > MOST_DEPTH || most > MOST_DEPTH - depth {
        return Err(NoMemory);
    }
    let unnamed = bank.name("")?;
    let name = name_under(bank, context, unnamed)?;
    let opened = open(bank, rest, name)?;
    put_for(bank, opened, name, value)
}

/// The rest of a product with a value for its bound variable, however large that is; the rest holds hypotheses of that context alone.
/// `Err`: there was no memory.
pub fn filled(
    bank: &mut Bank<'_>,
    context: &[Hypothesis],
    rest: TermId,
    value: TermId,
) -> Result<TermId, NoMemory>
    requires context { HasContext bank.old context.now }
    requires rest { HasTerm bank.old rest }
    requires within { Within 1 (tree_of bank.old rest) }
    requires holds { HoldsOnly (names_in (context_of bank.old context.now)) (tree_of bank.old rest) }
    requires value { HasTerm bank.old value }
    requires closed { Within 0 (tree_of bank.old value) }
    ensures filled { IfOk result (λ t. IsTerm bank.new t (subst (tree_of bank.old value) (tree_of bank.old rest))) }
    ensures grows { Grows bank.old bank.new }
{
    let count = context.len();
    match subst(bank, rest, value) {
        Ok(term) => Ok(term),
        Err(SizeFault::TooLarge) => filled_wide(bank, context, count, rest, value),
        Err(SizeFault::TooDeep) => filled_wide(bank, context, count, rest, value),
        Err(SizeFault::NoMemory) => Err(NoMemory),
    }
}
