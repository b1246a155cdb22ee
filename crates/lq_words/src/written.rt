//! Whether a family is as its callers promise, by a look at its terms.

ghost use Rattle.std.specs.Prelude.{◌≡◌, ◌<◌, IsTrue, IfOk, map};
ghost use Rattle.std.specs.List.{AllByRecursion};
ghost use Rattle.lq_trees.specs.Fresh.{is_listed};
ghost use Rattle.lq_trees.specs.Index.{Within};
ghost use Rattle.lq_terms.specs.Terms.{HasTerm, HasName, tree_of, text_of};
ghost use Rattle.lq_terms.specs.Contexts.{HasContext, context_of};
ghost use Rattle.lq_terms.specs.Telling.{IsClosed};
ghost use Rattle.lq_env.specs.Families.{HasConstructor, HasFamily, IsFamily, IsSort};
ghost use Rattle.lq_words.specs.Looks.{Stands, Reads, EachStands};

use lq_env::Family;
use lq_terms::{Bank, Hypothesis, NameId, NoMemory, Node, TermId};
use lq_trees::Sort;

/// Whether a name is among those.
pub fn listed(bank: &Bank<'_>, names: &[NameId], name: NameId) -> bool
    requires names { AllByRecursion (HasName bank.now) names.now }
    requires name { HasName bank.now name }
    ensures { result ≡ is_listed (map (text_of bank.now) names.now) (text_of bank.now name) }
{
    for other in names {
        if bank.same_name(*other, name) {
            return true;
        }
    }
    false
}

/// Whether a term has loose bound variables below `depth` alone, hypotheses of those names alone, and variables that
/// wait for a value of that number or a greater one alone, each with one entry. It calls itself as deep as the term is.
pub fn stands(bank: &Bank<'_>, names: &[NameId], least: u64, depth: u64, term: TermId) -> bool
    requires names { AllByRecursion (HasName bank.now) names.now }
    requires term { HasTerm bank.now term }
    ensures { IsTrue result → Stands (map (text_of bank.now) names.now) least depth (tree_of bank.now term) }
{
    let Some(below) = depth.checked_add(1) else {
        return false;
    };
    match bank.node(term) {
        Node::Rel(index) => u64::from(*index) < depth,
        Node::Var(name) => listed(bank, names, *name),
        Node::Sort(_) => true,
        Node::Const(_) => true,
        Node::Ind(_) => true,
        Node::Ctor(_, _) => true,
        Node::Elim(_, _) => true,
        Node::Evar(number, entries) => match entries.terms() {
            [entry] => u64::from(*number) >= least && stands(bank, names, least, depth, *entry),
            _ => false,
        },
        Node::Let(_, value, kind, rest) => {
            stands(bank, names, least, depth, *value)
                && stands(bank, names, least, depth, *kind)
                && stands(bank, names, least, below, *rest)
        }
        Node::Prod(_, kind, rest) => {
            stands(bank, names, least, depth, *kind) && stands(bank, names, least, below, *rest)
        }
        Node::Lam(_, kind, body) => {
            stands(bank, names, least, depth, *kind) && stands(bank, names, least, below, *body)
        }
        Node::App(function, argument) => {
            stands(bank, names, least, depth, *function)
                && stands(bank, names, least, depth, *argument)
        }
    }
}

/// Whether a term has loose bound variables below `depth` alone, and no variable of it has more than one entry. It
/// calls itself as deep as the term is.
pub fn reaches(bank: &Bank<'_>, depth: u64, term: TermId) -> bool
    requires { HasTerm bank.now term }
    ensures { IsTrue result → Within depth (tree_of bank.now term) }
{
    let Some(below) = depth.checked_add(1) else {
        return false;
    };
    match bank.node(term) {
        Node::Rel(index) => u64::from(*index) < depth,
        Node::Var(_) => true,
        Node::Sort(_) => true,
        Node::Const(_) => true,
        Node::Ind(_) => true,
        Node::Ctor(_, _) => true,
        Node::Elim(_, _) => true,
        Node::Evar(_, entries) => match entries.terms() {
            [] => true,
            [entry] => reaches(bank, depth, *entry),
            _ => false,
        },
        Node::Let(_, value, kind, rest) => {
            reaches(bank, depth, *value)
                && reaches(bank, depth, *kind)
                && reaches(bank, below, *rest)
        }
        Node::Prod(_, kind, rest) => reaches(bank, depth, *kind) && reaches(bank, below, *rest),
        Node::Lam(_, kind, body) => reaches(bank, depth, *kind) && reaches(bank, below, *body),
        Node::App(function, argument) => {
            reaches(bank, depth, *function) && reaches(bank, depth, *argument)
        }
    }
}

/// Whether a term has no loose bound variables.
pub fn is_scoped(bank: &Bank<'_>, term: TermId) -> bool
    requires { HasTerm bank.now term }
    ensures { IsTrue result → Within 0 (tree_of bank.now term) }
{
    reaches(bank, 0, term)
}

/// Whether each hypothesis has a new name, no body, and a type over the names before it; its names come
/// in front of those.
fn reads(bank: &Bank<'_>, names: &mut Vec<NameId>, context: &[Hypothesis]) -> Result<bool, NoMemory>
    requires names { AllByRecursion (HasName bank.now) names.old.items }
    requires context { HasContext bank.now context.now }
    ensures has { AllByRecursion (HasName bank.now) names.new.items }
    ensures reads { IfOk result
        (λ b. IsTrue b → Reads (map (text_of bank.now) names.old.items) (context_of bank.now context.now) (map (text_of bank.now) names.new.items)) }
{
    for hypothesis in context {
        if hypothesis.body.is_some()
            || listed(bank, names, hypothesis.name)
            || !stands(bank, names, 0, 0, hypothesis.kind)
        {
            return Ok(false);
        }
        names.insert(0, hypothesis.name)?;
    }
    Ok(true)
}

/// Whether the constructors' types stand under those names.
fn all_stand(bank: &Bank<'_>, names: &[NameId], constructors: &[(NameId, TermId)]) -> bool
    requires names { AllByRecursion (HasName bank.now) names.now }
    requires constructors { AllByRecursion (HasConstructor bank.now) constructors.now }
    ensures { IsTrue result → EachStands bank.now (map (text_of bank.now) names.now) constructors.now }
{
    for constructor in constructors {
        if !stands(bank, names, 0, 0, constructor.1) {
            return false;
        }
    }
    true
}

/// Whether a sort has a level of at most 3.
pub fn is_sort(sort: Sort) -> bool
    ensures { IsTrue result → IsSort sort }
{
    match sort {
        Sort::Base => true,
        Sort::Level(level) => level <= 3,
    }
}

/// Whether sorts have levels of at most 3.
pub fn are_sorts(sorts: &[Sort]) -> bool
    ensures { IsTrue result → AllByRecursion IsSort sorts.now }
{
    for sort in sorts {
        if !is_sort(*sort) {
            return false;
        }
    }
    true
}

/// Whether a term has no loose bound variables and no hypotheses.
pub fn is_closed(bank: &Bank<'_>, term: TermId) -> bool
    requires { HasTerm bank.now term }
    ensures { IsTrue result → IsClosed bank.now 0 term }
{
    stands(bank, &[], 0, 0, term)
}

/// Whether a family is as its callers promise.
pub fn is_written(bank: &Bank<'_>, family: &Family) -> Result<bool, NoMemory>
    requires { HasFamily bank.now family.now }
    ensures { IfOk result (λ b. IsTrue b → IsFamily bank.now family.now) }
{
    let mut names = Vec::new(bank.allocator());
    let parameters = family.parameters.hypotheses();
    let indices = family.indices.hypotheses();
    let constructors = family.constructors.constructors();
    if !reads(bank, &mut names, parameters)? {
        return Ok(false);
    }
    if !all_stand(bank, &names, constructors) {
        return Ok(false);
    }
    if !reads(bank, &mut names, indices)? {
        return Ok(false);
    }
    if !is_sort(family.sort) {
        return Ok(false);
    }
    Ok(is_short(parameters.len()) && is_short(indices.len()) && is_short(constructors.len()))
}

/// Whether a list has few entries.
fn is_short(length: usize) -> bool
    ensures { IsTrue result → length < 4294967296 }
{
    length < 4_294_967_296
}
