//! What a term holds as it reads, however large that is: certain hypotheses, or a variable. Nothing is read: for each part it is known
//! which hypotheses it holds, so that one that occurs often is looked at once. What is left to look at stands on a stack.

ghost use Rattle.std.specs.Prelude.{◌≡◌, Bool, true, ◌||◌, [], ◌∷◌, ◌++◌, map, IfOk, OnOk};
ghost use Rattle.std.specs.List.{AllByRecursion};
ghost use Rattle.lq_trees.specs.Tree.{Name, Tree};
ghost use Rattle.lq_terms.specs.Terms.{Terms, HasName, HasTerm, text_of, tree_of, trees_by};
ghost use Rattle.lq_solving.specs.Kept.{IsOver, IsStore};
ghost use Rattle.lq_evars.specs.Places.{store_of, HasStore};
ghost use Rattle.lq_evars.specs.Reading.{as_read, IsIn, AllIn, Covers};
ghost use Rattle.lq_unify.specs.Solutions.{places_of, HasPlaces};
ghost use Rattle.lq_unify.specs.Held.{holds_any, one_holds};
ghost use Rattle.lq_unify.specs.Holding.{one_marked, tells, marked_through, has_no_place, trees_held};
ghost use Rattle.lq_unify.specs.Holding.{IsHeld, AreHeld, Looking, LookDone, Known, AreGivenKnown, IsValueOf, PutsValue, AsksFor};

use crate::givens::given_for;
use crate::parts::parts_of;
use indexmap::{IndexMap, IndexSet};
use lq_evars::Store;
use lq_terms::{
    Bank, Bodies, Context, NameId, NoMemory, Node, TermId, holds_hypothesis, holds_unknown,
};

/// What a term holds as it reads.
#[derive(Drop)]
pub(crate) struct Holding {
    /// Whether it holds the variable that is looked for.
    pub(crate) variable: bool,
    /// The hypotheses that it holds.
    pub(crate) names: IndexSet<NameId>,
}

/// An item of what is left to do.
#[derive(Clone, Copy)]
pub(crate) enum Look {
    /// To look at a term.
    Visit(TermId),
    /// To put together what a term holds from what its parts hold.
    Build(TermId),
}

/// One more hypothesis.
fn add_name(bank: &Bank<'_>, all: &mut Holding, name: NameId) -> Result<(), NoMemory>
    requires name { HasName bank.now name }
    requires names { AllByRecursion (HasName bank.now) all.old.names.keys }
    ensures told { OnOk result ((m : Name → Bool) → tells bank.now m all.new ≡ (tells bank.now m all.old || m (text_of bank.now name))) }
    ensures names { OnOk result (AllByRecursion (HasName bank.now) all.new.names.keys) }
{
    let _bank = bank;
    match all.names.insert(name) {
        Ok(_) => Ok(()),
        Err(_) => Err(NoMemory),
    }
}

/// These hypotheses too.
fn add_names(bank: &Bank<'_>, all: &mut Holding, names: &[NameId]) -> Result<(), NoMemory>
    requires more { AllByRecursion (HasName bank.now) names.now }
    requires names { AllByRecursion (HasName bank.now) all.old.names.keys }
    ensures told { OnOk result ((m : Name → Bool) → tells bank.now m all.new ≡ (tells bank.now m all.old || one_marked bank.now m names.now)) }
    ensures names { OnOk result (AllByRecursion (HasName bank.now) all.new.names.keys) }
{
    for name in names {
        add_name(bank, all, *name)?;
    }
    Ok(())
}

/// Whether one of two holds.
fn either(first: bool, second: bool) -> bool
    ensures { result ≡ (first || second) }
{
    first || second
}

/// All that another one holds.
fn add_all(bank: &Bank<'_>, all: &mut Holding, part: &Holding) -> Result<(), NoMemory>
    requires part { AllByRecursion (HasName bank.now) part.now.names.keys }
    requires names { AllByRecursion (HasName bank.now) all.old.names.keys }
    ensures told { OnOk result ((m : Name → Bool) → tells bank.now m all.new ≡ (tells bank.now m all.old || tells bank.now m part.now)) }
    ensures names { OnOk result (AllByRecursion (HasName bank.now) all.new.names.keys) }
{
    all.variable = either(all.variable, part.variable);
    add_names(bank, all, part.names.as_slice())?;
    Ok(())
}

/// What a part holds that is known.
fn known_holding<'k>(
    bank: &Bank<'_>,
    store: &Store,
    barred: u32,
    known: &'k IndexMap<TermId, Holding>,
    part: TermId,
) -> &'k Holding
    requires has { HasTerm bank.now part }
    requires held { AreHeld bank.now (store_of bank.now store.now) barred known.now.entries }
    requires known { IsIn (tree_of bank.now part) (trees_held bank.now known.now.entries) }
    ensures { IsHeld bank.now (store_of bank.now store.now) barred part result.now }
{
    let _store = store;
    let _barred = barred;
    bank.terms_apart();
    match known.get(&part) {
        Some(holding) => holding,
        None => unreachable!(),
    }
}

/// All that a part holds that is known.
fn add_part(
    bank: &Bank<'_>,
    store: &Store,
    barred: u32,
    known: &IndexMap<TermId, Holding>,
    all: &mut Holding,
    part: TermId,
) -> Result<(), NoMemory>
    requires has { HasTerm bank.now part }
    requires held { AreHeld bank.now (store_of bank.now store.now) barred known.now.entries }
    requires known { IsIn (tree_of bank.now part) (trees_held bank.now known.now.entries) }
    requires names { AllByRecursion (HasName bank.now) all.old.names.keys }
    ensures told { OnOk result ((m : Name → Bool) → tells bank.now m all.new
        ≡ (tells bank.now m all.old || holds_any barred m (as_read (store_of bank.now store.now) (tree_of bank.now part)))) }
    ensures names { OnOk result (AllByRecursion (HasName bank.now) all.new.names.keys) }
{
    let holding = known_holding(bank, store, barred, known, part);
    add_all(bank, all, holding)?;
    Ok(())
}

/// All that these parts hold, and the variable if it is the one that is looked for.
fn of_parts(
    bank: &Bank<'_>,
    store: &Store,
    barred: u32,
    known: &IndexMap<TermId, Holding>,
    variable: bool,
    parts: &[TermId],
) -> Result<Holding, NoMemory>
    requires has { AllByRecursion (HasTerm bank.now) parts.now }
    requires held { AreHeld bank.now (store_of bank.now store.now) barred known.now.entries }
    requires known { AllIn (map (tree_of bank.now) parts.now) (trees_held bank.now known.now.entries) }
    ensures told { IfOk result (λ h. (m : Name → Bool) → tells bank.now m h
        ≡ (variable || one_holds barred m (map (λ t. as_read (store_of bank.now store.now) (tree_of bank.now t)) parts.now))) }
    ensures names { IfOk result (λ h. AllByRecursion (HasName bank.now) h.names.keys) }
{
    let mut all = Holding {
        variable,
        names: IndexSet::new(bank.allocator()),
    };
    for part in parts {
        add_part(bank, store, barred, known, &mut all, *part)?;
    }
    Ok(all)
}

/// All that stands for a hypothesis holds: what is given for it, or else the hypothesis itself.
fn add_standing(
    bank: &Bank<'_>,
    store: &Store,
    barred: u32,
    known: &IndexMap<TermId, Holding>,
    given: &IndexMap<NameId, TermId>,
    all: &mut Holding,
    name: NameId,
) -> Result<(), NoMemory>
    requires name { HasName bank.now name }
    requires held { AreHeld bank.now (store_of bank.now store.now) barred known.now.entries }
    requires given { HasPlaces bank.now given.now.entries }
    requires known { AreGivenKnown (places_of bank.now given.now.entries) (trees_held bank.now known.now.entries) }
    requires names { AllByRecursion (HasName bank.now) all.old.names.keys }
    ensures told { OnOk result ((m : Name → Bool) → tells bank.now m all.new
        ≡ (tells bank.now m all.old || marked_through barred m (store_of bank.now store.now) (places_of bank.now given.now.entries) (text_of bank.now name))) }
    ensures names { OnOk result (AllByRecursion (HasName bank.now) all.new.names.keys) }
{
    bank.names_apart();
    match given.get(&name).copied() {
        Some(entry) => {
            add_part(bank, store, barred, known, all, entry)?;
            Ok(())
        }
        None => {
            add_name(bank, all, name)?;
            Ok(())
        }
    }
}

/// All that stands for each of these hypotheses holds.
fn add_each_standing(
    bank: &Bank<'_>,
    store: &Store,
    barred: u32,
    known: &IndexMap<TermId, Holding>,
    given: &IndexMap<NameId, TermId>,
    all: &mut Holding,
    names: &[NameId],
) -> Result<(), NoMemory>
    requires more { AllByRecursion (HasName bank.now) names.now }
    requires held { AreHeld bank.now (store_of bank.now store.now) barred known.now.entries }
    requires given { HasPlaces bank.now given.now.entries }
    requires known { AreGivenKnown (places_of bank.now given.now.entries) (trees_held bank.now known.now.entries) }
    requires names { AllByRecursion (HasName bank.now) all.old.names.keys }
    ensures told { OnOk result ((m : Name → Bool) → tells bank.now m all.new
        ≡ (tells bank.now m all.old || one_marked bank.now
        (marked_through barred m (store_of bank.now store.now) (places_of bank.now given.now.entries)) names.now)) }
    ensures names { OnOk result (AllByRecursion (HasName bank.now) all.new.names.keys) }
{
    for name in names {
        add_standing(bank, store, barred, known, given, all, *name)?;
    }
    Ok(())
}

/// All that a value holds, with what is given for its hypotheses.
fn of_value(
    bank: &Bank<'_>,
    store: &Store,
    barred: u32,
    known: &IndexMap<TermId, Holding>,
    given: &IndexMap<NameId, TermId>,
    body: &Holding,
) -> Result<Holding, NoMemory>
    requires held { AreHeld bank.now (store_of bank.now store.now) barred known.now.entries }
    requires given { HasPlaces bank.now given.now.entries }
    requires known { AreGivenKnown (places_of bank.now given.now.entries) (trees_held bank.now known.now.entries) }
    requires body { AllByRecursion (HasName bank.now) body.now.names.keys }
    ensures told { IfOk result (λ h. (m : Name → Bool) → tells bank.now m h
        ≡ tells bank.now (marked_through barred m (store_of bank.now store.now) (places_of bank.now given.now.entries)) body.now) }
    ensures names { IfOk result (λ h. AllByRecursion (HasName bank.now) h.names.keys) }
{
    let mut all = Holding {
        variable: body.variable,
        names: IndexSet::new(bank.allocator()),
    };
    add_each_standing(
        bank,
        store,
        barred,
        known,
        given,
        &mut all,
        body.names.as_slice(),
    )?;
    Ok(all)
}

/// What a variable with a value holds, by what is known of the value and of the entries of its instance.
fn through_value(
    bank: &Bank<'_>,
    store: &Store,
    barred: u32,
    known: &IndexMap<TermId, Holding>,
    term: TermId,
    context: &Context,
    value: TermId,
    entries: &[TermId],
) -> Result<Holding, NoMemory>
    requires kept { IsStore (store_of bank.now store.now) }
    requires known { Known bank.now (store_of bank.now store.now) barred known.now.entries term }
    requires value { IsValueOf bank.now (store_of bank.now store.now) term context.now value entries.now }
    ensures { IfOk result (IsHeld bank.now (store_of bank.now store.now) barred term) }
{
    let _term = term;
    let given = given_for(bank, context.hypotheses(), entries)?;
    let body = known_holding(bank, store, barred, known, value);
    of_value(bank, store, barred, known, &given, body)
}

/// What a variable at an instance holds, by what is known of its value, if it has one, and of the entries.
fn of_variable(
    bank: &Bank<'_>,
    store: &Store,
    barred: u32,
    known: &IndexMap<TermId, Holding>,
    term: TermId,
    variable: u32,
    entries: &[TermId],
) -> Result<Holding, NoMemory>
    requires store { HasStore bank.now store.now }
    requires kept { IsStore (store_of bank.now store.now) }
    requires known { Known bank.now (store_of bank.now store.now) barred known.now.entries term }
    requires is { tree_of bank.now term ≡ Tree.Evar variable (trees_by (tree_of bank.now) entries.now) }
    requires entries { AllByRecursion (HasTerm bank.now) entries.now }
    ensures { IfOk result (IsHeld bank.now (store_of bank.now store.now) barred term) }
{
    store.values_stand();
    let Some((context, value)) = store.body(variable) else {
        return of_parts(bank, store, barred, known, barred == variable, entries);
    };
    through_value(bank, store, barred, known, term, context, value, entries)
}

/// What a hypothesis holds: itself.
fn of_name(bank: &Bank<'_>, name: NameId) -> Result<Holding, NoMemory>
    requires { HasName bank.now name }
    ensures told { IfOk result (λ h. (m : Name → Bool) → tells bank.now m h ≡ m (text_of bank.now name)) }
    ensures names { IfOk result (λ h. AllByRecursion (HasName bank.now) h.names.keys) }
{
    let mut all = Holding {
        variable: false,
        names: IndexSet::new(bank.allocator()),
    };
    add_name(bank, &mut all, name)?;
    Ok(all)
}

/// What a term holds, by what is known of its parts.
fn of_term(
    bank: &Bank<'_>,
    store: &Store,
    barred: u32,
    known: &IndexMap<TermId, Holding>,
    term: TermId,
) -> Result<Holding, NoMemory>
    requires store { HasStore bank.now store.now }
    requires kept { IsStore (store_of bank.now store.now) }
    requires known { Known bank.now (store_of bank.now store.now) barred known.now.entries term }
    ensures { IfOk result (IsHeld bank.now (store_of bank.now store.now) barred term) }
{
    match bank.node(term) {
        Node::Var(name) => of_name(bank, *name),
        Node::Evar(variable, entries) => {
            of_variable(bank, store, barred, known, term, *variable, entries.terms())
        }
        _ => {
            let parts = parts_of(bank, term)?;
            of_parts(bank, store, barred, known, false, parts.as_slice())
        }
    }
}

/// What a term holds is known from now on.
fn note(
    bank: &Bank<'_>,
    store: &Store,
    barred: u32,
    known: &mut IndexMap<TermId, Holding>,
    term: TermId,
    holding: Holding,
) -> Result<(), NoMemory>
    requires known { AreHeld bank.now (store_of bank.now store.now) barred known.old.entries }
    requires holding { IsHeld bank.now (store_of bank.now store.now) barred term holding }
    ensures held { OnOk result (AreHeld bank.now (store_of bank.now store.now) barred known.new.entries) }
    ensures covers { OnOk result (Covers (tree_of bank.now term ∷ trees_held bank.now known.old.entries) (trees_held bank.now known.new.entries)) }
{
    let _bank = bank;
    let _store = store;
    let _barred = barred;
    match known.insert(term, holding) {
        Ok(_) => Ok(()),
        Err(_) => Err(NoMemory),
    }
}

/// Whether it is known what a term holds.
fn is_known(known: &IndexMap<TermId, Holding>, term: TermId) -> bool
    ensures { (bank : Terms) → result ≡ true → IsIn (tree_of bank term) (trees_held bank known.now.entries) }
{
    match known.get(&term) {
        Some(_) => true,
        None => false,
    }
}

/// Puts on terms to be looked at.
fn push_each(work: &mut Vec<Look>, terms: &[TermId]) -> Result<(), NoMemory>
    ensures { OnOk result (work.new.items ≡ work.old.items ++ map Look.Visit terms.now) }
{
    for term in terms {
        work.push(Look::Visit(*term))?;
    }
    Ok(())
}

/// Puts on the value of a variable, if the term is one that has a value.
fn push_value(
    bank: &Bank<'_>,
    store: &Store,
    work: &mut Vec<Look>,
    term: TermId,
) -> Result<(), NoMemory>
    requires term { HasTerm bank.now term }
    requires store { HasStore bank.now store.now }
    requires kept { IsStore (store_of bank.now store.now) }
    ensures { OnOk result (PutsValue bank.now (store_of bank.now store.now).values work.old.items work.new.items (tree_of bank.now term)) }
{
    match bank.node(term) {
        Node::Evar(variable, _) => match store.value(*variable) {
            Some(value) => {
                work.push(Look::Visit(value))?;
                Ok(())
            }
            None => Ok(()),
        },
        _ => Ok(()),
    }
}

/// Puts on the parts of a term, with its value if it is a variable that has one.
fn push_parts(
    bank: &Bank<'_>,
    store: &Store,
    work: &mut Vec<Look>,
    term: TermId,
) -> Result<(), NoMemory>
    requires term { HasTerm bank.now term }
    requires store { HasStore bank.now store.now }
    requires kept { IsStore (store_of bank.now store.now) }
    ensures { OnOk result (AsksFor bank.now (store_of bank.now store.now).values work.old.items work.new.items (tree_of bank.now term)) }
{
    push_value(bank, store, work, term)?;
    let parts = parts_of(bank, term)?;
    push_each(work, parts.as_slice())
}

/// Looks at a term: it is known what it holds, or it holds nothing, or its parts are to be looked at first.
fn visit(
    bank: &Bank<'_>,
    store: &Store,
    barred: u32,
    work: &mut Vec<Look>,
    known: &mut IndexMap<TermId, Holding>,
    term: TermId,
) -> Result<(), NoMemory>
    requires store { HasStore bank.now store.now }
    requires kept { IsStore (store_of bank.now store.now) }
    requires looking { Looking bank.now (store_of bank.now store.now) barred (work.old.items ++ Look.Visit term ∷ []) known.old.entries }
    ensures { OnOk result (LookDone bank.now (store_of bank.now store.now) barred
        (Look.Visit term) work.old.items work.new.items known.old.entries known.new.entries) }
{
    if is_known(known, term) {
        return Ok(());
    }
    if !holds_hypothesis(bank, term) && !holds_unknown(bank, term) {
        let nothing = Holding {
            variable: false,
            names: IndexSet::new(bank.allocator()),
        };
        return note(bank, store, barred, known, term, nothing);
    }
    work.push(Look::Build(term))?;
    push_parts(bank, store, work, term)
}

/// Notes what a term holds whose parts are known.
fn build(
    bank: &Bank<'_>,
    store: &Store,
    barred: u32,
    known: &mut IndexMap<TermId, Holding>,
    term: TermId,
) -> Result<(), NoMemory>
    requires store { HasStore bank.now store.now }
    requires kept { IsStore (store_of bank.now store.now) }
    requires known { Known bank.now (store_of bank.now store.now) barred known.old.entries term }
    ensures held { OnOk result (AreHeld bank.now (store_of bank.now store.now) barred known.new.entries) }
    ensures covers { OnOk result (Covers (tree_of bank.now term ∷ trees_held bank.now known.old.entries) (trees_held bank.now known.new.entries)) }
{
    let holding = of_term(bank, store, barred, known, term)?;
    note(bank, store, barred, known, term, holding)
}

/// Does one item of what is left.
fn step(
    bank: &Bank<'_>,
    store: &Store,
    barred: u32,
    work: &mut Vec<Look>,
    known: &mut IndexMap<TermId, Holding>,
    item: Look,
) -> Result<(), NoMemory>
    requires store { HasStore bank.now store.now }
    requires kept { IsStore (store_of bank.now store.now) }
    requires looking { Looking bank.now (store_of bank.now store.now) barred (work.old.items ++ item ∷ []) known.old.entries }
    ensures { OnOk result (LookDone bank.now (store_of bank.now store.now) barred item work.old.items work.new.items known.old.entries known.new.entries) }
{
    match item {
        Look::Visit(term) => visit(bank, store, barred, work, known, term),
        Look::Build(term) => build(bank, store, barred, known, term),
    }
}

/// Looks at a term, with nothing known at first: it is known then what it holds.
fn run(
    bank: &Bank<'_>,
    store: &Store,
    barred: u32,
    work: &mut Vec<Look>,
    known: &mut IndexMap<TermId, Holding>,
    term: TermId,
) -> Result<(), NoMemory>
    requires store { HasStore bank.now store.now }
    requires kept { IsStore (store_of bank.now store.now) }
    requires looking { Looking bank.now (store_of bank.now store.now) barred (Look.Visit term ∷ []) [] }
    requires work { work.old.items ≡ [] }
    requires known { known.old.entries ≡ [] }
    ensures held { OnOk result (AreHeld bank.now (store_of bank.now store.now) barred known.new.entries) }
    ensures known { OnOk result (IsIn (tree_of bank.now term) (trees_held bank.now known.new.entries)) }
{
    work.push(Look::Visit(term))?;
    while let Some(item) = work.pop() {
        step(bank, store, barred, work, known, item)?;
    }
    Ok(())
}

/// Whether there is no place for a hypothesis.
fn is_without_place(bank: &Bank<'_>, places: &IndexMap<NameId, TermId>, name: NameId) -> bool
    requires name { HasName bank.now name }
    requires places { HasPlaces bank.now places.now.entries }
    ensures { result ≡ has_no_place (places_of bank.now places.now.entries) (text_of bank.now name) }
{
    bank.names_apart();
    match places.get(&name).copied() {
        Some(_) => false,
        None => true,
    }
}

/// Whether there is no place for one of these hypotheses.
fn is_one_without_place(
    bank: &Bank<'_>,
    places: &IndexMap<NameId, TermId>,
    names: &[NameId],
) -> bool
    requires names { AllByRecursion (HasName bank.now) names.now }
    requires places { HasPlaces bank.now places.now.entries }
    ensures { result ≡ one_marked bank.now (has_no_place (places_of bank.now places.now.entries)) names.now }
{
    for name in names {
        if is_without_place(bank, places, *name) {
            return true;
        }
    }
    false
}

/// Whether the variable is held, or a hypothesis for which there is no place.
fn is_barred(bank: &Bank<'_>, places: &IndexMap<NameId, TermId>, holding: &Holding) -> bool
    requires names { AllByRecursion (HasName bank.now) holding.now.names.keys }
    requires places { HasPlaces bank.now places.now.entries }
    ensures { result ≡ tells bank.now (has_no_place (places_of bank.now places.now.entries)) holding.now }
{
    holding.variable || is_one_without_place(bank, places, holding.names.as_slice())
}

/// Whether a term as it reads holds the variable, or a hypothesis for which there is no place; however large it reads, each part is
/// looked at once.
pub fn is_barred_in(
    bank: &Bank<'_>,
    store: &Store,
    barred: u32,
    places: &IndexMap<NameId, TermId>,
    term: TermId,
) -> Result<bool, NoMemory>
    requires store { HasStore bank.now store.now }
    requires kept { IsStore (store_of bank.now store.now) }
    requires places { HasPlaces bank.now places.now.entries }
    requires term { HasTerm bank.now term }
    requires over { IsOver (store_of bank.now store.now).variables (tree_of bank.now term) }
    ensures { IfOk result (λ b. b ≡ holds_any barred (has_no_place (places_of bank.now places.now.entries))
        (as_read (store_of bank.now store.now) (tree_of bank.now term))) }
{
    let mut work = Vec::new(bank.allocator());
    let mut known = IndexMap::new(bank.allocator());
    run(bank, store, barred, &mut work, &mut known, term)?;
    let holding = known_holding(bank, store, barred, &known, term);
    Ok(is_barred(bank, places, holding))
}
