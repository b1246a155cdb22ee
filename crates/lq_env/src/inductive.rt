//! A family is declared: its names, the tests on its constructors, its types, its entries.

ghost use Rattle.std.specs.Prelude.{◌≡◌, ◌<◌, ◌||◌, is_some, false, List, None, [], ◌∷◌, ◌++◌, length, IfOk, IfErr, OnOk, OnErr};
ghost use Rattle.std.specs.List.{AllByRecursion};
ghost use Rattle.lq_trees.specs.Tree.{Name};
ghost use Rattle.lq_terms.specs.Terms.{HasName, IsName, Grows, text_of, tree_of};
ghost use Rattle.lq_calculus.specs.Declarations.{sorts, permits, eliminator_name, first_taken, declared_names};
ghost use Rattle.lq_calculus.specs.Declarations.{names_of, constructors_fault, family_fault, add_inductive};
ghost use Rattle.lq_env.specs.Families.{IsSort, HasFamily, IsFamily, family_of, Refuses};
ghost use Rattle.lq_env.specs.Environments.{declared_of, IsEnv, env_of, Adds, Extends};
ghost use Rattle.lq_env.specs.Inductive.{Passes, HasNames, texts_of, firsts, among, AreEliminatorNames, AreFree};
ghost use Rattle.lq_env.specs.Inductive.{IsReady, constructors_declared, eliminators_declared, family_declared};

use crate::environment::{Declared, Entry, Env, Sorts};
use crate::family::{EnvFault, Family};
use crate::made::FamilyTypes;
use crate::making::make_types;
use crate::positivity::constructors_fault;
use indexmap::IndexSet;
use lq_terms::{Bank, NameId, NoMemory, TermId};
use lq_trees::Sort;
use std::alloc::Global;

/// The sorts, in order.
pub(crate) fn every_sort() -> [Sort; 5]
    ensures { result ≡ sorts }
{
    [
        Sort::Base,
        Sort::Level(0),
        Sort::Level(1),
        Sort::Level(2),
        Sort::Level(3),
    ]
}

/// What ends the name of the eliminator into a sort.
fn ending(sort: Sort) -> &'static str
    requires { IsSort sort }
    ensures { (family : Name) → family ++ result.now ≡ eliminator_name family sort }
{
    match sort {
        Sort::Base => "_ind",
        Sort::Level(0) => "_rec0",
        Sort::Level(1) => "_rec1",
        Sort::Level(2) => "_rec2",
        Sort::Level(_) => "_rec3",
    }
}

/// The name of a family's eliminator into a sort.
fn eliminator_name(bank: &mut Bank<'_>, family: NameId, sort: Sort) -> Result<NameId, NoMemory>
    requires family { HasName bank.old family }
    requires sort { IsSort sort }
    ensures named { IfOk result (λ x. IsName bank.new x (eliminator_name (text_of bank.old family) sort)) }
    ensures nodes { bank.new.nodes ≡ bank.old.nodes }
    ensures grows { Grows bank.old bank.new }
{
    let mut text = String::from_str(bank.allocator(), bank.text(family))?;
    text.push_str(ending(sort))?;
    bank.name(&text)
}

/// The names of a family's eliminators, with their sorts.
fn eliminator_names(bank: &mut Bank<'_>, family: NameId) -> Result<Vec<(NameId, Sort)>, NoMemory>
    requires { HasName bank.old family }
    ensures named { IfOk result (λ es. AreEliminatorNames bank.new (text_of bank.old family) es.items) }
    ensures nodes { bank.new.nodes ≡ bank.old.nodes }
    ensures grows { Grows bank.old bank.new }
{
    let mut names = Vec::new(bank.allocator());
    for sort in every_sort() {
        let name = eliminator_name(bank, family, sort)?;
        names.push((name, sort))?;
    }
    Ok(names)
}

/// The names of pairs, behind others.
fn push_names<T>(names: &mut Vec<NameId>, pairs: &[(NameId, T)]) -> Result<(), NoMemory>
    ensures { OnOk result (names.new.items ≡ names.old.items ++ firsts pairs.now) }
{
    for pair in pairs {
        names.push(pair.0)?;
    }
    Ok(())
}

/// The names that a family declares, in order.
fn declared_names(
    alloc: Global,
    family: &Family,
    eliminators: &[(NameId, Sort)],
) -> Result<Vec<NameId>, NoMemory>
    ensures { IfOk result (λ v. v.items ≡ family.now.name ∷ firsts family.now.constructors ++ firsts eliminators.now) }
{
    let mut names = Vec::new(alloc);
    names.push(family.name)?;
    push_names(&mut names, family.constructors.constructors())?;
    push_names(&mut names, eliminators)?;
    Ok(names)
}

/// Whether a name is declared or noted; it is noted where it is not.
fn note(env: &Env, seen: &mut IndexSet<NameId>, name: NameId) -> Result<bool, NoMemory>
    ensures taken { IfOk result (λ b. b ≡ (is_some (declared_of env.now name) || among seen.old.keys name)) }
    ensures noted { IfOk result (λ b. b ≡ false → seen.new.keys ≡ seen.old.keys ++ name ∷ []) }
{
    if env.find(name).is_some() {
        return Ok(true);
    }
    let is_new = seen.insert(name)?;
    Ok(!is_new)
}

/// Refuses the first name that an environment has or that stands twice.
fn refuse_taken(bank: &Bank<'_>, env: &Env, names: &[NameId]) -> Result<(), EnvFault>
    requires env { IsEnv bank.now env.now }
    requires names { HasNames bank.now names.now }
    ensures { Passes bank.now result (first_taken (names_of (env_of bank.now env.now)) (texts_of bank.now names.now)) }
{
    let mut seen = IndexSet::new(bank.allocator());
    for name in names {
        let _text = bank.text(*name);
        if note(env, &mut seen, *name)? {
            return Err(EnvFault::NameTaken(*name));
        }
    }
    Ok(())
}

/// Refuses the first of the names that a family declares which is declared already or stands twice: its own,
/// its constructors', its eliminators'. The bank may grow by names.
pub fn refuse_taken_names(bank: &mut Bank<'_>, env: &Env, family: &Family) -> Result<(), EnvFault>
    requires env { IsEnv bank.old env.now }
    requires family { HasFamily bank.old family.now }
    ensures answer { Passes bank.new result (first_taken (names_of (env_of bank.old env.now)) (declared_names (family_of bank.old family.now))) }
    ensures nodes { bank.new.nodes ≡ bank.old.nodes }
    ensures grows { Grows bank.old bank.new }
{
    let eliminators = eliminator_names(bank, family.name)?;
    let names = declared_names(bank.allocator(), family, &eliminators)?;
    refuse_taken(bank, env, &names)
}

/// Refuses a family whose constructors do not pass the tests.
fn refuse_constructors(bank: &Bank<'_>, family: &Family) -> Result<(), EnvFault>
    requires { IsFamily bank.now family.now }
    ensures { Passes bank.now result (constructors_fault (family_of bank.now family.now) (family_of bank.now family.now).constructors) }
{
    match constructors_fault(bank, family)? {
        Some(fault) => Err(fault),
        None => Ok(()),
    }
}

/// The names of a family's eliminators, and what the family stores. Taken names are refused first, then
/// what the tests on the constructors refuse, then types beyond the limits.
fn prepare(
    bank: &mut Bank<'_>,
    env: &Env,
    family: &Family,
    sorts: &[Sort],
) -> Result<(Vec<(NameId, Sort)>, FamilyTypes), EnvFault>
    requires env { IsEnv bank.old env.now }
    requires family { IsFamily bank.old family.now }
    ensures ready { IfOk result (λ p. IsReady bank.new (env_of bank.old env.now) (family_of bank.old family.now) sorts.now p.0.items p.1) }
    ensures same { IfOk result (λ p. firsts p.1.constructors.items ≡ firsts family.now.constructors) }
    ensures refused { IfErr result (λ e. Refuses bank.new e (family_fault (env_of bank.old env.now) (family_of bank.old family.now) sorts.now)) }
    ensures grows { Grows bank.old bank.new }
{
    let eliminators = eliminator_names(bank, family.name)?;
    let names = declared_names(bank.allocator(), family, &eliminators)?;
    refuse_taken(bank, env, &names)?;
    refuse_constructors(bank, family)?;
    let types = make_types(bank, family, sorts)?;
    Ok((eliminators, types))
}

impl Env {
    /// Constructors behind the others, numbered from 0. After want of memory some may stand there.
    fn insert_constructors(
        &mut self,
        family: NameId,
        constructors: &[(NameId, TermId)],
    ) -> Result<(), NoMemory>
        requires free { AreFree self.old (firsts constructors.now) }
        requires few { length constructors.now < 4294967296 }
        ensures ok { OnOk result (self.new ≡ self.old ++ constructors_declared family 0 constructors.now) }
        ensures err { OnErr result (Extends self.old self.new) }
    {
        for (index, constructor) in constructors.iter().enumerate() {
            let declared = Declared {
                entry: Entry::Constructor {
                    family,
                    index: index as u32,
                },
                kind: Some(constructor.1),
                made: None,
            };
            self.insert(constructor.0, declared)?;
        }
        Ok(())
    }

    /// Eliminators behind the others. After want of memory some may stand there.
    fn insert_eliminators(
        &mut self,
        family: NameId,
        eliminators: &[(NameId, Sort)],
    ) -> Result<(), NoMemory>
        requires { AreFree self.old (firsts eliminators.now) }
        ensures ok { OnOk result (self.new ≡ self.old ++ eliminators_declared family eliminators.now) }
        ensures err { OnErr result (Extends self.old self.new) }
    {
        for eliminator in eliminators {
            let declared = Declared {
                entry: Entry::Eliminator {
                    family,
                    sort: eliminator.1,
                },
                kind: None,
                made: None,
            };
            self.insert(eliminator.0, declared)?;
        }
        Ok(())
    }

    /// A family behind the others, with its constructors and eliminators. After want of memory some may
    /// stand there.
    fn insert_family(
        &mut self,
        family: Family,
        sorts: Sorts,
        types: FamilyTypes,
        eliminators: &[(NameId, Sort)],
    ) -> Result<(), NoMemory>
        requires free { AreFree self.old (family.name ∷ firsts types.constructors.items ++ firsts eliminators.now) }
        requires few { length types.constructors.items < 4294967296 }
        ensures ok { OnOk result (self.new ≡ self.old ++ family_declared family sorts types eliminators.now) }
        ensures err { OnErr result (Extends self.old self.new) }
    {
        let FamilyTypes {
            kind,
            constructors,
            made,
        } = types;
        let name = family.name;
        let declared = Declared {
            entry: Entry::Family(family, sorts),
            kind: Some(kind),
            made: Some(made),
        };
        self.insert(name, declared)?;
        self.insert_constructors(name, &constructors)?;
        self.insert_eliminators(name, eliminators)
    }

    /// Appends a family, its constructors and its eliminators, those into `sorts` permitted. Refused are,
    /// in this order: the first taken name of the family, its constructors and its eliminators; what the
    /// tests on the constructors refuse, per constructor its arguments from left to right and then its
    /// result; and the first stored type that is beyond the limits, of the family's, the constructors'
    /// whole types and the permitted eliminators'. After a refusal the environment is as before; the
    /// bank may have grown.
    pub fn add_inductive(
        &mut self,
        bank: &mut Bank<'_>,
        family: Family,
        sorts: &[Sort],
    ) -> Result<(), EnvFault>
        requires env { IsEnv bank.old self.old }
        requires family { IsFamily bank.old family }
        requires sorts { AllByRecursion IsSort sorts.now }
        ensures answer { Adds bank.new result self.new (add_inductive (env_of bank.old self.old) (family_of bank.old family) sorts.now) }
        ensures extends { OnOk result (Extends self.old self.new) }
        ensures kept { OnErr result (self.new ≡ self.old) }
        ensures grows { Grows bank.old bank.new }
    {
        let (eliminators, types) = prepare(bank, self, &family, sorts)?;
        let sorts = Sorts::from_slice(bank.allocator(), sorts)?;
        let mark = self.mark();
        if self
            .insert_family(family, sorts, types, &eliminators)
            .is_err()
        {
            self.undo(mark);
            return Err(EnvFault::NoMemory);
        }
        Ok(())
    }
}
