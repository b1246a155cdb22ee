//! A session: a script's declarations so far, and where it stands.

ghost use Rattle.std.specs.Prelude.{◌≡◌, ◌≤◌, ℕ, [], map, true, is_some, IfOk, IfSome, OnErr, string_bytes};
ghost use Rattle.lq_terms.specs.Terms.{HasName, text_of, tree_of, Grows};
ghost use Rattle.lq_calculus.specs.Declarations.{lookup};
ghost use Rattle.lq_calculus.specs.Checking.{sort_of, declare_constant};
ghost use Rattle.lq_kernel.specs.Closed.{IsScoped};
ghost use Rattle.lq_env.specs.Environments.{IsEnv, env_of};
ghost use Rattle.lq_output.specs.Grammar as grammar;
ghost use Rattle.lq_output.specs.Nesting.{nesting, IsShallow};
ghost use Rattle.lq_output.specs.Sentences.{comes_to, with_tree, declared, doing, defined};
ghost use Rattle.lq_output.specs.Output.{start, kernel_budget};
ghost use Rattle.lq_output.specs.Steps.{resolved};
ghost use Rattle.lq_script.specs.Syntax.{plain_surface, plain_tactic, plain_sentence};
ghost use Rattle.lq_script.specs.Scopes.{IsMeant};
ghost use Rattle.lq_script.specs.Proofs.{IsStatement};
ghost use Rattle.lq_script.specs.Sessions.{place_of, begun_of, IsPlace, IsSession, state_of, Moves, Runs, HasSort, told_of};

use crate::fault::SentenceFault;
use crate::statement::resolve;
use crate::syntax::{Sentence, Surface, Tactic};
use crate::tactics::{Proof, run_tactics};
use lq_env::Env;
use lq_kernel::{Declaration, KernelFault, declare, sort_of};
use lq_terms::{Bank, Context, NameId, NoMemory, Steps, TermId, Ticks, Work};
use std::alloc::Global;
use std::sync::ledger::Ledger;

/// The kernel's budget for a sentence, in ticks.
const KERNEL_BUDGET: u64 = 1_000_000;

/// Where a script stands: between theorems, or inside one, behind its statement, its `Proof` or its tactics.
#[derive(Drop)]
pub(crate) enum Place {
    /// Between theorems.
    Outside,
    /// Behind `Theorem`.
    Stated(NameId, TermId),
    /// Behind `Proof`.
    Begun(NameId, TermId),
    /// Behind the tactics.
    Worked(NameId, TermId, Proof),
}

/// A refusal of the kernel as a refusal of a sentence.
fn told(fault: KernelFault) -> SentenceFault
    ensures { result ≡ told_of fault }
{
    match fault {
        KernelFault::Mismatch(found, wanted) => SentenceFault::Differs(found, wanted),
        KernelFault::NoMemory => SentenceFault::NoMemory,
        _ => SentenceFault::NotBuilt,
    }
}

/// Whether a statement has a sort.
fn find_sort<L: Ledger>(
    work: &mut Work<'_, '_>,
    env: &Env,
    statement: TermId,
    steps: &mut Steps<L>,
) -> Result<(), SentenceFault>
    requires env { IsEnv work.old.bank.now env.now }
    requires statement { IsStatement work.old.bank.now statement }
    requires budget { work.old.ticks.now.left ≡ kernel_budget }
    ensures answer { HasSort work.new.bank.now result
        (comes_to kernel_budget (λ n. sort_of (env_of work.old.bank.now env.now) n [] (tree_of work.old.bank.now statement))) }
    ensures same_bank { work.new.bank.ghost_name ≡ work.old.bank.ghost_name }
    ensures same_ticks { work.new.ticks.ghost_name ≡ work.old.ticks.ghost_name }
    ensures grows { Grows work.old.bank.now work.new.bank.now }
{
    let context = Context::new(work.bank.allocator());
    match sort_of(work, env, &context, statement, steps) {
        Ok(_) => Ok(()),
        Err(refusal) => Err(told(refusal)),
    }
}

/// Whether a statement has a sort, found with the kernel's budget. Where it has, the terms that were made
/// to find out are dropped.
fn check_sort<L: Ledger>(
    bank: &mut Bank<'_>,
    env: &Env,
    statement: TermId,
    steps: &mut Steps<L>,
) -> Result<(), SentenceFault>
    requires env { IsEnv bank.old env.now }
    requires statement { IsStatement bank.old statement }
    ensures answer { HasSort bank.new result (comes_to kernel_budget (λ n. sort_of (env_of bank.old env.now) n [] (tree_of bank.old statement))) }
    ensures grows { Grows bank.old bank.new }
{
    let mark = bank.mark();
    let mut ticks = Ticks::new(KERNEL_BUDGET);
    let mut work = Work {
        bank: &mut *bank,
        ticks: &mut ticks,
    };
    match find_sort(&mut work, env, statement, steps) {
        Ok(()) => {
            bank.undo(mark);
            Ok(())
        }
        Err(fault) => Err(fault),
    }
}

/// The statement that a written term stands for.
fn statement(bank: &mut Bank<'_>, env: &Env, surface: &Surface) -> Result<Option<TermId>, NoMemory>
    requires env { IsEnv bank.old env.now }
    requires shallow { nesting (plain_surface surface.now) ≤ 200 }
    ensures answer { IfOk result (λ o. IsMeant bank.new o (resolved (env_of bank.old env.now) [] (plain_surface surface.now))) }
    ensures statement { IfOk result (λ o. IfSome o (IsStatement bank.new)) }
    ensures grows { Grows bank.old bank.new }
{
    let mut binders = Vec::new(bank.allocator());
    let term = resolve(bank, env, &mut binders, surface)?;
    Ok(term)
}

/// `Theorem` for a name that is new: the names of the statement are known, and it has a sort.
fn state<L: Ledger>(
    bank: &mut Bank<'_>,
    env: &Env,
    name: NameId,
    surface: &Surface,
    steps: &mut Steps<L>,
) -> Result<Place, SentenceFault>
    requires env { IsEnv bank.old env.now }
    requires name { HasName bank.old name }
    requires shallow { nesting (plain_surface surface.now) ≤ 200 }
    ensures answer { Moves bank.new env.now result
        (with_tree kernel_budget (env_of bank.old env.now) (text_of bank.old name) (resolved (env_of bank.old env.now) [] (plain_surface surface.now))) }
    ensures grows { Grows bank.old bank.new }
{
    let Some(statement) = statement(bank, env, surface)? else {
        return Err(SentenceFault::NotBuilt);
    };
    match check_sort(bank, env, statement, steps) {
        Ok(()) => Ok(Place::Stated(name, statement)),
        Err(fault) => Err(fault),
    }
}

/// Whether a name is declared.
fn is_declared(bank: &Bank<'_>, env: &Env, name: NameId) -> bool
    requires env { IsEnv bank.now env.now }
    requires name { HasName bank.now name }
    ensures { result ≡ is_some (lookup (env_of bank.now env.now) (text_of bank.now name)) }
{
    let _text = bank.text(name);
    env.lookup(name).is_some()
}

/// `Theorem`, between theorems.
fn theorem<L: Ledger>(
    bank: &mut Bank<'_>,
    env: &Env,
    place: &Place,
    text: &str,
    surface: &Surface,
    steps: &mut Steps<L>,
) -> Result<Place, SentenceFault>
    requires env { IsEnv bank.old env.now }
    requires shallow { nesting (plain_surface surface.now) ≤ 200 }
    ensures answer { Moves bank.new env.now result
        (doing kernel_budget (env_of bank.old env.now) (place_of bank.old place.now) (grammar.theorem text.now (plain_surface surface.now))) }
    ensures grows { Grows bank.old bank.new }
{
    let Place::Outside = place else {
        return Err(SentenceFault::NotBuilt);
    };
    let name = bank.name(text)?;
    if is_declared(bank, env, name) {
        return Err(SentenceFault::NotBuilt);
    }
    state(bank, env, name, surface, steps)
}

/// `Proof`, behind a statement.
fn begun(place: &Place) -> Option<Place>
    ensures { result ≡ begun_of place.now }
{
    match place {
        Place::Stated(name, statement) => Some(Place::Begun(*name, *statement)),
        _ => None,
    }
}

/// Tactics, behind `Proof`.
fn work(
    bank: &mut Bank<'_>,
    env: &Env,
    place: &Place,
    tactics: &[Tactic],
) -> Result<Place, SentenceFault>
    requires env { IsEnv bank.old env.now }
    requires place { IsPlace bank.old place.now }
    ensures answer { Moves bank.new env.now result
        (doing kernel_budget (env_of bank.old env.now) (place_of bank.old place.now) (grammar.tactics (map plain_tactic tactics.now))) }
    ensures grows { Grows bank.old bank.new }
{
    let Place::Begun(name, statement) = place else {
        return Err(SentenceFault::NotBuilt);
    };
    let (name, statement) = (*name, *statement);
    match run_tactics(bank, env, statement, tactics) {
        Ok(proof) => Ok(Place::Worked(name, statement, proof)),
        Err(fault) => Err(fault),
    }
}

/// What is written for a theorem that is accepted.
#[tactic(auto, unfolding(lq_output::specs::Sentences::defined))]
fn report(bank: &Bank<'_>, name: NameId) -> Result<String, NoMemory>
    requires { HasName bank.now name }
    ensures { IfOk result (λ text. string_bytes text ≡ defined (text_of bank.now name)) }
{
    let alloc = bank.allocator();
    let text = format!(in alloc; "{} is defined\n", bank.text(name))?;
    Ok(text)
}

/// Declares a finished theorem as an opaque constant.
fn declare_theorem<L: Ledger>(
    work: &mut Work<'_, '_>,
    env: &mut Env,
    name: NameId,
    statement: TermId,
    term: TermId,
    steps: &mut Steps<L>,
) -> Result<String, SentenceFault>
    requires env { IsEnv work.old.bank.now env.old }
    requires name { HasName work.old.bank.now name }
    requires statement { IsStatement work.old.bank.now statement }
    requires term { IsScoped work.old.bank.now 0 term }
    requires budget { work.old.ticks.now.left ≡ kernel_budget }
    ensures answer { Runs string_bytes work.new.bank.now env.new Place.Outside result
        (declared (text_of work.old.bank.now name)
        (comes_to kernel_budget
        (λ n. declare_constant (env_of work.old.bank.now env.old) n (text_of work.old.bank.now name) (tree_of work.old.bank.now statement)
        (tree_of work.old.bank.now term) true))) }
    ensures kept { OnErr result (env.new ≡ env.old) }
    ensures declared { IsEnv work.new.bank.now env.new }
    ensures same_bank { work.new.bank.ghost_name ≡ work.old.bank.ghost_name }
    ensures same_ticks { work.new.ticks.ghost_name ≡ work.old.ticks.ghost_name }
    ensures grows { Grows work.old.bank.now work.new.bank.now }
{
    let text = report(work.bank, name)?;
    let declaration = Declaration::Constant {
        name,
        kind: statement,
        body: term,
        opaque: true,
    };
    match declare(work, env, declaration, steps) {
        Ok(()) => Ok(text),
        Err(fault) => Err(told(fault)),
    }
}

/// Declares a finished theorem with the kernel's budget.
fn define<L: Ledger>(
    bank: &mut Bank<'_>,
    env: &mut Env,
    name: NameId,
    statement: TermId,
    term: TermId,
    steps: &mut Steps<L>,
) -> Result<String, SentenceFault>
    requires env { IsEnv bank.old env.old }
    requires name { HasName bank.old name }
    requires statement { IsStatement bank.old statement }
    requires term { IsScoped bank.old 0 term }
    ensures answer { Runs string_bytes bank.new env.new Place.Outside result
        (declared (text_of bank.old name)
        (comes_to kernel_budget
        (λ n. declare_constant (env_of bank.old env.old) n (text_of bank.old name) (tree_of bank.old statement) (tree_of bank.old term) true))) }
    ensures kept { OnErr result (env.new ≡ env.old) }
    ensures declared { IsEnv bank.new env.new }
    ensures grows { Grows bank.old bank.new }
{
    let mut ticks = Ticks::new(KERNEL_BUDGET);
    let mut work = Work {
        bank,
        ticks: &mut ticks,
    };
    declare_theorem(&mut work, env, name, statement, term, steps)
}

/// `Qed`, behind the tactics.
fn finish<L: Ledger>(
    bank: &mut Bank<'_>,
    env: &mut Env,
    place: &Place,
    steps: &mut Steps<L>,
) -> Result<String, SentenceFault>
    requires env { IsEnv bank.old env.old }
    requires place { IsPlace bank.old place.now }
    ensures answer { Runs string_bytes bank.new env.new Place.Outside result
        (doing kernel_budget (env_of bank.old env.old) (place_of bank.old place.now) grammar.qed) }
    ensures kept { OnErr result (env.new ≡ env.old) }
    ensures declared { IsEnv bank.new env.new }
    ensures grows { Grows bank.old bank.new }
{
    let Place::Worked(name, statement, proof) = place else {
        return Err(SentenceFault::NotBuilt);
    };
    let Proof::Finished(term) = proof else {
        return Err(SentenceFault::OpenGoals(1));
    };
    let (name, statement, term) = (*name, *statement, *term);
    define(bank, env, name, statement, term, steps)
}

/// A script's names and terms, its declarations so far, and where it stands.
#[derive(Drop)]
pub(crate) struct Session<'b> {
    /// The names and terms.
    pub(crate) bank: Bank<'b>,
    /// The declarations.
    pub(crate) env: Env,
    /// Where the script stands.
    pub(crate) place: Place,
}

impl<'b> Session<'b> {
    /// A session with no declarations, and no theorem begun.
    pub(crate) fn new(alloc: Global) -> Result<Session<'b>, NoMemory>
        ensures starts { IfOk result (λ s. state_of s.bank s.env s.place ≡ start) }
        ensures session { IfOk result (λ s. IsSession s.bank s.env s.place) }
    {
        let bank = Bank::new(alloc)?;
        Ok(Session {
            bank,
            env: Env::new(alloc)?,
            place: Place::Outside,
        })
    }

    /// `Theorem`.
    fn run_theorem<L: Ledger>(
        &mut self,
        text: &str,
        surface: &Surface,
        steps: &mut Steps<L>,
    ) -> Result<String, SentenceFault>
        requires session { IsSession self.old.bank self.old.env self.old.place }
        requires shallow { nesting (plain_surface surface.now) ≤ 200 }
        ensures answer { Runs string_bytes self.new.bank self.new.env self.new.place result
            (doing kernel_budget (env_of self.old.bank self.old.env) (place_of self.old.bank self.old.place)
            (grammar.theorem text.now (plain_surface surface.now))) }
        ensures keeps { IsSession self.new.bank self.new.env self.new.place }
        ensures kept { OnErr result ((self.new.env ≡ self.old.env) × (self.new.place ≡ self.old.place)) }
        ensures grows { Grows self.old.bank self.new.bank }
    {
        match theorem(&mut self.bank, &self.env, &self.place, text, surface, steps) {
            Ok(place) => {
                self.place = place;
                Ok(String::new(self.bank.allocator()))
            }
            Err(fault) => Err(fault),
        }
    }

    /// `Proof`.
    fn run_proof(&mut self) -> Result<String, SentenceFault>
        requires session { IsSession self.old.bank self.old.env self.old.place }
        ensures answer { Runs string_bytes self.new.bank self.new.env self.new.place result
            (doing kernel_budget (env_of self.old.bank self.old.env) (place_of self.old.bank self.old.place) grammar.proof) }
        ensures keeps { IsSession self.new.bank self.new.env self.new.place }
        ensures kept { OnErr result ((self.new.env ≡ self.old.env) × (self.new.place ≡ self.old.place)) }
        ensures grows { Grows self.old.bank self.new.bank }
    {
        match begun(&self.place) {
            Some(place) => {
                self.place = place;
                Ok(String::new(self.bank.allocator()))
            }
            None => Err(SentenceFault::NotBuilt),
        }
    }

    /// Tactics.
    fn run_tactics(&mut self, tactics: &[Tactic]) -> Result<String, SentenceFault>
        requires session { IsSession self.old.bank self.old.env self.old.place }
        ensures answer { Runs string_bytes self.new.bank self.new.env self.new.place result
            (doing kernel_budget (env_of self.old.bank self.old.env) (place_of self.old.bank self.old.place) (grammar.tactics (map plain_tactic tactics.now))) }
        ensures keeps { IsSession self.new.bank self.new.env self.new.place }
        ensures kept { OnErr result ((self.new.env ≡ self.old.env) × (self.new.place ≡ self.old.place)) }
        ensures grows { Grows self.old.bank self.new.bank }
    {
        match work(&mut self.bank, &self.env, &self.place, tactics) {
            Ok(place) => {
                self.place = place;
                Ok(String::new(self.bank.allocator()))
            }
            Err(fault) => Err(fault),
        }
    }

    /// `Qed`.
    fn run_qed<L: Ledger>(&mut self, steps: &mut Steps<L>) -> Result<String, SentenceFault>
        requires session { IsSession self.old.bank self.old.env self.old.place }
        ensures answer { Runs string_bytes self.new.bank self.new.env self.new.place result
            (doing kernel_budget (env_of self.old.bank self.old.env) (place_of self.old.bank self.old.place) grammar.qed) }
        ensures keeps { IsSession self.new.bank self.new.env self.new.place }
        ensures kept { OnErr result ((self.new.env ≡ self.old.env) × (self.new.place ≡ self.old.place)) }
        ensures grows { Grows self.old.bank self.new.bank }
    {
        match finish(&mut self.bank, &mut self.env, &self.place, steps) {
            Ok(text) => {
                self.place = Place::Outside;
                Ok(text)
            }
            Err(fault) => Err(fault),
        }
    }

    /// Runs a sentence, and gives the text that it writes. After a refusal the declarations and the
    /// place are as before.
    ///
    /// # Errors
    ///
    /// The sentence's fault.
    pub(crate) fn run<L: Ledger>(
        &mut self,
        sentence: &Sentence,
        steps: &mut Steps<L>,
    ) -> Result<String, SentenceFault>
        requires session { IsSession self.old.bank self.old.env self.old.place }
        requires shallow { IsShallow (plain_sentence sentence.now) }
        ensures answer { Runs string_bytes self.new.bank self.new.env self.new.place result
            (doing kernel_budget (env_of self.old.bank self.old.env) (place_of self.old.bank self.old.place) (plain_sentence sentence.now)) }
        ensures keeps { IsSession self.new.bank self.new.env self.new.place }
        ensures kept { OnErr result ((self.new.env ≡ self.old.env) × (self.new.place ≡ self.old.place)) }
        ensures grows { Grows self.old.bank self.new.bank }
    {
        match sentence {
            Sentence::Theorem(text, surface) => self.run_theorem(text.as_str(), surface, steps),
            Sentence::Proof => self.run_proof(),
            Sentence::Tactics(tactics) => self.run_tactics(tactics.as_slice()),
            Sentence::Qed => self.run_qed(steps),
        }
    }
}
