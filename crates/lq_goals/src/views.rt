//! Goals, whole proofs and the proof's term as they read.

ghost use Rattle.std.specs.Prelude.{◌≡◌, ◌<◌, ◌∷◌, ◌++◌, [], length, map, option_map, Some, IfOk, OnOk};
ghost use Rattle.std.specs.List.{AllByRecursion};
ghost use Rattle.lq_terms.specs.Terms.{HasTerm, Grows, tree_of};
ghost use Rattle.lq_calculus.specs.Declarations.{variables};
ghost use Rattle.lq_terms.specs.Contexts.{HasAllOf, context_of, hypothesis_of};
ghost use Rattle.lq_solving.specs.Stores.{read, read_hypothesis, read_context};
ghost use Rattle.lq_solving.specs.Kept.{IsStore};
ghost use Rattle.lq_evars.specs.Places.{HasStore, store_of};
ghost use Rattle.lq_states.specs.Views.{GoalView as TreeView, goal_view, goal_terms, context_terms, all_terms, first_unfit, views};
ghost use Rattle.lq_states.specs.Views.{proof_view, fitting_root};
ghost use Rattle.lq_states.specs.Kept.{IsListed};
ghost use Rattle.lq_goals.specs.Held.{proof_of};
ghost use Rattle.lq_goals.specs.Seen.{IsReadableOr, CanRead, ReadsAs, Shows, ShowsGoal, IsRoot, IsTree, IsBody, IsHypothesis, AreHypotheses, IsView};
ghost use Rattle.lq_goals.specs.Seen.{AreViews, IsProofView};
ghost use Rattle.lq_goals.specs.Seen.{body_terms, hypothesis_terms};

use crate::proof::Proof;
use lq_evars::{Store, StoreFault};
use lq_terms::{Bank, Context, Hypothesis, Instance, NameId, NoMemory, Node, TermId};

/// A goal as it reads.
#[derive(Drop)]
pub struct GoalView {
    /// The name of its variable, if that has one.
    pub name: Option<NameId>,
    /// Its hypotheses, the oldest first.
    pub context: Context,
    /// Its type.
    pub kind: TermId,
}

/// The goals in focus as they read, and how many are on the shelf.
#[derive(Drop)]
pub struct ProofView {
    /// The goals in focus.
    pub goals: Vec<GoalView>,
    /// How many goals are on the shelf.
    pub shelved: u32,
}

/// A hypothesis's body as it reads, if it has one.
fn read_body(
    bank: &mut Bank<'_>,
    store: &Store,
    body: Option<TermId>,
) -> Result<Option<TermId>, StoreFault>
    requires store { HasStore bank.old store.now }
    requires kept { IsStore (store_of bank.old store.now) }
    requires body { IsReadableOr bank.old store.now body }
    ensures told { ReadsAs (IsBody bank.new (option_map (read (store_of bank.old store.now)) (option_map (tree_of bank.old) body))) result
        (first_unfit (body_terms (option_map (read (store_of bank.old store.now)) (option_map (tree_of bank.old) body)))) }
    ensures grows { Grows bank.old bank.new }
{
    let Some(term) = body else {
        return Ok(None);
    };
    let read = store.read(bank, term)?;
    Ok(Some(read))
}

/// A hypothesis as it reads. Its body is read before its type.
fn read_hypothesis(
    bank: &mut Bank<'_>,
    store: &Store,
    hypothesis: Hypothesis,
) -> Result<Hypothesis, StoreFault>
    requires store { HasStore bank.old store.now }
    requires kept { IsStore (store_of bank.old store.now) }
    requires hypothesis { CanRead bank.old store.now hypothesis }
    ensures told { ReadsAs (IsHypothesis bank.new (read_hypothesis (store_of bank.old store.now) (hypothesis_of bank.old hypothesis))) result
        (first_unfit (hypothesis_terms (read_hypothesis (store_of bank.old store.now) (hypothesis_of bank.old hypothesis)))) }
    ensures grows { Grows bank.old bank.new }
{
    let body = read_body(bank, store, hypothesis.body)?;
    let kind = store.read(bank, hypothesis.kind)?;
    Ok(Hypothesis {
        name: hypothesis.name,
        body,
        kind,
    })
}

/// Hypotheses as they read.
fn read_context(
    bank: &mut Bank<'_>,
    store: &Store,
    context: &[Hypothesis],
) -> Result<Context, StoreFault>
    requires store { HasStore bank.old store.now }
    requires kept { IsStore (store_of bank.old store.now) }
    requires context { AllByRecursion (CanRead bank.old store.now) context.now }
    ensures told { ReadsAs (AreHypotheses bank.new (read_context (store_of bank.old store.now) (context_of bank.old context.now))) result
        (first_unfit (context_terms (read_context (store_of bank.old store.now) (context_of bank.old context.now)))) }
    ensures grows { Grows bank.old bank.new }
{
    let mut read = Context::new(bank.allocator());
    for hypothesis in context {
        let next = read_hypothesis(bank, store, *hypothesis)?;
        read.push(next)?;
    }
    Ok(read)
}

/// A goal of a store as it reads.
fn read_goal(bank: &mut Bank<'_>, store: &Store, goal: u32) -> Result<GoalView, StoreFault>
    requires store { HasStore bank.old store.now }
    requires kept { IsStore (store_of bank.old store.now) }
    requires goal { goal < length store.now.variables }
    ensures told { (g : TreeView) → goal_view (store_of bank.old store.now) goal ≡ Some g
        → ReadsAs (IsView bank.new g) result (first_unfit (goal_terms g)) }
    ensures grows { Grows bank.old bank.new }
{
    let context = read_context(bank, store, store.context(goal).hypotheses())?;
    let kind = store.read(bank, store.kind(goal))?;
    Ok(GoalView {
        name: store.name(goal),
        context,
        kind,
    })
}

/// One goal more behind others.
fn add(views: &mut Vec<GoalView>, view: GoalView) -> Result<(), NoMemory>
    ensures { OnOk result (views.new.items ≡ views.old.items ++ view ∷ []) }
{
    views.push(view)?;
    Ok(())
}

/// Goals of a store as they read.
fn read_goals(
    bank: &mut Bank<'_>,
    store: &Store,
    goals: &[u32],
) -> Result<Vec<GoalView>, StoreFault>
    requires store { HasStore bank.old store.now }
    requires kept { IsStore (store_of bank.old store.now) }
    requires goals { AllByRecursion (λ goal. goal < length store.now.variables) goals.now }
    ensures told { ReadsAs (λ v. AreViews bank.new (views (store_of bank.old store.now) goals.now) v.items) result
        (first_unfit (all_terms (views (store_of bank.old store.now) goals.now))) }
    ensures grows { Grows bank.old bank.new }
{
    let mut read = Vec::new(bank.allocator());
    for goal in goals {
        let next = read_goal(bank, store, *goal)?;
        add(&mut read, next)?;
    }
    Ok(read)
}

/// Each hypothesis of a context for itself.
fn own_instance(bank: &mut Bank<'_>, context: &[Hypothesis]) -> Result<Instance, NoMemory>
    requires { AllByRecursion (HasAllOf bank.old) context.now }
    ensures has { IfOk result (AllByRecursion (HasTerm bank.new)) }
    ensures own { IfOk result (λ ts. map (tree_of bank.new) ts ≡ variables (context_of bank.old context.now)) }
    ensures grows { Grows bank.old bank.new }
{
    let mut entries = Instance::new(bank.allocator());
    for hypothesis in context {
        let entry = bank.make(Node::Var(hypothesis.name))?;
        entries.push(entry)?;
    }
    Ok(entries)
}

/// The variable of number 0 with each hypothesis of its context for itself.
fn root_variable(bank: &mut Bank<'_>, store: &Store) -> Result<TermId, NoMemory>
    requires store { HasStore bank.old store.now }
    requires rooted { 0 < length store.now.variables }
    ensures is { IfOk result (IsRoot bank.new store.now) }
    ensures grows { Grows bank.old bank.new }
{
    let entries = own_instance(bank, store.context(0).hypotheses())?;
    bank.make(Node::Evar(0, entries))
}

impl Proof {
    /// A goal of the store as it reads. It is refused as too large or too deep where a term of it as it reads passes a limit: the
    /// first one counts, each hypothesis before the next, its body before its type, the goal's type last.
    pub fn goal_view(&self, bank: &mut Bank<'_>, goal: u32) -> Result<GoalView, StoreFault>
        requires store { HasStore bank.old self.now.store }
        requires kept { IsStore (store_of bank.old self.now.store) }
        requires goal { goal < length self.now.store.variables }
        ensures told { ShowsGoal bank.new result (goal_view (store_of bank.old self.now.store) goal) }
        ensures grows { Grows bank.old bank.new }
    {
        read_goal(bank, self.store(), goal)
    }

    /// The goals in focus as they read, and how many are on the shelf. It is refused as `goal_view` is, for the first goal first.
    pub fn view(&self, bank: &mut Bank<'_>) -> Result<ProofView, StoreFault>
        requires store { HasStore bank.old self.now.store }
        requires kept { IsStore (store_of bank.old self.now.store) }
        requires listed { IsListed (proof_of bank.old self.now) }
        ensures told { Shows (IsProofView bank.new) result (proof_view (proof_of bank.old self.now)) }
        ensures grows { Grows bank.old bank.new }
    {
        let _count = self.store().count();
        let goals = read_goals(bank, self.store(), self.focused())?;
        Ok(ProofView {
            goals,
            shelved: self.shelf_count() as u32,
        })
    }

    /// The whole term as it reads: the value of variable 0, or that variable where it has none. It is refused as too large or too
    /// deep where the term passes that limit.
    pub fn root(&self, bank: &mut Bank<'_>) -> Result<TermId, StoreFault>
        requires store { HasStore bank.old self.now.store }
        requires kept { IsStore (store_of bank.old self.now.store) }
        requires rooted { 0 < length self.now.store.variables }
        ensures told { Shows (IsTree bank.new) result (fitting_root (proof_of bank.old self.now)) }
        ensures grows { Grows bank.old bank.new }
    {
        let whole = root_variable(bank, self.store())?;
        self.store().read(bank, whole)
    }
}
