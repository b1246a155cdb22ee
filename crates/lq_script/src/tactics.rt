//! Tactics on a proof.

ghost use Rattle.std.specs.Prelude.{◌≡◌, ◌≤◌, length, [], map, false, IfOk, IfSome};
ghost use Rattle.lq_trees.specs.Fresh.{is_listed};
ghost use Rattle.lq_trees.specs.Tree.{Tree};
ghost use Rattle.lq_terms.specs.Terms.{HasName, HasTerm, HasParts, IsTerm, text_of, tree_of, node_tree, Grows};
ghost use Rattle.lq_terms.specs.Contexts.{context_of, HasContext};
ghost use Rattle.lq_env.specs.Environments.{IsEnv, env_of};
ghost use Rattle.lq_output.specs.Steps.{binder_of, goal, introduced, known_as, exactly, after_tactic, after_tactics};
ghost use Rattle.lq_script.specs.Syntax.{plain_tactic};
ghost use Rattle.lq_script.specs.Introduced.{Introduced, names_of, abstraction};
ghost use Rattle.lq_script.specs.Proofs.{proof_of, HasProof, IsStatement, Reaches, Proves, Knows};

use crate::fault::SentenceFault;
use crate::statement::constant_type;
use crate::syntax::Tactic;
use lq_env::Env;
use lq_terms::{Bank, Context, Hypothesis, NameId, NoMemory, Node, TermId, open, same};

/// A proof: one goal, with its context and its conclusion, or no goal and the finished term.
#[derive(Drop)]
pub(crate) enum Proof {
    /// The goal that is open.
    Goal(Context, TermId),
    /// The term that proves the statement.
    Finished(TermId),
}

/// The place of a hypothesis in a context.
fn position(bank: &Bank<'_>, hypotheses: &[Hypothesis], name: NameId) -> Option<usize>
    requires hypotheses { HasContext bank.now hypotheses.now }
    requires name { HasName bank.now name }
    ensures { result ≡ binder_of (names_of (context_of bank.now hypotheses.now)) (text_of bank.now name) }
{
    for (index, hypothesis) in hypotheses.iter().enumerate() {
        if bank.same_name(hypothesis.name, name) {
            return Some(index);
        }
    }
    None
}

/// The goal with a new hypothesis, under the binder of a product.
fn introduce(
    bank: &mut Bank<'_>,
    mut context: Context,
    name: NameId,
    kind: TermId,
    rest: TermId,
) -> Result<Proof, SentenceFault>
    requires context { HasContext bank.old context }
    requires name { HasName bank.old name }
    requires kind { HasTerm bank.old kind }
    requires rest { HasTerm bank.old rest }
    requires new { is_listed (names_of (context_of bank.old context)) (text_of bank.old name) ≡ false }
    ensures answer { Proves bank.new result
        (introduced (text_of bank.old name) (context_of bank.old context) (Tree.Prod [] (tree_of bank.old kind) (tree_of bank.old rest))) }
    ensures grows { Grows bank.old bank.new }
{
    let conclusion = open(bank, rest, name)?;
    context.push(Hypothesis {
        name,
        body: None,
        kind,
    })?;
    Ok(Proof::Goal(context, conclusion))
}

/// `intro`: the conclusion is a product, and the name is no hypothesis yet.
fn intro(
    bank: &mut Bank<'_>,
    context: Context,
    conclusion: TermId,
    text: &str,
) -> Result<Proof, SentenceFault>
    requires context { HasContext bank.old context }
    requires conclusion { HasTerm bank.old conclusion }
    ensures answer { Proves bank.new result (introduced text.now (context_of bank.old context) (tree_of bank.old conclusion)) }
    ensures grows { Grows bank.old bank.new }
{
    let Node::Prod(_, kind, rest) = bank.node(conclusion) else {
        return Err(SentenceFault::NotBuilt);
    };
    let (kind, rest) = (*kind, *rest);
    let name = bank.name(text)?;
    if position(bank, context.hypotheses(), name).is_some() {
        return Err(SentenceFault::NotBuilt);
    }
    introduce(bank, context, name, kind, rest)
}

/// What a name is known as in a goal: a hypothesis, else a constant. The node stands for it under
/// the abstractions over the context.
fn known(
    bank: &Bank<'_>,
    env: &Env,
    hypotheses: &[Hypothesis],
    name: NameId,
) -> Option<(Node, TermId)>
    requires env { IsEnv bank.now env.now }
    requires hypotheses { HasContext bank.now hypotheses.now }
    requires few { length hypotheses.now ≤ 200 }
    requires name { HasName bank.now name }
    ensures { Knows bank.now (context_of bank.now hypotheses.now) result
        (known_as (env_of bank.now env.now) (context_of bank.now hypotheses.now) (text_of bank.now name)) }
{
    if let Some(index) = position(bank, hypotheses, name) {
        let number = (hypotheses.len() - 1 - index) as u32;
        return Some((Node::Rel(number), hypotheses[index].kind));
    }
    match constant_type(bank, env, name) {
        Some(kind) => Some((Node::Const(name), kind)),
        None => None,
    }
}

/// A statement's leading products as abstractions with the hypotheses' names, round a term.
/// It calls itself once for each hypothesis.
fn abstraction(
    bank: &mut Bank<'_>,
    statement: TermId,
    hypotheses: &[Hypothesis],
    term: TermId,
) -> Result<TermId, NoMemory>
    requires statement { HasTerm bank.old statement }
    requires hypotheses { HasContext bank.old hypotheses.now }
    requires term { HasTerm bank.old term }
    ensures answer { IfOk result
        (λ t. IsTerm bank.new t (abstraction (names_of (context_of bank.old hypotheses.now)) (tree_of bank.old statement) (tree_of bank.old term))) }
    ensures grows { Grows bank.old bank.new }
{
    let Some((first, others)) = hypotheses.split_first() else {
        return Ok(term);
    };
    let Node::Prod(_, kind, rest) = bank.node(statement) else {
        return Ok(term);
    };
    let (kind, rest) = (*kind, *rest);
    let body = abstraction(bank, rest, others, term)?;
    let whole = bank.make(Node::Lam(first.name, kind, body))?;
    Ok(whole)
}

/// The finished term, whose leaf is that node.
fn finished(
    bank: &mut Bank<'_>,
    statement: TermId,
    hypotheses: &[Hypothesis],
    leaf: Node,
) -> Result<TermId, NoMemory>
    requires statement { HasTerm bank.old statement }
    requires hypotheses { HasContext bank.old hypotheses.now }
    requires leaf { HasParts bank.old leaf }
    ensures answer { IfOk result
        (λ t. IsTerm bank.new t (abstraction (names_of (context_of bank.old hypotheses.now)) (tree_of bank.old statement) (node_tree bank.old leaf))) }
    ensures grows { Grows bank.old bank.new }
{
    let leaf = bank.make(leaf)?;
    let term = abstraction(bank, statement, hypotheses, leaf)?;
    Ok(term)
}

/// `exact`: the type of what the name stands for is the conclusion, but for binders' names.
fn exact(
    bank: &mut Bank<'_>,
    env: &Env,
    statement: TermId,
    hypotheses: &[Hypothesis],
    conclusion: TermId,
    text: &str,
) -> Result<Proof, SentenceFault>
    requires env { IsEnv bank.old env.now }
    requires statement { IsStatement bank.old statement }
    requires hypotheses { HasContext bank.old hypotheses.now }
    requires conclusion { HasTerm bank.old conclusion }
    requires reaches { Introduced (tree_of bank.old statement) (context_of bank.old hypotheses.now) (tree_of bank.old conclusion) }
    ensures answer { Proves bank.new result
        (exactly (context_of bank.old hypotheses.now) (tree_of bank.old conclusion)
        (known_as (env_of bank.old env.now) (context_of bank.old hypotheses.now) text.now)) }
    ensures grows { Grows bank.old bank.new }
{
    let name = bank.name(text)?;
    let Some((leaf, kind)) = known(bank, env, hypotheses, name) else {
        return Err(SentenceFault::NotBuilt);
    };
    if !same(bank, kind, conclusion) {
        return Err(SentenceFault::Differs(kind, conclusion));
    }
    let term = finished(bank, statement, hypotheses, leaf)?;
    Ok(Proof::Finished(term))
}

/// One tactic on a proof of a statement. Where no goal is left it does nothing.
#[tactic(auto, unfolding(lq_output::specs::Steps::after_tactic))]
fn run_tactic(
    bank: &mut Bank<'_>,
    env: &Env,
    statement: TermId,
    proof: Proof,
    tactic: &Tactic,
) -> Result<Proof, SentenceFault>
    requires env { IsEnv bank.old env.now }
    requires statement { IsStatement bank.old statement }
    requires proof { HasProof bank.old proof }
    requires reaches { Reaches (tree_of bank.old statement) (proof_of bank.old proof) }
    ensures answer { Proves bank.new result (after_tactic (env_of bank.old env.now) (proof_of bank.old proof) (plain_tactic tactic.now)) }
    ensures grows { Grows bank.old bank.new }
{
    match proof {
        Proof::Finished(term) => Ok(Proof::Finished(term)),
        Proof::Goal(context, conclusion) => match tactic {
            Tactic::Intro(text) => intro(bank, context, conclusion, text.as_str()),
            Tactic::Exact(text) => {
                let hypotheses = context.hypotheses();
                exact(bank, env, statement, hypotheses, conclusion, text.as_str())
            }
        },
    }
}

/// Tactics on a statement, one after the other; the first fault ends them.
pub(crate) fn run_tactics(
    bank: &mut Bank<'_>,
    env: &Env,
    statement: TermId,
    tactics: &[Tactic],
) -> Result<Proof, SentenceFault>
    requires env { IsEnv bank.old env.now }
    requires statement { IsStatement bank.old statement }
    ensures answer { Proves bank.new result (after_tactics (env_of bank.old env.now) (goal [] (tree_of bank.old statement)) (map plain_tactic tactics.now)) }
    ensures reaches { IfOk result (λ p. Reaches (tree_of bank.new statement) (proof_of bank.new p)) }
    ensures grows { Grows bank.old bank.new }
{
    let mut proof = Proof::Goal(Context::new(bank.allocator()), statement);
    for tactic in tactics {
        proof = match run_tactic(bank, env, statement, proof, tactic) {
            Ok(next) => next,
            Err(fault) => return Err(fault),
        };
    }
    Ok(proof)
}
