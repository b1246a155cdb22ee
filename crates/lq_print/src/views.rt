//! Goals and proofs as text.

ghost use Rattle.std.specs.Prelude.{◌≡◌, ◌++◌, map, flat_map, option_map, decimal, codes, OnOk, IfOk};
ghost use Rattle.std.specs.List.{AllByRecursion};
ghost use Rattle.std.specs.String.{string_bytes};
ghost use Rattle.lq_terms.specs.Terms.{HasName, HasTerm, text_of, tree_of};
ghost use Rattle.lq_terms.specs.Contexts.{context_of, hypothesis_of};
ghost use Rattle.lq_env.specs.Environments.{IsEnv, env_of};
ghost use Rattle.lq_texts.specs.Views.{line, goals_text, entry_text, hypothesis_line, goal_name_text, goal_text, goal_texts};
ghost use Rattle.lq_texts.specs.Views.{shelf_text, proof_text, check_text};
ghost use Rattle.lq_print.specs.Goals.{goal_of, view_of, HasNameOr, HasTermOr, HasHypothesis, HasGoal};

use crate::printing::append_term;
use crate::steps::write;
use crate::writing::write_number;
use lq_ast::Text;
use lq_env::Env;
use lq_goals::{GoalView, ProofView};
use lq_terms::{Bank, Hypothesis, NameId, NoMemory, TermId};

/// Writes how many goals there are.
#[tactic(auto, unfolding(lq_texts::specs::Views::goals_text))]
fn write_goal_count(out: &mut String, count: u64) -> Result<(), NoMemory>
    ensures { OnOk result (string_bytes out.new ≡ string_bytes out.old ++ goals_text count) }
{
    match count {
        0 => write(out, "no goals"),
        1 => write(out, "1 goal"),
        _ => {
            write_number(out, count)?;
            write(out, " goals")
        }
    }
}

/// Writes a name, its type, and its body if it has one.
#[tactic(auto, unfolding(lq_texts::specs::Views::entry_text))]
pub(crate) fn write_entry(
    out: &mut String,
    bank: &Bank<'_>,
    env: &Env,
    name: NameId,
    kind: TermId,
    body: Option<TermId>,
) -> Result<(), NoMemory>
    requires env { IsEnv bank.now env.now }
    requires name { HasName bank.now name }
    requires kind { HasTerm bank.now kind }
    requires body { HasTermOr bank.now body }
    ensures { OnOk result (string_bytes out.new ≡ string_bytes out.old
        ++ entry_text (env_of bank.now env.now) (text_of bank.now name) (tree_of bank.now kind) (option_map (tree_of bank.now) body)) }
{
    write(out, bank.text(name))?;
    write(out, " : ")?;
    append_term(out, bank, env, kind)?;
    let Some(body) = body else {
        return Ok(());
    };
    write(out, " := ")?;
    append_term(out, bank, env, body)
}

/// Writes the line of a hypothesis.
fn write_hypothesis(
    out: &mut String,
    bank: &Bank<'_>,
    env: &Env,
    hypothesis: Hypothesis,
) -> Result<(), NoMemory>
    requires env { IsEnv bank.now env.now }
    requires hypothesis { HasHypothesis bank.now hypothesis }
    ensures { OnOk result (string_bytes out.new ≡ string_bytes out.old
        ++ hypothesis_line (env_of bank.now env.now) (hypothesis_of bank.now hypothesis)) }
{
    write(out, "  ")?;
    write_entry(
        out,
        bank,
        env,
        hypothesis.name,
        hypothesis.kind,
        hypothesis.body,
    )?;
    write(out, "\n")
}

/// Writes the lines of hypotheses.
fn write_hypotheses(
    out: &mut String,
    bank: &Bank<'_>,
    env: &Env,
    hypotheses: &[Hypothesis],
) -> Result<(), NoMemory>
    requires env { IsEnv bank.now env.now }
    requires hypotheses { AllByRecursion (HasHypothesis bank.now) hypotheses.now }
    ensures { OnOk result (string_bytes out.new ≡ string_bytes out.old
        ++ flat_map (hypothesis_line (env_of bank.now env.now)) (context_of bank.now hypotheses.now)) }
{
    for hypothesis in hypotheses {
        write_hypothesis(out, bank, env, *hypothesis)?;
    }
    Ok(())
}

/// Writes a goal's name in brackets, if it has one.
#[tactic(auto, unfolding(lq_texts::specs::Views::goal_name_text))]
fn write_goal_name(out: &mut String, bank: &Bank<'_>, name: Option<NameId>) -> Result<(), NoMemory>
    requires { HasNameOr bank.now name }
    ensures { OnOk result (string_bytes out.new ≡ string_bytes out.old ++ goal_name_text (option_map (text_of bank.now) name)) }
{
    let Some(name) = name else {
        return Ok(());
    };
    write(out, " (")?;
    write(out, bank.text(name))?;
    write(out, ")")
}

/// Writes the line of a goal's number, counted from 1, and its name.
fn write_goal_head(
    out: &mut String,
    bank: &Bank<'_>,
    number: u64,
    name: Option<NameId>,
) -> Result<(), NoMemory>
    requires { HasNameOr bank.now name }
    ensures { OnOk result (string_bytes out.new ≡ string_bytes out.old
        ++ line (codes "goal " ++ decimal number ++ goal_name_text (option_map (text_of bank.now) name))) }
{
    write(out, "goal ")?;
    write_number(out, number)?;
    write_goal_name(out, bank, name)?;
    write(out, "\n")
}

/// Writes a goal with its number, counted from 1.
#[tactic(auto, unfolding(lq_texts::specs::Views::goal_text))]
fn write_goal(
    out: &mut String,
    bank: &Bank<'_>,
    env: &Env,
    number: u64,
    goal: &GoalView,
) -> Result<(), NoMemory>
    requires env { IsEnv bank.now env.now }
    requires goal { HasGoal bank.now goal.now }
    ensures { OnOk result (string_bytes out.new ≡ string_bytes out.old ++ goal_text (env_of bank.now env.now) number (goal_of bank.now goal.now)) }
{
    write_goal_head(out, bank, number, goal.name)?;
    write_hypotheses(out, bank, env, goal.context.hypotheses())?;
    write(out, "  ====\n  ")?;
    append_term(out, bank, env, goal.kind)?;
    write(out, "\n")
}

/// Writes goals, the first of which is number 1.
fn write_goals(
    out: &mut String,
    bank: &Bank<'_>,
    env: &Env,
    goals: &[GoalView],
) -> Result<(), NoMemory>
    requires env { IsEnv bank.now env.now }
    requires goals { AllByRecursion (HasGoal bank.now) goals.now }
    ensures { OnOk result (string_bytes out.new ≡ string_bytes out.old ++ goal_texts (env_of bank.now env.now) 1 (map (goal_of bank.now) goals.now)) }
{
    for place in 0..goals.len() {
        write_goal(out, bank, env, place as u64 + 1, &goals[place])?;
    }
    Ok(())
}

/// Writes how many goals are on the shelf, if there are any.
#[tactic(auto, unfolding(lq_texts::specs::Views::shelf_text))]
fn write_shelf(out: &mut String, shelved: u32) -> Result<(), NoMemory>
    ensures { OnOk result (string_bytes out.new ≡ string_bytes out.old ++ shelf_text shelved) }
{
    if shelved == 0 {
        return Ok(());
    }
    write(out, "shelved: ")?;
    write_number(out, u64::from(shelved))?;
    write(out, "\n")
}

/// Writes a proof.
#[tactic(auto, unfolding(lq_texts::specs::Views::proof_text))]
fn write_proof(
    out: &mut String,
    bank: &Bank<'_>,
    env: &Env,
    proof: &ProofView,
) -> Result<(), NoMemory>
    requires env { IsEnv bank.now env.now }
    requires goals { AllByRecursion (HasGoal bank.now) proof.now.goals.items }
    ensures { OnOk result (string_bytes out.new ≡ string_bytes out.old ++ proof_text (env_of bank.now env.now) (view_of bank.now proof.now)) }
{
    let goals = proof.goals.as_slice();
    write_goal_count(out, goals.len() as u64)?;
    write(out, "\n")?;
    write_goals(out, bank, env, goals)?;
    write_shelf(out, proof.shelved)
}

/// The text of a proof, as `Show` writes it: how many goals there are; of each goal its number and its name, its hypotheses from the
/// oldest on and its conclusion; how many goals are on the shelf, if there are any. All is read through the store already.
/// The only refusal is for want of memory.
pub fn proof_text(bank: &Bank<'_>, env: &Env, proof: &ProofView) -> Result<Text, NoMemory>
    requires env { IsEnv bank.now env.now }
    requires goals { AllByRecursion (HasGoal bank.now) proof.now.goals.items }
    ensures { IfOk result (λ x. x ≡ proof_text (env_of bank.now env.now) (view_of bank.now proof.now)) }
{
    let mut out = String::new(bank.allocator());
    write_proof(&mut out, bank, env, proof)?;
    Ok(Text::from_string(out))
}

/// Writes a term and its type, as `Check` writes them.
#[tactic(auto, unfolding(lq_texts::specs::Views::check_text))]
fn write_checked(
    out: &mut String,
    bank: &Bank<'_>,
    env: &Env,
    term: TermId,
    kind: TermId,
) -> Result<(), NoMemory>
    requires env { IsEnv bank.now env.now }
    requires term { HasTerm bank.now term }
    requires kind { HasTerm bank.now kind }
    ensures { OnOk result (string_bytes out.new ≡ string_bytes out.old
        ++ check_text (env_of bank.now env.now) (tree_of bank.now term) (tree_of bank.now kind)) }
{
    append_term(out, bank, env, term)?;
    write(out, " : ")?;
    append_term(out, bank, env, kind)?;
    write(out, "\n")
}

/// The line of a term and its type, as `Check` writes it. The only refusal is for want of memory.
pub fn check_text(bank: &Bank<'_>, env: &Env, term: TermId, kind: TermId) -> Result<Text, NoMemory>
    requires env { IsEnv bank.now env.now }
    requires term { HasTerm bank.now term }
    requires kind { HasTerm bank.now kind }
    ensures { IfOk result (λ x. x ≡ check_text (env_of bank.now env.now) (tree_of bank.now term) (tree_of bank.now kind)) }
{
    let mut out = String::new(bank.allocator());
    write_checked(&mut out, bank, env, term, kind)?;
    Ok(Text::from_string(out))
}
