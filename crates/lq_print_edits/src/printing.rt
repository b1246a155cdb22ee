//! Terms, proofs, faults and the lines of `Check` and `Print` as text.

ghost use Rattle.std.specs.Prelude.{◌≡◌, [], map, false, IfOk};
ghost use Rattle.std.specs.List.{AllByRecursion};
ghost use Rattle.lq_trees.specs.Tree.{Tree};
ghost use Rattle.lq_trees.specs.Same.{Same};
ghost use Rattle.lq_trees.specs.Index.{Within};
ghost use Rattle.lq_trees.specs.Hypotheses.{HoldsOnly};
ghost use Rattle.lq_trees.specs.Fresh.{is_listed};
ghost use Rattle.lq_terms.specs.Terms.{HasName, HasTerm, text_of, tree_of};
ghost use Rattle.lq_terms.specs.Contexts.{context_of};
ghost use Rattle.lq_env.specs.Environments.{IsEnv, env_of};
ghost use Rattle.lq_ast.specs.Commands.{stated, command, check};
ghost use Rattle.lq_texts.specs.Printing.{term_text, surface};
ghost use Rattle.lq_texts.specs.Faults.{fault_text};
ghost use Rattle.lq_texts.specs.Views.{check_text, print_text, proof_text};
ghost use Rattle.lq_texts.specs.ReadBack.{IsPlain, IsDeclared, ReadsTo, check_sentence, globals};
ghost use Rattle.lq_texts.specs.Elaborated.{Elaborates};
ghost use Rattle.lq_print.specs.Causes.{cause_of, HasCause};
ghost use Rattle.lq_print.specs.Entries.{Prints};
ghost use Rattle.lq_print.specs.Goals.{view_of, HasGoal};

use lq_ast::Text;
use lq_env::Env;
use lq_goals::ProofView;
use lq_print::{
    PrintFault, ScriptCause, check_text, fault_text, print_text, proof_text, written_text,
};
use lq_terms::{Bank, Context, NameId, NoMemory, TermId};

/// The text of a term as it stands in the bank.
pub fn written(
    bank: &Bank<'_>,
    env: &Env,
    context: &Context,
    term: TermId,
) -> Result<Text, NoMemory>
    requires env { IsEnv bank.now env.now }
    requires term { HasTerm bank.now term }
    ensures text { IfOk result (λ x. x ≡ term_text (env_of bank.now env.now) (tree_of bank.now term)) }
    ensures reads_back { IfOk result (λ _. IsPlain (env_of bank.now env.now) (tree_of bank.now term) → Within 0 (tree_of bank.now term)
        → ReadsTo (check_sentence (env_of bank.now env.now) (tree_of bank.now term))
        (stated 0 (command (check (surface (env_of bank.now env.now) [] (tree_of bank.now term)))))) }
    ensures elaborates_back { IfOk result (λ _. (u : Tree) → IsPlain (env_of bank.now env.now) (tree_of bank.now term) → Within 0 (tree_of bank.now term)
        → IsDeclared (env_of bank.now env.now) (tree_of bank.now term)
        → HoldsOnly (map (λ h. h.name) (context_of bank.now context.now)) (tree_of bank.now term)
        → AllByRecursion (λ h. is_listed (globals (env_of bank.now env.now) (tree_of bank.now term)) h.name ≡ false) (context_of bank.now context.now)
        → Elaborates (env_of bank.now env.now) (context_of bank.now context.now) (surface (env_of bank.now env.now) [] (tree_of bank.now term)) u
        → Same u (tree_of bank.now term)) }
{
    written_text(bank, env, context, term)
}

/// The text of a proof.
pub fn shown(bank: &Bank<'_>, env: &Env, proof: &ProofView) -> Result<Text, NoMemory>
    requires env { IsEnv bank.now env.now }
    requires goals { AllByRecursion (HasGoal bank.now) proof.now.goals.items }
    ensures { IfOk result (λ x. x ≡ proof_text (env_of bank.now env.now) (view_of bank.now proof.now)) }
{
    proof_text(bank, env, proof)
}

/// The line of a term and its type.
pub fn checked(bank: &Bank<'_>, env: &Env, term: TermId, kind: TermId) -> Result<Text, NoMemory>
    requires env { IsEnv bank.now env.now }
    requires term { HasTerm bank.now term }
    requires kind { HasTerm bank.now kind }
    ensures { IfOk result (λ x. x ≡ check_text (env_of bank.now env.now) (tree_of bank.now term) (tree_of bank.now kind)) }
{
    check_text(bank, env, term, kind)
}

/// The line of a name.
pub fn listed(bank: &Bank<'_>, env: &Env, name: NameId) -> Result<Text, PrintFault>
    requires env { IsEnv bank.now env.now }
    requires name { HasName bank.now name }
    ensures { Prints bank.now result (print_text (env_of bank.now env.now) (text_of bank.now name)) }
{
    print_text(bank, env, name)
}

/// The text of a fault.
pub fn told(bank: &Bank<'_>, env: &Env, cause: &ScriptCause) -> Result<Text, NoMemory>
    requires env { IsEnv bank.now env.now }
    requires cause { HasCause bank.now cause.now.cause }
    ensures { IfOk result (λ x. x ≡ fault_text (env_of bank.now env.now) (cause_of bank.now cause.now.cause) cause.now.level) }
{
    fault_text(bank, env, cause)
}
