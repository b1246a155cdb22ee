//! Trees of expressions, put together from what is read.

ghost use Rattle.std.specs.Prelude.{◌≡◌, ◌++◌, ◌∷◌, [], map, IfOk};
ghost use Rattle.lq_ast.specs.PlainTactics.{plain_tac, plain_step, plain_clause};
ghost use Rattle.lq_ast.specs.Tactics.{sequence};
ghost use Rattle.lq_parts.specs.Heads.{headed};
ghost use Rattle.lq_parts.specs.Views.{head_of};

use lq_ast::{Clause, Step, Tac};
use lq_parts::ClauseHead;
use sqlite_items::{Boxed, Items};
use std::alloc::{AllocError, Global};

/// An expression with all that stands behind it.
#[tactic(auto, using(lq_ast::proofs::TacticLaws::tactic_laws, crate::proofs::LevelLaws::sequence_none))]
pub fn sequence(alloc: Global, first: Tac, steps: Items<Step>) -> Result<Tac, AllocError>
    ensures { IfOk result (λ t. plain_tac t ≡ sequence (plain_tac first) (map plain_step steps)) }
{
    if steps.is_empty() {
        Ok(first)
    } else {
        Ok(Tac::Sequence(Boxed::new(alloc, first)?, steps))
    }
}

/// A clause of a match from what stands before its `=>` and its right side.
#[tactic(auto, using(lq_ast::proofs::TacticLaws::tactic_laws))]
fn headed(head: ClauseHead, whole: Tac) -> Clause
    ensures { plain_clause result ≡ headed (head_of head) (plain_tac whole) }
{
    match head {
        ClauseHead::Any => Clause::Any(whole),
        ClauseHead::Pat(pattern) => Clause::Pat(pattern, whole),
        ClauseHead::Sequent(hyps, pattern) => Clause::Sequent(hyps, pattern, whole),
    }
}

/// Puts a clause to those found so far.
#[tactic(auto, using(lq_phrases::proofs::Loops::map_more))]
fn push_clause(found: &mut Items<Clause>, whole: Clause) -> Result<(), AllocError>
    ensures { IfOk result (λ u. map plain_clause found.new ≡ map plain_clause found.old ++ plain_clause whole ∷ []) }
{
    found.push(whole)?;
    Ok(())
}

/// Puts to the clauses found so far one of that head and right side.
pub fn put_clause(found: &mut Items<Clause>, head: ClauseHead, whole: Tac) -> Result<(), AllocError>
    ensures { IfOk result (λ u. map plain_clause found.new ≡ map plain_clause found.old ++ headed (head_of head) (plain_tac whole) ∷ []) }
{
    push_clause(found, headed(head, whole))
}

/// Lets go what stands before the `=>` of a clause that is not read.
pub fn discard(head: ClauseHead) {
    match head {
        ClauseHead::Any => {}
        ClauseHead::Pat(pattern) => drop(pattern),
        ClauseHead::Sequent(hyps, pattern) => {
            drop(hyps);
            drop(pattern);
        }
    }
}
