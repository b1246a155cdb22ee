//! Whether a sentence is built.

ghost use Rattle.std.specs.Prelude.{◌≡◌};
ghost use Rattle.lq_ast.specs.PlainCommands.{plain_vernac, plain_statement, plain_sentence};
ghost use Rattle.lq_sessions.specs.Built.{command_built, selector_built, statement_built, sentence_built};
ghost use Rattle.lq_built.specs.Parts.{parts_of};

use crate::expressions::expression_built;
use crate::parts::Parts;
use lq_ast::{Selector, Sentence, Statement, Vernac};

/// Whether a command is built.
#[tactic(auto, unfolding(lq_ast::specs::PlainCommands::plain_vernac, lq_sessions::specs::Built::command_built))]
fn command_built(parts: Parts, command: &Vernac) -> bool
    ensures { result ≡ command_built (parts_of parts) (plain_vernac command.now) }
{
    match command {
        Vernac::Unshelve => parts.focus,
        Vernac::Ltac(_, _, body) => parts.values & expression_built(parts, body),
        Vernac::Outcomes(_, tac) => parts.backtracking & expression_built(parts, tac),
        _ => true,
    }
}

/// Whether a selector is built.
#[tactic(auto, unfolding(lq_sessions::specs::Built::selector_built))]
fn selector_built(parts: Parts, selector: &Option<Selector>) -> bool
    ensures { result ≡ selector_built (parts_of parts) selector.now }
{
    match selector {
        None => true,
        Some(Selector::Par) => parts.parallel,
        Some(_) => parts.focus,
    }
}

/// Whether what may stand behind `Fail` is built.
#[tactic(auto, unfolding(lq_ast::specs::PlainCommands::plain_statement, lq_sessions::specs::Built::statement_built))]
fn statement_built(parts: Parts, statement: &Statement) -> bool
    ensures { result ≡ statement_built (parts_of parts) (plain_statement statement.now) }
{
    match statement {
        Statement::Command(command) => command_built(parts, command),
        Statement::Run(selector, tac) => {
            selector_built(parts, selector) & expression_built(parts, tac)
        }
    }
}

/// Whether a sentence holds nothing that is not built: where it does, it is refused before any of it is run.
#[tactic(auto, unfolding(lq_ast::specs::PlainCommands::plain_sentence, lq_sessions::specs::Built::sentence_built))]
pub fn sentence_built(parts: Parts, sentence: &Sentence) -> bool
    ensures { result ≡ sentence_built (parts_of parts) (plain_sentence sentence.now) }
{
    match sentence {
        Sentence::Stated(_, statement) => statement_built(parts, statement),
        Sentence::Open(_) | Sentence::Close | Sentence::Bullet(_, _) => parts.focus,
    }
}
