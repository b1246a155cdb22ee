//! What a sentence is, by its first node.

use lq_ast::{Sentence, Statement, Tac, Vernac};

/// The command.
fn command(vernac: &Vernac) -> &'static str {
    match vernac {
        Vernac::Inductive(_, _, _, _) => "Inductive",
        Vernac::Definition(_, _, _, _) => "Definition",
        Vernac::Theorem(_, _, _) => "Theorem",
        Vernac::Lemma(_, _, _) => "Lemma",
        Vernac::Proof => "Proof",
        Vernac::Qed => "Qed",
        Vernac::Defined => "Defined",
        Vernac::Abort => "Abort",
        Vernac::Unshelve => "Unshelve",
        Vernac::Show => "Show",
        Vernac::Print(_) => "Print",
        Vernac::Check(_) => "Check",
        Vernac::Ltac(_, _, _) => "Ltac",
        Vernac::Outcomes(_, _) => "Outcomes",
    }
}

/// The first node of an expression.
fn expression(tac: &Tac) -> &'static str {
    match tac {
        Tac::Sequence(_, _) => "sequence",
        Tac::Try(_) => "try",
        Tac::Repeat(_) => "repeat",
        Tac::Once(_) => "once",
        Tac::ExactlyOnce(_) => "exactly_once",
        Tac::Progress(_) => "progress",
        Tac::Do(_, _) => "do",
        Tac::Tryif(_, _, _) => "tryif",
        Tac::Plus(_, _) => "+",
        Tac::Orelse(_, _) => "||",
        Tac::First(_) => "first",
        Tac::Solve(_) => "solve",
        Tac::Match(_, _, _) => "match",
        Tac::Idtac(_) => "idtac",
        Tac::Fail(_, _) => "fail",
        Tac::Gfail(_, _) => "gfail",
        Tac::Lambda(_, _) => "fun",
        Tac::LetTac(_, _, _) => "let",
        Tac::Fresh(_) => "fresh",
        Tac::TypeOf(_) => "type of",
        Tac::Eval(_, _) => "eval",
        Tac::Constr(_) => "constr",
        Tac::Context(_, _) => "context",
        Tac::Number(_) => "number",
        Tac::Prim(_) => "primitive",
        Tac::Rule(_) => "rule",
        Tac::Call(_, _) => "call",
        Tac::Shelve => "shelve",
        Tac::Revgoals => "revgoals",
        Tac::Cycle(_, _) => "cycle",
        Tac::Swap(_, _) => "swap",
    }
}

/// What stands behind the `Fail`s.
fn statement(found: &Statement) -> &'static str {
    match found {
        Statement::Command(vernac) => command(vernac),
        Statement::Run(_, tac) => expression(tac),
    }
}

/// What a sentence is.
pub(crate) fn shape(found: &Sentence) -> &'static str {
    match found {
        Sentence::Stated(_, found) => statement(found),
        Sentence::Open(_) => "{",
        Sentence::Close => "}",
        Sentence::Bullet(_, _) => "bullet",
    }
}

/// How many `Fail`s stand before it.
pub(crate) fn fails(found: &Sentence) -> u64 {
    match found {
        Sentence::Stated(count, _) => *count,
        Sentence::Open(_) => 0,
        Sentence::Close => 0,
        Sentence::Bullet(_, _) => 0,
    }
}

/// Whether a selector stands before it.
pub(crate) fn is_selected(found: &Sentence) -> bool {
    match found {
        Sentence::Stated(_, Statement::Run(Some(_), _)) => true,
        Sentence::Open(Some(_)) => true,
        _ => false,
    }
}
