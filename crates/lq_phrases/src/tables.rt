//! The words that begin a form.

ghost use Rattle.std.specs.Prelude.{◌≡◌};
ghost use Rattle.lq_sentences.specs.Parts.{entry};
ghost use Rattle.lq_sentences.specs.Primitives.{primitive_words};
ghost use Rattle.lq_sentences.specs.Sentences.{command_words};
ghost use Rattle.lq_sentences.specs.Tactics.{prefix_words, form_words};

use lq_ast::Manner;
use lq_sentences::{Command, Form, Prefix, Primitive};

/// The word that begins an expression before another one.
#[tactic(auto, unfolding(lq_sentences::specs::Parts::entry, lq_sentences::specs::Tactics::prefix_words))]
pub fn prefix_named(text: &str) -> Option<Prefix>
    ensures { result ≡ entry prefix_words text.now }
{
    match text {
        "try" => Some(Prefix::Try),
        "repeat" => Some(Prefix::Repeat),
        "once" => Some(Prefix::Once),
        "exactly_once" => Some(Prefix::ExactlyOnce),
        "progress" => Some(Prefix::Progress),
        "do" => Some(Prefix::Do),
        "tryif" => Some(Prefix::Tryif),
        _ => None,
    }
}

/// The word that begins a basic expression and no primitive.
#[tactic(auto, unfolding(lq_sentences::specs::Parts::entry, lq_sentences::specs::Tactics::form_words))]
pub fn form_named(text: &str) -> Option<Form>
    ensures { result ≡ entry form_words text.now }
{
    match text {
        "first" => Some(Form::First),
        "solve" => Some(Form::Solve),
        "match" => Some(Form::Match(Manner::Plain)),
        "lazymatch" => Some(Form::Match(Manner::Lazy)),
        "multimatch" => Some(Form::Match(Manner::Multi)),
        "idtac" => Some(Form::Idtac),
        "fail" => Some(Form::Fail),
        "gfail" => Some(Form::Gfail),
        "fun" => Some(Form::Fun),
        "let" => Some(Form::Let),
        "fresh" => Some(Form::Fresh),
        "type" => Some(Form::Type),
        "eval" => Some(Form::Eval),
        "constr" => Some(Form::Constr),
        "context" => Some(Form::Context),
        "shelve" => Some(Form::Shelve),
        "revgoals" => Some(Form::Revgoals),
        "cycle" => Some(Form::Cycle),
        "swap" => Some(Form::Swap),
        _ => None,
    }
}

/// The word that begins a primitive.
#[tactic(auto, unfolding(lq_sentences::specs::Parts::entry, lq_sentences::specs::Primitives::primitive_words))]
pub fn primitive_named(text: &str) -> Option<Primitive>
    ensures { result ≡ entry primitive_words text.now }
{
    match text {
        "intro" => Some(Primitive::Intro),
        "intros" => Some(Primitive::Intros),
        "exact" => Some(Primitive::Exact),
        "refine" => Some(Primitive::Refine),
        "apply" => Some(Primitive::Apply),
        "eapply" => Some(Primitive::Eapply),
        "assumption" => Some(Primitive::Assumption),
        "constructor" => Some(Primitive::Constructor),
        "split" => Some(Primitive::Split),
        "left" => Some(Primitive::Left),
        "right" => Some(Primitive::Right),
        "exists" => Some(Primitive::Exists),
        "assert" => Some(Primitive::Assert),
        "cut" => Some(Primitive::Cut),
        "pose" => Some(Primitive::Pose),
        "exfalso" => Some(Primitive::Exfalso),
        "reflexivity" => Some(Primitive::Reflexivity),
        "elim" => Some(Primitive::Elim),
        "induction" => Some(Primitive::Induction),
        "destruct" => Some(Primitive::Destruct),
        "rewrite" => Some(Primitive::Rewrite),
        "unfold" => Some(Primitive::Unfold),
        "change" => Some(Primitive::Change),
        "hnf" => Some(Primitive::Hnf),
        "compute" => Some(Primitive::Compute),
        "clear" => Some(Primitive::Clear),
        "rename" => Some(Primitive::Rename),
        "revert" => Some(Primitive::Revert),
        "generalize" => Some(Primitive::Generalize),
        _ => None,
    }
}

/// The word that begins a command, but for `Fail`.
#[tactic(auto, unfolding(lq_sentences::specs::Parts::entry, lq_sentences::specs::Sentences::command_words))]
pub fn command_named(text: &str) -> Option<Command>
    ensures { result ≡ entry command_words text.now }
{
    match text {
        "Inductive" => Some(Command::Inductive),
        "Definition" => Some(Command::Definition),
        "Theorem" => Some(Command::Theorem),
        "Lemma" => Some(Command::Lemma),
        "Proof" => Some(Command::Proof),
        "Qed" => Some(Command::Qed),
        "Defined" => Some(Command::Defined),
        "Abort" => Some(Command::Abort),
        "Unshelve" => Some(Command::Unshelve),
        "Show" => Some(Command::Show),
        "Print" => Some(Command::Print),
        "Check" => Some(Command::Check),
        "Ltac" => Some(Command::Ltac),
        "Outcomes" => Some(Command::Outcomes),
        _ => None,
    }
}
