//! The call that reads sentences and the one that reads terms once more, with their clauses: what an edit turns here is refused
//! by the clauses alone.
#![tactic(auto)]

ghost use Rattle.std.specs.Prelude.{◌≤◌};
ghost use Rattle.lq_ast.specs.Plain.{plain};
ghost use Rattle.lq_sentences.specs.Rules.{read};
ghost use Rattle.lq_sentences.specs.Terms.{term};
ghost use Rattle.lq_sentences.specs.Reading.{read_sentence};
ghost use Rattle.lq_phrases.specs.Views.{spot_of, Gives};
ghost use Rattle.lq_spelling.specs.Spellings.{IsCut};
ghost use Rattle.lq_syntax.specs.Answers.{Answers, IsFaultPlaced};

use lq_ast::Surface;
use lq_lex::Tokens;
use lq_phrases::{Cursor, Refusal, Spot, term};
use lq_syntax::{Sentence, SyntaxFault, read_sentence};
use std::alloc::Global;

/// The syntax tree of a sentence.
pub fn sentence_of(alloc: Global, text: &[u8], tokens: &Tokens) -> Result<Sentence, SyntaxFault>
    requires { IsCut text.now tokens.now }
    ensures answer { Answers result (read_sentence text.now tokens.now) }
    ensures placed { IsFaultPlaced text.now tokens.now result }
{
    read_sentence(alloc, text, tokens)
}

/// A term.
pub fn term_of(
    alloc: Global,
    cursor: &mut Cursor<'_, '_>,
    levels: usize,
    spot: Spot,
) -> Result<Surface, Refusal>
    requires { levels ≤ 201 }
    ensures { Gives plain (read (term levels (spot_of spot)) cursor.old) result cursor.new }
{
    term(alloc, cursor, levels, spot)
}
