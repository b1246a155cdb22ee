//! Whether tokens end their sentence.

ghost use Rattle.std.specs.Prelude.{◌≡◌, ◌+◌, nat_le, [], All, length};
ghost use Rattle.lq_grammar.specs.Cutting.{longest};
ghost use Rattle.std.specs.List.{list_any};
ghost use Rattle.lq_lex.specs.Views.{IsSpanned, is_open_curly};
ghost use Rattle.lq_sentences.specs.Reading.{is_closed_behind, start_of, is_too_long};
ghost use Rattle.lq_spelling.specs.Spellings.{IsCut};

use lq_grammar::{Symbol, Token, TokenKind};
use lq_lex::closes;

/// How many bytes from its start a sentence is looked for.
const LONGEST: usize = 65_536;

/// Whether a token is `{`.
fn is_open_curly(kind: TokenKind) -> bool
    ensures { result ≡ is_open_curly kind }
{
    matches!(kind, TokenKind::Symbol(Symbol::OpenCurly))
}

/// Whether there is a `{` among some tokens.
fn has_brace(tokens: &[Token]) -> bool
    ensures { result ≡ list_any (λ t. is_open_curly t.kind) tokens.now }
{
    tokens.iter().any(|token| is_open_curly(token.kind))
}

/// Whether the last of some tokens ends their sentence.
#[tactic(auto, using(crate::proofs::WordLaws::closed_is, crate::proofs::WordLaws::closed_none))]
pub fn is_closed(text: &[u8], tokens: &[Token]) -> bool
    requires { All (IsSpanned text.now) tokens.now }
    ensures { result ≡ is_closed_behind text.now [] tokens.now }
{
    match tokens.split_last() {
        Some((last, before)) => closes(last.kind, text, before, has_brace(before)),
        None => false,
    }
}

/// Where some tokens begin, 0 where there are none.
pub fn sentence_start(tokens: &[Token]) -> usize
    ensures { result ≡ start_of tokens.now }
{
    match tokens {
        [first, ..] => first.start,
        [] => 0,
    }
}

/// Whether a text goes on from a place for as long as a sentence is looked for.
fn goes_on(text: &[u8], start: usize) -> bool
    ensures { result ≡ nat_le (start + longest) (length text.now) }
{
    start <= text.len() && LONGEST <= text.len() - start
}

/// Whether a text goes on for too long without an end of the sentence of these tokens, which are cut from it.
pub fn is_too_long(text: &[u8], tokens: &[Token]) -> bool
    requires { IsCut text.now tokens.now }
    ensures { result ≡ is_too_long text.now tokens.now }
{
    !is_closed(text, tokens) && goes_on(text, sentence_start(tokens))
}
