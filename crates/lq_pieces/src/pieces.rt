//! The next sentence of a script, or what there is in its place.

ghost use Rattle.std.specs.Prelude.{◌≡◌, ◌<◌, ◌≤◌, ◌&&◌, ℕ, nat_lt, true, false, [], length, Result, Ok, Err, IfOk};
ghost use Rattle.lq_grammar.specs.Cutting.{sentence, next};
ghost use Rattle.lq_lex.specs.Pieces.{Cuts};
ghost use Rattle.lq_ast.specs.Commands.{Sentence as Tree};
ghost use Rattle.lq_sentences.specs.declared.fault.SyntaxFault.{SyntaxFault};
ghost use Rattle.lq_syntax.specs.Answers.{Answers};
ghost use Rattle.lq_sentences.specs.Reading.{read_sentence, is_closed_behind};
ghost use Rattle.lq_spelling.specs.Spellings.{IsCut};
ghost use Rattle.lq_sessions.specs.Rest.{looked_at};
ghost use Rattle.lq_sessions.specs.Output.{read_and_ran, rest_read, rest_looked, turn};
ghost use Rattle.lq_pieces.specs.Pieces.{Comes, Lies};

use lq_causes::Stop;
use lq_lex::{LexFault, Piece as Cut, Tokens, cut};
use lq_rest::looked_at;
use lq_sentences::SyntaxFault;
use lq_spelling::is_closed;
use lq_syntax::{Sentence, read_sentence};
use std::alloc::Global;

/// What a script has next.
#[derive(Drop)]
pub enum Piece {
    /// A sentence, and the place behind it.
    Sentence(Sentence, usize),
    /// Nothing more.
    End,
    /// Nothing that can be looked at of what is left of a script that is too long, or what can be begins a sentence.
    TooLong,
}

/// The sentence that tokens are, before that place.
fn read_piece(alloc: Global, text: &[u8], tokens: &Tokens, place: usize) -> Result<Piece, Stop>
    requires { IsCut text.now tokens.now }
    ensures comes { Comes result (λ b s k go. read_and_ran b s k (read_sentence text.now tokens.now) (go place)) }
    ensures lies { (from len : ℕ) → from < place → place ≤ len → IfOk result (Lies from len) }
{
    match read_sentence(alloc, text, tokens) {
        Ok(sentence) => Ok(Piece::Sentence(sentence, place)),
        Err(fault) => Err(Stop::from(fault)),
    }
}

/// What a fault of tokens that can be looked at tells of a text that goes on: nothing where they only end too early.
fn begun_fault(fault: SyntaxFault) -> Result<Piece, Stop>
    ensures comes { (r : Result Tree SyntaxFault) → Answers (Err fault) r → Comes result (λ b s k go. rest_read b s k r) }
    ensures lies { (from len : ℕ) → IfOk result (Lies from len) }
{
    match fault {
        SyntaxFault::EndInside(_) => Ok(Piece::TooLong),
        SyntaxFault::Unexpected(place) => Err(Stop::from(SyntaxFault::Unexpected(place))),
        SyntaxFault::TooNested(place) => Err(Stop::from(SyntaxFault::TooNested(place))),
        SyntaxFault::SentenceTooLong(place) => Err(Stop::from(SyntaxFault::SentenceTooLong(place))),
        SyntaxFault::NoMemory => Err(Stop::NoMemory),
    }
}

/// The fault of tokens that can be looked at, where there is one.
fn begun_piece(alloc: Global, text: &[u8], tokens: &Tokens) -> Result<Piece, Stop>
    requires { IsCut text.now tokens.now }
    ensures comes { Comes result (λ b s k go. rest_read b s k (read_sentence text.now tokens.now)) }
    ensures lies { (from len : ℕ) → IfOk result (Lies from len) }
{
    match read_sentence(alloc, text, tokens) {
        Ok(_begun) => Ok(Piece::TooLong),
        Err(fault) => begun_fault(fault),
    }
}

/// The fault of what can be looked at from a place on in a text that goes on, where there is one.
fn rest_piece(alloc: Global, text: &[u8], from: usize) -> Result<Piece, Stop>
    requires { from ≤ length text.now }
    ensures comes { Comes result (λ b s k go. rest_looked b text.now s k (looked_at text.now from)) }
    ensures lies { (start len : ℕ) → IfOk result (Lies start len) }
{
    match looked_at(alloc, text, from) {
        Ok(tokens) => {
            if tokens.as_slice().is_empty() {
                return Ok(Piece::TooLong);
            }
            begun_piece(alloc, text, &tokens)
        }
        Err(fault) => Err(Stop::from(fault)),
    }
}

/// Whether a sentence of a text that goes on counts: it has its end, and a byte behind that.
fn is_settled(text: &[u8], tokens: &Tokens, place: usize) -> bool
    requires { IsCut text.now tokens.now }
    ensures { result ≡ (is_closed_behind text.now [] tokens.now && nat_lt place (length text.now)) }
{
    is_closed(text, tokens.as_slice()) & (place < text.len())
}

/// What a script that is all there has next at or after a place.
fn whole_piece(alloc: Global, text: &[u8], from: usize) -> Result<Piece, Stop>
    ensures comes { Comes result (λ b s k go. turn b true text.now from s k go) }
    ensures lies { IfOk result (Lies from (length text.now)) }
{
    match cut(alloc, text, from, true) {
        Ok(Cut::Sentence(tokens, place)) => read_piece(alloc, text, &tokens, place),
        Ok(Cut::End) => Ok(Piece::End),
        Ok(Cut::More) => unreachable!(),
        Err(fault) => Err(Stop::from(fault)),
    }
}

/// What a script that goes on behind the text has next, where the text itself has a fault next.
fn behind_fault(alloc: Global, text: &[u8], from: usize, fault: LexFault) -> Result<Piece, Stop>
    requires { from ≤ length text.now }
    ensures comes { Cuts (Err fault) (next text.now from) → Comes result (λ b s k go. turn b false text.now from s k go) }
    ensures lies { IfOk result (Lies from (length text.now)) }
{
    match fault {
        LexFault::NoMemory => Err(Stop::NoMemory),
        LexFault::BadChar(_) => rest_piece(alloc, text, from),
        LexFault::OpenComment(_) => rest_piece(alloc, text, from),
        LexFault::OpenString(_) => rest_piece(alloc, text, from),
        LexFault::BadNumber(_) => rest_piece(alloc, text, from),
    }
}

/// What a script that goes on behind the text has next, where the text itself has these tokens next.
fn behind_tokens(
    alloc: Global,
    text: &[u8],
    from: usize,
    tokens: &Tokens,
    place: usize,
) -> Result<Piece, Stop>
    requires from { from ≤ length text.now }
    requires next { next text.now from ≡ Ok (sentence tokens.now place) }
    requires behind { from < place }
    requires within { place ≤ length text.now }
    ensures comes { Comes result (λ b s k go. turn b false text.now from s k go) }
    ensures lies { IfOk result (Lies from (length text.now)) }
{
    if is_settled(text, tokens, place) {
        read_piece(alloc, text, tokens, place)
    } else {
        rest_piece(alloc, text, from)
    }
}

/// What a script that goes on behind the text has next at or after a place.
fn open_piece(alloc: Global, text: &[u8], from: usize) -> Result<Piece, Stop>
    requires { from ≤ length text.now }
    ensures comes { Comes result (λ b s k go. turn b false text.now from s k go) }
    ensures lies { IfOk result (Lies from (length text.now)) }
{
    match cut(alloc, text, from, true) {
        Ok(Cut::Sentence(tokens, place)) => behind_tokens(alloc, text, from, &tokens, place),
        Ok(Cut::End) => rest_piece(alloc, text, from),
        Ok(Cut::More) => unreachable!(),
        Err(fault) => behind_fault(alloc, text, from, fault),
    }
}

/// What a script has next at or after a place: `text` is the whole script, or, where `whole` is false, the bytes that count of one that is too
/// long. Places count in bytes from the start of the text; that behind a sentence lies behind `from`, and in the text.
///
/// # Errors
///
/// The fault of the next sentence's tokens, or of its syntax, as a cause with its place: of a script that is too long only where it doesn't
/// reach the end of the text. `NoMemory` where there is no memory for the sentence.
pub fn next_piece(alloc: Global, text: &[u8], from: usize, whole: bool) -> Result<Piece, Stop>
    requires { from ≤ length text.now }
    ensures comes { Comes result (λ b s k go. turn b whole text.now from s k go) }
    ensures lies { IfOk result (Lies from (length text.now)) }
{
    if whole {
        whole_piece(alloc, text, from)
    } else {
        open_piece(alloc, text, from)
    }
}
