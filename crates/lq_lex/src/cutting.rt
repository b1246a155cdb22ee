//! The next sentence of a text.

ghost use Rattle.std.specs.Prelude.{◌≡◌, ◌+◌, ◌^◌, ◌<◌, ◌≤◌, suc, true, false, [], length};
ghost use Rattle.lq_grammar.specs.Cells.{place, view, window};
ghost use Rattle.lq_grammar.specs.Cutting.{longest, end_of, so_far, cut_off, is_space_class, is_space, gathered, begun, next};
ghost use Rattle.lq_grammar.specs.Settled.{is_settled, begins_settled, settles};
ghost use Rattle.lq_lex.specs.Views.{from as view_from};
ghost use Rattle.lq_lex.specs.Pieces.{IsPiece, Gives, Cuts, Gathers, Begins, Spreads, Waits};

use crate::classes::class_of;
use crate::found::{Found, scan};
use crate::piece::{Piece, Tokens};
use crate::selectors::{closes, is_none, is_open_curly};
use crate::view::{Front, View};
use lq_grammar::{Class, LexFault, Token, TokenKind};
use std::alloc::{AllocError, Global};

/// How many bytes from its start a sentence is looked for.
const LONGEST: usize = 65_536;

/// What comes next in a text that is all there, and whether it stays where the text goes on.
#[derive(Drop)]
struct Candidate {
    /// What comes next.
    piece: Piece,
    /// Whether it is a sentence that ends, with a character behind it.
    settled: bool,
}

/// The sentence that has these tokens and does not end, where the last of them ends at a place.
fn so_far(tokens: Vec<Token>, end: usize) -> Piece
    requires { end ≡ end_of tokens.items }
    ensures { IsPiece result (so_far tokens.items) }
{
    if is_none(&tokens) {
        return Piece::End;
    }
    Piece::Sentence(Tokens::from_vec(tokens), end)
}

/// The first token of a sentence, which goes on behind the bound, as far as the byte behind it.
fn first_alone(alloc: Global, kind: TokenKind, start: usize) -> Result<Piece, AllocError>
    requires { start < 2 ^ 63 }
    ensures { Gives result (cut_off [] kind start) }
{
    let end = start + LONGEST + 1;
    let mut tokens = Vec::new(alloc);
    tokens.push(Token { kind, start, end })?;
    Ok(Piece::Sentence(Tokens::from_vec(tokens), end))
}

/// What a sentence is whose tokens are followed by one that goes on behind the bound, at a place.
fn cut_off(
    alloc: Global,
    tokens: Vec<Token>,
    end: usize,
    kind: TokenKind,
    at: usize,
) -> Result<Piece, AllocError>
    requires known { end ≡ end_of tokens.items }
    requires within { at < 2 ^ 63 }
    ensures { Gives result (cut_off tokens.items kind at) }
{
    if is_none(&tokens) {
        return first_alone(alloc, kind, at);
    }
    Ok(so_far(tokens, end))
}

/// A piece that waits for more where the text goes on.
fn unsettled(piece: Piece) -> Candidate
    ensures { result ≡ record { piece = piece; settled = false } }
{
    Candidate {
        piece,
        settled: false,
    }
}

/// The sentence that begins at a place.
fn gather(alloc: Global, view: &View<'_>, start: usize) -> Result<Candidate, LexFault>
    requires { start ≤ length view.now.text.now }
    ensures { Gathers result (gathered (suc (length view.now.text.now)) view.now.text.now [] (view_from view.now start))
        (is_settled (suc (length view.now.text.now)) view.now.text.now [] (view_from view.now start)) }
{
    let mut tokens = Vec::new(alloc);
    let mut at = start;
    let mut end = 0;
    let mut braced = false;
    for turn in 0..view.text.len() + 1 {
        match scan(view, is_none(&tokens), at) {
            Found::Nothing => return Ok(unsettled(so_far(tokens, end))),
            Found::Bound => return Ok(unsettled(so_far(tokens, end))),
            Found::Space(next) => at = next,
            Found::Crossing(kind) => {
                let piece = cut_off(alloc, tokens, end, kind, at)?;
                return Ok(unsettled(piece));
            }
            Found::Flaw(fault) => return Err(fault),
            Found::Word(token) => {
                let ends = closes(token.kind, view.text, &tokens, braced);
                tokens.push(token)?;
                if ends {
                    return Ok(Candidate {
                        piece: Piece::Sentence(Tokens::from_vec(tokens), token.end),
                        settled: view.has_character(token.end),
                    });
                }
                braced = braced | is_open_curly(token.kind);
                at = token.end;
                end = token.end;
            }
        }
    }
    Ok(unsettled(so_far(tokens, end)))
}

/// Whether such a character stands before a sentence.
fn is_space_class(class: Class) -> bool
    ensures { result ≡ is_space_class class }
{
    matches!(class, Class::Blank | Class::Comment)
}

/// Whether a blank or a comment begins at a place.
pub fn is_space(view: &View<'_>, at: usize) -> bool
    requires { at ≤ length view.now.text.now }
    ensures { result ≡ is_space (view_from view.now at) }
{
    match view.front(at) {
        Front::Letter(c, next) => is_space_class(class_of(false, c, view.character(next))),
        _ => false,
    }
}

/// Where the first sentence begins behind the blanks and comments from a place on.
fn sentence_start(view: &View<'_>, start: usize) -> Result<Option<usize>, LexFault>
    requires { start ≤ length view.now.text.now }
    ensures { Begins view.now result (begun (suc (length view.now.text.now)) view.now.text.now (view_from view.now start))
        (begins_settled (suc (length view.now.text.now)) view.now.text.now (view_from view.now start)) }
{
    let mut at = start;
    for turn in 0..view.text.len() + 1 {
        if !is_space(view, at) {
            return Ok(Some(at));
        }
        match scan(view, false, at) {
            Found::Space(next) => at = next,
            Found::Flaw(fault) => return Err(fault),
            _ => return Ok(None),
        }
    }
    Ok(None)
}

/// The bound of a sentence that begins at a place: where it lies behind the text, the end of the text serves.
pub fn bound(text: &[u8], start: usize) -> usize
    requires { start ≤ length text.now }
    ensures { view result text.now start ≡ view (start + longest) text.now start }
{
    let far = start + LONGEST;
    if far < text.len() { far } else { text.len() }
}

/// What a text that is all there has next at or after a place.
fn next_candidate(alloc: Global, text: &[u8], start: usize) -> Result<Candidate, LexFault>
    requires { start ≤ length text.now }
    ensures { Gathers result (next text.now start) (settles text.now start) }
{
    let whole = View {
        text,
        limit: text.len(),
    };
    match sentence_start(&whole, start) {
        Ok(Some(first)) => {
            let limit = bound(text, first);
            gather(alloc, &View { text, limit }, first)
        }
        Ok(None) => Ok(unsettled(Piece::End)),
        Err(fault) => Err(fault),
    }
}

/// The next sentence of a text that is all there, at or after a place.
fn cut_ended(alloc: Global, text: &[u8], start: usize) -> Result<Piece, LexFault>
    ensures { Cuts result (next text.now start) }
{
    if start > text.len() {
        return Ok(Piece::End);
    }
    match next_candidate(alloc, text, start) {
        Ok(found) => Ok(found.piece),
        Err(fault) => Err(fault),
    }
}

/// The next sentence of a text that may go on, at or after a place.
fn cut_open(alloc: Global, text: &[u8], start: usize) -> Result<Piece, LexFault>
    ensures { Waits text.now start result }
{
    if start > text.len() {
        return Ok(Piece::More);
    }
    match next_candidate(alloc, text, start) {
        Ok(found) => {
            if found.settled {
                Ok(found.piece)
            } else {
                Ok(Piece::More)
            }
        }
        Err(LexFault::NoMemory) => Err(LexFault::NoMemory),
        Err(_) => Ok(Piece::More),
    }
}

/// The next sentence of a text at or after a place, which counts in bytes from the start of the text.
///
/// With `ended` the text is all there. The answer is then
///
/// - `Sentence` with the tokens of the next sentence and the place behind the last of them. A sentence ends behind a
///   bullet, behind `}`, behind `{` at its start or after a selector and `:`, and else behind a `.` before a blank or the
///   end of the text. It is looked for in 65,536 bytes from its first token on. Where they hold no end, the tokens are
///   those that end within them; a first token that goes on behind them is given alone, as far as the byte behind them.
///   Where the text ends before that, the tokens are those up to the end of the text.
/// - `End` where only blanks and comments are left.
///
/// Without `ended` the text may go on. `More` then comes only where the next sentence hasn't its end with a character behind
/// that within its 65,536 bytes, and every other answer but `NoMemory` is the same however the text goes on.
///
/// The tokens of a sentence stand one behind another at or after the place, none is empty, and they end within the text.
///
/// # Errors
///
/// `BadChar`, `OpenComment`, `OpenString` and `BadNumber`, each with its place, where the text has that fault before the
/// end of the sentence. Nothing behind the 65,536 bytes is a fault, but in a comment before the first token.
/// `NoMemory` where there is no memory for the tokens.
pub fn cut(alloc: Global, text: &[u8], from: usize, ended: bool) -> Result<Piece, LexFault>
    ensures ended { ended ≡ true → Cuts result (next text.now from) }
    ensures open { ended ≡ false → Waits text.now from result }
    ensures spread { Spreads text.now from result }
{
    if ended {
        cut_ended(alloc, text, from)
    } else {
        cut_open(alloc, text, from)
    }
}
