//! The tokens of a text that goes on behind its end.

ghost use Rattle.std.specs.Prelude.{◌≡◌, ◌<◌, ◌≤◌, ◌^◌, suc, [], length, Ok};
ghost use Rattle.lq_grammar.specs.Selectors.{is_empty};
ghost use Rattle.lq_lex.specs.Views.{from};
ghost use Rattle.lq_sessions.specs.Rest.{crossed, stopped, looked, looked_begun, looked_at};
ghost use Rattle.lq_rest.specs.Looks.{Looks, Begins};

use crate::inside::{is_inside, may_go_on};
use lq_grammar::{LexFault, Token, TokenKind};
use lq_lex::{Found, Tokens, View, bound, is_space, scan};
use std::alloc::Global;

/// How many bytes from its start a sentence is looked for.
const LONGEST: usize = 65_536;

/// Whether there are no tokens.
fn is_none(tokens: &[Token]) -> bool
    ensures { result ≡ is_empty tokens.now }
{
    match tokens {
        [] => true,
        _ => false,
    }
}

/// What is found where a fault comes behind tokens: the fault where it does not reach the end of the text, else the tokens.
fn stopped(whole: &View<'_>, tokens: Vec<Token>, fault: LexFault) -> Result<Tokens, LexFault>
    requires { whole.now.limit ≡ length whole.now.text.now }
    ensures { Looks result (stopped whole.now.text.now tokens.items fault) }
{
    if is_inside(whole, fault) {
        Err(fault)
    } else {
        Ok(Tokens::from_vec(tokens))
    }
}

/// The tokens where one comes that goes on behind the bound: it is left, but for the first, which is given as far as the byte
/// behind the bound.
fn crossed(tokens: Vec<Token>, kind: TokenKind, start: usize) -> Result<Tokens, LexFault>
    requires { start < 2 ^ 63 }
    ensures { Looks result (Ok (crossed tokens.items kind start)) }
{
    if !is_none(&tokens) {
        return Ok(Tokens::from_vec(tokens));
    }
    let end = start + LONGEST + 1;
    let mut all = tokens;
    all.push(Token { kind, start, end })?;
    Ok(Tokens::from_vec(all))
}

/// The tokens of the sentence that begins at a place, up to the first that may go on behind the end of the text.
fn tokens_of(
    alloc: Global,
    whole: &View<'_>,
    view: &View<'_>,
    start: usize,
) -> Result<Tokens, LexFault>
    requires whole { whole.now.limit ≡ length whole.now.text.now }
    requires same { whole.now.text.now ≡ view.now.text.now }
    requires start { start ≤ length view.now.text.now }
    ensures { Looks result (looked (suc (length view.now.text.now)) view.now.text.now [] (from view.now start)) }
{
    let mut tokens = Vec::new(alloc);
    let mut at = start;
    for turn in 0..view.text.len() + 1 {
        match scan(view, is_none(&tokens), at) {
            Found::Nothing => return Ok(Tokens::from_vec(tokens)),
            Found::Bound => return Ok(Tokens::from_vec(tokens)),
            Found::Space(next) => at = next,
            Found::Crossing(kind) => return crossed(tokens, kind, at),
            Found::Flaw(fault) => return stopped(whole, tokens, fault),
            Found::Word(token) => {
                if may_go_on(view.text, token) {
                    return Ok(Tokens::from_vec(tokens));
                }
                tokens.push(token)?;
                at = token.end;
            }
        }
    }
    Ok(Tokens::from_vec(tokens))
}

/// Where the first sentence begins behind the blanks and comments from a place on.
fn sentence_start(whole: &View<'_>, start: usize) -> Result<Option<usize>, LexFault>
    requires whole { whole.now.limit ≡ length whole.now.text.now }
    requires start { start ≤ length whole.now.text.now }
    ensures { Begins whole.now result (looked_begun (suc (length whole.now.text.now)) whole.now.text.now (from whole.now start)) }
{
    let mut at = start;
    for turn in 0..whole.text.len() + 1 {
        if !is_space(whole, at) {
            return Ok(Some(at));
        }
        match scan(whole, false, at) {
            Found::Space(next) => at = next,
            Found::Flaw(fault) => {
                return if is_inside(whole, fault) {
                    Err(fault)
                } else {
                    Ok(None)
                };
            }
            _ => return Ok(None),
        }
    }
    Ok(None)
}

/// The tokens at or after a place that can be looked at in a text that goes on behind its end: those of the sentence that begins there,
/// up to the first that reaches the end of the text, or to which a character that the end cuts off may belong. Places count in
/// bytes from the start of the text.
///
/// # Errors
///
/// `BadChar` and `BadNumber`, each with its place, where the text has that fault before, and it does not reach the end of the text.
/// `NoMemory` where there is no memory for the tokens.
pub fn looked_at(alloc: Global, text: &[u8], from: usize) -> Result<Tokens, LexFault>
    requires { from ≤ length text.now }
    ensures { Looks result (looked_at text.now from) }
{
    let whole = View {
        text,
        limit: text.len(),
    };
    match sentence_start(&whole, from) {
        Ok(Some(first)) => {
            let limit = bound(text, first);
            tokens_of(alloc, &whole, &View { text, limit }, first)
        }
        Ok(None) => Ok(Tokens::from_vec(Vec::new(alloc))),
        Err(fault) => Err(fault),
    }
}
