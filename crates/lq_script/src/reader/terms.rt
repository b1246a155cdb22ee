//! Terms, read from tokens. Each level of nesting is one deeper call, and there are at most 201 levels.

ghost use Rattle.std.specs.Prelude.{◌≡◌, string_bytes};
ghost use Rattle.lq_output.specs.Grammar.{atom, arrow_behind, rest_behind, product_behind, bracket_behind, term_by, term_within};
ghost use Rattle.lq_script.specs.Reading.{Reads, plain_tokens, plain_rest};
ghost use Rattle.lq_script.specs.Syntax.{plain_surface};

use crate::reader::fault::Unread;
use crate::reader::lexer::{Reading, Token};
use crate::reader::names::name;
use crate::syntax::Surface;
use std::alloc::Global;

/// A word as a term.
#[tactic(auto, unfolding(lq_output::specs::Grammar::atom, crate::specs::Reading::name_of))]
fn atom(alloc: Global, word: &str) -> Result<Surface, Unread>
    ensures { Reads plain_surface result (atom word.now) }
{
    if word == "Prop" {
        return Ok(Surface::Prop);
    }
    Ok(Surface::Named(name(alloc, word)?))
}

/// A term and the tokens behind it, where `room` levels of nesting are left.
#[cycle(term)]
pub(crate) fn term<'s, 't>(
    alloc: Global,
    room: u8,
    tokens: &'s [Token<'t>],
) -> Reading<'s, 't, Surface>
    ensures { Reads plain_rest result (term_within room (plain_tokens tokens.now)) }
{
    match room.checked_sub(1) {
        None => Err(Unread::Grammar),
        Some(below) => term_by(alloc, below, tokens),
    }
}

/// A term, where `below` levels are left for the terms in it.
#[cycle(term)]
#[tactic(auto, unfolding(lq_output::specs::Grammar::term_by))]
fn term_by<'s, 't>(alloc: Global, below: u8, tokens: &'s [Token<'t>]) -> Reading<'s, 't, Surface>
    ensures { Reads plain_rest result (term_by (term_within below) (plain_tokens tokens.now)) }
{
    match tokens {
        [Token::Word("forall"), rest @ ..] => product_behind(alloc, below, rest),
        [Token::Word(word), rest @ ..] => arrow_behind(alloc, below, atom(alloc, word)?, rest),
        [Token::Opening, rest @ ..] => {
            let (inner, rest) = term(alloc, below, rest)?;
            bracket_behind(alloc, below, inner, rest)
        }
        _ => Err(Unread::Grammar),
    }
}

/// Behind `forall`: a name, `:`, a term, `,` and a term.
#[cycle(term)]
#[tactic(auto, unfolding(lq_output::specs::Grammar::product_behind, crate::specs::Reading::name_of))]
fn product_behind<'s, 't>(
    alloc: Global,
    below: u8,
    tokens: &'s [Token<'t>],
) -> Reading<'s, 't, Surface>
    ensures { Reads plain_rest result (product_behind (term_within below) (plain_tokens tokens.now)) }
{
    let [Token::Word(binder), Token::Colon, domain @ ..] = tokens else {
        return Err(Unread::Grammar);
    };
    let binder = name(alloc, binder)?;
    let (domain, rest) = term(alloc, below, domain)?;
    rest_behind(alloc, below, binder, domain, rest)
}

/// Behind the domain of a product: `,` and a term.
#[cycle(term)]
#[tactic(auto, unfolding(lq_output::specs::Grammar::rest_behind))]
fn rest_behind<'s, 't>(
    alloc: Global,
    below: u8,
    binder: String,
    domain: Surface,
    tokens: &'s [Token<'t>],
) -> Reading<'s, 't, Surface>
    ensures { Reads plain_rest result (rest_behind (term_within below) (string_bytes binder) (plain_surface domain) (plain_tokens tokens.now)) }
{
    let [Token::Comma, body @ ..] = tokens else {
        return Err(Unread::Grammar);
    };
    let (body, rest) = term(alloc, below, body)?;
    let product = Surface::Forall(binder, Box::new(alloc, domain)?, Box::new(alloc, body)?);
    Ok((product, rest))
}

/// Behind a term in brackets: `)`, and what may stand behind a term.
#[cycle(term)]
#[tactic(auto, unfolding(lq_output::specs::Grammar::bracket_behind))]
fn bracket_behind<'s, 't>(
    alloc: Global,
    below: u8,
    inner: Surface,
    tokens: &'s [Token<'t>],
) -> Reading<'s, 't, Surface>
    ensures { Reads plain_rest result (bracket_behind (term_within below) (plain_surface inner) (plain_tokens tokens.now)) }
{
    let [Token::Closing, rest @ ..] = tokens else {
        return Err(Unread::Grammar);
    };
    arrow_behind(alloc, below, inner, rest)
}

/// Behind a term: `->` and a term, or nothing.
#[cycle(term)]
#[tactic(auto, unfolding(lq_output::specs::Grammar::arrow_behind))]
fn arrow_behind<'s, 't>(
    alloc: Global,
    below: u8,
    domain: Surface,
    tokens: &'s [Token<'t>],
) -> Reading<'s, 't, Surface>
    ensures { Reads plain_rest result (arrow_behind (term_within below) (plain_surface domain) (plain_tokens tokens.now)) }
{
    let [Token::Arrow, codomain @ ..] = tokens else {
        return Ok((domain, tokens));
    };
    let (codomain, rest) = term(alloc, below, codomain)?;
    let arrow = Surface::Arrow(Box::new(alloc, domain)?, Box::new(alloc, codomain)?);
    Ok((arrow, rest))
}
