//! Symbols.

ghost use Rattle.std.specs.Prelude.{◌≡◌, ◌≤◌, length};
ghost use Rattle.lq_grammar.specs.Tokens.{pair_of, single_of, pair_at, single_at, symbol_at};
ghost use Rattle.lq_lex.specs.Views.{from, Tells};

use crate::found::{Found, token};
use crate::view::{Front, View};
use lq_grammar::{LexFault, Symbol, TokenKind};

/// The symbol of two characters.
#[tactic(auto, unfolding(lq_grammar::specs::Tokens::pair_of))]
fn pair_of(c: char, d: char) -> Option<Symbol>
    ensures { result ≡ pair_of c d }
{
    if c == ':' && d == '=' {
        Some(Symbol::ColonEqual)
    } else if c == '=' && d == '>' {
        Some(Symbol::FatArrow)
    } else if c == '-' && d == '>' {
        Some(Symbol::Arrow)
    } else if c == '<' && d == '-' {
        Some(Symbol::BackArrow)
    } else if c == '|' && d == '|' {
        Some(Symbol::Bars)
    } else if c == '|' && d == '-' {
        Some(Symbol::Turnstile)
    } else if c == '.' && d == '.' {
        Some(Symbol::Dots)
    } else {
        None
    }
}

/// The symbol of one character, before the end of the text or a blank or before something else.
#[tactic(auto, unfolding(lq_grammar::specs::Tokens::single_of))]
fn single_of(is_clear: bool, c: char) -> Option<Symbol>
    ensures { result ≡ single_of is_clear c }
{
    match c {
        '(' => Some(Symbol::OpenRound),
        ')' => Some(Symbol::CloseRound),
        '[' => Some(Symbol::OpenSquare),
        ']' => Some(Symbol::CloseSquare),
        '{' => Some(Symbol::OpenCurly),
        '}' => Some(Symbol::CloseCurly),
        ':' => Some(Symbol::Colon),
        ',' => Some(Symbol::Comma),
        ';' => Some(Symbol::Semicolon),
        '|' => Some(Symbol::Bar),
        '+' => Some(Symbol::Plus),
        '-' => Some(Symbol::Minus),
        '*' => Some(Symbol::Star),
        '.' => Some(if is_clear { Symbol::Stop } else { Symbol::Dot }),
        '?' => Some(Symbol::Question),
        '!' => Some(Symbol::Bang),
        '_' => Some(Symbol::Underscore),
        _ => None,
    }
}

/// A symbol of two characters that begins at a place, where the second is at another.
fn pair(view: &View<'_>, pair: Symbol, start: usize, at: usize) -> Found
    requires order { start ≤ at }
    requires within { at ≤ length view.now.text.now }
    ensures { Tells view.now result (pair_at pair start (from view.now at)) }
{
    match view.front(at) {
        Front::Letter(_, next) => token(TokenKind::Symbol(pair), start, next),
        _ => Found::Crossing(TokenKind::Symbol(pair)),
    }
}

/// The symbol of a character that stands at a place and ends at another.
fn single(view: &View<'_>, c: char, start: usize, at: usize) -> Found
    requires order { start ≤ at }
    requires within { at ≤ length view.now.text.now }
    ensures { Tells view.now result (single_at start c (from view.now at)) }
{
    match single_of(view.is_clear(at), c) {
        Some(single) => token(TokenKind::Symbol(single), start, at),
        None => Found::Flaw(LexFault::BadChar(start)),
    }
}

/// The longest symbol that a character begins at a place, where it ends at another.
pub(crate) fn symbol(view: &View<'_>, c: char, start: usize, at: usize) -> Found
    requires order { start ≤ at }
    requires within { at ≤ length view.now.text.now }
    ensures { Tells view.now result (symbol_at start c (from view.now at)) }
{
    match pair_of(c, view.character(at)) {
        Some(symbol) => pair(view, symbol, start, at),
        None => single(view, c, start, at),
    }
}
