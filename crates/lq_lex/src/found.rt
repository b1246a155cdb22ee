//! What stands at a place of a text: a blank, a comment, a token or a fault.

ghost use Rattle.std.specs.Prelude.{◌≡◌, ◌<◌, ◌≤◌, length};
ghost use Rattle.lq_grammar.specs.Cells.{letter};
ghost use Rattle.lq_grammar.specs.Tokens.{found_at, found};
ghost use Rattle.lq_lex.specs.declared.found.Found.TheVariants.{Word};
ghost use Rattle.lq_lex.specs.Views.{from, IsBullet, Tells};

use crate::classes::class_of;
use crate::comments::comment;
use crate::numbers::number;
use crate::runs::{bullet, name};
use crate::strings::string;
use crate::symbols::symbol;
use crate::view::{Front, View};
use lq_grammar::{Class, LexFault, Token, TokenKind};

/// What stands at a place of a text.
#[derive(Clone, Copy)]
pub enum Found {
    /// Nothing: the text ends.
    Nothing,
    /// Nothing up to the bound, or a comment that goes on behind it.
    Bound,
    /// A blank or a comment, with the place behind it.
    Space(usize),
    /// A token.
    Word(Token),
    /// A token of this kind that goes on behind the bound.
    Crossing(TokenKind),
    /// A fault.
    Flaw(LexFault),
}

/// The token between two places.
pub(crate) fn token(kind: TokenKind, start: usize, end: usize) -> Found
    ensures { result ≡ Word (record { kind = kind; start = start; end = end }) }
{
    Found::Word(Token { kind, start, end })
}

/// What a character at a place begins, where it ends at another.
fn found_at(view: &View<'_>, class: Class, c: char, start: usize, at: usize) -> Found
    requires order { start ≤ at }
    requires within { at ≤ length view.now.text.now }
    requires here { from view.now start ≡ letter start c (from view.now at) }
    requires ascii { IsBullet class → c < 128 }
    ensures { Tells view.now result (found_at class start c (from view.now at)) }
{
    match class {
        Class::Blank => Found::Space(at),
        Class::Comment => comment(view, start, at),
        Class::Bullet => bullet(view, c, start, at),
        Class::Text => string(view, start, at),
        Class::Number => number(view, start),
        Class::Name => name(view, start, at),
        Class::Symbol => symbol(view, c, start, at),
    }
}

/// What stands at a place of a text that is looked at up to a bound, at the start of a sentence or inside it.
pub fn scan(view: &View<'_>, is_start: bool, at: usize) -> Found
    requires { at ≤ length view.now.text.now }
    ensures { Tells view.now result (found is_start (from view.now at)) }
{
    match view.front(at) {
        Front::Over => Found::Nothing,
        Front::Broken => Found::Flaw(LexFault::BadChar(at)),
        Front::Beyond(_) => Found::Bound,
        Front::Letter(c, next) => {
            let class = class_of(is_start, c, view.character(next));
            found_at(view, class, c, at, next)
        }
    }
}
