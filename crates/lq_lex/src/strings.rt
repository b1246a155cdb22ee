//! Strings.

ghost use Rattle.std.specs.Prelude.{◌≡◌, ◌==◌, ◌&&◌, ◌≤◌, not, false, length, if◌then◌else◌};
ghost use Rattle.lq_grammar.specs.Tokens.{string_from};
ghost use Rattle.lq_lex.specs.Views.{from, Tells, text_token};

use crate::found::{Found, token};
use crate::view::{Front, View};
use lq_grammar::{LexFault, TokenKind};

/// Whether a character ends the string before it: it stands behind a quote and is none.
fn ends_before(closing: bool, c: char) -> bool
    ensures { result ≡ (closing && not (c == 34)) }
{
    closing && c != '"'
}

/// Whether a character of a string is a quote that may close it.
fn may_close(closing: bool, c: char) -> bool
    ensures { result ≡ (not closing && (c == 34)) }
{
    !closing && c == '"'
}

/// The string between two places if it ends there, and what else is found.
fn ended(ends: bool, start: usize, at: usize, other: Found) -> Found
    ensures { result ≡ (if ends then text_token start at else other) }
{
    if ends {
        token(TokenKind::Text, start, at)
    } else {
        other
    }
}

/// A string that begins at a place, where its first quote ends at another.
pub(crate) fn string(view: &View<'_>, start: usize, begin: usize) -> Found
    requires order { start ≤ begin }
    requires within { begin ≤ length view.now.text.now }
    ensures { Tells view.now result (string_from start false (from view.now begin)) }
{
    let mut closing = false;
    let mut at = begin;
    loop {
        match view.front(at) {
            Front::Letter(c, next) => {
                if ends_before(closing, c) {
                    return token(TokenKind::Text, start, at);
                }
                closing = may_close(closing, c);
                at = next;
            }
            Front::Over => return ended(
                closing,
                start,
                at,
                Found::Flaw(LexFault::OpenString(start)),
            ),
            Front::Broken => return ended(closing, start, at, Found::Flaw(LexFault::BadChar(at))),
            Front::Beyond(c) => {
                let ends = ends_before(closing, c);
                return ended(ends, start, at, Found::Crossing(TokenKind::Text));
            }
        }
    }
}
