//! Comments.

ghost use Rattle.std.specs.Prelude.{◌≡◌, ◌-◌, ◌<◌, ◌≤◌, ◌^◌, length};
ghost use Rattle.lq_grammar.specs.Tokens.{opens_comment, closes_comment, open_behind, half_behind, comment_at, comment_from};
ghost use Rattle.lq_lex.specs.Views.{from, Tells};

use crate::found::Found;
use crate::view::{Front, View};
use lq_grammar::LexFault;

/// Whether two characters open a comment.
pub(crate) fn opens_comment(c: char, d: char) -> bool
    ensures { result ≡ opens_comment c d }
{
    c == '(' && d == '*'
}

/// Whether two characters close a comment.
fn closes_comment(c: char, d: char) -> bool
    ensures { result ≡ closes_comment c d }
{
    c == '*' && d == ')'
}

/// How many comments are open behind the second of two characters, where so many were before it.
fn open_behind(depth: usize, c: char, d: char) -> usize
    requires some { 0 < depth }
    requires fits { depth < 2 ^ 64 - 1 }
    ensures { result ≡ open_behind depth c d }
{
    if opens_comment(c, d) {
        depth + 1
    } else if closes_comment(c, d) {
        depth - 1
    } else {
        depth
    }
}

/// The character that may be the first half of a sign behind the second of two characters.
fn half_behind(c: char, d: char) -> char
    ensures { result ≡ half_behind c d }
{
    if opens_comment(c, d) || closes_comment(c, d) {
        '\0'
    } else {
        d
    }
}

/// The rest of a comment behind its sign.
fn comment_rest(view: &View<'_>, start: usize, begin: usize) -> Found
    requires some { 0 < begin }
    requires within { begin ≤ length view.now.text.now }
    ensures { Tells view.now result (comment_from start 1 0 (from view.now begin)) }
{
    let mut depth: usize = 1;
    let mut half = '\0';
    let mut at = begin;
    while depth > 0 {
        match view.front(at) {
            Front::Letter(c, next) => {
                depth = open_behind(depth, half, c);
                half = half_behind(half, c);
                at = next;
            }
            Front::Over => return Found::Flaw(LexFault::OpenComment(start)),
            Front::Broken => return Found::Flaw(LexFault::BadChar(at)),
            Front::Beyond(_) => return Found::Bound,
        }
    }
    Found::Space(at)
}

/// A comment that begins at a place, where its first character ends at another.
pub(crate) fn comment(view: &View<'_>, start: usize, at: usize) -> Found
    requires { at ≤ length view.now.text.now }
    ensures { Tells view.now result (comment_at start (from view.now at)) }
{
    match view.front(at) {
        Front::Letter(_, next) => comment_rest(view, start, next),
        _ => Found::Bound,
    }
}
