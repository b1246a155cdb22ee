//! Runs of characters, and the names and bullets that are runs.

ghost use Rattle.std.specs.Prelude.{◌≡◌, ◌-◌, ◌<◌, ◌≤◌, length};
ghost use Rattle.lq_grammar.specs.Cells.{past, goes_on};
ghost use Rattle.lq_grammar.specs.Tokens.{name_at, bullet_at};
ghost use Rattle.lq_lex.specs.Views.{from, test_of, Steps, Tells};

use crate::characters::continues_name;
use crate::found::{Found, token};
use crate::view::{Front, View};
use lq_grammar::{LexFault, TokenKind};

/// How many bytes a name has at most.
const LONGEST_NAME: usize = 255;

/// Which characters a run has.
#[derive(Clone, Copy)]
pub enum Run {
    /// Those that a name goes on with.
    Name,
    /// This character.
    Same(char),
}

impl Run {
    fn has(self, c: char) -> bool
        ensures { result ≡ test_of self c }
    {
        match self {
            Run::Name => continues_name(c),
            Run::Same(d) => c == d,
        }
    }
}

/// The place behind the character at a place, if the run goes on with it.
fn step(view: &View<'_>, at: usize, run: Run) -> Option<usize>
    requires { at ≤ length view.now.text.now }
    ensures { Steps view.now (test_of run) at result }
{
    let Front::Letter(c, next) = view.front(at) else {
        return None;
    };
    if run.has(c) { Some(next) } else { None }
}

/// The place behind a run.
pub fn run_end(view: &View<'_>, start: usize, run: Run) -> usize
    requires { start ≤ length view.now.text.now }
    ensures value { past (test_of run) (from view.now start) ≡ from view.now result }
    ensures ahead { start ≤ result }
    ensures within { result ≤ length view.now.text.now }
{
    let mut at = start;
    while let Some(next) = step(view, at, run) {
        at = next;
    }
    at
}

/// Whether a run that goes up to a place goes on behind the bound.
pub(crate) fn crosses(view: &View<'_>, at: usize, run: Run) -> bool
    requires { at ≤ length view.now.text.now }
    ensures { result ≡ goes_on (test_of run) (from view.now at) }
{
    match view.front(at) {
        Front::Beyond(c) => run.has(c),
        _ => false,
    }
}

/// A name that begins at a place, where its first character ends at another.
pub(crate) fn name(view: &View<'_>, start: usize, at: usize) -> Found
    requires order { start ≤ at }
    requires within { at ≤ length view.now.text.now }
    ensures { Tells view.now result (name_at start (from view.now at)) }
{
    let end = run_end(view, at, Run::Name);
    if end - start > LONGEST_NAME {
        Found::Flaw(LexFault::BadChar(start))
    } else if crosses(view, end, Run::Name) {
        Found::Crossing(TokenKind::Name)
    } else {
        token(TokenKind::Name, start, end)
    }
}

/// A bullet of one of the characters `-`, `+` and `*` that begins at a place, where its first character ends at another.
pub(crate) fn bullet(view: &View<'_>, c: char, start: usize, at: usize) -> Found
    requires ascii { c < 128 }
    requires order { start ≤ at }
    requires within { at ≤ length view.now.text.now }
    ensures { Tells view.now result (bullet_at start c (from view.now at)) }
{
    let end = run_end(view, at, Run::Same(c));
    if crosses(view, end, Run::Same(c)) {
        Found::Crossing(TokenKind::Bullet(c as u8, 5))
    } else {
        let count = (end - start).min(5);
        token(TokenKind::Bullet(c as u8, count as u8), start, end)
    }
}
