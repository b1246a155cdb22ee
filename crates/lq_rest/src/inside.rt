//! Whether a fault, or a token, may reach the end of a text that goes on there.

ghost use Rattle.std.specs.Prelude.{◌≡◌, ◌≤◌, drop, length};
ghost use Rattle.lq_grammar.specs.declared.fault.LexFault.TheVariants.{BadChar};
ghost use Rattle.lq_sessions.specs.Rest.{is_between, goes_second, is_cut_character, name_end, goes_on_behind, number_inside, is_inside, is_open_kind, may_go_on};
ghost use Rattle.lq_lex.specs.Views.{from};

use lq_grammar::{Class, LexFault, Token, TokenKind};
use lq_lex::{Front, Run, View, class_of, digits, run_end};

/// Whether a byte is one of those from one to another.
fn is_between(low: u8, high: u8, byte: u8) -> bool
    ensures { result ≡ is_between low high byte }
{
    low <= byte && byte <= high
}

/// Whether the second byte of a character may stand behind its first.
#[tactic(auto, unfolding(lq_sessions::specs::Rest::goes_second))]
fn goes_second(first: u8, second: u8) -> bool
    ensures { result ≡ goes_second first second }
{
    if first == 224 {
        is_between(160, 191, second)
    } else if first == 237 {
        is_between(128, 159, second)
    } else if first == 240 {
        is_between(144, 191, second)
    } else if first == 244 {
        is_between(128, 143, second)
    } else {
        is_between(128, 191, second)
    }
}

/// Whether the bytes from a place on begin a character that the end of the text cuts off.
#[tactic(auto, unfolding(lq_sessions::specs::Rest::is_cut_character))]
fn is_cut_character(text: &[u8], at: usize) -> bool
    requires { at ≤ length text.now }
    ensures { result ≡ is_cut_character (drop at text.now) }
{
    match &text[at..] {
        [first] => is_between(194, 244, *first),
        [first, second] => is_between(224, 244, *first) & goes_second(*first, *second),
        [first, second, third] => {
            (is_between(240, 244, *first) & goes_second(*first, *second))
                & is_between(128, 191, *third)
        }
        _ => false,
    }
}

/// Where a name at a place ends, and else the place.
fn name_end(view: &View<'_>, at: usize) -> usize
    requires { at ≤ length view.now.text.now }
    ensures { result ≡ name_end (from view.now at) }
{
    let Front::Letter(c, next) = view.front(at) else {
        return at;
    };
    match class_of(false, c, view.character(next)) {
        Class::Name => run_end(view, next, Run::Name),
        _ => at,
    }
}

/// Whether the text goes on behind the character at a place.
fn goes_on_behind(view: &View<'_>, at: usize) -> bool
    requires { at ≤ length view.now.text.now }
    ensures { result ≡ goes_on_behind (length view.now.text.now) (from view.now at) }
{
    match view.front(at) {
        Front::Letter(_, next) => next < view.text.len(),
        _ => false,
    }
}

/// Whether a bad number at a place ends inside the text.
fn number_inside(view: &View<'_>, at: usize) -> bool
    requires { at ≤ length view.now.text.now }
    ensures { result ≡ number_inside (length view.now.text.now) (from view.now at) }
{
    let (value, end) = digits(view, at);
    (value.is_none() & (end < view.text.len())) | goes_on_behind(view, end)
}

/// Whether a bad character at a place, or the name there, ends inside the text.
fn character_inside(view: &View<'_>, at: usize) -> bool
    requires whole { view.now.limit ≡ length view.now.text.now }
    requires at { at ≤ length view.now.text.now }
    ensures { result ≡ is_inside view.now.text.now (BadChar at) }
{
    ((at + 1 < view.text.len()) & !is_cut_character(view.text, at))
        & (name_end(view, at) < view.text.len())
}

/// Whether a fault does not reach the end of the text, of which all is looked at.
#[tactic(auto, unfolding(lq_sessions::specs::Rest::is_inside))]
pub(crate) fn is_inside(view: &View<'_>, fault: LexFault) -> bool
    requires { view.now.limit ≡ length view.now.text.now }
    ensures { result ≡ is_inside view.now.text.now fault }
{
    match fault {
        LexFault::BadChar(at) => at < view.text.len() && character_inside(view, at),
        LexFault::BadNumber(at) => at < view.text.len() && number_inside(view, at),
        LexFault::OpenComment(_) => false,
        LexFault::OpenString(_) => false,
        LexFault::NoMemory => false,
    }
}

/// Whether a character could go on with a token of that kind.
fn is_open_kind(kind: TokenKind) -> bool
    ensures { result ≡ is_open_kind kind }
{
    matches!(kind, TokenKind::Name | TokenKind::Number(_))
}

/// Whether a token may go on behind the end of the text.
#[tactic(auto, unfolding(lq_sessions::specs::Rest::may_go_on))]
pub(crate) fn may_go_on(text: &[u8], token: Token) -> bool
    requires { token.end ≤ length text.now }
    ensures { result ≡ may_go_on text.now token }
{
    (text.len() <= token.end) | (is_open_kind(token.kind) & is_cut_character(text, token.end))
}
