//! Numbers.

ghost use Rattle.std.specs.Prelude.{◌≡◌, ◌<◌, ◌≤◌, ◌^◌, length, IfSome};
ghost use Rattle.std.specs.Char.{is_ascii_digit};
ghost use Rattle.lq_grammar.specs.Cells.{past};
ghost use Rattle.lq_grammar.specs.Tokens.{number_at, number_by, value_from};
ghost use Rattle.lq_lex.specs.Views.{from, Adds, IsValue, ReadsDigit, Tells};

use crate::characters::continues_name;
use crate::found::{Found, token};
use crate::runs::{Run, crosses};
use crate::view::{Front, View};
use lq_grammar::{LexFault, TokenKind};

/// The value of the digit at a place, and the place behind it.
fn digit_at(view: &View<'_>, at: usize) -> Option<(u32, usize)>
    requires { at ≤ length view.now.text.now }
    ensures { ReadsDigit view.now at result }
{
    let Front::Letter(c, next) = view.front(at) else {
        return None;
    };
    if c.is_ascii_digit() {
        Some((c as u32 - '0' as u32, next))
    } else {
        None
    }
}

/// The value of a number with one digit more; nothing where it is 2^128 or more.
fn with_digit(value: Option<u128>, digit: u32) -> Option<u128>
    ensures adds { Adds value digit result }
    ensures fits { IfSome result (λ n. n < 2 ^ 128) }
{
    let tens = value?.checked_mul(10)?;
    tens.checked_add(u128::from(digit))
}

/// A number of a value, by what stands behind its digits.
fn number_end(view: &View<'_>, value: u128, start: usize, at: usize) -> Found
    requires order { start ≤ at }
    requires within { at ≤ length view.now.text.now }
    ensures { Tells view.now result (number_by start value (from view.now at)) }
{
    if crosses(view, at, Run::Name) {
        Found::Crossing(TokenKind::Number(value))
    } else if continues_name(view.character(at)) {
        Found::Flaw(LexFault::BadNumber(start))
    } else {
        token(TokenKind::Number(value), start, at)
    }
}

/// The value of the digits from a place on, nothing where it is 2^128 or more, and the place behind them.
pub fn digits(view: &View<'_>, start: usize) -> (Option<u128>, usize)
    requires { start ≤ length view.now.text.now }
    ensures value { IsValue result.0 (value_from 0 (from view.now start)) }
    ensures behind { past is_ascii_digit (from view.now start) ≡ from view.now result.1 }
    ensures ahead { start ≤ result.1 }
    ensures within { result.1 ≤ length view.now.text.now }
{
    let mut value = Some(0);
    let mut at = start;
    while let Some((digit, next)) = digit_at(view, at) {
        value = with_digit(value, digit);
        at = next;
    }
    (value, at)
}

/// A number that begins at a place.
pub(crate) fn number(view: &View<'_>, start: usize) -> Found
    requires { start ≤ length view.now.text.now }
    ensures { Tells view.now result (number_at start (from view.now start)) }
{
    let (value, at) = digits(view, start);
    match value {
        Some(value) => number_end(view, value, start, at),
        None => Found::Flaw(LexFault::BadNumber(start)),
    }
}
