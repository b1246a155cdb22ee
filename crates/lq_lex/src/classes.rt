//! What a character begins.

ghost use Rattle.std.specs.Prelude.{◌≡◌, ◌==◌, ◌||◌};
ghost use Rattle.lq_grammar.specs.Tokens.{class_of};

use crate::characters::{continues_name, is_blank, starts_name};
use crate::comments::opens_comment;
use lq_grammar::Class;

/// Whether bullets have the character.
pub(crate) fn is_mark(c: char) -> bool
    ensures { result ≡ (c == 45 || c == 43 || c == 42) }
{
    c == '-' || c == '+' || c == '*'
}

/// What a character begins before another, at the start of a sentence or inside it.
#[tactic(auto, unfolding(lq_grammar::specs::Tokens::class_of))]
pub fn class_of(is_start: bool, c: char, d: char) -> Class
    ensures { result ≡ class_of is_start c d }
{
    if is_blank(c) {
        Class::Blank
    } else if opens_comment(c, d) {
        Class::Comment
    } else if is_start && is_mark(c) {
        Class::Bullet
    } else if c == '"' {
        Class::Text
    } else if c.is_ascii_digit() {
        Class::Number
    } else if c == '_' {
        if continues_name(d) {
            Class::Name
        } else {
            Class::Symbol
        }
    } else if starts_name(c) {
        Class::Name
    } else {
        Class::Symbol
    }
}
