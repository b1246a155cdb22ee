//! A text as characters, from a place on and up to a bound.

ghost use Rattle.std.specs.Prelude.{◌≡◌, ◌≤◌, drop, length};
ghost use Rattle.bstr.specs.Utf8.{decoded};
ghost use Rattle.lq_grammar.specs.Cells.{front};
ghost use Rattle.lq_grammar.specs.Tokens.{is_clear};
ghost use Rattle.lq_grammar.specs.Settled.{has_character};
ghost use Rattle.lq_lex.specs.Views.{from, Shows, front_of, clear_of};

use crate::characters::is_blank;

/// What stands at the front of a text.
#[derive(Clone, Copy)]
pub enum Front {
    /// The text ends.
    Over,
    /// A byte that begins no character.
    Broken,
    /// The bound, with the character that ends behind it; NUL where none begins there.
    Beyond(char),
    /// A character, and the place behind it.
    Letter(char, usize),
}

impl Front {
    /// The character at the front, NUL where there is none.
    pub(crate) fn character(self) -> char
        ensures { result ≡ front_of self }
    {
        match self {
            Front::Letter(c, _) | Front::Beyond(c) => c,
            Front::Over | Front::Broken => '\0',
        }
    }

    /// Whether the text ends or a blank is at the front.
    pub(crate) fn is_clear(self) -> bool
        ensures { result ≡ clear_of self }
    {
        match self {
            Front::Over => true,
            Front::Broken => false,
            Front::Letter(c, _) | Front::Beyond(c) => is_blank(c),
        }
    }
}

/// A text that is looked at up to a bound.
#[derive(Clone, Copy)]
pub struct View<'t> {
    /// The text.
    pub text: &'t [u8],
    /// The place of the bound.
    pub limit: usize,
}

/// The text from a place on.
fn behind(text: &[u8], at: usize) -> &[u8]
    requires { at ≤ length text.now }
    ensures { result.now ≡ drop at text.now }
{
    &text[at..]
}

/// The character at a place and the bytes that it takes; the bytes that begin none where there is none.
fn decode(text: &[u8], at: usize) -> (Option<char>, usize)
    requires { at ≤ length text.now }
    ensures char { result.0 ≡ (decoded (drop at text.now)).char }
    ensures size { result.1 ≡ (decoded (drop at text.now)).size }
{
    bstr::decode_utf8(behind(text, at))
}

impl View<'_> {
    /// What stands at a place.
    pub fn front(&self, at: usize) -> Front
        requires { at ≤ length self.now.text.now }
        ensures { Shows self.now at result }
    {
        let (first, size) = decode(self.text, at);
        match first {
            Some(c) => {
                if at + size <= self.limit {
                    Front::Letter(c, at + size)
                } else {
                    Front::Beyond(c)
                }
            }
            None => {
                if size == 0 {
                    Front::Over
                } else if at < self.limit {
                    Front::Broken
                } else {
                    Front::Beyond('\0')
                }
            }
        }
    }

    /// The character at a place, NUL where there is none.
    pub fn character(&self, at: usize) -> char
        requires { at ≤ length self.now.text.now }
        ensures { result ≡ front (from self.now at) }
    {
        self.front(at).character()
    }

    /// Whether the text ends at a place, or a blank is there.
    pub(crate) fn is_clear(&self, at: usize) -> bool
        requires { at ≤ length self.now.text.now }
        ensures { result ≡ is_clear (from self.now at) }
    {
        self.front(at).is_clear()
    }

    /// Whether a character stands at a place.
    pub(crate) fn has_character(&self, at: usize) -> bool
        requires { at ≤ length self.now.text.now }
        ensures { result ≡ has_character (from self.now at) }
    {
        matches!(self.front(at), Front::Letter(_, _))
    }
}
