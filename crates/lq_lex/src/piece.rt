//! What a text has next.

ghost use Rattle.std.specs.Prelude.{◌≡◌};

use lq_grammar::Token;
use std::marker::Model;

/// Tokens in the order of the text. Contracts see them as a list.
#[derive(Drop)]
pub struct Tokens {
    tokens: Vec<Token>,
}

impl Model for Tokens {
    ghost use Rattle.std.specs.Prelude.{List};
    ghost use Rattle.lq_grammar.specs.declared.token.Token.{Token};

    ghost Value = { List Token };

    ghost view = { λ t. t.tokens.items };
}

impl Tokens {
    /// The tokens of a vector, which takes no memory.
    pub fn from_vec(tokens: Vec<Token>) -> Tokens
        ensures { result ≡ tokens.items }
    {
        Tokens { tokens }
    }

    /// The tokens as a vector, which takes no memory.
    pub fn into_vec(self) -> Vec<Token>
        ensures { result.items ≡ self }
    {
        self.tokens
    }

    /// The tokens as a slice.
    pub fn as_slice(&self) -> &[Token]
        ensures { result.now ≡ self.now }
    {
        &self.tokens
    }
}

/// What a text has next.
#[derive(Drop)]
pub enum Piece {
    /// A sentence: its tokens, and the place behind the last of them. It may not end: then it is too long, or the text ends.
    Sentence(Tokens, usize),
    /// Nothing but blanks and comments, up to the end of the text.
    End,
    /// What comes next depends on how the text goes on.
    More,
}
