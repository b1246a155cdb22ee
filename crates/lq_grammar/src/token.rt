//! Tokens.

/// A symbol.
#[derive(Clone, Copy, Debug, PartialEq, Eq)]
pub enum Symbol {
    /// `:=`
    ColonEqual,
    /// `=>`
    FatArrow,
    /// `->`
    Arrow,
    /// `<-`
    BackArrow,
    /// `||`
    Bars,
    /// `|-`
    Turnstile,
    /// `..`
    Dots,
    /// `(`
    OpenRound,
    /// `)`
    CloseRound,
    /// `[`
    OpenSquare,
    /// `]`
    CloseSquare,
    /// `{`
    OpenCurly,
    /// `}`
    CloseCurly,
    /// `:`
    Colon,
    /// `,`
    Comma,
    /// `;`
    Semicolon,
    /// `|`
    Bar,
    /// `+`
    Plus,
    /// `-`
    Minus,
    /// `*`
    Star,
    /// A `.` that ends no sentence.
    Dot,
    /// The `.` before a blank or the end of the text, which ends a sentence.
    Stop,
    /// `?`
    Question,
    /// `!`
    Bang,
    /// `_`
    Underscore,
}

/// What a token is.
#[derive(Clone, Copy, Debug, PartialEq, Eq)]
pub enum TokenKind {
    /// A name or a word.
    Name,
    /// A number.
    Number(u128),
    /// A string, with its quotes.
    Text,
    /// A symbol.
    Symbol(Symbol),
    /// A bullet: its character, and how often it stands, where 5 says more than four times.
    Bullet(u8, u8),
}

/// A token, with the places of its first byte and of the byte behind it, counted from the start of the text.
#[derive(Clone, Copy, Debug, PartialEq, Eq)]
pub struct Token {
    /// What it is.
    pub kind: TokenKind,
    /// The place of its first byte.
    pub start: usize,
    /// The place behind its last byte.
    pub end: usize,
}

/// What a character begins.
#[derive(Clone, Copy)]
pub enum Class {
    /// It is a blank.
    Blank,
    /// A comment.
    Comment,
    /// A bullet.
    Bullet,
    /// A string.
    Text,
    /// A number.
    Number,
    /// A name or a word.
    Name,
    /// A symbol, or nothing.
    Symbol,
}
