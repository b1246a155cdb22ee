//! The tokens of a sentence.

ghost use Rattle.std.specs.Prelude.{◌≡◌, ◌<◌, ◌≤◌, length, IfOk};
ghost use Rattle.std.specs.List.{prefix_len};
ghost use Rattle.std.specs.Option.{option_map};
ghost use Rattle.lq_output.specs.Grammar.{behind_blanks};
ghost use Rattle.lq_output.specs.Script.{is_blank};
ghost use Rattle.lq_output.specs.Tokens.{is_letter, in_word, symbol_of, tokens};
ghost use Rattle.lq_script.specs.Lexing.{first_word, first_arrow, first_token};
ghost use Rattle.lq_script.specs.Reading.{Reads, plain_token, plain_tokens};

use crate::reader::fault::Unread;
use std::alloc::Global;
use std::str::from_utf8;

/// A token of a text.
#[derive(Clone, Copy)]
pub(crate) enum Token<'t> {
    /// A row of letters, digits and `_`.
    Word(&'t str),
    /// `:`
    Colon,
    /// `,`
    Comma,
    /// `->`
    Arrow,
    /// `;`
    Semicolon,
    /// `(`
    Opening,
    /// `)`
    Closing,
}

/// What a reader of tokens gives: a value, and the tokens behind it.
pub(crate) type Reading<'s, 't, T> = Result<(T, &'s [Token<'t>]), Unread>;

/// Whether a byte is a letter of ASCII.
pub(crate) fn is_letter(byte: u8) -> bool
    ensures { result ≡ is_letter byte }
{
    byte.is_ascii_alphabetic()
}

/// Whether a byte is one of a word.
fn in_word(byte: u8) -> bool
    ensures { result ≡ in_word byte }
{
    is_letter(byte) || byte.is_ascii_digit() || byte == b'_'
}

/// Whether a byte is a blank.
pub(crate) fn is_blank(byte: u8) -> bool
    ensures { result ≡ is_blank byte }
{
    byte == b' ' || byte == b'\t' || byte == b'\n' || byte == b'\r'
}

/// The text from its first byte on that is no blank.
#[tactic(auto, unfolding(lq_output::specs::Grammar::behind_blanks))]
pub(crate) fn behind_blanks(text: &[u8]) -> &[u8]
    ensures value { result.now ≡ behind_blanks text.now }
    ensures within { length result.now ≤ length text.now }
{
    let mut rest = text;
    while let [first, behind @ ..] = rest {
        if !is_blank(*first) {
            break;
        }
        rest = behind;
    }
    rest
}

/// How many bytes of words a text begins with.
fn word_len(text: &[u8]) -> usize
    ensures value { result ≡ prefix_len in_word text.now }
    ensures within { result ≤ length text.now }
{
    text.iter().take_while(|byte| in_word(**byte)).count()
}

/// The word that a text begins with, and the text behind it.
#[tactic(auto, unfolding(crate::specs::Lexing::first_word))]
fn word_at(text: &[u8]) -> Result<(Token<'_>, &[u8]), Unread>
    ensures value { Reads (λ r. (plain_token r.0, r.1.now)) result (first_word text.now) }
    ensures shorter { IfOk result (λ r. length r.1.now < length text.now) }
{
    let (word, rest) = text.split_at(word_len(text));
    if word.is_empty() {
        return Err(Unread::Grammar);
    }
    let word = from_utf8(word).unwrap();
    Ok((Token::Word(word), rest))
}

/// The arrow whose `-` stands before a text, and the text behind it.
#[tactic(auto, unfolding(crate::specs::Lexing::first_arrow))]
fn arrow_at(text: &[u8]) -> Result<(Token<'_>, &[u8]), Unread>
    ensures value { Reads (λ r. (plain_token r.0, r.1.now)) result (first_arrow text.now) }
    ensures shorter { IfOk result (λ r. length r.1.now < length text.now) }
{
    match text {
        [b'>', rest @ ..] => Ok((Token::Arrow, rest)),
        _ => Err(Unread::Grammar),
    }
}

/// The symbol that a byte is.
fn symbol<'t>(byte: u8) -> Option<Token<'t>>
    ensures { option_map plain_token result ≡ symbol_of byte }
{
    match byte {
        b':' => Some(Token::Colon),
        b',' => Some(Token::Comma),
        b';' => Some(Token::Semicolon),
        b'(' => Some(Token::Opening),
        b')' => Some(Token::Closing),
        _ => None,
    }
}

/// The token that a text begins with, and the text behind it.
#[tactic(auto, unfolding(crate::specs::Lexing::first_token))]
fn token_at(text: &[u8]) -> Result<(Token<'_>, &[u8]), Unread>
    ensures value { Reads (λ r. (plain_token r.0, r.1.now)) result (first_token text.now) }
    ensures shorter { IfOk result (λ r. length r.1.now < length text.now) }
{
    let [first, rest @ ..] = text else {
        return Err(Unread::Grammar);
    };
    if *first == b'-' {
        return arrow_at(rest);
    }
    match symbol(*first) {
        Some(symbol) => Ok((symbol, rest)),
        None => word_at(text),
    }
}

/// The tokens of a text.
pub(crate) fn tokens(alloc: Global, text: &[u8]) -> Result<Vec<Token<'_>>, Unread>
    ensures { Reads (λ v. plain_tokens v.items) result (tokens text.now) }
{
    let mut tokens = Vec::new(alloc);
    let mut rest = behind_blanks(text);
    while !rest.is_empty() {
        let (token, behind) = token_at(rest)?;
        tokens.push(token)?;
        rest = behind_blanks(behind);
    }
    Ok(tokens)
}
