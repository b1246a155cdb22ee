//! What rows come to.

use lq_lex::{LexFault, Piece, Token, TokenKind, cut};
use lq_row_texts::{RowFault, text_of};
use std::alloc::Global;

/// Where a row looks, whether its text ends there, and the text.
#[derive(Clone, Copy)]
struct Row<'a> {
    from: usize,
    ended: bool,
    text: &'a str,
}

/// Most tokens that are all written.
const MOST: usize = 16;

/// The row that a line is.
fn row_of<'a>(line: &'a str) -> Result<Row<'a>, RowFault> {
    let Some((word, text)) = line.split_once(' ') else {
        return Err(RowFault::Malformed);
    };
    let row = Row {
        from: 0,
        ended: true,
        text,
    };
    match word {
        "cut" => Ok(row),
        "cut-open" => Ok(Row {
            ended: false,
            ..row
        }),
        "cut-from" => {
            let Some((from, text)) = text.split_once(' ') else {
                return Err(RowFault::Malformed);
            };
            match from.parse::<usize>() {
                Ok(from) => Ok(Row { from, text, ..row }),
                Err(_) => Err(RowFault::Malformed),
            }
        }
        _ => Err(RowFault::Malformed),
    }
}

/// Writes a token: what it is, and its places.
fn write_token(alloc: Global, token: Token, out: &mut String) -> Result<(), RowFault> {
    let kind = match token.kind {
        TokenKind::Name => format!(in alloc; "name")?,
        TokenKind::Number(value) => format!(in alloc; "number {value}")?,
        TokenKind::Text => format!(in alloc; "string")?,
        TokenKind::Symbol(symbol) => format!(in alloc; "{symbol:?}")?,
        TokenKind::Bullet(character, count) => {
            format!(in alloc; "bullet {} {count}", char::from(character))?
        }
    };
    let text = format!(in alloc; "{kind} {}-{}, ", token.start, token.end)?;
    out.push_str(&text)?;
    Ok(())
}

/// Writes each token.
fn write_each(alloc: Global, tokens: &[Token], out: &mut String) -> Result<(), RowFault> {
    for token in tokens {
        write_token(alloc, *token, out)?;
    }
    Ok(())
}

/// Writes the tokens; of many, how many, the middle one and the last.
fn write_tokens(alloc: Global, tokens: &[Token], out: &mut String) -> Result<(), RowFault> {
    if tokens.len() <= MOST {
        return write_each(alloc, tokens, out);
    }
    let text = format!(in alloc; "{} tokens, in the middle ", tokens.len())?;
    out.push_str(&text)?;
    write_token(alloc, tokens[tokens.len() / 2], out)?;
    out.push_str("at last ")?;
    write_token(alloc, tokens[tokens.len() - 1], out)
}

/// Writes a sentence, and where it ends.
fn write_sentence(
    alloc: Global,
    tokens: &[Token],
    end: usize,
    out: &mut String,
) -> Result<(), RowFault> {
    write_tokens(alloc, tokens, out)?;
    let text = format!(in alloc; "end {end}")?;
    out.push_str(&text)?;
    Ok(())
}

/// Writes what comes next.
fn write_piece(alloc: Global, piece: &Piece, out: &mut String) -> Result<(), RowFault> {
    match piece {
        Piece::Sentence(tokens, end) => write_sentence(alloc, tokens.as_slice(), *end, out),
        Piece::End => {
            out.push_str("nothing more")?;
            Ok(())
        }
        Piece::More => {
            out.push_str("it may go on")?;
            Ok(())
        }
    }
}

/// Writes a fault, and its place.
fn write_fault(alloc: Global, fault: LexFault, out: &mut String) -> Result<(), RowFault> {
    let (words, place) = match fault {
        LexFault::BadChar(place) => ("bad character", place),
        LexFault::OpenComment(place) => ("open comment", place),
        LexFault::OpenString(place) => ("open string", place),
        LexFault::BadNumber(place) => ("bad number", place),
        LexFault::NoMemory => return Err(RowFault::NoMemory),
    };
    let text = format!(in alloc; "{words} {place}")?;
    out.push_str(&text)?;
    Ok(())
}

/// Writes what comes next in a text, or its fault.
fn write_answer(alloc: Global, row: Row<'_>, out: &mut String) -> Result<(), RowFault> {
    let text = text_of(alloc, row.text)?;
    match cut(alloc, &text, row.from, row.ended) {
        Ok(piece) => write_piece(alloc, &piece, out),
        Err(fault) => write_fault(alloc, fault, out),
    }
}

/// What a line comes to.
pub(crate) fn told(alloc: Global, line: &str) -> Result<String, RowFault> {
    let row = row_of(line)?;
    let mut out = String::new(alloc);
    write_answer(alloc, row, &mut out)?;
    Ok(out)
}
