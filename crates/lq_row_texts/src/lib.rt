//! Texts as rows write them, in one line: `\x` comes before the two digits of a byte, `\t`, `\r` and `\n` are blanks,
//! `\*9;ab\.` stands for nine times `ab`, in `\#9;ab#\.` each `#` is the number of the time, from 0, and
//! `\=9;ff` are nine bytes of these digits.
#![tactic(auto)]

use std::alloc::{AllocError, AllocFailed, Global};

/// Why a row gives up.
#[derive(Clone, Copy, Debug)]
pub enum RowFault {
    /// There was no memory.
    NoMemory,
    /// The row is not written as one.
    Malformed,
}

impl From<AllocError> for RowFault {
    fn from(_: AllocError) -> RowFault {
        RowFault::NoMemory
    }
}

impl<T: Drop> From<AllocFailed<T>> for RowFault {
    fn from(_: AllocFailed<T>) -> RowFault {
        RowFault::NoMemory
    }
}

/// A byte by its two digits in base 16, and the text behind it.
fn put_byte(text: &mut Vec<u8>, words: &str) -> Result<(), RowFault> {
    let Some((digits, rest)) = words.split_at_checked(2) else {
        return Err(RowFault::Malformed);
    };
    match u8::from_str_radix(digits, 16) {
        Ok(byte) => text.push(byte)?,
        Err(_) => return Err(RowFault::Malformed),
    }
    text.extend_from_slice(rest.as_bytes())?;
    Ok(())
}

/// A text so many times.
fn put_many(text: &mut Vec<u8>, words: &str) -> Result<(), RowFault> {
    let Some((count, words)) = words.split_once(';') else {
        return Err(RowFault::Malformed);
    };
    let Ok(count) = count.parse::<u32>() else {
        return Err(RowFault::Malformed);
    };
    for _ in 0..count {
        text.extend_from_slice(words.as_bytes())?;
    }
    Ok(())
}

/// A byte by its digits in base 16, so many times.
fn put_bytes(text: &mut Vec<u8>, words: &str) -> Result<(), RowFault> {
    let Some((count, digits)) = words.split_once(';') else {
        return Err(RowFault::Malformed);
    };
    let (Ok(count), Ok(byte)) = (count.parse::<u32>(), u8::from_str_radix(digits, 16)) else {
        return Err(RowFault::Malformed);
    };
    for _ in 0..count {
        text.push(byte)?;
    }
    Ok(())
}

/// A text, the number of the time in the place of each `#`.
fn put_numbered(text: &mut Vec<u8>, number: &str, words: &str) -> Result<(), RowFault> {
    for (place, part) in words.split('#').enumerate() {
        if place > 0 {
            text.extend_from_slice(number.as_bytes())?;
        }
        text.extend_from_slice(part.as_bytes())?;
    }
    Ok(())
}

/// A text so many times, with the number of the time in it.
fn put_series(alloc: Global, text: &mut Vec<u8>, words: &str) -> Result<(), RowFault> {
    let Some((count, words)) = words.split_once(';') else {
        return Err(RowFault::Malformed);
    };
    let Ok(count) = count.parse::<u32>() else {
        return Err(RowFault::Malformed);
    };
    for time in 0..count {
        let number = format!(in alloc; "{time}")?;
        put_numbered(text, &number, words)?;
    }
    Ok(())
}

/// A blank, and the text behind it.
fn put_blank(text: &mut Vec<u8>, blank: u8, words: &str) -> Result<(), RowFault> {
    text.push(blank)?;
    text.extend_from_slice(words.as_bytes())?;
    Ok(())
}

/// What stands behind a `\`.
fn put_marked(alloc: Global, text: &mut Vec<u8>, part: &str) -> Result<(), RowFault> {
    if let Some(words) = part.strip_prefix('x') {
        return put_byte(text, words);
    }
    if let Some(words) = part.strip_prefix('*') {
        return put_many(text, words);
    }
    if let Some(words) = part.strip_prefix('#') {
        return put_series(alloc, text, words);
    }
    if let Some(words) = part.strip_prefix('=') {
        return put_bytes(text, words);
    }
    if let Some(words) = part.strip_prefix('t') {
        return put_blank(text, b'\t', words);
    }
    if let Some(words) = part.strip_prefix('r') {
        return put_blank(text, b'\r', words);
    }
    if let Some(words) = part.strip_prefix('n') {
        return put_blank(text, b'\n', words);
    }
    let Some(words) = part.strip_prefix('.') else {
        return Err(RowFault::Malformed);
    };
    text.extend_from_slice(words.as_bytes())?;
    Ok(())
}

/// Writes the bytes of a text.
fn put_text(alloc: Global, text: &mut Vec<u8>, words: &str) -> Result<(), RowFault> {
    for (place, part) in words.split('\\').enumerate() {
        if place == 0 {
            text.extend_from_slice(part.as_bytes())?;
        } else {
            put_marked(alloc, text, part)?;
        }
    }
    Ok(())
}

/// The bytes of a text.
pub fn text_of(alloc: Global, words: &str) -> Result<Vec<u8>, RowFault> {
    let mut text = Vec::new(alloc);
    put_text(alloc, &mut text, words)?;
    Ok(text)
}
