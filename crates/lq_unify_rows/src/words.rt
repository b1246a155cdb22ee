//! The words of a line.

use lq_words::RowFault;

/// A text in two parts.
pub(crate) fn parted<'a>(text: &'a str, mark: &str) -> Result<(&'a str, &'a str), RowFault> {
    match text.split_once(mark) {
        Some(parts) => Ok(parts),
        None => Err(RowFault::Malformed),
    }
}

/// A number.
pub(crate) fn number(text: &str) -> Result<u32, RowFault> {
    match text.parse::<u32>() {
        Ok(number) => Ok(number),
        Err(_) => Err(RowFault::Malformed),
    }
}

/// The word for a truth.
pub(crate) fn yes(is: bool) -> &'static str {
    if is { "yes" } else { "no" }
}

/// Writes words.
pub(crate) fn write(out: &mut String, words: &str) -> Result<(), RowFault> {
    out.push_str(words)?;
    Ok(())
}
