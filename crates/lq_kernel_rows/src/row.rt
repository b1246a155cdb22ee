//! A line, and what it asks.

use lq_words::RowFault;

/// What a line asks of a bank, where its terms stand behind ` in `: `HEAD in TERM = TERM`.
#[derive(Clone, Copy)]
pub(crate) struct Change<'a> {
    pub(crate) head: &'a str,
    pub(crate) term: &'a str,
    pub(crate) wanted: &'a str,
}

/// A text in two parts.
pub(crate) fn parted<'a>(text: &'a str, mark: &str) -> Result<(&'a str, &'a str), RowFault> {
    match text.split_once(mark) {
        Some(parts) => Ok(parts),
        None => Err(RowFault::Malformed),
    }
}

/// A number.
pub(crate) fn number(text: &str) -> Result<u32, RowFault> {
    match text.parse::<u32>() {
        Ok(number) => Ok(number),
        Err(_) => Err(RowFault::Malformed),
    }
}

/// A change, from its text.
pub(crate) fn change_of<'a>(text: &'a str) -> Result<Change<'a>, RowFault> {
    let (head, terms) = parted(text, " in ")?;
    let (term, wanted) = parted(terms, " = ")?;
    Ok(Change { head, term, wanted })
}

/// The word for a truth.
pub(crate) fn yes(is: bool) -> &'static str {
    if is { "yes" } else { "no" }
}
