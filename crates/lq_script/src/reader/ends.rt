//! Where sentences end.

ghost use Rattle.std.specs.Prelude.{◌≡◌, ◌+◌, ◌<◌, ◌≤◌, ◌==◌, ◌&&◌, drop, length, slice_index};
ghost use Rattle.lq_output.specs.Script.{is_clear};
ghost use Rattle.lq_script.specs.Ends.{IsEnd};

use crate::reader::lexer::is_blank;

/// Whether a dot with this text behind it ends a sentence.
fn is_clear(text: &[u8]) -> bool
    ensures { result ≡ is_clear text.now }
{
    match text {
        [] => true,
        [first, ..] => is_blank(*first),
    }
}

/// Whether a sentence ends at a place.
fn is_end(text: &[u8], place: usize) -> bool
    requires { place < length text.now }
    ensures { result ≡ (slice_index text.now place == 46 && is_clear (drop (place + 1) text.now)) }
{
    text[place] == b'.' && is_clear(&text[place + 1..])
}

/// The place of the dot that ends the first sentence from a place on.
pub(crate) fn sentence_end(text: &[u8], from: usize) -> Option<usize>
    requires { from ≤ length text.now }
    ensures { IsEnd text.now from result }
{
    for dot in from..text.len() {
        if is_end(text, dot) {
            return Some(dot);
        }
    }
    None
}
