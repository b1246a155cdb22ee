//! The numbers that names have behind a text.

ghost use Rattle.std.specs.Prelude.{◌≡◌, ◌≢◌, ◌<◌, ◌≤◌, ◌^◌, ◌++◌, ℕ, true, false, length, map, decimal};
ghost use Rattle.std.specs.Prelude.{slice_index_or, Some, IfSome, IfOk};
ghost use Rattle.lq_print.specs.Tables.{text_at, AreWithin};
ghost use Rattle.lq_terms.specs.Numbers.{AreUsed, IsFirstFree};

use crate::texts::Texts;
use lq_terms::NoMemory;

/// Whether a sign or a zero stands ahead of more.
fn is_padded(text: &str) -> bool
    ensures long { result ≡ true → 1 < length text.now }
    ensures low { result ≡ true → slice_index_or text.now 0 0 ≤ 48 }
    ensures high { result ≡ false → 1 < length text.now → 48 < slice_index_or text.now 0 0 }
{
    let bytes = text.as_bytes();
    bytes.len() > 1 && bytes[0] <= b'0'
}

/// The number that a text writes in decimal digits, with no sign and no zero ahead.
fn written(text: &str) -> Option<usize>
    ensures is { IfSome result (λ k. decimal k ≡ text.now) }
    ensures only { (k : ℕ) → k < 2 ^ 64 → text.now ≡ decimal k → result ≡ Some k }
{
    if is_padded(text) {
        return None;
    }
    match text.parse::<usize>() {
        Ok(number) => Some(number),
        Err(_) => None,
    }
}

/// The number that a text has behind another.
fn number_behind(text: &str, base: &str) -> Option<usize>
    ensures is { IfSome result (λ k. text.now ≡ base.now ++ decimal k) }
    ensures only { (k : ℕ) → k < 2 ^ 64 → text.now ≡ base.now ++ decimal k → result ≡ Some k }
{
    match text.strip_prefix(base) {
        Some(behind) => written(behind),
        None => None,
    }
}

/// Marks a number, if it is one of the first.
fn mark_number(number: Option<usize>, used: &mut Vec<bool>)
    ensures length { length used.new.items ≡ length used.old.items }
    ensures marked { (k : ℕ) → k < length used.old.items → number ≡ Some k → slice_index_or used.new.items k false ≡ true }
    ensures kept { (k : ℕ) → number ≢ Some k → slice_index_or used.new.items k false ≡ slice_index_or used.old.items k false }
{
    if let Some(number) = number {
        if number < used.len() {
            used[number] = true;
        }
    }
}

/// Which of the first numbers a taken text has behind the base, of as many as there are taken ones.
fn used_numbers(texts: &Texts, taken: &[usize], base: &str) -> Result<Vec<bool>, NoMemory>
    requires { AreWithin texts.now taken.now }
    ensures { IfOk result (λ v. AreUsed (map (text_at texts.now) taken.now) base.now (length taken.now) v.items) }
{
    let mut used = vec![in texts.allocator(); false; taken.len()]?;
    for number in taken {
        mark_number(number_behind(texts.text(*number), base), &mut used);
    }
    Ok(used)
}

/// The first number that is not used.
fn first_free(used: &[bool]) -> usize
    ensures before { (k : ℕ) → k < result → slice_index_or used.now k false ≡ true }
    ensures within { result ≤ length used.now }
    ensures free { result < length used.now → slice_index_or used.now result false ≡ false }
{
    for number in 0..used.len() {
        if !used[number] {
            return number;
        }
    }
    used.len()
}

/// The first number from 0 on that no taken text has behind the base.
pub(crate) fn free_number(texts: &Texts, taken: &[usize], base: &str) -> Result<usize, NoMemory>
    requires { AreWithin texts.now taken.now }
    ensures { IfOk result (IsFirstFree (map (text_at texts.now) taken.now) base.now) }
{
    let used = used_numbers(texts, taken, base)?;
    Ok(first_free(&used))
}
