//! The numbers that names have behind a text.

ghost use Rattle.std.specs.Prelude.{◌≡◌, ◌≢◌, ◌<◌, ◌≤◌, ◌^◌, ◌++◌, ℕ, true, false, length, map, decimal, slice_index_or, Some, IfSome, IfOk};
ghost use Rattle.std.specs.List.{AllByRecursion};
ghost use Rattle.lq_terms.specs.Terms.{HasName, text_of};
ghost use Rattle.lq_terms.specs.Numbers.{AreUsed};

use crate::bank::Bank;
use crate::nodes::{NameId, NoMemory};

/// Whether a sign or a zero stands ahead of more.
fn is_padded(text: &str) -> bool
    ensures long { result ≡ true → 1 < length text.now }
    ensures low { result ≡ true → slice_index_or text.now 0 0 ≤ 48 }
    ensures high { result ≡ false → 1 < length text.now → 48 < slice_index_or text.now 0 0 }
{
    let bytes = text.as_bytes();
    bytes.len() > 1 && bytes[0] <= b'0'
}

/// The number that a text writes in decimal digits, with no sign and no zero ahead.
fn written(text: &str) -> Option<usize>
    ensures is { IfSome result (λ k. decimal k ≡ text.now) }
    ensures only { (k : ℕ) → k < 2 ^ 64 → text.now ≡ decimal k → result ≡ Some k }
{
    if is_padded(text) {
        return None;
    }
    match text.parse::<usize>() {
        Ok(number) => Some(number),
        Err(_) => None,
    }
}

/// The number that a text has behind another.
fn number_behind(text: &str, base: &str) -> Option<usize>
    ensures is { IfSome result (λ k. text.now ≡ base.now ++ decimal k) }
    ensures only { (k : ℕ) → k < 2 ^ 64 → text.now ≡ base.now ++ decimal k → result ≡ Some k }
{
    match text.strip_prefix(base) {
        Some(behind) => written(behind),
        None => None,
    }
}

/// Marks a number, if it is one of the first.
fn mark_number(number: Option<usize>, used: &mut Vec<bool>)
    ensures length { length used.new.items ≡ length used.old.items }
    ensures marked { (k : ℕ) → k < length used.old.items → number ≡ Some k → slice_index_or used.new.items k false ≡ true }
    ensures kept { (k : ℕ) → number ≢ Some k → slice_index_or used.new.items k false ≡ slice_index_or used.old.items k false }
{
    if let Some(number) = number {
        if number < used.len() {
            used[number] = true;
        }
    }
}

/// Which of the first numbers a taken name has behind the base, of as many as there are names.
pub(crate) fn used_numbers(
    bank: &Bank<'_>,
    taken: &[NameId],
    base: NameId,
) -> Result<Vec<bool>, NoMemory>
    requires taken { AllByRecursion (HasName bank.now) taken.now }
    requires base { HasName bank.now base }
    ensures { IfOk result (λ v. AreUsed (map (text_of bank.now) taken.now) (text_of bank.now base) (length taken.now) v.items) }
{
    let mut used = vec![in bank.allocator(); false; taken.len()]?;
    for name in taken {
        mark_number(number_behind(bank.text(*name), bank.text(base)), &mut used);
    }
    Ok(used)
}

/// The first number that is not used.
pub(crate) fn first_free(used: &[bool]) -> usize
    ensures before { (k : ℕ) → k < result → slice_index_or used.now k false ≡ true }
    ensures within { result ≤ length used.now }
    ensures free { result < length used.now → slice_index_or used.now result false ≡ false }
{
    for number in 0..used.len() {
        if !used[number] {
            return number;
        }
    }
    used.len()
}
