//! The numbers of an index word.

ghost use Rattle.std.specs.Prelude.{◌≡◌, ℕ, List, ◌∷◌, ◌+◌, ◌*◌, ◌-◌, ◌≤◌};
ghost use Rattle.std.specs.Prelude.{IfOk, IfSome, None, Ok, true, false};
ghost use Rattle.index_words.specs.Marks.{AreAscending};
ghost use Rattle.index_words.specs.Words.{AreDifferent, IsDigit, IsIndexWord, most_index};
ghost use Rattle.cq_prelude.specs.Rules.{IsSetOf};
ghost use Rattle.cq_prelude.specs.Written.{Arranges, IsWritten, SayAll};

use qual_base::NoMemory;
use std::alloc::Global;

/// What digits say with one more, where that is a digit and the number is within the limit.
fn with_digit(number: u16, byte: u8) -> Option<u16>
    ensures digit { IfSome result
        (λ n. IsDigit byte × (n ≡ number * 10 + (byte - 48)) × (n ≤ most_index)) }
    ensures none { result ≡ None → IsDigit byte → number * 10 + (byte - 48) ≤ most_index → ⊥ }
{
    if !byte.is_ascii_digit() {
        return None;
    }
    number.checked_mul(10)?.checked_add(u16::from(byte - b'0'))
}

/// The number that digits say; none where there is no digit or another byte, or the number is over the limit.
fn number(digits: &[u8]) -> Option<u16>
    ensures some { IfSome result (IsWritten digits.now) }
    ensures none { result ≡ None → (n : ℕ) → IsWritten digits.now n → ⊥ }
{
    if digits.is_empty() {
        return None;
    }
    let mut number = 0;
    for byte in digits {
        number = with_digit(number, *byte)?;
    }
    Some(number)
}

/// The numbers that groups of digits with `_` between them say, in their order; none where one says none.
fn written(alloc: Global, groups: &[u8]) -> Result<Option<Vec<u16>>, NoMemory>
    ensures some { IfOk result (λ found. IfSome found
        (λ numbers. SayAll groups.now numbers.items)) }
    ensures none { result ≡ Ok None → (ns : List ℕ) → SayAll groups.now ns → ⊥ }
{
    let mut numbers = Vec::new(alloc);
    for group in groups.split(|byte| *byte == b'_') {
        match number(group) {
            Some(number) => numbers.push(number)?,
            None => return Ok(None),
        }
    }
    Ok(Some(numbers))
}

/// Whether each number is below the next.
fn are_ascending(numbers: &[u16]) -> bool
    ensures yes { result ≡ true → AreAscending numbers.now }
    ensures no { result ≡ false → AreAscending numbers.now → ⊥ }
{
    numbers.is_sorted_by(|one, next| one < next)
}

/// Numbers in ascending order; none where one stands there twice.
fn ascending(numbers: Vec<u16>) -> Result<Option<Vec<u16>>, NoMemory>
    ensures some { IfOk result (λ found. IfSome found (λ set. Arranges numbers.items set.items)) }
    ensures none { result ≡ Ok None → AreDifferent numbers.items → ⊥ }
{
    let mut numbers = numbers;
    numbers.sort()?;
    if are_ascending(numbers.as_slice()) {
        Ok(Some(numbers))
    } else {
        Ok(None)
    }
}

/// What stands behind the `$_` of an index word; none where the bytes do not begin so.
fn behind_front(bytes: &[u8]) -> Option<&[u8]>
    ensures some { IfSome result (λ rest. bytes.now ≡ 36 ∷ 95 ∷ rest.now) }
    ensures none { result ≡ None → (rest : List ℕ) → bytes.now ≡ 36 ∷ 95 ∷ rest → ⊥ }
{
    match bytes {
        [b'$', b'_', rest @ ..] => Some(rest),
        _ => None,
    }
}

/// The numbers of an index word in ascending order; none where the bytes are not well formed, or a number is over its
/// limit or stands there twice. The bytes begin with `$`.
///
/// Time is linear in the bytes but for sorting the numbers, memory is linear.
pub(crate) fn numbers_of(alloc: Global, bytes: &[u8]) -> Result<Option<Vec<u16>>, NoMemory>
    ensures some { IfOk result (λ found. IfSome found (λ set. IsSetOf bytes.now set.items)) }
    ensures none { result ≡ Ok None → (written : List ℕ) → IsIndexWord bytes.now written → ⊥ }
{
    let Some(groups) = behind_front(bytes) else {
        return Ok(None);
    };
    match written(alloc, groups)? {
        Some(numbers) => ascending(numbers),
        None => Ok(None),
    }
}
