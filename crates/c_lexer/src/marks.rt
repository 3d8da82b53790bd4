//! Linemarkers.

ghost use Rattle.std.specs.Prelude.{ℕ, ◌≡◌, ◌+◌, ◌<◌, ◌≤◌, ◌==◌, ◌||◌, ◌&&◌, true, false, nat_lt};
ghost use Rattle.std.specs.Prelude.{nat_le, length, drop, MatchOption};
ghost use Rattle.std.specs.List.{prefix_len, list_all};
ghost use Rattle.c_lexer.specs.Spelling.{begins_with, is_digit};
ghost use Rattle.c_lexer.specs.Gaps.{is_blank};
ghost use Rattle.c_lexer.specs.Marks.{may_stand, are_flags, decimal, IsMarker};

use crate::fronts::quoted_len;

/// What a linemarker says: the number of the next line, and where the file name stands in the marker's line.
#[derive(Clone, Copy)]
pub(crate) struct Marker {
    pub(crate) number: u32,
    pub(crate) name_from: usize,
    pub(crate) name_to: usize,
}

fn is_blank_byte(byte: u8) -> bool
    ensures { result ≡ is_blank byte }
{
    matches!(byte, b' ' | b'\t')
}

fn blank_len(bytes: &[u8]) -> usize
    ensures value { result ≡ prefix_len is_blank bytes.now }
    ensures within { result ≤ length bytes.now }
{
    bytes
        .iter()
        .take_while(|byte| is_blank_byte(**byte))
        .count()
}

fn digit_len(bytes: &[u8]) -> usize
    ensures value { result ≡ prefix_len is_digit bytes.now }
    ensures within { result ≤ length bytes.now }
{
    bytes
        .iter()
        .take_while(|byte| byte.is_ascii_digit())
        .count()
}

fn may_stand_there(spaced: bool, byte: u8) -> bool
    ensures { result ≡ may_stand spaced byte }
{
    is_blank_byte(byte) || (spaced && matches!(byte, b'1'..=b'4'))
}

fn are_all_flags(bytes: &[u8]) -> bool
    ensures { result ≡ are_flags false bytes.now }
{
    let mut spaced = false;
    for byte in bytes {
        if !may_stand_there(spaced, *byte) {
            return false;
        }
        spaced = is_blank_byte(*byte);
    }
    !spaced
}

/// The number that at most nine digits write.
fn number_of(digits: &[u8]) -> u32
    requires few { length digits.now ≤ 9 }
    requires digits { list_all is_digit digits.now ≡ true }
    ensures { result ≡ decimal digits.now }
{
    let mut number: u32 = 0;
    for digit in digits {
        number = 10 * number + u32::from(*digit - b'0');
    }
    number
}

/// Where the parts of a line stand that may be a linemarker.
#[derive(Clone, Copy)]
struct Parts {
    digits_at: usize,
    digits_end: usize,
    quote_at: usize,
}

fn parts_of(line: &[u8]) -> Parts
    requires { begins_with (λ c. c == 35) line.now ≡ true }
    ensures digits_at { result.digits_at ≡ 1 + prefix_len is_blank (drop 1 line.now) }
    ensures digits_end { result.digits_end
        ≡ result.digits_at + prefix_len is_digit (drop result.digits_at line.now) }
    ensures quote_at { result.quote_at
        ≡ result.digits_end + prefix_len is_blank (drop result.digits_end line.now) }
    ensures inside { result.quote_at ≤ length line.now }
{
    let digits_at = 1 + blank_len(&line[1..]);
    let digits_end = digits_at + digit_len(&line[digits_at..]);
    let quote_at = digits_end + blank_len(&line[digits_end..]);
    Parts {
        digits_at,
        digits_end,
        quote_at,
    }
}

/// Whether each part has as many bytes as a linemarker wants.
fn are_long_enough(parts: Parts) -> bool
    ensures { result ≡ (nat_lt 1 parts.digits_at
        && (nat_lt parts.digits_at parts.digits_end && (nat_le parts.digits_end
        (parts.digits_at + 9) && nat_lt parts.digits_end parts.quote_at))) }
{
    1 < parts.digits_at
        && parts.digits_at < parts.digits_end
        && parts.digits_end - parts.digits_at <= 9
        && parts.digits_end < parts.quote_at
}

/// What the line says, where it is a linemarker.
pub(crate) fn marker_of(line: &[u8]) -> Option<Marker>
    requires { begins_with (λ c. c == 35) line.now ≡ true }
    ensures { MatchOption result ((m : _) → ¬ IsMarker line.now m) (λ m. IsMarker line.now m) }
{
    let parts = parts_of(line);
    if !are_long_enough(parts) {
        return None;
    }
    let Some(file) = quoted_len(b'"', &line[parts.quote_at..]) else {
        return None;
    };
    if !are_all_flags(&line[parts.quote_at + file..]) {
        return None;
    }
    Some(Marker {
        number: number_of(&line[parts.digits_at..parts.digits_end]),
        name_from: parts.quote_at + 1,
        name_to: parts.quote_at + file - 1,
    })
}
