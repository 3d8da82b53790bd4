//! What a text begins with, read in one pass over its bytes: a numeral, a name, or a line of sets or of a pair.

ghost use Rattle.std.specs.Prelude.{◌≡◌, ◌<◌, ◌≤◌, ◌*◌, ◌+◌, ◌-◌, ◌^◌, ◌==◌, ◌∷◌, [], min, Some, IfSome};
ghost use Rattle.std.specs.Prelude.{IsTrue, MatchOption, All, ◌++◌, codes, length, take};
ghost use Rattle.std.specs.List.{slice_split};
ghost use Rattle.path_checker.specs.Lines.{number_behind, number_of};
ghost use Rattle.certificate_reader.specs.Lines.{end_in, pair_kind, set_kind};
ghost use Rattle.certificate_reader.specs.Fronts.{BeginsLine, BeginsWith, BeginsWords, EndsAt};

use crate::lines::{Line, line_kind};
use path_checker::split_at_first;

/// The number of the last constraint that a name may have.
const MOST: u64 = 0x7fff_ffff;

/// A number behind which one more digit surely fits into 64 bits.
const MOST_TENS: u64 = u64::MAX / 10 - 1;

/// What stands behind a byte that a text begins with.
fn after(text: &[u8], byte: u8) -> Option<&[u8]>
    ensures { IfSome result (λ rest. text.now ≡ byte ∷ rest.now) }
{
    match text {
        [first, rest @ ..] => { if *first == byte { Some(rest) } else { None } }
        [] => None,
    }
}

/// Whether digits are a numeral: there are some, and no leading zeros.
fn is_numeral(digits: &[u8]) -> bool
    ensures { IsTrue result → number_of digits.now ≡ number_behind 0 digits.now }
{
    match digits {
        [] => false,
        [b'0', _, ..] => false,
        _ => true,
    }
}

/// The number that the first bytes of a text write, which are digits, and what stands behind them, where they are a numeral.
fn cut_at(text: &[u8], at: usize, number: u64) -> Option<(u64, &[u8])>
    requires within { at ≤ length text.now }
    requires number { number_behind 0 (take at text.now) ≡ Some number }
    requires digits { All (λ b. 48 ≤ b) (take at text.now) }
    ensures { IfSome result (λ x. BeginsWith (λ word. number_of word) text.now x.0 x.1.now) }
{
    if is_numeral(&text[..at]) {
        Some((number, &text[at..]))
    } else {
        None
    }
}

/// The number of the numeral that a text begins with, without leading zeros, and what stands behind it. None also where nothing
/// stands behind, or where the digits but the last write more than `MOST_TENS`.
fn numeral(text: &[u8]) -> Option<(u64, &[u8])>
    ensures { IfSome result (λ x. BeginsWith (λ word. number_of word) text.now x.0 x.1.now) }
{
    let mut number: u64 = 0;
    for at in 0..text.len() {
        let byte = text[at];
        if !byte.is_ascii_digit() {
            return cut_at(text, at, number);
        }
        if number > MOST_TENS {
            return None;
        }
        number = 10 * number + u64::from(byte - b'0');
    }
    None
}

/// The end of a constraint with a number, its first or its second.
fn end_of(number: u64, second: u32) -> u32
    requires { second ≤ 1 }
    ensures { result ≡ 2 * min number (2 ^ 31 - 1) + second }
{
    2 * (number.min(MOST) as u32) + second
}

/// The end that the name is that a text begins with, and what stands behind it. None also where nothing does.
fn name(text: &[u8]) -> Option<(u32, &[u8])>
    ensures { IfSome result (λ x. BeginsWith (λ word. end_in word) text.now x.0 x.1.now) }
{
    let Some((number, rest)) = numeral(text) else {
        return None;
    };
    if let Some(behind) = after(rest, b'a') {
        return Some((end_of(number, 0), behind));
    }
    match after(rest, b'b') {
        Some(behind) => Some((end_of(number, 1), behind)),
        None => None,
    }
}

/// A name, and what stands behind the byte that ends it.
fn name_before(text: &[u8], byte: u8) -> Option<(u32, &[u8])>
    ensures { IfSome result (λ x. EndsAt (λ word. end_in word) byte text.now x.0 x.1.now) }
{
    let Some((name, rest)) = name(text) else {
        return None;
    };
    match after(rest, byte) {
        Some(behind) => Some((name, behind)),
        None => None,
    }
}

/// A number, and what stands behind the byte that ends it.
fn number_before(text: &[u8], byte: u8) -> Option<(u64, &[u8])>
    ensures ends { IfSome result (λ x. EndsAt (λ word. number_of word) byte text.now x.0 x.1.now) }
    ensures small { IfSome result (λ x. x.0 < 2 ^ 64) }
{
    let Some((number, rest)) = numeral(text) else {
        return None;
    };
    match after(rest, byte) {
        Some(behind) => Some((number, behind)),
        None => None,
    }
}

/// A line of sets behind its first word, and what stands behind its line feed. None also where the line is none of sets.
fn set_front(text: &[u8]) -> Option<(Line, &[u8])>
    ensures { IfSome result (λ x. BeginsWords (λ words. set_kind words) text.now x.0 x.1.now) }
{
    let Some((name, sets)) = name_before(text, b' ') else {
        return None;
    };
    let Some((first, more)) = number_before(sets, b' ') else {
        return None;
    };
    match number_before(more, b'\n') {
        Some((second, behind)) => Some((Line::Set(name, first, second), behind)),
        None => None,
    }
}

/// A line of a pair behind its first word, and what stands behind its line feed. None also where the line is none of a pair.
fn pair_front(text: &[u8]) -> Option<(Line, &[u8])>
    ensures { IfSome result (λ x. BeginsWords (λ words. pair_kind words) text.now x.0 x.1.now) }
{
    let Some((from, more)) = name_before(text, b' ') else {
        return None;
    };
    match name_before(more, b'\n') {
        Some((to, behind)) => Some((Line::Pair(from, to), behind)),
        None => None,
    }
}

/// What stands behind the first word of a line of sets.
fn after_set(text: &[u8]) -> Option<&[u8]>
    ensures { IfSome result (λ rest. text.now ≡ codes "  set " ++ rest.now) }
{
    match text {
        [b' ', b' ', b's', b'e', b't', b' ', rest @ ..] => Some(rest),
        _ => None,
    }
}

/// What stands behind the first word of a line of a pair.
fn after_pair(text: &[u8]) -> Option<&[u8]>
    ensures { IfSome result (λ rest. text.now ≡ codes "  pair " ++ rest.now) }
{
    match text {
        [b' ', b' ', b'p', b'a', b'i', b'r', b' ', rest @ ..] => Some(rest),
        _ => None,
    }
}

/// The line of sets or of a pair that a text begins with, and what stands behind it. None where it begins with another line, or one
/// with a set of which the digits but the last write more than `MOST_TENS`.
fn plain_line(text: &[u8]) -> Option<(Line, &[u8])>
    ensures { IfSome result (λ x. BeginsLine text.now x.0 x.1.now) }
{
    if let Some(sets) = after_set(text) {
        return set_front(sets);
    }
    match after_pair(text) {
        Some(pair) => pair_front(pair),
        None => None,
    }
}

/// The first line of a text by its first line feed.
fn cut_line(text: &[u8]) -> Option<(Line, &[u8])>
    ensures { MatchOption result (slice_split (λ b. b == 10) text.now ≡ text.now ∷ [])
        (λ x. BeginsLine text.now x.0 x.1.now) }
{
    match split_at_first(b'\n', text) {
        Some((line, behind)) => Some((line_kind(line), behind)),
        None => None,
    }
}

/// The first line of a text that has a line feed, and what stands behind that. A line of sets or of a pair is read in one pass,
/// another is cut off and then read. Linear in the line.
pub fn next_line(text: &[u8]) -> Option<(Line, &[u8])>
    ensures { MatchOption result (slice_split (λ b. b == 10) text.now ≡ text.now ∷ [])
        (λ x. BeginsLine text.now x.0 x.1.now) }
{
    match plain_line(text) {
        Some((line, behind)) => Some((line, behind)),
        None => cut_line(text),
    }
}
