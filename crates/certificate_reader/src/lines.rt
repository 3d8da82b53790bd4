//! The lines of a certificate, one by one.

ghost use Rattle.std.specs.Prelude.{◌≡◌, ◌-◌, ◌^◌, ◌==◌, min, [], ◌∷◌, MatchOption, option_map};
ghost use Rattle.std.specs.Prelude.{codes, length, slice_index};
ghost use Rattle.path_checker.specs.Lines.{behind, number_behind, number_of};
ghost use Rattle.certificate_reader.specs.Lines.{bits_of, by_lattice, by_letter, by_pair, by_set};
ghost use Rattle.certificate_reader.specs.Lines.{end_in, line_kind, pair_kind, set_kind, words};

use path_checker::split_at_first;

/// A line of a certificate. A variable is named by an end: constraint n has the ends 2n and 2n + 1.
#[derive(Clone, Copy, PartialEq, Eq, Debug)]
pub enum Line {
    Certificate,
    /// A number above 2^32 - 1 is read as that.
    Lattice(u32),
    /// The name of a variable, and its two sets. The number of a constraint above 2^31 - 1 is read as that, in a pair too.
    Set(u32, u64, u64),
    /// The names of two variables.
    Pair(u32, u32),
    Other,
}

const CERTIFICATE: &[u8] = b"certificate";

const LATTICE_WORD: &[u8] = b"lattice ";

const SET_WORD: &[u8] = b"  set ";

const PAIR_WORD: &[u8] = b"  pair ";

/// The number of the last constraint that a name may have.
const MOST: u128 = 0x7fff_ffff;

/// What stands behind a word that a line begins with.
fn behind<'a>(word: &[u8], line: &'a [u8]) -> Option<&'a [u8]>
    ensures { option_map (λ x. x.now) result ≡ behind word.now line.now }
{
    line.strip_prefix(word)
}

/// The number that digits write, or `u128::MAX` where it is greater.
fn number_behind(digits: &[u8]) -> Option<u128>
    ensures { result ≡ option_map (λ n. min n (2 ^ 128 - 1)) (number_behind 0 digits.now) }
{
    let mut number: u128 = 0;
    for digit in digits {
        if !digit.is_ascii_digit() {
            return None;
        }
        number = number
            .saturating_mul(10)
            .saturating_add(u128::from(*digit - b'0'));
    }
    Some(number)
}

/// The number of a numeral without leading zeros, or `u128::MAX` where it is greater.
fn number_of(numeral: &[u8]) -> Option<u128>
    ensures { result ≡ option_map (λ n. min n (2 ^ 128 - 1)) (number_of numeral.now) }
{
    match numeral {
        [] => None,
        [b'0', _, ..] => None,
        _ => number_behind(numeral),
    }
}

/// A set of elements, which has at most 64 bits.
fn bits_in(numeral: &[u8]) -> Option<u64>
    ensures { result ≡ bits_of (number_of numeral.now) }
{
    match number_of(numeral) {
        Some(number) if number <= 0xffff_ffff_ffff_ffff => Some(number as u64),
        _ => None,
    }
}

/// The end of a constraint whose number is written, its first or its second.
fn end_of(numeral: &[u8], second: u32) -> Option<u32>
    requires { Rattle.std.specs.Prelude.◌≤◌ second 1 }
    ensures { result ≡ Rattle.certificate_reader.specs.Lines.end_of (number_of numeral.now) second }
{
    match number_of(numeral) {
        Some(number) => Some(2 * (number.min(MOST) as u32) + second),
        None => None,
    }
}

/// The end that a name is.
fn end_in(name: &[u8]) -> Option<u32>
    ensures { result ≡ end_in name.now }
{
    match name {
        [numeral @ .., b'a'] => end_of(numeral, 0),
        [numeral @ .., b'b'] => end_of(numeral, 1),
        _ => None,
    }
}

/// A line of sets, behind its first word.
fn set_kind(rest: &[u8]) -> Line
    ensures { result ≡ set_kind (words rest.now) }
{
    let Some((name, sets)) = split_at_first(b' ', rest) else {
        return Line::Other;
    };
    let Some((first, second)) = split_at_first(b' ', sets) else {
        return Line::Other;
    };
    if let Some((_, _)) = split_at_first(b' ', second) {
        return Line::Other;
    }
    match (end_in(name), bits_in(first), bits_in(second)) {
        (Some(name), Some(first), Some(second)) => Line::Set(name, first, second),
        _ => Line::Other,
    }
}

/// A line of a pair, behind its first word.
fn pair_kind(rest: &[u8]) -> Line
    ensures { result ≡ pair_kind (words rest.now) }
{
    let Some((from, to)) = split_at_first(b' ', rest) else {
        return Line::Other;
    };
    if let Some((_, _)) = split_at_first(b' ', to) {
        return Line::Other;
    }
    match (end_in(from), end_in(to)) {
        (Some(from), Some(to)) => Line::Pair(from, to),
        _ => Line::Other,
    }
}

/// A line of a lattice, by its number.
fn lattice_kind(numeral: &[u8]) -> Line
    ensures { result ≡ Rattle.certificate_reader.specs.Lines.lattice_line (number_of numeral.now) }
{
    match number_of(numeral) {
        Some(number) => Line::Lattice(number.min(0xffff_ffff) as u32),
        None => Line::Other,
    }
}

/// A line that begins with two spaces.
fn inner_kind(line: &[u8]) -> Line
    ensures { result ≡ by_set (behind (codes "  set ") line.now) line.now }
{
    match behind(SET_WORD, line) {
        Some(rest) => set_kind(rest),
        None => match behind(PAIR_WORD, line) {
            Some(rest) => pair_kind(rest),
            None => Line::Other,
        },
    }
}

/// What a line is, without its line feed. Linear in the line.
#[tactic(auto, unfolding(crate::specs::Lines::line_kind))]
pub fn line_kind(line: &[u8]) -> Line
    ensures { result ≡ line_kind line.now }
{
    if line == CERTIFICATE {
        return Line::Certificate;
    }
    match behind(LATTICE_WORD, line) {
        Some(numeral) => lattice_kind(numeral),
        None => inner_kind(line),
    }
}
