//! The lines of a report, one by one.

ghost use Rattle.std.specs.Prelude.{◌≡◌, ◌+◌, ◌==◌, [], ◌∷◌, length, MatchOption, option_map};
ghost use Rattle.std.specs.Prelude.{codes, IfSome};
ghost use Rattle.std.specs.List.{slice_split};
ghost use Rattle.path_checker.specs.Lines.{behind, capped, number_behind, number_of, line_kind};
ghost use Rattle.path_checker.specs.Lines.{step_kind, first_word, by_header};

use memchr::memchr;

/// A line of a report, as far as it is read. A number above 2^32 - 1 is read as 2^32 - 1: no constraint and no
/// sub-path has that number, since a report has fewer lines.
#[derive(Clone, Copy, PartialEq, Eq, Debug)]
pub enum Line {
    Rejected,
    Error,
    Sub(u32),
    Path,
    /// A step by the number of its constraint.
    Take(u32),
    /// A step by the number of a sub-path.
    Through(u32),
    Other,
}

const REJECTED: &[u8] = b"rejected";

const ERROR: &[u8] = b"error";

const ERROR_WORD: &[u8] = b"error ";

const SUB_WORD: &[u8] = b"sub ";

const PATH: &[u8] = b"path";

const INDENT: &[u8] = b"  ";

/// The part of a text before the first such byte, and what stands behind that byte.
pub fn split_at_first(byte: u8, text: &[u8]) -> Option<(&[u8], &[u8])>
    ensures parts { MatchOption result (slice_split (λ b. b == byte) text.now ≡ text.now ∷ []) (λ p.
        slice_split (λ b. b == byte) text.now ≡ p.0.now ∷ slice_split (λ b. b == byte) p.1.now) }
    ensures shorter { IfSome result (λ p. length p.0.now + 1 + length p.1.now ≡ length text.now) }
{
    match memchr(byte, text) {
        Some(at) => Some((&text[..at], &text[at + 1..])),
        None => None,
    }
}

/// What stands behind a word that a line begins with.
fn behind<'a>(word: &[u8], line: &'a [u8]) -> Option<&'a [u8]>
    ensures { option_map (λ x. x.now) result ≡ behind word.now line.now }
{
    line.strip_prefix(word)
}

/// The number that digits write, or `u32::MAX` where it is greater.
fn number_behind(digits: &[u8]) -> Option<u32>
    ensures { result ≡ option_map capped (number_behind 0 digits.now) }
{
    let mut number: u32 = 0;
    for digit in digits {
        if !digit.is_ascii_digit() {
            return None;
        }
        number = number
            .saturating_mul(10)
            .saturating_add(u32::from(*digit - b'0'));
    }
    Some(number)
}

/// The number of a numeral without leading zeros, or `u32::MAX` where it is greater.
fn number_of(numeral: &[u8]) -> Option<u32>
    ensures { result ≡ option_map capped (number_of numeral.now) }
{
    match numeral {
        [] => None,
        [b'0', _, ..] => None,
        _ => number_behind(numeral),
    }
}

/// The step that stands behind the two spaces at the head of a line.
#[tactic(auto, unfolding(crate::specs::Lines::step_kind))]
fn step_kind(step: &[u8]) -> Line
    ensures { result ≡ step_kind step.now }
{
    match behind(SUB_WORD, step) {
        Some(numeral) => match number_of(numeral) {
            Some(number) => Line::Through(number),
            None => Line::Other,
        },
        None => constraint_step(step),
    }
}

/// A step by the number of a constraint, and a space behind it. The rest is not read.
fn constraint_step(step: &[u8]) -> Line
    ensures { result ≡ first_word (slice_split (λ b. b == 32) step.now) }
{
    match split_at_first(b' ', step) {
        Some((numeral, _)) => match number_of(numeral) {
            Some(number) => Line::Take(number),
            None => Line::Other,
        },
        None => Line::Other,
    }
}

/// A line that begins a sub-path, or a step.
fn inner_kind(line: &[u8]) -> Line
    ensures { result ≡ by_header (behind (codes "sub ") line.now) line.now }
{
    match behind(SUB_WORD, line) {
        Some(numeral) => match number_of(numeral) {
            Some(number) => Line::Sub(number),
            None => Line::Other,
        },
        None => match behind(INDENT, line) {
            Some(step) => step_kind(step),
            None => Line::Other,
        },
    }
}

/// What a line is, without its line feed. Linear in the line.
#[tactic(auto, unfolding(crate::specs::Lines::line_kind))]
pub fn line_kind(line: &[u8]) -> Line
    ensures { result ≡ line_kind line.now }
{
    if line == REJECTED {
        return Line::Rejected;
    }
    if line == PATH {
        return Line::Path;
    }
    if line == ERROR || behind(ERROR_WORD, line).is_some() {
        return Line::Error;
    }
    inner_kind(line)
}
