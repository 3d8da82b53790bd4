//! How long the longest token of each kind is that stands in front of some bytes.

ghost use Rattle.std.specs.Prelude.{true, false, not, ◌&&◌, ◌≡◌, ◌≢◌, ◌==◌, ◌<◌, ◌≤◌, ◌+◌, ◌^◌};
ghost use Rattle.std.specs.Prelude.{◌∷◌, [], ℕ, List, length, drop, MatchOption, OnSome, IfSome};
ghost use Rattle.std.specs.List.{prefix_len};
ghost use Rattle.c_lexer.specs.Spelling.{is_digit, is_letter, is_word_byte, is_exponent, goes_on};
ghost use Rattle.c_lexer.specs.Spelling.{is_word, is_number, is_number_tail, is_digits, is_quoted};
ghost use Rattle.c_lexer.specs.Spelling.{is_quoted_tail, is_char, is_text, is_wide, is_dollar};
ghost use Rattle.c_lexer.specs.Spelling.{begins_with, IsLongestOf, NoneShorter, HasNone};

pub(crate) fn is_letter_byte(byte: u8) -> bool
    ensures { result ≡ is_letter byte }
{
    matches!(byte, b'a'..=b'z' | b'A'..=b'Z' | b'_')
}

fn is_word_part(byte: u8) -> bool
    ensures { result ≡ is_word_byte byte }
{
    is_letter_byte(byte) || byte.is_ascii_digit()
}

fn is_exponent_byte(byte: u8) -> bool
    ensures { result ≡ is_exponent byte }
{
    matches!(byte, b'e' | b'E' | b'p' | b'P')
}

fn goes_on_with(before: u8, byte: u8) -> bool
    ensures { result ≡ goes_on before byte }
{
    is_word_part(byte) || byte == b'.' || (matches!(byte, b'+' | b'-') && is_exponent_byte(before))
}

/// How many bytes of words stand in front.
fn word_part_len(bytes: &[u8]) -> usize
    ensures value { result ≡ prefix_len is_word_byte bytes.now }
    ensures within { result ≤ length bytes.now }
{
    bytes.iter().take_while(|byte| is_word_part(**byte)).count()
}

/// The length of the word in front.
pub(crate) fn word_len(bytes: &[u8]) -> usize
    requires { begins_with is_letter bytes.now ≡ true }
    ensures { IsLongestOf is_word bytes.now result }
{
    word_part_len(bytes)
}

/// The length of the `$` word in front.
pub(crate) fn dollar_len(bytes: &[u8]) -> usize
    requires { begins_with (λ c. c == 36) bytes.now ≡ true }
    ensures { IsLongestOf is_dollar bytes.now result }
{
    1 + word_part_len(&bytes[1..])
}

/// How many bytes go on with a number behind a byte of it.
fn number_tail_len(before: u8, bytes: &[u8]) -> usize
    ensures { IsLongestOf (is_number_tail before) bytes.now result }
{
    let mut last = before;
    for (at, byte) in bytes.iter().enumerate() {
        if !goes_on_with(last, *byte) {
            return at;
        }
        last = *byte;
    }
    bytes.len()
}

pub(crate) fn begins_with_digit(bytes: &[u8]) -> bool
    ensures { result ≡ begins_with is_digit bytes.now }
{
    match bytes {
        [first, ..] => first.is_ascii_digit(),
        [] => false,
    }
}

/// The length of a digit in front and what goes on with it.
fn digits_len(bytes: &[u8]) -> usize
    requires { begins_with is_digit bytes.now ≡ true }
    ensures { IsLongestOf is_digits bytes.now result }
{
    1 + number_tail_len(bytes[0], &bytes[1..])
}

/// Whether `.` and a digit stand in front.
fn begins_with_fraction(bytes: &[u8]) -> bool
    ensures { result
        ≡ (begins_with (λ c. c == 46) bytes.now && begins_with is_digit (drop 1 bytes.now)) }
{
    bytes.len() > 1 && bytes[0] == b'.' && bytes[1].is_ascii_digit()
}

/// The length of the number in front.
pub(crate) fn number_len(bytes: &[u8]) -> Option<usize>
    ensures { MatchOption result
        (HasNone is_number bytes.now) (λ n. IsLongestOf is_number bytes.now n) }
{
    if begins_with_digit(bytes) {
        return Some(digits_len(bytes));
    }
    if begins_with_fraction(bytes) {
        return Some(1 + digits_len(&bytes[1..]));
    }
    None
}

fn closes_quote(quote: u8, escaped: bool, byte: u8) -> bool
    ensures { result ≡ (not escaped && byte == quote) }
{
    !escaped && byte == quote
}

fn opens_escape(escaped: bool, byte: u8) -> bool
    ensures { result ≡ (not escaped && byte == 92) }
{
    !escaped && byte == b'\\'
}

/// The length from behind an opening quote to behind the closing one, where the literal ends on its line.
fn quoted_tail_len(quote: u8, bytes: &[u8]) -> Option<usize>
    requires plain { quote ≢ 92 }
    requires inline { quote ≢ 10 }
    ensures longest { MatchOption result (HasNone (is_quoted_tail quote) bytes.now)
        (λ n. IsLongestOf (is_quoted_tail quote) bytes.now n) }
    ensures only { IfSome result (λ n. NoneShorter (is_quoted_tail quote) bytes.now n) }
{
    let mut escaped = false;
    for (at, byte) in bytes.iter().enumerate() {
        if *byte == b'\n' {
            return None;
        }
        if closes_quote(quote, escaped, *byte) {
            return Some(at + 1);
        }
        escaped = opens_escape(escaped, *byte);
    }
    None
}

fn begins_with_byte(byte: u8, bytes: &[u8]) -> bool
    ensures { result ≡ begins_with (λ c. c == byte) bytes.now }
{
    match bytes {
        [first, ..] => *first == byte,
        [] => false,
    }
}

/// The length of the bytes between two quotes in front.
pub(crate) fn quoted_len(quote: u8, bytes: &[u8]) -> Option<usize>
    requires plain { quote ≢ 92 }
    requires inline { quote ≢ 10 }
    ensures longest { MatchOption result
        (HasNone (is_quoted quote) bytes.now) (λ n. IsLongestOf (is_quoted quote) bytes.now n) }
    ensures only { IfSome result (λ n. NoneShorter (is_quoted quote) bytes.now n) }
{
    if !begins_with_byte(quote, bytes) {
        return None;
    }
    match quoted_tail_len(quote, &bytes[1..]) {
        Some(n) => Some(1 + n),
        None => None,
    }
}

/// Whether a prefix of one byte may stand in front.
fn begins_with_wide(bytes: &[u8]) -> bool
    ensures { result ≡ begins_with is_wide bytes.now }
{
    match bytes {
        [first, ..] => matches!(*first, b'L' | b'u' | b'U'),
        [] => false,
    }
}

fn begins_with_u8(bytes: &[u8]) -> bool
    ensures { result
        ≡ (begins_with (λ c. c == 117) bytes.now && begins_with (λ c. c == 56) (drop 1 bytes.now)) }
{
    bytes.len() > 1 && bytes[0] == b'u' && bytes[1] == b'8'
}

/// The length of the character constant in front.
pub(crate) fn char_len(bytes: &[u8]) -> Option<usize>
    ensures { MatchOption result
        (HasNone is_char bytes.now) (λ n. IsLongestOf is_char bytes.now n) }
{
    if !begins_with_wide(bytes) {
        return quoted_len(b'\'', bytes);
    }
    match quoted_len(b'\'', &bytes[1..]) {
        Some(n) => Some(1 + n),
        None => None,
    }
}

/// The length of the string literal in front that has a prefix of one byte or none.
fn short_text_len(bytes: &[u8]) -> Option<usize>
    requires { (begins_with
        (λ c. c == 117) bytes.now && begins_with (λ c. c == 56) (drop 1 bytes.now)) ≡ false }
    ensures { MatchOption result
        (HasNone is_text bytes.now) (λ n. IsLongestOf is_text bytes.now n) }
{
    if !begins_with_wide(bytes) {
        return quoted_len(b'"', bytes);
    }
    match quoted_len(b'"', &bytes[1..]) {
        Some(n) => Some(1 + n),
        None => None,
    }
}

/// The length of the string literal in front.
pub(crate) fn text_len(bytes: &[u8]) -> Option<usize>
    ensures { MatchOption result
        (HasNone is_text bytes.now) (λ n. IsLongestOf is_text bytes.now n) }
{
    if !begins_with_u8(bytes) {
        return short_text_len(bytes);
    }
    match quoted_len(b'"', &bytes[2..]) {
        Some(n) => Some(2 + n),
        None => None,
    }
}
