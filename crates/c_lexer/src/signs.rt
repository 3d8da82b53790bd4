//! Operators and brackets.

ghost use Rattle.std.specs.Prelude.{◌≡◌, ◌∷◌, [], length, take, nat_le, if◌then◌else◌, MatchOption};
ghost use Rattle.c_lexer.specs.Words.{signs, sign_kind};
ghost use Rattle.c_lexer.specs.Spelling.{is_sign, IsLongestOf, HasNone};

use c_words::Punct;

#[tactic(auto, unfolding(crate::specs::Words::signs, crate::specs::Words::sign_kind))]
fn sign_of_one(byte: u8) -> Option<Punct>
    ensures { result ≡ sign_kind (byte ∷ []) }
{
    match byte {
        b'[' => Some(Punct::OpenBracket),
        b']' => Some(Punct::CloseBracket),
        b'(' => Some(Punct::OpenParen),
        b')' => Some(Punct::CloseParen),
        b'{' => Some(Punct::OpenBrace),
        b'}' => Some(Punct::CloseBrace),
        b'.' => Some(Punct::Dot),
        b'&' => Some(Punct::Ampersand),
        b'*' => Some(Punct::Star),
        b'+' => Some(Punct::Plus),
        b'-' => Some(Punct::Minus),
        b'~' => Some(Punct::Tilde),
        b'!' => Some(Punct::Bang),
        b'/' => Some(Punct::Slash),
        b'%' => Some(Punct::Percent),
        b'<' => Some(Punct::Less),
        b'>' => Some(Punct::Greater),
        b'^' => Some(Punct::Caret),
        b'|' => Some(Punct::Bar),
        b'?' => Some(Punct::Question),
        b':' => Some(Punct::Colon),
        b';' => Some(Punct::Semicolon),
        b'=' => Some(Punct::Equal),
        b',' => Some(Punct::Comma),
        _ => None,
    }
}

#[tactic(auto, unfolding(crate::specs::Words::signs, crate::specs::Words::sign_kind))]
fn sign_of_two(first: u8, second: u8) -> Option<Punct>
    ensures { result ≡ sign_kind (first ∷ second ∷ []) }
{
    match (first, second) {
        (b'-', b'>') => Some(Punct::Arrow),
        (b'+', b'+') => Some(Punct::PlusPlus),
        (b'-', b'-') => Some(Punct::MinusMinus),
        (b'<', b'<') => Some(Punct::ShiftLeft),
        (b'>', b'>') => Some(Punct::ShiftRight),
        (b'<', b'=') => Some(Punct::LessEqual),
        (b'>', b'=') => Some(Punct::GreaterEqual),
        (b'=', b'=') => Some(Punct::EqualEqual),
        (b'!', b'=') => Some(Punct::BangEqual),
        (b'&', b'&') => Some(Punct::AmpersandAmpersand),
        (b'|', b'|') => Some(Punct::BarBar),
        (b'*', b'=') => Some(Punct::StarEqual),
        (b'/', b'=') => Some(Punct::SlashEqual),
        (b'%', b'=') => Some(Punct::PercentEqual),
        (b'+', b'=') => Some(Punct::PlusEqual),
        (b'-', b'=') => Some(Punct::MinusEqual),
        (b'&', b'=') => Some(Punct::AmpersandEqual),
        (b'^', b'=') => Some(Punct::CaretEqual),
        (b'|', b'=') => Some(Punct::BarEqual),
        _ => None,
    }
}

#[tactic(auto, unfolding(crate::specs::Words::signs, crate::specs::Words::sign_kind))]
fn sign_of_three(first: u8, second: u8, third: u8) -> Option<Punct>
    ensures { result ≡ sign_kind (first ∷ second ∷ third ∷ []) }
{
    match (first, second, third) {
        (b'.', b'.', b'.') => Some(Punct::Ellipsis),
        (b'<', b'<', b'=') => Some(Punct::ShiftLeftEqual),
        (b'>', b'>', b'=') => Some(Punct::ShiftRightEqual),
        _ => None,
    }
}

fn three_in_front(bytes: &[u8]) -> Option<Punct>
    ensures { result
        ≡ (if nat_le 3 (length bytes.now) then sign_kind (take 3 bytes.now) else None) }
{
    match bytes {
        [first, second, third, ..] => sign_of_three(*first, *second, *third),
        _ => None,
    }
}

fn two_in_front(bytes: &[u8]) -> Option<Punct>
    ensures { result
        ≡ (if nat_le 2 (length bytes.now) then sign_kind (take 2 bytes.now) else None) }
{
    match bytes {
        [first, second, ..] => sign_of_two(*first, *second),
        _ => None,
    }
}

fn one_in_front(bytes: &[u8]) -> Option<Punct>
    ensures { result
        ≡ (if nat_le 1 (length bytes.now) then sign_kind (take 1 bytes.now) else None) }
{
    match bytes {
        [first, ..] => sign_of_one(*first),
        [] => None,
    }
}

/// The longest operator or bracket in front, with its length.
pub(crate) fn sign_in_front(bytes: &[u8]) -> Option<(Punct, usize)>
    ensures { MatchOption result (HasNone is_sign bytes.now) (λ found. (sign_kind
        (take found.1 bytes.now) ≡ Some found.0) × IsLongestOf is_sign bytes.now found.1) }
{
    if let Some(sign) = three_in_front(bytes) {
        return Some((sign, 3));
    }
    if let Some(sign) = two_in_front(bytes) {
        return Some((sign, 2));
    }
    match one_in_front(bytes) {
        Some(sign) => Some((sign, 1)),
        None => None,
    }
}
