//! The longest token in front of some bytes.

ghost use Rattle.std.specs.Prelude.{◌≡◌, ◌==◌, length, take, MatchOption, IfSome};
ghost use Rattle.c_lexer.specs.Spelling.{is_letter, begins_with, is_token, IsLongestOf, HasNone};
ghost use Rattle.c_lexer.specs.Shapes.{HasShape};

use crate::fronts::{char_len, dollar_len, is_letter_byte, number_len, text_len, word_len};
use crate::signs::sign_in_front;
use c_words::Punct;

/// What the bytes of a token are, before words are looked up.
#[derive(Clone, Copy)]
pub(crate) enum Shape {
    Word,
    Number,
    Char,
    Text,
    Dollar,
    Sign(Punct),
}

fn begins_with_letter(bytes: &[u8]) -> bool
    ensures { result ≡ begins_with is_letter bytes.now }
{
    match bytes {
        [first, ..] => is_letter_byte(*first),
        [] => false,
    }
}

fn begins_with_dollar(bytes: &[u8]) -> bool
    ensures { result ≡ begins_with (λ c. c == 36) bytes.now }
{
    match bytes {
        [first, ..] => *first == b'$',
        [] => false,
    }
}

/// The longest token in front, with its length, in the time of going over it once or twice.
pub(crate) fn longest_token(bytes: &[u8]) -> Option<(Shape, usize)>
    ensures longest { MatchOption result
        (HasNone is_token bytes.now) (λ found. IsLongestOf is_token bytes.now found.1) }
    ensures shape { IfSome result (λ found. HasShape found.0 (take found.1 bytes.now)) }
{
    if let Some(n) = char_len(bytes) {
        return Some((Shape::Char, n));
    }
    if let Some(n) = text_len(bytes) {
        return Some((Shape::Text, n));
    }
    if begins_with_letter(bytes) {
        return Some((Shape::Word, word_len(bytes)));
    }
    if begins_with_dollar(bytes) {
        return Some((Shape::Dollar, dollar_len(bytes)));
    }
    if let Some(n) = number_len(bytes) {
        return Some((Shape::Number, n));
    }
    match sign_in_front(bytes) {
        Some((sign, n)) => Some((Shape::Sign(sign), n)),
        None => None,
    }
}
