//! The number of a source that the tool makes.

ghost use Rattle.std.specs.Prelude.{◌≡◌, IfSome};
ghost use Rattle.cqual_words.specs.Words.{IsMade, begins_number, number_of};

/// The greatest number of a source that the tool makes.
const MOST: u32 = 1000;

/// Whether a text begins with a digit other than 0.
fn begins_number(text: &str) -> bool
    ensures { result ≡ begins_number text.now }
{
    match text.as_bytes() {
        [] => false,
        [first, ..] => b'1' <= *first && *first <= b'9',
    }
}

/// The number of a text: a decimal numeral of 1 to 1000, with no sign and no 0 before it.
#[tactic(auto, using(crate::proofs::Numerals::read_number, crate::proofs::Numerals::read_some, crate::proofs::Numerals::no_number))]
pub fn number(text: &str) -> Option<u32>
    ensures number { result ≡ number_of text.now }
    ensures made { IfSome result IsMade }
{
    if !begins_number(text) {
        return None;
    }
    match text.parse::<u32>() {
        Ok(number) if number <= MOST => Some(number),
        _ => None,
    }
}
