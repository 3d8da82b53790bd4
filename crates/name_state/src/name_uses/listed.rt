//! Storage words, and places that are one.

ghost use Rattle.std.specs.Prelude.{◌≡◌};
ghost use Rattle.name_rules.specs.Scopes.{is_place};
ghost use Rattle.name_rules.specs.Declaring.{is_word, has_word};

use c_words::Keyword;
use name_tables::name_scopes::Place;

/// Whether two places are one.
pub(crate) fn is_place(one: &Place, other: &Place) -> bool
    ensures { result ≡ is_place one.now other.now }
{
    one.0 == other.0 && one.1 == other.1
}

/// Whether a storage word is this one, of `typedef`, `extern`, `static` and `inline`.
fn is_word(word: Keyword, other: Keyword) -> bool
    ensures { result ≡ is_word word other }
{
    match (word, other) {
        (Keyword::Typedef, Keyword::Typedef)
        | (Keyword::Extern, Keyword::Extern)
        | (Keyword::Static, Keyword::Static)
        | (Keyword::Inline, Keyword::Inline) => true,
        _ => false,
    }
}

/// Whether a storage word is among some. Linear in them.
pub fn has_word(word: Keyword, words: &[Keyword]) -> bool
    ensures { result ≡ has_word word words.now }
{
    for other in words {
        if is_word(word, *other) {
            return true;
        }
    }
    false
}
