//! What kind of name a declaration declares.

ghost use Rattle.std.specs.Prelude.{◌≡◌};
ghost use Rattle.c_tree.specs.Specifiers.{storage_words};
ghost use Rattle.c_tree.specs.Unit.{spec_words_from};
ghost use Rattle.c_tree.specs.View.{spec_word_of};
ghost use Rattle.c_units.specs.Scoping.{declared_kind, has_typedef_word, is_typedef_word};
ghost use Rattle.decl_forms.specs.Storage.{storage_of};
ghost use Rattle.c_tree.specs.WellFormed.{is_auto, has_auto};

use c_syntax::SpecWord;
use c_words::Keyword;
use typedef_scope::Kind;

/// Whether a keyword is `typedef`.
fn is_typedef_word(keyword: Keyword) -> bool
    ensures { result ≡ is_typedef_word keyword }
{
    match keyword {
        Keyword::Typedef => true,
        _ => false,
    }
}

/// Whether a word is `typedef`.
fn is_typedef(word: &SpecWord) -> bool
    ensures { result ≡ has_typedef_word (storage_of (spec_word_of word.now)) }
{
    match word {
        SpecWord::Storage(word) => is_typedef_word(word.keyword),
        _ => false,
    }
}

/// Whether `typedef` stands among words. Linear in these.
#[tactic(auto, using(crate::proofs::Words::typedef_from))]
pub fn has_typedef(words: &[SpecWord]) -> bool
    ensures { result ≡ has_typedef_word (storage_words (spec_words_from words.now)) }
{
    for word in words {
        if is_typedef(word) {
            return true;
        }
    }
    false
}

/// The kind of the names of a declaration. Linear in its words.
pub(crate) fn declared_kind(words: &[SpecWord]) -> Kind
    ensures { result ≡ declared_kind (spec_words_from words.now) }
{
    if has_typedef(words) {
        Kind::Typedef
    } else {
        Kind::Value
    }
}

/// Whether a word is `__auto_type`.
fn is_auto(word: &SpecWord) -> bool
    ensures { result ≡ is_auto (spec_word_of word.now) }
{
    match word {
        SpecWord::Auto { .. } => true,
        SpecWord::Storage(_)
        | SpecWord::Thread { .. }
        | SpecWord::Inline { .. }
        | SpecWord::Noreturn { .. }
        | SpecWord::Qual(_)
        | SpecWord::Type(_)
        | SpecWord::Struct(_)
        | SpecWord::Enum(_)
        | SpecWord::TypedefName(_)
        | SpecWord::Attr(_)
        | SpecWord::Typeof { .. }
        | SpecWord::TypeofType { .. }
        | SpecWord::Align(_) => false,
    }
}

/// Whether `__auto_type` stands among words. Linear in these.
pub fn has_auto(words: &[SpecWord]) -> bool
    ensures { result ≡ has_auto (spec_words_from words.now) }
{
    for word in words {
        if is_auto(word) {
            return true;
        }
    }
    false
}
