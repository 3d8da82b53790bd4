//! Whole declaration specifiers from their words (C99, 6.7).

ghost use Rattle.std.specs.Prelude.{◌≡◌, OnOk, IfOk, IfErr};
ghost use Rattle.c_tree.specs.Specifiers.{IsMix};
ghost use Rattle.c_tree.specs.View.{spec_word_of};
ghost use Rattle.c_tree.specs.Unit.{spec_words_from};
ghost use Rattle.c_specs.specs.Faults.{qual_token, word_token, IsFault};

use crate::mix::Mix;
use c_syntax::{Qual, SpecWord, Specs};
use qual_base::TokenId;

/// Why words are no specifiers.
#[derive(Clone, Copy, PartialEq, Eq, Debug)]
pub enum SpecFault {
    /// The first token of the first word with which no mix begins.
    BadMix(TokenId),
    /// A mix begins with all the words, and they are none.
    Unfinished,
}

/// The token of a qualifier.
fn qual_token(qual: Qual) -> TokenId
    ensures { result ≡ qual_token qual }
{
    match qual {
        Qual::Word(word) => word.token,
        Qual::Element { token } | Qual::Index { token } => token,
    }
}

/// The first token of a word.
fn word_token(word: &SpecWord) -> TokenId
    ensures { result ≡ word_token (spec_word_of word.now) }
{
    match word {
        SpecWord::Storage(word) | SpecWord::Type(word) => word.token,
        SpecWord::Thread { token } => *token,
        SpecWord::Inline { token } | SpecWord::Noreturn { token } => *token,
        SpecWord::Qual(qual) => qual_token(*qual),
        SpecWord::Struct(it) => it.keyword.token,
        SpecWord::Enum(it) => it.keyword,
        SpecWord::TypedefName(name) => name.token,
        SpecWord::Attr(attr) | SpecWord::Align(attr) => attr.keyword,
        SpecWord::Typeof { keyword, .. } => *keyword,
        SpecWord::TypeofType { keyword, .. } => keyword.token,
        SpecWord::Auto { token } => *token,
    }
}

/// Whether words are a mix, read one by one.
fn read(words: &[SpecWord]) -> Result<(), SpecFault>
    ensures whole { OnOk result (IsMix (spec_words_from words.now)) }
    ensures fault { IfErr result (λ fault. IsFault (spec_words_from words.now) fault) }
{
    let mut mix = Mix::new();
    for word in words {
        match mix.with(word) {
            Some(next) => mix = next,
            None => return Err(SpecFault::BadMix(word_token(word))),
        }
    }
    if mix.is_whole() {
        Ok(())
    } else {
        Err(SpecFault::Unfinished)
    }
}

/// Specifiers of these words in their order, or why the words are none.
///
/// Linear in the words. Takes no memory.
pub fn read_specs(words: Vec<SpecWord>) -> Result<Specs, SpecFault>
    ensures whole { OnOk result (IsMix (spec_words_from words.items)) }
    ensures kept { IfOk result (λ specs. specs.words.items ≡ words.items) }
    ensures fault { IfErr result (λ fault. IsFault (spec_words_from words.items) fault) }
{
    match read(words.as_slice()) {
        Ok(()) => Ok(Specs { words }),
        Err(fault) => Err(fault),
    }
}
