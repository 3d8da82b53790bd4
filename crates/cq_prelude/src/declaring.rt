//! Which declarations are of functions alone.

ghost use Rattle.std.specs.Prelude.{◌≡◌};
ghost use Rattle.c_tree.specs.Lists.{init_declrs_from};
ghost use Rattle.c_tree.specs.Specifiers.{storage_words};
ghost use Rattle.c_tree.specs.Unit.{declares_function, is_round_name, spec_words_from};
ghost use Rattle.c_tree.specs.View.{declr_of, spec_word_of};
ghost use Rattle.c_units.specs.Scoping.{has_typedef_word};
ghost use Rattle.cq_prelude.specs.Placing.{declare_functions, has_some, is_of_functions};
ghost use Rattle.cq_prelude.specs.Words.{is_typedef_word};

use c_syntax::{Declr, InitDeclr, Listed, SpecWord};
use c_words::Keyword;

fn is_typedef(word: &SpecWord) -> bool
    ensures { result ≡ is_typedef_word (spec_word_of word.now) }
{
    match word {
        SpecWord::Storage(word) => matches!(word.keyword, Keyword::Typedef),
        SpecWord::Thread { .. }
        | SpecWord::Inline { .. }
        | SpecWord::Noreturn { .. }
        | SpecWord::Qual(_)
        | SpecWord::Type(_)
        | SpecWord::Struct(_)
        | SpecWord::Enum(_)
        | SpecWord::TypedefName(_)
        | SpecWord::Attr(_)
        | SpecWord::Typeof { .. }
        | SpecWord::TypeofType { .. }
        | SpecWord::Align(_)
        | SpecWord::Auto { .. } => false,
    }
}

/// Whether there is a `typedef` among specifiers.
#[tactic(auto, using(crate::proofs::Typedefs::typedef_more))]
fn declare_types(words: &[SpecWord]) -> bool
    ensures { result ≡ has_typedef_word (storage_words (spec_words_from words.now)) }
{
    for word in words {
        if is_typedef(word) {
            return true;
        }
    }
    false
}

/// Whether parameters are the form directly around the name, parentheses aside, or around the declarator where
/// `is_above` says so. Recursive as deep as the declarator.
fn has_params(d: &Declr, is_above: bool) -> bool
    ensures { result ≡ is_round_name (declr_of d.now) is_above }
{
    match d {
        Declr::DeclName { .. } => is_above,
        Declr::DeclParen { inner, .. } => has_params(inner, is_above),
        Declr::Params { inner, .. } => has_params(inner, true),
        Declr::Pointer { inner, .. } | Declr::Array { inner, .. } => has_params(inner, false),
        Declr::Identifiers { .. }
        | Declr::AbsPointer { .. }
        | Declr::AbsParen { .. }
        | Declr::AbsArray { .. }
        | Declr::AbsParams { .. }
        | Declr::BaseName { .. } => false,
    }
}

/// Whether each declarator is that of a function.
fn are_functions(declrs: &[Listed<InitDeclr>]) -> bool
    ensures { result ≡ declare_functions (init_declrs_from declrs.now) }
{
    for declr in declrs {
        if !has_params(&declr.item.declr, false) {
            return false;
        }
    }
    true
}

/// Whether a declaration with these parts declares functions alone, and one at least. Linear in its words and
/// declarators.
pub(crate) fn declares_functions(words: &[SpecWord], declrs: &[Listed<InitDeclr>]) -> bool
    ensures { result
        ≡ is_of_functions (spec_words_from words.now) (init_declrs_from declrs.now) }
{
    if declare_types(words) {
        return false;
    }
    match declrs.split_first() {
        Some(_) => are_functions(declrs),
        None => false,
    }
}
