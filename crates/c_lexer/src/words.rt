//! The words that are no names.

ghost use Rattle.std.specs.Prelude.{◌≡◌, map, true};
ghost use Rattle.c_lexer.specs.Lengths.{joined, by_length};
ghost use Rattle.c_lexer.specs.Words.{words, kind_in, read_as, word_kind};

use crate::kinds::{Listed, Word};
use c_words::Keyword;

/// The words that are no names: those of each length, from 0 on.
static WORDS: [&[(&[u8], Listed)]; 29] = [
    &[],
    &[],
    &[
        (b"do", Listed::Always(Keyword::Do)),
        (b"if", Listed::Always(Keyword::If)),
    ],
    &[
        (b"asm", Listed::Always(Keyword::Asm)),
        (b"for", Listed::Always(Keyword::For)),
        (b"int", Listed::Always(Keyword::Int)),
    ],
    &[
        (b"auto", Listed::Always(Keyword::Auto)),
        (b"case", Listed::Always(Keyword::Case)),
        (b"char", Listed::Always(Keyword::Char)),
        (b"else", Listed::Always(Keyword::Else)),
        (b"enum", Listed::Always(Keyword::Enum)),
        (b"goto", Listed::Always(Keyword::Goto)),
        (b"long", Listed::Always(Keyword::Long)),
        (b"void", Listed::Always(Keyword::Void)),
    ],
    &[
        (b"_Bool", Listed::Always(Keyword::Bool)),
        (b"__asm", Listed::Always(Keyword::Asm)),
        (b"break", Listed::Always(Keyword::Break)),
        (b"const", Listed::Always(Keyword::Const)),
        (b"float", Listed::Always(Keyword::Float)),
        (b"short", Listed::Always(Keyword::Short)),
        (b"union", Listed::Always(Keyword::Union)),
        (b"while", Listed::Always(Keyword::While)),
    ],
    &[
        (b"double", Listed::Always(Keyword::Double)),
        (b"extern", Listed::Always(Keyword::Extern)),
        (b"inline", Listed::Always(Keyword::Inline)),
        (b"return", Listed::Always(Keyword::Return)),
        (b"signed", Listed::Always(Keyword::Signed)),
        (b"sizeof", Listed::Always(Keyword::Sizeof)),
        (b"static", Listed::Always(Keyword::Static)),
        (b"struct", Listed::Always(Keyword::Struct)),
        (b"switch", Listed::Always(Keyword::Switch)),
        (b"typeof", Listed::Wide(Keyword::Typeof)),
        (b"__imag", Listed::Added(Keyword::Part)),
        (b"__real", Listed::Added(Keyword::Part)),
    ],
    &[
        (b"_Atomic", Listed::Wide(Keyword::Atomic)),
        (b"__asm__", Listed::Always(Keyword::Asm)),
        (b"__const", Listed::Always(Keyword::Const)),
        (b"default", Listed::Always(Keyword::Default)),
        (b"typedef", Listed::Always(Keyword::Typedef)),
    ],
    &[
        (b"_Alignas", Listed::Wide(Keyword::Alignas)),
        (b"_Alignof", Listed::Always(Keyword::Alignof)),
        (b"_Complex", Listed::Complex),
        (b"_Float16", Listed::Always(Keyword::BaseWord)),
        (b"_Float32", Listed::Always(Keyword::BaseWord)),
        (b"_Float64", Listed::Always(Keyword::BaseWord)),
        (b"_Generic", Listed::Wide(Keyword::Generic)),
        (b"__func__", Listed::Text),
        (b"__imag__", Listed::Wide(Keyword::Part)),
        (b"__inline", Listed::Always(Keyword::Inline)),
        (b"__int128", Listed::Always(Keyword::Int128)),
        (b"__real__", Listed::Wide(Keyword::Part)),
        (b"__signed", Listed::Always(Keyword::Signed)),
        (b"__thread", Listed::Always(Keyword::Thread)),
        (b"__typeof", Listed::Wide(Keyword::Typeof)),
        (b"continue", Listed::Always(Keyword::Continue)),
        (b"register", Listed::Always(Keyword::Register)),
        (b"restrict", Listed::Always(Keyword::Restrict)),
        (b"unsigned", Listed::Always(Keyword::Unsigned)),
        (b"volatile", Listed::Always(Keyword::Volatile)),
        (b"__seg_fs", Listed::Added(Keyword::Seg)),
        (b"__seg_gs", Listed::Added(Keyword::Seg)),
    ],
    &[
        (b"_Float128", Listed::Always(Keyword::BaseWord)),
        (b"_Float32x", Listed::Always(Keyword::BaseWord)),
        (b"_Float64x", Listed::Always(Keyword::BaseWord)),
        (b"_Noreturn", Listed::Always(Keyword::Noreturn)),
        (b"__alignof", Listed::Always(Keyword::Alignof)),
        (b"__const__", Listed::Always(Keyword::Const)),
        (b"__label__", Listed::Wide(Keyword::LabelWord)),
        (b"__complex", Listed::Added(Keyword::AnyComplex)),
    ],
    &[
        (b"_Imaginary", Listed::Always(Keyword::Imaginary)),
        (b"__float128", Listed::Always(Keyword::BaseWord)),
        (b"__inline__", Listed::Always(Keyword::Inline)),
        (b"__int128_t", Listed::Always(Keyword::BaseWord)),
        (b"__restrict", Listed::Always(Keyword::Restrict)),
        (b"__signed__", Listed::Always(Keyword::Signed)),
        (b"__typeof__", Listed::Wide(Keyword::Typeof)),
        (b"__volatile", Listed::Always(Keyword::Volatile)),
    ],
    &[
        (b"__alignof__", Listed::Always(Keyword::Alignof)),
        (b"__attribute", Listed::Always(Keyword::Attribute)),
        (b"__auto_type", Listed::Wide(Keyword::AutoType)),
        (b"__complex__", Listed::Complex),
        (b"__uint128_t", Listed::Always(Keyword::BaseWord)),
    ],
    &[
        (b"__FUNCTION__", Listed::Text),
        (b"__restrict__", Listed::Always(Keyword::Restrict)),
        (b"__volatile__", Listed::Always(Keyword::Volatile)),
    ],
    &[
        (b"_Thread_local", Listed::Always(Keyword::Thread)),
        (b"__attribute__", Listed::Always(Keyword::Attribute)),
        (b"__extension__", Listed::Always(Keyword::Extension)),
    ],
    &[(b"_Static_assert", Listed::Always(Keyword::StaticAssert))],
    &[],
    &[(b"__builtin_va_arg", Listed::Always(Keyword::VaArg))],
    &[
        (b"__builtin_va_copy", Listed::Always(Keyword::VaCopy)),
        (b"__builtin_va_list", Listed::Always(Keyword::BaseWord)),
    ],
    &[
        (b"__builtin_offsetof", Listed::Always(Keyword::Offsetof)),
        (b"__builtin_va_start", Listed::Always(Keyword::VaStart)),
    ],
    &[(b"__PRETTY_FUNCTION__", Listed::Text)],
    &[],
    &[(b"__builtin_choose_expr", Listed::Wide(Keyword::Choose))],
    &[],
    &[],
    &[],
    &[],
    &[],
    &[],
    &[(
        b"__builtin_types_compatible_p",
        Listed::Wide(Keyword::Compatible),
    )],
];

/// The tables are the standard's.
#[tactic(auto, unfolding(crate::specs::Words::words))]
fn words_are_listed() -> bool
    ensures { joined (map (λ table. map (λ entry. (entry.0.now, entry.1)) table.now) WORDS) ≡ words }
{
    true
}

/// What a table says of a word, in the time of going through it.
fn find_word(table: &[(&[u8], Listed)], word: &[u8]) -> Option<Listed>
    ensures { result ≡ kind_in (map (λ entry. (entry.0.now, entry.1)) table.now) word.now }
{
    for (spelling, kind) in table {
        if word == *spelling {
            return Some(*kind);
        }
    }
    None
}

/// What tables, each of the words of one length, say of a word: it is compared with those of its own length.
fn find_by_length(tables: &[&[(&[u8], Listed)]], word: &[u8]) -> Option<Listed>
    requires { by_length 0 (map (λ table. map (λ entry. (entry.0.now, entry.1)) table.now) tables.now) ≡ true }
    ensures { result
        ≡ kind_in (joined (map (λ table. map (λ entry. (entry.0.now, entry.1)) table.now) tables.now)) word.now }
{
    if word.len() >= tables.len() {
        return None;
    }
    find_word(tables[word.len()], word)
}

/// What a listed word is in sources that are read as wider C or not.
fn read_as(wide: bool, found: Option<Listed>) -> Option<Word>
    ensures { result ≡ read_as wide found }
{
    match found {
        Some(Listed::Wide(keyword)) if wide => Some(Word::Keyword(keyword)),
        Some(Listed::Wide(_)) => Some(Word::Keyword(Keyword::Reserved)),
        Some(Listed::Added(keyword)) if wide => Some(Word::Keyword(keyword)),
        Some(Listed::Added(_)) => None,
        Some(Listed::Complex) if wide => Some(Word::Keyword(Keyword::AnyComplex)),
        Some(Listed::Complex) => Some(Word::Keyword(Keyword::Complex)),
        Some(Listed::Always(keyword)) => Some(Word::Keyword(keyword)),
        Some(Listed::Text) => Some(Word::Text),
        None => None,
    }
}

/// What the table has beside a word, which is compared with at most 22 words.
#[tactic(auto, unfolding(crate::specs::Words::words))]
fn find_listed(word: &[u8]) -> Option<Listed>
    ensures { result ≡ kind_in words word.now }
{
    find_by_length(&WORDS, word)
}

/// What a word is that is no name, in sources that are read as wider C or not.
#[tactic(auto, unfolding(crate::specs::Words::word_kind))]
pub(crate) fn kind_of_word(wide: bool, word: &[u8]) -> Option<Word>
    ensures { result ≡ word_kind wide word.now }
{
    read_as(wide, find_listed(word))
}
