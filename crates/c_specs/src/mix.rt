//! What stands of a mix of declaration specifiers (C99, 6.7).

ghost use Rattle.std.specs.Prelude.{◌≡◌, ◌↔◌, IsTrue, MatchOption, Some};
ghost use Rattle.c_tree.specs.Tree.{SpecWords, no_words};
ghost use Rattle.c_tree.specs.View.{spec_word_of};
ghost use Rattle.c_tree.specs.Specifiers.{IsMix};
ghost use Rattle.c_specs.specs.Mix.{whole_of, type_stands, with_part, with_named, with_core, with_mark, fitting, with_types, with_storage, class_of, with_class, no_mix, mix_of, is_typed};
ghost use Rattle.c_specs.specs.Basic.{part_of};
ghost use Rattle.c_specs.specs.declared.mix.Mix.{Mix};
ghost use Rattle.c_specs.specs.Reading.{AreRead, Begins, pushed};

use crate::basic::{Base, Core, Mark, Part, fits, is_whole, join, marked, part_of};
use crate::storage::{Storage, stored, storing};
use c_syntax::SpecWord;
use c_words::Keyword;

/// The type that stands so far: words of a basic type or none, or a struct, union, enum or typedef name.
#[derive(Clone, Copy, PartialEq, Eq, Debug)]
pub enum Types {
    Words(Base, Mark),
    Named,
}

/// What a word of specifiers is in a mix.
#[derive(Clone, Copy, PartialEq, Eq, Debug)]
pub enum Class {
    /// A storage word, or `_Thread_local`.
    Stores(Keyword),
    /// A word that may stand in any mix.
    Free,
    /// A word of a basic type.
    Spells(Keyword),
    /// A struct, union, enum or typedef name.
    Named,
}

/// What stands of a mix, after some of its words.
#[derive(Clone, Copy, PartialEq, Eq, Debug)]
pub struct Mix {
    pub types: Types,
    pub storage: Storage,
}

/// These words, where some type has them.
fn fitting(base: Base, mark: Mark) -> Option<Types>
    ensures { result ≡ fitting base mark }
{
    if fits(base, mark) {
        Some(Types::Words(base, mark))
    } else {
        None
    }
}

/// One more mark.
fn with_mark(base: Base, mark: Mark, new: Mark) -> Option<Types>
    ensures { result ≡ with_mark base mark new }
{
    match marked(mark, new) {
        Some(mark) => fitting(base, mark),
        None => None,
    }
}

/// One more word that is no mark.
fn with_core(base: Base, mark: Mark, word: Core) -> Option<Types>
    ensures { result ≡ with_core base mark word }
{
    match join(base, word) {
        Some(joined) => fitting(joined, mark),
        None => None,
    }
}

/// One more word of a basic type.
fn with_part(types: Types, keyword: Keyword) -> Option<Types>
    ensures { result ≡ with_part types (part_of keyword) }
{
    match types {
        Types::Named => None,
        Types::Words(base, mark) => match part_of(keyword) {
            Part::Mark(new) => with_mark(base, mark, new),
            Part::Core(word) => with_core(base, mark, word),
            Part::Other => None,
        },
    }
}

/// A struct, union, enum or typedef name beside what stands.
fn with_named(types: Types) -> Option<Types>
    ensures { result ≡ with_named types }
{
    match types {
        Types::Words(Base::Nothing, Mark::Unmarked) => Some(Types::Named),
        _ => None,
    }
}

impl Mix {
    /// No words.
    pub fn new() -> Mix
        ensures read { AreRead result no_words }
        ensures none { result ≡ no_mix }
    {
        Mix {
            types: Types::Words(Base::Nothing, Mark::Unmarked),
            storage: Storage::Nothing,
        }
    }

    /// The mix with another type.
    fn with_types(self, types: Option<Types>) -> Option<Mix>
        ensures { result ≡ with_types self types }
    {
        match types {
            Some(types) => Some(Mix {
                types,
                storage: self.storage,
            }),
            None => None,
        }
    }

    /// The mix with one more storage word.
    fn with_storage(self, word: Storage) -> Option<Mix>
        ensures { result ≡ with_storage self word }
    {
        match stored(self.storage, word) {
            Some(storage) => Some(Mix {
                types: self.types,
                storage,
            }),
            None => None,
        }
    }

    /// The mix with one more word of a class, or none where no mix goes on so. Takes no memory, and constant time.
    pub fn with_class(self, class: Class) -> Option<Mix>
        ensures { result ≡ with_class self class }
    {
        match class {
            Class::Stores(keyword) => self.with_storage(storing(keyword)),
            Class::Free => Some(self),
            Class::Spells(keyword) => self.with_types(with_part(self.types, keyword)),
            Class::Named => self.with_types(with_named(self.types)),
        }
    }

    /// The mix with one more word, or none where no mix begins with the words and this one. Takes no memory, and
    /// constant time.
    pub fn with(self, word: &SpecWord) -> Option<Mix>
        ensures read { (ws : SpecWords) → AreRead self ws → MatchOption result
            (Begins (pushed ws (spec_word_of word.now)) → ⊥)
            (λ mix. AreRead mix (pushed ws (spec_word_of word.now))) }
        ensures steps { result ≡ with_class self (class_of (spec_word_of word.now)) }
    {
        self.with_class(class_of(word))
    }

    /// Whether a type stands: a word of a basic type, or a struct, union, enum or typedef name. Constant time.
    pub fn has_type(self) -> bool
        ensures stands { result ≡ type_stands self.types }
        ensures typed { (ws : SpecWords) → mix_of ws ≡ Some self → result ≡ is_typed ws }
    {
        stands(self.types)
    }

    /// Whether the words are a whole mix. Takes no memory, and constant time.
    pub fn is_whole(self) -> bool
        ensures listed { (ws : SpecWords) → AreRead self ws → IsTrue result ↔ IsMix ws }
        ensures stands { result ≡ whole_of self.types }
    {
        is_whole_type(self.types)
    }
}

/// What a word is in a mix.
pub fn class_of(word: &SpecWord) -> Class
    ensures { result ≡ class_of (spec_word_of word.now) }
{
    match word {
        SpecWord::Storage(word) => Class::Stores(word.keyword),
        SpecWord::Thread { .. } => Class::Stores(Keyword::Thread),
        SpecWord::Type(word) => Class::Spells(word.keyword),
        SpecWord::Struct(_) | SpecWord::Enum(_) | SpecWord::TypedefName(_) => Class::Named,
        SpecWord::Typeof { .. } | SpecWord::TypeofType { .. } => Class::Named,
        SpecWord::Auto { .. } => Class::Named,
        SpecWord::Inline { .. } | SpecWord::Noreturn { .. } => Class::Free,
        SpecWord::Qual(_) | SpecWord::Attr(_) | SpecWord::Align(_) => Class::Free,
    }
}

/// Whether a type stands.
fn stands(types: Types) -> bool
    ensures { result ≡ type_stands types }
{
    match types {
        Types::Words(Base::Nothing, Mark::Unmarked) => false,
        _ => true,
    }
}

/// Whether what stands is a whole type.
fn is_whole_type(types: Types) -> bool
    ensures { result ≡ whole_of types }
{
    match types {
        Types::Named => true,
        Types::Words(base, mark) => is_whole(base, mark),
    }
}

/// The words after which a mix stands begin a mix.
pub fn words_begin_a_mix()
    ensures { (mix : Mix) (ws : SpecWords) → AreRead mix ws → Begins ws }
{}
