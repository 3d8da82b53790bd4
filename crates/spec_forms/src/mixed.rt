//! Words of specifiers, with what stands of their mix.

ghost use Rattle.std.specs.Prelude.{◌≡◌, OnOk, max};
ghost use Rattle.c_reading.specs.Specifying.{least_of};
ghost use Rattle.c_units.specs.Scoping.{has_typedef_word, is_typedef_word};
ghost use Rattle.c_tree.specs.Specifiers.{storage_words};
ghost use Rattle.c_reading.specs.Specifying.{ends_before};
ghost use Rattle.c_specs.specs.Mix.{mix_of, then_class, goes_on, is_whole_mix, is_typed, is_type_word};
ghost use Rattle.c_specs.specs.Reading.{pushed};
ghost use Rattle.c_tree.specs.Height.{specs_height};
ghost use Rattle.c_tree.specs.Tree.{more_words, no_words};
ghost use Rattle.c_tree.specs.Unit.{spec_words_from};
ghost use Rattle.c_tree.specs.View.{spec_word_of};
ghost use Rattle.c_tree.specs.WellFormed.{is_auto, has_auto};
ghost use Rattle.reader_base.specs.Fitting.{HasRoom};
ghost use Rattle.reader_base.specs.Lent.{sized_specs};

use crate::starts::{class_of_start, is_base_start, least_of};
use c_nodes::{SizedSpecs, SizedWord};
use c_reading::SpecStart;
use c_specs::{Class, Mix, class_of};
use c_syntax::SpecWord;
use c_words::Keyword;
use qual_base::NoMemory;
use reader_base::{Cursor, ReadError, room_for};
use std::alloc::Global;

/// Words of specifiers, what stands of their mix, if one begins so, and whether a type, `typedef`
/// and `__auto_type` stand.
#[derive(Drop)]
pub(crate) struct Mixed {
    pub words: SizedSpecs,
    mix: Option<Mix>,
    typed: bool,
    declares_type: bool,
    typed_by_value: bool,
    ghost mixed: { mix ≡ mix_of (sized_specs words) },
    ghost stands: { typed ≡ is_typed (sized_specs words) },
    ghost types: { declares_type ≡ has_typedef_word (storage_words (sized_specs words)) },
    ghost autos: { typed_by_value ≡ has_auto (sized_specs words) },
}

/// The mix with one more word of a class.
fn then_class(mix: Option<Mix>, class: Class) -> Option<Mix>
    ensures { result ≡ then_class mix class }
{
    match mix {
        Some(mix) => mix.with_class(class),
        None => None,
    }
}

/// Whether a word is a type.
fn is_type_word(word: &SpecWord) -> bool
    ensures { result ≡ is_type_word (spec_word_of word.now) }
{
    match word {
        SpecWord::Type(_) | SpecWord::Struct(_) => true,
        SpecWord::Enum(_) | SpecWord::TypedefName(_) => true,
        SpecWord::Typeof { .. } | SpecWord::TypeofType { .. } | SpecWord::Auto { .. } => true,
        SpecWord::Storage(_) | SpecWord::Thread { .. } => false,
        SpecWord::Inline { .. } | SpecWord::Noreturn { .. } => false,
        SpecWord::Qual(_) | SpecWord::Attr(_) | SpecWord::Align(_) => false,
    }
}

/// What stands of the mix of words, if one begins so.
fn mix_of(words: &[SpecWord]) -> Option<Mix>
    ensures { result ≡ mix_of (spec_words_from words.now) }
{
    let mut mix = Some(Mix::new());
    for word in words {
        mix = then_class(mix, class_of(word));
    }
    mix
}

/// Whether a type stands among words.
fn is_typed(words: &[SpecWord]) -> bool
    ensures { result ≡ is_typed (spec_words_from words.now) }
{
    for word in words {
        if is_type_word(word) {
            return true;
        }
    }
    false
}

/// Whether a keyword is `typedef`.
fn is_typedef_word(keyword: Keyword) -> bool
    ensures { result ≡ is_typedef_word keyword }
{
    match keyword {
        Keyword::Typedef => true,
        _ => false,
    }
}

/// Whether a word is `typedef`.
fn is_typedef(word: &SpecWord) -> bool
    ensures { result ≡ has_typedef_word
        (storage_words (more_words (spec_word_of word.now) no_words)) }
{
    match word {
        SpecWord::Storage(word) => is_typedef_word(word.keyword),
        _ => false,
    }
}

/// Whether `typedef` stands among words.
#[tactic(auto, using(crate::proofs::Typedefs::typedef_from))]
fn has_typedef(words: &[SpecWord]) -> bool
    ensures { result ≡ has_typedef_word (storage_words (spec_words_from words.now)) }
{
    for word in words {
        if is_typedef(word) {
            return true;
        }
    }
    false
}

/// Whether a word is `__auto_type`.
fn is_auto(word: &SpecWord) -> bool
    ensures { result ≡ is_auto (spec_word_of word.now) }
{
    match word {
        SpecWord::Auto { .. } => true,
        SpecWord::Storage(_) | SpecWord::Thread { .. } => false,
        SpecWord::Inline { .. } | SpecWord::Noreturn { .. } => false,
        SpecWord::Qual(_) | SpecWord::Type(_) | SpecWord::Struct(_) => false,
        SpecWord::Enum(_) | SpecWord::TypedefName(_) => false,
        SpecWord::Attr(_) | SpecWord::Align(_) => false,
        SpecWord::Typeof { .. } | SpecWord::TypeofType { .. } => false,
    }
}

/// Whether `__auto_type` stands among words.
fn has_auto(words: &[SpecWord]) -> bool
    ensures { result ≡ has_auto (spec_words_from words.now) }
{
    for word in words {
        if is_auto(word) {
            return true;
        }
    }
    false
}

impl Mixed {
    /// These words. Linear in them.
    pub fn new(words: SizedSpecs) -> Self
        ensures { sized_specs result.words ≡ sized_specs words }
    {
        let mix = mix_of(words.words.as_slice());
        let typed = is_typed(words.words.as_slice());
        let declares_type = has_typedef(words.words.as_slice());
        let typed_by_value = has_auto(words.words.as_slice());
        Mixed {
            words,
            mix,
            typed,
            declares_type,
            typed_by_value,
        }
    }

    /// Whether a type stands among the words. Constant time.
    pub fn is_typed(&self) -> bool
        ensures { result ≡ is_typed (sized_specs self.now.words) }
    {
        self.typed
    }

    /// Whether a mix goes on with a word of a class. Constant time.
    pub fn goes_on(&self, class: Class) -> bool
        ensures { result ≡ goes_on (sized_specs self.now.words) class }
    {
        then_class(self.mix, class).is_some()
    }

    /// Whether the words end before a base word, which names a typedef there, in wider C and behind
    /// `__auto_type`. Constant time.
    pub fn ends_before(&self, start: &SpecStart, cursor: &Cursor) -> bool
        ensures { result ≡ ends_before cursor.now.scopes (sized_specs self.now.words) start.now }
    {
        (cursor.scopes.is_wide() || self.typed_by_value)
            && is_base_start(start)
            && self.declares_type
            && self.is_whole()
            && !self.goes_on(class_of_start(start))
    }

    /// Whether the words are a whole mix. Constant time.
    pub fn is_whole(&self) -> bool
        ensures { result ≡ is_whole_mix (sized_specs self.now.words) }
    {
        match self.mix {
            Some(mix) => mix.is_whole(),
            None => false,
        }
    }

    /// The words with one more that begins so have room, or the first token is refused.
    #[tactic(auto, using(crate::proofs::Rooms::greater_capped))]
    pub fn room_for_next(
        &self,
        start: &SpecStart,
        room: u16,
        cursor: &Cursor,
    ) -> Result<(), ReadError>
        ensures { HasRoom (max (least_of start.now)
            (specs_height (sized_specs self.now.words))) room
            cursor.now.rest.now result }
    {
        room_for(least_of(start).max(self.words.height), room, cursor)
    }

    /// One word more, in constant time, amortised; where memory is wanting, no words are left.
    #[tactic(auto, using(crate::proofs::Pushing::words_pushed, crate::proofs::Pushing::mix_pushed, crate::proofs::Pushing::typed_pushed, crate::proofs::Typedefs::typedef_pushed, crate::proofs::Autos::auto_pushed))]
    pub fn push(&mut self, next: SizedWord, alloc: Global) -> Result<(), NoMemory>
        ensures { OnOk result (sized_specs self.new.words ≡ pushed (sized_specs self.old.words)
            (spec_word_of next.word)) }
    {
        let mix = then_class(self.mix, class_of(&next.word));
        let typed = self.typed || is_type_word(&next.word);
        let declares_type = self.declares_type || is_typedef(&next.word);
        let typed_by_value = self.typed_by_value || is_auto(&next.word);
        match self.words.push(next) {
            Ok(()) => {
                self.mix = mix;
                self.typed = typed;
                self.declares_type = declares_type;
                self.typed_by_value = typed_by_value;
                Ok(())
            }
            Err(_) => {
                self.words = SizedSpecs::new(alloc);
                self.mix = Some(Mix::new());
                self.typed = false;
                self.declares_type = false;
                self.typed_by_value = false;
                Err(NoMemory)
            }
        }
    }
}
