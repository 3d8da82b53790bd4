//! What is known of a word of specifiers before it is read.

ghost use Rattle.std.specs.Prelude.{◌≡◌};
ghost use Rattle.c_reading.specs.Specifying as specs;

use c_reading::SpecStart;
use c_specs::Class;
use c_words::Keyword;

/// What a word that begins so is in a mix.
pub(crate) fn class_of_start(start: &SpecStart) -> Class
    ensures { result ≡ specs.class_of_start start.now }
{
    match start {
        SpecStart::Storage(keyword) => Class::Stores(*keyword),
        SpecStart::Thread => Class::Stores(Keyword::Thread),
        SpecStart::Basic(keyword) => Class::Spells(*keyword),
        SpecStart::Struct(_) | SpecStart::Enum | SpecStart::Name(_) => Class::Named,
        SpecStart::Typeof | SpecStart::Atomic | SpecStart::Auto => Class::Named,
        SpecStart::Inline | SpecStart::Noreturn | SpecStart::Word(_) => Class::Free,
        SpecStart::Element | SpecStart::Index | SpecStart::Attribute => Class::Free,
        SpecStart::Align | SpecStart::Nothing => Class::Free,
    }
}

/// The least height of specifiers with a word that begins so.
pub(crate) fn least_of(start: &SpecStart) -> u32
    ensures { result ≡ specs.least_of start.now }
{
    match start {
        SpecStart::Struct(_) | SpecStart::Enum => 2,
        SpecStart::Name(_) | SpecStart::Attribute => 2,
        SpecStart::Align | SpecStart::Auto => 2,
        SpecStart::Typeof => 3,
        SpecStart::Atomic => 4,
        _ => 1,
    }
}

/// Whether a word of specifiers begins so.
pub(crate) fn is_start(start: &SpecStart) -> bool
    ensures { result ≡ specs.is_start start.now }
{
    match start {
        SpecStart::Nothing => false,
        _ => true,
    }
}

/// Whether a word that begins so is a base word.
pub(crate) fn is_base_start(start: &SpecStart) -> bool
    ensures { result ≡ specs.is_base_start start.now }
{
    match start {
        SpecStart::Basic(Keyword::BaseWord) => true,
        _ => false,
    }
}
