//! The words of basic types that stand so far (C99, 6.7.2).

ghost use Rattle.std.specs.Prelude.{◌≡◌, Some};
ghost use Rattle.c_specs.specs.Basic.{part_of, join, marked, fits, is_whole};
ghost use Rattle.c_specs.specs.declared.basic.Base.TheVariants.{Nothing};

use c_words::Keyword;

/// The words of a basic type without a sign and `_Complex`, in whichever order they stand.
#[derive(Clone, Copy, PartialEq, Eq, Debug)]
pub enum Base {
    Nothing,
    Void,
    Bool,
    Alone,
    Char,
    Int,
    Int128,
    Short,
    ShortInt,
    Long,
    LongInt,
    LongLong,
    LongLongInt,
    Float,
    Double,
    LongDouble,
}

/// A sign, or `_Complex`: no type has two of them, but in wider C one of each.
#[derive(Clone, Copy, PartialEq, Eq, Debug)]
pub enum Mark {
    Unmarked,
    Signed,
    Unsigned,
    Complex,
    /// `_Complex` in wider C, which a sign may join.
    AnyComplex,
    ComplexSigned,
    ComplexUnsigned,
}

/// A word of a basic type that is no sign and not `_Complex`.
#[derive(Clone, Copy, PartialEq, Eq, Debug)]
pub enum Core {
    Void,
    Bool,
    Alone,
    Char,
    Int,
    Int128,
    Short,
    Long,
    Float,
    Double,
}

/// What a keyword is in a basic type.
#[derive(Clone, Copy, PartialEq, Eq, Debug)]
pub enum Part {
    Mark(Mark),
    Core(Core),
    Other,
}

/// What a keyword is in a basic type.
pub(crate) fn part_of(keyword: Keyword) -> Part
    ensures { result ≡ part_of keyword }
{
    match keyword {
        Keyword::Signed => Part::Mark(Mark::Signed),
        Keyword::Unsigned => Part::Mark(Mark::Unsigned),
        Keyword::Complex => Part::Mark(Mark::Complex),
        Keyword::AnyComplex => Part::Mark(Mark::AnyComplex),
        Keyword::Void => Part::Core(Core::Void),
        Keyword::Bool => Part::Core(Core::Bool),
        Keyword::BaseWord => Part::Core(Core::Alone),
        Keyword::Char => Part::Core(Core::Char),
        Keyword::Int => Part::Core(Core::Int),
        Keyword::Int128 => Part::Core(Core::Int128),
        Keyword::Short => Part::Core(Core::Short),
        Keyword::Long => Part::Core(Core::Long),
        Keyword::Float => Part::Core(Core::Float),
        Keyword::Double => Part::Core(Core::Double),
        _ => Part::Other,
    }
}

/// A first word.
fn alone(word: Core) -> Base
    ensures { Some result ≡ join Nothing word }
{
    match word {
        Core::Void => Base::Void,
        Core::Bool => Base::Bool,
        Core::Alone => Base::Alone,
        Core::Char => Base::Char,
        Core::Int => Base::Int,
        Core::Int128 => Base::Int128,
        Core::Short => Base::Short,
        Core::Long => Base::Long,
        Core::Float => Base::Float,
        Core::Double => Base::Double,
    }
}

/// One more word, or none where no type has these words.
pub(crate) fn join(base: Base, word: Core) -> Option<Base>
    ensures { result ≡ join base word }
{
    match (base, word) {
        (Base::Nothing, word) => Some(alone(word)),
        (Base::Int, Core::Short) | (Base::Short, Core::Int) => Some(Base::ShortInt),
        (Base::Int, Core::Long) | (Base::Long, Core::Int) => Some(Base::LongInt),
        (Base::Long, Core::Long) => Some(Base::LongLong),
        (Base::LongInt, Core::Long) | (Base::LongLong, Core::Int) => Some(Base::LongLongInt),
        (Base::Double, Core::Long) | (Base::Long, Core::Double) => Some(Base::LongDouble),
        _ => None,
    }
}

/// One more mark, or none where no type has both.
pub(crate) fn marked(mark: Mark, new: Mark) -> Option<Mark>
    ensures { result ≡ marked mark new }
{
    match (mark, new) {
        (Mark::Unmarked, new) => Some(new),
        (Mark::Signed, Mark::AnyComplex) | (Mark::AnyComplex, Mark::Signed) => Some(
            Mark::ComplexSigned,
        ),
        (Mark::Unsigned, Mark::AnyComplex) | (Mark::AnyComplex, Mark::Unsigned) => Some(
            Mark::ComplexUnsigned,
        ),
        _ => None,
    }
}

/// Whether some type has these words and this mark.
pub(crate) fn fits(base: Base, mark: Mark) -> bool
    ensures { result ≡ fits base mark }
{
    match mark {
        Mark::Unmarked => true,
        Mark::Signed | Mark::Unsigned => match base {
            Base::Nothing | Base::Char | Base::Int | Base::Int128 => true,
            Base::Short | Base::ShortInt => true,
            Base::Long | Base::LongInt | Base::LongLong | Base::LongLongInt => true,
            _ => false,
        },
        Mark::Complex => match base {
            Base::Nothing | Base::Long => true,
            Base::Float | Base::Double | Base::LongDouble => true,
            _ => false,
        },
        Mark::AnyComplex => match base {
            Base::Void | Base::Bool | Base::Int128 => false,
            _ => true,
        },
        Mark::ComplexSigned | Mark::ComplexUnsigned => match base {
            Base::Nothing | Base::Char | Base::Int => true,
            Base::Short | Base::ShortInt => true,
            Base::Long | Base::LongInt | Base::LongLong | Base::LongLongInt => true,
            _ => false,
        },
    }
}

/// Whether these words and this mark, which some type has, are a whole type.
pub(crate) fn is_whole(base: Base, mark: Mark) -> bool
    ensures { result ≡ is_whole base mark }
{
    match (base, mark) {
        (Base::Nothing, Mark::Unmarked) | (Base::Long, Mark::Complex) => false,
        _ => true,
    }
}
