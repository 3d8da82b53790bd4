//! What a token can be.

use qual_base::{Elem, LatticeNo, NameId};

/// A keyword as the grammar reads it: the words of C99 (6.4.1), and those of the GNU dialect that system headers use.
///
/// Spellings with the same meaning, as `const`, `__const` and `__const__`, are one keyword.
#[derive(Clone, Copy, PartialEq, Eq, Debug)]
pub enum Keyword {
    Auto,
    Break,
    Case,
    Char,
    Const,
    Continue,
    Default,
    Do,
    Double,
    Else,
    Enum,
    Extern,
    Float,
    For,
    Goto,
    If,
    Inline,
    Int,
    Long,
    Register,
    Restrict,
    Return,
    Short,
    Signed,
    Sizeof,
    Static,
    Struct,
    Switch,
    Typedef,
    Union,
    Unsigned,
    Void,
    Volatile,
    While,
    Bool,
    Complex,
    /// `_Complex` in wider C, which goes with integers and base words too.
    AnyComplex,
    Imaginary,
    Asm,
    Attribute,
    Alignof,
    /// `__thread` and `_Thread_local`.
    Thread,
    Extension,
    Noreturn,
    StaticAssert,
    /// A type word that stands alone, as `__builtin_va_list` or `_Float64`.
    BaseWord,
    /// `__int128`, which takes a sign.
    Int128,
    VaArg,
    VaStart,
    VaCopy,
    Offsetof,
    /// A word that no form of the grammar has, as `typeof` or `_Generic` where sources are not read as wider C.
    Reserved,
    /// `typeof`, `__typeof` and `__typeof__`.
    Typeof,
    Generic,
    Atomic,
    /// `_Atomic` right before `(`, which begins the name of a type in specifiers.
    AtomicType,
    Alignas,
    AutoType,
    /// `__label__`.
    LabelWord,
    /// `__real__` and `__imag__`.
    Part,
    /// `__seg_fs` and `__seg_gs`, the named address spaces.
    Seg,
    /// `__builtin_types_compatible_p`.
    Compatible,
    /// `__builtin_choose_expr`.
    Choose,
}

/// An operator or a bracket (C99, 6.4.6), without `#`, `##` and the digraphs.
#[derive(Clone, Copy, PartialEq, Eq, Debug)]
pub enum Punct {
    /// `[`
    OpenBracket,
    /// `]`
    CloseBracket,
    /// `(`
    OpenParen,
    /// `)`
    CloseParen,
    /// `{`
    OpenBrace,
    /// `}`
    CloseBrace,
    /// `.`
    Dot,
    /// `->`
    Arrow,
    /// `++`
    PlusPlus,
    /// `--`
    MinusMinus,
    /// `&`
    Ampersand,
    /// `*`
    Star,
    /// `+`
    Plus,
    /// `-`
    Minus,
    /// `~`
    Tilde,
    /// `!`
    Bang,
    /// `/`
    Slash,
    /// `%`
    Percent,
    /// `<<`
    ShiftLeft,
    /// `>>`
    ShiftRight,
    /// `<`
    Less,
    /// `>`
    Greater,
    /// `<=`
    LessEqual,
    /// `>=`
    GreaterEqual,
    /// `==`
    EqualEqual,
    /// `!=`
    BangEqual,
    /// `^`
    Caret,
    /// `|`
    Bar,
    /// `&&`
    AmpersandAmpersand,
    /// `||`
    BarBar,
    /// `?`
    Question,
    /// `:`
    Colon,
    /// `;`
    Semicolon,
    /// `...`
    Ellipsis,
    /// `=`
    Equal,
    /// `*=`
    StarEqual,
    /// `/=`
    SlashEqual,
    /// `%=`
    PercentEqual,
    /// `+=`
    PlusEqual,
    /// `-=`
    MinusEqual,
    /// `<<=`
    ShiftLeftEqual,
    /// `>>=`
    ShiftRightEqual,
    /// `&=`
    AmpersandEqual,
    /// `^=`
    CaretEqual,
    /// `|=`
    BarEqual,
    /// `,`
    Comma,
}

/// The kind of a token.
#[derive(Clone, Copy, PartialEq, Eq, Debug)]
pub enum TokenKind {
    /// An identifier, with its number in the unit.
    Name(NameId),
    Keyword(Keyword),
    /// A preprocessing number (C99, 6.4.8), so also one that is no constant.
    Number,
    /// A character constant with its prefix.
    Char,
    /// A string literal with its prefix, or `__func__` and the like.
    Text,
    Punct(Punct),
    /// A `$` word that names an element of a lattice.
    Qual(LatticeNo, Elem),
    /// A word that begins `$_` in a prelude.
    Index,
    /// After the last byte of the unit.
    End,
}
