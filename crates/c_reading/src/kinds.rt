//! What a reader is asked for, and what tokens begin.

use c_words::{Keyword, Punct};
use qual_base::NameId;

/// Why no well-formed unit goes on with a token.
#[derive(Clone, Copy)]
pub enum FaultKind {
    /// No form of the grammar goes on so.
    Unexpected,
    /// The tree would be too high.
    TooDeep,
    /// The name has another kind in its scope already.
    Redeclared,
    /// No mix of specifiers goes on with the word.
    BadMix,
    /// The left side of an assignment is no unary form.
    BadTarget,
}

/// How far an expression may go.
#[derive(Clone, Copy)]
pub enum Reach {
    /// With commas.
    Whole,
    /// With assignments, without commas.
    Assigned,
    /// As a conditional (C99, 6.5.15).
    Conditional,
    /// As a cast (C99, 6.5.4).
    Castable,
    /// As a unary form (C99, 6.5.3).
    Unary,
}

/// Which specifiers may stand: all, all but `__auto_type`, as in a member or a parameter, or those of a type's name.
#[derive(Clone, Copy)]
pub enum Role {
    Declaring,
    Typed,
    Naming,
}

/// Which declarators may stand: those with a name, those without, or, in a parameter, both.
#[derive(Clone, Copy)]
pub enum Mode {
    Named,
    Abstract,
    Either,
}

/// Which word of specifiers a token begins.
#[derive(Clone, Copy)]
pub enum SpecStart {
    Storage(Keyword),
    Thread,
    Inline,
    Noreturn,
    /// `const`, `volatile` or `restrict`, in wider C `_Atomic` or an address space too.
    Word(Keyword),
    /// A `$` word that names an element.
    Element,
    Index,
    Basic(Keyword),
    Struct(Keyword),
    Enum,
    Attribute,
    /// A typedef name.
    Name(NameId),
    Typeof,
    /// `_Atomic` before `(`.
    Atomic,
    Align,
    /// `__auto_type`.
    Auto,
    Nothing,
}

/// What a token begins as the first of an operand.
#[derive(Clone, Copy)]
pub enum Opening {
    /// A sign before its operand, which goes so far.
    Prefix(Punct, Reach),
    /// `sizeof` or `alignof`.
    Sizeof(Keyword),
    Extension,
    Name(NameId),
    Number,
    Char,
    Text,
    Paren,
    VaArg,
    VaStart,
    VaCopy,
    Offset,
    /// `__real__` or `__imag__`.
    Part,
    /// `&&` before a label, in wider C.
    Label,
    Compat,
    Choose,
    Generic,
    Nothing,
}

/// What a token begins behind an operand.
#[derive(Clone, Copy)]
pub enum PostfixForm {
    Index,
    Call,
    Dot,
    Arrow,
    /// `++` or `--`.
    Post(Punct),
    Nothing,
}

/// What a token is between two operands.
#[derive(Clone, Copy)]
pub enum Infix {
    Comma,
    Assign(Punct),
    Question,
    Binary(Punct),
    Nothing,
}

/// A kind of bracket.
#[derive(Clone, Copy)]
pub enum Bracket {
    Paren,
    Square,
    Brace,
}

/// What a token is inside brackets.
#[derive(Clone, Copy)]
pub enum Inside {
    Opens(Bracket),
    Closes(Bracket),
    Plain,
    /// The end of the unit.
    Stops,
}

/// What a token begins as the first of a statement; an expression, if anything, where it is nothing else.
#[derive(Clone, Copy)]
pub enum StmtStart {
    Block,
    Semicolon,
    Attribute,
    Name(NameId),
    Case,
    Default,
    If,
    Switch,
    While,
    Do,
    For,
    Goto,
    Continue,
    Break,
    Return,
    Asm,
    Value,
}
