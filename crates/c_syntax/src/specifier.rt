//! Declaration specifiers (C99, 6.7): storage words, qualifiers, type words, and the types that have a body.

use crate::declarator::{Declr, TypeName};
use crate::expression::Expr;
use crate::parts::{
    Assert, Attr, Braced, BracedList, Identifier, Listed, Marked, Qual, Semi, Word,
};
use qual_base::{NameId, TokenId};

/// `Specs = spec+`, in the order of the words.
#[cycle(tree)]
pub struct Specs {
    pub words: Vec<SpecWord>,
}

/// `spec = storage | thread | inline | _Noreturn | qual | typeword | Struct | Enum | TypedefName | Attr`, and in wider C
/// `Typeof | TypeofType | AtomicType | Align | __auto_type`.
#[cycle(tree)]
pub enum SpecWord {
    /// `typedef`, `extern`, `static`, `auto` or `register`.
    Storage(Word),
    Thread {
        token: TokenId,
    },
    Inline {
        token: TokenId,
    },
    Noreturn {
        token: TokenId,
    },
    Qual(Qual),
    /// A word of a basic type, as `unsigned`, `_Complex` or `__int128`.
    Type(Word),
    Struct(Box<Struct>),
    Enum(Box<Enum>),
    TypedefName(TypedefName),
    Attr(Attr),
    /// `Typeof = typeof ( expr )`.
    Typeof {
        keyword: TokenId,
        open: TokenId,
        operand: Box<Expr>,
        close: TokenId,
    },
    /// `TypeofType = typeof ( TypeName )` and `AtomicType = _Atomic ( TypeName )`, by the word.
    TypeofType {
        keyword: Word,
        open: TokenId,
        type_name: TypeName,
        close: TokenId,
    },
    /// `Align = _Alignas bal`, which says nothing.
    Align(Attr),
    /// `__auto_type`, which has the type of the initialiser.
    Auto {
        token: TokenId,
    },
}

/// `TypedefName`, a name whose kind at its place is a typedef.
#[derive(Clone, Copy, PartialEq, Eq, Debug)]
pub struct TypedefName {
    pub token: TokenId,
    pub name: NameId,
}

/// `Struct = (struct | union) Attr* [Name] [{ member* }]`, with a name or a body (C99, 6.7.2.1).
#[cycle(tree)]
pub struct Struct {
    pub keyword: Word,
    pub attrs: Vec<Attr>,
    pub tag: Option<Identifier>,
    pub body: Option<Braced<StructItem>>,
}

/// `member = Member | Semi | Assert`.
#[cycle(tree)]
pub enum StructItem {
    Member(Member),
    Semi(Semi),
    Assert(Assert),
}

/// `Member = ext* Specs [MemDeclr (, Attr* MemDeclr)*] ;`.
#[cycle(tree)]
pub struct Member {
    pub extensions: Vec<TokenId>,
    pub specs: Specs,
    pub declrs: Vec<Listed<MemDeclr>>,
    pub semi: TokenId,
}

/// `MemDeclr = declr [: cond] Attr* | : cond Attr*`: a member, or a bit-field without a name.
#[cycle(tree)]
pub enum MemDeclr {
    Named {
        declr: Box<Declr>,
        width: Option<Marked<Box<Expr>>>,
        attrs: Vec<Attr>,
    },
    Unnamed {
        width: Marked<Box<Expr>>,
        attrs: Vec<Attr>,
    },
}

/// `Enum = enum Attr* [Name] [{ Enumerator (, Enumerator)* [,] }]`, with a name or a body (C99, 6.7.2.2).
#[cycle(tree)]
pub struct Enum {
    pub keyword: TokenId,
    pub attrs: Vec<Attr>,
    pub tag: Option<Identifier>,
    pub body: Option<BracedList<Enumerator>>,
}

/// `Enumerator = Name Attr* [= cond]`.
#[cycle(tree)]
pub struct Enumerator {
    pub name: Identifier,
    pub attrs: Vec<Attr>,
    pub value: Option<Marked<Box<Expr>>>,
}

impl Drop for Specs {
    #[cycle(tree)]
    fn drop(self) {
        let Specs { words: _words } = self;
    }
}

impl Drop for SpecWord {
    #[cycle(tree)]
    fn drop(self) {
        match self {
            SpecWord::Storage(_part) => {}
            SpecWord::Thread { token: _token } => {}
            SpecWord::Inline { token: _token } => {}
            SpecWord::Noreturn { token: _token } => {}
            SpecWord::Qual(_part) => {}
            SpecWord::Type(_part) => {}
            SpecWord::Struct(_part) => {}
            SpecWord::Enum(_part) => {}
            SpecWord::TypedefName(_part) => {}
            SpecWord::Attr(_part) => {}
            SpecWord::Typeof {
                keyword: _keyword,
                open: _open,
                operand: _operand,
                close: _close,
            } => {}
            SpecWord::TypeofType {
                keyword: _keyword,
                open: _open,
                type_name: _type_name,
                close: _close,
            } => {}
            SpecWord::Align(_part) => {}
            SpecWord::Auto { token: _token } => {}
        }
    }
}

impl Drop for Struct {
    #[cycle(tree)]
    fn drop(self) {
        let Struct {
            keyword: _keyword,
            attrs: _attrs,
            tag: _tag,
            body: _body,
        } = self;
    }
}

impl Drop for StructItem {
    #[cycle(tree)]
    fn drop(self) {
        match self {
            StructItem::Member(_part) => {}
            StructItem::Semi(_part) => {}
            StructItem::Assert(_part) => {}
        }
    }
}

impl Drop for Member {
    #[cycle(tree)]
    fn drop(self) {
        let Member {
            extensions: _extensions,
            specs: _specs,
            declrs: _declrs,
            semi: _semi,
        } = self;
    }
}

impl Drop for MemDeclr {
    #[cycle(tree)]
    fn drop(self) {
        match self {
            MemDeclr::Named {
                declr: _declr,
                width: _width,
                attrs: _attrs,
            } => {}
            MemDeclr::Unnamed {
                width: _width,
                attrs: _attrs,
            } => {}
        }
    }
}

impl Drop for Enum {
    #[cycle(tree)]
    fn drop(self) {
        let Enum {
            keyword: _keyword,
            attrs: _attrs,
            tag: _tag,
            body: _body,
        } = self;
    }
}

impl Drop for Enumerator {
    #[cycle(tree)]
    fn drop(self) {
        let Enumerator {
            name: _name,
            attrs: _attrs,
            value: _value,
        } = self;
    }
}
