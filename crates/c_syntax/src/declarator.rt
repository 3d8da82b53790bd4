//! Declarators (C99, 6.7.5), with a name or abstract (6.7.6).

use crate::expression::Expr;
use crate::parts::{ArrayWord, Attr, Ellipsis, Identifier, PointerWord};
use crate::specifier::Specs;
use qual_base::{NameId, TokenId};

/// The nodes of `declr = Pointer | direct`, with `direct = DeclName | DeclParen | Array | Params`, and of
/// `absdeclr = AbsPointer | absdirect`, with `absdirect = AbsParen | AbsArray | AbsParams`.
#[cycle(tree)]
pub enum Declr {
    /// `Pointer = * (qual | Attr)* declr`.
    Pointer {
        star: TokenId,
        words: Vec<PointerWord>,
        inner: Box<Declr>,
    },
    /// `DeclName = Name`.
    DeclName {
        token: TokenId,
        name: NameId,
    },
    /// `DeclParen = ( Attr* declr )`.
    DeclParen {
        open: TokenId,
        attrs: Vec<Attr>,
        inner: Box<Declr>,
        close: TokenId,
    },
    /// `Array = direct [ (static | qual)* [assign | *] ]`.
    Array {
        inner: Box<Declr>,
        open: TokenId,
        words: Vec<ArrayWord>,
        size: Option<ArraySize>,
        close: TokenId,
    },
    /// `Params = direct ( [Param (, Param)* [, qual* ...]] )`.
    Params {
        inner: Box<Declr>,
        open: TokenId,
        params: Vec<Param>,
        ellipsis: Option<Ellipsis>,
        close: TokenId,
    },
    /// `AbsPointer = * (qual | Attr)* [absdeclr]`.
    AbsPointer {
        star: TokenId,
        words: Vec<PointerWord>,
        inner: Option<Box<Declr>>,
    },
    /// `AbsParen = ( Attr* absdeclr )`.
    AbsParen {
        open: TokenId,
        attrs: Vec<Attr>,
        inner: Box<Declr>,
        close: TokenId,
    },
    /// `AbsArray = [absdirect] [ (static | qual)* [assign | *] ]`.
    AbsArray {
        inner: Option<Box<Declr>>,
        open: TokenId,
        words: Vec<ArrayWord>,
        size: Option<ArraySize>,
        close: TokenId,
    },
    /// `AbsParams = [absdirect] ( [Param (, Param)* [, qual* ...]] )`.
    AbsParams {
        inner: Option<Box<Declr>>,
        open: TokenId,
        params: Vec<Param>,
        ellipsis: Option<Ellipsis>,
        close: TokenId,
    },
    /// `Params = direct ( Name (, Name)* )`, of a function in the form of before C89.
    Identifiers {
        inner: Box<Declr>,
        open: TokenId,
        names: Vec<Identifier>,
        close: TokenId,
    },
    /// `DeclName` of a typedef that is a word of a basic type, and declares nothing.
    BaseName {
        token: TokenId,
    },
}

/// What stands for an array's size: `assign | *`.
#[cycle(tree)]
pub enum ArraySize {
    Value(Box<Expr>),
    Star { token: TokenId },
}

/// `Param = Specs [declr | absdeclr] Attr*`.
#[cycle(tree)]
pub struct Param {
    pub specs: Specs,
    pub declr: Option<Box<Declr>>,
    pub attrs: Vec<Attr>,
}

/// `TypeName = Specs [absdeclr]`, without storage words, `thread`, `inline` and `_Noreturn`.
#[cycle(tree)]
pub struct TypeName {
    pub specs: Specs,
    pub declr: Option<Box<Declr>>,
}

impl Drop for Declr {
    #[cycle(tree)]
    fn drop(self) {
        match self {
            Declr::Pointer {
                star: _star,
                words: _words,
                inner: _inner,
            } => {}
            Declr::DeclName {
                token: _token,
                name: _name,
            } => {}
            Declr::DeclParen {
                open: _open,
                attrs: _attrs,
                inner: _inner,
                close: _close,
            } => {}
            Declr::Array {
                inner: _inner,
                open: _open,
                words: _words,
                size: _size,
                close: _close,
            } => {}
            Declr::Params {
                inner: _inner,
                open: _open,
                params: _params,
                ellipsis: _ellipsis,
                close: _close,
            } => {}
            Declr::AbsPointer {
                star: _star,
                words: _words,
                inner: _inner,
            } => {}
            Declr::AbsParen {
                open: _open,
                attrs: _attrs,
                inner: _inner,
                close: _close,
            } => {}
            Declr::AbsArray {
                inner: _inner,
                open: _open,
                words: _words,
                size: _size,
                close: _close,
            } => {}
            Declr::AbsParams {
                inner: _inner,
                open: _open,
                params: _params,
                ellipsis: _ellipsis,
                close: _close,
            } => {}
            Declr::Identifiers {
                inner: _inner,
                open: _open,
                names: _names,
                close: _close,
            } => {}
            Declr::BaseName { token: _token } => {}
        }
    }
}

impl Drop for ArraySize {
    #[cycle(tree)]
    fn drop(self) {
        match self {
            ArraySize::Value(_part) => {}
            ArraySize::Star { token: _token } => {}
        }
    }
}

impl Drop for Param {
    #[cycle(tree)]
    fn drop(self) {
        let Param {
            specs: _specs,
            declr: _declr,
            attrs: _attrs,
        } = self;
    }
}

impl Drop for TypeName {
    #[cycle(tree)]
    fn drop(self) {
        let TypeName {
            specs: _specs,
            declr: _declr,
        } = self;
    }
}
