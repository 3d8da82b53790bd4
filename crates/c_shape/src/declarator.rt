//! A declarator as a walk sees it, with references to its parts.

ghost use Rattle.std.specs.Prelude.{◌≡◌};
ghost use Rattle.c_tree.specs.View.{declr_of};
ghost use Rattle.c_shape.specs.Declarators.{declarator_shaped};

use c_syntax::{ArraySize, ArrayWord, Attr, Declr, Ellipsis, Identifier, Param, PointerWord};
use qual_base::{NameId, TokenId};

/// The forms of declarators, with a name or abstract, each with references to its parts.
#[derive(Clone, Copy)]
pub enum DeclaratorShape<'a> {
    Pointer {
        star: TokenId,
        words: &'a Vec<PointerWord>,
        inner: &'a Box<Declr>,
    },
    DeclName {
        token: TokenId,
        name: NameId,
    },
    DeclParen {
        open: TokenId,
        attrs: &'a Vec<Attr>,
        inner: &'a Box<Declr>,
        close: TokenId,
    },
    Array {
        inner: &'a Box<Declr>,
        open: TokenId,
        words: &'a Vec<ArrayWord>,
        size: &'a Option<ArraySize>,
        close: TokenId,
    },
    Params {
        inner: &'a Box<Declr>,
        open: TokenId,
        params: &'a Vec<Param>,
        ellipsis: &'a Option<Ellipsis>,
        close: TokenId,
    },
    AbsPointer {
        star: TokenId,
        words: &'a Vec<PointerWord>,
        inner: &'a Option<Box<Declr>>,
    },
    AbsParen {
        open: TokenId,
        attrs: &'a Vec<Attr>,
        inner: &'a Box<Declr>,
        close: TokenId,
    },
    AbsArray {
        inner: &'a Option<Box<Declr>>,
        open: TokenId,
        words: &'a Vec<ArrayWord>,
        size: &'a Option<ArraySize>,
        close: TokenId,
    },
    AbsParams {
        inner: &'a Option<Box<Declr>>,
        open: TokenId,
        params: &'a Vec<Param>,
        ellipsis: &'a Option<Ellipsis>,
        close: TokenId,
    },
    Identifiers {
        inner: &'a Box<Declr>,
        open: TokenId,
        names: &'a Vec<Identifier>,
        close: TokenId,
    },
    BaseName {
        token: TokenId,
    },
}

/// The form of a declarator. Constant time.
pub fn declarator_shape(d: &Declr) -> DeclaratorShape<'_>
    ensures { declarator_shaped result ≡ declr_of d.now }
{
    match d {
        Declr::Pointer { star, words, inner } => DeclaratorShape::Pointer {
            star: *star,
            words,
            inner,
        },
        Declr::DeclName { token, name } => DeclaratorShape::DeclName {
            token: *token,
            name: *name,
        },
        Declr::DeclParen {
            open,
            attrs,
            inner,
            close,
        } => DeclaratorShape::DeclParen {
            open: *open,
            attrs,
            inner,
            close: *close,
        },
        Declr::Array {
            inner,
            open,
            words,
            size,
            close,
        } => DeclaratorShape::Array {
            inner,
            open: *open,
            words,
            size,
            close: *close,
        },
        Declr::Params {
            inner,
            open,
            params,
            ellipsis,
            close,
        } => DeclaratorShape::Params {
            inner,
            open: *open,
            params,
            ellipsis,
            close: *close,
        },
        Declr::AbsPointer { star, words, inner } => DeclaratorShape::AbsPointer {
            star: *star,
            words,
            inner,
        },
        Declr::AbsParen {
            open,
            attrs,
            inner,
            close,
        } => DeclaratorShape::AbsParen {
            open: *open,
            attrs,
            inner,
            close: *close,
        },
        Declr::AbsArray {
            inner,
            open,
            words,
            size,
            close,
        } => DeclaratorShape::AbsArray {
            inner,
            open: *open,
            words,
            size,
            close: *close,
        },
        Declr::AbsParams {
            inner,
            open,
            params,
            ellipsis,
            close,
        } => DeclaratorShape::AbsParams {
            inner,
            open: *open,
            params,
            ellipsis,
            close: *close,
        },
        Declr::Identifiers {
            inner,
            open,
            names,
            close,
        } => DeclaratorShape::Identifiers {
            inner,
            open: *open,
            names,
            close: *close,
        },
        Declr::BaseName { token } => DeclaratorShape::BaseName { token: *token },
    }
}
