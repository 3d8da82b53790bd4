//! Nodes of declarators, parameters and names of types (C99, 6.7.5 and 6.7.6), made of sized parts.
//!
//! Each takes constant time, but a pointer, which takes as long as it has words.

ghost use Rattle.std.specs.Prelude.{◌≡◌, ◌+◌, max, option_map, IfOk, IfSome, IfNone, None, Some, if◌then◌else◌};
ghost use Rattle.c_nodes.specs.Named.{by_name, MakesDeclr};
ghost use Rattle.c_nodes.specs.Sized.{expr};
ghost use Rattle.c_tree.specs.Height.{attrs_height, pointer_words_height, declr_height, some_declr_height, some_size_height, params_height};
ghost use Rattle.c_tree.specs.Lists.{some_declr_from, some_size_from, params_from};
ghost use Rattle.c_tree.specs.Tree as trees;
ghost use Rattle.c_tree.specs.View.{declr_of, dots_of};
ghost use Rattle.c_tree.specs.WellFormed.{is_named};

use crate::heights::{above, above_both, greater, of_attrs, of_pointer_words};
use crate::sized::{
    PresentDeclr, SizedDeclr, SizedExpr, SizedParam, SizedParams, SizedSize, SizedSpecs,
    SizedTypeName,
};
use c_syntax::{ArraySize, ArrayWord, Attr, Declr, Ellipsis, Identifier, Param, PointerWord};
use qual_base::{NameId, NoMemory, TokenId};
use std::alloc::Global;

/// A declarator in a box.
fn boxed(alloc: Global, declr: Declr) -> Result<Box<Declr>, NoMemory>
    ensures { IfOk result (λ made. made.value ≡ declr) }
{
    match Box::new(alloc, declr) {
        Ok(made) => Ok(made),
        Err(_) => Err(NoMemory),
    }
}

/// Whether a declarator has a name.
pub fn is_named(declr: &Declr) -> bool
    ensures { result ≡ is_named (declr_of declr.now) }
{
    match declr {
        Declr::Pointer { .. }
        | Declr::DeclName { .. }
        | Declr::DeclParen { .. }
        | Declr::Array { .. }
        | Declr::Params { .. }
        | Declr::Identifiers { .. }
        | Declr::BaseName { .. } => true,
        Declr::AbsPointer { .. }
        | Declr::AbsParen { .. }
        | Declr::AbsArray { .. }
        | Declr::AbsParams { .. } => false,
    }
}

/// No declarator.
pub fn no_declr() -> SizedDeclr
    ensures { result.declr ≡ None }
{
    SizedDeclr {
        declr: None,
        height: 0,
    }
}

/// A declarator where one may be missing.
pub fn some_declr(found: PresentDeclr) -> SizedDeclr
    ensures { result.declr ≡ Some found.declr }
{
    SizedDeclr {
        declr: Some(found.declr),
        height: found.height,
    }
}

/// The declarator, if there is one.
pub fn present(found: SizedDeclr) -> Option<PresentDeclr>
    ensures { option_map (λ present. present.declr) result ≡ found.declr }
{
    let SizedDeclr { declr, height } = found;
    match declr {
        Some(declr) => Some(PresentDeclr { declr, height }),
        None => None,
    }
}

/// `DeclName = Name`.
pub fn declr_name(alloc: Global, token: TokenId, name: NameId) -> Result<SizedDeclr, NoMemory>
    ensures { MakesDeclr result (trees.declr_name token name) }
{
    let declr = boxed(alloc, Declr::DeclName { token, name })?;
    Ok(SizedDeclr {
        declr: Some(declr),
        height: 1,
    })
}

/// `DeclName` of a typedef that is a word of a basic type.
pub fn base_name(alloc: Global, token: TokenId) -> Result<SizedDeclr, NoMemory>
    ensures { MakesDeclr result (trees.base_name token) }
{
    let declr = boxed(alloc, Declr::BaseName { token })?;
    Ok(SizedDeclr {
        declr: Some(declr),
        height: 1,
    })
}

fn pointer(star: TokenId, words: Vec<PointerWord>, inner: Option<Box<Declr>>) -> Declr
    ensures tree { declr_of result ≡ by_name (some_declr_from inner)
        (λ d. trees.pointer star words.items d)
        (λ d. trees.abs_pointer star words.items d) }
    ensures height { declr_height (declr_of result)
        ≡ max (pointer_words_height words.items) (some_declr_height (some_declr_from inner)) + 1 }
{
    match inner {
        Some(inner) if is_named(&inner) => Declr::Pointer { star, words, inner },
        inner => c_tree::abs_pointer(star, words, inner),
    }
}

/// `Pointer = * (qual | Attr)* declr`, or `AbsPointer` before no name.
pub fn with_pointer(
    alloc: Global,
    star: TokenId,
    words: Vec<PointerWord>,
    inner: SizedDeclr,
) -> Result<SizedDeclr, NoMemory>
    ensures { MakesDeclr result (by_name (some_declr_from inner.declr)
        (λ d. trees.pointer star words.items d) (λ d. trees.abs_pointer star words.items d)) }
{
    let height = above_both(of_pointer_words(words.as_slice()), inner.height);
    let declr = boxed(alloc, pointer(star, words, inner.declr))?;
    Ok(SizedDeclr {
        declr: Some(declr),
        height,
    })
}

fn paren(open: TokenId, attrs: Vec<Attr>, inner: Box<Declr>, close: TokenId) -> Declr
    ensures tree { declr_of result ≡ (if is_named (declr_of inner.value)
        then trees.declr_paren «open» attrs.items (declr_of inner.value) close
        else trees.abs_paren «open» attrs.items (declr_of inner.value) close) }
    ensures height { declr_height (declr_of result)
        ≡ max (attrs_height attrs.items) (declr_height (declr_of inner.value)) + 1 }
{
    if is_named(&inner) {
        Declr::DeclParen {
            open,
            attrs,
            inner,
            close,
        }
    } else {
        Declr::AbsParen {
            open,
            attrs,
            inner,
            close,
        }
    }
}

/// `DeclParen = ( Attr* declr )`, or `AbsParen` round no name.
pub fn with_paren(
    alloc: Global,
    opening: TokenId,
    attrs: Vec<Attr>,
    inner: PresentDeclr,
    closing: TokenId,
) -> Result<SizedDeclr, NoMemory>
    ensures { MakesDeclr result (if is_named (declr_of inner.declr.value)
        then trees.declr_paren opening attrs.items (declr_of inner.declr.value) closing
        else trees.abs_paren opening attrs.items (declr_of inner.declr.value) closing) }
{
    let height = above_both(of_attrs(attrs.as_slice()), inner.height);
    let declr = boxed(alloc, paren(opening, attrs, inner.declr, closing))?;
    Ok(SizedDeclr {
        declr: Some(declr),
        height,
    })
}

fn array(
    inner: Option<Box<Declr>>,
    open: TokenId,
    words: Vec<ArrayWord>,
    size: Option<ArraySize>,
    close: TokenId,
) -> Declr
    ensures tree { declr_of result ≡ by_name (some_declr_from inner)
        (λ d. trees.array d «open» words.items (some_size_from size) close)
        (λ d. trees.abs_array d «open» words.items (some_size_from size) close) }
    ensures height { declr_height (declr_of result)
        ≡ max (some_declr_height (some_declr_from inner))
        (some_size_height (some_size_from size)) + 1 }
{
    match inner {
        Some(inner) if is_named(&inner) => c_tree::array(inner, open, words, size, close),
        inner => c_tree::abs_array(inner, open, words, size, close),
    }
}

/// `Array = direct [ (static | qual)* [assign | *] ]`, or `AbsArray` behind no name.
pub fn with_array(
    alloc: Global,
    inner: SizedDeclr,
    opening: TokenId,
    words: Vec<ArrayWord>,
    size: SizedSize,
    closing: TokenId,
) -> Result<SizedDeclr, NoMemory>
    ensures { MakesDeclr result (by_name (some_declr_from inner.declr)
        (λ d. trees.array d opening words.items (some_size_from size.size) closing)
        (λ d. trees.abs_array d opening words.items (some_size_from size.size) closing)) }
{
    let height = above_both(inner.height, size.height);
    let declr = boxed(
        alloc,
        array(inner.declr, opening, words, size.size, closing),
    )?;
    Ok(SizedDeclr {
        declr: Some(declr),
        height,
    })
}

fn params(
    inner: Option<Box<Declr>>,
    open: TokenId,
    params: Vec<Param>,
    dots: Option<Ellipsis>,
    close: TokenId,
) -> Declr
    ensures tree { declr_of result ≡ by_name (some_declr_from inner)
        (λ d. trees.params d «open» (params_from params.items) (option_map dots_of dots) close)
        (λ d. trees.abs_params d «open» (params_from params.items) (option_map dots_of dots)
        close) }
    ensures height { declr_height (declr_of result)
        ≡ max (some_declr_height (some_declr_from inner))
        (params_height (params_from params.items)) + 1 }
{
    match inner {
        Some(inner) if is_named(&inner) => c_tree::params(inner, open, params, dots, close),
        inner => c_tree::abs_params(inner, open, params, dots, close),
    }
}

/// `Params = direct ( [Param (, Param)* [, qual* ...]] )`, or `AbsParams` behind no name.
pub fn with_params(
    alloc: Global,
    inner: SizedDeclr,
    opening: TokenId,
    list: SizedParams,
    dots: Option<Ellipsis>,
    closing: TokenId,
) -> Result<SizedDeclr, NoMemory>
    ensures { MakesDeclr result (by_name (some_declr_from inner.declr)
        (λ d. trees.params d opening (params_from list.items.items) (option_map dots_of dots)
        closing)
        (λ d. trees.abs_params d opening (params_from list.items.items) (option_map dots_of dots)
        closing)) }
{
    let height = above_both(inner.height, list.height);
    let declr = boxed(
        alloc,
        params(inner.declr, opening, list.items, dots, closing),
    )?;
    Ok(SizedDeclr {
        declr: Some(declr),
        height,
    })
}

/// `Params = direct ( Name (, Name)* )`, behind a name.
pub fn with_identifiers(
    alloc: Global,
    inner: PresentDeclr,
    opening: TokenId,
    names: Vec<Identifier>,
    closing: TokenId,
) -> Result<SizedDeclr, NoMemory>
    ensures { MakesDeclr result
        (trees.identifiers (declr_of inner.declr.value) opening names.items closing) }
{
    let height = above(inner.height);
    let declr = boxed(
        alloc,
        Declr::Identifiers {
            inner: inner.declr,
            open: opening,
            names,
            close: closing,
        },
    )?;
    Ok(SizedDeclr {
        declr: Some(declr),
        height,
    })
}

/// No size.
pub fn no_size() -> SizedSize
    ensures { result.size ≡ None }
{
    SizedSize {
        size: None,
        height: 0,
    }
}

/// An expression as the size of an array.
pub fn size_value(value: SizedExpr) -> SizedSize
    ensures { some_size_from result.size ≡ trees.some_size (trees.size_value (expr value)) }
{
    SizedSize {
        size: Some(ArraySize::Value(value.tree)),
        height: value.height,
    }
}

/// A star as the size of an array.
pub fn size_star(star: TokenId) -> SizedSize
    ensures { some_size_from result.size ≡ trees.some_size (trees.size_star star) }
{
    SizedSize {
        size: Some(ArraySize::Star { token: star }),
        height: 0,
    }
}

/// `Param = Specs [declr | absdeclr] Attr*`.
pub fn param(specs: SizedSpecs, declr: SizedDeclr, attrs: Vec<Attr>) -> SizedParam
    ensures words { result.words ≡ specs.words }
    ensures declr { result.declr ≡ declr.declr }
    ensures attrs { result.attrs ≡ attrs }
{
    let behind = greater(declr.height, of_attrs(attrs.as_slice()));
    SizedParam {
        words: specs.words,
        declr: declr.declr,
        attrs,
        height: above_both(specs.height, behind),
    }
}

/// `TypeName = Specs [absdeclr]`.
pub fn type_name(specs: SizedSpecs, declr: SizedDeclr) -> SizedTypeName
    ensures words { result.words ≡ specs.words }
    ensures declr { result.declr ≡ declr.declr }
{
    SizedTypeName {
        words: specs.words,
        declr: declr.declr,
        height: above_both(specs.height, declr.height),
    }
}
