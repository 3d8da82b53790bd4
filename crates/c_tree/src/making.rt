//! Nodes made of their parts.
//!
//! A node whose parts are lists or may be missing is made here, so that its tree is known by theirs.

ghost use Rattle.std.specs.Prelude.{◌≡◌, option_map, IfOk};
ghost use Rattle.c_tree.specs.Lists as lists;
ghost use Rattle.c_tree.specs.Tree as trees;
ghost use Rattle.c_tree.specs.Unit.{spec_words_from};
ghost use Rattle.c_tree.specs.View.{expr_of, spec_word_of, struct_item_of, mem_declr_of, declr_of, declaration_of, dots_of};

use c_syntax::{
    ArraySize, ArrayWord, Attr, Braced, BracedList, Declaration, Declr, Ellipsis, Enum, Enumerator,
    Expr, Identifier, InitDeclr, Listed, Marked, MemDeclr, Member, Param, PointerWord, SpecWord,
    Specs, Struct, StructItem, TypeName, Word,
};
use qual_base::{NoMemory, TokenId};
use std::alloc::Global;

/// A cast.
pub fn cast(open: TokenId, type_name: TypeName, close: TokenId, operand: Box<Expr>) -> Expr
    ensures { expr_of result ≡ trees.cast «open» (spec_words_from type_name.specs.words.items)
        (lists.some_declr_from type_name.declr) close (expr_of operand.value) }
{
    Expr::Cast {
        open,
        type_name,
        close,
        operand,
    }
}

/// `sizeof` or `_Alignof` of a type.
pub fn sizeof_type(keyword: Word, open: TokenId, type_name: TypeName, close: TokenId) -> Expr
    ensures { expr_of result ≡ trees.sizeof_type keyword «open»
        (spec_words_from type_name.specs.words.items)
        (lists.some_declr_from type_name.declr) close }
{
    Expr::SizeofType {
        keyword,
        open,
        type_name,
        close,
    }
}

/// A call.
pub fn call(callee: Box<Expr>, open: TokenId, arguments: Vec<Expr>, close: TokenId) -> Expr
    ensures { expr_of result ≡ trees.call (expr_of callee.value) «open»
        (lists.exprs_from arguments.items) close }
{
    Expr::Call {
        callee,
        open,
        arguments,
        close,
    }
}

/// A struct or a union as a word of specifiers.
pub fn struct_word(
    alloc: Global,
    keyword: Word,
    attrs: Vec<Attr>,
    tag: Option<Identifier>,
    body: Option<Braced<StructItem>>,
) -> Result<SpecWord, NoMemory>
    ensures { IfOk result (λ word. spec_word_of word ≡ trees.struct_type keyword attrs.items tag
        (lists.some_body_from body)) }
{
    let made = Box::new(
        alloc,
        Struct {
            keyword,
            attrs,
            tag,
            body,
        },
    );
    match made {
        Ok(made) => Ok(SpecWord::Struct(made)),
        Err(_) => Err(NoMemory),
    }
}

/// An enum as a word of specifiers.
pub fn enum_word(
    alloc: Global,
    keyword: TokenId,
    attrs: Vec<Attr>,
    tag: Option<Identifier>,
    body: Option<BracedList<Enumerator>>,
) -> Result<SpecWord, NoMemory>
    ensures { IfOk result
        (λ word. spec_word_of word ≡ trees.enum_type
        (trees.enum_of keyword attrs.items tag (lists.some_enum_body_from body))) }
{
    let made = Box::new(
        alloc,
        Enum {
            keyword,
            attrs,
            tag,
            body,
        },
    );
    match made {
        Ok(made) => Ok(SpecWord::Enum(made)),
        Err(_) => Err(NoMemory),
    }
}

/// A member.
pub fn member(
    extensions: Vec<TokenId>,
    specs: Specs,
    declrs: Vec<Listed<MemDeclr>>,
    semi: TokenId,
) -> StructItem
    ensures { struct_item_of result ≡ trees.member extensions.items
        (spec_words_from specs.words.items) (lists.mem_declrs_from declrs.items) semi }
{
    StructItem::Member(Member {
        extensions,
        specs,
        declrs,
        semi,
    })
}

/// A member's declarator with its width.
pub fn named(declr: Box<Declr>, width: Option<Marked<Box<Expr>>>, attrs: Vec<Attr>) -> MemDeclr
    ensures { mem_declr_of result ≡ trees.named (declr_of declr.value)
        (lists.some_value_from width) attrs.items }
{
    MemDeclr::Named {
        declr,
        width,
        attrs,
    }
}

/// An array behind a declarator with a name.
pub fn array(
    inner: Box<Declr>,
    open: TokenId,
    words: Vec<ArrayWord>,
    size: Option<ArraySize>,
    close: TokenId,
) -> Declr
    ensures { declr_of result ≡ trees.array (declr_of inner.value) «open» words.items
        (lists.some_size_from size) close }
{
    Declr::Array {
        inner,
        open,
        words,
        size,
        close,
    }
}

/// Parameters behind a declarator with a name.
pub fn params(
    inner: Box<Declr>,
    open: TokenId,
    params: Vec<Param>,
    ellipsis: Option<Ellipsis>,
    close: TokenId,
) -> Declr
    ensures { declr_of result ≡ trees.params (declr_of inner.value) «open»
        (lists.params_from params.items) (option_map dots_of ellipsis) close }
{
    Declr::Params {
        inner,
        open,
        params,
        ellipsis,
        close,
    }
}

/// A pointer in a declarator without a name.
pub fn abs_pointer(star: TokenId, words: Vec<PointerWord>, inner: Option<Box<Declr>>) -> Declr
    ensures { declr_of result ≡ trees.abs_pointer star words.items (lists.some_declr_from inner) }
{
    Declr::AbsPointer { star, words, inner }
}

/// An array in a declarator without a name.
pub fn abs_array(
    inner: Option<Box<Declr>>,
    open: TokenId,
    words: Vec<ArrayWord>,
    size: Option<ArraySize>,
    close: TokenId,
) -> Declr
    ensures { declr_of result ≡ trees.abs_array (lists.some_declr_from inner) «open» words.items
        (lists.some_size_from size) close }
{
    Declr::AbsArray {
        inner,
        open,
        words,
        size,
        close,
    }
}

/// Parameters in a declarator without a name.
pub fn abs_params(
    inner: Option<Box<Declr>>,
    open: TokenId,
    params: Vec<Param>,
    ellipsis: Option<Ellipsis>,
    close: TokenId,
) -> Declr
    ensures { declr_of result ≡ trees.abs_params (lists.some_declr_from inner) «open»
        (lists.params_from params.items) (option_map dots_of ellipsis) close }
{
    Declr::AbsParams {
        inner,
        open,
        params,
        ellipsis,
        close,
    }
}

/// A declaration.
pub fn declaration(
    extensions: Vec<TokenId>,
    specs: Specs,
    declrs: Vec<Listed<InitDeclr>>,
    semi: TokenId,
) -> Declaration
    ensures { declaration_of result ≡ trees.declaration extensions.items
        (spec_words_from specs.words.items) (lists.init_declrs_from declrs.items) semi }
{
    Declaration {
        extensions,
        specs,
        declrs,
        semi,
    }
}
