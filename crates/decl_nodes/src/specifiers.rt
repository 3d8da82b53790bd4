//! Words of specifiers with the types that have a body (C99, 6.7.1 to 6.7.4), made of sized parts.
//!
//! Each takes constant time, but the lists of words, which take as long as they are.

ghost use Rattle.std.specs.Prelude.{◌≡◌, None, map, IfOk};
ghost use Rattle.c_nodes.specs.Sized.{expr};
ghost use Rattle.c_syntax.specs.declared.specifier.SpecWord.TheVariants as rust_words;
ghost use Rattle.c_tree.specs.Lists.{some_declr_from, some_body_from, struct_items_from, mem_declrs_from, some_value_from, some_enum_body_from, enumerators_from};
ghost use Rattle.c_tree.specs.Tree as trees;
ghost use Rattle.c_tree.specs.Unit.{spec_words_from};
ghost use Rattle.c_tree.specs.View.{spec_word_of, struct_item_of, mem_declr_of, declr_of};

use crate::making;
use c_nodes::{
    PresentDeclr, SizedBody, SizedEnumBody, SizedEnumerator, SizedEnumerators, SizedExpr,
    SizedMemDeclr, SizedMember, SizedMembers, SizedSpecs, SizedStructItem, SizedStructItems,
    SizedTypeName, SizedValue, SizedWord, above, above_both, greater, of_attrs,
};
use c_syntax::{
    Assert, Attr, Braced, BracedList, Identifier, Marked, MemDeclr, Qual, Semi, SpecWord, Specs,
    StructItem, TypeName, TypedefName, Word,
};
use qual_base::{NameId, NoMemory, TokenId};
use std::alloc::Global;

/// `typedef`, `extern`, `static`, `auto` or `register`.
pub fn storage(word: Word) -> SizedWord
    ensures { spec_word_of result.word ≡ trees.storage word }
{
    SizedWord {
        word: SpecWord::Storage(word),
        height: 0,
    }
}

/// `thread`.
pub fn thread(token: TokenId) -> SizedWord
    ensures { spec_word_of result.word ≡ trees.thread token }
{
    SizedWord {
        word: SpecWord::Thread { token },
        height: 0,
    }
}

/// `inline`.
pub fn inline_word(token: TokenId) -> SizedWord
    ensures { spec_word_of result.word ≡ trees.inline_word token }
{
    SizedWord {
        word: SpecWord::Inline { token },
        height: 0,
    }
}

/// `_Noreturn`.
pub fn noreturn(token: TokenId) -> SizedWord
    ensures { spec_word_of result.word ≡ trees.noreturn token }
{
    SizedWord {
        word: SpecWord::Noreturn { token },
        height: 0,
    }
}

/// `qual = const | volatile | restrict | Qual | Index`.
pub fn qualifier(qual: Qual) -> SizedWord
    ensures { spec_word_of result.word ≡ trees.qualifier qual }
{
    SizedWord {
        word: SpecWord::Qual(qual),
        height: 0,
    }
}

/// A word of a basic type.
pub fn basic(word: Word) -> SizedWord
    ensures { spec_word_of result.word ≡ trees.basic word }
{
    SizedWord {
        word: SpecWord::Type(word),
        height: 0,
    }
}

/// A name whose kind at its place is a typedef.
pub fn typedef_name(token: TokenId, name: NameId) -> SizedWord
    ensures { spec_word_of result.word
        ≡ trees.typedef_name (record { token = token; name = name }) }
{
    SizedWord {
        word: SpecWord::TypedefName(TypedefName { token, name }),
        height: 1,
    }
}

/// `Attr = attribute bal`.
pub fn attribute(attr: Attr) -> SizedWord
    ensures { spec_word_of result.word ≡ trees.attribute attr }
{
    SizedWord {
        word: SpecWord::Attr(attr),
        height: 1,
    }
}

/// `Typeof = typeof ( expr )`.
pub fn typeof_value(
    keyword: TokenId,
    opening: TokenId,
    operand: SizedExpr,
    closing: TokenId,
) -> SizedWord
    ensures { spec_word_of result.word
        ≡ trees.typeof_value keyword opening (expr operand) closing }
{
    SizedWord {
        word: SpecWord::Typeof {
            keyword,
            open: opening,
            operand: operand.tree,
            close: closing,
        },
        height: above(operand.height),
    }
}

/// `TypeofType = typeof ( TypeName )` and `AtomicType = _Atomic ( TypeName )`.
pub fn typeof_type(
    keyword: Word,
    opening: TokenId,
    of: SizedTypeName,
    closing: TokenId,
) -> SizedWord
    ensures { spec_word_of result.word
        ≡ trees.typeof_type keyword opening (spec_words_from of.words.items)
        (some_declr_from of.declr) closing }
{
    let height = above(of.height);
    let type_name = TypeName {
        specs: Specs { words: of.words },
        declr: of.declr,
    };
    SizedWord {
        word: making::typeof_type(keyword, opening, type_name, closing),
        height,
    }
}

/// `Align = _Alignas bal`.
pub fn align(attr: Attr) -> SizedWord
    ensures { spec_word_of result.word ≡ trees.align attr }
{
    SizedWord {
        word: SpecWord::Align(attr),
        height: 1,
    }
}

/// `__auto_type`.
pub fn auto_word(token: TokenId) -> SizedWord
    ensures { spec_word_of result.word ≡ trees.auto_word token }
{
    SizedWord {
        word: SpecWord::Auto { token },
        height: 1,
    }
}

/// Qualifiers as specifiers.
pub fn words_of_quals(alloc: Global, quals: &[Qual]) -> Result<SizedSpecs, NoMemory>
    ensures { IfOk result (λ made. made.words.items ≡ map (λ q. rust_words.Qual q) quals.now) }
{
    let mut words = SizedSpecs::new(alloc);
    for qual in quals {
        let word = SpecWord::Qual(*qual);
        words.push(SizedWord { word, height: 0 })?;
    }
    Ok(words)
}

/// Attributes as specifiers.
pub fn words_of_attrs(alloc: Global, attrs: &[Attr]) -> Result<SizedSpecs, NoMemory>
    ensures { IfOk result (λ made. made.words.items ≡ map (λ a. rust_words.Attr a) attrs.now) }
{
    let mut words = SizedSpecs::new(alloc);
    for attr in attrs {
        let word = SpecWord::Attr(*attr);
        words.push(SizedWord { word, height: 1 })?;
    }
    Ok(words)
}

/// `Struct = (struct | union) Attr* [Name] [{ member* }]`.
pub fn struct_type(
    alloc: Global,
    keyword: Word,
    attrs: Vec<Attr>,
    tag: Option<Identifier>,
    body: SizedBody,
) -> Result<SizedWord, NoMemory>
    ensures { IfOk result (λ made. spec_word_of made.word
        ≡ trees.struct_type keyword attrs.items tag (some_body_from body.body)) }
{
    let height = above_both(of_attrs(attrs.as_slice()), body.height);
    let word = c_tree::struct_word(alloc, keyword, attrs, tag, body.body)?;
    Ok(SizedWord { word, height })
}

/// No body of a struct or union.
pub fn no_body() -> SizedBody
    ensures { result.body ≡ None }
{
    SizedBody {
        body: None,
        height: 0,
    }
}

/// `{ member* }`.
pub fn some_body(opening: TokenId, items: SizedStructItems, closing: TokenId) -> SizedBody
    ensures { some_body_from result.body
        ≡ trees.some_body opening (struct_items_from items.items.items) closing }
{
    SizedBody {
        body: Some(Braced {
            open: opening,
            items: items.items,
            close: closing,
        }),
        height: items.height,
    }
}

/// `Member = ext* Specs [MemDeclr (, Attr* MemDeclr)*] ;`.
pub fn member(
    extensions: Vec<TokenId>,
    specs: SizedSpecs,
    declrs: SizedMembers,
    semi: TokenId,
) -> SizedStructItem
    ensures { struct_item_of result.item ≡ trees.member extensions.items
        (spec_words_from specs.words.items) (mem_declrs_from declrs.items.items) semi }
{
    let height = above_both(specs.height, declrs.height);
    let words = Specs { words: specs.words };
    let item = c_tree::member(extensions, words, declrs.items, semi);
    SizedStructItem { item, height }
}

/// `Semi = ;`.
pub fn member_semi(semi: TokenId) -> SizedStructItem
    ensures { struct_item_of result.item ≡ trees.member_semi (record { token = semi }) }
{
    SizedStructItem {
        item: StructItem::Semi(Semi { token: semi }),
        height: 1,
    }
}

/// `Assert = _Static_assert bal ;`.
pub fn member_assert(it: Assert) -> SizedStructItem
    ensures { struct_item_of result.item ≡ trees.member_assert it }
{
    SizedStructItem {
        item: StructItem::Assert(it),
        height: 1,
    }
}

/// `MemDeclr = declr [: cond] Attr*`.
pub fn named(declr: PresentDeclr, width: SizedValue, attrs: Vec<Attr>) -> SizedMemDeclr
    ensures { mem_declr_of result.declr ≡ trees.named (declr_of declr.declr.value)
        (some_value_from width.value) attrs.items }
{
    let behind = greater(width.height, of_attrs(attrs.as_slice()));
    let height = above_both(declr.height, behind);
    let declr = c_tree::named(declr.declr, width.value, attrs);
    SizedMemDeclr { declr, height }
}

/// `MemDeclr = : cond Attr*`.
pub fn unnamed(colon: TokenId, width: SizedExpr, attrs: Vec<Attr>) -> SizedMemDeclr
    ensures { mem_declr_of result.declr ≡ trees.unnamed colon (expr width) attrs.items }
{
    let height = above_both(width.height, of_attrs(attrs.as_slice()));
    let width = Marked {
        token: colon,
        part: width.tree,
    };
    SizedMemDeclr {
        declr: MemDeclr::Unnamed { width, attrs },
        height,
    }
}

/// A declarator of a member with the attributes before it.
pub fn listed_member(attrs: Vec<Attr>, declr: SizedMemDeclr) -> SizedMember
    ensures attrs { result.attrs ≡ attrs }
    ensures declr { result.declr ≡ declr.declr }
{
    let height = greater(of_attrs(attrs.as_slice()), declr.height);
    SizedMember {
        attrs,
        declr: declr.declr,
        height,
    }
}

/// No value.
pub fn no_value() -> SizedValue
    ensures { result.value ≡ None }
{
    SizedValue {
        value: None,
        height: 0,
    }
}

/// A value behind its sign.
pub fn some_value(token: TokenId, value: SizedExpr) -> SizedValue
    ensures { some_value_from result.value ≡ trees.some_value token (expr value) }
{
    SizedValue {
        value: Some(Marked {
            token,
            part: value.tree,
        }),
        height: value.height,
    }
}

/// `Enum = enum Attr* [Name] [{ Enumerator (, Enumerator)* [,] }]`.
pub fn enum_type(
    alloc: Global,
    keyword: TokenId,
    attrs: Vec<Attr>,
    tag: Option<Identifier>,
    body: SizedEnumBody,
) -> Result<SizedWord, NoMemory>
    ensures { IfOk result (λ made. spec_word_of made.word ≡ trees.enum_type
        (trees.enum_of keyword attrs.items tag (some_enum_body_from body.body))) }
{
    let height = above_both(of_attrs(attrs.as_slice()), body.height);
    let word = c_tree::enum_word(alloc, keyword, attrs, tag, body.body)?;
    Ok(SizedWord { word, height })
}

/// No body of an enum.
pub fn no_enum_body() -> SizedEnumBody
    ensures { result.body ≡ None }
{
    SizedEnumBody {
        body: None,
        height: 0,
    }
}

/// `{ Enumerator (, Enumerator)* [,] }`.
pub fn some_enum_body(
    opening: TokenId,
    items: SizedEnumerators,
    comma: Option<TokenId>,
    closing: TokenId,
) -> SizedEnumBody
    ensures { some_enum_body_from result.body
        ≡ trees.some_enum_body opening (enumerators_from items.items.items) comma closing }
{
    SizedEnumBody {
        body: Some(BracedList {
            open: opening,
            items: items.items,
            comma,
            close: closing,
        }),
        height: items.height,
    }
}

/// `Enumerator = Name Attr* [= cond]`.
pub fn enumerator(name: Identifier, attrs: Vec<Attr>, value: SizedValue) -> SizedEnumerator
    ensures name { result.name ≡ name }
    ensures attrs { result.attrs ≡ attrs }
    ensures value { result.value ≡ value.value }
{
    let height = above_both(of_attrs(attrs.as_slice()), value.height);
    SizedEnumerator {
        name,
        attrs,
        value: value.value,
        height,
    }
}
