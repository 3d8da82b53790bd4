//! Where index words may stand, and where bodies of functions begin.

ghost use Rattle.std.specs.Prelude.{◌≡◌, ◌++◌, IfOk, None, OnOk, map, option_map};
ghost use Rattle.c_tree.specs.Lists.{init_declrs_from, params_from, some_declr_from};
ghost use Rattle.c_tree.specs.Unit.{item_of, items_of, spec_words_from};
ghost use Rattle.c_tree.specs.View.{decl_of, declaration_of, declr_of, dots_of, spec_word_of};
ghost use Rattle.cq_prelude.specs.Pending.{in_parts};
ghost use Rattle.cq_prelude.specs.Placing.{bodies, in_array_words, in_decl, in_declaration, in_declr, in_dots, in_init_declrs, in_item, in_params, in_pointer_words, in_qual, in_quals, in_some_declr, in_spec_word, in_specs, index_places};
ghost use Rattle.cq_prelude.specs.Least.{least_behind, least_with};

use crate::declaring::declares_functions;
use crate::left::{Left, Part};
use c_shape::{DeclaratorShape, declarator_shape};
use c_syntax::{
    ArrayWord, Decl, Declaration, Declr, Ellipsis, InitDeclr, Item, Listed, Param, PointerWord,
    Qual, SpecWord, Unit,
};
use qual_base::{NoMemory, Numbered, TokenId};
use std::alloc::Global;

/// Adds a qualifier's token, where it is an index word.
fn add_qual(qual: &Qual, found: &mut Vec<TokenId>) -> Result<(), NoMemory>
    ensures { OnOk result (found.new.items ≡ found.old.items ++ in_qual qual.now) }
{
    match qual {
        Qual::Index { token } => found.push(*token)?,
        Qual::Word(_) | Qual::Element { .. } => {}
    }
    Ok(())
}

/// The qualifiers before `...`.
#[tactic(auto, using(crate::proofs::PartLemmas::list_assoc))]
fn quals<'a>(
    quals: &'a [Qual],
    left: &mut Left<'a>,
    found: &mut Vec<TokenId>,
) -> Result<(), NoMemory>
    ensures { OnOk result
        (found.new.items ++ left.new ≡ found.old.items ++ (in_quals quals.now ++ left.old)) }
{
    match quals.split_first() {
        None => Ok(()),
        Some((qual, rest)) => {
            left.quals(rest)?;
            add_qual(qual, found)
        }
    }
}

/// The words of a pointer.
#[tactic(auto, using(crate::proofs::PartLemmas::list_assoc))]
fn pointer_words<'a>(
    words: &'a [PointerWord],
    left: &mut Left<'a>,
    found: &mut Vec<TokenId>,
) -> Result<(), NoMemory>
    ensures { OnOk result (found.new.items ++ left.new
        ≡ found.old.items ++ (in_pointer_words words.now ++ left.old)) }
{
    match words.split_first() {
        None => Ok(()),
        Some((PointerWord::Attr(_), rest)) => left.pointer_words(rest),
        Some((PointerWord::Qual(qual), rest)) => {
            left.pointer_words(rest)?;
            add_qual(qual, found)
        }
    }
}

/// The words in the brackets of an array.
#[tactic(auto, using(crate::proofs::PartLemmas::list_assoc))]
fn array_words<'a>(
    words: &'a [ArrayWord],
    left: &mut Left<'a>,
    found: &mut Vec<TokenId>,
) -> Result<(), NoMemory>
    ensures { OnOk result (found.new.items ++ left.new
        ≡ found.old.items ++ (in_array_words words.now ++ left.old)) }
{
    match words.split_first() {
        None => Ok(()),
        Some((ArrayWord::Static { .. }, rest)) => left.array_words(rest),
        Some((ArrayWord::Qual(qual), rest)) => {
            left.array_words(rest)?;
            add_qual(qual, found)
        }
    }
}

/// The words of specifiers, without what the bodies of structs and enums hold.
#[tactic(auto, using(crate::proofs::PartLemmas::list_assoc))]
fn words<'a>(
    words: &'a [SpecWord],
    left: &mut Left<'a>,
    found: &mut Vec<TokenId>,
) -> Result<(), NoMemory>
    ensures { OnOk result (found.new.items ++ left.new
        ≡ found.old.items ++ (in_specs (spec_words_from words.now) ++ left.old)) }
{
    match words.split_first() {
        None => Ok(()),
        Some((word, rest)) => {
            left.words(rest)?;
            add_word(word, found)
        }
    }
}

/// Adds the token of a word of specifiers, where it is an index word.
fn add_word(word: &SpecWord, found: &mut Vec<TokenId>) -> Result<(), NoMemory>
    ensures { OnOk result
        (found.new.items ≡ found.old.items ++ in_spec_word (spec_word_of word.now)) }
{
    match word {
        SpecWord::Qual(qual) => add_qual(qual, found),
        SpecWord::Storage(_)
        | SpecWord::Thread { .. }
        | SpecWord::Inline { .. }
        | SpecWord::Noreturn { .. }
        | SpecWord::Type(_)
        | SpecWord::Struct(_)
        | SpecWord::Enum(_)
        | SpecWord::TypedefName(_)
        | SpecWord::Attr(_)
        | SpecWord::Typeof { .. }
        | SpecWord::TypeofType { .. }
        | SpecWord::Align(_)
        | SpecWord::Auto { .. } => Ok(()),
    }
}

fn some_declr<'a>(d: &'a Option<Box<Declr>>, left: &mut Left<'a>) -> Result<(), NoMemory>
    ensures { OnOk result (left.new ≡ in_some_declr (some_declr_from d.now) ++ left.old) }
{
    match d {
        Some(d) => left.declr(d),
        None => Ok(()),
    }
}

fn dots<'a>(ellipsis: &'a Option<Ellipsis>, left: &mut Left<'a>) -> Result<(), NoMemory>
    ensures { OnOk result (left.new ≡ in_dots (option_map dots_of ellipsis.now) ++ left.old) }
{
    match ellipsis {
        Some(ellipsis) => left.quals(ellipsis.quals.as_slice()),
        None => Ok(()),
    }
}

/// A declarator, without its attributes and the sizes of its arrays.
#[tactic(auto, using(crate::proofs::PartLemmas::list_assoc))]
fn declr<'a>(d: &'a Declr, left: &mut Left<'a>) -> Result<(), NoMemory>
    ensures { OnOk result (left.new ≡ in_declr (declr_of d.now) ++ left.old) }
{
    match declarator_shape(d) {
        DeclaratorShape::DeclName { .. } | DeclaratorShape::BaseName { .. } => Ok(()),
        DeclaratorShape::Identifiers { inner, .. } => left.declr(inner),
        DeclaratorShape::DeclParen { inner, .. } => left.declr(inner),
        DeclaratorShape::AbsParen { inner, .. } => left.declr(inner),
        DeclaratorShape::Pointer { words, inner, .. } => {
            left.declr(inner)?;
            left.pointer_words(words.as_slice())
        }
        DeclaratorShape::Array { inner, words, .. } => {
            left.array_words(words.as_slice())?;
            left.declr(inner)
        }
        DeclaratorShape::Params {
            inner,
            params,
            ellipsis,
            ..
        } => {
            dots(ellipsis, left)?;
            left.params(params.as_slice())?;
            left.declr(inner)
        }
        DeclaratorShape::AbsPointer { words, inner, .. } => {
            some_declr(inner, left)?;
            left.pointer_words(words.as_slice())
        }
        DeclaratorShape::AbsArray { inner, words, .. } => {
            left.array_words(words.as_slice())?;
            some_declr(inner, left)
        }
        DeclaratorShape::AbsParams {
            inner,
            params,
            ellipsis,
            ..
        } => {
            dots(ellipsis, left)?;
            left.params(params.as_slice())?;
            some_declr(inner, left)
        }
    }
}

/// Parameters one after the other.
#[tactic(auto, using(crate::proofs::PartLemmas::list_assoc))]
fn params<'a>(params: &'a [Param], left: &mut Left<'a>) -> Result<(), NoMemory>
    ensures { OnOk result (left.new ≡ in_params (params_from params.now) ++ left.old) }
{
    match params.split_first() {
        None => Ok(()),
        Some((param, rest)) => {
            left.params(rest)?;
            some_declr(&param.declr, left)?;
            left.words(param.specs.words.as_slice())
        }
    }
}

/// Declarators of a declaration one after the other.
#[tactic(auto, using(crate::proofs::PartLemmas::list_assoc))]
fn init_declrs<'a>(declrs: &'a [Listed<InitDeclr>], left: &mut Left<'a>) -> Result<(), NoMemory>
    ensures { OnOk result
        (left.new ≡ in_init_declrs (init_declrs_from declrs.now) ++ left.old) }
{
    match declrs.split_first() {
        None => Ok(()),
        Some((it, rest)) => {
            left.init_declrs(rest)?;
            left.declr(&it.item.declr)
        }
    }
}

/// The specifiers and declarators of a declaration, where it declares functions alone.
#[tactic(auto, using(crate::proofs::PartLemmas::list_assoc))]
fn declaration_parts<'a>(
    words: &'a [SpecWord],
    declrs: &'a [Listed<InitDeclr>],
    left: &mut Left<'a>,
) -> Result<(), NoMemory>
    ensures { OnOk result (left.new
        ≡ in_parts (spec_words_from words.now) (init_declrs_from declrs.now) ++ left.old) }
{
    if !declares_functions(words, declrs) {
        return Ok(());
    }
    left.init_declrs(declrs)?;
    left.words(words)
}

/// A declaration.
fn declaration<'a>(it: &'a Declaration, left: &mut Left<'a>) -> Result<(), NoMemory>
    ensures { OnOk result (left.new ≡ in_declaration (declaration_of it.now) ++ left.old) }
{
    declaration_parts(it.specs.words.as_slice(), it.declrs.as_slice(), left)
}

/// A declaration or an assertion.
fn decl<'a>(it: &'a Decl, left: &mut Left<'a>) -> Result<(), NoMemory>
    ensures { OnOk result (left.new ≡ in_decl (decl_of it.now) ++ left.old) }
{
    match it {
        Decl::Declaration(it) => declaration(it, left),
        Decl::Assert(_) => Ok(()),
    }
}

/// An item of a unit: in a function with a body no index word may stand.
fn item<'a>(it: &'a Item, left: &mut Left<'a>) -> Result<(), NoMemory>
    ensures { OnOk result (left.new ≡ in_item (item_of it.now) ++ left.old) }
{
    match it {
        Item::Decl(it) => decl(it, left),
        Item::Function { .. } | Item::OldFunction { .. } | Item::AsmDecl { .. } | Item::Semi(_) =>
            Ok(()),
    }
}

/// Items of a unit one after the other.
#[tactic(auto, using(crate::proofs::PartLemmas::list_assoc))]
fn items<'a>(items: &'a [Item], left: &mut Left<'a>) -> Result<(), NoMemory>
    ensures { OnOk result (left.new ≡ index_places (map item_of items.now) ++ left.old) }
{
    match items.split_first() {
        None => Ok(()),
        Some((first, rest)) => {
            left.items(rest)?;
            item(first, left)
        }
    }
}

/// Takes the next part: its first word is added, if it is an index word, and the rest of it takes its place.
#[tactic(auto, using(crate::proofs::PartLemmas::list_assoc))]
fn turn<'a>(left: &mut Left<'a>, found: &mut Vec<TokenId>) -> Result<(), NoMemory>
    ensures { OnOk result (found.new.items ++ left.new ≡ found.old.items ++ left.old) }
{
    match left.next() {
        None => Ok(()),
        Some(Part::Declr(d)) => declr(d, left),
        Some(Part::Params(ps)) => params(ps, left),
        Some(Part::Words(ws)) => words(ws, left, found),
        Some(Part::PointerWords(ws)) => pointer_words(ws, left, found),
        Some(Part::ArrayWords(ws)) => array_words(ws, left, found),
        Some(Part::Quals(qs)) => quals(qs, left, found),
        Some(Part::InitDeclrs(ds)) => init_declrs(ds, left),
        Some(Part::Items(all)) => items(all, left),
    }
}

/// The index words of a unit that stand where they may, by their tokens: on the types of the functions that its file
/// scope declares. Linear in the unit, in time and memory, without recursion but for the tests of declarators.
#[tactic(auto, using(crate::proofs::PartLemmas::append_nil))]
pub(crate) fn places(alloc: Global, unit: &Unit) -> Result<Vec<TokenId>, NoMemory>
    ensures { IfOk result (λ found. found.items ≡ index_places (items_of unit.now)) }
{
    let mut left = Left::new(alloc);
    let mut found = Vec::new(alloc);
    left.items(unit.items.as_slice())?;
    for _ in 0..u64::MAX {
        if left.is_done() {
            return Ok(found);
        }
        turn(&mut left, &mut found)?;
    }
    Err(NoMemory)
}

/// The lesser of two tokens, if there is a first.
fn lesser(best: Option<TokenId>, token: TokenId) -> TokenId
    ensures { result ≡ least_with best token }
{
    match best {
        Some(other) if other.number() < token.number() => other,
        _ => token,
    }
}

/// The least token of the `{` of a function's body. Linear in the items.
pub(crate) fn first_body(items: &[Item]) -> Option<TokenId>
    ensures { result ≡ least_behind None (bodies (map item_of items.now)) }
{
    let mut best = None;
    for item in items {
        match item {
            Item::Function { body, .. } | Item::OldFunction { body, .. } => best = Some(lesser(
                best, body.open,
            )),
            Item::Decl(_) | Item::AsmDecl { .. } | Item::Semi(_) => {}
        }
    }
    best
}
