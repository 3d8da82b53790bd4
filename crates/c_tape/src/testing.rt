//! What the tape of a node asks of its parts.

ghost use Rattle.std.specs.Prelude.{◌≡◌, option_map, true, false};
ghost use Rattle.c_tree.specs.View.{declr_of, dots_of, spec_word_of, stmt_of, block_item_of};
ghost use Rattle.c_tree.specs.Unit.{spec_words_from, block_items_from};
ghost use Rattle.c_tree.specs.Lists.{params_from, some_declr_from, init_declrs_from, some_init_from};
ghost use Rattle.c_tree.specs.Tree.{more_params};
ghost use Rattle.c_tree.specs.WellFormed.{is_auto, has_auto};
ghost use Rattle.c_tape.specs.Tests.{is_bare_word, is_bare, says_none, has_ellipsis, is_lone_word, is_lone, declares_tag, is_name, is_value, is_value_item, ends_in_value, is_end, tag_kind, has_value, have_values, are_auto};

use c_shape::{StatementShape, statement_shape};
use c_syntax::{
    BlockItem, Declr, Ellipsis, Init, InitDeclr, Listed, Marked, Param, SpecWord, Stmt,
};
use c_words::Keyword;
use tape_ops::TagKind;

/// The kind of a tag behind `struct` or `union`.
pub fn kind_of_tag(keyword: Keyword) -> TagKind
    ensures { result ≡ tag_kind keyword }
{
    match keyword {
        Keyword::Union => TagKind::Union,
        _ => TagKind::Struct,
    }
}

fn is_bare_one(word: &SpecWord) -> bool
    ensures { result ≡ is_bare_word (spec_word_of word.now) }
{
    match word {
        SpecWord::Storage(_)
        | SpecWord::Thread { .. }
        | SpecWord::Qual(_)
        | SpecWord::Struct(_)
        | SpecWord::Enum(_)
        | SpecWord::Typeof { .. }
        | SpecWord::TypeofType { .. }
        | SpecWord::Auto { .. }
        | SpecWord::TypedefName(_) => false,
        SpecWord::Inline { .. }
        | SpecWord::Noreturn { .. }
        | SpecWord::Attr(_)
        | SpecWord::Align(_) => true,
        SpecWord::Type(word) => matches!(word.keyword, Keyword::Void),
    }
}

/// Whether words are `void` and what says nothing beside it.
fn are_bare(words: &[SpecWord]) -> bool
    ensures { result ≡ is_bare (spec_words_from words.now) }
{
    for word in words {
        if !is_bare_one(word) {
            return false;
        }
    }
    true
}

/// Whether a list of parameters says that there are none. Linear in the words of the first.
pub fn is_void_list(params: &[Param]) -> bool
    ensures { result ≡ says_none (params_from params.now) }
{
    match params.split_first() {
        Some((param, rest)) => is_void_param(param, rest),
        None => false,
    }
}

fn is_void_param(param: &Param, rest: &[Param]) -> bool
    ensures { result ≡ says_none (more_params (spec_words_from param.now.specs.words.items)
        (some_declr_from param.now.declr) param.now.attrs.items (params_from rest.now)) }
{
    match (&param.declr, rest.split_first()) {
        (None, None) => are_bare(param.specs.words.as_slice()),
        (None, Some(_)) | (Some(_), _) => false,
    }
}

/// Whether a function takes more arguments than it has parameters.
pub fn takes_more(params: &[Param], ellipsis: &Option<Ellipsis>) -> bool
    ensures { result ≡ has_ellipsis (params_from params.now) (option_map dots_of ellipsis.now) }
{
    match ellipsis {
        Some(_) => true,
        None => match params.split_first() {
            Some(_) => false,
            None => true,
        },
    }
}

fn is_lone_one(word: &SpecWord) -> bool
    ensures { result ≡ is_lone_word (spec_word_of word.now) }
{
    match word {
        SpecWord::Storage(_)
        | SpecWord::Thread { .. }
        | SpecWord::Inline { .. }
        | SpecWord::Noreturn { .. }
        | SpecWord::Qual(_)
        | SpecWord::Type(_)
        | SpecWord::Enum(_)
        | SpecWord::Typeof { .. }
        | SpecWord::TypeofType { .. }
        | SpecWord::Auto { .. }
        | SpecWord::TypedefName(_) => false,
        SpecWord::Struct(it) => it.body.is_none(),
        SpecWord::Attr(_) | SpecWord::Align(_) => true,
    }
}

fn are_lone(words: &[SpecWord]) -> bool
    ensures { result ≡ is_lone (spec_words_from words.now) }
{
    for word in words {
        if !is_lone_one(word) {
            return false;
        }
    }
    true
}

/// Whether a declaration declares a tag by itself. Linear in its words.
pub fn is_tag_alone(words: &[SpecWord], declrs: &[Listed<InitDeclr>]) -> bool
    ensures { result ≡ declares_tag (spec_words_from words.now) (init_declrs_from declrs.now) }
{
    match declrs.split_first() {
        Some(_) => false,
        None => are_lone(words),
    }
}

/// Whether a declarator is a name, parentheses aside. Recursive as deep as these.
pub fn is_name_alone(d: &Declr) -> bool
    ensures { result ≡ is_name (declr_of d.now) }
{
    match d {
        Declr::DeclName { .. } => true,
        Declr::DeclParen { inner, .. } => is_name_alone(inner),
        Declr::Pointer { .. }
        | Declr::Array { .. }
        | Declr::Params { .. }
        | Declr::AbsPointer { .. }
        | Declr::AbsParen { .. }
        | Declr::AbsArray { .. }
        | Declr::AbsParams { .. }
        | Declr::Identifiers { .. }
        | Declr::BaseName { .. } => false,
    }
}

fn is_value_stmt(s: &Stmt) -> bool
    ensures { result ≡ is_value (stmt_of s.now) }
{
    match statement_shape(s) {
        StatementShape::ExprStmt { value, .. } => value.is_some(),
        StatementShape::Block { .. }
        | StatementShape::AttrStmt { .. }
        | StatementShape::Label { .. }
        | StatementShape::Case { .. }
        | StatementShape::Default { .. }
        | StatementShape::If { .. }
        | StatementShape::Switch { .. }
        | StatementShape::While { .. }
        | StatementShape::Do { .. }
        | StatementShape::For { .. }
        | StatementShape::Goto { .. }
        | StatementShape::CaseRange { .. }
        | StatementShape::GotoValue { .. }
        | StatementShape::Continue { .. }
        | StatementShape::Break { .. }
        | StatementShape::Return { .. }
        | StatementShape::Asm { .. } => false,
    }
}

fn is_valued(item: &BlockItem) -> bool
    ensures { result ≡ is_value_item (block_item_of item.now) }
{
    match item {
        BlockItem::Decl(_) | BlockItem::Labels { .. } => false,
        BlockItem::Stmt(s) => is_value_stmt(s),
    }
}

/// Whether the last item of a block is an expression statement with an expression. Constant time.
#[tactic(auto, using(crate::proofs::BlockLemmas::ends_as_last))]
pub fn has_last_value(items: &[BlockItem]) -> bool
    ensures { result ≡ ends_in_value (block_items_from items.now) }
{
    match items.split_last() {
        Some((item, _)) => is_valued(item),
        None => false,
    }
}

/// Whether no item is left.
pub fn is_last(rest: &[BlockItem]) -> bool
    ensures { result ≡ is_end (block_items_from rest.now) }
{
    match rest.split_first() {
        Some(_) => false,
        None => true,
    }
}

fn is_auto(word: &SpecWord) -> bool
    ensures { result ≡ is_auto (spec_word_of word.now) }
{
    match word {
        SpecWord::Auto { .. } => true,
        SpecWord::Storage(_)
        | SpecWord::Thread { .. }
        | SpecWord::Inline { .. }
        | SpecWord::Noreturn { .. }
        | SpecWord::Qual(_)
        | SpecWord::Type(_)
        | SpecWord::Struct(_)
        | SpecWord::Enum(_)
        | SpecWord::TypedefName(_)
        | SpecWord::Attr(_)
        | SpecWord::Typeof { .. }
        | SpecWord::TypeofType { .. }
        | SpecWord::Align(_) => false,
    }
}

/// Whether `__auto_type` stands among words. Linear in them.
fn has_auto(words: &[SpecWord]) -> bool
    ensures { result ≡ has_auto (spec_words_from words.now) }
{
    for word in words {
        if is_auto(word) {
            return true;
        }
    }
    false
}

fn has_value(init: &Option<Marked<Init>>) -> bool
    ensures { result ≡ has_value (some_init_from init.now) }
{
    match init {
        None => false,
        Some(init) => match &init.part {
            Init::Value(_) => true,
            Init::InitList(_) => false,
        },
    }
}

fn have_values(declrs: &[Listed<InitDeclr>]) -> bool
    ensures { result ≡ have_values (init_declrs_from declrs.now) }
{
    for it in declrs {
        if !has_value(&it.item.init) {
            return false;
        }
    }
    true
}

/// Whether the names of a declaration have the types of their initialisers. Linear in its words and declarators.
pub fn are_auto(words: &[SpecWord], declrs: &[Listed<InitDeclr>]) -> bool
    ensures { result ≡ are_auto (spec_words_from words.now) (init_declrs_from declrs.now) }
{
    has_auto(words) && have_values(declrs)
}
