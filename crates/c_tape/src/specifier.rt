//! Specifiers, with the bodies of structs, unions and enums.

ghost use Rattle.std.specs.Prelude.{◌≡◌, ◌++◌, [], OnOk, true, false};
ghost use Rattle.c_tree.specs.View.{spec_word_of, struct_item_of, mem_declr_of, enum_type_of, declr_of};
ghost use Rattle.c_tree.specs.Lists.{some_body_from, struct_items_from, mem_declrs_from, some_value_from, some_enum_body_from, enumerators_from};
ghost use Rattle.c_tree.specs.Tree.{struct_type};
ghost use Rattle.c_tree.specs.Unit.{spec_words_from};
ghost use Rattle.c_tape.specs.Tape.{specs_with, words_tape, word_tape, struct_tape, tag_tape, body_tape, unnamed_tape, unnamed_word_tape, struct_items_tape, struct_item_tape, members_tape, mem_declrs_tape, mem_declr_tape, some_value_tape, enum_tape, enum_body_tape, enumerators_tape, declr, contents, pieces};
ghost use Rattle.c_tape.specs.Parts.{boxed_tape, type_tape};
ghost use Rattle.c_tape.specs.Tape.{spec, stmt};
ghost use Rattle.c_tape.specs.Tests.{tag_kind};
ghost use Rattle.tape_ops.specs.declared.specifier.SpecOp.TheVariants as specs;
ghost use Rattle.tape_ops.specs.declared.statement.StmtOp.TheVariants as stmts;
ghost use Rattle.tape_ops.specs.declared.declarator.DeclrOp.TheVariants as declrs_ops;

use crate::declarator::{declarator, specifiers};
use crate::forms::type_name;
use crate::testing::kind_of_tag;
use crate::todo::Todo;
use c_syntax::{
    BracedList, Declr, Enum, Enumerator, Expr, Identifier, Listed, Marked, MemDeclr, Member,
    SpecWord, Struct, StructItem, TypeName,
};
use c_tree::token_of_qual;
use c_words::Keyword;
use qual_base::{NoMemory, TokenId};
use tape_ops::{DeclrOp, SpecOp, StmtOp, TagKind};

/// A tag without a body. `is_alone`: it is a declaration by itself.
fn tag_alone<'a>(
    kind: TagKind,
    tag: &Option<Identifier>,
    is_alone: bool,
    todo: &mut Todo<'a>,
) -> Result<(), NoMemory>
    ensures { OnOk result (todo.new ≡ tag_tape is_alone kind tag.now ++ todo.old) }
{
    match tag {
        None => Ok(()),
        Some(tag) => {
            if is_alone {
                todo.spec_op(SpecOp::TagAlone {
                    kind,
                    token: tag.token,
                    name: tag.name,
                })
            } else {
                todo.spec_op(SpecOp::TagUse {
                    kind,
                    token: tag.token,
                    name: tag.name,
                })
            }
        }
    }
}

/// The beginning of a body, with its tag if it has one.
fn body_begins<'a>(
    kind: TagKind,
    keyword: TokenId,
    tag: &Option<Identifier>,
    todo: &mut Todo<'a>,
) -> Result<(), NoMemory>
    ensures { OnOk result (todo.new ≡ body_tape kind keyword tag.now ++ todo.old) }
{
    match tag {
        None => todo.spec_op(SpecOp::Untagged {
            kind,
            token: keyword,
        }),
        Some(tag) => todo.spec_op(SpecOp::TagBody {
            kind,
            token: tag.token,
            name: tag.name,
        }),
    }
}

/// A struct or union.
#[tactic(auto, using(crate::proofs::TodoLemmas::list_assoc))]
fn struct_or_union<'a>(it: &'a Struct, is_alone: bool, todo: &mut Todo<'a>) -> Result<(), NoMemory>
    ensures { OnOk result
        (todo.new ≡ struct_tape is_alone
        (tag_kind it.now.keyword.keyword) it.now.keyword.token it.now.tag
        (some_body_from it.now.body) ++ todo.old) }
{
    let kind = kind_of_tag(it.keyword.keyword);
    match &it.body {
        None => tag_alone(kind, &it.tag, is_alone, todo),
        Some(body) => {
            todo.spec_op(SpecOp::BodyEnd)?;
            todo.struct_items(body.items.as_slice())?;
            body_begins(kind, it.keyword.token, &it.tag, todo)
        }
    }
}

/// The tag and the body of an enum.
#[tactic(auto, using(crate::proofs::TodoLemmas::list_assoc))]
fn enum_parts<'a>(
    keyword: TokenId,
    tag: &Option<Identifier>,
    body: &'a Option<BracedList<Enumerator>>,
    todo: &mut Todo<'a>,
) -> Result<(), NoMemory>
    ensures { OnOk result
        (todo.new ≡ enum_body_tape keyword tag.now (some_enum_body_from body.now) ++ todo.old) }
{
    match body {
        None => tag_alone(TagKind::Enum, tag, false, todo),
        Some(body) => {
            todo.spec_op(SpecOp::BodyEnd)?;
            todo.enumerators(body.items.as_slice())?;
            body_begins(TagKind::Enum, keyword, tag, todo)
        }
    }
}

/// An enum.
fn enumeration<'a>(it: &'a Enum, todo: &mut Todo<'a>) -> Result<(), NoMemory>
    ensures { OnOk result (todo.new ≡ enum_tape (enum_type_of it.now) ++ todo.old) }
{
    enum_parts(it.keyword, &it.tag, &it.body, todo)
}

/// A type by an expression.
#[tactic(auto, using(crate::proofs::TodoLemmas::list_assoc))]
fn typed_by_value<'a>(
    operand: &'a Box<Expr>,
    close: TokenId,
    todo: &mut Todo<'a>,
) -> Result<(), NoMemory>
    ensures { OnOk result (todo.new ≡ (stmt stmts.Quiet ++ spec specs.PartBegin
        ++ boxed_tape operand.now ++ spec (specs.TypeofEnd close) ++ stmt stmts.Loud) ++ todo.old) }
{
    todo.stmt_op(StmtOp::Loud)?;
    todo.spec_op(SpecOp::TypeofEnd { token: close })?;
    todo.expr(operand)?;
    todo.spec_op(SpecOp::PartBegin)?;
    todo.stmt_op(StmtOp::Quiet)
}

/// A type by the name of a type.
#[tactic(auto, using(crate::proofs::TodoLemmas::list_assoc))]
fn typed_by_name<'a>(t: &'a TypeName, todo: &mut Todo<'a>) -> Result<(), NoMemory>
    ensures { OnOk result (todo.new ≡ (spec specs.PartBegin
        ++ type_tape t.now.specs.words.items t.now.declr ++ spec specs.TypeEnd) ++ todo.old) }
{
    todo.spec_op(SpecOp::TypeEnd)?;
    type_name(&t.specs.words, &t.declr, todo)?;
    todo.spec_op(SpecOp::PartBegin)
}

/// A word of specifiers. `is_alone`: a tag is a declaration by itself.
fn specifier<'a>(word: &'a SpecWord, is_alone: bool, todo: &mut Todo<'a>) -> Result<(), NoMemory>
    ensures { OnOk result (todo.new ≡ word_tape is_alone (spec_word_of word.now) ++ todo.old) }
{
    match word {
        SpecWord::Storage(word) => todo.spec_op(SpecOp::Storage {
            keyword: word.keyword,
        }),
        SpecWord::Inline { .. } => todo.spec_op(SpecOp::Storage {
            keyword: Keyword::Inline,
        }),
        SpecWord::Thread { .. } | SpecWord::Noreturn { .. } | SpecWord::Attr(_) => Ok(()),
        SpecWord::Align(_) | SpecWord::Auto { .. } => Ok(()),
        SpecWord::Typeof { operand, close, .. } => typed_by_value(operand, *close, todo),
        SpecWord::TypeofType { type_name: t, .. } => typed_by_name(t, todo),
        SpecWord::Qual(qual) => todo.spec_op(SpecOp::Word {
            token: token_of_qual(qual),
        }),
        SpecWord::Type(word) => match word.keyword {
            Keyword::Void => todo.spec_op(SpecOp::Void),
            _ => Ok(()),
        },
        SpecWord::Struct(it) => struct_or_union(it, is_alone, todo),
        SpecWord::Enum(it) => enumeration(it, todo),
        SpecWord::TypedefName(name) => todo.spec_op(SpecOp::Typedef {
            token: name.token,
            name: name.name,
        }),
    }
}

/// Words of specifiers one after the other.
#[tactic(auto, using(crate::proofs::TodoLemmas::list_assoc))]
pub fn expand_words<'a>(
    words: &'a [SpecWord],
    is_alone: bool,
    todo: &mut Todo<'a>,
) -> Result<(), NoMemory>
    ensures { OnOk result (todo.new ≡ words_tape is_alone (spec_words_from words.now) ++ todo.old) }
{
    match words.split_first() {
        None => Ok(()),
        Some((first, rest)) => {
            todo.words(rest, is_alone)?;
            specifier(first, is_alone, todo)
        }
    }
}

fn unnamed_struct<'a>(it: &'a Struct, todo: &mut Todo<'a>) -> Result<(), NoMemory>
    ensures { OnOk result
        (todo.new ≡ unnamed_word_tape (struct_type it.now.keyword it.now.attrs.items it.now.tag
        (some_body_from it.now.body)) ++ todo.old) }
{
    match &it.tag {
        None => todo.spec_op(SpecOp::UnnamedMember {
            token: it.keyword.token,
        }),
        Some(_) => Ok(()),
    }
}

fn unnamed_word<'a>(word: &'a SpecWord, todo: &mut Todo<'a>) -> Result<(), NoMemory>
    ensures { OnOk result (todo.new ≡ unnamed_word_tape (spec_word_of word.now) ++ todo.old) }
{
    match word {
        SpecWord::Storage(_)
        | SpecWord::Thread { .. }
        | SpecWord::Inline { .. }
        | SpecWord::Noreturn { .. }
        | SpecWord::Qual(_)
        | SpecWord::Type(_)
        | SpecWord::Enum(_)
        | SpecWord::TypedefName(_)
        | SpecWord::Typeof { .. }
        | SpecWord::TypeofType { .. }
        | SpecWord::Align(_)
        | SpecWord::Auto { .. }
        | SpecWord::Attr(_) => Ok(()),
        SpecWord::Struct(it) => unnamed_struct(it, todo),
    }
}

/// A struct or union without a tag among words of specifiers.
#[tactic(auto, using(crate::proofs::TodoLemmas::list_assoc))]
pub fn expand_unnamed<'a>(words: &'a [SpecWord], todo: &mut Todo<'a>) -> Result<(), NoMemory>
    ensures { OnOk result (todo.new ≡ unnamed_tape (spec_words_from words.now) ++ todo.old) }
{
    match words.split_first() {
        None => Ok(()),
        Some((word, rest)) => {
            todo.unnamed(rest)?;
            unnamed_word(word, todo)
        }
    }
}

/// The members of a declaration with these specifiers.
#[tactic(auto, using(crate::proofs::TodoLemmas::list_assoc))]
fn members<'a>(
    words: &'a Vec<SpecWord>,
    declrs: &'a [Listed<MemDeclr>],
    todo: &mut Todo<'a>,
) -> Result<(), NoMemory>
    ensures { OnOk result (todo.new ≡ members_tape (spec_words_from words.now.items)
        (mem_declrs_from declrs.now) ++ todo.old) }
{
    match declrs.split_first() {
        None => todo.unnamed(words.as_slice()),
        Some((declr, rest)) => {
            todo.mem_declrs(rest)?;
            member_declarator(&declr.item, todo)
        }
    }
}

#[tactic(auto, using(crate::proofs::TodoLemmas::list_assoc))]
fn member<'a>(it: &'a Member, todo: &mut Todo<'a>) -> Result<(), NoMemory>
    ensures { OnOk result
        (todo.new ≡ (specs_with
        (words_tape false (spec_words_from it.now.specs.words.items)) ++ members_tape
        (spec_words_from it.now.specs.words.items)
        (mem_declrs_from it.now.declrs.items) ++ declr declrs_ops.DeclarationEnd) ++ todo.old) }
{
    todo.declr_op(DeclrOp::DeclarationEnd)?;
    members(&it.specs.words, it.declrs.as_slice(), todo)?;
    specifiers(&it.specs.words, false, todo)
}

#[tactic(auto, using(crate::proofs::TodoLemmas::list_assoc))]
fn struct_item<'a>(item: &'a StructItem, todo: &mut Todo<'a>) -> Result<(), NoMemory>
    ensures { OnOk result (todo.new ≡ struct_item_tape (struct_item_of item.now) ++ todo.old) }
{
    match item {
        StructItem::Member(it) => member(it, todo),
        StructItem::Semi(_) | StructItem::Assert(_) => Ok(()),
    }
}

/// Items of a body one after the other.
#[tactic(auto, using(crate::proofs::TodoLemmas::list_assoc))]
pub fn expand_struct_items<'a>(items: &'a [StructItem], todo: &mut Todo<'a>) -> Result<(), NoMemory>
    ensures { OnOk result (todo.new ≡ struct_items_tape (struct_items_from items.now) ++ todo.old) }
{
    match items.split_first() {
        None => Ok(()),
        Some((item, rest)) => {
            todo.struct_items(rest)?;
            struct_item(item, todo)
        }
    }
}

fn some_value<'a>(value: &'a Option<Marked<Box<Expr>>>, todo: &mut Todo<'a>) -> Result<(), NoMemory>
    ensures { OnOk result (todo.new ≡ some_value_tape (some_value_from value.now) ++ todo.old) }
{
    match value {
        Some(value) => todo.quiet(&value.part),
        None => Ok(()),
    }
}

#[tactic(auto, using(crate::proofs::TodoLemmas::list_assoc))]
fn named_member<'a>(
    it: &'a Box<Declr>,
    width: &'a Option<Marked<Box<Expr>>>,
    todo: &mut Todo<'a>,
) -> Result<(), NoMemory>
    ensures { OnOk result
        (todo.new ≡ (contents false (declr_of it.now.value) ++ pieces
        (declr_of it.now.value) ++ declr declrs_ops.Member ++ some_value_tape
        (some_value_from width.now)) ++ todo.old) }
{
    some_value(width, todo)?;
    todo.declr_op(DeclrOp::Member)?;
    declarator(it, false, todo)
}

fn member_declarator<'a>(d: &'a MemDeclr, todo: &mut Todo<'a>) -> Result<(), NoMemory>
    ensures { OnOk result (todo.new ≡ mem_declr_tape (mem_declr_of d.now) ++ todo.old) }
{
    match d {
        MemDeclr::Named { declr, width, .. } => named_member(declr, width, todo),
        MemDeclr::Unnamed { width, .. } => todo.quiet(&width.part),
    }
}

/// Declarators of a member one after the other.
#[tactic(auto, using(crate::proofs::TodoLemmas::list_assoc))]
pub fn expand_mem_declrs<'a>(
    declrs: &'a [Listed<MemDeclr>],
    todo: &mut Todo<'a>,
) -> Result<(), NoMemory>
    ensures { OnOk result (todo.new ≡ mem_declrs_tape (mem_declrs_from declrs.now) ++ todo.old) }
{
    match declrs.split_first() {
        None => Ok(()),
        Some((declr, rest)) => {
            todo.mem_declrs(rest)?;
            member_declarator(&declr.item, todo)
        }
    }
}

/// Enumerators one after the other.
#[tactic(auto, using(crate::proofs::TodoLemmas::list_assoc))]
pub fn expand_enumerators<'a>(items: &'a [Enumerator], todo: &mut Todo<'a>) -> Result<(), NoMemory>
    ensures { OnOk result (todo.new ≡ enumerators_tape (enumerators_from items.now) ++ todo.old) }
{
    match items.split_first() {
        None => Ok(()),
        Some((item, rest)) => {
            todo.enumerators(rest)?;
            todo.spec_op(SpecOp::Enumerator {
                token: item.name.token,
                name: item.name.name,
            })?;
            some_value(&item.value, todo)
        }
    }
}
