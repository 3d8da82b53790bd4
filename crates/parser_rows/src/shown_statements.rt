//! The texts of initialisers, statements, declarations and units, by which tests compare trees.
//!
//! A statement has its keyword and parentheses round its parts: `if(c; a; else b;)`, `label(L; a;)`, `case(1; a;)`,
//! `for(int i = 0; (i < n); (i)++; a;)`. A block is `{a; b;}`, a list of initialisers `{1, .a[2] = 3}`, a function
//! `int fun(f; void) {}`. A row of tokens that says nothing here is written with nothing between them.

use crate::shown::{put_between, put_declr, put_expr, put_identifiers, put_words};
use crate::text::{Text, put_assert, put_attrs, put_extensions, put_group, put_label};
use c_lexer::Tokens;
use c_syntax::{
    Block, BlockItem, Decl, Declaration, Desig, Expr, ForStart, Init, InitDeclr, InitItem,
    InitList, Item, Listed, Marked, Stmt, Unit,
};
use qual_base::NoMemory;
use std::alloc::Global;

#[cycle(shown)]
fn put_init(text: &mut Text, tokens: &Tokens, init: &Init) {
    match init {
        Init::Value(value) => put_expr(text, tokens, value),
        Init::InitList(list) => put_init_list(text, tokens, list),
    }
}

#[cycle(shown)]
pub(crate) fn put_init_list(text: &mut Text, tokens: &Tokens, list: &InitList) {
    text.put("{");
    let mut is_first = true;
    for item in list.items.as_slice() {
        text.put_before(is_first, "", ", ");
        put_init_item(text, tokens, item);
        is_first = false;
    }
    text.put(if list.comma.is_some() { ",}" } else { "}" });
}

#[cycle(shown)]
fn put_init_item(text: &mut Text, tokens: &Tokens, item: &InitItem) {
    put_designators(text, tokens, item.desigs.as_slice());
    if item.equal.is_some() {
        text.put(" = ");
    }
    put_init(text, tokens, &item.init);
}

#[cycle(shown)]
pub(crate) fn put_designators(text: &mut Text, tokens: &Tokens, designators: &[Desig]) {
    for designator in designators {
        match designator {
            Desig::Member { name, .. } => {
                text.put(".");
                text.put_token(tokens, name.token);
            }
            Desig::Index { index, .. } => put_between(text, tokens, "[", index, "]"),
            Desig::Range { first, last, .. } => {
                put_between(text, tokens, "[", first, " ... ");
                put_between(text, tokens, "", last, "]");
            }
            Desig::Old { name, .. } => {
                text.put_token(tokens, name.token);
                text.put(": ");
            }
        }
    }
}

/// An expression with what stands before it, if there is one.
#[cycle(shown)]
fn put_some_expr(text: &mut Text, tokens: &Tokens, before: &str, e: &Option<Box<Expr>>) {
    match e {
        Some(e) => put_between(text, tokens, before, e, ""),
        None => {}
    }
}

#[cycle(shown)]
pub(crate) fn put_block(text: &mut Text, tokens: &Tokens, block: &Block) {
    text.put("{");
    let mut is_first = true;
    for item in block.items.as_slice() {
        text.put_before(is_first, "", " ");
        match item {
            BlockItem::Decl(decl) => put_decl(text, tokens, decl),
            BlockItem::Stmt(stmt) => put_stmt(text, tokens, stmt),
            BlockItem::Labels { names, .. } => {
                text.put("labels(");
                put_identifiers(text, tokens, names.as_slice());
            }
        }
        is_first = false;
    }
    text.put("}");
}

#[cycle(shown)]
fn put_stmt(text: &mut Text, tokens: &Tokens, stmt: &Stmt) {
    match stmt {
        Stmt::Block(block) => put_block(text, tokens, block),
        Stmt::ExprStmt { value, .. } => {
            put_some_expr(text, tokens, "", value);
            text.put(";");
        }
        Stmt::AttrStmt { attrs, .. } => {
            put_attrs(text, tokens, "", attrs.as_slice(), "");
            text.put(";");
        }
        Stmt::Label {
            name,
            attrs,
            body,
            ..
        } => {
            text.put("label(");
            text.put_token(tokens, name.token);
            text.put("; ");
            put_attrs(text, tokens, "", attrs.as_slice(), " ");
            put_part(text, tokens, "", body, ")");
        }
        Stmt::Case { value, body, .. } => {
            put_between(text, tokens, "case(", value, "");
            put_part(text, tokens, "; ", body, ")");
        }
        Stmt::Default { body, .. } => put_part(text, tokens, "default(", body, ")"),
        Stmt::If {
            condition,
            body,
            otherwise,
            ..
        } => {
            put_between(text, tokens, "if(", condition, "");
            put_part(text, tokens, "; ", body, "");
            put_else(text, tokens, otherwise);
        }
        Stmt::Switch { value, body, .. } => {
            put_between(text, tokens, "switch(", value, "");
            put_part(text, tokens, "; ", body, ")");
        }
        Stmt::While {
            condition,
            body,
            ..
        } => {
            put_between(text, tokens, "while(", condition, "");
            put_part(text, tokens, "; ", body, ")");
        }
        Stmt::Do {
            body,
            condition,
            ..
        } => {
            put_part(text, tokens, "do(", body, "; ");
            put_between(text, tokens, "", condition, ")");
        }
        Stmt::For {
            start,
            condition,
            step,
            body,
            ..
        } => {
            put_start(text, tokens, start);
            put_some_expr(text, tokens, " ", condition);
            text.put(";");
            put_some_expr(text, tokens, " ", step);
            put_part(text, tokens, "; ", body, ")");
        }
        Stmt::Goto { label, .. } => {
            text.put("goto ");
            text.put_token(tokens, label.token);
            text.put(";");
        }
        Stmt::Continue { .. } => text.put("continue;"),
        Stmt::Break { .. } => text.put("break;"),
        Stmt::Return { value, .. } => {
            text.put("return");
            put_some_expr(text, tokens, " ", value);
            text.put(";");
        }
        Stmt::CaseRange {
            first,
            last,
            body,
            ..
        } => {
            put_between(text, tokens, "case(", first, " ... ");
            put_between(text, tokens, "", last, "");
            put_part(text, tokens, "; ", body, ")");
        }
        Stmt::GotoValue { value, .. } => put_between(text, tokens, "goto *", value, ";"),
        Stmt::Asm { words, group, .. } => {
            text.put("asm");
            for word in words.as_slice() {
                text.put(" ");
                text.put_token(tokens, word.token);
            }
            put_group(text, tokens, *group);
            text.put(";");
        }
    }
}

/// A statement with what stands before and behind it.
#[cycle(shown)]
fn put_part(text: &mut Text, tokens: &Tokens, before: &str, stmt: &Stmt, behind: &str) {
    text.put(before);
    put_stmt(text, tokens, stmt);
    text.put(behind);
}

/// The end of an `if`.
#[cycle(shown)]
fn put_else(text: &mut Text, tokens: &Tokens, otherwise: &Option<Marked<Box<Stmt>>>) {
    match otherwise {
        Some(otherwise) => put_part(text, tokens, "; else ", &otherwise.part, ")"),
        None => text.put(")"),
    }
}

/// The beginning of a `for`.
#[cycle(shown)]
fn put_start(text: &mut Text, tokens: &Tokens, start: &ForStart) {
    text.put("for(");
    match start {
        ForStart::Declaration(it) => put_declaration(text, tokens, it),
        ForStart::Value { value, .. } => {
            put_some_expr(text, tokens, "", value);
            text.put(";");
        }
    }
}

#[cycle(shown)]
fn put_declaration(text: &mut Text, tokens: &Tokens, it: &Declaration) {
    put_extensions(text, it.extensions.as_slice());
    put_words(text, tokens, it.specs.words.as_slice());
    put_declrs(text, tokens, it.declrs.as_slice());
    text.put(";");
}

#[cycle(shown)]
fn put_declrs(text: &mut Text, tokens: &Tokens, declrs: &[Listed<InitDeclr>]) {
    let mut is_first = true;
    for declr in declrs {
        text.put_before(is_first, " ", ", ");
        put_attrs(text, tokens, "", declr.attrs.as_slice(), " ");
        put_init_declr(text, tokens, &declr.item);
        is_first = false;
    }
}

#[cycle(shown)]
fn put_init_declr(text: &mut Text, tokens: &Tokens, it: &InitDeclr) {
    put_declr(text, tokens, &it.declr);
    put_label(text, tokens, &it.label);
    put_attrs(text, tokens, " ", it.attrs.as_slice(), "");
    match &it.init {
        Some(init) => {
            text.put(" = ");
            put_init(text, tokens, &init.part);
        }
        None => {}
    }
}

#[cycle(shown)]
fn put_decl(text: &mut Text, tokens: &Tokens, decl: &Decl) {
    match decl {
        Decl::Declaration(it) => put_declaration(text, tokens, it),
        Decl::Assert(it) => put_assert(text, tokens, *it),
    }
}

fn put_declarations(text: &mut Text, tokens: &Tokens, declarations: &[Declaration]) {
    for it in declarations {
        put_declaration(text, tokens, it);
        text.put(" ");
    }
}

fn put_item(text: &mut Text, tokens: &Tokens, item: &Item) {
    match item {
        Item::Function {
            extensions,
            specs,
            declr,
            attrs,
            body,
        } => {
            put_extensions(text, extensions.as_slice());
            put_words(text, tokens, specs.words.as_slice());
            text.put(" ");
            put_declr(text, tokens, declr);
            put_attrs(text, tokens, " ", attrs.as_slice(), "");
            text.put(" ");
            put_block(text, tokens, body);
        }
        Item::OldFunction {
            extensions,
            specs,
            declr,
            attrs,
            declarations,
            body,
        } => {
            put_extensions(text, extensions.as_slice());
            put_words(text, tokens, specs.words.as_slice());
            text.put(" ");
            put_declr(text, tokens, declr);
            put_attrs(text, tokens, " ", attrs.as_slice(), "");
            text.put(" ");
            put_declarations(text, tokens, declarations.as_slice());
            put_block(text, tokens, body);
        }
        Item::Decl(it) => put_decl(text, tokens, it),
        Item::AsmDecl { group, .. } => {
            text.put("asm");
            put_group(text, tokens, *group);
            text.put(";");
        }
        Item::Semi(_) => text.put(";"),
    }
}

/// The items of a unit in a line.
pub(crate) fn unit_text(alloc: Global, tokens: &Tokens, unit: &Unit) -> Result<String, NoMemory> {
    let mut text = Text::new(alloc);
    let mut is_first = true;
    for item in unit.items.as_slice() {
        text.put_before(is_first, "", " ");
        put_item(&mut text, tokens, item);
        is_first = false;
    }
    text.done()
}
