//! The texts of expressions, specifiers and declarators, by which tests compare trees.
//!
//! Each form has its operator or its name, and parentheses round its parts: `(a + b)`, `-(a)`, `(a)++`, `paren(a)`,
//! `cast(int; a)`, `sizeof(a)` and `sizeoftype(int)`, `compound(int; {1})`, `stmtexpr({a;})`, `ext(a)`; `ptr(const p)`,
//! `array(a; 3)` and `fun(f; int x, ...)`, with the declarator inside first, or `_` where there is none. A typedef name
//! among specifiers is `<T>`. An attribute is `attr((a))`, its tokens in a row.

use crate::shown_statements::{put_block, put_designators, put_init_list};
use crate::text::{
    Text, operator_text, put_array_words, put_assert, put_attr, put_attrs, put_ellipsis,
    put_extensions, put_pointer_words, put_texts, sign_text,
};
use c_lexer::Tokens;
use c_syntax::{
    ArraySize, Assoc, Declr, Enum, Enumerator, Expr, Identifier, Listed, Marked, MemDeclr, Param,
    SpecWord, Struct, StructItem, TypeName,
};

#[cycle(shown)]
pub(crate) fn put_expr(text: &mut Text, tokens: &Tokens, e: &Expr) {
    match e {
        Expr::Comma { left, right, .. }
        | Expr::Assign { left, right, .. }
        | Expr::Or { left, right, .. }
        | Expr::And { left, right, .. }
        | Expr::BitOr { left, right, .. }
        | Expr::BitXor { left, right, .. }
        | Expr::BitAnd { left, right, .. }
        | Expr::Equal { left, right, .. }
        | Expr::NotEqual { left, right, .. }
        | Expr::Less { left, right, .. }
        | Expr::Greater { left, right, .. }
        | Expr::LessEqual { left, right, .. }
        | Expr::GreaterEqual { left, right, .. }
        | Expr::ShiftLeft { left, right, .. }
        | Expr::ShiftRight { left, right, .. }
        | Expr::Plus { left, right, .. }
        | Expr::Minus { left, right, .. }
        | Expr::Times { left, right, .. }
        | Expr::Divide { left, right, .. }
        | Expr::Remainder { left, right, .. } => {
            put_between(text, tokens, "(", left, " ");
            text.put(operator_text(e));
            put_between(text, tokens, " ", right, ")");
        }
        Expr::Cond {
            condition,
            middle,
            otherwise,
            ..
        } => {
            put_between(text, tokens, "(", condition, " ?");
            match middle {
                Some(middle) => put_between(text, tokens, " ", middle, ""),
                None => {}
            }
            put_between(text, tokens, " : ", otherwise, ")");
        }
        Expr::Cast {
            type_name,
            operand,
            ..
        } => {
            put_type_name(text, tokens, "cast(", type_name, "; ");
            put_between(text, tokens, "", operand, ")");
        }
        Expr::Prefix { sign, operand, .. } => {
            text.put(sign_text(*sign));
            put_between(text, tokens, "(", operand, ")");
        }
        Expr::Post { operand, sign, .. } => {
            put_between(text, tokens, "(", operand, ")");
            text.put(sign_text(*sign));
        }
        Expr::Sizeof { keyword, operand } => {
            text.put_token(tokens, keyword.token);
            put_between(text, tokens, "(", operand, ")");
        }
        Expr::SizeofType {
            keyword,
            type_name,
            ..
        } => {
            text.put_token(tokens, keyword.token);
            put_type_name(text, tokens, "type(", type_name, ")");
        }
        Expr::Index { base, index, .. } => {
            put_between(text, tokens, "index(", base, "; ");
            put_between(text, tokens, "", index, ")");
        }
        Expr::Call {
            callee,
            arguments,
            ..
        } => {
            put_between(text, tokens, "call(", callee, "");
            put_arguments(text, tokens, arguments.as_slice());
        }
        Expr::Dot { base, member, .. } => {
            put_between(text, tokens, "dot(", base, "; ");
            text.put_token(tokens, member.token);
            text.put(")");
        }
        Expr::Arrow { base, member, .. } => {
            put_between(text, tokens, "arrow(", base, "; ");
            text.put_token(tokens, member.token);
            text.put(")");
        }
        Expr::NameUse { token, .. } | Expr::NumberUse { token } | Expr::CharUse { token } =>
            text.put_token(tokens, *token),
        Expr::TextUse { texts } => put_texts(text, tokens, texts.as_slice()),
        Expr::Paren { inner, .. } => put_between(text, tokens, "paren(", inner, ")"),
        Expr::Ext { operand, .. } => put_between(text, tokens, "ext(", operand, ")"),
        Expr::Compound {
            type_name,
            list,
            ..
        } => {
            put_type_name(text, tokens, "compound(", type_name, "; ");
            put_init_list(text, tokens, list);
            text.put(")");
        }
        Expr::StmtExpr { block, .. } => {
            text.put("stmtexpr(");
            put_block(text, tokens, block);
            text.put(")");
        }
        Expr::VaArg {
            list,
            type_name,
            ..
        } => {
            put_between(text, tokens, "va_arg(", list, "; ");
            put_type_name(text, tokens, "", type_name, ")");
        }
        Expr::VaStart { list, last, .. } => {
            put_between(text, tokens, "va_start(", list, "; ");
            put_between(text, tokens, "", last, ")");
        }
        Expr::VaCopy { target, source, .. } => {
            put_between(text, tokens, "va_copy(", target, "; ");
            put_between(text, tokens, "", source, ")");
        }
        Expr::Offset {
            type_name,
            member,
            steps,
            ..
        } => {
            put_type_name(text, tokens, "offsetof(", type_name, "; ");
            text.put_token(tokens, member.token);
            put_designators(text, tokens, steps.as_slice());
            text.put(")");
        }
        Expr::Part { keyword, operand } => {
            text.put_token(tokens, *keyword);
            put_between(text, tokens, "(", operand, ")");
        }
        Expr::LabelUse { label, .. } => {
            text.put("&&");
            text.put_token(tokens, label.token);
        }
        Expr::Compat { left, right, .. } => {
            put_type_name(text, tokens, "compat(", left, "; ");
            put_type_name(text, tokens, "", right, ")");
        }
        Expr::Choose {
            condition,
            first,
            second,
            ..
        } => {
            put_between(text, tokens, "choose(", condition, "; ");
            put_between(text, tokens, "", first, "; ");
            put_between(text, tokens, "", second, ")");
        }
        Expr::Generic {
            control,
            associations,
            ..
        } => {
            put_between(text, tokens, "generic(", control, "");
            put_associations(text, tokens, associations.as_slice());
        }
    }
}

#[cycle(shown)]
fn put_associations(text: &mut Text, tokens: &Tokens, associations: &[Assoc]) {
    let mut is_first = true;
    for it in associations {
        text.put_before(is_first, "; ", ", ");
        match it {
            Assoc::Typed {
                type_name,
                value,
                ..
            } => {
                put_type_name(text, tokens, "", type_name, ": ");
                put_expr(text, tokens, value);
            }
            Assoc::Default { value, .. } => put_between(text, tokens, "default: ", value, ""),
        }
        is_first = false;
    }
    text.put(")");
}

/// The name of a type with what stands before and behind it.
#[cycle(shown)]
fn put_type_name(
    text: &mut Text,
    tokens: &Tokens,
    before: &str,
    type_name: &TypeName,
    behind: &str,
) {
    text.put(before);
    put_words(text, tokens, type_name.specs.words.as_slice());
    put_some_declr(text, tokens, " ", &type_name.declr, "");
    text.put(behind);
}

/// An expression with what stands before and behind it.
#[cycle(shown)]
pub(crate) fn put_between(text: &mut Text, tokens: &Tokens, before: &str, e: &Expr, behind: &str) {
    text.put(before);
    put_expr(text, tokens, e);
    text.put(behind);
}

#[cycle(shown)]
fn put_arguments(text: &mut Text, tokens: &Tokens, arguments: &[Expr]) {
    let mut is_first = true;
    for argument in arguments {
        text.put_before(is_first, "; ", ", ");
        put_expr(text, tokens, argument);
        is_first = false;
    }
    text.put(")");
}

#[cycle(shown)]
pub(crate) fn put_words(text: &mut Text, tokens: &Tokens, words: &[SpecWord]) {
    let mut is_first = true;
    for word in words {
        text.put_before(is_first, "", " ");
        put_word(text, tokens, word);
        is_first = false;
    }
}

#[cycle(shown)]
fn put_word(text: &mut Text, tokens: &Tokens, word: &SpecWord) {
    match word {
        SpecWord::Storage(word) | SpecWord::Type(word) => text.put_token(tokens, word.token),
        SpecWord::Thread { token } | SpecWord::Inline { token } | SpecWord::Noreturn { token } =>
            text.put_token(tokens, *token),
        SpecWord::Qual(qual) => text.put_qual(tokens, *qual),
        SpecWord::Struct(it) => put_struct(text, tokens, it),
        SpecWord::Enum(it) => put_enum(text, tokens, it),
        SpecWord::TypedefName(name) => {
            text.put("<");
            text.put_token(tokens, name.token);
            text.put(">");
        }
        SpecWord::Attr(attr) | SpecWord::Align(attr) => put_attr(text, tokens, *attr),
        SpecWord::Typeof { operand, .. } => put_between(text, tokens, "typeof(", operand, ")"),
        SpecWord::TypeofType {
            keyword,
            type_name,
            ..
        } => {
            text.put_token(tokens, keyword.token);
            put_type_name(text, tokens, "type(", type_name, ")");
        }
        SpecWord::Auto { token } => text.put_token(tokens, *token),
    }
}

#[cycle(shown)]
fn put_struct(text: &mut Text, tokens: &Tokens, it: &Struct) {
    text.put_token(tokens, it.keyword.token);
    put_attrs(text, tokens, " ", it.attrs.as_slice(), "");
    text.put_tag(tokens, it.tag);
    match &it.body {
        Some(body) => put_struct_items(text, tokens, body.items.as_slice()),
        None => {}
    }
}

#[cycle(shown)]
fn put_struct_items(text: &mut Text, tokens: &Tokens, items: &[StructItem]) {
    text.put(" {");
    let mut is_first = true;
    for item in items {
        text.put_before(is_first, "", " ");
        put_struct_item(text, tokens, item);
        is_first = false;
    }
    text.put("}");
}

#[cycle(shown)]
fn put_struct_item(text: &mut Text, tokens: &Tokens, item: &StructItem) {
    match item {
        StructItem::Member(it) => {
            put_extensions(text, it.extensions.as_slice());
            put_words(text, tokens, it.specs.words.as_slice());
            put_member_declrs(text, tokens, it.declrs.as_slice());
        }
        StructItem::Semi(_) => text.put(";"),
        StructItem::Assert(it) => put_assert(text, tokens, *it),
    }
}

#[cycle(shown)]
fn put_member_declrs(text: &mut Text, tokens: &Tokens, declrs: &[Listed<MemDeclr>]) {
    let mut is_first = true;
    for declr in declrs {
        text.put_before(is_first, " ", ", ");
        put_attrs(text, tokens, "", declr.attrs.as_slice(), " ");
        put_member_declr(text, tokens, &declr.item);
        is_first = false;
    }
    text.put(";");
}

#[cycle(shown)]
fn put_member_declr(text: &mut Text, tokens: &Tokens, declr: &MemDeclr) {
    match declr {
        MemDeclr::Named {
            declr,
            width,
            attrs,
        } => {
            put_declr(text, tokens, declr);
            put_value(text, tokens, " : ", width);
            put_attrs(text, tokens, " ", attrs.as_slice(), "");
        }
        MemDeclr::Unnamed { width, attrs } => {
            put_between(text, tokens, "_ : ", &width.part, "");
            put_attrs(text, tokens, " ", attrs.as_slice(), "");
        }
    }
}

#[cycle(shown)]
fn put_enum(text: &mut Text, tokens: &Tokens, it: &Enum) {
    text.put_token(tokens, it.keyword);
    put_attrs(text, tokens, " ", it.attrs.as_slice(), "");
    text.put_tag(tokens, it.tag);
    match &it.body {
        Some(body) => {
            put_enumerators(text, tokens, body.items.as_slice());
            text.put(if body.comma.is_some() { ",}" } else { "}" });
        }
        None => {}
    }
}

#[cycle(shown)]
fn put_enumerators(text: &mut Text, tokens: &Tokens, items: &[Enumerator]) {
    let mut is_first = true;
    for item in items {
        text.put_before(is_first, " {", ", ");
        text.put_token(tokens, item.name.token);
        put_attrs(text, tokens, " ", item.attrs.as_slice(), "");
        put_value(text, tokens, " = ", &item.value);
        is_first = false;
    }
}

/// A width or a value with what stands before it, where there is one.
#[cycle(shown)]
fn put_value(text: &mut Text, tokens: &Tokens, before: &str, value: &Option<Marked<Box<Expr>>>) {
    match value {
        Some(value) => put_between(text, tokens, before, &value.part, ""),
        None => {}
    }
}

#[cycle(shown)]
pub(crate) fn put_declr(text: &mut Text, tokens: &Tokens, declr: &Declr) {
    match declr {
        Declr::DeclName { token, .. } => text.put_token(tokens, *token),
        Declr::BaseName { token } => text.put_token(tokens, *token),
        Declr::Identifiers { inner, names, .. } => {
            text.put("old(");
            put_declr(text, tokens, inner);
            put_identifiers(text, tokens, names.as_slice());
        }
        Declr::DeclParen { attrs, inner, .. } | Declr::AbsParen { attrs, inner, .. } => {
            text.put("paren(");
            put_attrs(text, tokens, "", attrs.as_slice(), " ");
            put_declr(text, tokens, inner);
            text.put(")");
        }
        Declr::Pointer { words, inner, .. } => {
            text.put("ptr(");
            put_pointer_words(text, tokens, words.as_slice());
            put_declr(text, tokens, inner);
            text.put(")");
        }
        Declr::AbsPointer { words, inner, .. } => {
            text.put("ptr(");
            put_pointer_words(text, tokens, words.as_slice());
            put_some_declr(text, tokens, "", inner, "_");
            text.put(")");
        }
        Declr::Array {
            inner,
            words,
            size,
            ..
        } => {
            text.put("array(");
            put_declr(text, tokens, inner);
            text.put(";");
            put_array_words(text, tokens, words.as_slice());
            put_size(text, tokens, size);
        }
        Declr::AbsArray {
            inner,
            words,
            size,
            ..
        } => {
            text.put("array(");
            put_some_declr(text, tokens, "", inner, "_");
            text.put(";");
            put_array_words(text, tokens, words.as_slice());
            put_size(text, tokens, size);
        }
        Declr::Params {
            inner,
            params,
            ellipsis,
            ..
        } => {
            text.put("fun(");
            put_declr(text, tokens, inner);
            put_params(text, tokens, params.as_slice());
            put_ellipsis(text, tokens, ellipsis);
        }
        Declr::AbsParams {
            inner,
            params,
            ellipsis,
            ..
        } => {
            text.put("fun(");
            put_some_declr(text, tokens, "", inner, "_");
            put_params(text, tokens, params.as_slice());
            put_ellipsis(text, tokens, ellipsis);
        }
    }
}

pub(crate) fn put_identifiers(text: &mut Text, tokens: &Tokens, names: &[Identifier]) {
    let mut is_first = true;
    for name in names {
        text.put_before(is_first, "; ", ", ");
        text.put_token(tokens, name.token);
        is_first = false;
    }
    text.put(")");
}

/// A declarator with what stands before it, or what stands where there is none.
#[cycle(shown)]
fn put_some_declr(
    text: &mut Text,
    tokens: &Tokens,
    before: &str,
    declr: &Option<Box<Declr>>,
    none: &str,
) {
    match declr {
        Some(declr) => {
            text.put(before);
            put_declr(text, tokens, declr);
        }
        None => text.put(none),
    }
}

/// An array's size and end.
#[cycle(shown)]
fn put_size(text: &mut Text, tokens: &Tokens, size: &Option<ArraySize>) {
    match size {
        Some(ArraySize::Value(e)) => put_between(text, tokens, " ", e, ")"),
        Some(ArraySize::Star { .. }) => text.put(" *)"),
        None => text.put(")"),
    }
}

#[cycle(shown)]
fn put_params(text: &mut Text, tokens: &Tokens, params: &[Param]) {
    text.put(";");
    let mut is_first = true;
    for param in params {
        text.put_before(is_first, " ", ", ");
        put_words(text, tokens, param.specs.words.as_slice());
        put_some_declr(text, tokens, " ", &param.declr, "");
        put_attrs(text, tokens, " ", param.attrs.as_slice(), "");
        is_first = false;
    }
}
