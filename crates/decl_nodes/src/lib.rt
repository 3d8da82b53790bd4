//! Specifiers, initialisers, declarations, statements and items, made of sized parts.
//!
//! The functions are named as the forms of trees that they make. Expressions, declarators and lists are made in
//! `c_nodes`.
//!
//! Entry: the functions of `making`. Invariant: a sized part has the height that its type says.
//! It does not know the tokens before and behind. Above: the readers of declarations and statements.
#![tactic(auto)]

mod declarations;
mod initialisers;
mod items;
mod making;
mod specifiers;
mod statements;

pub use declarations::{
    block_assert, block_declaration, block_labels, block_stmt, declaration, init_declr,
};
pub use initialisers::{
    index_desig, init_braced, init_item, init_list, init_value, member_desig, no_init, old_desig,
    range_desig, some_init,
};
pub use items::{
    asm_item, assert_item, declaration_item, function_item, old_function_item, push_declaration,
    push_item, semi_item,
};
pub use specifiers::{
    align, attribute, auto_word, basic, enum_type, enumerator, inline_word, listed_member, member,
    member_assert, member_semi, named, no_body, no_enum_body, no_value, noreturn, qualifier,
    some_body, some_enum_body, some_value, storage, struct_type, thread, typedef_name, typeof_type,
    typeof_value, unnamed, words_of_attrs, words_of_quals,
};
pub use statements::{
    asm_stmt, attr_stmt, block, block_of, break_stmt, case_range, case_stmt, continue_stmt,
    default_stmt, do_stmt, expr_stmt, for_stmt, goto_stmt, goto_value, if_stmt, label, no_else,
    return_stmt, some_else, start_declaration, start_value, switch_stmt, while_stmt,
};
