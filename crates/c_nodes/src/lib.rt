//! Nodes of syntax trees with their heights, made of boxed parts.
//!
//! A reader of the program holds sized parts alone: each knows its height without a walk, and its type says that the
//! height is right. Functions are named as the forms of trees that they make.
//!
//! Entry: the functions of `making`. Invariant: a sized part has the height that its type says.
//! It does not know the tokens before and behind. Above: the readers.
#![tactic(auto)]

mod declarators;
mod expressions;
mod heights;
mod lists;
mod making;
mod sized;

pub use declarators::{
    base_name, declr_name, is_named, no_declr, no_size, param, present, size_star, size_value,
    some_declr, type_name, with_array, with_identifiers, with_params, with_paren, with_pointer,
};
pub use expressions::{
    arrow, call, cast, char_use, choose, compat, complex_part, compound, default_assoc, dot,
    extended, extension, generic, index, index_step, label_use, member_step, name_use, no_expr,
    number_use, offset, paren, post, prefix, sizeof_type, sizeof_value, some_expr, statement_expr,
    text_use, typed_assoc, va_arg, va_copy, va_start,
};
pub use heights::{above, above_both, greater, of_attrs, of_label, of_pointer_words};
pub use making::list_in_braces;
pub use sized::{
    PresentDeclr, SizedAssoc, SizedAssocs, SizedBlock, SizedBlockItem, SizedBlockItems, SizedBody,
    SizedDeclaration, SizedDeclr, SizedDesig, SizedDesigs, SizedElse, SizedEnumBody,
    SizedEnumerator, SizedEnumerators, SizedExpr, SizedExprs, SizedInit, SizedInitDeclr,
    SizedInitDeclrs, SizedInitItem, SizedInitItems, SizedInitList, SizedMemDeclr, SizedMember,
    SizedMembers, SizedParam, SizedParams, SizedSize, SizedSomeExpr, SizedSomeInit, SizedSpecs,
    SizedStart, SizedStep, SizedSteps, SizedStmt, SizedStructItem, SizedStructItems, SizedTypeName,
    SizedValue, SizedWord,
};
