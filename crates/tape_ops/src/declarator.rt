//! Declarators, and what they declare (C99, 6.7.5 to 6.7.7).

use qual_base::{NameId, TokenId};

/// A part of a declarator, or what becomes of a declarator.
///
/// A declarator is its name, parameters and sizes in token order; then what its type is made of, beginning with what is
/// nearest to the type of the specifiers; and then what it is for.
#[derive(Clone, Copy, PartialEq, Eq, Debug)]
pub enum DeclrOp {
    /// The name that is declared. It is in no scope yet.
    DeclName { token: TokenId, name: NameId },
    /// A list of parameters begins, with a scope. `is_own`: these are the parameters of a function with a body.
    ParamsBegin { is_own: bool },
    /// The next parameter, with the declarator and the specifiers before it.
    Param,
    /// The list ends, and its scope.
    ParamsEnd,
    /// A pointer to the type so far.
    Pointer,
    /// An array of the type so far.
    Array,
    /// A function that gives the type so far. Its parameters are those of the last list that ended and of which no `Function`
    /// was made.
    Function { has_ellipsis: bool },
    /// The declarator declares its name, in the innermost scope, from here on.
    Declare,
    /// The expression begins that gives its type to the name of the declarator.
    AutoBegin,
    /// It ends, in a declaration with this `;`: the declarator declares its name, in the innermost scope, from here on, with the type
    /// of its value, which stays on the stack.
    AutoEnd { token: TokenId },
    /// An identifier of a list that parameters are declared behind.
    Identifier { token: TokenId, name: NameId },
    /// The declarator declares a parameter of the innermost list of identifiers.
    OldParam,
    /// The declarator is a member of the innermost body.
    Member,
    /// A type name, whose first token is `first`.
    TypeName { first: TokenId },
    /// A declaration, a member or a function ends.
    DeclarationEnd,
}
