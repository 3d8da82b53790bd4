//! Statements, scopes, and what says nothing (C99, 6.2.1 and 6.8).

use qual_base::TokenId;

/// What statements do with values and scopes.
#[derive(Clone, Copy, PartialEq, Eq, Debug)]
pub enum StmtOp {
    /// What follows gives no constraint, no site and no type of its own, down to the `Loud`, `Sizeof` or `Offset` that ends it.
    Quiet,
    /// Ends what a `Quiet` began: an array's size, a width, an enumerator's value, a case label, an index of a designator.
    /// Its value is dropped.
    Loud,
    /// The value of an expression statement or of a condition is dropped.
    Pop,
    /// A `return` with a value. `token` is its first token too.
    Return { token: TokenId, last: TokenId },
    /// A scope begins.
    Enter,
    /// The innermost scope ends.
    Leave,
    /// The body of the function that was declared last begins, in the scope of its parameters.
    FunctionBody,
    /// The body of a function ends, and its scope.
    FunctionEnd,
}
