//! Initialisers (C99, 6.7.8).

use qual_base::{NameId, TokenId};

/// A part of an initialiser.
///
/// An initialiser in braces is a `Begin`; then all its expressions in token order, whose values stay on the stack, and the
/// indices of its designators; and behind them the `Rule` or `Literal` with the list once more, as items that take these
/// values one after the other, and the `End` or `LiteralEnd` that drops them.
#[derive(Clone, Copy, PartialEq, Eq, Debug)]
pub enum InitOp {
    /// The name that was declared last is initialised by the value on the stack.
    Value { first: TokenId, last: TokenId },
    /// The values of an initialiser in braces begin here on the stack.
    Begin,
    /// The rule for the name that was declared last: the list that follows initialises its contents.
    Rule,
    /// The rule for a compound literal, of the type that is on the stack under the values; `token` is its first token.
    Literal { token: TokenId },
    /// A list in braces begins, at the next target.
    ListBegin,
    /// `. name`: a member of what the item designates so far.
    Member { token: TokenId, name: NameId },
    /// `[ index ]`: an element of what the item designates so far; `token` is `[`.
    Index { token: TokenId },
    /// The next value, at the next target.
    Leaf { first: TokenId, last: TokenId },
    /// The innermost list ends.
    ListEnd,
    /// The initialiser of a declared name ends, and its values are dropped.
    End,
    /// A compound literal ends: its values and its type are dropped, and it is a value on the stack itself.
    LiteralEnd,
}
