//! Expressions with a type name or a block, and the GNU forms (C99, 6.5.3.4, 6.5.4, 7.15, 7.17).

use qual_base::{NameId, TokenId};

/// A node of an expression that is made of more than expressions. A type name leaves its type on the stack, as a value.
#[derive(Clone, Copy, PartialEq, Eq, Debug)]
pub enum FormOp {
    /// A cast of a value to the type under it. `token` is its first token too.
    Cast { token: TokenId, last: TokenId },
    /// The end of `sizeof` or `alignof`. It drops the value of its operand, or the type that it names, and ends what was
    /// begun by a `Quiet` before this operand.
    Sizeof { token: TokenId },
    /// The end of a statement expression. `has_value`: the value of its last statement is on the stack, else it has none.
    StmtExpr { has_value: bool, token: TokenId },
    /// An argument of a list of them, of the type on the stack, with the list under it. `token` is its first token too.
    VaArg { token: TokenId, last: TokenId },
    /// `token` is its first token too, as in `VaCopy`.
    VaStart { token: TokenId, last: TokenId },
    VaCopy { token: TokenId, last: TokenId },
    /// A member in an offset: of the type on the stack.
    OffsetMember { token: TokenId, name: NameId },
    /// An index in an offset, with its value on the stack, and the type that it is applied to under it; `token` is `[`.
    OffsetIndex { token: TokenId },
    /// The end of an offset, as of `Sizeof`: a `Quiet` stands before its type name.
    Offset { token: TokenId },
    /// The end of a question whether two types are compatible, as of `Sizeof`: it drops two types.
    Compat { token: TokenId },
    /// The control of a selection by a type is whole: it ends what was begun by a `Quiet`, and its value stays on the stack.
    Control,
    /// The place of a type before the expression of a `default` association, which has none.
    NoType,
    /// The end of a choice between the two values on the stack.
    Choose { token: TokenId },
    /// The end of a selection: of `count` associations each has its type and its value on the stack, above the control.
    Generic { token: TokenId, count: u32 },
}
