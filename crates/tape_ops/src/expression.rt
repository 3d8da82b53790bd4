//! Operands and operators (C99, 6.5).

use c_words::Punct;
use qual_base::{NameId, TokenId};

/// A node of an expression without a type name: its operands' values are on the stack, and one value takes their place.
///
/// `token` is the token that the expression is known by.
#[derive(Clone, Copy, PartialEq, Eq, Debug)]
pub enum ExprOp {
    /// A name. `is_called`: it stands right before the `(` of a call, so it need not be declared.
    Name {
        is_called: bool,
        token: TokenId,
        name: NameId,
    },
    Number {
        token: TokenId,
    },
    Char {
        token: TokenId,
    },
    /// Adjacent texts, the first of which is `token`.
    Text {
        token: TokenId,
    },
    /// `( e )`: what `e` is, a zero too.
    Paren {
        token: TokenId,
    },
    /// `__extension__ e`, or a part of a complex number: what `e` is, but no zero.
    Ext {
        token: TokenId,
    },
    Comma {
        token: TokenId,
    },
    /// `=` or a compound assignment.
    Assign {
        sign: Punct,
        token: TokenId,
        first: TokenId,
        last: TokenId,
    },
    /// `?:`, of three operands, or of two where the middle is left out.
    Cond {
        has_middle: bool,
        token: TokenId,
        first: TokenId,
        last: TokenId,
    },
    /// A binary operator, from `||` to `%`.
    Binary {
        sign: Punct,
        token: TokenId,
        first: TokenId,
        last: TokenId,
    },
    /// An operator before its operand; `token` is its first token too. `aims`: the place of a `*` is only addressed; the operand of a `&`
    /// came to its place by a pointer.
    Prefix {
        sign: Punct,
        token: TokenId,
        last: TokenId,
        aims: bool,
    },
    /// `++` or `--` behind its operand; `token` is its last token too.
    Post {
        sign: Punct,
        token: TokenId,
        first: TokenId,
    },
    /// `aims`: its place is only addressed.
    Index {
        token: TokenId,
        first: TokenId,
        last: TokenId,
        aims: bool,
    },
    /// The next argument of a call. The arguments of a call stand right before it, behind all that they are made of.
    ///
    /// `behind` arguments come after it, so its value is that far down the stack, and the value called is under those of
    /// all arguments.
    Arg {
        behind: u32,
        first: TokenId,
        last: TokenId,
    },
    /// The end of a call: the value called and `count` arguments are on the stack.
    Call {
        token: TokenId,
        count: u32,
    },
    /// What a pointer before `->` points at; the member that is taken of it comes next. `aims`: its place is only addressed.
    Arrow {
        token: TokenId,
        first: TokenId,
        last: TokenId,
        aims: bool,
    },
    /// A member, behind `.` or `->`, which is `token`.
    Dot {
        token: TokenId,
        member: TokenId,
        name: NameId,
    },
    /// The address of a label, behind `&&`, which is `token`.
    Label {
        token: TokenId,
    },
}
