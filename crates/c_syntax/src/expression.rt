//! Expressions (C99, 6.5).

use crate::declarator::TypeName;
use crate::initialiser::{Desig, InitList};
use crate::parts::{Identifier, Word};
use crate::statement::Block;
use c_words::Punct;
use qual_base::{NameId, TokenId};

/// The nodes of `expr`. The binary operators are left associative, and each has a node of its own.
#[cycle(tree)]
pub enum Expr {
    /// `Comma = expr , assign`.
    Comma {
        left: Box<Expr>,
        token: TokenId,
        right: Box<Expr>,
    },
    /// `Assign = unary op assign`, with `=` or one of the ten compound assignments.
    Assign {
        left: Box<Expr>,
        token: TokenId,
        sign: Punct,
        right: Box<Expr>,
    },
    /// `Cond = level 1 ? [expr] : cond`; without the middle, the condition stands for it (a GNU form).
    Cond {
        condition: Box<Expr>,
        question: TokenId,
        middle: Option<Box<Expr>>,
        colon: TokenId,
        otherwise: Box<Expr>,
    },
    /// `||`, of level 1.
    Or {
        left: Box<Expr>,
        token: TokenId,
        right: Box<Expr>,
    },
    /// `&&`, of level 2.
    And {
        left: Box<Expr>,
        token: TokenId,
        right: Box<Expr>,
    },
    /// `|`, of level 3.
    BitOr {
        left: Box<Expr>,
        token: TokenId,
        right: Box<Expr>,
    },
    /// `^`, of level 4.
    BitXor {
        left: Box<Expr>,
        token: TokenId,
        right: Box<Expr>,
    },
    /// `&`, of level 5.
    BitAnd {
        left: Box<Expr>,
        token: TokenId,
        right: Box<Expr>,
    },
    /// `==`, of level 6.
    Equal {
        left: Box<Expr>,
        token: TokenId,
        right: Box<Expr>,
    },
    /// `!=`, of level 6.
    NotEqual {
        left: Box<Expr>,
        token: TokenId,
        right: Box<Expr>,
    },
    /// `<`, of level 7.
    Less {
        left: Box<Expr>,
        token: TokenId,
        right: Box<Expr>,
    },
    /// `>`, of level 7.
    Greater {
        left: Box<Expr>,
        token: TokenId,
        right: Box<Expr>,
    },
    /// `<=`, of level 7.
    LessEqual {
        left: Box<Expr>,
        token: TokenId,
        right: Box<Expr>,
    },
    /// `>=`, of level 7.
    GreaterEqual {
        left: Box<Expr>,
        token: TokenId,
        right: Box<Expr>,
    },
    /// `<<`, of level 8.
    ShiftLeft {
        left: Box<Expr>,
        token: TokenId,
        right: Box<Expr>,
    },
    /// `>>`, of level 8.
    ShiftRight {
        left: Box<Expr>,
        token: TokenId,
        right: Box<Expr>,
    },
    /// `+`, of level 9.
    Plus {
        left: Box<Expr>,
        token: TokenId,
        right: Box<Expr>,
    },
    /// `-`, of level 9.
    Minus {
        left: Box<Expr>,
        token: TokenId,
        right: Box<Expr>,
    },
    /// `*`, of level 10.
    Times {
        left: Box<Expr>,
        token: TokenId,
        right: Box<Expr>,
    },
    /// `/`, of level 10.
    Divide {
        left: Box<Expr>,
        token: TokenId,
        right: Box<Expr>,
    },
    /// `%`, of level 10.
    Remainder {
        left: Box<Expr>,
        token: TokenId,
        right: Box<Expr>,
    },
    /// `Cast = ( TypeName ) cast`.
    Cast {
        open: TokenId,
        type_name: TypeName,
        close: TokenId,
        operand: Box<Expr>,
    },
    /// `Prefix = (++ | --) unary | (& | * | + | - | ~ | !) cast`.
    Prefix {
        token: TokenId,
        sign: Punct,
        operand: Box<Expr>,
    },
    /// `Sizeof = (sizeof | alignof) unary`.
    Sizeof {
        keyword: Word,
        operand: Box<Expr>,
    },
    /// `SizeofType = (sizeof | alignof) ( TypeName )`, not before `{`.
    SizeofType {
        keyword: Word,
        open: TokenId,
        type_name: TypeName,
        close: TokenId,
    },
    /// `Ext = __extension__ cast`.
    Ext {
        keyword: TokenId,
        operand: Box<Expr>,
    },
    /// `Index = postfix [ expr ]`.
    Index {
        base: Box<Expr>,
        open: TokenId,
        index: Box<Expr>,
        close: TokenId,
    },
    /// `Call = postfix ( [assign (, assign)*] )`.
    Call {
        callee: Box<Expr>,
        open: TokenId,
        arguments: Vec<Expr>,
        close: TokenId,
    },
    /// `Dot = postfix . Name`.
    Dot {
        base: Box<Expr>,
        token: TokenId,
        member: Identifier,
    },
    /// `Arrow = postfix -> Name`.
    Arrow {
        base: Box<Expr>,
        token: TokenId,
        member: Identifier,
    },
    /// `Post = postfix (++ | --)`.
    Post {
        operand: Box<Expr>,
        token: TokenId,
        sign: Punct,
    },
    /// `Compound = ( TypeName ) InitList`.
    Compound {
        open: TokenId,
        type_name: TypeName,
        close: TokenId,
        list: InitList,
    },
    /// `NameUse = Name`, where the name is no typedef.
    NameUse {
        token: TokenId,
        name: NameId,
    },
    NumberUse {
        token: TokenId,
    },
    CharUse {
        token: TokenId,
    },
    /// `TextUse = Text+`.
    TextUse {
        texts: Vec<TokenId>,
    },
    /// `Paren = ( expr )`.
    Paren {
        open: TokenId,
        inner: Box<Expr>,
        close: TokenId,
    },
    /// `StmtExpr = ( Block )`, a GNU form.
    StmtExpr {
        open: TokenId,
        block: Block,
        close: TokenId,
    },
    /// `VaArg = __builtin_va_arg ( assign , TypeName )`.
    VaArg {
        keyword: TokenId,
        open: TokenId,
        list: Box<Expr>,
        comma: TokenId,
        type_name: TypeName,
        close: TokenId,
    },
    /// `VaStart = __builtin_va_start ( assign , assign )`.
    VaStart {
        keyword: TokenId,
        open: TokenId,
        list: Box<Expr>,
        comma: TokenId,
        last: Box<Expr>,
        close: TokenId,
    },
    /// `VaCopy = __builtin_va_copy ( assign , assign )`.
    VaCopy {
        keyword: TokenId,
        open: TokenId,
        target: Box<Expr>,
        comma: TokenId,
        source: Box<Expr>,
        close: TokenId,
    },
    /// `Offset = __builtin_offsetof ( TypeName , Name (. Name | [ expr ])* )`.
    Offset {
        keyword: TokenId,
        open: TokenId,
        type_name: TypeName,
        comma: TokenId,
        member: Identifier,
        steps: Vec<Desig>,
        close: TokenId,
    },
    /// `Part = part cast`: the real or the imaginary part, a GNU form.
    Part {
        keyword: TokenId,
        operand: Box<Expr>,
    },
    /// `LabelUse = && Name`: a label as a value, a GNU form.
    LabelUse {
        token: TokenId,
        label: Identifier,
    },
    /// `Compat = __builtin_types_compatible_p ( TypeName , TypeName )`.
    Compat {
        keyword: TokenId,
        open: TokenId,
        left: TypeName,
        comma: TokenId,
        right: TypeName,
        close: TokenId,
    },
    /// `Choose = __builtin_choose_expr ( assign , assign , assign )`.
    Choose {
        keyword: TokenId,
        open: TokenId,
        condition: Box<Expr>,
        comma: TokenId,
        first: Box<Expr>,
        second_comma: TokenId,
        second: Box<Expr>,
        close: TokenId,
    },
    /// `Generic = _Generic ( assign , Assoc (, Assoc)* )` (C11, 6.5.1.1).
    Generic {
        keyword: TokenId,
        open: TokenId,
        control: Box<Expr>,
        associations: Vec<Assoc>,
        close: TokenId,
    },
}

/// `Assoc = (TypeName | default) : assign`.
#[cycle(tree)]
pub enum Assoc {
    Typed {
        type_name: TypeName,
        colon: TokenId,
        value: Box<Expr>,
    },
    Default {
        keyword: TokenId,
        colon: TokenId,
        value: Box<Expr>,
    },
}

impl Drop for Expr {
    #[cycle(tree)]
    fn drop(self) {
        match self {
            Expr::Comma {
                left: _left,
                token: _token,
                right: _right,
            } => {}
            Expr::Assign {
                left: _left,
                token: _token,
                sign: _sign,
                right: _right,
            } => {}
            Expr::Cond {
                condition: _condition,
                question: _question,
                middle: _middle,
                colon: _colon,
                otherwise: _otherwise,
            } => {}
            Expr::Or {
                left: _left,
                token: _token,
                right: _right,
            } => {}
            Expr::And {
                left: _left,
                token: _token,
                right: _right,
            } => {}
            Expr::BitOr {
                left: _left,
                token: _token,
                right: _right,
            } => {}
            Expr::BitXor {
                left: _left,
                token: _token,
                right: _right,
            } => {}
            Expr::BitAnd {
                left: _left,
                token: _token,
                right: _right,
            } => {}
            Expr::Equal {
                left: _left,
                token: _token,
                right: _right,
            } => {}
            Expr::NotEqual {
                left: _left,
                token: _token,
                right: _right,
            } => {}
            Expr::Less {
                left: _left,
                token: _token,
                right: _right,
            } => {}
            Expr::Greater {
                left: _left,
                token: _token,
                right: _right,
            } => {}
            Expr::LessEqual {
                left: _left,
                token: _token,
                right: _right,
            } => {}
            Expr::GreaterEqual {
                left: _left,
                token: _token,
                right: _right,
            } => {}
            Expr::ShiftLeft {
                left: _left,
                token: _token,
                right: _right,
            } => {}
            Expr::ShiftRight {
                left: _left,
                token: _token,
                right: _right,
            } => {}
            Expr::Plus {
                left: _left,
                token: _token,
                right: _right,
            } => {}
            Expr::Minus {
                left: _left,
                token: _token,
                right: _right,
            } => {}
            Expr::Times {
                left: _left,
                token: _token,
                right: _right,
            } => {}
            Expr::Divide {
                left: _left,
                token: _token,
                right: _right,
            } => {}
            Expr::Remainder {
                left: _left,
                token: _token,
                right: _right,
            } => {}
            Expr::Cast {
                open: _open,
                type_name: _type_name,
                close: _close,
                operand: _operand,
            } => {}
            Expr::Prefix {
                token: _token,
                sign: _sign,
                operand: _operand,
            } => {}
            Expr::Sizeof {
                keyword: _keyword,
                operand: _operand,
            } => {}
            Expr::SizeofType {
                keyword: _keyword,
                open: _open,
                type_name: _type_name,
                close: _close,
            } => {}
            Expr::Ext {
                keyword: _keyword,
                operand: _operand,
            } => {}
            Expr::Index {
                base: _base,
                open: _open,
                index: _index,
                close: _close,
            } => {}
            Expr::Call {
                callee: _callee,
                open: _open,
                arguments: _arguments,
                close: _close,
            } => {}
            Expr::Dot {
                base: _base,
                token: _token,
                member: _member,
            } => {}
            Expr::Arrow {
                base: _base,
                token: _token,
                member: _member,
            } => {}
            Expr::Post {
                operand: _operand,
                token: _token,
                sign: _sign,
            } => {}
            Expr::Compound {
                open: _open,
                type_name: _type_name,
                close: _close,
                list: _list,
            } => {}
            Expr::NameUse {
                token: _token,
                name: _name,
            } => {}
            Expr::NumberUse { token: _token } => {}
            Expr::CharUse { token: _token } => {}
            Expr::TextUse { texts: _texts } => {}
            Expr::Paren {
                open: _open,
                inner: _inner,
                close: _close,
            } => {}
            Expr::StmtExpr {
                open: _open,
                block: _block,
                close: _close,
            } => {}
            Expr::VaArg {
                keyword: _keyword,
                open: _open,
                list: _list,
                comma: _comma,
                type_name: _type_name,
                close: _close,
            } => {}
            Expr::VaStart {
                keyword: _keyword,
                open: _open,
                list: _list,
                comma: _comma,
                last: _last,
                close: _close,
            } => {}
            Expr::VaCopy {
                keyword: _keyword,
                open: _open,
                target: _target,
                comma: _comma,
                source: _source,
                close: _close,
            } => {}
            Expr::Offset {
                keyword: _keyword,
                open: _open,
                type_name: _type_name,
                comma: _comma,
                member: _member,
                steps: _steps,
                close: _close,
            } => {}
            Expr::Part {
                keyword: _keyword,
                operand: _operand,
            } => {}
            Expr::LabelUse {
                token: _token,
                label: _label,
            } => {}
            Expr::Compat {
                keyword: _keyword,
                open: _open,
                left: _left,
                comma: _comma,
                right: _right,
                close: _close,
            } => {}
            Expr::Choose {
                keyword: _keyword,
                open: _open,
                condition: _condition,
                comma: _comma,
                first: _first,
                second_comma: _second_comma,
                second: _second,
                close: _close,
            } => {}
            Expr::Generic {
                keyword: _keyword,
                open: _open,
                control: _control,
                associations: _associations,
                close: _close,
            } => {}
        }
    }
}

impl Drop for Assoc {
    #[cycle(tree)]
    fn drop(self) {
        match self {
            Assoc::Typed {
                type_name: _type_name,
                colon: _colon,
                value: _value,
            } => {}
            Assoc::Default {
                keyword: _keyword,
                colon: _colon,
                value: _value,
            } => {}
        }
    }
}
